// SPDX-License-Identifier: MIT OR Apache-2.0
//! Finds the first check of a call of the runner that fails, by the checks that the calls themselves make.
ghost use Rattle.std.specs.Prelude.{◌≡◌, ◌∷◌, [], ◌||◌, Bool, None, not};
ghost use Rattle.std.specs.Option.{option_map};
ghost use Rattle.ffa_mend.specs.Explained.{explained};
ghost use Rattle.ffa_model.specs.Buffers.{rx_release, rxtx_map, rxtx_unmap};
ghost use Rattle.ffa_model.specs.Calls.{first_refusal};
ghost use Rattle.ffa_model.specs.MemoryReturn.{memory_reclaim};
ghost use Rattle.ffa_model.specs.Messages.{msg_send2};
ghost use Rattle.ffa_model.specs.Notifications.{bitmap_create, bitmap_destroy, notification_bind, notification_get, notification_set, notification_unbind};
ghost use Rattle.ffa_model.specs.RunStates.{direct_request, direct_response, run_partition, schedule_of, wait_guards, yield_now};
ghost use Rattle.ffa_model.specs.Notices.{notification_info_get};
ghost use Rattle.ffa_model.specs.Setup.{features, info_guards, is_count_alone, needs_buffers, uuid_bytes};
ghost use Rattle.ffa_model.specs.Step.{service};
ghost use Rattle.ffa_reasons.specs.Explanation.{with_told};

use crate::reasons::Reasons;
use ffa_mend::Explained;
use ffa_messages::{check_direct_req, check_direct_resp, check_send2};
use ffa_model::{Call, DirectMessage, EndpointId, Ffa, Handle, Kind, NotificationBits, Refusal};
use ffa_physmem::PhysMem;
use ffa_spmc::Store;
use ffa_tlb::Translations;

impl<M: PhysMem + Drop, T: Translations + Drop, S: Store> Reasons<'_, M, T, S> {
    // Returns the first check of a call that fails, with what the call names. Each arm uses the check of its call.
    pub(crate) fn refusal(&self, call: Call) -> Option<(Refusal, Explained)>
        ensures { result ≡ with_told self.now call (first_refusal (service self.now call).guards) }
    {
        match call {
            Call::Version { version: _ } => None,
            Call::Features { function } => bare(self.features_refusal(function)),
            Call::RxRelease => bare(self.rx_release_refusal()),
            Call::RxtxMap { tx, rx, pages } => self.why_map(tx, rx, pages),
            Call::RxtxUnmap { endpoint } => bare(self.rxtx_unmap_refusal(endpoint)),
            Call::PartitionInfoGet { uuid, flags } => bare(self.info_refusal(uuid, flags)),
            Call::IdGet => None,
            Call::SpmIdGet => None,
            Call::MsgWait { flags: _ } => bare(self.msg_wait_refusal()),
            Call::Yield => bare(self.yield_refusal()),
            Call::Run { target, context } => bare(self.run_refusal(target, context)),
            Call::DirectRequest(message) => bare(self.direct_request_refusal(&message)),
            Call::DirectResponse(message) => bare(self.direct_response_refusal(&message)),
            Call::MsgSend2 => self.why_message(),
            Call::MemDonate(transfer) => self.why_send(Kind::Donate, transfer),
            Call::MemLend(transfer) => self.why_send(Kind::Lend, transfer),
            Call::MemShare(transfer) => self.why_send(Kind::Share, transfer),
            Call::MemRetrieve(transfer) => self.why_retrieve(transfer),
            Call::MemRelinquish => self.why_relinquish(),
            Call::MemReclaim { handle, flags } => self.why_reclaim(handle, flags),
            Call::BitmapCreate { endpoint, contexts } => bare(self.bitmap_create_refusal(
                endpoint, contexts,
            )),
            Call::BitmapDestroy { endpoint } => bare(self.bitmap_destroy_refusal(endpoint)),
            Call::NotificationBind(bits) => self.why_bits(&call, self.bind_refusal(&bits)),
            Call::NotificationUnbind(bits) => self.why_bits(&call, self.unbind_refusal(&bits)),
            Call::NotificationSet(bits) => self.why_bits(&call, self.set_refusal(&bits)),
            Call::NotificationGet {
                receiver,
                context,
                flags,
            } => bare(self.notification_get_refusal(receiver, context, flags)),
            Call::NotificationInfoGet { is_wide: _ } => bare(self.notice_refusal()),
            Call::Unknown => bare(Some(Refusal::FunctionUnknown)),
        }
    }

    // Returns the check of FFA_FEATURES that fails.
    fn features_refusal(&self, function: u32) -> Option<Refusal>
        ensures { result ≡ first_refusal (features self.now function).guards }
    {
        let ffa = self.parts.manifest.ffa;
        let runner = self.parts.chain.runner();
        ffa_setup::check_features(function, ffa, runner).err()
    }

    // Returns the check of FFA_RX_RELEASE that fails.
    fn rx_release_refusal(&self) -> Option<Refusal>
        ensures { result ≡ first_refusal (rx_release self.now).guards }
    {
        let runner = self.parts.chain.runner();
        self.parts.buffers.check_release(runner).err()
    }

    // Returns the first check of FFA_RXTX_MAP that fails.
    pub(crate) fn rxtx_map_refusal(&self, tx: u64, rx: u64, pages: u32) -> Option<Refusal>
        ensures { result ≡ first_refusal (rxtx_map self.now tx rx pages).guards }
    {
        let parts = &self.parts;
        let base = parts.manifest.ram_base;
        let runner = parts.chain.runner();
        let found = parts
            .buffers
            .check_map(parts.pages, base, runner, tx, rx, pages);
        found.err()
    }

    // Returns the first check of FFA_RXTX_UNMAP that fails.
    fn rxtx_unmap_refusal(&self, endpoint: u32) -> Option<Refusal>
        ensures { result ≡ first_refusal (rxtx_unmap self.now endpoint).guards }
    {
        let runner = self.parts.chain.runner();
        self.parts.buffers.check_unmap(runner, endpoint).err()
    }

    // Returns the first check of FFA_PARTITION_INFO_GET that fails.
    fn info_refusal(&self, uuid: [u32; 4], flags: u32) -> Option<Refusal>
        ensures { result ≡ first_refusal (info_guards self.now (uuid_bytes uuid) flags) }
    {
        let buffers = self.parts.buffers;
        let runner = self.parts.chain.runner();
        let is_recognized = ffa_setup::is_recognized(self.parts.manifest, uuid);
        info_refusal(
            self.ffa(),
            is_recognized,
            is_count_alone(flags),
            buffers.has(runner),
            buffers.is_full(runner),
        )
    }

    // Returns the check of FFA_MSG_WAIT that fails, with any flags.
    fn msg_wait_refusal(&self) -> Option<Refusal>
        ensures { result ≡ first_refusal (wait_guards (schedule_of self.now)) }
    {
        self.parts.chain.check_wait().err()
    }

    // Returns the check of FFA_YIELD that fails.
    fn yield_refusal(&self) -> Option<Refusal>
        ensures { result ≡ first_refusal (yield_now self.now).guards }
    {
        self.parts.chain.check_yield().err()
    }

    // Returns the first check of FFA_RUN that fails.
    fn run_refusal(&self, target: EndpointId, context: u16) -> Option<Refusal>
        ensures { result ≡ first_refusal (run_partition self.now target.0 context).guards }
    {
        self.parts.chain.check_run(target, context).err()
    }

    // Returns the first check of FFA_MSG_SEND_DIRECT_REQ that fails.
    fn direct_request_refusal(&self, message: &DirectMessage) -> Option<Refusal>
        ensures { result ≡ first_refusal (direct_request self.now message.now).guards }
    {
        check_direct_req(self.parts.chain, self.parts.manifest, message).err()
    }

    // Returns the first check of FFA_MSG_SEND_DIRECT_RESP that fails.
    fn direct_response_refusal(&self, message: &DirectMessage) -> Option<Refusal>
        ensures { result ≡ first_refusal (direct_response self.now message.now).guards }
    {
        check_direct_resp(self.parts.chain, message).err()
    }

    // Returns the first check of FFA_MSG_SEND2 that fails.
    pub(crate) fn msg_send2_refusal(&self) -> Option<Refusal>
        ensures { result ≡ first_refusal (msg_send2 self.now).guards }
    {
        let parts = &self.parts;
        let version = self.version();
        let runner = parts.chain.runner();
        check_send2(parts.ram, parts.buffers, parts.manifest, version, runner).err()
    }

    // Returns the first check of FFA_MEM_RECLAIM that fails.
    pub(crate) fn mem_reclaim_refusal(&self, handle: Handle, flags: u32) -> Option<Refusal>
        ensures { result ≡ first_refusal (memory_reclaim self.now handle.0 flags).guards }
    {
        let parts = &self.parts;
        let runner = parts.chain.runner();
        let base = parts.layout.base;
        let found = parts
            .pool
            .check_reclaim(parts.pages, base, runner, handle, flags);
        found.err()
    }

    // Returns the first check of FFA_NOTIFICATION_BITMAP_CREATE that fails.
    fn bitmap_create_refusal(&self, endpoint: u32, contexts: u32) -> Option<Refusal>
        ensures { result ≡ first_refusal (bitmap_create self.now endpoint contexts).guards }
    {
        let ffa = self.parts.manifest.ffa;
        let runner = self.parts.chain.runner();
        let bitmaps = self.parts.bitmaps;
        bitmaps.check_create(ffa, runner, endpoint, contexts).err()
    }

    // Returns the first check of FFA_NOTIFICATION_BITMAP_DESTROY that fails.
    fn bitmap_destroy_refusal(&self, endpoint: u32) -> Option<Refusal>
        ensures { result ≡ first_refusal (bitmap_destroy self.now endpoint).guards }
    {
        let runner = self.parts.chain.runner();
        self.parts.bitmaps.check_destroy(runner, endpoint).err()
    }

    // Returns the first check of FFA_NOTIFICATION_BIND that fails.
    fn bind_refusal(&self, bits: &NotificationBits) -> Option<Refusal>
        ensures { result ≡ first_refusal (notification_bind self.now bits.now).guards }
    {
        let runner = self.parts.chain.runner();
        self.parts.bitmaps.check_bind(runner, bits).err()
    }

    // Returns the first check of FFA_NOTIFICATION_UNBIND that fails.
    fn unbind_refusal(&self, bits: &NotificationBits) -> Option<Refusal>
        ensures { result ≡ first_refusal (notification_unbind self.now bits.now).guards }
    {
        let runner = self.parts.chain.runner();
        self.parts.bitmaps.check_unbind(runner, bits).err()
    }

    // Returns the first check of FFA_NOTIFICATION_SET that fails.
    fn set_refusal(&self, bits: &NotificationBits) -> Option<Refusal>
        ensures { result ≡ first_refusal (notification_set self.now bits.now).guards }
    {
        let runner = self.parts.chain.runner();
        self.parts.bitmaps.check_set(runner, bits).err()
    }

    // Returns the first check of FFA_NOTIFICATION_GET that fails.
    fn notification_get_refusal(
        &self,
        receiver: EndpointId,
        context: u16,
        flags: u32,
    ) -> Option<Refusal>
        ensures { result ≡ first_refusal (notification_get self.now receiver.0 context flags).guards }
    {
        let ffa = self.parts.manifest.ffa;
        let runner = self.parts.chain.runner();
        let bitmaps = self.parts.bitmaps;
        bitmaps
            .check_get(ffa, runner, receiver, context, flags)
            .err()
    }

    // Returns the first check of FFA_NOTIFICATION_INFO_GET that fails, in either form.
    fn notice_refusal(&self) -> Option<Refusal>
        ensures { (is_wide : Bool) → result ≡ first_refusal (notification_info_get self.now is_wide).guards }
    {
        let ffa = self.parts.manifest.ffa;
        let runner = self.parts.chain.runner();
        self.parts.bitmaps.check_info(ffa, runner).err()
    }
}

// Returns the failed check of a call that names nothing more.
fn bare(refusal: Option<Refusal>) -> Option<(Refusal, Explained)>
    ensures { result ≡ option_map (λ refusal. (refusal, explained None None None)) refusal }
{
    Some((refusal?, Explained::of(None, None)))
}

// Returns the first check of FFA_PARTITION_INFO_GET that fails. It depends on whether the UUID is recognized, whether
// the call requests only the count, and whether the caller has buffers, with a full RX.
fn info_refusal(
    ffa: Ffa,
    is_recognized: bool,
    is_count_alone: bool,
    has_buffers: bool,
    is_full: bool,
) -> Option<Refusal>
    ensures { result ≡ first_refusal ((is_recognized, Refusal.UuidUnknown)
        ∷ (is_count_alone || has_buffers || needs_buffers ffa, Refusal.BuffersMissing)
        ∷ (is_count_alone || has_buffers, Refusal.BuffersNeeded)
        ∷ (is_count_alone || not is_full, Refusal.RxFull) ∷ []) }
{
    if !is_recognized {
        Some(Refusal::UuidUnknown)
    } else if is_count_alone {
        None
    } else if !has_buffers {
        Some(ffa_setup::missing_buffers(ffa))
    } else if is_full {
        Some(Refusal::RxFull)
    } else {
        None
    }
}

// Whether a request for partition information requests only the count.
fn is_count_alone(flags: u32) -> bool
    ensures { result ≡ is_count_alone flags }
{
    flags % 2 == 1
}
