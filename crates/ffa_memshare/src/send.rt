// SPDX-License-Identifier: MIT OR Apache-2.0
//! FFA_MEM_DONATE, FFA_MEM_LEND and FFA_MEM_SHARE: a sender opens a transaction.
ghost use Rattle.std.specs.Prelude.{◌≤◌, ◌≡◌, ◌<◌, ℕ, length, None, IfOk, OnOk, OnErr, Bool, Option, Some};
ghost use Rattle.std.specs.Result.{result_err};
ghost use Rattle.arrayvec.specs.ArrayVec.{array_vec_len};
ghost use Rattle.ffa_model.specs.Calls.{first_failure};
ghost use Rattle.ffa_model.specs.MemorySend.{send_guards};
ghost use Rattle.ffa_model.specs.SendDescriptor.{send_of, SendRecord};
ghost use Rattle.ffa_model.specs.Transactions.{next_handle};
ghost use Rattle.ffa_physmem.specs.Moments.{Only};
ghost use Rattle.ffa_pages.specs.Entry.{entry_at, own_right_at};
ghost use Rattle.ffa_stage2.specs.Tables.{table_page};
ghost use Rattle.ffa_memshare.specs.Callers.{IsCaller};
ghost use Rattle.ffa_memshare.specs.Memory.{memory_of, memory_parts};
ghost use Rattle.ffa_memshare.specs.Scenes.{descriptor_in, scene_in};
ghost use Rattle.ffa_memshare.specs.Sent.{IsSent};
ghost use Rattle.ffa_memshare.specs.Shared.{IsRoom};
ghost use Rattle.ffa_memshare.specs.Steps.{EndsSettledFor, OnlyMomentsFor};
ghost use Rattle.ffa_memshare.specs.Stored.{open_in};
ghost use Rattle.ffa_physmem.specs.Work.{AddsAtMost};
ghost use Rattle.ffa_memshare.specs.Work.{IsTakenFrom, sent_work};
ghost use Rattle.ffa_stage2.specs.Layout.{IsBuiltFor};
ghost use Rattle.ffa_model.specs.declared.rights.Rights.{Rights};
ghost use Rattle.ffa_model.specs.Identifiers.{place};
ghost use Rattle.ffa_memshare.specs.Ranges.{in_ranges};

use crate::changed::{News, Value, changed_sender};
use crate::descriptor_call::DescriptorCall;
use crate::open_slot::OpenSlot;
use crate::pool::Pool;
use ffa_model::{EndpointId, ErrorCode, Kind, Room, SlotNumber};
use ffa_pages::{KeptPage, PageTable};
use ffa_physmem::PhysMem;
use ffa_rxtx::Buffers;
use ffa_stage2::Layout;

impl<O: Room<OpenSlot> + Drop> Pool<O> {
    /// Serves FFA_MEM_DONATE, FFA_MEM_LEND or FFA_MEM_SHARE of an endpoint, with the descriptor in its TX. The
    /// transaction is then open, and no endpoint holds it. The sender keeps its own right to the pages of a share, and
    /// otherwise has no right. If the descriptor requests it, the pages are zeros. Returns the handle. The report of
    /// changed access names the sender, or no endpoint for a share.
    ///
    /// # Errors
    ///
    /// The first of these that applies. An error changes nothing.
    ///
    /// - `InvalidParameters`: the caller has no buffers, or the registers do not say that the descriptor is whole in
    ///   TX.
    /// - `InvalidParameters`: the bytes in TX are not a send descriptor of this kind.
    /// - `InvalidParameters`: the descriptor names another sender than the caller, or a receiver that is not an
    ///   endpoint.
    /// - `Denied`: a range is not in RAM.
    /// - `Denied`: a page does not belong to the caller, or is in an open transaction or in a buffer of an endpoint.
    /// - `Denied`: the sender's own right to a page is less than a grant or than zeros need.
    /// - `Denied`: on a machine of FF-A 1.2, the pages are of both worlds, or secure pages go to the normal world.
    /// - `NoMemory`: `MOST_OPEN` transactions of the caller are open, or the caller has made `Ffa::most_sends` sends.
    #[inline(always)]
    pub fn send<M: PhysMem, P: Room<KeptPage> + Drop>(
        &mut self,
        ram: &mut M,
        layout: &Layout,
        pages: &mut PageTable<P>,
        buffers: &Buffers,
        caller: EndpointId,
        kind: Kind,
        call: &DescriptorCall,
        news: &mut News,
    ) -> Result<Value, ErrorCode>
        requires room { IsRoom (memory_of (M.ram ram.old) layout.now pages.old) }
        requires caller { IsCaller (memory_of (M.ram ram.old) layout.now pages.old) buffers.now caller.0 }
        requires endpoints { length self.old.sent ≡ array_vec_len layout.now.regions }
        requires tables { let first = layout.now.tables.0 in
            let end = table_page first layout.now.blocks (array_vec_len layout.now.regions) 0 in
            (p : ℕ) → first ≤ p → p < end → entry_at pages.old p ≡ None }
        ensures refusal { let parts = memory_parts (M.ram ram.old) layout.now pages.old buffers.now self.old in
            let offer = send_of call.now.ffa kind (descriptor_in (M.ram ram.old) buffers.now caller.0 call.now) in
            result_err result ≡ first_failure (send_guards call.now.ffa (scene_in parts) caller.0 call.now.transfer offer) }
        ensures kept { OnErr result (self.new ≡ self.old) }
        ensures kept_pages { OnErr result (pages.new ≡ pages.old) }
        ensures kept_ram { OnErr result (M.ram ram.new ≡ M.ram ram.old) }
        ensures kept_past { OnErr result (M.past ram.new ≡ M.past ram.old) }
        ensures kept_news { OnErr result (news.new ≡ news.old) }
        ensures handle { IfOk result (λ value. value ≡ Value.Handle (next_handle (open_in self.old) caller.0)) }
        ensures sent { let before = memory_parts (M.ram ram.old) layout.now pages.old buffers.now self.old in
            let after = memory_parts (M.ram ram.new) layout.now pages.new buffers.now self.new in
            let bytes = descriptor_in (M.ram ram.old) buffers.now caller.0 call.now in
            OnOk result (IsSent before after caller.0 call.now.ffa kind bytes news.new) }

        // After each step, take any address. The walks of all endpoints give their results from before the call or a
        // translation fault. Or all give their results from after the call or a translation fault.
        ensures steps { OnlyMomentsFor layout.now (M.ram ram.old) (M.ram ram.new) (M.past ram.old) (M.past ram.new) }
        ensures ended { EndsSettledFor layout.now (M.ram ram.old) (M.ram ram.new) (M.past ram.new) }

        // The work is the work for the ranges that the descriptor names.
        ensures few { let base = layout.now.base.0 in let bytes = descriptor_in (M.ram ram.old) buffers.now caller.0 call.now in
            (offer : SendRecord) (access : ℕ → ℕ → Option Rights) (split : ℕ → Bool)
            → send_of call.now.ffa kind bytes ≡ Some offer → IsBuiltFor layout.now (M.ram ram.old) access
            → IsTakenFrom kind (access (place caller.0)) (in_ranges base offer.ranges) (own_right_at pages.old) split
            → AddsAtMost (M.past ram.old) (M.past ram.new) (sent_work kind base split offer.ranges offer.zero) }
    {
        let draft = &mut news.draft;
        let checked = self.check_send(ram, layout, pages, buffers, caller, kind, call, draft);
        news.draft.clear_offer();
        let slot = checked?;
        let transaction = &news.draft.transaction;
        let handle = transaction.handle;
        transaction.take_pages(ram, layout, pages, slot as SlotNumber);
        news.told
            .tell(&transaction.ranges, changed_sender(kind, caller));
        self.open(slot, transaction);
        Ok(Value::Handle(handle))
    }
}
