// SPDX-License-Identifier: MIT OR Apache-2.0
//! The partition manager: the parts that it keeps, and the effects of its calls and accesses.
ghost use Rattle.std.specs.Prelude.{true, false, ◌≡◌, None, Option, ◌<◌, ◌≤◌, length};
ghost use Rattle.std.specs.Option.{option_or};
ghost use Rattle.ffa_model.specs.declared.limits.TheConstants.{MOST_ENDPOINTS};
ghost use Rattle.ffa_model.specs.Access.{access};
ghost use Rattle.ffa_model.specs.Agreement.{Agrees};
ghost use Rattle.ffa_laws.specs.OwnAccess.{is_memory_call};
ghost use Rattle.ffa_model.specs.Refusals.{is_refusal, passes_no_error};
ghost use Rattle.ffa_model.specs.Registers.{decode};
ghost use Rattle.ffa_model.specs.Setup.{features_reply};
ghost use Rattle.ffa_model.specs.State.{owner_of, version_of};
ghost use Rattle.ffa_model.specs.Step.{serve, service};
ghost use Rattle.ffa_memshare.specs.declared.changed.Changed.{Changed};
ghost use Rattle.ffa_spmc.specs.Caching.{IsForgotten, most_pages};
ghost use Rattle.ffa_spmc.specs.Booted.{IsBootedHeld};
ghost use Rattle.ffa_spmc.specs.Readied.{IsReadyFor};
ghost use Rattle.ffa_spmc.specs.Served.{IsAnswered};
ghost use Rattle.ffa_spmc.specs.Machines.{IsManaged};
ghost use Rattle.ffa_spmc.specs.Storages.{IsRoomFor};
ghost use Rattle.ffa_spmc.specs.Mixtures.{TablesRest};
ghost use Rattle.ffa_spmc.specs.Moments.{AreMoments};
ghost use Rattle.ffa_spmc.specs.Unowned.{KeepsUnowned};
ghost use Rattle.ffa_physmem.specs.Work.{AddsAtMost};
ghost use Rattle.ffa_spmc.specs.Work.{call_work};

mod accesses;
mod buffers;
mod certificates;
mod copy;
mod forgetting;
mod memory;
mod messages;
mod notifications;
mod parts;
mod readings;
mod switching;
mod versions;

use crate::kept::Kept;
use crate::storage::{Inline, Storage, Store};
use ffa_memshare::News;
use ffa_model::{
    Address, Call, EndpointId, ErrorCode, Kind, Manifest, Outcome, PageNo, Reply, Rights, Version,
};
use ffa_physmem::PhysMem;
use ffa_stage2::{build, built_tables};
use ffa_tlb::Translations;
pub(crate) use readings::holds_bytes;
use std::marker::Model;

/// The partition manager over any RAM. Contracts see its state, which is the small machine's, and its RAM with every
/// byte.
#[derive(Drop)]
pub(crate) struct Manager<M: PhysMem + Drop, S: Store = Inline> {
    ram: M,
    kept: Kept<S>,
}

impl<M: PhysMem + Drop, S: Store> Model for Manager<M, S> {
    ghost use Rattle.ffa_spmc.specs.Managed.{Managed, coded_managed};

    ghost Value = { Managed };

    ghost coded = { coded_managed };

    ghost use Rattle.ffa_spmc.specs.KeptParts.{kept_parts};
    ghost use Rattle.ffa_spmc.specs.Meaning.{Parts, state_of, IsManager};

    ghost view = { λ m.
        let x : Parts = record {
          ram = M.ram m.ram;
          manifest = m.kept.manifest;
          kept = kept_parts m.kept;
        } in
        record { state = state_of x; ram = x.ram; past = M.past m.ram } };

    ghost invariant = { λ m.
        IsManager (record {
          ram = M.ram m.ram;
          manifest = m.kept.manifest;
          kept = kept_parts m.kept;
        }) };
}

impl<M: PhysMem + Drop, S: Store> Manager<M, S> {
    // Returns the manager of a manifest in its first state, in this storage, and builds the tables. The RAM is all
    // zeros before, except the pages of the manifest's regions. It is not inlined where a machine boots, so that the
    // manager's parts are copied less often.
    #[inline(never)]
    pub(crate) fn first(manifest: &Manifest, ram: M, storage: Storage<S>) -> Manager<M, S>
        requires ram { IsReadyFor manifest.now (M.ram ram) }
        requires storage { IsRoomFor manifest.now storage }
        ensures booted { IsBootedHeld manifest.now (M.ram ram) result.state result.ram }
        ensures site { result.past.site ≡ (M.past ram).site }
        ensures rest { TablesRest result.state result.ram result.past }
    {
        let mut ram = ram;
        let kept = Kept::first(manifest, storage);
        build(&mut ram, &kept.layout);
        // Proof step: what built tables grant holds from here on, and the manager's invariant has it.
        built_tables();
        Manager { ram, kept }
    }

    // Returns the RAM. Its bytes are all that the machine keeps of tables and data.
    pub(crate) fn ram(&self) -> &M
        ensures ram { M.ram result.now ≡ self.now.ram }
        ensures past { M.past result.now ≡ self.now.past }
        ensures agrees { Agrees (M.ram result.now) self.now.state }
    {
        &self.ram
    }

    // Ends the manager, and returns its RAM with all bytes and its storage. The storage has room for the same number of
    // pages.
    pub(crate) fn into_parts(self) -> (M, Storage<S>)
        ensures ram { M.ram result.0 ≡ self.ram }
        ensures past { M.past result.0 ≡ self.past }
        ensures pages { length result.1.pages ≡ length self.ram.pages }
    {
        let Manager { ram, kept } = self;
        let Kept {
            manifest: _,
            layout: _,
            bitmaps: _,
            pages,
            pool,
            buffers: _,
            chain: _,
            versions: _,
        } = kept;
        (ram, Storage { pages, pool })
    }

    // States what holds of every manager.
    #[inline(always)]
    pub(crate) fn holds(&self)
        ensures { IsManaged self.now }
    {
        // Proof step: code that reads one part has the invariant of all parts.
        let _ = &self.kept;
    }

    // Returns the address of RAM's first page. RAM has at most `most_pages` pages.
    pub(crate) fn ram_base(&self) -> Address
        ensures base { result.0 ≡ self.now.state.ram_base }
        ensures few { length self.now.state.pages ≤ most_pages }
    {
        self.kept.manifest.ram_base
    }

    // Returns the endpoint that runs.
    pub(crate) fn runner(&self) -> EndpointId
        ensures { result.0 ≡ self.now.state.runner }
    {
        self.kept.chain.runner()
    }

    // Returns the number of endpoints, from 1 to 8.
    pub(crate) fn endpoints(&self) -> usize
        ensures number { result ≡ length self.now.state.parties }
        ensures some { 1 ≤ result }
        ensures few { result ≤ MOST_ENDPOINTS }
    {
        self.kept.manifest.endpoints.len()
    }

    // Returns the form in which the runner writes and reads descriptors.
    fn version(&self) -> Version
        ensures { result ≡ version_of self.now.state self.now.state.runner }
    {
        self.kept.versions.of_endpoint(self.kept.chain.runner())
    }

    // Returns the owner of a page of the RAM. 0x8000 is the manager.
    pub(crate) fn owner_of(&self, page: PageNo) -> EndpointId
        requires { page.0 < length self.now.state.pages }
        ensures { result.0 ≡ owner_of self.now.state page.0 }
    {
        self.kept.pages.owner_of(page)
    }

    // Returns the right of an endpoint to a page. Returns `None` if the endpoint has no access, the page is outside the
    // RAM, or the machine has no such endpoint.
    pub(crate) fn access(&self, endpoint: EndpointId, page: PageNo) -> Option<Rights>
        ensures { result ≡ access self.now.state endpoint.0 page.0 }
    {
        let pages = &self.kept.pages;
        if page.0 < pages.pages() {
            self.kept.pool.access(pages, endpoint, page)
        } else {
            None
        }
    }

    // Serves FFA_FEATURES of the runner.
    fn features(&self, function: u32) -> Reply
        ensures { let runner = self.now.state.runner in
            result ≡ features_reply self.now.state.ffa runner (version_of self.now.state runner) function }
    {
        let runner = self.kept.chain.runner();
        ffa_setup::features(function, self.kept.manifest.ffa, runner, self.version())
    }

    // Serves a call of the runner, which is in these registers. After the call, the cache holds nothing that the call
    // made stale, and the news report the access that the call changed.
    #[inline(always)]
    pub(crate) fn call<T: Translations>(
        &mut self,
        x: &[u64; 8],
        cache: &mut T,
        news: &mut News,
        outcome: &mut Outcome,
    )
        ensures outcome { outcome.new ≡ (serve self.old.state (decode x.now)).outcome }
        ensures state { self.new.state ≡ (serve self.old.state (decode x.now)).state }
        ensures refused { is_refusal outcome.new ≡ true → self.new ≡ self.old }
        ensures unowned { KeepsUnowned self.old.state self.old.ram self.new.ram }
        ensures moments { AreMoments self.old.state self.old.ram self.new.ram self.old.past self.new.past }
        ensures few { AddsAtMost self.old.past self.new.past (call_work self.old.state (decode x.now)) }
        ensures changed { (changed : Option Changed)
            × IsForgotten self.old.state self.new.state (T.entries cache.old) (T.entries cache.new) changed
            × (news.new ≡ option_or changed news.old)
            × (is_memory_call (decode x.now) ≡ false → changed ≡ None) }
        ensures unchanged { is_refusal outcome.new ≡ true → T.entries cache.new ≡ T.entries cache.old }
        ensures untold { is_refusal outcome.new ≡ true → news.new ≡ news.old }
    {
        let mut call = Call::Unknown;
        ffa_abi::decode_into(x, &mut call);
        let reply = self.reply(&call, cache, news);
        *outcome = Outcome::Regs {
            runner: self.kept.chain.runner(),
            x: [0; 8],
        };
        if let Outcome::Regs { x: answer, .. } = outcome {
            ffa_abi::encode_into(&reply, answer);
        }
    }

    // Returns the reply to a call of the runner. The function of each arm promises what its own call does.
    // Each arm first makes its checks, which change nothing, and then has its effect. If the effect made the checks,
    // either each test would exist twice, or the code that explains a refusal would not be the code that refuses.
    #[inline(always)]
    fn reply<T: Translations>(&mut self, call: &Call, cache: &mut T, news: &mut News) -> Reply
        requires { passes_no_error call.now ≡ true }
        ensures { IsAnswered self.old self.new (T.entries cache.old) (T.entries cache.new) news.old news.new
            (is_memory_call call.now) (service self.old.state call.now) (call_work self.old.state call.now) result }
    {
        match call {
            Call::Version { version } => self.ffa_version(*version),
            Call::Features { function } => self.features(*function),
            Call::RxRelease => self.rx_release(),
            Call::RxtxMap { tx, rx, pages } => self.rxtx_map(*tx, *rx, *pages),
            Call::RxtxUnmap { endpoint } => self.rxtx_unmap(*endpoint),
            Call::PartitionInfoGet { uuid, flags } => self.partition_info_get(*uuid, *flags),
            Call::IdGet => ffa_setup::id(self.kept.chain.runner()),
            Call::SpmIdGet => ffa_setup::spm_id(),
            Call::MsgWait { flags } => self.msg_wait(*flags),
            Call::Yield => self.yield_now(),
            Call::Run { target, context } => self.run_partition(*target, *context),
            Call::DirectRequest(message) => self.direct_request(message),
            Call::DirectResponse(message) => self.direct_response(message),
            Call::MsgSend2 => self.msg_send2(),
            Call::MemDonate(transfer) => self.mem_send(Kind::Donate, *transfer, cache, news),
            Call::MemLend(transfer) => self.mem_send(Kind::Lend, *transfer, cache, news),
            Call::MemShare(transfer) => self.mem_send(Kind::Share, *transfer, cache, news),
            Call::MemRetrieve(transfer) => self.mem_retrieve(*transfer, cache, news),
            Call::MemRelinquish => self.mem_relinquish(cache, news),
            Call::MemReclaim { handle, flags } => self.mem_reclaim(*handle, *flags, cache, news),
            Call::BitmapCreate { endpoint, contexts } => self.bitmap_create(*endpoint, *contexts),
            Call::BitmapDestroy { endpoint } => self.bitmap_destroy(*endpoint),
            Call::NotificationBind(bits) => self.notification_bind(bits),
            Call::NotificationUnbind(bits) => self.notification_unbind(bits),
            Call::NotificationSet(bits) => self.notification_set(bits),
            Call::NotificationGet {
                receiver,
                context,
                flags,
            } => self.notification_get(*receiver, *context, *flags),
            Call::NotificationInfoGet { is_wide } => self.notification_info_get(*is_wide),
            Call::Unknown => Reply::Error(ErrorCode::NotSupported),
        }
    }
}
