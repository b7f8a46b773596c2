// SPDX-License-Identifier: MIT OR Apache-2.0
//! The machine of one runner at a time, and its operations.
ghost use Rattle.std.specs.Prelude.{None, [], ◌≡◌, ℕ, ◌*◌, ◌<◌, ◌≤◌, length};
ghost use Rattle.ffa_model.specs.declared.limits.TheConstants.{MOST_ENDPOINTS};
ghost use Rattle.ffa_model.specs.Access.{access};
ghost use Rattle.ffa_model.specs.Agreement.{Agrees};
ghost use Rattle.ffa_model.specs.Notices.{has_notices};
ghost use Rattle.ffa_model.specs.Notifications.{has_pending, notifications_of};
ghost use Rattle.ffa_model.specs.Processors.{IsHere};
ghost use Rattle.ffa_model.specs.Ram.{zero_ram};
ghost use Rattle.ffa_model.specs.SoundState.{IsSoundState};
ghost use Rattle.ffa_laws.specs.Events.{seen};
ghost use Rattle.ffa_laws.specs.Isolation.{Isolated, NeverGrow, shown_to};
ghost use Rattle.ffa_laws.specs.Loans.{ZeroedIsForgotten};
ghost use Rattle.ffa_laws.specs.Readable.{RunConfidential};
ghost use Rattle.ffa_laws.specs.Replay.{Replays};
ghost use Rattle.ffa_laws.specs.RunIntegrity.{RunIntegrity};
ghost use Rattle.ffa_model.specs.State.{owner_of};
ghost use Rattle.ffa_model.specs.Step.{outcomes, state_after};
ghost use Rattle.ffa_spmc.specs.Cached.{AreWalks};
ghost use Rattle.ffa_spmc.specs.Operated.{AreOperated, IsDone};
ghost use Rattle.ffa_spmc.specs.Booted.{IsBooted, IsBootedBy, IsBootedHeld};
ghost use Rattle.ffa_spmc.specs.Mixtures.{TablesRest};
ghost use Rattle.ffa_spmc.specs.Readied.{IsReadyFor};
ghost use Rattle.ffa_spmc.specs.Storages.{IsRoomFor};
ghost use Rattle.ffa_spmc.specs.Unowned.{KeepsUnowned};

mod accesses;
mod certificates;
mod copy;
mod interrupts;
mod observing;
mod parts;

use crate::fill::Fill;
use crate::manager::Manager;
use crate::storage::{Inline, Storage, Store};
use ffa_memshare::{Changed, News};
use ffa_model::{EndpointId, Manifest, Op, Outcome, PageNo, Rights};
use ffa_physmem::PhysMem;
use ffa_tlb::{NoTlb, Translations};
use std::marker::Model;

/// A machine over any RAM, with any cache of leaves. Contracts see its state, which is the small machine's, and its RAM
/// with every byte. They also see the entries of the cache, and the report of changed access.
#[derive(Drop)]
pub struct Machine<M: PhysMem + Drop, T: Translations + Drop = NoTlb, S: Store = Inline> {
    manager: Manager<M, S>,
    cache: T,
    news: News,
}

impl<M: PhysMem + Drop, T: Translations + Drop, S: Store> Model for Machine<M, T, S> {
    ghost use Rattle.ffa_spmc.specs.Snapshot.{Snapshot, coded_snapshot, snapshot_of};

    ghost Value = { Snapshot };

    ghost coded = { coded_snapshot };

    ghost use Rattle.ffa_spmc.specs.Cached.{AreWalks};
    ghost use Rattle.ffa_spmc.specs.Mixtures.{TablesRest};

    ghost view = { λ m. snapshot_of m.manager (T.entries m.cache) m.news };

    // No entry of the cache is stale, and the tables are at rest.
    ghost invariant = { λ m.
        AreWalks (snapshot_of m.manager (T.entries m.cache) m.news)
        × TablesRest m.manager.state m.manager.ram m.manager.past };
}

impl<M: PhysMem + Drop> Machine<M> {
    /// Boots the machine of a manifest in its first state. Clears the RAM and builds the tables. So all pages are zeros
    /// except the tables' pages, also the manager's. Each access of the machine walks the tables.
    pub fn boot(manifest: &Manifest, ram: M) -> Machine<M>
        requires base { (M.ram ram).base ≡ manifest.now.ram_base.0 }
        requires size { length (M.ram ram).pages ≡ 512 * manifest.now.ram_blocks }
        ensures booted { IsBooted manifest.now result.state result.ram }
        ensures site { result.past.site ≡ (M.past ram).site }
        ensures rest { TablesRest result.state result.ram result.past }
    {
        Machine::boot_with(manifest, ram, NoTlb)
    }
}

impl<M: PhysMem + Drop, T: Translations + Drop> Machine<M, T> {
    /// Boots the machine of a manifest in its first state, with this cache. Clears the RAM and the cache, and builds
    /// the tables.
    pub fn boot_with(manifest: &Manifest, ram: M, cache: T) -> Machine<M, T>
        requires base { (M.ram ram).base ≡ manifest.now.ram_base.0 }
        requires size { length (M.ram ram).pages ≡ 512 * manifest.now.ram_blocks }
        ensures booted { IsBooted manifest.now result.state result.ram }
        ensures site { result.past.site ≡ (M.past ram).site }
        ensures held { result.held ≡ [] }
        ensures told { result.told ≡ None }
        ensures rest { TablesRest result.state result.ram result.past }
    {
        Machine::boot_in(Storage::inline(manifest), manifest, ram, cache, Fill::Clear)
    }
}

impl<M: PhysMem + Drop, T: Translations + Drop, S: Store> Machine<M, T, S> {
    /// Boots the machine of a manifest in its first state, in this storage, which has room for the data on pages and
    /// open transactions. `fill` says which pages the boot clears before it builds the tables. After the boot, all
    /// pages are zeros except the tables' pages and those that `fill` keeps. The cache holds nothing.
    // It is not inlined, because its frame holds copies of the machine's parts, which no caller needs once the machine
    // runs.
    #[inline(never)]
    pub fn boot_in(
        storage: Storage<S>,
        manifest: &Manifest,
        ram: M,
        cache: T,
        fill: Fill,
    ) -> Machine<M, T, S>
        requires storage { IsRoomFor manifest.now storage }
        requires base { (M.ram ram).base ≡ manifest.now.ram_base.0 }
        requires size { length (M.ram ram).pages ≡ 512 * manifest.now.ram_blocks }
        requires zeros { fill ≡ Fill.AlreadyZero → M.ram ram ≡ zero_ram manifest.now.ram_base.0 (512 * manifest.now.ram_blocks) }
        ensures booted { IsBootedBy fill manifest.now (M.ram ram) result.state result.ram }
        ensures site { result.past.site ≡ (M.past ram).site }
        ensures here { IsHere result.state }
        ensures held { result.held ≡ [] }
        ensures told { result.told ≡ None }
        ensures rest { TablesRest result.state result.ram result.past }
    {
        let mut ram = ram;
        fill.prepare(&mut ram, manifest);
        Machine::first(manifest, ram, cache, storage)
    }

    // Returns the machine of a manifest in its first state, in this storage. The RAM is all zeros, except the pages of
    // the manifest's regions.
    #[inline(always)]
    fn first(manifest: &Manifest, ram: M, cache: T, storage: Storage<S>) -> Machine<M, T, S>
        requires ram { IsReadyFor manifest.now (M.ram ram) }
        requires storage { IsRoomFor manifest.now storage }
        ensures booted { IsBootedHeld manifest.now (M.ram ram) result.state result.ram }
        ensures site { result.past.site ≡ (M.past ram).site }
        ensures held { result.held ≡ [] }
        ensures told { result.told ≡ None }
        ensures rest { TablesRest result.state result.ram result.past }
    {
        let mut cache = cache;
        cache.clear();
        Machine {
            manager: Manager::first(manifest, ram, storage),
            cache,
            news: News::none(),
        }
    }

    /// Returns the RAM. Its bytes are all that the machine keeps of tables and data.
    pub fn ram(&self) -> &M
        ensures ram { M.ram result.now ≡ self.now.ram }
        ensures past { M.past result.now ≡ self.now.past }
        ensures agrees { Agrees (M.ram result.now) self.now.state }
    {
        self.manager.ram()
    }

    /// Ends the machine, and returns its RAM with all bytes and its storage. The storage has room for another machine
    /// with the same number of pages.
    pub fn into_parts(self) -> (M, Storage<S>)
        ensures ram { M.ram result.0 ≡ self.ram }
        ensures past { M.past result.0 ≡ self.past }
        ensures pages { length result.1.pages ≡ length self.ram.pages }
    {
        let Machine {
            manager,
            cache: _,
            news: _,
        } = self;
        manager.into_parts()
    }

    /// Returns the cache. An entry of the cache is what the walk of its page's first address returns now.
    pub fn cache(&self) -> &T
        ensures held { T.entries result.now ≡ self.now.held }
        ensures walks { AreWalks self.now }
    {
        &self.cache
    }

    /// Returns the report of the access that the last successful call on memory changed, and clears it. The endpoint in
    /// the report is the caller, or `None`, as after FFA_MEM_SHARE.
    pub fn take_change(&mut self) -> Option<Changed>
        ensures told { result ≡ self.old.told }
        ensures rest { self.new ≡ record self.old { told = None } }
    {
        self.news.take()
    }

    /// Returns the endpoint that runs.
    pub fn runner(&self) -> EndpointId
        ensures { result.0 ≡ self.now.state.runner }
    {
        self.manager.runner()
    }

    /// Returns the number of endpoints, from 1 to 8.
    pub fn endpoints(&self) -> usize
        ensures number { result ≡ length self.now.state.parties }
        ensures some { 1 ≤ result }
        ensures few { result ≤ MOST_ENDPOINTS }
    {
        self.manager.endpoints()
    }

    /// Returns the owner of a page of the RAM. 0x8000 is the manager.
    pub fn owner_of(&self, page: PageNo) -> EndpointId
        requires { page.0 < length self.now.state.pages }
        ensures { result.0 ≡ owner_of self.now.state page.0 }
    {
        self.manager.owner_of(page)
    }

    /// Returns the right of an endpoint to a page. Returns `None` if the endpoint has no access, the page is outside
    /// the RAM, or the machine has no such endpoint.
    pub fn access(&self, endpoint: EndpointId, page: PageNo) -> Option<Rights>
        ensures { result ≡ access self.now.state endpoint.0 page.0 }
    {
        self.manager.access(endpoint, page)
    }

    /// Whether FFA_NOTIFICATION_GET of all classes would return a bit to this endpoint, because a notification of it is
    /// pending. It is false if the machine has no such endpoint.
    pub fn has_pending(&self, endpoint: EndpointId) -> bool
        ensures { result ≡ has_pending (notifications_of self.now.state) endpoint.0 }
    {
        self.manager.has_pending(endpoint)
    }

    /// Whether FFA_NOTIFICATION_INFO_GET would report an endpoint to the normal world. If so, the schedule receiver
    /// interrupt of the normal world must be pending. It is false on a machine of FF-A 1.1, where this call reports
    /// nothing.
    pub fn has_notices(&self) -> bool
        ensures { result ≡ has_notices self.now.state }
    {
        self.manager.has_notices()
    }

    /// Does one operation of the runner: a call, a load, a store or a fetch. A refusal (FFA_ERROR or a fault) changes
    /// nothing.
    #[inline(always)]
    pub fn op(&mut self, op: &Op) -> Outcome
        ensures done { IsDone self.old op.now result self.new }
    {
        let mut outcome = Outcome::Done;
        self.do_op(op, &mut outcome);
        outcome
    }

    /// Does one operation of the runner, as `op` does, and writes its outcome to `outcome`.
    // It is inlined, because a call for each line of a trace would cost a tenth of an access.
    #[inline(always)]
    pub fn do_op(&mut self, op: &Op, outcome: &mut Outcome)
        ensures done { IsDone self.old op.now outcome.new self.new }
    {
        match op {
            Op::Call(x) => {
                // Proof step: what holds of every manager, before the call and after it.
                self.manager.holds();
                self.manager
                    .call(x, &mut self.cache, &mut self.news, outcome);
                self.manager.holds();
            }
            Op::Load { addr, size } => self.load(*addr, *size, outcome),
            Op::Store { addr, size, value } => self.store(*addr, *size, *value, outcome),
            Op::Fetch { addr } => self.fetch(*addr, outcome),
        }
    }

    /// Does operations one after another, and writes their outcomes to `filled`. The endpoint that runs at that time
    /// does each operation.
    pub fn run(&mut self, ops: &[Op], filled: &mut [Outcome])
        requires { length ops.now ≡ length filled.old }
        ensures outcomes { filled.new ≡ outcomes self.old.state ops.now }
        ensures state { self.new.state ≡ state_after self.old.state ops.now }
        ensures agrees { Agrees self.new.ram self.new.state }
        ensures walks { AreWalks self.new }
        ensures sound { IsSoundState self.new.state }

        // Each operation changes the RAM and the cache as `op` says. Nothing else changes them.
        ensures chain { AreOperated self.old ops.now self.new }
        ensures unowned { KeepsUnowned self.old.state self.old.ram self.new.ram }

        // Take an endpoint of the machine. Take another steady state in which the endpoint has the same view, and
        // another list with the same items for it. Then it sees the same in both runs, and its view is the same after
        // both. Its items are its own operations and the events towards it. They are replayed on its view. The outcomes
        // that `run` filled in show what it sees.
        ensures isolated { Isolated self.old.state ops.now }
        ensures replays { Replays self.old.state ops.now }
        ensures shown { (e : ℕ) → shown_to e self.old.state.runner filled.new ≡ seen e self.old.state ops.now }

        // Take an endpoint. All that it sees of the run, and all that it can read after it, depends only on two things.
        // They are what it can read at the start, and its readings of the run. The readings are its own operations,
        // what these show it, and what it can read of events.
        ensures confidential { RunConfidential self.old.state ops.now }

        // An own right is never above the own right before, an access is never above the own right, and the manager's
        // pages stay its own.
        ensures never_grow { NeverGrow self.old.state self.new.state }

        // Take a page that an endpoint owns, and that is in no open transaction. It stays as it is while the endpoint
        // does not run. If the page is one of the endpoint's RX, it stays so while no message fills RX.
        ensures run_integrity { RunIntegrity self.old.state ops.now }

        // Take loads and fetches of the runner, and its stores into a loan. Suppose that its next call relinquishes the
        // loan with zeros, and that nothing refuses the call. Then the state after the call does not depend on these
        // operations. For each other endpoint that does not hold the loan, what it sees and reads does not depend on
        // them either.
        ensures forgotten_loans { ZeroedIsForgotten self.old.state }
    {
        // Proof step: what holds of every machine, before the operations and after them.
        self.holds();
        self.operate_all(ops, filled);
        self.holds();
    }

    // Does the operations in turn.
    fn operate_all(&mut self, ops: &[Op], filled: &mut [Outcome])
        requires { length ops.now ≡ length filled.old }
        ensures outcomes { filled.new ≡ outcomes self.old.state ops.now }
        ensures state { self.new.state ≡ state_after self.old.state ops.now }
        ensures chain { AreOperated self.old ops.now self.new }
    {
        for i in 0..ops.len() {
            filled[i] = self.op(&ops[i]);
        }
    }
}
