// SPDX-License-Identifier: MIT OR Apache-2.0
//! The runner's loads, stores and fetches, by the results of their walks.
ghost use Rattle.std.specs.Prelude.{true, ◌≡◌};
ghost use Rattle.std.specs.Option.{option_map};
ghost use Rattle.ffa_model.specs.declared.endpoint.PageNo.{PageNo};
ghost use Rattle.ffa_model.specs.Memory as memory;
ghost use Rattle.ffa_model.specs.Refusals.{is_refusal};
ghost use Rattle.ffa_spmc.specs.Moments.{AreMoments};
ghost use Rattle.ffa_spmc.specs.Unowned.{KeepsUnowned};
ghost use Rattle.ffa_spmc.specs.Walks.{walk_of};
ghost use Rattle.ffa_physmem.specs.Work.{AddsAtMost, loans_of};

use super::Manager;
use crate::storage::Store;
use ffa_model::{FaultKind, Leaf, Outcome, PageNo, Size};
use ffa_physmem::PhysMem;

impl<M: PhysMem + Drop, S: Store> Manager<M, S> {
    // Returns the result of an address's walk by the runner's table.
    #[inline(always)]
    pub(crate) fn translate(&self, addr: u64) -> Result<Leaf, FaultKind>
        ensures { result ≡ walk_of self.now.ram self.now.state self.now.state.runner addr }
    {
        ffa_walker::translate(&self.ram, self.root_at(self.runner().place()), addr)
    }

    // Returns the page of an address, counted from RAM's first page. Returns `None` below RAM, and from 2^32 on.
    pub(crate) fn page_of(&self, addr: u64) -> Option<PageNo>
        ensures { option_map (λ (page : PageNo). page.0) result ≡ memory.page_of_address self.now.state addr }
    {
        let base = u64::from(self.kept.manifest.ram_base.0);
        if base <= addr && addr < 1 << 32 {
            Some(PageNo(((addr - base) / 4096) as u32))
        } else {
            None
        }
    }

    // Does a load of the runner with this result of the address's walk.
    #[inline(always)]
    pub(crate) fn load(&self, walked: Result<Leaf, FaultKind>, addr: u64, size: Size) -> Outcome
        requires { walked ≡ walk_of self.now.ram self.now.state self.now.state.runner addr }
        ensures { result ≡ (memory.load self.now.state addr size).outcome }
    {
        match ffa_walker::load_at(&self.ram, walked, addr, size) {
            Ok(value) => Outcome::Data(value),
            Err(fault) => Outcome::Fault(fault),
        }
    }

    // Does a fetch of the runner with this result of the address's walk.
    pub(crate) fn fetch(&self, walked: Result<Leaf, FaultKind>, addr: u64) -> Outcome
        requires { walked ≡ walk_of self.now.ram self.now.state self.now.state.runner addr }
        ensures { result ≡ (memory.fetch self.now.state addr).outcome }
    {
        match ffa_walker::fetch_at(&self.ram, walked, addr) {
            Ok(instruction) => Outcome::Data(u64::from(instruction)),
            Err(fault) => Outcome::Fault(fault),
        }
    }

    // Does a store of the runner with this result of the address's walk.
    #[inline(always)]
    pub(crate) fn store(
        &mut self,
        walked: Result<Leaf, FaultKind>,
        addr: u64,
        size: Size,
        value: u64,
    ) -> Outcome
        requires { walked ≡ walk_of self.old.ram self.old.state self.old.state.runner addr }
        ensures outcome { result ≡ (memory.store self.old.state addr size value).outcome }
        ensures state { self.new.state ≡ (memory.store self.old.state addr size value).state }
        ensures refused { is_refusal result ≡ true → self.new ≡ self.old }
        ensures unowned { KeepsUnowned self.old.state self.old.ram self.new.ram }
        ensures moments { AreMoments self.old.state self.old.ram self.new.ram self.old.past self.new.past }
        ensures few { AddsAtMost self.old.past self.new.past (loans_of 1) }
    {
        match ffa_walker::store_at(&mut self.ram, walked, addr, size, value) {
            Ok(()) => Outcome::Done,
            Err(fault) => Outcome::Fault(fault),
        }
    }
}
