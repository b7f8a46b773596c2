// SPDX-License-Identifier: MIT OR Apache-2.0
//! Reads of the runner's TX, to which other processors of the runner may write during the operation.
ghost use Rattle.std.specs.Prelude.{ℕ, true, false, ◌≡◌, ◌+◌, ◌≤◌, IfSome, IsSome, length};
ghost use Rattle.ffa_model.specs.declared.limits.TheConstants.{MOST_BUFFER_PAGES};
ghost use Rattle.ffa_model.specs.State.{page_at};
ghost use Rattle.ffa_physmem.specs.Moments.{HasNoCopies, is_copied};
ghost use Rattle.ffa_spmc.specs.Among.{AreRead, HaveInFront, IsRead, bytes_read_by, is_in};
ghost use Rattle.ffa_spmc.specs.Clustered.{pages_observed};
ghost use Rattle.ffa_spmc.specs.Snapshot.{memory_in};
ghost use Rattle.ffa_spmc.specs.Unowned.{IsNoTable};

use super::Machine;
use crate::run::{Front, Run};
use crate::storage::Store;
use ffa_model::Op;
use ffa_physmem::Observed;
use ffa_tlb::Translations;

impl<M: Observed + Drop, T: Translations + Drop, S: Store> Machine<M, T, S> {
    // Reads at once the bytes that an operation uses in its runner's TX, if others may write there. Returns their
    // pages, which are the runner's own.
    #[inline(always)]
    pub(crate) fn begin_reading(&mut self, op: &Op) -> Option<Run>
        requires free { HasNoCopies self.old.past }
        ensures pages { result ≡ pages_observed M.is_shared self.old.state op.now }
        ensures within { IfSome result (λ run. run.first.0 + run.count ≤ length self.old.ram.pages) }
        ensures aside { IfSome result (λ run. (p : ℕ) → is_in run p ≡ true → IsNoTable self.old.state p) }
        ensures owned { IfSome result (λ run. (p : ℕ) → is_in run p ≡ true → IsSome (page_at self.old.state p)) }
        ensures read { AreRead result true self.old self.new }
        ensures memory { M.is_alone ≡ true → memory_in self.new ≡ memory_in self.old }
        ensures same { M.is_alone ≡ true
            → IfSome result (λ run. HaveInFront run (bytes_read_by self.old.state op.now) self.old.state self.new.state) }
    {
        if !self.manager.ram().is_shared() {
            return None;
        }
        let front = self.manager.front_read(op)?;
        self.read_front(front);
        Some(front.pages)
    }

    // Reads at once the first bytes of pages that are not pages of the tables.
    fn read_front(&mut self, front: Front)
        requires within { front.pages.first.0 + front.pages.count ≤ length self.old.ram.pages }
        requires few { front.pages.count ≤ MOST_BUFFER_PAGES }
        requires free { HasNoCopies self.old.past }
        requires aside { (p : ℕ) → is_in front.pages p ≡ true → IsNoTable self.old.state p }
        ensures read { IsRead front.pages true self.old self.new }
        ensures memory { M.is_alone ≡ true → memory_in self.new ≡ memory_in self.old }
        ensures same { M.is_alone ≡ true → HaveInFront front.pages front.bytes self.old.state self.new.state }
    {
        // Proof step: the state is sound, and the tables grant its access.
        self.manager.holds();
        self.manager.begin_reading(front);
        // Proof step: this holds afterwards too.
        self.manager.holds();
    }

    // Ends the reading of these pages, if pages were read.
    #[inline(always)]
    pub(crate) fn end_reading(&mut self, read: Option<Run>)
        requires within { IfSome read (λ run. run.first.0 + run.count ≤ length self.old.ram.pages) }
        requires aside { IfSome read (λ run. (p : ℕ) → is_in run p ≡ true → IsNoTable self.old.state p) }
        requires only { IfSome read (λ run. (p : ℕ) → is_copied self.old.past p ≡ true → is_in run p ≡ true) }
        ensures read { AreRead read false self.old self.new }
        ensures memory { M.is_alone ≡ true → memory_in self.new ≡ memory_in self.old }
    {
        let Some(run) = read else {
            return;
        };
        // Proof step: the state is sound, and the tables grant its access.
        self.manager.holds();
        self.manager.end_reading(run);
        // Proof step: this holds afterwards too.
        self.manager.holds();
    }
}
