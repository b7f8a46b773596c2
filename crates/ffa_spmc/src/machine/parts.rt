// SPDX-License-Identifier: MIT OR Apache-2.0
//! The machine's parts, lent to be read.
ghost use Rattle.ffa_spmc.specs.Lent.{AreParts, lent_parts};

use super::Machine;
use crate::parts::Parts;
use crate::storage::Store;
use ffa_physmem::PhysMem;
use ffa_tlb::Translations;

impl<M: PhysMem + Drop, T: Translations + Drop, S: Store> Machine<M, T, S> {
    /// Lends all parts of the machine to be read. `ffa_reasons` uses them to explain why operations are refused. The
    /// parts keep the invariant of every machine, and they represent its state.
    // The machine lends its parts, so that a crate above it can find a reason. An auditor of the operations need not
    // read that crate. Only code that needs private parts of a lower crate remains there.
    pub fn parts(&self) -> Parts<'_, M, S>
        ensures { AreParts (lent_parts M.ram result) self.now.state }
    {
        self.manager.parts()
    }
}
