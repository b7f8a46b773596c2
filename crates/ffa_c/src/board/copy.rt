// SPDX-License-Identifier: MIT OR Apache-2.0
//! Copies of a machine, in RAM of either kind, whichever RAM the machine has.
ghost use Rattle.std.specs.Prelude.{◌≡◌, ◌*◌, true, false, length};
ghost use Rattle.ffa_lent.specs.LentRam.{ram_of};
ghost use Rattle.ffa_physmem.specs.Moments.{HasNoCopies};
ghost use Rattle.ffa_spmc.specs.Copies.{IsRamToCopy, IsRoomToCopy};
ghost use Rattle.ffa_c.specs.Copying.{IsCopy};

use super::Board;
use crate::kind::BoardMachine;
use ffa_lent::LentRam;
use ffa_model::Manifest;
use ffa_physmem::{FlatRam, PhysMem};
use ffa_spmc::{Given, Storage};
use ffa_tlb::NoTlb;
use std::alloc::Global;

impl Board {
    /// Copies the machine to this RAM from the heap and to this room.
    pub fn copy_to_heap(&self, ram: FlatRam, storage: Storage<Given<Global>>) -> Board
        requires storage { IsRoomToCopy self.now.machine storage }
        requires ram { IsRamToCopy self.now.machine (⟦<FlatRam as PhysMem>⟧.ram ram) }
        ensures { IsCopy false self.now result }
    {
        let kind = BoardMachine::Heap(
            either!(&self.kind, cluster => cluster.copy_in(storage, ram, NoTlb)),
        );
        Board { kind }
    }

    /// Copies the machine to this lent RAM and to this room. Each page stays where it was lent.
    pub fn copy_to_lent(&self, ram: LentRam, storage: Storage<Given<Global>>) -> Board
        requires storage { IsRoomToCopy self.now.machine storage }
        requires ram { IsRamToCopy self.now.machine (ram_of ram) }
        requires free { HasNoCopies (⟦<LentRam as PhysMem>⟧.past ram) }
        ensures copy { IsCopy true self.now result }
        ensures site { result.machine.past.site ≡ (⟦<LentRam as PhysMem>⟧.past ram).site }
    {
        let kind = BoardMachine::Lent(
            either!(&self.kind, cluster => cluster.copy_in(storage, ram, NoTlb)),
        );
        Board { kind }
    }

    /// Returns the machine's manifest, from which a copy takes its room and its RAM as a boot does.
    pub fn manifest(&self) -> &Manifest
        ensures base { result.now.ram_base.0 ≡ self.now.machine.ram.base }
        ensures pages { 512 * result.now.ram_blocks ≡ length self.now.machine.ram.pages }
        ensures endpoints { length result.now.endpoints.items ≡ length self.now.machine.state.parties }
    {
        asked!(&self.kind, machine => machine.manifest())
    }
}
