// SPDX-License-Identifier: MIT OR Apache-2.0
//! Copies of a machine that several processors run.
ghost use Rattle.std.specs.Prelude.{◌≡◌, []};
ghost use Rattle.ffa_physmem.specs.Moments.{HasNoCopies};
ghost use Rattle.ffa_spmc.specs.Copies.{IsRamToCopy, IsRoomToCopy};
ghost use Rattle.ffa_spmc.specs.Mixtures.{TablesRest};

use super::Cluster;
use crate::storage::{Storage, Store};
use arrayvec::ArrayVec;
use ffa_model::{EndpointId, MOST_PROCESSORS};
use ffa_physmem::PhysMem;
use ffa_tlb::Translations;

impl<M: PhysMem + Drop, T: Translations + Drop, S: Store> Cluster<M, T, S> {
    /// Returns a copy of this machine in this RAM and this storage, with this cache, as `Machine::copy_in` does. The
    /// same endpoint runs on each processor of the copy.
    #[inline(never)]
    pub fn copy_in<N: PhysMem + Drop, U: Translations + Drop, R: Store>(
        &self,
        storage: Storage<R>,
        ram: N,
        cache: U,
    ) -> Cluster<N, U, R>
        requires storage { IsRoomToCopy self.now.machine storage }
        requires ram { IsRamToCopy self.now.machine (N.ram ram) }
        requires free { HasNoCopies (N.past ram) }
        ensures machine { result.machine ≡ record self.now.machine { held = []; past = result.machine.past } }
        ensures processors { result.processors ≡ self.now.processors }
        ensures site { result.machine.past.site ≡ (N.past ram).site }
        ensures rest { TablesRest result.machine.state result.machine.ram result.machine.past }
    {
        Cluster {
            machine: self.machine.copy_in(storage, ram, cache),
            current: self.current,
            runners: same_runners(&self.runners),
        }
    }
}

// Returns a copy of these endpoints.
fn same_runners(
    runners: &ArrayVec<EndpointId, MOST_PROCESSORS>,
) -> ArrayVec<EndpointId, MOST_PROCESSORS>
    ensures { result ≡ runners.now }
{
    let mut same = ArrayVec::new();
    for runner in runners.as_slice() {
        same.push(*runner);
    }
    same
}
