// SPDX-License-Identifier: MIT OR Apache-2.0
//! Copies of a machine, in other RAM and other storage.
ghost use Rattle.std.specs.Prelude.{◌≡◌, ◌*◌, [], length};
ghost use Rattle.ffa_spmc.specs.Copies.{IsRamToCopy, IsRoomToCopy};
ghost use Rattle.ffa_spmc.specs.Mixtures.{TablesRest};

use super::Machine;
use crate::storage::{Storage, Store};
use ffa_model::Manifest;
use ffa_physmem::PhysMem;
use ffa_tlb::Translations;

impl<M: PhysMem + Drop, T: Translations + Drop, S: Store> Machine<M, T, S> {
    /// Returns a copy of this machine in this RAM and this storage, with a cache that holds nothing at first. It writes
    /// every byte of the RAM. The two machines share nothing, so an operation of one does not change the other. The
    /// tables are at rest, as after a boot.
    // It is not inlined, as a boot is not.
    #[inline(never)]
    pub fn copy_in<N: PhysMem + Drop, U: Translations + Drop, R: Store>(
        &self,
        storage: Storage<R>,
        ram: N,
        cache: U,
    ) -> Machine<N, U, R>
        requires storage { IsRoomToCopy self.now storage }
        requires ram { IsRamToCopy self.now (N.ram ram) }
        ensures same { result ≡ record self.now { held = []; past = result.past } }
        ensures site { result.past.site ≡ (N.past ram).site }
        ensures rest { TablesRest result.state result.ram result.past }
    {
        let mut cache = cache;
        cache.clear();
        Machine {
            manager: self.manager.copy_in(storage, ram),
            cache,
            news: self.news.copy(),
        }
    }

    /// Returns the manifest. Use it to allocate the storage for a copy, as for a boot.
    pub fn manifest(&self) -> &Manifest
        ensures base { result.now.ram_base.0 ≡ self.now.ram.base }
        ensures pages { 512 * result.now.ram_blocks ≡ length self.now.ram.pages }
        ensures endpoints { length result.now.endpoints.items ≡ length self.now.state.parties }
    {
        self.manager.manifest()
    }
}
