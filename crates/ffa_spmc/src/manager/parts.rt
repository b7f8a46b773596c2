// SPDX-License-Identifier: MIT OR Apache-2.0
//! The manager's parts, lent to be read.
ghost use Rattle.ffa_spmc.specs.Lent.{AreParts, lent_parts};

use super::Manager;
use crate::parts::Parts;
use crate::storage::Store;
use ffa_physmem::PhysMem;

impl<M: PhysMem + Drop, S: Store> Manager<M, S> {
    // Lends the manager's parts, which keep the invariant of every manager.
    pub(crate) fn parts(&self) -> Parts<'_, M, S>
        ensures { AreParts (lent_parts M.ram result) self.now.state }
    {
        Parts {
            ram: &self.ram,
            manifest: &self.kept.manifest,
            layout: &self.kept.layout,
            bitmaps: &self.kept.bitmaps,
            pages: &self.kept.pages,
            pool: &self.kept.pool,
            buffers: &self.kept.buffers,
            chain: &self.kept.chain,
            versions: &self.kept.versions,
        }
    }
}
