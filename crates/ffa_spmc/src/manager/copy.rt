// SPDX-License-Identifier: MIT OR Apache-2.0
//! Copies of a manager, in other RAM and other storage.
ghost use Rattle.std.specs.Prelude.{◌≡◌, ◌*◌, length};
ghost use Rattle.ffa_spmc.specs.Mixtures.{TablesRest};

use super::Manager;
use crate::storage::{Storage, Store};
use ffa_model::{Manifest, PageNo};
use ffa_physmem::PhysMem;
use ffa_stage2::settle_tables;

impl<M: PhysMem + Drop, S: Store> Manager<M, S> {
    // Returns a copy of this manager in this RAM and this storage. It writes every byte of the RAM. The tables are
    // settled, as after a boot.
    #[inline(always)]
    pub(crate) fn copy_in<N: PhysMem + Drop, R: Store>(
        &self,
        storage: Storage<R>,
        ram: N,
    ) -> Manager<N, R>
        requires base { (N.ram ram).base ≡ self.now.ram.base }
        requires size { length (N.ram ram).pages ≡ length self.now.ram.pages }
        requires pages { length storage.pages ≡ length self.now.ram.pages }
        requires endpoints { length storage.pool.sent ≡ length self.now.state.parties }
        ensures state { result.state ≡ self.now.state }
        ensures ram { result.ram ≡ self.now.ram }
        ensures site { result.past.site ≡ (N.past ram).site }
        ensures rest { TablesRest result.state result.ram result.past }
    {
        let mut ram = ram;
        copy_pages(&self.ram, &mut ram);
        settle_tables(&mut ram, &self.kept.layout);
        Manager {
            ram,
            kept: self.kept.copy_in(storage),
        }
    }

    // Returns the manifest.
    pub(crate) fn manifest(&self) -> &Manifest
        ensures base { result.now.ram_base.0 ≡ self.now.ram.base }
        ensures pages { 512 * result.now.ram_blocks ≡ length self.now.ram.pages }
        ensures endpoints { length result.now.endpoints.items ≡ length self.now.state.parties }
    {
        &self.kept.manifest
    }
}

// Copies every byte of a RAM to another RAM, which has the same address and the same number of pages.
#[inline(never)]
fn copy_pages<M: PhysMem, N: PhysMem>(from: &M, to: &mut N)
    requires base { (N.ram to.old).base ≡ (M.ram from.now).base }
    requires size { length (N.ram to.old).pages ≡ length (M.ram from.now).pages }
    ensures same { N.ram to.new ≡ M.ram from.now }
    ensures site { (N.past to.new).site ≡ (N.past to.old).site }
{
    for page in 0..from.pages() {
        *to.page_mut(PageNo(page)) = *from.page(PageNo(page));
    }
}
