// SPDX-License-Identifier: MIT OR Apache-2.0
//! The parts that a machine keeps besides its RAM.
ghost use Rattle.std.specs.Prelude.{◌≡◌, ◌*◌, None, length, map, replicate};
ghost use Rattle.ffa_model.specs.declared.limits.TheConstants.{MOST_OPEN};
ghost use Rattle.ffa_model.specs.Lists.{listed};
ghost use Rattle.ffa_model.specs.RunStates.{first_schedule};
ghost use Rattle.ffa_pages.specs.Entry.{first_entry};
ghost use Rattle.ffa_spmc.specs.FirstKept.{AreFirst};
ghost use Rattle.ffa_spmc.specs.Storages.{IsRoomFor};

use crate::storage::{Inline, Storage, Store};
use ffa_memshare::Pool;
use ffa_model::Manifest;
use ffa_notify::Bitmaps;
use ffa_pages::PageTable;
use ffa_rxtx::Buffers;
use ffa_schedule::Chain;
use ffa_setup::Versions;
use ffa_stage2::Layout;

/// The parts that a machine keeps besides its RAM.
#[derive(Drop)]
pub struct Kept<S: Store = Inline> {
    /// The manifest of the machine.
    pub manifest: Manifest,
    /// The places and the number of the tables.
    pub layout: Layout,
    /// The notifications: which endpoints have bitmaps, which bits are bound, and which bits are pending.
    pub bitmaps: Bitmaps,
    /// The owner of each page.
    pub pages: PageTable<S::Pages>,
    /// The open memory transactions.
    pub pool: Pool<S::Open>,
    /// The buffers of each endpoint.
    pub buffers: Buffers,
    /// The run states: which endpoint runs, and for which endpoint it works.
    pub chain: Chain,
    /// The form in which each endpoint writes and reads.
    pub versions: Versions,
}

impl<S: Store> Kept<S> {
    /// Returns the parts of a manifest's machine in its first state, in this storage. Each page of a region belongs to
    /// the region's endpoint. No transaction is open, nobody has buffers, and the normal world runs. Partitions that
    /// receive notifications have bitmaps. No bit is bound or pending, and there are no notices. Each endpoint has the
    /// form that the manifest sets for it.
    // It is not inlined, so that the stack of its copies is free again when the boot builds the tables.
    #[inline(never)]
    pub fn first(manifest: &Manifest, storage: Storage<S>) -> Kept<S>
        requires { IsRoomFor manifest.now storage }
        ensures first { AreFirst manifest.now result.manifest result.layout result.bitmaps }
        ensures pages { result.pages
            ≡ listed (512 * manifest.now.ram_blocks)
            (first_entry manifest.now.ram_base.0 manifest.now.endpoints.items) }
        ensures slots { result.pool.slots ≡ replicate (MOST_OPEN * length manifest.now.endpoints.items) None }
        ensures sent { result.pool.sent ≡ replicate (length manifest.now.endpoints.items) 0 }
        ensures buffers { result.buffers ≡ replicate (length manifest.now.endpoints.items) None }
        ensures chain { result.chain ≡ first_schedule (length manifest.now.endpoints.items) }
        ensures versions { result.versions ≡ map (λ e. e.version) manifest.now.endpoints.items }
    {
        let Storage { mut pages, pool } = storage;
        pages.fill(manifest);
        Kept {
            manifest: manifest.copy(),
            layout: Layout::of(manifest),
            bitmaps: Bitmaps::of(manifest),
            pages,
            pool,
            buffers: Buffers::none(manifest.endpoints.len()),
            chain: Chain::first(manifest.endpoints.len()),
            versions: Versions::of(manifest),
        }
    }

    /// Returns a copy of these parts, in this storage.
    // It is not inlined, so that the stack of its copies is free again when the copy is passed on.
    #[inline(never)]
    pub fn copy_in<R: Store>(&self, storage: Storage<R>) -> Kept<R>
        requires pages { length storage.pages ≡ length self.now.pages }
        requires endpoints { length storage.pool.sent ≡ length self.now.pool.sent }
        ensures manifest { result.manifest ≡ self.now.manifest }
        ensures layout { result.layout ≡ self.now.layout }
        ensures bitmaps { result.bitmaps ≡ self.now.bitmaps }
        ensures pages { result.pages ≡ self.now.pages }
        ensures pool { result.pool ≡ self.now.pool }
        ensures buffers { result.buffers ≡ self.now.buffers }
        ensures chain { result.chain ≡ self.now.chain }
        ensures versions { result.versions ≡ self.now.versions }
    {
        let Storage {
            mut pages,
            mut pool,
        } = storage;
        pages.copy_from(&self.pages);
        pool.copy_from(&self.pool);
        Kept {
            manifest: self.manifest.copy(),
            layout: self.layout.copy(),
            bitmaps: self.bitmaps.copy(),
            pages,
            pool,
            buffers: self.buffers.copy(),
            chain: self.chain.copy(),
            versions: self.versions.copy(),
        }
    }
}
