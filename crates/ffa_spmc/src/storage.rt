// SPDX-License-Identifier: MIT OR Apache-2.0
//! Storage for the data of a machine that depends on its size.
ghost use Rattle.std.specs.Prelude.{◌≡◌, ◌*◌, ◌<◌, ◌≤◌, length, IfOk, OnOk, OnErr};
ghost use Rattle.ffa_model.specs.declared.limits.TheConstants.{MOST_PAGES};
ghost use Rattle.ffa_spmc.specs.Storages.{IsRoomFor};

use arrayvec::ArrayVec;
use ffa_memshare::{MOST_SLOTS, OpenSlot, Pool, Slots};
use ffa_model::{MOST_PAGES, MOST_RANGES, Manifest, Room};
use ffa_pages::{KeptPage, PageTable};
use std::alloc::{AllocError, Allocator, Global};
use std::marker::PhantomData;
use std::mem::size_of;

/// A kind of storage for the large parts of a machine.
pub trait Store {
    /// The storage of the owners of pages.
    type Pages: Room<KeptPage> + Drop;
    /// The storage of the open transactions.
    type Open: Room<OpenSlot> + Drop;
}

/// Storage in the machine itself, which is as large as the largest RAM needs.
#[derive(Drop)]
pub struct Inline;

impl Store for Inline {
    type Pages = ArrayVec<KeptPage, MOST_PAGES>;

    type Open = ArrayVec<OpenSlot, MOST_SLOTS>;
}

/// Storage in an allocator's memory. It has room for the pages of the machine's RAM. Its room for open transactions is
/// enough for any number of endpoints.
#[derive(Drop)]
pub struct Given<A: Allocator + Drop> {
    marker: PhantomData<A>,
}

impl<A: Allocator + Drop> Store for Given<A> {
    type Pages = Vec<KeptPage, A>;

    type Open = Slots<A>;
}

// A slot has eight bytes for each range, and at most 256 other bytes.
const _: () = prove!(
    size_of::<PageTable>() + size_of::<Pool>()
        <= size_of::<KeptPage>() * MOST_PAGES + (8 * MOST_RANGES + 256) * MOST_SLOTS
);

// A machine whose storage is in an allocator's memory is small, whatever the size of its RAM.
const _: () = prove!(
    size_of::<PageTable<Vec<KeptPage>>>() + size_of::<Pool<Slots<Global>>>() <= 128
);

/// Storage for one machine.
#[derive(Drop)]
pub struct Storage<S: Store = Inline> {
    /// The owners of pages.
    pub(crate) pages: PageTable<S::Pages>,
    /// The open transactions.
    pub(crate) pool: Pool<S::Open>,
}

impl Storage {
    /// Returns storage for the machine of a manifest, in the machine itself. It allocates no memory.
    #[inline(always)]
    pub fn inline(manifest: &Manifest) -> Storage
        ensures { IsRoomFor manifest.now result }
    {
        let mut pages = PageTable::none();
        pages.begin(512 * manifest.ram_blocks as usize);
        let mut pool = Pool::none();
        pool.fill(manifest.endpoints.len());
        Storage { pages, pool }
    }
}

impl<A: Allocator + Copy + Drop> Storage<Given<A>> {
    /// Returns storage for the machine of a manifest, in an allocator's memory.
    ///
    /// # Errors
    ///
    /// `AllocError`: the allocator has not enough memory.
    pub fn allocate_for(alloc: A, manifest: &Manifest) -> Result<Storage<Given<A>>, AllocError>
        ensures { IfOk result (IsRoomFor manifest.now) }
    {
        let mut storage = Storage::ready(alloc, 512 * manifest.ram_blocks as usize)?;
        storage.begin(manifest)?;
        Ok(storage)
    }

    /// Returns storage for a machine with this number of pages of RAM, whichever endpoints it has, in an allocator's
    /// memory.
    ///
    /// # Errors
    ///
    /// `AllocError`: the allocator has not enough memory.
    pub fn ready(alloc: A, pages: usize) -> Result<Storage<Given<A>>, AllocError>
        requires { pages ≤ MOST_PAGES }
        ensures { IfOk result (λ storage. length storage.pages ≡ pages) }
    {
        Ok(Storage {
            pages: PageTable::of_managers(alloc, pages)?,
            pool: Pool::ready_in(alloc)?,
        })
    }

    /// Makes this the storage for the machine of a manifest. It allocates memory only if the storage has room for fewer
    /// pages.
    ///
    /// # Errors
    ///
    /// `AllocError`: the allocator has not enough memory. The storage has fewer pages than the manifest's RAM, and
    /// stays as it was.
    pub fn begin(&mut self, manifest: &Manifest) -> Result<(), AllocError>
        ensures fits { OnOk result (IsRoomFor manifest.now self.new) }
        ensures refused { OnErr result (self.new ≡ self.old) }
        ensures more { OnErr result (length self.old.pages < 512 * manifest.now.ram_blocks) }
    {
        self.pages.resize(512 * manifest.ram_blocks as usize)?;
        self.pool.begin(manifest.endpoints.len());
        Ok(())
    }
}
