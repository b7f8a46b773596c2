// SPDX-License-Identifier: MIT OR Apache-2.0
//! The place of the RAM, and the pages that each endpoint may use from the start.
ghost use Rattle.std.specs.Prelude.{◌≡◌, is_some, ℕ, ◌+◌, ◌*◌, ◌%◌, ◌^◌, ◌<◌, ◌≤◌};
ghost use Rattle.arrayvec.specs.ArrayVec.{array_vec_len};
ghost use Rattle.ffa_model.specs.declared.limits.TheConstants.{MOST_BLOCKS};
ghost use Rattle.ffa_model.specs.Manifest.{table_pages};

use arrayvec::ArrayVec;
use ffa_model::{
    Address, Endpoint, Ffa, MOST_ENDPOINTS, MOST_REGIONS, Manifest, PageNo, Region, Rights,
    regions_until, right_in,
};
use ffa_physmem::PAGE_SIZE;
use ffa_physmem::descriptor::TABLE;

/// The regions of one endpoint.
#[derive(Default, Drop)]
pub struct Regions {
    pub list: ArrayVec<Region, MOST_REGIONS>,
}

impl Regions {
    // Returns the regions of an endpoint.
    fn of(endpoint: &Endpoint) -> Regions
        ensures { result.list.items ≡ endpoint.now.regions.items }
    {
        let mut list = ArrayVec::new();
        for region in endpoint.regions.as_slice() {
            list.push(*region);
        }
        Regions { list }
    }

    // Returns a copy of the regions.
    fn copy(&self) -> Regions
        ensures { result ≡ self.now }
    {
        let mut list = ArrayVec::new();
        for region in self.list.as_slice() {
            list.push(*region);
        }
        Regions { list }
    }
}

/// The data from which the library builds the tables: the place and the size of the RAM, and the regions of each
/// endpoint with its rights. The RAM has room for the tables.
#[derive(Drop)]
pub struct Layout {
    /// The address of the first byte of the RAM.
    pub base: Address,
    /// The size of the RAM, in blocks of 2 MiB.
    pub blocks: u32,
    /// The first page of the tables.
    pub tables: PageNo,
    /// The regions of each endpoint, at the endpoint's place in the manifest.
    pub regions: ArrayVec<Regions, MOST_ENDPOINTS>,
    /// The version of FF-A that the machine serves.
    pub ffa: Ffa,
    pub ghost place: { base.0 % 0x200000 ≡ 0 },
    pub ghost one_table: { base.0 % 2 ^ 30 + 0x200000 * blocks ≤ 2 ^ 30 },
    pub ghost few: { blocks ≤ MOST_BLOCKS },
    pub ghost within: { base.0 + 0x200000 * blocks ≤ 2 ^ 32 },
    pub ghost room: { tables.0 + array_vec_len regions * table_pages blocks ≤ 512 * blocks },
}

impl Layout {
    ghost use Rattle.ffa_stage2.specs.Layout.{regions_in, layout_right, normal_in};
    ghost use Rattle.ffa_model.specs.Regions.{is_normal, normal_of, regions_at, regions_of_each};
    ghost use Rattle.ffa_stage2.specs.Tables.{table_page, table_link};

    /// Returns the layout of a machine: its RAM, and the regions of its endpoints in the order of the manifest.
    pub fn of(manifest: &Manifest) -> Layout
        ensures base { result.base.0 ≡ manifest.now.ram_base.0 }
        ensures blocks { result.blocks ≡ manifest.now.ram_blocks }
        ensures tables { result.tables ≡ manifest.now.tables }
        ensures regions { regions_in result ≡ regions_of_each manifest.now.endpoints.items }
        ensures normal { normal_in result ≡ normal_of manifest.now.ffa (regions_at manifest.now.endpoints.items 0) }
    {
        let mut regions = ArrayVec::new();
        for endpoint in manifest.endpoints.as_slice() {
            regions.push(Regions::of(endpoint));
        }
        Layout {
            base: manifest.ram_base,
            blocks: manifest.ram_blocks,
            tables: manifest.tables,
            regions,
            ffa: manifest.ffa,
        }
    }

    /// Returns a copy of the layout. It allocates nothing.
    pub fn copy(&self) -> Layout
        ensures { result ≡ self.now }
    {
        let mut regions = ArrayVec::new();
        for own in self.regions.as_slice() {
            regions.push(own.copy());
        }
        Layout {
            base: self.base,
            blocks: self.blocks,
            tables: self.tables,
            regions,
            ffa: self.ffa,
        }
    }

    /// Whether the machine distinguishes secure pages from non-secure pages. A machine of FF-A 1.2 does so.
    pub fn tells_worlds(&self) -> bool
        ensures { result ≡ is_some (normal_in self.now) }
    {
        self.ffa == Ffa::V1_2
    }

    /// Whether a page is non-secure. If the machine does not distinguish secure pages from non-secure pages, returns
    /// false.
    pub fn is_normal(&self, page: PageNo) -> bool
        ensures { result ≡ is_normal self.now.base.0 (normal_in self.now) page.0 }
    {
        if self.ffa == Ffa::V1_1 || self.regions.is_empty() {
            return false;
        }
        right_in(self.regions[0].list.as_slice(), self.base, page).is_some()
    }

    /// Returns the end of a run of pages that begins at `first`. The pages of the run are all non-secure, or all of
    /// them are not. The run ends at `end` at the latest.
    pub fn normal_until(&self, first: PageNo, end: u32) -> u32
        requires { first.0 < end }
        ensures some { first.0 < result }
        ensures end { result ≤ end }
        ensures alike { let is_normal = is_normal self.now.base.0 (normal_in self.now) in
            (p : ℕ) → first.0 ≤ p → p < result → is_normal p ≡ is_normal first.0 }
    {
        if self.regions.is_empty() {
            return end;
        }
        regions_until(self.regions[0].list.as_slice(), self.base, first, end)
    }

    // Returns the right that an endpoint's regions grant to a page, or `None`.
    pub(crate) fn right(&self, index: usize, page: PageNo) -> Option<Rights>
        requires index { index < array_vec_len self.now.regions }
        requires page { page.0 < 512 * self.now.blocks }
        ensures { result ≡ layout_right self.now index page.0 }
    {
        right_in(self.regions[index].list.as_slice(), self.base, page)
    }

    // Returns the end of a run of pages that begins at `first`. The endpoint's regions grant one right to all pages of
    // the run, or no right to all of them. The run ends at the end of the RAM at the latest.
    pub(crate) fn right_until(&self, index: usize, first: PageNo) -> u32
        requires index { index < array_vec_len self.now.regions }
        requires page { first.0 < 512 * self.now.blocks }
        ensures some { first.0 < result }
        ensures end { result ≤ 512 * self.now.blocks }
        ensures same { let right = layout_right self.now index in
            (p : ℕ) → first.0 ≤ p → p < result → right p ≡ right first.0 }
    {
        regions_until(
            self.regions[index].list.as_slice(),
            self.base,
            first,
            512 * self.blocks,
        )
    }

    // Returns a page of an endpoint's tables. Number 0 is level 1, 1 is level 2, and 2 + k is level 3 of block k.
    pub(crate) fn table_page(&self, index: usize, table: u32) -> PageNo
        requires index { index < array_vec_len self.now.regions }
        requires table { table < table_pages self.now.blocks }
        ensures number { result.0 ≡ table_page self.now.tables.0 self.now.blocks index table }
        ensures within { result.0 < 512 * self.now.blocks }
    {
        PageNo(self.tables.0 + index as u32 * (2 + self.blocks) + table)
    }

    // Returns the descriptor that names a page of an endpoint's tables.
    pub(crate) fn table_link(&self, index: usize, table: u32) -> u64
        requires index { index < array_vec_len self.now.regions }
        requires table { table < table_pages self.now.blocks }
        ensures { result ≡ table_link self.now.base.0 self.now.tables.0 self.now.blocks index table }
    {
        let page = self.table_page(index, table);
        u64::from(self.base.0) + PAGE_SIZE as u64 * u64::from(page.0) + TABLE
    }
}
