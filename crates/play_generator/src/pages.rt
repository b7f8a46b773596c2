// SPDX-License-Identifier: MIT OR Apache-2.0
//! The pages of the machine, and their owners.
use crate::generator::Generator;
use crate::stage::Stage;
use ffa_model::{Data, Endpoint, Range};

/// The size of a page in bytes.
pub const PAGE: u64 = 4096;

/// The size of a block of RAM in bytes.
const BLOCK: u64 = 0x20_0000;

/// The largest number of pages at which a search for a page looks.
const MOST_LOOKS: u64 = 512;

/// Returns a range of one page.
pub(crate) fn one_page(address: u64) -> Range {
    Range { address, pages: 1 }
}

/// Whether an address is in a range.
pub(crate) fn has_address(range: Range, address: u64) -> bool {
    address.wrapping_sub(range.address) < PAGE * u64::from(range.pages)
}

/// Whether two ranges have a page in common.
pub(crate) fn meet(one: Range, other: Range) -> bool {
    has_address(one, other.address) || has_address(other, one.address)
}

// Returns the number of pages in the regions of these endpoints.
fn count_pages(endpoints: &[Endpoint]) -> u64 {
    let regions = endpoints.iter().flat_map(|it| it.regions.as_slice());
    regions.fold(0, |sum, it| u64::saturating_add(sum, u64::from(it.pages)))
}

// Returns the address of a page of the regions of these endpoints, by its place among the pages of these regions, or 0
// if there is no such page.
fn address_of(endpoints: &[Endpoint], place: u64) -> u64 {
    let mut left = place;
    for endpoint in endpoints {
        for region in endpoint.regions.as_slice() {
            if left < u64::from(region.pages) {
                return u64::from(region.base) + PAGE * left;
            }
            left -= u64::from(region.pages);
        }
    }
    0
}

impl<'m, S: Stage + Drop> Generator<'m, S> {
    /// Returns the address of RAM's first byte.
    pub(crate) fn ram_base(&self) -> u64 {
        u64::from(self.manifest.ram_base.0)
    }

    /// Returns the first address after RAM.
    pub(crate) fn ram_end(&self) -> u64 {
        let size = BLOCK * u64::from(self.manifest.ram_blocks);
        u64::from(self.manifest.ram_base.0) + size
    }

    /// Returns the runner's data right to a page of its own that it could send or use as a buffer. Returns `None` for
    /// any other page.
    pub(crate) fn free_level(&self, address: u64) -> Option<Data> {
        let runner = self.runner();
        let rights = self.stage.access(runner, address)?;
        let is_used = self.buffers().is_some_and(|it| it.have_address(address))
            || self.is_offered(address);
        let is_free = self.stage.owner_of(address) == runner && !is_used;
        is_free.then_some(rights.level)
    }

    /// Returns a run of this number of pages that the runner could send, with this right to each page. The search
    /// mostly begins at the runner's own regions. Returns `None` if it finds no such run.
    pub(crate) fn free_run(&mut self, pages: u32, level: Data) -> Option<Range> {
        let endpoints = self.manifest.endpoints.as_slice();
        let total = count_pages(endpoints).max(1);
        let before = self.runner().place().min(endpoints.len());
        let word = self.dice.word();
        let first = if self.dice.one_in(4) {
            word % total
        } else {
            count_pages(&endpoints[..before]).wrapping_add(word % 16)
        };
        for step in 0..total.min(MOST_LOOKS) {
            let address = address_of(endpoints, first.wrapping_add(step) % total);
            if self.is_free_run(address, pages, level) {
                return Some(Range { address, pages });
            }
        }
        None
    }

    fn is_free_run(&self, address: u64, pages: u32, level: Data) -> bool {
        let mut addresses = (0..pages).map(|page| address.wrapping_add(PAGE * u64::from(page)));
        addresses.all(|address| self.free_level(address) == Some(level))
    }

    /// Returns the number of pages that the runner could send and may write. It looks at the first 512 pages of the
    /// regions only.
    pub(crate) fn count_free(&self) -> usize {
        let endpoints = self.manifest.endpoints.as_slice();
        let places = 0..count_pages(endpoints).min(MOST_LOOKS);
        let levels = places.map(|place| self.free_level(address_of(endpoints, place)));
        levels.filter(|level| *level == Some(Data::Rw)).count()
    }

    /// Returns the address of a page of the regions, which can have any owner.
    pub(crate) fn any_page(&mut self) -> u64 {
        let endpoints = self.manifest.endpoints.as_slice();
        let total = count_pages(endpoints).max(1);
        address_of(endpoints, self.dice.word() % total)
    }

    /// Returns the address of a page of RAM that the runner could not send: a page of another endpoint, of a buffer, of
    /// an open transaction or of the tables.
    pub(crate) fn unfit_page(&mut self) -> u64 {
        let base = self.ram_base();
        match self.dice.below(4) {
            0 => return base,
            1 => return self.buffers().map_or(base, |it| it.rx.address),
            _ => {}
        }
        for _ in 0..MOST_LOOKS {
            let address = self.any_page();
            if self.free_level(address).is_none() {
                return address;
            }
        }
        base
    }
}
