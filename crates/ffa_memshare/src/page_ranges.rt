// SPDX-License-Identifier: MIT OR Apache-2.0
//! Ranges of whole pages of RAM, as an open transaction stores them.
ghost use Rattle.std.specs.Prelude.{◌≡◌, ◌<◌, ◌≤◌, [], length, map, take, slice_index_or};
ghost use Rattle.ffa_model.specs.declared.limits.TheConstants.{MOST_RANGES};
ghost use Rattle.ffa_memshare.specs.PageRanges.{range_at};
ghost use Rattle.ffa_memshare.specs.Ranges.{ArePlaced, IsPlaced};

use crate::grants::first_page;
use arrayvec::ArrayVec;
use ffa_model::{Address, MOST_RANGES, Range, Room};
use ffa_pages::{KeptPage, PageTable};
use std::marker::Model;

// A range, by the number of its first page in RAM. With 16 bits for each number a range would have 4 bytes instead of
// 8. But RAM could then have at most 127 blocks.
#[derive(Clone, Copy, Default)]
pub(crate) struct PageRange {
    first: u32,
    pages: u32,
}

impl PageRange {
    // Returns a range of the RAM that begins at `base`.
    fn of<P: Room<KeptPage> + Drop>(pages: &PageTable<P>, base: Address, range: &Range) -> PageRange
        requires { IsPlaced base.0 (length pages.now) range.now }
        ensures { range_at base.0 result ≡ range.now }
    {
        // Proof step: the number of pages is MOST_PAGES at most.
        let _ = pages.pages();
        PageRange {
            first: first_page(base, range),
            pages: range.pages,
        }
    }

    fn range(self, base: Address) -> Range
        ensures { result ≡ range_at base.0 self }
    {
        Range {
            address: u64::from(base.0) + 4096 * u64::from(self.first),
            pages: self.pages,
        }
    }
}

// Stores ranges in the first places. Later places stay as they are.
fn fill(places: &mut [PageRange; MOST_RANGES], ranges: &[PageRange])
    requires { length ranges.now ≤ MOST_RANGES }
    ensures ranges { take (length ranges.now) places.new ≡ ranges.now }
    ensures many { length places.new ≡ MOST_RANGES }
{
    for place in 0..ranges.len() {
        // The numbers are copied one by one, so that a compiler does not call memmove. The loop mostly runs once.
        places[place] = PageRange {
            first: ranges[place].first,
            pages: ranges[place].pages,
        };
    }
}

// Stores ranges in the first places. The ranges are in the RAM that begins at `base`.
fn put<P: Room<KeptPage> + Drop>(
    places: &mut [PageRange; MOST_RANGES],
    pages: &PageTable<P>,
    base: Address,
    ranges: &[Range],
)
    requires placed { ArePlaced base.0 (length pages.now) ranges.now }
    requires few { length ranges.now ≤ MOST_RANGES }
    ensures ranges { map (range_at base.0) (take (length ranges.now) places.new) ≡ ranges.now }
    ensures many { length places.new ≡ MOST_RANGES }
{
    for place in 0..ranges.len() {
        places[place] = PageRange::of(pages, base, &ranges[place]);
    }
}

/// A list of ranges of pages of one RAM, with eight bytes for each range. So a transaction is small to store and to
/// move. The places after the last range keep earlier contents, so nothing clears them. Contracts see the ranges.
#[derive(Drop)]
pub struct PageRanges {
    base: Address,
    count: usize,
    places: [PageRange; MOST_RANGES],
}

impl Model for PageRanges {
    ghost use Rattle.std.specs.Prelude.{List, map, take, length, ◌≤◌, ◌≡◌};
    ghost use Rattle.std.specs.Coded.{coded_list};
    ghost use Rattle.ffa_model.specs.declared.limits.TheConstants.{MOST_RANGES};
    ghost use Rattle.ffa_model.specs.declared.transaction.Range.{Range};
    ghost use Rattle.ffa_memshare.specs.PageRanges.{range_at};

    ghost Value = { List Range };

    ghost view = { λ r. map (range_at r.base.0) (take r.count r.places) };

    ghost invariant = { λ r. (r.count ≤ MOST_RANGES) × (length r.places ≡ MOST_RANGES) };
}

impl PageRanges {
    /// Replaces the list by these ranges, which are in the RAM that begins at `base`.
    pub(crate) fn place<P: Room<KeptPage> + Drop>(
        &mut self,
        pages: &PageTable<P>,
        base: Address,
        ranges: &ArrayVec<Range, MOST_RANGES>,
    )
        requires { ArePlaced base.0 (length pages.now) ranges.now.items }
        ensures { self.new ≡ ranges.now.items }
    {
        self.base = base;
        put(&mut self.places, pages, base, ranges.as_slice());
        self.count = ranges.len();
    }

    // Returns an empty list.
    pub(crate) fn none() -> PageRanges
        ensures { result ≡ [] }
    {
        PageRanges {
            base: Address(0),
            count: 0,
            places: [PageRange::default(); MOST_RANGES],
        }
    }

    // Copies these ranges into this list.
    pub(crate) fn fill(&mut self, ranges: &PageRanges)
        ensures { self.new ≡ ranges.now }
    {
        self.base = ranges.base;
        fill(&mut self.places, &ranges.places[..ranges.count]);
        self.count = ranges.count;
    }

    /// Returns a copy of the list.
    pub(crate) fn copy(&self) -> PageRanges
        ensures { result ≡ self.now }
    {
        let mut copy = PageRanges::none();
        copy.fill(self);
        copy
    }

    /// Returns the number of ranges.
    pub fn len(&self) -> usize
        ensures count { result ≡ length self.now }
        ensures few { result ≤ MOST_RANGES }
    {
        self.count
    }

    /// Returns the range at this place in the list, counted from 0, with its address.
    pub fn at(&self, place: usize) -> Range
        requires { place < length self.now }
        ensures { (other : Range) → result ≡ slice_index_or self.now place other }
    {
        let ranges = &self.places[..self.count];
        ranges[place].range(self.base)
    }

    /// Puts each range with its address into an empty list, in order. The caller passes the list, because a list is
    /// costly to move.
    pub(crate) fn list_in(&self, ranges: &mut ArrayVec<Range, MOST_RANGES>)
        requires { ranges.old.items ≡ [] }
        ensures { ranges.new.items ≡ self.now }
    {
        for range in &self.places[..self.count] {
            ranges.push(range.range(self.base));
        }
    }
}
