// SPDX-License-Identifier: MIT OR Apache-2.0
//! The access that the owners of all pages of ranges have in common.
ghost use Rattle.ffa_rxtx.specs.Parts.{ownership_in};
ghost use Rattle.std.specs.Prelude.{◌≡◌, ◌<◌, ◌&&◌, length};
ghost use Rattle.ffa_model.specs.Rights.{may_fetch, may_store};
ghost use Rattle.ffa_model.specs.Transactions.{are_executable, are_writable};
ghost use Rattle.ffa_pages.specs.Entry.{own_right_at};
ghost use Rattle.ffa_memshare.specs.Named.{all_named, most_of};
ghost use Rattle.ffa_memshare.specs.Ranges.{ArePlaced, IsPlaced, in_range};

use crate::grants::first_page;
use crate::page_ranges::PageRanges;
use ffa_model::{Address, Data, PageNo, Range, Rights, Room};
use ffa_pages::{KeptPage, PageTable};

/// For some pages, whether their owners may write to all of them, and whether they may execute all of them.
#[derive(Clone, Copy, PartialEq, Eq)]
pub struct Common {
    pub is_writable: bool,
    pub is_executable: bool,
}

impl Common {
    /// Returns the greatest right that each of these pages allows.
    pub fn right(self) -> Rights
        ensures { result ≡ most_of self.is_writable self.is_executable }
    {
        Rights {
            level: if self.is_writable { Data::Rw } else { Data::Ro },
            exec: self.is_executable,
        }
    }

    // Returns the access to each of these pages and to one page more. The owner's right to this page is the argument.
    pub(crate) fn and(self, own_right: Option<Rights>) -> Common
        ensures writable { result.is_writable ≡ (self.is_writable && may_store own_right) }
        ensures executable { result.is_executable ≡ (self.is_executable && may_fetch own_right) }
    {
        match own_right {
            Some(right) => Common {
                is_writable: self.is_writable && right.level == Data::Rw,
                is_executable: self.is_executable && right.exec,
            },
            None => Common {
                is_writable: false,
                is_executable: false,
            },
        }
    }
}

// Returns the access to each of these pages and to each page of a range.
fn common_with<P: Room<KeptPage> + Drop>(
    pages: &PageTable<P>,
    base: Address,
    range: &Range,
    before: Common,
) -> Common
    requires { IsPlaced base.0 (length pages.now) range.now }
    ensures writable { let named = in_range base.0 range.now in
        let are_writable = all_named (length pages.now) named (λ p. may_store (own_right_at pages.now p)) in
        result.is_writable ≡ (before.is_writable && are_writable) }
    ensures executable { let named = in_range base.0 range.now in
        let are_executable = all_named (length pages.now) named (λ p. may_fetch (own_right_at pages.now p)) in
        result.is_executable ≡ (before.is_executable && are_executable) }
{
    // Proof step: the number of pages is 2^14 at most.
    let _ = pages.pages();
    let mut next = first_page(base, range);
    let end = next + range.pages;
    let mut common = before;
    while next < end {
        common = common.and(pages.own_right_of(PageNo(next)));
        next = pages.alike_until(PageNo(next), end);
    }
    common
}

/// Returns whether the owners may write to all pages of these ranges, and whether they may execute all of them. This is
/// their access while no transaction names the pages.
pub fn common_of<P: Room<KeptPage> + Drop>(
    pages: &PageTable<P>,
    base: Address,
    ranges: &PageRanges,
) -> Common
    requires { ArePlaced base.0 (length pages.now) ranges.now }
    ensures writable { result.is_writable ≡ are_writable (ownership_in pages.now base.0) ranges.now }
    ensures executable { result.is_executable ≡ are_executable (ownership_in pages.now base.0) ranges.now }
{
    let mut common = Common {
        is_writable: true,
        is_executable: true,
    };
    for place in 0..ranges.len() {
        common = common_with(pages, base, &ranges.at(place), common);
    }
    common
}
