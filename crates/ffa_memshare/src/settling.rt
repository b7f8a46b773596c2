// SPDX-License-Identifier: MIT OR Apache-2.0
//! Settles pages of ranges: translation units then no longer hold rights that have ended.
ghost use Rattle.std.specs.Prelude.{ℕ, ◌≡◌, true, List, Some, length};
ghost use Rattle.ffa_physmem.specs.Moments.{IsSettledBy, Only, Step};
ghost use Rattle.ffa_physmem.specs.Work.{AddsAtMost, settles_of};
ghost use Rattle.ffa_memshare.specs.Ranges.{ArePlaced, in_ranges};

use crate::grants::first_page;
use crate::page_ranges::PageRanges;
use ffa_model::PageNo;
use ffa_physmem::PhysMem;

/// Settles the pages of these ranges in the tables of the endpoint at place `index`. RAM does not change.
pub fn settle<M: PhysMem>(ram: &mut M, ranges: &PageRanges, index: usize)
    requires { ArePlaced (M.ram ram.old).base (length (M.ram ram.old).pages) ranges.now }
    ensures ram { M.ram ram.new ≡ M.ram ram.old }
    ensures steps { Only (M.past ram.old) (M.past ram.new) (λ _ s. (s.after ≡ s.before) × (s.after ≡ M.ram ram.old)) }
    ensures settled { (begin end p : ℕ) (h : List Step)
        → (M.past ram.new).steps ≡ Some h
        → in_ranges (M.ram ram.old).base ranges.now p ≡ true
        → IsSettledBy begin end index p h }
    ensures few { AddsAtMost (M.past ram.old) (M.past ram.new) (settles_of (length ranges.now)) }
{
    for place in 0..ranges.len() {
        let range = ranges.at(place);
        let first = first_page(ram.base(), &range);
        ram.settle(index, PageNo(first), range.pages);
    }
}
