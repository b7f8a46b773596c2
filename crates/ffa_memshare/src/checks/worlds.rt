// SPDX-License-Identifier: MIT OR Apache-2.0
//! The check of worlds: the pages of a send are of one world. It also finds whether the responses say that the pages
//! are non-secure.
ghost use Rattle.std.specs.Prelude.{◌≡◌, ℕ, not, ◌&&◌, length, IfOk};
ghost use Rattle.std.specs.Result.{result_err};
ghost use Rattle.ffa_model.specs.Calls.{first_refusal};
ghost use Rattle.ffa_model.specs.MemorySend.{is_told_normal, world_guards};
ghost use Rattle.ffa_model.specs.Regions.{is_normal};
ghost use Rattle.ffa_model.specs.SendDescriptor.{SendRecord, is_named};
ghost use Rattle.ffa_rxtx.specs.Parts.{ownership_in};
ghost use Rattle.ffa_stage2.specs.Layout.{normal_in};
ghost use Rattle.ffa_memshare.specs.Named.{all_named};
ghost use Rattle.ffa_memshare.specs.Ranges.{ArePlaced, IsPlaced, in_range, in_ranges};

use crate::grants::first_page;
use crate::page_ranges::PageRanges;
use ffa_model::{EndpointId, PageNo, Range, Receiver, Refusal, Room};
use ffa_pages::{KeptPage, PageTable};
use ffa_stage2::Layout;

// The worlds of some pages.
#[derive(Clone, Copy)]
struct WorldsOf {
    // All pages are non-secure.
    are_normal: bool,
    // No page is non-secure.
    are_secure: bool,
}

// Returns the worlds of these pages and of the pages of a range.
fn worlds_with<P: Room<KeptPage> + Drop>(
    layout: &Layout,
    pages: &PageTable<P>,
    range: &Range,
    before: WorldsOf,
) -> WorldsOf
    requires { IsPlaced layout.now.base.0 (length pages.now) range.now }
    ensures normal { let named = in_range layout.now.base.0 range.now in
        let is_normal = is_normal layout.now.base.0 (normal_in layout.now) in
        result.are_normal ≡ (before.are_normal && all_named (length pages.now) named is_normal) }
    ensures secure { let named = in_range layout.now.base.0 range.now in
        let is_normal = is_normal layout.now.base.0 (normal_in layout.now) in
        result.are_secure ≡ (before.are_secure && all_named (length pages.now) named (λ p. not (is_normal p))) }
{
    // Proof step: the number of pages is 2^14 at most.
    let _ = pages.pages();
    let mut next = first_page(layout.base, range);
    let end = next + range.pages;
    let mut worlds = before;
    while next < end {
        let is_normal = layout.is_normal(PageNo(next));
        worlds.are_normal &= is_normal;
        worlds.are_secure &= !is_normal;
        next = layout.normal_until(PageNo(next), end);
    }
    worlds
}

// Returns the worlds of the pages of these ranges.
fn worlds_of<P: Room<KeptPage> + Drop>(
    layout: &Layout,
    pages: &PageTable<P>,
    ranges: &PageRanges,
) -> WorldsOf
    requires { ArePlaced layout.now.base.0 (length pages.now) ranges.now }
    ensures normal { let named = in_ranges layout.now.base.0 ranges.now in
        let is_normal = is_normal layout.now.base.0 (normal_in layout.now) in
        result.are_normal ≡ all_named (length pages.now) named is_normal }
    ensures secure { let named = in_ranges layout.now.base.0 ranges.now in
        let is_normal = is_normal layout.now.base.0 (normal_in layout.now) in
        result.are_secure ≡ all_named (length pages.now) named (λ p. not (is_normal p)) }
{
    let mut worlds = WorldsOf {
        are_normal: true,
        are_secure: true,
    };
    for place in 0..ranges.len() {
        worlds = worlds_with(layout, pages, &ranges.at(place), worlds);
    }
    worlds
}

// Whether the normal world is one of the receivers.
fn names_normal_world(receivers: &[Receiver]) -> bool
    ensures { result ≡ is_named 0 receivers.now }
{
    receivers
        .iter()
        .any(|receiver| receiver.endpoint == EndpointId::NORMAL_WORLD)
}

// Returns whether responses say that the pages are non-secure. If the machine does not distinguish worlds, the result
// is false, and the function looks at no page. An error is `WorldsMixed`. This check is about all pages and receivers
// together, so it follows the checks of single pages. If it were a part of `PageUnsendable`, that name would not
// mention worlds.
pub(crate) fn check_worlds<P: Room<KeptPage> + Drop>(
    layout: &Layout,
    pages: &PageTable<P>,
    receivers: &[Receiver],
    ranges: &PageRanges,
) -> Result<bool, Refusal>
    requires { ArePlaced layout.now.base.0 (length pages.now) ranges.now }
    ensures refusal { let owners = ownership_in pages.now layout.now.base.0 in
        (send : SendRecord) → send.ranges ≡ ranges.now → send.receivers ≡ receivers.now
        → result_err result ≡ first_refusal (world_guards owners (normal_in layout.now) send) }
    ensures normal { let owners = ownership_in pages.now layout.now.base.0 in
        IfOk result (λ normal. normal ≡ is_told_normal owners (normal_in layout.now) ranges.now) }
{
    if !layout.tells_worlds() {
        return Ok(false);
    }
    let worlds = worlds_of(layout, pages, ranges);
    if worlds.are_normal {
        return Ok(true);
    }
    if worlds.are_secure && !names_normal_world(receivers) {
        return Ok(false);
    }
    Err(Refusal::WorldsMixed)
}
