// SPDX-License-Identifier: MIT OR Apache-2.0
//! The composite of a send, which lists the ranges of pages.

ghost use Rattle.std.specs.Prelude.{◌≡◌, ℕ, ◌+◌, ◌*◌, ◌≤◌, ◌<◌, [], length, true, false, Some, None, IfOk, IfErr, OnOk, OnErr, IfSome, IfNone};
ghost use Rattle.std.specs.List.{list_all};
ghost use Rattle.std.specs.Option.{option_map};
ghost use Rattle.std.specs.Result.{result_err};
ghost use Rattle.ffa_model.specs.declared.limits.TheConstants.{MOST_RANGES};
ghost use Rattle.ffa_model.specs.DescriptorPlaces.{accesses_size};
ghost use Rattle.ffa_model.specs.FirstFlaws.{first_of};
ghost use Rattle.ffa_model.specs.declared.flaw.Flaw.TheVariants.{Composite as FlawOfComposite, Range as FlawOfRange};
ghost use Rattle.ffa_model.specs.SendDescriptor.{range_end, are_apart, page_total};
ghost use Rattle.ffa_model.specs.Lists.{listed};
ghost use Rattle.ffa_memdesc.specs.Reading.{AreApart, IsApartAt, range_count_of, range_of, range_after, ranges_of, composite_flaw_at, own_flaw_at, own_flaw_after, range_flaw_after};

use crate::bytes::{Bytes, read_u32, read_u64};
use crate::header::{Header, RANGE_SIZE, accesses_size};
use arrayvec::ArrayVec;
use ffa_model::{CompositeFlaw, Flaw, MOST_RANGES, Range, RangeFlaw, Version};

/// Returns the number of ranges of the composite at this place. The composite must not begin before the access
/// descriptors end, and must end inside the bytes with its ranges.
///
/// # Errors
///
/// The first condition of a composite that the bytes break. This function does not check the ranges and the sum of
/// their pages.
#[tactic(auto, unfolding(crate::specs::Reading::range_count_of, crate::specs::Reading::composite_flaw_at))]
pub fn read_range_count<B: Bytes>(
    bytes: &B,
    version: Version,
    header: &Header,
    composite: u32,
) -> Result<u32, CompositeFlaw>
    ensures found { let end = header.now.array + accesses_size version header.now.count in
        IfOk result (λ n. Some n ≡ range_count_of (B.bytes bytes.now) end composite) }
    ensures few { IfOk result (λ n. n ≤ MOST_RANGES) }
    ensures inside { IfOk result (λ n. composite + 16 + 16 * n ≤ length (B.bytes bytes.now)) }
    ensures first { let end = header.now.array + accesses_size version header.now.count in
        let broken = option_map (λ flaw. FlawOfComposite flaw) (result_err result) in
        broken ≡ composite_flaw_at (B.bytes bytes.now) end composite }
{
    let len = bytes.len() as u64;
    let first = composite as u64 + 16;
    if first > len {
        return Err(CompositeFlaw::Outside);
    }
    if composite % 16 != 0 {
        return Err(CompositeFlaw::Unaligned);
    }
    if u64::from(header.array) + accesses_size(version, header.count) > u64::from(composite) {
        return Err(CompositeFlaw::InArray);
    }
    let at = composite as usize;
    let count = read_u32(bytes, at + 4);
    if count < 1 {
        return Err(CompositeFlaw::NoRange);
    }
    if count as usize > MOST_RANGES {
        return Err(CompositeFlaw::ManyRanges);
    }
    if read_u64(bytes, at + 8) != 0 {
        return Err(CompositeFlaw::Reserved);
    }
    if first + RANGE_SIZE as u64 * count as u64 > len {
        return Err(CompositeFlaw::RangesOutside);
    }
    Ok(count)
}

/// Returns the first address after a range. The sum does not wrap.
pub fn range_end(range: &Range) -> u128
    ensures { result ≡ range_end range.now }
{
    range.address as u128 + 4096 * range.pages as u128
}

fn are_apart(a: &Range, b: &Range) -> bool
    ensures { result ≡ are_apart a.now b.now }
{
    range_end(a) <= b.address as u128 || range_end(b) <= a.address as u128
}

/// Whether the range has no page in common with any of the others.
pub fn is_apart_from(range: &Range, others: &[Range]) -> bool
    ensures { result ≡ list_all (are_apart range.now) others.now }
{
    others.iter().all(|r| are_apart(range, r))
}

/// Returns the range at this place, if it is a range by itself. It has at least one page, and is page-aligned. It ends
/// at or below 2^48, and its reserved bytes are 0.
///
/// An error is the first condition that it breaks.
#[tactic(auto, unfolding(crate::specs::Reading::range_of, crate::specs::Reading::own_flaw_at))]
fn read_range<B: Bytes>(bytes: &B, at: usize) -> Result<Range, RangeFlaw>
    requires { at + 16 ≤ length (B.bytes bytes.now) }
    ensures found { IfOk result (λ r. Some r ≡ range_of (B.bytes bytes.now) at) }
    ensures first { (i : ℕ) → let broken = option_map (λ flaw. FlawOfRange i flaw) (result_err result) in
        broken ≡ own_flaw_at (B.bytes bytes.now) at i }
{
    // Proof step: the number of bytes fits a usize.
    let _ = bytes.len();
    let range = Range {
        address: read_u64(bytes, at),
        pages: read_u32(bytes, at + 8),
    };
    if range.pages < 1 {
        return Err(RangeFlaw::Empty);
    }
    if range.address % 4096 != 0 {
        return Err(RangeFlaw::Unaligned);
    }
    if range_end(&range) > 1 << 48 {
        return Err(RangeFlaw::TooHigh);
    }
    if read_u32(bytes, at + 12) != 0 {
        return Err(RangeFlaw::Reserved);
    }
    Ok(range)
}

/// Puts the ranges of the composite into an empty list, up to the first that breaks a condition by itself. This
/// function does not check whether ranges overlap.
///
/// An error is this first condition, with the index of its range.
fn read_each<B: Bytes>(
    bytes: &B,
    composite: u32,
    count: u32,
    ranges: &mut ArrayVec<Range, MOST_RANGES>,
) -> Result<(), Flaw>
    requires few { count ≤ MOST_RANGES }
    requires inside { composite + 16 + 16 * count ≤ length (B.bytes bytes.now) }
    requires empty { ranges.old.items ≡ [] }
    ensures listed { let read = range_after (B.bytes bytes.now) composite in
        ranges.new.items ≡ listed (length ranges.new.items) read }
    ensures whole { (i : ℕ) → i < length ranges.new.items → None ≡ own_flaw_after (B.bytes bytes.now) composite i }
    ensures all { OnOk result (length ranges.new.items ≡ count) }
    ensures some { OnErr result (length ranges.new.items < count) }
    ensures first { let broken = own_flaw_after (B.bytes bytes.now) composite (length ranges.new.items) in
        IfErr result (λ flaw. Some flaw ≡ broken) }
{
    for i in 0..count {
        let at = composite as usize + 16 + RANGE_SIZE as usize * i as usize;
        match read_range(bytes, at) {
            Ok(range) => ranges.push(range),
            Err(flaw) => return Err(Flaw::Range(i, flaw)),
        }
    }
    Ok(())
}

// Whether each range begins at or after the end of the range before it.
fn are_in_order(ranges: &[Range]) -> bool
    ensures { result ≡ true → AreApart ranges.now }
{
    let mut end = 0;
    for place in 0..ranges.len() {
        let range = &ranges[place];
        if u128::from(range.address) < end {
            return false;
        }
        end = range_end(range);
    }
    true
}

// Whether no two of these ranges have a page in common, by a copy that is sorted by addresses. The contract promises
// nothing for `false`.
#[inline(never)]
fn are_apart_sorted(ranges: &[Range]) -> bool
    requires { length ranges.now ≤ MOST_RANGES }
    ensures { result ≡ true → AreApart ranges.now }
{
    let mut sorted: ArrayVec<Range, MOST_RANGES> = ArrayVec::new();
    for range in ranges {
        sorted.push(*range);
    }
    let places = sorted.as_mut_slice();
    places.sort_unstable_by_key(|range| range.address);
    are_in_order(places)
}

// Returns the index of the first range that has a page of an earlier one, or `None`. It compares each range with all
// ranges before it only if the sorted copy has an overlap.
#[inline(always)]
fn first_overlap(ranges: &[Range]) -> Option<usize>
    requires { length ranges.now ≤ MOST_RANGES }
    ensures none { IfNone result ((i : ℕ) → i < length ranges.now → IsApartAt ranges.now i true) }
    ensures inside { IfSome result (λ place. place < length ranges.now) }
    ensures first { IfSome result (λ place. (i : ℕ) → i < place → IsApartAt ranges.now i true) }
    ensures overlaps { IfSome result (λ place. IsApartAt ranges.now place false) }
{
    if are_in_order(ranges) || are_apart_sorted(ranges) {
        return None;
    }
    for place in 0..ranges.len() {
        if !is_apart_from(&ranges[place], &ranges[..place]) {
            return Some(place);
        }
    }
    None
}

/// Puts the ranges of the composite into an empty list, if each is a range and no two overlap. The caller passes the
/// list, because a list is costly to move.
///
/// # Errors
///
/// The first condition of a range that the bytes break, with the index of this range. The list may then have any
/// contents.
pub fn read_ranges<B: Bytes>(
    bytes: &B,
    composite: u32,
    count: u32,
    ranges: &mut ArrayVec<Range, MOST_RANGES>,
) -> Result<(), Flaw>
    requires few { count ≤ MOST_RANGES }
    requires inside { composite + 16 + 16 * count ≤ length (B.bytes bytes.now) }
    requires empty { ranges.old.items ≡ [] }
    ensures found { OnOk result (Some ranges.new.items ≡ ranges_of (B.bytes bytes.now) composite count) }
    ensures first { result_err result ≡ first_of count (range_flaw_after (B.bytes bytes.now) composite) }
{
    let read = read_each(bytes, composite, count, ranges);
    match first_overlap(ranges) {
        Some(place) => Err(Flaw::Range(place as u32, RangeFlaw::Overlap)),
        None => read,
    }
}

/// Returns the number of pages of all ranges of a transaction together. The sum does not wrap.
pub fn page_total(ranges: &[Range]) -> u64
    requires { length ranges.now ≤ MOST_RANGES }
    ensures { result ≡ page_total ranges.now }
{
    ranges.iter().map(|r| r.pages as u64).sum()
}
