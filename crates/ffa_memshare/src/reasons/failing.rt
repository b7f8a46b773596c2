// SPDX-License-Identifier: MIT OR Apache-2.0
//! The first page that fails a check of a send or a reclaim, and the ranges of an offer that are outside RAM or of the
//! wrong world.
ghost use Rattle.std.specs.Prelude.{◌≡◌, ◌<◌, ◌&&◌, [], length, not};
ghost use Rattle.std.specs.List.{list_all};
ghost use Rattle.ffa_model.specs.declared.limits.TheConstants.{MOST_PAGES};
ghost use Rattle.ffa_model.specs.declared.transaction.Receiver.{Receiver as Named};
ghost use Rattle.ffa_model.specs.About.{failing_offer, failing_reclaim, first_unwritable, passes};
ghost use Rattle.ffa_model.specs.MemoryReturn.{named_ranges};
ghost use Rattle.ffa_model.specs.MemorySend.{are_secure, is_buffer, is_grantable, is_inside, is_sendable};
ghost use Rattle.ffa_model.specs.Regions.{is_normal};
ghost use Rattle.ffa_model.specs.Rights.{may_store};
ghost use Rattle.ffa_model.specs.SendDescriptor.{send_record};
ghost use Rattle.ffa_mend.specs.Mend.{first_outside, mend_offer, mixed, outside_of};
ghost use Rattle.ffa_pages.specs.Entry.{own_right_at};
ghost use Rattle.ffa_rxtx.specs.Parts.{ownership_in};
ghost use Rattle.ffa_stage2.specs.Layout.{normal_in};
ghost use Rattle.ffa_memshare.specs.Ranges.{in_range, in_ranges};
ghost use Rattle.ffa_memshare.specs.Stored.{transaction_in};

use crate::checks::send::{is_inside, is_own};
use crate::open_slot::OpenSlot;
use crate::pool::Pool;
use arrayvec::ArrayVec;
use ffa_mend::{Cause, Mend};
use ffa_model::{
    Address, Data, EndpointId, Handle, MOST_RANGES, PageNo, Range, Receiver, Refusal, Rights, Room,
    SendDesc,
};
use ffa_pages::{KeptPage, PageTable};
use ffa_rxtx::Buffers;
use ffa_stage2::Layout;

/// Returns the first page of an offer that fails a check, or `None`.
pub(crate) fn failing_offer<P: Room<KeptPage> + Drop>(
    offer: &SendDesc,
    pages: &PageTable<P>,
    layout: &Layout,
    buffers: &Buffers,
    sender: EndpointId,
    refusal: Refusal,
) -> Option<PageNo>
    ensures { let owners = ownership_in pages.now layout.now.base.0 in
        result ≡ failing_offer sender.0 owners buffers.now (normal_in layout.now) refusal (send_record offer.now) }
{
    for number in 0..pages.pages() {
        let page = PageNo(number);
        if fails(offer, pages, layout, buffers, sender, refusal, page) {
            return Some(page);
        }
    }
    None
}

// Whether a page is in an offer and fails a check.
fn fails<P: Room<KeptPage> + Drop>(
    offer: &SendDesc,
    pages: &PageTable<P>,
    layout: &Layout,
    buffers: &Buffers,
    sender: EndpointId,
    refusal: Refusal,
    page: PageNo,
) -> bool
    requires { page.0 < length pages.now }
    ensures { let owners = ownership_in pages.now layout.now.base.0 in
        let passes = passes sender.0 owners buffers.now (normal_in layout.now) (send_record offer.now) refusal page.0 in
        result ≡ (in_ranges layout.now.base.0 offer.now.ranges.items page.0 && not passes) }
{
    is_in_any(offer.ranges.as_slice(), layout.base, page)
        && !passes(offer, pages, layout, buffers, sender, refusal, page)
}

// Whether a page passes a check.
fn passes<P: Room<KeptPage> + Drop>(
    offer: &SendDesc,
    pages: &PageTable<P>,
    layout: &Layout,
    buffers: &Buffers,
    sender: EndpointId,
    refusal: Refusal,
    page: PageNo,
) -> bool
    requires { page.0 < length pages.now }
    ensures { let owners = ownership_in pages.now layout.now.base.0 in
        result ≡ passes sender.0 owners buffers.now (normal_in layout.now) (send_record offer.now) refusal page.0 }
{
    match refusal {
        Refusal::PageUnsendable => is_sendable(pages, buffers, sender, page),
        Refusal::GrantTooMuch => {
            are_grantable(offer.receivers.as_slice(), pages.own_right_of(page))
        }
        Refusal::ZerosUnwritable => may_store(pages.own_right_of(page)),
        Refusal::WorldsMixed => layout.is_normal(page),
        _ => true,
    }
}

/// Returns the first address of an offer outside RAM, or the reason why its pages are of the wrong world.
pub(crate) fn mend_offer<P: Room<KeptPage> + Drop>(
    offer: &SendDesc,
    pages: &PageTable<P>,
    layout: &Layout,
    refusal: Refusal,
) -> Option<Mend>
    ensures { let owners = ownership_in pages.now layout.now.base.0 in
        result ≡ mend_offer owners (normal_in layout.now) refusal (send_record offer.now) }
{
    let ranges = offer.ranges.as_slice();
    match refusal {
        Refusal::RangeOutside => match first_outside(ranges, pages, layout.base) {
            Some(address) => Some(Mend::Outside(address)),
            None => None,
        },
        Refusal::WorldsMixed => Some(Mend::Cause(mixed(ranges, pages, layout))),
        _ => None,
    }
}

// Returns the reason why the pages of these ranges are of the wrong world.
fn mixed<P: Room<KeptPage> + Drop>(ranges: &[Range], pages: &PageTable<P>, layout: &Layout) -> Cause
    ensures { let owners = ownership_in pages.now layout.now.base.0 in
        result ≡ mixed owners (normal_in layout.now) ranges.now }
{
    if are_secure(ranges, pages, layout) {
        Cause::SecureToNormal
    } else {
        Cause::PagesOfBothWorlds
    }
}

// Whether no page of these ranges is non-secure.
fn are_secure<P: Room<KeptPage> + Drop>(
    ranges: &[Range],
    pages: &PageTable<P>,
    layout: &Layout,
) -> bool
    ensures { let owners = ownership_in pages.now layout.now.base.0 in
        result ≡ are_secure owners (normal_in layout.now) ranges.now }
{
    for number in 0..pages.pages() {
        if is_normal_in(ranges, layout, PageNo(number)) {
            return false;
        }
    }
    true
}

// Whether a page is in one of these ranges and is non-secure.
fn is_normal_in(ranges: &[Range], layout: &Layout, page: PageNo) -> bool
    ensures { let is_normal = is_normal layout.now.base.0 (normal_in layout.now) page.0 in
        result ≡ (in_ranges layout.now.base.0 ranges.now page.0 && is_normal) }
{
    is_in_any(ranges, layout.base, page) && layout.is_normal(page)
}

// Returns the first address outside RAM of the first range that is not in RAM.
fn first_outside<P: Room<KeptPage> + Drop>(
    ranges: &[Range],
    pages: &PageTable<P>,
    base: Address,
) -> Option<u64>
    ensures { result ≡ first_outside (ownership_in pages.now base.0) ranges.now }
{
    let outside = ranges.iter().find(|range| !is_inside(range, pages, base));
    match outside {
        Some(range) => Some(outside_of(range, pages, base)),
        None => None,
    }
}

// Returns the first address outside RAM of a range that is not in RAM.
fn outside_of<P: Room<KeptPage> + Drop>(range: &Range, pages: &PageTable<P>, base: Address) -> u64
    ensures { result ≡ outside_of (ownership_in pages.now base.0) range.now }
{
    let start = u64::from(base.0);
    let end = start + 4096 * u64::from(pages.pages());
    if start <= range.address && range.address < end {
        end
    } else {
        range.address
    }
}

/// Returns the page that a check of FFA_MEM_RECLAIM is about, or `None`. It is the first page of the transaction with
/// this handle that its owner may not write to. The RAM begins at `base`.
pub(crate) fn failing_reclaim<P: Room<KeptPage> + Drop, O: Room<OpenSlot> + Drop>(
    pool: &Pool<O>,
    pages: &PageTable<P>,
    base: Address,
    handle: Handle,
    refusal: Refusal,
) -> Option<PageNo>
    ensures { let transaction = transaction_in pool.now.slots handle.0 in
        result ≡ failing_reclaim (ownership_in pages.now base.0) transaction refusal }
{
    match refusal {
        Refusal::ZerosUnwritable => {
            let mut ranges = ArrayVec::new();
            list_ranges(pool, handle, &mut ranges);
            first_unwritable(ranges.as_slice(), pages, base)
        }
        _ => None,
    }
}

// Puts the ranges of the transaction with this handle into an empty list, if it is open.
fn list_ranges<O: Room<OpenSlot> + Drop>(
    pool: &Pool<O>,
    handle: Handle,
    ranges: &mut ArrayVec<Range, MOST_RANGES>,
)
    requires { ranges.old.items ≡ [] }
    ensures { ranges.new.items ≡ named_ranges (transaction_in pool.now.slots handle.0) }
{
    if let Some(slot) = pool.find(handle.0) {
        pool.at(slot).ranges.list_in(ranges);
    }
}

// Returns the first page of these ranges that its owner may not write to, or `None`.
fn first_unwritable<P: Room<KeptPage> + Drop>(
    ranges: &[Range],
    pages: &PageTable<P>,
    base: Address,
) -> Option<PageNo>
    ensures { result ≡ first_unwritable (ownership_in pages.now base.0) ranges.now }
{
    for number in 0..pages.pages() {
        let page = PageNo(number);
        if is_unwritable(ranges, pages, base, page) {
            return Some(page);
        }
    }
    None
}

// Whether a page is in one of these ranges and its owner may not write to it.
fn is_unwritable<P: Room<KeptPage> + Drop>(
    ranges: &[Range],
    pages: &PageTable<P>,
    base: Address,
    page: PageNo,
) -> bool
    requires { page.0 < length pages.now }
    ensures { result ≡ (in_ranges base.0 ranges.now page.0 && not (may_store (own_right_at pages.now page.0))) }
{
    is_in_any(ranges, base, page) && !may_store(pages.own_right_of(page))
}

// Whether a page is in one of these ranges.
fn is_in_any(ranges: &[Range], base: Address, page: PageNo) -> bool
    ensures { result ≡ in_ranges base.0 ranges.now page.0 }
{
    ranges.iter().any(|range| has_page(range, base, page))
}

// Whether a page is in a range.
fn has_page(range: &Range, base: Address, page: PageNo) -> bool
    ensures { result ≡ in_range base.0 range.now page.0 }
{
    let address = u64::from(base.0) + 4096 * u64::from(page.0);
    range.address <= address && address - range.address < 4096 * u64::from(range.pages)
}

// Whether an endpoint may send a page. The page must belong to the endpoint, and must be in no open transaction and in
// no buffer.
fn is_sendable<P: Room<KeptPage> + Drop>(
    pages: &PageTable<P>,
    buffers: &Buffers,
    sender: EndpointId,
    page: PageNo,
) -> bool
    requires { page.0 < length pages.now }
    ensures { result ≡ is_sendable sender.0 (ownership_in pages.now 0) buffers.now page.0 }
{
    // Proof step: the number of pages is MOST_PAGES at most.
    let _ = pages.pages();
    is_own(pages, sender, page) && !is_buffer(buffers, page)
}

// Whether a page is in a buffer of an endpoint.
fn is_buffer(buffers: &Buffers, page: PageNo) -> bool
    requires { page.0 < MOST_PAGES }
    ensures { result ≡ is_buffer buffers.now page.0 }
{
    buffers.is_any_buffer(page, page.0 + 1)
}

// Whether no receiver is granted more than this own right.
fn are_grantable(receivers: &[Receiver], right: Option<Rights>) -> bool
    ensures { result ≡ list_all (λ (r : Named). is_grantable r.grant right) receivers.now }
{
    receivers
        .iter()
        .all(|receiver| is_grantable(receiver.grant, right))
}

// Whether a grant is at most this own right.
fn is_grantable(grant: Option<Data>, right: Option<Rights>) -> bool
    ensures { result ≡ is_grantable grant right }
{
    match (grant, right) {
        (None, _) => true,
        (Some(_), None) => false,
        (Some(Data::Ro), Some(_)) => true,
        (Some(Data::Rw), Some(right)) => right.level == Data::Rw,
    }
}

// Whether this own right allows its owner to write.
fn may_store(right: Option<Rights>) -> bool
    ensures { result ≡ may_store right }
{
    match right {
        Some(right) => right.level == Data::Rw,
        None => false,
    }
}
