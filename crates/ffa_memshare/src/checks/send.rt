// SPDX-License-Identifier: MIT OR Apache-2.0
//! The checks of FFA_MEM_DONATE, FFA_MEM_LEND and FFA_MEM_SHARE: whether an endpoint may send what it offers.
ghost use Rattle.ffa_model.specs.Buffers.{is_own};
ghost use Rattle.std.specs.Prelude.{◌≡◌, ◌<◌, ◌++◌, ℕ, length, false, List, Option, Some, [], OnOk, IfOk, ◌||◌, ◌&&◌};
ghost use Rattle.std.specs.List.{list_all};
ghost use Rattle.std.specs.Result.{result_err};
ghost use Rattle.arrayvec.specs.ArrayVec.{array_vec_len};
ghost use Rattle.ffa_memshare.specs.declared.pool.TheConstants.{MOST_SLOTS};
ghost use Rattle.ffa_model.specs.Calls.{first_refusal};
ghost use Rattle.ffa_model.specs.DescriptorPlaces.{Versioned};
ghost use Rattle.ffa_model.specs.Identifiers.{identifier, place};
ghost use Rattle.ffa_model.specs.MemorySend.{are_known, is_inside, is_sendable, record_guards, room_guards, send_guards, world_guards};
ghost use Rattle.ffa_model.specs.SendDescriptor.{is_named, send_of, send_record};
ghost use Rattle.ffa_model.specs.Rights.{may_store};
ghost use Rattle.ffa_model.specs.Transactions.{are_writable, most_sends, next_handle, sends_of};
ghost use Rattle.ffa_pages.specs.Entry.{Entry, own_right_at};
ghost use Rattle.ffa_rxtx.specs.Parts.{ownership_in};
ghost use Rattle.ffa_stage2.specs.Layout.{normal_in};
ghost use Rattle.ffa_memshare.specs.Callers.{IsCaller};
ghost use Rattle.ffa_memshare.specs.Memory.{memory_of, memory_parts};
ghost use Rattle.ffa_memshare.specs.Named.{all_named};
ghost use Rattle.ffa_memshare.specs.Offers.{AreAligned, DescribesOffer, IsOwnOffer, grants_writes, write_guards};
ghost use Rattle.ffa_memshare.specs.Ranges.{ArePlaced, IsPlaced, in_range, in_ranges};
ghost use Rattle.ffa_memshare.specs.Scenes.{descriptor_in, scene_in};
ghost use Rattle.ffa_memshare.specs.SlotChanges.{IsFree};
ghost use Rattle.ffa_memshare.specs.Stored.{open_in, view_of};

use super::worlds::check_worlds;
use crate::common::Common;
use crate::descriptor_call::DescriptorCall;
use crate::draft::Draft;
use crate::grants::first_page;
use crate::open_slot::OpenSlot;
use crate::page_ranges::PageRanges;
use crate::page_run::read_send;
use crate::pool::Pool;
use crate::transaction::OpenTransaction;
use ffa_model::{
    Address, Data, EndpointId, Ffa, Kind, PageNo, Range, Receiver, Refusal, Room, SendDesc,
};
use ffa_pages::{KeptPage, PageTable};
use ffa_physmem::PhysMem;
use ffa_rxtx::Buffers;
use ffa_stage2::Layout;

impl<O: Room<OpenSlot> + Drop> Pool<O> {
    /// Checks that an endpoint may send what the descriptor in its TX offers. Returns a free slot for the transaction.
    /// The draft then has the transaction.
    ///
    /// # Errors
    ///
    /// The first check of FFA_MEM_DONATE, FFA_MEM_LEND or FFA_MEM_SHARE that fails.
    pub fn check_send<M: PhysMem, P: Room<KeptPage> + Drop>(
        &self,
        ram: &M,
        layout: &Layout,
        pages: &PageTable<P>,
        buffers: &Buffers,
        caller: EndpointId,
        kind: Kind,
        call: &DescriptorCall,
        draft: &mut Draft,
    ) -> Result<usize, Refusal>
        requires caller { IsCaller (memory_of (M.ram ram.now) layout.now pages.now) buffers.now caller.0 }
        requires endpoints { length self.now.sent ≡ array_vec_len layout.now.regions }
        ensures refusal { let parts = memory_parts (M.ram ram.now) layout.now pages.now buffers.now self.now in
            let offer = send_of call.now.ffa kind (descriptor_in (M.ram ram.now) buffers.now caller.0 call.now) in
            result_err result ≡ first_refusal (send_guards call.now.ffa (scene_in parts) caller.0 call.now.transfer offer) }
        ensures handle { OnOk result (draft.new.transaction.handle ≡ next_handle (open_in self.now) caller.0) }
        ensures offered { let bytes = descriptor_in (M.ram ram.now) buffers.now caller.0 call.now in
            let opened = view_of draft.new.transaction in
            let normal = normal_in layout.now in
            OnOk result (DescribesOffer pages.now layout.now.base.0 normal caller.0 call.now.ffa kind bytes opened) }
        ensures free { IfOk result (IsFree self.now.slots (place caller.0)) }
        ensures few { OnOk result (sends_of (open_in self.now) caller.0 < most_sends call.now.ffa) }
        ensures fits { IfOk result (λ slot. slot < MOST_SLOTS) }
    {
        let found = call.descriptor(ram, buffers, caller)?;
        let Ok(()) = read_send(&found.bytes, call.ffa, call.version, kind, &mut draft.offer) else {
            return Err(Refusal::DescriptorMalformed);
        };
        self.check_offered(
            call.ffa,
            layout,
            pages,
            buffers,
            caller,
            kind,
            &draft.offer,
            &mut draft.transaction,
        )
    }

    // Checks that an endpoint may send an offer, on a machine of this version of FF-A, and makes the transaction of the
    // offer. Returns a free slot for the transaction. An error is the first check that fails.
    pub(crate) fn check_offered<P: Room<KeptPage> + Drop>(
        &self,
        ffa: Ffa,
        layout: &Layout,
        pages: &PageTable<P>,
        buffers: &Buffers,
        caller: EndpointId,
        kind: Kind,
        offer: &SendDesc,
        transaction: &mut OpenTransaction,
    ) -> Result<usize, Refusal>
        requires known { identifier (place caller.0) ≡ caller.0 }
        requires place { place caller.0 < length self.now.sent }
        requires aligned { AreAligned offer.now.ranges.items }
        ensures refusal { let owners = ownership_in pages.now layout.now.base.0 in
            let send = send_record offer.now in
            result_err result ≡ first_refusal (record_guards (array_vec_len layout.now.regions) owners buffers.now caller.0 send
            ++ (world_guards owners (normal_in layout.now) send ++ room_guards ffa (open_in self.now) caller.0)) }
        ensures handle { OnOk result (transaction.new.handle ≡ next_handle (open_in self.now) caller.0) }
        ensures offered { let send = send_record offer.now in
            (bytes : Versioned) → send_of ffa kind bytes ≡ Some send → is_named send.sender send.receivers ≡ false
            → OnOk result (DescribesOffer pages.now layout.now.base.0 (normal_in layout.now) caller.0 ffa kind bytes (view_of transaction.new)) }
        ensures free { IfOk result (IsFree self.now.slots (place caller.0)) }
        ensures few { OnOk result (sends_of (open_in self.now) caller.0 < most_sends ffa) }
        ensures fits { IfOk result (λ slot. slot < MOST_SLOTS) }
    {
        let ranges = &mut transaction.ranges;
        check_offer(offer, layout, pages, buffers, caller, ranges)?;
        let receivers = offer.receivers.as_slice();
        let normal = check_worlds(layout, pages, receivers, &transaction.ranges)?;
        let slot = self.room(ffa, caller)?;
        transaction.offer(self.next_handle(caller), kind, normal, offer);
        Ok(slot)
    }
}

// Whether all receivers are endpoints of a machine with this number of endpoints.
fn are_known(receivers: &[Receiver], endpoints: usize) -> bool
    ensures { result ≡ are_known endpoints receivers.now }
{
    receivers
        .iter()
        .all(|receiver| receiver.endpoint.is_among(endpoints))
}

// Whether a range is in the RAM of these pages.
pub(crate) fn is_inside<P: Room<KeptPage> + Drop>(
    range: &Range,
    pages: &PageTable<P>,
    base: Address,
) -> bool
    ensures { result ≡ is_inside (ownership_in pages.now base.0) range.now }
{
    let start = u64::from(base.0);
    let end = start + 4096 * u64::from(pages.pages());
    let size = 4096 * u64::from(range.pages);
    start <= range.address && range.address <= end && size <= end - range.address
}

// Whether all ranges are in the RAM of these pages.
fn are_inside<P: Room<KeptPage> + Drop>(
    ranges: &[Range],
    pages: &PageTable<P>,
    base: Address,
) -> bool
    ensures { result ≡ list_all (is_inside (ownership_in pages.now base.0)) ranges.now }
{
    ranges.iter().all(|range| is_inside(range, pages, base))
}

// Whether a page belongs to an endpoint, and no open transaction names it.
pub(crate) fn is_own<P: Room<KeptPage> + Drop>(
    pages: &PageTable<P>,
    sender: EndpointId,
    page: PageNo,
) -> bool
    requires { page.0 < length pages.now }
    ensures { result ≡ is_own sender.0 (ownership_in pages.now 0) page.0 }
{
    pages.own_right_of(page).is_some()
        && pages.owner_of(page) == sender
        && pages.slot_of(page).is_none()
}

// The facts that a send needs of pages: whether the endpoint may send all of them, and whether it may write to all of
// them itself.
#[derive(Clone, Copy)]
struct Looked {
    is_sendable: bool,
    is_writable: bool,
}

impl Looked {
    // Returns what is true of all pages of both.
    fn and(self, other: Looked) -> Looked
        ensures sendable { result.is_sendable ≡ (self.is_sendable && other.is_sendable) }
        ensures writable { result.is_writable ≡ (self.is_writable && other.is_writable) }
    {
        Looked {
            is_sendable: self.is_sendable && other.is_sendable,
            is_writable: self.is_writable && other.is_writable,
        }
    }
}

// Returns whether an endpoint may send the pages of a range, and whether their owners may write to them. It looks at
// the entry of each page at most once.
fn look_at_range<P: Room<KeptPage> + Drop>(
    pages: &PageTable<P>,
    base: Address,
    buffers: &Buffers,
    sender: EndpointId,
    range: &Range,
) -> Looked
    requires { IsPlaced base.0 (length pages.now) range.now }
    ensures sendable { let is_its = is_sendable sender.0 (ownership_in pages.now base.0) buffers.now in
        result.is_sendable ≡ all_named (length pages.now) (in_range base.0 range.now) is_its }
    ensures writable { let may_write = λ (p : ℕ). may_store (own_right_at pages.now p) in
        result.is_writable ≡ all_named (length pages.now) (in_range base.0 range.now) may_write }
{
    // Proof step: the number of pages is 2^14 at most.
    let _ = pages.pages();
    let mut next = first_page(base, range);
    let end = next + range.pages;
    let mut all = !buffers.is_any_buffer(PageNo(next), end);
    let mut common = Common {
        is_writable: true,
        is_executable: true,
    };
    while next < end {
        all &= is_own(pages, sender, PageNo(next));
        common = common.and(pages.own_right_of(PageNo(next)));
        next = pages.alike_until(PageNo(next), end);
    }
    Looked {
        is_sendable: all,
        is_writable: common.is_writable,
    }
}

// Returns whether an endpoint may send the pages of these ranges, and whether their owners may write to them. The
// owner, the open transaction and the buffer are one check with one name. Three names would need three passes over the
// pages.
fn look_at<P: Room<KeptPage> + Drop>(
    pages: &PageTable<P>,
    base: Address,
    buffers: &Buffers,
    sender: EndpointId,
    ranges: &PageRanges,
) -> Looked
    requires { ArePlaced base.0 (length pages.now) ranges.now }
    ensures sendable { let is_its = is_sendable sender.0 (ownership_in pages.now base.0) buffers.now in
        result.is_sendable ≡ all_named (length pages.now) (in_ranges base.0 ranges.now) is_its }
    ensures writable { result.is_writable ≡ are_writable (ownership_in pages.now base.0) ranges.now }
{
    let mut looked = Looked {
        is_sendable: true,
        is_writable: true,
    };
    for place in 0..ranges.len() {
        looked = looked.and(look_at_range(pages, base, buffers, sender, &ranges.at(place)));
    }
    looked
}

// Whether a receiver is granted rw.
fn grants_writes(receivers: &[Receiver]) -> bool
    ensures { result ≡ grants_writes receivers.now }
{
    receivers
        .iter()
        .any(|receiver| receiver.grant == Some(Data::Rw))
}

// Whether the offer requests zeros, or grants rw to a receiver.
fn asks_for_writes(offer: &SendDesc) -> bool
    ensures { result ≡ (offer.now.zero || grants_writes offer.now.receivers.items) }
{
    offer.zero || grants_writes(offer.receivers.as_slice())
}

// Checks that the sender's own right to all pages is rw, if the offer needs it. An error is what the offer needs it
// for. These are two checks in one, because both need rw of all pages. If the right to a page is not rw, the first of
// the two fails exactly if the offer grants rw to a receiver.
fn check_writes(offer: &SendDesc, is_writable: bool) -> Result<(), Refusal>
    ensures { (table : List (Option Entry)) (base e : ℕ) → IsOwnOffer table base e (send_record offer.now)
        → is_writable ≡ are_writable (ownership_in table base) offer.now.ranges.items
        → result_err result ≡ first_refusal (write_guards (ownership_in table base) (send_record offer.now)) }
{
    if !asks_for_writes(offer) {
        return Ok(());
    }
    if is_writable {
        return Ok(());
    }
    if grants_writes(offer.receivers.as_slice()) {
        return Err(Refusal::GrantTooMuch);
    }
    Err(Refusal::ZerosUnwritable)
}

// Checks that an endpoint may send an offer, and replaces `ranges` by the ranges of the offer. An error is the first
// check that fails.
fn check_offer<P: Room<KeptPage> + Drop>(
    offer: &SendDesc,
    layout: &Layout,
    pages: &PageTable<P>,
    buffers: &Buffers,
    caller: EndpointId,
    ranges: &mut PageRanges,
) -> Result<(), Refusal>
    requires aligned { AreAligned offer.now.ranges.items }
    ensures refusal { let endpoints = array_vec_len layout.now.regions in
        let owners = ownership_in pages.now layout.now.base.0 in
        let guards = record_guards endpoints owners buffers.now caller.0 (send_record offer.now) in
        result_err result ≡ first_refusal guards }
    ensures offered { OnOk result (IsOwnOffer pages.now layout.now.base.0 caller.0 (send_record offer.now)) }
    ensures ranges { OnOk result (ranges.new ≡ offer.now.ranges.items) }
{
    if offer.sender != caller {
        return Err(Refusal::SenderIsAnother);
    }
    if !are_known(offer.receivers.as_slice(), layout.regions.len()) {
        return Err(Refusal::ReceiverUnknown);
    }
    if !are_inside(offer.ranges.as_slice(), pages, layout.base) {
        return Err(Refusal::RangeOutside);
    }
    ranges.place(pages, layout.base, &offer.ranges);
    let looked = look_at(pages, layout.base, buffers, caller, ranges);
    if !looked.is_sendable {
        return Err(Refusal::PageUnsendable);
    }
    check_writes(offer, looked.is_writable)?;
    Ok(())
}
