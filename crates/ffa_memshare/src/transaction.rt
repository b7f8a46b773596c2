// SPDX-License-Identifier: MIT OR Apache-2.0
//! An open transaction.
ghost use Rattle.ffa_rxtx.specs.Parts.{ownership_in};
ghost use Rattle.std.specs.Prelude.{◌≡◌, ◌==◌, [], length, find, Some, None, ℕ, Bool, Option};
ghost use Rattle.ffa_model.specs.declared.transaction.Receiver.{Receiver as Named};
ghost use Rattle.ffa_model.specs.Access.{held_by, is_receiver, right_by};
ghost use Rattle.ffa_model.specs.Identifiers.{place};
ghost use Rattle.ffa_model.specs.MemorySend.{transaction_from};
ghost use Rattle.ffa_model.specs.SendDescriptor.{send_record};
ghost use Rattle.ffa_model.specs.State.{Page};
ghost use Rattle.ffa_model.specs.Transactions.{are_executable, are_writable};
ghost use Rattle.ffa_physmem.specs.Moments.{Only};
ghost use Rattle.ffa_pages.specs.Entry.{own_right_at};
ghost use Rattle.ffa_memshare.specs.Changes.{IsMarked, IsMovedFor};
ghost use Rattle.ffa_memshare.specs.Memory.{memory_of};
ghost use Rattle.ffa_memshare.specs.Ranges.{ArePlaced, in_ranges};
ghost use Rattle.ffa_memshare.specs.Grants.{new_right};
ghost use Rattle.ffa_memshare.specs.Sent.{right_after};
ghost use Rattle.ffa_memshare.specs.Shared.{IsHeld};
ghost use Rattle.ffa_memshare.specs.Steps.{EndsSettledFor, OnlyMomentsFor};
ghost use Rattle.ffa_physmem.specs.Work.{AddsAtMost};
ghost use Rattle.ffa_memshare.specs.Work.{IsTakenFrom, LosesNone, given_work, sent_work};
ghost use Rattle.ffa_stage2.specs.Layout.{IsBuiltFor};
ghost use Rattle.ffa_model.specs.declared.rights.Rights.{Rights as Right};

use crate::common::{Common, common_of};
use crate::grants::NewRight;
use crate::holders::Holders;
use crate::marks::{Mark, mark_all};
use crate::page_changes::change_pages;
use crate::page_ranges::PageRanges;
use arrayvec::ArrayVec;
use ffa_model::{
    Address, EndpointId, Kind, MOST_RECEIVERS, Receiver, Rights, Room, SendDesc, SlotNumber,
};
use ffa_pages::{KeptPage, PageTable};
use ffa_physmem::PhysMem;
use ffa_stage2::Layout;

/// An open transaction: what a sender offers to receivers, and the rights that receivers hold of it.
#[derive(Drop)]
pub struct OpenTransaction {
    pub(crate) handle: u64,
    pub(crate) kind: Kind,
    pub(crate) sender: EndpointId,
    pub(crate) tag: u64,
    pub(crate) zero: bool,
    pub(crate) normal: bool,
    pub(crate) ranges: PageRanges,
    pub(crate) receivers: ArrayVec<Receiver, MOST_RECEIVERS>,
    pub(crate) held: Holders,
}

// Returns a copy of the receivers.
pub(crate) fn copy_of(
    receivers: &ArrayVec<Receiver, MOST_RECEIVERS>,
) -> ArrayVec<Receiver, MOST_RECEIVERS>
    ensures { result ≡ receivers.now }
{
    let mut copy = ArrayVec::new();
    for receiver in receivers.as_slice() {
        copy.push(*receiver);
    }
    copy
}

impl OpenTransaction {
    ghost use Rattle.ffa_memshare.specs.Stored.{view_of};

    // Returns a transaction without pages and receivers. It is room for another transaction.
    pub(crate) fn none() -> OpenTransaction
        ensures { result.ranges ≡ [] }
    {
        OpenTransaction {
            handle: 0,
            kind: Kind::Share,
            sender: EndpointId::MANAGER,
            tag: 0,
            zero: false,
            normal: false,
            ranges: PageRanges::none(),
            receivers: ArrayVec::new(),
            held: Holders::none(),
        }
    }

    // Makes this the transaction of an offer with this handle. `normal` is whether responses say that the memory is
    // non-secure. The ranges of the offer are in this transaction already.
    pub(crate) fn offer(&mut self, handle: u64, kind: Kind, normal: bool, offer: &SendDesc)
        ensures handle { self.new.handle ≡ handle }
        ensures offered { self.old.ranges ≡ offer.now.ranges.items
            → view_of self.new ≡ transaction_from kind normal (send_record offer.now) }
    {
        self.handle = handle;
        self.kind = kind;
        self.sender = offer.sender;
        self.tag = offer.tag;
        self.zero = offer.zero;
        self.normal = normal;
        self.receivers = copy_of(&offer.receivers);
        self.held = Holders::none();
    }

    // Copies another transaction into this one. It copies only the ranges that the other transaction has.
    pub(crate) fn fill(&mut self, other: &OpenTransaction)
        ensures { self.new ≡ other.now }
    {
        self.handle = other.handle;
        self.kind = other.kind;
        self.sender = other.sender;
        self.tag = other.tag;
        self.zero = other.zero;
        self.normal = other.normal;
        self.ranges.fill(&other.ranges);
        self.receivers = copy_of(&other.receivers);
        self.held.fill(&other.held);
    }

    // Returns the receiver entry of an endpoint, or `None` if the endpoint is not a receiver.
    pub(crate) fn receiver(&self, endpoint: EndpointId) -> Option<Receiver>
        ensures { result ≡ find (λ (r : Named). r.endpoint.0 == endpoint.0) self.now.receivers.items }
    {
        self.receivers
            .as_slice()
            .iter()
            .copied()
            .find(|receiver| receiver.endpoint == endpoint)
    }

    // Whether an endpoint is a receiver of the transaction.
    #[tactic(auto, using(crate::proofs::Receivers::found_any))]
    pub(crate) fn is_receiver(&self, endpoint: EndpointId) -> bool
        ensures { result ≡ is_receiver endpoint.0 (view_of self.now) }
    {
        self.receiver(endpoint).is_some()
    }

    // Returns the right that an endpoint holds, or `None`.
    pub(crate) fn held_right(&self, endpoint: EndpointId) -> Option<Rights>
        ensures { result ≡ held_by (view_of self.now) endpoint.0 }
    {
        self.held.of(endpoint)
    }

    // Returns the right of an endpoint to a page of the transaction, or `None`. `own_right` is the sender's own right
    // to this page.
    pub(crate) fn right_to(&self, endpoint: EndpointId, own_right: Rights) -> Option<Rights>
        ensures { let transaction = view_of self.now in (page : Page) → page.own_right ≡ own_right
            → result ≡ right_by endpoint.0 page transaction (held_by transaction endpoint.0) }
    {
        let held = self.held_right(endpoint);
        if held.is_some() {
            return held;
        }
        match self.kind {
            Kind::Share if self.sender == endpoint => Some(own_right),
            Kind::Share | Kind::Lend | Kind::Donate => None,
        }
    }

    // Returns what the owners of all pages of the transaction may do with them.
    pub(crate) fn common<P: Room<KeptPage> + Drop>(
        &self,
        pages: &PageTable<P>,
        base: Address,
    ) -> Common
        requires { ArePlaced base.0 (length pages.now) self.now.ranges }
        ensures writable { result.is_writable ≡ are_writable (ownership_in pages.now base.0) self.now.ranges }
        ensures executable { result.is_executable ≡ are_executable (ownership_in pages.now base.0) self.now.ranges }
    {
        common_of(pages, base, &self.ranges)
    }

    // Returns the pages to the sender, which then has its own right to them. If `zero` is true, the pages are zeros.
    pub(crate) fn give_back<M: PhysMem, P: Room<KeptPage> + Drop>(
        &self,
        ram: &mut M,
        layout: &Layout,
        pages: &mut PageTable<P>,
        zero: bool,
    )
        requires { IsHeld (memory_of (M.ram ram.old) layout.now pages.old) (view_of self.now) }
        ensures moved { let named = in_ranges layout.now.base.0 self.now.ranges in
            let index = place self.now.sender.0 in let right = own_right_at pages.old in
            IsMovedFor layout.now (M.ram ram.old) (M.ram ram.new) index named right zero }
        ensures steps { OnlyMomentsFor layout.now (M.ram ram.old) (M.ram ram.new) (M.past ram.old) (M.past ram.new) }
        ensures ended { EndsSettledFor layout.now (M.ram ram.old) (M.ram ram.new) (M.past ram.new) }
        ensures marked { let named = in_ranges layout.now.base.0 self.now.ranges in
            IsMarked pages.old pages.new named (Mark.Named None) }
        ensures few { let named = in_ranges layout.now.base.0 self.now.ranges in
            (access : ℕ → ℕ → Option Right) → IsBuiltFor layout.now (M.ram ram.old) access
            → LosesNone (access (place self.now.sender.0)) named (own_right_at pages.old)
            → AddsAtMost (M.past ram.old) (M.past ram.new) (given_work layout.now.base.0 None self.now.ranges zero) }
    {
        let ranges = &self.ranges;
        let index = self.sender.place();
        change_pages(ram, layout, pages, ranges, index, NewRight::Own, zero);
        mark_all(pages, layout.base, ranges, Mark::Named(None));
    }

    // Takes the pages from the sender, which keeps its own right to them only in a share. The pages are marked with the
    // slot. If the offer requests it, the pages are zeros.
    pub(crate) fn take_pages<M: PhysMem, P: Room<KeptPage> + Drop>(
        &self,
        ram: &mut M,
        layout: &Layout,
        pages: &mut PageTable<P>,
        slot: SlotNumber,
    )
        requires { IsHeld (memory_of (M.ram ram.old) layout.now pages.old) (view_of self.now) }
        ensures moved { let named = in_ranges layout.now.base.0 self.now.ranges in
            let index = place self.now.sender.0 in let right = new_right (right_after self.now.kind) pages.old in
            IsMovedFor layout.now (M.ram ram.old) (M.ram ram.new) index named right self.now.zero }
        ensures steps { OnlyMomentsFor layout.now (M.ram ram.old) (M.ram ram.new) (M.past ram.old) (M.past ram.new) }
        ensures ended { EndsSettledFor layout.now (M.ram ram.old) (M.ram ram.new) (M.past ram.new) }
        ensures marked { let named = in_ranges layout.now.base.0 self.now.ranges in
            IsMarked pages.old pages.new named (Mark.Named (Some slot)) }
        ensures few { let named = in_ranges layout.now.base.0 self.now.ranges in
            (access : ℕ → ℕ → Option Right) (split : ℕ → Bool) → IsBuiltFor layout.now (M.ram ram.old) access
            → IsTakenFrom self.now.kind (access (place self.now.sender.0)) named (own_right_at pages.old) split
            → AddsAtMost (M.past ram.old) (M.past ram.new)
            (sent_work self.now.kind layout.now.base.0 split self.now.ranges self.now.zero) }
    {
        let ranges = &self.ranges;
        let index = self.sender.place();
        let right = right_after(self.kind);
        change_pages(ram, layout, pages, ranges, index, right, self.zero);
        mark_all(pages, layout.base, ranges, Mark::Named(Some(slot)));
    }
}

// Returns the right that a sender keeps to its pages. It is its own right in a share, and otherwise no right.
fn right_after(kind: Kind) -> NewRight
    ensures { result ≡ right_after kind }
{
    match kind {
        Kind::Share => NewRight::Own,
        Kind::Lend | Kind::Donate => NewRight::Same(None),
    }
}
