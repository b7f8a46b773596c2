// SPDX-License-Identifier: MIT OR Apache-2.0
//! A cache of a few leaves.
ghost use Rattle.std.specs.Prelude.{◌≡◌, ◌<◌, ◌%◌, None, Some, [], replicate, slice_set};
ghost use Rattle.ffa_tlb.specs.Lookups.{lookup, IsFilled, IsForgotten};
ghost use Rattle.ffa_tlb.specs.Slots.{entries_of, holds, without};

use crate::replacement::Replacement;
use crate::translations::{Entry, Translations};
use ffa_model::{EndpointId, Leaf, PageNo};
use std::marker::Model;

/// A translation lookaside buffer of `N` entries, at least one (DDI 0487, D8). A page of an endpoint has at most one
/// entry. The policy `P` picks the entry that makes room for a new one. Contracts see the buffer's slots, each empty or
/// with its entry, and its policy.
#[derive(Drop)]
pub struct Tlb<P: Replacement, const N: usize> {
    slots: [Option<Entry>; N],
    policy: P,
}

impl<P: Replacement, const N: usize> Model for Tlb<P, N> {
    ghost use Rattle.std.specs.Prelude.{◌≡◌, ◌<◌, true};
    ghost use Rattle.ffa_tlb.specs.Codes.{coded_slotted};
    ghost use Rattle.ffa_tlb.specs.Slots.{Slotted, entries_of, is_distinct};

    ghost Value = { Slotted P };

    ghost coded = { coded_slotted P.code };

    ghost view = { λ t. record { slots = t.slots; policy = t.policy } };

    ghost invariant = { λ t. (0 < N) × (is_distinct (entries_of t.slots) ≡ true) };
}

impl<P: Replacement, const N: usize> Tlb<P, N> {
    /// Returns a buffer that holds nothing.
    #[tactic(auto, using(crate::proofs::Slots::entries_of_empty))]
    pub fn new(policy: P) -> Tlb<P, N>
        requires { 0 < N }
        ensures held { entries_of result.slots ≡ [] }
        ensures slots { result.slots ≡ replicate N None }
        ensures policy { result.policy ≡ policy }
    {
        Tlb {
            slots: [None; N],
            policy,
        }
    }
}

impl<P: Replacement, const N: usize> Translations for Tlb<P, N> {
    ghost entries = { λ t. entries_of t.slots };

    fn lookup(&self, endpoint: EndpointId, page: PageNo) -> Option<Leaf> {
        find_leaf(&self.slots, endpoint, page)
    }

    fn fill(&mut self, endpoint: EndpointId, page: PageNo, leaf: Leaf)
        ensures filled { IsFilled (entries_of self.old.slots) (entries_of self.new.slots) endpoint.0 page.0 leaf }
        ensures held { lookup (entries_of self.new.slots) endpoint.0 page.0 ≡ Some leaf }

        // The new entry is in the slot that the policy picks. Each other slot is as before, except that the page's
        // earlier entry is removed.
        ensures slots { let place = P.picked self.old.policy endpoint.0 page.0 % N in
            self.new.slots ≡ slice_set (without self.old.slots endpoint.0 page.0) place
            (Some (record { endpoint = endpoint; page = page; leaf = leaf })) }
        ensures policy { self.new.policy ≡ P.moved self.old.policy endpoint.0 page.0 }
    {
        self.forget(endpoint, page);
        let slot = self.policy.pick(endpoint, page) % N;
        self.slots[slot] = Some(Entry {
            endpoint,
            page,
            leaf,
        });
    }

    #[tactic(auto, using(crate::proofs::Slots::lookup_without, crate::proofs::Slots::distinct_without))]
    fn forget(&mut self, endpoint: EndpointId, page: PageNo)
        ensures forgotten { IsForgotten (entries_of self.old.slots) (entries_of self.new.slots) endpoint.0 page.0 }
        ensures slots { self.new.slots ≡ without self.old.slots endpoint.0 page.0 }
        ensures policy { self.new.policy ≡ self.old.policy }
    {
        take_out(&mut self.slots, endpoint, page);
    }

    #[tactic(auto, using(crate::proofs::Slots::entries_of_empty))]
    fn clear(&mut self)
        ensures held { entries_of self.new.slots ≡ [] }
        ensures slots { self.new.slots ≡ replicate N None }
        ensures policy { self.new.policy ≡ self.old.policy }
    {
        let empty = [None; N];
        self.slots = empty;
    }
}

// Returns the leaf in the first of these slots that has an entry for a page of an endpoint.
fn find_leaf(slots: &[Option<Entry>], endpoint: EndpointId, page: PageNo) -> Option<Leaf>
    ensures { result ≡ lookup (entries_of slots.now) endpoint.0 page.0 }
{
    for slot in slots {
        if let Some(entry) = slot
            && entry.is_of(endpoint, page)
        {
            return Some(entry.leaf);
        }
    }
    None
}

// Whether a slot has an entry for a page of an endpoint.
fn has_entry(slot: &Option<Entry>, endpoint: EndpointId, page: PageNo) -> bool
    ensures { result ≡ holds endpoint.0 page.0 slot.now }
{
    match slot {
        Some(entry) => entry.is_of(endpoint, page),
        None => false,
    }
}

// Empties each of these slots that has an entry for a page of an endpoint.
fn take_out(slots: &mut [Option<Entry>], endpoint: EndpointId, page: PageNo)
    ensures { slots.new ≡ without slots.old endpoint.0 page.0 }
{
    for slot in slots.iter_mut() {
        if has_entry(slot, endpoint, page) {
            *slot = None;
        }
    }
}
