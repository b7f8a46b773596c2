// SPDX-License-Identifier: MIT OR Apache-2.0
//! Caches of leaves.
ghost use Rattle.std.specs.Prelude.{◌<◌};

use crate::checks::{holds, same};
use ffa_model::{EndpointId, Leaf, PageNo};
use ffa_tlb::{Entry, InTurn, NoTlb, Replacement, Tlb, Translations};
use std::process::Abort;

const ENDPOINT: EndpointId = EndpointId(0x8001);

// A policy that picks the same slot each time.
#[derive(Drop)]
struct Always(usize);

impl Replacement for Always {
    ghost picked = { λ policy e p. policy.0 };

    ghost moved = { λ policy e p. policy };

    fn pick(&mut self, _endpoint: EndpointId, _page: PageNo) -> usize {
        self.0
    }
}

// Returns a leaf that leads to a page of RAM at 0x40000000.
fn leaf_of(page: u32) -> Leaf {
    Leaf {
        phys: 0x4000_0000 + 4096 * u64::from(page),
        read: true,
        write: page % 2 == 0,
        exec: false,
    }
}

// Fills a cache with this number of slots with one page more. Asserts that it loses only the first page.
fn loses_the_oldest<T: Translations>(rt: &impl Abort, cache: &mut T, slots: u32)
    requires { slots < 100 }
{
    for page in 0..=slots {
        cache.fill(ENDPOINT, PageNo(page), leaf_of(page));
    }
    holds(rt, cache.lookup(ENDPOINT, PageNo(0)).is_none());
    for page in 1..=slots {
        same(
            rt,
            cache.lookup(ENDPOINT, PageNo(page)),
            Some(leaf_of(page)),
        );
    }
    cache.clear();
    holds(rt, cache.lookup(ENDPOINT, PageNo(slots)).is_none());
}

#[test]
fn slots_are_picked_in_turn(rt: HostRuntime) {
    let mut policy = InTurn::default();
    for slot in 0..3 {
        same(&rt, policy.pick(ENDPOINT, PageNo(7)), slot);
    }
}

#[test]
fn the_oldest_entry_makes_room(rt: HostRuntime) {
    loses_the_oldest(&rt, &mut Tlb::<InTurn, 1>::new(InTurn::default()), 1);
    loses_the_oldest(&rt, &mut Tlb::<InTurn, 2>::new(InTurn::default()), 2);
    loses_the_oldest(&rt, &mut Tlb::<InTurn, 4>::new(InTurn::default()), 4);
}

#[test]
fn any_number_picks_a_slot(rt: HostRuntime) {
    let mut cache = Tlb::<Always, 2>::new(Always(usize::MAX));
    cache.fill(ENDPOINT, PageNo(5), leaf_of(5));
    cache.fill(EndpointId(0), PageNo(5), leaf_of(6));
    holds(&rt, cache.lookup(ENDPOINT, PageNo(5)).is_none());
    same(
        &rt,
        cache.lookup(EndpointId(0), PageNo(5)),
        Some(leaf_of(6)),
    );
    cache.forget(EndpointId(0), PageNo(5));
    holds(&rt, cache.lookup(EndpointId(0), PageNo(5)).is_none());
}

// A page that is filled again has its last leaf, whichever slot the leaf takes.
#[test]
fn the_last_leaf_is_held(rt: HostRuntime) {
    let mut cache = Tlb::<InTurn, 2>::new(InTurn::default());
    holds(&rt, cache.lookup(EndpointId(0), PageNo(0)).is_none());
    cache.fill(ENDPOINT, PageNo(5), leaf_of(5));
    cache.fill(ENDPOINT, PageNo(5), leaf_of(6));
    same(&rt, cache.lookup(ENDPOINT, PageNo(5)), Some(leaf_of(6)));
}

#[test]
fn no_cache_holds_nothing(rt: HostRuntime) {
    let mut none = NoTlb;
    none.fill(ENDPOINT, PageNo(5), leaf_of(5));
    none.forget(ENDPOINT, PageNo(6));
    none.clear();
    holds(&rt, none.lookup(ENDPOINT, PageNo(5)).is_none());
}

#[test]
fn an_entry_is_of_its_endpoint_and_page(rt: HostRuntime) {
    let entry = Entry {
        endpoint: ENDPOINT,
        page: PageNo(5),
        leaf: leaf_of(5),
    };
    holds(&rt, entry.is_of(ENDPOINT, PageNo(5)));
    holds(&rt, !entry.is_of(EndpointId(0), PageNo(5)));
    holds(&rt, !entry.is_of(ENDPOINT, PageNo(6)));
}
