// SPDX-License-Identifier: MIT OR Apache-2.0
//! Rows on machines with a cache of translations, and the leaves that the cache then holds.
use super::memory::{LEND, MAPPED, RELINQUISH, RETRIEVE, RETRIEVED, TO_FIRST, TO_SECOND};
use super::watched::Watched;
use super::*;
use crate::checks::{holds, holds_at};
use ffa_model::{Address, EndpointId, Leaf, PageNo};
use ffa_physmem::{FlatRam, PhysMem};
use ffa_reasons::Explained;
use ffa_spmc::Machine;
use ffa_tlb::{InTurn, Replacement, Tlb};
use fixtures::{FIRST, SECOND};

// A policy that picks the same slot each time.
#[derive(Drop)]
struct Always(usize);

impl Replacement for Always {
    ghost picked = { λ policy e p. policy.0 };

    ghost moved = { λ policy e p. policy };

    fn pick(&mut self, _endpoint: EndpointId, _page: PageNo) -> usize {
        self.0
    }
}

// The page that the rows lend.
const LENT: PageNo = PageNo(0x21);

const RECLAIM: &str = "\
call 84000077 1 8001 -> 8001: 84000061
load 40021000 1 -> data 5A
";

const LOAD: &str = "load 40021000 1 -> data 00\n";

// Returns the page of RAM that a step read, if it read any.
fn page_read(step: &str) -> Option<PageNo> {
    let (line, _data) = step.split_once(" -> data ")?;
    page_of(line.strip_prefix("load ")?)
}

// Returns the page of an address. `place` has the address, a space and a size.
fn page_of(place: &str) -> Option<PageNo> {
    let (address, _size) = place.split_once(' ')?;
    let number = u32::from_str_radix(address, 16).ok()?;
    Some(PageNo(number.checked_sub(0x4000_0000)? / 4096))
}

fn is_held<M: PhysMem + Drop, T: Translations + Drop>(
    player: &Player<Explained<M, T>>,
    endpoint: EndpointId,
    page: PageNo,
) -> bool {
    player.machine().0.cache().lookup(endpoint, page).is_some()
}

// Whether the cache holds a leaf for the page that a step read. It is true if the step read no page.
fn holds_what_was_read<M: PhysMem + Drop, T: Translations + Drop>(
    player: &Player<Explained<M, T>>,
    step: &str,
) -> bool {
    match page_read(step) {
        Some(page) => is_held(player, player.machine().runner(), page),
        None => true,
    }
}

// Plays steps one by one. Asserts that each prints its text, and that the cache holds a leaf for each page that was
// loaded.
fn holds_what_is_read<T: Translations + Drop>(
    rt: &impl Abort,
    alloc: Global,
    player: &mut Player<Explained<FlatRam, T>>,
    parts: &[&str],
) -> Result<(), Fail> {
    for part in parts {
        for step in part.lines() {
            goes_on(rt, alloc, player, step)?;
            holds_at(rt, holds_what_was_read(player, step), &step);
        }
    }
    Ok(())
}

// Reads a page before it is lent, before it is relinquished, and after it is reclaimed.
fn reads_around_a_lend<T: Translations + Drop>(
    rt: &impl Abort,
    alloc: Global,
    cache: T,
) -> Result<(), Fail> {
    let mut player = Player::new(Explained(booted_with(alloc, &row_machine(), cache)?));
    holds_what_is_read(rt, alloc, &mut player, &[MAPPED, LOAD, LEND])?;
    holds(rt, !is_held(&player, FIRST, LENT));
    let taken = [TO_SECOND, RETRIEVE, RETRIEVED, LOAD, RELINQUISH];
    holds_what_is_read(rt, alloc, &mut player, &taken)?;
    holds(rt, !is_held(&player, SECOND, LENT));
    holds_what_is_read(rt, alloc, &mut player, &[TO_FIRST, RECLAIM])
}

#[test]
fn a_lend_with_one_entry(rt: HostRuntime) -> Result<(), Fail> {
    reads_around_a_lend(&rt, rt.alloc(), Tlb::<Always, 1>::new(Always(0)))
}

#[test]
fn a_lend_with_the_greatest_pick(rt: HostRuntime) -> Result<(), Fail> {
    reads_around_a_lend(&rt, rt.alloc(), Tlb::<Always, 2>::new(Always(usize::MAX)))
}

#[test]
fn a_lend_with_four_in_turn(rt: HostRuntime) -> Result<(), Fail> {
    reads_around_a_lend(&rt, rt.alloc(), four_in_turn())
}

// At the boot of a machine, RAM is all zeros and the cache holds nothing, whatever they had before.
#[test]
fn begins_with_nothing(rt: HostRuntime) -> Result<(), Fail> {
    let mut cache = four_in_turn();
    let (phys, read, write, exec) = (0x4000_0000, true, true, true);
    cache.fill(
        FIRST,
        LENT,
        Leaf {
            phys,
            read,
            write,
            exec,
        },
    );
    let mut ram = FlatRam::new(rt.alloc(), Address(0x4000_0000), 512)?;
    ram.write_word(LENT, 0, 0x5A);
    let mut player = Player::new(Explained(Machine::boot_with(&row_machine(), ram, cache)));
    goes_on(&rt, rt.alloc(), &mut player, MAPPED)?;
    holds(&rt, !is_held(&player, FIRST, LENT));
    goes_on(&rt, rt.alloc(), &mut player, LOAD)
}

// Returns a player with a cache of two entries, whose RAM counts reads of tables.
fn counting_player(alloc: Global) -> Result<Player<Explained<Watched, Tlb<InTurn, 2>>>, Fail> {
    let manifest = row_machine();
    let ram = Watched::new(alloc, &manifest)?;
    let cache = Tlb::new(InTurn::default());
    Ok(Player::new(Explained(Machine::boot_with(&manifest, ram, cache))))
}

// Returns the number of reads of tables in a trace.
fn reads_of<T: Translations + Drop>(
    alloc: Global,
    player: &mut Player<Explained<Watched, T>>,
    trace: &str,
) -> Result<u32, Fail> {
    player.machine().0.ram().reads.set(0);
    played(alloc, player, trace)?;
    Ok(player.machine().0.ram().reads.get())
}

#[test]
fn a_page_that_is_held_is_not_walked(rt: HostRuntime) -> Result<(), Fail> {
    let alloc = rt.alloc();
    let mut player = counting_player(alloc)?;
    played(
        alloc,
        &mut player,
        "fetch 40010000\ncall 8400006D 80010000\n",
    )?;
    holds(&rt, !is_held(&player, EndpointId(0), PageNo(0x10)));
    holds(&rt, reads_of(alloc, &mut player, "load 40020000 1\n")? > 0);
    reads_of(alloc, &mut player, "load 40021000 1\n")?;
    let again = "load 40021000 1\ncall 84000069\nload 40021000 1\n";
    same(&rt, reads_of(alloc, &mut player, again)?, 0);
    holds(&rt, is_held(&player, FIRST, PageNo(0x20)));
    holds(&rt, is_held(&player, FIRST, LENT));
    Ok(())
}
