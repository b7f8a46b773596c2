// SPDX-License-Identifier: MIT OR Apache-2.0
//! The check that tables give what runs of pages say, whatever the bytes are. If a word of level 1 or 2 maps nothing,
//! or is a block, the check judges all its addresses at once.
ghost use Rattle.std.specs.Prelude.{◌≡◌, ◌≢◌, ℕ, ◌+◌, ◌-◌, ◌*◌, ◌/◌, ◌%◌, ◌^◌, ◌<◌, ◌≤◌, ◌↔◌, IsTrue, IfSome, IfNone, All, Option, Some, length, true};
ghost use Rattle.ffa_model.specs.Certified.{IsCertified, access_in, are_in_order};
ghost use Rattle.ffa_model.specs.Walk as walk;
ghost use Rattle.ffa_model.specs.declared.limits.TheConstants.{MOST_ENDPOINTS};
ghost use Rattle.ffa_model.specs.declared.rights.Rights.{Rights};
ghost use Rattle.ffa_physmem.specs.Levels.{shift};
ghost use Rattle.ffa_walker.specs.Spans.{AreCertified, HaveAccess, HavePages, index_bits, span, from_word, from_table, next_level, first_answer};

use crate::translation::{read_entry, read_leaf, table_of};
use ffa_model::{CertRun, Data, FaultKind, Leaf, Rights};
use ffa_physmem::{Descriptor, Level, PAGE_SIZE, PhysMem};

/// Whether the tables give exactly what the runs say. The runs must follow one another from RAM's first page to its
/// last, and no run may be empty. Take a walk from one of these level 1 tables, at any address below 2^32. If the runs
/// give the table's endpoint a right there, the walk must end in a leaf with that address and that right. If they give
/// it no right, or if the address is outside RAM, the walk must end in `Translation`.
#[tactic(auto, unfolding(ffa_model::specs::Walk::walk))]
pub fn audit<M: PhysMem>(memory: &M, roots: &[u32], runs: &[CertRun]) -> bool
    requires few { length roots.now ≤ MOST_ENDPOINTS }
    requires roots { All (λ root. walk.is_page_address (M.ram memory.now) root ≡ true) roots.now }
    ensures { IsTrue result ↔ IsCertified (M.ram memory.now) roots.now runs.now }
{
    if !are_in_order(runs, memory.pages()) {
        return false;
    }
    for (place, root) in roots.iter().enumerate() {
        if !gives_table(memory, Level::One, u64::from(*root), runs, place, 0) {
            return false;
        }
    }
    true
}

// Whether the runs follow one another from the first page to the last, and no run is empty.
fn are_in_order(runs: &[CertRun], pages: u32) -> bool
    ensures { result ≡ are_in_order 0 pages runs.now }
{
    let mut next = 0;
    for run in runs {
        if u64::from(run.first.0) != next || run.last < run.first {
            return false;
        }
        next = u64::from(run.last.0) + 1;
    }
    next == u64::from(pages)
}

// Whether the walks from a table of this level give what the runs say. The table maps the addresses from `start` on. A
// run that ends before a word's pages is passed once, not again for each word.
#[cycle(gives)]
fn gives_table<M: PhysMem>(
    memory: &M,
    level: Level,
    table: u64,
    runs: &[CertRun],
    place: usize,
    start: u64,
) -> bool
    requires table { IsTrue (walk.is_in_ram (M.ram memory.now) table) }
    requires start { start % span level ≡ 0 }
    requires below { start + span level ≤ 2 ^ 32 }
    requires place { place < MOST_ENDPOINTS }
    ensures { IsTrue result
        ↔ AreCertified (M.ram memory.now) runs.now place start (span level) (from_table (M.ram memory.now) level table) }
{
    let step = size(level);
    let mut rest = runs;
    for index in 0..words(level) {
        let word = read_entry(memory, table, index);
        let address = start + step * index;
        rest = runs_from(rest, page_behind(memory, address));
        if !gives_word(memory, level, word, rest, place, address) {
            return false;
        }
    }
    true
}

// Whether the walks from a word of a table of this level give what the runs say. The word maps the addresses from
// `start` on.
#[cycle(gives)]
fn gives_word<M: PhysMem>(
    memory: &M,
    level: Level,
    word: Descriptor,
    runs: &[CertRun],
    place: usize,
    start: u64,
) -> bool
    requires start { start % 2 ^ shift level ≡ 0 }
    requires below { start + 2 ^ shift level ≤ 2 ^ 32 }
    requires place { place < MOST_ENDPOINTS }
    ensures { let answer = from_word (M.ram memory.now) level word.0 in
        IsTrue result ↔ AreCertified (M.ram memory.now) runs.now place start (2 ^ shift level) answer }
{
    if let Some(next) = next_level(level, word) {
        return match table_of(memory, word) {
            Ok(table) => gives_table(memory, next, table, runs, place, start),
            Err(_) => false,
        };
    }
    match access_by(first_answer(level, word), start) {
        Some(access) => have_access(memory, level, runs, place, start, access),
        None => false,
    }
}

// Returns the number of addresses that a word of a table of this level maps, which is 512 times the number for the next
// level.
fn size(level: Level) -> u64
    ensures { result ≡ 2 ^ shift level }
{
    1 << (30 - 9 * level as u64)
}

// Returns the number of words of a table of this level that the walks read.
fn words(level: Level) -> u64
    ensures { result ≡ 2 ^ index_bits level }
{
    match level {
        Level::One => 4,
        Level::Two | Level::Three => 512,
    }
}

// Returns the level of the table that a word of a table of this level names, if it names a table.
fn next_level(level: Level, word: Descriptor) -> Option<Level>
    ensures { result ≡ next_level level word.0 }
{
    match level {
        Level::One if word.is_page() => Some(Level::Two),
        Level::Two if word.is_page() => Some(Level::Three),
        _ => None,
    }
}

// Returns the answer of the walk to the first address of a word that names no table.
fn first_answer(level: Level, word: Descriptor) -> Result<Leaf, FaultKind>
    ensures { result ≡ first_answer level word.0 }
{
    let maps = match level {
        Level::One | Level::Two => word.is_valid(),
        Level::Three => word.is_page(),
    };
    if !maps {
        return Err(FaultKind::Translation);
    }
    read_leaf(word, word.output(level))
}

// Returns the access that a walk's answer gives to an address, if runs can say it: no access, or the right of a leaf at
// the address.
#[tactic(auto, unfolding(ffa_model::specs::Walk::mapped_answer))]
fn access_by(answer: Result<Leaf, FaultKind>, address: u64) -> Option<Option<Rights>>
    ensures some { IfSome result (λ access. answer ≡ walk.mapped_answer access address) }
    ensures none { IfNone result ((access : Option Rights) → answer ≢ walk.mapped_answer access address) }
{
    match answer {
        Ok(leaf) if leaf.phys == address && leaf.read => Some(Some(Rights {
            level: if leaf.write { Data::Rw } else { Data::Ro },
            exec: leaf.exec,
        })),
        Err(FaultKind::Translation) => Some(None),
        _ => None,
    }
}

// Returns the runs without the first ones, which end before this page.
fn runs_from(runs: &[CertRun], page: u64) -> &[CertRun]
    ensures { (place p : ℕ) → page ≤ p → access_in result.now place p ≡ access_in runs.now place p }
{
    let mut rest = runs;
    while let [run, later @ ..] = rest
        && u64::from(run.last.0) < page
    {
        rest = later;
    }
    rest
}

// Returns the number of the page at an address, counted from RAM's first page, or 0 if the address is below RAM.
fn page_behind<M: PhysMem>(memory: &M, address: u64) -> u64
    ensures page { result ≡ (address - (M.ram memory.now).base) / 4096 }
    ensures base { (M.ram memory.now).base % 4096 ≡ 0 }
{
    address.saturating_sub(u64::from(memory.base().0)) / PAGE_SIZE as u64
}

// Whether the runs give an endpoint this access to all addresses of a word. Addresses outside RAM have no access.
fn have_access<M: PhysMem>(
    memory: &M,
    level: Level,
    runs: &[CertRun],
    place: usize,
    start: u64,
    access: Option<Rights>,
) -> bool
    requires start { start % 2 ^ shift level ≡ 0 }
    requires below { start + 2 ^ shift level ≤ 2 ^ 32 }
    requires place { place < MOST_ENDPOINTS }
    ensures { IsTrue result ↔ HaveAccess (M.ram memory.now) runs.now place start (2 ^ shift level) access }
{
    let size = size(level);
    let first = page_behind(memory, start);
    let end = page_behind(memory, start + size).min(u64::from(memory.pages()));
    // A part of the span is outside RAM.
    if access.is_some() && end < first + size / PAGE_SIZE as u64 {
        return false;
    }
    have_pages(runs, place, first, end, access)
}

// Whether the runs give an endpoint this access to all pages from `first` to before `end`.
fn have_pages(runs: &[CertRun], place: usize, first: u64, end: u64, access: Option<Rights>) -> bool
    requires place { place < MOST_ENDPOINTS }
    ensures { IsTrue result ↔ HavePages runs.now place first end access }
{
    let mut next = first;
    let mut rest = runs;
    while next < end
        && let [run, later @ ..] = rest
    {
        let last = u64::from(run.last.0);
        if next <= last {
            if !is_same(run.access[place], access) {
                return false;
            }
            next = last + 1;
        }
        rest = later;
    }
    end <= next || access.is_none()
}

fn is_same(access: Option<Rights>, other: Option<Rights>) -> bool
    ensures { IsTrue result ↔ (access ≡ other) }
{
    access == other
}
