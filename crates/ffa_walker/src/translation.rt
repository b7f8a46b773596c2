// SPDX-License-Identifier: MIT OR Apache-2.0
//! The walk, with one small function for each level. The functions are inlined, because a call for each access would
//! take a tenth of the access's time.
ghost use Rattle.std.specs.Prelude.{◌≡◌, ◌*◌, ◌^◌, ◌<◌, if◌then◌else◌, IsTrue, IfOk, Ok, Err, true};
ghost use Rattle.ffa_model.specs.Walk as walk;
ghost use Rattle.ffa_model.specs.Bits.{bits};
ghost use Rattle.ffa_model.specs.declared.operation.FaultKind.TheVariants.{OutsideRam};
ghost use Rattle.ffa_walker.specs.Offset.{KeepsOffset};

use ffa_model::{FaultKind, Leaf, PageNo};
use ffa_physmem::{Descriptor, Level, PAGE_SIZE, PhysMem};

/// Whether a byte of RAM is at this address.
pub fn is_in_ram<M: PhysMem>(memory: &M, address: u64) -> bool
    ensures { result ≡ walk.is_in_ram (M.ram memory.now) address }
{
    let base = u64::from(memory.base().0);
    base <= address && address < base + PAGE_SIZE as u64 * u64::from(memory.pages())
}

// Returns the descriptor at a place of the table at an address.
pub(crate) fn read_entry<M: PhysMem>(memory: &M, table: u64, index: u64) -> Descriptor
    requires table { IsTrue (walk.is_in_ram (M.ram memory.now) table) }
    requires index { index < 512 }
    ensures { result.0 ≡ walk.entry (M.ram memory.now) table index }
{
    let page = (table - u64::from(memory.base().0)) / PAGE_SIZE as u64;
    Descriptor(memory.read_word(PageNo(page as u32), index as usize))
}

// Returns the table that a descriptor names, or `OutsideRam` if this is not a page of RAM.
pub(crate) fn table_of<M: PhysMem>(memory: &M, word: Descriptor) -> Result<u64, FaultKind>
    ensures value { let table = bits 47 12 word.0 * 2 ^ 12 in
        result ≡ (if walk.is_page_address (M.ram memory.now) table then Ok table else Err OutsideRam) }
    ensures inside { IfOk result (λ table. IsTrue (walk.is_in_ram (M.ram memory.now) table)) }
{
    let table = word.table();
    if !is_in_ram(memory, table) {
        return Err(FaultKind::OutsideRam);
    }
    Ok(table)
}

// Reads the descriptor of a block or a page.
#[tactic(auto, unfolding(ffa_model::specs::Walk::leaf_of))]
pub(crate) fn read_leaf(word: Descriptor, phys: u64) -> Result<Leaf, FaultKind>
    ensures { result ≡ walk.leaf_of word.0 phys }
{
    if !word.is_accessed() {
        return Err(FaultKind::AccessFlag);
    }
    let read = word.is_readable();
    Ok(Leaf {
        phys,
        read,
        write: word.is_writable(),
        exec: read && !word.is_execute_never(),
    })
}

// Walks from a word of level 3, where type 01 is invalid.
#[inline(always)]
#[tactic(auto, unfolding(ffa_model::specs::Walk::from_level3))]
fn walk_from_level3(word: Descriptor, address: u64) -> Result<Leaf, FaultKind>
    ensures { result ≡ walk.from_level3 word.0 address }
{
    if !word.is_page() {
        return Err(FaultKind::Translation);
    }
    read_leaf(word, word.output(Level::Three) + address % (1 << 12))
}

// Walks from a word of level 2, which is a block of 2 MiB or names a table of level 3.
#[inline(always)]
#[tactic(auto, unfolding(ffa_model::specs::Walk::from_level2))]
fn walk_from_level2<M: PhysMem>(
    memory: &M,
    word: Descriptor,
    address: u64,
) -> Result<Leaf, FaultKind>
    ensures { result ≡ walk.from_level2 (M.ram memory.now) word.0 address }
{
    if !word.is_valid() {
        return Err(FaultKind::Translation);
    }
    if !word.is_table() {
        return read_leaf(word, word.output(Level::Two) + address % (1 << 21));
    }
    let table = table_of(memory, word)?;
    walk_from_level3(read_entry(memory, table, (address >> 12) % 512), address)
}

// Walks from a word of level 1, which is a block of 1 GiB or names a table of level 2.
#[inline(always)]
#[tactic(auto, unfolding(ffa_model::specs::Walk::from_level1))]
fn walk_from_level1<M: PhysMem>(
    memory: &M,
    word: Descriptor,
    address: u64,
) -> Result<Leaf, FaultKind>
    ensures { result ≡ walk.from_level1 (M.ram memory.now) word.0 address }
{
    if !word.is_valid() {
        return Err(FaultKind::Translation);
    }
    if !word.is_table() {
        return read_leaf(word, word.output(Level::One) + address % (1 << 30));
    }
    let table = table_of(memory, word)?;
    walk_from_level2(
        memory,
        read_entry(memory, table, (address >> 21) % 512),
        address,
    )
}

/// Walks the tables whose level 1 page is at `root` (DDI 0487, D8.3). Returns the leaf, whose physical address need not
/// be in RAM.
///
/// # Errors
///
/// - `Translation`: the address is 2^32 or more, or a descriptor is invalid.
/// - `OutsideRam`: a table is not a page of RAM.
/// - `AccessFlag`: the access flag of the leaf is 0.
#[inline(always)]
#[tactic(auto, unfolding(ffa_model::specs::Walk::walk))]
pub fn translate<M: PhysMem>(memory: &M, root: u32, address: u64) -> Result<Leaf, FaultKind>
    requires root { walk.is_page_address (M.ram memory.now) root ≡ true }
    ensures walk { result ≡ walk.walk (M.ram memory.now) root address }
    ensures offset { KeepsOffset address result }
{
    if address >= 1 << 32 {
        return Err(FaultKind::Translation);
    }
    let word = read_entry(memory, u64::from(root), (address >> 30) % 4);
    walk_from_level1(memory, word, address)
}
