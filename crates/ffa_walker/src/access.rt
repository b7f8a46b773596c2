// SPDX-License-Identifier: MIT OR Apache-2.0
//! Loads, stores and fetches through the walk.
ghost use Rattle.std.specs.Prelude.{◌≡◌, ℕ, ◌%◌, ◌^◌, ◌<◌, ◌==◌, IsTrue, IfOk, OnErr, Ok, true};
ghost use Rattle.byteorder.specs.Endian.{little_bytes};
ghost use Rattle.ffa_model.specs.Memory.{size_of};
ghost use Rattle.ffa_model.specs.Walk as walk;
ghost use Rattle.ffa_model.specs.Reach as spec;
ghost use Rattle.ffa_physmem.specs.Moments.{IsWriting, Only};
ghost use Rattle.ffa_physmem.specs.Work.{AddsAtMost, loans_of};
ghost use Rattle.ffa_walker.specs.Need.{needs};
ghost use Rattle.ffa_walker.specs.Offset.{KeepsOffset};

use crate::translation::{is_in_ram, translate};
use byteorder::{ByteOrder, LittleEndian};
use ffa_model::{FaultKind, Leaf, PageNo, Size};
use ffa_physmem::{PAGE_SIZE, PhysMem};

// The right that an access needs of the leaf.
#[derive(Clone, Copy)]
enum Need {
    Read,
    Write,
    Execute,
}

impl Need {
    // Whether the leaf gives this right.
    fn is_given_by(self, leaf: &Leaf) -> bool
        ensures { result ≡ needs self leaf.now }
    {
        match self {
            Need::Read => leaf.read,
            Need::Write => leaf.write,
            Need::Execute => leaf.exec,
        }
    }
}

// Whether an address is a multiple of a size.
fn is_aligned(address: u64, size: Size) -> bool
    ensures { result ≡ (address % size_of size == 0) }
{
    match size {
        Size::B1 => true,
        Size::B2 => address % 2 == 0,
        Size::B4 => address % 4 == 0,
        Size::B8 => address % 8 == 0,
    }
}

// Returns the physical address at which an access ends, by the answer of a walk. The bytes after it are in the same
// page.
#[inline(always)]
#[tactic(auto, unfolding(ffa_model::specs::Reach::reach_by))]
fn reach<M: PhysMem>(
    memory: &M,
    walked: Result<Leaf, FaultKind>,
    address: u64,
    size: Size,
    need: Need,
) -> Result<u64, FaultKind>
    requires offset { KeepsOffset address walked }
    ensures value { result ≡ spec.reach_by (M.ram memory.now) walked address (size_of size) (needs need) }
    ensures aligned { IfOk result (λ physical. physical % size_of size ≡ 0) }
    ensures inside { IfOk result (λ physical. IsTrue (walk.is_in_ram (M.ram memory.now) physical)) }
{
    if !is_aligned(address, size) {
        return Err(FaultKind::Alignment);
    }
    let leaf = walked?;
    if !need.is_given_by(&leaf) {
        return Err(FaultKind::Permission);
    }
    if !is_in_ram(memory, leaf.phys) {
        return Err(FaultKind::OutsideRam);
    }
    Ok(leaf.phys)
}

// Returns the number in the bytes at a physical address, the lowest first.
fn read_number<M: PhysMem>(memory: &M, physical: u64, size: Size) -> u64
    requires inside { IsTrue (walk.is_in_ram (M.ram memory.now) physical) }
    requires aligned { physical % size_of size ≡ 0 }
    ensures number { result ≡ spec.number_in_ram (M.ram memory.now) physical (size_of size) }
    ensures fits { result < 256 ^ size_of size }
{
    let place = physical - u64::from(memory.base().0);
    let page = memory.page(PageNo((place / PAGE_SIZE as u64) as u32));
    let bytes = &page[(place % PAGE_SIZE as u64) as usize..];
    match size {
        Size::B1 => u64::from(bytes[0]),
        Size::B2 => u64::from(LittleEndian::read_u16(bytes)),
        Size::B4 => u64::from(LittleEndian::read_u32(bytes)),
        Size::B8 => LittleEndian::read_u64(bytes),
    }
}

// Writes the lowest bytes of a number at a physical address, the lowest first.
fn write_number<M: PhysMem>(memory: &mut M, physical: u64, size: Size, value: u64)
    requires inside { IsTrue (walk.is_in_ram (M.ram memory.old) physical) }
    requires aligned { physical % size_of size ≡ 0 }
    ensures written { let bytes = little_bytes (size_of size) value in
        M.ram memory.new ≡ spec.with_bytes_at (M.ram memory.old) physical bytes }
    ensures steps { let page = spec.page_index (M.ram memory.old) physical in
        Only (M.past memory.old) (M.past memory.new) (λ _ s. IsWriting (M.ram memory.old) (λ p. p == page) s) }
    ensures few { AddsAtMost (M.past memory.old) (M.past memory.new) (loans_of 1) }
{
    let place = physical - u64::from(memory.base().0);
    let page = memory.page_mut(PageNo((place / PAGE_SIZE as u64) as u32));
    let bytes = &mut page[(place % PAGE_SIZE as u64) as usize..];
    match size {
        Size::B1 => bytes[0] = (value % (1 << 8)) as u8,
        Size::B2 => LittleEndian::write_u16(bytes, (value % (1 << 16)) as u16),
        Size::B4 => LittleEndian::write_u32(bytes, (value % (1 << 32)) as u32),
        Size::B8 => LittleEndian::write_u64(bytes, value),
    }
}

/// Loads the number in the bytes at an address, the lowest first.
///
/// # Errors
///
/// The first of these that applies.
///
/// - `Alignment`: the address is not a multiple of the size.
/// - A fault of `translate`.
/// - `Permission`: the leaf may not be read.
/// - `OutsideRam`: the leaf leads out of RAM.
pub fn load<M: PhysMem>(memory: &M, root: u32, address: u64, size: Size) -> Result<u64, FaultKind>
    requires root { walk.is_page_address (M.ram memory.now) root ≡ true }
    ensures loaded { result ≡ spec.loaded (M.ram memory.now) root address (size_of size) spec.may_load }
{
    load_at(memory, translate(memory, root, address), address, size)
}

/// Loads the number at an address as `load` does, by the answer of a walk of this address.
#[inline(always)]
pub fn load_at<M: PhysMem>(
    memory: &M,
    walked: Result<Leaf, FaultKind>,
    address: u64,
    size: Size,
) -> Result<u64, FaultKind>
    requires offset { KeepsOffset address walked }
    ensures loaded { result ≡ spec.loaded_by (M.ram memory.now) walked address (size_of size) spec.may_load }
{
    let physical = reach(memory, walked, address, size, Need::Read)?;
    Ok(read_number(memory, physical, size))
}

/// Fetches the instruction at an address: 4 bytes, the lowest first.
///
/// # Errors
///
/// The faults of `load`, in the same order. `Permission` means that the leaf may not be executed.
pub fn fetch<M: PhysMem>(memory: &M, root: u32, address: u64) -> Result<u32, FaultKind>
    requires root { walk.is_page_address (M.ram memory.now) root ≡ true }
    ensures fetched { result ≡ spec.loaded (M.ram memory.now) root address 4 spec.may_execute }
{
    fetch_at(memory, translate(memory, root, address), address)
}

/// Fetches the instruction at an address as `fetch` does, by the answer of a walk of this address.
pub fn fetch_at<M: PhysMem>(
    memory: &M,
    walked: Result<Leaf, FaultKind>,
    address: u64,
) -> Result<u32, FaultKind>
    requires offset { KeepsOffset address walked }
    ensures fetched { result ≡ spec.loaded_by (M.ram memory.now) walked address 4 spec.may_execute }
{
    let physical = reach(memory, walked, address, Size::B4, Need::Execute)?;
    Ok(read_number(memory, physical, Size::B4) as u32)
}

/// Stores the lowest bytes of a value at an address, the lowest first, and changes no other byte.
///
/// # Errors
///
/// The faults of `load`, in the same order. `Permission` means that the leaf may not be written. A fault changes
/// nothing.
pub fn store<M: PhysMem>(
    memory: &mut M,
    root: u32,
    address: u64,
    size: Size,
    value: u64,
) -> Result<(), FaultKind>
    requires root { walk.is_page_address (M.ram memory.old) root ≡ true }
    ensures answer { result ≡ spec.store_answer (M.ram memory.old) root address (size_of size) }
    ensures stored { M.ram memory.new ≡ spec.ram_after_store (M.ram memory.old) root address (size_of size) value }
    ensures root { walk.is_page_address (M.ram memory.new) root ≡ true }
{
    let walked = translate(memory, root, address);
    store_at(memory, walked, address, size, value)
}

/// Stores a value at an address as `store` does, by the answer of a walk of this address.
#[inline(always)]
pub fn store_at<M: PhysMem>(
    memory: &mut M,
    walked: Result<Leaf, FaultKind>,
    address: u64,
    size: Size,
    value: u64,
) -> Result<(), FaultKind>
    requires offset { KeepsOffset address walked }
    ensures answer { result ≡ spec.store_answer_by (M.ram memory.old) walked address (size_of size) }
    ensures stored { M.ram memory.new ≡ spec.ram_after_store_by (M.ram memory.old) walked address (size_of size) value }
    ensures kept_past { OnErr result (M.past memory.new ≡ M.past memory.old) }
    ensures roots { (root : ℕ)
        → walk.is_page_address (M.ram memory.new) root ≡ walk.is_page_address (M.ram memory.old) root }
    ensures steps { Only (M.past memory.old) (M.past memory.new) (λ _ s. (physical : ℕ)
        × (spec.reach_by (M.ram memory.old) walked address (size_of size) spec.may_store_to ≡ Ok physical)
        × IsWriting (M.ram memory.old) (λ p. p == spec.page_index (M.ram memory.old) physical) s) }
    ensures few { AddsAtMost (M.past memory.old) (M.past memory.new) (loans_of 1) }
{
    let physical = reach(memory, walked, address, size, Need::Write)?;
    write_number(memory, physical, size, value);
    Ok(())
}
