// SPDX-License-Identifier: MIT OR Apache-2.0
//! Lines of stores.

ghost use Rattle.std.specs.Prelude.{◌≡◌, ℕ, ◌+◌, ◌%◌, ◌^◌, ◌≤◌, List, ◌++◌, length, OnOk, OnErr};
ghost use Rattle.play_trace.specs.Script.{GrowsByStores, largest};

use crate::operation::put_operation;
use byteorder::{ByteOrder, LittleEndian};
use ffa_model::{Address, Op, Size};
use std::alloc::{AllocError, Allocator};

/// Appends stores to a text that leave these bytes from an address on. Each store has eight bytes, and the last ones
/// have 4, 2 or 1 if fewer bytes remain. The address is a multiple of 8, and all bytes are below 2^32. If there is no
/// memory, the text stays as it is.
pub fn put_stores<A: Allocator>(
    text: &mut Vec<u8, A>,
    address: Address,
    bytes: &[u8],
) -> Result<(), AllocError>
    requires aligned { address.0 % 8 ≡ 0 }
    requires inside { address.0 + length bytes.now ≤ 2 ^ 32 }
    ensures written { OnOk result (GrowsByStores address.0 bytes.now text.old.items text.new.items) }
    ensures kept { OnErr result (text.new.items ≡ text.old.items) }
{
    let before = text.len();
    let put = put_each(text, u64::from(address.0), bytes);
    if put.is_err() {
        text.truncate(before);
    }
    put
}

fn put_each<A: Allocator>(
    text: &mut Vec<u8, A>,
    address: u64,
    bytes: &[u8],
) -> Result<(), AllocError>
    requires aligned { address % 8 ≡ 0 }
    requires inside { address + length bytes.now ≤ 2 ^ 32 }
    ensures written { OnOk result (GrowsByStores address bytes.now text.old.items text.new.items) }
    ensures grown { OnErr result ((more : List ℕ) × (text.new.items ≡ text.old.items ++ more)) }
{
    let (mut addr, mut rest) = (address, bytes);
    while !rest.is_empty() {
        let size = largest(rest.len());
        let count = size.bytes() as usize;
        let value = LittleEndian::read_uint(rest, count);
        put_operation(text, &Op::Store { addr, size, value })?;
        addr += count as u64;
        rest = rest.split_at(count).1;
    }
    Ok(())
}

// Returns the largest size of a store that this number of bytes fills.
fn largest(count: usize) -> Size
    ensures { result ≡ largest count }
{
    match count {
        8.. => Size::B8,
        4.. => Size::B4,
        2.. => Size::B2,
        _ => Size::B1,
    }
}
