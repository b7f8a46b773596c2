// SPDX-License-Identifier: MIT OR Apache-2.0
//! Numbers that the library puts at a place in bytes, the low byte first.

ghost use Rattle.std.specs.Prelude.{◌≡◌, ◌+◌, ◌≤◌, length, [], ◌∷◌, ◌++◌, take, drop};
ghost use Rattle.ffa_model.specs.ResponseBytes.{le};

use byteorder::{ByteOrder, LittleEndian};

/// Puts a byte at this place. The bytes around it stay.
pub fn put_u8(out: &mut [u8], at: usize, value: u8)
    requires { at + 1 ≤ length out.old }
    ensures { out.new ≡ take at out.old ++ (value ∷ [] ++ drop (at + 1) out.old) }
{
    out[at] = value;
}

/// Puts a number of two bytes at this place, the low byte first. The bytes around it stay.
pub fn put_u16(out: &mut [u8], at: usize, value: u16)
    requires { at + 2 ≤ length out.old }
    ensures { out.new ≡ take at out.old ++ (le 2 value ++ drop (at + 2) out.old) }
{
    LittleEndian::write_u16(&mut out[at..], value);
}

/// Puts a number of four bytes at this place, the lowest byte first. The bytes around it stay.
pub fn put_u32(out: &mut [u8], at: usize, value: u32)
    requires { at + 4 ≤ length out.old }
    ensures { out.new ≡ take at out.old ++ (le 4 value ++ drop (at + 4) out.old) }
{
    LittleEndian::write_u32(&mut out[at..], value);
}

/// Puts a number of eight bytes at this place, the lowest byte first. The bytes around it stay.
pub fn put_u64(out: &mut [u8], at: usize, value: u64)
    requires { at + 8 ≤ length out.old }
    ensures { out.new ≡ take at out.old ++ (le 8 value ++ drop (at + 8) out.old) }
{
    LittleEndian::write_u64(&mut out[at..], value);
}
