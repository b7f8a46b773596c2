// SPDX-License-Identifier: MIT OR Apache-2.0
//! The text of a line while it is made.

ghost use Rattle.std.specs.Prelude.{◌^◌, ◌<◌, ◌≤◌};

use arrayvec::ArrayVec;

/// The size in bytes of the longest line: a call with eight registers of sixteen digits, and its LF.
pub const CAPACITY: usize = 141;

/// The text of a line.
pub type LineText = ArrayVec<u8, CAPACITY>;

/// Returns a number of hexadecimal digits, from 1 to 16, that is enough for a value.
pub fn digits_of(value: u64) -> u32
    ensures some { 1 ≤ result }
    ensures few { result ≤ 16 }
    ensures enough { value < 16 ^ result }
{
    for digits in 1..16 {
        if value >> (4 * digits) == 0 {
            return digits;
        }
    }
    16
}
