// SPDX-License-Identifier: MIT OR Apache-2.0
//! Bytes that the library reads in place, and the numbers in them.

ghost use Rattle.std.specs.Prelude.{◌≡◌, ℕ, ◌+◌, ◌<◌, ◌≤◌, List, length};
ghost use Rattle.ffa_model.specs.DescriptorPlaces.{byte, u16_at, u32_at, u64_at};

use byteorder::{ByteOrder, LittleEndian};

/// Bytes that a reader gets one by one, without a copy of them all.
pub trait Bytes {
    ghost bytes: { Self → List ℕ };

    /// Returns the number of bytes.
    fn len(&self) -> usize
        ensures { result ≡ length (bytes self.now) };

    /// Returns the byte at a place, counted from 0.
    fn at(&self, place: usize) -> u8
        requires { place < length (bytes self.now) }
        ensures { result ≡ byte (bytes self.now) place };
}

impl<'a> Bytes for &'a [u8] {
    ghost bytes = { λ s. s.now };

    fn len(&self) -> usize {
        (**self).len()
    }

    fn at(&self, place: usize) -> u8 {
        (**self)[place]
    }
}

/// Returns the number in the two bytes from this place on. The low byte is first.
pub fn read_u16<B: Bytes>(bytes: &B, place: usize) -> u16
    requires { place + 2 ≤ length (B.bytes bytes.now) }
    ensures { result ≡ u16_at (B.bytes bytes.now) place }
{
    // Proof step: the number of bytes fits a usize.
    let _ = bytes.len();
    LittleEndian::read_u16(&[bytes.at(place), bytes.at(place + 1)])
}

/// Returns the number in the four bytes from this place on. The lowest byte is first.
pub fn read_u32<B: Bytes>(bytes: &B, place: usize) -> u32
    requires { place + 4 ≤ length (B.bytes bytes.now) }
    ensures { result ≡ u32_at (B.bytes bytes.now) place }
{
    // Proof step: the number of bytes fits a usize.
    let _ = bytes.len();
    LittleEndian::read_u32(&[
        bytes.at(place),
        bytes.at(place + 1),
        bytes.at(place + 2),
        bytes.at(place + 3),
    ])
}

/// Returns the number in the eight bytes from this place on. The lowest byte is first.
pub fn read_u64<B: Bytes>(bytes: &B, place: usize) -> u64
    requires { place + 8 ≤ length (B.bytes bytes.now) }
    ensures { result ≡ u64_at (B.bytes bytes.now) place }
{
    // Proof step: the number of bytes fits a usize.
    let _ = bytes.len();
    LittleEndian::read_u64(&[
        bytes.at(place),
        bytes.at(place + 1),
        bytes.at(place + 2),
        bytes.at(place + 3),
        bytes.at(place + 4),
        bytes.at(place + 5),
        bytes.at(place + 6),
        bytes.at(place + 7),
    ])
}
