// SPDX-License-Identifier: MIT OR Apache-2.0
//! Calls with a descriptor in TX, which is in the right form or has something changed.
ghost use Rattle.std.specs.Prelude.{◌≤◌};

use crate::dice::Dice;
use crate::generator::{Generator, function_of};
use crate::offers::MOST_TAKERS;
use crate::stage::Stage;
use crate::{Change, Deed};
use byteorder::{ByteOrder, LittleEndian};
use ffa_model::{EndpointId, Kind, Range, Size, Version};

/// The size of a page in bytes.
pub(crate) const PAGE_SIZE: usize = 4096;

/// The bytes of a page.
pub(crate) type Page = [u8; PAGE_SIZE];

/// The largest number of endpoints that a descriptor names.
pub(crate) const MOST_NAMED: usize = MOST_TAKERS + 1;

// The sizes in bytes of fields that follow each other. A header in each form: sender, attributes, flags, handle, tag,
// the word with the size of an access descriptor, count.
const HEADER: [usize; 7] = [2, 2, 4, 8, 8, 4, 4];
// The rest of a header that is not compact: the offset of the access descriptors, and reserved words.
const HEADER_REST: [usize; 3] = [4, 4, 8];
// An access descriptor: endpoint, permissions, flags, composite offset, reserved.
const ACCESS: [usize; 5] = [2, 1, 1, 4, 8];
// An access descriptor in FF-A 1.2, where the 16 bytes of the implementation come before the reserved ones.
const ACCESS_1_2: [usize; 7] = [2, 1, 1, 4, 8, 8, 8];
// A composite and its first range: total, count, reserved, address, pages, reserved.
const COMPOSITE: [usize; 6] = [4, 4, 8, 8, 4, 4];
// The descriptor of FFA_MEM_RELINQUISH: handle, flags, count, endpoint.
const RELINQUISH: [usize; 4] = [8, 4, 4, 2];
// The header of an indirect message: flags, reserved, offset, receiver, sender, size.
const MESSAGE: [usize; 6] = [4, 4, 4, 2, 2, 4];

/// Returns the deed that names a send of this kind in a trace.
pub(crate) fn deed_of(kind: Kind) -> Deed {
    match kind {
        Kind::Share => Deed::Share,
        Kind::Lend => Deed::Lend,
        Kind::Donate => Deed::Donate,
    }
}

/// Returns the offset in bytes of the access descriptor with this index. The first one follows the header.
pub(crate) fn access_start(version: Version, index: usize) -> usize
    requires { index ≤ MOST_NAMED }
    ensures { result ≤ 144 }
{
    match version {
        Version::Compact => 32 + 16 * index,
        Version::V1_1 => 48 + 16 * index,
        Version::V1_2 => 48 + 32 * index,
    }
}

impl<'m, S: Stage + Drop> Generator<'m, S> {
    /// Adds a comment that says what the runner tries, and stores a word in each of the ranges that it marks. Then
    /// stores the first `length` bytes of the page into its TX, and makes the call. Returns the registers that the next
    /// runner sees, or `None` if the call did not succeed.
    pub(crate) fn attempt_by_tx(
        &mut self,
        deed: Deed,
        other: Option<EndpointId>,
        change: Change,
        page: &mut Page,
        length: u32,
        marks: &[Range],
    ) -> Option<[u64; 8]> {
        if change == Change::Field {
            let version = self.version_of(self.runner());
            self.dice.change_field(page, version, deed);
        }
        self.announce(deed, other, change);
        self.mark_parts(marks);
        self.write_tx(page, length);
        if deed == Deed::Relinquish || deed == Deed::Message {
            return self.call(function_of(deed), &[]);
        }
        let function = self.dice.either(function_of(deed));
        let arguments = self.dice.lengths(u64::from(length), change);
        self.call(function, &arguments)
    }

    // Stores the first bytes of a page into TX, except the words that are there already.
    fn write_tx(&mut self, page: &Page, length: u32) {
        self.tx_length = length;
        let Some(buffers) = self.buffers() else {
            return;
        };
        let count = length.div_ceil(8) as usize;
        for index in 0..count.min(PAGE_SIZE / 8) {
            let word = LittleEndian::read_u64(&page[8 * index..]);
            let address = buffers.tx.address.wrapping_add(8 * index as u64);
            if self.stage.word_at(address) != Some(word) {
                self.store(address, Size::B8, word);
            }
        }
    }
}

impl Dice {
    // Returns the arguments of a call with a descriptor of this size in TX. They are the size of the descriptor, the
    // size of the fragment, and the address and the pages of a buffer other than TX. There is no such buffer.
    fn lengths(&mut self, length: u64, change: Change) -> [u64; 4] {
        let whole = match change {
            Change::Length => self.pick(&[0, 17, length.wrapping_sub(1), length.wrapping_sub(16)]),
            Change::TooLong => self.pick(&[4097, 8193, 16385, 0xFFFF_FFFF]),
            _ => length,
        };
        match change {
            Change::Fragment => [whole, self.spoil(whole), 0, 0],
            Change::BufferAddress => [whole, whole, self.pick(&[1, 4096, u64::MAX, 1 << 32]), 0],
            Change::BufferPages => [whole, whole, 0, 1],
            _ => [whole, whole, 0, 0],
        }
    }

    // Changes a field of the descriptor for a deed that is in a page.
    fn change_field(&mut self, page: &mut Page, version: Version, deed: Deed) {
        let count = LittleEndian::read_u32(&page[28..]) as usize;
        let (start, sizes) = self.fields(version, deed, count.min(MOST_NAMED));
        let place = self.place(sizes.len());
        let before = sizes.iter().take(place);
        let at = before.fold(start, |at, size| usize::wrapping_add(at, *size));
        if let Some(size) = sizes.get(place)
            && let Some(field) = page.get_mut(at..at.wrapping_add(*size))
        {
            let bytes = field.iter().rev();
            let value = bytes.fold(0, |value, byte| value << 8 | u64::from(*byte));
            let other = self.spoil(value).to_le_bytes();
            for (byte, other) in field.iter_mut().zip(other) {
                *byte = other;
            }
        }
    }

    // Returns the offset in bytes of fields of a descriptor, and the sizes of these fields. A descriptor of a memory
    // transaction has this number of access descriptors.
    fn fields(&mut self, version: Version, deed: Deed, count: usize) -> (usize, &'static [usize])
        requires { count ≤ MOST_NAMED }
    {
        let part = match deed {
            Deed::Relinquish => return (0, &RELINQUISH),
            Deed::Message => return (0, &MESSAGE),
            Deed::ReadBack => 0,
            Deed::Retrieve => self.one_in(3) as u32,
            _ => self.below(3),
        };
        match part {
            0 if version != Version::Compact && self.one_in(3) => (32, &HEADER_REST),
            0 => (0, &HEADER),
            1 if version == Version::V1_2 => (access_start(version, 0), &ACCESS_1_2),
            1 => (access_start(version, 0), &ACCESS),
            _ => (access_start(version, count), &COMPOSITE),
        }
    }
}
