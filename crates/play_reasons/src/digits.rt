// SPDX-License-Identifier: MIT OR Apache-2.0
//! The hexadecimal numbers in the line of a reason.
ghost use Rattle.std.specs.Prelude.{◌≡◌, ◌++◌, ◌≤◌};
ghost use Rattle.play_trace.specs.TraceText.{hex};
ghost use Rattle.play_reasons.specs.Drafts.{Puts};
ghost use Rattle.play_reasons.specs.Mends.{address_digits, address_text, short_digits, short_text};

use crate::draft::Draft;
use play_trace::text::{self, Text};
use std::alloc::Allocator;

impl<A: Allocator> Draft<A> {
    /// Puts this number of hexadecimal digits of a value, the lowest ones.
    pub(crate) fn put_digits(&mut self, digits: u32, value: u64)
        requires { digits ≤ 16 }
        ensures { Puts self.old self.new (hex digits value) }
    {
        let mut word = Text::new();
        text::push_digits(&mut word, digits, value);
        self.put_bytes(word.as_slice());
    }

    /// Puts a word, and then this number of hexadecimal digits of a value, the lowest ones.
    pub(crate) fn put_behind(&mut self, word: &str, digits: u32, value: u64)
        requires { digits ≤ 16 }
        ensures { Puts self.old self.new (word.now ++ hex digits value) }
    {
        self.put(word);
        self.put_digits(digits, value);
    }

    /// Puts an address, a register or a number of bytes: in 8 digits, or in 16 if 8 are too few.
    pub(crate) fn put_address(&mut self, value: u64)
        ensures { Puts self.old self.new (address_text value) }
    {
        self.put_digits(address_digits(value), value);
    }

    /// Puts a bit, an index or an offset in a descriptor: in 2 digits, in 4, or as an address, whichever is enough.
    pub(crate) fn put_short(&mut self, value: u64)
        ensures { Puts self.old self.new (short_text value) }
    {
        self.put_digits(short_digits(value), value);
    }
}

fn address_digits(address: u64) -> u32
    ensures digits { result ≡ address_digits address }
    ensures few { result ≤ 16 }
{
    if address < 1 << 32 { 8 } else { 16 }
}

fn short_digits(value: u64) -> u32
    ensures digits { result ≡ short_digits value }
    ensures few { result ≤ 16 }
{
    if value < 1 << 8 {
        2
    } else if value < 1 << 16 {
        4
    } else {
        address_digits(value)
    }
}
