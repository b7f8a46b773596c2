// SPDX-License-Identifier: MIT OR Apache-2.0
//! Consecutive pages that the caller lends together.
ghost use Rattle.std.specs.Prelude.{◌≡◌, ℕ, ◌+◌, ◌<◌, ◌≤◌, ◌++◌, List, [], ◌∷◌, Some, IfErr, IfOk, length, option_map};
ghost use Rattle.std.specs.Coded.{coded_list, coded_ℕ};

use crate::frames::Frames;
use crate::lent::Lent;
use crate::slot::Slot;
use std::marker::Model;

/// A pointer to the memory of consecutive pages of 4096 bytes, which owns this memory. It does not have the number of
/// pages. If there are no pages, it owns nothing.
#[repr(C)]
pub struct Strip {
    at: *mut [u8; 4096],
    pub ghost pages: { List (List ℕ) } by { coded_list (coded_list coded_ℕ) },
}

impl Model for Strip {
    ghost use Rattle.std.specs.Borrow.{Array, u8};
    ghost use Rattle.ffa_lent.specs.Strips.{strip_owns};

    ghost also_owns = { λ s. strip_owns (Array u8 4096) s.at s.pages };
}

impl Strip {
    ghost use Rattle.ffa_lent.specs.Places.{places_in};

    // Returns a null pointer, which owns nothing.
    fn none() -> Strip
        ensures { result.pages ≡ [] }
    {
        Strip {
            at: std::ptr::null_mut(),
        }
    }

    // Returns the first page, and the pages after it.
    fn split(self) -> (Slot, Strip)
        requires { 0 < length self.pages }
        ensures pages { option_map (λ page. page ∷ result.1.pages) result.0.bytes ≡ Some self.pages }
        ensures places { result.0.at ∷ places_in result.1 ≡ places_in self }
    {
        let Strip { at } = self;
        let rest = unsafe { at.add(1) };
        let at = at as *mut u8;
        (Slot { at, lent: Lent {} }, Strip { at: rest })
    }

    // Ends a pointer that owns nothing.
    fn end(self)
        requires { self.pages ≡ [] }
    {
        let Strip { at: _ } = self;
    }
}

/// Consecutive pages, and their number. The number may be 0, for example with a null pointer.
#[repr(C)]
pub struct Span {
    /// The pointer to the pages.
    pub strip: Strip,
    // The number of pages.
    count: usize,
    ghost counted: { count ≡ length strip.pages },
}

impl Span {
    ghost use Rattle.ffa_lent.specs.Places.{place_of, places_in};

    /// Returns a span without pages.
    pub fn none() -> Span
        ensures { result.strip.pages ≡ [] }
    {
        Span {
            strip: Strip::none(),
            count: 0,
        }
    }

    /// Returns the number of pages.
    pub fn pages(&self) -> usize
        ensures { result ≡ length self.now.strip.pages }
    {
        self.count
    }

    /// Returns the first page, and a span of the pages after it.
    pub fn split_first(self) -> (Box<[u8; 4096], Lent>, Span)
        requires { 0 < length self.strip.pages }
        ensures pages { self.strip.pages ≡ result.0.value ∷ result.1.strip.pages }
        ensures places { places_in self.strip ≡ place_of result.0 ∷ places_in result.1.strip }
    {
        let Span { strip, count } = self;
        let (first, rest) = strip.split();
        let rest = Span {
            strip: rest,
            count: count - 1,
        };
        (first.open(), rest)
    }

    /// Ends a span that has no pages.
    pub fn end(self)
        requires { self.strip.pages ≡ [] }
    {
        let Span { strip, count: _ } = self;
        strip.end();
    }
}

impl Frames {
    ghost use Rattle.ffa_lent.specs.Places.{places_in};

    /// Adds the pages of a span after the other pages, in order.
    ///
    /// # Errors
    ///
    /// There is no room for all of the pages, and the allocator has no memory for more room. The error returns the
    /// span, and nothing changes.
    pub fn lend_span(&mut self, span: Span) -> Result<(), Span>
        ensures lent { IfOk result (λ _. self.new.pages ≡ self.old.pages ++ span.strip.pages) }
        ensures places { IfOk result (λ _. self.new.places ≡ self.old.places ++ places_in span.strip) }
        ensures room { IfOk result (λ _. self.old.room ≤ self.new.room) }
        ensures ready { self.new.is_ready ≡ self.old.is_ready }
        ensures returned { IfErr result (λ s. s ≡ span) }
        ensures unchanged { IfErr result (λ _. self.new ≡ self.old) }
        ensures full { IfErr result (λ _. self.old.room < length self.old.pages + length span.strip.pages) }
    {
        if self.reserve(span.pages()).is_err() {
            return Err(span);
        }
        let mut rest = span;
        while rest.pages() > 0 {
            let (page, behind) = rest.split_first();
            let Ok(()) = self.lend(page) else {
                unreachable!()
            };
            rest = behind;
        }
        rest.end();
        Ok(())
    }
}
