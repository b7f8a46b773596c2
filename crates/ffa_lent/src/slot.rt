// SPDX-License-Identifier: MIT OR Apache-2.0
//! The memory of one page as its pointer, or a null pointer.
ghost use Rattle.std.specs.Prelude.{◌≡◌, ℕ, List, Option, None, IsSome};
ghost use Rattle.std.specs.Coded.{coded_list, coded_ℕ, coded_option};

use crate::lent::Lent;
use std::alloc::Allocator;
use std::marker::Model;

/// A pointer to the memory of a page of 4096 bytes, which owns this memory. It can also be a pointer that owns nothing.
#[repr(C)]
pub struct Slot {
    // The pointer to the page. C sees a pointer to bytes, as for a box that C holds.
    pub(crate) at: *mut u8,
    // The allocator has no bytes.
    pub(crate) lent: Lent,
    pub ghost bytes: { Option (List ℕ) } by { coded_option (coded_list coded_ℕ) },
}

impl Model for Slot {
    ghost use Rattle.std.specs.Borrow.{Array, u8};
    ghost use Rattle.ffa_lent.specs.Slots.{slot_owns};

    ghost also_owns = { λ s. slot_owns (⟦<Lent as Allocator>⟧.dealloc_token s.lent) (Array u8 4096) s.at s.bytes };
}

impl Slot {
    ghost use Rattle.ffa_lent.specs.Places.{slot_of};

    /// Returns a null pointer, which owns nothing.
    pub fn none() -> Slot
        ensures { result.bytes ≡ None }
    {
        Slot {
            at: std::ptr::null_mut(),
            lent: Lent {},
        }
    }

    /// Returns the pointer to this page's memory. The pointer owns the memory.
    pub fn close(page: Box<[u8; 4096], Lent>) -> Slot
        ensures { result ≡ slot_of page }
    {
        let (at, lent) = Box::into_raw_with_allocator(page);
        Slot {
            at: at as *mut u8,
            lent,
        }
    }

    /// Returns the page of this pointer as its box.
    pub fn open(self) -> Box<[u8; 4096], Lent>
        requires { IsSome self.bytes }
        ensures { self ≡ slot_of result }
    {
        let Slot { at, lent } = self;
        unsafe { Box::from_raw(lent, at as *mut [u8; 4096]) }
    }

    /// Ends a pointer that owns nothing.
    pub fn end(self)
        requires { self.bytes ≡ None }
    {
        let Slot { at: _, lent: _ } = self;
    }
}
