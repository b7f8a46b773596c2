// SPDX-License-Identifier: MIT OR Apache-2.0
//! A board as C holds it, or no board.
ghost use Rattle.std.specs.Prelude.{◌≡◌, Option, Some, None, IsSome};
ghost use Rattle.std.specs.Coded.{coded_option};
ghost use Rattle.ffa_c.specs.Boarded.{Boarded, coded_boarded};

use crate::board::Board;
use crate::seat::Seat;
use std::alloc::{Allocator, Global};
use std::marker::Model;

/// The pointer to a board in its seat, which owns both, or a pointer that owns nothing.
#[repr(C)]
pub struct Held {
    // It points to a `Seat`. C sees bytes, because C must neither read nor write them.
    at: *mut u8,
    // It takes no bytes.
    alloc: Global,
    pub ghost value: { Option Boarded } by { coded_option coded_boarded },
}

impl Model for Held {
    ghost use Rattle.ffa_lent.specs.Slots.{slot_owns};
    ghost use Rattle.ffa_c.specs.Boarded.{seated};
    ghost use Rattle.ffa_c.specs.contracts.seat.Seat.{the_row as seat_row};

    ghost also_owns = { λ h. slot_owns (⟦<Global as Allocator>⟧.dealloc_token h.alloc) seat_row h.at (seated h.value) };
}

impl Held {
    ghost use Rattle.std.specs.Borrow.{sem};
    ghost use Rattle.ffa_c.specs.Follows.{keeps_value, seat_follows};

    /// Returns a null pointer, which owns nothing.
    pub fn none(alloc: Global) -> Held
        ensures { result.value ≡ None }
    {
        Held {
            at: std::ptr::null_mut(),
            alloc,
        }
    }

    /// Makes the pointer that owns this seat and the board in it.
    pub fn close(seat: Box<Seat>) -> Held
        requires { IsSome seat.value }
        ensures { result.value ≡ seat.value }
    {
        let (at, alloc) = Box::into_raw_with_allocator(seat);
        Held {
            at: at as *mut u8,
            alloc,
        }
    }

    /// Returns the board that is held, in its seat.
    pub fn open(self) -> Box<Seat>
        requires { IsSome self.value }
        ensures { result.value ≡ self.value }
    {
        let Held { at, alloc } = self;
        unsafe { Box::from_raw(alloc, at as *mut Seat) }
    }

    /// Borrows the seat of the board that is held, where it is, to change it.
    pub fn seat_mut(&mut self) -> &mut Seat
        requires { IsSome self.old.value }
        ensures* writes_back { sem 𝓛 (seat_follows self.entry result) }
        ensures value { result.now ≡ self.old.value }
    {
        unsafe { &mut *(self.at as *mut Seat) }
    }

    /// Borrows the board that is held, where it is, to read it.
    pub fn board(&mut self) -> &Board
        requires { IsSome self.old.value }
        ensures* same { sem 𝓛 (keeps_value self.entry) }
        ensures value { Some result.now ≡ self.old.value }
    {
        self.seat_mut().board()
    }

    /// Drops a pointer that owns nothing.
    pub fn end(self)
        requires { self.value ≡ None }
    {
        let Held { at: _, alloc: _ } = self;
    }
}
