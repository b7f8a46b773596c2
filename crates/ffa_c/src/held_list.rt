// SPDX-License-Identifier: MIT OR Apache-2.0
//! A list of lent pages as C holds it, or no list.
ghost use Rattle.std.specs.Prelude.{◌≡◌, Option, Some, None, IsSome};
ghost use Rattle.std.specs.Coded.{coded_option};
ghost use Rattle.ffa_c.specs.LentPages.{LentPages, coded_lent_pages};

use crate::lent_list::LentList;
use std::alloc::{Allocator, Global};
use std::marker::Model;

/// The pointer to a list of lent pages, which owns the list, or a pointer that owns nothing.
#[repr(C)]
pub struct HeldList {
    // It points to a `LentList`. C sees bytes, because C must neither read nor write them.
    at: *mut u8,
    // It takes no bytes.
    alloc: Global,
    pub ghost value: { Option LentPages } by { coded_option coded_lent_pages },
}

impl Model for HeldList {
    ghost use Rattle.ffa_lent.specs.Slots.{slot_owns};
    ghost use Rattle.ffa_c.specs.contracts.lent_list.LentList.{the_row as list_row};

    ghost also_owns = { λ h. slot_owns (⟦<Global as Allocator>⟧.dealloc_token h.alloc) list_row h.at h.value };
}

impl HeldList {
    ghost use Rattle.std.specs.Borrow.{sem};
    ghost use Rattle.ffa_c.specs.Follows.{keeps_list, list_follows};

    /// Returns a null pointer, which owns nothing.
    pub fn none(alloc: Global) -> HeldList
        ensures { result.value ≡ None }
    {
        HeldList {
            at: std::ptr::null_mut(),
            alloc,
        }
    }

    /// Makes the pointer that owns this list.
    pub fn close(list: Box<LentList>) -> HeldList
        ensures { result.value ≡ Some list.value }
    {
        let (at, alloc) = Box::into_raw_with_allocator(list);
        HeldList {
            at: at as *mut u8,
            alloc,
        }
    }

    /// Returns the list that is held, in its box.
    pub fn open(self) -> Box<LentList>
        requires { IsSome self.value }
        ensures { self.value ≡ Some result.value }
    {
        let HeldList { at, alloc } = self;
        unsafe { Box::from_raw(alloc, at as *mut LentList) }
    }

    /// Borrows the list that is held, where it is, to change it.
    pub fn list_mut(&mut self) -> &mut LentList
        requires { IsSome self.old.value }
        ensures* writes_back { sem 𝓛 (list_follows self.entry result) }
        ensures value { self.old.value ≡ Some result.now }
    {
        unsafe { &mut *(self.at as *mut LentList) }
    }

    /// Borrows the list that is held, where it is, to read it.
    pub fn list(&mut self) -> &LentList
        requires { IsSome self.old.value }
        ensures* same { sem 𝓛 (keeps_list self.entry) }
        ensures value { self.old.value ≡ Some result.now }
    {
        self.list_mut()
    }

    /// Drops a pointer that owns nothing.
    pub fn end(self)
        requires { self.value ≡ None }
    {
        let HeldList { at: _, alloc: _ } = self;
    }
}
