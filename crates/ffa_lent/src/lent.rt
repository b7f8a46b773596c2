// SPDX-License-Identifier: MIT OR Apache-2.0
//! The allocator of memory that belongs to the caller.
ghost use base.Fml.{feq};
ghost use denote.RawPtr.{Ptr, coded_ptr};

use std::alloc::{AllocError, Allocator};
use std::marker::Model;

/// The allocator of lent memory at one place. It allocates nothing. Memory that returns to it remains with the caller
/// that lent it.
#[repr(C)]
#[derive(Drop)]
pub struct Lent {
    /// The place of the memory. Only memory at this place can be in a box of this allocator.
    pub ghost at: { Ptr } by { coded_ptr },
}

impl Model for Lent {
    ghost use base.Fml.{ftrue};

    // The value is only data.
    ghost also_owns = { λ _. ftrue };
}

unsafe impl Allocator for Lent {
    ghost dealloc_token = { λ lent _ p. feq Ptr p lent.at };

    fn allocate(&self, _size: usize, _align: usize) -> Result<*mut u8, AllocError> {
        Err(AllocError)
    }

    unsafe fn deallocate(&self, _ptr: *mut u8, _size: usize, _align: usize) {}
}
