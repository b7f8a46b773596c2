// SPDX-License-Identifier: MIT OR Apache-2.0
//! Slots in memory that is enough for the greatest number of slots.
ghost use Rattle.std.specs.Prelude.{◌≡◌, ◌≤◌, [], None, IfOk, replicate, vec_capacity};
ghost use Rattle.ffa_memshare.specs.declared.pool.TheConstants.{MOST_SLOTS};
ghost use Rattle.ffa_memshare.specs.Stored.{kept_slots};

use crate::open_slot::OpenSlot;
use crate::pool::MOST_SLOTS;
use ffa_model::Room;
use std::alloc::{AllocError, Allocator};

/// Slots in memory of an allocator. The memory is enough for `MOST_SLOTS` slots, even if there are fewer. So a change
/// of the number of slots allocates nothing.
#[derive(Drop)]
pub struct Slots<A: Allocator> {
    list: Vec<OpenSlot, A>,
    ghost most: { MOST_SLOTS ≤ vec_capacity list },
}

impl<A: Allocator> Slots<A> {
    // Returns an empty list of slots, with its memory.
    pub(crate) fn none(alloc: A) -> Result<Slots<A>, AllocError>
        ensures { IfOk result (λ slots. slots.list.items ≡ []) }
    {
        let list = Vec::with_capacity(alloc, MOST_SLOTS)?;
        Ok(Slots { list })
    }

    // Makes the list a list of this number of free slots.
    pub(crate) fn free(&mut self, count: usize)
        requires { count ≤ MOST_SLOTS }
        ensures { kept_slots self.new.list.items ≡ replicate count None }
    {
        self.list.clear();
        for _slot in 0..count {
            let _ = self.list.push(OpenSlot::free());
        }
    }
}

impl<A: Allocator> Room<OpenSlot> for Slots<A> {
    ghost use Rattle.std.specs.Prelude.{refl};
    ghost use Rattle.std.specs.Vec.{with_item};

    ghost items = { λ room. room.list.items };

    ghost with_item = { λ room place item. record room { list = with_item room.list place item } };

    ghost one_item = { λ _ _ _. refl };

    #[inline]
    fn count(&self) -> usize {
        self.list.len()
    }

    #[inline]
    fn at(&self, place: usize) -> &OpenSlot {
        &self.list[place]
    }

    #[inline]
    fn at_mut(&mut self, place: usize) -> &mut OpenSlot {
        &mut self.list[place]
    }
}
