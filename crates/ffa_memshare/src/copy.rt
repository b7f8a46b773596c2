// SPDX-License-Identifier: MIT OR Apache-2.0
//! Copies of the open transactions, and of the report of changed access.
ghost use Rattle.std.specs.Prelude.{◌≡◌, length};

use crate::changed::News;
use crate::draft::Draft;
use crate::open_slot::OpenSlot;
use crate::pool::Pool;
use arrayvec::ArrayVec;
use ffa_model::{MOST_ENDPOINTS, Room};

impl<O: Room<OpenSlot> + Drop> Pool<O> {
    /// Copies another pool of the same number of endpoints into this pool. The other pool may have another type of
    /// memory. This function allocates nothing.
    pub fn copy_from<Q: Room<OpenSlot> + Drop>(&mut self, other: &Pool<Q>)
        requires { length self.old.sent ≡ length other.now.sent }
        ensures { self.new ≡ other.now }
    {
        copy_slots(&mut self.slots, &other.slots);
        self.sent = sends_of(&other.sent);
    }
}

// Copies slots into the same number of slots.
fn copy_slots<O: Room<OpenSlot>, Q: Room<OpenSlot>>(slots: &mut O, others: &Q)
    requires { length (O.items slots.old) ≡ length (Q.items others.now) }
    ensures { O.items slots.new ≡ Q.items others.now }
{
    for slot in 0..others.count() {
        slots.at_mut(slot).copy_from(others.at(slot));
    }
}

// Returns a copy of the numbers of sends.
fn sends_of(sent: &ArrayVec<u32, MOST_ENDPOINTS>) -> ArrayVec<u32, MOST_ENDPOINTS>
    ensures { result.items ≡ sent.now.items }
{
    let mut copy = ArrayVec::new();
    for sends in sent.as_slice() {
        copy.push(*sends);
    }
    copy
}

impl News {
    /// Returns a copy with the report of changed access. Each of the two then returns the report once.
    pub fn copy(&self) -> News
        ensures { result ≡ self.now }
    {
        News {
            told: self.told.copy(),
            draft: Draft::none(),
        }
    }
}
