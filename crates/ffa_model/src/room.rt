// SPDX-License-Identifier: MIT OR Apache-2.0
//! Room for values in order.
ghost use Rattle.std.specs.Prelude.{◌≡◌, ℕ, ◌<◌, List, length, slice_index_or, slice_set};
ghost use Rattle.std.specs.Borrow.{sem, Lends};

use arrayvec::ArrayVec;
use std::alloc::Allocator;

/// Room for values in order, whose number does not change. The values are in the room itself, or in memory of an
/// allocator.
pub trait Room<T> {
    /// The values, in order.
    ghost items: { Self → List T };

    /// The room with another value at a place, and otherwise unchanged.
    ghost with_item: { Self → ℕ → T → Self };

    /// Returns the number of values.
    fn count(&self) -> usize
        ensures { result ≡ length (items self.now) };

    /// Returns the value at a place, counted from 0.
    fn at(&self, place: usize) -> &T
        requires { place < length (items self.now) }
        ensures { (other : T) → result.now ≡ slice_index_or (items self.now) place other };

    /// Returns the value at a place, counted from 0, for writing. No other value changes.
    fn at_mut(&mut self, place: usize) -> &mut T
        requires { place < length (items self.old) }
        ensures value { (other : T) → result.now ≡ slice_index_or (items self.old) place other }
        ensures* writes_back { sem 𝓛 (Lends Self.row T.row self.entry result (with_item self.old place)) };

    /// A law of `with_item`: only the value at the place changes.
    ghost one_item: { (room : Self) (place : ℕ) (item : T) → items (with_item room place item)
        ≡ slice_set (items room) place item };
}

impl<T, const MOST: usize> Room<T> for ArrayVec<T, MOST> {
    ghost use Rattle.std.specs.Prelude.{refl};
    ghost use Rattle.arrayvec.specs.ArrayVec.{with_item};

    ghost items = { λ room. room.items };

    ghost with_item = { with_item };

    ghost one_item = { λ _ _ _. refl };

    #[inline]
    fn count(&self) -> usize {
        self.len()
    }

    #[inline]
    fn at(&self, place: usize) -> &T {
        &self[place]
    }

    #[inline]
    fn at_mut(&mut self, place: usize) -> &mut T {
        match self.get_mut(place) {
            Some(item) => item,
            None => unreachable!(),
        }
    }
}

impl<T, A: Allocator> Room<T> for Vec<T, A> {
    ghost use Rattle.std.specs.Prelude.{refl};
    ghost use Rattle.std.specs.Vec.{with_item};

    ghost items = { λ room. room.items };

    ghost with_item = { with_item };

    ghost one_item = { λ _ _ _. refl };

    #[inline]
    fn count(&self) -> usize {
        self.len()
    }

    #[inline]
    fn at(&self, place: usize) -> &T {
        &self[place]
    }

    #[inline]
    fn at_mut(&mut self, place: usize) -> &mut T {
        &mut self[place]
    }
}
