// SPDX-License-Identifier: MIT OR Apache-2.0
//! Words of bits, and other items of receivers.
ghost use Rattle.std.specs.Prelude.{◌≡◌, ℕ, ◌+◌, ◌≤◌, false, nat_lt, length, replicate, slice_index, slice_index_or, if◌then◌else◌};
ghost use Rattle.ffa_notify.specs.Stored.{is_asked};

use ffa_model::MOST_ENDPOINTS;

/// The number of classes of bits.
pub(crate) const CLASSES: usize = 3;

/// The most words of bound bits: one for each receiver and each sender.
pub(crate) const MOST_BOUND: usize = MOST_ENDPOINTS * MOST_ENDPOINTS;

/// The most words of pending bits: one for each receiver and each class. There is the same number of notices.
pub(crate) const MOST_PENDING: usize = CLASSES * MOST_ENDPOINTS;

// Clears the first words, which belong to one receiver.
pub(crate) fn clear_front(words: &mut [u64])
    requires { MOST_ENDPOINTS ≤ length words.old }
    ensures count { length words.new ≡ length words.old }
    ensures cleared { (k : ℕ) → slice_index words.new k
        ≡ (if nat_lt k MOST_ENDPOINTS then 0 else slice_index words.old k) }
{
    for sender in 0..MOST_ENDPOINTS {
        words[sender] = 0;
    }
}

// Clears the items of a receiver's classes that the flags select. The receiver's items begin at `first`. A cleared item
// is `empty`.
pub(crate) fn clear_asked<T: Copy>(items: &mut [T], first: usize, flags: u32, empty: T)
    requires { first + 3 ≤ length items.old }
    ensures count { length items.new ≡ length items.old }
    ensures cleared { (k : ℕ) → slice_index_or items.new k empty
        ≡ (if is_asked first 3 flags k then empty else slice_index_or items.old k empty) }
{
    for class in 0..CLASSES {
        if flags >> class & 1 == 1 {
            items[first + class] = empty;
        }
    }
}

// Makes each item false.
pub(crate) fn clear(items: &mut [bool])
    ensures { items.new ≡ replicate (length items.old) false }
{
    items.fill(false);
}
