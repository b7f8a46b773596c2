// SPDX-License-Identifier: MIT OR Apache-2.0
//! Copies of bitmaps.
ghost use Rattle.std.specs.Prelude.{◌≡◌};

use crate::bitmaps::Bitmaps;
use arrayvec::ArrayVec;

impl Bitmaps {
    /// Returns a copy of the bitmaps, with the bindings, the pending bits and the notices. It allocates nothing.
    pub fn copy(&self) -> Bitmaps
        ensures { result ≡ self.now }
    {
        Bitmaps {
            has: copied(&self.has),
            bound: copied(&self.bound),
            pending: copied(&self.pending),
            notices: copied(&self.notices),
        }
    }
}

// Returns a copy of a list.
fn copied<T: Copy + Default, const MOST: usize>(list: &ArrayVec<T, MOST>) -> ArrayVec<T, MOST>
    ensures { result ≡ list.now }
{
    let mut copy = ArrayVec::new();
    for item in list.as_slice() {
        copy.push(*item);
    }
    copy
}
