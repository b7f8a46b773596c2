// SPDX-License-Identifier: MIT OR Apache-2.0
//! The bitmaps at boot.
ghost use Rattle.std.specs.Prelude.{◌≡◌, ◌≤◌, length, map, replicate};
ghost use Rattle.std.specs.FinSet as finite_set;
ghost use Rattle.std.specs.List.{enumerate_from};
ghost use Rattle.ffa_model.specs.First.{has_first_bitmaps};

use crate::bitmaps::Bitmaps;
use crate::words::CLASSES;
use arrayvec::ArrayVec;
use bitflags::Flags;
use ffa_model::{Endpoint, MOST_ENDPOINTS, Manifest, Properties};

impl Bitmaps {
    /// Returns the bitmaps at boot. Each partition that receives notifications has bitmaps. No bit is bound or pending,
    /// and there is no notice.
    pub fn of(manifest: &Manifest) -> Bitmaps
        ensures bitmaps { result.bitmaps ≡ map has_first_bitmaps (enumerate_from 0 manifest.now.endpoints.items) }
        ensures bound { result.bound ≡ finite_set.empty }
        ensures pending { result.pending ≡ finite_set.empty }
        ensures notices { result.notices ≡ finite_set.empty }
    {
        let has = first_bitmaps(manifest);
        let endpoints = has.len();
        Bitmaps {
            has,
            bound: repeat(0, MOST_ENDPOINTS * endpoints),
            pending: repeat(0, CLASSES * endpoints),
            notices: repeat(false, CLASSES * endpoints),
        }
    }
}

// Returns for each endpoint whether it has bitmaps from boot on.
fn first_bitmaps(manifest: &Manifest) -> ArrayVec<bool, MOST_ENDPOINTS>
    ensures { result.items ≡ map has_first_bitmaps (enumerate_from 0 manifest.now.endpoints.items) }
{
    let mut has = ArrayVec::new();
    for endpoint in manifest.endpoints.as_slice() {
        let place = has.len();
        has.push(has_bitmaps(place, endpoint));
    }
    has
}

// Whether the endpoint at a place has bitmaps from boot on.
#[tactic(auto, using(crate::proofs::Boots::contains_fourth))]
fn has_bitmaps(place: usize, endpoint: &Endpoint) -> bool
    ensures { result ≡ has_first_bitmaps (place, endpoint.now) }
{
    place != 0
        && endpoint
            .properties
            .contains(Properties::RECEIVES_NOTIFICATIONS)
}

// Returns a list of this many equal items.
fn repeat<T: Copy + Default, const MOST: usize>(item: T, count: usize) -> ArrayVec<T, MOST>
    requires { count ≤ MOST }
    ensures { result.items ≡ replicate count item }
{
    let mut items = ArrayVec::new();
    for _item in 0..count {
        items.push(item);
    }
    items
}
