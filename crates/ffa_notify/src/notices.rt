// SPDX-License-Identifier: MIT OR Apache-2.0
//! The notices of pending notifications, which FFA_NOTIFICATION_INFO_GET reports to the normal world (DEN0077A, 10).
ghost use Rattle.std.specs.Prelude.{◌≡◌, ◌<◌, true, length, map, slice_index_or};
ghost use Rattle.std.specs.List.{list_any};
ghost use Rattle.ffa_model.specs.declared.endpoint.EndpointId.{EndpointId};
ghost use Rattle.ffa_model.specs.Identifiers.{identifier};
ghost use Rattle.ffa_model.specs.Lists.{listed};
ghost use Rattle.ffa_model.specs.Notices.{endpoints_to_tell, four_from, has_notice, notice_reply, two_from};
ghost use Rattle.ffa_model.specs.State.{is_known_among};

use crate::bitmaps::Bitmaps;
use crate::class::Class;
use arrayvec::ArrayVec;
use ffa_model::{EndpointId, MOST_ENDPOINTS, Reply};

impl Bitmaps {
    // Returns the endpoints that have a notice, the lowest identifier first.
    pub(crate) fn endpoints_to_tell(&self) -> ArrayVec<EndpointId, MOST_ENDPOINTS>
        ensures { map (λ (e : EndpointId). e.0) result.items ≡ endpoints_to_tell (length self.now.bitmaps) self.now }
    {
        let mut to_tell = ArrayVec::new();
        for place in 0..self.endpoints() {
            let endpoint = EndpointId::at(place);
            if self.has_notice(endpoint) {
                to_tell.push(endpoint);
            }
        }
        to_tell
    }

    // Whether any endpoint has a notice.
    pub(crate) fn has_notices(&self) -> bool
        ensures { result ≡ list_any (has_notice self.now) (listed (length self.now.bitmaps) identifier) }
    {
        let mut has_notices = false;
        for place in 0..self.endpoints() {
            has_notices |= self.has_notice(EndpointId::at(place));
        }
        has_notices
    }

    // Whether an endpoint has a notice, in any class.
    fn has_notice(&self, endpoint: EndpointId) -> bool
        requires { is_known_among (length self.now.bitmaps) endpoint.0 ≡ true }
        ensures { result ≡ has_notice self.now endpoint.0 }
    {
        let partitions = self.notice(endpoint, Class::Partitions);
        let normal_world = self.notice(endpoint, Class::NormalWorld);
        let manager = self.notice(endpoint, Class::Manager);
        partitions | normal_world | manager
    }
}

// Returns the reply to FFA_NOTIFICATION_INFO_GET that names these endpoints, in 64-bit or in 32-bit registers.
pub(crate) fn notice_reply(is_wide: bool, endpoints: &ArrayVec<EndpointId, MOST_ENDPOINTS>) -> Reply
    ensures { result ≡ notice_reply is_wide (map (λ (e : EndpointId). e.0) endpoints.now.items) }
{
    let ids = endpoints.as_slice();
    if is_wide {
        let x2 = 128 * ids.len() as u64;
        let [x3, x4, x5] = [four_from(ids, 0), four_from(ids, 4), four_from(ids, 8)];
        Reply::WideSuccess([x2, x3, x4, x5, four_from(ids, 12), four_from(ids, 16)])
    } else {
        let w2 = 128 * ids.len() as u32;
        let [w3, w4, w5] = [two_from(ids, 0), two_from(ids, 2), two_from(ids, 4)];
        Reply::Success([w2, w3, w4, w5, two_from(ids, 6), two_from(ids, 8)])
    }
}

// Returns the two identifiers from a place on, in a word of 32 bits.
fn two_from(endpoints: &[EndpointId], place: usize) -> u32
    requires { place < 20 }
    ensures { result ≡ two_from (map (λ (e : EndpointId). e.0) endpoints.now) place }
{
    identifier_at(endpoints, place) + 0x1_0000 * identifier_at(endpoints, place + 1)
}

// Returns the four identifiers from a place on, in a word of 64 bits.
fn four_from(endpoints: &[EndpointId], place: usize) -> u64
    requires { place < 18 }
    ensures { result ≡ four_from (map (λ (e : EndpointId). e.0) endpoints.now) place }
{
    let low = u64::from(two_from(endpoints, place));
    let high = u64::from(two_from(endpoints, place + 2));
    low + 0x1_0000_0000 * high
}

// Returns the identifier at a place, or 0 after the last place.
fn identifier_at(endpoints: &[EndpointId], place: usize) -> u32
    ensures value { result ≡ slice_index_or (map (λ (e : EndpointId). e.0) endpoints.now) place 0 }
    ensures few { result < 0x10000 }
{
    if place < endpoints.len() {
        u32::from(endpoints[place].0)
    } else {
        0
    }
}
