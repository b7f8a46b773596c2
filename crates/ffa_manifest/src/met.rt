// SPDX-License-Identifier: MIT OR Apache-2.0
//! The region that another region overlaps.
ghost use Rattle.std.specs.Prelude.{◌≡◌, ◌≤◌, ◌++◌, Some, false, true, length, MatchOption, slice_get};
ghost use Rattle.ffa_model.specs.Manifest.{is_apart, regions_of};
ghost use Rattle.ffa_manifest.specs.Meeting.{Meets};
ghost use Rattle.ffa_manifest.specs.Regions.{is_free};

use crate::refusal::MetRegion;
use crate::regions::is_apart;
use ffa_model::{Endpoint, EndpointId, MOST_ENDPOINTS, Region};

// Returns the first of these regions that has a page of this one, and its place among them.
fn first_met(region: &Region, others: &[Region]) -> Option<(usize, Region)>
    ensures { MatchOption result (is_free others.now region.now ≡ true)
        (λ met. (slice_get others.now met.0 ≡ Some met.1) × (is_apart region.now met.1 ≡ false)) }
{
    for (place, other) in others.iter().enumerate() {
        if !is_apart(region, other) {
            return Some((place, *other));
        }
    }
    None
}

/// Returns the first region that has a page of this one. The search takes the regions of these endpoints, and then the
/// regions of the next endpoint that were read so far.
#[tactic(auto, using(crate::proofs::Taken::is_free_of_both))]
pub(crate) fn met_region(
    region: &Region,
    endpoints: &[Endpoint],
    own: &[Region],
) -> Option<MetRegion>
    requires { length endpoints.now ≤ MOST_ENDPOINTS }
    ensures { MatchOption result (is_free (regions_of endpoints.now ++ own.now) region.now ≡ true)
        (Meets endpoints.now own.now region.now) }
{
    for (index, endpoint) in endpoints.iter().enumerate() {
        if let Some((place, met)) = first_met(region, endpoint.regions.as_slice()) {
            return Some(MetRegion {
                endpoint: EndpointId::at(index),
                place,
                region: met,
            });
        }
    }
    let (place, met) = first_met(region, own)?;
    Some(MetRegion {
        endpoint: EndpointId::at(endpoints.len()),
        place,
        region: met,
    })
}
