// SPDX-License-Identifier: MIT OR Apache-2.0
//! The place at which parts make no machine. A walk does the tests of `of_parts`, in their order, up to the first that
//! fails.
ghost use Rattle.std.specs.Prelude.{◌≡◌, ◌≤◌, ◌++◌, [], None, length};
ghost use Rattle.ffa_model.specs.Manifest.{regions_of};
ghost use Rattle.ffa_manifest.specs.Parts.{parts_from, region_tests};
ghost use Rattle.ffa_manifest.specs.PartsPlaces.{place_from, place_of, refused_from, region_place};
ghost use Rattle.ffa_manifest.specs.RegionSpace.{is_in};

use crate::parts::{are_properties_after, check_endpoint, check_region, is_uuid_after, is_version};
use crate::region_space::{RegionSpace, has_tables, is_ram_base, is_ram_size};
use ffa_model::{Endpoint, EndpointId, Ffa, MOST_ENDPOINTS, PageNo, Region};

/// The place at which a manifest without a text is rejected. It has no endpoint if RAM, the number of endpoints or
/// their tables are wrong.
#[derive(Clone, Copy, Debug, PartialEq, Eq)]
pub struct PartsPlace {
    pub endpoint: Option<EndpointId>,
    /// The number of the endpoint's region, counted from 1, or `None` if something else of the endpoint is wrong.
    pub region: Option<usize>,
}

// Returns the number of the first of these regions that is rejected, after the regions of earlier endpoints and own
// earlier regions.
fn refused_region(space: &RegionSpace, before: &[Endpoint], regions: &[Region]) -> Option<usize>
    ensures { result ≡ refused_from (λ own r. region_tests (is_in space.now) (regions_of before.now ++ own) r) [] regions.now }
{
    for (index, region) in regions.iter().enumerate() {
        if check_region(space, before, &regions[..index], region).is_err() {
            return Some(index + 1);
        }
    }
    None
}

// Returns the number of the region in which the endpoint after these is rejected.
#[tactic(auto, unfolding(crate::specs::PartsPlaces::region_place))]
fn region_place(
    ffa: Ffa,
    space: &RegionSpace,
    before: &[Endpoint],
    endpoint: &Endpoint,
) -> Option<usize>
    ensures { result ≡ region_place ffa (is_in space.now) before.now endpoint.now }
{
    let is_named = is_version(ffa, endpoint.version) && is_uuid_after(before, &endpoint.uuid);
    if !is_named || !are_properties_after(before, endpoint.version, endpoint.properties) {
        return None;
    }
    refused_region(space, before, endpoint.regions.as_slice())
}

// Returns the place at which these endpoints are rejected.
fn in_endpoints(ffa: Ffa, space: &RegionSpace, endpoints: &[Endpoint]) -> PartsPlace
    requires { length endpoints.now ≤ MOST_ENDPOINTS }
    ensures { result ≡ place_from ffa (is_in space.now) [] endpoints.now }
{
    for (index, endpoint) in endpoints.iter().enumerate() {
        let before = &endpoints[..index];
        if check_endpoint(ffa, space, before, endpoint).is_err() {
            return PartsPlace {
                endpoint: Some(EndpointId::at(index)),
                region: region_place(ffa, space, before, endpoint),
            };
        }
    }
    PartsPlace::nowhere()
}

/// Returns the place at which these parts make no machine: the endpoint and the region of the test for which `of_parts`
/// rejects them.
#[tactic(auto, unfolding(crate::specs::PartsPlaces::place_of))]
pub fn place_of_parts(
    ram_base: u32,
    ram_blocks: u32,
    tables: PageNo,
    endpoints: &[Endpoint],
    ffa: Ffa,
) -> PartsPlace
    requires { length endpoints.now ≤ MOST_ENDPOINTS }
    ensures { result ≡ place_of (parts_from ffa ram_base tables.0 ram_blocks endpoints.now) }
{
    if !is_ram_base(ram_base) || !is_ram_size(ram_base, ram_blocks) || endpoints.is_empty() {
        return PartsPlace::nowhere();
    }
    let count = endpoints.len();
    if !has_tables(tables.0, ram_blocks, count) {
        return PartsPlace::nowhere();
    }
    let space = RegionSpace {
        base: ram_base,
        tables: tables.0,
        blocks: ram_blocks,
        endpoints: count as u32,
    };
    in_endpoints(ffa, &space, endpoints)
}

impl PartsPlace {
    /// Returns the place at no endpoint.
    pub fn nowhere() -> PartsPlace
        ensures endpoint { result.endpoint ≡ None }
        ensures region { result.region ≡ None }
    {
        PartsPlace {
            endpoint: None,
            region: None,
        }
    }
}
