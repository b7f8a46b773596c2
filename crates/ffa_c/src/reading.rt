// SPDX-License-Identifier: MIT OR Apache-2.0
//! Reads a manifest's text into numbers, for C.
ghost use Rattle.std.specs.Prelude.{◌≡◌, ◌≢◌, ◌≤◌, length, map};
ghost use Rattle.ffa_manifest.specs.Document.{parts_of};
ghost use Rattle.ffa_c.specs.Booting.{IsRefusedFor, TellsCause};
ghost use Rattle.ffa_c.specs.Numbers.{endpoint_numbers, numbers, padded, region_numbers, version_number, ffa_number};
ghost use Rattle.ffa_c.specs.Reading.{IsClear, IsRead, no_endpoint, no_region};

use crate::booting::{manifest_of, number_of};
use crate::codes::{FFA_1_1, FFA_1_2, OK};
use crate::kind::code_of;
use crate::manifest::{CEndpoint, CManifest, CRegion};
use bitflags::Flags;
use ffa_model::{Endpoint, Ffa, MOST_ENDPOINTS, MOST_REGIONS, Manifest, Region, Version};
use std::alloc::Global;

/// Reads a manifest's text into numbers that give what the text describes. Returns `OK` if the text was read. The
/// places after the endpoints and the regions that are counted are zeros then. Otherwise returns `NO_MEMORY`, or the
/// cause for which `gorseplumb_boot` rejects the text, from `MANIFEST_TOML` to `MANIFEST_VERSION`. Then `manifest`
/// stays as it was.
#[unsafe(no_mangle)]
pub extern "C" fn gorseplumb_read_manifest(
    alloc: Global,
    text: &[u8],
    manifest: &mut CManifest,
) -> u32
    ensures read { result ≡ 0 → IsRead text.now manifest.new }
    ensures clear { result ≡ 0 → IsClear manifest.new }
    ensures refused { result ≢ 0 → manifest.new ≡ manifest.old }
    ensures cause { result ≢ 0 → TellsCause (IsRefusedFor text.now) result }
{
    match manifest_of(alloc, text) {
        Ok(read) => {
            *manifest = numbers_of(&read);
            OK
        }
        Err(cause) => number_of(cause),
    }
}

// The numbers of a manifest.
fn numbers_of(manifest: &Manifest) -> CManifest
    ensures { result ≡ numbers (parts_of manifest.now) }
{
    CManifest {
        ram_base: manifest.ram_base.0,
        ram_blocks: manifest.ram_blocks,
        endpoint_count: manifest.endpoints.len() as u32,
        endpoints: endpoint_places(manifest.endpoints.as_slice()),
        ffa: ffa_number(manifest.ffa),
        tables: manifest.tables.0,
    }
}

// The endpoints from an array's front on, and zeros after them.
fn endpoint_places(endpoints: &[Endpoint]) -> [CEndpoint; MOST_ENDPOINTS]
    requires { length endpoints.now ≤ MOST_ENDPOINTS }
    ensures { result ≡ padded MOST_ENDPOINTS no_endpoint (map endpoint_numbers endpoints.now) }
{
    let mut places = [CEndpoint::none(); MOST_ENDPOINTS];
    for (place, endpoint) in endpoints.iter().enumerate() {
        places[place] = CEndpoint::of(endpoint);
    }
    places
}

// The regions from an array's front on, and zeros after them.
fn region_places(regions: &[Region]) -> [CRegion; MOST_REGIONS]
    requires { length regions.now ≤ MOST_REGIONS }
    ensures { result ≡ padded MOST_REGIONS no_region (map region_numbers regions.now) }
{
    let mut places = [CRegion::none(); MOST_REGIONS];
    for (place, region) in regions.iter().enumerate() {
        places[place] = CRegion::of(region);
    }
    places
}

impl CRegion {
    fn none() -> CRegion
        ensures { result ≡ no_region }
    {
        CRegion {
            base: 0,
            pages: 0,
            rights: 0,
        }
    }

    fn of(region: &Region) -> CRegion
        ensures { result ≡ region_numbers region.now }
    {
        CRegion {
            base: region.base,
            pages: region.pages,
            rights: code_of(Some(region.rights)),
        }
    }
}

impl CEndpoint {
    fn none() -> CEndpoint
        ensures { result ≡ no_endpoint }
    {
        CEndpoint {
            version: 0,
            properties: 0,
            uuid: [0; 16],
            region_count: 0,
            regions: [CRegion::none(); MOST_REGIONS],
        }
    }

    fn of(endpoint: &Endpoint) -> CEndpoint
        ensures { result ≡ endpoint_numbers endpoint.now }
    {
        CEndpoint {
            version: version_number(endpoint.version),
            properties: endpoint.properties.bits(),
            uuid: endpoint.uuid,
            region_count: endpoint.regions.len() as u32,
            regions: region_places(endpoint.regions.as_slice()),
        }
    }
}

fn version_number(version: Version) -> u32
    ensures { result ≡ version_number version }
{
    match version {
        Version::V1_1 => 0,
        Version::Compact => 1,
        Version::V1_2 => 2,
    }
}

fn ffa_number(ffa: Ffa) -> u32
    ensures { result ≡ ffa_number ffa }
{
    match ffa {
        Ffa::V1_1 => FFA_1_1,
        Ffa::V1_2 => FFA_1_2,
    }
}
