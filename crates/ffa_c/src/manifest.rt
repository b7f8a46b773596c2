// SPDX-License-Identifier: MIT OR Apache-2.0
//! A manifest as numbers, which C passes without a text.
ghost use Rattle.std.specs.Prelude.{◌≡◌, ◌≤◌, [], Some, None, IfOk, IfErr, length};
ghost use Rattle.ffa_manifest.specs.Document.{parts_of};
ghost use Rattle.ffa_manifest.specs.Reading.{Exact};
ghost use Rattle.ffa_c.specs.Given.{Gives, each_given, endpoint_given, endpoints_given, parts_given, refusal_of, region_given, regions_given, rights_given, version_given, ffa_given};

use crate::codes::{FFA_1_1, FFA_1_2};
use arrayvec::ArrayVec;
use bitflags::Flags;
use ffa_manifest::ManifestError;
use ffa_model::{
    Data, Endpoint, Ffa, MOST_ENDPOINTS, MOST_REGIONS, Manifest, PageNo, Properties, Region,
    Rights, Version,
};

/// Adjacent pages that an endpoint owns from the start, as C passes them.
#[repr(C)]
#[derive(Clone, Copy)]
pub struct CRegion {
    /// The address of the first byte.
    pub base: u32,
    /// The number of pages.
    pub pages: u32,
    /// The right to the pages: 1 to read, 3 to read and write, and 4 more to execute.
    pub rights: u32,
}

/// An endpoint of a manifest as numbers. The first endpoint is the normal world.
#[repr(C)]
#[derive(Clone, Copy)]
pub struct CEndpoint {
    /// The form of its descriptors: 0 for FF-A 1.1, 1 for the compact form, and 2 for FF-A 1.2.
    pub version: u32,
    /// The properties of the endpoint, as bits.
    pub properties: u32,
    /// The UUID of the endpoint, which is zeros for the normal world.
    pub uuid: [u8; 16],
    /// The number of `regions` that C passes, from the first on.
    pub region_count: u32,
    /// The regions. The library does not read the places after the counted ones.
    pub regions: [CRegion; MOST_REGIONS],
}

/// A manifest as numbers: a machine's RAM, and its endpoints.
#[repr(C)]
#[derive(Clone, Copy)]
pub struct CManifest {
    /// The address of RAM's first byte.
    pub ram_base: u32,
    /// The number of RAM's blocks of 2 MiB.
    pub ram_blocks: u32,
    /// The number of `endpoints` that C passes, from the first on.
    pub endpoint_count: u32,
    /// The endpoints. The library does not read the places after the counted ones.
    pub endpoints: [CEndpoint; MOST_ENDPOINTS],
    /// The version of FF-A that the machine serves: `FFA_1_1` or `FFA_1_2`.
    pub ffa: u32,
    /// The first page of the tables. RAM's first page is 0.
    pub tables: u32,
}

/// Returns the right for which C has this number, if there is such a right.
pub(crate) fn rights_of(code: u32) -> Option<Rights>
    ensures { result ≡ rights_given code }
{
    let (level, exec) = match code {
        1 => (Data::Ro, false),
        3 => (Data::Rw, false),
        5 => (Data::Ro, true),
        7 => (Data::Rw, true),
        _ => return None,
    };
    Some(Rights { level, exec })
}

/// Returns the form of descriptors for which C has this number, if there is such a form.
pub(crate) fn version_of(code: u32) -> Option<Version>
    ensures { result ≡ version_given code }
{
    match code {
        0 => Some(Version::V1_1),
        1 => Some(Version::Compact),
        2 => Some(Version::V1_2),
        _ => None,
    }
}

/// Returns the version of FF-A for which C has this number, if there is such a version.
pub(crate) fn ffa_of(code: u32) -> Option<Ffa>
    ensures { result ≡ ffa_given code }
{
    match code {
        FFA_1_1 => Some(Ffa::V1_1),
        FFA_1_2 => Some(Ffa::V1_2),
        _ => None,
    }
}

/// Returns the region of C's numbers, or the cause for which the library rejects them.
pub(crate) fn region_of(given: &CRegion) -> Result<Region, ManifestError>
    ensures { Exact (λ r. r) result (region_given given.now) }
{
    let Some(rights) = rights_of(given.rights) else {
        return Err(ManifestError::WrongKind);
    };
    Ok(Region {
        base: given.base,
        pages: given.pages,
        rights,
    })
}

fn regions_of(given: &[CRegion]) -> Result<ArrayVec<Region, MOST_REGIONS>, ManifestError>
    requires { length given.now ≤ MOST_REGIONS }
    ensures { Exact (λ rs. rs.items) result (each_given region_given [] given.now) }
{
    let mut regions = ArrayVec::new();
    for region in given {
        regions.push(region_of(region)?);
    }
    Ok(regions)
}

// The regions that an endpoint has, if its array has this number of places.
fn counted_regions(given: &CEndpoint) -> Result<ArrayVec<Region, MOST_REGIONS>, ManifestError>
    ensures { Exact (λ rs. rs.items) result (regions_given given.now) }
{
    let count = given.region_count as usize;
    if count <= MOST_REGIONS {
        regions_of(&given.regions[..count])
    } else {
        Err(ManifestError::RegionCount)
    }
}

/// Returns the endpoint of C's numbers, or the first cause for which the library rejects them.
pub(crate) fn endpoint_of(given: &CEndpoint) -> Result<Endpoint, ManifestError>
    ensures { Exact (λ e. e) result (endpoint_given given.now) }
{
    let Some(version) = version_of(given.version) else {
        return Err(ManifestError::Version);
    };
    let regions = counted_regions(given)?;
    Ok(Endpoint {
        version,
        uuid: given.uuid,
        properties: Properties::from_bits_retain(given.properties),
        regions,
    })
}

fn endpoints_of(given: &[CEndpoint]) -> Result<ArrayVec<Endpoint, MOST_ENDPOINTS>, ManifestError>
    requires { length given.now ≤ MOST_ENDPOINTS }
    ensures { Exact (λ es. es.items) result (each_given endpoint_given [] given.now) }
{
    let mut endpoints = ArrayVec::new();
    for endpoint in given {
        endpoints.push(endpoint_of(endpoint)?);
    }
    Ok(endpoints)
}

// The endpoints that C passes, if the array has this number of places.
pub(crate) fn counted_endpoints(
    given: &CManifest,
) -> Result<ArrayVec<Endpoint, MOST_ENDPOINTS>, ManifestError>
    ensures { Exact (λ es. es.items) result (endpoints_given given.now) }
{
    let count = given.endpoint_count as usize;
    if count <= MOST_ENDPOINTS {
        endpoints_of(&given.endpoints[..count])
    } else {
        Err(ManifestError::EndpointCount)
    }
}

/// Returns the manifest of C's numbers, or the first cause for which the library rejects them. It takes no memory.
// It is not inlined, so that no boot has its frame.
#[inline(never)]
#[tactic(auto, using(crate::proofs::Given::parts_told))]
pub(crate) fn manifest_of_numbers(given: &CManifest) -> Result<Manifest, ManifestError>
    ensures given { IfOk result (λ m. Gives given.now (parts_of m)) }
    ensures refused { IfErr result (λ e. refusal_of (parts_given given.now) ≡ Some e) }
{
    let endpoints = counted_endpoints(given)?;
    let Some(ffa) = ffa_of(given.ffa) else {
        return Err(ManifestError::WrongKind);
    };
    ffa_manifest::of_parts(
        given.ram_base,
        given.ram_blocks,
        PageNo(given.tables),
        endpoints,
        ffa,
    )
}
