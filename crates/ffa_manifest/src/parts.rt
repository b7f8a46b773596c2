// SPDX-License-Identifier: MIT OR Apache-2.0
//! The machine of parts, without a text. The reader of a text repeats the tests of this file, because its causes come
//! endpoint by endpoint. With the tests of this file, a cause of an early endpoint would come after the causes for
//! which a later endpoint has no parts.
ghost use Rattle.std.specs.Prelude.{true, ◌≡◌, ◌&&◌, ◌↔◌, ◌++◌, [], Some, None, IfOk, IfErr, IsOk};
ghost use Rattle.std.specs.Result.{result_err};
ghost use Rattle.ffa_model.specs.Manifest.{is_accepted, is_nil as is_nil_in, regions_of};
ghost use Rattle.ffa_manifest.specs.Document.{parts_of};
ghost use Rattle.ffa_manifest.specs.RegionSpace.{is_in};
ghost use Rattle.ffa_manifest.specs.Parts.{parts_from, first_cause, first_failure, tests_of_each, region_tests, endpoint_tests, are_properties_after, have_versions, is_uuid_after, is_version};

use crate::endpoints::{are_properties, receives};
use crate::error::ManifestError;
use crate::region_space::{RegionSpace, has_tables, is_ram_base, is_ram_size};
use crate::regions::{is_apart_from_all, is_free};
use arrayvec::ArrayVec;
use bitflags::Flags;
use ffa_model::{
    Address, Endpoint, Ffa, MOST_BLOCKS, MOST_ENDPOINTS, Manifest, PageNo, Properties, Region,
    Version,
};

fn is_nil(uuid: &[u8; 16]) -> bool
    ensures { result ≡ is_nil_in uuid.now }
{
    uuid.iter().all(|byte| *byte == 0)
}

// Whether a machine of this version of FF-A may have an endpoint of this version.
pub(crate) fn is_version(ffa: Ffa, version: Version) -> bool
    ensures { result ≡ is_version ffa version }
{
    !matches!((ffa, version), (Ffa::V1_1, Version::V1_2))
}

// Whether the endpoint after these may have the UUID.
pub(crate) fn is_uuid_after(before: &[Endpoint], uuid: &[u8; 16]) -> bool
    ensures { result ≡ is_uuid_after before.now uuid.now }
{
    if before.is_empty() {
        is_nil(uuid)
    } else {
        !is_nil(uuid)
    }
}

// Whether the endpoint after these, which is built for this version, may have the properties.
pub(crate) fn are_properties_after(
    before: &[Endpoint],
    version: Version,
    properties: Properties,
) -> bool
    ensures { result ≡ are_properties_after before.now version properties.0 }
{
    if before.is_empty() {
        properties.bits() < 16 && !receives(properties)
    } else {
        are_properties(version, u64::from(properties.bits()))
    }
}

// Checks the place of a region, and that it has no page of an earlier endpoint's region or of an own earlier region.
#[tactic(auto, using(crate::proofs::Taken::is_free_of_both), unfolding(crate::specs::Parts::region_tests))]
pub(crate) fn check_region(
    space: &RegionSpace,
    before: &[Endpoint],
    own: &[Region],
    region: &Region,
) -> Result<(), ManifestError>
    ensures { let taken = regions_of before.now ++ own.now in
        result_err result ≡ first_failure (region_tests (is_in space.now) taken region.now) }
{
    let (base, pages) = (u64::from(region.base), u64::from(region.pages));
    if space.region(base, pages, region.rights).is_none() {
        return Err(ManifestError::RegionOutside);
    }
    if is_free(region, before) && is_apart_from_all(region, own) {
        Ok(())
    } else {
        Err(ManifestError::RegionOverlap)
    }
}

// Checks the regions of the endpoint after these.
fn check_regions(
    space: &RegionSpace,
    before: &[Endpoint],
    regions: &[Region],
) -> Result<(), ManifestError>
    ensures { result_err result ≡ first_failure
        (tests_of_each (λ own r. region_tests (is_in space.now) (regions_of before.now ++ own) r) [] regions.now) }
{
    for (index, region) in regions.iter().enumerate() {
        check_region(space, before, &regions[..index], region)?;
    }
    Ok(())
}

// Checks the endpoint after these.
#[tactic(auto, unfolding(crate::specs::Parts::endpoint_tests))]
pub(crate) fn check_endpoint(
    ffa: Ffa,
    space: &RegionSpace,
    before: &[Endpoint],
    endpoint: &Endpoint,
) -> Result<(), ManifestError>
    ensures { result_err result ≡ first_failure (endpoint_tests ffa (is_in space.now) before.now endpoint.now) }
{
    if !is_version(ffa, endpoint.version) {
        return Err(ManifestError::Version);
    }
    if !is_uuid_after(before, &endpoint.uuid) {
        return Err(ManifestError::Uuid);
    }
    if !are_properties_after(before, endpoint.version, endpoint.properties) {
        return Err(ManifestError::Property);
    }
    if endpoint.regions.is_empty() {
        return Err(ManifestError::RegionCount);
    }
    check_regions(space, before, endpoint.regions.as_slice())
}

fn check_endpoints(
    ffa: Ffa,
    space: &RegionSpace,
    endpoints: &[Endpoint],
) -> Result<(), ManifestError>
    ensures { result_err result ≡ first_failure (tests_of_each (endpoint_tests ffa (is_in space.now)) [] endpoints.now) }
{
    for (index, endpoint) in endpoints.iter().enumerate() {
        check_endpoint(ffa, space, &endpoints[..index], endpoint)?;
    }
    Ok(())
}

/// Makes the manifest of these parts for a machine of this version of FF-A, or returns the first cause for which they
/// make no machine. It allocates nothing.
///
/// The causes have the order in which a text would be read. First come the place and the size of RAM, the number of
/// endpoints, and whether RAM has their tables from a page on. Then each endpoint comes whole before the next: its
/// version, its UUID, its properties, the number of its regions, and each region. The UUID is zeros for the normal
/// world, and other than zeros for a partition. A region has two tests: its place, and whether it is apart from all
/// regions before it.
#[tactic(auto, unfolding(crate::specs::Parts::first_cause, crate::specs::Parts::tests_of))]
pub fn of_parts(
    ram_base: u32,
    ram_blocks: u32,
    tables: PageNo,
    endpoints: ArrayVec<Endpoint, MOST_ENDPOINTS>,
    ffa: Ffa,
) -> Result<Manifest, ManifestError>
    ensures accepted { IfOk result (λ m. (parts_of m ≡ parts_from ffa ram_base tables.0 ram_blocks endpoints.items)
        × (first_cause (parts_from ffa ram_base tables.0 ram_blocks endpoints.items) ≡ None)) }
    ensures refused { IfErr result (λ e. first_cause (parts_from ffa ram_base tables.0 ram_blocks endpoints.items) ≡ Some e) }
    ensures accepted_where { IsOk result ↔ ((is_accepted ram_base tables.0 ram_blocks endpoints.items
        && have_versions ffa endpoints.items) ≡ true) }
{
    if !is_ram_base(ram_base) {
        return Err(ManifestError::RamBase);
    }
    if !is_ram_size(ram_base, ram_blocks) {
        return Err(ManifestError::RamBlocks);
    }
    if endpoints.is_empty() {
        return Err(ManifestError::EndpointCount);
    }
    let count = endpoints.len();
    if !has_tables(tables.0, ram_blocks, count) {
        return Err(ManifestError::TablesOutside);
    }
    let space = RegionSpace {
        base: ram_base,
        tables: tables.0,
        blocks: ram_blocks,
        endpoints: count as u32,
    };
    check_endpoints(ffa, &space, endpoints.as_slice())?;
    let manifest = Manifest::of(Address(ram_base), ram_blocks, tables, endpoints);
    Ok(manifest.with_ffa(ffa))
}
