// SPDX-License-Identifier: MIT OR Apache-2.0
//! The endpoints of a machine.
ghost use Rattle.std.specs.Prelude.{◌≡◌, ◌≤◌, ◌||◌, length};
ghost use Rattle.ffa_model.specs.Bits.{is_set};
ghost use Rattle.ffa_model.specs.Manifest.{are_properties};
ghost use Rattle.toml.specs.View.{view, table_view, items_view};
ghost use Rattle.ffa_manifest.specs.Reading.{Exact};
ghost use Rattle.ffa_manifest.specs.RegionSpace.{is_in};
ghost use Rattle.ffa_manifest.specs.Endpoints.{normal_world_keys as normal_world_keys_in, partition_keys as partition_keys_in, version_at as version_in, version_of as version_named, uuid_at as uuid_in, properties_at as properties_in, normal_world_properties as normal_world_properties_in, normal_world as normal_world_in, partition as partition_in, next_endpoint as next_in, endpoints_from as endpoints_in};

use crate::error::ManifestError;
use crate::identifier::identifier;
use crate::keys::{integer_at, only_keys, text_at};
use crate::region_space::RegionSpace;
use crate::regions::regions_at;
use arrayvec::ArrayVec;
use bitflags::Flags;
use ffa_model::{Endpoint, Ffa, MOST_ENDPOINTS, Properties, Version};
use toml::{Table, Value};

/// The keys of the table of the first endpoint, which is the normal world.
pub(crate) const NORMAL_WORLD_KEYS: [&str; 3] = ["version", "properties", "regions"];

/// The keys of the table of each partition.
pub(crate) const PARTITION_KEYS: [&str; 4] = ["version", "uuid", "properties", "regions"];

#[tactic(auto, unfolding(crate::specs::Endpoints::normal_world_keys))]
pub(crate) fn normal_world_keys(table: &Table) -> Result<(), ManifestError>
    ensures { Exact (λ u. u) result (normal_world_keys_in (table_view table.now)) }
{
    only_keys(table, &NORMAL_WORLD_KEYS)
}

#[tactic(auto, unfolding(crate::specs::Endpoints::partition_keys))]
pub(crate) fn partition_keys(table: &Table) -> Result<(), ManifestError>
    ensures { Exact (λ u. u) result (partition_keys_in (table_view table.now)) }
{
    only_keys(table, &PARTITION_KEYS)
}

// Returns the version that a text names. Only a machine of FF-A 1.2 allows version 1.2.
#[tactic(auto, unfolding(crate::specs::Endpoints::version_of))]
fn version_of(text: &str, ffa: Ffa) -> Result<Version, ManifestError>
    ensures { Exact (λ v. v) result (version_named ffa text.now) }
{
    match (text, ffa) {
        ("1.1", _) => Ok(Version::V1_1),
        ("1.2", Ffa::V1_2) => Ok(Version::V1_2),
        ("compact", _) => Ok(Version::Compact),
        _ => Err(ManifestError::Version),
    }
}

#[tactic(auto, unfolding(crate::specs::Endpoints::version_at))]
pub(crate) fn version_at(table: &Table, ffa: Ffa) -> Result<Version, ManifestError>
    ensures { Exact (λ v. v) result (version_in ffa (table_view table.now)) }
{
    version_of(text_at(table, "version")?, ffa)
}

#[tactic(auto, unfolding(crate::specs::Endpoints::uuid_at))]
pub(crate) fn uuid_at(table: &Table) -> Result<[u8; 16], ManifestError>
    ensures { Exact (λ bytes. bytes) result (uuid_in (table_view table.now)) }
{
    identifier(text_at(table, "uuid")?)
}

// Whether a partition of this version may have these properties. It may have bits 3:0. In FF-A 1.2 it may also have
// bits 9 and 10, which are about second direct messages.
pub(crate) fn are_properties(version: Version, bits: u64) -> bool
    ensures { result ≡ are_properties version bits }
{
    match version {
        Version::V1_2 => bits < 1 << 11 && (bits >> 4) % 32 == 0,
        Version::V1_1 | Version::Compact => bits < 16,
    }
}

#[tactic(auto, unfolding(crate::specs::Endpoints::properties_at))]
pub(crate) fn properties_at(table: &Table, version: Version) -> Result<Properties, ManifestError>
    ensures { Exact (λ p. p.0) result (properties_in version (table_view table.now)) }
{
    match integer_at(table, "properties")? {
        Some(bits) if are_properties(version, bits) => Ok(Properties::from_bits_retain(
            bits as u32,
        )),
        _ => Err(ManifestError::Property),
    }
}

// Whether an endpoint with these properties receives direct requests or notifications.
#[tactic(auto, using(crate::proofs::Bits::contains_first, crate::proofs::Bits::contains_fourth))]
pub(crate) fn receives(properties: Properties) -> bool
    ensures { result ≡ (is_set 0 properties.0 || is_set 3 properties.0) }
{
    properties.contains(Properties::RECEIVES_DIRECT_REQUESTS)
        || properties.contains(Properties::RECEIVES_NOTIFICATIONS)
}

#[tactic(auto, unfolding(crate::specs::Endpoints::normal_world_properties))]
pub(crate) fn normal_world_properties(table: &Table) -> Result<Properties, ManifestError>
    ensures { Exact (λ p. p.0) result (normal_world_properties_in (table_view table.now)) }
{
    let properties = properties_at(table, Version::V1_1)?;
    if receives(properties) {
        Err(ManifestError::Property)
    } else {
        Ok(properties)
    }
}

#[tactic(auto, unfolding(crate::specs::Endpoints::normal_world))]
fn normal_world(table: &Table, ffa: Ffa, space: &RegionSpace) -> Result<Endpoint, ManifestError>
    ensures { Exact (λ e. e) result (normal_world_in ffa (is_in space.now) (table_view table.now)) }
{
    normal_world_keys(table)?;
    let version = version_at(table, ffa)?;
    let properties = normal_world_properties(table)?;
    let regions = regions_at(table, space, &[])?;
    Ok(Endpoint {
        version,
        uuid: [0; 16],
        properties,
        regions,
    })
}

#[tactic(auto, unfolding(crate::specs::Endpoints::partition))]
fn partition(
    table: &Table,
    ffa: Ffa,
    space: &RegionSpace,
    before: &[Endpoint],
) -> Result<Endpoint, ManifestError>
    ensures { Exact (λ e. e) result (partition_in ffa (is_in space.now) before.now (table_view table.now)) }
{
    partition_keys(table)?;
    let version = version_at(table, ffa)?;
    let uuid = uuid_at(table)?;
    let properties = properties_at(table, version)?;
    let regions = regions_at(table, space, before)?;
    Ok(Endpoint {
        version,
        uuid,
        properties,
        regions,
    })
}

#[tactic(auto, unfolding(crate::specs::Endpoints::next_endpoint))]
pub(crate) fn next_endpoint(
    value: &Value,
    ffa: Ffa,
    space: &RegionSpace,
    before: &[Endpoint],
) -> Result<Endpoint, ManifestError>
    ensures { Exact (λ e. e) result (next_in ffa (is_in space.now) before.now (view value.now)) }
{
    let table = match value.as_table() {
        None => return Err(ManifestError::WrongKind),
        Some(table) => table,
    };
    if before.is_empty() {
        normal_world(table, ffa, space)
    } else {
        partition(table, ffa, space, before)
    }
}

/// Reads the endpoints from the items of the array `endpoint`. Returns the first cause if it rejects an item.
#[tactic(auto, unfolding(crate::specs::Endpoints::endpoints_from))]
pub(crate) fn endpoints_from(
    values: &[Value],
    ffa: Ffa,
    space: &RegionSpace,
) -> Result<ArrayVec<Endpoint, MOST_ENDPOINTS>, ManifestError>
    requires { length values.now ≤ MOST_ENDPOINTS }
    ensures { Exact (λ es. es.items) result (endpoints_in ffa (is_in space.now) (items_view values.now)) }
{
    let mut endpoints = ArrayVec::new();
    for value in values {
        let endpoint = next_endpoint(value, ffa, space, endpoints.as_slice())?;
        endpoints.push(endpoint);
    }
    Ok(endpoints)
}
