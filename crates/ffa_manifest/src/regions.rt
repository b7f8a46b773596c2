// SPDX-License-Identifier: MIT OR Apache-2.0
//! The regions of an endpoint.
ghost use Rattle.std.specs.Prelude.{◌≡◌, ◌≤◌, ◌++◌, IfOk, codes, length};
ghost use Rattle.std.specs.List.{list_all};
ghost use Rattle.toml.specs.View.{view, table_view, items_view};
ghost use Rattle.ffa_model.specs.Manifest.{is_apart, regions_of};
ghost use Rattle.ffa_manifest.specs.Reading.{Exact};
ghost use Rattle.ffa_manifest.specs.declared.error.ManifestError.TheVariants.{RegionCount};
ghost use Rattle.ffa_manifest.specs.Keys.{items_at};
ghost use Rattle.ffa_manifest.specs.RegionSpace.{is_in};
ghost use Rattle.ffa_manifest.specs.Regions.{region_keys as keys_in, base_at as base_in, pages_at as pages_in, rights_named as rights_of_word, rights_at as rights_in, region as region_in, is_free as is_free_in, next_region as next_in, regions_from as regions_in, regions_at as regions_of_table};

use crate::error::ManifestError;
use crate::keys::{integer_at, items_at, only_keys, text_at};
use crate::region_space::RegionSpace;
use arrayvec::ArrayVec;
use ffa_model::{Data, Endpoint, MOST_REGIONS, Region, Rights};
use toml::{Table, Value};

/// The keys of a region's table.
pub(crate) const REGION_KEYS: [&str; 3] = ["base", "pages", "rights"];

#[tactic(auto, unfolding(crate::specs::Regions::region_keys))]
pub(crate) fn region_keys(table: &Table) -> Result<(), ManifestError>
    ensures { Exact (λ u. u) result (keys_in (table_view table.now)) }
{
    only_keys(table, &REGION_KEYS)
}

#[tactic(auto, unfolding(crate::specs::Regions::base_at))]
pub(crate) fn base_at(table: &Table) -> Result<Option<u64>, ManifestError>
    ensures { Exact (λ n. n) result (base_in (table_view table.now)) }
{
    integer_at(table, "base")
}

#[tactic(auto, unfolding(crate::specs::Regions::pages_at))]
pub(crate) fn pages_at(table: &Table) -> Result<Option<u64>, ManifestError>
    ensures { Exact (λ n. n) result (pages_in (table_view table.now)) }
{
    integer_at(table, "pages")
}

#[tactic(auto, unfolding(crate::specs::Regions::rights_named))]
fn rights_named(word: &str) -> Option<Rights>
    ensures { result ≡ rights_of_word word.now }
{
    let (level, exec) = if word == "ro" {
        (Data::Ro, false)
    } else if word == "rw" {
        (Data::Rw, false)
    } else if word == "rox" {
        (Data::Ro, true)
    } else if word == "rwx" {
        (Data::Rw, true)
    } else {
        return None;
    };
    Some(Rights { level, exec })
}

#[tactic(auto, unfolding(crate::specs::Regions::rights_at))]
pub(crate) fn rights_at(table: &Table) -> Result<Rights, ManifestError>
    ensures { Exact (λ r. r) result (rights_in (table_view table.now)) }
{
    match rights_named(text_at(table, "rights")?) {
        None => Err(ManifestError::WrongKind),
        Some(rights) => Ok(rights),
    }
}

#[tactic(auto, unfolding(crate::specs::Regions::region))]
pub(crate) fn region(table: &Table, space: &RegionSpace) -> Result<Region, ManifestError>
    ensures { Exact (λ r. r) result (region_in (is_in space.now) (table_view table.now)) }
{
    region_keys(table)?;
    let base = base_at(table)?;
    let pages = pages_at(table)?;
    let rights = rights_at(table)?;
    match (base, pages) {
        (Some(base), Some(pages)) => space
            .region(base, pages, rights)
            .ok_or(ManifestError::RegionOutside),
        _ => Err(ManifestError::RegionOutside),
    }
}

pub(crate) fn is_apart(region: &Region, other: &Region) -> bool
    ensures { result ≡ is_apart region.now other.now }
{
    let end = u64::from(region.base) + 4096 * u64::from(region.pages);
    let other_end = u64::from(other.base) + 4096 * u64::from(other.pages);
    end <= u64::from(other.base) || other_end <= u64::from(region.base)
}

pub(crate) fn is_apart_from_all(region: &Region, others: &[Region]) -> bool
    ensures { result ≡ is_free_in others.now region.now }
{
    others.iter().all(|other| is_apart(region, other))
}

// Whether no endpoint has a page of the region.
pub(crate) fn is_free(region: &Region, endpoints: &[Endpoint]) -> bool
    ensures { result ≡ list_all (λ (e : Endpoint). is_free_in e.regions.items region.now) endpoints.now }
{
    endpoints.iter().all(|endpoint| is_apart_from_all(region, endpoint.regions.as_slice()))
}

#[tactic(auto, using(crate::proofs::Taken::is_free_of_both), unfolding(crate::specs::Regions::next_region))]
pub(crate) fn next_region(
    value: &Value,
    space: &RegionSpace,
    endpoints: &[Endpoint],
    own: &[Region],
) -> Result<Region, ManifestError>
    ensures { Exact (λ r. r) result (next_in (is_in space.now) (regions_of endpoints.now ++ own.now) (view value.now)) }
{
    let table = match value.as_table() {
        None => return Err(ManifestError::WrongKind),
        Some(table) => table,
    };
    let region = region(table, space)?;
    if is_free(&region, endpoints) && is_apart_from_all(&region, own) {
        Ok(region)
    } else {
        Err(ManifestError::RegionOverlap)
    }
}

#[tactic(auto, unfolding(crate::specs::Regions::regions_from))]
pub(crate) fn regions_from(
    values: &[Value],
    space: &RegionSpace,
    endpoints: &[Endpoint],
) -> Result<ArrayVec<Region, MOST_REGIONS>, ManifestError>
    requires { length values.now ≤ MOST_REGIONS }
    ensures { let taken = regions_of endpoints.now in
        Exact (λ rs. rs.items) result (regions_in (is_in space.now) taken (items_view values.now)) }
{
    let mut own = ArrayVec::new();
    for value in values {
        let region = next_region(value, space, endpoints, own.as_slice())?;
        own.push(region);
    }
    Ok(own)
}

/// Returns the items of the array `regions`. Returns `RegionCount` if it has no items, or more than `MOST_REGIONS`.
pub(crate) fn region_items(table: &Table) -> Result<&[Value], ManifestError>
    ensures items { let read = items_at (codes "regions") MOST_REGIONS RegionCount (table_view table.now) in
        Exact (λ vs. items_view vs.now) result read }
    ensures few { IfOk result (λ vs. length vs.now ≤ MOST_REGIONS) }
{
    items_at(table, "regions", MOST_REGIONS, ManifestError::RegionCount)
}

/// Reads the regions of an endpoint's table, which must be apart from the regions of the endpoints before it. Returns
/// the first cause if it rejects a region.
#[tactic(auto, unfolding(crate::specs::Regions::regions_at))]
pub(crate) fn regions_at(
    table: &Table,
    space: &RegionSpace,
    endpoints: &[Endpoint],
) -> Result<ArrayVec<Region, MOST_REGIONS>, ManifestError>
    ensures { let taken = regions_of endpoints.now in
        Exact (λ rs. rs.items) result (regions_of_table (is_in space.now) taken (table_view table.now)) }
{
    let values = region_items(table)?;
    regions_from(values, space, endpoints)
}
