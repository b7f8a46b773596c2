// SPDX-License-Identifier: MIT OR Apache-2.0
//! The place at which a document is rejected.
//!
//! This is a second walk over the document's tables, up to the first value that is rejected. It uses the functions that
//! read the tables, in their order. So they say which value that is, and this file has the words for what is wrong with
//! it. Clauses say at which endpoint and in which of its regions the walk ends: all before this place is read, and this
//! place is rejected. Tests show which key and value are reported there, and in which words.
ghost use Rattle.std.specs.Prelude.{◌≡◌, ◌≤◌, [], Some, IfOk, IsErr, length};
ghost use Rattle.toml.specs.View.{view, table_view, items_view};
ghost use Rattle.ffa_model.specs.Manifest.{regions_of};
ghost use Rattle.ffa_manifest.specs.Document.{machine};
ghost use Rattle.ffa_manifest.specs.Endpoints.{endpoints_from as endpoints_in, next_endpoint as next_endpoint_in, normal_world, partition};
ghost use Rattle.ffa_manifest.specs.Meeting.{SharesPage};
ghost use Rattle.ffa_manifest.specs.Places.{IsAtEndpoint, IsAtRegion, IsAtTop, IsPlaceOf, IsWithin, error_start, items_after, normal_world_items, partition_items, region_items as region_items_in};
ghost use Rattle.ffa_manifest.specs.RegionSpace.{is_in};
ghost use Rattle.ffa_manifest.specs.Regions.{regions_at, regions_from as regions_in};

use crate::control::forbidden_control;
use crate::document::{TOP_KEYS, endpoint_items, ram_base_at, ram_blocks_at, top_keys};
use crate::endpoints::{
    NORMAL_WORLD_KEYS, PARTITION_KEYS, next_endpoint, normal_world_keys, normal_world_properties,
    partition_keys, properties_at, uuid_at, version_at,
};
use crate::error_start::ErrorStart;
use crate::keys::is_among;
use crate::met::met_region;
use crate::near::nearest;
use crate::refusal::{Fault, Found, Location};
use crate::region_space::RegionSpace;
use crate::regions::{
    REGION_KEYS, base_at, next_region, pages_at, region, region_items, region_keys, rights_at,
};
use crate::text_place::TextPlace;
use arrayvec::ArrayVec;
use ffa_model::{Endpoint, EndpointId, Ffa, MOST_ENDPOINTS, MOST_REGIONS, Region, Version};
use std::alloc::{AllocError, Global};
use std::fmt::InlineText;
use toml::{Table, Value};

// The most bytes of a key or a value that a message shows.
const SHOWN: usize = 60;

/// Returns the place at which a text is not TOML, from the start of this error on. It has all that the parser says, on
/// one line. If a control character is there, the place has that character instead, because the parser calls it a bad
/// key, value or string.
pub(crate) fn in_text(
    alloc: Global,
    text: &[u8],
    start: ErrorStart,
    error: &toml::de::Error,
) -> Result<Location, AllocError>
    requires { start.byte ≤ length text.now }
    ensures place { IfOk result IsAtTop }
    ensures start { IfOk result (λ location. error_start location.found ≡ Some start.byte) }
    ensures met { IfOk result (λ location. SharesPage location.found) }
{
    let at = start.byte();
    if let Some(byte) = forbidden_control(text, at) {
        let place = TextPlace::of(text, at);
        return Ok(in_no_endpoint(Found::Control { byte, place, start }));
    }
    let said = error.to_string(alloc)?;
    let said = said.as_str().trim_end().replace(alloc, "\n", ": ")?;
    Ok(in_no_endpoint(Found::NoToml { said, start }))
}

pub(crate) fn in_no_endpoint(found: Found) -> Location
    ensures found { result.found ≡ found }
    ensures place { IsAtTop result }
{
    Location {
        endpoint: None,
        region: None,
        found,
    }
}

/// Returns the place at which the document of a top table is rejected, for a machine of this version of FF-A.
// With this second walk, the functions that read a manifest need not carry places.
#[tactic(auto, using(crate::proofs::Views::item_count_view), unfolding(crate::specs::Document::machine, crate::specs::Places::top))]
pub(crate) fn in_top(alloc: Global, table: &Table, ffa: Ffa) -> Result<Location, AllocError>
    requires { IsErr (machine ffa (table_view table.now)) }
    ensures place { IfOk result (IsPlaceOf ffa (table_view table.now)) }
    ensures met { IfOk result (λ location. SharesPage location.found) }
{
    if top_keys(table).is_err() {
        return Ok(in_no_endpoint(unknown_key(alloc, table, &TOP_KEYS)?));
    }
    let Ok(base) = ram_base_at(table) else {
        let found = at_number(alloc, table, "ram_base", Fault::RamBase)?;
        return Ok(in_no_endpoint(found));
    };
    let Ok(blocks) = ram_blocks_at(table) else {
        let found = at_key(alloc, table, "ram_blocks", Fault::BlockCount)?;
        return Ok(in_no_endpoint(found));
    };
    let Ok(values) = endpoint_items(table) else {
        let found = at_array(alloc, table, "endpoint", MOST_ENDPOINTS)?;
        return Ok(in_no_endpoint(found));
    };
    let space = RegionSpace {
        base,
        tables: 0,
        blocks,
        endpoints: values.len() as u32,
    };
    in_endpoints(alloc, values, ffa, &space)
}

// Returns the place at which the endpoints of a top table are rejected.
fn in_endpoints(
    alloc: Global,
    values: &[Value],
    ffa: Ffa,
    space: &RegionSpace,
) -> Result<Location, AllocError>
    requires few { length values.now ≤ MOST_ENDPOINTS }
    requires refused { IsErr (endpoints_in ffa (is_in space.now) (items_view values.now)) }
    ensures place { IfOk result (IsAtEndpoint ffa (is_in space.now) (items_view values.now)) }
    ensures met { IfOk result (λ location. SharesPage location.found) }
{
    let mut before = ArrayVec::<Endpoint, MOST_ENDPOINTS>::new();
    for (index, value) in values.iter().enumerate() {
        match next_endpoint(value, ffa, space, before.as_slice()) {
            Ok(endpoint) => before.push(endpoint),
            Err(_) => {
                let (region, found) = in_endpoint(alloc, value, ffa, space, before.as_slice())?;
                return Ok(Location {
                    endpoint: Some(EndpointId::at(index)),
                    region,
                    found,
                });
            }
        }
    }
    unreachable!()
}

// Returns what is wrong with an endpoint after those before it, and the number of its region if a region is wrong.
#[tactic(auto, unfolding(crate::specs::Endpoints::next_endpoint, crate::specs::Places::items_after))]
fn in_endpoint(
    alloc: Global,
    value: &Value,
    ffa: Ffa,
    space: &RegionSpace,
    before: &[Endpoint],
) -> Result<(Option<usize>, Found), AllocError>
    requires few { length before.now ≤ MOST_ENDPOINTS }
    requires refused { IsErr (next_endpoint_in ffa (is_in space.now) before.now (view value.now)) }
    ensures region { IfOk result (λ place.
        IsWithin (is_in space.now) before.now (items_after ffa before.now (view value.now)) place.0) }
    ensures met { IfOk result (λ place. SharesPage place.1) }
{
    let Some(table) = value.as_table() else {
        return Ok((None, no_table(alloc, value)?));
    };
    if before.is_empty() {
        in_normal_world(alloc, table, ffa, space)
    } else {
        in_partition(alloc, table, ffa, space, before)
    }
}

// Returns what is wrong with the normal world's table, and the number of its region if a region is wrong.
#[tactic(auto, unfolding(crate::specs::Endpoints::normal_world, crate::specs::Places::normal_world_items))]
fn in_normal_world(
    alloc: Global,
    table: &Table,
    ffa: Ffa,
    space: &RegionSpace,
) -> Result<(Option<usize>, Found), AllocError>
    requires { IsErr (normal_world ffa (is_in space.now) (table_view table.now)) }
    ensures region { IfOk result (λ place.
        IsWithin (is_in space.now) [] (normal_world_items ffa (table_view table.now)) place.0) }
    ensures met { IfOk result (λ place. SharesPage place.1) }
{
    if normal_world_keys(table).is_err() {
        return Ok((None, unknown_key(alloc, table, &NORMAL_WORLD_KEYS)?));
    }
    if version_at(table, ffa).is_err() {
        return Ok((None, at_version(alloc, table, ffa)?));
    }
    if normal_world_properties(table).is_err() {
        let fault = Fault::Words("must be 0, 2, 4 or 6");
        return Ok((None, at_key(alloc, table, "properties", fault)?));
    }
    in_regions(alloc, table, space, &[])
}

// Returns what is wrong with a partition's table after these endpoints, and the number of its region if a region is
// wrong.
#[tactic(auto, unfolding(crate::specs::Endpoints::partition, crate::specs::Places::partition_items))]
fn in_partition(
    alloc: Global,
    table: &Table,
    ffa: Ffa,
    space: &RegionSpace,
    before: &[Endpoint],
) -> Result<(Option<usize>, Found), AllocError>
    requires few { length before.now ≤ MOST_ENDPOINTS }
    requires refused { IsErr (partition ffa (is_in space.now) before.now (table_view table.now)) }
    ensures region { IfOk result (λ place.
        IsWithin (is_in space.now) before.now (partition_items ffa (table_view table.now)) place.0) }
    ensures met { IfOk result (λ place. SharesPage place.1) }
{
    if partition_keys(table).is_err() {
        return Ok((None, unknown_key(alloc, table, &PARTITION_KEYS)?));
    }
    let Ok(version) = version_at(table, ffa) else {
        return Ok((None, at_version(alloc, table, ffa)?));
    };
    if uuid_at(table).is_err() {
        let fault = Fault::Words("must be a UUID other than the Nil UUID");
        return Ok((None, at_key(alloc, table, "uuid", fault)?));
    }
    if properties_at(table, version).is_err() {
        let fault = Fault::Words(properties_wanted(version));
        return Ok((None, at_key(alloc, table, "properties", fault)?));
    }
    in_regions(alloc, table, space, before)
}

// Returns the words for the properties that a partition of this version may have.
fn properties_wanted(version: Version) -> &'static str {
    match version {
        Version::V1_2 => "must have only bits 0 to 3, 9 and 10",
        Version::V1_1 | Version::Compact => "must be 0 to 15",
    }
}

// Returns what is wrong with the regions of an endpoint's table, and the number of the region if one is wrong.
#[tactic(auto, unfolding(crate::specs::Regions::regions_at, crate::specs::Places::region_items))]
fn in_regions(
    alloc: Global,
    table: &Table,
    space: &RegionSpace,
    before: &[Endpoint],
) -> Result<(Option<usize>, Found), AllocError>
    requires few { length before.now ≤ MOST_ENDPOINTS }
    requires refused { IsErr (regions_at (is_in space.now) (regions_of before.now) (table_view table.now)) }
    ensures region { IfOk result (λ place.
        IsWithin (is_in space.now) before.now (region_items_in (table_view table.now)) place.0) }
    ensures met { IfOk result (λ place. SharesPage place.1) }
{
    let Ok(values) = region_items(table) else {
        return Ok((None, at_array(alloc, table, "regions", MOST_REGIONS)?));
    };
    let (number, found) = in_items(alloc, values, space, before)?;
    Ok((Some(number), found))
}

// Returns the number of the first item of an array of regions that is rejected, counted from 1, and what is wrong with
// it.
fn in_items(
    alloc: Global,
    values: &[Value],
    space: &RegionSpace,
    before: &[Endpoint],
) -> Result<(usize, Found), AllocError>
    requires few { length before.now ≤ MOST_ENDPOINTS }
    requires most { length values.now ≤ MOST_REGIONS }
    requires refused { IsErr (regions_in (is_in space.now) (regions_of before.now) (items_view values.now)) }
    ensures region { IfOk result (λ place.
        IsAtRegion (is_in space.now) (regions_of before.now) (items_view values.now) (Some place.0)) }
    ensures met { IfOk result (λ place. SharesPage place.1) }
{
    let mut own = ArrayVec::<Region, MOST_REGIONS>::new();
    for (index, value) in values.iter().enumerate() {
        match next_region(value, space, before, own.as_slice()) {
            Ok(region) => own.push(region),
            Err(_) => {
                let found = in_region(alloc, value, space, before, own.as_slice())?;
                return Ok((index + 1, found));
            }
        }
    }
    unreachable!()
}

// Returns what is wrong with a region, after the regions of these endpoints and the endpoint's own earlier regions.
fn in_region(
    alloc: Global,
    value: &Value,
    space: &RegionSpace,
    before: &[Endpoint],
    own: &[Region],
) -> Result<Found, AllocError>
    requires { length before.now ≤ MOST_ENDPOINTS }
    ensures { IfOk result SharesPage }
{
    let Some(table) = value.as_table() else {
        return no_table(alloc, value);
    };
    if region_keys(table).is_err() {
        unknown_key(alloc, table, &REGION_KEYS)
    } else if base_at(table).is_err() {
        at_key(alloc, table, "base", Fault::Words("must be an integer"))
    } else if pages_at(table).is_err() {
        at_key(alloc, table, "pages", Fault::Words("must be an integer"))
    } else if rights_at(table).is_err() {
        let fault = Fault::Words("must be \"ro\", \"rw\", \"rox\" or \"rwx\"");
        at_key(alloc, table, "rights", fault)
    } else {
        match region(table, space) {
            Ok(region) => in_place(alloc, table, space, &region, before, own),
            Err(_) => out_of_place(alloc, table, space),
        }
    }
}

// Returns what is wrong with the table of a region that is where regions may be.
fn in_place(
    alloc: Global,
    table: &Table,
    space: &RegionSpace,
    region: &Region,
    before: &[Endpoint],
    own: &[Region],
) -> Result<Found, AllocError>
    requires { length before.now ≤ MOST_ENDPOINTS }
    ensures { IfOk result SharesPage }
{
    match met_region(region, before, own) {
        Some(met) => Ok(Found::Overlap {
            region: *region,
            met,
        }),
        None => out_of_place(alloc, table, space),
    }
}

// Returns what is wrong with the table of a region that is not where regions may be: its base, its number of pages, or
// their end.
fn out_of_place(alloc: Global, table: &Table, space: &RegionSpace) -> Result<Found, AllocError>
    ensures { IfOk result SharesPage }
{
    let bounds = space.bounds();
    match (base_at(table), pages_at(table)) {
        (Ok(Some(base)), Ok(Some(pages))) if base % 4096 == 0 && 1 <= pages => Ok(Found::Outside {
            base,
            pages,
            bounds,
        }),
        (Ok(Some(base)), _) if base % 4096 == 0 => {
            at_number(alloc, table, "pages", Fault::PageCount)
        }
        _ => at_number(alloc, table, "base", Fault::RegionBase(bounds)),
    }
}

// Returns the first key of a table that is not one of these.
fn unknown_key(alloc: Global, table: &Table, names: &[&'static str]) -> Result<Found, AllocError>
    ensures { IfOk result SharesPage }
{
    for key in table.keys() {
        if !is_among(key.as_str(), names) {
            let shown = InlineText::<SHOWN>::of(key.as_str().escape_debug());
            return Ok(Found::UnknownKey {
                key: String::from_str(alloc, shown.as_str())?,
                near: nearest(alloc, key.as_str(), names)?,
            });
        }
    }
    Ok(Found::UnknownKey {
        key: String::new(alloc),
        near: None,
    })
}

// Returns the key if the table lacks it, or else its value with what is wrong with the value.
fn at_key(
    alloc: Global,
    table: &Table,
    key: &'static str,
    fault: Fault,
) -> Result<Found, AllocError>
    ensures { IfOk result SharesPage }
{
    match table.get(key) {
        None => Ok(Found::MissingKey(key)),
        Some(value) => Ok(Found::Value {
            key,
            value: text_of(alloc, value)?,
            fault,
        }),
    }
}

// Does what `at_key` does, for a key whose value must be an address or a number of pages.
fn at_number(
    alloc: Global,
    table: &Table,
    key: &'static str,
    fault: Fault,
) -> Result<Found, AllocError>
    ensures { IfOk result SharesPage }
{
    let number = match table.get(key) {
        Some(value) => value.as_integer(),
        None => None,
    };
    match number {
        Some(number) => Ok(Found::Number { key, number, fault }),
        None => at_key(alloc, table, key, fault),
    }
}

// Does what `at_key` does, for a key whose value must be an array of at most `most` tables.
fn at_array(
    alloc: Global,
    table: &Table,
    key: &'static str,
    most: usize,
) -> Result<Found, AllocError>
    ensures { IfOk result SharesPage }
{
    match table.get(key).and_then(|value| value.as_array()) {
        Some(values) => Ok(Found::Count {
            key,
            count: values.len(),
            most,
        }),
        None => at_key(alloc, table, key, Fault::Words("must be an array")),
    }
}

// Does what `at_key` does, for the version of an endpoint on a machine of this version of FF-A.
fn at_version(alloc: Global, table: &Table, ffa: Ffa) -> Result<Found, AllocError>
    ensures { IfOk result SharesPage }
{
    at_key(alloc, table, "version", version_fault(table, ffa))
}

// Returns what is wrong with an endpoint's version.
fn version_fault(table: &Table, ffa: Ffa) -> Fault {
    match ffa {
        Ffa::V1_1 if version_at(table, Ffa::V1_2).is_ok() => Fault::NewerVersion,
        Ffa::V1_1 => Fault::Words("must be \"1.1\" or \"compact\""),
        Ffa::V1_2 => Fault::Words("must be \"1.1\", \"1.2\" or \"compact\""),
    }
}

fn no_table(alloc: Global, value: &Value) -> Result<Found, AllocError>
    ensures { IfOk result SharesPage }
{
    Ok(Found::NoTable(text_of(alloc, value)?))
}

// Writes a value as TOML, on one line.
fn text_of(alloc: Global, value: &Value) -> Result<String, AllocError> {
    let text = InlineText::<SHOWN>::of(value);
    text.as_str().replace(alloc, "\n", "\\n")
}
