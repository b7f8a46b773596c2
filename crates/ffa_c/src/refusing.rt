// SPDX-License-Identifier: MIT OR Apache-2.0
//! Why the library rejects a manifest, and where, for C.
ghost use Rattle.std.specs.Prelude.{◌≡◌, ◌≢◌, ◌⊎◌, ◌≤◌, IfSome, length};
ghost use Rattle.ffa_model.specs.declared.limits.TheConstants.{MOST_ENDPOINTS, MOST_REGIONS};
ghost use Rattle.ffa_c.specs.Booting.{cause_number};
ghost use Rattle.ffa_c.specs.Refusing.{IsText, IsToldOf, TellsText, TellsWords, endpoint_told, given_cause, given_place, given_told, region_from, region_told, told_in, untold_from, untold_place, untold_region};

use crate::booting::number_of;
use crate::codes::{NO_MEMORY, NOTHING, OK};
use crate::manifest::{
    CEndpoint, CManifest, CRegion, counted_endpoints, endpoint_of, ffa_of, manifest_of_numbers,
    region_of, version_of,
};
use ffa_manifest::{ManifestError, ManifestRefusal, PartsPlace, TextPlace, place_of_parts};
use ffa_model::{EndpointId, Ffa, MOST_ENDPOINTS, MOST_REGIONS, PageNo};
use std::alloc::Global;

/// Why the library rejects a manifest, and where, as C sees it.
#[repr(C)]
#[derive(Clone, Copy)]
pub struct CRefusal {
    /// The cause, from `MANIFEST_TOML` to `MANIFEST_VERSION`, or `MANIFEST_TABLES_OUTSIDE`.
    pub cause: u32,
    /// The identifier of the endpoint at fault, or `NOTHING` if the fault is elsewhere.
    pub endpoint: u32,
    /// The endpoint's region at fault, counted from 1, or 0 if the fault is not in a region.
    pub region: u64,
    /// The line where a text ceases to be UTF-8 or TOML, counted from 1. 0 for another cause.
    pub line: u64,
    /// The character in this line, counted from 1. 0 for another cause.
    pub column: u64,
    /// The number of bytes of the words for a text, without the NUL; 0 for numbers.
    pub words: u64,
}

/// Explains why a boot rejects a manifest's text: where, and in the words of the program with `--verbose`. Returns `OK`
/// if the text describes a machine, or `NO_MEMORY`, and writes nothing then. Otherwise returns the cause, writes cause
/// and place to `refusal`, and writes the words to `words`, with a NUL after them. If there is too little room, it
/// writes only the first bytes of the words, and the NUL last. The rest of `words` stays as it was.
#[unsafe(no_mangle)]
pub extern "C" fn gorseplumb_why_text(
    alloc: Global,
    text: &[u8],
    refusal: &mut CRefusal,
    words: &mut [u8],
) -> u32
    ensures accepted { result ≡ 0 → IsText text.now }
    ensures told { result ≢ 0 → result ≢ NO_MEMORY → (result ≡ refusal.new.cause) × TellsText text.now refusal.new }
    ensures words { result ≢ 0 → result ≢ NO_MEMORY → TellsWords refusal.new words.old words.new }
    ensures stays { (result ≡ 0) ⊎ (result ≡ NO_MEMORY) → (refusal.new ≡ refusal.old) × (words.new ≡ words.old) }
{
    match ffa_manifest::explain(alloc, text, Ffa::V1_1) {
        Ok(Ok(_)) => OK,
        Ok(Err(its)) => tell_text(alloc, text, &its, refusal, words),
        Err(_) => NO_MEMORY,
    }
}

// Writes why and where the library rejects a text, if there is memory for the words.
fn tell_text(
    alloc: Global,
    text: &[u8],
    its: &ManifestRefusal,
    refusal: &mut CRefusal,
    words: &mut [u8],
) -> u32
    requires { IfSome its.now.byte (λ at. at ≤ length text.now) }
    ensures refused { result ≢ 0 }
    ensures cause { result ≢ NO_MEMORY → result ≡ refusal.new.cause }
    ensures told { result ≢ NO_MEMORY → IsToldOf text.now its.now refusal.new }
    ensures said { result ≢ NO_MEMORY → TellsWords refusal.new words.old words.new }
    ensures refusal { result ≡ NO_MEMORY → refusal.new ≡ refusal.old }
    ensures words { result ≡ NO_MEMORY → words.new ≡ words.old }
{
    let cause = number_of(its.cause);
    let Ok(said) = its.to_string(alloc) else {
        return NO_MEMORY;
    };
    if cause == NO_MEMORY {
        return NO_MEMORY;
    }
    *refusal = told_of_text(text, its, said.len());
    put_words(words, said.as_bytes());
    cause
}

/// Explains why a boot rejects a manifest as numbers, and where. Returns `OK` if the numbers describe a machine, and
/// `refusal` stays as it was. Otherwise returns the cause, and writes cause and place to `refusal`. It takes no memory.
#[unsafe(no_mangle)]
pub extern "C" fn gorseplumb_why_manifest(given: &CManifest, refusal: &mut CRefusal) -> u32
    ensures cause { result ≡ given_cause given.now }
    ensures told { result ≢ 0 → refusal.new ≡ given_told given.now }
    ensures stays { result ≡ 0 → refusal.new ≡ refusal.old }
{
    match manifest_of_numbers(given) {
        Ok(_) => OK,
        Err(cause) => {
            let place = place_of_numbers(given);
            *refusal = CRefusal::at(cause, place.endpoint, place.region);
            number_of(cause)
        }
    }
}

impl CRefusal {
    // The refusal for this cause, at an endpoint and one of its regions, or at no endpoint.
    fn at(cause: ManifestError, endpoint: Option<EndpointId>, region: Option<usize>) -> CRefusal
        ensures { result ≡ record {
          cause = cause_number cause;
          endpoint = endpoint_told endpoint;
          region = region_told region;
          line = 0;
          column = 0;
          words = 0;
        } }
    {
        CRefusal {
            cause: number_of(cause),
            endpoint: match endpoint {
                Some(endpoint) => u32::from(endpoint.0),
                None => NOTHING,
            },
            region: match region {
                Some(number) => number as u64,
                None => 0,
            },
            line: 0,
            column: 0,
            words: 0,
        }
    }
}

// The refusal of a text, with this number of bytes of words.
fn told_of_text(text: &[u8], its: &ManifestRefusal, words: usize) -> CRefusal
    requires { IfSome its.now.byte (λ at. at ≤ length text.now) }
    ensures told { IsToldOf text.now its.now result }
    ensures words { result.words ≡ words }
{
    let mut told = CRefusal::at(its.cause, its.place.endpoint, its.place.region);
    if let Some(at) = its.byte {
        let place = TextPlace::of(text, at);
        told.line = place.line as u64;
        told.column = place.column as u64;
    }
    told.words = words as u64;
    told
}

// Copies a text to the front of an array, as far as the array has room for it and for a NUL after it.
fn put_words(words: &mut [u8], said: &[u8])
    ensures { words.new ≡ told_in words.old said.now }
{
    let Some(last) = words.len().checked_sub(1) else {
        return;
    };
    let size = said.len().min(last);
    words[..size].copy_from_slice(&said[..size]);
    words[size] = 0;
}

// The place where the library rejects numbers.
fn place_of_numbers(given: &CManifest) -> PartsPlace
    ensures { result ≡ given_place given.now }
{
    let Ok(endpoints) = counted_endpoints(given) else {
        return untold_place(given);
    };
    let Some(ffa) = ffa_of(given.ffa) else {
        return PartsPlace::nowhere();
    };
    place_of_parts(
        given.ram_base,
        given.ram_blocks,
        PageNo(given.tables),
        endpoints.as_slice(),
        ffa,
    )
}

// The place where numbers do not give endpoints.
fn untold_place(given: &CManifest) -> PartsPlace
    ensures { result ≡ untold_place given.now }
{
    let count = given.endpoint_count as usize;
    if count <= MOST_ENDPOINTS {
        untold_among(&given.endpoints[..count])
    } else {
        PartsPlace::nowhere()
    }
}

fn untold_among(endpoints: &[CEndpoint]) -> PartsPlace
    requires { length endpoints.now ≤ MOST_ENDPOINTS }
    ensures { result ≡ untold_from 0 endpoints.now }
{
    for (index, endpoint) in endpoints.iter().enumerate() {
        if endpoint_of(endpoint).is_err() {
            return PartsPlace {
                endpoint: Some(EndpointId::at(index)),
                region: untold_region(endpoint),
            };
        }
    }
    PartsPlace::nowhere()
}

// The region at fault in an endpoint whose numbers do not give an endpoint, if the fault is in a region.
fn untold_region(given: &CEndpoint) -> Option<usize>
    ensures { result ≡ untold_region given.now }
{
    let count = given.region_count as usize;
    if version_of(given.version).is_some() && count <= MOST_REGIONS {
        region_among(&given.regions[..count])
    } else {
        None
    }
}

fn region_among(regions: &[CRegion]) -> Option<usize>
    requires { length regions.now ≤ MOST_REGIONS }
    ensures { result ≡ region_from 0 regions.now }
{
    for (index, region) in regions.iter().enumerate() {
        if region_of(region).is_err() {
            return Some(index + 1);
        }
    }
    None
}
