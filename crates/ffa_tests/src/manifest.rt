// SPDX-License-Identifier: MIT OR Apache-2.0
//! Endpoints of each version, which texts and parts declare for machines. Also names of causes that the program prints
//! for no text.
use crate::checks::{same, same_at};
use arrayvec::ArrayVec;
use ffa_manifest::{ManifestError, PartsPlace, explain, of_parts, place_of_parts, read, read_for};
use ffa_model::{Endpoint, Ffa, MOST_ENDPOINTS, MOST_SENDS, Manifest, PageNo, Version};
use fixtures::{FIRST, ROW_TEXT, row_machine};
use std::alloc::{AllocError, Global};
use std::test::Fail;

// If memory runs out, the program prints other words. No text of a manifest has the place of the tables.
#[test]
fn causes_by_name(rt: HostRuntime) -> Result<(), Fail> {
    let (memory, tables) = (ManifestError::NoMemory, ManifestError::TablesOutside);
    let names = format!(in rt.alloc(); "{memory}, {tables}")?;
    same(&rt, names.as_str(), "M1 NoMemory, M25 TablesOutside");
    Ok(())
}

// In FF-A 1.2 an endpoint makes a send for each number of a handle, except 0.
#[test]
fn sends_of_each_version(rt: HostRuntime) -> Result<(), Fail> {
    same(&rt, Ffa::V1_1.most_sends(), MOST_SENDS);
    same(&rt, Ffa::V1_2.most_sends(), 0xFFFF_FFFF);
    Ok(())
}

// Returns the text of `row_machine` with this version of the first partition.
fn text_of(alloc: Global, version: &str) -> Result<String, AllocError> {
    let found = "version = \"1.1\"\nuuid = \"0";
    let wanted = format!(in alloc; "version = \"{version}\"\nuuid = \"0")?;
    ROW_TEXT.replace(alloc, found, wanted.as_str())
}

// Returns the versions of a manifest's machine and of its first partition, or the cause of its refusal.
fn came_of(read: Result<Manifest, ManifestError>) -> Result<(Ffa, Option<Version>), ManifestError> {
    let manifest = read?;
    let partition = manifest.endpoints.as_slice().get(1);
    Ok((manifest.ffa, partition.map(|endpoint| endpoint.version)))
}

// A machine of FF-A 1.1 accepts no partition of FF-A 1.2. A machine of FF-A 1.2 accepts partitions of each version.
#[test]
fn versions_of_texts(rt: HostRuntime) -> Result<(), Fail> {
    let alloc = rt.alloc();
    let old = [
        ("1.1", Ok((Ffa::V1_1, Some(Version::V1_1)))),
        ("compact", Ok((Ffa::V1_1, Some(Version::Compact)))),
        ("1.2", Err(ManifestError::Version)),
        ("1.3", Err(ManifestError::Version)),
    ];
    for (version, wanted) in old {
        let text = text_of(alloc, version)?;
        same_at(&rt, came_of(read(alloc, text.as_str())), wanted, &version);
        let found = came_of(read_for(alloc, text.as_str(), Ffa::V1_1));
        same_at(&rt, found, wanted, &version);
    }
    let new = [
        ("1.1", Ok((Ffa::V1_2, Some(Version::V1_1)))),
        ("compact", Ok((Ffa::V1_2, Some(Version::Compact)))),
        ("1.2", Ok((Ffa::V1_2, Some(Version::V1_2)))),
        ("1.3", Err(ManifestError::Version)),
    ];
    for (version, wanted) in new {
        let text = text_of(alloc, version)?;
        let found = came_of(read_for(alloc, text.as_str(), Ffa::V1_2));
        same_at(&rt, found, wanted, &version);
    }
    Ok(())
}

// Returns in words why a text is refused for a machine of this version of FF-A, and where. Returns "accepted" if it is
// not refused.
fn words_of(alloc: Global, version: &str, ffa: Ffa) -> Result<String, AllocError> {
    let text = text_of(alloc, version)?;
    match explain(alloc, text.as_str().as_bytes(), ffa)? {
        Ok(_) => String::from_str(alloc, "accepted"),
        Err(refusal) => format!(in alloc; "{}: {refusal}", refusal.cause),
    }
}

#[test]
fn words_of_versions(rt: HostRuntime) -> Result<(), Fail> {
    let alloc = rt.alloc();
    let place = "M14 Version: endpoint 8001 (the 2nd [[endpoint]]): version =";
    let wanted = [
        (
            "1.2",
            Ffa::V1_1,
            "\"1.2\": must be \"1.1\" or \"compact\"; \"1.2\" needs a machine of FF-A 1.2",
        ),
        ("1.3", Ffa::V1_1, "\"1.3\": must be \"1.1\" or \"compact\""),
        (
            "1.3",
            Ffa::V1_2,
            "\"1.3\": must be \"1.1\", \"1.2\" or \"compact\"",
        ),
    ];
    for (version, ffa, end) in wanted {
        let line = format!(in alloc; "{place} {end}")?;
        same(&rt, words_of(alloc, version, ffa)?.as_str(), line.as_str());
    }
    same(&rt, words_of(alloc, "1.2", Ffa::V1_2)?.as_str(), "accepted");
    Ok(())
}

// Returns the endpoints of `row_machine` with this version of the first partition.
fn parts_of(version: Version) -> ArrayVec<Endpoint, MOST_ENDPOINTS> {
    let mut endpoints = row_machine().endpoints;
    if let Some(endpoint) = endpoints.get_mut(1) {
        endpoint.version = version;
    }
    endpoints
}

// Parts are refused for the version as a text is, before the check of the partition's regions.
#[test]
fn versions_of_parts(rt: HostRuntime) {
    for (version, ffa, is_refused) in [
        (Version::V1_1, Ffa::V1_1, false),
        (Version::Compact, Ffa::V1_1, false),
        (Version::V1_2, Ffa::V1_1, true),
        (Version::V1_1, Ffa::V1_2, false),
        (Version::Compact, Ffa::V1_2, false),
        (Version::V1_2, Ffa::V1_2, false),
    ] {
        let place = place_of_parts(0x4000_0000, 1, PageNo(0), parts_of(version).as_slice(), ffa);
        let found = came_of(of_parts(0x4000_0000, 1, PageNo(0), parts_of(version), ffa));
        if is_refused {
            let endpoint = Some(FIRST);
            same(&rt, found, Err(ManifestError::Version));
            same(
                &rt,
                place,
                PartsPlace {
                    endpoint,
                    region: None,
                },
            );
        } else {
            same(&rt, found, Ok((ffa, Some(version))));
            same(&rt, place, PartsPlace::nowhere());
        }
    }
}
