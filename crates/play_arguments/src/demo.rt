// SPDX-License-Identifier: MIT OR Apache-2.0
//! Defines the machine of `ffaplay demo`, so that it needs no manifest.

ghost use Rattle.std.specs.Prelude.{◌≡◌};
ghost use Rattle.ffa_model.specs.declared.manifest.Ffa.TheVariants.{V1_1};
ghost use Rattle.play_arguments.specs.Machine.{sixteen_writable, endpoint_with, built_in_endpoints};

use arrayvec::ArrayVec;
use bitflags::Flags;
use ffa_model::{
    Address, Data, Endpoint, MOST_ENDPOINTS, Manifest, PageNo, Properties, Region, Rights, Version,
};

// Returns a region of sixteen writable pages.
fn region(base: u32, exec: bool) -> Region
    ensures { result ≡ sixteen_writable base exec }
{
    let level = Data::Rw;
    Region {
        base,
        pages: 16,
        rights: Rights { level, exec },
    }
}

fn endpoint(uuid: [u8; 16], properties: u32, region: Region) -> Endpoint
    ensures { result ≡ endpoint_with uuid properties region }
{
    let mut regions = ArrayVec::new();
    regions.push(region);
    Endpoint {
        version: Version::V1_1,
        uuid,
        properties: Properties::from_bits_retain(properties),
        regions,
    }
}

// Returns the normal world and one partition.
fn two_endpoints() -> ArrayVec<Endpoint, MOST_ENDPOINTS>
    ensures { result.items ≡ built_in_endpoints }
{
    let uuid = [
        0, 17, 34, 51, 68, 85, 102, 119, 136, 153, 170, 187, 204, 221, 238, 255,
    ];
    let mut endpoints = ArrayVec::new();
    endpoints.push(endpoint([0; 16], 6, region(0x4001_0000, false)));
    endpoints.push(endpoint(uuid, 15, region(0x4002_0000, true)));
    endpoints
}

/// Returns the machine of the program's demonstration, which serves FF-A 1.1. It has 2 MiB of RAM at 0x40000000. The
/// normal world has 16 writable pages at 0x40010000. The one partition has 16 pages at 0x40020000, which it may write
/// and execute.
pub fn built_in() -> Manifest
    ensures base { result.ram_base.0 ≡ 0x40000000 }
    ensures blocks { result.ram_blocks ≡ 1 }
    ensures tables { result.tables.0 ≡ 0 }
    ensures endpoints { result.endpoints.items ≡ built_in_endpoints }
    ensures ffa { result.ffa ≡ V1_1 }
{
    Manifest::of(Address(0x4000_0000), 1, PageNo(0), two_endpoints())
}
