// SPDX-License-Identifier: MIT OR Apache-2.0
//! Partition information (DEN0077A, 13).
ghost use Rattle.std.specs.Prelude.{◌≡◌, ◌+◌, ◌<◌, ◌≤◌, ◌^◌, ◌||◌, ◌++◌, length, map, replicate, if◌then◌else◌};
ghost use Rattle.byteorder.specs.Endian.{little_bytes};
ghost use Rattle.ffa_model.specs.First.{party_of};
ghost use Rattle.ffa_model.specs.Identifiers.{identifier};
ghost use Rattle.ffa_model.specs.Manifest as model;
ghost use Rattle.ffa_model.specs.declared.refusal.Refusal.{Refusal};
ghost use Rattle.ffa_model.specs.Setup.{info_bytes, info_of, needs_buffers, properties_told, told_info_size, is_any, is_selected, selected, uuid_bytes};

use arrayvec::ArrayVec;
use bitflags::Flags;
use byteorder::{ByteOrder, LittleEndian};
use ffa_model::{Endpoint, EndpointId, Ffa, MOST_ENDPOINTS, Manifest, Refusal, Version};

/// The bit of a partition's properties that says that the partition runs in AArch64.
const AARCH64: u32 = 0x100;

/// The bits of a partition's properties that say which messages it receives and sends.
const OF_MESSAGES: u32 = 7;

/// The bits of a partition's properties that FF-A 1.1 has, except the bit that says that the partition runs in AArch64.
const OF_FFA_1_1: u32 = 15;

/// The number of execution contexts of each partition.
const CONTEXTS: u16 = 1;

/// The most bytes of partition information: 24 for each endpoint except the normal world.
pub const MOST_INFO_BYTES: usize = 24 * (MOST_ENDPOINTS - 1);

// Returns the UUID whose bytes are in four registers, the lowest first.
fn uuid_of(words: [u32; 4]) -> [u8; 16]
    ensures { result ≡ uuid_bytes words }
{
    let mut uuid = [0; 16];
    LittleEndian::write_u32_into(&words, &mut uuid);
    uuid
}

// Whether this is the Nil UUID.
fn is_zeros(uuid: &[u8; 16]) -> bool
    ensures { result ≡ model.is_nil uuid.now }
{
    uuid.iter().all(|&byte| byte == 0)
}

// Whether four registers hold the Nil UUID.
fn is_nil(uuid: [u32; 4]) -> bool
    ensures { result ≡ model.is_nil (uuid_bytes uuid) }
{
    is_zeros(&uuid_of(uuid))
}

// Whether a UUID selects the endpoint at a place in the manifest.
fn is_selected(uuid: &[u8; 16], place: usize, endpoint: &Endpoint) -> bool
    ensures { result ≡ is_selected uuid.now (place, party_of endpoint.now) }
{
    place != 0 && (is_zeros(uuid) || endpoint.uuid == *uuid)
}

/// Counts the partitions that the UUID in four registers selects. The Nil UUID selects all partitions, and another UUID
/// selects the partitions that have it.
pub fn count(manifest: &Manifest, uuid: [u32; 4]) -> u32
    ensures { result ≡ length (selected (map party_of manifest.now.endpoints.items) (uuid_bytes uuid)) }
{
    let uuid = uuid_of(uuid);
    let mut count = 0;
    for (place, endpoint) in manifest.endpoints.as_slice().iter().enumerate() {
        if is_selected(&uuid, place, endpoint) {
            count += 1;
        }
    }
    count
}

/// Whether FFA_PARTITION_INFO_GET may name the UUID in four registers: the Nil UUID, or the UUID of a partition.
pub fn is_recognized(manifest: &Manifest, uuid: [u32; 4]) -> bool
    ensures { result ≡ (model.is_nil (uuid_bytes uuid)
        || is_any (selected (map party_of manifest.now.endpoints.items) (uuid_bytes uuid))) }
{
    is_nil(uuid) || count(manifest, uuid) != 0
}

/// Returns the check of FFA_PARTITION_INFO_GET that fails if the caller has no buffers, and the call needs them
/// (DEN0077A, 13.8). FF-A 1.2 has its own error code for that.
pub fn missing_buffers(ffa: Ffa) -> Refusal
    ensures { result ≡ (if needs_buffers ffa then Refusal.BuffersNeeded else Refusal.BuffersMissing) }
{
    match ffa {
        Ffa::V1_1 => Refusal::BuffersMissing,
        Ffa::V1_2 => Refusal::BuffersNeeded,
    }
}

// Returns the information on the partition at a place in the manifest, for a compact caller.
fn compact_info(ffa: Ffa, uuid: &[u8; 16], place: usize, endpoint: &Endpoint) -> [u8; 8]
    requires place { place < MOST_ENDPOINTS }
    ensures { result ≡ info_of ffa Version.Compact uuid.now (place, party_of endpoint.now) }
{
    let mut info = [0; 8];
    LittleEndian::write_u16(&mut info[..2], EndpointId::at(place).0);
    LittleEndian::write_u16(&mut info[2..4], CONTEXTS);
    LittleEndian::write_u32(&mut info[4..], endpoint.properties.bits() & OF_MESSAGES);
    info
}

// Returns the properties of a partition that a caller of this form sees. On a machine of FF-A 1.2, only a caller of
// FF-A 1.2 sees the properties of second direct messages.
fn properties_told(ffa: Ffa, version: Version, properties: u32) -> u32
    ensures { result ≡ properties_told ffa version properties }
{
    match (ffa, version) {
        (Ffa::V1_2, Version::Compact | Version::V1_1) => properties & OF_FFA_1_1,
        _ => properties,
    }
}

// Returns the information on the partition at a place in the manifest, for a caller that sees these properties and is
// not compact. The information has the partition's UUID if the call names the Nil UUID.
fn full_info(properties: u32, uuid: &[u8; 16], place: usize, endpoint: &Endpoint) -> [u8; 24]
    requires place { place < MOST_ENDPOINTS }
    requires properties { properties < 2 ^ 11 }
    ensures { result ≡ little_bytes 2 (identifier place) ++ little_bytes 2 1
        ++ (little_bytes 4 (properties + 0x100) ++ (if model.is_nil uuid.now then endpoint.now.uuid else replicate 16 0)) }
{
    let mut info = [0; 24];
    LittleEndian::write_u16(&mut info[..2], EndpointId::at(place).0);
    LittleEndian::write_u16(&mut info[2..4], CONTEXTS);
    LittleEndian::write_u32(&mut info[4..8], properties + AARCH64);
    if is_zeros(uuid) {
        info[8..].copy_from_slice(&endpoint.uuid);
    }
    info
}

// Adds the information on the partition at a place in the manifest to the end of `bytes`, for a caller of this version.
fn push_info(
    bytes: &mut ArrayVec<u8, MOST_INFO_BYTES>,
    ffa: Ffa,
    version: Version,
    uuid: &[u8; 16],
    place: usize,
    endpoint: &Endpoint,
)
    requires room { length bytes.old.items + 24 ≤ MOST_INFO_BYTES }
    requires place { place < MOST_ENDPOINTS }
    requires properties { endpoint.now.properties.0 < 2 ^ 11 }
    ensures bytes { bytes.new.items ≡ bytes.old.items ++ info_of ffa version uuid.now (place, party_of endpoint.now) }
    ensures size { length bytes.new.items ≤ length bytes.old.items + 24 }
{
    match version {
        Version::Compact => {
            let info = compact_info(ffa, uuid, place, endpoint);
            bytes.try_extend_from_slice(&info).unwrap();
        }
        Version::V1_1 | Version::V1_2 => {
            let properties = properties_told(ffa, version, endpoint.properties.bits());
            let info = full_info(properties, uuid, place, endpoint);
            bytes.try_extend_from_slice(&info).unwrap();
        }
    }
}

/// Returns the number of bytes of the information on one partition, as FFA_PARTITION_INFO_GET reports it to a caller of
/// this version. Returns 0 for a compact caller, to which the call does not report it.
pub fn told_info_size(version: Version) -> u32
    ensures { result ≡ told_info_size version }
{
    match version {
        Version::Compact => 0,
        Version::V1_1 | Version::V1_2 => 24,
    }
}

/// Returns the descriptors of the partitions that the UUID in four registers selects, in the order of the manifest.
/// Each has 24 bytes, and 8 for a compact caller.
pub fn info_bytes(
    manifest: &Manifest,
    version: Version,
    uuid: [u32; 4],
) -> ArrayVec<u8, MOST_INFO_BYTES>
    ensures { result.items ≡ info_bytes manifest.now.ffa version (map party_of manifest.now.endpoints.items) (uuid_bytes uuid) }
{
    let uuid = uuid_of(uuid);
    let mut bytes = ArrayVec::new();
    for (place, endpoint) in manifest.endpoints.as_slice().iter().enumerate() {
        if is_selected(&uuid, place, endpoint) {
            push_info(&mut bytes, manifest.ffa, version, &uuid, place, endpoint);
        }
    }
    bytes
}
