// SPDX-License-Identifier: MIT OR Apache-2.0
//! The causes for which a manifest is rejected.

use thiserror::Error;

/// The cause for which a manifest is rejected: the first that applies, in the order in which the text is read, or would
/// be read.
#[derive(Clone, Copy, Debug, PartialEq, Eq, Error)]
pub enum ManifestError {
    /// The allocator refused memory.
    #[error("M1 NoMemory")]
    NoMemory,
    /// The text is not a TOML document.
    #[error("M2 Toml")]
    Toml,
    /// A table has a key that is not one of its own.
    #[error("M3 UnknownKey")]
    UnknownKey,
    /// A table lacks one of its keys.
    #[error("M4 MissingKey")]
    MissingKey,
    /// A value has another kind than its key needs, or `rights` is not one of `ro`, `rw`, `rox` and `rwx`.
    #[error("M5 WrongKind")]
    WrongKind,
    /// `ram_base` is 0 or not a multiple of 2 MiB. In a text, it is not a multiple of `MOST_RAM`, or it leaves no room
    /// for `MOST_RAM` bytes below 4 GiB.
    #[error("M6 RamBase")]
    RamBase,
    /// `ram_blocks` is not 1 to `MOST_BLOCKS`, or this number of blocks is not in one GiB below 4 GiB.
    #[error("M7 RamBlocks")]
    RamBlocks,
    /// There is no endpoint, or there are more than `MOST_ENDPOINTS`.
    #[error("M8 EndpointCount")]
    EndpointCount,
    /// A UUID cannot be read, or it is the Nil UUID, or parts give the normal world a UUID other than the Nil UUID.
    #[error("M9 Uuid")]
    Uuid,
    /// `properties` has a bit that the endpoint may not have. Allowed are bits 0 to 3, and for a partition of FF-A 1.2
    /// also bits 9 and 10. The normal world may not receive direct requests or notifications.
    #[error("M10 Property")]
    Property,
    /// An endpoint has no region, or more than `MOST_REGIONS`.
    #[error("M11 RegionCount")]
    RegionCount,
    /// A region is not of whole pages, at least one, that are all in RAM and outside the tables.
    #[error("M12 RegionOutside")]
    RegionOutside,
    /// A region has a page of a region that was read before.
    #[error("M13 RegionOverlap")]
    RegionOverlap,
    /// `version` is not `1.1` or `compact`, and also not `1.2` for a machine of FF-A 1.2.
    #[error("M14 Version")]
    Version,
    /// RAM does not have all tables from the given page on. No text gives such a page, because its tables begin at the
    /// start of RAM. The numbers between M14 and M25 are other answers of the library for C.
    #[error("M25 TablesOutside")]
    TablesOutside,
}
