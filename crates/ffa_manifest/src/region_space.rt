// SPDX-License-Identifier: MIT OR Apache-2.0
//! The space in which the regions of a machine may be.
ghost use Rattle.std.specs.Prelude.{◌≡◌, ◌-◌, ◌*◌, ◌^◌, ◌≤◌};
ghost use Rattle.ffa_model.specs.declared.limits.TheConstants.{MOST_BLOCKS, MOST_ENDPOINTS, MOST_RAM};
ghost use Rattle.ffa_manifest.specs.Document.{is_text_base};
ghost use Rattle.ffa_model.specs.Manifest.{has_tables, is_ram_base, is_ram_size, ram_end, tables_end};

use crate::refusal::Bounds;
use ffa_model::{MOST_BLOCKS, MOST_RAM, Region, Rights};

// The number of bytes of a block of RAM.
const BLOCK: u64 = 0x20_0000;

// The number of bytes that a table of level 2 covers.
const GIB: u32 = 1 << 30;

/// Whether the text of a manifest lets RAM begin at this address. The address must be a multiple of the largest RAM
/// (`MOST_RAM`), but not 0, and the largest RAM must end at 2^32 at most.
pub(crate) fn is_text_base(base: u64) -> bool
    ensures { result ≡ is_text_base base }
{
    base % MOST_RAM == 0 && MOST_RAM <= base && base <= (1 << 32) - MOST_RAM
}

/// Whether RAM may begin at this address, which must be a multiple of 2 MiB, but not 0.
pub(crate) fn is_ram_base(base: u32) -> bool
    ensures { result ≡ is_ram_base base }
{
    base.is_multiple_of(BLOCK as u32) && base != 0
}

/// Whether RAM may have this number of blocks from an address on: 1 to `MOST_BLOCKS`, so that RAM ends at 2^32 at most,
/// and is in one GiB.
pub(crate) fn is_ram_size(base: u32, blocks: u32) -> bool
    ensures { result ≡ is_ram_size base blocks }
{
    let size = BLOCK * u64::from(blocks);
    1 <= blocks && blocks <= MOST_BLOCKS && u64::from(base % GIB) + size <= u64::from(GIB)
}

/// Whether RAM of this number of blocks has the tables of this number of endpoints from page `tables` on.
pub(crate) fn has_tables(tables: u32, blocks: u32, endpoints: usize) -> bool
    requires blocks { blocks ≤ MOST_BLOCKS }
    requires few { endpoints ≤ MOST_ENDPOINTS }
    ensures { result ≡ has_tables tables blocks endpoints }
{
    u64::from(tables) + endpoints as u64 * u64::from(2 + blocks) <= 512 * u64::from(blocks)
}

/// The RAM of a machine, in which some pages hold the tables of its endpoints.
#[derive(Clone, Copy)]
pub(crate) struct RegionSpace {
    /// The address of RAM's first byte.
    pub base: u32,
    /// The first page of the tables.
    pub tables: u32,
    /// The size of RAM, in blocks of 2 MiB.
    pub blocks: u32,
    /// The number of endpoints that have tables.
    pub endpoints: u32,
    ghost within: { ram_end base blocks ≤ 2 ^ 32 },
    ghost small: { blocks ≤ MOST_BLOCKS },
    ghost few: { endpoints ≤ MOST_ENDPOINTS },
    ghost near: { tables ≤ 512 * MOST_BLOCKS },
}

impl RegionSpace {
    ghost use Rattle.ffa_manifest.specs.RegionSpace.{is_clear, placed};

    /// Returns the bounds of regions, if the tables begin RAM: after the tables, and in RAM.
    pub(crate) fn bounds(&self) -> Bounds
        ensures first { result.first ≡ tables_end self.now.base self.now.tables self.now.blocks self.now.endpoints }
        ensures end { result.end ≡ ram_end self.now.base self.now.blocks }
    {
        let base = u64::from(self.base);
        Bounds {
            first: base + 4096 * u64::from(self.tables + self.endpoints * (2 + self.blocks)),
            end: base + BLOCK * u64::from(self.blocks),
        }
    }

    // Whether all bytes from one address up to another are in RAM, and outside the tables.
    fn has(&self, base: u64, region_end: u128) -> bool
        ensures { result ≡ is_clear self.now base region_end }
    {
        let Bounds { first, end } = self.bounds();
        let ram = u64::from(self.base);
        let tables = ram + 4096 * u64::from(self.tables);
        ram <= base
            && region_end <= u128::from(end)
            && (region_end <= u128::from(tables) || first <= base)
    }

    /// Returns the region of these numbers, if it is of whole pages, at least one, that are all in RAM and outside the
    /// tables. Returns `None` otherwise.
    pub(crate) fn region(&self, base: u64, pages: u64, rights: Rights) -> Option<Region>
        ensures { result ≡ placed self.now (record { base = base; pages = pages; rights = rights }) }
    {
        let region_end = u128::from(base) + 4096 * u128::from(pages);
        if base % 4096 == 0 && 1 <= pages && self.has(base, region_end) {
            let (base, pages) = (base as u32, pages as u32);
            Some(Region {
                base,
                pages,
                rights,
            })
        } else {
            None
        }
    }
}
