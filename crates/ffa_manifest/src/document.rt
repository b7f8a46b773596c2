// SPDX-License-Identifier: MIT OR Apache-2.0
//! The top table of a manifest. `of_parts` repeats its tests for parts without a text, and the file of `of_parts` says
//! why.
ghost use Rattle.std.specs.Prelude.{◌≤◌, ◌-◌, ◌^◌, IfOk, length};
ghost use Rattle.ffa_model.specs.declared.limits.TheConstants.{MOST_BLOCKS, MOST_RAM};
ghost use Rattle.toml.specs.View.{table_view, items_view};
ghost use Rattle.ffa_manifest.specs.Reading.{Exact};
ghost use Rattle.ffa_manifest.specs.Document.{top_keys as top_keys_in, ram_base_at as ram_base_in, ram_blocks_at as ram_blocks_in, machine as machine_in, parts_of};
ghost use Rattle.ffa_manifest.specs.Endpoints.{endpoint_items as endpoint_items_in};

use crate::endpoints::endpoints_from;
use crate::error::ManifestError;
use crate::keys::{integer_at, items_at, only_keys};
use crate::region_space::{RegionSpace, is_text_base};
use ffa_model::{Address, Ffa, MOST_BLOCKS, MOST_ENDPOINTS, Manifest, PageNo};
use toml::{Table, Value};

/// The keys of the top table.
pub(crate) const TOP_KEYS: [&str; 3] = ["ram_base", "ram_blocks", "endpoint"];

#[tactic(auto, unfolding(crate::specs::Document::top_keys))]
pub(crate) fn top_keys(table: &Table) -> Result<(), ManifestError>
    ensures { Exact (λ u. u) result (top_keys_in (table_view table.now)) }
{
    only_keys(table, &TOP_KEYS)
}

#[tactic(auto, unfolding(crate::specs::Document::ram_base_at))]
pub(crate) fn ram_base_at(table: &Table) -> Result<u32, ManifestError>
    ensures number { Exact (λ n. n) result (ram_base_in (table_view table.now)) }
    ensures highest { IfOk result (λ n. n ≤ 2 ^ 32 - MOST_RAM) }
{
    match integer_at(table, "ram_base")? {
        Some(n) if is_text_base(n) => Ok(n as u32),
        _ => Err(ManifestError::RamBase),
    }
}

#[tactic(auto, unfolding(crate::specs::Document::ram_blocks_at))]
pub(crate) fn ram_blocks_at(table: &Table) -> Result<u32, ManifestError>
    ensures number { Exact (λ n. n) result (ram_blocks_in (table_view table.now)) }
    ensures most { IfOk result (λ n. n ≤ MOST_BLOCKS) }
{
    match integer_at(table, "ram_blocks")? {
        Some(n) if 1 <= n && n <= u64::from(MOST_BLOCKS) => Ok(n as u32),
        _ => Err(ManifestError::RamBlocks),
    }
}

#[tactic(auto, unfolding(crate::specs::Endpoints::endpoint_items))]
pub(crate) fn endpoint_items(table: &Table) -> Result<&[Value], ManifestError>
    ensures items { Exact (λ vs. items_view vs.now) result (endpoint_items_in (table_view table.now)) }
    ensures few { IfOk result (λ vs. length vs.now ≤ MOST_ENDPOINTS) }
{
    items_at(
        table,
        "endpoint",
        MOST_ENDPOINTS,
        ManifestError::EndpointCount,
    )
}

/// Reads the manifest that the top table of a text describes, for a machine of this version of FF-A. Returns the first
/// cause if it rejects the table.
#[tactic(auto, using(crate::proofs::Views::item_count_view), unfolding(crate::specs::Document::machine))]
pub(crate) fn machine(table: &Table, ffa: Ffa) -> Result<Manifest, ManifestError>
    ensures { Exact parts_of result (machine_in ffa (table_view table.now)) }
{
    top_keys(table)?;
    let ram_base = ram_base_at(table)?;
    let ram_blocks = ram_blocks_at(table)?;
    let values = endpoint_items(table)?;
    let space = RegionSpace {
        base: ram_base,
        tables: 0,
        blocks: ram_blocks,
        endpoints: values.len() as u32,
    };
    let endpoints = endpoints_from(values, ffa, &space)?;
    let manifest = Manifest::of(Address(ram_base), ram_blocks, PageNo(0), endpoints);
    Ok(manifest.with_ffa(ffa))
}
