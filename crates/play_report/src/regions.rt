// SPDX-License-Identifier: MIT OR Apache-2.0
//! The addresses of a machine's regions, and of the RAM that is there for them.
ghost use Rattle.std.specs.Prelude.{◌≡◌, ◌+◌, ◌<◌, ◌≤◌, [], ◌++◌, length, OnOk, flat_map};
ghost use Rattle.arrayvec.specs.ArrayVec.{array_vec_len};
ghost use Rattle.ffa_model.specs.declared.limits.TheConstants.{MOST_ENDPOINTS};
ghost use Rattle.ffa_model.specs.Manifest.{ram_end, tables_end};
ghost use Rattle.ffa_manifest.specs.Document.{parts_of};
ghost use Rattle.play_report.specs.Layouts.{region_line, region_lines, regions_text, span_line, spans_text};

use ffa_model::{EndpointId, Manifest, Region};
use play_trace::text::{self, CAPACITY, Text};
use std::alloc::AllocError;

/// Appends a line for each region of each endpoint. Then it appends a line for the table pages, a line for the pages
/// after them, and a line for RAM. Fails if there is no memory.
pub fn put_regions(text: &mut Vec<u8>, manifest: &Manifest) -> Result<(), AllocError>
    ensures { OnOk result (text.new.items ≡ text.old.items ++ regions_text (parts_of manifest.now)) }
{
    put_region_lines(text, manifest)?;
    let mut lines = Text::new();
    push_spans(&mut lines, manifest);
    text.extend_from_slice(lines.as_slice())
}

fn put_region_lines(text: &mut Vec<u8>, manifest: &Manifest) -> Result<(), AllocError>
    ensures { OnOk result (text.new.items ≡ text.old.items ++ region_lines (parts_of manifest.now)) }
{
    for place in 0..manifest.endpoints.len() {
        put_endpoint(text, place, manifest.endpoints[place].regions.as_slice())?;
    }
    Ok(())
}

fn put_endpoint(text: &mut Vec<u8>, place: usize, regions: &[Region]) -> Result<(), AllocError>
    requires { place < MOST_ENDPOINTS }
    ensures { OnOk result (text.new.items ≡ text.old.items ++ flat_map (region_line place) regions.now) }
{
    for region in regions {
        let mut line = Text::new();
        push_region(&mut line, place, region);
        text.extend_from_slice(line.as_slice())?;
    }
    Ok(())
}

#[tactic(auto, unfolding(crate::specs::Layouts::region_line))]
fn push_region(line: &mut Text, place: usize, region: &Region)
    requires place { place < MOST_ENDPOINTS }
    requires empty { line.old.items ≡ [] }
    ensures { line.new.items ≡ region_line place region.now }
{
    let base = u64::from(region.base);
    let pages = u64::from(region.pages);
    text::push_word(line, b"region");
    text::push_hex(line, 4, u64::from(EndpointId::at(place).0));
    text::push_hex(line, 8, base);
    text::push_hex(line, 8, (base + 4096 * pages).saturating_sub(1));
    text::push_hex(line, 5, pages);
    text::push_right(line, Some(region.rights));
    line.push(b'\n');
}

fn push_spans(lines: &mut Text, manifest: &Manifest)
    requires { lines.old.items ≡ [] }
    ensures { lines.new.items ≡ spans_text (parts_of manifest.now) }
{
    let base = u64::from(manifest.ram_base.0);
    let blocks = u64::from(manifest.ram_blocks);
    let tables = base + 4096 * u64::from(manifest.tables.0);
    let tables_end = tables + 4096 * (manifest.endpoints.len() as u64 * (2 + blocks));
    let ram_end = base + 0x20_0000 * blocks;
    push_span(lines, b"tables", tables, tables_end);
    push_span(lines, b"space", tables_end, ram_end);
    push_span(lines, b"ram", base, ram_end);
}

// Appends a line with the addresses of the first and the last byte of a span. The span ends before the address `end`.
fn push_span(lines: &mut Text, name: &[u8], first: u64, end: u64)
    requires room { array_vec_len lines.old + 32 ≤ CAPACITY }
    requires short { length name.now ≤ 6 }
    ensures items { lines.new.items ≡ lines.old.items ++ span_line name.now first end }
    ensures len { array_vec_len lines.new ≤ array_vec_len lines.old + 32 }
{
    text::push_word(lines, name);
    text::push_hex(lines, 8, first);
    text::push_hex(lines, 8, end.saturating_sub(1));
    lines.push(b'\n');
}
