// SPDX-License-Identifier: MIT OR Apache-2.0
//! The report of changed access, for C.
ghost use Rattle.std.specs.Prelude.{◌≡◌, true, false, is_some, IfSome};
ghost use Rattle.std.specs.Option.{option_map};
ghost use Rattle.ffa_c.specs.Changes.{Says, StandIn, no_range, range_told, somebodys, told_by, with_all_told};

use crate::machine::CMachine;
use ffa_memshare::{Changed, PageRanges};
use ffa_model::{MOST_RANGES, Range};

/// Adjacent pages, as C sees them.
#[repr(C)]
#[derive(Clone, Copy)]
pub struct CRange {
    /// The address of the first byte of the pages.
    pub address: u64,
    /// The size of all pages, in bytes.
    pub size: u64,
}

impl CRange {
    fn none() -> CRange
        ensures { result ≡ no_range }
    {
        CRange {
            address: 0,
            size: 0,
        }
    }

    fn of(range: &Range) -> CRange
        ensures { result ≡ range_told range.now }
    {
        CRange {
            address: range.address,
            size: 4096 * u64::from(range.pages),
        }
    }
}

/// A report of changed access, as C sees it: whose access, and to which pages.
#[repr(C)]
#[derive(Clone, Copy)]
pub struct CChange {
    /// The identifier of the endpoint whose access has changed.
    pub endpoint: u32,
    /// The number of `ranges`, from the first on. The places after them are zeros.
    pub range_count: u32,
    /// The pages to which the access has changed.
    pub ranges: [CRange; MOST_RANGES],
}

/// Reports once whose access the last successful call on memory has changed, and to which pages. Returns true, and
/// writes the report to `change`. Returns false if there is nothing to report, or if nobody's access has changed. Then
/// `change` stays as it was. In both cases, the machine has no report left, and all else of it stays as it was.
#[unsafe(no_mangle)]
pub extern "C" fn gorseplumb_take_change(machine: &mut CMachine, change: &mut CChange) -> bool
    ensures rest { machine.new.held.value ≡ option_map with_all_told machine.old.held.value }
    ensures there { result ≡ is_some (somebodys (told_by machine.old.held.value)) }
    ensures told { IfSome (somebodys (told_by machine.old.held.value)) (λ its. Says change.new its.0 its.1) }
    ensures kept { result ≡ false → change.new ≡ change.old }
{
    if machine.live {
        let changed = machine.held.seat_mut().take_change();
        tell(&changed, change)
    } else {
        false
    }
}

// Writes a report for C, if it has an endpoint.
fn tell(changed: &Option<Changed>, change: &mut CChange) -> bool
    ensures there { result ≡ is_some (somebodys changed.now) }
    ensures told { IfSome (somebodys changed.now) (λ its. Says change.new its.0 its.1) }
    ensures kept { result ≡ false → change.new ≡ change.old }
{
    if let Some(changed) = changed
        && let Some(endpoint) = changed.endpoint
    {
        change.endpoint = u32::from(endpoint.0);
        change.range_count = changed.ranges.len() as u32;
        change.ranges = list_ranges(&changed.ranges);
        true
    } else {
        false
    }
}

// The ranges from an array's front on, and empty places after them.
fn list_ranges(ranges: &PageRanges) -> [CRange; MOST_RANGES]
    ensures { StandIn result ranges.now }
{
    let mut places = [CRange::none(); MOST_RANGES];
    for place in 0..ranges.len() {
        places[place] = CRange::of(&ranges.at(place));
    }
    places
}
