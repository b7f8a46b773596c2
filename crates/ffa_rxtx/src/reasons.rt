// SPDX-License-Identifier: MIT OR Apache-2.0
//! Explains why a call on buffers was refused, by the first page that cannot be in a buffer. Only diagnostics use this.
//! It does no call and changes nothing, so an auditor of the core can skip it.
ghost use Rattle.std.specs.Prelude.{◌≡◌, ◌+◌, ◌≤◌, length};
ghost use Rattle.ffa_model.specs.About.{failing_map, first_failing, unusable_from};
ghost use Rattle.ffa_model.specs.Buffers.{is_usable};
ghost use Rattle.ffa_model.specs.Lists.{run};
ghost use Rattle.ffa_rxtx.specs.Parts.{ownership_in};

use crate::checks::{is_usable, run_at};
use ffa_model::{Address, EndpointId, PageNo, Refusal, Room};
use ffa_pages::{KeptPage, PageTable};

/// Returns the page that a failed check of FFA_RXTX_MAP of an endpoint is about. It is the first page of TX, or of RX,
/// that cannot be in one of the endpoint's buffers.
pub fn failing_map<P: Room<KeptPage> + Drop>(
    table: &PageTable<P>,
    ram_base: Address,
    caller: EndpointId,
    tx: u64,
    rx: u64,
    pages: u32,
    refusal: Refusal,
) -> Option<PageNo>
    ensures { result ≡ failing_map caller.0 (ownership_in table.now ram_base.0) tx rx pages refusal }
{
    match refusal {
        Refusal::TxUnusable => unusable_from(table, ram_base, caller, tx, pages),
        Refusal::RxUnusable => unusable_from(table, ram_base, caller, rx, pages),
        _ => None,
    }
}

// Returns the first of this number of pages, from an address on, that cannot be in a buffer of an endpoint. Returns
// `None` if not all these pages are in RAM.
fn unusable_from<P: Room<KeptPage> + Drop>(
    table: &PageTable<P>,
    ram_base: Address,
    endpoint: EndpointId,
    address: u64,
    pages: u32,
) -> Option<PageNo>
    ensures { result ≡ unusable_from endpoint.0 (ownership_in table.now ram_base.0) pages address }
{
    match run_at(table, ram_base, address, pages) {
        Some(first) => first_unusable(table, endpoint, first, pages),
        None => None,
    }
}

// Returns the first of this number of pages that an endpoint does not own, that is in an open transaction, or to which
// the owner's right is not rw.
fn first_unusable<P: Room<KeptPage> + Drop>(
    table: &PageTable<P>,
    endpoint: EndpointId,
    first: PageNo,
    pages: u32,
) -> Option<PageNo>
    requires { first.0 + pages ≤ length table.now }
    ensures { result ≡ first_failing (λ p. is_usable endpoint.0 (ownership_in table.now 0) p) (run first.0 pages) }
{
    // Proof step: the number of pages fits a u32.
    let _ = table.pages();
    for i in 0..pages {
        let page = PageNo(first.0 + i);
        if !is_usable(table, endpoint, page) {
            return Some(page);
        }
    }
    None
}
