// SPDX-License-Identifier: MIT OR Apache-2.0
//! The checks of the calls on buffers. Each function returns the first check that fails.
ghost use Rattle.std.specs.Prelude.{◌≡◌, ◌+◌, ◌<◌, ◌≤◌, length, is_some, IfOk, IfSome};
ghost use Rattle.std.specs.List.{list_all};
ghost use Rattle.std.specs.Result.{result_err};
ghost use Rattle.ffa_model.specs.Buffers.{are_runs_apart, buffers_in, is_run_address, is_usable, map_guards, new_buffers, page_number, release_guards, unmap_guards};
ghost use Rattle.ffa_model.specs.Calls.{first_refusal};
ghost use Rattle.ffa_model.specs.Lists.{run};
ghost use Rattle.ffa_rxtx.specs.Parts.{ownership_in};
ghost use Rattle.ffa_rxtx.specs.Stored.{buffers_of};

use crate::buffers::{Buffers, Mapped};
use ffa_model::{Address, Data, EndpointId, MOST_BUFFER_PAGES, PageNo, Refusal, Room};
use ffa_pages::{KeptPage, PageTable};

impl Buffers {
    /// Makes the checks of FFA_RXTX_MAP of an endpoint. Returns the buffers that the call maps. Nothing changes.
    ///
    /// # Errors
    ///
    /// The first check of the call that fails.
    pub fn check_map<P: Room<KeptPage> + Drop>(
        &self,
        table: &PageTable<P>,
        ram_base: Address,
        caller: EndpointId,
        tx: u64,
        rx: u64,
        pages: u32,
    ) -> Result<Mapped, Refusal>
        ensures refusal { let own = buffers_in self.now caller.0 in let ram = ownership_in table.now ram_base.0 in
            result_err result ≡ first_refusal (map_guards caller.0 own ram tx rx pages) }
        ensures buffers { IfOk result (λ mapped. buffers_of mapped ≡ new_buffers ram_base.0 tx rx pages) }
    {
        if self.has(caller) {
            return Err(Refusal::BuffersMapped);
        }
        if pages < 1 || pages > MOST_BUFFER_PAGES {
            return Err(Refusal::BufferPageCount);
        }
        let tx_page = run_at(table, ram_base, tx, pages).ok_or(Refusal::TxMisplaced)?;
        let rx_page = run_at(table, ram_base, rx, pages).ok_or(Refusal::RxMisplaced)?;
        if !are_apart(tx_page, rx_page, pages) {
            return Err(Refusal::BuffersOverlap);
        }
        if !are_usable(table, caller, tx_page, pages) {
            return Err(Refusal::TxUnusable);
        }
        if !are_usable(table, caller, rx_page, pages) {
            return Err(Refusal::RxUnusable);
        }
        Ok(Mapped {
            tx: tx_page,
            rx: rx_page,
            pages,
            is_full: false,
        })
    }

    /// Makes the checks of FFA_RXTX_UNMAP of an endpoint, with this word in w1. Nothing changes.
    ///
    /// # Errors
    ///
    /// The first check of the call that fails.
    pub fn check_unmap(&self, caller: EndpointId, endpoint_word: u32) -> Result<(), Refusal>
        ensures refusal { let own = buffers_in self.now caller.0 in
            result_err result ≡ first_refusal (unmap_guards own endpoint_word) }
    {
        if endpoint_word != 0 {
            return Err(Refusal::EndpointNotZero);
        }
        if !self.has(caller) {
            return Err(Refusal::BuffersMissing);
        }
        Ok(())
    }

    /// Makes the check of FFA_RX_RELEASE of an endpoint. Nothing changes.
    ///
    /// # Errors
    ///
    /// The check of the call, if it fails.
    pub fn check_release(&self, caller: EndpointId) -> Result<(), Refusal>
        ensures refusal { result_err result ≡ first_refusal (release_guards (buffers_in self.now caller.0)) }
    {
        if !self.is_full(caller) {
            return Err(Refusal::RxEmpty);
        }
        Ok(())
    }
}

// Whether two runs of this number of pages have no page in common.
fn are_apart(first: PageNo, other: PageNo, pages: u32) -> bool
    ensures { result ≡ are_runs_apart pages first.0 other.0 }
{
    let first = u64::from(first.0);
    let other = u64::from(other.0);
    let pages = u64::from(pages);
    first + pages <= other || other + pages <= first
}

// Returns the first of this number of pages from an address on. Returns `None` if the address is not the start of a
// page, or if not all the pages are in RAM.
pub(crate) fn run_at<P: Room<KeptPage> + Drop>(
    table: &PageTable<P>,
    ram_base: Address,
    address: u64,
    pages: u32,
) -> Option<PageNo>
    ensures found { is_some result ≡ is_run_address (ownership_in table.now ram_base.0) pages address }
    ensures page { IfSome result (λ page. page.0 ≡ page_number ram_base.0 address) }
    ensures within { IfSome result (λ page. page.0 + pages ≤ length table.now) }
{
    let base = u64::from(ram_base.0);
    if address % 4096 != 0 || address < base {
        return None;
    }
    let page = (address - base) / 4096;
    if page + u64::from(pages) > u64::from(table.pages()) {
        return None;
    }
    Some(PageNo(page as u32))
}

// Whether an endpoint owns each of this number of pages, no page is in an open transaction, and its own right to each
// is rw.
fn are_usable<P: Room<KeptPage> + Drop>(
    table: &PageTable<P>,
    endpoint: EndpointId,
    first: PageNo,
    pages: u32,
) -> bool
    requires { first.0 + pages ≤ length table.now }
    ensures { result ≡ list_all (λ p. is_usable endpoint.0 (ownership_in table.now 0) p) (run first.0 pages) }
{
    // Proof step: the number of pages fits a u32.
    let _ = table.pages();
    for i in 0..pages {
        if !is_usable(table, endpoint, PageNo(first.0 + i)) {
            return false;
        }
    }
    true
}

// Whether an endpoint owns a page, the page is in no open transaction, and its own right to it is rw.
pub(crate) fn is_usable<P: Room<KeptPage> + Drop>(
    table: &PageTable<P>,
    endpoint: EndpointId,
    page: PageNo,
) -> bool
    requires { page.0 < length table.now }
    ensures { result ≡ is_usable endpoint.0 (ownership_in table.now 0) page.0 }
{
    let is_alone = table.owner_of(page) == endpoint && table.slot_of(page).is_none();
    match table.own_right_of(page) {
        Some(own_right) => is_alone && own_right.level == Data::Rw,
        None => false,
    }
}
