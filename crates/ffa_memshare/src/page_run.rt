// SPDX-License-Identifier: MIT OR Apache-2.0
//! Bytes in consecutive pages of RAM.
ghost use Rattle.std.specs.Prelude.{◌≡◌, ℕ, ◌+◌, ◌*◌, ◌≤◌, length, OnOk, IfErr, IfOk, IfSome};
ghost use Rattle.std.specs.Option.{option_map};
ghost use Rattle.std.specs.Result.{result_err, result_ok};
ghost use Rattle.ffa_model.specs.DescriptorPlaces.{IsHeader, in_version};
ghost use Rattle.ffa_model.specs.RelinquishDescriptor.{relinquish_of};
ghost use Rattle.ffa_model.specs.RetrieveDescriptor.{Retrieve, are_receivers, endpoints_named, retrieve_of};
ghost use Rattle.ffa_model.specs.FirstFlaws.{relinquish_flaw, retrieve_flaw, send_flaw};
ghost use Rattle.ffa_model.specs.Flaws.{SendBreaks, RetrieveBreaks, RelinquishBreaks};
ghost use Rattle.ffa_model.specs.SendDescriptor.{Send, send_of, send_record};

use ffa_memdesc::{Bytes, Flaw};
use ffa_model::{
    EndpointId, Ffa, Kind, PageNo, Receiver, RelinquishDesc, RetrieveDesc, SendDesc, Version,
};
use ffa_physmem::{PAGE_SIZE, PhysMem};
use std::marker::Model;

/// The first bytes of consecutive pages, which readers read in RAM. Contracts see the bytes.
#[derive(Drop)]
pub(crate) struct PageRun<'m, M: PhysMem> {
    ram: &'m M,
    first: PageNo,
    pages: u32,
    len: usize,
}

impl<'m, M: PhysMem> Model for PageRun<'m, M> {
    ghost use Rattle.std.specs.Prelude.{ℕ, List};
    ghost use Rattle.ffa_memshare.specs.PageRuns.{IsPageRun, run_front};

    ghost Value = { List ℕ };

    ghost view = { λ r. run_front (M.ram r.ram.now) r.first.0 r.pages r.len };

    ghost invariant = { λ r. IsPageRun (M.ram r.ram.now) r.first.0 r.pages r.len };
}

impl<'m, M: PhysMem> PageRun<'m, M> {
    ghost use Rattle.ffa_rxtx.specs.Parts.{run_in};
    ghost use Rattle.ffa_memshare.specs.PageRuns.{run_front};

    /// Returns the first `len` bytes of `pages` pages, from the page `first` on.
    pub(crate) fn new(ram: &'m M, first: PageNo, pages: u32, len: usize) -> PageRun<'m, M>
        requires inside { first.0 + pages ≤ length (M.ram ram.now).pages }
        requires fits { len ≤ 4096 * pages }
        ensures bytes { result ≡ run_front (M.ram ram.now) first.0 pages len }
        ensures whole { length (run_in (M.ram ram.now) first.0 pages) ≡ 4096 * pages }
    {
        // Proof step: the number of pages fits in 32 bits.
        let _ = ram.pages();
        for i in 0..pages {
            // Proof step: each page has `PAGE_SIZE` bytes.
            let _ = ram.page(PageNo(first.0 + i));
        }
        PageRun {
            ram,
            first,
            pages,
            len,
        }
    }

    /// Returns the bytes as one slice, if they are in one page.
    pub(crate) fn in_one_page(&self) -> Option<&'m [u8]>
        ensures { IfSome result (λ bytes. bytes.now ≡ self.now) }
    {
        if self.pages >= 1 && self.len <= PAGE_SIZE {
            Some(&self.ram.page(self.first)[..self.len])
        } else {
            None
        }
    }
}

impl<'m, M: PhysMem> Bytes for PageRun<'m, M> {
    ghost bytes = { λ r. r };

    fn len(&self) -> usize {
        self.len
    }

    fn at(&self, place: usize) -> u8 {
        let page = self.first.0 + (place / PAGE_SIZE) as u32;
        self.ram.page(PageNo(page))[place % PAGE_SIZE]
    }
}

/// Reads a send descriptor of this kind into an offer, if the bytes are one. The machine has this FF-A, and the caller
/// has this version. Bytes in one page are read as a slice. An error is the first condition that the bytes break.
#[inline(always)]
pub(crate) fn read_send<M: PhysMem>(
    bytes: &PageRun<M>,
    ffa: Ffa,
    version: Version,
    kind: Kind,
    offer: &mut SendDesc,
) -> Result<(), Flaw>
    ensures found { OnOk result (Send ffa kind (in_version version bytes.now) (send_record offer.new)) }
    ensures computed { let offered = option_map (λ _. send_record offer.new) (result_ok result) in
        offered ≡ send_of ffa kind (in_version version bytes.now) }
    ensures broken { IfErr result (SendBreaks ffa kind (in_version version bytes.now)) }
    ensures first { result_err result ≡ send_flaw ffa kind (in_version version bytes.now) }
{
    match bytes.in_one_page() {
        Some(page) => ffa_memdesc::read_send(&page, ffa, version, kind, offer),
        None => ffa_memdesc::read_send(bytes, ffa, version, kind, offer),
    }
}

/// Returns the contents of a retrieve descriptor for this endpoint, if the bytes are one. The machine has this FF-A,
/// and the endpoint has this version. An error is the first condition that the bytes break.
#[inline(always)]
pub(crate) fn read_retrieve<M: PhysMem>(
    bytes: &PageRun<M>,
    ffa: Ffa,
    version: Version,
    endpoint: EndpointId,
) -> Result<RetrieveDesc, Flaw>
    ensures found { IfOk result (λ d. Retrieve ffa endpoint.0 (in_version version bytes.now) d) }
    ensures computed { result_ok result ≡ retrieve_of ffa endpoint.0 (in_version version bytes.now) }
    ensures broken { IfErr result (RetrieveBreaks ffa endpoint.0 (in_version version bytes.now)) }
    ensures first { result_err result ≡ retrieve_flaw ffa endpoint.0 (in_version version bytes.now) }
{
    match bytes.in_one_page() {
        Some(page) => ffa_memdesc::read_retrieve(&page, ffa, version, endpoint),
        None => ffa_memdesc::read_retrieve(bytes, ffa, version, endpoint),
    }
}

/// Whether a retrieve descriptor has one access descriptor, or names exactly these receivers.
pub(crate) fn names_receivers<M: PhysMem>(
    bytes: &PageRun<M>,
    version: Version,
    receivers: &[Receiver],
) -> bool
    requires { IsHeader (in_version version bytes.now) }
    ensures { result ≡ are_receivers (endpoints_named (in_version version bytes.now)) receivers.now }
{
    match bytes.in_one_page() {
        Some(page) => ffa_memdesc::names_receivers(&page, version, receivers),
        None => ffa_memdesc::names_receivers(bytes, version, receivers),
    }
}

/// Returns the contents of a relinquish descriptor of one endpoint, if the bytes are one. An error is the first
/// condition that the bytes break.
#[inline(always)]
pub(crate) fn read_relinquish<M: PhysMem>(bytes: &PageRun<M>) -> Result<RelinquishDesc, Flaw>
    ensures computed { result_ok result ≡ relinquish_of bytes.now }
    ensures broken { IfErr result (RelinquishBreaks bytes.now) }
    ensures first { result_err result ≡ relinquish_flaw bytes.now }
{
    match bytes.in_one_page() {
        Some(page) => ffa_memdesc::read_relinquish(&page),
        None => ffa_memdesc::read_relinquish(bytes),
    }
}
