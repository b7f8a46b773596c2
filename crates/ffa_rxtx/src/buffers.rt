// SPDX-License-Identifier: MIT OR Apache-2.0
//! The buffers that endpoints have mapped.
ghost use Rattle.std.specs.Prelude.{◌≡◌, ℕ, ◌*◌, ◌<◌, ◌≤◌, ◌↔◌, IsTrue, IsSomeAnd, length, replicate, is_some, true, false, None, option_map};
ghost use Rattle.ffa_model.specs.declared.limits.TheConstants.{MOST_ENDPOINTS};
ghost use Rattle.ffa_model.specs.Buffers.{buffers_in, buffers_with, buffers_with_rx, is_full};
ghost use Rattle.ffa_model.specs.Identifiers.{place};
ghost use Rattle.ffa_model.specs.Lists.{is_in_run};
ghost use Rattle.ffa_model.specs.MemorySend.{is_buffer};
ghost use Rattle.ffa_model.specs.State.{is_known_among};
ghost use Rattle.ffa_physmem.specs.Moments.{Only};
ghost use Rattle.ffa_physmem.specs.Work.{AddsAtMost, loans_of};
ghost use Rattle.ffa_rxtx.specs.Parts.{IsInRam, IsRxWriting, have_page, with_rx_bytes};
ghost use Rattle.ffa_rxtx.specs.Stored.{buffers_of};

use arrayvec::ArrayVec;
use ffa_model::{EndpointId, MOST_ENDPOINTS, PageNo};
use ffa_physmem::{PAGE_SIZE, PhysMem, put_front};
use std::marker::Model;

/// The buffers of one endpoint. Each is pages in a row, and both have the same number of pages.
#[derive(Clone, Copy, PartialEq, Eq)]
pub struct Mapped {
    /// The first page of TX, which the endpoint writes and the manager reads.
    pub tx: PageNo,
    /// The first page of RX, which the manager writes and the endpoint reads.
    pub rx: PageNo,
    /// The number of pages of each buffer.
    pub pages: u32,
    /// Whether RX holds bytes that the endpoint has not released.
    pub is_full: bool,
}

impl Mapped {
    /// Returns the number of bytes of each buffer.
    pub fn room(&self) -> usize
        ensures { result ≡ 4096 * self.now.pages }
    {
        PAGE_SIZE * self.pages as usize
    }
}

/// The buffers of each endpoint, if it has mapped any (DEN0077A, 7.2). The value has no memory besides itself.
#[derive(Drop)]
pub struct Buffers {
    entries: ArrayVec<Option<Mapped>, MOST_ENDPOINTS>,
}

impl Model for Buffers {
    ghost use Rattle.std.specs.Prelude.{List, Option};
    ghost use Rattle.ffa_model.specs.State.{Buffers as Own};

    ghost Value = { List (Option Own) };

    ghost use Rattle.ffa_rxtx.specs.Stored.{list_of};

    ghost view = { λ b. list_of b.entries.items };
}

impl Buffers {
    /// Returns a value in which this number of endpoints have no buffers.
    pub fn none(endpoints: usize) -> Buffers
        requires { endpoints ≤ MOST_ENDPOINTS }
        ensures { result ≡ replicate endpoints None }
    {
        let mut entries = ArrayVec::new();
        for _place in 0..endpoints {
            entries.push(None);
        }
        Buffers { entries }
    }

    /// Returns a copy of these buffers. It allocates no memory.
    pub fn copy(&self) -> Buffers
        ensures { result ≡ self.now }
    {
        let mut entries = ArrayVec::new();
        for entry in self.entries.as_slice() {
            entries.push(*entry);
        }
        Buffers { entries }
    }

    /// Returns the buffers of an endpoint, if it has mapped any. An identifier that names no endpoint is read at its
    /// place, so each identifier up to 0x8000 has the normal world's buffers.
    pub fn of(&self, endpoint: EndpointId) -> Option<Mapped>
        ensures { option_map buffers_of result ≡ buffers_in self.now endpoint.0 }
    {
        let entries = self.entries.as_slice();
        if endpoint.place() < entries.len() {
            entries[endpoint.place()]
        } else {
            None
        }
    }

    /// Whether an endpoint has buffers.
    pub fn has(&self, endpoint: EndpointId) -> bool
        ensures { result ≡ is_some (buffers_in self.now endpoint.0) }
    {
        self.of(endpoint).is_some()
    }

    /// Whether RX of an endpoint is full. It is false for an endpoint without buffers.
    pub fn is_full(&self, endpoint: EndpointId) -> bool
        ensures { result ≡ is_full (buffers_in self.now endpoint.0) }
    {
        match self.of(endpoint) {
            Some(mapped) => mapped.is_full,
            None => false,
        }
    }

    /// Whether a page from `first` on, and before `end`, is in a buffer of any endpoint.
    pub fn is_any_buffer(&self, first: PageNo, end: u32) -> bool
        ensures { IsTrue result ↔ (p : ℕ) × (first.0 ≤ p) × (p < end) × (is_buffer self.now p ≡ true) }
    {
        self.entries
            .as_slice()
            .iter()
            .any(|entry| is_any_in(*entry, first, end))
    }

    /// Writes at most a page of bytes to the start of RX of an endpoint that has buffers, and marks RX as full. The
    /// other bytes of RX stay.
    pub fn fill<M: PhysMem>(&mut self, ram: &mut M, endpoint: EndpointId, bytes: &[u8])
        requires known { is_known_among (length self.old) endpoint.0 ≡ true }
        requires rx { IsSomeAnd (buffers_in self.old endpoint.0) (λ b. IsInRam (length (M.ram ram.old).pages) b) }
        requires bytes { length bytes.now ≤ 4096 }
        ensures ram { M.ram ram.new ≡ with_rx_bytes (M.ram ram.old) (buffers_in self.old endpoint.0) bytes.now }
        ensures full { self.new ≡ buffers_with_rx self.old endpoint.0 true }
        ensures steps { let own = buffers_in self.old endpoint.0 in
            Only (M.past ram.old) (M.past ram.new) (λ _ s. IsRxWriting (M.ram ram.old) own s) }
        ensures few { AddsAtMost (M.past ram.old) (M.past ram.new) (loans_of 1) }
    {
        if let Some(mapped) = self.of(endpoint) {
            put_front(ram.page_mut(mapped.rx), bytes);
            self.mark_full(endpoint);
        }
    }

    /// Marks RX of an endpoint as full, if the endpoint has buffers. Call it after you have written the bytes to RX.
    pub fn mark_full(&mut self, endpoint: EndpointId)
        requires { is_known_among (length self.old) endpoint.0 ≡ true }
        ensures { self.new ≡ buffers_with_rx self.old endpoint.0 true }
    {
        self.set_full(endpoint, true);
    }

    /// Marks RX of an endpoint as empty, if the endpoint has buffers. Its bytes stay.
    pub fn empty(&mut self, endpoint: EndpointId)
        requires { is_known_among (length self.old) endpoint.0 ≡ true }
        ensures { self.new ≡ buffers_with_rx self.old endpoint.0 false }
    {
        self.set_full(endpoint, false);
    }

    // Marks RX of an endpoint as full or empty, if the endpoint has buffers.
    fn set_full(&mut self, endpoint: EndpointId, is_full: bool)
        ensures { self.new ≡ buffers_with_rx self.old endpoint.0 is_full }
    {
        if let Some(mapped) = self.of(endpoint) {
            self.put(endpoint, Some(Mapped { is_full, ..mapped }));
        }
    }

    // Replaces the buffers of an endpoint.
    pub(crate) fn put(&mut self, endpoint: EndpointId, buffers: Option<Mapped>)
        requires { place endpoint.0 < length self.old }
        ensures { self.new ≡ buffers_with self.old endpoint.0 (option_map buffers_of buffers) }
    {
        self.entries[endpoint.place()] = buffers;
    }
}

// Whether a page from `first` on, and before `end`, is in one of these buffers, if there are any.
fn is_any_in(buffers: Option<Mapped>, first: PageNo, end: u32) -> bool
    ensures { let own = option_map buffers_of buffers in
        IsTrue result ↔ (p : ℕ) × (first.0 ≤ p) × (p < end) × (have_page own p ≡ true) }
{
    match buffers {
        Some(mapped) => has_page_in(mapped.tx, mapped.pages, first, end)
            || has_page_in(mapped.rx, mapped.pages, first, end),
        None => false,
    }
}

// Whether a page from `first` on, and before `end`, is one of this number of pages of a run.
fn has_page_in(run: PageNo, pages: u32, first: PageNo, end: u32) -> bool
    ensures { IsTrue result ↔ (p : ℕ) × (first.0 ≤ p) × (p < end) × (is_in_run run.0 pages p ≡ true) }
{
    let behind = u64::from(run.0) + u64::from(pages);
    pages > 0 && first.0 < end && run.0 < end && u64::from(first.0) < behind
}
