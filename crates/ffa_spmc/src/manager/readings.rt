// SPDX-License-Identifier: MIT OR Apache-2.0
//! Pages of the runner's TX, to which other processors of the runner may write while a call reads them.
ghost use Rattle.std.specs.Option.{option_map};
ghost use Rattle.std.specs.Prelude.{true, false, ◌≡◌, ℕ, ◌+◌, ◌≤◌, length, IfSome, IsSome};
ghost use Rattle.ffa_model.specs.declared.limits.TheConstants.{MOST_BUFFER_PAGES};
ghost use Rattle.ffa_model.specs.Ram.{page_of};
ghost use Rattle.ffa_model.specs.SoundState.{are_bytes};
ghost use Rattle.ffa_model.specs.State.{page_at};
ghost use Rattle.ffa_physmem.specs.Moments.{AgreeInFirst, HasNoCopies, IsBeside, IsReading, OneMore, is_copied, memory_of, on_site_of};
ghost use Rattle.ffa_laws.specs.Reads.{AreBeside, bytes_read, pages_holding};
ghost use Rattle.ffa_spmc.specs.Among.{HaveInFront, bytes_read_by, is_in, pages_read, reads_tx};
ghost use Rattle.ffa_spmc.specs.Moments.{AreMoments};
ghost use Rattle.ffa_spmc.specs.Unowned.{IsNoTable};

use super::Manager;
use crate::run::{Front, Run};
use crate::storage::Store;
use ffa_model::function::{
    FFA_MEM_DONATE, FFA_MEM_DONATE_64, FFA_MEM_LEND, FFA_MEM_LEND_64, FFA_MEM_RELINQUISH,
    FFA_MEM_RETRIEVE_REQ, FFA_MEM_RETRIEVE_REQ_64, FFA_MEM_SHARE, FFA_MEM_SHARE_64, FFA_MSG_SEND2,
};
use ffa_model::{Call, Op, PageNo};
use ffa_physmem::{Observed, PAGE_SIZE, PhysMem};

// The number of bytes of FFA_MEM_RELINQUISH's descriptor.
const RELINQUISH_BYTES: usize = 18;

// Whether the call with this function identifier reads TX. If it does not, this module does not look at its arguments.
fn reads_tx(number: u32) -> bool
    ensures { result ≡ reads_tx number }
{
    matches!(
        number,
        FFA_MSG_SEND2
            | FFA_MEM_DONATE
            | FFA_MEM_DONATE_64
            | FFA_MEM_LEND
            | FFA_MEM_LEND_64
            | FFA_MEM_SHARE
            | FFA_MEM_SHARE_64
            | FFA_MEM_RETRIEVE_REQ
            | FFA_MEM_RETRIEVE_REQ_64
            | FFA_MEM_RELINQUISH
    )
}

// Returns the number of bytes that a call reads of a TX with `room` bytes.
fn bytes_read(call: &Call, room: usize) -> usize
    ensures { result ≡ bytes_read call.now room }
{
    match call {
        Call::MsgSend2 => room,
        Call::MemDonate(transfer)
        | Call::MemLend(transfer)
        | Call::MemShare(transfer)
        | Call::MemRetrieve(transfer) => transfer.total as usize,
        Call::MemRelinquish => RELINQUISH_BYTES,
        _ => 0,
    }
}

// Returns how many of these pages hold this number of bytes.
fn pages_holding(pages: u32, bytes: usize) -> u32
    ensures { result ≡ pages_holding pages bytes }
{
    let wanted = bytes.div_ceil(PAGE_SIZE);
    if (pages as usize) < wanted {
        pages
    } else {
        wanted as u32
    }
}

// Proves that a page holds bytes.
pub(crate) fn holds_bytes(page: &[u8; 4096])
    ensures { are_bytes page.now }
{
    for index in 0..PAGE_SIZE {
        // Proof step: each number that is read is a byte.
        let _byte = page[index];
    }
}

// Proves that each of these pages holds bytes.
fn hold_bytes<M: PhysMem>(ram: &M, run: Run)
    requires { run.first.0 + run.count ≤ length (M.ram ram.now).pages }
    ensures { (p : ℕ) → is_in run p ≡ true → are_bytes (page_of (M.ram ram.now) p) }
{
    // Proof step: a page's number fits 32 bits.
    let _all = ram.pages();
    for page in run.first.0..run.first.0 + run.count {
        holds_bytes(ram.page(PageNo(page)));
    }
}

// Reads the first bytes of pages at once, and holds them.
fn observe_in<M: Observed>(ram: &mut M, front: Front)
    requires within { front.pages.first.0 + front.pages.count ≤ length (M.ram ram.old).pages }
    requires few { front.pages.count ≤ MOST_BUFFER_PAGES }
    requires free { HasNoCopies (M.past ram.old) }
    ensures beside { IsBeside (M.ram ram.old) (M.ram ram.new) (is_in front.pages) }
    ensures whole { (p : ℕ) → length (page_of (M.ram ram.new) p) ≡ length (page_of (M.ram ram.old) p) }
    ensures steps { OneMore (M.past ram.old).steps (M.past ram.new).steps (λ s.
        IsReading (M.ram ram.old) (M.ram ram.new) front.pages.first.0 front.pages.count true s) }
    ensures bytes { (p : ℕ) → is_in front.pages p ≡ true → are_bytes (page_of (M.ram ram.new) p) }
    ensures places { (M.past ram.new).site.places ≡ (M.past ram.old).site.places }
    ensures only { (p : ℕ) → is_copied (M.past ram.new) p ≡ true → is_in front.pages p ≡ true }
    ensures memory { M.is_alone ≡ true → M.memory ram.new ≡ M.memory ram.old }
    // If nobody else writes, these bytes are as before.
    ensures same { M.is_alone ≡ true → (p : ℕ) → is_in front.pages p ≡ true
        → AgreeInFirst front.bytes front.pages.first.0 p (page_of (M.ram ram.new) p) (page_of (M.ram ram.old) p) }
{
    ram.observe(front.pages.first, front.pages.count, front.bytes);
    hold_bytes(ram, front.pages);
}

// Ends the reading of these pages.
fn release_in<M: Observed>(ram: &mut M, run: Run)
    requires within { run.first.0 + run.count ≤ length (M.ram ram.old).pages }
    requires only { (p : ℕ) → is_copied (M.past ram.old) p ≡ true → is_in run p ≡ true }
    ensures beside { IsBeside (M.ram ram.old) (M.ram ram.new) (is_in run) }
    ensures whole { (p : ℕ) → length (page_of (M.ram ram.new) p) ≡ length (page_of (M.ram ram.old) p) }
    ensures places { (M.past ram.new).site.places ≡ (M.past ram.old).site.places }
    ensures free { HasNoCopies (M.past ram.new) }
    ensures memory { M.is_alone ≡ true → M.memory ram.new ≡ M.memory ram.old }
    ensures steps { OneMore (M.past ram.old).steps (M.past ram.new).steps (λ s.
        IsReading (M.ram ram.old) (M.ram ram.new) run.first.0 run.count false s) }
    ensures bytes { (p : ℕ) → is_in run p ≡ true → are_bytes (page_of (M.ram ram.new) p) }
{
    ram.release(run.first, run.count);
    hold_bytes(ram, run);
}

impl<M: PhysMem + Drop, S: Store> Manager<M, S> {
    // Returns the part of the runner's TX that an operation reads, if it reads any. Its pages are the runner's own.
    pub(crate) fn front_read(&self, op: &Op) -> Option<Front>
        ensures pages { option_map (λ front. front.pages) result ≡ pages_read self.now.state op.now }
        ensures bytes { IfSome result (λ front. front.bytes ≡ bytes_read_by self.now.state op.now) }
        ensures within { IfSome result (λ front.
            front.pages.first.0 + front.pages.count ≤ length self.now.ram.pages) }
        ensures few { IfSome result (λ front. front.pages.count ≤ MOST_BUFFER_PAGES) }
        ensures aside { IfSome result (λ front. (p : ℕ) → is_in front.pages p ≡ true → IsNoTable self.now.state p) }
        ensures owned { IfSome result (λ front.
            (p : ℕ) → is_in front.pages p ≡ true → IsSome (page_at self.now.state p)) }
    {
        let Op::Call(x) = op else { return None };
        if !reads_tx(ffa_abi::low(x[0])) {
            return None;
        }
        self.front_of_tx(x)
    }

    // Returns the part of the runner's TX that a call reads, if it reads any.
    #[inline(never)]
    fn front_of_tx(&self, x: &[u64; 8]) -> Option<Front>
        ensures pages { option_map (λ front. front.pages) result ≡ pages_read self.now.state (Op.Call x.now) }
        ensures bytes { IfSome result (λ front. front.bytes ≡ bytes_read_by self.now.state (Op.Call x.now)) }
        ensures within { IfSome result (λ front.
            front.pages.first.0 + front.pages.count ≤ length self.now.ram.pages) }
        ensures few { IfSome result (λ front. front.pages.count ≤ MOST_BUFFER_PAGES) }
        ensures aside { IfSome result (λ front. (p : ℕ) → is_in front.pages p ≡ true → IsNoTable self.now.state p) }
        ensures owned { IfSome result (λ front.
            (p : ℕ) → is_in front.pages p ≡ true → IsSome (page_at self.now.state p)) }
    {
        let mapped = self.kept.buffers.of(self.kept.chain.runner())?;
        let bytes = bytes_read(&ffa_abi::decode(*x), mapped.room());
        let count = pages_holding(mapped.pages, bytes);
        if count == 0 {
            return None;
        }
        let pages = Run {
            first: mapped.tx,
            count,
        };
        Some(Front { pages, bytes })
    }
}

impl<M: Observed + Drop, S: Store> Manager<M, S> {
    // Reads at once the first bytes of pages that are not pages of the tables.
    pub(crate) fn begin_reading(&mut self, front: Front)
        requires within { front.pages.first.0 + front.pages.count ≤ length self.old.ram.pages }
        requires few { front.pages.count ≤ MOST_BUFFER_PAGES }
        requires free { HasNoCopies self.old.past }
        requires aside { (p : ℕ) → is_in front.pages p ≡ true → IsNoTable self.old.state p }
        ensures state { AreBeside self.old.state self.new.state (is_in front.pages) }
        ensures ram { IsBeside self.old.ram self.new.ram (is_in front.pages) }
        ensures places { self.new.past.site.places ≡ self.old.past.site.places }
        ensures only { (p : ℕ) → is_copied self.new.past p ≡ true → is_in front.pages p ≡ true }
        ensures memory { M.is_alone ≡ true
            → memory_of self.new.ram self.new.past ≡ memory_of self.old.ram self.old.past }
        ensures step { OneMore self.old.past.steps self.new.past.steps (λ s.
            IsReading self.old.ram self.new.ram front.pages.first.0 front.pages.count true s) }
        ensures moments { AreMoments self.old.state self.old.ram self.new.ram self.old.past
            (on_site_of self.old.past self.new.past) }
        ensures same { M.is_alone ≡ true → HaveInFront front.pages front.bytes self.old.state self.new.state }
    {
        observe_in(&mut self.ram, front);
    }

    // Ends the reading of these pages.
    pub(crate) fn end_reading(&mut self, run: Run)
        requires within { run.first.0 + run.count ≤ length self.old.ram.pages }
        requires aside { (p : ℕ) → is_in run p ≡ true → IsNoTable self.old.state p }
        requires only { (p : ℕ) → is_copied self.old.past p ≡ true → is_in run p ≡ true }
        ensures state { AreBeside self.old.state self.new.state (is_in run) }
        ensures ram { IsBeside self.old.ram self.new.ram (is_in run) }
        ensures places { self.new.past.site.places ≡ self.old.past.site.places }
        ensures free { HasNoCopies self.new.past }
        ensures memory { M.is_alone ≡ true
            → memory_of self.new.ram self.new.past ≡ memory_of self.old.ram self.old.past }
        ensures step { OneMore self.old.past.steps self.new.past.steps (λ s.
            IsReading self.old.ram self.new.ram run.first.0 run.count false s) }
        ensures moments { AreMoments self.old.state self.old.ram self.new.ram self.old.past
            (on_site_of self.old.past self.new.past) }
    {
        release_in(&mut self.ram, run);
    }
}
