// SPDX-License-Identifier: MIT OR Apache-2.0
//! RAM with a record of its steps.
ghost use Rattle.std.specs.Prelude.{◌≡◌, ◌<◌, ◌≤◌, ◌++◌, [], ◌∷◌, true, false, length, vec_len, if◌then◌else◌, IfOk};

use ffa_model::{Address, PageNo};
use ffa_physmem::{FlatRam, Observed, PhysMem};
use std::alloc::{AllocError, Global};

/// A page, and the bytes that it had before a step.
#[derive(Drop)]
pub struct PageBytes {
    page: PageNo,
    bytes: [u8; 4096],
}

/// Pages that were settled, in the tables of the endpoint at a place.
#[derive(Clone, Copy)]
pub struct Settling {
    endpoint: usize,
    first: PageNo,
    count: u32,
}

/// Pages at the start or at the end of a reading. From the start to the end, the pages are read at once.
#[derive(Clone, Copy)]
pub struct Reading {
    first: PageNo,
    count: u32,
    begins: bool,
}

/// A step on RAM. A word was stored in a page, or the bytes of a page were lent, filled with zeros or copied to. Or
/// pages were settled, or a reading of pages began or ended.
#[derive(Drop)]
pub enum Noted {
    Stored(PageBytes),
    Written(PageBytes),
    Settled(Settling),
    Read(Reading),
}

/// RAM that keeps a record of its steps: stored words, pages that were lent, cleared or copied to, and settled and read
/// pages. The record ends if there is no memory for one more step. It also ends if a page is lent and no room was made
/// for this step before.
#[derive(Drop)]
pub struct Recorded {
    ram: FlatRam,
    // The recorded steps, which are the first `noted` of these places. The other places are room for more steps.
    places: Vec<Noted>,
    noted: usize,
    is_kept: bool,
}

impl Recorded {
    ghost use Rattle.ffa_recorded.specs.Loans.{noted_in, with_loan};

    /// Makes a RAM with an empty record, and with room for this number of steps, from this RAM.
    ///
    /// # Errors
    ///
    /// `AllocError`: the allocator has not enough memory for the record.
    pub fn new(alloc: Global, ram: FlatRam, steps: usize) -> Result<Recorded, AllocError>
        ensures ram { IfOk result (λ m. m.ram ≡ ram) }
        ensures noted { IfOk result (λ m. noted_in m ≡ []) }
        ensures room { IfOk result (λ m. vec_len m.places ≡ steps) }
        ensures kept { IfOk result (λ m. m.is_kept ≡ true) }
    {
        Ok(Recorded {
            ram,
            places: room_for(alloc, steps)?,
            noted: 0,
            is_kept: true,
        })
    }

    /// Returns the number of recorded steps. Returns `None` if the record has ended.
    pub fn steps(&self) -> Option<usize>
        ensures { result ≡ (if self.now.is_kept then Some self.now.noted else None) }
    {
        if self.is_kept {
            return Some(self.noted);
        }
        None
    }

    // Notes one more step, if there is room for it or memory for more room. Otherwise the record ends.
    fn note(&mut self, noted: Noted)
        ensures ram { self.new.ram ≡ self.old.ram }
        ensures kept { self.new.is_kept ≡ true → self.old.is_kept ≡ true }
        ensures noted { self.new.is_kept ≡ true → noted_in self.new ≡ noted_in self.old ++ noted ∷ [] }
        ensures room { self.new.is_kept ≡ false → self.old.is_kept ≡ true → vec_len self.old.places ≤ self.old.noted }
    {
        if self.noted < self.places.len() {
            self.places[self.noted] = noted;
            self.noted += 1;
            return;
        }
        self.is_kept &= self.places.push(noted).is_ok();
        self.noted = self.places.len();
    }

    // Notes the loan of a page, with the bytes that it holds, if there is room for this step. Otherwise the record
    // ends.
    fn note_loan(&mut self, page: PageNo)
        requires { page.0 < length self.old.ram.pages.items }
        ensures { self.new ≡ with_loan self.old page.0 }
    {
        if self.noted < self.places.len() {
            let bytes = *self.ram.page(page);
            self.places[self.noted] = Noted::Written(PageBytes { page, bytes });
            self.noted += 1;
        } else {
            self.is_kept = false;
        }
    }
}

// Returns places for this number of steps.
fn room_for(alloc: Global, steps: usize) -> Result<Vec<Noted>, AllocError>
    ensures { IfOk result (λ places. vec_len places ≡ steps) }
{
    let mut places = Vec::with_capacity(alloc, steps)?;
    for _step in 0..steps {
        places.push(Noted::Settled(Settling {
            endpoint: 0,
            first: PageNo(0),
            count: 0,
        }))?;
    }
    Ok(places)
}

impl PhysMem for Recorded {
    ghost use Rattle.std.specs.Prelude.{refl};
    ghost use Rattle.ffa_recorded.specs.Records.{history};
    ghost use Rattle.ffa_recorded.specs.Turns.{turns};
    ghost use Rattle.ffa_recorded.specs.Loans.{in_loan, noted_in, one_loan, ram_of, with_bytes};

    ghost ram = { ram_of };

    ghost memory = { ram_of };

    ghost with_bytes = { with_bytes };

    // No page is ever in a copy.
    ghost past = { λ m. history m.is_kept (ram_of m) (noted_in m) };

    ghost beneath = { λ _. refl };

    ghost one_page = { λ m page bytes. refl };

    ghost in_loan = { in_loan };

    ghost one_loan = { one_loan };

    ghost in_turn = { λ m. turns m.is_kept (ram_of m) (noted_in m) };

    fn base(&self) -> Address {
        self.ram.base()
    }

    fn pages(&self) -> u32 {
        self.ram.pages()
    }

    fn page(&self, page: PageNo) -> &[u8; 4096] {
        self.ram.page(page)
    }

    // A loan is one step.
    fn page_mut(&mut self, page: PageNo) -> &mut [u8; 4096] {
        self.note_loan(page);
        self.ram.page_mut(page)
    }

    fn write_word(&mut self, page: PageNo, index: usize, value: u64) {
        let bytes = *self.ram.page(page);
        self.note(Noted::Stored(PageBytes { page, bytes }));
        self.ram.write_word(page, index, value);
    }

    fn clear_page(&mut self, page: PageNo) {
        let bytes = *self.ram.page(page);
        self.note(Noted::Written(PageBytes { page, bytes }));
        self.ram.clear_page(page);
    }

    fn copy(&mut self, from: PageNo, to: PageNo, count: usize) {
        let bytes = *self.ram.page(to);
        self.note(Noted::Written(PageBytes { page: to, bytes }));
        self.ram.copy(from, to, count);
    }

    fn settle(&mut self, endpoint: usize, first: PageNo, count: u32) {
        self.note(Noted::Settled(Settling {
            endpoint,
            first,
            count,
        }));
    }
}

// Nobody else writes to this RAM, so each page always has the bytes of one reading.
impl Observed for Recorded {
    ghost use Rattle.std.specs.Prelude.{true, false};

    ghost is_alone = { true };

    ghost is_copying = { false };

    ghost is_shared = { true };

    #[inline(always)]
    fn is_shared(&self) -> bool {
        true
    }

    fn observe(&mut self, first: PageNo, count: u32, _bytes: usize) {
        self.note(Noted::Read(Reading {
            first,
            count,
            begins: true,
        }));
    }

    fn release(&mut self, first: PageNo, count: u32) {
        self.note(Noted::Read(Reading {
            first,
            count,
            begins: false,
        }));
    }
}
