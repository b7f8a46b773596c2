// SPDX-License-Identifier: MIT OR Apache-2.0
//! The trait of RAM, with the operations that the library needs.
ghost use Rattle.std.specs.Prelude.{◌≡◌, ℕ, ◌+◌, ◌*◌, ◌%◌, ◌^◌, ◌<◌, ◌≤◌, List, ◌++◌, length, take, drop, replicate};
ghost use Rattle.std.specs.Borrow.{sem, Lends, Array, u8 as byte};
ghost use Rattle.ffa_model.specs.Ram.{Ram, page_of, with_page, word_of, with_word};
ghost use Rattle.ffa_physmem.specs.Moments.{Past, IsStore, IsSettling, IsInLoan, One, Only, TurnsIn, memory_of};
ghost use Rattle.ffa_physmem.specs.Work.{Spends, loans_of};

use byteorder::{ByteOrder, LittleEndian};
use ffa_model::{Address, PageNo};

/// The size of a page in bytes.
pub const PAGE_SIZE: usize = 4096;

/// RAM: a base address and pages of 4096 bytes. Pages need not be next to each other in the memory of the
/// implementation.
///
/// Others may read this memory at any moment, above all the processor when it walks the tables. So `write_word` must
/// write its word as one store of 64 bits. No contract can say this.
pub trait PhysMem {
    /// The base address of the RAM, and the bytes of each page as the library reads and writes them.
    ghost ram: { Self → Ram };

    /// The bytes of memory itself, which the processor's walk and all others read and write.
    ghost memory: { Self → Ram };

    /// The RAM with other bytes in one page.
    ghost with_bytes: { Self → ℕ → List ℕ → Self };

    /// The history of the RAM, and its site. The history has the steps until now, the last step first. RAM that keeps
    /// no history has `None` instead. A clause about steps is for each kind of RAM, so also for RAM that keeps a
    /// history. The site is the place of each page in memory, and the pages that are in copies. Only `observe` and
    /// `release` change which pages are in copies.
    ghost past: { Self → Past };

    /// Returns the address of the first byte.
    fn base(&self) -> Address
        ensures value { result.0 ≡ (ram self.now).base }
        ensures aligned { result.0 % 4096 ≡ 0 }
        ensures within { result.0 + 4096 * length (ram self.now).pages ≤ 2 ^ 32 };

    /// Returns the number of pages.
    fn pages(&self) -> u32
        ensures { result ≡ length (ram self.now).pages };

    /// Returns the bytes of a page.
    fn page(&self, page: PageNo) -> &[u8; 4096]
        requires { page.0 < length (ram self.now).pages }
        ensures value { result.now ≡ page_of (ram self.now) page.0 }
        ensures whole { length (page_of (ram self.now) page.0) ≡ 4096 };

    /// Returns the bytes of a page, for writing. No other page changes.
    fn page_mut(&mut self, page: PageNo) -> &mut [u8; 4096]
        requires { page.0 < length (ram self.old).pages }
        ensures value { result.now ≡ page_of (ram self.old) page.0 }
        ensures* writes_back { sem 𝓛 (Lends Self.row (Array byte 0) self.entry result (with_bytes self.old page.0)) };

    /// Returns the word at a place of a page, from 0 to 511. A word is 8 bytes, the lowest byte first.
    fn read_word(&self, page: PageNo, index: usize) -> u64
        requires page { page.0 < length (ram self.now).pages }
        requires index { index < 512 }
        ensures { result ≡ word_of (page_of (ram self.now) page.0) index }
    {
        LittleEndian::read_u64(&self.page(page)[8 * index..])
    }

    /// Writes the word at a place of a page, from 0 to 511, in one step.
    fn write_word(&mut self, page: PageNo, index: usize, value: u64)
        requires page { page.0 < length (ram self.old).pages }
        requires index { index < 512 }
        ensures ram { let old = page_of (ram self.old) page.0 in
            ram self.new ≡ with_page (ram self.old) page.0 (with_word old index value) }
        ensures steps { One (past self.old) (past self.new) (λ s. IsStore (ram self.old) page.0 index value s) };

    /// Waits until every translation unit sees all earlier writes. No translation unit then holds anything that it read
    /// earlier of these pages, in the tables of the endpoint at a place. The pages are `count` pages from `first` on.
    /// RAM does not change.
    fn settle(&mut self, endpoint: usize, first: PageNo, count: u32)
        ensures ram { ram self.new ≡ ram self.old }
        ensures steps { One (past self.old) (past self.new) (λ s. IsSettling (ram self.old) endpoint first.0 count s) };

    /// Fills a page with zeros. No other page changes.
    fn clear_page(&mut self, page: PageNo)
        requires { page.0 < length (ram self.old).pages }
        ensures ram { ram self.new ≡ with_page (ram self.old) page.0 (replicate 4096 0) }
        ensures steps { Only (past self.old) (past self.new) (λ _ s. IsInLoan (ram self.old) page.0 s) }
        ensures spent { Spends (past self.old) (past self.new) (loans_of 1) }
    {
        *self.page_mut(page) = [0; PAGE_SIZE];
    }

    /// Copies the first `count` bytes of one page to the front of another page. The other bytes of this page stay.
    fn copy(&mut self, from: PageNo, to: PageNo, count: usize)
        requires from { from.0 < length (ram self.old).pages }
        requires to { to.0 < length (ram self.old).pages }
        requires count { count ≤ 4096 }
        ensures ram { let old = page_of (ram self.old) in
            ram self.new ≡ with_page (ram self.old) to.0 (take count (old from.0) ++ drop count (old to.0)) }
        ensures steps { Only (past self.old) (past self.new) (λ _ s. IsInLoan (ram self.old) to.0 s) }
        ensures spent { Spends (past self.old) (past self.new) (loans_of 1) }
    {
        let mut buffer = [0; PAGE_SIZE];
        buffer.copy_from_slice(self.page(from));
        put_front(self.page_mut(to), &buffer[..count]);
    }

    /// Memory has the bytes that the library reads and writes, except in pages that are in copies.
    ghost beneath: { (m : Self) → memory m ≡ memory_of (ram m) (past m) };

    /// A write to the bytes of a page changes only this page.
    ghost one_page: { (m : Self) (page : ℕ) (bytes : List ℕ)
        → ram (with_bytes m page bytes) ≡ with_page (ram m) page bytes };

    /// While a page is lent, it may change in any number of steps, and nothing else changes.
    ghost in_loan: { (m : Self) (page : ℕ) (bytes : List ℕ)
        → Only (past m) (past (with_bytes m page bytes)) (λ _ s. IsInLoan (ram m) page s) };

    /// The steps of a loan count as one loan.
    ghost one_loan: { (m : Self) (page : ℕ) (bytes : List ℕ)
        → Spends (past m) (past (with_bytes m page bytes)) (loans_of 1) };

    /// Each step begins with the RAM with which the step before it ended. The last step ended with this RAM. The base
    /// address and the number of pages never change.
    // This is a law of each kind of RAM, so that no operation needs it as a premise.
    ghost in_turn: { (m : Self) → TurnsIn (ram m) (past m) };
}

/// Writes the word at a place of a page, from 0 to 511, the lowest byte first.
pub fn put_word(page: &mut [u8; 4096], index: usize, value: u64)
    requires { index < 512 }
    ensures { page.new ≡ with_word page.old index value }
{
    LittleEndian::write_u64(&mut page[8 * index..], value);
}

/// Writes `source` over the first bytes of `target`. The other bytes of `target` stay.
pub fn put_front(target: &mut [u8], source: &[u8])
    requires { length source.now ≤ length target.old }
    ensures { target.new ≡ source.now ++ drop (length source.now) target.old }
{
    target[..source.len()].copy_from_slice(source);
}
