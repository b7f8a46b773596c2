// SPDX-License-Identifier: MIT OR Apache-2.0
//! RAM over lent pages, with copies of the observed pages.
ghost use Rattle.std.specs.Prelude.{◌≡◌, false, ℕ, ◌+◌, ◌*◌, ◌%◌, ◌^◌, ◌<◌, ◌≤◌, ◌-◌, true, [], None, IfOk, IfErr, IfSome, Some, slice_index_or, if◌then◌else◌, length, replicate, vec_len};
ghost use Rattle.ffa_model.specs.declared.limits.TheConstants.{MOST_BUFFER_PAGES};
ghost use Rattle.ffa_model.specs.Ram.{page_of, with_page};
ghost use Rattle.ffa_physmem.specs.Moments.{IsInLoan, One, Only};

use crate::copying::{are_alike, copy_frames};
use crate::frames::{Frames, copies_in};
use crate::history::{Doing, Done, What};
use crate::memory::Memory;
use crate::settling::{ask, request};
use ffa_model::{Address, PageNo};
use ffa_physmem::{FrameRam, Observed, PAGE_SIZE, PhysMem, put_word};
use std::alloc::Global;

/// RAM over lent pages, which may be anywhere in memory. Others may write to these pages. Each observed page has a
/// copy, and the library reads and writes the copy instead of the page. So the library sees the bytes of one reading.
#[derive(Drop)]
pub struct LentRam {
    memory: Memory,
    // Copies of the `count` observed pages from `first` on. There is room for a whole TX.
    copies: Vec<[u8; 4096]>,
    first: PageNo,
    count: usize,
    ghost room: { vec_len copies ≡ MOST_BUFFER_PAGES },
    ghost held: { count ≤ vec_len copies },
}

impl LentRam {
    ghost use Rattle.ffa_lent.specs.Doings.{IsAsked, event_of};
    ghost use Rattle.ffa_lent.specs.LentRam.{copies_of, is_observed, memory_of, places_of, ram_of};

    /// Returns RAM over the lent pages, with their bytes. Its base is this address. If the pages have no room for
    /// copies, `new` allocates this room.
    ///
    /// # Errors
    ///
    /// The allocator has no memory for the room. The error returns the pages.
    pub fn new(alloc: Global, base: Address, frames: Frames) -> Result<LentRam, Frames>
        requires aligned { base.0 % 4096 ≡ 0 }
        requires fits { base.0 + 4096 * length frames.pages ≤ 2 ^ 32 }
        ensures ram { IfOk result (λ m. ram_of m ≡ record { base = base.0; pages = frames.pages }) }
        ensures memory { IfOk result (λ m. memory_of m ≡ record { base = base.0; pages = frames.pages }) }
        ensures places { IfOk result (λ m. places_of m ≡ frames.places) }
        ensures free { IfOk result (λ m. (copies_of m).beneath ≡ []) }
        ensures returned { IfErr result (λ f. f ≡ frames) }
        ensures unready { IfErr result (λ _. frames.is_ready ≡ false) }
    {
        let Frames { list, copies } = frames;
        let Ok(copies) = copies_in(alloc, copies) else {
            return Err(Frames { list, copies: None });
        };
        Ok(LentRam {
            memory: Memory::new(FrameRam::of(base, list)),
            copies,
            first: PageNo(0),
            count: 0,
        })
    }

    /// Returns the pages, with the bytes of memory, and the room for copies.
    pub fn into_frames(self) -> Frames
        ensures pages { result.pages ≡ (memory_of self).pages }
        ensures places { result.places ≡ places_of self }
        ensures ready { result.is_ready ≡ true }
    {
        Frames {
            list: self.memory.into_frames().into_frames(),
            copies: Some(self.copies),
        }
    }

    // Returns the event that begins now, before any byte changes.
    #[inline(always)]
    fn doing(&self, _doing: &Doing<'_>) -> Done
        requires { IsAsked (ram_of self.now).base _doing.now.first.0 _doing.now.count _doing.now.what }
        ensures { result.event ≡ event_of (ram_of self.now) _doing.now }
    {
        Done {}
    }

    // Returns the place of a page's copy, or `None` if the page is not observed.
    fn place(&self, page: PageNo) -> Option<usize>
        ensures value { result ≡ (if is_observed self.now page.0 then Some (page.0 - self.now.first.0) else None) }
        ensures within { IfSome result (λ place. place < vec_len self.now.copies) }
    {
        let page = page.0 as usize;
        let first = self.first.0 as usize;
        if first <= page && page < first + self.count {
            Some(page - first)
        } else {
            None
        }
    }

    // Proof step: each copy has the same number of bytes as its frame.
    fn look_at_copies(&self)
        ensures { (k : ℕ) → k < self.now.count → self.now.first.0 + k < length (memory_of self.now).pages
            → length (slice_index_or self.now.copies.items k [])
            ≡ length (page_of (memory_of self.now) (self.now.first.0 + k)) }
    {
        let pages = self.memory.frames().pages() as usize;
        for index in 0..self.count {
            let page = self.first.0 as usize + index;
            if page < pages {
                are_alike(
                    &self.copies[index],
                    self.memory.frames().page(PageNo(page as u32)),
                );
            }
        }
    }
}

impl PhysMem for LentRam {
    ghost use Rattle.ffa_lent.specs.LentRam.{in_loan, memory-beneath, memory_of, one_loan, past_of, ram_of, ram_of-with_bytes, turns, with_bytes};
    ghost use Rattle.ffa_lent.specs.Settling.{IsBarrier};
    ghost use Rattle.ffa_physmem.specs.Work.{Spends, loans_of};

    ghost ram = { ram_of };

    ghost memory = { memory_of };

    ghost with_bytes = { with_bytes };

    ghost past = { past_of };

    ghost beneath = { memory-beneath };

    ghost one_page = { ram_of-with_bytes };

    ghost in_loan = { in_loan };

    ghost one_loan = { one_loan };

    ghost in_turn = { turns };

    fn base(&self) -> Address {
        self.memory.frames().base()
    }

    fn pages(&self) -> u32 {
        self.memory.frames().pages()
    }

    fn page(&self, page: PageNo) -> &[u8; 4096] {
        if let Some(place) = self.place(page) {
            let copy = &self.copies[place];
            // Proof step: the whole of a page is its 4096 bytes.
            let _ = &copy[..];
            return copy;
        }
        self.memory.frames().page(page)
    }

    // A write to an observed page changes only the copy, which `release` discards. A loan is two events, as in
    // `Memory::lend`.
    fn page_mut(&mut self, page: PageNo) -> &mut [u8; 4096] {
        let begun = self.doing(&Doing {
            first: page,
            count: 1,
            what: What::Lent,
        });
        let done = self.doing(&Doing {
            first: page,
            count: 1,
            what: What::Written,
        });
        if let Some(place) = self.place(page) {
            self.memory.note(&begun);
            self.memory.note(&done);
            return &mut self.copies[place];
        }
        self.memory.lend(page, &begun, &done)
    }

    fn write_word(&mut self, page: PageNo, index: usize, value: u64) {
        let done = self.doing(&Doing {
            first: page,
            count: 1,
            what: What::Stored,
        });
        if let Some(place) = self.place(page) {
            self.memory.note(&done);
            put_word(&mut self.copies[place], index, value);
            return;
        }
        self.memory.store(page, index, value, &done);
    }

    // Requests from firmware that others see the zeros before any later write.
    fn clear_page(&mut self, page: PageNo)
        requires { page.0 < length (ram_of self.old).pages }
        ensures ram { ram_of self.new ≡ with_page (ram_of self.old) page.0 (replicate 4096 0) }
        ensures steps { Only (past_of self.old) (past_of self.new) (λ _ s. IsInLoan (ram_of self.old) page.0 s) }
        ensures spent { Spends (past_of self.old) (past_of self.new) (loans_of 1) }
        ensures shown { let zeroed = with_bytes self.old page.0 (replicate 4096 0) in
            One (past_of zeroed) (past_of self.new) (λ s. IsBarrier (ram_of self.new) s) }
    {
        *self.page_mut(page) = [0; PAGE_SIZE];
        let request = request(0, self.base(), page, 0);
        let done = self.doing(&Doing {
            first: page,
            count: 0,
            what: What::Shown(ask(&request)),
        });
        self.memory.note(&done);
    }

    fn settle(&mut self, endpoint: usize, first: PageNo, count: u32) {
        let request = request(endpoint, self.base(), first, count);
        let done = self.doing(&Doing {
            first,
            count,
            what: What::Settled(endpoint, ask(&request)),
        });
        self.memory.note(&done);
    }
}

impl Observed for LentRam {
    ghost use Rattle.std.specs.Prelude.{true};

    // No contract sees what others write to a frame.
    ghost is_alone = { true };

    ghost is_copying = { true };

    ghost is_shared = { true };

    #[inline(always)]
    fn is_shared(&self) -> bool {
        true
    }

    fn observe(&mut self, first: PageNo, count: u32, bytes: usize) {
        let done = self.doing(&Doing {
            first,
            count,
            what: What::Read(true),
        });
        self.memory.note(&done);
        copy_frames(&mut self.copies, self.memory.frames(), first, count, bytes);
        self.first = first;
        self.count = count as usize;
    }

    fn release(&mut self, first: PageNo, count: u32) {
        let done = self.doing(&Doing {
            first,
            count,
            what: What::Read(false),
        });
        self.memory.note(&done);
        self.look_at_copies();
        self.count = 0;
    }
}
