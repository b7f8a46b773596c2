// SPDX-License-Identifier: MIT OR Apache-2.0
//! The traits of RAM whose pages others may write to during a call.
ghost use Rattle.std.specs.Prelude.{◌≡◌, ℕ, ◌+◌, ◌<◌, ◌≤◌, Bool, true, false, length, if◌then◌else◌};
ghost use Rattle.ffa_model.specs.declared.limits.TheConstants.{MOST_BUFFER_PAGES};
ghost use Rattle.ffa_model.specs.Lists.{is_in_run};
ghost use Rattle.ffa_model.specs.Ram.{page_of};
ghost use Rattle.ffa_physmem.specs.Moments.{AgreeInFirst, IsBeside, HasNoCopies, IsReading, OneMore, is_copied};

use crate::memory::PhysMem;
use ffa_model::PageNo;

/// RAM to which others may write at the same time as the library. The library can observe the first bytes of pages. It
/// then sees the bytes of one reading until it releases these pages.
// Observing is a step of the history, and its clauses name memory. Without the step, a body that never observes would
// meet a clause about bytes, because RAM to which nobody else writes stays unchanged. Without memory, a body that
// copies another page would meet a clause about what it sees.
pub trait Observed: PhysMem {
    /// Whether nobody else writes to memory, as far as contracts see.
    ghost is_alone: { Bool };

    /// Whether the library reads and writes copies of observed pages, instead of memory.
    ghost is_copying: { Bool };

    /// Whether a call observes the pages that it reads, because others may write to them at the same time.
    ghost is_shared: { Bool };

    /// Whether a call observes the pages that it reads.
    fn is_shared(&self) -> bool
        ensures { result ≡ is_shared };

    /// Observes the first `bytes` bytes of `count` pages from `first` on, to which others may write at the same time.
    /// No page may be in a copy. Until `release`, the library sees the bytes that memory had at this one reading. The
    /// function does not read the bytes after them in these pages, which may then have any values. It writes nothing to
    /// memory.
    fn observe(&mut self, first: PageNo, count: u32, bytes: usize)
        requires within { first.0 + count ≤ length (Self.ram self.old).pages }
        requires few { count ≤ MOST_BUFFER_PAGES }
        requires free { HasNoCopies (Self.past self.old) }
        ensures seen { (p : ℕ) → is_in_run first.0 count p ≡ true
            → AgreeInFirst bytes first.0 p (page_of (Self.ram self.new) p) (page_of (Self.memory self.new) p) }
        ensures memory { is_alone ≡ true → Self.memory self.new ≡ Self.memory self.old }
        ensures places { (Self.past self.new).site.places ≡ (Self.past self.old).site.places }
        ensures first { is_copying ≡ true → (Self.past self.new).site.copies.first ≡ first.0 }
        ensures copied { length (Self.past self.new).site.copies.beneath ≡ (if is_copying then count else 0) }
        ensures beside { IsBeside (Self.ram self.old) (Self.ram self.new) (is_in_run first.0 count) }
        ensures whole { (p : ℕ) → length (page_of (Self.ram self.new) p) ≡ length (page_of (Self.ram self.old) p) }
        ensures step { OneMore (Self.past self.old).steps (Self.past self.new).steps
            (λ s. IsReading (Self.ram self.old) (Self.ram self.new) first.0 count true s) };

    /// Ends what `observe` of these pages began. The library then sees memory again. The function writes nothing to
    /// memory.
    fn release(&mut self, first: PageNo, count: u32)
        requires within { first.0 + count ≤ length (Self.ram self.old).pages }
        requires only { (p : ℕ) → is_copied (Self.past self.old) p ≡ true → is_in_run first.0 count p ≡ true }
        ensures places { (Self.past self.new).site.places ≡ (Self.past self.old).site.places }
        ensures free { HasNoCopies (Self.past self.new) }
        ensures memory { is_alone ≡ true → Self.memory self.new ≡ Self.memory self.old }
        ensures beside { IsBeside (Self.ram self.old) (Self.ram self.new) (is_in_run first.0 count) }
        ensures whole { (p : ℕ) → length (page_of (Self.ram self.new) p) ≡ length (page_of (Self.ram self.old) p) }
        ensures step { OneMore (Self.past self.old).steps (Self.past self.new).steps
            (λ s. IsReading (Self.ram self.old) (Self.ram self.new) first.0 count false s) };
}

/// RAM to which nobody else writes during a call. So a call reads the pages themselves.
pub trait Unshared: Observed {
    /// No call observes the pages that it reads.
    ghost unshared: { Self.is_shared ≡ false };

    /// No page is ever in a copy.
    ghost free: { (m : Self) → HasNoCopies (Self.past m) };
}
