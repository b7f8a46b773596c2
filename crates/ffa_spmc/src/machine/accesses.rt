// SPDX-License-Identifier: MIT OR Apache-2.0
//! The runner's loads, stores and fetches through the cache.
ghost use Rattle.std.specs.Prelude.{◌≡◌, ◌+◌, ◌%◌, ◌<◌, ◌≤◌, ◌^◌};
ghost use Rattle.std.specs.Option.{option_map};
ghost use Rattle.ffa_model.specs.declared.endpoint.PageNo.{PageNo};
ghost use Rattle.ffa_spmc.specs.Cached.{missed_page};
ghost use Rattle.ffa_spmc.specs.Caching.{IsCached, moved_back, moved_to};
ghost use Rattle.ffa_spmc.specs.Operated.{IsDone};
ghost use Rattle.ffa_spmc.specs.Walks.{walk_of};

use super::Machine;
use crate::storage::Store;
use ffa_model::{FaultKind, Leaf, Op, Outcome, PageNo, Size};
use ffa_physmem::PhysMem;
use ffa_tlb::Translations;

// The result of the walk of an address. It also has the page of the address, if the cache holds no leaf for it yet.
#[derive(Clone, Copy)]
struct Walked {
    answer: Result<Leaf, FaultKind>,
    missed: Option<PageNo>,
}

// Moves the leaf of a page's first address to an address of the page.
fn moved_to(leaf: Leaf, addr: u64) -> Leaf
    requires { leaf.phys + addr % 4096 < 2 ^ 64 }
    ensures { result ≡ moved_to leaf addr }
{
    Leaf {
        phys: leaf.phys + addr % 4096,
        ..leaf
    }
}

// Moves the leaf of an address to the first address of its page.
fn moved_back(leaf: Leaf, addr: u64) -> Leaf
    requires { addr % 4096 ≤ leaf.phys }
    ensures { result ≡ moved_back leaf addr }
{
    Leaf {
        phys: leaf.phys - addr % 4096,
        ..leaf
    }
}

impl<M: PhysMem + Drop, T: Translations + Drop, S: Store> Machine<M, T, S> {
    // Returns the walk of an address for the runner. If the cache holds a leaf for the address's page, it uses this
    // leaf, and otherwise the runner's table. It is inlined, though accesses of three kinds call it.
    #[inline(always)]
    fn walk(&self, addr: u64) -> Walked
        ensures answer { result.answer ≡ walk_of self.now.ram self.now.state self.now.state.runner addr }
        ensures missed { option_map (λ (page : PageNo). page.0) result.missed ≡ missed_page self.now addr }
    {
        // Proof step: the state is sound, and the tables grant its access.
        self.manager.holds();
        let page = self.manager.page_of(addr);
        if let Some(page) = page
            && let Some(leaf) = self.cache.lookup(self.manager.runner(), page)
        {
            return Walked {
                answer: Ok(moved_to(leaf, addr)),
                missed: None,
            };
        }
        Walked {
            answer: self.manager.translate(addr),
            missed: page,
        }
    }

    // Fills the cache with the result of an address's walk, if the access was done and the cache holds no leaf for the
    // page. It is inlined, as `walk` is.
    #[inline(always)]
    fn fill(&mut self, addr: u64, walked: &Walked, outcome: &Outcome)
        requires answer { walked.now.answer ≡ walk_of self.old.ram self.old.state self.old.state.runner addr }
        requires missed { option_map (λ (page : PageNo). page.0) walked.now.missed ≡ missed_page self.old addr }
        ensures { IsCached self.old self.new addr outcome.now }
    {
        if !matches!(outcome, Outcome::Data(_) | Outcome::Done) {
            return;
        }
        if let (Some(page), Ok(leaf)) = (walked.missed, walked.answer) {
            // Proof step: the state is sound, and the tables grant its access.
            self.holds();
            let runner = self.manager.runner();
            self.cache.fill(runner, page, moved_back(leaf, addr));
        }
    }

    // Does a load of the runner.
    #[inline(always)]
    pub(super) fn load(&mut self, addr: u64, size: Size, outcome: &mut Outcome)
        ensures { IsDone self.old (Op.Load addr size) outcome.new self.new }
    {
        // Proof step: what holds of every machine.
        self.holds();
        let walked = self.walk(addr);
        *outcome = self.manager.load(walked.answer, addr, size);
        self.fill(addr, &walked, outcome);
        // Proof step: it holds again.
        self.holds();
    }

    // Does a fetch of the runner.
    pub(super) fn fetch(&mut self, addr: u64, outcome: &mut Outcome)
        ensures { IsDone self.old (Op.Fetch addr) outcome.new self.new }
    {
        // Proof step: what holds of every machine.
        self.holds();
        let walked = self.walk(addr);
        *outcome = self.manager.fetch(walked.answer, addr);
        self.fill(addr, &walked, outcome);
        // Proof step: it holds again.
        self.holds();
    }

    // Does a store of the runner.
    #[inline(always)]
    pub(super) fn store(&mut self, addr: u64, size: Size, value: u64, outcome: &mut Outcome)
        ensures { IsDone self.old (Op.Store addr size value) outcome.new self.new }
    {
        let walked = self.walk(addr);
        // Proof step: what holds of every manager, before the store and after it.
        self.manager.holds();
        *outcome = self.manager.store(walked.answer, addr, size, value);
        self.manager.holds();
        self.fill(addr, &walked, outcome);
        // Proof step: so it is a machine again.
        self.holds();
    }
}
