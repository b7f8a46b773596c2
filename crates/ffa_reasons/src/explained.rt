// SPDX-License-Identifier: MIT OR Apache-2.0
//! The machine that one processor runs, as a player sees it.
ghost use Rattle.ffa_playable.specs.Bench.{alone};

use ffa_model::{Address, CertRun, Effect, EndpointId, Op, Outcome, PageNo, Rights};
use ffa_physmem::PhysMem;
use ffa_playable::{Explanation, Playable, Readable};
use ffa_spmc::{Inline, Machine, Store};
use ffa_tlb::{NoTlb, Translations};

/// A machine that explains why it refuses an operation.
// It is a wrapper, because only the crate of a trait or of a type may implement the trait for the type.
#[derive(Drop)]
pub struct Explained<M: PhysMem + Drop, T: Translations + Drop = NoTlb, S: Store = Inline>(
    pub Machine<M, T, S>,
);

impl<M: PhysMem + Drop, T: Translations + Drop, S: Store> Playable for Explained<M, T, S> {
    ghost bench = { λ machine. alone machine.0.state };

    #[inline(always)]
    fn op(&mut self, op: &Op, effect: &mut Effect) {
        *effect = Effect::Outcome(Outcome::Done);
        if let Effect::Outcome(outcome) = effect {
            self.0.do_op(op, outcome);
        }
    }

    #[inline(always)]
    fn processors(&self) -> Option<usize> {
        None
    }

    fn turn(&mut self, _processor: usize) {}

    fn interrupt(&mut self) -> Outcome {
        Outcome::Done
    }

    fn why(&self, op: &Op) -> Option<Explanation> {
        crate::why(&self.0, op)
    }

    fn runner(&self) -> EndpointId {
        self.0.runner()
    }

    fn endpoints(&self) -> usize {
        self.0.endpoints()
    }

    fn ram_base(&self) -> Address {
        self.0.ram().base()
    }

    fn ram_pages(&self) -> u32 {
        self.0.ram().pages()
    }

    fn root_at(&self, place: usize) -> u32 {
        self.0.root_at(place)
    }

    fn owner_of(&self, page: PageNo) -> EndpointId {
        self.0.owner_of(page)
    }

    fn access(&self, endpoint: EndpointId, page: PageNo) -> Option<Rights> {
        self.0.access(endpoint, page)
    }

    fn offered(&self, endpoint: EndpointId, page: PageNo) -> Option<Rights> {
        crate::offered(&self.0, endpoint, page)
    }

    fn cert_run(&self, from: PageNo) -> CertRun {
        self.0.cert_run(from)
    }

    fn audit(&self, runs: &[CertRun]) -> bool {
        crate::telling::audit(&self.0, runs)
    }
}

impl<M: PhysMem + Drop, T: Translations + Drop, S: Store> Readable for Explained<M, T, S> {
    fn word_at(&self, page: PageNo, index: usize) -> u64 {
        self.0.ram().read_word(page, index)
    }
}
