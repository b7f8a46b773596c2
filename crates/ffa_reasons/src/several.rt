// SPDX-License-Identifier: MIT OR Apache-2.0
//! The machine that several processors run, as a player sees it.
ghost use Rattle.std.specs.Prelude.{◌≡◌, ◌≤◌, Some};
ghost use Rattle.ffa_model.specs.declared.limits.TheConstants.{MOST_PROCESSORS};
ghost use Rattle.ffa_playable.specs.Bench.{Bench};

use ffa_model::{Address, CertRun, Effect, EndpointId, Op, Outcome, PageNo, Rights};
use ffa_physmem::{PhysMem, Unshared};
use ffa_playable::{Explanation, Playable, Readable};
use ffa_spmc::{Cluster, Inline, Store};
use ffa_tlb::{NoTlb, Translations};
use std::marker::Model;

/// A machine of several processors that explains why it refuses an operation, and the number of processors that a trace
/// may name.
#[derive(Drop)]
pub struct ExplainedCluster<M: PhysMem + Drop, T: Translations + Drop = NoTlb, S: Store = Inline> {
    cluster: Cluster<M, T, S>,
    count: usize,
}

impl<M: PhysMem + Drop, T: Translations + Drop, S: Store> Model for ExplainedCluster<M, T, S> {
    ghost use Rattle.std.specs.Prelude.{Some};
    ghost use Rattle.ffa_playable.specs.Bench.{Bench, coded_bench};

    ghost Value = { Bench };

    ghost coded = { coded_bench };

    ghost view = { λ c. record {
      state = c.cluster.machine.state;
      several = Some (record { count = c.count; processors = c.cluster.processors });
    } };

    ghost use Rattle.std.specs.Prelude.{◌≤◌};
    ghost use Rattle.ffa_model.specs.declared.limits.TheConstants.{MOST_PROCESSORS};

    ghost invariant = { λ c. c.count ≤ MOST_PROCESSORS };
}

impl<M: PhysMem + Drop, T: Translations + Drop, S: Store> ExplainedCluster<M, T, S> {
    /// Makes the machine from a cluster. A trace may name `count` of its processors, from 0 on. The other processors
    /// stay as they are.
    pub fn of(cluster: Cluster<M, T, S>, count: usize) -> ExplainedCluster<M, T, S>
        requires { count ≤ MOST_PROCESSORS }
        ensures { result ≡ record {
          state = cluster.machine.state;
          several = Some (record { count = count; processors = cluster.processors });
        } }
    {
        ExplainedCluster { cluster, count }
    }
}

impl<M: Unshared + Drop, T: Translations + Drop, S: Store> Playable for ExplainedCluster<M, T, S> {
    ghost bench = { λ machine. machine };

    fn op(&mut self, op: &Op, effect: &mut Effect) {
        self.cluster.op(op, effect);
    }

    fn processors(&self) -> Option<usize> {
        Some(self.count)
    }

    fn turn(&mut self, processor: usize) {
        if processor < self.count {
            self.cluster.select(processor);
        }
    }

    fn interrupt(&mut self) -> Outcome {
        self.cluster.interrupt()
    }

    fn why(&self, op: &Op) -> Option<Explanation> {
        crate::why_resuming(self.cluster.machine(), op)
    }

    fn runner(&self) -> EndpointId {
        self.cluster.machine().runner()
    }

    fn endpoints(&self) -> usize {
        self.cluster.machine().endpoints()
    }

    fn ram_base(&self) -> Address {
        self.cluster.machine().ram().base()
    }

    fn ram_pages(&self) -> u32 {
        self.cluster.machine().ram().pages()
    }

    fn root_at(&self, place: usize) -> u32 {
        self.cluster.machine().root_at(place)
    }

    fn owner_of(&self, page: PageNo) -> EndpointId {
        self.cluster.machine().owner_of(page)
    }

    fn access(&self, endpoint: EndpointId, page: PageNo) -> Option<Rights> {
        self.cluster.machine().access(endpoint, page)
    }

    fn offered(&self, endpoint: EndpointId, page: PageNo) -> Option<Rights> {
        crate::offered(self.cluster.machine(), endpoint, page)
    }

    fn cert_run(&self, from: PageNo) -> CertRun {
        self.cluster.machine().cert_run(from)
    }

    fn audit(&self, runs: &[CertRun]) -> bool {
        crate::telling::audit(self.cluster.machine(), runs)
    }
}

impl<M: Unshared + Drop, T: Translations + Drop, S: Store> Readable for ExplainedCluster<M, T, S> {
    fn word_at(&self, page: PageNo, index: usize) -> u64 {
        self.cluster.machine().ram().read_word(page, index)
    }
}
