// SPDX-License-Identifier: MIT OR Apache-2.0
//! A machine that several processors run.
ghost use Rattle.std.specs.Prelude.{◌≡◌, ◌<◌, None, true, length, map, slice_set};
ghost use Rattle.ffa_model.specs.declared.endpoint.EndpointId.{EndpointId};
ghost use Rattle.ffa_model.specs.declared.limits.TheConstants.{MOST_PROCESSORS};
ghost use Rattle.ffa_model.specs.Agreement.{Agrees};
ghost use Rattle.ffa_model.specs.Processors.{ArePlaced, IsHere, first_processors, interrupt, left_status, turned};
ghost use Rattle.ffa_model.specs.SoundState.{IsSoundState};
ghost use Rattle.ffa_physmem.specs.Moments.{HasNoCopies};
ghost use Rattle.ffa_spmc.specs.Cached.{AreWalks};
ghost use Rattle.ffa_spmc.specs.Clustered.{IsEffected, IsEffectedAlone, in_state, seen_by};
ghost use Rattle.ffa_spmc.specs.Snapshot.{memory_in};
ghost use Rattle.ffa_spmc.specs.Unowned.{KeepsUnowned};

mod copy;

use crate::machine::Machine;
use crate::storage::{Inline, Store};
use arrayvec::ArrayVec;
use ffa_memshare::Changed;
use ffa_model::{Effect, EndpointId, MOST_PROCESSORS, Op, Outcome, Status};
use ffa_physmem::{Observed, PhysMem};
use ffa_tlb::{NoTlb, Translations};
use std::marker::Model;

/// A machine that several processors run. On each processor either the normal world or a partition runs. A partition
/// runs on at most one processor. Contracts see the machine as the processor of the last operation does, and the
/// endpoint that runs on each other processor.
#[derive(Drop)]
pub struct Cluster<M: PhysMem + Drop, T: Translations + Drop = NoTlb, S: Store = Inline> {
    machine: Machine<M, T, S>,
    // The processor that did the last operation.
    current: usize,
    // The endpoint that runs on each other processor. The entry of the current processor has no meaning.
    runners: ArrayVec<EndpointId, MOST_PROCESSORS>,
}

impl<M: PhysMem + Drop, T: Translations + Drop, S: Store> Model for Cluster<M, T, S> {
    ghost use Rattle.std.specs.Prelude.{map};
    ghost use Rattle.ffa_model.specs.declared.endpoint.EndpointId.{EndpointId};
    ghost use Rattle.ffa_spmc.specs.Clustered.{Clustered, coded_clustered};

    ghost Value = { Clustered };

    ghost coded = { coded_clustered };

    ghost use Rattle.ffa_model.specs.Processors.{ArePlaced};
    ghost use Rattle.ffa_physmem.specs.Moments.{HasNoCopies};

    ghost view = { λ c. record {
      machine = c.machine;
      processors = record { current = c.current; runners = map (λ (e : EndpointId). e.0) c.runners.items };
    } };

    // Between operations no page is in a copy, so memory is RAM.
    ghost invariant = { λ c. ArePlaced
        (record { current = c.current; runners = map (λ (e : EndpointId). e.0) c.runners.items }) c.machine.state
        × HasNoCopies c.machine.past };
}

impl<M: PhysMem + Drop, T: Translations + Drop, S: Store> Cluster<M, T, S> {
    /// Makes a machine of several processors from this machine, whose operations so far the first processor did. On all
    /// other processors the normal world runs.
    pub fn of(machine: Machine<M, T, S>) -> Cluster<M, T, S>
        requires here { IsHere machine.state }
        requires free { HasNoCopies machine.past }
        ensures machine { result.machine ≡ machine }
        ensures processors { result.processors ≡ first_processors }
    {
        let mut runners = ArrayVec::new();
        for _processor in 0..MOST_PROCESSORS {
            runners.push(EndpointId::NORMAL_WORLD);
        }
        Cluster {
            machine,
            current: 0,
            runners,
        }
    }

    /// Returns the machine as the processor of the last operation sees it. Its RAM is memory itself.
    pub fn machine(&self) -> &Machine<M, T, S>
        ensures machine { result.now ≡ self.now.machine }
        ensures memory { memory_in self.now.machine ≡ self.now.machine.ram }
    {
        &self.machine
    }

    /// Selects a processor. From then on the machine is as this processor sees it, and the operations are those that
    /// the endpoint on this processor does. A partition that runs on another processor is busy (BUSY).
    pub fn select(&mut self, processor: usize)
        requires { processor < MOST_PROCESSORS }
        ensures machine { self.new.machine ≡ seen_by processor self.old }
        ensures processors { self.new.processors ≡ turned self.old.processors processor self.old.machine.state }
    {
        if processor == self.current {
            return;
        }
        // Proof step: the state is sound, so the endpoint that runs elsewhere may go on.
        self.machine.holds();
        let runner = self.machine.runner();
        let next = self.runners[processor];
        self.machine.switch(left_status(runner), next);
        note(&mut self.runners, self.current, runner);
        self.current = processor;
    }

    /// Takes an interrupt on the selected processor. If a partition runs there, it is preempted, and the normal world
    /// runs. The normal world then sees FFA_INTERRUPT, which names the partition. If the normal world runs there,
    /// nothing changes.
    pub fn interrupt(&mut self) -> Outcome
        ensures outcome { result ≡ (interrupt self.old.machine.state).outcome }
        ensures machine { self.new.machine ≡ in_state self.old.machine (interrupt self.old.machine.state).state }
        ensures processors { self.new.processors ≡ self.old.processors }
        ensures agrees { Agrees self.new.machine.ram self.new.machine.state }
        ensures sound { IsSoundState self.new.machine.state }
        ensures walks { AreWalks self.new.machine }
    {
        // Proof step: processors and state fit together.
        self.holds();
        self.machine.interrupt()
    }

    /// Returns the report of the access that the last successful call on memory changed, and clears it. The endpoint in
    /// the report is the caller, or `None`, as after FFA_MEM_SHARE.
    pub fn take_change(&mut self) -> Option<Changed>
        ensures told { result ≡ self.old.machine.told }
        ensures rest { self.new ≡ record self.old { machine = record self.old.machine { told = None } } }
    {
        self.machine.take_change()
    }

    /// Ends the machine of several processors, and returns it as the selected processor sees it.
    pub fn into_machine(self) -> Machine<M, T, S>
        ensures machine { result ≡ self.machine }
        ensures free { HasNoCopies result.past }
    {
        self.machine
    }

    // States what holds of every machine that several processors run.
    #[inline(always)]
    fn holds(&self)
        ensures placed { ArePlaced self.now.processors self.now.machine.state }
        ensures free { HasNoCopies self.now.machine.past }
        ensures agrees { Agrees self.now.machine.ram self.now.machine.state }
        ensures sound { IsSoundState self.now.machine.state }
        ensures walks { AreWalks self.now.machine }
    {
        self.machine.holds();
    }
}

impl<M: Observed + Drop, T: Translations + Drop, S: Store> Cluster<M, T, S> {
    /// Does one operation of the endpoint that runs on the selected processor, and writes its effect to `effect`.
    /// FFA_RUN of a preempted partition lets the partition go on where it was.
    ///
    /// If others may write to the caller's TX, the call first reads at once all bytes that it uses there.
    pub fn op(&mut self, op: &Op, effect: &mut Effect)
        // Either the operation keeps all that `Machine::op` promises, with the pages of TX as they were observed. Or a
        // preempted partition goes on, and only the run states change.
        ensures done { IsEffected M.is_shared self.old.machine op.now effect.new self.new.machine }
        // If nobody else writes, the outcome and the next state are exactly the small machine's.
        ensures alone { M.is_alone ≡ true → IsEffectedAlone self.old.machine.state op.now effect.new self.new.machine.state }
        ensures processors { self.new.processors ≡ self.old.processors }

        // No page is in a copy any longer, so memory is RAM. Each page lies where it lay before.
        ensures memory { memory_in self.new.machine ≡ self.new.machine.ram }
        ensures places { self.new.machine.past.site.places ≡ self.old.machine.past.site.places }

        // Whatever others wrote, walks lead to exactly the access of the state, the state is sound, and the cache holds
        // nothing that is stale.
        ensures agrees { Agrees self.new.machine.ram self.new.machine.state }
        ensures sound { IsSoundState self.new.machine.state }
        ensures walks { AreWalks self.new.machine }
        ensures unowned { KeepsUnowned self.old.machine.state self.old.machine.ram self.new.machine.ram }
    {
        // Proof step: processors and state fit together, so a preempted partition may go on.
        self.holds();
        if let Some(target) = self.machine.resumed_by(op) {
            *effect = Effect::Resumed(target);
            self.machine.resume(target);
            // Proof step: the tables grant the access of the state, which is sound.
            self.machine.holds();
            return;
        }
        *effect = Effect::Outcome(Outcome::Done);
        let Effect::Outcome(outcome) = effect else {
            unreachable!()
        };
        let read = self.machine.begin_reading(op);
        self.machine.do_op(op, outcome);
        self.machine.end_reading(read);
        // Proof step: the tables grant the access of the state, which is sound.
        self.machine.holds();
    }
}

// Returns the status that another processor sees of the endpoint that runs on this one.
fn left_status(runner: EndpointId) -> Status
    ensures { result ≡ left_status runner.0 }
{
    if runner == EndpointId::NORMAL_WORLD {
        Status::Blocked
    } else {
        Status::RunsElsewhere
    }
}

// Notes that this endpoint runs on a processor.
fn note(runners: &mut ArrayVec<EndpointId, MOST_PROCESSORS>, processor: usize, runner: EndpointId)
    requires { processor < length runners.old.items }
    ensures { runners.new.items ≡ slice_set runners.old.items processor runner }
{
    runners[processor] = runner;
}
