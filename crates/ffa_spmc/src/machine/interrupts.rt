// SPDX-License-Identifier: MIT OR Apache-2.0
//! Interrupts, which can preempt the partition that runs. FFA_RUN lets this partition go on where it was.
ghost use Rattle.std.specs.Option.{option_map};
ghost use Rattle.std.specs.Prelude.{◌≡◌};
ghost use Rattle.ffa_model.specs.Agreement.{Agrees};
ghost use Rattle.ffa_model.specs.declared.endpoint.EndpointId.{EndpointId};
ghost use Rattle.ffa_model.specs.Processors.{interrupt, resumed_by, with_switch};
ghost use Rattle.ffa_model.specs.Calls.{encode};
ghost use Rattle.ffa_model.specs.declared.function.TheConstants.{FFA_INTERRUPT};
ghost use Rattle.ffa_model.specs.declared.schedule.Status.TheVariants.{Blocked};
ghost use Rattle.ffa_model.specs.RunStates.{schedule_of, scheduled};
ghost use Rattle.ffa_model.specs.Sound.{MayGoOn, MayStop};
ghost use Rattle.ffa_model.specs.SoundState.{IsSoundState};
ghost use Rattle.ffa_spmc.specs.Cached.{AreWalks};
ghost use Rattle.ffa_spmc.specs.Clustered.{in_state};
ghost use Rattle.ffa_spmc.specs.Machines.{IsMachine};

use super::Machine;
use crate::storage::Store;
use ffa_model::function::FFA_INTERRUPT;
use ffa_model::{EndpointId, Op, Outcome, Reply, Status};
use ffa_physmem::PhysMem;
use ffa_tlb::Translations;

impl<M: PhysMem + Drop, T: Translations + Drop, S: Store> Machine<M, T, S> {
    /// Takes an interrupt for the normal world (DEN0077A, 9). A partition that runs is preempted, and the normal world
    /// runs. The normal world sees FFA_INTERRUPT, which names the partition. If the normal world runs already, nothing
    /// changes, and the outcome is `Done`.
    pub fn interrupt(&mut self) -> Outcome
        ensures outcome { result ≡ (interrupt self.old.state).outcome }
        // Everything except the run states is as before: tables and RAM, the cache, and the report of changed access.
        ensures machine { self.new ≡ in_state self.old (interrupt self.old.state).state }
        ensures agrees { Agrees self.new.ram self.new.state }
        ensures sound { IsSoundState self.new.state }
        ensures walks { AreWalks self.new }
    {
        let runner = self.runner();
        if runner == EndpointId::NORMAL_WORLD {
            // Proof step: the state is sound, and the tables grant its access.
            self.manager.holds();
            return Outcome::Done;
        }
        self.switch(Status::Preempted, EndpointId::NORMAL_WORLD);
        // Proof step: the state is sound, and the tables grant its access.
        self.manager.holds();
        interrupted(runner)
    }

    // Returns the preempted partition that an operation of the runner lets go on, if there is one.
    #[inline(always)]
    pub(crate) fn resumed_by(&self, op: &Op) -> Option<EndpointId>
        ensures { option_map (λ (e : EndpointId). e.0) result ≡ resumed_by self.now.state op.now }
    {
        self.manager.resumed_by(op)
    }

    // Blocks the normal world, and lets a preempted partition go on.
    pub(crate) fn resume(&mut self, partition: EndpointId)
        requires normal { self.old.state.runner ≡ 0 }
        requires goes { MayGoOn (schedule_of self.old.state) partition.0 }
        ensures { self.new ≡ in_state self.old (with_switch self.old.state Blocked partition.0) }
    {
        self.switch(Status::Blocked, partition);
    }

    // States what holds of every machine.
    #[inline(always)]
    pub(crate) fn holds(&self)
        ensures { IsMachine self.now }
    {
        self.manager.holds();
    }

    // Stops the runner in this status with the work that it has. Lets an endpoint go on with its own work.
    pub(crate) fn switch(&mut self, status: Status, endpoint: EndpointId)
        requires stops { MayStop (schedule_of self.old.state) status }
        requires goes { MayGoOn (schedule_of self.old.state) endpoint.0 }
        ensures { self.new ≡ in_state self.old (with_switch self.old.state status endpoint.0) }
    {
        self.manager.switch(status, endpoint);
    }
}

// Returns the outcome that the normal world sees of an interrupt that preempted a partition.
fn interrupted(partition: EndpointId) -> Outcome
    ensures { result ≡ Outcome.Regs (record { 0 = 0 }) (encode (scheduled FFA_INTERRUPT partition.0)) }
{
    Outcome::Regs {
        runner: EndpointId::NORMAL_WORLD,
        x: ffa_abi::encode(&Reply::Scheduled {
            function: FFA_INTERRUPT,
            partition,
        }),
    }
}
