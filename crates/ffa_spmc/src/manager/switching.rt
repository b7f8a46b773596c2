// SPDX-License-Identifier: MIT OR Apache-2.0
//! Changes of the runner apart from calls. An interrupt preempts a partition, a preempted partition goes on, and
//! another processor does an operation.
ghost use Rattle.std.specs.Prelude.{◌≡◌};
ghost use Rattle.std.specs.Option.{option_map};
ghost use Rattle.ffa_model.specs.declared.endpoint.EndpointId.{EndpointId};
ghost use Rattle.ffa_model.specs.declared.call.Call.{Call};
ghost use Rattle.ffa_model.specs.Processors.{resumed_by, resumed_by_call, with_switch};
ghost use Rattle.ffa_model.specs.RunStates.{schedule_of};
ghost use Rattle.ffa_model.specs.Sound.{MayGoOn, MayStop};

use super::Manager;
use crate::storage::Store;
use ffa_model::function::FFA_RUN;
use ffa_model::{EndpointId, Op, Status};
use ffa_physmem::PhysMem;

impl<M: PhysMem + Drop, S: Store> Manager<M, S> {
    // Stops the runner in this status with the work that it has. Lets an endpoint go on with its own work.
    pub(crate) fn switch(&mut self, status: Status, endpoint: EndpointId)
        requires stops { MayStop (schedule_of self.old.state) status }
        requires goes { MayGoOn (schedule_of self.old.state) endpoint.0 }
        ensures { self.new ≡ record self.old { state = with_switch self.old.state status endpoint.0 } }
    {
        self.kept.chain.switch(status, endpoint);
    }

    // Returns the preempted partition that an operation of the runner lets go on, if there is one.
    pub(crate) fn resumed_by(&self, op: &Op) -> Option<EndpointId>
        ensures { option_map (λ (e : EndpointId). e.0) result ≡ resumed_by self.now.state op.now }
    {
        let Op::Call(x) = op else { return None };
        if ffa_abi::low(x[0]) != FFA_RUN {
            return None;
        }
        let word = ffa_abi::low(x[1]);
        self.resumed_by_run(
            EndpointId((word / 0x1_0000) as u16),
            (word % 0x1_0000) as u16,
        )
    }

    // Returns the preempted partition that FFA_RUN of this endpoint and execution context lets go on, if there is one.
    fn resumed_by_run(&self, target: EndpointId, context: u16) -> Option<EndpointId>
        ensures { option_map (λ (e : EndpointId). e.0) result
            ≡ resumed_by_call self.now.state (Call.Run target context) }
    {
        if self.kept.chain.may_resume(target, context) {
            Some(target)
        } else {
            None
        }
    }
}
