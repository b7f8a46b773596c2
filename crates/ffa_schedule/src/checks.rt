// SPDX-License-Identifier: MIT OR Apache-2.0
//! The checks of the calls on run states (DEN0077A, 8.2). Each function returns the first check that fails.
ghost use Rattle.std.specs.Prelude.{◌≡◌, ◌||◌, length, Some, OnOk, IfOk};
ghost use Rattle.std.specs.Result.{result_err};
ghost use Rattle.ffa_model.specs.Calls.{first_refusal};
ghost use Rattle.ffa_model.specs.declared.schedule.Work.TheVariants.{Run};
ghost use Rattle.ffa_model.specs.RunStates.{is_endpoint, is_preempted, is_run, keeps_rx, requester, run_guards, wait_guards, work_in, yield_guards};
ghost use Rattle.ffa_model.specs.Sound.{IsSound, origin};
ghost use Rattle.ffa_model.specs.Processors.{may_resume};

use crate::chain::Chain;
use ffa_model::{EndpointId, Refusal, Status, Version, Work};

impl Chain {
    /// Makes the checks of FFA_RUN in order. Returns the first that fails.
    pub fn check_run(&self, target: EndpointId, context: u16) -> Result<(), Refusal>
        ensures refusal { result_err result
            ≡ first_refusal (run_guards (length self.now.works) self.now target.0 context) }
        ensures sound { IsSound self.now }
    {
        if self.runner() != EndpointId::NORMAL_WORLD {
            return Err(Refusal::NotNormalWorld);
        }
        if !target.is_partition_among(self.works.len()) {
            return Err(Refusal::TargetUnknown);
        }
        if context != 0 {
            return Err(Refusal::ContextUnknown);
        }
        match self.status(target) {
            Status::Waiting | Status::Yielded => Ok(()),
            Status::Running | Status::Blocked | Status::Preempted | Status::RunsElsewhere => {
                Err(Refusal::TargetNotReady)
            }
        }
    }

    /// Makes the check of FFA_MSG_WAIT, which fails if the normal world did not give the runner cycles.
    pub fn check_wait(&self) -> Result<(), Refusal>
        ensures refusal { result_err result ≡ first_refusal (wait_guards self.now) }
        ensures work { OnOk result (work_in self.now self.now.runner ≡ Some Run) }
    {
        match self.own_work() {
            Some(Work::Run) => Ok(()),
            _ => Err(Refusal::NotRun),
        }
    }

    /// Makes the check of FFA_YIELD, which fails if the runner does not work for the normal world. Returns the work
    /// with which the runner yields.
    pub fn check_yield(&self) -> Result<Work, Refusal>
        ensures refusal { result_err result ≡ first_refusal (yield_guards self.now) }
        ensures work { IfOk result (λ work. work_in self.now self.now.runner ≡ Some work) }
        ensures origin { IfOk result (λ work. origin (Some work) ≡ Some 0) }
    {
        match self.own_work() {
            Some(work) if works_for_normal_world(work) => Ok(work),
            _ => Err(Refusal::NobodyToYieldTo),
        }
    }

    /// Whether FFA_RUN of a target in one of its execution contexts lets a preempted partition continue.
    pub fn may_resume(&self, target: EndpointId, context: u16) -> bool
        ensures may { result ≡ may_resume (length self.now.works) self.now target.0 context }
        ensures sound { IsSound self.now }
    {
        self.runner() == EndpointId::NORMAL_WORLD
            && target.is_partition_among(self.works.len())
            && context == 0
            && is_preempted(self.status(target))
    }

    // Returns the work of the runner.
    pub(crate) fn own_work(&self) -> Option<Work>
        ensures { result ≡ work_in self.now self.now.runner }
    {
        self.work(self.runner())
    }
}

/// Whether FFA_MSG_WAIT with these flags leaves the RX of a caller of this form as it is. Bit 0 says this, and only in
/// FF-A 1.2.
pub fn keeps_rx(version: Version, flags: u32) -> bool
    ensures { result ≡ keeps_rx version flags }
{
    match version {
        Version::V1_2 => flags % 2 == 1,
        _ => false,
    }
}

// Whether an interrupt stopped an endpoint in this run state.
fn is_preempted(status: Status) -> bool
    ensures { result ≡ is_preempted status }
{
    matches!(status, Status::Preempted)
}

// Whether the normal world is the endpoint for which this work is.
fn works_for_normal_world(work: Work) -> bool
    ensures { result ≡ (is_run (Some work) || is_endpoint 0 (requester (Some work))) }
{
    match work {
        Work::Run => true,
        Work::Request(by) => by == EndpointId::NORMAL_WORLD,
    }
}
