// SPDX-License-Identifier: MIT OR Apache-2.0
//! The chains of endpoints that work for one another.
ghost use Rattle.std.specs.Prelude.{◌≡◌, ◌<◌, ◌≤◌, length, slice_set, is_some, true, Some, None, OnOk, OnErr, IfOk, IsSomeAnd};
ghost use Rattle.std.specs.Result.{result_err};
ghost use Rattle.ffa_model.specs.Calls.{first_failure};
ghost use Rattle.ffa_model.specs.declared.function.TheConstants.{FFA_MSG_WAIT, FFA_YIELD};
ghost use Rattle.ffa_model.specs.declared.schedule.Status.TheVariants.{Yielded, Blocked};
ghost use Rattle.ffa_model.specs.First.{first_status};
ghost use Rattle.ffa_model.specs.Identifiers.{place};
ghost use Rattle.ffa_model.specs.RunStates.{finished, first_schedule, given_cycles, is_waiting, requested, requester, run_guards, run_reply, scheduled, status_in, switched, wait_guards, with_work, work_in, yield_guards};
ghost use Rattle.ffa_model.specs.Sound.{IsSound, MayGoOn, MayStop, origin};
ghost use Rattle.ffa_model.specs.State.{is_partition_among};

use arrayvec::ArrayVec;
use ffa_model::function::{FFA_MSG_WAIT, FFA_RUN, FFA_YIELD};
use ffa_model::{EndpointId, ErrorCode, MOST_ENDPOINTS, Reply, Status, Work};
use std::marker::Model;

/// The run states: which endpoint runs, and for whom (DEN0077A, 8.2 and 9). Chains of endpoints lead from the normal
/// world to the runner, and to each partition that has stopped in the middle of its work. Each endpoint of a chain is
/// blocked for the next one.
#[derive(Drop)]
pub struct Chain {
    // The endpoint that runs.
    pub(crate) runner: EndpointId,
    // The run state of each endpoint.
    pub(crate) statuses: ArrayVec<Status, MOST_ENDPOINTS>,
    // The work of each endpoint. It works for the endpoint before it in the chain.
    pub(crate) works: ArrayVec<Option<Work>, MOST_ENDPOINTS>,
}

impl Model for Chain {
    ghost use Rattle.ffa_model.specs.Codes.{coded_schedule};
    ghost use Rattle.ffa_model.specs.RunStates.{Schedule};

    ghost Value = { Schedule };

    ghost coded = { coded_schedule };

    ghost use Rattle.ffa_schedule.specs.Kept.{IsKept};

    ghost view = { λ c. record {
      runner = c.runner.0;
      statuses = c.statuses.items;
      works = c.works.items;
    } };

    ghost invariant = { λ c. IsKept (record {
      runner = c.runner.0;
      statuses = c.statuses.items;
      works = c.works.items;
    }) };
}

impl Chain {
    /// Returns the run states at boot: the normal world runs, and each partition of the machine waits.
    pub fn first(endpoints: usize) -> Chain
        requires some { 1 ≤ endpoints }
        requires few { endpoints ≤ MOST_ENDPOINTS }
        ensures value { result ≡ first_schedule endpoints }
        ensures sound { IsSound result }
    {
        let mut statuses = ArrayVec::new();
        let mut works = ArrayVec::new();
        for place in 0..endpoints {
            statuses.push(first_status(place));
            works.push(None);
        }
        Chain {
            runner: EndpointId::NORMAL_WORLD,
            statuses,
            works,
        }
    }

    /// Returns a copy of the chains. It allocates nothing.
    pub fn copy(&self) -> Chain
        ensures { result ≡ self.now }
    {
        Chain {
            runner: self.runner,
            statuses: copied(&self.statuses),
            works: copied(&self.works),
        }
    }

    /// Returns the endpoint that runs.
    pub fn runner(&self) -> EndpointId
        ensures runner { result.0 ≡ self.now.runner }
        ensures sound { IsSound self.now }
    {
        self.runner
    }

    /// Returns the run state of an endpoint. For an identifier of no endpoint, it returns the run state at the
    /// identifier's place.
    pub fn status(&self, endpoint: EndpointId) -> Status
        ensures { result ≡ status_in self.now endpoint.0 }
    {
        let place = endpoint.place();
        if place < self.statuses.len() {
            self.statuses[place]
        } else {
            Status::Waiting
        }
    }

    /// Returns the work of an endpoint, if it has work. For an identifier of no endpoint, it returns the work at the
    /// identifier's place.
    pub fn work(&self, endpoint: EndpointId) -> Option<Work>
        ensures { result ≡ work_in self.now endpoint.0 }
    {
        let place = endpoint.place();
        if place < self.works.len() {
            self.works[place]
        } else {
            None
        }
    }

    /// Gives cycles to a target in one of its execution contexts: FFA_RUN (DEN0077A, 8.2). The normal world is then
    /// blocked, and the target runs. A waiting target gets work, and a target that has yielded continues with its own
    /// work. The reply is what the target sees.
    ///
    /// # Errors
    ///
    /// The first of these that applies. An error changes nothing.
    ///
    /// - `Denied`: the runner is not the normal world.
    /// - `InvalidParameters`: the target is not a partition, or the execution context is not 0.
    /// - `Busy`: the target is not waiting and has not yielded.
    pub fn run_partition(&mut self, target: EndpointId, context: u16) -> Result<Reply, ErrorCode>
        ensures refusal { result_err result
            ≡ first_failure (run_guards (length self.old.works) self.old target.0 context) }
        ensures reply { IfOk result (λ reply. reply ≡ run_reply target.0 (status_in self.old target.0)) }
        ensures kept { OnErr result (self.new ≡ self.old) }
        ensures changed { OnOk result (self.new ≡ given_cycles self.old target.0 (status_in self.old target.0)) }
        ensures sound { IsSound self.new }
    {
        self.check_run(target, context)?;
        match self.status(target) {
            Status::Waiting => {
                self.start(target, Work::Run);
                Ok(reply_with(FFA_RUN, target))
            }
            _ => {
                self.switch(Status::Blocked, target);
                Ok(Reply::Success([0; 6]))
            }
        }
    }

    /// Makes the runner wait: FFA_MSG_WAIT (DEN0077A, 8.2). The normal world, which gave it cycles, then runs. The
    /// reply is what the normal world sees.
    ///
    /// # Errors
    ///
    /// `Denied` if the normal world did not give the runner cycles. An error changes nothing.
    pub fn wait(&mut self) -> Result<Reply, ErrorCode>
        ensures refusal { result_err result ≡ first_failure (wait_guards self.old) }
        ensures reply { IfOk result (λ reply. reply ≡ scheduled FFA_MSG_WAIT self.old.runner) }
        ensures kept { OnErr result (self.new ≡ self.old) }
        ensures changed { OnOk result (self.new ≡ finished self.old 0) }
        ensures sound { IsSound self.new }
    {
        let runner = self.runner();
        self.check_wait()?;
        self.finish(EndpointId::NORMAL_WORLD);
        Ok(reply_with(FFA_MSG_WAIT, runner))
    }

    /// Makes the runner yield with its work: FFA_YIELD (DEN0077A, 8.2). The normal world, for which the runner works,
    /// then runs. The reply is what the normal world sees.
    ///
    /// # Errors
    ///
    /// `Denied` if the runner does not work for the normal world. An error changes nothing.
    pub fn yield_now(&mut self) -> Result<Reply, ErrorCode>
        ensures refusal { result_err result ≡ first_failure (yield_guards self.old) }
        ensures reply { IfOk result (λ reply. reply ≡ scheduled FFA_YIELD self.old.runner) }
        ensures kept { OnErr result (self.new ≡ self.old) }
        ensures changed { OnOk result (self.new ≡ switched self.old Yielded 0) }
        ensures sound { IsSound self.new }
    {
        let runner = self.runner();
        self.check_yield()?;
        self.switch(Status::Yielded, EndpointId::NORMAL_WORLD);
        Ok(reply_with(FFA_YIELD, runner))
    }

    /// Makes a direct request of the runner (DEN0077A, 15). The runner is then blocked, and the receiver works for it
    /// and runs.
    pub fn request(&mut self, receiver: EndpointId)
        requires partition { is_partition_among (length self.old.works) receiver.0 ≡ true }
        requires waiting { is_waiting (status_in self.old receiver.0) ≡ true }
        ensures changed { self.new ≡ requested self.old receiver.0 }
        ensures sound { IsSound self.new }
    {
        let work = Work::Request(self.runner());
        self.start(receiver, work);
    }

    /// Makes the direct response of the runner (DEN0077A, 15). The runner then waits, and the endpoint whose request it
    /// answers runs.
    pub fn respond(&mut self)
        requires answers { is_some (requester (work_in self.old self.old.runner)) ≡ true }
        ensures changed { IsSomeAnd (requester (work_in self.old self.old.runner)) (λ by.
            self.new ≡ finished self.old by) }
        ensures sound { IsSound self.new }
    {
        if let Some(Work::Request(by)) = self.own_work() {
            self.finish(by);
        }
    }

    /// Stops the runner in this status, with the work that it has, and lets another endpoint continue with its own
    /// work. That endpoint had stopped in the same way, or is the normal world. This happens when an interrupt preempts
    /// a partition, when a preempted partition continues, and when another processor does an operation.
    pub fn switch(&mut self, status: Status, endpoint: EndpointId)
        requires stops { MayStop self.old status }
        requires goes { MayGoOn self.old endpoint.0 }
        ensures changed { self.new ≡ switched self.old status endpoint.0 }
        ensures sound { IsSound self.new }
    {
        set_status(&mut self.statuses, self.runner, status);
        set_status(&mut self.statuses, endpoint, Status::Running);
        self.runner = endpoint;
    }

    // Blocks the runner, and makes a waiting partition run with this work for it.
    fn start(&mut self, partition: EndpointId, work: Work)
        requires partition { is_partition_among (length self.old.works) partition.0 ≡ true }
        requires waiting { is_waiting (status_in self.old partition.0) ≡ true }
        requires origin { origin (Some work) ≡ Some self.old.runner }
        ensures changed { self.new ≡ with_work (switched self.old Blocked partition.0) partition.0 (Some work) }
        ensures sound { IsSound self.new }
    {
        set_status(&mut self.statuses, self.runner, Status::Blocked);
        set_status(&mut self.statuses, partition, Status::Running);
        set_work(&mut self.works, partition, Some(work));
        self.runner = partition;
    }

    // Ends the work of the runner, which then waits. The endpoint that it worked for runs.
    fn finish(&mut self, by: EndpointId)
        requires { origin (work_in self.old self.old.runner) ≡ Some by.0 }
        ensures changed { self.new ≡ finished self.old by.0 }
        ensures sound { IsSound self.new }
    {
        set_status(&mut self.statuses, self.runner, Status::Waiting);
        set_status(&mut self.statuses, by, Status::Running);
        set_work(&mut self.works, self.runner, None);
        self.runner = by;
    }
}

// Returns the first run state of the endpoint at a place in the manifest.
fn first_status(place: usize) -> Status
    ensures { result ≡ first_status place }
{
    if place == 0 {
        Status::Running
    } else {
        Status::Waiting
    }
}

// Sets the run state of an endpoint.
fn set_status(statuses: &mut ArrayVec<Status, MOST_ENDPOINTS>, endpoint: EndpointId, status: Status)
    requires { place endpoint.0 < length statuses.old.items }
    ensures { statuses.new.items ≡ slice_set statuses.old.items (place endpoint.0) status }
{
    statuses[endpoint.place()] = status;
}

// Sets the work of an endpoint.
fn set_work(
    works: &mut ArrayVec<Option<Work>, MOST_ENDPOINTS>,
    endpoint: EndpointId,
    work: Option<Work>,
)
    requires { place endpoint.0 < length works.old.items }
    ensures { works.new.items ≡ slice_set works.old.items (place endpoint.0) work }
{
    works[endpoint.place()] = work;
}

// Returns what the endpoint that runs next sees of a partition that gets cycles or returns them.
fn reply_with(function: u32, partition: EndpointId) -> Reply
    ensures { result ≡ scheduled function partition.0 }
{
    Reply::Scheduled {
        function,
        partition,
    }
}

// Returns a copy of a list.
fn copied<T: Copy + Default, const MOST: usize>(list: &ArrayVec<T, MOST>) -> ArrayVec<T, MOST>
    ensures { result ≡ list.now }
{
    let mut copy = ArrayVec::new();
    for item in list.as_slice() {
        copy.push(*item);
    }
    copy
}
