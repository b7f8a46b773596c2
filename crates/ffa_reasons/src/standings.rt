// SPDX-License-Identifier: MIT OR Apache-2.0
//! Finds the state of the thing that a failed check of a call is about. It changes nothing and allocates nothing.
ghost use Rattle.std.specs.Prelude.{◌≡◌, ◌≤◌, length};
ghost use Rattle.ffa_model.specs.declared.limits.TheConstants.{MOST_ENDPOINTS};
ghost use Rattle.ffa_model.specs.RunStates.{schedule_of};
ghost use Rattle.ffa_playable.specs.Standing.{awaited, is_asked_by, run_state, standing_of_check, standing_of_endpoint};

use crate::reasons::Reasons;
use ffa_model::{About, EndpointId, Refusal, Work};
use ffa_physmem::PhysMem;
use ffa_playable::Standing;
use ffa_schedule::Chain;
use ffa_spmc::Store;
use ffa_tlb::Translations;

impl<M: PhysMem + Drop, T: Translations + Drop, S: Store> Reasons<'_, M, T, S> {
    // Returns the state of the thing that a check of a call is about.
    pub(crate) fn standing_of_check(
        &self,
        refusal: Refusal,
        about: Option<About>,
    ) -> Option<Standing>
        ensures { result ≡ standing_of_check self.now refusal about }
    {
        match about {
            Some(About::Endpoint(endpoint)) => self.standing_of_endpoint(refusal, endpoint),
            _ => None,
        }
    }

    // Returns the state of an endpoint that the call names.
    fn standing_of_endpoint(&self, refusal: Refusal, endpoint: EndpointId) -> Option<Standing>
        ensures { result ≡ standing_of_endpoint self.now refusal endpoint.0 }
    {
        match refusal {
            Refusal::ReceiverNotWaiting | Refusal::TargetNotReady => Some(self.run_state(endpoint)),
            _ => None,
        }
    }

    // Returns the run state of an endpoint, and the endpoint whose answer it awaits.
    fn run_state(&self, endpoint: EndpointId) -> Standing
        ensures { result ≡ run_state (length self.now.parties) (schedule_of self.now) endpoint.0 }
    {
        let endpoints = self.machine.endpoints();
        run_state(self.parts.chain, endpoints, endpoint)
    }
}

// Returns the run state of an endpoint in these chains of `endpoints` endpoints, and the endpoint whose answer it
// awaits.
fn run_state(chain: &Chain, endpoints: usize, endpoint: EndpointId) -> Standing
    requires { endpoints ≤ MOST_ENDPOINTS }
    ensures { result ≡ run_state endpoints chain.now endpoint.0 }
{
    Standing::RunState {
        status: chain.status(endpoint),
        awaits: awaited(chain, endpoints, endpoint),
    }
}

// Returns the endpoint that works on a direct request of another, if there is one.
fn awaited(chain: &Chain, endpoints: usize, sender: EndpointId) -> Option<EndpointId>
    requires { endpoints ≤ MOST_ENDPOINTS }
    ensures { result ≡ awaited endpoints chain.now sender.0 }
{
    for place in 0..endpoints {
        let receiver = EndpointId::at(place);
        if is_asked_by(chain, sender, receiver) {
            return Some(receiver);
        }
    }
    None
}

// Whether the work of a receiver is a direct request of a sender.
fn is_asked_by(chain: &Chain, sender: EndpointId, receiver: EndpointId) -> bool
    ensures { result ≡ is_asked_by chain.now sender.0 receiver.0 }
{
    match chain.work(receiver) {
        Some(Work::Request(by)) => by == sender,
        Some(Work::Run) | None => false,
    }
}
