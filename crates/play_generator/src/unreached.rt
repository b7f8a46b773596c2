// SPDX-License-Identifier: MIT OR Apache-2.0
//! The reasons why traces do not reach a check.
ghost use Rattle.std.specs.Prelude.{◌≡◌, ◌==◌, ◌&&◌, bit_and, drop, is_none, is_some, not, true, if◌then◌else◌, None, Some};
ghost use Rattle.std.specs.List.{list_all};
ghost use Rattle.ffa_model.specs.Codes.{serves_1_1};
ghost use Rattle.ffa_model.specs.Regions.{normal_of, regions_at};
ghost use Rattle.play_generator.specs.Unreached.{have_all, is_unreached};

use bitflags::Flags;
use ffa_model::function::{
    FFA_MEM_DONATE, FFA_MEM_RETRIEVE_REQ, FFA_MEM_SHARE, FFA_PARTITION_INFO_GET, FFA_RUN,
};
use ffa_model::{Endpoint, Ffa, Manifest, Properties, Refusal};

/// Facts about a machine. They say whether every endpoint may send direct requests, whether every partition may receive
/// them, and whether every endpoint takes part in indirect messages. They say whether the machine does not separate
/// secure and non-secure memory, whether only one processor runs it, and which version of FF-A it serves.
#[derive(Clone, Copy, Default)]
pub struct Everyone {
    pub sends_requests: bool,
    pub receives_requests: bool,
    pub takes_messages: bool,
    pub tells_no_worlds: bool,
    pub runs_alone: bool,
    pub serves_1_1: bool,
    pub serves_1_2: bool,
}

impl Everyone {
    /// The facts about no machine, which are all true.
    pub const NOWHERE: Everyone = Everyone {
        sends_requests: true,
        receives_requests: true,
        takes_messages: true,
        tells_no_worlds: true,
        runs_alone: true,
        serves_1_1: true,
        serves_1_2: true,
    };

    /// Returns the facts about the machine of a manifest, which only one processor runs.
    pub fn of(manifest: &Manifest) -> Everyone
        ensures sends { result.sends_requests ≡ have_all 1 manifest.now.endpoints.items }
        ensures receives { result.receives_requests ≡ have_all 0 (drop 1 manifest.now.endpoints.items) }
        ensures takes { result.takes_messages ≡ have_all 2 manifest.now.endpoints.items }
        ensures worlds { result.tells_no_worlds ≡ is_none (normal_of manifest.now.ffa (regions_at manifest.now.endpoints.items 0)) }
        ensures alone { result.runs_alone ≡ true }
        ensures first { result.serves_1_1 ≡ serves_1_1 manifest.now.ffa }
        ensures second { result.serves_1_2 ≡ not (serves_1_1 manifest.now.ffa) }
    {
        let all = manifest.endpoints.as_slice();
        let partitions = &all[all.len().min(1)..];
        Everyone {
            sends_requests: all_have(all, Properties::SENDS_DIRECT_REQUESTS),
            receives_requests: all_have(partitions, Properties::RECEIVES_DIRECT_REQUESTS),
            takes_messages: all_have(all, Properties::INDIRECT_MESSAGES),
            tells_no_worlds: !manifest.tells_worlds(),
            runs_alone: true,
            serves_1_1: manifest.ffa == Ffa::V1_1,
            serves_1_2: manifest.ffa != Ffa::V1_1,
        }
    }

    /// Returns the facts that are true both of these machines and of others.
    pub fn and(self, other: Everyone) -> Everyone
        ensures sends { result.sends_requests ≡ (self.sends_requests && other.sends_requests) }
        ensures receives { result.receives_requests ≡ (self.receives_requests && other.receives_requests) }
        ensures takes { result.takes_messages ≡ (self.takes_messages && other.takes_messages) }
        ensures worlds { result.tells_no_worlds ≡ (self.tells_no_worlds && other.tells_no_worlds) }
        ensures alone { result.runs_alone ≡ (self.runs_alone && other.runs_alone) }
        ensures first { result.serves_1_1 ≡ (self.serves_1_1 && other.serves_1_1) }
        ensures second { result.serves_1_2 ≡ (self.serves_1_2 && other.serves_1_2) }
    {
        Everyone {
            sends_requests: self.sends_requests && other.sends_requests,
            receives_requests: self.receives_requests && other.receives_requests,
            takes_messages: self.takes_messages && other.takes_messages,
            tells_no_worlds: self.tells_no_worlds && other.tells_no_worlds,
            runs_alone: self.runs_alone && other.runs_alone,
            serves_1_1: self.serves_1_1 && other.serves_1_1,
            serves_1_2: self.serves_1_2 && other.serves_1_2,
        }
    }
}

fn all_have(endpoints: &[Endpoint], wanted: Properties) -> bool
    ensures { result ≡ list_all (λ e. bit_and e.properties.0 wanted.0 == wanted.0) endpoints.now }
{
    for endpoint in endpoints {
        if !endpoint.properties.contains(wanted) {
            return false;
        }
    }
    true
}

/// Returns why no trace fails a check of a call, by the call's identifier. The reason applies to traces of any length,
/// or to traces that do not use up the sends of an endpoint. Returns `None` for all other checks.
pub fn why_unreached(everyone: Everyone, function: u32, refusal: Refusal) -> Option<&'static str>
    ensures { is_some result ≡ is_unreached everyone function refusal }
{
    match refusal {
        Refusal::TargetNotReady => of_call(
            function == FFA_RUN && everyone.runs_alone,
            "each partition is waiting or has yielded while the normal world runs",
        ),
        Refusal::GrantTooMuch => { of_call(function == FFA_MEM_DONATE, "a donate grants no right") }
        Refusal::ZerosUnwritable => {
            of_call(function == FFA_MEM_SHARE, "a share cannot request zeroing")
        }
        Refusal::WorldsMixed => of_call(
            everyone.tells_no_worlds,
            "the machine does not separate secure and non-secure memory",
        ),
        Refusal::HandlesUsedUp => Some(if everyone.serves_1_2 {
            SENDS_OF_1_2
        } else {
            SENDS_OF_1_1
        }),
        Refusal::RequestsUnsent => of_call(
            everyone.sends_requests,
            "every endpoint may send direct requests",
        ),
        Refusal::RequestsUnreceived => of_call(
            everyone.receives_requests,
            "every partition may receive direct requests",
        ),
        Refusal::MessagesUnsent | Refusal::MessagesUnreceived => of_call(
            everyone.takes_messages,
            "every endpoint may send and receive indirect messages",
        ),
        Refusal::ReceiversDiffer | Refusal::BuffersNeeded | Refusal::NothingToTell => {
            of_call(everyone.serves_1_1, LATER)
        }
        Refusal::NotTheSenders => {
            of_call(
                function == FFA_MEM_RETRIEVE_REQ && everyone.serves_1_1,
                LATER,
            )
        }
        Refusal::BuffersMissing => of_call(
            function == FFA_PARTITION_INFO_GET && everyone.serves_1_2,
            "only a machine of FF-A 1.1 makes this check",
        ),
        _ => None,
    }
}

const LATER: &str = "only a machine of FF-A 1.2 makes this check";

const SENDS_OF_1_1: &str = "an endpoint would first have to send memory 65535 times";

const SENDS_OF_1_2: &str = "an endpoint would first have to send memory 4294967295 times";

// Returns a reason if it holds.
fn of_call(holds: bool, reason: &'static str) -> Option<&'static str>
    ensures { result ≡ (if holds then Some reason.entry else None) }
{
    if holds { Some(reason) } else { None }
}
