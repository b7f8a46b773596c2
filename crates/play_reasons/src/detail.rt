// SPDX-License-Identifier: MIT OR Apache-2.0
//! The detail at the end of the line of a reason: a hint how to correct the operation, a run state, or the values that are allowed.
ghost use Rattle.std.specs.Prelude.{◌≡◌, ◌≤◌};
ghost use Rattle.play_reasons.specs.Details.{awaited_text, detail_text, detailed_text, run_state_text, standing_text, status_text};
ghost use Rattle.play_reasons.specs.Drafts.{Puts};

use crate::draft::Draft;
use crate::mend::{put_allowed, put_endpoint, put_mend};
use ffa_model::{EndpointId, Status};
use ffa_playable::{Detail, Standing};
use std::alloc::Allocator;

/// Puts the detail of a reason, if it has one: a hint, a run state, or the allowed values, each with this number of digits.
pub(crate) fn put_detailed<A: Allocator>(text: &mut Draft<A>, digits: u32, detail: Option<Detail>)
    requires { digits ≤ 16 }
    ensures { Puts text.old text.new (detailed_text digits detail) }
{
    if let Some(detail) = detail {
        put_detail(text, digits, detail);
    }
}

fn put_detail<A: Allocator>(text: &mut Draft<A>, digits: u32, detail: Detail)
    requires { digits ≤ 16 }
    ensures { Puts text.old text.new (detail_text digits detail) }
{
    match detail {
        Detail::Mend(mend) => put_mend(text, mend),
        Detail::Standing(standing) => put_standing(text, standing),
        Detail::Allowed(allowed) => put_allowed(text, digits, allowed),
    }
}

fn put_standing<A: Allocator>(text: &mut Draft<A>, standing: Standing)
    ensures { Puts text.old text.new (standing_text standing) }
{
    match standing {
        Standing::RunState { status, awaits } => put_run_state(text, status, awaits),
    }
}

#[tactic(auto, unfolding(crate::specs::Details::run_state_text))]
fn put_run_state<A: Allocator>(text: &mut Draft<A>, status: Status, awaits: Option<EndpointId>)
    ensures { Puts text.old text.new (run_state_text status awaits) }
{
    text.put(status_words(status));
    put_awaited(text, awaits);
}

// Puts the endpoint whose response a blocked endpoint awaits.
fn put_awaited<A: Allocator>(text: &mut Draft<A>, awaits: Option<EndpointId>)
    ensures { Puts text.old text.new (awaited_text awaits) }
{
    if let Some(receiver) = awaits {
        put_endpoint(text, " by its direct request to ", receiver);
    }
}

fn status_words(status: Status) -> &'static str
    ensures { result.now ≡ status_text status }
{
    match status {
        Status::Running => ", which is running",
        Status::Waiting => ", which is waiting",
        Status::Yielded => ", which has yielded",
        Status::Blocked => ", which is blocked",
        Status::Preempted => ", which is preempted",
        Status::RunsElsewhere => ", which is running on another processor",
    }
}
