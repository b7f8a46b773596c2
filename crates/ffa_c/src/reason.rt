// SPDX-License-Identifier: MIT OR Apache-2.0
//! Why an operation is refused, as C sees it.
ghost use Rattle.std.specs.Prelude.{◌≡◌, IfSome, false, is_some};
ghost use Rattle.std.specs.Int.{cast_signed, w32};
ghost use Rattle.ffa_model.specs.Calls.{code_number};
ghost use Rattle.ffa_c.specs.Border.{fault_number};
ghost use Rattle.ffa_c.specs.Why.{about_told, awaited_told, check_number, detail_told, field_told, flaw_number, index_in, no_reason, obstacle_told, reason_told, state_number, value_told};

use crate::codes::{
    ABOUT_BIT, ABOUT_ENDPOINT, ABOUT_FIELD, ABOUT_HANDLE, ABOUT_NOTHING, ABOUT_PAGE,
    ABOUT_REGISTER, OBSTACLE_IN_TRANSACTION, OBSTACLE_MANAGERS_PAGE, OBSTACLE_NONE,
    OBSTACLE_OUTSIDE_RAM, OBSTACLE_OWNED_BY, STATE_BLOCKED, STATE_NONE, STATE_PREEMPTED,
    STATE_RUNNING, STATE_RUNS_ELSEWHERE, STATE_WAITING, STATE_YIELDED,
};
use crate::hint::CHint;
use crate::outcome::fault_code;
use ffa_mend::Allowed;
use ffa_model::{About, EndpointId, ErrorCode, FieldPlace, Flaw, Obstacle, Refusal, Status, Why};
use ffa_playable::{Detail, Explanation, Standing};

/// The reason why an operation is refused, as C sees it. A field that the tags do not name is zero.
#[repr(C)]
#[derive(Clone, Copy)]
pub struct CReason {
    /// The fault of an access, one of `FAULT_TRANSLATION` to `FAULT_OUTSIDE_RAM`; 0 for a call.
    pub fault: u32,
    /// The check of a call that fails: its place among the variants of `Refusal`, counted from 1; 0 for an access.
    pub check: u32,
    /// The error code of a call, as a signed number; 0 for an access.
    pub error: i32,
    /// The subject of a call's check, one of `ABOUT_NOTHING` to `ABOUT_FIELD`.
    pub about: u32,
    /// The obstacle to an access or at a page, one of `OBSTACLE_NONE` to `OBSTACLE_IN_TRANSACTION`.
    pub obstacle: u32,
    /// The page, with `ABOUT_PAGE`.
    pub page: u32,
    /// The identifier of the endpoint, with `ABOUT_ENDPOINT`.
    pub endpoint: u32,
    /// The identifier of the owner, with `OBSTACLE_OWNED_BY`.
    pub owner: u32,
    /// The number of the register or of the bit, with `ABOUT_REGISTER` or `ABOUT_BIT`.
    pub number: u32,
    /// The number of the condition that is broken, with `ABOUT_FIELD`. The conditions of all parts are counted from 1.
    pub flaw: u32,
    /// The index of the access descriptor or of the range that has the field, with `ABOUT_FIELD`; 0 for another field.
    pub index: u32,
    /// 1 if `value` has a number: with `ABOUT_REGISTER`, and with `ABOUT_FIELD` if the reason has the field's number.
    /// Otherwise 0.
    pub has_value: u32,
    /// The run state of `endpoint`, which must wait, one of `STATE_NONE` to `STATE_RUNS_ELSEWHERE`.
    pub state: u32,
    /// The endpoint whose response to a direct request `endpoint` awaits, with `STATE_BLOCKED`; 0 if it awaits no
    /// response.
    pub awaits: u32,
    /// The handle, with `ABOUT_HANDLE`.
    pub handle: u64,
    /// The handle of the open transaction, with `OBSTACLE_IN_TRANSACTION`.
    pub transaction: u64,
    /// The number in the register or in the field, if `has_value` is 1.
    pub value: u64,
    /// The offset of the field's first byte, with `ABOUT_FIELD`.
    pub first: u64,
    /// The number of bytes of the field, with `ABOUT_FIELD`.
    pub size: u64,
    /// The least number that the register or the field may have instead, if `step` is not 0.
    pub least: u64,
    /// The greatest number that the register or the field may have instead, if `step` is not 0.
    pub most: u64,
    /// The distance from one number that is allowed to the next; 0 if the reason does not say which numbers are
    /// allowed.
    pub step: u64,
    /// The hint what to change.
    pub hint: CHint,
}

impl CReason {
    fn none() -> CReason
        ensures { result ≡ no_reason }
    {
        CReason {
            fault: 0,
            check: 0,
            error: 0,
            about: ABOUT_NOTHING,
            obstacle: OBSTACLE_NONE,
            page: 0,
            endpoint: 0,
            owner: 0,
            number: 0,
            flaw: 0,
            index: 0,
            has_value: 0,
            state: STATE_NONE,
            awaits: 0,
            handle: 0,
            transaction: 0,
            value: 0,
            first: 0,
            size: 0,
            least: 0,
            most: 0,
            step: 0,
            hint: CHint::none(),
        }
    }

    /// Returns this reason in the form for C.
    pub fn of(explanation: &Explanation) -> CReason
        ensures { result ≡ reason_told explanation.now.why explanation.now.detail }
    {
        let mut reason = CReason::none();
        match explanation.why {
            Why::Refused { refusal, about } => {
                reason.check = number_of(refusal);
                reason.error = error_code(refusal.code());
                reason.tell_about(about);
            }
            Why::Fault { kind, obstacle } => {
                reason.fault = fault_code(kind);
                reason.tell_obstacle(obstacle);
            }
        }
        reason.tell_detail(explanation.detail);
        reason
    }

    /// Writes a reason here, if there is a reason. Returns whether there is a reason.
    pub fn fill(&mut self, explanation: Option<Explanation>) -> bool
        ensures there { result ≡ is_some explanation }
        ensures told { IfSome explanation (λ its. self.new ≡ reason_told its.why its.detail) }
        ensures kept { result ≡ false → self.new ≡ self.old }
    {
        match explanation {
            Some(its) => {
                *self = CReason::of(&its);
                true
            }
            None => false,
        }
    }

    // Writes the subject of the check.
    fn tell_about(&mut self, about: Option<About>)
        ensures { self.new ≡ about_told about self.old }
    {
        match about {
            None => {}
            Some(About::Page { page, obstacle }) => {
                self.about = ABOUT_PAGE;
                self.page = page.0;
                self.tell_obstacle(obstacle);
            }
            Some(About::Endpoint(endpoint)) => {
                self.about = ABOUT_ENDPOINT;
                self.endpoint = u32::from(endpoint.0);
            }
            Some(About::Handle(handle)) => {
                self.about = ABOUT_HANDLE;
                self.handle = handle;
            }
            Some(About::Register { register, value }) => {
                self.about = ABOUT_REGISTER;
                self.number = register;
                self.tell_value(Some(value));
            }
            Some(About::Bit(number)) => {
                self.about = ABOUT_BIT;
                self.number = number;
            }
            Some(About::Field { flaw, place, value }) => {
                self.about = ABOUT_FIELD;
                self.tell_field(flaw, place);
                self.tell_value(value);
            }
        }
    }

    // Writes the obstacle.
    fn tell_obstacle(&mut self, obstacle: Option<Obstacle>)
        ensures { self.new ≡ obstacle_told obstacle self.old }
    {
        match obstacle {
            None => {}
            Some(Obstacle::OutsideRam) => self.obstacle = OBSTACLE_OUTSIDE_RAM,
            Some(Obstacle::ManagersPage) => self.obstacle = OBSTACLE_MANAGERS_PAGE,
            Some(Obstacle::OwnedBy(owner)) => {
                self.obstacle = OBSTACLE_OWNED_BY;
                self.owner = u32::from(owner.0);
            }
            Some(Obstacle::InTransaction(handle)) => {
                self.obstacle = OBSTACLE_IN_TRANSACTION;
                self.transaction = handle;
            }
        }
    }

    // Writes the run state of the subject, or the numbers that are allowed, or the hint.
    fn tell_detail(&mut self, detail: Option<Detail>)
        ensures { self.new ≡ detail_told detail self.old }
    {
        match detail {
            Some(Detail::Standing(Standing::RunState { status, awaits })) => {
                self.state = state_number(status);
                self.tell_awaited(awaits);
            }
            Some(Detail::Allowed(Allowed { least, most, step })) => {
                self.least = least;
                self.most = most;
                self.step = step;
            }
            Some(Detail::Mend(mend)) => self.hint = CHint::of(mend),
            None => {}
        }
    }

    // Writes the endpoint whose response the endpoint awaits.
    fn tell_awaited(&mut self, awaits: Option<EndpointId>)
        ensures { self.new ≡ awaited_told awaits self.old }
    {
        if let Some(receiver) = awaits {
            self.awaits = u32::from(receiver.0);
        }
    }

    // Writes the condition that is broken, and where the field is.
    fn tell_field(&mut self, flaw: Flaw, place: FieldPlace)
        ensures { self.new ≡ field_told flaw place self.old }
    {
        self.flaw = number_of_flaw(flaw);
        self.index = index_in(flaw);
        self.first = place.first;
        self.size = place.size;
    }

    // Writes a number, if there is a number.
    fn tell_value(&mut self, value: Option<u64>)
        ensures { self.new ≡ value_told value self.old }
    {
        if let Some(value) = value {
            self.has_value = 1;
            self.value = value;
        }
    }
}

// The number of a check.
fn number_of(refusal: Refusal) -> u32
    ensures { result ≡ check_number refusal }
{
    u32::from(refusal as u8) + 1
}

// FF-A's number of an error code (DEN0077A, 11.2).
fn error_code(code: ErrorCode) -> i32
    ensures { result ≡ cast_signed w32 (code_number code) }
{
    match code {
        ErrorCode::NotSupported => -1,
        ErrorCode::InvalidParameters => -2,
        ErrorCode::NoMemory => -3,
        ErrorCode::Busy => -4,
        ErrorCode::Denied => -6,
        ErrorCode::NoData => -9,
    }
}

// The number of a run state.
fn state_number(status: Status) -> u32
    ensures { result ≡ state_number status }
{
    match status {
        Status::Running => STATE_RUNNING,
        Status::Waiting => STATE_WAITING,
        Status::Yielded => STATE_YIELDED,
        Status::Blocked => STATE_BLOCKED,
        Status::Preempted => STATE_PREEMPTED,
        Status::RunsElsewhere => STATE_RUNS_ELSEWHERE,
    }
}

// The number of a condition.
fn number_of_flaw(flaw: Flaw) -> u32
    ensures { result ≡ flaw_number flaw }
{
    match flaw {
        Flaw::Header(flaw) => 1 + u32::from(flaw as u8),
        Flaw::Send(flaw) => 7 + u32::from(flaw as u8),
        Flaw::Access(_, flaw) => 12 + u32::from(flaw as u8),
        Flaw::Composite(flaw) => 18 + u32::from(flaw as u8),
        Flaw::Range(_, flaw) => 26 + u32::from(flaw as u8),
        Flaw::Retrieve(_, flaw) => 31 + u32::from(flaw as u8),
        Flaw::Relinquish(flaw) => 42 + u32::from(flaw as u8),
    }
}

// The index of the access descriptor or of the range, or 0.
fn index_in(flaw: Flaw) -> u32
    ensures { result ≡ index_in flaw }
{
    match flaw {
        Flaw::Access(index, _) | Flaw::Range(index, _) | Flaw::Retrieve(index, _) => index,
        Flaw::Header(_) | Flaw::Send(_) | Flaw::Composite(_) | Flaw::Relinquish(_) => 0,
    }
}
