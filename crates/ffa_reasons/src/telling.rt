// SPDX-License-Identifier: MIT OR Apache-2.0
//! Finds why an operation of the runner would be refused now, what gives an endpoint its access to a page, and what an
//! endpoint may still retrieve.
ghost use Rattle.std.specs.Prelude.{◌≡◌, ◌<◌, ◌↔◌, IfSome, IsTrue, None, false, is_some, length, if◌then◌else◌};
ghost use Rattle.std.specs.Option.{option_map};
ghost use Rattle.ffa_model.specs.Access.{access};
ghost use Rattle.ffa_model.specs.Certificate.{certificate};
ghost use Rattle.ffa_model.specs.Processors.{resumed_by, resumed_by_call, step_resuming};
ghost use Rattle.ffa_model.specs.Refusals.{is_refusal};
ghost use Rattle.ffa_model.specs.Step.{step};
ghost use Rattle.ffa_model.specs.Why.{granted, outcome_of, why};
ghost use Rattle.ffa_mend.specs.Offered.{offered};
ghost use Rattle.ffa_playable.specs.Audited.{GiveAccess};
ghost use Rattle.ffa_playable.specs.Bench.{is_refused};
ghost use Rattle.ffa_playable.specs.Standing.{detail, detail_by};
ghost use Rattle.ffa_reasons.specs.Explanation.{call_told, check_explanation, explanation, fault_explanation};

use crate::reasons::Reasons;
use crate::registers::about_registers;
use crate::values::allowed_check;
use ffa_mend::{Allowed, Explained, Mend};
use ffa_model::{
    Call, CertRun, Effect, EndpointId, FaultKind, Grant, Op, PageNo, Refusal, Rights, Why,
};
use ffa_physmem::PhysMem;
use ffa_playable::{Detail, Explanation, Standing};
use ffa_spmc::{Machine, Store};
use ffa_tlb::Translations;

/// Returns why an operation of the runner is refused, or `None` if `Machine::op` does the operation. It changes nothing
/// and allocates nothing.
///
/// For a call, the reason is the first check that fails. It comes with the thing that the check is about, if that is a
/// register, a bit or a page, or the first condition that a descriptor breaks. It can also be an endpoint or a handle,
/// which registers, a message's header or a descriptor name. Other checks come without such a thing. For an access, the
/// reason is its fault, with its obstacle. The explanation also says what to change, the run state of the endpoint, or
/// the values that may be there.
pub fn why<M: PhysMem + Drop, T: Translations + Drop, S: Store>(
    machine: &Machine<M, T, S>,
    op: &Op,
) -> Option<Explanation>
    ensures why { option_map (λ its. its.why) result ≡ why machine.now.state op.now }
    ensures detail { IfSome result (λ its. its.detail ≡ detail machine.now.state op.now its.why) }
    // There is a reason exactly if the operation is refused. The reason says what the runner sees: FFA_ERROR with the
    // code of the check, or the fault.
    ensures refused { is_some result ≡ is_refusal (step machine.now.state op.now).outcome }
    ensures outcome { IfSome result (λ its. (step machine.now.state op.now).outcome
        ≡ outcome_of machine.now.state its.why) }
{
    Reasons::of(machine).why(op)
}

/// Returns why an operation of the runner is refused where partitions may be preempted, or `None` if `Cluster::op` does
/// the operation. FFA_RUN of a preempted partition lets it continue, and is not refused. Otherwise the explanation is
/// what `why` returns. It changes nothing and allocates nothing.
pub fn why_resuming<M: PhysMem + Drop, T: Translations + Drop, S: Store>(
    machine: &Machine<M, T, S>,
    op: &Op,
) -> Option<Explanation>
    ensures why { option_map (λ its. its.why) result
        ≡ (if is_some (resumed_by machine.now.state op.now) then None else why machine.now.state op.now) }
    ensures detail { IfSome result (λ its. its.detail ≡ detail machine.now.state op.now its.why) }
    ensures refused { is_some result ≡ is_refused (step_resuming machine.now.state op.now).effect }
    ensures outcome { IfSome result (λ its. (step_resuming machine.now.state op.now).effect
        ≡ Effect.Outcome (outcome_of machine.now.state its.why)) }
{
    if Reasons::of(machine).lets_go_on(op) {
        None
    } else {
        why(machine, op)
    }
}

/// Returns what gives an endpoint its access to a page: that it owns the page, or the open transaction by which it has
/// access. Returns `None` outside RAM, and for an endpoint that the machine does not have.
pub fn grant_of<M: PhysMem + Drop, T: Translations + Drop, S: Store>(
    machine: &Machine<M, T, S>,
    endpoint: EndpointId,
    page: PageNo,
) -> Option<Grant>
    ensures granted { result ≡ granted machine.now.state endpoint.0 page.0 }
    ensures access { is_some result ≡ is_some (access machine.now.state endpoint.0 page.0) }
{
    Reasons::of(machine).grant_of(endpoint, page)
}

/// Returns the most that an endpoint may still get of the open transaction that a page is in. Returns `None` if the
/// endpoint may not retrieve it, because it is not a receiver or holds the transaction already.
pub fn offered<M: PhysMem + Drop, T: Translations + Drop, S: Store>(
    machine: &Machine<M, T, S>,
    endpoint: EndpointId,
    page: PageNo,
) -> Option<Rights>
    requires { page.0 < length machine.now.state.pages }
    ensures { result ≡ offered machine.now.state endpoint.0 page.0 }
{
    Reasons::of(machine).offered(endpoint, page)
}

/// Whether the tables grant what these runs of pages say. It is true exactly if the runs have the state's access.
pub(crate) fn audit<M: PhysMem + Drop, T: Translations + Drop, S: Store>(
    machine: &Machine<M, T, S>,
    runs: &[CertRun],
) -> bool
    ensures access { IsTrue result ↔ GiveAccess machine.now.state runs.now }
    ensures own { runs.now ≡ certificate machine.now.state → IsTrue result }
{
    // Proof step: the tables agree with the state, and RAM ends before 2^32.
    let _ = machine.ram().base();
    machine.audit(runs)
}

impl<M: PhysMem + Drop, T: Translations + Drop, S: Store> Reasons<'_, M, T, S> {
    // Returns why an operation is refused.
    fn why(&self, op: &Op) -> Option<Explanation>
        ensures { result ≡ explanation self.now op.now }
    {
        match *op {
            Op::Call(x) => self.why_call(x),
            Op::Load { addr, size } => self.why_fault(addr, self.load_fault(addr, size)),
            Op::Store {
                addr,
                size,
                value: _,
            } => self.why_fault(addr, self.store_fault(addr, size)),
            Op::Fetch { addr } => self.why_fault(addr, self.fetch_fault(addr)),
        }
    }

    // Whether an operation lets a preempted partition continue.
    fn lets_go_on(&self, op: &Op) -> bool
        ensures { result ≡ is_some (resumed_by self.now op.now) }
    {
        match *op {
            Op::Call(x) => self.call_lets_go_on(ffa_abi::decode(x)),
            Op::Load { .. } | Op::Store { .. } | Op::Fetch { .. } => false,
        }
    }

    // Whether a call lets a preempted partition continue.
    fn call_lets_go_on(&self, call: Call) -> bool
        ensures { result ≡ is_some (resumed_by_call self.now call) }
    {
        match call {
            Call::Run { target, context } => self.parts.chain.may_resume(target, context),
            _ => false,
        }
    }

    // Returns why a call in its registers is refused.
    fn why_call(&self, x: [u64; 8]) -> Option<Explanation>
        ensures { result ≡ explanation self.now (Op.Call x) }
    {
        let call = ffa_abi::decode(x);
        let (refusal, told) = self.refusal(call)?;
        Some(self.explain(ffa_abi::low(x[0]), call, refusal, told))
    }

    // Explains a failed check of a call, with what the call names. `number` is the number of the function, in w0.
    fn explain(&self, number: u32, call: Call, refusal: Refusal, told: Explained) -> Explanation
        requires { told ≡ call_told self.now call refusal }
        ensures { result ≡ check_explanation self.now number call refusal }
    {
        let named = told.about.or(self.about_page(told.page));
        let about = about_registers(number, &call, refusal).or(named);
        let (ffa, version) = (self.ffa(), self.version());
        let receivers = told.receivers;
        Explanation {
            why: Why::Refused { refusal, about },
            detail: detail_by(
                self.standing_of_check(refusal, about),
                told.mend.or(self.mend_about(refusal, about)),
                allowed_check(ffa, version, receivers, call, refusal, about),
            ),
        }
    }

    // Explains the fault of an access to an address, with its obstacle.
    fn why_fault(&self, addr: u64, fault: Option<FaultKind>) -> Option<Explanation>
        ensures { result ≡ fault_explanation self.now addr fault }
    {
        let kind = fault?;
        Some(Explanation {
            why: Why::Fault {
                kind,
                obstacle: self.obstacle(addr, kind),
            },
            detail: detail_by(None, self.mend_fault(addr, kind), None),
        })
    }
}

// Returns the first of these details that there is.
fn detail_by(
    standing: Option<Standing>,
    mend: Option<Mend>,
    allowed: Option<Allowed>,
) -> Option<Detail>
    ensures { result ≡ detail_by standing mend allowed }
{
    if let Some(standing) = standing {
        return Some(Detail::Standing(standing));
    }
    if let Some(mend) = mend {
        return Some(Detail::Mend(mend));
    }
    match allowed {
        Some(allowed) => Some(Detail::Allowed(allowed)),
        None => None,
    }
}
