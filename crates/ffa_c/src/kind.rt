// SPDX-License-Identifier: MIT OR Apache-2.0
//! A machine by the kind of its RAM, and the questions of C to a machine of any kind.
ghost use Rattle.std.specs.Prelude.{◌≡◌, ◌≤◌, ◌↔◌, IsTrue, length, true};
ghost use Rattle.ffa_model.specs.Agreement.{Agrees, roots_of};
ghost use Rattle.ffa_model.specs.Certified.{IsCertified};
ghost use Rattle.ffa_c.specs.Border.{HasDone, access_code, exec_code, level_code, owner_number, root_number};
ghost use Rattle.ffa_c.specs.Runs.{run_at};

use crate::codes::{EXECUTE, NOTHING, READ, WRITE};
use crate::outcome::COutcome;
use ffa_lent::LentRam;
use ffa_model::{CertRun, Data, Effect, EndpointId, MOST_ENDPOINTS, Op, Outcome, PageNo, Rights};
use ffa_physmem::{FlatRam, Observed, PhysMem};
use ffa_spmc::{Cluster, Given, Machine, Store};
use ffa_tlb::NoTlb;
use std::alloc::Global;

/// A machine that several processors run, over RAM from the heap or over lent RAM.
#[derive(Drop)]
pub enum BoardMachine {
    /// The RAM is one piece of the heap.
    Heap(Cluster<FlatRam, NoTlb, Given<Global>>),
    /// The RAM is lent, page by page.
    Lent(Cluster<LentRam, NoTlb, Given<Global>>),
}

/// Does an operation of the runner of the selected processor, and writes its effect for C.
#[inline(always)]
pub(crate) fn operate<M: Observed + Drop, S: Store>(
    cluster: &mut Cluster<M, NoTlb, S>,
    op: &Op,
    outcome: &mut COutcome,
)
    requires { M.is_alone ≡ true }
    ensures { HasDone M.is_shared cluster.old cluster.new op.now outcome.new }
{
    let mut effect = Effect::Outcome(Outcome::Done);
    cluster.op(op, &mut effect);
    outcome.tell(&effect);
}

/// Returns the address of an endpoint's level 1 table, or `NOTHING` if there is no such endpoint.
pub(crate) fn root_by<M: PhysMem + Drop, S: Store>(
    machine: &Machine<M, NoTlb, S>,
    endpoint: EndpointId,
) -> u32
    ensures { result ≡ root_number machine.now.state endpoint.0 }
{
    match machine.root_of(endpoint) {
        Some(root) => root,
        None => NOTHING,
    }
}

/// Whether runs of pages are a certificate that the machine's tables give.
pub(crate) fn audited_by<M: PhysMem + Drop, S: Store>(
    machine: &Machine<M, NoTlb, S>,
    runs: &[CertRun],
) -> bool
    ensures certified { let s = machine.now in IsTrue result ↔ IsCertified s.ram (roots_of s.state) runs.now }
    ensures agrees { Agrees machine.now.ram machine.now.state }
    ensures few { length machine.now.state.parties ≤ MOST_ENDPOINTS }
{
    // Proof step: the tables agree with the state, and there are no more endpoints than there may be.
    let _ = machine.ram();
    let _ = machine.endpoints();
    machine.audit(runs)
}

/// Returns the owner of a page, with 0x8000 for the manager, or `NOTHING` if there is no such page.
pub(crate) fn owner_by<M: PhysMem + Drop, S: Store>(
    machine: &Machine<M, NoTlb, S>,
    page: PageNo,
) -> u32
    ensures { result ≡ owner_number machine.now page.0 }
{
    if page.0 < machine.ram().pages() {
        u32::from(machine.owner_of(page).0)
    } else {
        NOTHING
    }
}

/// Returns the longest run from a page on, if there is such a page.
pub(crate) fn run_by<M: PhysMem + Drop, S: Store>(
    machine: &Machine<M, NoTlb, S>,
    page: PageNo,
) -> Option<CertRun>
    ensures { result ≡ run_at machine.now page.0 }
{
    if page.0 < machine.ram().pages() {
        Some(machine.cert_run(page))
    } else {
        None
    }
}

/// Returns the number that C has for a right: `READ` to read, `WRITE` to read and write, `EXECUTE` more to execute, and
/// 0 for no right.
pub(crate) fn code_of(rights: Option<Rights>) -> u32
    ensures { result ≡ access_code rights }
{
    match rights {
        None => 0,
        Some(Rights { level, exec }) => level_code(level) + exec_code(exec),
    }
}

fn level_code(level: Data) -> u32
    ensures { result ≡ level_code level }
{
    match level {
        Data::Ro => READ,
        Data::Rw => WRITE,
    }
}

fn exec_code(exec: bool) -> u32
    ensures { result ≡ exec_code exec }
{
    if exec { EXECUTE } else { 0 }
}
