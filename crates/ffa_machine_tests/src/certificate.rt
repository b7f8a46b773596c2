// SPDX-License-Identifier: MIT OR Apache-2.0
//! The certificates of machines with a cache or in RAM of frames, which C cannot have. The test rust/tests/audits.rs
//! covers the certificates of the library's machines of each size, and tables with a flipped bit.
use crate::checks::{holds, same};
use crate::machines::{booted_in_frames, booted_with, four_in_turn};
use ffa_model::{CertRun, PageNo, Rights};
use ffa_physmem::PhysMem;
use ffa_spmc::Machine;
use ffa_tlb::{NoTlb, Translations};
use fixtures::row_machine;
use std::alloc::Global;
use std::process::Abort;
use std::test::Fail;

// Returns the run of pages that begins at this page.
fn run_at<M: PhysMem + Drop, T: Translations + Drop>(
    machine: &Machine<M, T>,
    page: u32,
) -> Option<CertRun> {
    if page < machine.ram().pages() {
        Some(machine.cert_run(PageNo(page)))
    } else {
        None
    }
}

// Returns the runs of the machine's pages.
fn certificate<M: PhysMem + Drop, T: Translations + Drop>(
    alloc: Global,
    machine: &Machine<M, T>,
) -> Result<Vec<CertRun>, Fail> {
    let mut runs = Vec::new(alloc);
    let mut next = 0;
    for page in 0..machine.ram().pages() {
        if page == next {
            let run = run_at(machine, page).ok_or("no run")?;
            next = run.last.0.saturating_add(1);
            runs.push(run)?;
        }
    }
    Ok(runs)
}

// Sets the right of the last of three endpoints to the first run.
fn set_last_access(runs: &mut Vec<CertRun>, right: Option<Rights>) {
    if let Some(first) = runs.first_mut() {
        first.access[2] = right;
    }
}

// Makes the last run begin one page later.
fn leave_a_gap(runs: &mut Vec<CertRun>) {
    if let Some(last) = runs.last_mut() {
        last.first = PageNo(last.first.0.saturating_add(1));
    }
}

// Asserts that a machine's tables grant its own certificate, which has a run for each endpoint, one before and one
// after. With a right added to the first run, with a gap before the last run, or without the last run, the audit is
// false.
fn check<M: PhysMem + Drop, T: Translations + Drop>(
    rt: &impl Abort,
    alloc: Global,
    machine: &Machine<M, T>,
) -> Result<(), Fail> {
    let mut runs = certificate(alloc, machine)?;
    same(rt, runs.len(), 5);
    set_last_access(&mut runs, Some(Rights::default()));
    holds(rt, !machine.audit(runs.as_slice()));
    set_last_access(&mut runs, None);
    holds(rt, machine.audit(runs.as_slice()));
    leave_a_gap(&mut runs);
    holds(rt, !machine.audit(runs.as_slice()));
    let _last = runs.pop();
    holds(rt, !machine.audit(runs.as_slice()));
    Ok(())
}

#[test]
fn machines_with_a_cache_or_in_frames(rt: HostRuntime) -> Result<(), Fail> {
    let (alloc, manifest) = (rt.alloc(), row_machine());
    check(&rt, alloc, &booted_with(alloc, &manifest, four_in_turn())?)?;
    check(&rt, alloc, &booted_in_frames(alloc, &manifest, NoTlb)?)?;
    check(
        &rt,
        alloc,
        &booted_in_frames(alloc, &manifest, four_in_turn())?,
    )
}
