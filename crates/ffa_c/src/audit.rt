// SPDX-License-Identifier: MIT OR Apache-2.0
//! Checks of whether tables give what runs of pages say: a machine's own tables, and tables in pages of a list.
ghost use Rattle.std.specs.Prelude.{◌≡◌, ◌≢◌, ◌⊎◌, ◌+◌, ◌*◌, ◌%◌, ◌^◌, ◌==◌, ◌&&◌, ◌≤◌, [], IfOk, IfSome, length, map, nat_le, if◌then◌else◌};
ghost use Rattle.std.specs.List.{list_all};
ghost use Rattle.std.specs.Option.{option_map};
ghost use Rattle.ffa_model.specs.Agreement.{roots_of};
ghost use Rattle.ffa_model.specs.Certificate.{certificate};
ghost use Rattle.ffa_model.specs.Walk.{is_page_address};
ghost use Rattle.ffa_c.specs.Audit.{Audited, Checked, IsChecked, Judged, access_given, all_given, are_roots, is_placed_ram, ram_at, run_given};
ghost use Rattle.ffa_c.specs.CertRuns.{cert_told};
ghost use Rattle.ffa_c.specs.Lending.{pages_of, places_of, ready_for};

use crate::board::Board;
use crate::cert_run::CCertRun;
use crate::codes::{BAD_BASE, BAD_ROOTS, NO_LIST, NO_MACHINE, NO_MEMORY, NOT_CERTIFIED, OK};
use crate::lending::CLent;
use crate::lent_list::LentList;
use crate::machine::CMachine;
use crate::manifest::rights_of;
use ffa_model::{Address, CertRun, EndpointId, MOST_ENDPOINTS, PageNo, Rights};
use std::alloc::{AllocError, Global};

/// Checks whether runs are a certificate that the machine's tables give. The check reads only the bytes of RAM, and
/// does not look at owners and handles. Returns `OK` if the runs are such a certificate, and otherwise `NOT_CERTIFIED`.
/// The machine's own certificate never gets `NOT_CERTIFIED`. Returns `NO_MACHINE` if there is no machine, or
/// `NO_MEMORY`, because it copies the runs. The machine stays as it was.
#[unsafe(no_mangle)]
pub extern "C" fn gorseplumb_audit(alloc: Global, machine: &mut CMachine, runs: &[CCertRun]) -> u32
    ensures same { machine.new.held.value ≡ machine.old.held.value }
    ensures told { Audited machine.old.held.value runs.now result }
    ensures own { IfSome machine.old.held.value
        (λ b. runs.now ≡ map cert_told (certificate b.machine.state) → result ≢ 21) }
{
    if machine.live {
        audit_board(alloc, machine.held.board(), runs)
    } else {
        NO_MACHINE
    }
}

fn audit_board(alloc: Global, board: &Board, given: &[CCertRun]) -> u32
    ensures told { let ram = board.now.machine.ram in let roots = roots_of board.now.machine.state in
        (result ≡ 1) ⊎ Judged ram roots given.now result }
    ensures own { given.now ≡ map cert_told (certificate board.now.machine.state) → result ≢ 21 }
{
    match runs_of(alloc, given) {
        Ok(Some(runs)) => answer_of(board.audit(runs.as_slice())),
        Ok(None) => NOT_CERTIFIED,
        Err(AllocError) => NO_MEMORY,
    }
}

/// Checks whether tables give what runs of pages say. The tables begin at these roots, which are the addresses of level
/// 1 tables. RAM begins at this base, and its pages are the pages of a list. Returns `NO_LIST` if there is no list.
/// Then returns `BAD_BASE` if RAM of this size cannot begin at the base. Then returns `BAD_ROOTS` if there are more
/// roots than a machine can have endpoints, or if a root is not a page of RAM. Otherwise returns `OK`, `NOT_CERTIFIED`,
/// or `NO_MEMORY`, because it copies the runs. The list keeps its pages, with their bytes. If the answer is neither
/// `OK` nor `NOT_CERTIFIED`, nothing has changed.
#[unsafe(no_mangle)]
pub extern "C" fn gorseplumb_audit_tables(
    alloc: Global,
    lent: &mut CLent,
    base: u32,
    roots: &[u32],
    runs: &[CCertRun],
) -> u32
    ensures told { Checked lent.old.held.value base roots.now runs.now result }
    ensures pages { pages_of lent.new.held.value ≡ pages_of lent.old.held.value }
    ensures places { places_of lent.new.held.value ≡ places_of lent.old.held.value }
    ensures ready { ready_for lent.old.held.value ≤ ready_for lent.new.held.value }
    ensures unjudged { result ≢ 0 → result ≢ 21 → lent.new.held.value ≡ lent.old.held.value }
{
    if lent.live {
        audit_list(alloc, lent.held.list_mut(), base, roots, runs)
    } else {
        NO_LIST
    }
}

fn audit_list(
    alloc: Global,
    list: &mut LentList,
    base: u32,
    roots: &[u32],
    given: &[CCertRun],
) -> u32
    ensures told { IsChecked (ram_at base list.old.pages) roots.now given.now result }
    ensures pages { list.new.pages ≡ list.old.pages }
    ensures places { list.new.places ≡ list.old.places }
    ensures ready { list.old.ready_for ≤ list.new.ready_for }
    ensures unjudged { result ≢ 0 → result ≢ 21 → list.new ≡ list.old }
{
    if !is_placed(list, base) {
        return BAD_BASE;
    }
    if !are_roots(list, base, roots) {
        return BAD_ROOTS;
    }
    match runs_of(alloc, given) {
        Ok(Some(runs)) => match list.audit(alloc, Address(base), roots, runs.as_slice()) {
            Ok(certified) => answer_of(certified),
            Err(AllocError) => NO_MEMORY,
        },
        Ok(None) => NOT_CERTIFIED,
        Err(AllocError) => NO_MEMORY,
    }
}

fn answer_of(certified: bool) -> u32
    ensures { result ≡ (if certified then 0 else 21) }
{
    if certified { OK } else { NOT_CERTIFIED }
}

// Whether RAM with a list's pages may begin at an address.
fn is_placed(list: &LentList, base: u32) -> bool
    ensures { result ≡ is_placed_ram (ram_at base list.now.pages) }
{
    base % 4096 == 0 && list.pages() as u64 <= ((1 << 32) - u64::from(base)) / 4096
}

// Whether these may be the addresses of level 1 tables in such RAM.
fn are_roots(list: &LentList, base: u32, roots: &[u32]) -> bool
    ensures { result ≡ are_roots (ram_at base list.now.pages) roots.now }
{
    roots.len() <= MOST_ENDPOINTS && are_pages(list, base, roots)
}

fn are_pages(list: &LentList, base: u32, addresses: &[u32]) -> bool
    ensures { result ≡ list_all (is_page_address (ram_at base list.now.pages)) addresses.now }
{
    for address in addresses {
        if !is_page(list, base, *address) {
            return false;
        }
    }
    true
}

// Whether an address is the address of a page.
fn is_page(list: &LentList, base: u32, address: u32) -> bool
    ensures { result ≡ is_page_address (ram_at base list.now.pages) address }
{
    address % 4096 == 0 && base <= address && (((address - base) / 4096) as usize) < list.pages()
}

// The runs that C passes, if each of them is a run.
fn runs_of(alloc: Global, given: &[CCertRun]) -> Result<Option<Vec<CertRun>>, AllocError>
    ensures { IfOk result (λ runs. option_map (λ v. v.items) runs ≡ all_given run_given [] given.now) }
{
    let mut runs = Vec::with_capacity(alloc, given.len())?;
    for told in given {
        let Some(run) = run_of(told) else {
            return Ok(None);
        };
        runs.push(run)?;
    }
    Ok(Some(runs))
}

fn run_of(given: &CCertRun) -> Option<CertRun>
    ensures { result ≡ run_given given.now }
{
    let access = accesses_of(&given.access)?;
    Some(CertRun {
        first: PageNo(given.first),
        last: PageNo(given.last),
        owner: EndpointId::MANAGER,
        handle: None,
        access,
    })
}

fn accesses_of(codes: &[u32; MOST_ENDPOINTS]) -> Option<[Option<Rights>; MOST_ENDPOINTS]>
    ensures { result ≡ all_given access_given [] codes.now }
{
    let mut accesses = [None; MOST_ENDPOINTS];
    for place in 0..MOST_ENDPOINTS {
        accesses[place] = access_of(codes[place])?;
    }
    Some(accesses)
}

fn access_of(code: u32) -> Option<Option<Rights>>
    ensures { result ≡ access_given code }
{
    if code == 0 {
        Some(None)
    } else {
        Some(Some(rights_of(code)?))
    }
}
