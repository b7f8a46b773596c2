// SPDX-License-Identifier: MIT OR Apache-2.0
//! The certificate of a machine for C, run by run.
ghost use Rattle.std.specs.Prelude.{◌≡◌, true, false, IfSome, is_some, map};
ghost use Rattle.ffa_model.specs.Certificate.{run_from};
ghost use Rattle.ffa_c.specs.Border.{access_code, has_page};
ghost use Rattle.ffa_c.specs.CertRuns.{cert_told, handle_code, has_handle_code};

use crate::cert_run::CCertRun;
use crate::kind::code_of;
use crate::machine::CMachine;
use ffa_model::{CertRun, MOST_ENDPOINTS, Rights};

/// Writes the longest run from a page on to `run`, and returns true. Returns false if there is no machine, or if the
/// machine has no such page. Then `run` stays as it was. The machine stays as it was.
#[unsafe(no_mangle)]
pub extern "C" fn gorseplumb_cert_run(machine: &mut CMachine, page: u32, run: &mut CCertRun) -> bool
    ensures same { machine.new.held.value ≡ machine.old.held.value }
    ensures there { result ≡ has_page machine.old.held.value page }
    ensures told { result ≡ true
        → IfSome machine.old.held.value (λ b. run.new ≡ cert_told (run_from b.machine.state page)) }
    ensures kept { result ≡ false → run.new ≡ run.old }
{
    if machine.live {
        let found = machine.held.board().cert_run(page);
        tell(&found, run)
    } else {
        false
    }
}

// Writes a run for C, if there is a run.
fn tell(found: &Option<CertRun>, run: &mut CCertRun) -> bool
    ensures there { result ≡ is_some found.now }
    ensures told { IfSome found.now (λ it. run.new ≡ cert_told it) }
    ensures kept { result ≡ false → run.new ≡ run.old }
{
    match found {
        Some(found) => {
            *run = for_c(found);
            true
        }
        None => false,
    }
}

fn for_c(run: &CertRun) -> CCertRun
    ensures { result ≡ cert_told run.now }
{
    CCertRun {
        first: run.first.0,
        last: run.last.0,
        owner: u32::from(run.owner.0),
        has_handle: has_handle_code(run.handle),
        handle: handle_code(run.handle),
        access: access_codes(&run.access),
    }
}

fn has_handle_code(handle: Option<u64>) -> u32
    ensures { result ≡ has_handle_code handle }
{
    match handle {
        None => 0,
        Some(_) => 1,
    }
}

fn handle_code(handle: Option<u64>) -> u64
    ensures { result ≡ handle_code handle }
{
    match handle {
        None => 0,
        Some(handle) => handle,
    }
}

fn access_codes(access: &[Option<Rights>; MOST_ENDPOINTS]) -> [u32; MOST_ENDPOINTS]
    ensures { result ≡ map access_code access.now }
{
    let mut codes = [0; MOST_ENDPOINTS];
    for place in 0..MOST_ENDPOINTS {
        codes[place] = code_of(access[place]);
    }
    codes
}
