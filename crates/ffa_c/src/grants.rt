// SPDX-License-Identifier: MIT OR Apache-2.0
//! The ground on which an endpoint has its access to a page, for C.
ghost use Rattle.std.specs.Prelude.{◌≡◌, Option};
ghost use Rattle.ffa_c.specs.Grants.{grant_told, granted_in};

use crate::codes::{GRANT_HELD, GRANT_NONE, GRANT_OWN, GRANT_SHARED};
use crate::machine::CMachine;
use ffa_model::Grant;

/// The ground on which an endpoint has its access to a page, as C sees it.
#[repr(C)]
#[derive(Clone, Copy)]
pub struct CGrant {
    /// The kind of the ground, one of `GRANT_NONE` to `GRANT_HELD`.
    pub kind: u32,
    /// The handle of the transaction for `GRANT_SHARED` and `GRANT_HELD`, and otherwise 0.
    pub handle: u64,
}

impl CGrant {
    /// Returns this ground in the form for C.
    pub fn of(grant: Option<Grant>) -> CGrant
        ensures { result ≡ grant_told grant }
    {
        let (kind, handle) = match grant {
            None => (GRANT_NONE, 0),
            Some(Grant::Own) => (GRANT_OWN, 0),
            Some(Grant::Shared(handle)) => (GRANT_SHARED, handle),
            Some(Grant::Held(handle)) => (GRANT_HELD, handle),
        };
        CGrant { kind, handle }
    }
}

/// Returns the ground on which an endpoint has its access to a page. The kind is `GRANT_NONE` if the endpoint has no
/// access, and if there is no machine. The machine stays as it was.
#[unsafe(no_mangle)]
pub extern "C" fn gorseplumb_granted(machine: &mut CMachine, endpoint: u16, page: u32) -> CGrant
    ensures same { machine.new.held.value ≡ machine.old.held.value }
    ensures value { result ≡ grant_told (granted_in machine.old.held.value endpoint page) }
{
    if machine.live {
        CGrant::of(machine.held.board().grant_of(endpoint, page))
    } else {
        CGrant::of(None)
    }
}
