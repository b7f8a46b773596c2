// SPDX-License-Identifier: MIT OR Apache-2.0
//! The questions that C asks about a machine. They change nothing, and read the machine where it is.
ghost use Rattle.std.specs.Prelude.{◌≡◌, Some, None, IfSome, length, true, false};
ghost use Rattle.ffa_model.specs.Access.{access};
ghost use Rattle.ffa_model.specs.Agreement.{blocks_of};
ghost use Rattle.ffa_model.specs.Ram.{page_of};
ghost use Rattle.ffa_c.specs.Border.{access_code, asked, has_page, is_due_in, is_pending_for, owner_number, root_number};

use crate::codes::NOTHING;
use crate::machine::CMachine;
use ffa_physmem::PAGE_SIZE;

/// The bytes of a page, as C sees them.
#[repr(C)]
pub struct CPage {
    /// All bytes of the page.
    pub bytes: [u8; PAGE_SIZE],
}

/// Returns the endpoint that runs on the selected processor, or `NOTHING` if there is no machine. The machine stays as
/// it was.
#[unsafe(no_mangle)]
pub extern "C" fn gorseplumb_runner(machine: &mut CMachine) -> u32
    ensures same { machine.new.held.value ≡ machine.old.held.value }
    ensures value { result ≡ asked (λ s. s.state.runner) machine.old.held.value }
{
    if machine.live {
        machine.held.board().runner()
    } else {
        NOTHING
    }
}

/// Returns the number of endpoints, or `NOTHING` if there is no machine. The machine stays as it was.
#[unsafe(no_mangle)]
pub extern "C" fn gorseplumb_endpoints(machine: &mut CMachine) -> u32
    ensures same { machine.new.held.value ≡ machine.old.held.value }
    ensures value { result ≡ asked (λ s. length s.state.parties) machine.old.held.value }
{
    if machine.live {
        machine.held.board().endpoints()
    } else {
        NOTHING
    }
}

/// Returns RAM's first address, or `NOTHING` if there is no machine. The machine stays as it was.
#[unsafe(no_mangle)]
pub extern "C" fn gorseplumb_ram_base(machine: &mut CMachine) -> u32
    ensures same { machine.new.held.value ≡ machine.old.held.value }
    ensures value { result ≡ asked (λ s. s.state.ram_base) machine.old.held.value }
{
    if machine.live {
        machine.held.board().ram_base()
    } else {
        NOTHING
    }
}

/// Returns the number of RAM's blocks of 2 MiB, or `NOTHING` if there is no machine. The machine stays as it was.
#[unsafe(no_mangle)]
pub extern "C" fn gorseplumb_ram_blocks(machine: &mut CMachine) -> u32
    ensures same { machine.new.held.value ≡ machine.old.held.value }
    ensures value { result ≡ asked (λ s. blocks_of s.state) machine.old.held.value }
{
    if machine.live {
        machine.held.board().ram_blocks()
    } else {
        NOTHING
    }
}

/// Returns the address of an endpoint's level 1 table. Returns `NOTHING` if there is no machine, or if the machine has
/// no such endpoint. The machine stays as it was.
#[unsafe(no_mangle)]
pub extern "C" fn gorseplumb_root(machine: &mut CMachine, endpoint: u16) -> u32
    ensures same { machine.new.held.value ≡ machine.old.held.value }
    ensures value { result ≡ asked (λ s. root_number s.state endpoint) machine.old.held.value }
{
    if machine.live {
        machine.held.board().root_of(endpoint)
    } else {
        NOTHING
    }
}

/// Returns the owner of a page of RAM: the identifier of an endpoint, or 0x8000 for the manager. Returns `NOTHING` if
/// there is no machine, or if the machine has no such page. The machine stays as it was.
#[unsafe(no_mangle)]
pub extern "C" fn gorseplumb_owner(machine: &mut CMachine, page: u32) -> u32
    ensures same { machine.new.held.value ≡ machine.old.held.value }
    ensures value { result ≡ asked (λ s. owner_number s page) machine.old.held.value }
{
    if machine.live {
        machine.held.board().owner_of(page)
    } else {
        NOTHING
    }
}

/// Returns the right of an endpoint to a page: 0 for no right, 1 to read, 3 to read and write, and 4 more to execute.
/// Returns 0 also if the machine has no such endpoint or page, and `NOTHING` if there is no machine. The machine stays
/// as it was.
#[unsafe(no_mangle)]
pub extern "C" fn gorseplumb_access(machine: &mut CMachine, endpoint: u16, page: u32) -> u32
    ensures same { machine.new.held.value ≡ machine.old.held.value }
    ensures value { result ≡ asked (λ s. access_code (access s.state endpoint page)) machine.old.held.value }
{
    if machine.live {
        machine.held.board().access(endpoint, page)
    } else {
        NOTHING
    }
}

/// Returns true if an endpoint has a pending notification, which its next FFA_NOTIFICATION_GET of all classes would
/// return. Returns false if no notification is pending, if there is no such endpoint, or if there is no machine. The
/// machine stays as it was.
#[unsafe(no_mangle)]
pub extern "C" fn gorseplumb_npi_pending(machine: &mut CMachine, endpoint: u16) -> bool
    ensures same { machine.new.held.value ≡ machine.old.held.value }
    ensures value { result ≡ is_pending_for endpoint machine.old.held.value }
{
    if machine.live {
        machine.held.board().has_pending(endpoint)
    } else {
        false
    }
}

/// Returns true if FFA_NOTIFICATION_INFO_GET would name an endpoint to the normal world. The normal world's schedule
/// receiver interrupt must then be pending. Returns false if that call would name no endpoint, on each machine of FF-A
/// 1.1, and if there is no machine. The machine stays as it was.
#[unsafe(no_mangle)]
pub extern "C" fn gorseplumb_sri_pending(machine: &mut CMachine) -> bool
    ensures same { machine.new.held.value ≡ machine.old.held.value }
    ensures value { result ≡ is_due_in machine.old.held.value }
{
    if machine.live {
        machine.held.board().has_notices()
    } else {
        false
    }
}

/// Copies the bytes of a page of RAM to `bytes`, and returns true. Returns false if there is no machine, or if the
/// machine has no such page. Then `bytes` stays as it was. The machine stays as it was.
#[unsafe(no_mangle)]
pub extern "C" fn gorseplumb_read_page(machine: &mut CMachine, page: u32, bytes: &mut CPage) -> bool
    ensures same { machine.new.held.value ≡ machine.old.held.value }
    ensures there { result ≡ has_page machine.old.held.value page }
    ensures read { result ≡ true → IfSome machine.old.held.value (λ b. bytes.new.bytes ≡ page_of b.machine.ram page) }
    ensures kept { result ≡ false → bytes.new ≡ bytes.old }
{
    if machine.live {
        let board = machine.held.board();
        let is_there = page < board.pages();
        if is_there {
            bytes.bytes = *board.page(page);
        }
        is_there
    } else {
        false
    }
}
