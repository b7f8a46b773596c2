// SPDX-License-Identifier: MIT OR Apache-2.0
//! The standard's names of the functions and the error codes that registers hold.
ghost use Rattle.std.specs.Prelude.{◌≡◌, ◌≤◌, length, option_map};
ghost use Rattle.ffa_model.specs.Registers.{low};
ghost use Rattle.ffa_model.specs.Rows.{place_in_rows, row_of, rows, told};
ghost use Rattle.ffa_abi.specs.Names.{answer_names, call_name_of, error_name_of, error_names, name_in};

use crate::call::low;
use ffa_model::function::{
    FFA_ERROR, FFA_INTERRUPT, FFA_MEM_RETRIEVE_RESP, FFA_SUCCESS, FFA_SUCCESS_64, WIDE,
};
use ffa_model::{CALLS, CallRow};

/// Returns the row of the call that has this identifier, in either form that the call has (DEN0077A, 11 to 16). Returns
/// `None` if the number identifies no call.
#[tactic(auto, unfolding(ffa_model::specs::Rows::row_of))]
pub fn call_row(function: u32) -> Option<&'static CallRow>
    ensures { option_map (λ row. told row.now) result ≡ row_of function }
{
    CALLS.iter().find(|row| {
        function == row.0
            || !row.2.is_empty() && u64::from(function) == u64::from(row.0) + u64::from(WIDE)
    })
}

/// Returns the place in `CALLS` of the row of the call that has this identifier, in either form. Returns the number of
/// rows if the number identifies no call.
#[tactic(auto, unfolding(ffa_model::specs::Rows::place_in_rows))]
pub fn call_place(function: u32) -> usize
    ensures place { result ≡ place_in_rows function }
    ensures few { result ≤ length rows }
{
    CALLS
        .iter()
        .position(|row| {
            function == row.0
                || !row.2.is_empty() && u64::from(function) == u64::from(row.0) + u64::from(WIDE)
        })
        .unwrap_or(CALLS.len())
}

/// Returns the name of the call in these registers, in either form that the call has. The low half of x0 identifies it.
/// Returns `None` if this is not a function identifier that a machine knows, for example if it is a version.
#[tactic(auto, unfolding(crate::specs::Names::call_name_of))]
pub fn call_name(x: &[u64; 8]) -> Option<&'static str>
    ensures { option_map (λ name. name.now) result ≡ call_name_of x.now }
{
    let function = low(x[0]);
    match call_row(function) {
        Some((_, name, _, _)) => Some(name),
        None => other_name(function),
    }
}

// Returns the name of an identifier that a caller sees, and that is not a call.
fn other_name(function: u32) -> Option<&'static str>
    ensures { option_map (λ name. name.now) result ≡ name_in answer_names function }
{
    let name = match function {
        FFA_ERROR => "FFA_ERROR",
        FFA_SUCCESS | FFA_SUCCESS_64 => "FFA_SUCCESS",
        FFA_INTERRUPT => "FFA_INTERRUPT",
        FFA_MEM_RETRIEVE_RESP => "FFA_MEM_RETRIEVE_RESP",
        _ => return None,
    };
    Some(name)
}

/// Returns the name of the error code in w2 of an FFA_ERROR (DEN0077A, 11.2). Returns `None` if the registers are not
/// an FFA_ERROR, or if the standard has no such code.
#[tactic(auto, unfolding(crate::specs::Names::error_name_of))]
pub fn error_name(x: &[u64; 8]) -> Option<&'static str>
    ensures { option_map (λ name. name.now) result ≡ error_name_of x.now }
{
    if low(x[0]) == FFA_ERROR {
        code_name(low(x[2]))
    } else {
        None
    }
}

// Returns the name of an error code, which is 32 bits of two's complement.
fn code_name(code: u32) -> Option<&'static str>
    ensures { option_map (λ name. name.now) result ≡ name_in error_names code }
{
    let name = match code {
        0xFFFF_FFFF => "NOT_SUPPORTED",
        0xFFFF_FFFE => "INVALID_PARAMETERS",
        0xFFFF_FFFD => "NO_MEMORY",
        0xFFFF_FFFC => "BUSY",
        0xFFFF_FFFB => "INTERRUPTED",
        0xFFFF_FFFA => "DENIED",
        0xFFFF_FFF9 => "RETRY",
        0xFFFF_FFF8 => "ABORTED",
        0xFFFF_FFF7 => "NO_DATA",
        _ => return None,
    };
    Some(name)
}
