// SPDX-License-Identifier: MIT OR Apache-2.0
//! The checks of each call and their numbers.
ghost use Rattle.std.specs.Prelude.{◌≡◌, ℕ, ◌==◌, List, Some, is_some, position, slice_index, true};
ghost use Rattle.ffa_model.specs.Calls.{first_refusal};
ghost use Rattle.ffa_model.specs.Checks.{AreListed, checks_of};
ghost use Rattle.ffa_model.specs.Registers.{decode, low};
ghost use Rattle.ffa_model.specs.State.{State};
ghost use Rattle.ffa_model.specs.Step.{service};
ghost use Rattle.ffa_model.specs.Words.{place_of};
ghost use Rattle.play_reasons.specs.Checks.{number_of, place_number};

use ffa_abi::call_row;
use ffa_model::Refusal;

/// Returns the checks of the call with this function identifier, in the order in which the call makes them.
pub fn checks(function: u32) -> &'static [Refusal]
    ensures listed { result.now ≡ checks_of function }
    ensures guards { (s : State) (x : List ℕ) → low (slice_index x 0) ≡ function → AreListed s (decode x) result.now }
{
    check_list(function)
}

fn check_list(function: u32) -> &'static [Refusal]
    ensures { result.now ≡ checks_of function }
{
    match call_row(function) {
        Some((_, _, _, checks)) => checks,
        None => &[Refusal::FunctionUnknown],
    }
}

/// Returns the number of a check in the list of the call with this function identifier, counted from 1, or `None` if the check is not
/// in the list. The first check that fails always has a number.
pub fn check_number(function: u32, refusal: Refusal) -> Option<usize>
    ensures number { result ≡ number_of function refusal }
    ensures numbered { (s : State) (x : List ℕ) → low (slice_index x 0) ≡ function
        → first_refusal (service s (decode x)).guards ≡ Some refusal → is_some result ≡ true }
{
    number_in(checks(function), refusal)
}

fn number_in(checks: &[Refusal], refusal: Refusal) -> Option<usize>
    ensures { result ≡ place_number checks.now refusal }
{
    let place = index_in(checks, refusal)?;
    Some(place + 1)
}

fn index_in(checks: &[Refusal], refusal: Refusal) -> Option<usize>
    ensures { result ≡ position (λ check. place_of check == place_of refusal) checks.now }
{
    checks
        .iter()
        .position(|check| *check as u8 == refusal as u8)
}
