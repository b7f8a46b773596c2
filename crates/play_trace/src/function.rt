// SPDX-License-Identifier: MIT OR Apache-2.0
//! Calls by their names.
ghost use Rattle.std.specs.Prelude.{◌≡◌, option_map};
ghost use Rattle.ffa_model.specs.Rows.{told};
ghost use Rattle.play_trace.specs.Calls.{arguments_of, form_of, front_of, function_named, in_form, row_named};

use crate::arguments::{ARGUMENTS, Argument};
use ffa_model::function::WIDE;
use ffa_model::{CALLS, CallRow};

/// A call in one of its forms.
#[derive(Clone, Copy)]
pub struct Function {
    /// The identifier of the call's 32-bit form.
    pub narrow: u32,
    /// The identifier of this form of the call.
    pub number: u32,
    /// Whether this is the 64-bit form.
    pub is_wide: bool,
    /// The numbers of the registers that the 64-bit form reads or answers whole.
    pub whole: &'static [u32],
    pub arguments: &'static [Argument],
}

/// Returns the call of a name. The name ends in `_64` for the 64-bit form. Returns `None` if no call has the name, or
/// if the call does not have this form.
#[tactic(auto, unfolding(crate::specs::Calls::function_named))]
pub(crate) fn function_named(name: &[u8]) -> Option<Function>
    ensures { option_map form_of result ≡ function_named name.now }
{
    if let Some(row) = row_named(name) {
        return in_form(false, row);
    }
    let row = row_named(front_of(name)?)?;
    if row.2.is_empty() {
        None
    } else {
        in_form(true, row)
    }
}

// Returns the text before `_64` at the end of a name, or `None` if the name does not end so.
fn front_of(name: &[u8]) -> Option<&[u8]>
    ensures { option_map (λ front. front.now) result ≡ front_of name.now }
{
    let end = name.len().saturating_sub(3);
    if &name[end..] == b"_64".as_slice() {
        Some(&name[..end])
    } else {
        None
    }
}

// Returns a call in its 64-bit form or in its 32-bit form.
fn in_form(is_wide: bool, row: &CallRow) -> Option<Function>
    ensures { option_map form_of result ≡ in_form is_wide (told row.now) }
{
    let arguments = arguments_of(row.0)?;
    let number = if is_wide {
        u32::wrapping_add(row.0, WIDE)
    } else {
        row.0
    };
    Some(Function {
        narrow: row.0,
        number,
        is_wide,
        whole: row.2,
        arguments,
    })
}

#[tactic(auto, unfolding(crate::specs::Calls::row_named))]
fn row_named(name: &[u8]) -> Option<&'static CallRow>
    ensures { option_map (λ row. told row.now) result ≡ row_named name.now }
{
    CALLS.iter().find(|row| row.1.as_bytes() == name)
}

/// Returns the arguments of a call, by the identifier of its 32-bit form, or `None` if there is no such call.
#[tactic(auto, unfolding(crate::specs::Calls::arguments_of))]
pub(crate) fn arguments_of(function: u32) -> Option<&'static [Argument]>
    ensures { option_map (λ arguments. arguments.now) result ≡ arguments_of function }
{
    match ARGUMENTS.iter().find(|row| row.0 == function) {
        Some(row) => Some(row.1),
        None => None,
    }
}
