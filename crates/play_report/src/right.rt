// SPDX-License-Identifier: MIT OR Apache-2.0
//! The right after an endpoint, in words.
ghost use Rattle.std.specs.Prelude.{◌≡◌};
ghost use Rattle.play_report.specs.Forms.{asked_by, has_place, right_named};

use crate::fault::Form;
use ffa_model::Data;
use std::fmt;

/// A right that a word names: to data, to instructions or to both. It prints as the word.
#[derive(Clone, Copy, Debug, PartialEq, Eq)]
pub enum Right {
    Ro,
    Rw,
    Rox,
    Rwx,
    X,
}

impl Right {
    /// Returns the right that a word names, or `None` if the word names no right.
    #[tactic(auto, unfolding(crate::specs::Forms::right_named))]
    pub(crate) fn read(word: &str) -> Option<Right>
        ensures { result ≡ right_named word.now }
    {
        match word {
            "ro" => Some(Right::Ro),
            "rw" => Some(Right::Rw),
            "rox" => Some(Right::Rox),
            "rwx" => Some(Right::Rwx),
            "x" => Some(Right::X),
            _ => None,
        }
    }

    /// Returns the right to data, or `None` if this right does not name it, and whether the endpoint may fetch
    /// instructions.
    pub(crate) fn asked(self) -> (Option<Data>, bool)
        ensures { result ≡ asked_by self }
    {
        match self {
            Right::Ro => (Some(Data::Ro), false),
            Right::Rw => (Some(Data::Rw), false),
            Right::Rox => (Some(Data::Ro), true),
            Right::Rwx => (Some(Data::Rw), true),
            Right::X => (None, true),
        }
    }

    /// Whether the right has a place after a receiver in words of this form.
    pub(crate) fn has_place(self, form: Form) -> bool
        ensures { result ≡ has_place form self }
    {
        match form {
            Form::Lend | Form::Share => matches!(self, Right::Ro | Right::Rw),
            Form::Retrieve => true,
            Form::Donate | Form::Relinquish | Form::Reclaim => false,
        }
    }

    fn name(self) -> &'static str {
        match self {
            Right::Ro => "ro",
            Right::Rw => "rw",
            Right::Rox => "rox",
            Right::Rwx => "rwx",
            Right::X => "x",
        }
    }
}

impl fmt::Display for Right {
    fn fmt<W: fmt::Write>(&self, f: &mut fmt::Formatter<W>) -> fmt::Result {
        f.write_str(self.name())
    }
}
