// SPDX-License-Identifier: MIT OR Apache-2.0
//! Guards: comments that ask what the line before them printed, or which endpoint runs.
ghost use Rattle.std.specs.Prelude.{◌≡◌, ◌==◌, not, option_map, position};
ghost use Rattle.play_trace.specs.TraceLines.{space};
ghost use Rattle.play_player.specs.Guards.{behind_spaces, guard_of, is_near, wanted_of, without_space};

use crate::hint::Hint;

/// What a guard asks about.
#[derive(Clone, Copy, PartialEq, Eq)]
pub enum Asks {
    /// A line that was printed: `#= TEXT`.
    Printed,
    /// The identifier of the endpoint that runs, in four digits: `#@ ID`.
    Runner,
}

/// A guard that isn't met.
#[derive(Clone, Copy, PartialEq, Eq)]
pub struct Breach {
    /// The number of its line, counted from 1.
    pub number: u64,
    /// What it asks about.
    pub asks: Asks,
    /// What more there is to say of it than what is found.
    pub hint: Option<Hint>,
}

/// What a line asks, and the text that it wants, if it is a guard. One space before the text is none of it.
pub fn guard_text(line: &[u8]) -> Option<(Asks, &[u8])>
    ensures { option_map (λ guard. (guard.0, guard.1.now)) result ≡ guard_of line.now }
{
    match line {
        [b'#', b'=', text @ ..] => Some((Asks::Printed, without_space(text))),
        [b'#', b'@', text @ ..] => Some((Asks::Runner, without_space(text))),
        _ => None,
    }
}

fn without_space(text: &[u8]) -> &[u8]
    ensures { result.now ≡ without_space text.now }
{
    match text {
        [b' ', text @ ..] => text,
        _ => text,
    }
}

/// The text that a line wants that is a guard.
pub fn wanted_text(line: &[u8]) -> &[u8]
    ensures { result.now ≡ wanted_of line.now }
{
    match guard_text(line) {
        Some((_, text)) => text,
        None => line,
    }
}

/// Whether a line is a comment that is nearly a guard.
pub(crate) fn is_nearly_guard(line: &[u8]) -> bool
    ensures { result ≡ is_near line.now }
{
    match line {
        [b'#', b' ', ..] => matches!(behind_spaces(&line[1..]), [b'=' | b'@', ..]),
        _ => false,
    }
}

fn behind_spaces(text: &[u8]) -> &[u8]
    ensures { result.now ≡ behind_spaces text.now }
{
    match first_other(text) {
        Some(start) => &text[start..],
        None => &[],
    }
}

fn first_other(text: &[u8]) -> Option<usize>
    ensures { result ≡ position (λ c. not (c == space)) text.now }
{
    text.iter().position(|c| *c != b' ')
}
