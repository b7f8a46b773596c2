// SPDX-License-Identifier: MIT OR Apache-2.0
//! What is told of a guard that isn't met.
ghost use Rattle.std.specs.Prelude.{◌≡◌, IfErr};

use crate::guards::{Breach, wanted_text};
use crate::hint::Hint;
use play_trace::PlayError;
use std::alloc::Allocator;
use std::io::{self, Write};

/// Puts a line behind a text that says where a guard isn't met, what it wants, and what there was, and more where more is to be
/// said. Where there is no memory for it, the text stays.
pub fn put_unmet<A: Allocator>(
    told: &mut Vec<u8, A>,
    breach: &Breach,
    line: &[u8],
    found: &[u8],
) -> Result<(), PlayError>
    ensures { IfErr result (λ e. e ≡ PlayError.NoMemory) }
{
    let before = told.len();
    // A text in memory takes all that there is memory for.
    match put_line(told, breach, wanted_text(line), found) {
        Ok(()) => Ok(()),
        Err(_) => {
            told.truncate(before);
            Err(PlayError::NoMemory)
        }
    }
}

fn put_line<A: Allocator>(
    told: &mut Vec<u8, A>,
    breach: &Breach,
    wanted: &[u8],
    found: &[u8],
) -> io::Result<()> {
    let Breach { number, hint, .. } = *breach;
    let (name, more) = words_of(hint);
    write!(
        told,
        "ffaplay: line {number}: {name}expected \"{}\", found ",
        wanted.escape_ascii()
    )?;
    if found.is_empty() {
        writeln!(told, "nothing{more}")
    } else {
        writeln!(told, "\"{}\"{more}", found.escape_ascii())
    }
}

// What stands before what is wanted, and behind what there was.
fn words_of(hint: Option<Hint>) -> (&'static str, &'static str) {
    match hint {
        None => ("", ""),
        Some(Hint::Bad) => ("bad guard: ", ": this guard can never pass"),
        Some(Hint::Taken) => ("", ": an earlier guard checked that line"),
        Some(Hint::Open) => ("", ": end the guard with \" ..\" to ignore the rest"),
    }
}
