// SPDX-License-Identifier: MIT OR Apache-2.0
//! The outcomes of a trace that the program made up.
ghost use Rattle.std.specs.Prelude.{IfErr};
ghost use Rattle.play_report.specs.Failures.{IsShort};

use crate::failure::Failure;
use crate::output::write;
use play_generator::Counts;
use std::alloc::Allocator;
use std::io::Write;

/// Prints how often each call and access of a trace ended in which way. Fails if the output cannot be written, or if
/// there is no memory.
pub fn print_counts<A: Allocator, W: Write>(
    alloc: A,
    counts: &Counts,
    out: &mut W,
) -> Result<(), Failure<'static>>
    ensures { IfErr result IsShort }
{
    let mut text = Vec::new(alloc);
    // A text in memory takes each byte that there is memory for.
    write!(text, "{counts}").map_err(|_| Failure::NoMemory)?;
    write(out, &text)
}
