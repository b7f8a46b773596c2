// SPDX-License-Identifier: MIT OR Apache-2.0
//! The fault of a line that names its call, and the name that its writer may have meant.
use ffa_manifest::nearest;
use ffa_model::CALLS;
use play_trace::{ARGUMENTS, Cause, LowerError, WordsFault, lower_line};
use std::alloc::Allocator;
use std::{fmt, str};

/// The fault of a line that names its call. It prints as one line.
#[derive(Clone, Copy, Debug, PartialEq, Eq)]
pub struct CallFault {
    /// The fault of the line's words, with its column.
    pub fault: WordsFault,
    near: Option<Near>,
}

// The name that the writer of a line may have meant by a word. `_64` follows the name if the writer meant that too.
#[derive(Clone, Copy, Debug, PartialEq, Eq)]
struct Near {
    name: &'static str,
    is_wide: bool,
}

impl CallFault {
    /// Returns the fault of a line that names its call, or `None` if the line has no fault. The line is without its LF.
    /// Returns `None` too if there is no memory to read the line. If there is no memory to compare names, the fault
    /// suggests no name.
    pub fn of_line<A: Allocator + Copy>(alloc: A, line: &[u8]) -> Option<CallFault> {
        match lower_line(alloc, line) {
            Err(LowerError::Words(fault)) => Some(CallFault {
                fault,
                near: near_name(alloc, line, fault),
            }),
            Ok(_) | Err(LowerError::NoMemory) => None,
        }
    }
}

impl fmt::Display for CallFault {
    fn fmt<W: fmt::Write>(&self, f: &mut fmt::Formatter<W>) -> fmt::Result {
        write!(f, "{}", self.fault)?;
        match self.near {
            Some(
                Near {
                    name,
                    is_wide: true,
                },
            ) => write!(f, ": did you mean '{name}_64'?"),
            Some(Near { name, .. }) => write!(f, ": did you mean '{name}'?"),
            None => Ok(()),
        }
    }
}

// Returns the name that the writer of a line may have meant by the wrong word.
fn near_name<A: Allocator + Copy>(alloc: A, line: &[u8], fault: WordsFault) -> Option<Near> {
    let rest = line.get(fault.column.saturating_sub(1)..)?;
    let word = str::from_utf8(rest.split(|byte| *byte == b' ').next()?).ok()?;
    match fault.cause {
        Cause::UnknownCall => near_call(alloc, word),
        Cause::NoFeature => near_call(alloc, word.split_once('=')?.1),
        Cause::UnknownArgument(function) => {
            near_argument(alloc, word.split_once('=')?.0, function)
        }
        _ => None,
    }
}

fn near_call<A: Allocator + Copy>(alloc: A, word: &str) -> Option<Near> {
    let front = word.strip_suffix("_64");
    let mut names = Vec::new(alloc);
    for row in CALLS {
        names.push(row.1).ok()?;
    }
    let name = nearest(alloc, front.unwrap_or(word), &names).ok()??;
    let row = CALLS.iter().find(|row| row.1 == name)?;
    Some(Near {
        name,
        is_wide: front.is_some() && !row.2.is_empty(),
    })
}

fn near_argument<A: Allocator + Copy>(alloc: A, word: &str, function: u32) -> Option<Near> {
    let row = ARGUMENTS.iter().find(|row| row.0 == function)?;
    let mut names = Vec::new(alloc);
    for argument in row.1 {
        names.push(argument.0.text()).ok()?;
    }
    let name = nearest(alloc, word, &names).ok()??;
    Some(Near {
        name,
        is_wide: false,
    })
}
