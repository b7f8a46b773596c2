// SPDX-License-Identifier: MIT OR Apache-2.0
//! The reasons why words are no call.

use crate::arguments::Usual;
use crate::function::arguments_of;
use crate::name::Name;
use std::fmt;

/// The first fault of a call in words, and the column of its word. The first byte of the line has column 1. The column
/// of a missing argument is the column after the line's last byte.
#[derive(Clone, Copy, Debug, PartialEq, Eq)]
pub struct WordsFault {
    pub column: usize,
    pub cause: Cause,
}

/// A fault of a word of a call.
#[derive(Clone, Copy, Debug, PartialEq, Eq)]
pub enum Cause {
    /// No call has the name.
    UnknownCall,
    /// The word has no `=`.
    NoArgument,
    /// The call has no argument of the name. The number is the identifier of the call's 32-bit form.
    UnknownArgument(u32),
    /// An earlier word gives the argument.
    Twice,
    /// The text after `=` is no hexadecimal number.
    NoNumber,
    /// The text after `=` is no UUID in a form that a manifest has.
    NoUuid,
    /// The text after `=` is neither a hexadecimal number nor the name of a call.
    NoFeature,
    /// The number is larger than this one, which is the largest that the argument may be.
    TooLarge(u128),
    /// The words do not give the argument of this name, which the call needs.
    Missing(Name),
}

/// The reason why a line is not translated into the plain format.
#[derive(Clone, Copy, Debug)]
pub enum LowerError {
    /// There is no memory.
    NoMemory,
    /// The words are no call.
    Words(WordsFault),
}

impl fmt::Display for WordsFault {
    fn fmt<W: fmt::Write>(&self, f: &mut fmt::Formatter<W>) -> fmt::Result {
        write!(f, "column {}: {}", self.column, self.cause)
    }
}

impl fmt::Display for Cause {
    fn fmt<W: fmt::Write>(&self, f: &mut fmt::Formatter<W>) -> fmt::Result {
        match self {
            Cause::UnknownCall => write!(f, "unknown call"),
            Cause::NoArgument => write!(f, "an argument must be NAME=NUMBER"),
            Cause::UnknownArgument(function) => put_known(*function, f),
            Cause::Twice => write!(f, "duplicate argument"),
            Cause::NoNumber => write!(f, "expected a hexadecimal number after ="),
            Cause::NoUuid => write!(
                f,
                "expected a UUID after =: 32 hexadecimal digits, plain or with hyphens as 8-4-4-4-12"
            ),
            Cause::NoFeature => {
                write!(
                    f,
                    "expected a hexadecimal number or the name of a call after ="
                )
            }
            Cause::TooLarge(most) => write!(f, "the number is above {most:X}"),
            Cause::Missing(name) => write!(f, "missing argument {name}"),
        }
    }
}

fn put_known<W: fmt::Write>(function: u32, f: &mut fmt::Formatter<W>) -> fmt::Result {
    let known = arguments_of(function).unwrap_or(&[]);
    if known.is_empty() {
        return write!(f, "unknown argument; this call has none");
    }
    write!(f, "unknown argument; this call has")?;
    for (name, _, _, usual) in known {
        match usual {
            Usual::Needed => write!(f, " {name}")?,
            Usual::Zero | Usual::Length => write!(f, " [{name}]")?,
        }
    }
    Ok(())
}
