// SPDX-License-Identifier: MIT OR Apache-2.0
//! Why the bytes of a line are not a line of a trace.
ghost use Rattle.std.specs.Prelude.{IsNone, ◌↔◌};
ghost use Rattle.play_reasons.specs.Whole.{IsWhole};

use play_trace::{Line, line};
use std::fmt;

/// The first thing that is wrong with a line of a trace. It prints as one line.
#[derive(Clone, Copy, Debug, PartialEq, Eq)]
pub enum LineFault {
    /// The line does not end in LF.
    NoEnd,
    /// The line ends in CR LF.
    CarriageReturn,
    /// The words are wrong at this column. The first byte of the line has column 1. If a word is missing, the column is the one
    /// after the line's last byte.
    Words { column: usize, cause: WordFault },
    /// The line is wrong as a whole.
    Whole,
}

/// The cause for which the words of a line are wrong.
#[derive(Clone, Copy, Debug, PartialEq, Eq)]
pub enum WordFault {
    /// A word is empty: the line has two spaces in a row, or a space at its start or end.
    Empty,
    /// The first word is not a command.
    UnknownCommand,
    /// The first word is `help`, in a trace of one processor.
    Help,
    /// The first word is `help`, in a trace of several processors.
    HelpOnSeveral,
    /// The first word is `quit` or `exit`.
    Quit,
    /// The first register of a call is a word that begins with `FFA_`, as in a trace with named arguments.
    Name,
    /// The word must be a number, and a byte of it is not a hexadecimal digit.
    NoNumber,
    /// A number begins with `0x`, as it may only in a trace with named arguments. Nothing else is wrong with the line.
    Prefix,
    /// The number has this number of digits, which is more than 16.
    LongNumber(usize),
    /// The number of bytes to load is not 1, 2, 4 or 8.
    Size,
    /// The value to store has this number of digits, which is not 2, 4, 8 or 16.
    Digits(usize),
    /// The call has this number of registers, which is 0 or more than 8.
    Registers(usize),
    /// The number is not less than this number of processors.
    Processor(usize),
    /// The command needs one more word.
    Missing,
    /// The command takes no word here.
    TooMany,
}

/// Returns the first thing that is wrong with a line of a trace, or `None` if nothing is wrong. `bytes` includes the LF that ends the
/// line, if it has one. `processors` is the number of processors of the trace, or `None` if the trace cannot name processors. A wrong
/// word comes first, from the left. Then come missing words or too many registers, and last a number that begins with `0x`.
pub fn line_fault(processors: Option<usize>, bytes: &[u8]) -> Option<LineFault>
    ensures { IsNone result ↔ IsWhole processors bytes.now }
{
    let Some(line) = bytes.strip_suffix(b"\n") else {
        return Some(LineFault::NoEnd);
    };
    match Line::read_in(processors, line) {
        Some(_) => None,
        None if line.ends_with(b"\r") => Some(LineFault::CarriageReturn),
        None => Some(words_fault(processors, line)),
    }
}

#[derive(Clone, Copy)]
enum Command {
    Call,
    Load,
    Store,
    Fetch,
    // `show` or `audit`, or `interrupt` in a trace of several processors.
    Bare,
    // `on`, in a trace of this number of processors.
    On(usize),
}

// What is wrong with the words of a line that is not accepted.
fn words_fault(processors: Option<usize>, line: &[u8]) -> LineFault {
    let mut words = line.split(|b| *b == b' ');
    let name = words.next().unwrap_or(line);
    let Some(command) = command_named(processors, name) else {
        let cause = name_fault(processors, name);
        return LineFault::Words { column: 1, cause };
    };
    let mut column = usize::saturating_add(name.len(), 2);
    let (mut count, mut ninth) = (0, column);
    let mut prefixed = None;
    for word in words {
        count = usize::saturating_add(count, 1);
        if count == 9 {
            ninth = column;
        }
        if let Some(cause) = word_fault(command, count, word) {
            return LineFault::Words { column, cause };
        }
        if prefixed.is_none() && has_prefix(word) {
            prefixed = Some(column);
        }
        column = usize::saturating_add(column, usize::saturating_add(word.len(), 1));
    }
    match (count_fault(command, count, ninth, line.len()), prefixed) {
        (Some(fault), _) => fault,
        (None, Some(column)) => LineFault::Words {
            column,
            cause: WordFault::Prefix,
        },
        (None, None) => LineFault::Whole,
    }
}

fn command_named(processors: Option<usize>, name: &[u8]) -> Option<Command> {
    match name {
        b"call" => Some(Command::Call),
        b"load" => Some(Command::Load),
        b"store" => Some(Command::Store),
        b"fetch" => Some(Command::Fetch),
        b"show" | b"audit" => Some(Command::Bare),
        _ => act_named(processors?, name),
    }
}

// A command that only a trace of several processors has.
fn act_named(count: usize, name: &[u8]) -> Option<Command> {
    match name {
        b"on" => Some(Command::On(count)),
        b"interrupt" => Some(Command::Bare),
        _ => None,
    }
}

fn name_fault(processors: Option<usize>, name: &[u8]) -> WordFault {
    match name {
        b"" => WordFault::Empty,
        b"help" if processors.is_some() => WordFault::HelpOnSeveral,
        b"help" => WordFault::Help,
        b"quit" | b"exit" => WordFault::Quit,
        _ => WordFault::UnknownCommand,
    }
}

// What is wrong with the word at this place after a command. The first has place 1.
fn word_fault(command: Command, place: usize, word: &[u8]) -> Option<WordFault> {
    if word.is_empty() {
        return Some(WordFault::Empty);
    }
    let digits = without_prefix(word);
    match (command, place) {
        (Command::Call, 1) if word.starts_with(b"FFA_") => Some(WordFault::Name),
        (Command::Load, 2) => size_fault(digits),
        (Command::Store, 2) => value_fault(digits),
        (Command::On(count), 1) => processor_fault(count, digits),
        (Command::Call, _) | (Command::Load | Command::Store | Command::Fetch, 1) => {
            number_fault(digits)
        }
        (_, _) => Some(WordFault::TooMany),
    }
}

// Whether a word begins with `0x` and goes on.
fn has_prefix(word: &[u8]) -> bool {
    without_prefix(word).len() < word.len()
}

fn without_prefix(word: &[u8]) -> &[u8] {
    match word {
        [b'0', b'x' | b'X', _, ..] => &word[2..],
        _ => word,
    }
}

fn number_fault(word: &[u8]) -> Option<WordFault> {
    if !word.iter().all(u8::is_ascii_hexdigit) {
        Some(WordFault::NoNumber)
    } else if word.len() > 16 {
        Some(WordFault::LongNumber(word.len()))
    } else {
        None
    }
}

fn size_fault(word: &[u8]) -> Option<WordFault> {
    match word {
        b"1" | b"2" | b"4" | b"8" => None,
        _ => Some(WordFault::Size),
    }
}

fn value_fault(word: &[u8]) -> Option<WordFault> {
    if !word.iter().all(u8::is_ascii_hexdigit) {
        return Some(WordFault::NoNumber);
    }
    match word.len() {
        2 | 4 | 8 | 16 => None,
        digits => Some(WordFault::Digits(digits)),
    }
}

// What is wrong with the number of a processor, of which there are this many.
fn processor_fault(count: usize, word: &[u8]) -> Option<WordFault> {
    match line::processor(word) {
        Some(processor) if processor < count as u64 => None,
        Some(_) => Some(WordFault::Processor(count)),
        None => number_fault(word),
    }
}

// What is wrong with the number of words after the command, each of which is right. The line has this number of bytes, and the ninth
// word is at this column.
fn count_fault(command: Command, count: usize, ninth: usize, bytes: usize) -> Option<LineFault> {
    let end = usize::saturating_add(bytes, 1);
    let (column, cause) = match (command, count) {
        (Command::Call, 0) => (end, WordFault::Registers(count)),
        (Command::Call, 9..) => (ninth, WordFault::Registers(count)),
        (Command::Load | Command::Store, 0 | 1) | (Command::Fetch | Command::On(_), 0) => {
            (end, WordFault::Missing)
        }
        (_, _) => return None,
    };
    Some(LineFault::Words { column, cause })
}

impl fmt::Display for LineFault {
    ghost use Rattle.std.specs.Prelude.{Some};
    ghost use Rattle.play_reasons.specs.FaultWords.{fault_words};

    ghost output = { λ fault. Some (fault_words fault) };

    fn fmt<W: fmt::Write>(&self, f: &mut fmt::Formatter<W>) -> fmt::Result {
        match self {
            LineFault::NoEnd => write!(f, "the line does not end in LF"),
            LineFault::CarriageReturn => write!(f, "the line ends in CR LF; it must end in LF"),
            LineFault::Words { column, cause } => write!(f, "column {column}: {cause}"),
            LineFault::Whole => write!(f, "not a line of a trace"),
        }
    }
}

impl fmt::Display for WordFault {
    ghost use Rattle.std.specs.Prelude.{Some};
    ghost use Rattle.play_reasons.specs.FaultWords.{word_fault_words};

    ghost output = { λ fault. Some (word_fault_words fault) };

    fn fmt<W: fmt::Write>(&self, f: &mut fmt::Formatter<W>) -> fmt::Result {
        match self {
            WordFault::Empty => write!(f, "empty word"),
            WordFault::UnknownCommand => write!(f, "unknown command"),
            WordFault::Help => write!(
                f,
                "a line is call X0 .. X7, load A N, store A V, fetch A, show or audit, in hexadecimal; with --words also call NAME ARGUMENT=N .., as call FFA_RUN partition=8001, whose names docs/PYTHON.md lists; quit ends a session"
            ),
            WordFault::HelpOnSeveral => write!(
                f,
                "a line is call X0 .. X7, load A N, store A V, fetch A, show, audit, on N or interrupt, in hexadecimal; with --words also call NAME ARGUMENT=N .., as call FFA_RUN partition=8001, whose names docs/PYTHON.md lists; quit ends a session"
            ),
            WordFault::Quit => write!(f, "to end a session, end the input, as Ctrl+D does"),
            WordFault::Name => write!(f, "the name of a call is read only with --words"),
            WordFault::NoNumber => write!(f, "not a hexadecimal number"),
            WordFault::Prefix => write!(f, "a number must not begin with 0x"),
            WordFault::LongNumber(digits) => {
                write!(f, "the number has {digits} digits; it must have at most 16")
            }
            WordFault::Size => write!(f, "the size must be 1, 2, 4 or 8"),
            WordFault::Digits(1) => {
                write!(f, "the value has 1 digit; it must have 2, 4, 8 or 16")
            }
            WordFault::Digits(digits) => {
                write!(
                    f,
                    "the value has {digits} digits; it must have 2, 4, 8 or 16"
                )
            }
            WordFault::Registers(count) => {
                write!(f, "a call needs 1 to 8 registers, found {count}")
            }
            WordFault::Processor(count) => {
                write!(f, "the processor's number must be less than {count}")
            }
            WordFault::Missing => write!(f, "missing word"),
            WordFault::TooMany => write!(f, "unexpected word"),
        }
    }
}
