// SPDX-License-Identifier: MIT OR Apache-2.0
//! What more there is to say of a guard that isn't met than what is found.
ghost use Rattle.std.specs.Prelude.{◌≡◌};
ghost use Rattle.play_player.specs.Hints.{are_digits, are_upper_digits, begins_listing, begins_outcome, begins_resumed, can_be_met, first_word, hint_of, is_answer_name, is_call_name, is_check, is_opening, is_row_name, is_runner, may_follow, may_follow_error};

use crate::guards::Asks;
use crate::patterns::{begins_line, behind_first, first_space};
use ffa_model::CALLS;

/// What more there is to say of a guard that isn't met.
#[derive(Clone, Copy, PartialEq, Eq)]
pub enum Hint {
    /// Nothing that is printed can meet it.
    Bad,
    /// Guards before it have asked for all that was printed.
    Taken,
    /// It has the first words of the line that is printed: ` ..` behind them leaves the rest open.
    Open,
}

/// What more there is to say of a guard that isn't met in a trace of so many processors, by what it asks about and its text,
/// where this is found, and where text was printed before.
pub(crate) fn hint_of(
    processors: Option<usize>,
    asks: Asks,
    wants: &[u8],
    found: &[u8],
    printed: bool,
) -> Option<Hint>
    ensures { result ≡ hint_of processors asks wants.now found.now printed }
{
    match asks {
        Asks::Runner if is_runner(wants) => None,
        Asks::Runner => Some(Hint::Bad),
        Asks::Printed => hint_of_text(processors, wants, found, printed),
    }
}

fn hint_of_text(
    processors: Option<usize>,
    wants: &[u8],
    found: &[u8],
    printed: bool,
) -> Option<Hint>
    ensures { result ≡ hint_of processors Asks.Printed wants.now found.now printed }
{
    if !can_be_met(processors, wants) {
        return Some(Hint::Bad);
    }
    match found {
        [] if printed => Some(Hint::Taken),
        [] => None,
        _ if begins_line(wants, found) => Some(Hint::Open),
        _ => None,
    }
}

fn can_be_met(processors: Option<usize>, text: &[u8]) -> bool
    ensures { result ≡ can_be_met processors text.now }
{
    if text.starts_with(b"check ") {
        is_check(first_word(&text[6..]))
    } else if text.starts_with(b"FFA_") {
        let name = first_word(text);
        is_call_name(name) && may_follow(name, behind_first(text))
    } else {
        is_opening(processors, first_word(text))
    }
}

// Whether a text may stand behind the name of a call.
fn may_follow(name: &[u8], text: &[u8]) -> bool
    ensures { result ≡ may_follow name.now text.now }
{
    text == b"".as_slice()
        || text == b"..".as_slice()
        || name == b"FFA_ERROR".as_slice() && may_follow_error(text)
}

// Whether a text may stand behind the name of an error: a check with its number, or what the error is.
fn may_follow_error(text: &[u8]) -> bool
    ensures { result ≡ may_follow_error text.now }
{
    if text.starts_with(b"check ") {
        is_check(first_word(&text[6..]))
    } else {
        true
    }
}

fn first_word(text: &[u8]) -> &[u8]
    ensures { result.now ≡ first_word text.now }
{
    match first_space(text) {
        Some(end) => &text[..end],
        None => text,
    }
}

// Whether a word is the number of a check, or leaves it open.
fn is_check(word: &[u8]) -> bool
    ensures { result ≡ is_check word.now }
{
    matches!(word, b"..") || !word.is_empty() && !word.starts_with(b"0") && are_digits(word)
}

fn are_digits(word: &[u8]) -> bool
    ensures { result ≡ are_digits word.now }
{
    word.iter().all(|c| b'0' <= *c && *c <= b'9')
}

// Whether a word is the name of a call, or of what a caller sees and is none.
fn is_call_name(word: &[u8]) -> bool
    ensures { result ≡ is_call_name word.now }
{
    is_answer_name(word) || is_row_name(word)
}

fn is_answer_name(word: &[u8]) -> bool
    ensures { result ≡ is_answer_name word.now }
{
    word == b"FFA_ERROR".as_slice()
        || word == b"FFA_SUCCESS".as_slice()
        || word == b"FFA_INTERRUPT".as_slice()
        || word == b"FFA_MEM_RETRIEVE_RESP".as_slice()
}

fn is_row_name(word: &[u8]) -> bool
    ensures { result ≡ is_row_name word.now }
{
    CALLS.iter().any(|row| word == row.1.as_bytes())
}

// Whether a printed line begins with a word.
fn is_opening(processors: Option<usize>, word: &[u8]) -> bool
    ensures { result ≡ is_opening processors word.now }
{
    begins_outcome(word) || begins_resumed(processors, word) || begins_listing(word)
}

// Whether the line of a partition that goes on begins with it, as one does only where several processors run the machine.
fn begins_resumed(processors: Option<usize>, word: &[u8]) -> bool
    ensures { result ≡ begins_resumed processors word.now }
{
    processors.is_some() && word == b"resumed".as_slice()
}

fn begins_outcome(word: &[u8]) -> bool
    ensures { result ≡ begins_outcome word.now }
{
    word == b"regs".as_slice()
        || word == b"data".as_slice()
        || word == b"done".as_slice()
        || word == b"fault".as_slice()
}

fn begins_listing(word: &[u8]) -> bool
    ensures { result ≡ begins_listing word.now }
{
    word == b"runner".as_slice()
        || word == b"pages".as_slice()
        || word == b"cert".as_slice()
        || word == b"root".as_slice()
        || word == b"agrees".as_slice()
        || word == b"differs".as_slice()
}

// Whether a text is written as an endpoint's identifier.
fn is_runner(text: &[u8]) -> bool
    ensures { result ≡ is_runner text.now }
{
    text.len() == 4 && are_upper_digits(text)
}

fn are_upper_digits(text: &[u8]) -> bool
    ensures { result ≡ are_upper_digits text.now }
{
    text.iter()
        .all(|c| b'0' <= *c && *c <= b'9' || b'A' <= *c && *c <= b'F')
}
