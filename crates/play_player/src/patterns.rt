// SPDX-License-Identifier: MIT OR Apache-2.0
//! What a guard wants of a printed line: to be its text, or to fit a pattern.
ghost use Rattle.std.specs.Prelude.{◌≡◌, ◌++◌, ◌==◌, ◌<◌, IfErr, IfSome, OnOk, length, not, option_map, position};
ghost use Rattle.ffa_abi.specs.Names.{call_name_of};
ghost use Rattle.play_trace.specs.Lines.{meant};
ghost use Rattle.play_trace.specs.TraceLines.{space, words_of};
ghost use Rattle.play_reasons.specs.Drafts.{Puts};
ghost use Rattle.play_player.specs.Asking.{AreWords, SaysCame, SaysCheck};
ghost use Rattle.play_player.specs.Hints.{begins_line};
ghost use Rattle.play_player.specs.Patterns.{behind_first, check_behind, check_text, fit, fits, is_alike, meets, named, pattern_of, told, told_by_call, told_by_name, without_zeros};

use crate::Player;
use crate::reason::is_refused;
use ffa_abi::{call_name, low};
use ffa_model::{Op, Outcome, Why};
use ffa_playable::Playable;
use play_reasons::mark::put_error;
use play_reasons::{Draft, check_number};
use play_trace::{Line, PlayError};
use std::alloc::Allocator;

/// What the words of a guard's text are compared with.
#[derive(Clone, Copy, PartialEq, Eq)]
pub enum Pattern {
    /// The words of the printed line.
    Words,
    /// The name of the call that the line's registers are, that of their error, and the number of the check by which the call
    /// is refused: `FFA_ERROR DENIED check 12`.
    Name,
    /// The same without the error: `FFA_ERROR check 12`.
    NameAndCheck,
    /// The number of the check by which the call is refused: `check 12`.
    Check,
}

impl Pattern {
    /// What this text is.
    pub fn of(text: &[u8]) -> Pattern
        ensures { result ≡ pattern_of text.now }
    {
        if text.starts_with(b"FFA_") {
            if behind_first(text).starts_with(b"check ") {
                Pattern::NameAndCheck
            } else {
                Pattern::Name
            }
        } else if text.starts_with(b"check ") {
            Pattern::Check
        } else {
            Pattern::Words
        }
    }
}

/// What a line came to, beside its text.
#[derive(Clone, Copy)]
pub struct Came {
    /// The outcome of the operation that the line is, or of the interrupt. Where a partition goes on there is none.
    pub outcome: Option<Outcome>,
    /// The number of the check by which its call is refused.
    pub check: Option<usize>,
}

impl Came {
    /// Nothing, as of a line that is no operation.
    pub(crate) const NOTHING: Came = Came {
        outcome: None,
        check: None,
    };

    /// What a line came to that was done, where this was its outcome. A line that says nothing leaves what there was.
    pub(crate) fn behind<P: Playable>(
        self,
        player: &Player<P>,
        line: &Line,
        outcome: Option<Outcome>,
    ) -> Came
        ensures { SaysCame player.now.bench (meant line.now) outcome self result }
    {
        match line {
            Line::Nothing | Line::Turn(_) => self,
            Line::Show | Line::Audit => Came::NOTHING,
            Line::Interrupt => Came {
                outcome,
                check: None,
            },
            Line::Operation(op) => Came {
                outcome,
                check: check_of(player, op, outcome),
            },
        }
    }
}

// The number of the check by which an operation that was done is refused, where it is a call and this was its outcome. A
// refusal changes nothing by which a reason goes.
fn check_of<P: Playable>(player: &Player<P>, op: &Op, outcome: Option<Outcome>) -> Option<usize>
    ensures { SaysCheck player.now.bench op.now outcome result }
{
    if !is_refused(outcome) {
        return None;
    }
    let Op::Call(x) = *op else {
        return None;
    };
    let its = player.machine().why(op)?;
    match its.why {
        Why::Refused { refusal, .. } => check_number(low(x[0]), refusal),
        Why::Fault { .. } => None,
    }
}

/// Puts into `found` what a pattern is compared with at a line that came to this.
pub(crate) fn put_told<A: Allocator + Copy>(
    pattern: Pattern,
    came: Came,
    line: &[u8],
    found: &mut Vec<u8, A>,
) -> Result<(), PlayError>
    ensures written { OnOk result (found.new.items ≡ told pattern came line.now) }
    ensures failed { IfErr result (λ e. e ≡ PlayError.NoMemory) }
{
    let mut text = Draft::over(found);
    match (pattern, came.check) {
        (Pattern::Words, _) => text.put_bytes(line),
        (Pattern::Check, Some(number)) => put_check(&mut text, number),
        (Pattern::Check, None) => put_named(came.outcome, line, &mut text),
        (Pattern::Name, check) => put_name_and_check(came.outcome, check, line, &mut text),
        (Pattern::NameAndCheck, check) => put_call_and_check(came.outcome, check, line, &mut text),
    }
    *found = text.end()?;
    Ok(())
}

fn put_check<A: Allocator>(text: &mut Draft<A>, number: usize)
    ensures { Puts text.old text.new (check_text number) }
{
    text.put("check ");
    text.put_shown(&number);
}

// Puts the names of registers, or the line, where there are none, and behind it the check that refuses the call.
fn put_name_and_check<A: Allocator>(
    outcome: Option<Outcome>,
    check: Option<usize>,
    line: &[u8],
    text: &mut Draft<A>,
)
    ensures { Puts text.old text.new (told_by_name outcome line.now ++ check_behind check) }
{
    put_named(outcome, line, text);
    put_check_behind(text, check);
}

// The same without the name of the error.
fn put_call_and_check<A: Allocator>(
    outcome: Option<Outcome>,
    check: Option<usize>,
    line: &[u8],
    text: &mut Draft<A>,
)
    ensures { Puts text.old text.new (told_by_call outcome line.now ++ check_behind check) }
{
    put_call(outcome, line, text);
    put_check_behind(text, check);
}

fn put_check_behind<A: Allocator>(text: &mut Draft<A>, check: Option<usize>)
    ensures { Puts text.old text.new (check_behind check) }
{
    if let Some(number) = check {
        text.put(" ");
        put_check(text, number);
    }
}

// Puts the name of the call that registers are, or the line, where there is none.
fn put_call<A: Allocator>(outcome: Option<Outcome>, line: &[u8], text: &mut Draft<A>)
    ensures { Puts text.old text.new (told_by_call outcome line.now) }
{
    match outcome {
        Some(Outcome::Regs { x, .. }) => match call_name(&x) {
            Some(name) => text.put(name),
            None => text.put_bytes(line),
        },
        _ => text.put_bytes(line),
    }
}

// Puts the names of registers, or the line, where there are none.
fn put_named<A: Allocator>(outcome: Option<Outcome>, line: &[u8], text: &mut Draft<A>)
    ensures { Puts text.old text.new (told_by_name outcome line.now) }
{
    match outcome {
        Some(Outcome::Regs { x, .. }) => put_names_of(&x, line, text),
        _ => text.put_bytes(line),
    }
}

fn put_names_of<A: Allocator>(x: &[u64; 8], line: &[u8], text: &mut Draft<A>)
    ensures { Puts text.old text.new (named x.now line.now) }
{
    match call_name(x) {
        Some(name) => {
            text.put(name);
            put_error(text, x);
        }
        None => text.put_bytes(line),
    }
}

/// Whether a line meets a text, where this is what its pattern is compared with.
pub(crate) fn is_met(text: &[u8], line: &[u8], found: &[u8]) -> bool
    ensures { (came : Came) → found.now ≡ told (pattern_of text.now) came line.now → result ≡ meets came text.now line.now }
{
    text == line || text_fits(text, found)
}

fn text_fits(text: &[u8], line: &[u8]) -> bool
    ensures { result ≡ fits text.now line.now }
{
    let numbers = text.starts_with(b"regs ");
    match text.strip_suffix(b" ..") {
        Some(front) => words_fit(numbers, true, front, line),
        None => words_fit(numbers, text.starts_with(b"FFA_"), text, line),
    }
}

/// Whether a line begins with the words of a text.
pub(crate) fn begins_line(text: &[u8], line: &[u8]) -> bool
    ensures { result ≡ begins_line text.now line.now }
{
    words_fit(text.starts_with(b"regs "), true, text, line)
}

// Whether words are those of a line, which may go on behind them where they are loose. Numbers that are missing are 0.
fn words_fit(numbers: bool, loose: bool, text: &[u8], line: &[u8]) -> bool
    ensures { result ≡ fit numbers loose (words_of text.now) (words_of line.now) }
{
    let zeros = numbers && !loose;
    let mut wanted = text;
    let mut own = line;
    loop {
        let (word, more) = cut_word(wanted);
        let (its, rest) = cut_word(own);
        if !word_is_alike(numbers, word, its) {
            return false;
        }
        match (more, rest) {
            (Some(more), Some(rest)) => {
                wanted = more;
                own = rest;
            }
            (None, Some(rest)) if zeros => {
                wanted = b"0";
                own = rest;
            }
            (Some(_), None) => return false,
            (None, Some(_)) => return loose,
            (None, None) => return true,
        }
    }
}

/// What stands behind the first word.
pub(crate) fn behind_first(text: &[u8]) -> &[u8]
    ensures { result.now ≡ behind_first text.now }
{
    match first_space(text) {
        Some(end) => &text[end + 1..],
        None => &[],
    }
}

// The first word, and what stands behind the space after it.
fn cut_word(text: &[u8]) -> (&[u8], Option<&[u8]>)
    ensures words { AreWords text.now result.0.now (option_map (λ rest. rest.now) result.1) }
    ensures shorter { IfSome result.1 (λ rest. length rest.now < length text.now) }
{
    match first_space(text) {
        Some(end) => (&text[..end], Some(&text[end + 1..])),
        None => (text, None),
    }
}

pub(crate) fn first_space(text: &[u8]) -> Option<usize>
    ensures { result ≡ position (λ c. c == space) text.now }
{
    text.iter().position(|c| *c == b' ')
}

fn word_is_alike(numbers: bool, wanted: &[u8], word: &[u8]) -> bool
    ensures { result ≡ is_alike numbers wanted.now word.now }
{
    wanted == word || numbers && !wanted.is_empty() && leading_cut(wanted) == leading_cut(word)
}

// A word without the zeros at its front.
fn leading_cut(word: &[u8]) -> &[u8]
    ensures { result.now ≡ without_zeros word.now }
{
    match first_other(word) {
        Some(start) => &word[start..],
        None => &[],
    }
}

fn first_other(word: &[u8]) -> Option<usize>
    ensures { result ≡ position (λ c. not (c == 48)) word.now }
{
    word.iter().position(|c| *c != b'0')
}
