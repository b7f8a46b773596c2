// SPDX-License-Identifier: MIT OR Apache-2.0
//! A line is done, and its text is dressed in the form that is asked for.
ghost use Rattle.std.specs.Prelude.{◌≡◌, IfSome, OnOk};
ghost use Rattle.play_trace.specs.Lines.{meant};
ghost use Rattle.play_reasons.specs.Drafts.{Puts};
ghost use Rattle.play_reasons.specs.Reasons.{told_line};
ghost use Rattle.play_player.specs.Forms.{DoesLine, dressed, line_text_in, names_in, number_in, worded_in};
ghost use Rattle.play_player.specs.Steps.{MakesText};

use crate::Player;
use crate::listening::Event;
use crate::reason::reason_of;
use crate::short::{put_short_data, put_short_registers};
use ffa_model::Outcome;
use ffa_playable::Playable;
use play_reasons::mark::{put_names, put_number};
use play_reasons::{Draft, Reason, put_reason};
use play_trace::{Line, PlayError};
use std::alloc::Allocator;

/// What a line's text is written with.
#[derive(Clone, Copy, Default, PartialEq, Eq)]
pub struct Form {
    /// The number of the line, at the beginning of its text.
    pub number: bool,
    /// The name of the call that registers are, and of their error, behind the registers.
    pub names: bool,
    /// A line under the text of an operation that is refused, which says why.
    pub explain: bool,
    /// What registers and data are stands in short words, in place of all their digits.
    pub short: bool,
}

/// What a line says: its plain text, and its text in a form.
#[derive(Drop)]
pub(crate) struct Texts<A: Allocator> {
    pub(crate) said: Vec<u8, A>,
    pub(crate) text: Draft<A>,
}

impl<A: Allocator + Copy> Texts<A> {
    /// Of no line yet.
    pub(crate) fn new(alloc: A) -> Texts<A> {
        Texts {
            said: Vec::new(alloc),
            text: Draft::new(alloc),
        }
    }
}

/// Does the line of this number, and makes its plain text in `said`, and in `text` its text in this form. It answers what
/// came of the operation that the line is.
pub(crate) fn make_text<P: Playable, A: Allocator + Copy>(
    player: &mut Player<P>,
    alloc: A,
    form: Form,
    number: u64,
    line: &Line,
    said: &mut Vec<u8, A>,
    text: &mut Draft<A>,
) -> Result<Option<Outcome>, PlayError>
    ensures done { DoesLine player.old.bench player.new.bench (meant line.now) said.new.items result }
    ensures made { OnOk result (IfSome text.new (λ t. t ≡ line_text_in form number player.old.bench (meant line.now))) }
{
    let outcome = do_line(player, alloc, line, said)?;
    let reason = reason_of(player, form.explain, line, outcome);
    text.clear();
    dress(form, number, outcome, reason, said, text);
    Ok(outcome)
}

/// Makes in `text` the text in this form of a line that was done.
pub(crate) fn make_text_of<P: Playable, A: Allocator>(
    player: &Player<P>,
    form: Form,
    event: &Event<'_>,
    text: &mut Draft<A>,
)
    ensures { MakesText form player.now.bench event.now text.new }
{
    let reason = reason_of(player, form.explain, &event.line, event.outcome);
    text.clear();
    dress(form, event.number, event.outcome, reason, event.text, text);
}

/// Does a line, and makes its plain text in `said`. It answers what came of the operation that the line is.
pub(crate) fn do_line<P: Playable, A: Allocator + Copy>(
    player: &mut Player<P>,
    alloc: A,
    line: &Line,
    said: &mut Vec<u8, A>,
) -> Result<Option<Outcome>, PlayError>
    ensures { DoesLine player.old.bench player.new.bench (meant line.now) said.new.items result }
{
    said.clear();
    // A text in memory takes all that there is memory for.
    player
        .line(alloc, line, said)
        .map_err(|_| PlayError::NoMemory)
}

// Puts the text of a line in this form, by what it said plainly, what came of its operation, and why that is refused. A
// line that says nothing has no number.
fn dress<A: Allocator>(
    form: Form,
    number: u64,
    outcome: Option<Outcome>,
    reason: Option<Reason>,
    said: &[u8],
    text: &mut Draft<A>,
)
    ensures { Puts text.old text.new (dressed form number outcome (told_line reason) said.now) }
{
    if said.is_empty() {
        return;
    }
    put_number_in(form, number, text);
    put_worded(form, outcome, said, text);
    put_reason(text, reason);
}

// Puts the number of a line, where it is asked for.
fn put_number_in<A: Allocator>(form: Form, number: u64, text: &mut Draft<A>)
    ensures { Puts text.old text.new (number_in form number) }
{
    if form.number {
        put_number(text, number);
    }
}

// Puts the names of registers, where they are asked for.
fn put_names_in<A: Allocator>(form: Form, x: &[u64; 8], text: &mut Draft<A>)
    ensures { Puts text.old text.new (names_in form x.now) }
{
    if form.names {
        put_names(text, x);
    }
}

// Puts a plain text, or short words in its place where they are asked for, with the names of registers before the LF that
// ends it, where they are asked for.
#[tactic(auto, using(play_reasons::proofs::Together::together))]
fn put_worded<A: Allocator>(form: Form, outcome: Option<Outcome>, said: &[u8], text: &mut Draft<A>)
    ensures { Puts text.old text.new (worded_in form outcome said.now) }
{
    match outcome {
        Some(Outcome::Regs { runner, x }) if form.short => {
            put_short_registers(text, runner, &x);
            put_names_in(form, &x, text);
            text.put("\n");
        }
        Some(Outcome::Data(value)) if form.short => {
            put_short_data(text, value);
            text.put("\n");
        }
        Some(Outcome::Regs { x, .. }) if form.names => {
            text.put_bytes(&said[..said.len().saturating_sub(1)]);
            put_names(text, &x);
            text.put("\n");
        }
        _ => text.put_bytes(said),
    }
}
