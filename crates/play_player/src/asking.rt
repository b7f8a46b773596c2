// SPDX-License-Identifier: MIT OR Apache-2.0
//! A guard, asked of what the last line that prints left.
ghost use Rattle.std.specs.Prelude.{◌≡◌, ◌==◌, ◌≤◌, ◌||◌, IfErr, IfOk, OnOk, [], bytes_eq, drop, false, length, position, if◌then◌else◌};
ghost use Rattle.play_trace.specs.Lines.{meant};
ghost use Rattle.play_trace.specs.TraceLines.{feed};
ghost use Rattle.play_trace.specs.TraceText.{hex};
ghost use Rattle.play_player.specs.Asking.{IsAnswered, SaysCame, asked_by};
ghost use Rattle.play_player.specs.Guards.{lines_in, meets_first, speaks, told_first};

use crate::Player;
use crate::guards::Asks;
use crate::listening::Event;
use crate::patterns::{Came, Pattern, is_met, put_told};
use ffa_playable::Playable;
use play_trace::text::{self, Text};
use play_trace::{Line, PlayError};
use std::alloc::Allocator;

/// What the last line that prints came to, and what no guard has asked for of its text.
#[derive(Drop)]
pub struct Unasked<A: Allocator> {
    /// The lines of its text that no guard has asked for.
    pub text: Vec<u8, A>,
    /// What it came to.
    pub came: Came,
    /// Whether there is a line that prints.
    pub printed: bool,
}

impl<A: Allocator + Copy> Unasked<A> {
    // Nothing yet.
    pub(crate) fn new(alloc: A) -> Unasked<A>
        ensures none { result.text.items ≡ [] }
        ensures silent { result.printed ≡ false }
    {
        Unasked {
            text: Vec::new(alloc),
            came: Came::NOTHING,
            printed: false,
        }
    }

    // Takes what a line printed, if it prints, after it was done.
    pub(crate) fn take<P: Playable>(
        &mut self,
        player: &Player<P>,
        event: &Event<'_>,
    ) -> Result<(), PlayError>
        ensures text { let said = if speaks (meant event.now.line) then event.now.text.now else self.old.text.items in
            OnOk result (self.new.text.items ≡ said) }
        ensures came { OnOk result (SaysCame player.now.bench (meant event.now.line) event.now.outcome self.old.came self.new.came) }
        ensures printed { OnOk result (self.new.printed ≡ (speaks (meant event.now.line) || self.old.printed)) }
        ensures failed { IfErr result (λ e. e ≡ PlayError.NoMemory) }
    {
        if let Line::Nothing | Line::Turn(_) = event.line {
            return Ok(());
        }
        self.came = self.came.behind(player, &event.line, event.outcome);
        self.printed = true;
        put_found(&mut self.text, event.text)
    }

    // Asks for what a guard wants, and returns whether it is met. `found` gets what there is. A line that was asked for is
    // taken, whether it meets the guard or not.
    pub(crate) fn ask<P: Playable>(
        &mut self,
        player: &Player<P>,
        asks: Asks,
        wants: &[u8],
        found: &mut Vec<u8, A>,
    ) -> Result<bool, PlayError>
        ensures answered { let left = lines_in self.old.text.items in
            IfOk result (IsAnswered player.now.bench self.old.came left (asks, wants.now) found.new.items) }
        ensures left { OnOk result (lines_in self.new.text.items ≡ drop (asked_by asks) (lines_in self.old.text.items)) }
        ensures came { self.new.came ≡ self.old.came }
        ensures printed { self.new.printed ≡ self.old.printed }
        ensures failed { IfErr result (λ e. e ≡ PlayError.NoMemory) }
    {
        match asks {
            Asks::Printed => {
                let is_met = ask_printed(wants, self.came, &self.text, found)?;
                take_line(&mut self.text);
                Ok(is_met)
            }
            Asks::Runner => ask_runner(player, wants, found),
        }
    }
}

// Whether the first line of a text that came to this meets what is wanted. `found` gets what the line tells.
fn ask_printed<A: Allocator + Copy>(
    wants: &[u8],
    came: Came,
    text: &[u8],
    found: &mut Vec<u8, A>,
) -> Result<bool, PlayError>
    ensures met { IfOk result (λ met. met ≡ meets_first wants.now came (lines_in text.now)) }
    ensures found { OnOk result (found.new.items ≡ told_first wants.now came (lines_in text.now)) }
    ensures failed { IfErr result (λ e. e ≡ PlayError.NoMemory) }
{
    let Some(end) = first_feed(text) else {
        found.clear();
        return Ok(false);
    };
    let line = &text[..end];
    put_told(Pattern::of(wants), came, line, found)?;
    Ok(is_met(wants, line, found))
}

// Whether this is the identifier of the endpoint that runs, which `found` gets.
fn ask_runner<P: Playable, A: Allocator>(
    player: &Player<P>,
    wants: &[u8],
    found: &mut Vec<u8, A>,
) -> Result<bool, PlayError>
    ensures met { IfOk result (λ met. met ≡ bytes_eq wants.now (hex 4 player.now.bench.state.runner)) }
    ensures found { OnOk result (found.new.items ≡ hex 4 player.now.bench.state.runner) }
    ensures failed { IfErr result (λ e. e ≡ PlayError.NoMemory) }
{
    let mut runner = Text::new();
    text::push_digits(&mut runner, 4, u64::from(player.machine().runner().0));
    put_found(found, runner.as_slice())?;
    Ok(wants == runner.as_slice())
}

// Takes the first line off, if there is one.
fn take_line<A: Allocator>(text: &mut Vec<u8, A>)
    ensures { lines_in text.new.items ≡ drop 1 (lines_in text.old.items) }
{
    if let Some(end) = first_feed(text) {
        take_front(text, end + 1);
    }
}

pub(crate) fn first_feed(text: &[u8]) -> Option<usize>
    ensures { result ≡ position (λ c. c == feed) text.now }
{
    text.iter().position(|c| *c == b'\n')
}

pub(crate) fn take_front<A: Allocator>(text: &mut Vec<u8, A>, end: usize)
    requires { end ≤ length text.old.items }
    ensures { text.new.items ≡ drop end text.old.items }
{
    text.rotate_left(end);
    text.truncate(text.len() - end);
}

fn put_found<A: Allocator>(found: &mut Vec<u8, A>, bytes: &[u8]) -> Result<(), PlayError>
    ensures written { OnOk result (found.new.items ≡ bytes.now) }
    ensures failed { IfErr result (λ e. e ≡ PlayError.NoMemory) }
{
    found.clear();
    found
        .extend_from_slice(bytes)
        .map_err(|_| PlayError::NoMemory)
}
