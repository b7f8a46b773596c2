// SPDX-License-Identifier: MIT OR Apache-2.0
//! Calls worked out by hand, and played on the machine with two partitions. They test what the traces of tests/rows
//! cannot show, because a play is not enough for it.
//!
//! A row is a text of steps: a line of the trace, an arrow, and the text that the line prints. Registers are written as
//! `8001: 84000061 0 1`: the runner, and then the registers. They have no leading zeros, and the last registers that
//! are zero are omitted. If a line prints more than one line, the other lines follow below.
use crate::checks::same;
use crate::machines::{booted_in_frames, booted_with, four_in_turn, play};
use ffa_model::Manifest;
use ffa_playable::Playable;
use ffa_tlb::{NoTlb, Translations};
use fixtures::row_machine;
use play_player::Player;
use std::alloc::Global;
use std::process::Abort;
use std::test::Fail;

// The number of steps of calls on memory.
mod bound;

// Rows on machines with a cache, and the leaves that the cache holds.
mod cached;

// Machines that keep the bytes that were in their RAM before.
mod held;

// Steps of memory transactions.
mod memory;

// The pages that operations read.
mod reads;

// Calls in RAM that keeps a record of its steps.
mod recorded;

// Rows on machines with little memory.
mod refused;

// Calls that read TX while others write to it.
mod shifting;

// Calls on memory, with a look at the tables after each write.
mod watched;

// A trace, and the whole text that it must print.
#[derive(Drop)]
struct Row {
    trace: String,
    text: String,
}

impl Row {
    fn new(alloc: Global) -> Row {
        let trace = String::new(alloc);
        let text = String::new(alloc);
        Row { trace, text }
    }

    // Returns the row of these parts.
    fn of(alloc: Global, parts: &[&str]) -> Result<Row, Fail> {
        let mut row = Row::new(alloc);
        for part in parts {
            row.add(part)?;
        }
        Ok(row)
    }

    // Adds steps to the row.
    fn add(&mut self, steps: &str) -> Result<(), Fail> {
        for step in steps.lines() {
            let mut outcome = step;
            if let Some((line, printed)) = step.split_once(" -> ") {
                self.trace.push_str(line)?;
                self.trace.push_str("\n")?;
                outcome = printed;
            }
            match outcome.split_once(": ") {
                Some((runner, registers)) => push_registers(&mut self.text, runner, registers)?,
                None => self.text.push_str(outcome)?,
            }
            self.text.push_str("\n")?;
        }
        Ok(())
    }

    // Asserts that this player prints the text for the trace.
    fn prints<P: Playable>(
        &self,
        rt: &impl Abort,
        alloc: Global,
        player: &mut Player<P>,
    ) -> Result<(), Fail> {
        let printed = played(alloc, player, &self.trace)?;
        same(rt, printed.as_str(), self.text.as_str());
        Ok(())
    }
}

// Plays steps, and asserts that they print their texts.
fn goes_on<P: Playable>(
    rt: &impl Abort,
    alloc: Global,
    player: &mut Player<P>,
    steps: &str,
) -> Result<(), Fail> {
    let mut row = Row::new(alloc);
    row.add(steps)?;
    row.prints(rt, alloc, player)
}

// Plays a trace, and returns the text that it prints.
fn played<P: Playable>(alloc: Global, player: &mut Player<P>, trace: &str) -> Result<String, Fail> {
    let mut printed = Vec::new(alloc);
    play(alloc, player, trace.as_bytes(), &mut printed)?;
    text_of(printed)
}

fn text_of(printed: Vec<u8>) -> Result<String, Fail> {
    Ok(String::from_utf8(printed)?)
}

// Adds registers to a text, as a player prints them.
fn push_registers(text: &mut String, runner: &str, registers: &str) -> Result<(), Fail> {
    text.push_str("regs ")?;
    push_padded(text, runner, 4)?;
    let mut written = registers.split(' ');
    for _register in 0..8 {
        text.push_str(" ")?;
        push_padded(text, written.next().unwrap_or(""), 16)?;
    }
    Ok(())
}

// Adds digits with zeros before them, up to this width.
fn push_padded(text: &mut String, digits: &str, width: usize) -> Result<(), Fail> {
    for _zero in digits.len()..width {
        text.push_str("0")?;
    }
    text.push_str(digits)?;
    Ok(())
}
