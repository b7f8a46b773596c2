// SPDX-License-Identifier: MIT OR Apache-2.0
//! The kind of machine that a command line selects. No text of a play shows it.
use crate::checks::same_at;
use play_arguments::{MachineOptions, Request, request};
use std::alloc::Global;
use std::process::Abort;
use std::test::Fail;

fn kind(machine: MachineOptions) -> &'static str {
    match (machine.frames, machine.tlb) {
        (false, false) => "one piece",
        (true, false) => "frames",
        (false, true) => "a TLB",
        (true, true) => "frames and a TLB",
    }
}

// Returns the kind of machine on which these words request to play.
fn asked<'a>(alloc: Global, words: &'a [&'a str]) -> &'static str {
    match request(alloc, words) {
        Ok(Request::Play(options)) => kind(options.machine),
        _ => "no play",
    }
}

fn check_line(rt: &impl Abort, alloc: Global, row: &str) -> Result<(), Fail> {
    let (line, wanted) = row.split_once(" => ").ok_or("no arrow")?;
    let mut words = Vec::new(alloc);
    for word in line.split(' ') {
        words.push(word)?;
    }
    same_at(rt, asked(alloc, words.as_slice()), wanted, &row);
    Ok(())
}

// Rows of a command line, an arrow and the kind of machine. The tables of tests/tables.d have all other effects of
// words.
const ROWS: &str = "\
ffaplay run row.toml first.trace => one piece
ffaplay run row.toml --frames first.trace => frames
ffaplay run row.toml --tlb first.trace => a TLB
ffaplay run --words row.toml --tlb first.trace => a TLB
ffaplay demo first.trace --explain --names => one piece
ffaplay demo --tlb first.trace => a TLB
ffaplay demo first.trace --tlb --frames => frames and a TLB
ffaplay demo first.trace --processors=8 --tlb => a TLB
ffaplay compare a b c --verbose => one piece
ffaplay compare --tlb a --frames b c => frames and a TLB
ffaplay record row.toml first.trace --words => one piece
ffaplay record --tlb row.toml first.trace => a TLB
ffaplay record row.toml - --verbose --frames => frames
ffaplay record row.toml --ffa 1.2 first.trace --tlb => a TLB
ffaplay record a b --processors 4 => one piece
";

#[test]
fn kinds_of_machines(rt: HostRuntime) -> Result<(), Fail> {
    for row in ROWS.lines() {
        check_line(&rt, rt.alloc(), row)?;
    }
    Ok(())
}
