// SPDX-License-Identifier: MIT OR Apache-2.0
//! Machines that go on after bad lines, differences and sessions, and the lines of faults that no play has. Tables of
//! tests have the text that the program prints for bad lines, differences and sessions.
use crate::checks::{holds, same};
use crate::machines::{FlatPlayer, booted};
use ffa_model::FaultKind;
use ffa_reasons::Explained;
use play_arguments::built_in;
use play_player::{Comparer, ComparisonStop, Form, Player, Printer, play, play_session};
use play_trace::{PlayError, text};
use std::alloc::Global;
use std::process::Abort;
use std::test::Fail;

// A comment, a call, an empty line, a store, a call that is refused, and a load that faults.
const TRACE: &str = "# text\ncall 84000069\n\nstore 40010000 2A\ncall 84000062\nload 40020000 1\n";

const TEXT: &str = "\
regs 0000 0000000084000061 0000000000000000 0000000000000000 0000000000000000 0000000000000000 0000000000000000 0000000000000000 0000000000000000
done
regs 0000 0000000084000060 0000000000000000 00000000FFFFFFFF 0000000000000000 0000000000000000 0000000000000000 0000000000000000 0000000000000000
fault translation
";

fn player(alloc: Global) -> Result<FlatPlayer, Fail> {
    Ok(Player::new(Explained(booted(alloc, &built_in())?)))
}

// The result of a play: the text that it printed, and how it ended.
#[derive(Drop)]
struct Left {
    out: Vec<u8>,
    ended: Result<(), PlayError>,
}

fn played_on(player: &mut FlatPlayer, alloc: Global, trace: &str) -> Left {
    let (mut out, mut bytes) = (Vec::new(alloc), Vec::new(alloc));
    let (mut printer, mut left) = (Printer::new(alloc, Form::default()), trace.as_bytes());
    let ended = match play(player, alloc, &mut left, &mut out, &mut printer, &mut bytes) {
        Ok(_) => Ok(()),
        Err(error) => Err(error),
    };
    Left { out, ended }
}

// Asserts that the normal world still runs, and that the machine serves its calls.
fn goes_on(rt: &impl Abort, alloc: Global, player: &mut FlatPlayer) {
    let left = played_on(player, alloc, TRACE);
    same(rt, left.ended, Ok(()));
    same(rt, left.out.as_slice(), TEXT.as_bytes());
}

// Asserts that a play of a trace stops at this bad line, and that the machine goes on after it.
fn stops_at(rt: &impl Abort, alloc: Global, trace: &str, number: u64) -> Result<(), Fail> {
    let mut player = player(alloc)?;
    let left = played_on(&mut player, alloc, trace);
    same(rt, left.ended, Err(PlayError::BadLine(number)));
    goes_on(rt, alloc, &mut player);
    Ok(())
}

#[test]
fn goes_on_behind_a_bad_line(rt: HostRuntime) -> Result<(), Fail> {
    stops_at(&rt, rt.alloc(), "show\nshow \n", 2)?;
    stops_at(&rt, rt.alloc(), "\nfetch 0\nshow", 3)
}

// The player has a line also for the faults with which no operation of a machine ends.
#[test]
fn tells_each_fault_by_its_name(rt: HostRuntime) {
    let line = text::fault_line(FaultKind::AccessFlag);
    same(&rt, line, b"fault access-flag\n".as_slice());
    let line = text::fault_line(FaultKind::OutsideRam);
    same(&rt, line, b"fault outside-ram\n".as_slice());
}

// Returns why a comparison of the trace's text with an empty text stops.
fn compared_on(
    player: &mut FlatPlayer,
    alloc: Global,
) -> Result<Option<ComparisonStop>, PlayError> {
    let (mut left, mut out, mut bytes) = (TRACE.as_bytes(), Vec::new(alloc), Vec::new(alloc));
    let mut comparer = Comparer::new(alloc, Form::default(), b"".as_slice());
    play(
        player,
        alloc,
        &mut left,
        &mut out,
        &mut comparer,
        &mut bytes,
    )
}

#[test]
fn goes_on_behind_a_difference(rt: HostRuntime) -> Result<(), Fail> {
    let mut player = player(rt.alloc())?;
    let found = compared_on(&mut player, rt.alloc());
    holds(&rt, matches!(found, Ok(Some(ComparisonStop::Differs(_)))));
    goes_on(&rt, rt.alloc(), &mut player);
    Ok(())
}

// Asserts that the machine goes on after a session of a trace.
fn ends_session(rt: &impl Abort, alloc: Global, trace: &str) -> Result<(), Fail> {
    let mut player = player(alloc)?;
    let (mut out, mut err) = (Vec::new(alloc), Vec::new(alloc));
    let (form, mut left) = (Form::default(), trace.as_bytes());
    let ended = play_session(&mut player, alloc, form, &mut left, &mut out, &mut err);
    same(rt, ended, Ok(()));
    goes_on(rt, alloc, &mut player);
    Ok(())
}

// The machine goes on after a session with bad lines, and after a session that a line ended.
#[test]
fn goes_on_behind_a_session(rt: HostRuntime) -> Result<(), Fail> {
    ends_session(&rt, rt.alloc(), "store 40010000 2A\nload 4001\nfetch")?;
    let ended = "store 40010000 2A\nquit\nload 4001\nload 40010000 1\n";
    ends_session(&rt, rt.alloc(), ended)
}
