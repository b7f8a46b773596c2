// SPDX-License-Identifier: MIT OR Apache-2.0
//! Operations in a list, plays one after another on one player, and lines that come in pieces.
use crate::checks::{holds, same, same_at};
use crate::machines::{FlatPlayer, booted, play};
use ffa_model::{Manifest, Op, Outcome, Size};
use ffa_physmem::FlatRam;
use ffa_reasons::Explained;
use ffa_spmc::Machine;
use fixtures::row_machine;
use play_arguments::built_in;
use play_player::{Begun, Player};
use play_trace::PlayError;
use std::alloc::Global;
use std::test::Fail;

fn player(alloc: Global, manifest: &Manifest) -> Result<FlatPlayer, Fail> {
    Ok(Player::new(Explained(booted(alloc, manifest)?)))
}

// Does two operations, and returns their outcomes.
fn run(machine: &mut Machine<FlatRam>, ops: &[Op; 2]) -> [Outcome; 2] {
    let mut outcomes = [Outcome::Done; 2];
    machine.run(ops, &mut outcomes);
    outcomes
}

#[test]
fn runs_operations_one_after_another(rt: HostRuntime) -> Result<(), Fail> {
    let mut machine = booted(rt.alloc(), &row_machine())?;
    let (addr, size) = (0x4001_0000, Size::B1);
    let value = 0x2A;
    let store = Op::Store { addr, size, value };
    let [stored, loaded] = run(&mut machine, &[store, Op::Load { addr, size }]);
    holds(&rt, matches!(stored, Outcome::Done));
    holds(&rt, matches!(loaded, Outcome::Data(0x2A)));
    Ok(())
}

// Traces that one player plays one after another. Each has the number of its bad line, or 0. The first has a line
// without an LF at its end.
const TRACES: [(&str, u64); 3] = [
    ("load 40010000 1", 1),
    ("store 40010000 2A\nload 40010000 2\nload 4001\n", 3),
    ("load 40010000 1\n", 0),
];

// Returns the end of a play whose trace has a bad line with this number, or no bad line for 0.
fn end_of(bad: u64) -> Result<(), PlayError> {
    if bad == 0 {
        Ok(())
    } else {
        Err(PlayError::BadLine(bad))
    }
}

// After a bad line, lines count from 1 again, and the machine goes on.
#[test]
fn goes_on_behind_refused_lines(rt: HostRuntime) -> Result<(), Fail> {
    let alloc = rt.alloc();
    let mut player = player(alloc, &row_machine())?;
    let mut out = Vec::new(alloc);
    for (trace, bad) in TRACES {
        let ended = play(alloc, &mut player, trace.as_bytes(), &mut out);
        same_at(&rt, ended, end_of(bad), &trace);
    }
    let wanted = b"done\ndata 002A\ndata 2A\n".as_slice();
    same(&rt, out.as_slice(), wanted);
    same(&rt, player.machine().0.endpoints(), 3);
    Ok(())
}

// Pieces of a trace. Each has the whole text that is printed after this piece.
const PIECES: &str =
    "store 4001;|0000 2A\n;done\n|\n;done\n|load 40010000 1\nfet;done\ndata 2A\n|ch 0;done\ndata 2A\n|\n;done\ndata 2A\nfault translation\n";

// Feeds one more piece to a player.
fn fed(
    alloc: Global,
    player: &mut FlatPlayer,
    begun: Begun,
    piece: &str,
    out: &mut Vec<u8>,
) -> Result<Begun, Fail> {
    Ok(player.feed(alloc, begun, piece.as_bytes(), out)?)
}

// A trace can come in pieces. The text of each line is printed as soon as the LF of the line has come.
#[test]
fn answers_each_line_when_its_end_has_come(rt: HostRuntime) -> Result<(), Fail> {
    let alloc = rt.alloc();
    let mut player = player(alloc, &built_in())?;
    let mut out = Vec::new(alloc);
    let mut begun = Begun::new(alloc);
    for row in PIECES.split('|') {
        let (piece, so_far) = row.split_once(';').ok_or("no text")?;
        begun = fed(alloc, &mut player, begun, piece, &mut out)?;
        same_at(&rt, out.as_slice(), so_far.as_bytes(), &row);
    }
    holds(&rt, begun.bytes.is_empty());
    same(&rt, begun.number, 5);
    Ok(())
}
