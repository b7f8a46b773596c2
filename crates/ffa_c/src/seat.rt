// SPDX-License-Identifier: MIT OR Apache-2.0
//! The place of a board in memory.
ghost use Rattle.std.specs.Prelude.{◌≡◌, ◌<◌, true, Option, Some, None, IsSome, IfOk, length};
ghost use Rattle.std.specs.Option.{option_map};
ghost use Rattle.std.specs.Coded.{coded_option};
ghost use Rattle.ffa_model.specs.declared.limits.TheConstants.{MOST_PROCESSORS};
ghost use Rattle.ffa_c.specs.Boarded.{Boarded, coded_boarded, lends, ram_pages, ram_places};
ghost use Rattle.ffa_c.specs.Border.{Operated};
ghost use Rattle.ffa_c.specs.Changes.{told_by, with_all_told};
ghost use Rattle.ffa_c.specs.Processors.{Interrupted, with_selected};

use crate::board::Board;
use crate::outcome::COutcome;
use ffa_lent::Frames;
use ffa_memshare::Changed;
use ffa_model::{MOST_PROCESSORS, Op};
use ffa_spmc::{Given, Storage};
use std::alloc::{AllocError, Global};
use std::marker::Model;

/// Memory for a board, with or without a board in it. The memory can be there before the board and after it. Contracts
/// see the board, if there is a board.
#[derive(Drop)]
pub struct Seat {
    board: Option<Board>,
}

impl Model for Seat {
    ghost Value = { Option Boarded };

    ghost coded = { coded_option coded_boarded };

    ghost view = { λ s. s.board };
}

impl Seat {
    /// Makes a seat without a board, if there is memory for it.
    pub fn empty(alloc: Global) -> Result<Box<Seat>, AllocError>
        ensures { IfOk result (λ b. b.value ≡ None) }
    {
        match Box::new(alloc, Seat { board: None }) {
            Ok(seat) => Ok(seat),
            Err(_) => Err(AllocError),
        }
    }

    /// Puts a board into the seat.
    pub fn fill(&mut self, board: Board)
        ensures { self.new ≡ Some board }
    {
        self.board = Some(board);
    }

    /// Ends the machine in the seat, whose RAM is lent. Returns the pages, with the bytes that they had in the end, and
    /// the room for another machine in them. The seat is empty then.
    pub fn vacate(&mut self) -> (Frames, Storage<Given<Global>>)
        requires { lends self.old ≡ Some true }
        ensures pages { Some result.0.pages ≡ ram_pages self.old }
        ensures places { Some result.0.places ≡ ram_places self.old }
        ensures ready { result.0.is_ready ≡ true }
        ensures room { length result.1.pages ≡ length result.0.pages }
        ensures emptied { self.new ≡ None }
    {
        self.board.take().unwrap().into_frames()
    }

    /// Borrows the board in the seat.
    pub fn board(&self) -> &Board
        requires { IsSome self.now }
        ensures { self.now ≡ Some result.now }
    {
        self.board.as_ref().unwrap()
    }

    /// Does one operation of the runner of the selected processor, and writes the outcome in place.
    #[inline]
    pub fn op(&mut self, op: &Op, outcome: &mut COutcome)
        requires { IsSome self.old }
        ensures done { Operated self.old self.new op.now outcome.new }
        ensures there { IsSome self.new }
    {
        let Some(board) = &mut self.board else {
            unreachable!()
        };
        board.op(op, outcome)
    }

    /// Selects a processor. From then on, operations are of the runner there.
    pub fn select(&mut self, processor: usize)
        requires there { IsSome self.old }
        requires processor { processor < MOST_PROCESSORS }
        ensures selected { self.new ≡ option_map (with_selected processor) self.old }
        ensures there { IsSome self.new }
    {
        let Some(board) = &mut self.board else {
            unreachable!()
        };
        board.select(processor)
    }

    /// Does what an interrupt does that the selected processor takes.
    pub fn interrupt(&mut self) -> COutcome
        requires { IsSome self.old }
        ensures done { Interrupted self.old self.new result }
        ensures there { IsSome self.new }
    {
        let Some(board) = &mut self.board else {
            unreachable!()
        };
        board.interrupt()
    }

    /// Returns the report on the last successful call on memory, and clears it: whose access has changed, and to which
    /// pages.
    pub fn take_change(&mut self) -> Option<Changed>
        requires { IsSome self.old }
        ensures told { result ≡ told_by self.old }
        ensures rest { self.new ≡ option_map with_all_told self.old }
        ensures there { IsSome self.new }
    {
        let Some(board) = &mut self.board else {
            unreachable!()
        };
        board.take_change()
    }
}
