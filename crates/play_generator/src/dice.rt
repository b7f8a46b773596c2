// SPDX-License-Identifier: MIT OR Apache-2.0
//! Choices at random, and in turn.
ghost use Rattle.std.specs.Prelude.{◌<◌, ◌≤◌, length};

use ffa_model::EndpointId;
use ffa_model::function::WIDE;
use rand_core::{Rng, SeedableRng};
use rand_pcg::Pcg32;

/// A source of choices at random. Two dice of the same seed choose the same.
#[derive(Drop)]
pub(crate) struct Dice(Pcg32);

impl Dice {
    pub(crate) fn of_seed(seed: u64) -> Dice {
        Dice(Pcg32::seed_from_u64(seed))
    }

    /// Returns any number of 64 bits.
    pub(crate) fn word(&mut self) -> u64 {
        self.0.next_u64()
    }

    /// Returns a number below a limit, which is at least 1.
    pub(crate) fn below(&mut self, limit: u32) -> u32
        requires { 0 < limit }
        ensures { result < limit }
    {
        self.0.next_u32() % limit
    }

    /// Whether an event with a chance of 1 in `times` happens.
    pub(crate) fn one_in(&mut self, times: u32) -> bool
        requires { 0 < times }
    {
        self.below(times) == 0
    }

    /// Returns one of these items at random. There must be at least one item.
    pub(crate) fn pick<X: Copy>(&mut self, items: &[X]) -> X
        requires { 1 ≤ length items.now }
    {
        items[self.0.next_u32() as usize % items.len()]
    }

    /// Returns an index into a list of `count` items, or 0 if the list is empty.
    pub(crate) fn place(&mut self, count: usize) -> usize
        ensures { result ≤ count }
    {
        match count {
            0 => 0,
            _ => self.0.next_u32() as usize % count,
        }
    }

    /// Returns the identifier of a call in its 32-bit form or, in one of four cases, in its 64-bit form. The call must
    /// have both forms.
    pub(crate) fn either(&mut self, function: u32) -> u32 {
        self.pick(&[function | WIDE, function, function, function])
    }

    /// Returns an identifier that no endpoint has.
    pub(crate) fn stranger(&mut self) -> EndpointId {
        EndpointId(self.pick(&[0x8000, 0x8008, 0x7FFF, 0xFFFF]))
    }

    /// Returns another number than `value`.
    pub(crate) fn spoil(&mut self, value: u64) -> u64 {
        let bit = 1 << self.below(16);
        let word = self.word();
        let endpoint = self.pick(&[0, 1, 0x7FFF, 0x8000, 0x8001, 0x8002, 0x8003, 0x8007, 0x8008]);
        let other = self.pick(&[
            0,
            value.wrapping_add(1),
            value.wrapping_sub(1),
            value ^ bit,
            value ^ bit,
            value.wrapping_add(16),
            value ^ 0xFF,
            endpoint,
            u64::MAX,
            word,
        ]);
        if other == value { value ^ bit } else { other }
    }
}

// Draws an item, and draws it again while it does not fit, at most four times.
macro_rules! draw_fitting {
    ($item:ident = $draw:expr; $fits:expr) => {{
        let mut $item = $draw;
        for _ in 0..4 {
            if !$fits {
                $item = $draw;
            }
        }
        $item
    }};
}

pub(crate) use draw_fitting;

/// A counter that goes through a list in turn, so that each item is used equally often.
#[derive(Clone, Copy, Default)]
pub(crate) struct Round(u32);

impl Round {
    /// Returns the next number below a limit, which is at least 1. After the last number, it begins again.
    pub(crate) fn below(&mut self, limit: usize) -> usize
        requires { 0 < limit }
        ensures { result < limit }
    {
        self.0 = self.0.wrapping_add(1);
        self.0 as usize % limit
    }

    /// Returns the next of these items. There must be at least one item.
    pub(crate) fn next_of<X: Copy>(&mut self, items: &[X]) -> X
        requires { 1 ≤ length items.now }
    {
        items[self.below(items.len())]
    }
}
