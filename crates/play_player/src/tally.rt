// SPDX-License-Identifier: MIT OR Apache-2.0
//! What is counted of guards.
ghost use Rattle.std.specs.Prelude.{◌≡◌, ◌+◌, ◌^◌, ◌<◌, IfErr, OnOk, [], ◌∷◌, ◌++◌};
ghost use Rattle.play_player.specs.Guards.{near_from};

use crate::guards::is_nearly_guard;
use play_trace::PlayError;
use std::alloc::Allocator;

/// What is counted of guards.
#[derive(Drop)]
pub struct Tally<A: Allocator> {
    /// How many were met.
    pub met: u64,
    /// The numbers of the lines of those that aren't, counted from 1.
    pub unmet: Vec<u64, A>,
    /// The numbers of the lines that are nearly guards, counted from 1.
    pub near: Vec<u64, A>,
}

impl<A: Allocator + Copy> Tally<A> {
    /// Of no lines.
    pub fn new(alloc: A) -> Tally<A>
        ensures none { result.met ≡ 0 }
        ensures all { result.unmet.items ≡ [] }
        ensures empty { result.near.items ≡ [] }
    {
        Tally {
            met: 0,
            unmet: Vec::new(alloc),
            near: Vec::new(alloc),
        }
    }

    // Counts a guard that is met.
    pub(crate) fn meet(&mut self)
        ensures met { self.old.met + 1 < 2 ^ 64 → self.new.met ≡ self.old.met + 1 }
        ensures unmet { self.new.unmet ≡ self.old.unmet }
        ensures near { self.new.near ≡ self.old.near }
    {
        self.met = self.met.saturating_add(1);
    }

    // Counts the guard in the line of this number, which is not met.
    pub(crate) fn miss(&mut self, number: u64) -> Result<(), PlayError>
        ensures met { self.new.met ≡ self.old.met }
        ensures unmet { OnOk result (self.new.unmet.items ≡ self.old.unmet.items ++ number ∷ []) }
        ensures near { self.new.near ≡ self.old.near }
        ensures failed { IfErr result (λ e. e ≡ PlayError.NoMemory) }
    {
        self.unmet.push(number).map_err(|_| PlayError::NoMemory)
    }

    // Notes the line of this number, if it is nearly a guard.
    pub(crate) fn note(&mut self, number: u64, line: &[u8]) -> Result<(), PlayError>
        ensures met { self.new.met ≡ self.old.met }
        ensures unmet { self.new.unmet ≡ self.old.unmet }
        ensures near { OnOk result (self.new.near.items ≡ self.old.near.items ++ near_from number (line.now ∷ [])) }
        ensures failed { IfErr result (λ e. e ≡ PlayError.NoMemory) }
    {
        if is_nearly_guard(line) {
            return self.near.push(number).map_err(|_| PlayError::NoMemory);
        }
        Ok(())
    }
}
