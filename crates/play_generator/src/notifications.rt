// SPDX-License-Identifier: MIT OR Apache-2.0
//! Scenes of notifications.
use crate::changes::BITS;
use crate::dice::{Dice, Round, draw_fitting};
use crate::generator::{Generator, function_of, halves, pair};
use crate::stage::Stage;
use crate::{Change, Deed};
use ffa_model::{EndpointId, MOST_PROCESSORS};

/// The flags of FFA_NOTIFICATION_GET that request all classes.
const ALL_CLASSES: u64 = 15;

impl<'m, S: Stage + Drop> Generator<'m, S> {
    /// Plays a call on notifications, in the right form or with something changed. Mostly the normal world creates and
    /// destroys bitmaps.
    pub(crate) fn play_notification(&mut self) {
        let number = if self.runner() == EndpointId::NORMAL_WORLD && self.dice.one_in(3) {
            0
        } else {
            self.dice.below(9)
        };
        match number {
            0 | 1 if self.dice.one_in(3) => self.play_destroy(),
            0 | 1 => self.play_create(),
            2 | 3 => self.play_bind(),
            4 | 5 => self.play_unbind(),
            6 | 7 => self.play_set(),
            _ => self.play_get(),
        }
    }

    // In FF-A 1.1 the normal world has one execution context. In FF-A 1.2 it may have one for each processor, up to
    // MOST_PROCESSORS.
    fn play_create(&mut self) {
        let is_later = self.serves_1_2();
        let more = if is_later { MOST_PROCESSORS } else { 0 };
        let (change, endpoint, contexts) = match self.rounds.creates.below(5) {
            1 => (Change::OfAnother, 0x8001, 1),
            3 => (Change::Contexts, 0, self.dice.pick(&[0, more.max(1) + 1])),
            _ => (Change::Nothing, 0, 1 + self.dice.place(more)),
        };
        let arguments = [endpoint, contexts as u64];
        self.attempt(Deed::CreateBitmaps, None, change, &arguments);
    }

    // Gets the pending bits between two tries, so that the bitmaps can be destroyed. Then tries the calls that need
    // bitmaps.
    fn play_destroy(&mut self) {
        if self.known_of(self.runner()).pending {
            self.destroy(0, Change::Pending);
            self.get(ALL_CLASSES, Change::Nothing);
        }
        if self.dice.one_in(3) {
            self.destroy(0x8001, Change::OfAnother);
        }
        if self.destroy(0, Change::Nothing) {
            let other = self.another();
            self.destroy(0, Change::NoBitmaps);
            self.call_on_bits(Deed::Bind, other, 1, Change::NoBitmaps);
            self.call_on_bits(Deed::Unbind, other, 1, Change::NoBitmaps);
            self.get(ALL_CLASSES, Change::NoBitmaps);
        }
    }

    fn destroy(&mut self, endpoint: u64, change: Change) -> bool {
        self.attempt(Deed::DestroyBitmaps, None, change, &[endpoint])
    }

    fn play_get(&mut self) {
        let some = u64::from(self.dice.below(16));
        let (change, classes) = match self.rounds.gets.below(7) {
            1 => (Change::OfAnother, ALL_CLASSES),
            3 => (Change::Context, ALL_CLASSES),
            5 => (Change::Classes, ALL_CLASSES + 1),
            _ => (Change::Nothing, self.dice.pick(&[some, ALL_CLASSES])),
        };
        self.get(classes, change);
    }

    fn get(&mut self, classes: u64, change: Change) {
        let runner = u64::from(self.runner().0);
        let word = match change {
            Change::OfAnother => u64::from(self.another().0),
            Change::Context => runner | 1 << 16,
            _ => runner,
        };
        self.attempt(Deed::GetBits, None, change, &[word, classes]);
    }

    /// Plays FFA_NOTIFICATION_INFO_GET in either form, sometimes twice. A partition may not make this call, and seldom
    /// tries it.
    pub(crate) fn play_notices(&mut self) {
        if self.runner() == EndpointId::NORMAL_WORLD {
            self.ask_notices();
        }
        if self.dice.one_in(4) {
            self.ask_notices();
        }
    }

    fn ask_notices(&mut self) {
        self.announce(Deed::AskNotices, None, Change::Nothing);
        let function = self.dice.either(function_of(Deed::AskNotices));
        self.call(function, &[]);
    }

    // Binds or unbinds bits that another endpoint may set, or sets bits of another endpoint. Returns whether the call
    // succeeded.
    fn call_on_bits(&mut self, deed: Deed, other: EndpointId, bits: u64, change: Change) -> bool {
        let runner = self.runner();
        let (other, caller) = match change {
            Change::Swapped => (runner, other),
            Change::Stranger => (EndpointId::MANAGER, runner),
            Change::Oneself => (runner, runner),
            _ => (other, runner),
        };
        let word = match deed {
            Deed::SetBits => pair(caller, other.0),
            _ => pair(other, caller.0),
        };
        let flags = u64::from(change == Change::Flags);
        let [low, high] = halves(if change == Change::NoBit { 0 } else { bits });
        self.attempt(deed, Some(other), change, &[word, flags, low, high])
    }

    fn play_bind(&mut self) {
        if let Some((bits, sender)) = self.known_of(self.runner()).bound
            && self.dice.one_in(2)
        {
            return self.bind_taken(bits, sender);
        }
        let sender = self.another();
        let bits = self.dice.bits();
        let change = self.dice.half_of(&mut self.rounds.binds);
        if self.call_on_bits(Deed::Bind, sender, bits, change) && self.dice.one_in(3) {
            self.bind_taken(bits, sender);
        }
    }

    // Binds bits that are bound to a sender, to another sender if there is one.
    fn bind_taken(&mut self, bits: u64, sender: EndpointId) {
        let other = draw_fitting!(other = self.another(); other != sender);
        self.call_on_bits(Deed::Bind, other, bits, Change::Taken);
    }

    // Unbinds mostly the bits that the runner bound last. It mostly gets the pending bits first, so that no bit is
    // pending.
    fn play_unbind(&mut self) {
        let other = self.another();
        let some = self.dice.bits();
        let (bits, sender) = self.known_of(self.runner()).bound.unwrap_or((some, other));
        if !self.dice.one_in(3) {
            self.get(ALL_CLASSES, Change::Nothing);
        }
        let bits = if self.dice.one_in(4) { some } else { bits };
        let change = self.dice.half_of(&mut self.rounds.unbinds);
        self.call_on_bits(Deed::Unbind, sender, bits, change);
    }

    // Sets mostly bits that another endpoint bound to the runner.
    fn play_set(&mut self) {
        let runner = self.runner();
        let receiver = self.another();
        let some = self.dice.bits();
        let bits = match self.known_of(receiver).bound {
            Some((bits, sender)) if sender == runner => bits,
            _ => some,
        };
        let change = self.dice.half_of(&mut self.rounds.sets);
        self.call_on_bits(Deed::SetBits, receiver, bits, change);
    }
}

impl Dice {
    // Returns no change in half of the cases, and otherwise the next change in turn.
    fn half_of(&mut self, round: &mut Round) -> Change {
        match self.one_in(2) {
            true => round.next_of(&BITS),
            false => Change::Nothing,
        }
    }

    // Returns some bits, mostly the lowest ones, so that endpoints use the same bits.
    fn bits(&mut self) -> u64 {
        let bit = 1 << self.below(64);
        self.pick(&[1, 2, 3, 4, 1 << 32, bit])
    }
}
