// SPDX-License-Identifier: MIT OR Apache-2.0
//! A listener that writes the text of each line in a form, and checks guards.
ghost use Rattle.std.specs.Prelude.{◌≡◌, ◌∷◌, ◌++◌, false, IfErr, IfOk, OnOk, [], drop, length};
ghost use Rattle.play_player.specs.Asking.{IsChecked};
ghost use Rattle.play_player.specs.Checked.{ChecksLines};
ghost use Rattle.play_player.specs.Guards.{asking_among, lines_in, near_from};

use crate::Player;
use crate::asking::Unasked;
use crate::form::{Form, make_text_of};
use crate::guards::{Breach, guard_text};
use crate::hint::hint_of;
use crate::listening::{Event, Listener};
use crate::tally::Tally;
use crate::unmet::put_unmet;
use ffa_playable::Playable;
use play_reasons::Draft;
use play_trace::{PlayError, output};
use std::alloc::Allocator;
use std::io::Write;

/// Writes the text of each line in a form, and checks guards. It stops at the first guard that is not met, or it counts the
/// guard and goes on.
///
/// A guard of a printed text asks for a line of the plain text that the last line before it printed. Each guard takes the
/// line that it asks for, whether it is met or not. A guard of the runner asks for the endpoint that runs.
#[derive(Drop)]
pub struct GuardChecker<A: Allocator> {
    /// The form of the text.
    pub form: Form,
    /// Whether it goes on at a guard that is not met.
    pub keep_going: bool,
    /// What is counted of the guards.
    pub tally: Tally<A>,
    /// A line for each guard at which it went on, which says what the guard wants, and what there was.
    pub told: Vec<u8, A>,
    /// What there was at the last guard in place of what it wants. It is what the line tells that the guard asked for, or
    /// nothing if there is no such line. Or it is the identifier of the endpoint that runs.
    pub found: Vec<u8, A>,
    /// What the guards after this ask.
    pub unasked: Unasked<A>,
    text: Draft<A>,
}

impl<A: Allocator + Copy> GuardChecker<A> {
    /// A checker that has heard no line.
    pub fn new(alloc: A, form: Form, keep_going: bool) -> GuardChecker<A>
        ensures form { result.form ≡ form }
        ensures goes { result.keep_going ≡ keep_going }
        ensures met { result.tally.met ≡ 0 }
        ensures unmet { result.tally.unmet.items ≡ [] }
        ensures near { result.tally.near.items ≡ [] }
        ensures told { result.told.items ≡ [] }
        ensures unasked { result.unasked.text.items ≡ [] }
        ensures silent { result.unasked.printed ≡ false }
    {
        GuardChecker {
            form,
            keep_going,
            tally: Tally::new(alloc),
            told: Vec::new(alloc),
            found: Vec::new(alloc),
            unasked: Unasked::new(alloc),
            text: Draft::new(alloc),
        }
    }

    // Asks the guard that a line is, if it is one, and counts it. It returns the guard if the play stops there.
    fn check<P: Playable>(
        &mut self,
        player: &Player<P>,
        event: &Event<'_>,
    ) -> Result<Option<Breach>, PlayError>
        ensures checked { IfOk result (IsChecked player.now.bench event.now self.old self.new) }
        ensures near { let noted = near_from event.now.number (event.now.bytes.now ∷ []) in
            OnOk result (self.new.tally.near.items ≡ self.old.tally.near.items ++ noted) }
        ensures left { let asked = length (asking_among (event.now.bytes.now ∷ [])) in
            OnOk result (lines_in self.new.unasked.text.items ≡ drop asked (lines_in self.old.unasked.text.items)) }
        ensures came { self.new.unasked.came ≡ self.old.unasked.came }
        ensures printed { self.new.unasked.printed ≡ self.old.unasked.printed }
        ensures form { self.new.form ≡ self.old.form }
        ensures goes { self.new.keep_going ≡ self.old.keep_going }
        ensures failed { IfErr result (λ e. e ≡ PlayError.NoMemory) }
    {
        let Event { number, bytes, .. } = *event;
        self.tally.note(number, bytes)?;
        let Some((asks, wants)) = guard_text(bytes) else {
            return Ok(None);
        };
        if self.unasked.ask(player, asks, wants, &mut self.found)? {
            self.tally.meet();
            return Ok(None);
        }
        self.tally.miss(number)?;
        let printed = self.unasked.printed;
        let hint = hint_of(player.processors(), asks, wants, &self.found, printed);
        let breach = Breach { number, asks, hint };
        if !self.keep_going {
            return Ok(Some(breach));
        }
        put_unmet(&mut self.told, &breach, bytes, &self.found)?;
        Ok(None)
    }
}

impl<A: Allocator + Copy> Listener for GuardChecker<A> {
    type Stop = Breach;

    ghost heard = { λ start lines old new held holds result. ChecksLines start lines old new held holds result };

    fn hear<P: Playable, W: Write>(
        &mut self,
        player: &Player<P>,
        event: &Event<'_>,
        out: &mut W,
    ) -> Result<Option<Breach>, PlayError> {
        if let Some(breach) = self.check(player, event)? {
            return Ok(Some(breach));
        }
        self.unasked.take(player, event)?;
        make_text_of(player, self.form, event, &mut self.text);
        match output::write_text(out, self.text.bytes()?) {
            Ok(()) => Ok(None),
            Err(error) => Err(error),
        }
    }
}
