// SPDX-License-Identifier: MIT OR Apache-2.0
//! A listener that writes the text of each line in a form.
ghost use Rattle.std.specs.Prelude.{◌≡◌, false};
ghost use Rattle.play_player.specs.Printed.{PrintsLines};

use crate::Player;
use crate::form::{Form, make_text_of};
use crate::listening::{Event, Listener};
use ffa_playable::Playable;
use play_reasons::Draft;
use play_trace::{PlayError, output};
use std::alloc::Allocator;
use std::convert::Infallible;
use std::io::Write;

/// Writes the text of each line in a form. It stops no play.
#[derive(Drop)]
pub struct Printer<A: Allocator> {
    /// The form of the text.
    pub form: Form,
    text: Draft<A>,
}

impl<A: Allocator> Printer<A> {
    /// A printer that has heard no line.
    pub fn new(alloc: A, form: Form) -> Printer<A>
        ensures { result.form ≡ form }
    {
        Printer {
            form,
            text: Draft::new(alloc),
        }
    }
}

impl<A: Allocator> Listener for Printer<A> {
    type Stop = Infallible;

    ghost heard = { λ start lines old new held holds result.
        PrintsLines old.form start lines held holds result × (new.form ≡ old.form) };

    fn hear<P: Playable, W: Write>(
        &mut self,
        player: &Player<P>,
        event: &Event<'_>,
        out: &mut W,
    ) -> Result<Option<Infallible>, PlayError> {
        make_text_of(player, self.form, event, &mut self.text);
        match output::write_text(out, self.text.bytes()?) {
            Ok(()) => Ok(None),
            Err(error) => Err(error),
        }
    }
}
