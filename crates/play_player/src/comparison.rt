// SPDX-License-Identifier: MIT OR Apache-2.0
//! A listener that compares the text of each line with an expected text.
ghost use Rattle.std.specs.Prelude.{◌≡◌, ◌≢◌, ◌+◌, ℕ, List, [], ◌∷◌, ◌++◌, length, MatchOption};
ghost use Rattle.std.specs.Io.KnownBytes.{Keeps};
ghost use Rattle.play_trace.specs.TraceLines.{feed};
ghost use Rattle.play_player.specs.Compared.{ComparesEnd, ComparesLines};
ghost use Rattle.play_player.specs.Comparing.{EndsRow, ReadsRow, TakesText};

use crate::Player;
use crate::form::{Form, make_text_of};
use crate::listening::{Event, Listener};
use crate::reason::reason_of;
use ffa_playable::Playable;
use play_reasons::{Draft, Reason};
use play_trace::PlayError;
use std::alloc::Allocator;
use std::io::{BufRead, ErrorKind, Write};

/// Where a text first differs from the expected text.
#[derive(Clone, Copy)]
pub struct Mismatch {
    /// The number of the trace's line whose text differs, counted from 1. If the expected text goes on after the last
    /// line, this is the number after that line's.
    pub number: u64,
    /// The number of the expected text's line that differs, counted from 1. If the text goes on after the expected one,
    /// this is the number after that of the expected text's last line.
    pub expected_line: u64,
    /// How many bytes of the line's text stand before its first line that differs.
    pub place: usize,
    /// Why the operation of the line is refused, if the form asks for reasons.
    pub reason: Option<Reason>,
}

/// Why a comparison stops.
#[derive(Clone, Copy)]
pub enum ComparisonStop {
    /// The texts differ here.
    Differs(Mismatch),
    /// The reader of the expected text failed, or that text has more lines than can be counted.
    Unreadable,
}

/// Compares the text of each line with an expected text. It stops a play at the first line whose text isn't how the
/// expected text goes on, or at which it can't read the expected text.
///
/// It compares line by line, and holds no more than one line of the expected text. It compares no reasons. If the form
/// asks for reasons, a mismatch says why the operation of its line is refused. It writes nothing.
#[derive(Drop)]
pub struct Comparer<R, A: Allocator> {
    /// The form of the text.
    pub form: Form,
    /// The lines of the expected text.
    pub rows: Rows<R, A>,
    /// The text of the line that it heard last.
    pub text: Draft<A>,
    /// The number of the line that it hears next.
    pub next: u64,
}

impl<R: BufRead, A: Allocator + Copy> Comparer<R, A> {
    /// A comparer that has heard no line, and that reads the expected text from this reader.
    pub fn new(alloc: A, form: Form, reader: R) -> Comparer<R, A>
        ensures form { result.form ≡ form }
        ensures reader { result.rows.reader ≡ reader }
        ensures read { result.rows.read ≡ 0 }
        ensures next { result.next ≡ 1 }
    {
        Comparer {
            form,
            rows: Rows {
                reader,
                read: 0,
                row: Vec::new(alloc),
            },
            text: Draft::new(alloc),
            next: 1,
        }
    }
}

impl<R: BufRead, A: Allocator> Comparer<R, A> {
    /// Ends a comparison after the last line of a trace. It returns why the comparison stops, or `None` if nothing is left
    /// of the expected text.
    pub fn end(&mut self) -> Result<Option<ComparisonStop>, PlayError>
        ensures { let wants = R.remaining self.old.rows.reader in
            let unread = R.remaining self.new.rows.reader in
            ComparesEnd wants unread self.old.rows.read self.old.next self.new.text self.new.rows.row.items result }
    {
        self.text.clear();
        match self.rows.next() {
            Ok(()) if self.rows.row.is_empty() => Ok(None),
            Ok(()) => Ok(Some(ComparisonStop::Differs(Mismatch {
                number: self.next,
                expected_line: self.rows.read,
                place: 0,
                reason: None,
            }))),
            Err(PlayError::Read) => Ok(Some(ComparisonStop::Unreadable)),
            Err(error) => Err(error),
        }
    }
}

impl<R: BufRead, A: Allocator> Listener for Comparer<R, A> {
    type Stop = ComparisonStop;

    ghost heard = { λ start lines old new held holds result.
        ComparesLines old.form start lines (R.remaining old.rows.reader) (R.remaining new.rows.reader) old.rows.read new.rows.read new.text new.rows.row.items result
        × (new.form ≡ old.form) × (new.next ≡ 1 + length lines) × Keeps held holds };

    fn hear<P: Playable, W: Write>(
        &mut self,
        player: &Player<P>,
        event: &Event<'_>,
        _out: &mut W,
    ) -> Result<Option<ComparisonStop>, PlayError> {
        let form = Form {
            explain: false,
            ..self.form
        };
        self.next = u64::saturating_add(event.number, 1);
        make_text_of(player, form, event, &mut self.text);
        match self.rows.take_text(self.text.bytes()?) {
            Ok(None) => Ok(None),
            Ok(Some(place)) => Ok(Some(ComparisonStop::Differs(Mismatch {
                number: event.number,
                expected_line: self.rows.read,
                place,
                reason: reason_of(player, self.form.explain, &event.line, event.outcome),
            }))),
            Err(PlayError::Read) => Ok(Some(ComparisonStop::Unreadable)),
            Err(error) => Err(error),
        }
    }
}

/// The lines of an expected text, one after another.
#[derive(Drop)]
pub struct Rows<R, A: Allocator> {
    /// What reads the text.
    pub reader: R,
    /// How many lines were read.
    pub read: u64,
    /// The line that was read last, with its LF if it has an LF. It is empty at the end of the text.
    pub row: Vec<u8, A>,
}

impl<R: BufRead, A: Allocator> Rows<R, A> {
    // Takes the lines of a text off what is expected, up to the first that is another there. It returns where in the text
    // that one begins.
    fn take_text(&mut self, text: &[u8]) -> Result<Option<usize>, PlayError>
        ensures { let wants = R.remaining self.old.reader in
            let unread = R.remaining self.new.reader in
            TakesText wants unread self.old.read self.new.read text.now self.new.row.items result }
    {
        let mut rest = text;
        while !rest.is_empty() {
            self.next()?;
            let Some(more) = behind_row(rest, &self.row) else {
                return Ok(Some(text.len() - rest.len()));
            };
            rest = more;
        }
        Ok(None)
    }

    // Reads the next line. If it can't be read, the error is `Read`.
    fn next(&mut self) -> Result<(), PlayError>
        ensures { let wants = R.remaining self.old.reader in
            let unread = R.remaining self.new.reader in
            ReadsRow wants unread self.old.read self.new.read self.new.row.items result }
    {
        if self.read == u64::MAX {
            return Err(PlayError::Read);
        }
        self.read += 1;
        self.row.clear();
        match self.reader.read_until(b'\n', &mut self.row) {
            Ok(_) => Ok(()),
            Err(error) if error.kind() == ErrorKind::OutOfMemory => Err(PlayError::NoMemory),
            Err(_) => end_row(&self.row),
        }
    }
}

// What was read before the reader failed is a line where LF ends it.
fn end_row(row: &[u8]) -> Result<(), PlayError>
    ensures { EndsRow row.now result }
{
    match row.strip_suffix(b"\n") {
        Some(_line) => Ok(()),
        None => Err(PlayError::Read),
    }
}

// What stands behind a line in a text that begins with it, where LF ends the line.
fn behind_row<'a>(text: &'a [u8], row: &[u8]) -> Option<&'a [u8]>
    ensures { MatchOption result
        ((line rest : List ℕ) → row.now ≡ line ++ feed ∷ [] → text.now ≢ row.now ++ rest)
        (λ rest. (line : List ℕ) × (row.now ≡ line ++ feed ∷ []) × (text.now ≡ row.now ++ rest.now)) }
{
    let Some(_line) = row.strip_suffix(b"\n") else {
        return None;
    };
    text.strip_prefix(row)
}
