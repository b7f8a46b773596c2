// SPDX-License-Identifier: MIT OR Apache-2.0
//! What is done with a trace.
ghost use Rattle.std.specs.Prelude.{◌≡◌, false, IfErr, IfOk, option_map};
ghost use Rattle.play_commands.specs.Plays.{Plays, form_of, streams_of, talks};
ghost use Rattle.play_commands.specs.Purposes.{IsTaskFor, LacksItsText, is_session_for, known};

use crate::comparing::compare;
use crate::listeners::{play_guarded, play_in_form, play_plainly, play_session, record};
use crate::machines::Play;
use ffa_playable::Playable;
use play_arguments::{Purpose, TextOptions};
use play_player::{Form, Player};
use play_report::Failure;
use std::alloc::Allocator;
use std::io::{Read, Write};

/// What is done with a trace.
#[derive(Drop)]
pub enum Task<'a, R> {
    /// Its text is printed as the player prints it, which is quickest.
    Plain,
    /// Its text is printed in a form. What is wrong with a bad line is looked for.
    Formed(Form),
    /// Its text is printed in a form, and the trace's guards are checked: all of them, or up to the first that isn't met. What
    /// is wrong with a bad line is looked for.
    Guarded {
        form: Form,
        keep_going: bool,
    },
    /// It is printed with the guards of its play. What is wrong with a bad line is looked for.
    Recorded,
    /// Its text is printed in a form. Bad lines are told at once, and the play goes on.
    Session(Form),
    /// Its text is compared with an expected text, which has numbers and names where the form says so. Where it differs, why the
    /// operation is refused is told if the form asks for that. What is wrong with a bad line is looked for.
    Compare {
        expected: Expected<'a, R>,
        form: Form,
    },
}

// A form by what is asked for.
fn form_of(text: TextOptions) -> Form
    ensures { result ≡ form_of text }
{
    Form {
        number: text.number,
        names: text.names,
        explain: text.explain,
        short: text.short,
    }
}

impl<'a, R: Read + Drop> Task<'a, R> {
    /// What is done for a purpose, with what reads the expected text, if that could be opened. Where more is to be said of
    /// a bad line, a text is printed in a form, though it may be the player's. Guards are checked of no session.
    pub fn for_purpose(
        purpose: Purpose<'a>,
        verbose: bool,
        expected: Option<R>,
    ) -> Result<Task<'a, R>, Failure<'a>>
        ensures serves { IfOk result (λ task.
            IsTaskFor purpose.entry (option_map R.remaining expected) (known R.remaining task)) }
        ensures talks { IfOk result (λ task. talks task ≡ is_session_for purpose.entry) }
        ensures unread { IfErr result (LacksItsText purpose.entry) }
    {
        match purpose {
            Purpose::Print {
                text,
                strict,
                keep_going,
                interactive,
            } => {
                let form = form_of(text);
                if strict || keep_going {
                    Ok(Task::Guarded { form, keep_going })
                } else if interactive {
                    Ok(Task::Session(form))
                } else if form.number || form.names || form.explain || form.short || verbose {
                    Ok(Task::Formed(form))
                } else {
                    Ok(Task::Plain)
                }
            }
            Purpose::Record => Ok(Task::Recorded),
            Purpose::Compare {
                expected: path,
                text,
            } => match expected {
                Some(reader) => Ok(Task::Compare {
                    expected: Expected { path, reader },
                    form: form_of(text),
                }),
                None => Err(Failure::Read(path)),
            },
        }
    }
}

/// A trace that is played: its path, and what reads it.
#[derive(Drop)]
pub struct Trace<'a, R> {
    pub path: &'a str,
    pub reader: R,
}

/// A text that is expected: its path, and what reads it.
#[derive(Drop)]
pub struct Expected<'a, R> {
    pub path: &'a str,
    pub reader: R,
}

/// Plays a trace on a machine, as its task says. `out` takes what is printed, and `err` what a session tells of bad lines.
pub fn do_task<'a, A: Allocator + Copy, P: Playable, R: Read + Drop, W: Write, E: Write>(
    player: &mut Player<P>,
    play: Play<'a, A, R>,
    out: &mut W,
    err: &mut E,
    told: &mut Vec<u8, A>,
) -> Result<(), Failure<'a>>
    ensures played { let streams = streams_of R.remaining play.entry.trace.reader W.contents out.old out.new in
        Plays (known R.remaining play.entry.task) play.entry.trace.path player.old.bench streams result }
    ensures quiet { talks play.entry.task ≡ false → err.new ≡ err.old }
{
    let Play {
        alloc,
        task,
        trace,
        ..
    } = play;
    match task {
        Task::Plain => play_plainly(player, alloc, trace, out),
        Task::Formed(form) => play_in_form(player, alloc, form, trace, out),
        Task::Guarded { form, keep_going } => {
            play_guarded(player, alloc, form, keep_going, trace, out, told)
        }
        Task::Recorded => record(player, alloc, trace, out),
        Task::Session(form) => play_session(player, alloc, form, trace, out, err),
        Task::Compare { expected, form } => compare(player, alloc, expected, form, trace, out),
    }
}
