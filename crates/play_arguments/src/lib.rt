// SPDX-License-Identifier: MIT OR Apache-2.0
//! Reads the command line of `ffaplay`: the command, its paths and its flags. It defines the built-in machine.
#![tactic(auto)]

ghost use Rattle.std.specs.Prelude.{◌≡◌, ◌⊎◌, IfOk, IfErr, Some, None, map};
ghost use Rattle.clap.specs.Words.{app_of, kind_of, subcommand_rows_of};
ghost use Rattle.clap.specs.declared.error.kind.ErrorKind.TheVariants.{OutOfMemory};
ghost use Rattle.play_arguments.specs.Commands.{ask_of, asked_by, asked_in, program, IsRefusedFor};

// `clap` has a crate of its own, because each crate above it pays for it in each proof. It takes no allocator except
// the heap's.
mod command_line;
mod demo;
mod program;

pub use clap::error::ErrorKind;
use clap::{ArgMatches, Command, Error};
pub use command_line::{
    DescriptorWords, FFA_WANTED, GenerateOptions, MachineOptions, PROCESSORS_WANTED, PlayOptions,
    Purpose, Request, STANDARD_INPUT, Source, TestOptions, TextOptions, read_ffa, read_processors,
};
pub use demo::built_in;
pub use program::{TOOLCHAIN, VERSION};
use std::alloc::{AllocError, Global};

/// Returns the request that the words of a command line make. The first word is the program's name.
///
/// An error of the kind `OutOfMemory` means that there is not enough memory; it can occur with any words. An error of the
/// kind `DisplayHelp` has the help that the words request, and one of the kind `DisplayVersion` has the version. Every
/// other error says what is wrong with the words. Its kind is `ArgumentConflict` if two paths are `STANDARD_INPUT`, or if
/// two flags exclude each other.
pub fn request<'a>(alloc: Global, words: &'a [&'a str]) -> Result<Request<'a>, Error>
    // The command, its paths and its flags are clap's matches of the words.
    ensures asked { IfOk result (λ r. asked_by (map (λ w. w.now) words.entry.now) ≡ Some (ask_of r)) }
    ensures refused { IfErr result (IsRefusedFor (map (λ w. w.now) words.entry.now)) }
{
    let mut command = program::program(alloc)?;
    match_words(alloc, &mut command, words)
}

// Returns the request that the words make of the program's command.
fn match_words<'a>(
    alloc: Global,
    command: &mut Command<'a>,
    words: &'a [&'a str],
) -> Result<Request<'a>, Error>
    ensures asked { app_of command.old ≡ program
        → IfOk result (λ r. asked_by (map (λ w. w.now) words.entry.now) ≡ Some (ask_of r)) }
    ensures refused { app_of command.old ≡ program → IfErr result (IsRefusedFor (map (λ w. w.now) words.entry.now)) }
{
    match command.try_get_matches_from_mut(words) {
        Err(error) => Err(error),
        Ok(matches) => read_matches(alloc, command, &matches),
    }
}

// Returns the request of the matches. An error says that they make no request, or that there is not enough memory.
fn read_matches<'a>(
    alloc: Global,
    command: &mut Command<'_>,
    matches: &ArgMatches<'a>,
) -> Result<Request<'a>, Error>
    ensures asked { IfOk result (λ r. asked_in (subcommand_rows_of matches.now) ≡ Some (ask_of r)) }
    ensures refused { IfErr result (λ e. (kind_of e ≡ OutOfMemory) ⊎ (asked_in (subcommand_rows_of matches.now) ≡ None)) }
{
    match command_line::fit_request_of(alloc, matches)? {
        Some(request) => Ok(request),
        None => Err(refusal(alloc, command, matches)?),
    }
}

// Returns what is wrong with words that `clap` accepts and that make no request.
fn refusal(
    alloc: Global,
    command: &mut Command<'_>,
    matches: &ArgMatches<'_>,
) -> Result<Error, AllocError> {
    let twice = "'-' is standard input, which can be given only once";
    match command_line::request_of(alloc, matches)? {
        Some(request) if request.reads_once() => {
            command.error(ErrorKind::ArgumentConflict, request.excluded())
        }
        Some(_) => command.error(ErrorKind::ArgumentConflict, twice),
        None => match command_line::unread_value(matches) {
            Some(wanted) => command.error(ErrorKind::ValueValidation, wanted),
            None => command.error(ErrorKind::MissingSubcommand, "no command was given"),
        },
    }
}
