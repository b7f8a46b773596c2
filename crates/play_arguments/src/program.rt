// SPDX-License-Identifier: MIT OR Apache-2.0
//! The commands of the program and their words, as `clap` gets them.
ghost use Rattle.std.specs.Prelude.{◌≡◌, IfOk, false};
ghost use Rattle.clap.specs.Words.{app_of, rule_of};
ghost use Rattle.clap.specs.declared.builder.command.Command.TheViews.{out-Command};
ghost use Rattle.play_arguments.specs.Commands.{bare, program};
ghost use Rattle.play_arguments.specs.Tables.{rule_for, with_words, with_commands, app_for};

use clap::{Arg, ArgAction, Command};
use std::alloc::{AllocError, Global};

/// The version of the program.
pub const VERSION: &str = "0.1.0";
/// The toolchain that the program is proved with.
pub const TOOLCHAIN: &str = "rattle-kit-13f";
// `VERSION`, and `TOOLCHAIN` in brackets.
const VERSION_TEXT: &str = "0.1.0 (rattle-kit-13f)";

// The end of the program's help.
const AFTER_HELP: &str = "\
Status:
   0  done
   1  the manifest is rejected
   2  a line of the trace is not valid
   3  cannot read a file, cannot write output, or out of memory
   4  the output differs from the expected output
   5  a guard failed, or a tested trace failed
  64  the command line is wrong

Manual: docs/USING.md";

// A path, flag or value of a command: its name, and what the help says of it. `tests/generated` lists these in
// docs/COMMANDS.md.
#[derive(Clone, Copy)]
enum Word<'a> {
    // A path, which is required.
    Path(&'a str, &'a str),
    // One path or more.
    Paths(&'a str, &'a str),
    // A flag, which is optional.
    Flag(&'a str, &'a str),
    // A value after its name, which is optional.
    Value(&'a str, &'a str),
    // A number below 2^64 after its name, with its default.
    Number(&'a str, &'a str, &'a str),
}

// A command of the program.
#[derive(Clone, Copy)]
struct Entry<'a> {
    name: &'a str,
    about: &'a str,
    words: &'a [Word<'a>],
}

const MANIFEST: Word = Word::Path(
    "manifest",
    "Manifest of the machine (TOML), or - for standard input",
);

const TRACE: Word = Word::Path(
    "trace",
    "Trace, one operation on each line, or - for standard input",
);

const EXPECTED: Word = Word::Path("expected", "Expected output, or - for standard input");

const FRAMES: Word = Word::Flag("frames", "Allocate each page of RAM separately");

const TLB: Word = Word::Flag("tlb", "Cache the last translations, as a TLB does");

const PROCESSORS: Word = Word::Value(
    "processors",
    "Simulate 1 to 8 processors; allow `on N` and `interrupt`",
);

const FFA: Word = Word::Value("ffa", "Serve FF-A 1.1, the default, or 1.2");

const WORDS: Word = Word::Flag(
    "words",
    "Read calls and arguments by name; numbers may have 0x",
);

const LINE_BUFFERED: Word = Word::Flag(
    "line-buffered",
    "Write each line's output before reading more of the trace",
);

const NUMBER: Word = Word::Flag("number", "Print each line's number before its output");

const NAMES: Word = Word::Flag(
    "names",
    "Print the names of calls and errors after the registers",
);

const EXPLAIN: Word = Word::Flag(
    "explain",
    "Print why an operation was refused, as `# refused: ..`",
);

const SHORT: Word = Word::Flag("short", "Print registers and data in a short form");

const STRICT: Word = Word::Flag(
    "strict",
    "Check the guards `#=` and `#@`; stop at a failure",
);

const KEEP_GOING: Word = Word::Flag("keep-going", "Check guards and continue after a failure");

const INTERACTIVE: Word = Word::Flag(
    "interactive",
    "Report bad lines and continue; write output at once",
);

const VERBOSE: Word = Word::Flag("verbose", "Print details of errors on standard error");

const RUN: Entry = Entry {
    name: "run",
    about: "Play a trace on the machine of a manifest",
    words: &[
        MANIFEST,
        TRACE,
        FRAMES,
        TLB,
        PROCESSORS,
        FFA,
        WORDS,
        LINE_BUFFERED,
        NUMBER,
        NAMES,
        EXPLAIN,
        SHORT,
        STRICT,
        KEEP_GOING,
        INTERACTIVE,
        VERBOSE,
    ],
};

const DEMO: Entry = Entry {
    name: "demo",
    about: "Play a trace on the built-in machine",
    words: &[
        TRACE,
        FRAMES,
        TLB,
        PROCESSORS,
        FFA,
        WORDS,
        LINE_BUFFERED,
        NUMBER,
        NAMES,
        EXPLAIN,
        SHORT,
        STRICT,
        KEEP_GOING,
        INTERACTIVE,
        VERBOSE,
    ],
};

const RECORD: Entry = Entry {
    name: "record",
    about: "Play a trace; print it with its output as guards",
    words: &[
        MANIFEST, TRACE, FRAMES, TLB, PROCESSORS, FFA, WORDS, VERBOSE,
    ],
};

const COMPARE: Entry = Entry {
    name: "compare",
    about: "Compare the output of a trace with the expected output",
    words: &[
        MANIFEST, TRACE, EXPECTED, FRAMES, TLB, PROCESSORS, FFA, WORDS, NUMBER, NAMES, EXPLAIN,
        SHORT, VERBOSE,
    ],
};

const CHECK: Entry = Entry {
    name: "check",
    about: "Check whether a manifest is accepted",
    words: &[MANIFEST, FFA, VERBOSE],
};

const REGIONS: Word = Word::Flag(
    "regions",
    "Also print regions, table pages, space for regions, and RAM",
);

const LAYOUT: Entry = Entry {
    name: "layout",
    about: "Print the addresses of each endpoint's tables",
    words: &[MANIFEST, REGIONS, FFA, VERBOSE],
};

const KIND: Word = Word::Path(
    "kind",
    "Kind of call: donate, lend, share, retrieve, relinquish or reclaim",
);

const TX_ADDRESS: Word = Word::Value(
    "tx",
    "The caller's TX address, such as 4002E000; not for reclaim",
);

const FROM: Word = Word::Value("from", "Sender of the transaction, such as 8001");

const TO: Word = Word::Value(
    "to",
    "Receivers, such as 8002:rw,8003:ro; donate and relinquish take no right",
);

const PAGES: Word = Word::Value(
    "pages",
    "Ranges as ADDRESS+PAGES in hexadecimal, such as 40021000+1,40025000+2",
);

const HANDLE: Word = Word::Value(
    "handle",
    "Handle of the transaction, such as 0000800100000001",
);

const TAG: Word = Word::Value("tag", "Tag of the transaction [default: 0]");

const OF: Word = Word::Value(
    "of",
    "Kind to retrieve: share, lend or donate [default: any]",
);

const ZERO: Word = Word::Flag("zero", "Zero the pages; not for share or retrieve");

const FORM: Word = Word::Value(
    "form",
    "Form of the descriptor: compact, 1.1 or 1.2 [default: 1.1]",
);

const VERSIONS: Word = Word::Value(
    "manifest",
    "Manifest with the caller's form, or - for standard input",
);

const SEED: Word = Word::Number("seed", "Seed; the same seed generates the same trace", "1");

const LINES: Word = Word::Number("lines", "Number of lines", "1000");

const COUNT: Word = Word::Flag(
    "count",
    "Print counts of successes, errors, faults and checks instead",
);

const DESCRIPTOR: Entry = Entry {
    name: "descriptor",
    about: "Print trace lines that make a call on memory",
    words: &[
        KIND, TX_ADDRESS, FROM, TO, PAGES, HANDLE, TAG, OF, ZERO, FORM, VERSIONS,
    ],
};

const GENERATE: Entry = Entry {
    name: "generate",
    about: "Generate a random trace for the machine of a manifest",
    words: &[MANIFEST, SEED, LINES, COUNT, FFA, VERBOSE],
};

const FOLDERS: Word = Word::Paths(
    "folder",
    "Folder of NAME.trace files, each with NAME.toml or machine.toml",
);

const TAP: Word = Word::Flag("tap", "Print results in the Test Anything Protocol");

const REACHED: Word = Word::Flag(
    "count",
    "Also print counts of successes, errors, faults and checks",
);

const ALLOW_UNGUARDED: Word = Word::Flag("allow-unguarded", "Let a trace without guards pass");

const TEST: Entry = Entry {
    name: "test",
    about: "Play traces of folders, check guards; `# with` gives flags",
    words: &[
        FOLDERS,
        TAP,
        REACHED,
        ALLOW_UNGUARDED,
        PROCESSORS,
        FFA,
        WORDS,
    ],
};

const LOWER: Entry = Entry {
    name: "lower",
    about: "Convert a trace with named calls to the plain format",
    words: &[TRACE, VERBOSE],
};

fn arg<'a>(alloc: Global, word: &Word<'a>) -> Arg<'a>
    ensures rule { rule_of result ≡ rule_for word.now }
    ensures local { result.global ≡ false }
{
    match *word {
        Word::Path(id, help) => Arg::new(alloc, id).required(true).help(help),
        Word::Paths(id, help) => Arg::new(alloc, id)
            .required(true)
            .action(ArgAction::Append)
            .help(help),
        Word::Flag(id, help) => Arg::new(alloc, id)
            .long(id)
            .action(ArgAction::SetTrue)
            .help(help),
        Word::Value(id, help) => Arg::new(alloc, id)
            .long(id)
            .action(ArgAction::Set)
            .help(help),
        Word::Number(id, help, usual) => Arg::new(alloc, id)
            .long(id)
            .action(ArgAction::Set)
            .default_value(usual)
            .help(help),
    }
}

// The command with these words added.
fn with_words<'a>(
    alloc: Global,
    mut command: Command<'a>,
    words: &[Word<'a>],
) -> Result<Command<'a>, AllocError>
    requires local { (out-Command command).has_globals ≡ false }
    ensures app { IfOk result (λ c. app_of c ≡ with_words words.now (app_of command.entry)) }
    ensures local { IfOk result (λ c. (out-Command c).has_globals ≡ false) }
{
    for word in words {
        command = command.arg(arg(alloc, word))?;
    }
    Ok(command)
}

fn command<'a>(alloc: Global, entry: &Entry<'a>) -> Result<Command<'a>, AllocError>
    ensures app { IfOk result (λ c. app_of c ≡ app_for entry.now) }
    ensures local { IfOk result (λ c. (out-Command c).has_globals ≡ false) }
{
    with_words(
        alloc,
        Command::new(alloc, entry.name).about(entry.about),
        entry.words,
    )
}

// The program without commands. Its help has the name `ffaplay`, whatever the first word is.
#[tactic(auto, unfolding(crate::specs::Commands::bare))]
fn bare<'a>(alloc: Global) -> Result<Command<'a>, AllocError>
    ensures { IfOk result (λ c. app_of c ≡ bare) }
{
    Command::new(alloc, "ffaplay")
        .about("Play FF-A calls and memory accesses on a simulated machine")
        .version(VERSION_TEXT)
        .after_help(AFTER_HELP)
        .subcommand_required(true)
        .bin_name("ffaplay")
}

// The program with these commands.
fn with_commands<'a>(alloc: Global, entries: &[Entry<'a>]) -> Result<Command<'a>, AllocError>
    ensures { IfOk result (λ c. app_of c ≡ with_commands entries.now bare) }
{
    let mut program = bare(alloc)?;
    for entry in entries {
        program = program.subcommand(command(alloc, entry)?)?;
    }
    Ok(program)
}

/// The command line of the program, for `clap`.
#[tactic(auto, unfolding(crate::specs::Commands::program, crate::specs::Commands::run_app, crate::specs::Commands::demo_app, crate::specs::Commands::record_app, crate::specs::Commands::compare_app, crate::specs::Commands::check_app, crate::specs::Commands::layout_app, crate::specs::Commands::descriptor_app, crate::specs::Commands::generate_app, crate::specs::Commands::test_app, crate::specs::Commands::lower_app))]
pub(crate) fn program<'a>(alloc: Global) -> Result<Command<'a>, AllocError>
    ensures { IfOk result (λ c. app_of c ≡ program) }
{
    with_commands(
        alloc,
        &[
            RUN, DEMO, RECORD, COMPARE, CHECK, LAYOUT, DESCRIPTOR, GENERATE, TEST, LOWER,
        ],
    )
}
