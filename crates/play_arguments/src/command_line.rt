// SPDX-License-Identifier: MIT OR Apache-2.0
//! The requests of the command line, and how they are read from the matches of `clap`.
ghost use Rattle.std.specs.Prelude.{◌≡◌, IfOk, map, option_map, codes, drop, nat_eq, true};
ghost use Rattle.std.specs.List.{starts_with};
ghost use Rattle.clap.specs.Words.{all_of, found_of, first_of, rows_of, subcommand_rows_of};
ghost use Rattle.play_arguments.specs.Commands.{aim_of, ask_of, path_of, words_of, manifest_of, trace_of, expected_of, verbose_of, answers_at_once, is_input, reads_once, asked_in, is_given, number_of, numeral_of, plain_number_of, has_zero, machine_in, text_in, words_in, ask_beside, ask_in, ask_met, number_in, print_in, compare_in, play_in, play_file_in, count_of, processors_in, ffa_of, ffa_in, check_in, layout_in, descriptor_in, generate_in, test_in, lower_in, said_more, excludes_none};

use clap::ArgMatches;
use ffa_model::{Ffa, MOST_PROCESSORS};
use std::alloc::{AllocError, Global};

// The options that need a number, with the message for another value.
const NUMBERS: [(&str, &str); 2] = [
    (
        "seed",
        "'--seed' must be a number below 2^64: decimal without a sign or leading zeros, such as 1000, or hexadecimal after 0x, such as 0x3E8",
    ),
    (
        "lines",
        "'--lines' must be a number below 2^64: decimal without a sign or leading zeros, such as 1000, or hexadecimal after 0x, such as 0x3E8",
    ),
];

/// The message for a bad number of processors.
pub const PROCESSORS_WANTED: &str =
    "'--processors' must be a number from 1 to 8, without a sign or leading zeros";
/// The message for a bad version of FF-A.
pub const FFA_WANTED: &str = "'--ffa' must be 1.1 or 1.2";

/// The path that means standard input.
pub const STANDARD_INPUT: &str = "-";

/// The options for the machine that plays a trace.
#[derive(Clone, Copy, PartialEq, Eq)]
pub struct MachineOptions {
    /// Whether each page of RAM is an allocation of its own. Otherwise RAM is one allocation.
    pub frames: bool,
    /// Whether the machine caches the last translations of addresses, as a TLB does.
    pub tlb: bool,
    /// The number of processors, from 1 to 8. If it is `None`, there is one processor, and a trace cannot name it.
    pub processors: Option<usize>,
    /// The version of FF-A that the machine serves.
    pub ffa: Ffa,
}

/// The options for the text that a play prints.
#[derive(Clone, Copy, PartialEq, Eq)]
pub struct TextOptions {
    /// Whether the text of each line is written before more of the trace is read.
    pub line_buffered: bool,
    /// Whether each text begins with the number of its line.
    pub number: bool,
    /// Whether the names of the call and of the error follow the registers.
    pub names: bool,
    /// Whether a line after the text of a refused operation says why it was refused.
    pub explain: bool,
    /// Whether registers and data are written in the short form.
    pub short: bool,
}

/// The contents of a descriptor of a memory transaction, as the command line gives them.
#[derive(Clone, Copy)]
pub struct DescriptorWords<'a> {
    /// The call on memory, by the last word of its name.
    pub kind: &'a str,
    /// The address of TX. A reclaim does not use it.
    pub tx: Option<&'a str>,
    /// The sender of the transaction.
    pub from: Option<&'a str>,
    /// The receivers of the transaction, each with its right.
    pub to: Option<&'a str>,
    /// The pages of the transaction.
    pub pages: Option<&'a str>,
    pub handle: Option<&'a str>,
    pub tag: Option<&'a str>,
    /// The kind of the transaction that the call retrieves.
    pub of: Option<&'a str>,
    /// Whether the call zeroes the pages.
    pub zero: bool,
    /// The form of the descriptor, which is that of a version.
    pub form: Option<&'a str>,
}

/// The machine that plays a trace.
#[derive(Clone, Copy)]
pub enum Source<'a> {
    /// The built-in machine.
    BuiltIn,
    /// The machine of the manifest at this path.
    File(&'a str),
}

impl<'a> Source<'a> {
    /// Returns the path of the manifest. For the built-in machine it returns `None`.
    pub fn path(&self) -> Option<&'a str>
        ensures { option_map (λ path. path.now) result ≡ path_of self.now }
    {
        match *self {
            Source::BuiltIn => None,
            Source::File(path) => Some(path),
        }
    }
}

/// The purpose of a play.
#[derive(Clone, Copy)]
pub enum Purpose<'a> {
    /// Prints the text of the trace. With `strict`, the play checks the guards up to the first that fails; with `keep_going`,
    /// it checks all of them. With `interactive`, it reports a bad line and continues. At most one of the three is set.
    Print {
        text: TextOptions,
        strict: bool,
        keep_going: bool,
        interactive: bool,
    },
    /// Prints the trace with its output as guards.
    Record,
    /// Compares the text of the trace with the text at this path. With `text.explain`, a difference at a refused operation
    /// has the reason.
    Compare {
        expected: &'a str,
        text: TextOptions,
    },
}

/// A trace to play, with its machine and its purpose.
#[derive(Clone, Copy)]
pub struct PlayOptions<'a> {
    pub source: Source<'a>,
    /// The path of the trace.
    pub trace: &'a str,
    pub machine: MachineOptions,
    pub purpose: Purpose<'a>,
    /// Whether the trace has named calls. The play converts it to the plain format.
    pub words: bool,
    /// Whether standard error has details of errors.
    pub verbose: bool,
}

/// A trace to generate.
#[derive(Clone, Copy)]
pub struct GenerateOptions<'a> {
    /// The path of the manifest of its machine.
    pub manifest: &'a str,
    pub seed: u64,
    /// The number of its lines.
    pub lines: u64,
    /// Whether the program prints counts of its calls and accesses instead of the trace.
    pub count: bool,
    /// The version of FF-A, as in `MachineOptions`.
    pub ffa: Ffa,
    /// Whether standard error has details of errors.
    pub verbose: bool,
}

/// Folders of traces to test.
#[derive(Drop)]
pub struct TestOptions<'a> {
    /// The paths of the folders, in the order of the tests.
    pub folders: Vec<&'a str>,
    /// Whether the results are in the Test Anything Protocol.
    pub tap: bool,
    /// Whether counts of the calls and accesses of all traces follow the results.
    pub count: bool,
    /// Whether a trace without a guard passes.
    pub allow_unguarded: bool,
    /// The number of processors of each machine, as in `MachineOptions`.
    pub processors: Option<usize>,
    /// The version of FF-A that each machine serves, as in `MachineOptions`.
    pub ffa: Ffa,
    /// Whether the traces have named calls, as in `PlayOptions`.
    pub words: bool,
}

/// A command with its paths and flags. The paths are words of the command line.
///
/// At most one of its paths is `STANDARD_INPUT`. With `verbose`, standard error has details of errors.
#[derive(Drop)]
pub enum Request<'a> {
    /// Plays a trace.
    Play(PlayOptions<'a>),
    /// Checks whether a manifest is accepted. The version of FF-A is as in `MachineOptions`.
    Check {
        manifest: &'a str,
        ffa: Ffa,
        verbose: bool,
    },
    /// Prints the addresses of the tables of a manifest's machine, and with `regions` its regions and RAM. The version of FF-A
    /// is as in `MachineOptions`.
    Layout {
        manifest: &'a str,
        regions: bool,
        ffa: Ffa,
        verbose: bool,
    },
    /// Prints the lines of a trace that make a call on memory. If there is a manifest, the descriptor has the form of the
    /// caller in the manifest at this path.
    Descriptor {
        manifest: Option<&'a str>,
        words: DescriptorWords<'a>,
    },
    /// Prints a generated trace for the machine of a manifest, or counts of how its calls and accesses ended.
    Generate(GenerateOptions<'a>),
    /// Plays the traces of folders and checks their guards.
    Test(TestOptions<'a>),
    /// Converts a trace with named calls to the plain format.
    Lower {
        trace: &'a str,
        verbose: bool,
    },
}

impl<'a> Request<'a> {
    /// Returns the path of the manifest, if the request names one.
    pub fn manifest(&self) -> Option<&'a str>
        ensures { option_map (λ path. path.now) result ≡ manifest_of (ask_of self.now) }
    {
        match *self {
            Request::Play(options) => options.source.path(),
            Request::Check { manifest, .. } | Request::Layout { manifest, .. } => Some(manifest),
            Request::Generate(options) => Some(options.manifest),
            Request::Descriptor { manifest, .. } => manifest,
            Request::Test(_) | Request::Lower { .. } => None,
        }
    }

    /// Returns the path of the trace that the request plays, if it plays one.
    pub fn trace(&self) -> Option<&'a str>
        ensures { option_map (λ path. path.now) result ≡ trace_of (ask_of self.now) }
    {
        match *self {
            Request::Play(options) => Some(options.trace),
            _ => None,
        }
    }

    /// Returns the path of the expected text, if the request names one.
    pub fn expected(&self) -> Option<&'a str>
        ensures { option_map (λ path. path.now) result ≡ expected_of (ask_of self.now) }
    {
        match *self {
            Request::Play(
                PlayOptions {
                    purpose: Purpose::Compare { expected, .. },
                    ..
                },
            ) => Some(expected),
            _ => None,
        }
    }

    /// Whether standard error has details of errors.
    pub fn is_verbose(&self) -> bool
        ensures { result ≡ verbose_of (ask_of self.now) }
    {
        match *self {
            Request::Play(options) => options.verbose,
            Request::Check { verbose, .. } | Request::Layout { verbose, .. } => verbose,
            Request::Generate(options) => options.verbose,
            Request::Lower { verbose, .. } => verbose,
            Request::Descriptor { .. } | Request::Test(_) => false,
        }
    }

    /// Whether the text of each line is written before more of the trace is read. This holds for a play with
    /// `line_buffered` or `interactive`. It also holds for a play that prints its text, and for `Lower`, if the trace is
    /// standard input: the writer of the trace may wait for the answer.
    #[tactic(auto, unfolding(crate::specs::Commands::is_input))]
    pub fn answers_at_once(&self) -> bool
        ensures { result ≡ answers_at_once (ask_of self.now) }
    {
        match *self {
            Request::Play(
                PlayOptions {
                    trace,
                    purpose: Purpose::Print {
                        text,
                        interactive,
                        ..
                    },
                    ..
                },
            ) => text.line_buffered || interactive || is_input(Some(trace)),
            Request::Lower { trace, .. } => is_input(Some(trace)),
            _ => false,
        }
    }

    /// Whether at most one of the paths is standard input, which can be read only once.
    #[tactic(auto, unfolding(crate::specs::Commands::reads_once))]
    pub(crate) fn reads_once(&self) -> bool
        ensures { result ≡ reads_once (ask_of self.now) }
    {
        let manifest = is_input(self.manifest());
        let trace = is_input(self.trace());
        let expected = is_input(self.expected());
        u8::from(manifest) + u8::from(trace) + u8::from(expected) <= 1
    }

    /// Returns the same request with `verbose`, if it has that flag.
    pub fn said_more(self) -> Request<'a>
        ensures { ask_of result ≡ said_more (ask_of self.entry) }
    {
        match self {
            Request::Play(options) => Request::Play(PlayOptions {
                verbose: true,
                ..options
            }),
            Request::Check { manifest, ffa, .. } => Request::Check {
                manifest,
                ffa,
                verbose: true,
            },
            Request::Layout {
                manifest,
                regions,
                ffa,
                ..
            } => Request::Layout {
                manifest,
                regions,
                ffa,
                verbose: true,
            },
            Request::Generate(options) => Request::Generate(GenerateOptions {
                verbose: true,
                ..options
            }),
            Request::Lower { trace, .. } => Request::Lower {
                trace,
                verbose: true,
            },
            Request::Descriptor { .. } | Request::Test(_) => self,
        }
    }

    /// Returns the message for flags of the request that exclude each other.
    pub(crate) fn excluded(&self) -> &'static str {
        match *self {
            Request::Play(
                PlayOptions {
                    purpose: Purpose::Print {
                        interactive: true,
                        ..
                    },
                    ..
                },
            ) => { "the argument '--interactive' cannot be used with '--strict' or '--keep-going'" }
            _ => "the argument '--strict' cannot be used with '--keep-going'",
        }
    }

    // Whether no two flags of the request exclude each other. A session checks no guards. A play that checks guards either stops
    // at the first that fails, or continues.
    fn excludes_none(&self) -> bool
        ensures { result ≡ excludes_none (ask_of self.now) }
    {
        match *self {
            Request::Play(
                PlayOptions {
                    purpose: Purpose::Print {
                        strict,
                        keep_going,
                        interactive,
                        ..
                    },
                    ..
                },
            ) => !(strict && keep_going) && !((strict || keep_going) && interactive),
            _ => true,
        }
    }
}

// Whether there is a path, and it is standard input.
#[tactic(auto, unfolding(crate::specs::Commands::is_input))]
fn is_input(path: Option<&str>) -> bool
    ensures { result ≡ is_input (option_map (λ p. p.now) path.entry) }
{
    path == Some(STANDARD_INPUT)
}

fn text_of<'a>(matches: &ArgMatches<'a>, id: &str) -> Option<&'a str>
    ensures { option_map (λ s. s.now) result ≡ first_of id.now (rows_of (found_of matches.now)) }
{
    matches.get_str(id)
}

fn is_given(matches: &ArgMatches<'_>, id: &str) -> bool
    ensures { result ≡ is_given id.now (rows_of (found_of matches.now)) }
{
    text_of(matches, id) == Some("true")
}

// Reads a number, which is hexadecimal after `0x` and decimal otherwise.
#[tactic(auto, unfolding(crate::specs::Commands::number_of))]
fn read_number(text: &str) -> Option<u64>
    ensures { result ≡ number_of text.now }
{
    match text.as_bytes() {
        [b'0', b'x', ..] => read_hexadecimal(text),
        _ => read_plain(text),
    }
}

fn read_plain(text: &str) -> Option<u64>
    ensures { result ≡ plain_number_of text.now }
{
    if has_zero(text) {
        None
    } else {
        read_decimal(text)
    }
}

// Whether a text begins with a superfluous zero.
fn has_zero(text: &str) -> bool
    ensures { result ≡ has_zero text.now }
{
    matches!(text.as_bytes(), [b'0', _, ..])
}

fn read_decimal(text: &str) -> Option<u64>
    ensures { result ≡ numeral_of 10 text.now }
{
    if has_sign(text) {
        None
    } else {
        text.parse().ok()
    }
}

// Whether a text begins with the sign that the standard library allows before digits.
fn has_sign(text: &str) -> bool
    ensures { result ≡ starts_with nat_eq text.now (codes "+") }
{
    matches!(text.as_bytes(), [b'+', ..])
}

// Reads a number of hexadecimal digits.
fn read_digits(text: &str) -> Option<u64>
    ensures { result ≡ numeral_of 16 text.now }
{
    if has_sign(text) {
        None
    } else {
        u64::from_str_radix(text, 16).ok()
    }
}

// Reads the number after the first `x`.
fn read_hexadecimal(text: &str) -> Option<u64>
    requires { starts_with nat_eq text.now (codes "0x") ≡ true }
    ensures { result ≡ numeral_of 16 (drop 2 text.now) }
{
    match text.split_once('x') {
        Some((_, digits)) => read_digits(digits),
        None => None,
    }
}

/// Returns the message for the first option with a bad value.
pub(crate) fn unread_value(matches: &ArgMatches<'_>) -> Option<&'static str> {
    let (_, inner) = matches.subcommand()?;
    for (id, wanted) in NUMBERS {
        if let Some(text) = text_of(inner, id)
            && read_number(text).is_none()
        {
            return Some(wanted);
        }
    }
    if processors_in(inner).is_none() {
        return Some(PROCESSORS_WANTED);
    }
    match ffa_in(inner) {
        Some(_) => None,
        None => Some(FFA_WANTED),
    }
}

// Returns the number that was given, or the default.
fn number_in(matches: &ArgMatches<'_>, id: &str) -> Option<u64>
    ensures { result ≡ number_in id.now (rows_of (found_of matches.now)) }
{
    read_number(text_of(matches, id)?)
}

/// Reads a number of processors, from 1 to the most that a machine has.
#[tactic(auto, unfolding(crate::specs::Commands::count_of))]
pub fn read_processors(text: &str) -> Option<usize>
    ensures { result ≡ count_of text.now }
{
    match read_number(text) {
        Some(count) if 0 < count && count <= MOST_PROCESSORS as u64 => Some(count as usize),
        _ => None,
    }
}

// Returns the number of processors, if the words give one. The outer `None` means that its text is not such a number.
#[tactic(auto, unfolding(crate::specs::Commands::processors_in))]
fn processors_in(matches: &ArgMatches<'_>) -> Option<Option<usize>>
    ensures { result ≡ processors_in (rows_of (found_of matches.now)) }
{
    match text_of(matches, "processors") {
        Some(text) => read_processors(text).map(Some),
        None => Some(None),
    }
}

/// Reads a version of FF-A that a machine can serve.
#[tactic(auto, unfolding(crate::specs::Commands::ffa_of))]
pub fn read_ffa(text: &str) -> Option<Ffa>
    ensures { result ≡ ffa_of text.now }
{
    match text {
        "1.1" => Some(Ffa::V1_1),
        "1.2" => Some(Ffa::V1_2),
        _ => None,
    }
}

// Returns the version of FF-A that the words give, or 1.1. `None` means that their text is not such a version.
#[tactic(auto, unfolding(crate::specs::Commands::ffa_in))]
fn ffa_in(matches: &ArgMatches<'_>) -> Option<Ffa>
    ensures { result ≡ ffa_in (rows_of (found_of matches.now)) }
{
    match text_of(matches, "ffa") {
        Some(text) => read_ffa(text),
        None => Some(Ffa::V1_1),
    }
}

#[tactic(auto, unfolding(crate::specs::Commands::machine_in))]
fn machine_in(matches: &ArgMatches<'_>, processors: Option<usize>, ffa: Ffa) -> MachineOptions
    ensures { result ≡ machine_in (rows_of (found_of matches.now)) processors ffa }
{
    MachineOptions {
        frames: is_given(matches, "frames"),
        tlb: is_given(matches, "tlb"),
        processors,
        ffa,
    }
}

#[tactic(auto, unfolding(crate::specs::Commands::text_in))]
fn text_in(matches: &ArgMatches<'_>) -> TextOptions
    ensures { result ≡ text_in (rows_of (found_of matches.now)) }
{
    TextOptions {
        line_buffered: is_given(matches, "line-buffered"),
        number: is_given(matches, "number"),
        names: is_given(matches, "names"),
        explain: is_given(matches, "explain"),
        short: is_given(matches, "short"),
    }
}

#[tactic(auto, unfolding(crate::specs::Commands::print_in))]
fn print_in<'a>(matches: &ArgMatches<'a>) -> Purpose<'a>
    ensures { aim_of result ≡ print_in (rows_of (found_of matches.now)) }
{
    Purpose::Print {
        text: text_in(matches),
        strict: is_given(matches, "strict"),
        keep_going: is_given(matches, "keep-going"),
        interactive: is_given(matches, "interactive"),
    }
}

#[tactic(auto, unfolding(crate::specs::Commands::compare_in))]
fn compare_in<'a>(matches: &ArgMatches<'a>) -> Option<Purpose<'a>>
    ensures { option_map aim_of result ≡ compare_in (rows_of (found_of matches.now)) }
{
    Some(Purpose::Compare {
        expected: text_of(matches, "expected")?,
        text: text_in(matches),
    })
}

// Returns the request to play a trace on the machine of this source.
#[tactic(auto, unfolding(crate::specs::Commands::play_in))]
fn play_in<'a>(
    matches: &ArgMatches<'a>,
    source: Source<'a>,
    purpose: Purpose<'a>,
) -> Option<Request<'a>>
    ensures { option_map ask_of result
        ≡ play_in (rows_of (found_of matches.now)) (path_of source.entry) (aim_of purpose.entry) }
{
    let trace = text_of(matches, "trace")?;
    let processors = processors_in(matches)?;
    let ffa = ffa_in(matches)?;
    Some(Request::Play(PlayOptions {
        source,
        trace,
        machine: machine_in(matches, processors, ffa),
        purpose,
        words: is_given(matches, "words"),
        verbose: is_given(matches, "verbose"),
    }))
}

// Returns the request to play a trace on the machine of the manifest that the words name.
#[tactic(auto, unfolding(crate::specs::Commands::play_file_in))]
fn play_file_in<'a>(matches: &ArgMatches<'a>, purpose: Purpose<'a>) -> Option<Request<'a>>
    ensures { option_map ask_of result ≡ play_file_in (rows_of (found_of matches.now)) (aim_of purpose.entry) }
{
    let manifest = text_of(matches, "manifest")?;
    play_in(matches, Source::File(manifest), purpose)
}

#[tactic(auto, unfolding(crate::specs::Commands::check_in))]
fn check_in<'a>(matches: &ArgMatches<'a>) -> Option<Request<'a>>
    ensures { option_map ask_of result ≡ check_in (rows_of (found_of matches.now)) }
{
    Some(Request::Check {
        manifest: text_of(matches, "manifest")?,
        ffa: ffa_in(matches)?,
        verbose: is_given(matches, "verbose"),
    })
}

#[tactic(auto, unfolding(crate::specs::Commands::layout_in))]
fn layout_in<'a>(matches: &ArgMatches<'a>) -> Option<Request<'a>>
    ensures { option_map ask_of result ≡ layout_in (rows_of (found_of matches.now)) }
{
    Some(Request::Layout {
        manifest: text_of(matches, "manifest")?,
        regions: is_given(matches, "regions"),
        ffa: ffa_in(matches)?,
        verbose: is_given(matches, "verbose"),
    })
}

#[tactic(auto, unfolding(crate::specs::Commands::words_in))]
fn words_in<'a>(matches: &ArgMatches<'a>, kind: &'a str) -> DescriptorWords<'a>
    ensures { words_of result ≡ words_in (rows_of (found_of matches.now)) kind.entry.now }
{
    DescriptorWords {
        kind,
        tx: text_of(matches, "tx"),
        from: text_of(matches, "from"),
        to: text_of(matches, "to"),
        pages: text_of(matches, "pages"),
        handle: text_of(matches, "handle"),
        tag: text_of(matches, "tag"),
        of: text_of(matches, "of"),
        zero: is_given(matches, "zero"),
        form: text_of(matches, "form"),
    }
}

#[tactic(auto, unfolding(crate::specs::Commands::descriptor_in))]
fn descriptor_in<'a>(matches: &ArgMatches<'a>) -> Option<Request<'a>>
    ensures { option_map ask_of result ≡ descriptor_in (rows_of (found_of matches.now)) }
{
    let kind = text_of(matches, "kind")?;
    let words = words_in(matches, kind);
    let manifest = text_of(matches, "manifest");
    Some(Request::Descriptor { manifest, words })
}

#[tactic(auto, unfolding(crate::specs::Commands::generate_in))]
fn generate_in<'a>(matches: &ArgMatches<'a>) -> Option<Request<'a>>
    ensures { option_map ask_of result ≡ generate_in (rows_of (found_of matches.now)) }
{
    Some(Request::Generate(GenerateOptions {
        manifest: text_of(matches, "manifest")?,
        seed: number_in(matches, "seed")?,
        lines: number_in(matches, "lines")?,
        count: is_given(matches, "count"),
        ffa: ffa_in(matches)?,
        verbose: is_given(matches, "verbose"),
    }))
}

// Returns all values of a word, if it has any.
fn texts_of<'m, 'a>(matches: &'m ArgMatches<'a>, id: &str) -> Option<&'m [&'a str]>
    ensures { option_map (λ s. map (λ t. t.now) s.now) result ≡ all_of id.now (rows_of (found_of matches.now)) }
{
    matches.get_strs(id)
}

fn folders_in<'a>(
    alloc: Global,
    matches: &ArgMatches<'a>,
) -> Result<Option<Vec<&'a str>>, AllocError>
    ensures { IfOk result (λ folders. option_map (λ v. map (λ f. f.now) v.items) folders
        ≡ all_of (codes "folder") (rows_of (found_of matches.now))) }
{
    match texts_of(matches, "folder") {
        Some(folders) => Ok(Some(Vec::from_slice(alloc, folders)?)),
        None => Ok(None),
    }
}

#[tactic(auto, unfolding(crate::specs::Commands::test_in))]
fn test_in<'a>(alloc: Global, matches: &ArgMatches<'a>) -> Result<Option<Request<'a>>, AllocError>
    ensures { IfOk result (λ r. option_map ask_of r ≡ test_in (rows_of (found_of matches.now))) }
{
    match (
        folders_in(alloc, matches)?,
        processors_in(matches),
        ffa_in(matches),
    ) {
        (Some(folders), Some(processors), Some(ffa)) => Ok(Some(Request::Test(TestOptions {
            folders,
            tap: is_given(matches, "tap"),
            count: is_given(matches, "count"),
            allow_unguarded: is_given(matches, "allow-unguarded"),
            processors,
            ffa,
            words: is_given(matches, "words"),
        }))),
        _ => Ok(None),
    }
}

#[tactic(auto, unfolding(crate::specs::Commands::lower_in))]
fn lower_in<'a>(matches: &ArgMatches<'a>) -> Option<Request<'a>>
    ensures { option_map ask_of result ≡ lower_in (rows_of (found_of matches.now)) }
{
    let trace = text_of(matches, "trace")?;
    let verbose = is_given(matches, "verbose");
    Some(Request::Lower { trace, verbose })
}

// Returns the request of a command other than `test`.
#[tactic(auto, unfolding(crate::specs::Commands::ask_beside))]
fn request_beside<'a>(name: &str, matches: &ArgMatches<'a>) -> Option<Request<'a>>
    ensures { option_map ask_of result ≡ ask_beside name.now (rows_of (found_of matches.now)) }
{
    if name == "run" {
        play_file_in(matches, print_in(matches))
    } else if name == "demo" {
        play_in(matches, Source::BuiltIn, print_in(matches))
    } else if name == "record" {
        play_file_in(matches, Purpose::Record)
    } else if name == "compare" {
        play_file_in(matches, compare_in(matches)?)
    } else if name == "check" {
        check_in(matches)
    } else if name == "layout" {
        layout_in(matches)
    } else if name == "descriptor" {
        descriptor_in(matches)
    } else if name == "generate" {
        generate_in(matches)
    } else if name == "lower" {
        lower_in(matches)
    } else {
        None
    }
}

#[tactic(auto, unfolding(crate::specs::Commands::ask_in))]
fn request_in<'a>(
    alloc: Global,
    name: &str,
    matches: &ArgMatches<'a>,
) -> Result<Option<Request<'a>>, AllocError>
    ensures { IfOk result (λ r. option_map ask_of r ≡ ask_in name.now (rows_of (found_of matches.now))) }
{
    if name == "test" {
        test_in(alloc, matches)
    } else {
        Ok(request_beside(name, matches))
    }
}

/// Returns the request of the matches, also if two of its paths are standard input or two of its flags exclude each other.
pub(crate) fn request_of<'a>(
    alloc: Global,
    matches: &ArgMatches<'a>,
) -> Result<Option<Request<'a>>, AllocError>
    ensures { IfOk result (λ r. option_map ask_of r ≡ ask_met (subcommand_rows_of matches.now)) }
{
    match matches.subcommand() {
        Some((name, inner)) => request_in(alloc, name, inner),
        None => Ok(None),
    }
}

/// Returns the request of the matches if at most one of its paths is standard input and no two of its flags exclude each
/// other.
pub(crate) fn fit_request_of<'a>(
    alloc: Global,
    matches: &ArgMatches<'a>,
) -> Result<Option<Request<'a>>, AllocError>
    ensures { IfOk result (λ r. option_map ask_of r ≡ asked_in (subcommand_rows_of matches.now)) }
{
    let request = request_of(alloc, matches)?;
    Ok(request.filter(|request| request.reads_once() && request.excludes_none()))
}
