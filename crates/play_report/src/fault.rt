// SPDX-License-Identifier: MIT OR Apache-2.0
//! The faults of words.
ghost use Rattle.std.specs.Prelude.{◌≡◌};
ghost use Rattle.play_report.specs.Forms.{form_of};

use crate::right::Right;
use ffa_model::Kind;
use std::error::Error;
use std::fmt;

/// A word of the command line of `ffaplay descriptor`. It prints as a user writes it there.
#[derive(Clone, Copy, Debug, PartialEq, Eq)]
pub enum Word {
    Tx,
    From,
    To,
    Pages,
    Handle,
    Tag,
    Of,
    Zero,
    Form,
}

/// The purpose of words: a descriptor and its call, or a reclaim, which has no descriptor. It prints as the command's
/// word.
#[derive(Clone, Copy, Debug, PartialEq, Eq)]
pub enum Form {
    Donate,
    Lend,
    Share,
    Retrieve,
    Relinquish,
    Reclaim,
}

/// The first fault of the words of a descriptor. It prints as one line.
///
/// An unknown kind comes first. Then come words that have no place, and then words that are missing. Last come words
/// that cannot be read, lists with too many members, and rights that have no place. Each of these groups follows the
/// order of `Word`.
#[derive(Clone, Copy, Debug, PartialEq, Eq)]
pub enum WordsFault {
    UnknownKind,
    /// The word has no place in words of this form.
    OutOfPlace(Word, Form),
    /// The word is missing, and a descriptor of this kind or a reclaim needs it.
    Missing(Word),
    /// The word's list has more members than a descriptor of this kind can have.
    TooMany(Word),
    /// An endpoint in `--to` has this right, which has no place in words of this form.
    RightOutOfPlace(Right, Form),
    Unreadable(Word),
}

impl Word {
    fn name(self) -> &'static str {
        match self {
            Word::Tx => "--tx",
            Word::From => "--from",
            Word::To => "--to",
            Word::Pages => "--pages",
            Word::Handle => "--handle",
            Word::Tag => "--tag",
            Word::Of => "--of",
            Word::Zero => "--zero",
            Word::Form => "--form",
        }
    }

    // Returns what the word must be.
    fn form(self) -> &'static str {
        match self {
            Word::Tx => "must be the address of a page, such as 4002E000",
            Word::From => "must be an identifier, such as 8001",
            Word::To => "must be 8002, or 8002:rw with a right",
            Word::Pages => "must be ADDRESS+PAGES, such as 40021000+1",
            Word::Handle | Word::Tag => "must be a hexadecimal number of 1 to 16 digits",
            Word::Of => "must be donate, lend or share",
            Word::Zero => "must be a flag without a value",
            Word::Form => "must be compact, 1.1 or 1.2",
        }
    }
}

impl Form {
    /// Returns the form of a send of this kind.
    pub fn of_send(kind: Kind) -> Form
        ensures { result ≡ form_of kind }
    {
        match kind {
            Kind::Donate => Form::Donate,
            Kind::Lend => Form::Lend,
            Kind::Share => Form::Share,
        }
    }

    fn name(self) -> &'static str {
        match self {
            Form::Donate => "donate",
            Form::Lend => "lend",
            Form::Share => "share",
            Form::Retrieve => "retrieve",
            Form::Relinquish => "relinquish",
            Form::Reclaim => "reclaim",
        }
    }

    // Returns the rights that an endpoint may have in this form, and where other rights are requested.
    fn rights(self) -> &'static str {
        match self {
            Form::Donate => "grants no right; its receiver requests one in the retrieve",
            Form::Lend => "grants ro or rw; a receiver requests execution in the retrieve",
            Form::Share => "grants ro or rw; no receiver of a share may execute",
            Form::Retrieve => "requests ro, rw, rox, rwx or x",
            Form::Relinquish => "takes no right; it releases all that was retrieved",
            Form::Reclaim => "takes no right",
        }
    }

    // Returns what to use instead of a word that cannot be used for this form.
    fn instead(self, word: Word) -> &'static str {
        match (self, word) {
            (Form::Reclaim, _) => ", which takes --handle and --zero",
            (Form::Retrieve, Word::Zero) => {
                ": a donate, lend, relinquish or reclaim with --zero zeroes the pages"
            }
            _ => "",
        }
    }
}

impl fmt::Display for Word {
    fn fmt<W: fmt::Write>(&self, f: &mut fmt::Formatter<W>) -> fmt::Result {
        f.write_str(self.name())
    }
}

impl fmt::Display for Form {
    fn fmt<W: fmt::Write>(&self, f: &mut fmt::Formatter<W>) -> fmt::Result {
        f.write_str(self.name())
    }
}

impl fmt::Display for WordsFault {
    fn fmt<W: fmt::Write>(&self, f: &mut fmt::Formatter<W>) -> fmt::Result {
        match self {
            WordsFault::UnknownKind => write!(
                f,
                "the kind must be donate, lend, share, retrieve, relinquish or reclaim"
            ),
            WordsFault::OutOfPlace(word, form) => {
                let instead = form.instead(*word);
                write!(f, "{word} cannot be used for a {form}{instead}")
            }
            WordsFault::Missing(word) => write!(f, "{word} is missing"),
            WordsFault::TooMany(word) => write!(f, "{word}: too many for this descriptor"),
            WordsFault::RightOutOfPlace(right, form) => {
                let rights = form.rights();
                write!(
                    f,
                    "--to: {right} cannot be used for a {form}, which {rights}"
                )
            }
            WordsFault::Unreadable(word) => write!(f, "{word}: {}", word.form()),
        }
    }
}

impl Error for WordsFault {}
