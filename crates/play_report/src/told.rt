// SPDX-License-Identifier: MIT OR Apache-2.0
//! The meaning of the words of a descriptor.
ghost use Rattle.std.specs.Prelude.{◌≡◌, ◌%◌, IfOk, option_map, is_some};
ghost use Rattle.play_arguments.specs.Commands.{words_of};
ghost use Rattle.play_report.specs.Told.{Exact, HasAlignedTx, asked, asker_in, at_most, endpoint_in, handle_in, only_rights, require, of_in, ranges_in, receivers_in, reclaim_told, relinquish_told, retrieve_told, send_told, sender_in, tag_in, told, tx_in, refuse, version_in};

use crate::fault::{Form, Word, WordsFault};
use crate::members::{
    Asker, first_misplaced, read_asker, read_identifier, read_kind, read_ranges, read_receivers,
    read_tx, read_version,
};
use crate::parts::{commas, number};
use arrayvec::ArrayVec;
use ffa_model::{
    Address, EndpointId, Kind, MOST_RANGES, MOST_RECEIVERS, Range, Receiver, RelinquishDesc,
    RetrieveDesc, SendDesc, Version,
};
use play_arguments::DescriptorWords;
use play_trace::{DescriptorContents, Reclaim};

/// The meaning of words: a descriptor, the version in whose form it is written, and the address of TX.
#[derive(Drop)]
pub struct Told {
    pub version: Version,
    pub descriptor: DescriptorContents,
    /// The address of TX, which is a multiple of 4096.
    pub tx: Address,
}

/// The request of words: a descriptor and its call, or a call that has no descriptor.
#[derive(Drop)]
pub enum Asked {
    Descriptor(Told),
    Reclaim(Reclaim),
}

/// Reads the words of a descriptor or of a reclaim. If a word is wrong, it returns the first fault.
///
/// Numbers are hexadecimal, of 1 to 16 digits, and may have `0x` or `0X` before them. Each descriptor needs the address
/// of TX. It may have a form, which is the form of FF-A 1.1 if the words give no form.
///
/// - A donate, a lend and a share need the sender, the receivers and the pages. They may have a tag, and may be zeroed.
///   A receiver of a lend or a share has a right to data, which the writer checks.
/// - A retrieve needs the sender, the one receiver and the handle. The receiver may have a right to data and to
///   instructions. The retrieve may have a tag and the kind of the transaction.
/// - A relinquish needs the one receiver and the handle, and may be zeroed.
/// - A reclaim needs only the handle, and may be zeroed.
#[tactic(auto, unfolding(crate::specs::Told::asked))]
pub fn read_words(words: &DescriptorWords<'_>) -> Result<Asked, WordsFault>
    ensures asked { result ≡ asked (words_of words.now) }
    ensures aligned { IfOk result HasAlignedTx }
{
    if words.kind == "reclaim" {
        Ok(Asked::Reclaim(reclaim(words)?))
    } else {
        Ok(Asked::Descriptor(descriptor(words)?))
    }
}

#[tactic(auto, unfolding(crate::specs::Told::told))]
fn descriptor(words: &DescriptorWords<'_>) -> Result<Told, WordsFault>
    ensures told { result ≡ told (words_of words.now) }
    ensures aligned { IfOk result (λ t. t.tx.0 % 4096 ≡ 0) }
{
    match words.kind {
        "retrieve" => retrieve(words),
        "relinquish" => relinquish(words),
        kind => match read_kind(kind) {
            None => Err(WordsFault::UnknownKind),
            Some(kind) => send(kind, words),
        },
    }
}

#[tactic(auto, unfolding(crate::specs::Told::send_told))]
fn send(kind: Kind, words: &DescriptorWords<'_>) -> Result<Told, WordsFault>
    ensures told { result ≡ send_told kind (words_of words.now) }
    ensures aligned { IfOk result (λ t. t.tx.0 % 4096 ≡ 0) }
{
    let form = Form::of_send(kind);
    refuse(form, Word::Handle, words.handle.is_some())?;
    refuse(form, Word::Of, words.of.is_some())?;
    let tx = require(Word::Tx, words.tx)?;
    let from = require(Word::From, words.from)?;
    let to = require(Word::To, words.to)?;
    let pages = require(Word::Pages, words.pages)?;
    let tx = tx_in(tx)?;
    let desc = SendDesc {
        sender: sender_in(from)?,
        zero: words.zero,
        receivers: receivers_in(form, to)?,
        ranges: ranges_in(pages)?,
        tag: tag_in(words)?,
    };
    Ok(Told {
        version: version_in(words)?,
        descriptor: DescriptorContents::Send { kind, desc },
        tx,
    })
}

#[tactic(auto, unfolding(crate::specs::Told::retrieve_told))]
fn retrieve(words: &DescriptorWords<'_>) -> Result<Told, WordsFault>
    ensures told { result ≡ retrieve_told (words_of words.now) }
    ensures aligned { IfOk result (λ t. t.tx.0 % 4096 ≡ 0) }
{
    refuse(Form::Retrieve, Word::Pages, words.pages.is_some())?;
    refuse(Form::Retrieve, Word::Zero, words.zero)?;
    let tx = require(Word::Tx, words.tx)?;
    let from = require(Word::From, words.from)?;
    let to = require(Word::To, words.to)?;
    let handle = require(Word::Handle, words.handle)?;
    let tx = tx_in(tx)?;
    let sender = sender_in(from)?;
    let asker = asker_in(to)?;
    let desc = RetrieveDesc {
        sender,
        handle: handle_in(handle)?,
        tag: tag_in(words)?,
        kind: of_in(words)?,
        level: asker.level,
        exec: asker.exec,
    };
    Ok(Told {
        version: version_in(words)?,
        descriptor: DescriptorContents::Retrieve {
            desc,
            receiver: asker.endpoint,
        },
        tx,
    })
}

#[tactic(auto, unfolding(crate::specs::Told::relinquish_told))]
fn relinquish(words: &DescriptorWords<'_>) -> Result<Told, WordsFault>
    ensures told { result ≡ relinquish_told (words_of words.now) }
    ensures aligned { IfOk result (λ t. t.tx.0 % 4096 ≡ 0) }
{
    refuse(Form::Relinquish, Word::From, words.from.is_some())?;
    refuse(Form::Relinquish, Word::Pages, words.pages.is_some())?;
    refuse(Form::Relinquish, Word::Tag, words.tag.is_some())?;
    refuse(Form::Relinquish, Word::Of, words.of.is_some())?;
    let tx = require(Word::Tx, words.tx)?;
    let to = require(Word::To, words.to)?;
    let handle = require(Word::Handle, words.handle)?;
    let tx = tx_in(tx)?;
    let endpoint = endpoint_in(to)?;
    let desc = RelinquishDesc {
        handle: handle_in(handle)?,
        zero: words.zero,
        endpoint,
    };
    Ok(Told {
        version: version_in(words)?,
        descriptor: DescriptorContents::Relinquish(desc),
        tx,
    })
}

#[tactic(auto, unfolding(crate::specs::Told::reclaim_told))]
fn reclaim(words: &DescriptorWords<'_>) -> Result<Reclaim, WordsFault>
    ensures { result ≡ reclaim_told (words_of words.now) }
{
    refuse(Form::Reclaim, Word::Tx, words.tx.is_some())?;
    refuse(Form::Reclaim, Word::From, words.from.is_some())?;
    refuse(Form::Reclaim, Word::To, words.to.is_some())?;
    refuse(Form::Reclaim, Word::Pages, words.pages.is_some())?;
    refuse(Form::Reclaim, Word::Tag, words.tag.is_some())?;
    refuse(Form::Reclaim, Word::Of, words.of.is_some())?;
    refuse(Form::Reclaim, Word::Form, words.form.is_some())?;
    let handle = require(Word::Handle, words.handle)?;
    Ok(Reclaim {
        handle: handle_in(handle)?,
        zero: words.zero,
    })
}

fn refuse(form: Form, word: Word, is_given: bool) -> Result<(), WordsFault>
    ensures { result ≡ refuse form word is_given }
{
    if is_given {
        Err(WordsFault::OutOfPlace(word, form))
    } else {
        Ok(())
    }
}

fn require<'a>(word: Word, given: Option<&'a str>) -> Result<&'a str, WordsFault>
    ensures { Exact (λ s. s.now) result (require word (option_map (λ s. s.now) given.entry)) }
{
    given.ok_or(WordsFault::Missing(word))
}

// Refuses a list that has more than `most` members.
fn at_most(most: usize, word: Word, text: &str) -> Result<(), WordsFault>
    ensures { result ≡ at_most most word text.now }
{
    if commas(text) < most {
        Ok(())
    } else {
        Err(WordsFault::TooMany(word))
    }
}

// Refuses a list of endpoints with a right that has no place in this form.
fn only_rights(form: Form, text: &str) -> Result<(), WordsFault>
    ensures { result ≡ only_rights form text.now }
{
    match first_misplaced(form, text) {
        None => Ok(()),
        Some(right) => Err(WordsFault::RightOutOfPlace(right, form)),
    }
}

#[tactic(auto, unfolding(crate::specs::Told::tx_in))]
fn tx_in(text: &str) -> Result<Address, WordsFault>
    ensures value { result ≡ tx_in text.now }
    ensures aligned { IfOk result (λ a. a.0 % 4096 ≡ 0) }
{
    read_tx(text).ok_or(WordsFault::Unreadable(Word::Tx))
}

#[tactic(auto, unfolding(crate::specs::Told::sender_in))]
fn sender_in(text: &str) -> Result<EndpointId, WordsFault>
    ensures { result ≡ sender_in text.now }
{
    read_identifier(text).ok_or(WordsFault::Unreadable(Word::From))
}

#[tactic(auto, unfolding(crate::specs::Told::handle_in))]
fn handle_in(text: &str) -> Result<u64, WordsFault>
    ensures { result ≡ handle_in text.now }
{
    number(text).ok_or(WordsFault::Unreadable(Word::Handle))
}

#[tactic(auto, unfolding(crate::specs::Told::tag_in))]
fn tag_in(words: &DescriptorWords<'_>) -> Result<u64, WordsFault>
    ensures { result ≡ tag_in (words_of words.now) }
{
    match words.tag {
        None => Ok(0),
        Some(text) => number(text).ok_or(WordsFault::Unreadable(Word::Tag)),
    }
}

#[tactic(auto, unfolding(crate::specs::Told::of_in))]
fn of_in(words: &DescriptorWords<'_>) -> Result<Option<Kind>, WordsFault>
    ensures { result ≡ of_in (words_of words.now) }
{
    let Some(text) = words.of else {
        return Ok(None);
    };
    match read_kind(text) {
        None => Err(WordsFault::Unreadable(Word::Of)),
        Some(kind) => Ok(Some(kind)),
    }
}

#[tactic(auto, unfolding(crate::specs::Told::version_in))]
fn version_in(words: &DescriptorWords<'_>) -> Result<Version, WordsFault>
    ensures { result ≡ version_in (words_of words.now) }
{
    match words.form {
        None => Ok(Version::V1_1),
        Some(text) => read_version(text).ok_or(WordsFault::Unreadable(Word::Form)),
    }
}

#[tactic(auto, unfolding(crate::specs::Told::receivers_in))]
fn receivers_in(form: Form, text: &str) -> Result<ArrayVec<Receiver, MOST_RECEIVERS>, WordsFault>
    ensures { Exact (λ rs. rs.items) result (receivers_in form text.now) }
{
    at_most(MOST_RECEIVERS, Word::To, text)?;
    only_rights(form, text)?;
    read_receivers(text).ok_or(WordsFault::Unreadable(Word::To))
}

#[tactic(auto, unfolding(crate::specs::Told::ranges_in))]
fn ranges_in(text: &str) -> Result<ArrayVec<Range, MOST_RANGES>, WordsFault>
    ensures { Exact (λ rs. rs.items) result (ranges_in text.now) }
{
    at_most(MOST_RANGES, Word::Pages, text)?;
    read_ranges(text).ok_or(WordsFault::Unreadable(Word::Pages))
}

#[tactic(auto, unfolding(crate::specs::Told::asker_in))]
fn asker_in(text: &str) -> Result<Asker, WordsFault>
    ensures { result ≡ asker_in text.now }
{
    at_most(1, Word::To, text)?;
    read_asker(text).ok_or(WordsFault::Unreadable(Word::To))
}

#[tactic(auto, unfolding(crate::specs::Told::endpoint_in))]
fn endpoint_in(text: &str) -> Result<EndpointId, WordsFault>
    ensures { result ≡ endpoint_in text.now }
{
    at_most(1, Word::To, text)?;
    only_rights(Form::Relinquish, text)?;
    read_identifier(text).ok_or(WordsFault::Unreadable(Word::To))
}
