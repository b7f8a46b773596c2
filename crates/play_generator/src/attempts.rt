// SPDX-License-Identifier: MIT OR Apache-2.0
//! The comments of a trace, which say in words what an endpoint tries.
ghost use Rattle.std.specs.Prelude.{◌≡◌, ◌++◌, OnOk};
ghost use Rattle.play_trace.specs.TraceText.{ended, hex, spaced};
ghost use Rattle.play_generator.specs.Attempts.{attempt_text, change_words, deed_words, other_words};

use ffa_model::EndpointId;
use play_trace::text::{self, Text};
use std::alloc::{AllocError, Allocator};

/// A deed of an endpoint: what it does or tries to do.
#[derive(Clone, Copy, PartialEq, Eq)]
pub enum Deed {
    Setup,
    Information,
    NoCall,
    Map,
    Unmap,
    Release,
    Wait,
    Yield,
    Run,
    HandOver,
    Request,
    Respond,
    Message,
    Share,
    Lend,
    Donate,
    Retrieve,
    ReadBack,
    Relinquish,
    Reclaim,
    CreateBitmaps,
    DestroyBitmaps,
    Bind,
    Unbind,
    SetBits,
    GetBits,
    AskNotices,
    Access,
    ReadTx,
    ReadRx,
    ReadPages,
    Show,
}

/// The way in which a deed is wrong, or differs from its usual form.
#[derive(Clone, Copy, PartialEq, Eq)]
pub enum Change {
    Nothing,
    NoBuffers,
    BuffersThere,
    PageCount,
    TxMisplaced,
    RxMisplaced,
    Overlap,
    TxUnfit,
    RxUnfit,
    NotZero,
    OfAnother,
    NobodysUuid,
    Length,
    Fragment,
    TooLong,
    BufferAddress,
    BufferPages,
    Field,
    Sender,
    Stranger,
    Oneself,
    Swapped,
    NormalWorld,
    Outside,
    UnfitPage,
    Grant,
    Zeros,
    Full,
    ReadOnly,
    Handle,
    Tag,
    Kind,
    Right,
    HeldAlready,
    NotOffered,
    NotHeld,
    StillHeld,
    NotOwn,
    AllNamed,
    OneNamed,
    AllNamedAsOne,
    OthersNamed,
    Flags,
    Reserved,
    InHeader,
    NoBytes,
    BeyondTx,
    AboveRx,
    RxFull,
    NoBitmaps,
    NoBit,
    Taken,
    Context,
    Contexts,
    Classes,
    Pending,
}

/// An attempt of an endpoint, with its deed and what is wrong with the deed.
#[derive(Clone, Copy)]
pub struct Attempt {
    /// The endpoint that runs.
    pub actor: EndpointId,
    pub deed: Deed,
    /// The endpoint to which the actor does the deed, if the words of the deed name one.
    pub other: Option<EndpointId>,
    pub change: Change,
}

/// Appends a comment to a text. The comment says what an endpoint tries. Fails if there is no memory.
pub(crate) fn put_attempt<A: Allocator>(
    text: &mut Vec<u8, A>,
    attempt: &Attempt,
) -> Result<(), AllocError>
    ensures { OnOk result (text.new.items ≡ text.old.items ++ ended (attempt_text attempt.now)) }
{
    put(text, "#")?;
    put_endpoint(text, attempt.actor)?;
    put(text, deed_words(attempt.deed))?;
    put_other(text, attempt.other)?;
    put(text, change_words(attempt.change))?;
    put(text, "\n")
}

fn put<A: Allocator>(text: &mut Vec<u8, A>, words: &str) -> Result<(), AllocError>
    ensures { OnOk result (text.new.items ≡ text.old.items ++ words.now) }
{
    text.extend_from_slice(words.as_bytes())
}

fn put_endpoint<A: Allocator>(text: &mut Vec<u8, A>, endpoint: EndpointId) -> Result<(), AllocError>
    ensures { OnOk result (text.new.items ≡ text.old.items ++ spaced (hex 4 endpoint.0)) }
{
    let mut word = Text::new();
    text::push_hex(&mut word, 4, u64::from(endpoint.0));
    text.extend_from_slice(word.as_slice())
}

fn put_other<A: Allocator>(
    text: &mut Vec<u8, A>,
    other: Option<EndpointId>,
) -> Result<(), AllocError>
    ensures { OnOk result (text.new.items ≡ text.old.items ++ other_words other) }
{
    match other {
        Some(endpoint) => put_endpoint(text, endpoint),
        None => Ok(()),
    }
}

fn deed_words(deed: Deed) -> &'static str
    ensures { result.now ≡ deed_words deed }
{
    match deed {
        Deed::Setup => " makes a setup call",
        Deed::Information => " requests partition information",
        Deed::NoCall => " makes an unknown call",
        Deed::Map => " maps buffers",
        Deed::Unmap => " unmaps its buffers",
        Deed::Release => " releases its RX",
        Deed::Wait => " waits",
        Deed::Yield => " yields",
        Deed::Run => " runs",
        Deed::HandOver => " passes control to",
        Deed::Request => " sends a direct request to",
        Deed::Respond => " responds to the direct request of",
        Deed::Message => " sends a message to",
        Deed::Share => " shares pages with",
        Deed::Lend => " lends pages to",
        Deed::Donate => " donates pages to",
        Deed::Retrieve => " retrieves pages of",
        Deed::ReadBack => " reads back a transaction of",
        Deed::Relinquish => " relinquishes pages of",
        Deed::Reclaim => " reclaims its pages",
        Deed::CreateBitmaps => " creates notification bitmaps",
        Deed::DestroyBitmaps => " destroys notification bitmaps",
        Deed::Bind => " binds notification bits to",
        Deed::Unbind => " unbinds notification bits from",
        Deed::SetBits => " sets notification bits of",
        Deed::GetBits => " gets pending notifications",
        Deed::AskNotices => " asks which endpoints have pending notifications",
        Deed::Access => " accesses memory",
        Deed::ReadTx => " reads back its TX",
        Deed::ReadRx => " reads its RX",
        Deed::ReadPages => " reads pages of",
        Deed::Show => " asks for the access of every endpoint",
    }
}

fn change_words(change: Change) -> &'static str
    ensures { result.now ≡ change_words change }
{
    match change {
        Change::Nothing => "",
        Change::NoBuffers => ", without buffers",
        Change::BuffersThere => ", with buffers that are already mapped",
        Change::PageCount => ", with an invalid page count",
        Change::TxMisplaced => ", with TX unaligned or outside RAM",
        Change::RxMisplaced => ", with RX unaligned or outside RAM",
        Change::Overlap => ", with RX at the address of TX",
        Change::TxUnfit => ", with TX where it is not allowed",
        Change::RxUnfit => ", with RX where it is not allowed",
        Change::NotZero => ", with an endpoint other than 0",
        Change::OfAnother => ", of another endpoint",
        Change::NobodysUuid => ", with an unknown UUID",
        Change::Length => ", with a wrong length",
        Change::Fragment => ", as a fragment",
        Change::TooLong => ", with a length greater than TX",
        Change::BufferAddress => ", with a buffer address",
        Change::BufferPages => ", with a buffer page count",
        Change::Field => ", with a changed field",
        Change::Sender => ", with a wrong sender",
        Change::Stranger => ", which does not exist",
        Change::Oneself => ", which is itself",
        Change::Swapped => ", with sender and receiver swapped",
        Change::NormalWorld => ", which is the normal world",
        Change::Outside => ", with a range outside RAM",
        Change::UnfitPage => ", with a page that it cannot send",
        Change::Grant => ", with a grant above its own right",
        Change::Zeros => ", with zeroing that it may not request",
        Change::Full => ", at the limit of open transactions",
        Change::ReadOnly => ", with a page that it may only read",
        Change::Handle => ", with a wrong handle",
        Change::Tag => ", with a wrong tag",
        Change::Kind => ", as a wrong kind",
        Change::Right => ", with a right above its grant",
        Change::HeldAlready => ", which it already holds",
        Change::NotOffered => ", which are not offered to it",
        Change::NotHeld => ", which it does not hold",
        Change::StillHeld => ", which a receiver still holds",
        Change::NotOwn => ", which it did not send",
        Change::AllNamed => ", with the names of all receivers",
        Change::OneNamed => ", with its own name and bit 10 of the flags",
        Change::AllNamedAsOne => ", with the names of all receivers and bit 10 of the flags",
        Change::OthersNamed => ", with the name of a wrong receiver",
        Change::Flags => ", with a flag that must be 0",
        Change::Reserved => ", with a reserved field set",
        Change::InHeader => ", which begins in its header",
        Change::NoBytes => ", with no bytes",
        Change::BeyondTx => ", which ends after TX",
        Change::AboveRx => ", which is longer than the receiver's RX",
        Change::RxFull => ", with RX full",
        Change::NoBitmaps => ", without bitmaps",
        Change::NoBit => ", with no bit set",
        Change::Taken => ", which are bound to another sender",
        Change::Context => ", with a context that does not exist",
        Change::Contexts => ", with a context count other than 1",
        Change::Classes => ", with an unknown class",
        Change::Pending => ", while a notification is pending",
    }
}
