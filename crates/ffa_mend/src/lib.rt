// SPDX-License-Identifier: MIT OR Apache-2.0
//! Describes what to change after a refusal: a fact of the machine, or the values that would pass. Only diagnostics
//! use it, and no call does.
#![tactic(auto)]

mod allowed;
mod explained;

pub use allowed::Allowed;
pub use explained::Explained;
use ffa_model::{EndpointId, Kind, Rights, Version, Work};

/// A fact that a machine reports of a refused operation, besides the reason.
#[derive(Clone, Copy)]
pub enum Mend {
    /// The page is in this buffer of an endpoint.
    Buffer {
        endpoint: EndpointId,
        side: Side,
    },
    /// The owner's own right to the page.
    OwnRight(Rights),
    /// The owner's own right to the page, to which the call grants more: to read and write.
    Granted(Rights),
    /// The right of an endpoint at the address.
    Access {
        endpoint: EndpointId,
        right: Rights,
    },
    /// The caller, if the call names another endpoint.
    Caller(EndpointId),
    /// The sender of the transaction, if the call names another endpoint, or if another endpoint is the caller.
    Sender(EndpointId),
    /// The tag that the call names, and the tag of the transaction.
    Tag {
        found: u64,
        wanted: u64,
    },
    /// The kind that the call names, and the kind of the transaction.
    Kind {
        found: Kind,
        wanted: Kind,
    },
    /// The right that the call requests, and the most that the caller may get.
    Asked {
        asked: Rights,
        most: Rights,
    },
    /// The right by which the caller holds the transaction.
    Held(Rights),
    /// The number of bytes of the buffer.
    Room(u64),
    /// The only value that the register may have.
    Wanted(u64),
    /// The caller and its version, if a header has the form of another version.
    Form {
        caller: EndpointId,
        version: Version,
    },
    /// A word of a message's header: the place of its first byte, and the number in it.
    Word {
        place: u32,
        value: u32,
    },
    /// The place at which a message begins in its buffer, and its number of bytes, both by its header, and the number
    /// of bytes of the buffer.
    Message {
        offset: u32,
        size: u32,
        room: u64,
    },
    /// The address of the first page of a range or a buffer that is not a page of RAM.
    Outside(u64),
    /// The first receiver that holds the transaction.
    Holder(EndpointId),
    /// The work of the caller.
    Works(Work),
    /// The lowest bit that is pending.
    Pending(u32),
    /// The one of two causes that the check has.
    Cause(Cause),
}

/// A buffer of an endpoint.
#[derive(Clone, Copy, PartialEq, Eq)]
pub enum Side {
    Tx,
    Rx,
}

/// The one of two causes that a check has.
#[derive(Clone, Copy, PartialEq, Eq)]
pub enum Cause {
    /// The caller has no buffers.
    BuffersMissing,
    /// The caller's RX is not full.
    RxNotFull,
    /// The bit is pending.
    BitPending,
    /// Another sender has the bit.
    BitTaken,
    /// The sender does not have the bit.
    BitUnbound,
    /// No open transaction has the handle.
    HandleUnknown,
    /// The caller is not a receiver of the transaction.
    NotReceiver,
    /// The transaction is not a lend.
    NotLent,
    /// The normal world has created no bitmaps.
    BitmapsUncreated,
    /// The manifest gives the partition no notifications.
    NotificationsUnreceived,
    /// All pages are secure, and the normal world is a receiver.
    SecureToNormal,
    /// Some pages are secure, and some are not.
    PagesOfBothWorlds,
}
