// SPDX-License-Identifier: MIT OR Apache-2.0
//! The lists of changes that the generator goes through in turn.
use crate::Change;
use crate::offers::Wish;
use ffa_model::Kind;

macro_rules! changes {
    ($($change:ident)*) => { [$(Change::$change),*] };
}

// A list of pairs: a variant of another type, and a change.
macro_rules! pairs {
    ($other:ident: $($variant:ident $change:ident,)*) => { [$(($other::$variant, Change::$change)),*] };
}

/// The kinds of sends.
pub(crate) const KINDS: [Kind; 3] = [Kind::Share, Kind::Lend, Kind::Donate];

/// The changes of a send. The generator makes each change with each kind in turn.
pub(crate) const SENDS: [Change; 13] = changes![
    Field Length Sender UnfitPage Fragment Stranger Field TooLong Outside BufferAddress Field BufferPages NoBuffers
];

/// The changes of a send of a page that the sender may only read, with the kind of the send.
pub(crate) const READ_ONLY_SENDS: [(Kind, Change); 6] = pairs![Kind:
    Share ReadOnly, Lend Grant, Donate Zeros, Lend ReadOnly, Share Grant, Lend Zeros,
];

pub(crate) const RETRIEVES: [Change; 13] = changes![
    Field Fragment Sender Handle Length Tag Kind Right TooLong Field BufferAddress NoBuffers BufferPages
];

/// The changes of the endpoints that a retrieve names.
pub(crate) const NAMES: [Change; 6] =
    changes![AllNamed OthersNamed AllNamed OneNamed OthersNamed AllNamedAsOne];

pub(crate) const RELINQUISHES: [Change; 8] =
    changes![Nothing NotHeld Zeros Handle Nothing Sender Nothing Field];

/// The changes of a reclaim, with the transaction that it names.
pub(crate) const RECLAIMS: [(Wish, Change); 6] = pairs![Wish:
    OwnFree Nothing, OwnFree Handle, OwnFree Nothing, OwnFree Flags, OwnHeld StillHeld, ToTake NotOwn,
];

/// The changes of a hypervisor's retrieve, with the transaction that it names.
pub(crate) const READ_BACKS: [(Wish, Change); 7] = pairs![Wish:
    OwnFree Nothing, ToTake NotOwn, OwnHeld Nothing, OwnFree Field, OwnFree Nothing, OwnHeld Handle, OfOthers NotOwn,
];

/// The changes of an indirect message (FFA_MSG_SEND2).
pub(crate) const MESSAGES: [Change; 18] = changes![
    Nothing Flags Nothing Reserved Sender Nothing Stranger Oneself Nothing InHeader NoBytes Nothing BeyondTx AboveRx Field
    Nothing NoBuffers AboveRx
];

/// The changes of a call on the bits of notifications.
pub(crate) const BITS: [Change; 5] = changes![Swapped Stranger Oneself Flags NoBit];
