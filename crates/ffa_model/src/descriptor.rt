// SPDX-License-Identifier: MIT OR Apache-2.0
//! The contents of the descriptors of memory transactions (DEN0077A, 5.11 and 16).
ghost use Rattle.std.specs.Prelude.{◌≡◌, []};

use crate::endpoint::EndpointId;
use crate::limits::{MOST_RANGES, MOST_RECEIVERS};
use crate::rights::{Data, Kind, Rights};
use crate::transaction::{Range, Receiver};
use arrayvec::ArrayVec;

/// The contents of a send descriptor, which is the descriptor of FFA_MEM_DONATE, FFA_MEM_LEND or FFA_MEM_SHARE.
#[derive(Drop)]
pub struct SendDesc {
    pub sender: EndpointId,
    /// Whether the manager must zero the pages before it offers them.
    pub zero: bool,
    pub tag: u64,
    pub receivers: ArrayVec<Receiver, MOST_RECEIVERS>,
    pub ranges: ArrayVec<Range, MOST_RANGES>,
}

impl SendDesc {
    /// Returns a send descriptor that has no receivers and no ranges.
    // It is room for a descriptor to read. The list of ranges is costly to clear and to move.
    pub fn none() -> SendDesc
        ensures receivers { result.receivers.items ≡ [] }
        ensures ranges { result.ranges.items ≡ [] }
    {
        SendDesc {
            sender: EndpointId::MANAGER,
            zero: false,
            tag: 0,
            receivers: ArrayVec::new(),
            ranges: ArrayVec::new(),
        }
    }
}

/// The contents of a retrieve descriptor, which is the descriptor of FFA_MEM_RETRIEVE_REQ. A field that the descriptor
/// does not specify is `None`.
#[derive(Clone, Copy)]
pub struct RetrieveDesc {
    pub sender: EndpointId,
    pub handle: u64,
    pub tag: u64,
    pub kind: Option<Kind>,
    pub level: Option<Data>,
    pub exec: bool,
}

/// The contents of a relinquish descriptor, which is the descriptor of FFA_MEM_RELINQUISH.
#[derive(Clone, Copy)]
pub struct RelinquishDesc {
    pub handle: u64,
    /// Whether the manager must zero the pages.
    pub zero: bool,
    pub endpoint: EndpointId,
}

/// The contents of the answer to a retrieve, which is the descriptor of FFA_MEM_RETRIEVE_RESP.
#[derive(Drop)]
pub struct Response {
    pub sender: EndpointId,
    pub kind: Kind,
    /// Whether the manager zeroed the pages before it offered them.
    pub zero: bool,
    /// Whether the answer says that the pages are non-secure.
    pub normal: bool,
    pub handle: u64,
    pub tag: u64,
    /// The caller of the retrieve.
    pub endpoint: EndpointId,
    /// The right to the pages that the caller now has.
    pub rights: Rights,
    pub ranges: ArrayVec<Range, MOST_RANGES>,
}

/// The contents of the answer to a hypervisor's retrieve: a transaction as it was sent, with all receivers.
#[derive(Drop)]
pub struct SentTransaction {
    pub sender: EndpointId,
    pub kind: Kind,
    /// Whether the manager zeroed the pages before it offered them.
    pub zero: bool,
    /// Whether the answer says that the pages are non-secure.
    pub normal: bool,
    pub handle: u64,
    pub tag: u64,
    /// The receivers, each with the data right that the sender granted to it.
    pub receivers: ArrayVec<Receiver, MOST_RECEIVERS>,
    pub ranges: ArrayVec<Range, MOST_RANGES>,
}
