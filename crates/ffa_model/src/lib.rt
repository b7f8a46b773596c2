// SPDX-License-Identifier: MIT OR Apache-2.0
//! The types that all crates share, and in `specs/` the definition of what each operation does. Contracts cite these
//! definitions, which we call the small machine.
#![tactic(auto)]

pub mod call;
pub mod certificate;
pub mod descriptor;
pub mod endpoint;
pub mod flaw;
pub mod function;
pub mod leaf;
pub mod limits;
pub mod manifest;
pub mod operation;
pub mod refusal;
pub mod rights;
pub mod room;
pub mod rows;
pub mod schedule;
pub mod transaction;
pub mod why;

pub use call::{Call, DirectMessage, NotificationBits, Reply, Transfer};
pub use certificate::CertRun;
pub use descriptor::{RelinquishDesc, Response, RetrieveDesc, SendDesc, SentTransaction};
pub use endpoint::{
    Address, Endpoint, EndpointId, PageNo, Properties, Region, Version, regions_until, right_in,
};
pub use flaw::{
    AccessFlaw, CompositeFlaw, FieldPlace, Flaw, HeaderFlaw, RangeFlaw, RelinquishFlaw,
    RetrieveFlaw, SendFlaw,
};
pub use leaf::Leaf;
pub use limits::{
    MOST_BLOCKS, MOST_BUFFER_PAGES, MOST_ENDPOINTS, MOST_HANDLES, MOST_OPEN, MOST_PAGES,
    MOST_PROCESSORS, MOST_RAM, MOST_RANGES, MOST_RECEIVERS, MOST_REGIONS, MOST_SENDS, SlotNumber,
};
pub use manifest::{Ffa, Manifest};
pub use operation::{Act, Effect, ErrorCode, FaultKind, Op, Outcome, Size};
pub use refusal::{Refusal, WORDS};
pub use rights::{Data, Kind, Rights};
pub use room::Room;
pub use rows::{CALLS, CallRow};
pub use schedule::{Status, Work};
pub use transaction::{Handle, Range, Receiver};
pub use why::{About, Grant, Obstacle, Why};
