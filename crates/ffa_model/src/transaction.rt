// SPDX-License-Identifier: MIT OR Apache-2.0
//! The parts of a memory transaction (DEN0077A, 5).

use crate::endpoint::EndpointId;
use crate::rights::Data;

/// The handle of a memory transaction, by which the sender and the receivers name it (DEN0077A, 5.10.2). The high 32
/// bits are the sender's identifier. The low 32 bits number the sender's sends, from 1.
#[derive(Clone, Copy, Debug, PartialEq, Eq, PartialOrd, Ord, Default)]
pub struct Handle(pub u64);

/// Consecutive pages: the address of the first page, and the number of pages.
#[derive(Clone, Copy, Debug, PartialEq, Eq, Default)]
pub struct Range {
    pub address: u64,
    pub pages: u32,
}

/// An endpoint to which a transaction is offered, and the data right that the sender grants to it.
#[derive(Clone, Copy, Debug, PartialEq, Eq, Default)]
pub struct Receiver {
    pub endpoint: EndpointId,
    /// The data right that the sender grants. It is `None` in a donation, where the right of the pages themselves
    /// decides.
    pub grant: Option<Data>,
}
