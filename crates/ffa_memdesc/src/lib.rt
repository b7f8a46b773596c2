// SPDX-License-Identifier: MIT OR Apache-2.0
//! Reads descriptors of memory transactions, and writes responses of retrieves (DEN0077A, 5.11, 16). The descriptors
//! are in TX, and the responses are in RX.
#![tactic(auto)]

// The bytes that readers read, and the numbers that writers put.
mod bytes;
pub mod put;

// The parts of descriptors.
mod access;
mod header;
mod names;
pub mod parts;
mod ranges;
mod receivers;

// The descriptors, with the conditions that refuse bytes.
mod hypervisor;
mod relinquish;
mod respond;
mod retrieve;
mod send;

// Proofs that bytes fit at most one descriptor of a kind.
mod laws;

// The reasons why bytes are not a descriptor. They are for diagnostics only.
mod reasons;

pub use bytes::Bytes;
pub use ffa_model::{
    FieldPlace, Flaw, RelinquishDesc, Response, RetrieveDesc, SendDesc, SentTransaction,
};
pub use hypervisor::{handle_of_header, has_no_access, read_handle_alone};
pub use laws::{one_record, told_places};
pub use names::names_receivers;
pub use reasons::{field_value, flaw_place};
pub use relinquish::read_relinquish;
pub use respond::{write_response, write_sent};
pub use retrieve::read_retrieve;
pub use send::read_send;
