// SPDX-License-Identifier: MIT OR Apache-2.0
//! The stage on which a generator plays, as the generator sees it. The trait has no clauses, because nothing is proved
//! of the results of operations.
use crate::{GenerateError, TraceEntry};
use ffa_model::{EndpointId, Op, Outcome, Rights};

/// A machine, and the lines of the turn that a generator plays on it. A line cannot be added if the turn has all its
/// lines, or if there is no memory for the line. Then the turn is over. The stage adds and plays nothing more until the
/// next turn.
pub trait Stage {
    /// Begins a turn of at most `most` lines.
    fn begin(&mut self, most: u64);

    /// Returns the lines of this turn. It fails if there was no memory for one of them.
    fn entries(&self) -> Result<&[TraceEntry], GenerateError>;

    /// Adds a line, unless the turn is over.
    fn put(&mut self, entry: TraceEntry);

    /// Plays an operation, adds its line, and returns its outcome. If no line can be added, it plays nothing and
    /// returns `None`.
    fn play(&mut self, op: &Op) -> Option<Outcome>;

    /// Returns the endpoint that runs.
    fn runner(&self) -> EndpointId;

    /// Returns the owner of the page at an address, or the manager if the address is outside RAM.
    fn owner_of(&self, address: u64) -> EndpointId;

    /// Returns what an endpoint may do with the page at an address, or `None` if it has no access.
    fn access(&self, endpoint: EndpointId, address: u64) -> Option<Rights>;

    /// Returns the word of 8 bytes at an address, or `None` if the address is outside RAM.
    fn word_at(&self, address: u64) -> Option<u64>;
}
