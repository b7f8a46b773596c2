// SPDX-License-Identifier: MIT OR Apache-2.0
//! The machine on which a generator plays its scenes.
ghost use Rattle.std.specs.Prelude.{◌<◌, length, IfSome};

use crate::{Counts, GenerateError, PAGE, Stage, TraceEntry, fit_store};
use ffa_model::function::FFA_ERROR;
use ffa_model::{Effect, EndpointId, Manifest, Op, Outcome, PageNo, Rights};
use ffa_playable::Readable;
use std::alloc::Allocator;

/// A machine, the lines of a turn, and how often each outcome came.
#[derive(Drop)]
pub struct MachineStage<M: Readable, A: Allocator + Copy> {
    machine: M,
    entries: Vec<TraceEntry, A>,
    room: u64,
    /// Whether there was memory for each line of this turn.
    is_whole: bool,
    counts: Counts,
}

fn is_error(outcome: &Outcome) -> bool {
    match outcome {
        Outcome::Regs { x, .. } => x[0] == u64::from(FFA_ERROR),
        Outcome::Data(_) | Outcome::Done | Outcome::Fault(_) => false,
    }
}

// Returns the page at an address, or `None` if the address is outside RAM.
fn page_at<M: Readable>(machine: &M, address: u64) -> Option<PageNo>
    ensures { IfSome result (λ page. page.0 < length (M.bench machine.now).state.pages) }
{
    let base = u64::from(machine.ram_base().0);
    let offset = address.checked_sub(base)?;
    let page = offset / PAGE;
    if page < u64::from(machine.ram_pages()) {
        Some(PageNo(page as u32))
    } else {
        None
    }
}

impl<M: Readable, A: Allocator + Copy> MachineStage<M, A> {
    /// Returns the stage of a machine of this manifest.
    pub fn new(alloc: A, manifest: &Manifest, machine: M) -> MachineStage<M, A> {
        MachineStage {
            machine,
            entries: Vec::new(alloc),
            room: 0,
            is_whole: true,
            counts: Counts::on(manifest),
        }
    }

    // Adds a line, and returns whether it could. If there is no memory for one line, it adds no line in the rest of the
    // turn.
    fn add(&mut self, entry: TraceEntry) -> bool {
        if !self.is_whole || self.entries.len() as u64 >= self.room {
            return false;
        }
        self.is_whole = self.entries.push(entry).is_ok();
        self.is_whole
    }

    // Counts the outcome of an operation, and the check that refused it. It asks the machine for this check after the
    // operation, since a refusal leaves the machine as it was.
    fn count(&mut self, op: &Op, outcome: &Outcome) {
        let why = if is_error(outcome) {
            self.machine.why(op).map(|its| its.why)
        } else {
            None
        };
        self.counts.count(op, outcome, why);
    }

    /// Ends the stage, and returns how often each outcome came.
    pub fn into_counts(self) -> Counts {
        let MachineStage { counts, .. } = self;
        counts
    }
}

impl<M: Readable, A: Allocator + Copy> Stage for MachineStage<M, A> {
    fn begin(&mut self, most: u64) {
        self.entries.clear();
        self.room = most;
        self.is_whole = true;
    }

    fn entries(&self) -> Result<&[TraceEntry], GenerateError> {
        if self.is_whole {
            Ok(&self.entries)
        } else {
            Err(GenerateError::NoMemory)
        }
    }

    fn put(&mut self, entry: TraceEntry) {
        self.add(entry);
    }

    fn play(&mut self, op: &Op) -> Option<Outcome> {
        let op = fit_store(op);
        if !self.add(TraceEntry::Operation(op)) {
            return None;
        }
        let mut effect = Effect::Outcome(Outcome::Done);
        self.machine.op(&op, &mut effect);
        match effect {
            Effect::Outcome(outcome) => {
                self.count(&op, &outcome);
                Some(outcome)
            }
            Effect::Resumed(_) => None,
        }
    }

    fn runner(&self) -> EndpointId {
        self.machine.runner()
    }

    fn owner_of(&self, address: u64) -> EndpointId {
        match page_at(&self.machine, address) {
            Some(page) => self.machine.owner_of(page),
            None => EndpointId::MANAGER,
        }
    }

    fn access(&self, endpoint: EndpointId, address: u64) -> Option<Rights> {
        let page = page_at(&self.machine, address)?;
        self.machine.access(endpoint, page)
    }

    fn word_at(&self, address: u64) -> Option<u64> {
        let page = page_at(&self.machine, address)?;
        let index = (address % PAGE / 8) as usize;
        Some(self.machine.word_at(page, index))
    }
}
