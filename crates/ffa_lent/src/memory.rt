// SPDX-License-Identifier: MIT OR Apache-2.0
//! Lent memory, with its history.
ghost use Rattle.std.specs.Prelude.{◌≡◌, ◌<◌, [], length};
ghost use Rattle.std.specs.Borrow.{sem, Lends, Array, u8 as byte};
ghost use Rattle.ffa_model.specs.Ram.{page_of, with_word};
ghost use Rattle.ffa_physmem.specs.FrameRam.{ram_of as frame_ram};

use crate::history::{Done, History};
use crate::lent::Lent;
use ffa_model::PageNo;
use ffa_physmem::{FrameRam, PhysMem, put_word};
use std::alloc::Global;

/// The frames of lent RAM, one page each, and the history of this RAM. A store adds one event to the history, and a
/// loan adds two. So no code outside this file can write to a frame without an event, or lend a page to store one word.
#[derive(Drop)]
pub struct Memory {
    frames: FrameRam<Lent, Global>,
    history: History,
}

impl Memory {
    ghost use Rattle.ffa_lent.specs.contracts.memory.Memory.{the_row};
    ghost use Rattle.ffa_lent.specs.Memory.{with_event, with_frame_bytes};

    // Returns a value with these frames and an empty history.
    pub(crate) fn new(frames: FrameRam<Lent, Global>) -> Memory
        ensures frames { result.frames ≡ frames }
        ensures history { result.history.events ≡ [] }
    {
        Memory {
            frames,
            history: History::new(),
        }
    }

    // Returns the frames.
    pub(crate) fn into_frames(self) -> FrameRam<Lent, Global>
        ensures { result ≡ self.frames }
    {
        self.frames
    }

    // Returns the frames, for reading.
    #[inline(always)]
    pub(crate) fn frames(&self) -> &FrameRam<Lent, Global>
        ensures { result.now ≡ self.now.frames }
    {
        &self.frames
    }

    // Adds an event to the history.
    #[inline(always)]
    pub(crate) fn note(&mut self, done: &Done)
        ensures { self.new ≡ with_event self.old done.now.event }
    {
        self.history = self.history.then(done);
    }

    // Stores a word of a frame, which is one event.
    pub(crate) fn store(&mut self, page: PageNo, index: usize, value: u64, done: &Done)
        requires page { page.0 < length (frame_ram self.old.frames).pages }
        requires index { index < 512 }
        ensures { let old = page_of (frame_ram self.old.frames) page.0 in
            self.new ≡ with_frame_bytes (with_event self.old done.now.event) page.0 (with_word old index value) }
    {
        self.note(done);
        put_word(self.frames.page_mut(page), index, value);
    }

    // Lends the bytes of a frame for writing. A loan adds two events, so that no loan is one step as a store is.
    pub(crate) fn lend(&mut self, page: PageNo, begun: &Done, done: &Done) -> &mut [u8; 4096]
        requires { page.0 < length (frame_ram self.old.frames).pages }
        ensures value { result.now ≡ page_of (frame_ram self.old.frames) page.0 }
        ensures* writes_back { sem 𝓛 (Lends the_row (Array byte 0) self.entry result (with_frame_bytes (with_event (with_event self.old begun.now.event) done.now.event) page.0)) }
    {
        self.note(begun);
        self.note(done);
        self.frames.page_mut(page)
    }
}
