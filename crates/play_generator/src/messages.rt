// SPDX-License-Identifier: MIT OR Apache-2.0
//! Direct messages, run states and indirect messages.
use crate::changes::MESSAGES;
use crate::descriptors::{PAGE_SIZE, Page};
use crate::dice::draw_fitting;
use crate::generator::{Generator, function_of, pair};
use crate::stage::Stage;
use crate::{Change, Deed};
use byteorder::{ByteOrder, LittleEndian};
use ffa_model::{EndpointId, Properties, Work};

/// The size of the header of an indirect message in bytes, up to a multiple of 8.
const START: u32 = 24;

/// The number of bytes of an indirect message that the runner writes: the header and the first word.
const LENGTH: u32 = 32;

impl<'m, S: Stage + Drop> Generator<'m, S> {
    /// Plays the direct message of a deed in either form, with any payload.
    pub(crate) fn direct(&mut self, deed: Deed, from: EndpointId, to: EndpointId, flags: u64) {
        let function = self.dice.either(function_of(deed));
        let first = self.dice.word();
        let second = self.dice.word() % 256;
        self.call(function, &[pair(from, to.0), flags, first, second]);
    }

    /// Plays FFA_RUN, FFA_MSG_WAIT or FFA_YIELD, which succeed or are refused.
    pub(crate) fn play_state(&mut self) {
        let other = self.any_endpoint();
        match self.dice.below(6) {
            0 => self.attempt(Deed::Wait, None, Change::Nothing, &[]),
            1 => self.attempt(Deed::Yield, None, Change::Nothing, &[]),
            _ => {
                let (change, target, context) = match self.rounds.runs.below(3) {
                    0 => (Change::Context, other, 1),
                    1 => (Change::Nothing, other, 0),
                    _ => (Change::Stranger, EndpointId::MANAGER, 0),
                };
                self.attempt(Deed::Run, Some(target), change, &[pair(target, context)])
            }
        };
    }

    /// Plays a direct request, in the right form or with something changed.
    pub(crate) fn play_request(&mut self) {
        let runner = self.runner();
        let other = self.another();
        let (change, sender, receiver, flags) = match self.dice.below(11) {
            1 => (Change::Sender, other, runner, 0),
            3 => (Change::Flags, runner, other, 1),
            5 => (Change::Stranger, runner, EndpointId::MANAGER, 0),
            7 => (Change::Oneself, runner, runner, 0),
            9 => (Change::NormalWorld, runner, EndpointId::NORMAL_WORLD, 0),
            _ => (Change::Nothing, runner, other, 0),
        };
        self.announce(Deed::Request, Some(receiver), change);
        self.direct(Deed::Request, sender, receiver, flags);
    }

    /// Plays a direct response, in the right form or with something changed.
    pub(crate) fn play_response(&mut self) {
        let runner = self.runner();
        let other = self.another();
        let asker = match self.known_of(runner).work {
            Some(Work::Request(sender)) => sender,
            Some(Work::Run) | None => EndpointId::NORMAL_WORLD,
        };
        let (change, sender, receiver, flags) = match self.dice.below(5) {
            1 => (Change::Swapped, asker, runner, 0),
            3 => (Change::Flags, runner, asker, 1),
            4 => (Change::Sender, other, other, 0),
            _ => (Change::Nothing, runner, asker, 0),
        };
        self.announce(Deed::Respond, Some(asker), change);
        self.direct(Deed::Respond, sender, receiver, flags);
    }

    /// Plays an indirect message, in the right form or with something changed.
    pub(crate) fn play_message(&mut self) {
        let change = self.rounds.messages.next_of(&MESSAGES);
        if change == Change::NoBuffers {
            return self.attempt_without_buffers(Deed::Message, &[]);
        }
        if change == Change::AboveRx {
            self.unmap_any();
            self.map(2);
        }
        if !self.need_buffers() {
            return;
        }
        let mut page = [0; PAGE_SIZE];
        let receiver = self.write_message(change, &mut page);
        let to = Some(receiver);
        let answer = self.attempt_by_tx(Deed::Message, to, change, &mut page, LENGTH, &[]);
        if answer.is_some() {
            self.known_mut(receiver).fill_rx(LENGTH);
        }
        self.read_tx();
    }

    // Writes the header and the first word of the runner's message into a page, and returns its receiver.
    fn write_message(&mut self, change: Change, page: &mut Page) -> EndpointId {
        let pages = self.buffers().map_or(1, |it| it.tx.pages);
        let receiver = match change {
            Change::AboveRx => self.smaller_receiver(pages),
            _ => self.message_receiver(),
        };
        let receiver = match change {
            Change::Stranger => EndpointId::MANAGER,
            Change::Oneself => self.runner(),
            _ => receiver,
        };
        let size = self.message_size(change, pages);
        let is_inside = change == Change::InHeader;
        let start = if is_inside { 16 } else { START };
        LittleEndian::write_u32(page, u32::from(change == Change::Flags));
        LittleEndian::write_u32(&mut page[4..], u32::from(change == Change::Reserved));
        LittleEndian::write_u32(&mut page[8..], start);
        LittleEndian::write_u16(&mut page[12..], receiver.0);
        LittleEndian::write_u16(&mut page[14..], self.sender(change).0);
        LittleEndian::write_u32(&mut page[16..], size);
        LittleEndian::write_u64(&mut page[24..], self.dice.word());
        receiver
    }

    // Returns the size in bytes of a message of the runner, whose TX has this number of pages.
    fn message_size(&mut self, change: Change, pages: u32) -> u32 {
        let room = PAGE_SIZE as u32 - START;
        let size = match self.dice.below(6) {
            0 => room,
            1 | 2 if pages > 1 => room + 1,
            _ => 1 + self.dice.below(64),
        };
        match change {
            Change::NoBytes => 0,
            Change::BeyondTx => 0x1_0000,
            Change::AboveRx => pages.wrapping_mul(PAGE_SIZE as u32).wrapping_sub(START),
            _ => size,
        }
    }

    // Returns the receiver of a message that is too large for its RX: if a few tries find one, an endpoint whose RX is
    // empty and smaller than this number of pages.
    fn smaller_receiver(&mut self, pages: u32) -> EndpointId {
        draw_fitting! { receiver = self.message_receiver();
            self.known_of(receiver).buffers.is_some_and(|it| it.filled == 0 && it.rx.pages < pages)
        }
    }

    // Returns the receiver of a message: mostly an endpoint that takes part in indirect messages.
    fn message_receiver(&mut self) -> EndpointId {
        draw_fitting! { receiver = self.another();
            self.has_properties(receiver, Properties::INDIRECT_MESSAGES)
        }
    }
}
