// SPDX-License-Identifier: MIT OR Apache-2.0
//! Retrieves, relinquishes and reclaims.
use crate::changes::{NAMES, READ_BACKS, RECLAIMS, RELINQUISHES, RETRIEVES};
use crate::descriptors::{MOST_NAMED, PAGE_SIZE, Page, access_start};
use crate::dice::draw_fitting;
use crate::generator::{Generator, halves};
use crate::offers::{Offer, Wish};
use crate::stage::Stage;
use crate::{Change, Deed};
use byteorder::{ByteOrder, LittleEndian};
use ffa_model::{Data, EndpointId, Kind, RelinquishDesc, RetrieveDesc, Version};
use play_trace::{write_relinquish, write_retrieve};

/// An endpoint that may write this number of pages or fewer takes no donated page without the right to write it.
const FEWEST_WRITABLE: usize = 8;

/// A bit of a handle that no send of a trace sets.
const WRONG_BIT: u64 = 1 << 20;

// The endpoints that a retrieve names: an array, and how many of its items count.
type Names = ([EndpointId; MOST_NAMED], usize);

// Writes a retrieve of an endpoint that names these endpoints, and returns its size in bytes. Each access descriptor
// says what the endpoint requests, since the manager reads only the permissions of the writer's own.
fn write_naming(version: Version, desc: &RetrieveDesc, names: Names, page: &mut Page) -> u32 {
    let (named, count) = names;
    write_retrieve(version, desc, named[0], page);
    let permissions = page[access_start(version, 0) + 2];
    let count = count.min(MOST_NAMED);
    for index in 0..count {
        let at = access_start(version, index);
        LittleEndian::write_u16(&mut page[at..], named[index].0);
        page[at + 2] = permissions;
    }
    LittleEndian::write_u32(&mut page[28..], count as u32);
    access_start(version, count) as u32
}

impl<'m, S: Stage + Drop> Generator<'m, S> {
    /// Retrieves a transaction that is offered to the runner. In some cases the runner holds it already, or has no part
    /// in it.
    pub(crate) fn play_retrieve(&mut self) {
        let (wish, change) = match self.dice.below(20) {
            0 | 1 => (Wish::OfOthers, Change::NotOffered),
            2..=5 => (Wish::Held, Change::HeldAlready),
            _ => (Wish::ToTake, Change::Nothing),
        };
        if let Some(offer) = self.any_offer(wish) {
            self.take(&offer, change);
        }
    }

    /// Retrieves a transaction with access that the runner may have. RX is mostly empty before and after.
    pub(crate) fn take(&mut self, offer: &Offer, change: Change) {
        let desc = self.fitting(offer);
        self.release_mostly();
        self.retrieve(&desc, self.own_name(), offer, change);
    }

    /// Plays a retrieve with something changed.
    pub(crate) fn play_turned_retrieve(&mut self) {
        if let Some(offer) = self.any_offer(Wish::ToTake) {
            let mut desc = self.fitting(&offer);
            let change = self.rounds.retrieves.next_of(&RETRIEVES);
            match change {
                Change::NoBuffers => {
                    return self.attempt_without_buffers(Deed::Retrieve, &[64, 64]);
                }
                Change::Sender => desc.sender = EndpointId(desc.sender.0 ^ 1),
                Change::Handle => desc.handle ^= WRONG_BIT,
                Change::Tag => desc.tag = self.dice.spoil(desc.tag),
                Change::Kind => {
                    desc.kind = Some(match offer.kind {
                        Kind::Share => Kind::Lend,
                        Kind::Lend => Kind::Donate,
                        Kind::Donate => Kind::Share,
                    });
                }
                Change::Right => (desc.level, desc.exec) = (Some(Data::Rw), true),
                _ => {}
            }
            self.retrieve(&desc, self.own_name(), &offer, change);
        }
    }

    /// Plays a retrieve that names all receivers, or others, or only the runner with bit 10 of the flags. Mostly the
    /// transaction has two receivers.
    pub(crate) fn play_naming_retrieve(&mut self) {
        if let Some(offer) = self.offer_to_two() {
            let change = self.rounds.names.next_of(&NAMES);
            let names = self.names(&offer, change);
            let desc = self.fitting(&offer);
            self.release_mostly();
            self.retrieve(&desc, names, &offer, change);
        }
    }

    // Returns a transaction that the runner may take, with two receivers if a few tries find one.
    fn offer_to_two(&mut self) -> Option<Offer> {
        let wish = Wish::ToTake;
        Some(draw_fitting!(offer = self.any_offer(wish)?; offer.takers[1].is_some()))
    }

    fn own_name(&self) -> Names {
        ([self.runner(); MOST_NAMED], 1)
    }

    // Returns the endpoints that a retrieve of the runner names.
    fn names(&mut self, offer: &Offer, change: Change) -> Names {
        let runner = self.runner();
        let wrong = self.no_taker(offer);
        match (change, offer.other_taker(runner)) {
            (Change::OneNamed, _) => self.own_name(),
            (Change::OthersNamed, Some(other)) => self.dice.pick(&[
                ([runner, wrong, other], 2),
                ([wrong, runner, other], 2),
                ([other, runner, wrong], 3),
            ]),
            (Change::OthersNamed, None) => ([runner, wrong, wrong], 2),
            (_, Some(other)) => self.dice.pick(&[
                ([runner, other, wrong], 2),
                ([other, runner, wrong], 2),
            ]),
            (_, None) => self.own_name(),
        }
    }

    // Returns an endpoint that is no receiver of a transaction, or an identifier that no endpoint has.
    fn no_taker(&mut self, offer: &Offer) -> EndpointId {
        let other = self.another();
        if offer.taker(other).is_some() || self.dice.one_in(4) {
            self.dice.stranger()
        } else {
            other
        }
    }

    // Returns a retrieve that requests access that the runner may have.
    fn fitting(&mut self, offer: &Offer) -> RetrieveDesc {
        let grant = offer.taker(self.runner()).and_then(|it| it.receiver.grant);
        let level = match grant {
            Some(Data::Rw) => self.dice.pick(&[None, Some(Data::Ro), Some(Data::Rw)]),
            Some(Data::Ro) => self.dice.pick(&[None, Some(Data::Ro)]),
            None => self.donated_level(),
        };
        RetrieveDesc {
            sender: offer.sender,
            handle: offer.handle,
            tag: offer.tag,
            kind: self.dice.one_in(2).then_some(offer.kind),
            level,
            exec: offer.kind != Kind::Share && self.dice.one_in(6),
        }
    }

    // Returns the data right that the runner requests to donated pages. A right that it does not take is lost for good.
    fn donated_level(&mut self) -> Option<Data> {
        let is_first = self.free_run(1, Data::Ro).is_none();
        let times = if is_first { 2 } else { 16 };
        (self.dice.one_in(times) && self.count_free() > FEWEST_WRITABLE).then_some(Data::Ro)
    }

    // Makes a retrieve, and reads the pages that it maps. After a retrieve, a donate is no longer open.
    fn retrieve(&mut self, desc: &RetrieveDesc, names: Names, offer: &Offer, change: Change) {
        if !self.need_buffers() {
            return;
        }
        let mut page = [0; PAGE_SIZE];
        let length = write_naming(self.version_of(self.runner()), desc, names, &mut page);
        if change == Change::OneNamed || change == Change::AllNamedAsOne {
            // Bit 10 of the flags.
            page[5] |= 4;
        }
        let sender = Some(offer.sender);
        let answer = self.attempt_by_tx(Deed::Retrieve, sender, change, &mut page, length, &[]);
        if answer.is_some() {
            match offer.kind {
                Kind::Donate => self.remove_offer(offer.handle),
                Kind::Share | Kind::Lend => self.set_held(offer.handle, true),
            }
            self.read_parts(offer);
        }
        self.read_tx();
        self.release_mostly();
    }

    /// Plays a hypervisor's retrieve, by which the normal world reads back the descriptor of its own transaction.
    /// Sometimes it tries this with a transaction of another. A partition may not do this, and seldom tries.
    pub(crate) fn play_read_back(&mut self) {
        if self.runner() != EndpointId::NORMAL_WORLD && !self.dice.one_in(8) {
            return;
        }
        let (wish, change) = self.rounds.read_backs.next_of(&READ_BACKS);
        if let Some(offer) = self.any_offer(wish)
            && self.need_buffers()
        {
            self.release_mostly();
            let handle = match change {
                Change::Handle => offer.handle ^ WRONG_BIT,
                _ => offer.handle,
            };
            // The descriptor is a header with the handle and zeros.
            let mut page = [0; PAGE_SIZE];
            LittleEndian::write_u64(&mut page[8..], handle);
            let length = access_start(self.version_of(self.runner()), 0) as u32;
            let sender = Some(offer.sender);
            self.attempt_by_tx(Deed::ReadBack, sender, change, &mut page, length, &[]);
            self.read_tx();
            self.release_mostly();
        }
    }

    /// Plays FFA_MEM_RELINQUISH of a transaction that the runner holds, with one change after another. Sometimes the
    /// runner does not hold it.
    pub(crate) fn play_relinquish(&mut self) {
        if self.dice.one_in(16) {
            return self.attempt_without_buffers(Deed::Relinquish, &[]);
        }
        let change = self.rounds.relinquishes.next_of(&RELINQUISHES);
        let wish = match change {
            Change::NotHeld => Wish::ToTake,
            _ => Wish::Held,
        };
        if let Some(offer) = self.any_offer(wish) {
            self.give_up(&offer, change);
        }
    }

    /// Relinquishes a transaction, with something changed or not.
    pub(crate) fn give_up(&mut self, offer: &Offer, change: Change) {
        if !self.need_buffers() {
            return;
        }
        let mut desc = RelinquishDesc {
            handle: offer.handle,
            zero: offer.kind == Kind::Lend && self.dice.one_in(4),
            endpoint: self.sender(change),
        };
        match change {
            Change::Handle => desc.handle ^= WRONG_BIT,
            Change::Zeros => desc.zero = true,
            _ => {}
        }
        let mut page = [0; PAGE_SIZE];
        let length = write_relinquish(&desc, &mut page);
        let sender = Some(offer.sender);
        let answer = self.attempt_by_tx(Deed::Relinquish, sender, change, &mut page, length, &[]);
        if answer.is_some() {
            self.set_held(offer.handle, false);
        }
    }

    /// Plays FFA_MEM_RECLAIM of a transaction of the runner. Sometimes somebody holds the transaction, or another
    /// endpoint sent it.
    pub(crate) fn play_reclaim(&mut self) {
        let (wish, change) = self.dice.pick(&RECLAIMS);
        if let Some(Offer { handle, .. }) = self.any_offer(wish) {
            let (handle, flags) = match change {
                Change::Handle => (handle ^ self.dice.pick(&[WRONG_BIT, 1 << 32]), 0),
                Change::Flags => (handle, 2),
                _ => (handle, self.dice.pick(&[0, 0, 1])),
            };
            self.reclaim(handle, flags, change);
        }
    }

    /// Calls FFA_MEM_RECLAIM, and forgets the transaction if the call succeeds.
    pub(crate) fn reclaim(&mut self, handle: u64, flags: u64, change: Change) {
        let [low, high] = halves(handle);
        if self.attempt(Deed::Reclaim, None, change, &[low, high, flags]) {
            self.remove_offer(handle);
        }
    }
}
