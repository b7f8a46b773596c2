// SPDX-License-Identifier: MIT OR Apache-2.0
//! Memory transactions, as an endpoint sends them and while they are open.
use crate::generator::Generator;
use crate::pages::has_address;
use crate::stage::Stage;
use arrayvec::ArrayVec;
use ffa_model::{Data, EndpointId, Kind, Range, Receiver, SendDesc};

/// The largest number of open transactions that the generator remembers: 16 for each of eight endpoints.
pub(crate) const MOST_OFFERS: usize = 128;

/// The largest number of receivers in a transaction that the generator makes.
pub(crate) const MOST_TAKERS: usize = 2;

/// The largest number of ranges in a transaction that the generator makes.
pub(crate) const MOST_PARTS: usize = 3;

/// A receiver of a transaction with its grant, and whether the receiver holds the transaction.
#[derive(Clone, Copy)]
pub(crate) struct Taker {
    pub receiver: Receiver,
    pub holds: bool,
}

impl Taker {
    /// Returns a receiver that does not hold the transaction yet.
    pub(crate) fn new(endpoint: EndpointId, grant: Option<Data>) -> Taker {
        Taker {
            receiver: Receiver { endpoint, grant },
            holds: false,
        }
    }
}

/// The receivers of a transaction.
pub(crate) type Takers = [Option<Taker>; MOST_TAKERS];

/// The ranges of a transaction. Some of these ranges may have no page.
pub(crate) type Parts = [Range; MOST_PARTS];

/// A memory transaction.
#[derive(Clone, Copy)]
pub(crate) struct Offer {
    /// The handle of the transaction, which is 0 until the transaction is sent.
    pub handle: u64,
    pub sender: EndpointId,
    pub kind: Kind,
    /// Whether the manager must zero the pages before it offers them.
    pub zero: bool,
    pub tag: u64,
    pub takers: Takers,
    pub parts: Parts,
}

/// The kinds of transactions that an endpoint can look for.
#[derive(Clone, Copy)]
pub(crate) enum Wish {
    /// The transaction is offered to the endpoint, which does not hold it.
    ToTake,
    /// The endpoint holds the transaction.
    Held,
    /// The endpoint sent the transaction, and nobody holds it.
    OwnFree,
    /// The endpoint sent the transaction, and somebody holds it.
    OwnHeld,
    /// The endpoint has no part in the transaction.
    OfOthers,
}

impl Offer {
    /// Returns an endpoint as one of the receivers, or `None` if it is no receiver.
    pub(crate) fn taker(&self, endpoint: EndpointId) -> Option<Taker> {
        let mut takers = self.takers.iter().flatten().copied();
        takers.find(|taker| taker.receiver.endpoint == endpoint)
    }

    /// Returns a receiver other than an endpoint, or `None` if there is no other receiver.
    pub(crate) fn other_taker(&self, endpoint: EndpointId) -> Option<EndpointId> {
        let mut takers = self
            .takers
            .iter()
            .flatten()
            .map(|taker| taker.receiver.endpoint);
        takers.find(|taker| *taker != endpoint)
    }

    // Whether the transaction is of the kind that an endpoint looks for.
    fn fits(&self, wish: Wish, endpoint: EndpointId) -> bool {
        let taker = self.taker(endpoint);
        let is_own = self.sender == endpoint;
        let is_held = self.takers.iter().flatten().any(|taker| taker.holds);
        match wish {
            Wish::ToTake => taker.is_some_and(|taker| !taker.holds),
            Wish::Held => taker.is_some_and(|taker| taker.holds),
            Wish::OwnFree => is_own && !is_held,
            Wish::OwnHeld => is_own && is_held,
            Wish::OfOthers => !is_own && taker.is_none(),
        }
    }

    /// Returns the content of the transaction's descriptor.
    pub(crate) fn describe(&self) -> SendDesc {
        let mut desc = SendDesc {
            sender: self.sender,
            zero: self.zero,
            tag: self.tag,
            receivers: ArrayVec::new(),
            ranges: ArrayVec::new(),
        };
        for taker in self.takers.iter().flatten() {
            let _ = desc.receivers.try_push(taker.receiver);
        }
        for part in self.parts.iter().filter(|part| part.pages > 0) {
            let _ = desc.ranges.try_push(*part);
        }
        desc
    }
}

impl<'m, S: Stage + Drop> Generator<'m, S> {
    /// Remembers an open transaction, if there is room.
    pub(crate) fn add_offer(&mut self, offer: Offer) {
        for slot in &mut self.offers {
            if slot.is_none() {
                *slot = Some(offer);
                return;
            }
        }
    }

    /// Forgets the open transaction with this handle.
    pub(crate) fn remove_offer(&mut self, handle: u64) {
        for slot in &mut self.offers {
            if slot.is_some_and(|offer| offer.handle == handle) {
                *slot = None;
            }
        }
    }

    /// Notes whether the runner holds the open transaction with this handle.
    pub(crate) fn set_held(&mut self, handle: u64, holds: bool) {
        let runner = self.runner();
        for offer in self.offers.iter_mut().flatten() {
            for taker in offer.takers.iter_mut().flatten() {
                if offer.handle == handle && taker.receiver.endpoint == runner {
                    taker.holds = holds;
                }
            }
        }
    }

    /// Returns the number of open transactions of the kind that the runner looks for.
    pub(crate) fn count_offers(&self, wish: Wish) -> usize {
        let runner = self.runner();
        let offers = self.offers.iter().flatten();
        offers.filter(|offer| offer.fits(wish, runner)).count()
    }

    /// Returns one of the open transactions of the kind that the runner looks for, or `None` if there is no such
    /// transaction.
    pub(crate) fn any_offer(&mut self, wish: Wish) -> Option<Offer> {
        let runner = self.runner();
        let count = self.count_offers(wish);
        let offers = self.offers.iter().flatten().copied();
        let mut fitting = offers.filter(|offer| offer.fits(wish, runner));
        fitting.nth(self.dice.place(count))
    }

    /// Whether an address is in an open transaction.
    pub(crate) fn is_offered(&self, address: u64) -> bool {
        let mut parts = self.offers.iter().flatten().flat_map(|offer| &offer.parts);
        parts.any(|part| has_address(*part, address))
    }
}
