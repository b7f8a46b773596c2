// SPDX-License-Identifier: MIT OR Apache-2.0
//! An endpoint that gathers pages until it can have the largest number of open transactions, and then sends one more.
use crate::Change;
use crate::changes::KINDS;
use crate::generator::Generator;
use crate::offers::Wish;
use crate::stage::Stage;
use ffa_model::{EndpointId, Kind, MOST_OPEN};

/// A time of gathering begins once in this number of turns.
const PERIOD: u64 = 300;

/// A time of gathering lasts at most this number of turns.
const LONGEST: u64 = 60;

/// An endpoint that has this number of free pages or fewer donates no page.
const FEWEST_FREE: usize = 4;

/// The number of pages that an endpoint donates in a turn.
const GIVEN: u32 = 2;

impl<'m, S: Stage + Drop> Generator<'m, S> {
    /// Begins and ends times of gathering, by the number of turns.
    pub(crate) fn plan_hoard(&mut self) {
        match self.turns % PERIOD {
            0 => self.hoarder = Some(self.any_endpoint()),
            LONGEST => self.hoarder = None,
            _ => {}
        }
    }

    /// Plays the runner's part while an endpoint gathers pages. The runner can be this endpoint or another one.
    pub(crate) fn play_hoard(&mut self, hoarder: EndpointId) {
        for _ in 0..MOST_OPEN {
            if let Some(offer) = self.any_offer(Wish::Held) {
                self.give_up(&offer, Change::Nothing);
            }
        }
        self.reclaim_all();
        if self.runner() == hoarder {
            self.gather();
        } else if self.need_buffers() {
            self.give_pages(hoarder);
        }
    }

    // The runner reclaims its transactions, except those that somebody holds.
    fn reclaim_all(&mut self) {
        for _ in 0..MOST_OPEN {
            if let Some(offer) = self.any_offer(Wish::OwnFree) {
                self.reclaim(offer.handle, 0, Change::Nothing);
            }
        }
    }

    // The runner donates pages to the hoarder, one page at a time, if it has enough pages.
    fn give_pages(&mut self, hoarder: EndpointId) {
        for _ in 0..GIVEN {
            if self.count_free() > FEWEST_FREE {
                self.send_free_page(Kind::Donate, hoarder, Change::Nothing);
            }
        }
    }

    // The runner takes the pages that others donated to it. If it then has enough pages, it sends them until it may
    // open no more transactions.
    fn gather(&mut self) {
        for _ in 0..MOST_OPEN {
            if let Some(offer) = self.any_offer(Wish::ToTake)
                && offer.kind == Kind::Donate
            {
                self.take(&offer, Change::Nothing);
            }
        }
        self.need_buffers();
        let wanted = (MOST_OPEN + 1).saturating_sub(self.count_offers(Wish::OwnHeld));
        if self.count_free() >= wanted {
            if self.need_buffers() {
                self.send_all();
            }
            self.hoarder = None;
        }
    }

    // The runner sends pages, one page at a time, until it may open no more transactions, and then tries a send of each
    // kind.
    fn send_all(&mut self) {
        let to = self.another();
        for _ in 0..MOST_OPEN {
            self.send_free_page(Kind::Share, to, Change::Nothing);
        }
        for kind in KINDS {
            self.send_free_page(kind, to, Change::Full);
        }
        self.reclaim_all();
    }
}
