// SPDX-License-Identifier: MIT OR Apache-2.0
//! The history of lent RAM, which exists only in proofs.
ghost use Rattle.std.specs.Prelude.{◌≡◌, List, [], ◌∷◌};
ghost use Rattle.std.specs.Borrow.{ftrue};
ghost use Rattle.ffa_lent.specs.History.{Event, coded_event, coded_events};

use crate::settling::Asked;
use ffa_model::PageNo;
use std::marker::Model;

/// The events of lent RAM until now, the last event first. A history has no bytes.
#[derive(Drop)]
pub struct History {
    pub ghost events: { List Event } by { coded_events },
}

impl Model for History {
    ghost also_owns = { λ _. ftrue };
}

/// One event. It has no bytes.
#[derive(Drop)]
pub struct Done {
    pub ghost event: { Event } by { coded_event },
}

impl Model for Done {
    ghost also_owns = { λ _. ftrue };
}

impl History {
    // Returns the history without an event.
    #[inline(always)]
    pub(crate) fn new() -> History
        ensures { result.events ≡ [] }
    {
        History {}
    }

    // Returns the history with one more event.
    #[inline(always)]
    pub(crate) fn then(&self, _done: &Done) -> History
        ensures { result.events ≡ _done.now.event ∷ self.now.events }
    {
        History {}
    }
}

/// An event: what the library does to `count` pages from `first` on.
#[derive(Clone, Copy, Drop)]
pub(crate) struct Doing<'a> {
    pub first: PageNo,
    pub count: u32,
    pub what: What<'a>,
}

/// The kind of an event.
#[derive(Clone, Copy, Drop)]
pub(crate) enum What<'a> {
    /// The library stores one word.
    Stored,
    /// The library begins to write the bytes of a page.
    Lent,
    /// The library has written the pages, and its loan of them ends.
    Written,
    /// With `true`, the library reads the pages at one moment, and sees the bytes of this reading from now on. With
    /// `false`, the library sees memory again.
    Read(bool),
    /// The library has requested from firmware that it settles the pages in the tables of the endpoint at this place.
    Settled(usize, Asked<'a>),
    /// The library has requested from firmware that others see all earlier writes before any later write.
    Shown(Asked<'a>),
}
