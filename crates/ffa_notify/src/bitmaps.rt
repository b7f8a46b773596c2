// SPDX-License-Identifier: MIT OR Apache-2.0
//! The notifications of all endpoints: bitmaps, bindings, pending bits, and the notices for the normal world.
ghost use Rattle.std.specs.Prelude.{◌≡◌, ◌<◌, ◌≤◌, ℕ, true, false, length, replicate, if◌then◌else◌};
ghost use Rattle.std.specs.FinSet as finite_set;
ghost use Rattle.ffa_model.specs.declared.limits.TheConstants.{MOST_ENDPOINTS};
ghost use Rattle.ffa_model.specs.Bits.{bits_of, is_set};
ghost use Rattle.ffa_model.specs.Identifiers.{place};
ghost use Rattle.ffa_model.specs.Notifications.{class_of, has_bitmaps_in, is_bound, is_news, is_pending, notice, with_bitmaps, with_bound, with_notice, with_pending, with_set, without_bitmaps, without_bound, without_pending};
ghost use Rattle.ffa_model.specs.Notices.{without_notices};
ghost use Rattle.ffa_model.specs.State.{is_known_among};
ghost use Rattle.ffa_notify.specs.Stored.{class_number};

use crate::class::Class;
use crate::words::{CLASSES, MOST_BOUND, MOST_PENDING, clear, clear_asked, clear_front};
use arrayvec::ArrayVec;
use ffa_model::{EndpointId, MOST_ENDPOINTS};
use std::marker::Model;

/// The notifications of all endpoints: whether each endpoint has bitmaps, which of its bits each other endpoint may
/// set, and which are pending. It also has the notices: what the normal world must still learn of pending bits. The
/// value has no memory besides itself.
#[derive(Drop)]
pub struct Bitmaps {
    // Whether an endpoint has bitmaps.
    pub(crate) has: ArrayVec<bool, MOST_ENDPOINTS>,
    // The bits of a receiver that are bound to a sender. Each receiver has a word for each endpoint that there may be.
    pub(crate) bound: ArrayVec<u64, MOST_BOUND>,
    // The pending bits of a receiver. Each receiver has a word for each class.
    pub(crate) pending: ArrayVec<u64, MOST_PENDING>,
    // The notices. For each receiver and each class, a notice says that a bit became pending that
    // FFA_NOTIFICATION_INFO_GET has not reported, and that the receiver has not got.
    pub(crate) notices: ArrayVec<bool, MOST_PENDING>,
}

impl Model for Bitmaps {
    ghost use Rattle.std.specs.Prelude.{◌≡◌};
    ghost use Rattle.ffa_model.specs.Notifications.{Notifications};
    ghost use Rattle.ffa_model.specs.Codes.{coded_notifications};

    ghost Value = { Notifications };

    ghost coded = { coded_notifications };

    ghost use Rattle.ffa_notify.specs.Stored.{IsWords, notifications_in};

    ghost view = { λ b. notifications_in
        (record { has = b.has.items; bound = b.bound.items; pending = b.pending.items; notices = b.notices.items }) };

    ghost invariant = { λ b. IsWords
        (record { has = b.has.items; bound = b.bound.items; pending = b.pending.items; notices = b.notices.items }) };
}

impl Bitmaps {
    // Whether an endpoint has bitmaps.
    pub(crate) fn has(&self, endpoint: EndpointId) -> bool
        ensures { result ≡ has_bitmaps_in self.now endpoint.0 }
    {
        let has = self.has.as_slice();
        endpoint.place() < has.len() && has[endpoint.place()]
    }

    // Returns the number of endpoints.
    pub(crate) fn endpoints(&self) -> usize
        ensures number { result ≡ length self.now.bitmaps }
        ensures few { result ≤ MOST_ENDPOINTS }
    {
        self.has.len()
    }

    // Returns the bits of a receiver that a sender may set.
    pub(crate) fn bound_to(&self, receiver: EndpointId, sender: EndpointId) -> u64
        requires receiver { is_known_among (length self.now.bitmaps) receiver.0 ≡ true }
        requires sender { is_known_among (length self.now.bitmaps) sender.0 ≡ true }
        ensures { (k : ℕ) → k < 64 → is_set k result ≡ is_bound self.now receiver.0 (class_of sender.0) k sender.0 }
    {
        self.bound[MOST_ENDPOINTS * receiver.place() + sender.place()]
    }

    // Returns the pending bits of a receiver's class.
    pub(crate) fn pending(&self, receiver: EndpointId, class: Class) -> u64
        requires { is_known_among (length self.now.bitmaps) receiver.0 ≡ true }
        ensures { (k : ℕ) → k < 64 → is_set k result ≡ is_pending self.now receiver.0 (class_number class) k }
    {
        self.pending[CLASSES * receiver.place() + class.number()]
    }

    // Whether there is a notice of a receiver's class.
    pub(crate) fn notice(&self, receiver: EndpointId, class: Class) -> bool
        requires { is_known_among (length self.now.bitmaps) receiver.0 ≡ true }
        ensures { result ≡ finite_set.contains self.now.notices (notice receiver.0 (class_number class)) }
    {
        self.notices[CLASSES * receiver.place() + class.number()]
    }

    // Whether a receiver has bitmaps and one of these bits of its class is not pending yet.
    fn is_news(&self, receiver: EndpointId, class: Class, bitmap: u64) -> bool
        requires { is_known_among (length self.now.bitmaps) receiver.0 ≡ true }
        ensures { result ≡ is_news self.now receiver.0 (class_number class) (bits_of bitmap) }
    {
        self.has(receiver) && bitmap & !self.pending(receiver, class) != 0
    }

    // Lets a sender set these bits of a receiver.
    pub(crate) fn bind_bits(&mut self, receiver: EndpointId, sender: EndpointId, bitmap: u64)
        requires receiver { is_known_among (length self.old.bitmaps) receiver.0 ≡ true }
        requires sender { is_known_among (length self.old.bitmaps) sender.0 ≡ true }
        ensures { self.new ≡ with_bound self.old receiver.0 sender.0 (bits_of bitmap) }
    {
        self.bound[MOST_ENDPOINTS * receiver.place() + sender.place()] |= bitmap;
    }

    // No longer lets a sender set these bits of a receiver.
    pub(crate) fn unbind_bits(&mut self, receiver: EndpointId, sender: EndpointId, bitmap: u64)
        requires receiver { is_known_among (length self.old.bitmaps) receiver.0 ≡ true }
        requires sender { is_known_among (length self.old.bitmaps) sender.0 ≡ true }
        ensures { self.new ≡ without_bound self.old receiver.0 sender.0 (bits_of bitmap) }
    {
        self.bound[MOST_ENDPOINTS * receiver.place() + sender.place()] &= !bitmap;
    }

    // Sets these bits of a receiver's class, if the receiver has bitmaps. They are then pending. If one of them was not
    // pending before, there is a notice.
    pub(crate) fn set_bits(&mut self, receiver: EndpointId, class: Class, bitmap: u64)
        requires { is_known_among (length self.old.bitmaps) receiver.0 ≡ true }
        ensures { self.new ≡ with_set self.old receiver.0 (class_number class) (bits_of bitmap) }
    {
        self.note_news(receiver, class, bitmap);
        self.make_pending(receiver, class, bitmap);
    }

    // Adds a notice of a receiver's class, if these bits are news.
    fn note_news(&mut self, receiver: EndpointId, class: Class, bitmap: u64)
        requires { is_known_among (length self.old.bitmaps) receiver.0 ≡ true }
        ensures { self.new ≡ with_notice self.old receiver.0 (class_number class) (bits_of bitmap) }
    {
        if self.is_news(receiver, class, bitmap) {
            self.notices[CLASSES * receiver.place() + class.number()] = true;
        }
    }

    // Makes these bits of a receiver's class pending, if the receiver has bitmaps.
    fn make_pending(&mut self, receiver: EndpointId, class: Class, bitmap: u64)
        requires { is_known_among (length self.old.bitmaps) receiver.0 ≡ true }
        ensures { self.new ≡ with_pending self.old receiver.0 (class_number class) (bits_of bitmap) }
    {
        if self.has(receiver) {
            self.pending[CLASSES * receiver.place() + class.number()] |= bitmap;
        }
    }

    // Gives bitmaps to an endpoint.
    pub(crate) fn give(&mut self, endpoint: EndpointId)
        requires { is_known_among (length self.old.bitmaps) endpoint.0 ≡ true }
        ensures { self.new ≡ with_bitmaps self.old endpoint.0 }
    {
        self.has[endpoint.place()] = true;
    }

    // Removes the normal world's bitmaps, and with them the bindings of its bits.
    pub(crate) fn take_away(&mut self)
        ensures { self.new ≡ without_bitmaps self.old 0 }
    {
        self.has[0] = false;
        clear_front(&mut self.bound);
    }

    // Clears the pending bits and the notices of a receiver's classes that the flags select.
    pub(crate) fn clear_asked(&mut self, receiver: EndpointId, flags: u32)
        requires { is_known_among (length self.old.bitmaps) receiver.0 ≡ true }
        ensures { self.new ≡ without_pending self.old receiver.0 flags }
    {
        let first = CLASSES * receiver.place();
        clear_asked(&mut self.pending, first, flags, 0);
        clear_asked(&mut self.notices, first, flags, false);
    }

    // Removes all notices, because FFA_NOTIFICATION_INFO_GET has reported them.
    pub(crate) fn drop_notices(&mut self)
        ensures { self.new ≡ without_notices self.old }
    {
        clear(&mut self.notices);
    }
}
