// SPDX-License-Identifier: MIT OR Apache-2.0
//! The tests that the calls make of the bits that they name.
ghost use Rattle.std.specs.Prelude.{◌≡◌, ℕ, ◌<◌, ◌==◌, ◌&&◌, not, true, length};
ghost use Rattle.std.specs.List.{list_all, list_any};
ghost use Rattle.ffa_model.specs.Bits.{bits_of, is_set};
ghost use Rattle.ffa_model.specs.Lists.{listed};
ghost use Rattle.ffa_model.specs.Notifications.{asked_word, class_of, get_reply, has_pending, is_bindable, is_bound, is_bound_to_another, is_pending, is_unbindable};
ghost use Rattle.ffa_model.specs.State.{is_known_among};
ghost use Rattle.ffa_notify.specs.Stored.{class_number};

use crate::bitmaps::Bitmaps;
use crate::class::Class;
use ffa_model::{EndpointId, Reply};

impl Bitmaps {
    // Whether a sender may get all these bits of a receiver.
    pub(crate) fn is_bindable(&self, receiver: EndpointId, sender: EndpointId, bitmap: u64) -> bool
        requires receiver { is_known_among (length self.now.bitmaps) receiver.0 ≡ true }
        requires sender { is_known_among (length self.now.bitmaps) sender.0 ≡ true }
        ensures { result ≡ list_all (is_bindable (length self.now.bitmaps) self.now receiver.0 sender.0)
            (bits_of bitmap) }
    {
        bitmap & self.not_bindable(receiver, sender) == 0
    }

    // Returns the bits of a receiver that a sender may not get: others of the class may set them, or they are pending.
    pub(crate) fn not_bindable(&self, receiver: EndpointId, sender: EndpointId) -> u64
        requires receiver { is_known_among (length self.now.bitmaps) receiver.0 ≡ true }
        requires sender { is_known_among (length self.now.bitmaps) sender.0 ≡ true }
        ensures { (k : ℕ) → k < 64 → is_set k result
            ≡ not (is_bindable (length self.now.bitmaps) self.now receiver.0 sender.0 k) }
    {
        let taken = self.bound_to_others(receiver, sender);
        let pending = self.pending(receiver, Class::of(sender));
        taken | pending
    }

    // Whether a sender may lose all these bits of a receiver.
    pub(crate) fn is_unbindable(
        &self,
        receiver: EndpointId,
        sender: EndpointId,
        bitmap: u64,
    ) -> bool
        requires receiver { is_known_among (length self.now.bitmaps) receiver.0 ≡ true }
        requires sender { is_known_among (length self.now.bitmaps) sender.0 ≡ true }
        ensures { result ≡ list_all (is_unbindable self.now receiver.0 sender.0) (bits_of bitmap) }
    {
        bitmap & self.not_unbindable(receiver, sender) == 0
    }

    // Returns the bits of a receiver that a sender may not lose: it may not set them, or they are pending.
    pub(crate) fn not_unbindable(&self, receiver: EndpointId, sender: EndpointId) -> u64
        requires receiver { is_known_among (length self.now.bitmaps) receiver.0 ≡ true }
        requires sender { is_known_among (length self.now.bitmaps) sender.0 ≡ true }
        ensures { (k : ℕ) → k < 64 → is_set k result ≡ not (is_unbindable self.now receiver.0 sender.0 k) }
    {
        let bound = self.bound_to(receiver, sender);
        let pending = self.pending(receiver, Class::of(sender));
        !bound | pending
    }

    // Whether a sender may set all these bits of a receiver.
    pub(crate) fn is_settable(&self, receiver: EndpointId, sender: EndpointId, bitmap: u64) -> bool
        requires receiver { is_known_among (length self.now.bitmaps) receiver.0 ≡ true }
        requires sender { is_known_among (length self.now.bitmaps) sender.0 ≡ true }
        ensures { result ≡ list_all (λ k. is_bound self.now receiver.0 (class_of sender.0) k sender.0)
            (bits_of bitmap) }
    {
        bitmap & self.not_settable(receiver, sender) == 0
    }

    // Returns the bits of a receiver that a sender may not set.
    pub(crate) fn not_settable(&self, receiver: EndpointId, sender: EndpointId) -> u64
        requires receiver { is_known_among (length self.now.bitmaps) receiver.0 ≡ true }
        requires sender { is_known_among (length self.now.bitmaps) sender.0 ≡ true }
        ensures { (k : ℕ) → k < 64 → is_set k result
            ≡ not (is_bound self.now receiver.0 (class_of sender.0) k sender.0) }
    {
        !self.bound_to(receiver, sender)
    }

    /// Whether a bit of a receiver is pending, in any class.
    pub fn has_pending(&self, receiver: EndpointId) -> bool
        requires { is_known_among (length self.now.bitmaps) receiver.0 ≡ true }
        ensures { result ≡ has_pending self.now receiver.0 }
    {
        let partitions = self.pending(receiver, Class::Partitions) != 0;
        let normal_world = self.pending(receiver, Class::NormalWorld) != 0;
        let manager = self.pending(receiver, Class::Manager) != 0;
        partitions | normal_world | manager
    }

    // Returns the reply to FFA_NOTIFICATION_GET: the receiver's pending bits of the classes that the flags select.
    pub(crate) fn pending_reply(&self, receiver: EndpointId, flags: u32) -> Reply
        requires { is_known_among (length self.now.bitmaps) receiver.0 ≡ true }
        ensures { result ≡ get_reply self.now receiver.0 flags }
    {
        let partitions = self.asked_word(receiver, flags, Class::Partitions);
        let normal_world = self.asked_word(receiver, flags, Class::NormalWorld);
        let manager = self.asked_word(receiver, flags, Class::Manager);
        Reply::Pending {
            partitions,
            normal_world,
            manager,
        }
    }

    // Returns the pending bits of a receiver's class if the flags select it, and 0 otherwise.
    fn asked_word(&self, receiver: EndpointId, flags: u32, class: Class) -> u64
        requires { is_known_among (length self.now.bitmaps) receiver.0 ≡ true }
        ensures { result ≡ asked_word self.now receiver.0 flags (class_number class) }
    {
        if flags >> class.number() & 1 == 1 {
            self.pending(receiver, class)
        } else {
            0
        }
    }

    // Returns the bits of a receiver, in a sender's class, that other endpoints may set.
    fn bound_to_others(&self, receiver: EndpointId, sender: EndpointId) -> u64
        requires { is_known_among (length self.now.bitmaps) receiver.0 ≡ true }
        ensures { (k : ℕ) → k < 64 → is_set k result
            ≡ is_bound_to_another (length self.now.bitmaps) self.now receiver.0 (class_of sender.0) k sender.0 }
    {
        let mut bits = 0;
        for place in 0..self.endpoints() {
            bits |= self.bound_to_other(receiver, sender, EndpointId::at(place));
        }
        bits
    }

    // Returns the bits of a receiver, in a sender's class, that this endpoint may set if it is another one. Returns 0
    // for the sender.
    fn bound_to_other(&self, receiver: EndpointId, sender: EndpointId, other: EndpointId) -> u64
        requires receiver { is_known_among (length self.now.bitmaps) receiver.0 ≡ true }
        requires other { is_known_among (length self.now.bitmaps) other.0 ≡ true }
        ensures { (k : ℕ) → k < 64 → is_set k result
            ≡ (not (other.0 == sender.0) && is_bound self.now receiver.0 (class_of sender.0) k other.0) }
    {
        // Proof step: the invariant, by which each endpoint has its words.
        let _ = &self.has;
        if other == sender {
            return 0;
        }
        if Class::of(other) != Class::of(sender) {
            return 0;
        }
        self.bound_to(receiver, other)
    }
}
