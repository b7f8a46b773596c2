// SPDX-License-Identifier: MIT OR Apache-2.0
//! Explains why a call on notifications is refused: which bit fails a check of the bits, and why. No call uses this.
ghost use Rattle.std.specs.Prelude.{◌≡◌, ◌<◌, ℕ, None, true, find, length};
ghost use Rattle.std.specs.Option.{option_map};
ghost use Rattle.ffa_model.specs.declared.why.About.TheVariants.{Bit};
ghost use Rattle.ffa_model.specs.AboutContents.{about_bind, about_bits, about_set, about_unbind};
ghost use Rattle.ffa_model.specs.Bits.{is_set};
ghost use Rattle.ffa_model.specs.Lists.{listed};
ghost use Rattle.ffa_model.specs.Notifications.{class_of, is_pending};
ghost use Rattle.ffa_model.specs.State.{is_known_among};
ghost use Rattle.ffa_mend.specs.Explained.{explained};
ghost use Rattle.ffa_mend.specs.Mend.{is_pending_in_any, mend_bit, mend_bits, mend_pending};

use crate::bitmaps::Bitmaps;
use crate::class::Class;
use ffa_mend::{Cause, Explained, Mend};
use ffa_model::{About, Call, EndpointId, Refusal};

impl Bitmaps {
    /// Explains a check that refuses FFA_NOTIFICATION_BIND, FFA_NOTIFICATION_UNBIND or FFA_NOTIFICATION_SET of an
    /// endpoint. It returns the lowest bit of the call that fails the check of the bits, and why the sender cannot get
    /// or lose it. It explains no other calls and checks.
    pub fn explain_bits(&self, caller: EndpointId, call: &Call, refusal: Refusal) -> Explained
        requires { is_known_among (length self.now.bitmaps) caller.0 ≡ true }
        ensures { let bit = about_bits (length self.now.bitmaps) self.now caller.0 call.now refusal in
            result ≡ explained bit None (mend_bits self.now caller.0 call.now bit) }
    {
        let about = self.about_bits(caller, call, refusal);
        Explained::of(about, self.mend_bits(caller, call, about))
    }

    // Returns the lowest bit that fails the check of the bits of FFA_NOTIFICATION_BIND, FFA_NOTIFICATION_UNBIND or
    // FFA_NOTIFICATION_SET of an endpoint. Returns `None` for other calls and checks.
    fn about_bits(&self, caller: EndpointId, call: &Call, refusal: Refusal) -> Option<About>
        requires { is_known_among (length self.now.bitmaps) caller.0 ≡ true }
        ensures { result ≡ about_bits (length self.now.bitmaps) self.now caller.0 call.now refusal }
    {
        match *call {
            Call::NotificationBind(bits) => self.about_bind(
                caller,
                bits.sender,
                bits.bitmap,
                refusal,
            ),
            Call::NotificationUnbind(bits) => self.about_unbind(
                caller,
                bits.sender,
                bits.bitmap,
                refusal,
            ),
            Call::NotificationSet(bits) => self.about_set(
                caller,
                bits.receiver,
                bits.bitmap,
                refusal,
            ),
            _ => None,
        }
    }

    // Returns the lowest of these bits of the caller that the sender may not get.
    fn about_bind(
        &self,
        caller: EndpointId,
        sender: EndpointId,
        bitmap: u64,
        refusal: Refusal,
    ) -> Option<About>
        requires { is_known_among (length self.now.bitmaps) caller.0 ≡ true }
        ensures { result ≡ about_bind (length self.now.bitmaps) self.now caller.0 sender.0 bitmap refusal }
    {
        match refusal {
            Refusal::BitsTaken => {
                if sender.is_among(self.endpoints()) {
                    first_of(bitmap & self.not_bindable(caller, sender))
                } else {
                    None
                }
            }
            _ => None,
        }
    }

    // Returns the lowest of these bits of the caller that the sender may not lose.
    fn about_unbind(
        &self,
        caller: EndpointId,
        sender: EndpointId,
        bitmap: u64,
        refusal: Refusal,
    ) -> Option<About>
        requires { is_known_among (length self.now.bitmaps) caller.0 ≡ true }
        ensures { result ≡ about_unbind (length self.now.bitmaps) self.now caller.0 sender.0 bitmap refusal }
    {
        match refusal {
            Refusal::BitsNotTheSenders => {
                if sender.is_among(self.endpoints()) {
                    first_of(bitmap & self.not_unbindable(caller, sender))
                } else {
                    None
                }
            }
            _ => None,
        }
    }

    // Returns the lowest of these bits of the receiver that the caller may not set.
    fn about_set(
        &self,
        caller: EndpointId,
        receiver: EndpointId,
        bitmap: u64,
        refusal: Refusal,
    ) -> Option<About>
        requires { is_known_among (length self.now.bitmaps) caller.0 ≡ true }
        ensures { result ≡ about_set (length self.now.bitmaps) self.now caller.0 receiver.0 bitmap refusal }
    {
        match refusal {
            Refusal::BitsNotTheCallers => {
                if receiver.is_among(self.endpoints()) {
                    first_of(bitmap & self.not_settable(receiver, caller))
                } else {
                    None
                }
            }
            _ => None,
        }
    }

    // Returns why the sender cannot get or lose this bit of the caller.
    fn mend_bits(&self, caller: EndpointId, call: &Call, about: Option<About>) -> Option<Mend>
        requires { is_known_among (length self.now.bitmaps) caller.0 ≡ true }
        ensures { result ≡ mend_bits self.now caller.0 call.now about }
    {
        match *call {
            Call::NotificationBind(bits) => self.mend_bit(
                caller,
                bits.sender,
                Cause::BitTaken,
                about,
            ),
            Call::NotificationUnbind(bits) => self.mend_bit(
                caller,
                bits.sender,
                Cause::BitUnbound,
                about,
            ),
            _ => None,
        }
    }

    // Returns that a bit is pending, or else this cause.
    fn mend_bit(
        &self,
        caller: EndpointId,
        sender: EndpointId,
        cause: Cause,
        about: Option<About>,
    ) -> Option<Mend>
        requires { is_known_among (length self.now.bitmaps) caller.0 ≡ true }
        ensures { result ≡ mend_bit self.now caller.0 sender.0 cause about }
    {
        match about {
            Some(About::Bit(bit)) if bit < 64 => {
                Some(Mend::Cause(if self.is_pending(caller, sender, bit) {
                    Cause::BitPending
                } else {
                    cause
                }))
            }
            _ => None,
        }
    }

    // Whether a bit of a receiver, in a sender's class, is pending.
    fn is_pending(&self, receiver: EndpointId, sender: EndpointId, bit: u32) -> bool
        requires receiver { is_known_among (length self.now.bitmaps) receiver.0 ≡ true }
        requires bit { bit < 64 }
        ensures { result ≡ is_pending self.now receiver.0 (class_of sender.0) bit }
    {
        self.pending(receiver, Class::of(sender)) >> bit & 1 == 1
    }

    /// Returns the lowest bit of a receiver that is pending, in any class. Returns `None` if no bit is pending.
    pub fn mend_pending(&self, receiver: EndpointId) -> Option<Mend>
        requires { is_known_among (length self.now.bitmaps) receiver.0 ≡ true }
        ensures { result ≡ mend_pending self.now receiver.0 }
    {
        least_of(self.pending_in_any(receiver))
    }

    // Returns the bits of a receiver that are pending, in any class.
    fn pending_in_any(&self, receiver: EndpointId) -> u64
        requires { is_known_among (length self.now.bitmaps) receiver.0 ≡ true }
        ensures { (k : ℕ) → k < 64 → is_set k result ≡ is_pending_in_any self.now receiver.0 k }
    {
        let partitions = self.pending(receiver, Class::Partitions);
        let normal_world = self.pending(receiver, Class::NormalWorld);
        let manager = self.pending(receiver, Class::Manager);
        partitions | normal_world | manager
    }
}

// Returns the lowest bit that is set, as the thing that a check is about.
fn first_of(mask: u64) -> Option<About>
    ensures { result ≡ option_map (λ (k : ℕ). Bit k) (find (λ k. is_set k mask) (listed 64 (λ k. k))) }
{
    if mask == 0 {
        return None;
    }
    Some(About::Bit(mask.trailing_zeros()))
}

// Returns the lowest bit that is set, as a pending bit.
fn least_of(bits: u64) -> Option<Mend>
    ensures { result ≡ option_map (λ (k : ℕ). Mend.Pending k) (find (λ k. is_set k bits) (listed 64 (λ k. k))) }
{
    if bits == 0 {
        return None;
    }
    Some(Mend::Pending(bits.trailing_zeros()))
}
