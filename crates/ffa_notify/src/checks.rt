// SPDX-License-Identifier: MIT OR Apache-2.0
//! The checks of the calls of notifications (DEN0077A, 16). Each function returns the first check that fails.
ghost use Rattle.std.specs.Prelude.{◌≡◌, ◌==◌, ◌||◌, true, Bool, List, length, Some, OnOk, IfErr};
ghost use Rattle.std.specs.Result.{result_err};
ghost use Rattle.ffa_model.specs.Calls.{first_refusal};
ghost use Rattle.ffa_model.specs.Notifications.{bind_guards, create_guards, destroy_guards, get_guards, is_context, is_context_count, sender_guards, set_guards, unbind_guards};
ghost use Rattle.ffa_model.specs.Notices.{notice_guards};
ghost use Rattle.ffa_model.specs.State.{is_known_among};

use crate::bitmaps::Bitmaps;
use ffa_model::{EndpointId, Ffa, MOST_PROCESSORS, NotificationBits, Refusal};

/// The flag of FFA_NOTIFICATION_SET that delays the schedule receiver interrupt. There is no such interrupt.
const DELAY_INTERRUPT: u32 = 2;

impl Bitmaps {
    /// Makes the checks of FFA_NOTIFICATION_BITMAP_CREATE, on a machine of this version of FF-A. Nothing changes.
    ///
    /// # Errors
    ///
    /// The first check of the call that fails.
    pub fn check_create(
        &self,
        ffa: Ffa,
        caller: EndpointId,
        endpoint: u32,
        contexts: u32,
    ) -> Result<(), Refusal>
        ensures refusal { result_err result ≡ first_refusal (create_guards ffa self.now caller.0 endpoint contexts) }
    {
        if !is_normal_world(caller) {
            return Err(Refusal::NotNormalWorld);
        }
        if endpoint != 0 {
            return Err(Refusal::EndpointNotNormalWorld);
        }
        if !is_context_count(ffa, contexts) {
            return Err(Refusal::ContextCount);
        }
        if self.has(EndpointId::NORMAL_WORLD) {
            return Err(Refusal::BitmapsExist);
        }
        Ok(())
    }

    /// Makes the checks of FFA_NOTIFICATION_BITMAP_DESTROY. Nothing changes.
    ///
    /// # Errors
    ///
    /// The first check of the call that fails.
    pub fn check_destroy(&self, caller: EndpointId, endpoint: u32) -> Result<(), Refusal>
        ensures refusal { result_err result ≡ first_refusal (destroy_guards self.now caller.0 endpoint) }
    {
        if !is_normal_world(caller) {
            return Err(Refusal::NotNormalWorld);
        }
        if endpoint != 0 {
            return Err(Refusal::EndpointNotNormalWorld);
        }
        if !self.has(EndpointId::NORMAL_WORLD) {
            return Err(Refusal::BitmapsMissing);
        }
        if self.has_pending(EndpointId::NORMAL_WORLD) {
            return Err(Refusal::BitsPending);
        }
        Ok(())
    }

    /// Makes the checks of FFA_NOTIFICATION_BIND. Nothing changes.
    ///
    /// # Errors
    ///
    /// The first check of the call that fails.
    pub fn check_bind(&self, caller: EndpointId, bits: &NotificationBits) -> Result<(), Refusal>
        requires { is_known_among (length self.now.bitmaps) caller.0 ≡ true }
        ensures refusal { result_err result
            ≡ first_refusal (bind_guards (length self.now.bitmaps) self.now caller.0 bits.now) }
        ensures known { OnOk result (is_known_among (length self.now.bitmaps) bits.now.sender.0 ≡ true) }
    {
        self.check_sender(caller, bits)?;
        if !self.is_bindable(caller, bits.sender, bits.bitmap) {
            return Err(Refusal::BitsTaken);
        }
        Ok(())
    }

    /// Makes the checks of FFA_NOTIFICATION_UNBIND. Nothing changes.
    ///
    /// # Errors
    ///
    /// The first check of the call that fails.
    pub fn check_unbind(&self, caller: EndpointId, bits: &NotificationBits) -> Result<(), Refusal>
        requires { is_known_among (length self.now.bitmaps) caller.0 ≡ true }
        ensures refusal { result_err result
            ≡ first_refusal (unbind_guards (length self.now.bitmaps) self.now caller.0 bits.now) }
        ensures known { OnOk result (is_known_among (length self.now.bitmaps) bits.now.sender.0 ≡ true) }
    {
        self.check_sender(caller, bits)?;
        if !self.is_unbindable(caller, bits.sender, bits.bitmap) {
            return Err(Refusal::BitsNotTheSenders);
        }
        Ok(())
    }

    /// Makes the checks of FFA_NOTIFICATION_SET. Nothing changes.
    ///
    /// # Errors
    ///
    /// The first check of the call that fails.
    pub fn check_set(&self, caller: EndpointId, bits: &NotificationBits) -> Result<(), Refusal>
        requires { is_known_among (length self.now.bitmaps) caller.0 ≡ true }
        ensures refusal { result_err result
            ≡ first_refusal (set_guards (length self.now.bitmaps) self.now caller.0 bits.now) }
        ensures known { OnOk result (is_known_among (length self.now.bitmaps) bits.now.receiver.0 ≡ true) }
    {
        if bits.sender != caller {
            return Err(Refusal::SenderIsAnother);
        }
        if !bits.receiver.is_among(self.endpoints()) {
            return Err(Refusal::ReceiverUnknown);
        }
        if bits.receiver == caller {
            return Err(Refusal::ReceiverIsCaller);
        }
        if !has_set_flags(bits.flags) {
            return Err(Refusal::FlagsReserved);
        }
        if bits.bitmap == 0 {
            return Err(Refusal::BitsNone);
        }
        if !self.is_settable(bits.receiver, caller, bits.bitmap) {
            return Err(Refusal::BitsNotTheCallers);
        }
        Ok(())
    }

    /// Makes the checks of FFA_NOTIFICATION_GET, on a machine of this version of FF-A. Nothing changes.
    ///
    /// # Errors
    ///
    /// The first check of the call that fails.
    pub fn check_get(
        &self,
        ffa: Ffa,
        caller: EndpointId,
        receiver: EndpointId,
        context: u16,
        flags: u32,
    ) -> Result<(), Refusal>
        ensures refusal { result_err result
            ≡ first_refusal (get_guards ffa self.now caller.0 receiver.0 context flags) }
    {
        if receiver != caller {
            return Err(Refusal::ReceiverIsAnother);
        }
        if !is_context(ffa, caller, context) {
            return Err(Refusal::ContextUnknown);
        }
        if flags > 15 {
            return Err(Refusal::ClassesUnknown);
        }
        if !self.has(caller) {
            return Err(Refusal::BitmapsMissing);
        }
        Ok(())
    }

    /// Makes the checks of FFA_NOTIFICATION_INFO_GET, on a machine of this version of FF-A. Nothing changes.
    ///
    /// # Errors
    ///
    /// The first check of the call that fails.
    pub fn check_info(&self, ffa: Ffa, caller: EndpointId) -> Result<(), Refusal>
        ensures refusal { result_err result
            ≡ first_refusal (notice_guards ffa (length self.now.bitmaps) self.now caller.0) }
    {
        if !ffa.tells_notices(caller) {
            return Err(Refusal::FunctionUnknown);
        }
        if !self.has_notices() {
            return Err(Refusal::NothingToTell);
        }
        Ok(())
    }

    // Makes the checks that FFA_NOTIFICATION_BIND and FFA_NOTIFICATION_UNBIND have first: the receiver is the caller,
    // the sender is another endpoint, no flag is set, a bit is, and the caller has bitmaps.
    fn check_sender(&self, caller: EndpointId, bits: &NotificationBits) -> Result<(), Refusal>
        ensures refused { IfErr result (λ refusal. (rest : List (Bool × Refusal)) →
            first_refusal (sender_guards (length self.now.bitmaps) self.now caller.0 bits.now rest) ≡ Some refusal) }
        ensures passed { OnOk result ((rest : List (Bool × Refusal)) →
            first_refusal (sender_guards (length self.now.bitmaps) self.now caller.0 bits.now rest)
            ≡ first_refusal rest) }
        ensures known { OnOk result (is_known_among (length self.now.bitmaps) bits.now.sender.0 ≡ true) }
    {
        if bits.receiver != caller {
            return Err(Refusal::ReceiverIsAnother);
        }
        if !bits.sender.is_among(self.endpoints()) {
            return Err(Refusal::SenderUnknown);
        }
        if bits.sender == caller {
            return Err(Refusal::SenderIsCaller);
        }
        if bits.flags != 0 {
            return Err(Refusal::FlagsReserved);
        }
        if bits.bitmap == 0 {
            return Err(Refusal::BitsNone);
        }
        if !self.has(caller) {
            return Err(Refusal::BitmapsMissing);
        }
        Ok(())
    }
}

// Whether this is the normal world.
fn is_normal_world(endpoint: EndpointId) -> bool
    ensures { result ≡ (endpoint.0 == 0) }
{
    endpoint == EndpointId::NORMAL_WORLD
}

// Whether the normal world may have this number of execution contexts: one in FF-A 1.1, and one to `MOST_PROCESSORS` in
// FF-A 1.2.
fn is_context_count(ffa: Ffa, contexts: u32) -> bool
    ensures { result ≡ is_context_count ffa contexts }
{
    match ffa {
        Ffa::V1_1 => contexts == 1,
        Ffa::V1_2 => contexts >= 1 && contexts as usize <= MOST_PROCESSORS,
    }
}

// Whether an endpoint has this execution context, counted from 0. A partition has only context 0, and so has the normal
// world in FF-A 1.1. In FF-A 1.2 the normal world has `MOST_PROCESSORS` contexts.
fn is_context(ffa: Ffa, endpoint: EndpointId, context: u16) -> bool
    ensures { result ≡ is_context ffa endpoint.0 context }
{
    match ffa {
        Ffa::V1_1 => context == 0,
        Ffa::V1_2 => {
            context == 0 || (is_normal_world(endpoint) && (context as usize) < MOST_PROCESSORS)
        }
    }
}

// Whether FFA_NOTIFICATION_SET allows these flags.
fn has_set_flags(flags: u32) -> bool
    ensures { result ≡ (flags == 0 || flags == 2) }
{
    flags == 0 || flags == DELAY_INTERRUPT
}
