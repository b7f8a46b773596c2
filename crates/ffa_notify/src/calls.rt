// SPDX-License-Identifier: MIT OR Apache-2.0
//! The calls of notifications (DEN0077A, 16).
ghost use Rattle.std.specs.Prelude.{◌≡◌, true, length, OnOk, OnErr, IfOk};
ghost use Rattle.std.specs.Result.{result_err};
ghost use Rattle.ffa_model.specs.Bits.{bits_of};
ghost use Rattle.ffa_model.specs.Calls.{first_failure};
ghost use Rattle.ffa_model.specs.Notifications.{bind_guards, class_of, create_guards, destroy_guards, get_guards, get_reply, set_guards, unbind_guards, with_bitmaps, with_bound, manager_class, message_bits, with_set, without_bitmaps, without_bound, without_pending};
ghost use Rattle.ffa_model.specs.Notices.{endpoints_to_tell, notice_guards, notice_reply, without_notices};
ghost use Rattle.ffa_model.specs.State.{is_known_among};

use crate::bitmaps::Bitmaps;
use crate::class::Class;
use crate::notices::notice_reply;
use ffa_model::{EndpointId, ErrorCode, Ffa, NotificationBits, Reply};

impl Bitmaps {
    /// Creates the bitmaps of the normal world: FFA_NOTIFICATION_BITMAP_CREATE on a machine of this version of FF-A.
    /// The call names an endpoint with this number of execution contexts.
    ///
    /// # Errors
    ///
    /// The first of these that applies. An error changes nothing.
    ///
    /// - `Denied`: the caller is not the normal world.
    /// - `InvalidParameters`: the endpoint is not the normal world.
    /// - `InvalidParameters`: the number of contexts is not allowed. FF-A 1.1 allows 1, and FF-A 1.2 allows 1 to
    ///   `MOST_PROCESSORS`.
    /// - `Denied`: the normal world has bitmaps already.
    pub fn create(
        &mut self,
        ffa: Ffa,
        caller: EndpointId,
        endpoint: u32,
        contexts: u32,
    ) -> Result<(), ErrorCode>
        ensures refusal { result_err result ≡ first_failure (create_guards ffa self.old caller.0 endpoint contexts) }
        ensures kept { OnErr result (self.new ≡ self.old) }
        ensures created { OnOk result (self.new ≡ with_bitmaps self.old 0) }
    {
        self.check_create(ffa, caller, endpoint, contexts)?;
        self.give(EndpointId::NORMAL_WORLD);
        Ok(())
    }

    /// Destroys the bitmaps of the normal world, so that no endpoint may set its bits: FFA_NOTIFICATION_BITMAP_DESTROY.
    ///
    /// # Errors
    ///
    /// The first of these that applies. An error changes nothing.
    ///
    /// - `Denied`: the caller is not the normal world.
    /// - `InvalidParameters`: the endpoint is not the normal world.
    /// - `Denied`: the normal world has no bitmaps, or one of its bits is pending.
    pub fn destroy(&mut self, caller: EndpointId, endpoint: u32) -> Result<(), ErrorCode>
        ensures refusal { result_err result ≡ first_failure (destroy_guards self.old caller.0 endpoint) }
        ensures kept { OnErr result (self.new ≡ self.old) }
        ensures destroyed { OnOk result (self.new ≡ without_bitmaps self.old 0) }
    {
        self.check_destroy(caller, endpoint)?;
        self.take_away();
        Ok(())
    }

    /// Lets the sender set these bits of the caller: FFA_NOTIFICATION_BIND.
    ///
    /// # Errors
    ///
    /// The first of these that applies. An error changes nothing.
    ///
    /// - `InvalidParameters`: the receiver is not the caller, the sender is not another endpoint, a flag is set, or no
    ///   bit is.
    /// - `Denied`: the caller has no bitmaps, another sender of the class may set one of the bits, or one of them is
    ///   pending.
    pub fn bind(&mut self, caller: EndpointId, bits: &NotificationBits) -> Result<(), ErrorCode>
        requires { is_known_among (length self.old.bitmaps) caller.0 ≡ true }
        ensures refusal { result_err result
            ≡ first_failure (bind_guards (length self.old.bitmaps) self.old caller.0 bits.now) }
        ensures kept { OnErr result (self.new ≡ self.old) }
        ensures bound { OnOk result (self.new
            ≡ with_bound self.old caller.0 bits.now.sender.0 (bits_of bits.now.bitmap)) }
    {
        self.check_bind(caller, bits)?;
        self.bind_bits(caller, bits.sender, bits.bitmap);
        Ok(())
    }

    /// No longer lets the sender set these bits of the caller: FFA_NOTIFICATION_UNBIND.
    ///
    /// # Errors
    ///
    /// The first of these that applies. An error changes nothing.
    ///
    /// - `InvalidParameters`: the receiver is not the caller, the sender is not another endpoint, a flag is set, or no
    ///   bit is.
    /// - `Denied`: the caller has no bitmaps, the sender may not set one of the bits, or one of them is pending.
    pub fn unbind(&mut self, caller: EndpointId, bits: &NotificationBits) -> Result<(), ErrorCode>
        requires { is_known_among (length self.old.bitmaps) caller.0 ≡ true }
        ensures refusal { result_err result
            ≡ first_failure (unbind_guards (length self.old.bitmaps) self.old caller.0 bits.now) }
        ensures kept { OnErr result (self.new ≡ self.old) }
        ensures unbound { OnOk result (self.new
            ≡ without_bound self.old caller.0 bits.now.sender.0 (bits_of bits.now.bitmap)) }
    {
        self.check_unbind(caller, bits)?;
        self.unbind_bits(caller, bits.sender, bits.bitmap);
        Ok(())
    }

    /// Makes these bits of the receiver pending, if it has bitmaps: FFA_NOTIFICATION_SET. If one of them was not
    /// pending before, there is a notice, which FFA_NOTIFICATION_INFO_GET reports to the normal world.
    ///
    /// # Errors
    ///
    /// The first of these that applies. An error changes nothing.
    ///
    /// - `InvalidParameters`: the sender is not the caller, or the receiver is not another endpoint.
    /// - `InvalidParameters`: a flag is set other than the one that delays the schedule receiver interrupt, or no bit
    ///   is set.
    /// - `Denied`: the caller may not set one of the bits.
    pub fn set(&mut self, caller: EndpointId, bits: &NotificationBits) -> Result<(), ErrorCode>
        requires { is_known_among (length self.old.bitmaps) caller.0 ≡ true }
        ensures refusal { result_err result
            ≡ first_failure (set_guards (length self.old.bitmaps) self.old caller.0 bits.now) }
        ensures kept { OnErr result (self.new ≡ self.old) }
        ensures pending { OnOk result (self.new
            ≡ with_set self.old bits.now.receiver.0 (class_of caller.0) (bits_of bits.now.bitmap)) }
    {
        self.check_set(caller, bits)?;
        self.set_bits(bits.receiver, Class::of(caller), bits.bitmap);
        Ok(())
    }

    /// Returns the caller's pending bits of the classes that the flags select, and clears them: FFA_NOTIFICATION_GET.
    /// The machine is of this version of FF-A, and the call names a receiver and one of its execution contexts. The
    /// bits are the same in each context. The notices of these classes are removed too.
    ///
    /// # Errors
    ///
    /// The first of these that applies. An error changes nothing.
    ///
    /// - `InvalidParameters`: the receiver is not the caller.
    /// - `InvalidParameters`: the caller does not have the context. It has context 0. In FF-A 1.2 the normal world has
    ///   `MOST_PROCESSORS` contexts, counted from 0.
    /// - `InvalidParameters`: the flags select a class other than the four of bits 0 to 3.
    /// - `Denied`: the caller has no bitmaps.
    pub fn get(
        &mut self,
        ffa: Ffa,
        caller: EndpointId,
        receiver: EndpointId,
        context: u16,
        flags: u32,
    ) -> Result<Reply, ErrorCode>
        requires { is_known_among (length self.old.bitmaps) caller.0 ≡ true }
        ensures refusal { result_err result
            ≡ first_failure (get_guards ffa self.old caller.0 receiver.0 context flags) }
        ensures reply { IfOk result (λ reply. reply ≡ get_reply self.old caller.0 flags) }
        ensures kept { OnErr result (self.new ≡ self.old) }
        ensures cleared { OnOk result (self.new ≡ without_pending self.old caller.0 flags) }
    {
        self.check_get(ffa, caller, receiver, context, flags)?;
        let reply = self.pending_reply(caller, flags);
        self.clear_asked(caller, flags);
        Ok(reply)
    }

    /// Returns each endpoint that has a notice, the lowest identifier first, and removes all notices:
    /// FFA_NOTIFICATION_INFO_GET. The machine is of this version of FF-A. `is_wide` is true for the form whose answer
    /// fills 64-bit registers.
    ///
    /// # Errors
    ///
    /// The first of these that applies. An error changes nothing.
    ///
    /// - `NotSupported`: the caller is not the normal world, or the machine is of FF-A 1.1.
    /// - `NoData`: there is no notice.
    pub fn info_get(
        &mut self,
        ffa: Ffa,
        caller: EndpointId,
        is_wide: bool,
    ) -> Result<Reply, ErrorCode>
        ensures refusal { result_err result
            ≡ first_failure (notice_guards ffa (length self.old.bitmaps) self.old caller.0) }
        ensures reply { IfOk result (λ reply. reply
            ≡ notice_reply is_wide (endpoints_to_tell (length self.old.bitmaps) self.old)) }
        ensures kept { OnErr result (self.new ≡ self.old) }
        ensures told { OnOk result (self.new ≡ without_notices self.old) }
    {
        self.check_info(ffa, caller)?;
        let reply = notice_reply(is_wide, &self.endpoints_to_tell());
        self.drop_notices();
        Ok(reply)
    }

    /// Sets the manager's bit of a receiver, if it has bitmaps, because an indirect message is in its RX.
    pub fn raise_framework(&mut self, receiver: EndpointId)
        requires { is_known_among (length self.old.bitmaps) receiver.0 ≡ true }
        ensures { self.new ≡ with_set self.old receiver.0 manager_class message_bits }
    {
        self.set_bits(receiver, Class::Manager, 1);
    }
}
