// SPDX-License-Identifier: MIT OR Apache-2.0
//! The checks of calls that send messages (DEN0077A, 7.1 and 15). Each function returns the first check that fails.
ghost use Rattle.std.specs.Prelude.{◌≡◌, ◌+◌, ◌*◌, ◌≤◌, length, map, true, is_some, Some, OnOk, IfOk};
ghost use Rattle.std.specs.Option.{option_map};
ghost use Rattle.std.specs.Result.{result_err};
ghost use Rattle.ffa_model.specs.Buffers.{buffers_in, room_of};
ghost use Rattle.ffa_model.specs.Calls.{first_refusal};
ghost use Rattle.ffa_model.specs.First.{party_of};
ghost use Rattle.ffa_model.specs.Messages.{header_in, message_header_size, send2_guards};
ghost use Rattle.ffa_model.specs.RunStates.{is_waiting, request_guards, requester, response_guards, status_in, work_in};
ghost use Rattle.ffa_model.specs.Sound.{IsSound};
ghost use Rattle.ffa_model.specs.State.{is_known_among, is_partition_among};
ghost use Rattle.ffa_rxtx.specs.Stored.{buffers_of};
ghost use Rattle.ffa_messages.specs.Parts.{AreInRam, ends_guards, header_guards, header_of, receiver_in, sent_in, size_in};

use crate::indirect::{MessageHeader, read_header};
use crate::parties::{has_indirect_messages, receives_direct_requests, sends_direct_requests};
use ffa_model::{DirectMessage, EndpointId, Manifest, Refusal, Status, Version, Work};
use ffa_physmem::PhysMem;
use ffa_rxtx::{Buffers, Mapped};
use ffa_schedule::Chain;

/// The number of bytes of a message's header before FF-A 1.2.
const SHORT_HEADER: u32 = 20;

/// The number of bytes of a message's header in FF-A 1.2, where a reserved word and a UUID follow. The manager reads
/// neither.
const LONG_HEADER: u32 = 40;

/// Makes the checks of FFA_MSG_SEND_DIRECT_REQ of the runner. Returns the receiver, which waits. Nothing changes.
///
/// # Errors
///
/// The first check of the call that fails.
pub fn check_direct_req(
    chain: &Chain,
    manifest: &Manifest,
    message: &DirectMessage,
) -> Result<EndpointId, Refusal>
    ensures refusal { result_err result
        ≡ first_refusal (request_guards (map party_of manifest.now.endpoints.items) chain.now message.now) }
    ensures receiver { IfOk result (λ receiver. receiver.0 ≡ message.now.receiver.0) }
    ensures partition { IfOk result (λ receiver. is_partition_among (length manifest.now.endpoints.items) receiver.0
        ≡ true) }
    ensures waiting { IfOk result (λ receiver. is_waiting (status_in chain.now receiver.0) ≡ true) }
    ensures sound { IsSound chain.now }
{
    let runner = chain.runner();
    let receiver = message.receiver;
    if message.sender != runner {
        return Err(Refusal::SenderIsAnother);
    }
    if message.flags != 0 {
        return Err(Refusal::FlagsReserved);
    }
    if !receiver.is_among(manifest.endpoints.len()) {
        return Err(Refusal::ReceiverUnknown);
    }
    if receiver == runner {
        return Err(Refusal::ReceiverIsCaller);
    }
    if receiver == EndpointId::NORMAL_WORLD {
        return Err(Refusal::ReceiverIsNormalWorld);
    }
    if !sends_direct_requests(manifest, runner) {
        return Err(Refusal::RequestsUnsent);
    }
    if !receives_direct_requests(manifest, receiver) {
        return Err(Refusal::RequestsUnreceived);
    }
    if !is_waiting(chain, receiver) {
        return Err(Refusal::ReceiverNotWaiting);
    }
    Ok(receiver)
}

/// Makes the checks of FFA_MSG_SEND_DIRECT_RESP of the runner. Returns the endpoint whose request the runner works on.
/// Nothing changes.
///
/// # Errors
///
/// The first check of the call that fails.
pub fn check_direct_resp(chain: &Chain, message: &DirectMessage) -> Result<EndpointId, Refusal>
    ensures refusal { result_err result ≡ first_refusal (response_guards chain.now message.now) }
    ensures requester { IfOk result (λ by. requester (work_in chain.now chain.now.runner) ≡ Some by.0) }
    ensures receiver { IfOk result (λ by. by.0 ≡ message.now.receiver.0) }
    ensures sound { IsSound chain.now }
{
    let requester = match requester(chain) {
        Some(requester) => requester,
        None => return Err(Refusal::NoRequest),
    };
    if message.sender != chain.runner() || message.receiver != requester {
        return Err(Refusal::AnswerMisdirected);
    }
    if message.flags != 0 {
        return Err(Refusal::FlagsReserved);
    }
    Ok(requester)
}

// Whether an endpoint waits.
fn is_waiting(chain: &Chain, endpoint: EndpointId) -> bool
    ensures { result ≡ is_waiting (status_in chain.now endpoint.0) }
{
    matches!(chain.status(endpoint), Status::Waiting)
}

// Returns the endpoint whose request the runner works on, if there is one.
pub(crate) fn requester(chain: &Chain) -> Option<EndpointId>
    ensures requester { option_map (λ (by : EndpointId). by.0) result ≡ requester (work_in chain.now chain.now.runner) }
    ensures sound { IsSound chain.now }
{
    match chain.work(chain.runner()) {
        Some(Work::Request(requester)) => Some(requester),
        _ => None,
    }
}

/// An indirect message that passes the checks of FFA_MSG_SEND2: its place, its receiver and its size.
#[derive(Clone, Copy, PartialEq, Eq)]
pub struct IndirectMessage {
    /// The sender's buffers. The message begins with the first byte of TX.
    pub from: Mapped,
    pub receiver: EndpointId,
    /// The number of bytes of the message with its header.
    pub size: usize,
}

impl MessageHeader {
    // Makes the checks of a message by itself. The caller has this form, and the caller's TX has `room` bytes. Returns
    // the first check that fails.
    fn check(
        &self,
        manifest: &Manifest,
        version: Version,
        caller: EndpointId,
        room: usize,
    ) -> Result<(), Refusal>
        ensures refusal { result_err result
            ≡ first_refusal
            (header_guards (map party_of manifest.now.endpoints.items) version caller.0 room (header_of self.now)) }
        ensures fits { OnOk result (self.now.offset + self.now.size ≤ room) }
        ensures known { OnOk result (is_known_among (length manifest.now.endpoints.items) self.now.receiver.0 ≡ true) }
    {
        if self.flags != 0 {
            return Err(Refusal::FlagsReserved);
        }
        if self.reserved != 0 {
            return Err(Refusal::HeaderReserved);
        }
        if self.sender != caller {
            return Err(Refusal::SenderIsAnother);
        }
        if !self.receiver.is_among(manifest.endpoints.len()) {
            return Err(Refusal::ReceiverUnknown);
        }
        if self.receiver == caller {
            return Err(Refusal::ReceiverIsCaller);
        }
        if self.offset < header_size(version) {
            return Err(Refusal::MessageInHeader);
        }
        if self.size == 0 {
            return Err(Refusal::MessageEmpty);
        }
        if self.end() > room {
            return Err(Refusal::MessageTooLong);
        }
        Ok(())
    }

    // Makes the checks of a message's ends, which are the caller and the receiver. Returns the first check that fails.
    fn check_ends(
        &self,
        buffers: &Buffers,
        manifest: &Manifest,
        caller: EndpointId,
    ) -> Result<(), Refusal>
        ensures refusal { result_err result
            ≡ first_refusal
            (ends_guards (map party_of manifest.now.endpoints.items) buffers.now caller.0 (header_of self.now)) }
        ensures buffers { OnOk result (is_some (buffers_in buffers.now self.now.receiver.0) ≡ true) }
        ensures room { OnOk result (self.now.offset + self.now.size
            ≤ room_of (buffers_in buffers.now self.now.receiver.0)) }
    {
        if !has_indirect_messages(manifest, caller) {
            return Err(Refusal::MessagesUnsent);
        }
        if !has_indirect_messages(manifest, self.receiver) {
            return Err(Refusal::MessagesUnreceived);
        }
        let to = match buffers.of(self.receiver) {
            Some(to) => to,
            None => return Err(Refusal::ReceiverBuffersMissing),
        };
        if to.is_full {
            return Err(Refusal::ReceiverRxFull);
        }
        if self.end() > to.room() {
            return Err(Refusal::ReceiverRxSmall);
        }
        Ok(())
    }
}

// Returns the number of bytes of a message's header, by its sender's form.
fn header_size(version: Version) -> u32
    ensures { result ≡ message_header_size version }
{
    match version {
        Version::V1_2 => LONG_HEADER,
        _ => SHORT_HEADER,
    }
}

/// Makes the checks of FFA_MSG_SEND2 of a caller with this form. Returns the message. Nothing changes.
///
/// # Errors
///
/// The first check of the call that fails.
pub fn check_send2<M: PhysMem>(
    ram: &M,
    buffers: &Buffers,
    manifest: &Manifest,
    version: Version,
    caller: EndpointId,
) -> Result<IndirectMessage, Refusal>
    requires { AreInRam (length (M.ram ram.now).pages) buffers.now }
    ensures refusal { result_err result
        ≡ first_refusal
        (send2_guards (map party_of manifest.now.endpoints.items) buffers.now version caller.0
        (header_in (sent_in (M.ram ram.now) buffers.now caller.0))) }
    ensures from { IfOk result (λ message. Some (buffers_of message.from) ≡ buffers_in buffers.now caller.0) }
    ensures receiver { IfOk result (λ message. message.receiver.0 ≡ receiver_in (M.ram ram.now) buffers.now caller.0) }
    ensures size { IfOk result (λ message. message.size ≡ size_in (M.ram ram.now) buffers.now caller.0) }
    ensures fits { IfOk result (λ message. message.size ≤ 4096 * message.from.pages) }
    ensures buffers { IfOk result (λ message. is_some (buffers_in buffers.now message.receiver.0) ≡ true) }
    ensures known { IfOk result (λ message. is_known_among (length buffers.now) message.receiver.0 ≡ true) }
    ensures room { IfOk result (λ message. message.size ≤ room_of (buffers_in buffers.now message.receiver.0)) }
{
    let from = match buffers.of(caller) {
        Some(from) => from,
        None => return Err(Refusal::BuffersMissing),
    };
    let header = read_header(ram, &from);
    header.check(manifest, version, caller, from.room())?;
    header.check_ends(buffers, manifest, caller)?;
    Ok(IndirectMessage {
        from,
        receiver: header.receiver,
        size: header.end(),
    })
}
