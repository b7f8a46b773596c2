// SPDX-License-Identifier: MIT OR Apache-2.0
//! Replies to calls that a part of the machine has done or refused.
ghost use Rattle.std.specs.Prelude.{◌≡◌};
ghost use Rattle.ffa_model.specs.MemorySend.{handle_reply};
ghost use Rattle.ffa_spmc.specs.Replies.{done_or_error, message_or_error, reply_or_error, value_reply};

use ffa_memshare::Value;
use ffa_model::{DirectMessage, ErrorCode, Handle, Reply};

/// The reply to a call that only reports its success.
pub(crate) const DONE: Reply = Reply::Success([0; 6]);

// Returns the reply to a call that can only succeed or be refused.
pub(crate) fn done_or_error(answer: Result<(), ErrorCode>) -> Reply
    ensures { result ≡ done_or_error answer }
{
    match answer {
        Ok(()) => DONE,
        Err(code) => Reply::Error(code),
    }
}

// Returns the reply of a call that succeeded, or the error code of a call that was refused.
pub(crate) fn reply_or_error(answer: Result<Reply, ErrorCode>) -> Reply
    ensures { result ≡ reply_or_error answer }
{
    match answer {
        Ok(reply) => reply,
        Err(code) => Reply::Error(code),
    }
}

// Returns the reply to a direct message: the message itself if it was passed on, or the error code if it was refused.
#[inline(always)]
pub(crate) fn message_or_error(message: &DirectMessage, answer: Result<(), ErrorCode>) -> Reply
    ensures { result ≡ message_or_error message.now answer }
{
    match answer {
        Ok(()) => Reply::Passed(*message),
        Err(code) => Reply::Error(code),
    }
}

// Returns the reply to a call on memory that succeeded with this value.
#[inline(always)]
pub(crate) fn value_reply(value: Value) -> Reply
    ensures { result ≡ value_reply value }
{
    match value {
        Value::Nothing => DONE,
        Value::Handle(handle) => handle_reply(handle),
        Value::Size(size) => Reply::Retrieved(size),
    }
}

// Returns the reply to a send that succeeded, with this handle.
pub(crate) fn handle_reply(handle: u64) -> Reply
    ensures { result ≡ handle_reply handle }
{
    Reply::Sent(Handle(handle))
}
