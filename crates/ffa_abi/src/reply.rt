// SPDX-License-Identifier: MIT OR Apache-2.0
//! Replies in registers.
ghost use Rattle.std.specs.Prelude.{◌≡◌};
ghost use Rattle.ffa_model.specs.Bits.{bits, word_of_two};
ghost use Rattle.ffa_model.specs.Calls.{code_number, encode};
ghost use Rattle.ffa_model.specs.declared.call.Reply.{Reply};

use ffa_model::function::{FFA_ERROR, FFA_MEM_RETRIEVE_RESP, FFA_SUCCESS, FFA_SUCCESS_64};
use ffa_model::{DirectMessage, EndpointId, ErrorCode, Handle, Reply};

// Returns FF-A's number of an error code, as 32 bits of two's complement (DEN0077A, 11.2).
#[inline(always)]
fn code_number(code: ErrorCode) -> u32
    ensures { result ≡ code_number code }
{
    match code {
        ErrorCode::NotSupported => 0xFFFF_FFFF,
        ErrorCode::InvalidParameters => 0xFFFF_FFFE,
        ErrorCode::NoMemory => 0xFFFF_FFFD,
        ErrorCode::Busy => 0xFFFF_FFFC,
        ErrorCode::Denied => 0xFFFF_FFFA,
        ErrorCode::NoData => 0xFFFF_FFF7,
    }
}

// Returns the registers of FFA_SUCCESS, with w2 to w7.
#[inline(always)]
fn success_registers(results: [u32; 6]) -> [u64; 8]
    ensures { result ≡ encode (Reply.Success results) }
{
    let [w2, w3, w4, w5, w6, w7] = results.map(u64::from);
    [u64::from(FFA_SUCCESS), 0, w2, w3, w4, w5, w6, w7]
}

// Returns the low half of a word.
fn low_word(word: u64) -> u64
    ensures { result ≡ bits 31 0 word }
{
    word % 0x1_0000_0000
}

// Returns the high half of a word.
fn high_word(word: u64) -> u64
    ensures { result ≡ bits 63 32 word }
{
    word / 0x1_0000_0000
}

// Returns the registers of FFA_SUCCESS with a handle.
#[inline(always)]
fn handle_registers(handle: Handle) -> [u64; 8]
    ensures { result ≡ encode (Reply.Sent handle) }
{
    let (low, high) = (low_word(handle.0), high_word(handle.0));
    [u64::from(FFA_SUCCESS), 0, low, high, 0, 0, 0, 0]
}

// Returns the registers of FFA_SUCCESS with bitmaps of pending notifications.
#[inline(always)]
fn pending_registers(partitions: u64, normal_world: u64, manager: u64) -> [u64; 8]
    ensures { result ≡ encode (Reply.Pending partitions normal_world manager) }
{
    let (w2, w3) = (low_word(partitions), high_word(partitions));
    let (w4, w5) = (low_word(normal_world), high_word(normal_world));
    [
        u64::from(FFA_SUCCESS),
        0,
        w2,
        w3,
        w4,
        w5,
        low_word(manager),
        0,
    ]
}

// Returns the registers of a direct message, as its receiver sees it.
#[inline(always)]
fn message_registers(message: &DirectMessage) -> [u64; 8]
    ensures { result ≡ encode (Reply.Passed message.now) }
{
    let w0 = u64::from(message.function);
    let w1 = u64::from(word_of_two(message.sender.0, message.receiver.0));
    let [x3, x4, x5, x6, x7] = message.payload;
    [w0, w1, 0, x3, x4, x5, x6, x7]
}

// Returns the registers that report a partition which gets cycles or returns them. The partition and its execution
// context 0 are in w1.
#[inline(always)]
fn cycles_registers(function: u32, partition: EndpointId) -> [u64; 8]
    ensures { result ≡ encode (Reply.Scheduled function partition) }
{
    let w1 = u64::from(word_of_two(partition.0, 0));
    [u64::from(function), w1, 0, 0, 0, 0, 0, 0]
}

// Returns the word of two halves.
fn word_of_two(high: u16, low: u16) -> u32
    ensures { result ≡ word_of_two high low }
{
    u32::from(high) * 0x1_0000 + u32::from(low)
}

/// Returns the registers x0 to x7 of a reply. Registers that the reply does not use, and the upper halves of 32-bit
/// values, are zero.
#[inline]
pub fn encode(reply: &Reply) -> [u64; 8]
    ensures { result ≡ encode reply.now }
{
    let mut x = [0; 8];
    encode_into(reply, &mut x);
    x
}

/// Writes the registers x0 to x7 of a reply to `x`, as `encode` returns them.
// It writes a reply where the caller needs it, so a direct message that is passed on becomes the reply. Otherwise the
// registers would be copied five times.
#[inline(never)]
pub fn encode_into(reply: &Reply, x: &mut [u64; 8])
    ensures { x.new ≡ encode reply.now }
{
    match reply {
        Reply::Version(version) => *x = [u64::from(*version), 0, 0, 0, 0, 0, 0, 0],
        Reply::Error(code) => {
            let w2 = u64::from(code_number(*code));
            *x = [u64::from(FFA_ERROR), 0, w2, 0, 0, 0, 0, 0]
        }
        Reply::Success(results) => *x = success_registers(*results),
        Reply::WideSuccess([x2, x3, x4, x5, x6, x7]) => {
            *x = [u64::from(FFA_SUCCESS_64), 0, *x2, *x3, *x4, *x5, *x6, *x7]
        }
        Reply::Sent(handle) => *x = handle_registers(*handle),
        Reply::Pending {
            partitions,
            normal_world,
            manager,
        } => *x = pending_registers(*partitions, *normal_world, *manager),
        Reply::Passed(message) => *x = message_registers(message),
        Reply::Scheduled {
            function,
            partition,
        } => *x = cycles_registers(*function, *partition),
        Reply::Retrieved(size) => {
            let size = u64::from(*size);
            *x = [u64::from(FFA_MEM_RETRIEVE_RESP), size, size, 0, 0, 0, 0, 0]
        }
    }
}
