// SPDX-License-Identifier: MIT OR Apache-2.0
//! Calls in registers.
ghost use Rattle.std.specs.Prelude.{◌≡◌, ◌<◌, is_some, slice_index};
ghost use Rattle.std.specs.Option.{unwrap_or};
ghost use Rattle.ffa_model.specs.Bits.{high_half, is_set, low_half, word_of_halves};
ghost use Rattle.ffa_model.specs.Registers.{additions, decode, functions, high_endpoint, is_function, low, low_endpoint, memory, messages, notices, notifications, setup};
ghost use Rattle.ffa_abi.specs.Parts.{called_in, bits_of_call, message_of, payload_of, transfer_of, widest};
ghost use Rattle.ffa_abi.specs.Widths.{is_read_whole, is_widened};

use crate::names::call_row;
use ffa_model::function::*;
use ffa_model::{Call, DirectMessage, EndpointId, Handle, NotificationBits, Transfer};

/// Returns the low half of a register.
pub fn low(register: u64) -> u32
    ensures { result ≡ low register }
{
    (register % (1 << 32)) as u32
}

// Returns the high half of a word.
fn high_half(word: u32) -> u16
    ensures { result ≡ high_half word }
{
    (word / 0x1_0000) as u16
}

// Returns the low half of a word.
fn low_half(word: u32) -> u16
    ensures { result ≡ low_half word }
{
    (word % 0x1_0000) as u16
}

// Returns the endpoint that the high half of a word names.
fn high_endpoint(word: u32) -> EndpointId
    ensures { result ≡ high_endpoint word }
{
    EndpointId(high_half(word))
}

// Returns the endpoint that the low half of a word names.
fn low_endpoint(word: u32) -> EndpointId
    ensures { result ≡ low_endpoint word }
{
    EndpointId(low_half(word))
}

// Returns the 64-bit word of two halves.
fn word_of_halves(low: u32, high: u32) -> u64
    ensures { result ≡ word_of_halves low high }
{
    u64::from(high) * (1 << 32) + u64::from(low)
}

// Returns the low half of a register, by its number. The low half of x0 names the function.
fn w(registers: &[u64; 8], index: usize) -> u32
    requires { index < 8 }
    ensures { result ≡ low (slice_index registers.now index) }
{
    low(registers[index])
}

// Whether this is the 64-bit form of a call, whose identifier has bit 30 set.
fn is_wide(registers: &[u64; 8]) -> bool
    ensures { result ≡ is_set 30 (low (slice_index registers.now 0)) }
{
    (w(registers, 0) >> 30) % 2 == 1
}

// Returns the whole register in the 64-bit form of a call, and its low half otherwise.
fn x(registers: &[u64; 8], index: usize) -> u64
    requires { index < 8 }
    ensures { result ≡ widest registers.now index }
{
    if is_wide(registers) {
        registers[index]
    } else {
        u64::from(w(registers, index))
    }
}

// Whether the call is of setup. If it is, the function writes it to `call`. In this and the next functions, each arm
// writes the call into its place. If they returned it by value, a compiler would keep all fields of all calls in
// registers.
fn setup(registers: &[u64; 8], call: &mut Call) -> bool
    ensures found { result ≡ is_some (called_in setup registers.now) }
    ensures call { call.new ≡ unwrap_or (called_in setup registers.now) call.old }
{
    match w(registers, 0) {
        FFA_VERSION => {
            *call = Call::Version {
                version: w(registers, 1),
            }
        }
        FFA_FEATURES => {
            *call = Call::Features {
                function: w(registers, 1),
            }
        }
        FFA_RX_RELEASE => *call = Call::RxRelease,
        FFA_RXTX_MAP | FFA_RXTX_MAP_64 => {
            *call = Call::RxtxMap {
                tx: x(registers, 1),
                rx: x(registers, 2),
                pages: w(registers, 3),
            }
        }
        FFA_RXTX_UNMAP => {
            *call = Call::RxtxUnmap {
                endpoint: w(registers, 1),
            }
        }
        FFA_PARTITION_INFO_GET => {
            *call = Call::PartitionInfoGet {
                uuid: [
                    w(registers, 1),
                    w(registers, 2),
                    w(registers, 3),
                    w(registers, 4),
                ],
                flags: w(registers, 5),
            }
        }
        FFA_ID_GET => *call = Call::IdGet,
        _ => return false,
    }
    true
}

// Whether the call is of run states or a direct message.
fn message(registers: &[u64; 8], call: &mut Call) -> bool
    ensures found { result ≡ is_some (called_in messages registers.now) }
    ensures call { call.new ≡ unwrap_or (called_in messages registers.now) call.old }
{
    match w(registers, 0) {
        FFA_MSG_WAIT => {
            *call = Call::MsgWait {
                flags: w(registers, 2),
            }
        }
        FFA_YIELD => *call = Call::Yield,
        FFA_RUN => {
            *call = Call::Run {
                target: high_endpoint(w(registers, 1)),
                context: low_half(w(registers, 1)),
            }
        }
        FFA_MSG_SEND_DIRECT_REQ | FFA_MSG_SEND_DIRECT_REQ_64 => {
            *call = Call::DirectRequest(direct_message(registers))
        }
        FFA_MSG_SEND_DIRECT_RESP | FFA_MSG_SEND_DIRECT_RESP_64 => {
            *call = Call::DirectResponse(direct_message(registers))
        }
        _ => return false,
    }
    true
}

// Returns a direct message, in either form.
#[inline(always)]
fn direct_message(registers: &[u64; 8]) -> DirectMessage
    ensures { result ≡ message_of registers.now }
{
    DirectMessage {
        function: w(registers, 0),
        sender: high_endpoint(w(registers, 1)),
        receiver: low_endpoint(w(registers, 1)),
        flags: w(registers, 2),
        payload: payload(registers),
    }
}

// Returns the values that a direct message carries in x3 to x7.
#[inline(always)]
fn payload(registers: &[u64; 8]) -> [u64; 5]
    ensures { result ≡ payload_of registers.now }
{
    [
        x(registers, 3),
        x(registers, 4),
        x(registers, 5),
        x(registers, 6),
        x(registers, 7),
    ]
}

// Returns the arguments of a call whose descriptor is in TX.
fn transfer(registers: &[u64; 8]) -> Transfer
    ensures { result ≡ transfer_of registers.now }
{
    Transfer {
        total: w(registers, 1),
        fragment: w(registers, 2),
        address: x(registers, 3),
        pages: w(registers, 4),
    }
}

// Whether the call is of memory.
fn memory(registers: &[u64; 8], call: &mut Call) -> bool
    ensures found { result ≡ is_some (called_in memory registers.now) }
    ensures call { call.new ≡ unwrap_or (called_in memory registers.now) call.old }
{
    match w(registers, 0) {
        FFA_MEM_DONATE | FFA_MEM_DONATE_64 => *call = Call::MemDonate(transfer(registers)),
        FFA_MEM_LEND | FFA_MEM_LEND_64 => *call = Call::MemLend(transfer(registers)),
        FFA_MEM_SHARE | FFA_MEM_SHARE_64 => *call = Call::MemShare(transfer(registers)),
        FFA_MEM_RETRIEVE_REQ | FFA_MEM_RETRIEVE_REQ_64 => {
            *call = Call::MemRetrieve(transfer(registers))
        }
        FFA_MEM_RELINQUISH => *call = Call::MemRelinquish,
        FFA_MEM_RECLAIM => {
            *call = Call::MemReclaim {
                handle: Handle(word_of_halves(w(registers, 1), w(registers, 2))),
                flags: w(registers, 3),
            }
        }
        _ => return false,
    }
    true
}

// Whether the call is of notifications.
fn notification(registers: &[u64; 8], call: &mut Call) -> bool
    ensures found { result ≡ is_some (called_in notifications registers.now) }
    ensures call { call.new ≡ unwrap_or (called_in notifications registers.now) call.old }
{
    match w(registers, 0) {
        FFA_NOTIFICATION_BITMAP_CREATE => {
            *call = Call::BitmapCreate {
                endpoint: w(registers, 1),
                contexts: w(registers, 2),
            }
        }
        FFA_NOTIFICATION_BITMAP_DESTROY => {
            *call = Call::BitmapDestroy {
                endpoint: w(registers, 1),
            }
        }
        FFA_NOTIFICATION_BIND => *call = Call::NotificationBind(notification_bits(registers)),
        FFA_NOTIFICATION_UNBIND => *call = Call::NotificationUnbind(notification_bits(registers)),
        FFA_NOTIFICATION_SET => *call = Call::NotificationSet(notification_bits(registers)),
        FFA_NOTIFICATION_GET => {
            *call = Call::NotificationGet {
                receiver: low_endpoint(w(registers, 1)),
                context: high_half(w(registers, 1)),
                flags: w(registers, 2),
            }
        }
        _ => return false,
    }
    true
}

// Returns the notification bits of a call, with their receiver and their sender.
fn notification_bits(registers: &[u64; 8]) -> NotificationBits
    ensures { result ≡ bits_of_call registers.now }
{
    NotificationBits {
        sender: high_endpoint(w(registers, 1)),
        receiver: low_endpoint(w(registers, 1)),
        flags: w(registers, 2),
        bitmap: word_of_halves(w(registers, 3), w(registers, 4)),
    }
}

// Whether version 1.1 added the call.
fn addition(registers: &[u64; 8], call: &mut Call) -> bool
    ensures found { result ≡ is_some (called_in additions registers.now) }
    ensures call { call.new ≡ unwrap_or (called_in additions registers.now) call.old }
{
    match w(registers, 0) {
        FFA_SPM_ID_GET => *call = Call::SpmIdGet,
        FFA_MSG_SEND2 => *call = Call::MsgSend2,
        _ => return false,
    }
    true
}

// Whether the call is of notices.
fn notice(registers: &[u64; 8], call: &mut Call) -> bool
    ensures found { result ≡ is_some (called_in notices registers.now) }
    ensures call { call.new ≡ unwrap_or (called_in notices registers.now) call.old }
{
    match w(registers, 0) {
        FFA_NOTIFICATION_INFO_GET => *call = Call::NotificationInfoGet { is_wide: false },
        FFA_NOTIFICATION_INFO_GET_64 => *call = Call::NotificationInfoGet { is_wide: true },
        _ => return false,
    }
    true
}

/// Returns the call that the registers x0 to x7 hold. The low half of x0 names the call. Its other arguments are the
/// low halves of registers, except those that the 64-bit form of the call widens.
pub fn decode(x: [u64; 8]) -> Call
    ensures { result ≡ decode x }
{
    let mut call = Call::Unknown;
    decode_into(&x, &mut call);
    call
}

/// Writes the call that the registers x0 to x7 hold to `call`, as `decode` returns it.
#[inline(never)]
pub fn decode_into(x: &[u64; 8], call: &mut Call)
    ensures { call.new ≡ decode x.now }
{
    if !is_called(x, call) {
        *call = Call::Unknown;
    }
}

// Whether the registers name a call. If they do, the function writes it to `call`.
fn is_called(registers: &[u64; 8], call: &mut Call) -> bool
    ensures found { result ≡ is_some (called_in functions registers.now) }
    ensures call { call.new ≡ unwrap_or (called_in functions registers.now) call.old }
{
    setup(registers, call)
        || message(registers, call)
        || memory(registers, call)
        || notification(registers, call)
        || addition(registers, call)
        || notice(registers, call)
}

/// Whether the call that the registers hold reads this register whole, as the 64-bit form of some calls does. Otherwise
/// it reads only the low half.
// A subject of a reason does not have its width, because that would change each clause that mentions a subject.
#[tactic(auto, unfolding(crate::specs::Widths::is_read_whole))]
pub fn is_read_whole(x: &[u64; 8], register: u32) -> bool
    ensures { result ≡ is_read_whole x.now register }
{
    is_wide(x) && is_widened(low(x[0]), register)
}

// Whether the 64-bit form of a call reads a register whole.
fn is_widened(function: u32, register: u32) -> bool
    ensures { result ≡ is_widened function register }
{
    match call_row(function) {
        Some((_, _, whole, _)) => whole.contains(&register),
        None => false,
    }
}

/// Whether a number is the identifier of a call, in either form that the call has (DEN0077A, 13).
// It takes only the number, because to decode a call takes more.
pub fn is_function(function: u32) -> bool
    ensures { result ≡ is_function function }
{
    matches!(
        function,
        FFA_VERSION
            | FFA_FEATURES
            | FFA_RX_RELEASE
            | FFA_RXTX_MAP
            | FFA_RXTX_MAP_64
            | FFA_RXTX_UNMAP
            | FFA_PARTITION_INFO_GET
            | FFA_ID_GET
            | FFA_MSG_WAIT
            | FFA_YIELD
            | FFA_RUN
            | FFA_MSG_SEND_DIRECT_REQ
            | FFA_MSG_SEND_DIRECT_REQ_64
            | FFA_MSG_SEND_DIRECT_RESP
            | FFA_MSG_SEND_DIRECT_RESP_64
            | FFA_MEM_DONATE
            | FFA_MEM_DONATE_64
            | FFA_MEM_LEND
            | FFA_MEM_LEND_64
            | FFA_MEM_SHARE
            | FFA_MEM_SHARE_64
            | FFA_MEM_RETRIEVE_REQ
            | FFA_MEM_RETRIEVE_REQ_64
            | FFA_MEM_RELINQUISH
            | FFA_MEM_RECLAIM
            | FFA_NOTIFICATION_BITMAP_CREATE
            | FFA_NOTIFICATION_BITMAP_DESTROY
            | FFA_NOTIFICATION_BIND
            | FFA_NOTIFICATION_UNBIND
            | FFA_NOTIFICATION_SET
            | FFA_NOTIFICATION_GET
            | FFA_SPM_ID_GET
            | FFA_MSG_SEND2
            | FFA_NOTIFICATION_INFO_GET
            | FFA_NOTIFICATION_INFO_GET_64
    )
}
