// SPDX-License-Identifier: MIT OR Apache-2.0
//! Finds what a failed check is about, if the call's registers say it (DEN0077A, 11 to 16).
ghost use Rattle.std.specs.Prelude.{◌≡◌, Bool};
ghost use Rattle.ffa_model.specs.declared.call.Call.{Call};
ghost use Rattle.ffa_model.specs.AboutRegisters.{about_registers, in_register, registers_of_bind, registers_of_create, registers_of_destroy, registers_of_get, registers_of_map, registers_of_reclaim, registers_of_request, registers_of_response, registers_of_run, registers_of_set, registers_of_transfer, registers_of_unmap};
ghost use Rattle.ffa_model.specs.Bits.{word_of_two};

use ffa_model::{
    About, Call, DirectMessage, EndpointId, Handle, NotificationBits, Refusal, Transfer,
};

// Returns what a failed check of a call is about, if the call's registers say it: a register, an endpoint that a
// register names, or a handle. `number` is the number of the function, in w0.
pub(crate) fn about_registers(number: u32, call: &Call, refusal: Refusal) -> Option<About>
    ensures { result ≡ about_registers number call.now refusal }
{
    match *call {
        Call::Features { function } => register(1, u64::from(function)),
        Call::RxtxMap { tx, rx, pages } => of_map(tx, rx, pages, refusal),
        Call::RxtxUnmap { endpoint } => of_unmap(endpoint, refusal),
        Call::Run { target, context } => of_run(target, context, refusal),
        Call::DirectRequest(message) => of_request(&message, refusal),
        Call::DirectResponse(message) => of_response(&message, refusal),
        Call::MemDonate(transfer) => of_transfer(&transfer, refusal),
        Call::MemLend(transfer) => of_transfer(&transfer, refusal),
        Call::MemShare(transfer) => of_transfer(&transfer, refusal),
        Call::MemRetrieve(transfer) => of_transfer(&transfer, refusal),
        Call::MemReclaim { handle, flags } => of_reclaim(handle, flags, refusal),
        Call::BitmapCreate { endpoint, contexts } => of_create(endpoint, contexts, refusal),
        Call::BitmapDestroy { endpoint } => of_destroy(endpoint, refusal),
        Call::NotificationBind(bits) => of_bind(&bits, refusal),
        Call::NotificationUnbind(bits) => of_bind(&bits, refusal),
        Call::NotificationSet(bits) => of_set(&bits, refusal),
        Call::NotificationGet {
            receiver,
            context,
            flags,
        } => of_get(receiver, context, flags, refusal),
        Call::NotificationInfoGet { .. } => of_info(number, refusal),
        Call::Unknown => register(0, u64::from(number)),
        _ => None,
    }
}

// Does what `about_registers` does, for FFA_RXTX_MAP.
fn of_map(tx: u64, rx: u64, pages: u32, refusal: Refusal) -> Option<About>
    ensures { result ≡ registers_of_map tx rx pages refusal }
{
    match refusal {
        Refusal::BufferPageCount => register(3, u64::from(pages)),
        Refusal::TxMisplaced => register(1, tx),
        Refusal::RxMisplaced => register(2, rx),
        Refusal::BuffersOverlap => register(2, rx),
        _ => None,
    }
}

// Does what `about_registers` does, for FFA_RXTX_UNMAP.
fn of_unmap(endpoint: u32, refusal: Refusal) -> Option<About>
    ensures { result ≡ registers_of_unmap endpoint refusal }
{
    match refusal {
        Refusal::EndpointNotZero => register(1, u64::from(endpoint)),
        _ => None,
    }
}

// Does what `about_registers` does, for FFA_RUN.
fn of_run(target: EndpointId, context: u16, refusal: Refusal) -> Option<About>
    ensures { result ≡ registers_of_run target context refusal }
{
    match refusal {
        Refusal::TargetUnknown => Some(About::Endpoint(target)),
        Refusal::ContextUnknown => register(1, u64::from(word_of_two(target.0, context))),
        Refusal::TargetNotReady => Some(About::Endpoint(target)),
        _ => None,
    }
}

// Does what `about_registers` does, for FFA_MSG_SEND_DIRECT_REQ.
fn of_request(message: &DirectMessage, refusal: Refusal) -> Option<About>
    ensures { result ≡ registers_of_request message.now refusal }
{
    match refusal {
        Refusal::SenderIsAnother => Some(About::Endpoint(message.sender)),
        Refusal::FlagsReserved => register(2, u64::from(message.flags)),
        Refusal::ReceiverUnknown => Some(About::Endpoint(message.receiver)),
        Refusal::ReceiverIsCaller => Some(About::Endpoint(message.receiver)),
        Refusal::ReceiverIsNormalWorld => Some(About::Endpoint(message.receiver)),
        Refusal::RequestsUnreceived => Some(About::Endpoint(message.receiver)),
        Refusal::ReceiverNotWaiting => Some(About::Endpoint(message.receiver)),
        _ => None,
    }
}

// Does what `about_registers` does, for FFA_MSG_SEND_DIRECT_RESP.
fn of_response(message: &DirectMessage, refusal: Refusal) -> Option<About>
    ensures { result ≡ registers_of_response message.now refusal }
{
    match refusal {
        Refusal::AnswerMisdirected => register(1, ends_of(message)),
        Refusal::FlagsReserved => register(2, u64::from(message.flags)),
        _ => None,
    }
}

// Returns the word that names the ends of a direct message.
fn ends_of(message: &DirectMessage) -> u64
    ensures { result ≡ word_of_two message.now.sender.0 message.now.receiver.0 }
{
    u64::from(word_of_two(message.sender.0, message.receiver.0))
}

// Does what `about_registers` does, for a call whose descriptor is in TX.
fn of_transfer(transfer: &Transfer, refusal: Refusal) -> Option<About>
    ensures { result ≡ registers_of_transfer transfer.now refusal }
{
    match refusal {
        Refusal::Fragmented => register(2, u64::from(transfer.fragment)),
        Refusal::DescriptorTooLong => register(1, u64::from(transfer.total)),
        Refusal::BufferAddressGiven => register(3, transfer.address),
        Refusal::BufferPagesGiven => register(4, u64::from(transfer.pages)),
        _ => None,
    }
}

// Does what `about_registers` does, for FFA_MEM_RECLAIM.
fn of_reclaim(handle: Handle, flags: u32, refusal: Refusal) -> Option<About>
    ensures { result ≡ registers_of_reclaim handle flags refusal }
{
    match refusal {
        Refusal::FlagsReserved => register(3, u64::from(flags)),
        Refusal::NotTheSenders => Some(About::Handle(handle.0)),
        Refusal::StillHeld => Some(About::Handle(handle.0)),
        _ => None,
    }
}

// Does what `about_registers` does, for FFA_NOTIFICATION_BITMAP_CREATE.
fn of_create(endpoint: u32, contexts: u32, refusal: Refusal) -> Option<About>
    ensures { result ≡ registers_of_create endpoint contexts refusal }
{
    match refusal {
        Refusal::EndpointNotNormalWorld => register(1, u64::from(endpoint)),
        Refusal::ContextCount => register(2, u64::from(contexts)),
        _ => None,
    }
}

// Does what `about_registers` does, for FFA_NOTIFICATION_BITMAP_DESTROY.
fn of_destroy(endpoint: u32, refusal: Refusal) -> Option<About>
    ensures { result ≡ registers_of_destroy endpoint refusal }
{
    match refusal {
        Refusal::EndpointNotNormalWorld => register(1, u64::from(endpoint)),
        _ => None,
    }
}

// Does what `about_registers` does, for FFA_NOTIFICATION_BIND and FFA_NOTIFICATION_UNBIND.
fn of_bind(bits: &NotificationBits, refusal: Refusal) -> Option<About>
    ensures { result ≡ registers_of_bind bits.now refusal }
{
    match refusal {
        Refusal::ReceiverIsAnother => Some(About::Endpoint(bits.receiver)),
        Refusal::SenderUnknown => Some(About::Endpoint(bits.sender)),
        Refusal::SenderIsCaller => Some(About::Endpoint(bits.sender)),
        Refusal::FlagsReserved => register(2, u64::from(bits.flags)),
        _ => None,
    }
}

// Does what `about_registers` does, for FFA_NOTIFICATION_SET.
fn of_set(bits: &NotificationBits, refusal: Refusal) -> Option<About>
    ensures { result ≡ registers_of_set bits.now refusal }
{
    match refusal {
        Refusal::SenderIsAnother => Some(About::Endpoint(bits.sender)),
        Refusal::ReceiverUnknown => Some(About::Endpoint(bits.receiver)),
        Refusal::ReceiverIsCaller => Some(About::Endpoint(bits.receiver)),
        Refusal::FlagsReserved => register(2, u64::from(bits.flags)),
        _ => None,
    }
}

// Does what `about_registers` does, for FFA_NOTIFICATION_GET.
fn of_get(receiver: EndpointId, context: u16, flags: u32, refusal: Refusal) -> Option<About>
    ensures { result ≡ registers_of_get receiver context flags refusal }
{
    match refusal {
        Refusal::ReceiverIsAnother => Some(About::Endpoint(receiver)),
        Refusal::ContextUnknown => register(1, u64::from(word_of_two(context, receiver.0))),
        Refusal::ClassesUnknown => register(2, u64::from(flags)),
        _ => None,
    }
}

// Does what `about_registers` does, for FFA_NOTIFICATION_INFO_GET, whose function's number is in w0.
fn of_info(number: u32, refusal: Refusal) -> Option<About>
    ensures { (is_wide : Bool) → result ≡ about_registers number (Call.NotificationInfoGet is_wide) refusal }
{
    match refusal {
        Refusal::FunctionUnknown => register(0, u64::from(number)),
        _ => None,
    }
}

// Returns a register by its number, with its value.
fn register(register: u32, value: u64) -> Option<About>
    ensures { result ≡ in_register register value }
{
    Some(About::Register { register, value })
}

// Returns the word of two halves.
fn word_of_two(high: u16, low: u16) -> u32
    ensures { result ≡ word_of_two high low }
{
    u32::from(high) * 0x1_0000 + u32::from(low)
}
