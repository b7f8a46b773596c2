// SPDX-License-Identifier: MIT OR Apache-2.0
//! The checks of the calls: which one refuses a call, its words, and its error code.
ghost use Rattle.std.specs.Prelude.{◌≡◌};
ghost use Rattle.ffa_model.specs.RefusalCodes.{code_of};

use crate::operation::ErrorCode;

/// A check of a call, by what is wrong if the check fails. Calls that check the same share a variant.
#[derive(Clone, Copy, PartialEq, Eq)]
pub enum Refusal {
    // Any call.
    /// The function of the call is not supported, or the one that FFA_FEATURES asks about.
    FunctionUnknown,
    /// The caller has no RX and TX.
    BuffersMissing,
    /// A flag is set that must be 0.
    FlagsReserved,
    /// The sender that the call names is not the caller.
    SenderIsAnother,
    /// The receiver that the call names is not the caller.
    ReceiverIsAnother,
    /// No endpoint has the identifier of the receiver that the call names.
    ReceiverUnknown,
    /// The receiver that the call names is the caller.
    ReceiverIsCaller,
    /// The caller is not the normal world, and only the normal world may make this call.
    NotNormalWorld,
    /// The endpoint does not have the execution context that the call names.
    ContextUnknown,
    /// The caller's RX is full.
    RxFull,
    // FFA_PARTITION_INFO_GET.
    /// No partition has the UUID that FFA_PARTITION_INFO_GET names.
    UuidUnknown,
    // FFA_RXTX_MAP, FFA_RXTX_UNMAP and FFA_RX_RELEASE.
    /// The caller of FFA_RXTX_MAP already has RX and TX.
    BuffersMapped,
    /// A buffer of FFA_RXTX_MAP has no pages, or more than a buffer may have.
    BufferPageCount,
    /// The address of TX is not the start of a page, or TX is not entirely in RAM.
    TxMisplaced,
    /// The address of RX is not the start of a page, or RX is not entirely in RAM.
    RxMisplaced,
    /// RX and TX have a page in common.
    BuffersOverlap,
    /// A page of TX does not belong to the caller, is not writable by its owner, or is in an open transaction.
    TxUnusable,
    /// A page of RX does not belong to the caller, is not writable by its owner, or is in an open transaction.
    RxUnusable,
    /// The endpoint that FFA_RXTX_UNMAP names is not 0.
    EndpointNotZero,
    /// The caller of FFA_RX_RELEASE has no RX and TX, or its RX is not full.
    RxEmpty,
    // FFA_RUN, FFA_MSG_WAIT, FFA_YIELD and direct messages.
    /// The receiver of the direct request is the normal world.
    ReceiverIsNormalWorld,
    /// The caller may not send direct requests: bit 1 of its properties is not set.
    RequestsUnsent,
    /// The receiver does not accept direct requests: bit 0 of its properties is not set.
    RequestsUnreceived,
    /// The receiver of the direct request is not waiting.
    ReceiverNotWaiting,
    /// The caller of FFA_MSG_SEND_DIRECT_RESP is not processing a direct request.
    NoRequest,
    /// The direct response does not go from the caller to the sender of the request.
    AnswerMisdirected,
    /// No partition has the identifier of the target of FFA_RUN.
    TargetUnknown,
    /// The target is not waiting and has not yielded.
    TargetNotReady,
    /// The caller of FFA_MSG_WAIT is not processing an FFA_RUN: it has no work, or its work is a direct request.
    NotRun,
    /// The caller of FFA_YIELD works for no endpoint that it may yield to: it has no work, or the direct request of a partition.
    NobodyToYieldTo,
    // FFA_MSG_SEND2.
    /// A reserved field of the message's header is not 0.
    HeaderReserved,
    /// The message begins inside its header.
    MessageInHeader,
    /// The message is empty.
    MessageEmpty,
    /// The message ends outside TX.
    MessageTooLong,
    /// The caller may not send indirect messages: bit 2 of its properties is not set.
    MessagesUnsent,
    /// The receiver does not accept indirect messages: bit 2 of its properties is not set.
    MessagesUnreceived,
    /// The receiver of the indirect message has no RX and TX.
    ReceiverBuffersMissing,
    /// The receiver's RX is full.
    ReceiverRxFull,
    /// The message with its header is longer than the receiver's RX.
    ReceiverRxSmall,
    // Notifications.
    /// The endpoint whose bitmaps the call creates or destroys is not the normal world.
    EndpointNotNormalWorld,
    /// The normal world cannot have the number of execution contexts that FFA_NOTIFICATION_BITMAP_CREATE names.
    ContextCount,
    /// The normal world already has notification bitmaps.
    BitmapsExist,
    /// The endpoint whose notifications the call is about has no notification bitmaps.
    BitmapsMissing,
    /// A notification bit of the normal world is pending, so FFA_NOTIFICATION_BITMAP_DESTROY may not destroy its bitmaps.
    BitsPending,
    /// No endpoint has the identifier of the sender that the call names.
    SenderUnknown,
    /// The sender that the call names is the caller.
    SenderIsCaller,
    /// The call selects no notification bit.
    BitsNone,
    /// One of the bits to bind is bound to another sender, or is pending.
    BitsTaken,
    /// One of the bits to unbind is not bound to the sender, or is pending.
    BitsNotTheSenders,
    /// One of the bits to set is not bound to the caller.
    BitsNotTheCallers,
    /// The flags of FFA_NOTIFICATION_GET select a class of notifications other than the four that bits 0 to 3 select.
    ClassesUnknown,
    // Memory transactions.
    /// The fragment is not the whole descriptor.
    Fragmented,
    /// The descriptor is longer than TX.
    DescriptorTooLong,
    /// A memory call gives the address of a buffer, but only TX is supported.
    BufferAddressGiven,
    /// A memory call gives the page count of a buffer, but only TX is supported.
    BufferPagesGiven,
    /// The bytes in TX are not a descriptor of this call.
    DescriptorMalformed,
    /// A range of the descriptor is not entirely in RAM.
    RangeOutside,
    /// A page to send does not belong to the caller, or is in an open transaction or in a buffer of an endpoint.
    PageUnsendable,
    /// A grant of the descriptor exceeds the owner's own right to a page.
    GrantTooMuch,
    /// The call requests zeroing of a page that its owner may not write to.
    ZerosUnwritable,
    /// The caller has reached its limit of open transactions.
    TransactionsFull,
    /// The caller has used up its handles.
    HandlesUsedUp,
    /// No open transaction has the handle.
    HandleUnknown,
    /// The caller is not a receiver of the transaction.
    NotReceiver,
    /// The sender that the retrieve names is not the sender of the transaction.
    TransactionSenderDiffers,
    /// The tag that the retrieve names is not the tag of the transaction.
    TagDiffers,
    /// The kind that the retrieve names is not the kind of the transaction.
    KindDiffers,
    /// The caller already holds the transaction.
    AlreadyRetrieved,
    /// The right that the retrieve requests exceeds the right that the caller may get.
    RightTooMuch,
    /// The endpoint that the relinquish descriptor names is not the caller.
    EndpointIsAnother,
    /// No open transaction with the handle has the caller as a receiver.
    NotOffered,
    /// The caller does not hold the transaction.
    NotHeld,
    /// The relinquish requests zeroing, but the caller does not hold a lend with write access.
    ZerosNotAllowed,
    /// No open transaction from the caller has the handle.
    NotTheSenders,
    /// A receiver still holds the transaction.
    StillHeld,
    // Of a machine that distinguishes secure from non-secure memory.
    /// The call sends secure pages to the normal world, or together with non-secure pages.
    WorldsMixed,
    // Of a machine of FF-A 1.2.
    /// The retrieve names several endpoints, and these are not exactly the receivers of the transaction.
    ReceiversDiffer,
    /// The caller of FFA_PARTITION_INFO_GET has no RX and TX.
    BuffersNeeded,
    /// FFA_NOTIFICATION_INFO_GET has reported all pending notifications already.
    NothingToTell,
}

macro_rules! words {
    ($($refusal:ident $words:literal;)*) => { [$((Refusal::$refusal, $words)),*] };
}

/// The words for each check that fails, in the order of the variants of `Refusal`.
pub const WORDS: &[(Refusal, &str)] = &words![
    FunctionUnknown "the function is not supported";
    BuffersMissing "the caller has no RX and TX";
    FlagsReserved "a flag is set that must be 0";
    SenderIsAnother "the sender is not the caller";
    ReceiverIsAnother "the receiver is not the caller";
    ReceiverUnknown "no endpoint has the receiver's identifier";
    ReceiverIsCaller "the receiver is the caller";
    NotNormalWorld "the caller is not the normal world";
    ContextUnknown "the endpoint does not have this execution context";
    RxFull "the caller's RX is full";
    UuidUnknown "no partition has the UUID";
    BuffersMapped "the caller already has RX and TX";
    BufferPageCount "a buffer has no pages, or too many";
    TxMisplaced "TX is not page-aligned, or not entirely in RAM";
    RxMisplaced "RX is not page-aligned, or not entirely in RAM";
    BuffersOverlap "RX and TX overlap";
    TxUnusable "a page of TX does not belong to the caller, is not writable, or is in an open transaction";
    RxUnusable "a page of RX does not belong to the caller, is not writable, or is in an open transaction";
    EndpointNotZero "the endpoint's identifier is not 0";
    RxEmpty "the caller has no RX and TX, or its RX is not full";
    ReceiverIsNormalWorld "the receiver is the normal world";
    RequestsUnsent "the caller may not send direct requests (bit 1 of its properties is not set)";
    RequestsUnreceived "the receiver does not accept direct requests (bit 0 of its properties is not set)";
    ReceiverNotWaiting "the receiver is not waiting";
    NoRequest "the caller is not processing a direct request";
    AnswerMisdirected "the response does not go from the caller to the sender of the request";
    TargetUnknown "no partition has the target's identifier";
    TargetNotReady "the target is not waiting and has not yielded";
    NotRun "the caller is not processing an FFA_RUN";
    NobodyToYieldTo "the caller works for no endpoint that it may yield to";
    HeaderReserved "a reserved field of the header is not 0";
    MessageInHeader "the message begins inside its header";
    MessageEmpty "the message is empty";
    MessageTooLong "the message ends outside TX";
    MessagesUnsent "the caller may not send indirect messages (bit 2 of its properties is not set)";
    MessagesUnreceived "the receiver does not accept indirect messages (bit 2 of its properties is not set)";
    ReceiverBuffersMissing "the receiver has no RX and TX";
    ReceiverRxFull "the receiver's RX is full";
    ReceiverRxSmall "the message with its header is longer than the receiver's RX";
    EndpointNotNormalWorld "the endpoint is not the normal world";
    ContextCount "the normal world cannot have this number of execution contexts";
    BitmapsExist "the normal world already has notification bitmaps";
    BitmapsMissing "the endpoint has no notification bitmaps";
    BitsPending "a notification bit of the normal world is pending";
    SenderUnknown "no endpoint has the sender's identifier";
    SenderIsCaller "the sender is the caller";
    BitsNone "no bit is selected";
    BitsTaken "one of the bits is bound to another sender, or is pending";
    BitsNotTheSenders "one of the bits is not bound to the sender, or is pending";
    BitsNotTheCallers "one of the bits is not bound to the caller";
    ClassesUnknown "the flags select an unknown class of notifications";
    Fragmented "the fragment is not the whole descriptor";
    DescriptorTooLong "the descriptor is longer than TX";
    BufferAddressGiven "a buffer address is given, but only TX is supported";
    BufferPagesGiven "a page count of a buffer is given, but only TX is supported";
    DescriptorMalformed "the bytes in TX are not a descriptor of this call";
    RangeOutside "a range is not entirely in RAM";
    PageUnsendable "a page does not belong to the caller, or is in an open transaction or a buffer";
    GrantTooMuch "a grant exceeds the owner's right to a page";
    ZerosUnwritable "zeroing is requested for a page that its owner may not write to";
    TransactionsFull "the caller has reached its limit of open transactions";
    HandlesUsedUp "the caller has used up its handles";
    HandleUnknown "no open transaction has the handle";
    NotReceiver "the caller is not a receiver of the transaction";
    TransactionSenderDiffers "the sender differs from the transaction's";
    TagDiffers "the tag differs from the transaction's";
    KindDiffers "the kind differs from the transaction's";
    AlreadyRetrieved "the caller already holds the transaction";
    RightTooMuch "the requested right exceeds the right that the caller may get";
    EndpointIsAnother "the endpoint in the descriptor is not the caller";
    NotOffered "no open transaction with the handle has the caller as a receiver";
    NotHeld "the caller does not hold the transaction";
    ZerosNotAllowed "zeroing is requested, but the caller does not hold a lend with write access";
    NotTheSenders "no open transaction from the caller has the handle";
    StillHeld "a receiver still holds the transaction";
    WorldsMixed "secure pages are sent to the normal world, or together with non-secure pages";
    ReceiversDiffer "the endpoints in the descriptor are not the transaction's receivers";
    BuffersNeeded "the call needs RX and TX, and the caller has none";
    NothingToTell "the normal world has been told of all pending notifications";
];

impl Refusal {
    /// Returns the error code that a call answers if this check is the first that fails.
    pub fn code(self) -> ErrorCode
        ensures { result ≡ code_of self }
    {
        match self {
            Refusal::FunctionUnknown => ErrorCode::NotSupported,
            Refusal::TransactionsFull => ErrorCode::NoMemory,
            Refusal::HandlesUsedUp => ErrorCode::NoMemory,
            Refusal::ReceiverRxSmall => ErrorCode::NoMemory,
            Refusal::RxFull => ErrorCode::Busy,
            Refusal::ReceiverNotWaiting => ErrorCode::Busy,
            Refusal::TargetNotReady => ErrorCode::Busy,
            Refusal::ReceiverBuffersMissing => ErrorCode::Busy,
            Refusal::ReceiverRxFull => ErrorCode::Busy,
            Refusal::NotNormalWorld => ErrorCode::Denied,
            Refusal::BuffersMapped => ErrorCode::Denied,
            Refusal::TxUnusable => ErrorCode::Denied,
            Refusal::RxUnusable => ErrorCode::Denied,
            Refusal::RxEmpty => ErrorCode::Denied,
            Refusal::ReceiverIsNormalWorld => ErrorCode::Denied,
            Refusal::RequestsUnsent => ErrorCode::Denied,
            Refusal::RequestsUnreceived => ErrorCode::Denied,
            Refusal::NoRequest => ErrorCode::Denied,
            Refusal::NotRun => ErrorCode::Denied,
            Refusal::NobodyToYieldTo => ErrorCode::Denied,
            Refusal::MessagesUnsent => ErrorCode::Denied,
            Refusal::MessagesUnreceived => ErrorCode::Denied,
            Refusal::BitmapsExist => ErrorCode::Denied,
            Refusal::BitmapsMissing => ErrorCode::Denied,
            Refusal::BitsPending => ErrorCode::Denied,
            Refusal::BitsTaken => ErrorCode::Denied,
            Refusal::BitsNotTheSenders => ErrorCode::Denied,
            Refusal::BitsNotTheCallers => ErrorCode::Denied,
            Refusal::RangeOutside => ErrorCode::Denied,
            Refusal::PageUnsendable => ErrorCode::Denied,
            Refusal::GrantTooMuch => ErrorCode::Denied,
            Refusal::ZerosUnwritable => ErrorCode::Denied,
            Refusal::AlreadyRetrieved => ErrorCode::Denied,
            Refusal::RightTooMuch => ErrorCode::Denied,
            Refusal::NotHeld => ErrorCode::Denied,
            Refusal::ZerosNotAllowed => ErrorCode::Denied,
            Refusal::StillHeld => ErrorCode::Denied,
            Refusal::WorldsMixed => ErrorCode::Denied,
            Refusal::BuffersNeeded => ErrorCode::Denied,
            Refusal::NothingToTell => ErrorCode::NoData,
            _ => ErrorCode::InvalidParameters,
        }
    }
}

impl From<Refusal> for ErrorCode {
    ghost from_gives = { λ refusal code. code ≡ code_of refusal };

    fn from(refusal: Refusal) -> ErrorCode {
        refusal.code()
    }
}
