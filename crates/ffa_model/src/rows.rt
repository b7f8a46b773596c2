// SPDX-License-Identifier: MIT OR Apache-2.0
//! The facts about each call by its identifier. Each fact is here once, and definitions, contracts and functions use
//! these tables.

use crate::function::*;
use crate::refusal::Refusal;

/// The facts about a call: the identifier of its 32-bit form, its name, registers, and its checks. The registers are
/// those that the 64-bit form reads or answers whole. There are no registers if the call has no 64-bit form. The checks
/// of FF-A 1.1 come first, in the order in which the core makes them. The checks that only a machine of FF-A 1.2 makes
/// follow, so that each check keeps its number.
// A row is a tuple, because no definition can name a constant of a struct with references. The library for C does not
// reach CALLS and WORDS, because they would need relocation. If guards were made from a row's checks and a list of
// tests, each test would be far from its name.
pub type CallRow = (u32, &'static str, &'static [u32], &'static [Refusal]);

macro_rules! checks {
    ([$($check:ident)*]) => { &[$(Refusal::$check),*] };
    ($checks:ident) => { $checks };
}

macro_rules! rows {
    ($($function:ident $whole:tt $checks:tt;)*) => {
        [$(($function, stringify!($function), &$whole, checks!($checks))),*]
    };
}

// The checks of FFA_MEM_DONATE, FFA_MEM_LEND and FFA_MEM_SHARE.
const SEND: &[Refusal] = checks!([
    BuffersMissing Fragmented DescriptorTooLong BufferAddressGiven BufferPagesGiven DescriptorMalformed
    SenderIsAnother ReceiverUnknown RangeOutside PageUnsendable GrantTooMuch ZerosUnwritable WorldsMixed
    TransactionsFull HandlesUsedUp
]);

/// The rows of the calls, in the order of the definition's table.
pub const CALLS: &[CallRow] = &rows![
    FFA_VERSION [] [];
    FFA_FEATURES [] [FunctionUnknown];
    FFA_RX_RELEASE [] [RxEmpty];
    FFA_RXTX_MAP [1, 2] [
        BuffersMapped BufferPageCount TxMisplaced RxMisplaced BuffersOverlap TxUnusable RxUnusable
    ];
    FFA_RXTX_UNMAP [] [EndpointNotZero BuffersMissing];
    FFA_PARTITION_INFO_GET [] [UuidUnknown BuffersMissing RxFull BuffersNeeded];
    FFA_ID_GET [] [];
    FFA_MSG_WAIT [] [NotRun];
    FFA_YIELD [] [NobodyToYieldTo];
    FFA_RUN [] [NotNormalWorld TargetUnknown ContextUnknown TargetNotReady];
    FFA_MSG_SEND_DIRECT_REQ [3, 4, 5, 6, 7] [
        SenderIsAnother FlagsReserved ReceiverUnknown ReceiverIsCaller ReceiverIsNormalWorld RequestsUnsent
        RequestsUnreceived ReceiverNotWaiting
    ];
    FFA_MSG_SEND_DIRECT_RESP [3, 4, 5, 6, 7] [NoRequest AnswerMisdirected FlagsReserved];
    FFA_MEM_DONATE [3] SEND;
    FFA_MEM_LEND [3] SEND;
    FFA_MEM_SHARE [3] SEND;
    FFA_MEM_RETRIEVE_REQ [3] [
        BuffersMissing Fragmented DescriptorTooLong BufferAddressGiven BufferPagesGiven DescriptorMalformed
        HandleUnknown NotReceiver TransactionSenderDiffers TagDiffers KindDiffers AlreadyRetrieved RightTooMuch
        RxFull ReceiversDiffer NotTheSenders
    ];
    FFA_MEM_RELINQUISH [] [
        BuffersMissing DescriptorMalformed EndpointIsAnother NotOffered NotHeld ZerosNotAllowed
    ];
    FFA_MEM_RECLAIM [] [FlagsReserved NotTheSenders StillHeld ZerosUnwritable];
    FFA_NOTIFICATION_BITMAP_CREATE [] [NotNormalWorld EndpointNotNormalWorld ContextCount BitmapsExist];
    FFA_NOTIFICATION_BITMAP_DESTROY [] [NotNormalWorld EndpointNotNormalWorld BitmapsMissing BitsPending];
    FFA_NOTIFICATION_BIND [] [
        ReceiverIsAnother SenderUnknown SenderIsCaller FlagsReserved BitsNone BitmapsMissing BitsTaken
    ];
    FFA_NOTIFICATION_UNBIND [] [
        ReceiverIsAnother SenderUnknown SenderIsCaller FlagsReserved BitsNone BitmapsMissing BitsNotTheSenders
    ];
    FFA_NOTIFICATION_SET [] [
        SenderIsAnother ReceiverUnknown ReceiverIsCaller FlagsReserved BitsNone BitsNotTheCallers
    ];
    FFA_NOTIFICATION_GET [] [ReceiverIsAnother ContextUnknown ClassesUnknown BitmapsMissing];
    FFA_SPM_ID_GET [] [];
    FFA_MSG_SEND2 [] [
        BuffersMissing FlagsReserved HeaderReserved SenderIsAnother ReceiverUnknown ReceiverIsCaller MessageInHeader
        MessageEmpty MessageTooLong MessagesUnsent MessagesUnreceived ReceiverBuffersMissing ReceiverRxFull
        ReceiverRxSmall
    ];
    FFA_NOTIFICATION_INFO_GET [2, 3, 4, 5, 6, 7] [FunctionUnknown NothingToTell];
];
