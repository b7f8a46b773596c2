// SPDX-License-Identifier: MIT OR Apache-2.0
//! Calls as the core reads them from registers, and their answers before the core writes them to registers.

use crate::endpoint::EndpointId;
use crate::operation::ErrorCode;
use crate::transaction::Handle;

/// The arguments of a call whose descriptor is in TX (DEN0077A, 16.1).
#[derive(Clone, Copy)]
pub struct Transfer {
    /// The length of the descriptor in bytes.
    pub total: u32,
    /// The number of bytes of the descriptor that are in TX.
    pub fragment: u32,
    /// The address of a buffer other than TX.
    pub address: u64,
    /// The number of pages of the buffer at `address`.
    pub pages: u32,
}

/// A direct message, which is a request or a response (DEN0077A, 15.2 and 15.3). Its function identifier says which,
/// and in which of the two forms.
#[derive(Clone, Copy, PartialEq, Eq)]
pub struct DirectMessage {
    /// The function identifier of the call.
    pub function: u32,
    pub sender: EndpointId,
    pub receiver: EndpointId,
    pub flags: u32,
    /// The values of x3 to x7.
    pub payload: [u64; 5],
}

/// The notifications that FFA_NOTIFICATION_BIND, FFA_NOTIFICATION_UNBIND or FFA_NOTIFICATION_SET names (DEN0077A, 16.5
/// to 16.7). They are notifications of the receiver. By the call the sender may set them, may no longer set them, or
/// sets them.
#[derive(Clone, Copy, PartialEq, Eq)]
pub struct NotificationBits {
    pub sender: EndpointId,
    pub receiver: EndpointId,
    pub flags: u32,
    /// A bit for each of the 64 notifications.
    pub bitmap: u64,
}

/// A call with its arguments, which have the standard's names (DEN0077A, 11 to 16). An argument is a `u64` if the
/// 64-bit form of the call widens it.
#[derive(Clone, Copy)]
pub enum Call {
    /// FFA_VERSION.
    Version {
        version: u32,
    },
    /// FFA_FEATURES.
    Features {
        function: u32,
    },
    /// FFA_RX_RELEASE.
    RxRelease,
    /// FFA_RXTX_MAP: the address of TX, the address of RX, and the number of pages that each has.
    RxtxMap {
        tx: u64,
        rx: u64,
        pages: u32,
    },
    /// FFA_RXTX_UNMAP.
    RxtxUnmap {
        endpoint: u32,
    },
    /// FFA_PARTITION_INFO_GET: the UUID with four bytes in each word, whose first byte is the lowest, and the flags.
    PartitionInfoGet {
        uuid: [u32; 4],
        flags: u32,
    },
    /// FFA_ID_GET.
    IdGet,
    /// FFA_MSG_WAIT.
    MsgWait {
        flags: u32,
    },
    /// FFA_YIELD.
    Yield,
    /// FFA_RUN: the partition that gets cycles, and the number of its execution context.
    Run {
        target: EndpointId,
        context: u16,
    },
    /// FFA_MSG_SEND_DIRECT_REQ.
    DirectRequest(DirectMessage),
    /// FFA_MSG_SEND_DIRECT_RESP.
    DirectResponse(DirectMessage),
    /// FFA_MEM_DONATE.
    MemDonate(Transfer),
    /// FFA_MEM_LEND.
    MemLend(Transfer),
    /// FFA_MEM_SHARE.
    MemShare(Transfer),
    /// FFA_MEM_RETRIEVE_REQ.
    MemRetrieve(Transfer),
    /// FFA_MEM_RELINQUISH.
    MemRelinquish,
    /// FFA_MEM_RECLAIM.
    MemReclaim {
        handle: Handle,
        flags: u32,
    },
    /// FFA_NOTIFICATION_BITMAP_CREATE.
    BitmapCreate {
        endpoint: u32,
        contexts: u32,
    },
    /// FFA_NOTIFICATION_BITMAP_DESTROY.
    BitmapDestroy {
        endpoint: u32,
    },
    /// FFA_NOTIFICATION_BIND.
    NotificationBind(NotificationBits),
    /// FFA_NOTIFICATION_UNBIND.
    NotificationUnbind(NotificationBits),
    /// FFA_NOTIFICATION_SET.
    NotificationSet(NotificationBits),
    /// FFA_NOTIFICATION_GET: the receiver, the number of its execution context, and the flags.
    NotificationGet {
        receiver: EndpointId,
        context: u16,
        flags: u32,
    },
    /// FFA_NOTIFICATION_INFO_GET. `is_wide` is true for the 64-bit form, whose answer uses 64-bit registers.
    NotificationInfoGet {
        is_wide: bool,
    },
    /// FFA_SPM_ID_GET.
    SpmIdGet,
    /// FFA_MSG_SEND2.
    MsgSend2,
    /// A function identifier that belongs to no call.
    Unknown,
}

/// The answer to a call, or what the endpoint that runs next sees of the call.
#[derive(Clone, Copy, PartialEq, Eq)]
pub enum Reply {
    /// The answer to FFA_VERSION, in w0 only.
    Version(u32),
    /// FFA_ERROR.
    Error(ErrorCode),
    /// FFA_SUCCESS, with w2 to w7.
    Success([u32; 6]),
    /// FFA_SUCCESS in its 64-bit form, with x2 to x7.
    WideSuccess([u64; 6]),
    /// FFA_SUCCESS of FFA_MEM_DONATE, FFA_MEM_LEND or FFA_MEM_SHARE, with the handle of the transaction.
    Sent(Handle),
    /// FFA_SUCCESS of FFA_NOTIFICATION_GET: the bitmaps of the notifications that partitions, the normal world and the
    /// manager made pending.
    Pending {
        partitions: u64,
        normal_world: u64,
        manager: u64,
    },
    /// A direct message, as its receiver sees it.
    Passed(DirectMessage),
    /// FFA_RUN, FFA_MSG_WAIT or FFA_YIELD, as the endpoint that runs next sees it. The partition is in its execution
    /// context 0, and gets cycles or returns them.
    Scheduled {
        function: u32,
        partition: EndpointId,
    },
    /// FFA_MEM_RETRIEVE_RESP, with the length of the response in bytes.
    Retrieved(u32),
}
