// SPDX-License-Identifier: MIT OR Apache-2.0
//! Function identifiers (DEN0077A, 11 to 16). Each number is here once, and every definition, contract and function
//! uses its name. An identifier is of the 32-bit form if its name does not end in 64. A wrong number breaks no proof,
//! so compare the numbers with the standard's tables.

/// The bit that distinguishes the identifier of a 64-bit form from the identifier of the 32-bit form (DEN0028, 2).
pub const WIDE: u32 = 1 << 30;

/// FFA_ERROR: the caller sees it if its call is refused.
pub const FFA_ERROR: u32 = 0x8400_0060;

/// FFA_SUCCESS: the caller sees it if its call succeeds.
pub const FFA_SUCCESS: u32 = 0x8400_0061;

/// FFA_SUCCESS in its 64-bit form, for results that need more than 32 bits in a register.
pub const FFA_SUCCESS_64: u32 = FFA_SUCCESS + WIDE;

/// FFA_INTERRUPT: the normal world sees it when an interrupt stops a partition. It is not a call.
pub const FFA_INTERRUPT: u32 = 0x8400_0062;

/// FFA_VERSION: returns the version that is implemented.
pub const FFA_VERSION: u32 = 0x8400_0063;

/// FFA_FEATURES: reports whether there is a call, or a feature.
pub const FFA_FEATURES: u32 = 0x8400_0064;

/// FFA_RX_RELEASE: returns RX to the manager.
pub const FFA_RX_RELEASE: u32 = 0x8400_0065;

/// FFA_RXTX_MAP: maps TX and RX.
pub const FFA_RXTX_MAP: u32 = 0x8400_0066;

/// FFA_RXTX_MAP in its 64-bit form: maps TX and RX, with 64-bit addresses.
pub const FFA_RXTX_MAP_64: u32 = FFA_RXTX_MAP + WIDE;

/// FFA_RXTX_UNMAP: unmaps TX and RX.
pub const FFA_RXTX_UNMAP: u32 = 0x8400_0067;

/// FFA_PARTITION_INFO_GET: reports the partitions that a UUID names.
pub const FFA_PARTITION_INFO_GET: u32 = 0x8400_0068;

/// FFA_ID_GET: returns the caller's identifier.
pub const FFA_ID_GET: u32 = 0x8400_0069;

/// FFA_MSG_WAIT: waits for a message. The normal world sees it when a partition waits.
pub const FFA_MSG_WAIT: u32 = 0x8400_006B;

/// FFA_YIELD: returns cycles before the work is done. The normal world sees it when a partition yields.
pub const FFA_YIELD: u32 = 0x8400_006C;

/// FFA_RUN: gives cycles to a partition. A waiting partition sees it when it gets cycles.
pub const FFA_RUN: u32 = 0x8400_006D;

/// FFA_MSG_SEND_DIRECT_REQ: sends a direct request.
pub const FFA_MSG_SEND_DIRECT_REQ: u32 = 0x8400_006F;

/// FFA_MSG_SEND_DIRECT_REQ in its 64-bit form: sends a direct request, with whole registers.
pub const FFA_MSG_SEND_DIRECT_REQ_64: u32 = FFA_MSG_SEND_DIRECT_REQ + WIDE;

/// FFA_MSG_SEND_DIRECT_RESP: answers a direct request.
pub const FFA_MSG_SEND_DIRECT_RESP: u32 = 0x8400_0070;

/// FFA_MSG_SEND_DIRECT_RESP in its 64-bit form: answers a direct request, with whole registers.
pub const FFA_MSG_SEND_DIRECT_RESP_64: u32 = FFA_MSG_SEND_DIRECT_RESP + WIDE;

/// FFA_MEM_DONATE: offers pages permanently.
pub const FFA_MEM_DONATE: u32 = 0x8400_0071;

/// FFA_MEM_DONATE in its 64-bit form: offers pages permanently, with a 64-bit address.
pub const FFA_MEM_DONATE_64: u32 = FFA_MEM_DONATE + WIDE;

/// FFA_MEM_LEND: offers pages, and the sender loses its own right to them.
pub const FFA_MEM_LEND: u32 = 0x8400_0072;

/// FFA_MEM_LEND in its 64-bit form: offers pages, and the sender loses its own right to them. The address has 64 bits.
pub const FFA_MEM_LEND_64: u32 = FFA_MEM_LEND + WIDE;

/// FFA_MEM_SHARE: offers pages, and the sender keeps its own right to them.
pub const FFA_MEM_SHARE: u32 = 0x8400_0073;

/// FFA_MEM_SHARE in its 64-bit form: offers pages, and the sender keeps its own right to them. The address has 64 bits.
pub const FFA_MEM_SHARE_64: u32 = FFA_MEM_SHARE + WIDE;

/// FFA_MEM_RETRIEVE_REQ: retrieves offered pages.
pub const FFA_MEM_RETRIEVE_REQ: u32 = 0x8400_0074;

/// FFA_MEM_RETRIEVE_REQ in its 64-bit form: retrieves offered pages, with a 64-bit address.
pub const FFA_MEM_RETRIEVE_REQ_64: u32 = FFA_MEM_RETRIEVE_REQ + WIDE;

/// FFA_MEM_RETRIEVE_RESP: a receiver sees it if its retrieve succeeds.
pub const FFA_MEM_RETRIEVE_RESP: u32 = 0x8400_0075;

/// FFA_MEM_RELINQUISH: releases retrieved pages.
pub const FFA_MEM_RELINQUISH: u32 = 0x8400_0076;

/// FFA_MEM_RECLAIM: ends an offer.
pub const FFA_MEM_RECLAIM: u32 = 0x8400_0077;

/// FFA_NOTIFICATION_BITMAP_CREATE: creates the notification bitmaps of the normal world.
pub const FFA_NOTIFICATION_BITMAP_CREATE: u32 = 0x8400_007D;

/// FFA_NOTIFICATION_BITMAP_DESTROY: destroys the notification bitmaps of the normal world.
pub const FFA_NOTIFICATION_BITMAP_DESTROY: u32 = 0x8400_007E;

/// FFA_NOTIFICATION_BIND: permits a sender to set notification bits of the caller.
pub const FFA_NOTIFICATION_BIND: u32 = 0x8400_007F;

/// FFA_NOTIFICATION_UNBIND: no longer permits a sender to set notification bits of the caller.
pub const FFA_NOTIFICATION_UNBIND: u32 = 0x8400_0080;

/// FFA_NOTIFICATION_SET: makes notification bits of a receiver pending.
pub const FFA_NOTIFICATION_SET: u32 = 0x8400_0081;

/// FFA_NOTIFICATION_GET: gets the pending notification bits of the caller.
pub const FFA_NOTIFICATION_GET: u32 = 0x8400_0082;

/// FFA_NOTIFICATION_INFO_GET: returns the endpoints that must run because notifications of theirs are pending. Only a
/// machine of FF-A 1.2 serves it, and only for the normal world (DEN0077A, 16).
pub const FFA_NOTIFICATION_INFO_GET: u32 = 0x8400_0083;

/// FFA_NOTIFICATION_INFO_GET in its 64-bit form: returns the endpoints that must run because notifications of theirs
/// are pending. The answer fills 64-bit registers.
pub const FFA_NOTIFICATION_INFO_GET_64: u32 = FFA_NOTIFICATION_INFO_GET + WIDE;

/// FFA_SPM_ID_GET: returns the manager's identifier.
pub const FFA_SPM_ID_GET: u32 = 0x8400_0085;

/// FFA_MSG_SEND2: sends an indirect message.
pub const FFA_MSG_SEND2: u32 = 0x8400_0086;
