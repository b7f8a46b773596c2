// SPDX-License-Identifier: MIT OR Apache-2.0
//! The table of the arguments of each call, with their places in the registers (DEN0077A, 11 to 16). Definitions,
//! contracts and functions use this one table. No proof fails if a row is wrong, so compare the rows with the
//! standard's tables.

use crate::name::Name;
use ffa_model::function::*;

/// The place of a number in the registers of a call. It names the register, or the first of several registers.
#[derive(Clone, Copy, Debug, PartialEq, Eq)]
pub enum Place {
    /// Bits 31 to 16 of this register.
    High(u32),
    /// Bits 15 to 0 of this register.
    Low(u32),
    /// Bits 31 to 0 of this register, or all 64 bits if the form of the call reads the register whole.
    Word(u32),
    /// Bits 31 to 0 of consecutive registers. This register is the first one, and has the lowest bits of the number.
    Words(u32),
}

/// The value of an argument that the words do not give.
#[derive(Clone, Copy, Debug, PartialEq, Eq)]
pub enum Usual {
    /// No value: the words must give the argument.
    Needed,
    Zero,
    /// The value of the argument `length`.
    Length,
}

/// An argument: its name, the place of its number, the largest number that it may be in the 32-bit form, and its value
/// if the words do not give it.
pub type Argument = (Name, Place, u128, Usual);

macro_rules! arguments {
    ([$($name:ident $place:ident $register:literal $most:literal $usual:ident),*]) => {
        &[$((Name::$name, Place::$place($register), $most, Usual::$usual)),*]
    };
}

macro_rules! rows {
    ($($($function:ident)+: $arguments:tt;)*) => {
        [$($(($function, arguments!($arguments))),+),*]
    };
}

/// The calls with their arguments, by the identifier of the 32-bit form. Calls with the same arguments share a row.
#[rattlefmt::skip]
pub const ARGUMENTS: &[(u32, &[Argument])] = &rows![
    FFA_VERSION: [Major High 1 0x7FFF Needed, Minor Low 1 0xFFFF Needed];
    FFA_FEATURES: [Feature Word 1 0xFFFF_FFFF Needed];
    FFA_RX_RELEASE: [];
    FFA_RXTX_MAP: [Tx Word 1 0xFFFF_FFFF Needed, Rx Word 2 0xFFFF_FFFF Needed, Pages Word 3 0xFFFF_FFFF Needed];
    FFA_RXTX_UNMAP: [Endpoint Word 1 0xFFFF_FFFF Zero];
    FFA_PARTITION_INFO_GET: [Uuid Words 1 0xFFFF_FFFF_FFFF_FFFF_FFFF_FFFF_FFFF_FFFF Zero, CountOnly Low 5 0x1 Zero];
    FFA_ID_GET: [];
    FFA_MSG_WAIT: [Partition High 1 0xFFFF Zero, Context Low 1 0xFFFF Zero, Flags Word 2 0xFFFF_FFFF Zero];
    FFA_YIELD: [Partition High 1 0xFFFF Zero, Context Low 1 0xFFFF Zero];
    FFA_RUN: [Partition High 1 0xFFFF Needed, Context Low 1 0xFFFF Zero];
    FFA_MSG_SEND_DIRECT_REQ FFA_MSG_SEND_DIRECT_RESP: [
        Sender High 1 0xFFFF Needed,
        Receiver Low 1 0xFFFF Needed,
        Flags Word 2 0xFFFF_FFFF Zero,
        Payload0 Word 3 0xFFFF_FFFF Zero,
        Payload1 Word 4 0xFFFF_FFFF Zero,
        Payload2 Word 5 0xFFFF_FFFF Zero,
        Payload3 Word 6 0xFFFF_FFFF Zero,
        Payload4 Word 7 0xFFFF_FFFF Zero
    ];
    FFA_MEM_DONATE FFA_MEM_LEND FFA_MEM_SHARE FFA_MEM_RETRIEVE_REQ: [
        Length Word 1 0xFFFF_FFFF Needed,
        Fragment Word 2 0xFFFF_FFFF Length,
        Address Word 3 0xFFFF_FFFF Zero,
        Pages Word 4 0xFFFF_FFFF Zero
    ];
    FFA_MEM_RELINQUISH: [];
    FFA_MEM_RECLAIM: [Handle Words 1 0xFFFF_FFFF_FFFF_FFFF Needed, Flags Word 3 0xFFFF_FFFF Zero];
    FFA_NOTIFICATION_BITMAP_CREATE: [Endpoint Word 1 0xFFFF_FFFF Needed, Contexts Word 2 0xFFFF_FFFF Needed];
    FFA_NOTIFICATION_BITMAP_DESTROY: [Endpoint Word 1 0xFFFF_FFFF Needed];
    FFA_NOTIFICATION_BIND FFA_NOTIFICATION_UNBIND FFA_NOTIFICATION_SET: [
        Sender High 1 0xFFFF Needed,
        Receiver Low 1 0xFFFF Needed,
        Flags Word 2 0xFFFF_FFFF Zero,
        Bits Words 3 0xFFFF_FFFF_FFFF_FFFF Needed
    ];
    FFA_NOTIFICATION_GET: [Receiver Low 1 0xFFFF Needed, Context High 1 0xFFFF Zero, Flags Word 2 0xFFFF_FFFF Needed];
    FFA_SPM_ID_GET FFA_MSG_SEND2 FFA_NOTIFICATION_INFO_GET: [];
];
