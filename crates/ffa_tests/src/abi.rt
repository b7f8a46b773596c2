// SPDX-License-Identifier: MIT OR Apache-2.0
//! The identifiers and values of the standard.
use crate::checks::{same, same_at};
use ffa_abi::{call_name, decode, encode, error_name};
use ffa_model::{Call, DirectMessage, EndpointId, NotificationBits, Reply, Transfer};
use std::alloc::Global;
use std::process::Abort;
use std::test::Fail;

// Registers with something in each upper half, and with the register's number in its low half.
const NUMBERED: [u64; 8] = [
    0xFF_0000_0000,
    0xA1_0000_0001,
    0xA2_0000_0002,
    0xA3_0000_0003,
    0xA4_0000_0004,
    0xA5_0000_0005,
    0xA6_0000_0006,
    0xA7_0000_0007,
];

// Returns these registers with a function identifier in the low half of x0.
fn registers(function: u32) -> [u64; 8] {
    let mut registers = NUMBERED;
    registers[0] |= u64::from(function);
    registers
}

// Rows of a function identifier, and the call in registers with this identifier: its name and its numbers, and then
// zeros. A register n that the call takes whole is 160 + n times 2^32, plus n. A handle and a bitmap are in two
// registers, the low half first.
const SETUP: &str = "\
84000063 Version [1, 0, 0, 0, 0, 0, 0, 0]
84000064 Features [1, 0, 0, 0, 0, 0, 0, 0]
84000065 RxRelease [0, 0, 0, 0, 0, 0, 0, 0]
84000066 RxtxMap [1, 2, 3, 0, 0, 0, 0, 0]
C4000066 RxtxMap [691489734657, 695784701954, 3, 0, 0, 0, 0, 0]
84000067 RxtxUnmap [1, 0, 0, 0, 0, 0, 0, 0]
84000068 PartitionInfoGet [1, 2, 3, 4, 5, 0, 0, 0]
84000069 IdGet [0, 0, 0, 0, 0, 0, 0, 0]
8400006B MsgWait [2, 0, 0, 0, 0, 0, 0, 0]
8400006C Yield [0, 0, 0, 0, 0, 0, 0, 0]
8400006D Run [1, 0, 0, 0, 0, 0, 0, 0]
84000085 SpmIdGet [0, 0, 0, 0, 0, 0, 0, 0]
84000086 MsgSend2 [0, 0, 0, 0, 0, 0, 0, 0]";

const DIRECT: &str = "\
8400006F DirectRequest [2214592623, 1, 2, 3, 4, 5, 6, 7]
C400006F DirectRequest [3288334447, 1, 2, 700079669251, 704374636548, 708669603845, 712964571142, 717259538439]
84000070 DirectResponse [2214592624, 1, 2, 3, 4, 5, 6, 7]
C4000070 DirectResponse [3288334448, 1, 2, 700079669251, 704374636548, 708669603845, 712964571142, 717259538439]";

const MEMORY: &str = "\
84000071 MemDonate [1, 2, 3, 4, 0, 0, 0, 0]
84000072 MemLend [1, 2, 3, 4, 0, 0, 0, 0]
84000073 MemShare [1, 2, 3, 4, 0, 0, 0, 0]
84000074 MemRetrieve [1, 2, 3, 4, 0, 0, 0, 0]
C4000071 MemDonate [1, 2, 700079669251, 4, 0, 0, 0, 0]
C4000072 MemLend [1, 2, 700079669251, 4, 0, 0, 0, 0]
C4000073 MemShare [1, 2, 700079669251, 4, 0, 0, 0, 0]
C4000074 MemRetrieve [1, 2, 700079669251, 4, 0, 0, 0, 0]
84000076 MemRelinquish [0, 0, 0, 0, 0, 0, 0, 0]
84000077 MemReclaim [8589934593, 3, 0, 0, 0, 0, 0, 0]";

const NOTIFICATIONS: &str = "\
8400007D BitmapCreate [1, 2, 0, 0, 0, 0, 0, 0]
8400007E BitmapDestroy [1, 0, 0, 0, 0, 0, 0, 0]
8400007F NotificationBind [1, 2, 17179869187, 0, 0, 0, 0, 0]
84000080 NotificationUnbind [1, 2, 17179869187, 0, 0, 0, 0, 0]
84000081 NotificationSet [1, 2, 17179869187, 0, 0, 0, 0, 0]
84000082 NotificationGet [1, 2, 0, 0, 0, 0, 0, 0]";

// Rows of calls that name two things in w1 = 8001 0002: a sender and a receiver, or an endpoint and its execution
// context.
const ENDS: &str = "\
8400006F DirectRequest [2214592623, 2147549186, 2, 3, 4, 5, 6, 7]
C4000070 DirectResponse [3288334448, 2147549186, 2, 700079669251, 704374636548, 708669603845, 712964571142, 717259538439]
8400007F NotificationBind [2147549186, 2, 17179869187, 0, 0, 0, 0, 0]
84000080 NotificationUnbind [2147549186, 2, 17179869187, 0, 0, 0, 0, 0]
84000081 NotificationSet [2147549186, 2, 17179869187, 0, 0, 0, 0, 0]
8400006D Run [2147549186, 0, 0, 0, 0, 0, 0, 0]
84000082 NotificationGet [2147549186, 2, 0, 0, 0, 0, 0, 0]";

fn numbers(a: u64, b: u64, c: u64, d: u64) -> [u64; 8] {
    [a, b, c, d, 0, 0, 0, 0]
}

fn of_transfer(transfer: Transfer) -> [u64; 8] {
    numbers(
        transfer.total.into(),
        transfer.fragment.into(),
        transfer.address,
        transfer.pages.into(),
    )
}

// Returns the word that names two endpoints.
fn of_ends(high: EndpointId, low: EndpointId) -> u64 {
    u64::from(high.0) << 16 | u64::from(low.0)
}

fn of_message(message: &DirectMessage) -> [u64; 8] {
    let ends = of_ends(message.sender, message.receiver);
    let [a, b, c, d, e] = message.payload;
    [
        message.function.into(),
        ends,
        message.flags.into(),
        a,
        b,
        c,
        d,
        e,
    ]
}

// Returns a call's name and its numbers. Calls are in four functions, because one function for all takes longer to
// prove.
fn said(call: Call) -> (&'static str, [u64; 8]) {
    match call {
        Call::Version { version } => ("Version", numbers(version.into(), 0, 0, 0)),
        Call::Features { function } => ("Features", numbers(function.into(), 0, 0, 0)),
        Call::RxRelease => ("RxRelease", [0; 8]),
        Call::RxtxMap { tx, rx, pages } => ("RxtxMap", numbers(tx, rx, pages.into(), 0)),
        Call::RxtxUnmap { endpoint } => ("RxtxUnmap", numbers(endpoint.into(), 0, 0, 0)),
        Call::PartitionInfoGet { uuid, flags } => {
            let [a, b, c, d] = uuid;
            let mut found = numbers(a.into(), b.into(), c.into(), d.into());
            found[4] = flags.into();
            ("PartitionInfoGet", found)
        }
        Call::IdGet => ("IdGet", [0; 8]),
        Call::SpmIdGet => ("SpmIdGet", [0; 8]),
        _ => said_of_messages(call),
    }
}

fn said_of_messages(call: Call) -> (&'static str, [u64; 8]) {
    match call {
        Call::MsgWait { flags } => ("MsgWait", [u64::from(flags), 0, 0, 0, 0, 0, 0, 0]),
        Call::Yield => ("Yield", [0; 8]),
        Call::Run { target, context } => {
            (
                "Run",
                numbers(of_ends(target, EndpointId(context)), 0, 0, 0),
            )
        }
        Call::MsgSend2 => ("MsgSend2", [0; 8]),
        Call::DirectRequest(message) => ("DirectRequest", of_message(&message)),
        Call::DirectResponse(message) => ("DirectResponse", of_message(&message)),
        _ => said_of_memory(call),
    }
}

fn said_of_memory(call: Call) -> (&'static str, [u64; 8]) {
    match call {
        Call::MemDonate(transfer) => ("MemDonate", of_transfer(transfer)),
        Call::MemLend(transfer) => ("MemLend", of_transfer(transfer)),
        Call::MemShare(transfer) => ("MemShare", of_transfer(transfer)),
        Call::MemRetrieve(transfer) => ("MemRetrieve", of_transfer(transfer)),
        Call::MemRelinquish => ("MemRelinquish", [0; 8]),
        Call::MemReclaim { handle, flags } => {
            ("MemReclaim", numbers(handle.0, flags.into(), 0, 0))
        }
        _ => said_of_notifications(call),
    }
}

fn of_bits(bits: &NotificationBits) -> [u64; 8] {
    let ends = of_ends(bits.sender, bits.receiver);
    numbers(ends, bits.flags.into(), bits.bitmap, 0)
}

fn said_of_notifications(call: Call) -> (&'static str, [u64; 8]) {
    match call {
        Call::BitmapCreate { endpoint, contexts } => {
            (
                "BitmapCreate",
                numbers(endpoint.into(), contexts.into(), 0, 0),
            )
        }
        Call::BitmapDestroy { endpoint } => ("BitmapDestroy", numbers(endpoint.into(), 0, 0, 0)),
        Call::NotificationBind(bits) => ("NotificationBind", of_bits(&bits)),
        Call::NotificationUnbind(bits) => ("NotificationUnbind", of_bits(&bits)),
        Call::NotificationSet(bits) => ("NotificationSet", of_bits(&bits)),
        Call::NotificationGet {
            receiver,
            context,
            flags,
        } => {
            let ends = of_ends(EndpointId(context), receiver);
            ("NotificationGet", numbers(ends, flags.into(), 0, 0))
        }
        _ => ("no call", [0; 8]),
    }
}

// Asserts the calls of these rows, with this value in x1.
fn check_calls(rt: &impl Abort, alloc: Global, rows: &str, x1: u64) -> Result<(), Fail> {
    for row in rows.lines() {
        let (function, wanted) = row.split_once(' ').ok_or("no call")?;
        let mut x = registers(u32::from_str_radix(function, 16)?);
        x[1] = x1;
        let (name, numbers) = said(decode(x));
        let printed = format!(in alloc; "{name} {numbers:?}")?;
        same_at(rt, printed.as_str(), wanted, &row);
    }
    Ok(())
}

#[test]
fn calls_by_their_identifiers(rt: HostRuntime) -> Result<(), Fail> {
    for rows in [SETUP, DIRECT, MEMORY, NOTIFICATIONS] {
        check_calls(&rt, rt.alloc(), rows, 0xA1_0000_0001)?;
    }
    check_calls(&rt, rt.alloc(), ENDS, 0x8001_0002)
}

// No result of the machine has something in w7. The rows of tests/rows show all other results.
#[test]
fn results_in_the_last_registers(rt: HostRuntime) {
    let results = Reply::Success([0, 0, 0, 0, 1, 2]);
    same(&rt, encode(&results), [0x8400_0061, 0, 0, 0, 0, 0, 1, 2]);
}

// Rows of w0 and w2, and the names of the call and of the error. A dash is in the row if there is no name.
const NAMES: &str = "\
84000060 FFFFFFFE FFA_ERROR INVALID_PARAMETERS
84000060 FFFFFFFF FFA_ERROR NOT_SUPPORTED
84000060 FFFFFFFC FFA_ERROR BUSY
84000060 FFFFFFFA FFA_ERROR DENIED
84000060 FFFFFFF7 FFA_ERROR NO_DATA
84000060 FFFFFFF6 FFA_ERROR -
84000060 00000000 FFA_ERROR -
84000061 FFFFFFFE FFA_SUCCESS -
84000062 00000000 FFA_INTERRUPT -
C4000061 00000000 FFA_SUCCESS -
8400006F 00000000 FFA_MSG_SEND_DIRECT_REQ -
C4000070 00000000 FFA_MSG_SEND_DIRECT_RESP -
84000075 00000060 FFA_MEM_RETRIEVE_RESP -
84000083 00000000 FFA_NOTIFICATION_INFO_GET -
C4000083 00000000 FFA_NOTIFICATION_INFO_GET -
84000086 00000000 FFA_MSG_SEND2 -
00010001 00000000 - -
FFFFFFFF FFFFFFFF - -
C4000060 FFFFFFFE - -
C4000063 00000000 - -
C4000075 00000000 - -";

#[test]
fn names_of_calls_and_errors(rt: HostRuntime) -> Result<(), Fail> {
    for row in NAMES.lines() {
        let (w0, rest) = row.split_once(' ').ok_or("no w0")?;
        let (w2, wanted) = rest.split_once(' ').ok_or("no w2")?;
        let mut x = registers(u32::from_str_radix(w0, 16)?);
        x[2] = (0xA2 << 32) | u64::from(u32::from_str_radix(w2, 16)?);
        let call = call_name(&x).unwrap_or("-");
        let error = error_name(&x).unwrap_or("-");
        let found = format!(in rt.alloc(); "{call} {error}")?;
        same_at(&rt, found.as_str(), wanted, &row);
    }
    Ok(())
}
