// SPDX-License-Identifier: MIT OR Apache-2.0
//! Lines of traces that the program writes, as they are in a trace.
use crate::checks::same;
use arrayvec::ArrayVec;
use ffa_model::{Address, Data, EndpointId, Kind, Op, Range, Receiver, SendDesc, Size, Version};
use play_trace::{
    DescriptorContents, ScriptError, Unfit, put_descriptor, put_operation, put_stores,
};
use std::test::Fail;

const OPERATIONS: &str = "\
call 84000063 10001
call 0
call FFFFFFFFFFFFFFFF 0 0 0 0 0 0 1
load 4002E000 8
load 0000000140000000 1
store 40010000 2A
fetch 00000000
";

const BYTES: &str = "\
store 4002E000 0807060504030201
store 4002E008 0C0B0A09
store 4002E00C 0E0D
store 4002E00E 0F
";

fn send(kind: Kind) -> DescriptorContents {
    let mut receivers = ArrayVec::new();
    receivers.push(Receiver {
        endpoint: EndpointId(0x8002),
        grant: Some(Data::Rw),
    });
    let mut ranges = ArrayVec::new();
    ranges.push(Range {
        address: 0x4002_1000,
        pages: 1,
    });
    let desc = SendDesc {
        sender: EndpointId(0x8001),
        zero: false,
        tag: 0,
        receivers,
        ranges,
    };
    DescriptorContents::Send { kind, desc }
}

#[test]
fn operations_are_written(rt: HostRuntime) -> Result<(), Fail> {
    let mut text = Vec::new(rt.alloc());
    put_operation(
        &mut text,
        &Op::Call([0x8400_0063, 0x1_0001, 0, 0, 0, 0, 0, 0]),
    )?;
    put_operation(&mut text, &Op::Call([0; 8]))?;
    put_operation(&mut text, &Op::Call([u64::MAX, 0, 0, 0, 0, 0, 0, 1]))?;
    put_operation(
        &mut text,
        &Op::Load {
            addr: 0x4002_E000,
            size: Size::B8,
        },
    )?;
    put_operation(
        &mut text,
        &Op::Load {
            addr: 0x1_4000_0000,
            size: Size::B1,
        },
    )?;
    put_operation(
        &mut text,
        &Op::Store {
            addr: 0x4001_0000,
            size: Size::B1,
            value: 0x2A,
        },
    )?;
    put_operation(&mut text, &Op::Fetch { addr: 0 })?;
    same(&rt, text.as_slice(), OPERATIONS.as_bytes());
    Ok(())
}

#[test]
fn bytes_are_stored(rt: HostRuntime) -> Result<(), Fail> {
    let mut text = Vec::new(rt.alloc());
    let bytes = [1, 2, 3, 4, 5, 6, 7, 8, 9, 10, 11, 12, 13, 14, 15];
    put_stores(&mut text, Address(0x4002_E000), &bytes)?;
    same(&rt, text.as_slice(), BYTES.as_bytes());
    Ok(())
}

#[test]
fn unfit_descriptor_is_told(rt: HostRuntime) -> Result<(), Fail> {
    let mut text = Vec::from_slice(rt.alloc(), b"# text\n")?;
    let put = put_descriptor(
        &mut text,
        Version::V1_1,
        &send(Kind::Donate),
        Address(0x4002_E000),
    );
    same(&rt, put, Err(ScriptError::Unfit(Unfit::GrantOfADonate)));
    same(&rt, text.as_slice(), b"# text\n".as_slice());
    let said = format!(in rt.alloc(); "{}", ScriptError::Unfit(Unfit::GrantOfADonate))?;
    same(
        &rt,
        said.as_str(),
        "a receiver of a donate is granted a data right",
    );
    Ok(())
}
