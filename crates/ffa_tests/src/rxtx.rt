// SPDX-License-Identifier: MIT OR Apache-2.0
//! RX that is filled again before its release, which no call does. The bytes after a shorter filling stay.
use crate::checks::same;
use ffa_model::{Address, ErrorCode};
use ffa_pages::PageTable;
use ffa_physmem::FlatRam;
use ffa_rxtx::Buffers;
use fixtures::{SECOND, row_machine, word};
use std::test::Fail;

const BASE: Address = Address(0x4000_0000);

#[test]
fn fill_and_release(rt: HostRuntime) -> Result<(), Fail> {
    let table = PageTable::of(&row_machine());
    let mut ram = FlatRam::new(rt.alloc(), BASE, 512)?;
    let mut buffers = Buffers::none(3);
    let mapped = buffers.map(&table, BASE, SECOND, 0x4003_E000, 0x4003_F000, 1);
    assert_eq!(rt; mapped, Ok(()));
    buffers.fill(&mut ram, SECOND, &[1, 2, 3]);
    same(&rt, buffers.is_full(SECOND), true);
    buffers.fill(&mut ram, SECOND, &[4, 5]);
    same(&rt, word(&ram, 0x3F, 0), Some(0x0003_0504));
    same(&rt, buffers.rx_release(SECOND), Ok(()));
    same(&rt, buffers.rx_release(SECOND), Err(ErrorCode::Denied));
    same(&rt, buffers.has(SECOND), true);
    Ok(())
}
