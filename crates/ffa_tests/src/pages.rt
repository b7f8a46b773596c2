// SPDX-License-Identifier: MIT OR Apache-2.0
//! A page of the built-in machine in a slot that no transaction has.
use crate::checks::same;
use ffa_model::{Data, EndpointId, PageNo, Rights};
use ffa_pages::PageTable;
use fixtures::FIRST;
use play_arguments::built_in;
use std::test::Fail;

const WRITABLE: Rights = Rights {
    level: Data::Rw,
    exec: false,
};

const ALL: Rights = Rights {
    level: Data::Rw,
    exec: true,
};

// Returns the data on a page: its owner, the own right, and the slot of the transaction that names it.
fn entry(table: &PageTable, page: u32) -> Option<(EndpointId, Option<Rights>, Option<u8>)> {
    if page >= table.pages() {
        return None;
    }
    let page = PageNo(page);
    Some((
        table.owner_of(page),
        table.own_right_of(page),
        table.slot_of(page),
    ))
}

fn give(table: &mut PageTable, page: u32, owner: EndpointId, base: Rights) {
    if page < table.pages() && owner != EndpointId::MANAGER {
        table.give(PageNo(page), owner, base);
    }
}

fn mark(table: &mut PageTable, page: u32, slot: Option<u8>) {
    if page < table.pages() {
        table.mark(PageNo(page), slot);
    }
}

#[test]
fn page_in_a_slot(rt: HostRuntime) -> Result<(), Fail> {
    let mut table = PageTable::of(&built_in());
    same(&rt, table.pages(), 512);
    same(&rt, entry(&table, 33), Some((FIRST, Some(ALL), None)));
    give(&mut table, 33, EndpointId(0), WRITABLE);
    mark(&mut table, 33, Some(127));
    give(&mut table, 33, FIRST, ALL);
    same(&rt, entry(&table, 33), Some((FIRST, Some(ALL), Some(127))));
    mark(&mut table, 33, None);
    same(&rt, entry(&table, 33), Some((FIRST, Some(ALL), None)));
    Ok(())
}
