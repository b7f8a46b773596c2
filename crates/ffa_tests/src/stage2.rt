// SPDX-License-Identifier: MIT OR Apache-2.0
//! Pages of words that rise, a table page that is mapped, and the non-secure pages of a machine.
use crate::checks::{holds, same, same_at};
use byteorder::{ByteOrder, LittleEndian};
use ffa_model::{Data, Ffa, PageNo, Rights};
use ffa_physmem::{FlatRam, NoMemory};
use ffa_stage2::{Layout, build, is_uniform, set_page};
use fixtures::{row_machine, word};

// Returns a page whose words rise by 4096 from this word on, with sums that wrap.
fn rising(first: u64) -> [u8; 4096] {
    let mut page = [0; 4096];
    for place in 0..512 {
        let word = u64::wrapping_add(first, 4096 * place as u64);
        LittleEndian::write_u64(&mut page[8 * place..], word);
    }
    page
}

#[test]
fn uniform_counts_without_wrapping(rt: HostRuntime) {
    for (first, answer) in [
        (0x0040_0000_4020_07ff, true),
        (0, true),
        (u64::MAX - 4096 * 511, true),
        (u64::MAX - 4096 * 511 + 1, false),
    ] {
        same_at(&rt, is_uniform(&rising(first)), answer, &first);
    }
}

#[test]
fn uniform_sees_each_word(rt: HostRuntime) {
    let mut page = rising(0x0040_0000_4020_07ff);
    for place in 0..512 {
        page[8 * place + 6] ^= 0x40;
        same_at(&rt, is_uniform(&page), false, &place);
        page[8 * place + 6] ^= 0x40;
    }
    same(&rt, is_uniform(&page), true);
}

#[test]
fn set_page_writes_descriptor(rt: HostRuntime) -> Result<(), NoMemory> {
    let manifest = row_machine();
    let layout = Layout::of(&manifest);
    let mut ram = FlatRam::new(rt.alloc(), layout.base, 512)?;
    build(&mut ram, &layout);
    let right = Rights {
        level: Data::Ro,
        exec: false,
    };
    set_page(&mut ram, &layout, 1, PageNo(1), Some(right));
    same(&rt, word(&ram, 5, 0), Some(0));
    same(&rt, word(&ram, 5, 1), Some(0x0040_0000_4000_177f));
    same(&rt, word(&ram, 5, 2), Some(0));
    Ok(())
}

// On a machine of FF-A 1.2 only the pages of the normal world's region are non-secure. These are pages 16 to 31,
// counted from 0.
#[test]
fn non_secure_pages(rt: HostRuntime) {
    let one = Layout::of(&row_machine());
    let two = Layout::of(&row_machine().with_ffa(Ffa::V1_2));
    holds(&rt, !one.tells_worlds() && two.tells_worlds());
    for (page, normal) in [
        (0, false),
        (15, false),
        (16, true),
        (31, true),
        (32, false),
        (511, false),
    ] {
        same_at(&rt, one.is_normal(PageNo(page)), false, &page);
        same_at(&rt, two.is_normal(PageNo(page)), normal, &page);
    }
    for (first, until) in [(0, 16), (16, 32), (20, 32), (32, 511)] {
        same_at(&rt, two.normal_until(PageNo(first), 511), until, &first);
    }
    same(&rt, two.normal_until(PageNo(16), 18), 18);
}
