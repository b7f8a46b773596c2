// SPDX-License-Identifier: MIT OR Apache-2.0
//! A row on machines that keep the bytes that were in their RAM before. One machine has RAM of frames with a cache, and
//! the other has storage in a heap. C can have neither. The test rust/tests/held.rs plays this row on machines of the
//! library.
ghost use Rattle.std.specs.Prelude.{◌≡◌, ◌*◌, IfOk, length};

use super::*;
use ffa_manifest::read;
use ffa_model::Manifest;
use ffa_physmem::{FlatRam, FrameRam, PhysMem};
use ffa_reasons::Explained;
use ffa_spmc::{Fill, Given, Machine, Storage};
use fixtures::set_word;

// The first partition has code that nobody may write, and data. The second partition has data that nobody may write.
const MANIFEST: &str = r#"
ram_base = 0x40000000
ram_blocks = 1
[[endpoint]]
version = "1.1"
properties = 6
regions = [{ base = 0x40010000, pages = 16, rights = "rw" }]
[[endpoint]]
version = "1.1"
uuid = "00112233-4455-6677-8899-aabbccddeeff"
properties = 15
regions = [{ base = 0x40020000, pages = 4, rights = "rox" }, { base = 0x40024000, pages = 4, rights = "rw" }]
[[endpoint]]
version = "1.1"
uuid = "10112233-4455-6677-8899-aabbccddeeff"
properties = 15
regions = [{ base = 0x40030000, pages = 4, rights = "ro" }]
"#;

const ROW: &str = "\
load 40010000 8 -> data 9090909090909090
load 4001FFF8 8 -> data 9F9F9F9F9F9F9F9F
load 40000000 8 -> fault translation
load 40009000 8 -> fault translation
load 40020000 1 -> fault translation
load 00000000 8 -> fault translation
call 8400006D 80010000 -> 8001: 8400006D 80010000
fetch 40020000 -> data A0A0A0A0
load 40023FF8 8 -> data A3A3A3A3A3A3A3A3
store 40020000 00 -> fault permission
fetch 40024000 -> fault permission
store 40024000 5A -> done
load 40024000 2 -> data A45A
load 40030000 1 -> fault translation
call 8400006B -> 0: 8400006B 80010000
call 8400006D 80020000 -> 8002: 8400006D 80020000
load 40033FFC 4 -> data B3B3B3B3
store 40030000 00 -> fault permission
fetch 40030000 -> fault permission
";

// Returns the word that is at the start and at the end of a page before a boot. It is a byte eight times, and not zero.
fn mark(page: u32) -> u64 {
    let byte = 0x80 | (page % 0x80) as u8;
    0x0101_0101_0101_0101_u64.wrapping_mul(u64::from(byte))
}

fn mark_pages<M: PhysMem>(ram: &mut M) {
    for page in 0..ram.pages() {
        set_word(ram, page, 0, mark(page));
        set_word(ram, page, 511, mark(page));
    }
}

// Returns the RAM for a machine, with the mark of each page.
fn marked<M: PhysMem + Drop>(ram: M, manifest: &Manifest) -> Result<M, Fail>
    ensures base { IfOk result (λ ram. (M.ram ram).base ≡ manifest.now.ram_base.0) }
    ensures size { IfOk result (λ ram. length (M.ram ram).pages ≡ 512 * manifest.now.ram_blocks) }
{
    let mut ram = ram;
    mark_pages(&mut ram);
    if ram.base() == manifest.ram_base && ram.pages() == 512 * manifest.ram_blocks {
        Ok(ram)
    } else {
        Err(Fail::from("the RAM is another machine's"))
    }
}

fn marked_flat(alloc: Global, manifest: &Manifest) -> Result<FlatRam, Fail>
    ensures base { IfOk result (λ ram. (⟦<FlatRam as PhysMem>⟧.ram ram).base ≡ manifest.now.ram_base.0) }
    ensures size { IfOk result (λ ram. length (⟦<FlatRam as PhysMem>⟧.ram ram).pages ≡ 512 * manifest.now.ram_blocks) }
{
    let ram = FlatRam::new(alloc, manifest.ram_base, 512 * manifest.ram_blocks)?;
    marked(ram, manifest)
}

// Endpoints load and fetch the bytes of their own regions, and reach no other bytes.
#[test]
fn loads_what_came_with_ram(rt: HostRuntime) -> Result<(), Fail> {
    let manifest = read(rt.alloc(), MANIFEST)?;
    let frames = FrameRam::new(rt.alloc(), manifest.ram_base, 512 * manifest.ram_blocks)?;
    let framed = Machine::boot_in(
        Storage::inline(&manifest),
        &manifest,
        marked(frames, &manifest)?,
        four_in_turn(),
        Fill::KeepRegions,
    );
    goes_on(&rt, rt.alloc(), &mut Player::new(Explained(framed)), ROW)?;
    let storage: Storage<Given<Global>> = Storage::allocate_for(rt.alloc(), &manifest)?;
    let ram = marked_flat(rt.alloc(), &manifest)?;
    let roomed = Machine::boot_in(storage, &manifest, ram, NoTlb, Fill::KeepRegions);
    goes_on(&rt, rt.alloc(), &mut Player::new(Explained(roomed)), ROW)
}
