// SPDX-License-Identifier: MIT OR Apache-2.0
//! One block of RAM in an endpoint's tables. If its 512 pages have one right other than no right, the block is a block
//! descriptor of 2 MiB. Otherwise it is a table of level 3.
ghost use Rattle.std.specs.Prelude.{◌≡◌, ℕ, ◌+◌, ◌-◌, ◌*◌, ◌%◌, ◌^◌, ◌<◌, ◌≤◌, ◌↔◌, ◌⊎◌, IsTrue, is_some, false, true, length, Option, Some};
ghost use Rattle.arrayvec.specs.ArrayVec.{array_vec_len};
ghost use Rattle.ffa_model.specs.Ram.{page_of};
ghost use Rattle.ffa_model.specs.Descriptor.{page_word};
ghost use Rattle.ffa_model.specs.declared.rights.Rights.{Rights};
ghost use Rattle.ffa_stage2.specs.Blocks.{IsMixed, IsOne};
ghost use Rattle.ffa_stage2.specs.Tables.{HasRoom};
ghost use Rattle.ffa_physmem.specs.Moments.{Only};
ghost use Rattle.ffa_physmem.specs.Work.{AddsAtMost};
ghost use Rattle.ffa_stage2.specs.Orders.{IsLinkOrBlock, IsWritten};
ghost use Rattle.ffa_stage2.specs.Places.{IsPlace, IsCut, IsFilled, IsFilling, IsOnTheWay, IsOrderly, IsReplacing, IsOneOf, IsSameRun, Maps, Names, KeepsBeside, with_run, word_at, IsPlaceOf};
ghost use Rattle.ffa_stage2.specs.Work.{IsCarry, IsChange, IsSplitOf, change_work, run_words};

use crate::layout::Layout;
use crate::runs::is_uniform;
use crate::tables::leaf;
use ffa_model::{Address, PageNo, Rights};
use ffa_physmem::descriptor::{BLOCK, PAGE, TABLE};
use ffa_physmem::{PAGE_SIZE, PhysMem};

/// The place of one block of RAM in one endpoint's tables.
#[derive(Clone, Copy)]
pub(crate) struct BlockPlace {
    // The level 2 page, and the place of the block's word in it.
    middle: PageNo,
    entry: usize,
    // The level 3 page of the block, and the descriptor that names it.
    table: PageNo,
    link: u64,
    // The address of the block's first page, the number of this page, and the endpoint's place in the manifest.
    address: u64,
    first: PageNo,
    endpoint: usize,
}

impl BlockPlace {
    // Returns the place of a block in an endpoint's tables.
    pub(crate) fn of<M: PhysMem>(
        memory: &M,
        layout: &Layout,
        index: usize,
        block: u32,
    ) -> BlockPlace
        requires fits { HasRoom (M.ram memory.now) (array_vec_len layout.now.regions) layout.now.tables.0 layout.now.blocks }
        requires index { index < array_vec_len layout.now.regions }
        requires block { block < layout.now.blocks }
        ensures { IsPlaceOf (M.ram memory.now) layout.now.tables.0 layout.now.blocks index block result }
    {
        let Address(base) = memory.base();
        let table = layout.table_page(index, 2 + block);
        BlockPlace {
            middle: layout.table_page(index, 1),
            entry: ((base >> 21) % 512 + block) as usize,
            table,
            link: u64::from(base) + PAGE_SIZE as u64 * u64::from(table.0) + TABLE,
            address: u64::from(base) + 0x20_0000 * u64::from(block),
            first: PageNo(512 * block),
            endpoint: index,
        }
    }

    // Returns the level 2 word of the block.
    fn word<M: PhysMem>(&self, memory: &M) -> u64
        requires place { IsPlace (M.ram memory.now) self.now }
        ensures { result ≡ word_at (M.ram memory.now) self.now }
    {
        memory.read_word(self.middle, self.entry)
    }
}

// Whether a page of the block has this right in the level 3 table.
fn has_right<M: PhysMem>(memory: &M, place: &BlockPlace, page: u32, right: Option<Rights>) -> bool
    requires place { IsPlace (M.ram memory.now) place.now }
    requires page { page < 512 }
    ensures { (rights : ℕ → Option Rights)
        → Names (M.ram memory.now) place.now rights
        → IsTrue result ↔ (rights page ≡ right) }
{
    let word = leaf(place.address + PAGE_SIZE as u64 * u64::from(page), right);
    memory.read_word(place.table, page as usize) == word
}

// Whether all 512 pages of the table have one right, which is not no right. `right` is the right of the page `within`.
// All words are read only if the next page and the first page have this right too. While the pages of a block change
// one after another, up or down, one of these two has another right.
fn is_one<M: PhysMem>(memory: &M, place: &BlockPlace, within: u32, right: Option<Rights>) -> bool
    requires place { IsPlace (M.ram memory.now) place.now }
    requires within { within < 512 }
    ensures one { (rights : ℕ → Option Rights)
        → Names (M.ram memory.now) place.now rights
        → rights within ≡ right
        → IsTrue result ↔ (r : Rights) × IsOne rights r }
    ensures some { IsTrue result → (r : Rights) × right ≡ Some r }
{
    if right.is_none() {
        return false;
    }
    if !has_right(memory, place, (within + 1) % 512, right) {
        return false;
    }
    if !has_right(memory, place, 0, right) {
        return false;
    }
    is_uniform(memory.page(place.table))
}

// Replaces a valid word at level 2 by a word of another size. Between the two, the word is 0, and the settle lets every
// translation unit see this (DDI 0487, "Using break-before-make when updating translation table entries").
fn replace<M: PhysMem>(memory: &mut M, place: &BlockPlace, word: u64)
    requires place { IsPlace (M.ram memory.old) place.now }
    requires word { IsLinkOrBlock place.now.link place.now.address word }
    ensures written { IsWritten (M.ram memory.old) (M.ram memory.new) place.now.middle.0 place.now.entry word }
    ensures steps { Only (M.past memory.old) (M.past memory.new)
        (λ h s. IsReplacing (M.ram memory.old) (M.ram memory.new) place.now h s) }
    ensures orders { Only (M.past memory.old) (M.past memory.new) (λ h s. IsOrderly place.now ⊥ h s) }
    ensures few { AddsAtMost (M.past memory.old) (M.past memory.new) (change_work 0 1 0) }
{
    memory.write_word(place.middle, place.entry, 0);
    memory.settle(place.endpoint, place.first, 512);
    memory.write_word(place.middle, place.entry, word);
}

// Replaces a table by a block, if the pages of the table have one right other than no right.
fn join<M: PhysMem>(memory: &mut M, place: &BlockPlace, within: u32, right: Option<Rights>)
    requires place { IsPlace (M.ram memory.old) place.now }
    requires within { within < 512 }
    ensures mapped { (rights : ℕ → Option Rights)
        → Names (M.ram memory.old) place.now rights
        → rights within ≡ right
        → Maps (M.ram memory.new) place.now rights }
    ensures beside { KeepsBeside (M.ram memory.old) (M.ram memory.new) place.now }
    ensures steps { Only (M.past memory.old) (M.past memory.new)
        (λ _ s. IsCut (M.ram memory.old) s.after place.now ⊎ (s.after ≡ M.ram memory.new)) }
    ensures orders { (rights : ℕ → Option Rights)
        → Names (M.ram memory.old) place.now rights
        → rights within ≡ right
        → Only (M.past memory.old) (M.past memory.new) (λ h s. IsOrderly place.now (IsMixed rights) h s) }
    ensures few { (rights : ℕ → Option Rights)
        → Names (M.ram memory.old) place.now rights
        → rights within ≡ right
        → (joins : ℕ) × AddsAtMost (M.past memory.old) (M.past memory.new) (change_work 0 joins 0) × IsCarry rights joins }
{
    if is_one(memory, place, within, right) {
        let word = leaf(place.address, right) - PAGE;
        replace(memory, place, word);
    }
}

// Writes words of a table one by one, from place `from` up to place `to`. Each word is `first` plus `step` times its
// place.
fn write_words<M: PhysMem>(memory: &mut M, table: PageNo, from: u32, to: u32, first: u64, step: u64)
    requires table { table.0 < length (M.ram memory.old).pages }
    requires whole { length (page_of (M.ram memory.old) table.0) ≡ 4096 }
    requires from { from ≤ to }
    requires to { to ≤ 512 }
    requires step { step ≤ 4096 }
    requires fits { first + 0x200000 ≤ 2 ^ 64 }
    ensures filled { IsFilled (M.ram memory.old) (M.ram memory.new) table.0 from to (λ j. first + step * j) }
    ensures steps { Only (M.past memory.old) (M.past memory.new)
        (λ _ s. IsFilling (M.ram memory.old) s.after table.0 from to (λ j. first + step * j)) }
    ensures orders { Only (M.past memory.old) (M.past memory.new)
        (λ _ s. IsOneOf (M.ram memory.old) table.0 from to (λ j. first + step * j) s) }
    ensures few { AddsAtMost (M.past memory.old) (M.past memory.new) (change_work (to - from) 0 0) }
{
    for place in from..to {
        memory.write_word(table, place as usize, first + step * u64::from(place));
    }
}

// Sets words of a table so that their pages have the right of the block with this word.
fn keep<M: PhysMem>(memory: &mut M, place: &BlockPlace, from: u32, to: u32, word: u64)
    requires place { IsPlace (M.ram memory.old) place.now }
    requires from { from ≤ to }
    requires to { to ≤ 512 }
    requires word { word + 0x200002 ≤ 2 ^ 64 }
    ensures filled { let words = λ (j : ℕ). word + 2 + 4096 * j in
        IsFilled (M.ram memory.old) (M.ram memory.new) place.now.table.0 from to words }
    ensures steps { let words = λ (j : ℕ). word + 2 + 4096 * j in
        Only (M.past memory.old) (M.past memory.new)
        (λ _ s. IsFilling (M.ram memory.old) s.after place.now.table.0 from to words) }
    ensures orders { let words = λ (j : ℕ). word + 2 + 4096 * j in
        Only (M.past memory.old) (M.past memory.new)
        (λ _ s. IsOneOf (M.ram memory.old) place.now.table.0 from to words s) }
    ensures few { AddsAtMost (M.past memory.old) (M.past memory.new) (change_work (to - from) 0 0) }
{
    write_words(memory, place.table, from, to, word + PAGE, PAGE_SIZE as u64);
}

// Sets words of a table so that their pages have this right.
fn fill<M: PhysMem>(memory: &mut M, place: &BlockPlace, from: u32, to: u32, right: Option<Rights>)
    requires place { IsPlace (M.ram memory.old) place.now }
    requires from { from ≤ to }
    requires to { to ≤ 512 }
    ensures filled { let words = λ (j : ℕ). page_word (place.now.address + 4096 * j) right in
        IsFilled (M.ram memory.old) (M.ram memory.new) place.now.table.0 from to words }
    ensures steps { let words = λ (j : ℕ). page_word (place.now.address + 4096 * j) right in
        Only (M.past memory.old) (M.past memory.new)
        (λ _ s. IsFilling (M.ram memory.old) s.after place.now.table.0 from to words) }
    ensures orders { let words = λ (j : ℕ). page_word (place.now.address + 4096 * j) right in
        Only (M.past memory.old) (M.past memory.new)
        (λ _ s. IsOneOf (M.ram memory.old) place.now.table.0 from to words s) }
    ensures few { AddsAtMost (M.past memory.old) (M.past memory.new) (change_work (to - from) 0 0) }
{
    let step = if right.is_some() { PAGE_SIZE as u64 } else { 0 };
    write_words(
        memory,
        place.table,
        from,
        to,
        leaf(place.address, right),
        step,
    );
}

// Sets the right of all pages of a block by its one word.
fn put_block<M: PhysMem>(memory: &mut M, place: &BlockPlace, right: Option<Rights>)
    requires place { IsPlace (M.ram memory.old) place.now }
    requires stands { (rights : ℕ → Option Rights) × Maps (M.ram memory.old) place.now rights }
    requires some { is_some right ≡ true }
    ensures mapped { Maps (M.ram memory.new) place.now (λ j. right) }
    ensures beside { KeepsBeside (M.ram memory.old) (M.ram memory.new) place.now }
    ensures steps { Only (M.past memory.old) (M.past memory.new)
        (λ _ s. IsCut (M.ram memory.old) s.after place.now ⊎ (s.after ≡ M.ram memory.new)) }
    ensures orders { (rights : ℕ → Option Rights)
        → Maps (M.ram memory.old) place.now rights
        → Only (M.past memory.old) (M.past memory.new) (λ h s. IsOrderly place.now (IsSameRun rights 0 512 right) h s) }
    // A table becomes a block, or the word of the block is stored.
    ensures few { (rights : ℕ → Option Rights)
        → Maps (M.ram memory.old) place.now rights
        → (carry : ℕ)
        → IsCarry rights carry
        → (joins : ℕ) × (joins + carry ≤ 1) × AddsAtMost (M.past memory.old) (M.past memory.new) (change_work 1 joins 0) }
{
    let word = leaf(place.address, right) - PAGE;
    let now = place.word(memory);
    if now == word {
        return;
    }
    if now % 4 == BLOCK {
        memory.write_word(place.middle, place.entry, word);
    } else {
        replace(memory, place, word);
    }
}

// Sets the right of some pages of a block, which is a block descriptor with this word. The table is complete before the
// level 2 word names it.
fn split<M: PhysMem>(
    memory: &mut M,
    place: &BlockPlace,
    from: u32,
    to: u32,
    right: Option<Rights>,
    word: u64,
)
    requires place { IsPlace (M.ram memory.old) place.now }
    requires mapped { (rights : ℕ → Option Rights) × Maps (M.ram memory.old) place.now rights }
    requires from { from < to }
    requires to { to ≤ 512 }
    requires part { (to < from + 512) ⊎ (is_some right ≡ false) }
    requires word { word ≡ word_at (M.ram memory.old) place.now }
    requires block { word % 4 ≡ 1 }
    ensures mapped { (rights : ℕ → Option Rights)
        → Maps (M.ram memory.old) place.now rights
        → Maps (M.ram memory.new) place.now (with_run rights from to right) }
    ensures beside { KeepsBeside (M.ram memory.old) (M.ram memory.new) place.now }
    ensures steps { (rights : ℕ → Option Rights)
        → Maps (M.ram memory.old) place.now rights
        → Only (M.past memory.old) (M.past memory.new)
        (λ _ s. IsOnTheWay (M.ram memory.old) s.after place.now rights from to right) }
    ensures orders { (rights : ℕ → Option Rights)
        → Maps (M.ram memory.old) place.now rights
        → Only (M.past memory.old) (M.past memory.new) (λ h s. IsOrderly place.now (IsSameRun rights from to right) h s) }
    ensures few { (rights : ℕ → Option Rights)
        → Maps (M.ram memory.old) place.now rights
        → (carry : ℕ)
        → IsCarry rights carry
        → let after = with_run rights from to right in
        IsChange (M.past memory.old) (M.past memory.new) 0 0 carry (IsCarry after) (IsSplitOf rights right) }
{
    if leaf(place.address, right) == word + PAGE {
        return;
    }
    keep(memory, place, 0, from, word);
    keep(memory, place, to, 512, word);
    fill(memory, place, from, to, right);
    replace(memory, place, place.link);
}

// Sets the right of some pages of a block that is a table.
fn change_table<M: PhysMem>(
    memory: &mut M,
    place: &BlockPlace,
    from: u32,
    to: u32,
    right: Option<Rights>,
)
    requires place { IsPlace (M.ram memory.old) place.now }
    requires from { from < to }
    requires to { to ≤ 512 }
    ensures mapped { (rights : ℕ → Option Rights)
        → Names (M.ram memory.old) place.now rights
        → Maps (M.ram memory.new) place.now (with_run rights from to right) }
    ensures beside { KeepsBeside (M.ram memory.old) (M.ram memory.new) place.now }
    ensures steps { (rights : ℕ → Option Rights)
        → Names (M.ram memory.old) place.now rights
        → Only (M.past memory.old) (M.past memory.new)
        (λ _ s. IsOnTheWay (M.ram memory.old) s.after place.now rights from to right) }
    ensures orders { (rights : ℕ → Option Rights)
        → Names (M.ram memory.old) place.now rights
        → IsMixed rights
        → Only (M.past memory.old) (M.past memory.new) (λ h s. IsOrderly place.now (IsSameRun rights from to right) h s) }
    ensures few { (rights : ℕ → Option Rights)
        → Names (M.ram memory.old) place.now rights
        → let after = with_run rights from to right in
        (joins : ℕ) × AddsAtMost (M.past memory.old) (M.past memory.new) (change_work (to - from) joins 0) × IsCarry after joins }
{
    fill(memory, place, from, to, right);
    join(memory, place, to - 1, right);
}

// Whether the pages from `from` up to `to` are all pages of a block.
fn is_whole(from: u32, to: u32) -> bool
    requires from { from < to }
    requires to { to ≤ 512 }
    ensures { IsTrue result ↔ (to ≡ from + 512) }
{
    to - from == 512
}

// Sets the right of the pages of a block from `from` up to `to`.
pub(crate) fn change<M: PhysMem>(
    memory: &mut M,
    place: &BlockPlace,
    from: u32,
    to: u32,
    right: Option<Rights>,
)
    requires place { IsPlace (M.ram memory.old) place.now }
    requires mapped { (rights : ℕ → Option Rights) × Maps (M.ram memory.old) place.now rights }
    requires from { from < to }
    requires to { to ≤ 512 }
    ensures mapped { (rights : ℕ → Option Rights)
        → Maps (M.ram memory.old) place.now rights
        → Maps (M.ram memory.new) place.now (with_run rights from to right) }
    ensures beside { KeepsBeside (M.ram memory.old) (M.ram memory.new) place.now }
    ensures steps { (rights : ℕ → Option Rights)
        → Maps (M.ram memory.old) place.now rights
        → Only (M.past memory.old) (M.past memory.new)
        (λ _ s. IsOnTheWay (M.ram memory.old) s.after place.now rights from to right) }
    ensures orders { (rights : ℕ → Option Rights)
        → Maps (M.ram memory.old) place.now rights
        → Only (M.past memory.old) (M.past memory.new) (λ h s. IsOrderly place.now (IsSameRun rights from to right) h s) }
    ensures few { (rights : ℕ → Option Rights)
        → Maps (M.ram memory.old) place.now rights
        → (carry : ℕ)
        → IsCarry rights carry
        → let after = with_run rights from to right in
        IsChange (M.past memory.old) (M.past memory.new) (run_words right from to) 0 carry (IsCarry after) (IsSplitOf rights right) }
{
    if is_whole(from, to) && right.is_some() {
        put_block(memory, place, right);
        return;
    }
    let word = place.word(memory);
    if word % 4 == BLOCK {
        split(memory, place, from, to, right, word);
    } else {
        change_table(memory, place, from, to, right);
    }
}
