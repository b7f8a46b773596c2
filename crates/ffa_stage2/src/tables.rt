// SPDX-License-Identifier: MIT OR Apache-2.0
//! The stage 2 tables in RAM, from a page of the layout on. For each endpoint in order there is a page of level 1, a
//! page of level 2, and a page of level 3 for each block of 2 MiB.
ghost use Rattle.std.specs.Prelude.{◌≡◌, ℕ, ◌+◌, ◌-◌, ◌*◌, ◌/◌, ◌<◌, ◌≤◌, Bool, length, Option};
ghost use Rattle.arrayvec.specs.ArrayVec.{array_vec_len};
ghost use Rattle.ffa_model.specs.Descriptor.{page_word};
ghost use Rattle.ffa_model.specs.declared.rights.Rights.{Rights};
ghost use Rattle.ffa_physmem.specs.Moments.{Only};
ghost use Rattle.ffa_physmem.specs.Work.{AddsAtMost};
ghost use Rattle.ffa_stage2.specs.Mixed.{WalksMixed};
ghost use Rattle.ffa_stage2.specs.Moments.{IsBetweenFor, WalksBetween};
ghost use Rattle.ffa_stage2.specs.Rest.{AllSettled, RestIn};
ghost use Rattle.ffa_stage2.specs.Layout.{layout_right, IsBuiltFor, BlocksWhereOneFor, WalksToFor, TablesAreFor, KeepsRestFor};
ghost use Rattle.ffa_stage2.specs.Tables.{IsSameIn, with_pages, with_right, WalkChanges, WalksChange, KeepsOthers, TableLaws};
ghost use Rattle.ffa_stage2.specs.Orders.{IsOrdered};
ghost use Rattle.ffa_stage2.specs.Words.{linked, rights_until};
ghost use Rattle.ffa_stage2.specs.Work.{AreSplits, IsCarryAt, IsChange, pages_work, touched_passing, words_written};

use crate::blocks::{BlockPlace, change};
use crate::layout::Layout;
use ffa_model::{Data, PageNo, Rights};
use ffa_physmem::PhysMem;
use ffa_physmem::descriptor::{ADDRESS, EXECUTE_NEVER, READABLE_PAGE, WRITABLE};

// The number of pages that addresses of 32 bits have.
const ALL_PAGES: u32 = 1 << 20;

/// Returns the level 3 descriptor that maps the page of an address to itself (DDI 0487, D8.3). Only bits 47:12 of the
/// address count. For `None`, returns 0.
pub fn leaf(address: u64, right: Option<Rights>) -> u64
    ensures { result ≡ page_word address right }
{
    match right {
        None => 0,
        Some(rights) => {
            let write = match rights.level {
                Data::Ro => 0,
                Data::Rw => WRITABLE,
            };
            let never = if rights.exec { 0 } else { EXECUTE_NEVER };
            (address & ADDRESS) + READABLE_PAGE + write + never
        }
    }
}

/// Sets the right of one endpoint to one page. `index` is the endpoint's place in the manifest, from 0. No other access
/// changes. Only the table pages of this endpoint change.
pub fn set_page<M: PhysMem>(
    memory: &mut M,
    layout: &Layout,
    index: usize,
    page: PageNo,
    right: Option<Rights>,
)
    requires built { (access : ℕ → ℕ → Option Rights) × IsBuiltFor layout.now (M.ram memory.old) access }
    requires index { index < array_vec_len layout.now.regions }
    requires page { page.0 < 512 * layout.now.blocks }
    ensures built { (access : ℕ → ℕ → Option Rights)
        → IsBuiltFor layout.now (M.ram memory.old) access
        → IsBuiltFor layout.now (M.ram memory.new) (with_right access index page.0 right) }
    ensures steps { (access : ℕ → ℕ → Option Rights)
        → IsBuiltFor layout.now (M.ram memory.old) access
        → Only (M.past memory.old) (M.past memory.new)
        (λ _ s. IsBetweenFor layout.now s.after access (with_right access index page.0 right)) }
    ensures walks { WalkChanges (M.ram memory.old) (M.ram memory.new)
        (array_vec_len layout.now.regions) layout.now.tables.0 layout.now.blocks index page.0 right }
    ensures others { KeepsOthers (M.ram memory.old) (M.ram memory.new) layout.now.tables.0 layout.now.blocks index }
    ensures orders { (access : ℕ → ℕ → Option Rights)
        → IsBuiltFor layout.now (M.ram memory.old) access
        → let after = with_right access index page.0 right in
        Only (M.past memory.old) (M.past memory.new)
        (λ h s. IsOrdered (M.ram memory.old) layout.now.tables.0 layout.now.blocks (IsSameIn access after index) index h s) }
    ensures blocks { (access : ℕ → ℕ → Option Rights)
        → IsBuiltFor layout.now (M.ram memory.old) access
        → BlocksWhereOneFor layout.now (M.ram memory.new) (with_right access index page.0 right) }
    ensures few { (access : ℕ → ℕ → Option Rights) (split : ℕ → Bool)
        → IsBuiltFor layout.now (M.ram memory.old) access
        → AreSplits (access index) right page.0 (page.0 + 1) split
        → AddsAtMost (M.past memory.old) (M.past memory.new) (pages_work split right page.0 (page.0 + 1)) }
{
    set_pages(memory, layout, index, page, 1, right);
}

/// Sets the right of one endpoint to consecutive pages. `index` is the endpoint's place in the manifest, from 0. No
/// other access changes. Only the table pages of this endpoint change.
pub fn set_pages<M: PhysMem>(
    memory: &mut M,
    layout: &Layout,
    index: usize,
    first: PageNo,
    count: u32,
    right: Option<Rights>,
)
    requires built { (access : ℕ → ℕ → Option Rights) × IsBuiltFor layout.now (M.ram memory.old) access }
    requires index { index < array_vec_len layout.now.regions }
    requires pages { first.0 + count ≤ 512 * layout.now.blocks }
    ensures built { (access : ℕ → ℕ → Option Rights)
        → IsBuiltFor layout.now (M.ram memory.old) access
        → IsBuiltFor layout.now (M.ram memory.new) (with_pages access index first.0 (first.0 + count) right) }
    ensures walks { WalksChange (M.ram memory.old) (M.ram memory.new)
        (array_vec_len layout.now.regions) layout.now.tables.0 layout.now.blocks index first.0 (first.0 + count) right }
    ensures others { KeepsOthers (M.ram memory.old) (M.ram memory.new) layout.now.tables.0 layout.now.blocks index }

    // After each step, take any page. Each endpoint has its right from before this function to the page, or no right.
    // Or each endpoint has its right from after this function, or no right. So each walk gives its result from before
    // or from after, or a translation fault. At each step, only table pages of the endpoint differ.
    ensures steps { (access : ℕ → ℕ → Option Rights)
        → IsBuiltFor layout.now (M.ram memory.old) access
        → let after = with_pages access index first.0 (first.0 + count) right in
        Only (M.past memory.old) (M.past memory.new) (λ _ s. IsBetweenFor layout.now s.after access after) }
    ensures each_walk { let endpoints = array_vec_len layout.now.regions in
        Only (M.past memory.old) (M.past memory.new)
        (λ _ s. WalksBetween (M.ram memory.old) (M.ram memory.new) endpoints layout.now.tables.0 layout.now.blocks s.after) }
    // If the tables were at rest, this is also true of walks in mixtures. The words of a mixture are of different
    // moments. Translation units keep them until the page is settled, or see them out of order.
    ensures mixtures { WalksMixed (M.ram memory.old) (M.ram memory.new)
        (array_vec_len layout.now.regions) layout.now.tables.0 layout.now.blocks (M.past memory.old) (M.past memory.new) }

    // Break before make: each step is at the place of one block in the endpoint's tables. A valid level 2 word there
    // gets another size only after it was invalid, and after every translation unit has forgotten the block. If no
    // right to the pages of a block changes, each word there stays.
    ensures orders { (access : ℕ → ℕ → Option Rights)
        → IsBuiltFor layout.now (M.ram memory.old) access
        → let after = with_pages access index first.0 (first.0 + count) right in
        Only (M.past memory.old) (M.past memory.new)
        (λ h s. IsOrdered (M.ram memory.old) layout.now.tables.0 layout.now.blocks (IsSameIn access after index) index h s) }
    ensures others_stay { Only (M.past memory.old) (M.past memory.new)
        (λ _ s. KeepsOthers (M.ram memory.old) s.after layout.now.tables.0 layout.now.blocks index) }
    ensures blocks { (access : ℕ → ℕ → Option Rights)
        → IsBuiltFor layout.now (M.ram memory.old) access
        → BlocksWhereOneFor layout.now (M.ram memory.new) (with_pages access index first.0 (first.0 + count) right) }

    // The work is at most one word for each page, and the work for the blocks that are joined or split.
    ensures few { (access : ℕ → ℕ → Option Rights) (split : ℕ → Bool)
        → IsBuiltFor layout.now (M.ram memory.old) access
        → AreSplits (access index) right first.0 (first.0 + count) split
        → AddsAtMost (M.past memory.old) (M.past memory.new) (pages_work split right first.0 (first.0 + count)) }
    ensures runs { (access : ℕ → ℕ → Option Rights) (split : ℕ → Bool) (carry : ℕ)
        → IsBuiltFor layout.now (M.ram memory.old) access
        → AreSplits (access index) right first.0 (first.0 + count) split
        → IsCarryAt (access index) first.0 carry
        → let end = first.0 + count in let after = with_pages access index first.0 end right in
        IsChange (M.past memory.old) (M.past memory.new) (words_written right first.0 end) (end / 512 - first.0 / 512) carry
        (IsCarryAt (after index) end) (λ n. n ≤ touched_passing split first.0 end) }
{
    let end = first.0 + count;
    let mut next = first.0;
    while next < end {
        let block = next / 512;
        let to = end.min(512 * (block + 1));
        let place = BlockPlace::of(memory, layout, index, block);
        change(memory, &place, next % 512, to - 512 * block, right);
        next = to;
    }
}

// Clears the table pages.
fn clear_tables<M: PhysMem>(memory: &mut M, layout: &Layout)
    requires base { (M.ram memory.old).base ≡ layout.now.base.0 }
    requires size { length (M.ram memory.old).pages ≡ 512 * layout.now.blocks }
    ensures tables { TablesAreFor layout.now (M.ram memory.new) (linked layout.now.base.0 layout.now.tables.0 layout.now.blocks 0) }
    ensures rest { KeepsRestFor layout.now (M.ram memory.old) (M.ram memory.new) }
    ensures site { (M.past memory.new).site ≡ (M.past memory.old).site }
{
    let first = layout.tables.0;
    for page in first..first + layout.regions.len() as u32 * (2 + layout.blocks) {
        memory.clear_page(PageNo(page));
    }
}

// Links the tables of one endpoint.
fn link<M: PhysMem>(memory: &mut M, layout: &Layout, index: usize)
    requires index { index < array_vec_len layout.now.regions }
    requires base { (M.ram memory.old).base ≡ layout.now.base.0 }
    requires tables { TablesAreFor layout.now (M.ram memory.old) (linked layout.now.base.0 layout.now.tables.0 layout.now.blocks index) }
    ensures tables { let linked_to = linked layout.now.base.0 layout.now.tables.0 layout.now.blocks in
        TablesAreFor layout.now (M.ram memory.new) (linked_to (index + 1)) }
    ensures rest { KeepsRestFor layout.now (M.ram memory.old) (M.ram memory.new) }
    ensures site { (M.past memory.new).site ≡ (M.past memory.old).site }
{
    let top = layout.table_page(index, 0);
    let middle = layout.table_page(index, 1);
    let first = (layout.base.0 >> 21) % 512;
    memory.write_word(
        top,
        (layout.base.0 >> 30) as usize,
        layout.table_link(index, 1),
    );
    for block in 0..layout.blocks {
        let table = layout.table_link(index, 2 + block);
        memory.write_word(middle, (first + block) as usize, table);
    }
}

// Sets the rights of one endpoint as its regions grant them. The endpoint has no right yet. Each call of `set_pages` is
// for a run of pages with one right.
fn grant<M: PhysMem>(memory: &mut M, layout: &Layout, index: usize)
    requires index { index < array_vec_len layout.now.regions }
    requires built { IsBuiltFor layout.now (M.ram memory.old) (rights_until (layout_right layout.now) index 0) }
    ensures built { IsBuiltFor layout.now (M.ram memory.new) (rights_until (layout_right layout.now) (index + 1) 0) }
    ensures rest { KeepsRestFor layout.now (M.ram memory.old) (M.ram memory.new) }
    ensures site { (M.past memory.new).site ≡ (M.past memory.old).site }
{
    let end = 512 * layout.blocks;
    let mut next = 0;
    while next < end {
        let right = layout.right(index, PageNo(next));
        let until = layout.right_until(index, PageNo(next));
        if right.is_some() {
            set_pages(memory, layout, index, PageNo(next), until - next, right);
        }
        next = until;
    }
}

// Builds the tables of all endpoints, without rights.
fn link_all<M: PhysMem>(memory: &mut M, layout: &Layout)
    requires base { (M.ram memory.old).base ≡ layout.now.base.0 }
    requires size { length (M.ram memory.old).pages ≡ 512 * layout.now.blocks }
    ensures built { IsBuiltFor layout.now (M.ram memory.new) (rights_until (layout_right layout.now) 0 0) }
    ensures rest { KeepsRestFor layout.now (M.ram memory.old) (M.ram memory.new) }
    ensures site { (M.past memory.new).site ≡ (M.past memory.old).site }
{
    clear_tables(memory, layout);
    for index in 0..layout.regions.len() {
        link(memory, layout, index);
    }
}

// Settles all pages in the tables of each endpoint.
fn settle_all<M: PhysMem>(memory: &mut M, layout: &Layout)
    ensures ram { M.ram memory.new ≡ M.ram memory.old }
    ensures site { (M.past memory.new).site ≡ (M.past memory.old).site }
    ensures settled { AllSettled (array_vec_len layout.now.regions) layout.now.tables.0 layout.now.blocks (M.past memory.new) }
{
    for index in 0..layout.regions.len() {
        memory.settle(index, PageNo(0), ALL_PAGES);
    }
}

/// Settles all pages in the built tables of each endpoint, for tables that were copied to a RAM. Then translation units
/// no longer hold results of earlier walks, and the tables are at rest.
pub fn settle_tables<M: PhysMem>(memory: &mut M, layout: &Layout)
    requires { (access : ℕ → ℕ → Option Rights) × IsBuiltFor layout.now (M.ram memory.old) access }
    ensures ram { M.ram memory.new ≡ M.ram memory.old }
    ensures site { (M.past memory.new).site ≡ (M.past memory.old).site }
    ensures at_rest { 0 < array_vec_len layout.now.regions
        → RestIn (M.ram memory.new) (array_vec_len layout.now.regions) layout.now.tables.0 layout.now.blocks (M.past memory.new) }
{
    settle_all(memory, layout);
}

/// Builds the tables of all endpoints, in a RAM that is at the place of the layout. Each endpoint has the rights of its
/// regions and no other rights. No other page changes. At the end the function settles all pages, so that the tables
/// are at rest.
pub fn build<M: PhysMem>(memory: &mut M, layout: &Layout)
    requires base { (M.ram memory.old).base ≡ layout.now.base.0 }
    requires size { length (M.ram memory.old).pages ≡ 512 * layout.now.blocks }
    ensures built { IsBuiltFor layout.now (M.ram memory.new) (layout_right layout.now) }
    ensures rest { KeepsRestFor layout.now (M.ram memory.old) (M.ram memory.new) }
    ensures site { (M.past memory.new).site ≡ (M.past memory.old).site }
    ensures walks { WalksToFor layout.now (M.ram memory.new) (layout_right layout.now) }
    ensures blocks { BlocksWhereOneFor layout.now (M.ram memory.new) (layout_right layout.now) }
    ensures at_rest { 0 < array_vec_len layout.now.regions
        → RestIn (M.ram memory.new) (array_vec_len layout.now.regions) layout.now.tables.0 layout.now.blocks (M.past memory.new) }
{
    link_all(memory, layout);
    for index in 0..layout.regions.len() {
        grant(memory, layout, index);
    }
    settle_all(memory, layout);
}

/// Proves the laws of built tables. At every address, the walk of an endpoint's table gives the endpoint's access. The
/// tables stay built if no table page changes. Each root is the address of a page of the RAM. The function does
/// nothing.
pub fn built_tables()
    ensures { TableLaws }
{}
