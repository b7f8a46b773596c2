// SPDX-License-Identifier: MIT OR Apache-2.0
//! The table of the owners of pages.
ghost use Rattle.std.specs.Prelude.{◌≡◌, ◌≢◌, ℕ, ◌*◌, ◌<◌, ◌≤◌, ◌⊎◌, [], length, slice_set, IfOk, OnOk, OnErr};
ghost use Rattle.ffa_model.specs.declared.limits.TheConstants.{MOST_PAGES};
ghost use Rattle.ffa_model.specs.Identifiers.{manager};
ghost use Rattle.ffa_model.specs.Lists.{listed};
ghost use Rattle.ffa_pages.specs.Entry.{entry_at, owner_at, own_right_at, slot_at, given, marked, first_entry};
ghost use Rattle.ffa_pages.specs.Stored.{entry_of, entries_of};

use crate::page::{KeptPage, Standing};
use arrayvec::ArrayVec;
use ffa_model::{EndpointId, MOST_PAGES, Manifest, PageNo, Rights, Room, SlotNumber};
use std::alloc::{AllocError, Allocator};
use std::marker::Model;

/// The table of the pages of RAM. It has the owner of each page, and the owner's right to the page while the page is in
/// no open transaction. It also has the place in the pool of the open transaction that names the page. Its entries are
/// in the table itself, or in memory of an allocator.
#[derive(Drop)]
pub struct PageTable<P: Room<KeptPage> + Drop = ArrayVec<KeptPage, MOST_PAGES>> {
    pages: P,
}

impl<P: Room<KeptPage> + Drop> Model for PageTable<P> {
    ghost use Rattle.std.specs.Prelude.{◌≤◌, List, Option, length};
    ghost use Rattle.ffa_model.specs.declared.limits.TheConstants.{MOST_PAGES};
    ghost use Rattle.ffa_pages.specs.Entry.{Entry};

    ghost Value = { List (Option Entry) };

    ghost use Rattle.ffa_pages.specs.Stored.{entries_of};

    ghost view = { λ t. entries_of (P.items t.pages) };

    ghost invariant = { λ t. length (P.items t.pages) ≤ MOST_PAGES };
}

impl PageTable {
    /// Makes the table of a manifest. Each page of a region belongs to the region's endpoint, with the region's right.
    /// All other pages belong to the manager, and no transaction is open. It allocates nothing.
    pub fn of(manifest: &Manifest) -> PageTable
        ensures { let entry = first_entry manifest.now.ram_base.0 manifest.now.endpoints.items in
            result ≡ listed (512 * manifest.now.ram_blocks) entry }
    {
        let mut table = PageTable::none();
        table.begin(512 * manifest.ram_blocks as usize);
        table.fill(manifest);
        table
    }

    /// Returns the table of no RAM, with room for the largest RAM.
    pub fn none() -> PageTable
        ensures { result ≡ [] }
    {
        PageTable {
            pages: ArrayVec::new(),
        }
    }

    /// Makes the table of no RAM a table of this number of pages, which belong to the manager. It works in place,
    /// because the table is large to move.
    pub fn begin(&mut self, pages: usize)
        requires none { self.old ≡ [] }
        requires few { pages ≤ MOST_PAGES }
        ensures { length self.new ≡ pages }
    {
        push_managers(&mut self.pages, pages);
    }
}

impl<A: Allocator> PageTable<Vec<KeptPage, A>> {
    /// Makes a table of this number of pages, which belong to the manager, in memory of an allocator. Returns an error
    /// if the allocator refuses memory.
    pub fn of_managers(alloc: A, pages: usize) -> Result<PageTable<Vec<KeptPage, A>>, AllocError>
        requires { pages ≤ MOST_PAGES }
        ensures { IfOk result (λ table. length table ≡ pages) }
    {
        let mut table = PageTable {
            pages: Vec::new(alloc),
        };
        table.resize(pages)?;
        Ok(table)
    }

    /// Makes this a table of this number of pages. It allocates memory only if the table never had that number. If the
    /// allocator refuses memory, the table stays as it is.
    pub fn resize(&mut self, pages: usize) -> Result<(), AllocError>
        requires { pages ≤ MOST_PAGES }
        ensures resized { OnOk result (length self.new ≡ pages) }
        ensures refused { OnErr result (self.new ≡ self.old) }
        ensures more { OnErr result (length self.old < pages) }
    {
        self.pages.resize(pages, KeptPage::MANAGERS)
    }
}

impl<P: Room<KeptPage> + Drop> PageTable<P> {
    /// Makes this the table of a manifest. Each page of a region belongs to the region's endpoint, with the region's
    /// right. All other pages belong to the manager, and no transaction is open.
    pub fn fill(&mut self, manifest: &Manifest)
        requires { length self.old ≡ 512 * manifest.now.ram_blocks }
        ensures { let entry = first_entry manifest.now.ram_base.0 manifest.now.endpoints.items in
            self.new ≡ listed (512 * manifest.now.ram_blocks) entry }
    {
        let end = 512 * manifest.ram_blocks;
        let mut next = 0;
        while next < end {
            let until = alike_from(manifest, PageNo(next), end);
            self.put_run(PageNo(next), until, first_page(manifest, PageNo(next)));
            next = until;
        }
    }

    /// Copies another table of the same number of pages to this one, wherever the other one is stored.
    pub fn copy_from<Q: Room<KeptPage> + Drop>(&mut self, other: &PageTable<Q>)
        requires { length self.old ≡ length other.now }
        ensures { self.new ≡ other.now }
    {
        for page in 0..other.pages() {
            self.put(PageNo(page), other.entry(PageNo(page)));
        }
    }

    /// Returns the number of pages.
    pub fn pages(&self) -> u32
        ensures count { result ≡ length self.now }
        ensures most { result ≤ MOST_PAGES }
    {
        self.pages.count() as u32
    }

    /// Returns the owner of a page, which is `EndpointId::MANAGER` if no endpoint owns the page.
    pub fn owner_of(&self, page: PageNo) -> EndpointId
        requires { page.0 < length self.now }
        ensures { result.0 ≡ owner_at self.now page.0 }
    {
        self.entry(page).owner
    }

    /// Returns the right that the owner of a page has while the page is in no open transaction. Returns `None` for a
    /// page of the manager.
    pub fn own_right_of(&self, page: PageNo) -> Option<Rights>
        requires { page.0 < length self.now }
        ensures { result ≡ own_right_at self.now page.0 }
    {
        self.entry(page)
            .own_standing()
            .map(|standing| standing.own_right())
    }

    /// Returns the place in the pool of the open transaction that names a page, if a transaction names it.
    pub fn slot_of(&self, page: PageNo) -> Option<SlotNumber>
        requires { page.0 < length self.now }
        ensures { result ≡ slot_at self.now page.0 }
    {
        self.entry(page)
            .own_standing()
            .and_then(|standing| standing.slot())
    }

    /// Returns the end of a run of pages that begins with `first`, and whose pages are alike. They have the same owner
    /// and the same own right, and the same open transaction names them, or no transaction does. The run does not
    /// include the end, which is at most `end`.
    pub fn alike_until(&self, first: PageNo, end: u32) -> u32
        requires some { first.0 < end }
        requires end { end ≤ length self.now }
        ensures some { first.0 < result }
        ensures end { result ≤ end }
        ensures alike { (p : ℕ) → first.0 ≤ p → p < result → entry_at self.now p ≡ entry_at self.now first.0 }
    {
        let kept = self.entry(first);
        for page in first.0 + 1..end {
            if self.entry(PageNo(page)) != kept {
                return page;
            }
        }
        end
    }

    /// Gives a page to an endpoint, with this right. A transaction that names the page still names it.
    pub fn give(&mut self, page: PageNo, owner: EndpointId, own_right: Rights)
        requires page { page.0 < length self.old }
        requires endpoint { owner.0 ≢ manager }
        ensures { self.new ≡ given self.old page.0 owner.0 own_right }
    {
        let slot = self.slot_of(page);
        let standing = Standing::of(own_right, slot);
        self.put(page, KeptPage { owner, standing });
    }

    /// Stores which open transaction names a page that an endpoint owns, by its place in the pool, or that no
    /// transaction does. It stores nothing for a page of the manager.
    pub fn mark(&mut self, page: PageNo, slot: Option<SlotNumber>)
        requires { page.0 < length self.old }
        ensures { self.new ≡ marked self.old page.0 slot }
    {
        let kept = self.entry(page);
        if let Some(standing) = kept.own_standing() {
            let standing = Standing::of(standing.own_right(), slot);
            self.put(page, KeptPage { standing, ..kept });
        }
    }

    /// Makes the pages after `first`, up to `end`, like `first`: they have its owner and its own right, and the
    /// transaction that names it names them. All other pages stay as they are.
    pub fn repeat(&mut self, first: PageNo, end: u32)
        requires some { first.0 < end }
        requires end { end ≤ length self.old }
        ensures size { length self.new ≡ length self.old }
        ensures like { (p : ℕ) → first.0 ≤ p → p < end → entry_at self.new p ≡ entry_at self.old first.0 }
        ensures beside { (p : ℕ) → ((p < first.0) ⊎ (end ≤ p)) → entry_at self.new p ≡ entry_at self.old p }
    {
        let kept = self.entry(first);
        self.put_run(PageNo(first.0 + 1), end, kept);
    }

    // Stores the same record for the pages from `first` on, up to `end`.
    fn put_run(&mut self, first: PageNo, end: u32, kept: KeptPage)
        requires some { first.0 ≤ end }
        requires end { end ≤ length self.old }
        ensures size { length self.new ≡ length self.old }
        ensures like { (p : ℕ) → first.0 ≤ p → p < end → entry_at self.new p ≡ entry_of kept }
        ensures beside { (p : ℕ) → ((p < first.0) ⊎ (end ≤ p)) → entry_at self.new p ≡ entry_at self.old p }
    {
        for page in first.0..end {
            self.put(PageNo(page), kept);
        }
    }

    // Stores the record of a page.
    fn put(&mut self, page: PageNo, kept: KeptPage)
        requires { page.0 < length self.old }
        ensures { self.new ≡ slice_set self.old page.0 (entry_of kept) }
    {
        *self.pages.at_mut(page.0 as usize) = kept;
    }

    // Returns the record of a page.
    fn entry(&self, page: PageNo) -> KeptPage
        requires { page.0 < length self.now }
        ensures { entry_of result ≡ entry_at self.now page.0 }
    {
        *self.pages.at(page.0 as usize)
    }
}

// Adds this number of pages of the manager to an empty list.
fn push_managers(pages: &mut ArrayVec<KeptPage, MOST_PAGES>, count: usize)
    requires none { pages.old.items ≡ [] }
    requires few { count ≤ MOST_PAGES }
    ensures { length pages.new.items ≡ count }
{
    for _page in 0..count {
        pages.push(KeptPage::MANAGERS);
    }
}

// Returns the end of a run of pages that begins with `first`, and whose pages are alike in the regions of a manifest.
// The end is at most `end`.
fn alike_from(manifest: &Manifest, first: PageNo, end: u32) -> u32
    requires { first.0 < end }
    ensures some { first.0 < result }
    ensures end { result ≤ end }
    ensures alike { let entry = first_entry manifest.now.ram_base.0 manifest.now.endpoints.items in
        (p : ℕ) → first.0 ≤ p → p < result → entry p ≡ entry first.0 }
{
    manifest.alike_until(first, end)
}

// Returns the record that a page has from the start.
fn first_page(manifest: &Manifest, page: PageNo) -> KeptPage
    ensures { entry_of result ≡ first_entry manifest.now.ram_base.0 manifest.now.endpoints.items page.0 }
{
    let owner = manifest.owner_of(page);
    if owner == EndpointId::MANAGER {
        return KeptPage::MANAGERS;
    }
    match manifest.right_to(owner.place(), page) {
        Some(own_right) => KeptPage {
            owner,
            standing: Standing::of(own_right, None),
        },
        None => KeptPage::MANAGERS,
    }
}
