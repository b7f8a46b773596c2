// SPDX-License-Identifier: MIT OR Apache-2.0
//! Pages that the caller lends to the library.
ghost use Rattle.std.specs.Prelude.{◌≡◌, ◌+◌, ◌<◌, ◌≤◌, ◌++◌, [], ◌∷◌, None, IfOk, IfErr, IfSome, max, is_ok, if◌then◌else◌, length, vec_len, option_map, option_to_list};
ghost use Rattle.ffa_lent.specs.Listed.{empty, nothing_listed};
ghost use Rattle.ffa_model.specs.declared.limits.TheConstants.{MOST_BUFFER_PAGES};

use crate::lent::Lent;
use ffa_model::MOST_BUFFER_PAGES;
use ffa_physmem::PAGE_SIZE;
use std::alloc::{AllocError, Global};
use std::marker::Model;

/// Pages that the caller has lent, in the order in which they came. The value also has room for the copies of observed
/// pages that RAM over them makes. Contracts see the bytes and the place in memory of each page. They also see the
/// number of pages for which there is room, and whether there is room for copies.
// A list has a box for each page. RAM cannot be one slice, because no `&mut` may outlive a call of C, and no `Vec` can
// be made of memory that the library did not request.
#[derive(Drop)]
pub struct Frames {
    pub(crate) list: Vec<Box<[u8; 4096], Lent>>,
    pub(crate) copies: Option<Vec<[u8; 4096]>>,
}

impl Model for Frames {
    ghost use Rattle.std.specs.Prelude.{◌≡◌, IfSome, is_some, map, vec_capacity, vec_len};
    ghost use Rattle.ffa_lent.specs.Listed.{Listed, coded_listed};
    ghost use Rattle.ffa_lent.specs.Places.{place_of};
    ghost use Rattle.ffa_model.specs.declared.limits.TheConstants.{MOST_BUFFER_PAGES};

    ghost Value = { Listed };

    ghost coded = { coded_listed };

    ghost view = { λ f. record {
      pages = map (λ b. b.value) f.list.items;
      places = map place_of f.list.items;
      room = vec_capacity f.list;
      is_ready = is_some f.copies;
    } };

    // The room for copies is enough for a whole TX.
    ghost invariant = { λ f. IfSome f.copies (λ copies. vec_len copies ≡ MOST_BUFFER_PAGES) };
}

impl Frames {
    ghost use Rattle.ffa_lent.specs.Places.{place_of};

    /// Returns a list without pages and without room for copies. It allocates nothing.
    pub fn none(alloc: Global) -> Frames
        ensures { result ≡ nothing_listed }
    {
        let list = Vec::new(alloc);
        Frames { list, copies: None }
    }

    /// Returns a list without pages, but with room for this number of pages and for copies. The list then allocates
    /// nothing for these pages, and RAM over them allocates nothing.
    ///
    /// # Errors
    ///
    /// The allocator has no memory for the list or the copies.
    pub fn with_room(alloc: Global, pages: usize) -> Result<Frames, AllocError>
        ensures { IfOk result (λ f. f ≡ empty pages) }
    {
        let list = Vec::with_capacity(alloc, pages)?;
        let copies = Some(room_for_copies(alloc)?);
        Ok(Frames { list, copies })
    }

    /// Returns the number of pages.
    pub fn pages(&self) -> usize
        ensures { result ≡ length self.now.pages }
    {
        self.list.len()
    }

    /// Makes room for this number of pages more, and for no further pages.
    ///
    /// # Errors
    ///
    /// The allocator has no memory for this room. Nothing changes.
    pub fn reserve(&mut self, more: usize) -> Result<(), AllocError>
        ensures pages { self.new.pages ≡ self.old.pages }
        ensures places { self.new.places ≡ self.old.places }
        ensures made { IfOk result (λ _. self.new.room ≡ max self.old.room (length self.old.pages + more)) }
        ensures ready { self.new.is_ready ≡ self.old.is_ready }
        ensures unchanged { IfErr result (λ _. self.new ≡ self.old) }
        ensures full { IfErr result (λ _. self.old.room < length self.old.pages + more) }
    {
        self.list.reserve_exact(more)
    }

    /// Adds a page after the other pages.
    ///
    /// # Errors
    ///
    /// There is no room for the page, and the allocator has no memory for more room. The error returns the page.
    pub fn lend(&mut self, page: Box<[u8; 4096], Lent>) -> Result<(), Box<[u8; 4096], Lent>>
        ensures pages { self.new.pages ≡ (if is_ok result then self.old.pages ++ page.value ∷ [] else self.old.pages) }
        ensures places { self.new.places ≡ (if is_ok result then self.old.places ++ place_of page ∷ [] else self.old.places) }
        ensures returned { IfErr result (λ b. b ≡ page) }
        ensures full { IfErr result (λ _. self.old.room ≤ length self.old.pages) }
        ensures room { self.old.room ≤ self.new.room }
        ensures ready { self.new.is_ready ≡ self.old.is_ready }
    {
        match self.list.push(page) {
            Ok(()) => Ok(()),
            Err(refused) => Err(refused.value),
        }
    }

    /// Removes and returns the last page, or returns `None` if there are no pages.
    pub fn take_back(&mut self) -> Option<Box<[u8; 4096], Lent>>
        ensures last { self.old.pages ≡ self.new.pages ++ option_to_list (option_map (λ b. b.value) result) }
        ensures places { self.old.places ≡ self.new.places ++ option_to_list (option_map place_of result) }
        ensures none { result ≡ None → self.old.pages ≡ [] }
        ensures room { self.new.room ≡ self.old.room }
        ensures ready { self.new.is_ready ≡ self.old.is_ready }
    {
        self.list.pop()
    }
}

// Returns room for the copies of all pages that TX may have.
fn room_for_copies(alloc: Global) -> Result<Vec<[u8; 4096]>, AllocError>
    ensures { IfOk result (λ copies. vec_len copies ≡ MOST_BUFFER_PAGES) }
{
    let mut copies = Vec::with_capacity(alloc, MOST_BUFFER_PAGES as usize)?;
    for _page in 0..MOST_BUFFER_PAGES {
        copies.push([0; PAGE_SIZE])?;
    }
    Ok(copies)
}

// Returns the room of the argument, or new room if the argument is `None`.
pub(crate) fn copies_in(
    alloc: Global,
    given: Option<Vec<[u8; 4096]>>,
) -> Result<Vec<[u8; 4096]>, AllocError>
    requires { IfSome given (λ copies. vec_len copies ≡ MOST_BUFFER_PAGES) }
    ensures room { IfOk result (λ copies. vec_len copies ≡ MOST_BUFFER_PAGES) }
    ensures none { IfErr result (λ _. given ≡ None) }
{
    match given {
        Some(copies) => Ok(copies),
        None => room_for_copies(alloc),
    }
}
