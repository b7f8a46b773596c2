// SPDX-License-Identifier: MIT OR Apache-2.0
//! The list of lent pages, with the memory that a machine in them needs.
ghost use Rattle.std.specs.Prelude.{◌≡◌, ◌↔◌, ◌+◌, ◌*◌, ◌%◌, ◌^◌, ◌<◌, ◌≤◌, ◌++◌, ◌∷◌, [], All, true, false, Some, None, IfOk, IfErr, IfSome, IsTrue, is_ok, length, if◌then◌else◌};
ghost use Rattle.std.specs.Option.{option_map, option_to_list};
ghost use Rattle.ffa_lent.specs.LentRam.{copies_of, places_of, ram_of};
ghost use Rattle.ffa_manifest.specs.Document.{parts_of};
ghost use Rattle.ffa_model.specs.Certified.{IsCertified};
ghost use Rattle.ffa_model.specs.Walk.{is_page_address};
ghost use Rattle.ffa_spmc.specs.Storages.{IsRoomFor};
ghost use Rattle.ffa_c.specs.Audit.{ram_at};
ghost use Rattle.ffa_c.specs.Boarded.{lends, ram_pages, ram_places};
ghost use Rattle.ffa_c.specs.Booting.{HasBegun, IsFirstBy};
ghost use Rattle.ffa_c.specs.Copying.{HasCopied};
ghost use Rattle.ffa_c.specs.LentPages.{empty};
ghost use Rattle.ffa_c.specs.Readiness.{storage_pages};

use crate::board::{Board, FirstBytes};
use crate::seat::Seat;
use ffa_lent::{Frames, Lent, LentRam, Span};
use ffa_model::{Address, CertRun, MOST_ENDPOINTS, MOST_PAGES, Manifest};
use ffa_spmc::{Given, Storage};
use std::alloc::{AllocError, Global};
use std::marker::Model;
use std::mem;

/// Lent pages, and the memory for the machine that is booted in them: its place, and room for its data. Contracts see
/// the bytes of each page, where each page is, for how many pages there is room, and how many pages the list is ready
/// for. If RAM has at most this last number of pages, a boot takes no memory.
#[derive(Drop)]
pub struct LentList {
    frames: Frames,
    seat: Option<Box<Seat>>,
    storage: Option<Storage<Given<Global>>>,
}

impl Model for LentList {
    ghost use Rattle.std.specs.Prelude.{◌≡◌, None, IfSome, is_some};
    ghost use Rattle.ffa_c.specs.LentPages.{LentPages, coded_lent_pages};
    ghost use Rattle.ffa_c.specs.Readiness.{ready_pages};

    ghost Value = { LentPages };

    ghost coded = { coded_lent_pages };

    ghost view = { λ l. let ready_for = ready_pages l.frames.is_ready (is_some l.seat) l.storage in
        record { pages = l.frames.pages; places = l.frames.places; room = l.frames.room; ready_for = ready_for } };

    // There is no machine in the seat.
    ghost invariant = { λ l. IfSome l.seat (λ b. b.value ≡ None) };
}

impl LentList {
    ghost use Rattle.ffa_lent.specs.Places.{place_of, places_in};

    /// Makes a list without pages, with room for this number of pages, and with memory for a machine in them. Returns
    /// an error if there is no memory.
    pub fn with_room(alloc: Global, pages: usize) -> Result<LentList, AllocError>
        ensures { IfOk result (λ l. l ≡ empty pages) }
    {
        let frames = Frames::with_room(alloc, pages)?;
        let seat = Some(Seat::empty(alloc)?);
        let storage = Some(Storage::ready(alloc, pages.min(MOST_PAGES))?);
        Ok(LentList {
            frames,
            seat,
            storage,
        })
    }

    /// Returns the number of pages in the list.
    pub fn pages(&self) -> usize
        ensures { result ≡ length self.now.pages }
    {
        self.frames.pages()
    }

    /// Adds a page at the end of the list. If there is no room and no memory for more room, the page comes back.
    pub fn lend(&mut self, page: Box<[u8; 4096], Lent>) -> Result<(), Box<[u8; 4096], Lent>>
        ensures pages { self.new.pages ≡ (if is_ok result then self.old.pages ++ page.value ∷ [] else self.old.pages) }
        ensures places { self.new.places ≡ (if is_ok result then self.old.places ++ place_of page ∷ [] else self.old.places) }
        ensures returned { IfErr result (λ b. b ≡ page) }
        ensures full { IfErr result (λ _. self.old.room ≤ length self.old.pages) }
        ensures room { self.old.room ≤ self.new.room }
        ensures ready { self.new.ready_for ≡ self.old.ready_for }
    {
        self.frames.lend(page)
    }

    /// Takes the last page out of the list, if there is a page.
    pub fn take_back(&mut self) -> Option<Box<[u8; 4096], Lent>>
        ensures last { self.old.pages ≡ self.new.pages ++ option_to_list (option_map (λ b. b.value) result) }
        ensures places { self.old.places ≡ self.new.places ++ option_to_list (option_map place_of result) }
        ensures none { result ≡ None → self.old.pages ≡ [] }
        ensures room { self.new.room ≡ self.old.room }
        ensures ready { self.new.ready_for ≡ self.old.ready_for }
    {
        self.frames.take_back()
    }

    /// Adds the pages of a span at the end of the list, in order. If there is no room and no memory for all of them,
    /// the span comes back, and nothing has changed.
    pub fn lend_span(&mut self, span: Span) -> Result<(), Span>
        ensures lent { IfOk result (λ _. self.new.pages ≡ self.old.pages ++ span.strip.pages) }
        ensures places { IfOk result (λ _. self.new.places ≡ self.old.places ++ places_in span.strip) }
        ensures room { IfOk result (λ _. self.old.room ≤ self.new.room) }
        ensures ready { IfOk result (λ _. self.new.ready_for ≡ self.old.ready_for) }
        ensures returned { IfErr result (λ s. s ≡ span) }
        ensures unchanged { IfErr result (λ _. self.new ≡ self.old) }
        ensures full { IfErr result (λ _. self.old.room < length self.old.pages + length span.strip.pages) }
    {
        self.frames.lend_span(span)
    }

    /// Boots the machine of a manifest in the pages, and leaves the list empty. It clears the pages, or keeps their
    /// bytes. It takes only the memory that the list lacks. If an allocation is refused, the list is as it was.
    #[inline(never)]
    pub fn boot(
        &mut self,
        alloc: Global,
        manifest: &Manifest,
        bytes: FirstBytes,
    ) -> Result<Box<Seat>, AllocError>
        requires { length self.old.pages ≡ 512 * manifest.now.ram_blocks }
        ensures booted { IfOk result
            (λ b. HasBegun (λ p. p ≡ parts_of manifest.now) (IsFirstBy bytes self.old.pages) true b.value) }
        ensures placed { IfOk result (λ b. ram_places b.value ≡ Some self.old.places) }
        ensures emptied { IfOk result (λ _. self.new.pages ≡ []) }
        ensures refused { IfErr result (λ _. self.new ≡ self.old) }
        ensures unready { IfErr result (λ _. self.old.ready_for < length self.old.pages) }
    {
        let (mut seat, ram, storage) = self.open(alloc, manifest)?;
        seat.fill(Board::boot_lent(manifest, ram, storage, bytes));
        Ok(seat)
    }

    /// Copies a machine into the pages, and leaves the list empty. It writes every byte of the pages. It takes only the
    /// memory that the list lacks. If an allocation is refused, the list is as it was.
    #[inline(never)]
    pub fn copy(&mut self, alloc: Global, original: &Board) -> Result<Box<Seat>, AllocError>
        requires { length self.old.pages ≡ length original.now.machine.ram.pages }
        ensures copied { IfOk result (λ b. HasCopied true (Some original.now) b.value) }
        ensures placed { IfOk result (λ b. ram_places b.value ≡ Some self.old.places) }
        ensures emptied { IfOk result (λ _. self.new.pages ≡ []) }
        ensures refused { IfErr result (λ _. self.new ≡ self.old) }
        ensures unready { IfErr result (λ _. self.old.ready_for < length self.old.pages) }
    {
        let (mut seat, ram, storage) = self.open(alloc, original.manifest())?;
        seat.fill(original.copy_to_lent(ram, storage));
        Ok(seat)
    }

    // Takes out what a machine of a manifest needs: its place, RAM over the pages, and room for its data. It takes only
    // the memory that the list lacks. If an allocation is refused, the list is as it was. It is not inlined, so that no
    // boot and no copy has its frame.
    #[inline(never)]
    fn open(
        &mut self,
        alloc: Global,
        manifest: &Manifest,
    ) -> Result<(Box<Seat>, LentRam, Storage<Given<Global>>), AllocError>
        requires { length self.old.pages ≡ 512 * manifest.now.ram_blocks }
        ensures seat { IfOk result (λ o. o.0.value ≡ None) }
        ensures ram { IfOk result (λ o. ram_of o.1 ≡ record { base = manifest.now.ram_base.0; pages = self.old.pages }) }
        ensures places { IfOk result (λ o. places_of o.1 ≡ self.old.places) }
        ensures free { IfOk result (λ o. (copies_of o.1).beneath ≡ []) }
        ensures storage { IfOk result (λ o. IsRoomFor manifest.now o.2) }
        ensures emptied { IfOk result (λ _. self.new.pages ≡ []) }
        ensures refused { IfErr result (λ _. self.new ≡ self.old) }
        ensures unready { IfErr result (λ _. self.old.ready_for < length self.old.pages) }
    {
        let storage = storage_in(&mut self.storage, alloc, manifest)?;
        let Ok(seat) = seat_in(&mut self.seat, alloc) else {
            self.storage = Some(storage);
            return Err(AllocError);
        };
        let frames = mem::replace(&mut self.frames, Frames::none(alloc));
        match LentRam::new(alloc, manifest.ram_base, frames) {
            Ok(ram) => Ok((seat, ram, storage)),
            Err(frames) => {
                self.frames = frames;
                self.seat = Some(seat);
                self.storage = Some(storage);
                Err(AllocError)
            }
        }
    }

    /// Checks whether the tables from these roots give what runs of pages say. RAM begins at this address, and its
    /// pages are the pages of the list. It takes only the memory that the list lacks. If an allocation is refused, the
    /// list is as it was.
    pub fn audit(
        &mut self,
        alloc: Global,
        base: Address,
        roots: &[u32],
        runs: &[CertRun],
    ) -> Result<bool, AllocError>
        requires aligned { base.0 % 4096 ≡ 0 }
        requires fits { base.0 + 4096 * length self.old.pages ≤ 2 ^ 32 }
        requires few { length roots.now ≤ MOST_ENDPOINTS }
        requires roots { All (λ root. is_page_address (ram_at base.0 self.old.pages) root ≡ true) roots.now }
        ensures certified { let ram = ram_at base.0 self.old.pages in
            IfOk result (λ is. IsTrue is ↔ IsCertified ram roots.now runs.now) }
        ensures pages { self.new.pages ≡ self.old.pages }
        ensures places { self.new.places ≡ self.old.places }
        ensures ready { self.old.ready_for ≤ self.new.ready_for }
        ensures refused { IfErr result (λ _. self.new ≡ self.old) }
    {
        let frames = mem::replace(&mut self.frames, Frames::none(alloc));
        match LentRam::new(alloc, base, frames) {
            Ok(ram) => {
                let certified = ffa_walker::audit(&ram, roots, runs);
                self.frames = ram.into_frames();
                Ok(certified)
            }
            Err(frames) => {
                self.frames = frames;
                Err(AllocError)
            }
        }
    }

    /// Ends the machine in a seat, whose RAM is lent. The list then has the machine's pages, with the bytes that they
    /// had in the end, and the machine's memory. So a boot in these pages takes no memory.
    pub fn take_in(&mut self, seat: Box<Seat>)
        requires { lends seat.value ≡ Some true }
        ensures pages { Some self.new.pages ≡ ram_pages seat.value }
        ensures places { Some self.new.places ≡ ram_places seat.value }
        ensures ready { self.new.ready_for ≡ length self.new.pages }
    {
        let mut seat = seat;
        let (frames, storage) = seat.vacate();
        self.frames = frames;
        self.storage = Some(storage);
        self.seat = Some(seat);
    }
}

// Takes the room that is there, or other room, and makes it room for the machine of a manifest.
fn storage_in(
    own: &mut Option<Storage<Given<Global>>>,
    alloc: Global,
    manifest: &Manifest,
) -> Result<Storage<Given<Global>>, AllocError>
    ensures room { IfOk result (IsRoomFor manifest.now) }
    ensures kept { IfErr result (λ _. own.new ≡ own.old) }
    ensures lacking { IfErr result (λ _. storage_pages own.old < 512 * manifest.now.ram_blocks) }
{
    let Some(mut storage) = own.take() else {
        return Storage::allocate_for(alloc, manifest);
    };
    match storage.begin(manifest) {
        Ok(()) => Ok(storage),
        Err(AllocError) => {
            *own = Some(storage);
            Err(AllocError)
        }
    }
}

// Takes the seat that is there, or another seat.
fn seat_in(own: &mut Option<Box<Seat>>, alloc: Global) -> Result<Box<Seat>, AllocError>
    requires { IfSome own.old (λ b. b.value ≡ None) }
    ensures empty { IfOk result (λ b. b.value ≡ None) }
    ensures none_left { own.new ≡ None }
    ensures lacking { IfErr result (λ _. own.old ≡ None) }
{
    match own.take() {
        Some(seat) => Ok(seat),
        None => Seat::empty(alloc),
    }
}
