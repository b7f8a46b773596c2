// SPDX-License-Identifier: MIT OR Apache-2.0
//! Pages that C lends, and gets back.
ghost use Rattle.std.specs.Prelude.{◌≡◌, ◌≢◌, ◌≤◌, true, false, Option, Some, None, IfSome, is_some};
ghost use Rattle.std.specs.Option.{option_map};
ghost use Rattle.ffa_lent.specs.Places.{place_held, slot_of};
ghost use Rattle.ffa_c.specs.LentPages.{empty};
ghost use Rattle.ffa_c.specs.Boarded.{lends, ram_pages, ram_places};
ghost use Rattle.ffa_c.specs.Lending.{IsFull, IsLent, begun_answer, freed_answer, given_back, lent_answer, list_answer, page_count, pages_of, places_of, ready_for, room_of, taken_answer};

use crate::codes::{HAS_PAGES, NO_LIST, NO_MACHINE, NO_MEMORY, NO_PAGE, OCCUPIED, OK};
use crate::held_list::HeldList;
use crate::lent_list::LentList;
use crate::machine::{CMachine, end, take};
use ffa_lent::{Lent, Slot};
use std::alloc::Global;
use std::mem;

/// A list of lent pages, or no list. Memory of zeros has no list.
#[repr(C)]
pub struct CLent {
    /// Whether there is a list.
    pub live: bool,
    /// The pointer to the list.
    pub held: HeldList,
    pub ghost agree: { live ≡ is_some held.value },
}

/// A page's memory, or no page. Memory of zeros has no page.
#[repr(C)]
pub struct CSlot {
    /// Whether there is a page.
    pub live: bool,
    /// The pointer to the page.
    pub page: Slot,
    pub ghost agree: { live ≡ is_some page.bytes },
}

// Takes the list out.
fn take_list(lent: &mut CLent, alloc: Global) -> Option<Box<LentList>>
    ensures taken { lent.old.held.value ≡ option_map (λ b. b.value) result }
    ensures none_left { lent.new.held.value ≡ None }
{
    if lent.live {
        let held = mem::replace(&mut lent.held, HeldList::none(alloc));
        lent.live = false;
        Some(held.open())
    } else {
        None
    }
}

// Puts a list at a place without a list.
fn put_list(lent: &mut CLent, list: Box<LentList>)
    requires { lent.old.held.value ≡ None }
    ensures { lent.new.held.value ≡ Some list.value }
{
    mem::replace(&mut lent.held, HeldList::close(list)).end();
    lent.live = true;
}

// Takes the page out.
#[inline]
fn take_page(slot: &mut CSlot) -> Option<Box<[u8; 4096], Lent>>
    ensures taken { slot.old.page.bytes ≡ option_map (λ b. b.value) result }
    ensures page { IfSome result (λ b. slot.old.page ≡ slot_of b) }
    ensures none_left { slot.new.page.bytes ≡ None }
    ensures none { result ≡ None → slot.new ≡ slot.old }
{
    if slot.live {
        let page = mem::replace(&mut slot.page, Slot::none());
        slot.live = false;
        Some(page.open())
    } else {
        None
    }
}

// Puts a page at a place without a page.
#[inline]
fn put_page(slot: &mut CSlot, page: Box<[u8; 4096], Lent>)
    requires { slot.old.page.bytes ≡ None }
    ensures { slot.new.page ≡ slot_of page }
{
    mem::replace(&mut slot.page, Slot::close(page)).end();
    slot.live = true;
}

/// Makes an empty list with room for this number of pages, and with all memory that a machine in them needs. Returns
/// `OK` if the list was made. Otherwise returns `OCCUPIED` if there is already a list, or `NO_MEMORY`. Then nothing has
/// changed.
#[unsafe(no_mangle)]
pub extern "C" fn gorseplumb_begin_lending(alloc: Global, lent: &mut CLent, pages: u32) -> u32
    ensures answer { result ≢ NO_MEMORY → result ≡ begun_answer (pages_of lent.old.held.value) }
    ensures wanting { result ≡ NO_MEMORY → lent.old.held.value ≡ None }
    ensures made { result ≡ 0 → lent.new.held.value ≡ Some (empty pages) }
    ensures refused { result ≢ 0 → lent.new ≡ lent.old }
{
    if lent.live {
        return OCCUPIED;
    }
    match empty_list(alloc, pages as usize) {
        Some(list) => {
            put_list(lent, list);
            OK
        }
        None => NO_MEMORY,
    }
}

// A list without pages, with room for this number of pages.
fn empty_list(alloc: Global, pages: usize) -> Option<Box<LentList>>
    ensures { IfSome result (λ b. b.value ≡ empty pages) }
{
    let Ok(list) = LentList::with_room(alloc, pages) else {
        return None;
    };
    boxed_list(alloc, list)
}

// A list in a box, if there is memory for the box.
fn boxed_list(alloc: Global, list: LentList) -> Option<Box<LentList>>
    ensures { IfSome result (λ b. b.value ≡ list) }
{
    Box::new(alloc, list).ok()
}

/// Moves a page from its slot to the end of the list, and leaves the slot empty. Returns `OK` if the page has moved.
/// Otherwise returns `NO_LIST` if there is no list, `NO_PAGE` if the slot has no page, or `NO_MEMORY` if the list has
/// no room for the page. Then the list and the slot have the same pages as before, at the same places.
#[unsafe(no_mangle)]
pub extern "C" fn gorseplumb_lend(lent: &mut CLent, slot: &mut CSlot) -> u32
    ensures answer { result ≢ NO_MEMORY → result ≡ lent_answer (pages_of lent.old.held.value) slot.old.page.bytes }
    ensures wanting { result ≡ NO_MEMORY → lent_answer (pages_of lent.old.held.value) slot.old.page.bytes ≡ 0 }
    ensures full { result ≡ NO_MEMORY → IsFull lent.old.held.value }
    ensures lent { let old = pages_of lent.old.held.value in let new = pages_of lent.new.held.value in
        result ≡ 0 → IsLent old new slot.old.page.bytes slot.new.page.bytes }
    ensures placed { let old = places_of lent.old.held.value in let new = places_of lent.new.held.value in
        result ≡ 0 → IsLent old new (place_held slot.old.page) (place_held slot.new.page) }
    ensures list { result ≢ 0 → pages_of lent.new.held.value ≡ pages_of lent.old.held.value }
    ensures places { result ≢ 0 → places_of lent.new.held.value ≡ places_of lent.old.held.value }
    ensures page { result ≢ 0 → slot.new.page ≡ slot.old.page }
    ensures room { room_of lent.old.held.value ≤ room_of lent.new.held.value }
    ensures ready { ready_for lent.new.held.value ≡ ready_for lent.old.held.value }
{
    if lent.live {
        lend_to(lent.held.list_mut(), slot)
    } else {
        NO_LIST
    }
}

// Moves a page to the end of a list.
fn lend_to(list: &mut LentList, slot: &mut CSlot) -> u32
    ensures answer { result ≢ NO_MEMORY → result ≡ lent_answer (Some list.old.pages) slot.old.page.bytes }
    ensures wanting { result ≡ NO_MEMORY → lent_answer (Some list.old.pages) slot.old.page.bytes ≡ 0 }
    ensures full { result ≡ NO_MEMORY → IsFull (Some list.old) }
    ensures lent { let old = Some list.old.pages in let new = Some list.new.pages in
        result ≡ 0 → IsLent old new slot.old.page.bytes slot.new.page.bytes }
    ensures placed { let old = Some list.old.places in let new = Some list.new.places in
        result ≡ 0 → IsLent old new (place_held slot.old.page) (place_held slot.new.page) }
    ensures list { result ≢ 0 → list.new.pages ≡ list.old.pages }
    ensures places { result ≢ 0 → list.new.places ≡ list.old.places }
    ensures page { result ≢ 0 → slot.new.page ≡ slot.old.page }
    ensures room { list.old.room ≤ list.new.room }
    ensures ready { list.new.ready_for ≡ list.old.ready_for }
{
    let Some(page) = take_page(slot) else {
        return NO_PAGE;
    };
    match list.lend(page) {
        Ok(()) => OK,
        Err(page) => {
            put_page(slot, page);
            NO_MEMORY
        }
    }
}

/// Moves the last page of the list to an empty slot. Returns `OK` if the page has moved. Otherwise returns `NO_LIST` if
/// there is no list, `OCCUPIED` if the slot has a page, or `NO_PAGE` if the list has no page. Then nothing has changed.
/// With each answer, the list's room stays as it was.
#[unsafe(no_mangle)]
pub extern "C" fn gorseplumb_take_back(lent: &mut CLent, slot: &mut CSlot) -> u32
    ensures answer { result ≡ taken_answer (pages_of lent.old.held.value) slot.old.page.bytes }
    ensures taken { let old = pages_of lent.old.held.value in let new = pages_of lent.new.held.value in
        result ≡ 0 → IsLent new old slot.new.page.bytes slot.old.page.bytes }
    ensures placed { let old = places_of lent.old.held.value in let new = places_of lent.new.held.value in
        result ≡ 0 → IsLent new old (place_held slot.new.page) (place_held slot.old.page) }
    ensures list { result ≢ 0 → pages_of lent.new.held.value ≡ pages_of lent.old.held.value }
    ensures places { result ≢ 0 → places_of lent.new.held.value ≡ places_of lent.old.held.value }
    ensures page { result ≢ 0 → slot.new.page ≡ slot.old.page }
    ensures room { room_of lent.new.held.value ≡ room_of lent.old.held.value }
    ensures ready { ready_for lent.new.held.value ≡ ready_for lent.old.held.value }
{
    if lent.live {
        take_from(lent.held.list_mut(), slot)
    } else {
        NO_LIST
    }
}

// Moves the last page of a list to a slot.
fn take_from(list: &mut LentList, slot: &mut CSlot) -> u32
    ensures answer { result ≡ taken_answer (Some list.old.pages) slot.old.page.bytes }
    ensures taken { let old = Some list.old.pages in let new = Some list.new.pages in
        result ≡ 0 → IsLent new old slot.new.page.bytes slot.old.page.bytes }
    ensures placed { let old = Some list.old.places in let new = Some list.new.places in
        result ≡ 0 → IsLent new old (place_held slot.new.page) (place_held slot.old.page) }
    ensures list { result ≢ 0 → list.new.pages ≡ list.old.pages }
    ensures places { result ≢ 0 → list.new.places ≡ list.old.places }
    ensures page { result ≢ 0 → slot.new.page ≡ slot.old.page }
    ensures room { list.new.room ≡ list.old.room }
    ensures ready { list.new.ready_for ≡ list.old.ready_for }
{
    if slot.live {
        return OCCUPIED;
    }
    match list.take_back() {
        None => NO_PAGE,
        Some(page) => {
            put_page(slot, page);
            OK
        }
    }
}

/// Returns the number of pages in the list, or 0 if there is no list. The list stays as it was.
#[unsafe(no_mangle)]
pub extern "C" fn gorseplumb_lent_pages(lent: &mut CLent) -> u64
    ensures same { lent.new.held.value ≡ lent.old.held.value }
    ensures count { result ≡ page_count (pages_of lent.old.held.value) }
{
    if lent.live {
        lent.held.list().pages() as u64
    } else {
        0
    }
}

/// Ends an empty list. Returns `OK` if the list has ended. Otherwise returns `NO_LIST` if there is no list, or
/// `HAS_PAGES` if the list has pages. Then nothing has changed.
#[unsafe(no_mangle)]
pub extern "C" fn gorseplumb_end_lending(alloc: Global, lent: &mut CLent) -> u32
    ensures answer { result ≡ list_answer (pages_of lent.old.held.value) }
    ensures ended { result ≡ 0 → lent.new.held.value ≡ None }
    ensures refused { result ≢ 0 → lent.new.held.value ≡ lent.old.held.value }
{
    let answer = answer_for(lent);
    if answer == OK {
        drop(take_list(lent, alloc));
    }
    answer
}

// Whether there is a list without pages.
fn answer_for(lent: &mut CLent) -> u32
    ensures same { lent.new.held.value ≡ lent.old.held.value }
    ensures answer { result ≡ list_answer (pages_of lent.old.held.value) }
{
    if !lent.live {
        NO_LIST
    } else if lent.held.list().pages() == 0 {
        OK
    } else {
        HAS_PAGES
    }
}

/// Ends a machine. RAM from the heap goes back to the heap, and the list stays as it was. Lent RAM goes back to the
/// list, which must be there and be empty: page by page, in order, with the bytes that the pages had in the end. The
/// machine's own memory goes to the list too. So the list is ready for a boot in these pages, whichever endpoints the
/// next machine has. Returns `OK` if the machine has ended. Otherwise returns `NO_MACHINE` if there is no machine, and
/// for lent RAM `NO_LIST` if there is no list, or `HAS_PAGES` if the list has pages. Then nothing has changed.
#[unsafe(no_mangle)]
pub extern "C" fn gorseplumb_end(alloc: Global, machine: &mut CMachine, lent: &mut CLent) -> u32
    ensures answer { result ≡ freed_answer machine.old.held.value (pages_of lent.old.held.value) }
    ensures ended { result ≡ 0 → machine.new.held.value ≡ None }
    ensures given_back { let list = pages_of lent.old.held.value in
        result ≡ 0 → pages_of lent.new.held.value ≡ given_back (λ b. b.machine.ram.pages) machine.old.held.value list }
    ensures placed { let list = places_of lent.old.held.value in
        result ≡ 0 → places_of lent.new.held.value ≡ given_back (λ b. b.machine.past.site.places) machine.old.held.value list }
    ensures heap { IfSome machine.old.held.value (λ b. b.is_lent ≡ false → lent.new.held.value ≡ lent.old.held.value) }
    ensures machine { result ≢ 0 → machine.new.held.value ≡ machine.old.held.value }
    ensures list { result ≢ 0 → lent.new.held.value ≡ lent.old.held.value }
    ensures ready { result ≡ 0 → lends machine.old.held.value ≡ Some true
        → ready_for lent.new.held.value ≡ page_count (pages_of lent.new.held.value) }
{
    if !machine.live {
        return NO_MACHINE;
    }
    if machine.held.board().is_lent() {
        return free_lent(alloc, machine, lent);
    }
    end(machine, alloc);
    OK
}

// Ends a machine over lent RAM.
fn free_lent(alloc: Global, machine: &mut CMachine, lent: &mut CLent) -> u32
    requires { lends machine.old.held.value ≡ Some true }
    ensures answer { result ≡ list_answer (pages_of lent.old.held.value) }
    ensures ended { result ≡ 0 → machine.new.held.value ≡ None }
    ensures given_back { result ≡ 0 → pages_of lent.new.held.value ≡ ram_pages machine.old.held.value }
    ensures placed { result ≡ 0 → places_of lent.new.held.value ≡ ram_places machine.old.held.value }
    ensures machine { result ≢ 0 → machine.new.held.value ≡ machine.old.held.value }
    ensures list { result ≢ 0 → lent.new.held.value ≡ lent.old.held.value }
    ensures ready { result ≡ 0 → ready_for lent.new.held.value ≡ page_count (pages_of lent.new.held.value) }
{
    let answer = answer_for(lent);
    if answer == OK
        && let Some(seat) = take(machine, alloc)
    {
        lent.held.list_mut().take_in(seat);
    }
    answer
}
