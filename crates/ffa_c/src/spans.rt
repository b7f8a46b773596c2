// SPDX-License-Identifier: MIT OR Apache-2.0
//! Adjacent pages that C lends at once.
ghost use Rattle.std.specs.Prelude.{◌≡◌, ◌≢◌, ◌≤◌, Some, length};
ghost use Rattle.ffa_lent.specs.Places.{places_in};
ghost use Rattle.ffa_c.specs.Lending.{pages_of, places_of, ready_for, room_of};
ghost use Rattle.ffa_c.specs.Spans.{AreLent, LacksRoom, span_answer};

use crate::codes::{NO_LIST, NO_MEMORY, NO_PAGE, OK};
use crate::lending::CLent;
use crate::lent_list::LentList;
use ffa_lent::Span;
use std::mem;

/// Moves the pages of a span to the end of the list, in order, and leaves the span empty. Returns `OK` if all pages
/// have moved. Otherwise returns `NO_LIST` if there is no list, `NO_PAGE` if the span has no pages, or `NO_MEMORY` if
/// the list has no room for all of them. Then nothing has changed.
#[unsafe(no_mangle)]
pub extern "C" fn gorseplumb_lend_span(lent: &mut CLent, span: &mut Span) -> u32
    ensures answer { result ≢ NO_MEMORY → result ≡ span_answer (pages_of lent.old.held.value) span.old.strip.pages }
    ensures wanting { result ≡ NO_MEMORY → span_answer (pages_of lent.old.held.value) span.old.strip.pages ≡ 0 }
    ensures full { result ≡ NO_MEMORY → LacksRoom (length span.old.strip.pages) lent.old.held.value }
    ensures lent { let old = pages_of lent.old.held.value in let new = pages_of lent.new.held.value in
        result ≡ 0 → AreLent old new span.old.strip.pages span.new.strip.pages }
    ensures placed { let old = places_of lent.old.held.value in let new = places_of lent.new.held.value in
        result ≡ 0 → AreLent old new (places_in span.old.strip) (places_in span.new.strip) }
    ensures list { result ≢ 0 → lent.new.held.value ≡ lent.old.held.value }
    ensures span { result ≢ 0 → span.new ≡ span.old }
    ensures room { room_of lent.old.held.value ≤ room_of lent.new.held.value }
    ensures ready { ready_for lent.new.held.value ≡ ready_for lent.old.held.value }
{
    if lent.live {
        lend_all(lent.held.list_mut(), span)
    } else {
        NO_LIST
    }
}

// Moves the pages of a span to the end of a list.
fn lend_all(list: &mut LentList, span: &mut Span) -> u32
    ensures answer { result ≢ NO_MEMORY → result ≡ span_answer (Some list.old.pages) span.old.strip.pages }
    ensures wanting { result ≡ NO_MEMORY → span_answer (Some list.old.pages) span.old.strip.pages ≡ 0 }
    ensures full { result ≡ NO_MEMORY → LacksRoom (length span.old.strip.pages) (Some list.old) }
    ensures lent { let old = Some list.old.pages in let new = Some list.new.pages in
        result ≡ 0 → AreLent old new span.old.strip.pages span.new.strip.pages }
    ensures placed { let old = Some list.old.places in let new = Some list.new.places in
        result ≡ 0 → AreLent old new (places_in span.old.strip) (places_in span.new.strip) }
    ensures list { result ≢ 0 → list.new ≡ list.old }
    ensures span { result ≢ 0 → span.new ≡ span.old }
    ensures room { list.old.room ≤ list.new.room }
    ensures ready { list.new.ready_for ≡ list.old.ready_for }
{
    if span.pages() == 0 {
        return NO_PAGE;
    }
    match list.lend_span(mem::replace(span, Span::none())) {
        Ok(()) => OK,
        Err(returned) => {
            mem::replace(span, returned).end();
            NO_MEMORY
        }
    }
}
