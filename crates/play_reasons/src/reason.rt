// SPDX-License-Identifier: MIT OR Apache-2.0
//! The line that says why an operation is refused.
ghost use Rattle.std.specs.Prelude.{◌≡◌, ◌++◌, ◌≤◌, None, Some, codes, option_map};
ghost use Rattle.play_trace.specs.TraceText.{bytes_moved};
ghost use Rattle.ffa_model.specs.Words.{words_of};
ghost use Rattle.ffa_mend.specs.Mend.{address_of};
ghost use Rattle.play_reasons.specs.Closer.{closer_text};
ghost use Rattle.play_reasons.specs.Drafts.{Puts};
ghost use Rattle.play_reasons.specs.Mends.{address_text, short_text, wanted_text};
ghost use Rattle.play_reasons.specs.Reasons.{about_text, bit_text, call_text, check_text, fault_text, field_digits, field_text, handle_text, index_text, letter_text, number_in_field, name_text, named_text, number_text, obstacle_text, page_address, page_text, place_text, reason_line, register_text, right_text, subject_digits, subject_text, told_line, told_size, told_value, transaction_text, value_digits, value_text, verb_text, why_text};

use crate::closer::put_closer;
use crate::detail::put_detailed;
use crate::draft::Draft;
use crate::mend::put_wanted;
use crate::{check_number, flaw_words, words};
use ffa_abi::{call_name, is_read_whole, low};
use ffa_model::{
    About, Address, EndpointId, FaultKind, FieldPlace, Flaw, HeaderFlaw, Obstacle, Op, PageNo,
    Refusal, Why,
};
use ffa_playable::Detail;
use std::alloc::Allocator;

/// A refused operation, and why it is refused.
#[derive(Clone, Copy)]
pub struct Reason {
    /// The address at which RAM begins.
    pub base: Address,
    /// The operation.
    pub op: Op,
    /// Why the operation is refused.
    pub why: Why,
    /// A hint how to correct the operation, the run state of an endpoint, or the allowed values, if one of them is known.
    pub detail: Option<Detail>,
}

/// Puts the line `# refused: ..` that says why an operation is refused. Puts nothing if there is no reason.
pub fn put_reason<A: Allocator>(text: &mut Draft<A>, reason: Option<Reason>)
    ensures { Puts text.old text.new (told_line reason) }
{
    if let Some(reason) = reason {
        put_line(text, reason.base, reason.op, reason.why, reason.detail);
    }
}

fn put_line<A: Allocator>(
    text: &mut Draft<A>,
    base: Address,
    op: Op,
    why: Why,
    detail: Option<Detail>,
)
    ensures { Puts text.old text.new (reason_line base.0 op why detail) }
{
    text.put("# refused: ");
    put_why(text, base, op, why);
    put_detailed(text, value_digits(why), detail);
    text.put("\n");
}

fn put_why<A: Allocator>(text: &mut Draft<A>, base: Address, op: Op, why: Why)
    ensures { Puts text.old text.new (why_text base.0 op why) }
{
    match why {
        Why::Refused { refusal, about } => put_refused(text, base, op, refusal, about),
        Why::Fault { kind, obstacle } => put_faulted(text, op, kind, obstacle),
    }
}

fn put_refused<A: Allocator>(
    text: &mut Draft<A>,
    base: Address,
    op: Op,
    refusal: Refusal,
    about: Option<About>,
)
    ensures { let reason = call_text op refusal ++ words_of refusal ++ about_text base.0 op refusal about
        in Puts text.old text.new (reason ++ closer_text op refusal about) }
{
    put_found(text, base, op, refusal, about);
    put_closer(text, op, refusal, about);
}

// Puts which check fails, what it finds, and what it is about.
fn put_found<A: Allocator>(
    text: &mut Draft<A>,
    base: Address,
    op: Op,
    refusal: Refusal,
    about: Option<About>,
)
    ensures { let reason = call_text op refusal ++ words_of refusal ++ about_text base.0 op refusal about in Puts text.old text.new reason }
{
    put_call(text, op, refusal);
    text.put(words(refusal));
    put_about(text, base, op, refusal, about);
}

fn put_faulted<A: Allocator>(
    text: &mut Draft<A>,
    op: Op,
    kind: FaultKind,
    obstacle: Option<Obstacle>,
)
    ensures { let fault = address_text (address_of op) ++ fault_text op kind obstacle in Puts text.old text.new fault }
{
    text.put_address(address_of(op));
    put_fault(text, op, kind, obstacle);
}

// Puts the call and the number of its check that fails.
fn put_call<A: Allocator>(text: &mut Draft<A>, op: Op, refusal: Refusal)
    ensures { Puts text.old text.new (call_text op refusal) }
{
    match op {
        Op::Call(x) => put_check(text, x, refusal),
        Op::Load { .. } | Op::Store { .. } | Op::Fetch { .. } => {}
    }
}

#[tactic(auto, unfolding(crate::specs::Reasons::check_text))]
fn put_check<A: Allocator>(text: &mut Draft<A>, x: [u64; 8], refusal: Refusal)
    ensures { Puts text.old text.new (check_text x refusal) }
{
    put_name(text, call_name(&x));
    put_number(text, check_number(low(x[0]), refusal));
}

fn put_name<A: Allocator>(text: &mut Draft<A>, name: Option<&'static str>)
    ensures { Puts text.old text.new (name_text (option_map (λ n. n.now) name.entry)) }
{
    if let Some(name) = name {
        text.put(name);
        text.put(" ");
    }
}

fn put_number<A: Allocator>(text: &mut Draft<A>, number: Option<usize>)
    ensures { Puts text.old text.new (number_text number) }
{
    if let Some(number) = number {
        text.put("check ");
        text.put_shown(&number);
        text.put(": ");
    }
}

// Puts what the check is about, if that is known.
fn put_about<A: Allocator>(
    text: &mut Draft<A>,
    base: Address,
    op: Op,
    refusal: Refusal,
    about: Option<About>,
)
    ensures { Puts text.old text.new (about_text base.0 op refusal about) }
{
    if let Some(about) = about {
        text.put(": ");
        put_subject(text, base, op, refusal, about);
    }
}

#[tactic(auto, unfolding(crate::specs::Reasons::named_text, crate::specs::Reasons::handle_text))]
fn put_subject<A: Allocator>(
    text: &mut Draft<A>,
    base: Address,
    op: Op,
    refusal: Refusal,
    about: About,
)
    ensures { Puts text.old text.new (subject_text base.0 op refusal about) }
{
    match about {
        About::Page { page, obstacle } => put_page(text, base, page, obstacle),
        About::Endpoint(endpoint) => text.put_behind("endpoint ", 4, u64::from(endpoint.0)),
        About::Handle(handle) => text.put_behind("handle ", 16, handle),
        About::Register { register, value } => put_named_by(text, op, refusal, register, value),
        About::Bit(number) => put_bit(text, number),
        About::Field { flaw, place, value } => put_field(text, flaw, place, value),
    }
}

fn put_page<A: Allocator>(
    text: &mut Draft<A>,
    base: Address,
    page: PageNo,
    obstacle: Option<Obstacle>,
)
    ensures { Puts text.old text.new (page_text base.0 page.0 obstacle) }
{
    text.put_address(u64::from(base.0) + 4096 * u64::from(page.0));
    if let Some(_) = obstacle {
        put_obstacle(text, obstacle);
    }
}

// Puts a register with its value, and why no buffer can begin there.
fn put_named_by<A: Allocator>(
    text: &mut Draft<A>,
    op: Op,
    refusal: Refusal,
    register: u32,
    value: u64,
)
    ensures { let told = register_text op register value ++ wanted_text refusal value in Puts text.old text.new told }
{
    put_register(text, op, register, value);
    put_wanted(text, refusal, value);
}

#[tactic(auto, unfolding(crate::specs::Reasons::register_text))]
fn put_register<A: Allocator>(text: &mut Draft<A>, op: Op, register: u32, value: u64)
    ensures { Puts text.old text.new (register_text op register value) }
{
    text.put(letter(op, register));
    text.put_shown(&register);
    text.put(" is ");
    text.put_address(value);
}

// The letter before the number of a register: x if the call reads all of it, and else w.
fn letter(op: Op, register: u32) -> &'static str
    ensures { result.now ≡ letter_text op register }
{
    match op {
        Op::Call(x) if is_read_whole(&x, register) => "x",
        _ => "w",
    }
}

fn put_bit<A: Allocator>(text: &mut Draft<A>, number: u32)
    ensures { Puts text.old text.new (bit_text number) }
{
    text.put("bit ");
    text.put_short(u64::from(number));
}

// Puts the condition that a descriptor breaks, the field that the condition is about, and the number in the field.
#[tactic(auto, unfolding(crate::specs::Reasons::field_text))]
fn put_field<A: Allocator>(text: &mut Draft<A>, flaw: Flaw, place: FieldPlace, value: Option<u64>)
    ensures { Puts text.old text.new (field_text flaw place value) }
{
    put_index(text, flaw);
    text.put(flaw_words(flaw));
    text.put(": ");
    let size = told_size(flaw, place.size);
    put_place(text, place.first, size);
    put_value(text, size, told_value(flaw, value));
}

// How many bytes of a field are printed.
fn told_size(flaw: Flaw, size: u64) -> u64
    ensures { result ≡ told_size flaw size }
{
    match flaw {
        Flaw::Header(HeaderFlaw::ArrayOutside) if size == 8 => 4,
        _ => size,
    }
}

// The number in them.
fn told_value(flaw: Flaw, value: Option<u64>) -> Option<u64>
    ensures { result ≡ option_map (told_value flaw) value }
{
    let value = value?;
    match flaw {
        Flaw::Header(HeaderFlaw::ArrayOutside) => Some(value % 0x1_0000_0000),
        _ => Some(value),
    }
}

// Puts the index of the access descriptor or of the range.
fn put_index<A: Allocator>(text: &mut Draft<A>, flaw: Flaw)
    ensures { Puts text.old text.new (index_text flaw) }
{
    match flaw {
        Flaw::Access(index, _) => put_indexed(text, "access descriptor ", index),
        Flaw::Range(index, _) => put_indexed(text, "range ", index),
        Flaw::Header(_)
        | Flaw::Send(_)
        | Flaw::Composite(_)
        | Flaw::Retrieve(_, _)
        | Flaw::Relinquish(_) => {}
    }
}

fn put_indexed<A: Allocator>(text: &mut Draft<A>, word: &str, index: u32)
    ensures { Puts text.old text.new (word.now ++ short_text index ++ codes ": ") }
{
    text.put(word);
    text.put_short(u64::from(index));
    text.put(": ");
}

fn put_place<A: Allocator>(text: &mut Draft<A>, first: u64, size: u64)
    ensures { Puts text.old text.new (place_text first size) }
{
    if size <= 1 {
        text.put("byte ");
        text.put_short(first);
    } else {
        text.put("bytes ");
        text.put_short(first);
        text.put(" to ");
        text.put_short(first.saturating_add(size - 1));
    }
}

fn put_value<A: Allocator>(text: &mut Draft<A>, size: u64, value: Option<u64>)
    ensures { Puts text.old text.new (value_text size value) }
{
    if let Some(value) = value {
        put_number_in_field(text, size, value);
    }
}

#[tactic(auto, unfolding(crate::specs::Reasons::number_in_field))]
fn put_number_in_field<A: Allocator>(text: &mut Draft<A>, size: u64, value: u64)
    ensures { Puts text.old text.new (number_in_field size value) }
{
    text.put(verb(size));
    text.put_digits(field_digits(size), value);
}

fn verb(size: u64) -> &'static str
    ensures { result.now ≡ verb_text size }
{
    if size <= 1 { " is " } else { " are " }
}

// How many digits the number in a field has.
fn field_digits(size: u64) -> u32
    ensures digits { result ≡ field_digits size }
    ensures few { result ≤ 16 }
{
    if size <= 8 { 2 * size as u32 } else { 16 }
}

// How many digits an allowed value of the register or the field has.
fn value_digits(why: Why) -> u32
    ensures digits { result ≡ value_digits why }
    ensures few { result ≤ 16 }
{
    match why {
        Why::Refused { about, .. } => subject_digits(about),
        Why::Fault { .. } => 8,
    }
}

fn subject_digits(about: Option<About>) -> u32
    ensures digits { result ≡ subject_digits about }
    ensures few { result ≤ 16 }
{
    match about {
        Some(About::Field { place, .. }) => field_digits(place.size),
        _ => 8,
    }
}

// Puts what is wrong with the address of an access that faults.
fn put_fault<A: Allocator>(text: &mut Draft<A>, op: Op, kind: FaultKind, obstacle: Option<Obstacle>)
    ensures { Puts text.old text.new (fault_text op kind obstacle) }
{
    match kind {
        FaultKind::Translation => put_obstacle(text, obstacle),
        FaultKind::Permission => text.put(right_words(op)),
        FaultKind::Alignment => text.put_behind(" is not a multiple of ", 1, bytes_moved(op)),
        FaultKind::AccessFlag => text.put(" has no access flag"),
        FaultKind::OutsideRam => text.put(" leads out of RAM"),
    }
}

// Puts why the runner's tables do not map the address.
#[tactic(auto, unfolding(crate::specs::Reasons::transaction_text))]
fn put_obstacle<A: Allocator>(text: &mut Draft<A>, obstacle: Option<Obstacle>)
    ensures { Puts text.old text.new (obstacle_text obstacle) }
{
    match obstacle {
        None => text.put(" is above FFFFFFFF"),
        Some(Obstacle::OutsideRam) => text.put(" is outside RAM"),
        Some(Obstacle::ManagersPage) => text.put(" belongs to the manager"),
        Some(Obstacle::OwnedBy(endpoint)) => {
            text.put_behind(" belongs to ", 4, u64::from(endpoint.0))
        }
        Some(Obstacle::InTransaction(handle)) => {
            text.put_behind(" is in the open transaction ", 16, handle)
        }
    }
}

// What the runner may not do at the address.
fn right_words(op: Op) -> &'static str
    ensures { result.now ≡ right_text op }
{
    match op {
        Op::Call(_) => "",
        Op::Load { .. } => " may not be read",
        Op::Store { .. } => " may not be written",
        Op::Fetch { .. } => " may not be executed",
    }
}

// How many bytes an operation moves.
fn bytes_moved(op: Op) -> u64
    ensures { result ≡ bytes_moved op }
{
    match op {
        Op::Call(_) => 0,
        Op::Load { size, .. } | Op::Store { size, .. } => size.bytes(),
        Op::Fetch { .. } => 4,
    }
}

fn address_of(op: Op) -> u64
    ensures { result ≡ address_of op }
{
    match op {
        Op::Call(_) => 0,
        Op::Load { addr, .. } | Op::Store { addr, .. } | Op::Fetch { addr } => addr,
    }
}
