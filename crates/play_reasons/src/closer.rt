// SPDX-License-Identifier: MIT OR Apache-2.0
//! The end of the line of a reason: where a part of a descriptor ends that is not inside it, which UUID no partition has, or which
//! call has no 64-bit form.
ghost use Rattle.std.specs.Prelude.{◌≡◌, ◌-◌, ◌<◌, ◌^◌, [], min, option_map};
ghost use Rattle.std.specs.Option.{option_map_or};
ghost use Rattle.ffa_mend.specs.Mend.{call_of};
ghost use Rattle.play_reasons.specs.Closer.{array_end_by, byte_digits, closer_text, end_by, end_of, end_text, ends_text, form_text, name_of_call, narrow_of, no_form_text, part_text, size_of, small_digit, unknown_form, unknown_uuid, uuid_of, uuid_text, word_digits};
ghost use Rattle.play_reasons.specs.Drafts.{Puts};

use crate::draft::Draft;
use ffa_abi::call_row;
use ffa_model::function::WIDE;
use ffa_model::{About, Call, CompositeFlaw, FieldPlace, Flaw, HeaderFlaw, Op, Refusal};
use std::alloc::Allocator;

/// Puts what the registers of an operation say about the check that fails: the end of a part of a descriptor, a UUID, or a call.
pub(crate) fn put_closer<A: Allocator>(
    text: &mut Draft<A>,
    op: Op,
    refusal: Refusal,
    about: Option<About>,
)
    ensures { Puts text.old text.new (closer_text op refusal about) }
{
    match about {
        Some(About::Field { flaw, place, value }) => {
            put_ends(text, size_of(call_of(op)), flaw, end_of(flaw, place, value));
        }
        Some(About::Register { value, .. }) => put_form(text, unknown_form(refusal, value)),
        None => put_named_uuid(text, unknown_uuid(refusal, call_of(op))),
        Some(_) => {}
    }
}

// Puts where a part of the descriptor ends that is not inside it.
fn put_ends<A: Allocator>(text: &mut Draft<A>, size: Option<u64>, flaw: Flaw, end: Option<u128>)
    ensures { Puts text.old text.new (ends_text size flaw end) }
{
    if let Some(size) = size {
        if let Some(end) = end {
            put_end(text, flaw, size, end);
        }
    }
}

fn put_end<A: Allocator>(text: &mut Draft<A>, flaw: Flaw, size: u64, end: u128)
    ensures { Puts text.old text.new (end_text flaw size end) }
{
    text.put(part(flaw));
    text.put_short(capped(end));
    text.put(", but the descriptor has ");
    text.put_short(size);
    text.put(" bytes)");
}

// Returns a number, or the greatest one of 64 bits if the number is greater.
fn capped(number: u128) -> u64
    ensures { result ≡ min number (2 ^ 64 - 1) }
{
    if number < u128::from(u64::MAX) {
        number as u64
    } else {
        u64::MAX
    }
}

// The part of the descriptor that is not inside it.
fn part(flaw: Flaw) -> &'static str
    ensures { result.now ≡ part_text flaw }
{
    match flaw {
        Flaw::Header(HeaderFlaw::Short) => " (the header ends at ",
        Flaw::Header(HeaderFlaw::ArrayOutside) => " (the access descriptors end at ",
        Flaw::Composite(CompositeFlaw::Outside) => " (the composite ends at ",
        _ => " (the ranges end at ",
    }
}

// The end of the part, if the field and its number determine it.
fn end_of(flaw: Flaw, place: FieldPlace, value: Option<u64>) -> Option<u128>
    ensures { result ≡ end_of flaw place value }
{
    match flaw {
        Flaw::Header(HeaderFlaw::Short) => Some(u128::from(place.first) + u128::from(place.size)),
        _ => end_by(flaw, place, value?),
    }
}

fn end_by(flaw: Flaw, place: FieldPlace, value: u64) -> Option<u128>
    ensures { result ≡ end_by flaw place value }
{
    match flaw {
        Flaw::Header(HeaderFlaw::ArrayOutside) => Some(array_end(place.size, value)),
        Flaw::Composite(CompositeFlaw::Outside) => Some(u128::from(value) + 16),
        Flaw::Composite(CompositeFlaw::RangesOutside) => {
            Some(u128::from(place.first) + 12 + 16 * u128::from(value))
        }
        _ => None,
    }
}

// The end of the access descriptors, from a field of this size.
fn array_end(size: u64, value: u64) -> u128
    ensures { result ≡ array_end_by size value }
{
    if size == 8 {
        u128::from(value / 0x1_0000_0000) + 16 * u128::from(value % 0x1_0000_0000)
    } else {
        32 + 16 * u128::from(value)
    }
}

// The size of the descriptor of a call, in bytes.
fn size_of(call: Call) -> Option<u64>
    ensures { result ≡ size_of call }
{
    match call {
        Call::MemDonate(transfer)
        | Call::MemLend(transfer)
        | Call::MemShare(transfer)
        | Call::MemRetrieve(transfer) => Some(u64::from(transfer.total)),
        _ => None,
    }
}

// Puts the call that has no 64-bit form, if the function would be that form.
fn put_form<A: Allocator>(text: &mut Draft<A>, narrow: Option<u32>)
    ensures { Puts text.old text.new (form_text narrow) }
{
    if let Some(function) = narrow {
        put_no_form(text, name_of_call(function));
    }
}

fn put_no_form<A: Allocator>(text: &mut Draft<A>, name: Option<&'static str>)
    ensures { let its = option_map (λ n. n.now) name.entry in
        Puts text.old text.new (option_map_or no_form_text its []) }
{
    if let Some(name) = name {
        put_formless(text, name);
    }
}

#[tactic(auto, unfolding(crate::specs::Closer::no_form_text))]
fn put_formless<A: Allocator>(text: &mut Draft<A>, name: &str)
    ensures { Puts text.old text.new (no_form_text name.now) }
{
    text.put(", and ");
    text.put(name);
    text.put(" has no 64-bit form");
}

// The name of the call with this function, if the call has no 64-bit form.
fn name_of_call(function: u32) -> Option<&'static str>
    ensures { option_map (λ n. n.now) result ≡ name_of_call function }
{
    match call_row(function) {
        Some((_, name, whole, _)) if whole.is_empty() => Some(name),
        _ => None,
    }
}

// The function of which an unknown one would be the 64-bit form.
fn unknown_form(refusal: Refusal, function: u64) -> Option<u32>
    ensures { result ≡ unknown_form refusal function }
{
    match refusal {
        Refusal::FunctionUnknown => narrow_of(function),
        _ => None,
    }
}

fn narrow_of(function: u64) -> Option<u32>
    ensures { result ≡ narrow_of function }
{
    if u64::from(WIDE) <= function && function < 0x1_0000_0000 {
        Some(function as u32 - WIDE)
    } else {
        None
    }
}

// The UUID that no partition has.
fn unknown_uuid(refusal: Refusal, call: Call) -> Option<[u32; 4]>
    ensures { result ≡ unknown_uuid refusal call }
{
    match refusal {
        Refusal::UuidUnknown => uuid_of(call),
        _ => None,
    }
}

fn uuid_of(call: Call) -> Option<[u32; 4]>
    ensures { result ≡ uuid_of call }
{
    match call {
        Call::PartitionInfoGet { uuid, flags: _ } => Some(uuid),
        _ => None,
    }
}

// Puts a UUID, if there is one.
fn put_named_uuid<A: Allocator>(text: &mut Draft<A>, uuid: Option<[u32; 4]>)
    ensures { Puts text.old text.new (option_map_or uuid_text uuid []) }
{
    if let Some(uuid) = uuid {
        put_uuid(text, uuid);
    }
}

#[tactic(auto, unfolding(crate::specs::Closer::uuid_text))]
fn put_uuid<A: Allocator>(text: &mut Draft<A>, uuid: [u32; 4])
    ensures { Puts text.old text.new (uuid_text uuid) }
{
    text.put(": w1 to w4 hold ");
    put_word(text, uuid[0]);
    put_word(text, uuid[1]);
    put_word(text, uuid[2]);
    put_word(text, uuid[3]);
}

// Puts the digits of the bytes of a word, the lowest byte first.
#[tactic(auto, unfolding(crate::specs::Closer::word_digits))]
fn put_word<A: Allocator>(text: &mut Draft<A>, word: u32)
    ensures { Puts text.old text.new (word_digits word) }
{
    put_byte(text, word % 256);
    put_byte(text, word / 256 % 256);
    put_byte(text, word / 65536 % 256);
    put_byte(text, word / 16777216);
}

fn put_byte<A: Allocator>(text: &mut Draft<A>, byte: u32)
    requires { byte < 256 }
    ensures { Puts text.old text.new (byte_digits byte) }
{
    text.put_bytes(&[small_digit(byte / 16), small_digit(byte % 16)]);
}

// A digit as a manifest writes it.
fn small_digit(digit: u32) -> u8
    requires { digit < 16 }
    ensures { result ≡ small_digit digit }
{
    if digit < 10 {
        b'0' + digit as u8
    } else {
        b'a' + (digit as u8 - 10)
    }
}

// The call that an operation is, if it is one.
fn call_of(op: Op) -> Call
    ensures { result ≡ call_of op }
{
    match op {
        Op::Call(x) => ffa_abi::decode(x),
        Op::Load { .. } | Op::Store { .. } | Op::Fetch { .. } => Call::Unknown,
    }
}
