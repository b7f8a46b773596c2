// SPDX-License-Identifier: MIT OR Apache-2.0
//! Hints in the line of a reason, after what the check is about: the values that are allowed, and what to correct.
ghost use Rattle.std.specs.Prelude.{◌≡◌, ◌++◌, ◌^◌, ◌<◌, ◌≤◌, Some, codes};
ghost use Rattle.play_trace.specs.TraceText.{hex, rights_text};
ghost use Rattle.ffa_model.specs.DescriptorPlaces.{told_access_size};
ghost use Rattle.play_reasons.specs.Drafts.{Puts};
ghost use Rattle.play_reasons.specs.Mends.{access_text, allowed_text, asked_text, beyond_text, buffer_text, bytes_text, cause_text, ends_text, form_text, holder_text, kind_text, kinds_text, mend_text, message_text, misplaced_text, one_text, outside_text, pending_text, room_text, side_text, span_text, steps_text, tag_text, version_text, wanted_text, word_text, work_text};

use crate::draft::Draft;
use ffa_mend::{Allowed, Cause, Mend, Side};
use ffa_model::{Data, EndpointId, Kind, Refusal, Rights, Version, Work};
use std::alloc::Allocator;

const GRANTED: &str = ", where rw- is granted, but the owner's own right is ";

/// Puts why a register with this value cannot be the address of a buffer, if that is what the check says.
pub(crate) fn put_wanted<A: Allocator>(text: &mut Draft<A>, refusal: Refusal, value: u64)
    ensures { Puts text.old text.new (wanted_text refusal value) }
{
    match refusal {
        Refusal::TxMisplaced | Refusal::RxMisplaced => text.put(misplaced(value)),
        _ => {}
    }
}

/// Puts the values that are allowed in a register or a field, each with this number of digits.
pub(crate) fn put_allowed<A: Allocator>(text: &mut Draft<A>, digits: u32, allowed: Allowed)
    requires { digits ≤ 16 }
    ensures { Puts text.old text.new (allowed_text digits allowed) }
{
    let Allowed { least, most, step } = allowed;
    if least == most {
        put_one(text, digits, least);
    } else if step == 1 {
        put_span(text, digits, " to ", least, most);
    } else if most.saturating_sub(least) == step {
        put_span(text, digits, " or ", least, most);
    } else {
        put_steps(text, digits, allowed);
    }
}

#[tactic(auto, using(crate::proofs::Together::together), unfolding(crate::specs::Mends::steps_text))]
fn put_steps<A: Allocator>(text: &mut Draft<A>, digits: u32, allowed: Allowed)
    requires { digits ≤ 16 }
    ensures { Puts text.old text.new (steps_text digits allowed) }
{
    put_span(text, digits, " to ", allowed.least, allowed.most);
    text.put_behind(" in steps of ", digits, allowed.step);
}

// Why a buffer cannot begin at an address.
fn misplaced(address: u64) -> &'static str
    ensures { result.now ≡ misplaced_text address }
{
    if address % 4096 == 0 {
        ", and the buffer is not entirely in RAM"
    } else {
        ", which is not page-aligned"
    }
}

#[tactic(auto, unfolding(crate::specs::Mends::one_text))]
fn put_one<A: Allocator>(text: &mut Draft<A>, digits: u32, value: u64)
    requires { digits ≤ 16 }
    ensures { Puts text.old text.new (one_text digits value) }
{
    text.put_behind(", and must be ", digits, value);
}

#[tactic(auto, using(crate::proofs::Together::together), unfolding(crate::specs::Mends::span_text))]
fn put_span<A: Allocator>(text: &mut Draft<A>, digits: u32, joint: &str, a: u64, b: u64)
    requires { digits ≤ 16 }
    ensures { Puts text.old text.new (span_text digits joint.now a b) }
{
    text.put_behind(", and must be ", digits, a);
    text.put_behind(joint, digits, b);
}

/// Puts what to correct so that the operation is not refused for this reason.
pub(crate) fn put_mend<A: Allocator>(text: &mut Draft<A>, mend: Mend)
    ensures { Puts text.old text.new (mend_text mend) }
{
    match mend {
        Mend::Buffer { endpoint, side } => put_buffer(text, endpoint, side),
        Mend::OwnRight(right) => put_right(text, ", and the owner's own right is ", right),
        Mend::Granted(right) => put_right(text, GRANTED, right),
        Mend::Access { endpoint, right } => put_access(text, endpoint, right),
        Mend::Caller(endpoint) => put_endpoint(text, ", and the caller is ", endpoint),
        Mend::Sender(endpoint) => put_endpoint(
            text,
            ", and the transaction's sender is ",
            endpoint,
        ),
        Mend::Tag { found, wanted } => put_tags(text, found, wanted),
        Mend::Kind { found, wanted } => put_kinds(text, found, wanted),
        Mend::Asked { asked, most } => put_asked(text, asked, most),
        Mend::Held(right) => put_right(text, ", which the caller holds with ", right),
        Mend::Room(bytes) => put_room(text, bytes),
        Mend::Wanted(value) => put_one(text, 8, value),
        Mend::Form { caller, version } => put_form(text, caller, version),
        Mend::Word { place, value } => put_header(text, u64::from(place), u64::from(value)),
        Mend::Message { offset, size, room } => {
            put_message(text, u64::from(offset), u64::from(size), room)
        }
        Mend::Outside(address) => put_outside(text, address),
        Mend::Holder(endpoint) => put_holder(text, endpoint),
        Mend::Works(work) => put_work(text, work),
        Mend::Pending(bit) => put_pending(text, bit),
        Mend::Cause(cause) => text.put(cause_words(cause)),
    }
}

#[tactic(auto, unfolding(crate::specs::Mends::buffer_text))]
fn put_buffer<A: Allocator>(text: &mut Draft<A>, endpoint: EndpointId, side: Side)
    ensures { Puts text.old text.new (buffer_text endpoint.0 side) }
{
    put_endpoint(text, side_words(side), endpoint);
}

/// Puts a word, and then the identifier of an endpoint.
pub(crate) fn put_endpoint<A: Allocator>(text: &mut Draft<A>, word: &str, endpoint: EndpointId)
    ensures { Puts text.old text.new (word.now ++ hex 4 endpoint.0) }
{
    text.put_behind(word, 4, u64::from(endpoint.0));
}

// Puts a word, and then the letters of a right.
fn put_right<A: Allocator>(text: &mut Draft<A>, word: &str, right: Rights)
    ensures { Puts text.old text.new (word.now ++ rights_text (Some right)) }
{
    put_pair(text, word, letters(right));
}

// Puts one word after another.
fn put_pair<A: Allocator>(text: &mut Draft<A>, first: &str, second: &str)
    ensures { Puts text.old text.new (first.now ++ second.now) }
{
    text.put(first);
    text.put(second);
}

#[tactic(auto, using(crate::proofs::Together::together), unfolding(crate::specs::Mends::access_text))]
fn put_access<A: Allocator>(text: &mut Draft<A>, endpoint: EndpointId, right: Rights)
    ensures { Puts text.old text.new (access_text endpoint.0 (rights_text (Some right))) }
{
    put_endpoint(text, ": ", endpoint);
    put_right(text, " has ", right);
}

#[tactic(auto, using(crate::proofs::Together::together), unfolding(crate::specs::Mends::tag_text))]
fn put_tags<A: Allocator>(text: &mut Draft<A>, found: u64, wanted: u64)
    ensures { Puts text.old text.new (tag_text found wanted) }
{
    text.put_behind(", whose tag is ", 16, wanted);
    text.put_behind(", but the descriptor says ", 16, found);
}

#[tactic(auto, using(crate::proofs::Together::together), unfolding(crate::specs::Mends::kinds_text))]
fn put_kinds<A: Allocator>(text: &mut Draft<A>, found: Kind, wanted: Kind)
    ensures { Puts text.old text.new (kinds_text (kind_text found) (kind_text wanted)) }
{
    put_kind(text, ", whose kind is ", wanted);
    put_kind(text, ", but the descriptor says ", found);
}

fn put_kind<A: Allocator>(text: &mut Draft<A>, word: &str, kind: Kind)
    ensures { Puts text.old text.new (word.now ++ kind_text kind) }
{
    put_pair(text, word, kind_words(kind));
}

#[tactic(auto, using(crate::proofs::Together::together), unfolding(crate::specs::Mends::asked_text))]
fn put_asked<A: Allocator>(text: &mut Draft<A>, asked: Rights, most: Rights)
    ensures { let told = asked_text (rights_text (Some asked)) (rights_text (Some most)) in Puts text.old text.new told }
{
    put_right(text, ", where ", asked);
    put_right(text, " is requested, and ", most);
    text.put(" is the most allowed");
}

#[tactic(auto, using(crate::proofs::Together::together), unfolding(crate::specs::Mends::room_text))]
fn put_room<A: Allocator>(text: &mut Draft<A>, bytes: u64)
    ensures { Puts text.old text.new (room_text bytes) }
{
    text.put(", and the buffer has ");
    text.put_address(bytes);
    text.put(" bytes");
}

// Puts the access descriptor size that a header must have in the caller's version.
#[tactic(auto, unfolding(crate::specs::Mends::form_text))]
fn put_form<A: Allocator>(text: &mut Draft<A>, caller: EndpointId, version: Version)
    ensures { Puts text.old text.new (form_text caller.0 version) }
{
    put_one(text, 8, told_access_size(version));
    put_endpoint(text, ", because ", caller);
    text.put(version_words(version));
}

// Puts the four bytes of a word of a header, by the offset of the first one.
#[tactic(auto, unfolding(crate::specs::Mends::bytes_text))]
fn put_bytes_from<A: Allocator>(text: &mut Draft<A>, place: u64)
    requires { place < 2 ^ 32 }
    ensures { Puts text.old text.new (bytes_text place) }
{
    text.put("bytes ");
    text.put_short(place);
    text.put(" to ");
    text.put_short(place + 3);
}

// Puts the four bytes of a word of a header, and the number in them.
#[tactic(auto, unfolding(crate::specs::Mends::word_text))]
fn put_word<A: Allocator>(text: &mut Draft<A>, place: u64, value: u64)
    requires { place < 2 ^ 32 }
    ensures { Puts text.old text.new (word_text place value) }
{
    put_bytes_from(text, place);
    text.put_behind(" are ", 8, value);
}

// Puts a word of a header.
fn put_header<A: Allocator>(text: &mut Draft<A>, place: u64, value: u64)
    requires { place < 2 ^ 32 }
    ensures { Puts text.old text.new (codes ": " ++ word_text place value) }
{
    text.put(": ");
    put_word(text, place, value);
}

// Puts the offset and the size of a message.
#[tactic(auto, unfolding(crate::specs::Mends::ends_text))]
fn put_ends<A: Allocator>(text: &mut Draft<A>, offset: u64, size: u64)
    ensures { Puts text.old text.new (ends_text offset size) }
{
    put_word(text, 8, offset);
    text.put(", and ");
    put_word(text, 16, size);
}

// Puts the offset and the size of a message, and the size of the buffer that it does not fit in.
#[tactic(auto, unfolding(crate::specs::Mends::message_text))]
fn put_message<A: Allocator>(text: &mut Draft<A>, offset: u64, size: u64, room: u64)
    ensures { Puts text.old text.new (message_text offset size room) }
{
    text.put(": ");
    put_ends(text, offset, size);
    put_room(text, room);
}

// Puts an address that is not in RAM.
#[tactic(auto, unfolding(crate::specs::Mends::outside_text))]
fn put_outside<A: Allocator>(text: &mut Draft<A>, address: u64)
    ensures { Puts text.old text.new (outside_text address) }
{
    text.put(": ");
    text.put_address(address);
    text.put(beyond(address));
}

// Puts the endpoint that holds a transaction.
#[tactic(auto, using(crate::proofs::Together::together), unfolding(crate::specs::Mends::holder_text))]
fn put_holder<A: Allocator>(text: &mut Draft<A>, endpoint: EndpointId)
    ensures { Puts text.old text.new (holder_text endpoint.0) }
{
    put_endpoint(text, ", which ", endpoint);
    text.put(" holds");
}

// Puts what the caller is processing.
fn put_work<A: Allocator>(text: &mut Draft<A>, work: Work)
    ensures { Puts text.old text.new (work_text work) }
{
    match work {
        Work::Run => text.put(": it is processing an FFA_RUN"),
        Work::Request(by) => put_endpoint(text, ": it is processing a direct request from ", by),
    }
}

// Puts which bit is pending.
#[tactic(auto, unfolding(crate::specs::Mends::pending_text))]
fn put_pending<A: Allocator>(text: &mut Draft<A>, bit: u32)
    ensures { Puts text.old text.new (pending_text bit) }
{
    text.put(": bit ");
    text.put_short(u64::from(bit));
}

fn beyond(address: u64) -> &'static str
    ensures { result.now ≡ beyond_text address }
{
    if address < 1 << 32 {
        " is outside RAM"
    } else {
        " is above FFFFFFFF"
    }
}

// The access descriptor size that a header must have in a version.
fn told_access_size(version: Version) -> u64
    ensures { result ≡ told_access_size version }
{
    match version {
        Version::Compact => 0,
        Version::V1_1 => 16,
        Version::V1_2 => 32,
    }
}

fn version_words(version: Version) -> &'static str
    ensures { result.now ≡ version_text version }
{
    match version {
        Version::Compact => " uses the compact form",
        Version::V1_1 => " uses version 1.1",
        Version::V1_2 => " uses version 1.2",
    }
}

// The letters of a right, as `show` prints them.
fn letters(right: Rights) -> &'static str
    ensures { result.now ≡ rights_text (Some right) }
{
    match (right.level, right.exec) {
        (Data::Ro, false) => "r--",
        (Data::Ro, true) => "r-x",
        (Data::Rw, false) => "rw-",
        (Data::Rw, true) => "rwx",
    }
}

fn side_words(side: Side) -> &'static str
    ensures { result.now ≡ side_text side }
{
    match side {
        Side::Tx => " is in TX of ",
        Side::Rx => " is in RX of ",
    }
}

fn kind_words(kind: Kind) -> &'static str
    ensures { result.now ≡ kind_text kind }
{
    match kind {
        Kind::Share => "share",
        Kind::Lend => "lend",
        Kind::Donate => "donate",
    }
}

fn cause_words(cause: Cause) -> &'static str
    ensures { result.now ≡ cause_text cause }
{
    match cause {
        Cause::BuffersMissing => ": it has no RX and TX",
        Cause::RxNotFull => ": its RX is not full",
        Cause::BitPending => ", which is pending",
        Cause::BitTaken => ", which is bound to another sender",
        Cause::BitUnbound => ", which is not bound to the sender",
        Cause::HandleUnknown => ", which no open transaction has",
        Cause::NotReceiver => ", which is open, but not offered to the caller",
        Cause::NotLent => ", which is not a lend",
        Cause::BitmapsUncreated => ": FFA_NOTIFICATION_BITMAP_CREATE creates them",
        Cause::NotificationsUnreceived => ": bit 3 of its properties is not set",
        Cause::SecureToNormal => ", which is secure and is sent to the normal world",
        Cause::PagesOfBothWorlds => ", which is secure, but another page is not",
    }
}
