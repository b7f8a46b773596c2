// SPDX-License-Identifier: MIT OR Apache-2.0
//! The descriptor of FFA_MEM_DONATE, FFA_MEM_LEND and FFA_MEM_SHARE.

ghost use Rattle.std.specs.Prelude.{◌≡◌, ◌≤◌, true, Some, IfErr, OnOk, OnErr};
ghost use Rattle.std.specs.Option.{option_map};
ghost use Rattle.std.specs.Result.{result_ok, result_err};
ghost use Rattle.ffa_model.specs.declared.limits.TheConstants.{MOST_RECEIVERS};
ghost use Rattle.ffa_model.specs.DescriptorPlaces.{Versioned, in_version, kind_code};
ghost use Rattle.ffa_model.specs.FirstFlaws.{send_header_flaw, send_flaw};
ghost use Rattle.ffa_model.specs.Flaws.{SendBreaks};
ghost use Rattle.ffa_model.specs.declared.flaw.Flaw.TheVariants.{Send as FlawOfSend};
ghost use Rattle.ffa_model.specs.SendDescriptor.{SendRecord, send_record, Send, send_of, most_flags, most_receivers, attributes_of, flags_but_type, is_attributes, is_send_header};
ghost use Rattle.ffa_memdesc.specs.Reading.{header_in};

use crate::bytes::{Bytes, read_u32};
use crate::header::{Header, NORMAL_MEMORY, read_header};
use crate::ranges::{page_total, read_range_count, read_ranges};
use crate::receivers::read_receivers;
use ffa_model::{CompositeFlaw, Ffa, Flaw, Kind, MOST_RECEIVERS, SendDesc, SendFlaw, Version};

/// Returns the greatest value that the flags of a send may have without its type. Bit 0 requests zeroed pages, and a
/// share may not set it.
fn most_flags(kind: Kind) -> u32
    ensures { result ≡ most_flags kind }
{
    match kind {
        Kind::Share => 0,
        Kind::Lend | Kind::Donate => 1,
    }
}

fn most_receivers(kind: Kind) -> u32
    ensures value { result ≡ most_receivers kind }
    ensures few { result ≤ MOST_RECEIVERS }
{
    match kind {
        Kind::Share | Kind::Lend => MOST_RECEIVERS as u32,
        Kind::Donate => 1,
    }
}

/// Returns the memory attributes of a send to this number of receivers. A donate, and a lend to one receiver, have 0:
/// the receiver specifies them.
pub fn attributes_of(kind: Kind, count: u32) -> u16
    ensures { result ≡ attributes_of kind count }
{
    match kind {
        Kind::Share => NORMAL_MEMORY,
        Kind::Lend => { if count == 1 { 0 } else { NORMAL_MEMORY } }
        Kind::Donate => 0,
    }
}

/// Whether a send to this number of receivers may have these memory attributes. In FF-A 1.2 a lend may have 0 or normal
/// memory.
fn is_attributes(ffa: Ffa, kind: Kind, count: u32, attributes: u16) -> bool
    ensures { result ≡ is_attributes ffa kind count attributes }
{
    match (ffa, kind) {
        (Ffa::V1_2, Kind::Lend) => attributes == 0 || attributes == NORMAL_MEMORY,
        _ => attributes == attributes_of(kind, count),
    }
}

/// Returns the type of a transaction, as bits 4:3 of the flags name it.
fn kind_code(kind: Kind) -> u32
    ensures { result ≡ kind_code (Some kind) }
{
    match kind {
        Kind::Share => 1,
        Kind::Lend => 2,
        Kind::Donate => 3,
    }
}

/// Returns the flags of a send without its type. In FF-A 1.2 bits 4:3 of the flags may name the type of the call.
/// Otherwise all flags stay.
fn flags_but_type(ffa: Ffa, kind: Kind, flags: u32) -> u32
    ensures { result ≡ flags_but_type ffa kind flags }
{
    if ffa == Ffa::V1_2 && flags >> 3 & 3 == kind_code(kind) {
        flags.saturating_sub(8 * kind_code(kind))
    } else {
        flags
    }
}

/// Checks that the header is a header of a send.
///
/// An error is the first condition that the header breaks.
#[tactic(auto, unfolding(ffa_model::specs::SendDescriptor::is_send_header, ffa_model::specs::FirstFlaws::send_header_flaw))]
fn check_header(ffa: Ffa, kind: Kind, header: &Header) -> Result<(), SendFlaw>
    ensures fits { (b : Versioned) → header.now ≡ header_in b → OnOk result (is_send_header ffa kind b ≡ true) }
    ensures few { OnOk result (header.now.count ≤ MOST_RECEIVERS) }
    ensures first { let broken = option_map (λ flaw. FlawOfSend flaw) (result_err result) in
        (b : Versioned) → header.now ≡ header_in b → broken ≡ send_header_flaw ffa kind b }
{
    if !is_attributes(ffa, kind, header.count, header.attributes) {
        return Err(SendFlaw::Attributes);
    }
    if flags_but_type(ffa, kind, header.flags) > most_flags(kind) {
        return Err(SendFlaw::Flags);
    }
    if header.handle != 0 {
        return Err(SendFlaw::Handle);
    }
    if header.count < 1 {
        return Err(SendFlaw::NoReceiver);
    }
    if header.count > most_receivers(kind) {
        return Err(SendFlaw::ManyReceivers);
    }
    Ok(())
}

fn send_in<B: Bytes>(
    bytes: &B,
    ffa: Ffa,
    version: Version,
    kind: Kind,
    offer: &mut SendDesc,
) -> Result<(), Flaw>
    ensures found { OnOk result (Some (send_record offer.new) ≡ send_of ffa kind (in_version version (B.bytes bytes.now))) }
    ensures first { result_err result ≡ send_flaw ffa kind (in_version version (B.bytes bytes.now)) }
{
    let header = match read_header(bytes, version) {
        Ok(header) => header,
        Err(flaw) => return Err(Flaw::Header(flaw)),
    };
    if let Err(flaw) = check_header(ffa, kind, &header) {
        return Err(Flaw::Send(flaw));
    }
    let composite = read_u32(bytes, header.array as usize + 4);
    let receivers = read_receivers(bytes, version, kind, &header, composite)?;
    let count = match read_range_count(bytes, version, &header, composite) {
        Ok(count) => count,
        Err(flaw) => return Err(Flaw::Composite(flaw)),
    };
    offer.ranges.clear();
    read_ranges(bytes, composite, count, &mut offer.ranges)?;
    if page_total(&offer.ranges) != read_u32(bytes, composite as usize) as u64 {
        return Err(Flaw::Composite(CompositeFlaw::Total));
    }
    offer.sender = header.sender;
    offer.zero = flags_but_type(ffa, kind, header.flags) == 1;
    offer.tag = header.tag;
    offer.receivers = receivers;
    Ok(())
}

/// Reads a send descriptor of this kind into an offer, if the bytes are one. The machine has this FF-A, and the caller
/// has this version. The caller passes the offer, because an offer is costly to clear and to move.
///
/// # Errors
///
/// The first condition of such a send descriptor that the bytes break. No such descriptor has these bytes then. The
/// offer may have any contents.
pub fn read_send<B: Bytes>(
    bytes: &B,
    ffa: Ffa,
    version: Version,
    kind: Kind,
    offer: &mut SendDesc,
) -> Result<(), Flaw>
    ensures found { OnOk result (Send ffa kind (in_version version (B.bytes bytes.now)) (send_record offer.new)) }
    ensures none { OnErr result ((r : SendRecord) → Send ffa kind (in_version version (B.bytes bytes.now)) r → ⊥) }
    ensures computed { let offered = option_map (λ _. send_record offer.new) (result_ok result) in
        offered ≡ send_of ffa kind (in_version version (B.bytes bytes.now)) }
    ensures broken { IfErr result (SendBreaks ffa kind (in_version version (B.bytes bytes.now))) }
    ensures first { result_err result ≡ send_flaw ffa kind (in_version version (B.bytes bytes.now)) }
{
    send_in(bytes, ffa, version, kind, offer)
}
