// SPDX-License-Identifier: MIT OR Apache-2.0
//! Writes send descriptors.

ghost use Rattle.std.specs.Prelude.{◌≡◌, ◌+◌, ◌*◌, ◌^◌, ◌<◌, ◌≤◌, ℕ, List, length, ◌++◌, get_or, take, drop, None, IfOk, OnErr, if◌then◌else◌, flat_map};
ghost use Rattle.std.specs.Result.{result_err};
ghost use Rattle.ffa_model.specs.declared.manifest.Ffa.{Ffa};
ghost use Rattle.ffa_model.specs.declared.transaction.Receiver.{Receiver};
ghost use Rattle.ffa_model.specs.DescriptorPlaces.{Versioned, accesses_size, in_version, data_code};
ghost use Rattle.ffa_model.specs.SendDescriptor.{Send, send_record, attributes_of};
ghost use Rattle.ffa_model.specs.SoundState.{are_bytes};
ghost use Rattle.ffa_memdesc.specs.Writing.{Wrote};
ghost use Rattle.play_trace.specs.Composed.{receiver_bytes, send_size};
ghost use Rattle.play_trace.specs.Conditions.{conditions, first_broken};

use crate::access::write_access;
use crate::heading::{Heading, write_heading};
use crate::unfit::{Unfit, find_unfit};
use ffa_memdesc::parts::{
    accesses_size, attributes_of, header_size, write_composite, write_ranges,
};
use ffa_model::{Data, EndpointId, Kind, Receiver, SendDesc, Version};

/// Returns the contents of the header of a send.
fn heading_of(kind: Kind, sender: EndpointId, zero: bool, tag: u64, count: u32) -> Heading
    ensures exact { result ≡ record {
      sender = sender;
      attributes = attributes_of kind count;
      flags = if zero then 1
          else 0;
      handle = 0;
      tag = tag;
      count = count;
    } }
    ensures sender_fits { sender.0 < 2 ^ 16 }
    ensures tag_fits { tag < 2 ^ 64 }
{
    Heading {
        sender,
        attributes: attributes_of(kind, count),
        flags: zero as u32,
        handle: 0,
        tag,
        count,
    }
}

/// Returns the permissions that a send grants, with the right to data in bits 1:0.
fn grant_code(grant: Option<Data>) -> u8
    ensures { result ≡ data_code grant }
{
    match grant {
        None => 0,
        Some(Data::Ro) => 1,
        Some(Data::Rw) => 2,
    }
}

fn write_receivers(
    page: &mut [u8],
    version: Version,
    at: usize,
    receivers: &[Receiver],
    composite: u32,
)
    requires { at + accesses_size version (length receivers.now) ≤ length page.old }
    ensures bytes { (old front : List ℕ) → Wrote old front at page.old
        → Wrote old (front ++ flat_map (receiver_bytes version composite) receivers.now)
        (at + accesses_size version (length receivers.now)) page.new }
    ensures fit { (k : ℕ) → k < length receivers.now → (d : Receiver) → (get_or receivers.now k d).endpoint.0 < 2 ^ 16 }
{
    let mut place = at;
    for i in 0..receivers.len() {
        let receiver = &receivers[i];
        write_access(
            page,
            version,
            place,
            receiver.endpoint,
            grant_code(receiver.grant),
            composite,
        );
        place += accesses_size(version, 1) as usize;
    }
}

/// Writes the descriptor of a record that breaks no condition. Returns its size in bytes.
fn write_fit(version: Version, kind: Kind, desc: &SendDesc, page: &mut [u8; 4096]) -> u32
    requires { first_broken (conditions kind (send_record desc.now)) ≡ None }
    ensures size { result ≡ send_size version (send_record desc.now) }
    ensures read { (ffa : Ffa) → Send ffa kind (in_version version (take result page.new)) (send_record desc.now) }
    ensures rest { drop result page.new ≡ drop result page.old }
{
    let receivers = desc.receivers.as_slice();
    let ranges = desc.ranges.as_slice();
    let count = receivers.len() as u32;
    let array = header_size(version);
    let composite = array + accesses_size(version, count) as u32;
    let heading = heading_of(kind, desc.sender, desc.zero, desc.tag, count);
    write_heading(page, version, &heading);
    write_receivers(page, version, array as usize, receivers, composite);
    write_composite(page, composite as usize, ranges);
    write_ranges(page, composite as usize + 16, ranges);
    composite + 16 + 16 * ranges.len() as u32
}

/// Writes a send descriptor of this kind (DEN0077A, 5.11 and 16) from the page's first byte on. Returns its size in
/// bytes. The rest of the page stays as it is.
///
/// If the record breaks a condition, the error says which condition, and the page stays as it is. Then no bytes are a
/// descriptor that says this record.
pub fn write_send(
    version: Version,
    kind: Kind,
    desc: &SendDesc,
    page: &mut [u8; 4096],
) -> Result<u32, Unfit>
    ensures cause { result_err result ≡ first_broken (conditions kind (send_record desc.now)) }
    ensures size { IfOk result (λ n. n ≡ send_size version (send_record desc.now)) }
    ensures read { let said = send_record desc.now in
        IfOk result (λ n. (ffa : Ffa) → Send ffa kind (in_version version (take n page.new)) said) }
    ensures rest { IfOk result (λ n. drop n page.new ≡ drop n page.old) }
    ensures none { OnErr result ((ffa : Ffa) (b : Versioned) → are_bytes b.bytes → Send ffa kind b (send_record desc.now) → ⊥) }
    ensures kept { OnErr result (page.new ≡ page.old) }
{
    match find_unfit(kind, desc) {
        Some(unfit) => Err(unfit),
        None => Ok(write_fit(version, kind, desc, page)),
    }
}
