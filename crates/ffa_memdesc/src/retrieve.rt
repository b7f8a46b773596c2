// SPDX-License-Identifier: MIT OR Apache-2.0
//! The descriptor of FFA_MEM_RETRIEVE_REQ.

ghost use Rattle.std.specs.Prelude.{◌≡◌, ◌≤◌, true, Some, IfOk, IfErr, OnOk, OnErr};
ghost use Rattle.std.specs.Option.{option_map};
ghost use Rattle.std.specs.Result.{result_ok, result_err};
ghost use Rattle.ffa_model.specs.declared.limits.TheConstants.{MOST_RECEIVERS};
ghost use Rattle.ffa_model.specs.declared.manifest.Ffa.{Ffa};
ghost use Rattle.ffa_model.specs.Bits.{bits};
ghost use Rattle.ffa_model.specs.DescriptorPlaces.{Versioned, in_version, kind_of};
ghost use Rattle.ffa_model.specs.FirstFlaws.{asked_header_flaw, asked_access_flaw, retrieve_flaw};
ghost use Rattle.ffa_model.specs.Flaws.{RetrieveBreaks};
ghost use Rattle.ffa_model.specs.RetrieveDescriptor.{Retrieve, flags_but_alone, is_named_count, is_retrieve_access, is_retrieve_header, own_index, own_place, retrieve_of};
ghost use Rattle.ffa_model.specs.declared.descriptor.RetrieveDesc.{RetrieveDesc};
ghost use Rattle.ffa_model.specs.declared.flaw.Flaw.TheVariants.{Retrieve as FlawOfRetrieve};
ghost use Rattle.ffa_memdesc.specs.Reading.{header_in, access_in};

use crate::access::{Access, read_access};
use crate::bytes::Bytes;
use crate::header::{Header, NORMAL_MEMORY, accesses_size, read_header};
use crate::names::{check_names, own_index};
use crate::receivers::data_of;
use ffa_model::{EndpointId, Ffa, Flaw, Kind, MOST_RECEIVERS, RetrieveDesc, RetrieveFlaw, Version};

// Bit 10 of the flags: the only access descriptor is the caller's, even if the transaction has other receivers.
const ALONE: u32 = 1 << 10;

/// Returns the kind of the transaction, which bits 4:3 of the flags name. If these bits are 00, returns `None`.
fn kind_of(flags: u32) -> Option<Kind>
    ensures { result ≡ kind_of (bits 4 3 flags) }
{
    match flags >> 3 & 3 {
        1 => Some(Kind::Share),
        2 => Some(Kind::Lend),
        3 => Some(Kind::Donate),
        _ => None,
    }
}

/// Returns the flags without bit 10, by which the caller in FF-A 1.2 names only itself. In FF-A 1.1 all flags stay.
fn flags_but_alone(ffa: Ffa, flags: u32) -> u32
    ensures { result ≡ flags_but_alone ffa flags }
{
    if ffa == Ffa::V1_2 && flags >> 10 & 1 == 1 {
        flags.saturating_sub(ALONE)
    } else {
        flags
    }
}

/// Whether a retrieve with these flags may have this number of access descriptors.
fn is_named_count(ffa: Ffa, flags: u32, count: u32) -> bool
    ensures { result ≡ is_named_count ffa flags count }
{
    match ffa {
        Ffa::V1_1 => count == 1,
        Ffa::V1_2 => {
            let most = if flags >> 10 & 1 == 1 {
                1
            } else {
                MOST_RECEIVERS as u32
            };
            1 <= count && count <= most
        }
    }
}

/// Checks that the header is a header of a retrieve.
///
/// An error is the first condition that the header breaks.
#[tactic(auto, unfolding(ffa_model::specs::RetrieveDescriptor::is_retrieve_header, ffa_model::specs::FirstFlaws::asked_header_flaw))]
fn check_header(ffa: Ffa, header: &Header) -> Result<(), RetrieveFlaw>
    ensures fits { (b : Versioned) → header.now ≡ header_in b → OnOk result (is_retrieve_header ffa b ≡ true) }
    ensures few { OnOk result (header.now.count ≤ MOST_RECEIVERS) }
    ensures some { OnOk result (1 ≤ header.now.count) }
    ensures first { let broken = option_map (λ flaw. FlawOfRetrieve 0 flaw) (result_err result) in
        (b : Versioned) → header.now ≡ header_in b → broken ≡ asked_header_flaw ffa b }
{
    if header.attributes != 0 && header.attributes != NORMAL_MEMORY {
        return Err(RetrieveFlaw::Attributes);
    }
    if flags_but_alone(ffa, header.flags) != 8 * (header.flags >> 3 & 3) {
        return Err(RetrieveFlaw::Flags);
    }
    if !is_named_count(ffa, header.flags, header.count) {
        return Err(RetrieveFlaw::AccessCount);
    }
    Ok(())
}

/// Checks that the access descriptor is one of a retrieve by this endpoint.
///
/// An error is the first condition that the access descriptor breaks.
#[tactic(auto, unfolding(ffa_model::specs::RetrieveDescriptor::is_retrieve_access, ffa_model::specs::FirstFlaws::asked_access_flaw))]
fn check_access(endpoint: EndpointId, access: &Access) -> Result<(), RetrieveFlaw>
    ensures fits { (ffa : Ffa) (b : Versioned) → access.now ≡ access_in b (own_place ffa endpoint.0 b)
        → OnOk result (is_retrieve_access ffa endpoint.0 b ≡ true) }
    ensures first { (ffa : Ffa) (b : Versioned) → access.now ≡ access_in b (own_place ffa endpoint.0 b)
        → option_map (λ flaw. FlawOfRetrieve (own_index ffa endpoint.0 b) flaw) (result_err result)
        ≡ asked_access_flaw ffa endpoint.0 b }
{
    if access.endpoint.0 != endpoint.0 {
        return Err(RetrieveFlaw::ReceiverIsAnother);
    }
    if access.data_code() == 3 {
        return Err(RetrieveFlaw::DataPermission);
    }
    if access.instruction_code() == 3 {
        return Err(RetrieveFlaw::InstructionPermission);
    }
    if access.permissions >> 4 != 0 {
        return Err(RetrieveFlaw::PermissionsReserved);
    }
    if access.flags != 0 {
        return Err(RetrieveFlaw::AccessFlags);
    }
    if access.composite != 0 {
        return Err(RetrieveFlaw::CompositeTold);
    }
    if !access.is_rest_zero {
        return Err(RetrieveFlaw::AccessReserved);
    }
    Ok(())
}

// Returns the contents of the descriptor. Each caller passes a constant version of FF-A. So the compiled code for FF-A
// 1.1 has no loop over names.
#[inline(always)]
fn retrieve_in<B: Bytes>(
    bytes: &B,
    ffa: Ffa,
    version: Version,
    endpoint: EndpointId,
) -> Result<RetrieveDesc, Flaw>
    ensures found { IfOk result (λ d. Some d ≡ retrieve_of ffa endpoint.0 (in_version version (B.bytes bytes.now))) }
    ensures first { result_err result ≡ retrieve_flaw ffa endpoint.0 (in_version version (B.bytes bytes.now)) }
{
    let header = match read_header(bytes, version) {
        Ok(header) => header,
        Err(flaw) => return Err(Flaw::Header(flaw)),
    };
    if let Err(flaw) = check_header(ffa, &header) {
        return Err(Flaw::Retrieve(0, flaw));
    }
    let own = own_index(bytes, ffa, version, endpoint, &header);
    let at = header.array as usize + accesses_size(version, own) as usize;
    let access = read_access(bytes, version, at);
    if let Err(flaw) = check_access(endpoint, &access) {
        return Err(Flaw::Retrieve(own, flaw));
    }
    check_names(bytes, ffa, version, &header)?;
    Ok(RetrieveDesc {
        sender: header.sender,
        handle: header.handle,
        tag: header.tag,
        kind: kind_of(header.flags),
        level: data_of(access.data_code()),
        exec: access.instruction_code() == 2,
    })
}

fn retrieve_by<B: Bytes>(
    bytes: &B,
    ffa: Ffa,
    version: Version,
    endpoint: EndpointId,
) -> Result<RetrieveDesc, Flaw>
    ensures found { IfOk result (λ d. Some d ≡ retrieve_of ffa endpoint.0 (in_version version (B.bytes bytes.now))) }
    ensures first { result_err result ≡ retrieve_flaw ffa endpoint.0 (in_version version (B.bytes bytes.now)) }
{
    match ffa {
        Ffa::V1_1 => retrieve_in(bytes, Ffa::V1_1, version, endpoint),
        Ffa::V1_2 => retrieve_in(bytes, Ffa::V1_2, version, endpoint),
    }
}

/// Returns the contents of a retrieve descriptor, if the bytes are one. The retrieve is by this endpoint, in the layout
/// of this version, on a machine of this FF-A.
///
/// # Errors
///
/// The first condition of such a retrieve descriptor that the bytes break. No such descriptor has these bytes then.
pub fn read_retrieve<B: Bytes>(
    bytes: &B,
    ffa: Ffa,
    version: Version,
    endpoint: EndpointId,
) -> Result<RetrieveDesc, Flaw>
    ensures found { IfOk result (λ d. Retrieve ffa endpoint.0 (in_version version (B.bytes bytes.now)) d) }
    ensures none { let described = in_version version (B.bytes bytes.now) in
        OnErr result ((r : RetrieveDesc) → Retrieve ffa endpoint.0 described r → ⊥) }
    ensures computed { result_ok result ≡ retrieve_of ffa endpoint.0 (in_version version (B.bytes bytes.now)) }
    ensures broken { IfErr result (RetrieveBreaks ffa endpoint.0 (in_version version (B.bytes bytes.now))) }
    ensures first { result_err result ≡ retrieve_flaw ffa endpoint.0 (in_version version (B.bytes bytes.now)) }
{
    retrieve_by(bytes, ffa, version, endpoint)
}
