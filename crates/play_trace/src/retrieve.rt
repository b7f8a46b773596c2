// SPDX-License-Identifier: MIT OR Apache-2.0
//! Writes retrieve descriptors.

ghost use Rattle.std.specs.Prelude.{◌≡◌, ◌+◌, ◌*◌, take, drop};
ghost use Rattle.ffa_model.specs.declared.manifest.Ffa.{Ffa};
ghost use Rattle.ffa_model.specs.DescriptorPlaces.{accesses_size, in_version, header_size, data_code, exec_code, kind_code};
ghost use Rattle.ffa_model.specs.RetrieveDescriptor.{Retrieve};

use crate::access::write_access;
use crate::heading::{Heading, write_heading};
use ffa_memdesc::parts::{accesses_size, header_size};
use ffa_model::{Data, EndpointId, Kind, RetrieveDesc, Version};

/// Returns the flags of a retrieve, with the kind of the transaction in bits 4:3. They are 0 if the retrieve names no
/// kind.
fn flags_of(kind: Option<Kind>) -> u32
    ensures { result ≡ 8 * kind_code kind }
{
    match kind {
        None => 0,
        Some(Kind::Share) => 8,
        Some(Kind::Lend) => 16,
        Some(Kind::Donate) => 24,
    }
}

/// Returns the permissions of a retrieve: the right to data in bits 1:0, and the right to instructions in bits 3:2.
fn permissions_of(level: Option<Data>, exec: bool) -> u8
    ensures { result ≡ data_code level + 4 * exec_code exec }
{
    let level = match level {
        None => 0,
        Some(Data::Ro) => 1,
        Some(Data::Rw) => 2,
    };
    if exec { level + 8 } else { level + 4 }
}

/// Writes a retrieve descriptor for a receiver of this version (DEN0077A, 5.11 and 16) from the page's first byte on.
/// Returns its size in bytes. The rest of the page stays as it is.
pub fn write_retrieve(
    version: Version,
    desc: &RetrieveDesc,
    receiver: EndpointId,
    page: &mut [u8; 4096],
) -> u32
    ensures size { result ≡ header_size version + accesses_size version 1 }
    ensures read { (ffa : Ffa) → Retrieve ffa receiver.0 (in_version version (take result page.new)) desc.now }
    ensures rest { drop result page.new ≡ drop result page.old }
{
    let RetrieveDesc {
        sender: EndpointId(sender),
        handle,
        tag,
        kind,
        level,
        exec,
    } = *desc;
    let heading = Heading {
        sender: EndpointId(sender),
        attributes: 0,
        flags: flags_of(kind),
        handle,
        tag,
        count: 1,
    };
    let place = header_size(version);
    write_heading(page, version, &heading);
    write_access(
        page,
        version,
        place as usize,
        receiver,
        permissions_of(level, exec),
        0,
    );
    place + accesses_size(version, 1) as u32
}
