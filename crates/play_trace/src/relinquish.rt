// SPDX-License-Identifier: MIT OR Apache-2.0
//! Writes relinquish descriptors.

ghost use Rattle.std.specs.Prelude.{◌≡◌, take, drop};
ghost use Rattle.ffa_model.specs.RelinquishDescriptor.{Relinquish};

use ffa_memdesc::put::{put_u16, put_u32, put_u64};
use ffa_model::{EndpointId, RelinquishDesc};

/// The size in bytes of a relinquish descriptor with one endpoint.
const SIZE: u32 = 18;

/// Writes a relinquish descriptor with one endpoint (DEN0077A, 5.11 and 16) from the page's first byte on. Returns its
/// size in bytes, which is 18. The rest of the page stays as it is.
pub fn write_relinquish(desc: &RelinquishDesc, page: &mut [u8; 4096]) -> u32
    ensures size { result ≡ 18 }
    ensures read { Relinquish (take result page.new) desc.now }
    ensures rest { drop result page.new ≡ drop result page.old }
{
    let RelinquishDesc {
        handle,
        zero,
        endpoint: EndpointId(endpoint),
    } = *desc;
    put_u64(page, 0, handle);
    put_u32(page, 8, zero as u32);
    put_u32(page, 12, 1);
    put_u16(page, 16, endpoint);
    SIZE
}
