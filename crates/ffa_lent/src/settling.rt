// SPDX-License-Identifier: MIT OR Apache-2.0
//! The requests to firmware, and how the library sends them.
ghost use Rattle.std.specs.Prelude.{◌≡◌};
ghost use Rattle.ffa_lent.specs.Settling.{request_of};

use byteorder::{ByteOrder, LittleEndian};
use ffa_model::{Address, EndpointId, PageNo};
use ffa_physmem::PAGE_SIZE;

/// A file descriptor that no file has. Firmware recognises a request by it. The `write` of a C library does nothing
/// with it.
const SETTLES: i32 = -0xFFA;

/// A request that the library has written for firmware. Only `ask` makes an `Asked`.
#[derive(Clone, Copy, Drop)]
pub(crate) struct Asked<'a> {
    request: &'a [u8; 24],
}

/// Writes a request to the file descriptor by which firmware receives requests.
pub(crate) fn ask(request: &[u8; 24]) -> Asked<'_>
    ensures { result.request.now ≡ request.now }
{
    let _ = io::write_all(SETTLES, request);
    Asked { request }
}

/// Returns the request to settle `count` pages from `first` on, in the tables of the endpoint at a place. The RAM of
/// the pages begins at `base`. The request has three numbers of 8 bytes, each with its lowest byte first. They are the
/// endpoint's identifier, the address of the first page, and the size of the pages in bytes. With `count` 0, the
/// request is that others see earlier writes before any later write.
pub(crate) fn request(endpoint: usize, base: Address, first: PageNo, count: u32) -> [u8; 24]
    ensures { result ≡ request_of endpoint base.0 first.0 count }
{
    let EndpointId(identifier) = EndpointId::at(endpoint.min(0x7FFF));
    let mut bytes = [0; 24];
    LittleEndian::write_u64(&mut bytes, u64::from(identifier));
    LittleEndian::write_u64(
        &mut bytes[8..],
        u64::from(base.0) + PAGE_SIZE as u64 * u64::from(first.0),
    );
    LittleEndian::write_u64(&mut bytes[16..], PAGE_SIZE as u64 * u64::from(count));
    bytes
}
