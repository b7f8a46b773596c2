// SPDX-License-Identifier: MIT OR Apache-2.0
//! The limits of a machine. Each limit is here once, and every definition, contract and array uses its name.

/// The most blocks of RAM, each of 2 MiB. It must be a power of two up to 512, so that one table of level 2 covers RAM.
// A machine in its own room (`Inline`) grows by 4 bytes for each page. `tools/larger-ram` tries 512.
pub const MOST_BLOCKS: u32 = 32;

/// The most bytes of RAM. In a manifest's text, the base of RAM is a multiple of this number.
pub const MOST_RAM: u64 = 0x20_0000 * MOST_BLOCKS as u64;

/// The most pages of RAM.
pub const MOST_PAGES: usize = 512 * MOST_BLOCKS as usize;

/// The most endpoints of a machine: the normal world and the partitions.
// Up to 8, a picture has a colour for each endpoint, and `board/generator` puts a set of endpoints into a byte. Up to
// 15, the first line of `audit` writes the number of endpoints with one digit. Up to 170, RAM of one block has room for
// all tables (`accepted-room`). Up to 171, partition information of 24 bytes a partition fits one page of RX. Up to
// 32768, each place has an identifier. `CAPACITY` of `play_player` grows by 32 bytes for each endpoint. Bindings of
// notifications grow by the square (`MOST_BOUND`). The slot of each open transaction has an entry for each endpoint.
pub const MOST_ENDPOINTS: usize = 8;

/// The most processors that run endpoints of a machine.
// The machine of several processors stores the runner of each processor. Definitions and proofs take any number of
// processors.
pub const MOST_PROCESSORS: usize = 8;

/// The most regions of an endpoint.
// The manifest and the layout of `ffa_stage2` store the regions. A boot tests all regions once at each place where a
// region begins or ends.
pub const MOST_REGIONS: usize = 16;

/// The most pages of TX, and of RX.
// The standard has six bits for the number, so at most 63. Nothing is stored for each page of a buffer. The core goes
// over these pages when it maps the buffer, reads a descriptor or copies a message. Partition information and responses
// use only the first page of RX.
pub const MOST_BUFFER_PAGES: u32 = 4;

/// The most receivers of a share or a lend.
// A descriptor names no endpoint twice, and does not name its sender. So the core never accepts more than
// `MOST_ENDPOINTS` - 1 receivers.
pub const MOST_RECEIVERS: usize = 4;

/// The most ranges of a transaction.
// The most is 244. A transaction that a sender reads back must fit one page of RX. It has at most 192 bytes, with four
// receivers in the form of FF-A 1.2, and 16 bytes for each range. `play_trace` writes a descriptor into one page,
// which also allows 244. Each range needs 8 bytes of a slot, 16 bytes of the stack, and 16 bytes of the report of
// changed access for C. The core compares ranges in the order of their addresses. `few-pages` of `ffa_memshare` proves
// that all ranges together have fewer than 2^32 pages.
pub const MOST_RANGES: usize = 64;

/// The most open transactions of one sender.
// The core searches the slots one by one. The generator has the same number of offers (`MOST_OFFERS` of `play_generator`).
pub const MOST_OPEN: usize = 16;

/// The number of the slot of an open transaction, which the core stores for each page. This type has a value for each
/// of the `MOST_OPEN` * `MOST_ENDPOINTS` slots.
// With `u16`, the entry of a page in `ffa_pages` has six bytes instead of four. The proofs hold for both types.
pub type SlotNumber = u8;

/// The most sends of one endpoint while a machine of FF-A 1.1 runs. `Ffa::most_sends` has the limit of each version.
// It is at most `MOST_HANDLES`.
pub const MOST_SENDS: u32 = 65535;

/// The most handles of one endpoint. Each send has its own number in its handle. In a machine of FF-A 1.2, this is
/// also the most sends of one endpoint.
// Numbers have 32 bits and begin at 1. So no two sends have the same handle (`handle-parts`). No test can make this
// number of sends.
pub const MOST_HANDLES: u32 = 4294967295;
