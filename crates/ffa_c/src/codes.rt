// SPDX-License-Identifier: MIT OR Apache-2.0
//! The numbers that C gets and passes. C has each of them by the same name after `GORSEPLUMB_`. No answer here is an
//! error code of FF-A: a call has its error code in its registers.

/// The number of the header's declarations. Each change that a caller must know about raises it.
pub const DECLARATIONS: u32 = 13;

/// The version of a machine that serves FF-A 1.1.
pub const FFA_1_1: u32 = 0;

/// The version of a machine that serves FF-A 1.2.
pub const FFA_1_2: u32 = 1;

/// Answer: it was done.
pub const OK: u32 = 0;

/// Answer: an allocation was refused.
pub const NO_MEMORY: u32 = 1;

/// Answer: a manifest's text is not TOML, or not UTF-8.
pub const MANIFEST_TOML: u32 = 2;

/// Answer: a table of a manifest has a key that is not one of its keys.
pub const MANIFEST_UNKNOWN_KEY: u32 = 3;

/// Answer: a table of a manifest lacks one of its keys.
pub const MANIFEST_MISSING_KEY: u32 = 4;

/// Answer: a value of a manifest has another kind, or rights or the version of the machine are unknown.
pub const MANIFEST_WRONG_KIND: u32 = 5;

/// Answer: RAM may not begin at the base in a manifest.
pub const MANIFEST_RAM_BASE: u32 = 6;

/// Answer: RAM in a manifest has no block, has too many blocks, or is not in one GiB.
pub const MANIFEST_RAM_BLOCKS: u32 = 7;

/// Answer: a manifest has no endpoint, or too many endpoints.
pub const MANIFEST_ENDPOINT_COUNT: u32 = 8;

/// Answer: a UUID in a manifest cannot be read, or its endpoint may not have it.
pub const MANIFEST_UUID: u32 = 9;

/// Answer: the properties of an endpoint in a manifest are unknown, or the endpoint may not have them.
pub const MANIFEST_PROPERTY: u32 = 10;

/// Answer: an endpoint in a manifest has no region, or too many regions.
pub const MANIFEST_REGION_COUNT: u32 = 11;

/// Answer: a region in a manifest is not whole pages in RAM, or has a page of the tables, or has no page.
pub const MANIFEST_REGION_OUTSIDE: u32 = 12;

/// Answer: a region in a manifest has a page of an earlier region.
pub const MANIFEST_REGION_OVERLAP: u32 = 13;

/// Answer: the version of an endpoint in a manifest is unknown, or the machine does not serve it.
pub const MANIFEST_VERSION: u32 = 14;

/// Answer: there is already a machine, a list or a page.
pub const OCCUPIED: u32 = 15;

/// Answer: there is no list of pages.
pub const NO_LIST: u32 = 16;

/// Answer: there is no page in the slot, in the span or in the list.
pub const NO_PAGE: u32 = 17;

/// Answer: the list still has pages.
pub const HAS_PAGES: u32 = 18;

/// Answer: there is no machine.
pub const NO_MACHINE: u32 = 19;

/// Answer: the list has more pages than the machine's RAM, or fewer.
pub const WRONG_COUNT: u32 = 20;

/// Answer: the tables do not give what the runs say.
pub const NOT_CERTIFIED: u32 = 21;

/// Answer: the machine's RAM is lent.
pub const LENT: u32 = 22;

/// Answer: RAM of this size cannot begin at this address.
pub const BAD_BASE: u32 = 23;

/// Answer: there are more roots than endpoints of a machine, or a root is not a page of RAM.
pub const BAD_ROOTS: u32 = 24;

/// Answer: RAM does not have all tables from the page on that a manifest names.
pub const MANIFEST_TABLES_OUTSIDE: u32 = 25;

/// The answer of a question if there is no machine, no such page or no such endpoint.
pub const NOTHING: u32 = 0xFFFF_FFFF;

/// Kind of an outcome: an endpoint runs next, with registers.
pub const KIND_REGISTERS: u32 = 0;

/// Kind of an outcome: an access loaded or fetched data.
pub const KIND_DATA: u32 = 1;

/// Kind of an outcome: a store was done, or an interrupt changed nothing.
pub const KIND_DONE: u32 = 2;

/// Kind of an outcome: an access faults.
pub const KIND_FAULT: u32 = 3;

/// Kind of an outcome: there is no machine, and nothing was done.
pub const KIND_NO_MACHINE: u32 = 4;

/// Kind of an outcome: no access has this size, or no operation has this kind, and nothing was done.
pub const KIND_BAD_SIZE: u32 = 5;

/// Kind of an outcome: a partition that an interrupt had stopped runs next, and continues where it was.
pub const KIND_RESUMED: u32 = 7;

/// Kind of an operation: a call, with registers.
pub const OPERATION_CALL: u32 = 0;

/// Kind of an operation: a load.
pub const OPERATION_LOAD: u32 = 1;

/// Kind of an operation: a store.
pub const OPERATION_STORE: u32 = 2;

/// Kind of an operation: a fetch.
pub const OPERATION_FETCH: u32 = 3;

/// Fault: no descriptor maps the address.
pub const FAULT_TRANSLATION: u32 = 1;

/// Fault: the descriptor lacks the right.
pub const FAULT_PERMISSION: u32 = 2;

/// Fault: the address is not a multiple of the size of the access.
pub const FAULT_ALIGNMENT: u32 = 3;

/// Fault: the access flag of the descriptor is 0.
pub const FAULT_ACCESS_FLAG: u32 = 4;

/// Fault: the walk or the access leaves RAM.
pub const FAULT_OUTSIDE_RAM: u32 = 5;

/// Subject of a reason: no subject.
pub const ABOUT_NOTHING: u32 = 0;

/// Subject of a reason: a page, and the obstacle there.
pub const ABOUT_PAGE: u32 = 1;

/// Subject of a reason: an endpoint.
pub const ABOUT_ENDPOINT: u32 = 2;

/// Subject of a reason: the handle of a transaction.
pub const ABOUT_HANDLE: u32 = 3;

/// Subject of a reason: a register.
pub const ABOUT_REGISTER: u32 = 4;

/// Subject of a reason: the bit of a notification.
pub const ABOUT_BIT: u32 = 5;

/// Subject of a reason: a field of a descriptor.
pub const ABOUT_FIELD: u32 = 6;

/// Run state in a reason: the reason has no run state.
pub const STATE_NONE: u32 = 0;

/// Run state in a reason: the endpoint is running.
pub const STATE_RUNNING: u32 = 1;

/// Run state in a reason: the endpoint is waiting.
pub const STATE_WAITING: u32 = 2;

/// Run state in a reason: the endpoint has yielded.
pub const STATE_YIELDED: u32 = 3;

/// Run state in a reason: the endpoint is blocked.
pub const STATE_BLOCKED: u32 = 4;

/// Run state in a reason: an interrupt preempted the endpoint.
pub const STATE_PREEMPTED: u32 = 5;

/// Run state in a reason: the endpoint is running on another processor.
pub const STATE_RUNS_ELSEWHERE: u32 = 6;

/// Obstacle in a reason: the reason names no obstacle.
pub const OBSTACLE_NONE: u32 = 0;

/// Obstacle in a reason: the address is not in RAM.
pub const OBSTACLE_OUTSIDE_RAM: u32 = 1;

/// Obstacle in a reason: the page belongs to the manager.
pub const OBSTACLE_MANAGERS_PAGE: u32 = 2;

/// Obstacle in a reason: the page belongs to another endpoint.
pub const OBSTACLE_OWNED_BY: u32 = 3;

/// Obstacle in a reason: the page is in an open transaction.
pub const OBSTACLE_IN_TRANSACTION: u32 = 4;

/// Kind of a hint: the reason has no hint.
pub const HINT_NONE: u32 = 0;

/// Kind of a hint: the page is in an endpoint's TX.
pub const HINT_TX_PAGE: u32 = 1;

/// Kind of a hint: the page is in an endpoint's RX.
pub const HINT_RX_PAGE: u32 = 2;

/// Kind of a hint: the owner's own right.
pub const HINT_OWN_RIGHT: u32 = 3;

/// Kind of a hint: the owner's own right, if more is granted: to read and write.
pub const HINT_GRANTED: u32 = 4;

/// Kind of a hint: an endpoint, and the right that it has at the address.
pub const HINT_ACCESS: u32 = 5;

/// Kind of a hint: the caller, if the call names another endpoint.
pub const HINT_CALLER: u32 = 6;

/// Kind of a hint: the transaction's sender.
pub const HINT_SENDER: u32 = 7;

/// Kind of a hint: the tag in the descriptor, and the transaction's tag.
pub const HINT_TAG: u32 = 8;

/// Kind of a hint: the kind that the call has, and the transaction's kind.
pub const HINT_KIND: u32 = 9;

/// Kind of a hint: the requested right, and the most that is allowed.
pub const HINT_RIGHT: u32 = 10;

/// Kind of a hint: the right with which the caller holds the transaction.
pub const HINT_HELD: u32 = 11;

/// Kind of a hint: the number of bytes of the buffer.
pub const HINT_ROOM: u32 = 12;

/// Kind of a hint: the only value that the register may have.
pub const HINT_VALUE: u32 = 13;

/// Kind of a hint: the caller, and the size of an access descriptor that its header must have.
pub const HINT_FORM: u32 = 14;

/// Kind of a hint: the place of a word in a header, and the number in the word.
pub const HINT_WORD: u32 = 15;

/// Kind of a hint: the offset of a message, its size, and the number of bytes of the buffer.
pub const HINT_MESSAGE: u32 = 16;

/// Kind of a hint: the first address that is not in RAM.
pub const HINT_OUTSIDE: u32 = 17;

/// Kind of a hint: the first receiver that holds the transaction.
pub const HINT_HOLDER: u32 = 18;

/// Kind of a hint: the caller is processing an FFA_RUN.
pub const HINT_RUN: u32 = 19;

/// Kind of a hint: the endpoint whose direct request the caller is processing.
pub const HINT_REQUEST: u32 = 20;

/// Kind of a hint: the lowest pending bit.
pub const HINT_PENDING: u32 = 21;

/// Kind of a hint: the endpoint has no RX and TX. The next kinds are the other causes of `Cause`.
pub const HINT_BUFFERS_MISSING: u32 = 22;

/// Kind of a grant: the endpoint has no access.
pub const GRANT_NONE: u32 = 0;

/// Kind of a grant: the endpoint owns the page, and no open transaction names the page.
pub const GRANT_OWN: u32 = 1;

/// Kind of a grant: the endpoint owns the page, and shares it.
pub const GRANT_SHARED: u32 = 2;

/// Kind of a grant: the endpoint holds a transaction that names the page.
pub const GRANT_HELD: u32 = 3;

/// The right to read.
pub const READ: u32 = 1;

/// The right to read and to write.
pub const WRITE: u32 = 3;

/// The right to execute, in addition to `READ` or `WRITE`.
pub const EXECUTE: u32 = 4;
