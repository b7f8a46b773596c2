// SPDX-License-Identifier: MIT OR Apache-2.0
//! Indirect messages (DEN0077A, 7.1 and 15).
ghost use Rattle.std.specs.Prelude.{◌≡◌, ◌+◌, ◌*◌, ◌/◌, ◌≤◌, length, map, take, true, is_some, Some, OnOk, OnErr, IfOk, IsSomeAnd};
ghost use Rattle.std.specs.Result.{result_err};
ghost use Rattle.ffa_model.specs.Buffers.{buffers_in, buffers_with_rx, room_of};
ghost use Rattle.ffa_model.specs.Calls.{first_failure};
ghost use Rattle.ffa_model.specs.First.{party_of};
ghost use Rattle.ffa_model.specs.Messages.{header_in, message_in, send2_guards};
ghost use Rattle.ffa_model.specs.Ram.{number_in, page_of};
ghost use Rattle.ffa_model.specs.State.{is_known_among};
ghost use Rattle.ffa_model.specs.Lists.{is_in_run};
ghost use Rattle.ffa_physmem.specs.Moments.{IsWriting, Only};
ghost use Rattle.ffa_physmem.specs.Work.{AddsAtMost, loans_of};
ghost use Rattle.ffa_rxtx.specs.Parts.{IsInRam, IsRxWriting, run_in, with_run, with_rx_bytes};
ghost use Rattle.ffa_rxtx.specs.Stored.{buffers_of};
ghost use Rattle.ffa_messages.specs.Parts.{AreEndsApart, AreInRam, IsBeside, header_of, receiver_in, sent_in, size_in};

use crate::checks::check_send2;
use byteorder::{ByteOrder, LittleEndian};
use ffa_model::{EndpointId, ErrorCode, Manifest, PageNo, Version};
use ffa_physmem::{PAGE_SIZE, PhysMem};
use ffa_rxtx::{Buffers, Mapped};

/// The header at the start of a message in TX (DEN0077A, 7.1).
#[derive(Clone, Copy, PartialEq, Eq)]
pub struct MessageHeader {
    pub(crate) flags: u32,
    pub(crate) reserved: u32,
    /// The first byte of the payload, counted from the header's first byte.
    pub(crate) offset: u32,
    pub(crate) receiver: EndpointId,
    pub(crate) sender: EndpointId,
    /// The number of bytes of the payload.
    pub(crate) size: u32,
}

impl MessageHeader {
    // Reads the header in the first bytes of a page.
    fn read(page: &[u8; 4096]) -> MessageHeader
        ensures { header_of result ≡ header_in page.now }
    {
        MessageHeader {
            flags: u32_at(page, 0),
            reserved: u32_at(page, 4),
            offset: u32_at(page, 8),
            receiver: EndpointId(u16_at(page, 12)),
            sender: EndpointId(u16_at(page, 14)),
            size: u32_at(page, 16),
        }
    }

    // Returns the number of bytes from the header's first byte to the end of the payload.
    pub(crate) fn end(&self) -> usize
        ensures { result ≡ self.now.offset + self.now.size }
    {
        self.offset as usize + self.size as usize
    }
}

// Reads the number in two bytes of a page, from this place on.
fn u16_at(page: &[u8; 4096], place: usize) -> u16
    requires { place + 2 ≤ 4096 }
    ensures { result ≡ number_in page.now place 2 }
{
    LittleEndian::read_u16(&page[place..])
}

// Reads the number in four bytes of a page, from this place on.
fn u32_at(page: &[u8; 4096], place: usize) -> u32
    requires { place + 4 ≤ 4096 }
    ensures { result ≡ number_in page.now place 4 }
{
    LittleEndian::read_u32(&page[place..])
}

/// Sends an indirect message: FFA_MSG_SEND2 of a caller with this form (DEN0077A, 15). Copies the message in the
/// caller's TX, with its header, to the receiver's RX, which is then full. The other bytes of RX stay. Returns the
/// receiver.
///
/// # Errors
///
/// The first of these that applies. An error changes nothing.
///
/// - `InvalidParameters`: the caller has no buffers, or a flag or a reserved bit of the header is set.
/// - `InvalidParameters`: the header's sender is not the caller, or its receiver is not another endpoint.
/// - `InvalidParameters`: the payload begins in the header, has no bytes, or ends after the end of TX.
/// - `Denied`: the caller or the receiver does not send and receive indirect messages.
/// - `Busy`: the receiver has no buffers, or its RX is full.
/// - `NoMemory`: the message does not fit the receiver's RX.
pub fn send2<M: PhysMem>(
    ram: &mut M,
    buffers: &mut Buffers,
    manifest: &Manifest,
    version: Version,
    caller: EndpointId,
) -> Result<EndpointId, ErrorCode>
    requires known { is_known_among (length buffers.old) caller.0 ≡ true }
    requires pages { AreInRam (length (M.ram ram.old).pages) buffers.old }
    requires apart { AreEndsApart (map party_of manifest.now.endpoints.items) (M.ram ram.old) buffers.old version caller.0 }
    ensures refusal { result_err result
        ≡ first_failure
        (send2_guards (map party_of manifest.now.endpoints.items) buffers.old version caller.0
        (header_in (sent_in (M.ram ram.old) buffers.old caller.0))) }
    ensures receiver { IfOk result (λ receiver. receiver.0 ≡ receiver_in (M.ram ram.old) buffers.old caller.0) }
    ensures kept_ram { OnErr result (M.ram ram.new ≡ M.ram ram.old) }
    ensures kept_past { OnErr result (M.past ram.new ≡ M.past ram.old) }
    ensures kept { OnErr result (buffers.new ≡ buffers.old) }
    ensures ram { OnOk result (M.ram ram.new
        ≡ with_rx_bytes (M.ram ram.old) (buffers_in buffers.old (receiver_in (M.ram ram.old) buffers.old caller.0))
        (message_in (sent_in (M.ram ram.old) buffers.old caller.0))) }
    ensures full { OnOk result (buffers.new
        ≡ buffers_with_rx buffers.old (receiver_in (M.ram ram.old) buffers.old caller.0) true) }
    ensures steps { Only (M.past ram.old) (M.past ram.new) (λ _ s.
        IsRxWriting (M.ram ram.old) (buffers_in buffers.old (receiver_in (M.ram ram.old) buffers.old caller.0)) s) }
    ensures few { AddsAtMost (M.past ram.old) (M.past ram.new) (loans_of ((size_in (M.ram ram.old) buffers.old caller.0 + 4095) / 4096)) }
{
    let message = check_send2(ram, buffers, manifest, version, caller)?;
    deliver(ram, buffers, &message.from, message.receiver, message.size);
    Ok(message.receiver)
}

// Reads the header in TX of these buffers.
pub(crate) fn read_header<M: PhysMem>(ram: &M, from: &Mapped) -> MessageHeader
    requires { IsInRam (length (M.ram ram.now).pages) (buffers_of from.now) }
    ensures { header_of result ≡ header_in (run_in (M.ram ram.now) from.now.tx.0 from.now.pages) }
{
    MessageHeader::read(ram.page(from.tx))
}

// Copies this number of bytes from TX of these buffers to RX of an endpoint that has buffers. That RX is then full.
fn deliver<M: PhysMem>(
    ram: &mut M,
    buffers: &mut Buffers,
    from: &Mapped,
    receiver: EndpointId,
    size: usize,
)
    requires from { IsInRam (length (M.ram ram.old).pages) (buffers_of from.now) }
    requires fits { size ≤ 4096 * from.now.pages }
    requires known { is_known_among (length buffers.old) receiver.0 ≡ true }
    requires to { IsSomeAnd (buffers_in buffers.old receiver.0) (λ b. IsInRam (length (M.ram ram.old).pages) b) }
    requires room { size ≤ room_of (buffers_in buffers.old receiver.0) }
    requires apart { IsSomeAnd (buffers_in buffers.old receiver.0) (λ b. IsBeside (buffers_of from.now) b) }
    ensures ram { M.ram ram.new
        ≡ with_rx_bytes (M.ram ram.old) (buffers_in buffers.old receiver.0)
        (take size (run_in (M.ram ram.old) from.now.tx.0 from.now.pages)) }
    ensures full { buffers.new ≡ buffers_with_rx buffers.old receiver.0 true }
    ensures steps { Only (M.past ram.old) (M.past ram.new) (λ _ s.
        IsRxWriting (M.ram ram.old) (buffers_in buffers.old receiver.0) s) }
    ensures few { AddsAtMost (M.past ram.old) (M.past ram.new) (loans_of ((size + 4095) / 4096)) }
{
    match buffers.of(receiver) {
        Some(to) => {
            copy_run(ram, from, &to, size);
            buffers.mark_full(receiver);
        }
        None => unreachable!(),
    }
}

// Copies this number of bytes from TX of some buffers to RX of others, page by page.
fn copy_run<M: PhysMem>(ram: &mut M, from: &Mapped, to: &Mapped, size: usize)
    requires from { IsInRam (length (M.ram ram.old).pages) (buffers_of from.now) }
    requires to { IsInRam (length (M.ram ram.old).pages) (buffers_of to.now) }
    requires fits { size ≤ 4096 * from.now.pages }
    requires room { size ≤ 4096 * to.now.pages }
    requires apart { IsBeside (buffers_of from.now) (buffers_of to.now) }
    ensures ram { M.ram ram.new
        ≡ with_run to.now.pages (M.ram ram.old) to.now.rx.0
        (take size (run_in (M.ram ram.old) from.now.tx.0 from.now.pages)) }
    ensures steps { Only (M.past ram.old) (M.past ram.new) (λ _ s.
        IsWriting (M.ram ram.old) (is_in_run to.now.rx.0 to.now.pages) s) }
    ensures few { AddsAtMost (M.past ram.old) (M.past ram.new) (loans_of ((size + 4095) / 4096)) }
{
    // Proof step: the number of pages fits a u32.
    let _ = ram.pages();
    let pages = ((size + (PAGE_SIZE - 1)) / PAGE_SIZE) as u32;
    for i in 0..pages {
        let rest = size - PAGE_SIZE * i as usize;
        let count = if rest < PAGE_SIZE { rest } else { PAGE_SIZE };
        let source = PageNo(from.tx.0 + i);
        // Proof step: the page has 4096 bytes.
        let _ = ram.page(source);
        ram.copy(source, PageNo(to.rx.0 + i), count);
    }
}
