// SPDX-License-Identifier: MIT OR Apache-2.0
//! Writes the responses of retrieves into RX.
ghost use Rattle.std.specs.Prelude.{◌≡◌, ◌<◌, ◌^◌, length, true, Some, IsSomeAnd};
ghost use Rattle.ffa_model.specs.Buffers.{buffers_in, buffers_with_rx};
ghost use Rattle.ffa_model.specs.HypervisorRetrieve.{sent_transaction_record};
ghost use Rattle.ffa_model.specs.ResponseBytes.{response_bytes, response_record, response_size};
ghost use Rattle.ffa_model.specs.SendDescriptor.{page_total};
ghost use Rattle.ffa_model.specs.State.{is_known_among};
ghost use Rattle.ffa_physmem.specs.Moments.{Only};
ghost use Rattle.ffa_physmem.specs.Work.{AddsAtMost, loans_of};
ghost use Rattle.ffa_rxtx.specs.Parts.{IsBesideRx, IsInRam, IsRxWriting, with_rx_bytes};
ghost use Rattle.ffa_rxtx.specs.Stored.{buffers_of};

use ffa_memdesc::{write_response, write_sent};
use ffa_model::{EndpointId, Response, SentTransaction, Version};
use ffa_physmem::PhysMem;
use ffa_rxtx::{Buffers, Mapped};

/// Writes a response in this version to the start of RX of an endpoint with these buffers. RX is then full. Returns the
/// size of the response in bytes. The other bytes of RX stay.
pub fn deliver<M: PhysMem>(
    ram: &mut M,
    buffers: &mut Buffers,
    endpoint: EndpointId,
    own: Mapped,
    version: Version,
    response: &Response,
) -> u32
    requires known { is_known_among (length buffers.old) endpoint.0 ≡ true }
    requires own { Some (buffers_of own) ≡ buffers_in buffers.old endpoint.0 }
    requires rx { IsSomeAnd (buffers_in buffers.old endpoint.0) (λ b. IsInRam (length (M.ram ram.old).pages) b) }
    requires total { page_total response.now.ranges.items < 2 ^ 32 }
    ensures size { result ≡ response_size version 1 response.now.ranges.items }
    ensures ram { let bytes = response_bytes version (response_record response.now) in
        M.ram ram.new ≡ with_rx_bytes (M.ram ram.old) (buffers_in buffers.old endpoint.0) bytes }
    ensures full { buffers.new ≡ buffers_with_rx buffers.old endpoint.0 true }
    ensures beside { IsBesideRx (M.ram ram.old) (M.ram ram.new) (buffers_in buffers.old endpoint.0) }
    ensures steps { let own = buffers_in buffers.old endpoint.0 in
        Only (M.past ram.old) (M.past ram.new) (λ _ s. IsRxWriting (M.ram ram.old) own s) }
    ensures few { AddsAtMost (M.past ram.old) (M.past ram.new) (loans_of 1) }
{
    // Proof step: the ranges are `MOST_RANGES` at most.
    let _ = response.ranges.as_slice();
    let size = write_response(response, version, ram.page_mut(own.rx));
    buffers.mark_full(endpoint);
    size as u32
}

/// Writes a transaction as it was sent, in this version, to the start of RX of an endpoint with these buffers. RX is
/// then full. Returns the size of the response in bytes. The other bytes of RX stay.
pub fn deliver_sent<M: PhysMem>(
    ram: &mut M,
    buffers: &mut Buffers,
    endpoint: EndpointId,
    own: Mapped,
    version: Version,
    sent: &SentTransaction,
) -> u32
    requires known { is_known_among (length buffers.old) endpoint.0 ≡ true }
    requires own { Some (buffers_of own) ≡ buffers_in buffers.old endpoint.0 }
    requires rx { IsSomeAnd (buffers_in buffers.old endpoint.0) (λ b. IsInRam (length (M.ram ram.old).pages) b) }
    requires total { page_total sent.now.ranges.items < 2 ^ 32 }
    ensures size { result ≡ response_size version (length sent.now.receivers.items) sent.now.ranges.items }
    ensures ram { let bytes = response_bytes version (sent_transaction_record sent.now) in
        M.ram ram.new ≡ with_rx_bytes (M.ram ram.old) (buffers_in buffers.old endpoint.0) bytes }
    ensures full { buffers.new ≡ buffers_with_rx buffers.old endpoint.0 true }
    ensures steps { let own = buffers_in buffers.old endpoint.0 in
        Only (M.past ram.old) (M.past ram.new) (λ _ s. IsRxWriting (M.ram ram.old) own s) }
    ensures few { AddsAtMost (M.past ram.old) (M.past ram.new) (loans_of 1) }
{
    // Proof step: the ranges are `MOST_RANGES` at most, and the receivers `MOST_RECEIVERS`.
    let _ = sent.ranges.as_slice();
    let _ = sent.receivers.as_slice();
    let size = write_sent(sent, version, ram.page_mut(own.rx));
    buffers.mark_full(endpoint);
    size as u32
}
