// SPDX-License-Identifier: MIT OR Apache-2.0
//! FFA_MEM_RETRIEVE_REQ of a hypervisor: the normal world of a machine of FF-A 1.2 reads back what it sent (DEN0077A,
//! 16).
ghost use Rattle.std.specs.Prelude.{◌≡◌, ◌<◌, ◌^◌, ℕ, length, true, Some, IfOk, OnOk, OnErr};
ghost use Rattle.std.specs.Result.{result_err};
ghost use Rattle.ffa_model.specs.Buffers.{buffers_in, buffers_with_rx, is_full};
ghost use Rattle.ffa_model.specs.Calls.{first_failure, first_refusal};
ghost use Rattle.ffa_model.specs.HypervisorRetrieve.{back_guards, handle_alone, is_asked_back, sent_record, sent_transaction_record};
ghost use Rattle.ffa_model.specs.State.{Transaction};
ghost use Rattle.ffa_physmem.specs.Moments.{Only};
ghost use Rattle.ffa_rxtx.specs.Parts.{IsRxWriting};
ghost use Rattle.ffa_rxtx.specs.Stored.{buffers_of};
ghost use Rattle.ffa_memshare.specs.Callers.{IsCaller};
ghost use Rattle.ffa_memshare.specs.Memory.{memory_of};
ghost use Rattle.ffa_memshare.specs.Retrieved.{IsReadBack, IsToldBack};
ghost use Rattle.ffa_memshare.specs.Scenes.{descriptor_in};
ghost use Rattle.ffa_memshare.specs.Shared.{IsShared};
ghost use Rattle.ffa_memshare.specs.Stored.{pool_slot, transaction_in, view_of};
ghost use Rattle.ffa_physmem.specs.Work.{AddsAtMost, loans_of};

use crate::changed::Value;
use crate::descriptor_call::DescriptorCall;
use crate::found::FoundSent;
use crate::open_slot::OpenSlot;
use crate::pool::Pool;
use crate::respond::deliver_sent;
use crate::transaction::{OpenTransaction, copy_of};
use arrayvec::ArrayVec;
use ffa_model::{EndpointId, ErrorCode, Refusal, Room, SentTransaction};
use ffa_pages::{KeptPage, PageTable};
use ffa_physmem::PhysMem;
use ffa_rxtx::Buffers;
use ffa_stage2::Layout;

impl<O: Room<OpenSlot> + Drop> Pool<O> {
    /// Checks a hypervisor's FFA_MEM_RETRIEVE_REQ: the caller sent the open transaction that the descriptor in its TX
    /// names, and its RX is not full. Returns the slot of the transaction, and the caller's buffers.
    ///
    /// # Errors
    ///
    /// The first check of a hypervisor's FFA_MEM_RETRIEVE_REQ that fails.
    pub fn check_read_back<M: PhysMem, P: Room<KeptPage> + Drop>(
        &self,
        ram: &M,
        layout: &Layout,
        pages: &PageTable<P>,
        buffers: &Buffers,
        caller: EndpointId,
        call: &DescriptorCall,
    ) -> Result<FoundSent, Refusal>
        requires caller { IsCaller (memory_of (M.ram ram.now) layout.now pages.now) buffers.now caller.0 }
        requires asked { let descriptor = descriptor_in (M.ram ram.now) buffers.now caller.0 call.now in
            is_asked_back call.now.ffa buffers.now caller.0 call.now.transfer descriptor ≡ true }
        ensures refusal { let asked = handle_alone (descriptor_in (M.ram ram.now) buffers.now caller.0 call.now) in
            let full = is_full (buffers_in buffers.now caller.0) in
            result_err result ≡ first_refusal (back_guards full caller.0 (transaction_in self.now.slots) asked) }
        ensures own { IfOk result (λ found. Some (buffers_of found.own) ≡ buffers_in buffers.now caller.0) }
        ensures slot { let asked = handle_alone (descriptor_in (M.ram ram.now) buffers.now caller.0 call.now) in
            IfOk result (λ found. (h : ℕ) × (t : Transaction)
            × (asked ≡ Some h) × (pool_slot self.now.slots found.slot ≡ Some (h, t))) }
    {
        let found = call.descriptor(ram, buffers, caller)?;
        let Some(handle) = ffa_memdesc::read_handle_alone(&found.bytes, call.version) else {
            return Err(Refusal::DescriptorMalformed);
        };
        let Some(slot) = self.find(handle) else {
            return Err(Refusal::NotTheSenders);
        };
        let open = self.at(slot);
        if open.sender != caller {
            return Err(Refusal::NotTheSenders);
        }
        let own = found.own;
        if own.is_full {
            return Err(Refusal::RxFull);
        }
        Ok(FoundSent { slot, own })
    }

    /// Serves a hypervisor's FFA_MEM_RETRIEVE_REQ. Writes the transaction with all its receivers into the caller's RX,
    /// which is then full. No other part of the state changes. Returns the size of the response in bytes.
    ///
    /// # Errors
    ///
    /// The first of these that applies. An error changes nothing.
    ///
    /// - `InvalidParameters`: a byte of the header other than the handle is not 0.
    /// - `InvalidParameters`: no open transaction of the caller has the handle.
    /// - `Busy`: the caller's RX is full.
    pub fn read_back<M: PhysMem, P: Room<KeptPage> + Drop>(
        &self,
        ram: &mut M,
        layout: &Layout,
        pages: &PageTable<P>,
        buffers: &mut Buffers,
        caller: EndpointId,
        call: &DescriptorCall,
    ) -> Result<u32, ErrorCode>
        requires shared { IsShared (memory_of (M.ram ram.old) layout.now pages.now) self.now.slots }
        requires caller { IsCaller (memory_of (M.ram ram.old) layout.now pages.now) buffers.old caller.0 }
        requires asked { let descriptor = descriptor_in (M.ram ram.old) buffers.old caller.0 call.now in
            is_asked_back call.now.ffa buffers.old caller.0 call.now.transfer descriptor ≡ true }
        ensures refusal { let asked = handle_alone (descriptor_in (M.ram ram.old) buffers.old caller.0 call.now) in
            let full = is_full (buffers_in buffers.old caller.0) in
            result_err result ≡ first_failure (back_guards full caller.0 (transaction_in self.now.slots) asked) }
        ensures kept_buffers { OnErr result (buffers.new ≡ buffers.old) }
        ensures kept_ram { OnErr result (M.ram ram.new ≡ M.ram ram.old) }
        ensures kept_past { OnErr result (M.past ram.new ≡ M.past ram.old) }
        ensures full { OnOk result (buffers.new ≡ buffers_with_rx buffers.old caller.0 true) }
        ensures done { let bytes = descriptor_in (M.ram ram.old) buffers.old caller.0 call.now in
            IfOk result (IsReadBack (M.ram ram.old) (M.ram ram.new) buffers.old self.now caller bytes) }
        ensures steps { let own = buffers_in buffers.old caller.0 in
            Only (M.past ram.old) (M.past ram.new) (λ _ s. IsRxWriting (M.ram ram.old) own s) }
        ensures few { AddsAtMost (M.past ram.old) (M.past ram.new) (loans_of 1) }
    {
        let found = self.check_read_back(ram, layout, pages, buffers, caller, call)?;
        let open = self.at(found.slot);
        // Proof step: the ranges are `MOST_RANGES` at most.
        let _ = open.ranges.len();
        let sent = open.sent();
        Ok(deliver_sent(ram, buffers, caller, found.own, call.version, &sent))
    }
}

impl OpenTransaction {
    // Returns the transaction as it was sent.
    fn sent(&self) -> SentTransaction
        ensures told { sent_transaction_record result ≡ sent_record self.now.handle (view_of self.now) }
        ensures receivers { result.receivers ≡ self.now.receivers }
        ensures ranges { result.ranges.items ≡ self.now.ranges }
    {
        let mut ranges = ArrayVec::new();
        self.ranges.list_in(&mut ranges);
        SentTransaction {
            sender: self.sender,
            kind: self.kind,
            zero: self.zero,
            normal: self.normal,
            handle: self.handle,
            tag: self.tag,
            receivers: copy_of(&self.receivers),
            ranges,
        }
    }
}
