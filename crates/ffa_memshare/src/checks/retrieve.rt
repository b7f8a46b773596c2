// SPDX-License-Identifier: MIT OR Apache-2.0
//! The checks of FFA_MEM_RETRIEVE_REQ: the right that a receiver requests, and the greatest right that it may hold.
ghost use Rattle.ffa_rxtx.specs.Parts.{ownership_in};
ghost use Rattle.std.specs.Prelude.{◌≡◌, ℕ, length, true, is_some, OnOk, IfOk, IfSome, Some};
ghost use Rattle.std.specs.FinMap as finite;
ghost use Rattle.std.specs.Result.{result_err};
ghost use Rattle.ffa_model.specs.Access.{is_receiver};
ghost use Rattle.ffa_model.specs.Buffers.{buffers_in};
ghost use Rattle.ffa_model.specs.Calls.{first_refusal};
ghost use Rattle.ffa_model.specs.DescriptorPlaces.{IsHeader, Versioned, in_version};
ghost use Rattle.ffa_model.specs.MemoryRetrieve.{asked_right, holding_guards, is_kind_right, names_receivers, retrieve_guards, right_for};
ghost use Rattle.ffa_model.specs.RetrieveDescriptor.{endpoints_named, retrieve_of};
ghost use Rattle.ffa_model.specs.Rights.{is_at_most};
ghost use Rattle.ffa_model.specs.Transactions.{ceiling, grant_to};
ghost use Rattle.ffa_rxtx.specs.Stored.{buffers_of};
ghost use Rattle.ffa_memshare.specs.Callers.{IsCaller};
ghost use Rattle.ffa_memshare.specs.Found.{IsAskedFor};
ghost use Rattle.ffa_memshare.specs.Memory.{memory_of, memory_parts};
ghost use Rattle.ffa_memshare.specs.Ranges.{ArePlaced};
ghost use Rattle.ffa_memshare.specs.Scenes.{descriptor_in, scene_in};
ghost use Rattle.ffa_memshare.specs.Shared.{AreRangesInRam};
ghost use Rattle.ffa_memshare.specs.Stored.{map_in};

use crate::descriptor_call::{Descriptor, DescriptorCall};
use crate::found::FoundRight;
use crate::open_slot::OpenSlot;
use crate::page_run::{names_receivers, read_retrieve};
use crate::pool::Pool;
use crate::transaction::OpenTransaction;
use ffa_model::{Address, Data, EndpointId, Ffa, Kind, Refusal, RetrieveDesc, Rights, Room};
use ffa_pages::{KeptPage, PageTable};
use ffa_physmem::PhysMem;
use ffa_rxtx::Buffers;
use ffa_stage2::Layout;

impl<O: Room<OpenSlot> + Drop> Pool<O> {
    /// Checks that an endpoint may retrieve what the descriptor in its TX requests. Returns the slot of the
    /// transaction, the right that the endpoint gets, and the caller's buffers.
    ///
    /// # Errors
    ///
    /// The first check of FFA_MEM_RETRIEVE_REQ that fails.
    pub fn check_retrieve<M: PhysMem, P: Room<KeptPage> + Drop>(
        &self,
        ram: &M,
        layout: &Layout,
        pages: &PageTable<P>,
        buffers: &Buffers,
        caller: EndpointId,
        call: &DescriptorCall,
    ) -> Result<FoundRight, Refusal>
        requires placed { AreRangesInRam self.now.slots layout.now.base.0 (length pages.now) }
        requires caller { IsCaller (memory_of (M.ram ram.now) layout.now pages.now) buffers.now caller.0 }
        ensures refusal { let parts = memory_parts (M.ram ram.now) layout.now pages.now buffers.now self.now in
            let bytes = descriptor_in (M.ram ram.now) buffers.now caller.0 call.now in
            let asked = retrieve_of call.now.ffa caller.0 bytes in
            result_err result ≡ first_refusal (retrieve_guards call.now.ffa (scene_in parts) caller.0 call.now.transfer (endpoints_named bytes) asked) }
        ensures own { IfOk result (λ found. Some (buffers_of found.own) ≡ buffers_in buffers.now caller.0) }
        ensures found { let owners = ownership_in pages.now layout.now.base.0 in
            let bytes = descriptor_in (M.ram ram.now) buffers.now caller.0 call.now in
            IfOk result (IsAskedFor call.now.ffa self.now.slots owners caller.0 bytes) }
    {
        let found = call.descriptor(ram, buffers, caller)?;
        let Ok(asked) = read_retrieve(&found.bytes, call.ffa, call.version, caller) else {
            return Err(Refusal::DescriptorMalformed);
        };
        self.check_asked(pages, layout.base, call, &found, caller, &asked)
    }

    // Checks that an endpoint may retrieve what a descriptor requests. An error is the first check that fails.
    #[inline(always)]
    pub(crate) fn check_asked<M: PhysMem, P: Room<KeptPage> + Drop>(
        &self,
        pages: &PageTable<P>,
        base: Address,
        call: &DescriptorCall,
        descriptor: &Descriptor<M>,
        caller: EndpointId,
        asked: &RetrieveDesc,
    ) -> Result<FoundRight, Refusal>
        requires placed { AreRangesInRam self.now.slots base.0 (length pages.now) }
        requires header { IsHeader (in_version call.now.version descriptor.now.bytes) }
        ensures refusal { let owners = ownership_in pages.now base.0 in
            let named = endpoints_named (in_version call.now.version descriptor.now.bytes) in
            let transaction = finite.get (map_in self.now.slots) asked.now.handle in
            result_err result ≡ first_refusal (holding_guards call.now.ffa owners descriptor.now.own.is_full caller.0 named asked.now transaction) }
        ensures own { IfOk result (λ found. found.own ≡ descriptor.now.own) }
        ensures found { (bytes : Versioned) → retrieve_of call.now.ffa caller.0 bytes ≡ Some asked.now
            → IfOk result (IsAskedFor call.now.ffa self.now.slots (ownership_in pages.now base.0) caller.0 bytes) }
    {
        let Some(slot) = self.find(asked.handle) else {
            return Err(Refusal::HandleUnknown);
        };
        let open = self.at(slot);
        let right = open.check_retrieve(pages, base, call, descriptor, caller, asked)?;
        let own = descriptor.own;
        Ok(FoundRight { slot, right, own })
    }
}

impl OpenTransaction {
    ghost use Rattle.ffa_memshare.specs.Stored.{view_of};

    // Returns the data right that the sender grants to an endpoint, or `None` if the endpoint is not a receiver. If the
    // sender names no right, the result is read-only.
    #[tactic(auto, using(crate::proofs::Receivers::found_any))]
    pub(crate) fn grant_to(&self, endpoint: EndpointId) -> Option<Data>
        ensures known { is_some result ≡ is_receiver endpoint.0 (view_of self.now) }
        ensures granted { IfSome result (λ granted. granted ≡ grant_to (view_of self.now) endpoint.0) }
    {
        let receiver = self.receiver(endpoint)?;
        Some(receiver.grant.unwrap_or(Data::Ro))
    }

    // Returns the greatest right that an endpoint may hold, if the sender grants this data right to it.
    pub(crate) fn ceiling<P: Room<KeptPage> + Drop>(
        &self,
        pages: &PageTable<P>,
        base: Address,
        granted: Data,
    ) -> Rights
        requires { ArePlaced base.0 (length pages.now) self.now.ranges }
        ensures { (e : ℕ) → grant_to (view_of self.now) e ≡ granted
            → result ≡ ceiling (ownership_in pages.now base.0) (view_of self.now) e }
    {
        match self.kind {
            Kind::Share => Rights {
                level: granted,
                exec: false,
            },
            Kind::Lend => Rights {
                level: granted,
                exec: self.receivers.len() == 1 && self.common(pages, base).is_executable,
            },
            Kind::Donate => self.common(pages, base).right(),
        }
    }

    // Returns the right that an endpoint gets by the descriptor in its TX. An error is the first check that fails.
    fn check_retrieve<M: PhysMem, P: Room<KeptPage> + Drop>(
        &self,
        pages: &PageTable<P>,
        base: Address,
        call: &DescriptorCall,
        descriptor: &Descriptor<M>,
        caller: EndpointId,
        asked: &RetrieveDesc,
    ) -> Result<Rights, Refusal>
        requires placed { ArePlaced base.0 (length pages.now) self.now.ranges }
        requires header { IsHeader (in_version call.now.version descriptor.now.bytes) }
        ensures refusal { let owners = ownership_in pages.now base.0 in
            let named = endpoints_named (in_version call.now.version descriptor.now.bytes) in
            let transaction = Some (view_of self.now) in
            result_err result ≡ first_refusal (holding_guards call.now.ffa owners descriptor.now.own.is_full caller.0 named asked.now transaction) }
        ensures right { let owners = ownership_in pages.now base.0 in
            IfOk result (λ right. right ≡ right_for owners (view_of self.now) caller.0 asked.now) }
    {
        let Some(granted) = self.grant_to(caller) else {
            return Err(Refusal::NotReceiver);
        };
        if !self.is_named_right(call, descriptor) {
            return Err(Refusal::ReceiversDiffer);
        }
        if asked.sender != self.sender {
            return Err(Refusal::TransactionSenderDiffers);
        }
        if asked.tag != self.tag {
            return Err(Refusal::TagDiffers);
        }
        if !is_kind_right(self.kind, asked.kind) {
            return Err(Refusal::KindDiffers);
        }
        if self.held_right(caller).is_some() {
            return Err(Refusal::AlreadyRetrieved);
        }
        let most = self.ceiling(pages, base, granted);
        let right = asked_right(most, asked);
        if !is_at_most(right, most) {
            return Err(Refusal::RightTooMuch);
        }
        if descriptor.own.is_full {
            return Err(Refusal::RxFull);
        }
        Ok(right)
    }

    // Whether the descriptor names the correct endpoints. On a machine of FF-A 1.2, it must name only the caller, or
    // exactly the receivers.
    #[inline(always)]
    fn is_named_right<M: PhysMem>(&self, call: &DescriptorCall, descriptor: &Descriptor<M>) -> bool
        requires { IsHeader (in_version call.now.version descriptor.now.bytes) }
        ensures { let named = endpoints_named (in_version call.now.version descriptor.now.bytes) in
            result ≡ names_receivers call.now.ffa named (view_of self.now) }
    {
        match call.ffa {
            Ffa::V1_1 => true,
            Ffa::V1_2 => {
                names_receivers(&descriptor.bytes, call.version, self.receivers.as_slice())
            }
        }
    }
}

// Returns the right that a retrieve requests. If the descriptor does not specify the data right, it is the greatest
// one. If it does not specify the instruction right, the pages are not executable.
pub(crate) fn asked_right(most: Rights, asked: &RetrieveDesc) -> Rights
    ensures { result ≡ asked_right most asked.now }
{
    Rights {
        level: asked.level.unwrap_or(most.level),
        exec: asked.exec,
    }
}

// Whether a right is at most another right.
fn is_at_most(right: Rights, most: Rights) -> bool
    ensures { result ≡ is_at_most right most }
{
    let is_less = match right.level {
        Data::Ro => true,
        Data::Rw => most.level == Data::Rw,
    };
    is_less && (!right.exec || most.exec)
}

// Whether a retrieve may name this kind. If it specifies no kind, each kind is correct.
fn is_kind_right(kind: Kind, asked: Option<Kind>) -> bool
    ensures { result ≡ is_kind_right kind asked }
{
    match asked {
        Some(asked) => kind == asked,
        None => true,
    }
}
