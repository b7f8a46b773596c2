// SPDX-License-Identifier: MIT OR Apache-2.0
//! FFA_MEM_RETRIEVE_REQ: a receiver takes a transaction.
ghost use Rattle.std.specs.Prelude.{ℕ, ◌≡◌, ◌≢◌, ◌<◌, length, true, is_some, Some, IfOk, OnOk, OnErr, Option};
ghost use Rattle.std.specs.Result.{result_err};
ghost use Rattle.ffa_model.specs.declared.limits.TheConstants.{MOST_ENDPOINTS};
ghost use Rattle.ffa_model.specs.Buffers.{buffers_in, buffers_with_rx};
ghost use Rattle.ffa_model.specs.Calls.{first_failure};
ghost use Rattle.ffa_model.specs.Identifiers.{identifier, manager, place};
ghost use Rattle.ffa_model.specs.MemoryRetrieve.{response_to, retrieve_guards, taken_in, right_for};
ghost use Rattle.ffa_model.specs.RetrieveDescriptor.{endpoints_named, retrieve_of};
ghost use Rattle.ffa_model.specs.State.{Transaction};
ghost use Rattle.ffa_pages.specs.Entry.{owner_at};
ghost use Rattle.ffa_physmem.specs.Moments.{Only};
ghost use Rattle.ffa_rxtx.specs.Stored.{buffers_of};
ghost use Rattle.ffa_memshare.specs.Callers.{IsCaller, IsRxApart, IsRxApartOfOpen};
ghost use Rattle.ffa_memshare.specs.Memory.{memory_of, memory_parts};
ghost use Rattle.ffa_memshare.specs.Ranges.{ArePlaced, in_ranges};
ghost use Rattle.ffa_memshare.specs.Retrieved.{IsPassedOn, IsResponded, IsRetrieved, IsTaken};
ghost use Rattle.ffa_memshare.specs.Scenes.{descriptor_in, scene_in};
ghost use Rattle.ffa_memshare.specs.Shared.{IsHeld, IsShared};
ghost use Rattle.ffa_memshare.specs.Steps.{EndsSettledFor, OnlyMomentsFor};
ghost use Rattle.ffa_memshare.specs.Stored.{open_in, pool_slot, view_of, transaction_in};
ghost use Rattle.ffa_physmem.specs.Work.{AddsAtMost};
ghost use Rattle.ffa_memshare.specs.Work.{LosesNone, retrieved_work};
ghost use Rattle.ffa_stage2.specs.Layout.{IsBuiltFor};
ghost use Rattle.ffa_model.specs.declared.rights.Rights.{Rights as Right};
ghost use Rattle.ffa_model.specs.declared.descriptor.RetrieveDesc.{RetrieveDesc};
ghost use Rattle.ffa_rxtx.specs.Parts.{ownership_in};

use crate::changed::{News, Value};
use crate::descriptor_call::DescriptorCall;
use crate::found::FoundRight;
use crate::grants::NewRight;
use crate::marks::{Mark, mark_all};
use crate::open_slot::OpenSlot;
use crate::page_changes::change_pages;
use crate::pool::Pool;
use crate::respond::deliver;
use crate::transaction::OpenTransaction;
use ffa_model::{Address, EndpointId, ErrorCode, Kind, Response, Rights, Room, Version};
use ffa_pages::{KeptPage, PageTable};
use ffa_physmem::PhysMem;
use ffa_rxtx::Buffers;
use ffa_stage2::Layout;

impl<O: Room<OpenSlot> + Drop> Pool<O> {
    /// Serves FFA_MEM_RETRIEVE_REQ of an endpoint, with the descriptor in its TX. The caller then has the right to the
    /// pages that it requested, and the response in its RX states this right. The pages of a donate then belong to the
    /// caller. Returns the size of the response in bytes. The report of changed access names the caller.
    ///
    /// # Errors
    ///
    /// The first of these that applies. An error changes nothing.
    ///
    /// - `InvalidParameters`: the caller has no buffers, or the registers do not say that the descriptor is whole in
    ///   TX.
    /// - `InvalidParameters`: the bytes in TX are not a retrieve descriptor for the caller.
    /// - `InvalidParameters`: no open transaction with the handle has the caller as a receiver.
    /// - `InvalidParameters`: on a machine of FF-A 1.2, the descriptor names several endpoints that are not exactly the
    ///   receivers.
    /// - `InvalidParameters`: the sender, the tag or the kind is not the transaction's.
    /// - `Denied`: the caller holds the transaction already, or requests more than it may hold.
    /// - `Busy`: the caller's RX is full.
    #[inline(always)]
    pub fn retrieve<M: PhysMem, P: Room<KeptPage> + Drop>(
        &mut self,
        ram: &mut M,
        layout: &Layout,
        pages: &mut PageTable<P>,
        buffers: &mut Buffers,
        caller: EndpointId,
        call: &DescriptorCall,
        news: &mut News,
    ) -> Result<Value, ErrorCode>
        requires shared { IsShared (memory_of (M.ram ram.old) layout.now pages.old) self.old.slots }
        requires caller { IsCaller (memory_of (M.ram ram.old) layout.now pages.old) buffers.old caller.0 }
        ensures refusal { let parts = memory_parts (M.ram ram.old) layout.now pages.old buffers.old self.old in
            let bytes = descriptor_in (M.ram ram.old) buffers.old caller.0 call.now in
            let asked = retrieve_of call.now.ffa caller.0 bytes in
            result_err result ≡ first_failure (retrieve_guards call.now.ffa (scene_in parts) caller.0 call.now.transfer (endpoints_named bytes) asked) }
        ensures kept { OnErr result (self.new ≡ self.old) }
        ensures kept_pages { OnErr result (pages.new ≡ pages.old) }
        ensures kept_buffers { OnErr result (buffers.new ≡ buffers.old) }
        ensures kept_ram { OnErr result (M.ram ram.new ≡ M.ram ram.old) }
        ensures kept_past { OnErr result (M.past ram.new ≡ M.past ram.old) }
        ensures kept_news { OnErr result (news.new ≡ news.old) }
        ensures full { OnOk result (buffers.new ≡ buffers_with_rx buffers.old caller.0 true) }
        ensures done { let before = memory_parts (M.ram ram.old) layout.now pages.old buffers.old self.old in
            let after = memory_parts (M.ram ram.new) layout.now pages.new buffers.new self.new in
            let bytes = descriptor_in (M.ram ram.old) buffers.old caller.0 call.now in
            IfOk result (IsRetrieved call.now.ffa before after caller bytes news.new) }
        ensures steps { let before = memory_parts (M.ram ram.old) layout.now pages.old buffers.old self.old in
            IsRxApartOfOpen before caller.0
            → OnlyMomentsFor layout.now (M.ram ram.old) (M.ram ram.new) (M.past ram.old) (M.past ram.new) }
        ensures ended { let before = memory_parts (M.ram ram.old) layout.now pages.old buffers.old self.old in
            IsRxApartOfOpen before caller.0
            → EndsSettledFor layout.now (M.ram ram.old) (M.ram ram.new) (M.past ram.new) }
        ensures few { let base = layout.now.base.0 in
            let bytes = descriptor_in (M.ram ram.old) buffers.old caller.0 call.now in
            (asked : RetrieveDesc) (t : Transaction) (access : ℕ → ℕ → Option Right)
            → retrieve_of call.now.ffa caller.0 bytes ≡ Some asked → transaction_in self.old.slots asked.handle ≡ Some t
            → IsBuiltFor layout.now (M.ram ram.old) access
            → let right = right_for (ownership_in pages.old base) t caller.0 asked in
            LosesNone (access (place caller.0)) (in_ranges base t.ranges) (λ _. Some right)
            → AddsAtMost (M.past ram.old) (M.past ram.new) (retrieved_work base right t.ranges) }
    {
        let found = self.check_retrieve(ram, layout, pages, buffers, caller, call)?;
        let open = self.at(found.slot);
        let version = call.version;
        let response = &mut news.draft.response;
        let size = open.hand_over(
            ram, layout, pages, buffers, caller, version, &found, response,
        );
        news.told.tell(&open.ranges, Some(caller));
        self.take(pages, layout.base, found.slot, caller, found.right);
        Ok(Value::Size(size))
    }

    // Stores that an endpoint holds the open transaction in a slot with this right. The pages of a donate then belong
    // to the endpoint with this right, and the donate is closed.
    fn take<P: Room<KeptPage> + Drop>(
        &mut self,
        pages: &mut PageTable<P>,
        base: Address,
        slot: usize,
        endpoint: EndpointId,
        right: Rights,
    )
        requires open { (x : ℕ × Transaction) × (pool_slot self.old.slots slot ≡ Some x) }
        requires placed { (h : ℕ) (t : Transaction) → pool_slot self.old.slots slot ≡ Some (h, t)
            → ArePlaced base.0 (length pages.old) t.ranges }
        requires owned { (h : ℕ) (t : Transaction) → pool_slot self.old.slots slot ≡ Some (h, t)
            → (p : ℕ) → in_ranges base.0 t.ranges p ≡ true → owner_at pages.old p ≢ manager }
        requires endpoint { endpoint.0 ≢ manager }
        requires known { identifier (place endpoint.0) ≡ endpoint.0 }
        requires few { place endpoint.0 < MOST_ENDPOINTS }
        ensures slot { (h : ℕ) (t : Transaction) → pool_slot self.old.slots slot ≡ Some (h, t)
            → IsTaken t.kind self.old self.new h endpoint.0 right }
        ensures open_transactions { (h : ℕ) (t : Transaction) → pool_slot self.old.slots slot ≡ Some (h, t)
            → open_in self.new ≡ taken_in t.kind (open_in self.old) h t endpoint.0 right }
        ensures pages { (h : ℕ) (t : Transaction) → pool_slot self.old.slots slot ≡ Some (h, t)
            → IsPassedOn t.kind pages.old pages.new (in_ranges base.0 t.ranges) endpoint right }
    {
        let open = self.at(slot);
        match open.kind {
            Kind::Donate => {
                mark_all(pages, base, &open.ranges, Mark::Given(endpoint, right));
                self.close(slot);
            }
            Kind::Share | Kind::Lend => self.set_held(slot, endpoint, Some(right)),
        }
    }
}

impl OpenTransaction {
    // Sets the right of an endpoint to the pages as the checks found it, and writes the response into the endpoint's
    // RX. The response has the endpoint's version, and RX is then full. Returns the size of the response in bytes. The
    // response is built in place.
    fn hand_over<M: PhysMem, P: Room<KeptPage> + Drop>(
        &self,
        ram: &mut M,
        layout: &Layout,
        pages: &PageTable<P>,
        buffers: &mut Buffers,
        caller: EndpointId,
        version: Version,
        found: &FoundRight,
        response: &mut Response,
    ) -> u32
        requires held { IsHeld (memory_of (M.ram ram.old) layout.now pages.now) (view_of self.now) }
        requires caller { IsCaller (memory_of (M.ram ram.old) layout.now pages.now) buffers.old caller.0 }
        requires own { Some (buffers_of found.now.own) ≡ buffers_in buffers.old caller.0 }
        ensures answered { let before = memory_of (M.ram ram.old) layout.now pages.now in
            let told = response_to self.now.handle (view_of self.now) caller.0 found.now.right in
            IsResponded before (M.ram ram.new) (buffers_in buffers.old caller.0) version caller.0 found.now.right told result }
        ensures full { buffers.new ≡ buffers_with_rx buffers.old caller.0 true }
        ensures steps { let before = memory_of (M.ram ram.old) layout.now pages.now in
            IsRxApart before (buffers_in buffers.old caller.0) (in_ranges layout.now.base.0 self.now.ranges)
            → OnlyMomentsFor layout.now (M.ram ram.old) (M.ram ram.new) (M.past ram.old) (M.past ram.new) }
        ensures ended { let before = memory_of (M.ram ram.old) layout.now pages.now in
            IsRxApart before (buffers_in buffers.old caller.0) (in_ranges layout.now.base.0 self.now.ranges)
            → EndsSettledFor layout.now (M.ram ram.old) (M.ram ram.new) (M.past ram.new) }
        ensures few { (access : ℕ → ℕ → Option Right) → IsBuiltFor layout.now (M.ram ram.old) access
            → LosesNone (access (place caller.0)) (in_ranges layout.now.base.0 self.now.ranges) (λ _. Some found.now.right)
            → AddsAtMost (M.past ram.old) (M.past ram.new) (retrieved_work layout.now.base.0 found.now.right self.now.ranges) }
    {
        // Proof step: the ranges are `MOST_RANGES` at most.
        let _ = self.ranges.len();
        let index = caller.place();
        let to_caller = NewRight::Same(Some(found.right));
        change_pages(ram, layout, pages, &self.ranges, index, to_caller, false);
        response.sender = self.sender;
        response.kind = self.kind;
        response.zero = self.zero;
        response.normal = self.normal;
        response.handle = self.handle;
        response.tag = self.tag;
        response.endpoint = caller;
        response.rights = found.right;
        response.ranges.clear();
        self.ranges.list_in(&mut response.ranges);
        let size = deliver(ram, buffers, caller, found.own, version, response);
        response.ranges.clear();
        size
    }
}
