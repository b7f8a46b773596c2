// SPDX-License-Identifier: MIT OR Apache-2.0
//! Explains a check that refuses a call on memory. The explanation is about what the call names: a descriptor in TX, or
//! the handle of a transaction.
ghost use Rattle.std.specs.Prelude.{◌≡◌, Some, None, find, is_some, length, not, true, if◌then◌else◌};
ghost use Rattle.std.specs.Option.{option_and_then, option_map};
ghost use Rattle.std.specs.FinMap as finite;
ghost use Rattle.arrayvec.specs.ArrayVec.{array_vec_len};
ghost use Rattle.ffa_model.specs.declared.transaction.Receiver.{Receiver as Named};
ghost use Rattle.ffa_model.specs.About.{failing_reclaim};
ghost use Rattle.ffa_model.specs.AboutContents.{about_asked_back, about_field, about_relinquish, about_retrieve, is_known_receiver, named_by_relinquish, named_by_retrieve, named_by_send, unknown_receiver, where_mapped, where_whole};
ghost use Rattle.ffa_model.specs.Access.{held_by, is_receiver};
ghost use Rattle.ffa_model.specs.Buffers.{buffers_in, is_full};
ghost use Rattle.ffa_model.specs.Calls.{first_refusal};
ghost use Rattle.ffa_model.specs.DescriptorPlaces.{in_version};
ghost use Rattle.ffa_model.specs.HypervisorRetrieve.{back_guards, handle_alone, is_asked_back};
ghost use Rattle.ffa_model.specs.MemoryRetrieve.{retrieve_guards, right_for};
ghost use Rattle.ffa_model.specs.MemorySend.{send_guards};
ghost use Rattle.ffa_model.specs.MemoryReturn.{relinquish_guards};
ghost use Rattle.ffa_model.specs.RelinquishDescriptor.{relinquish_of};
ghost use Rattle.ffa_model.specs.RetrieveDescriptor.{endpoints_named, retrieve_of};
ghost use Rattle.ffa_model.specs.SendDescriptor.{send_of, send_record};
ghost use Rattle.ffa_model.specs.State.{Buffers as Own};
ghost use Rattle.ffa_model.specs.Transactions.{ceiling};
ghost use Rattle.ffa_mend.specs.Explained.{explained};
ghost use Rattle.ffa_mend.specs.Mend.{mend_asked, mend_asked_back, mend_given_back, mend_held, mend_offered, mend_retrieve, mend_return, mend_sent, mend_zeros};
ghost use Rattle.ffa_rxtx.specs.Parts.{IsInRam, ownership_in, tx_in};
ghost use Rattle.ffa_memshare.specs.Callers.{IsCaller};
ghost use Rattle.ffa_memshare.specs.Found.{sent_told};
ghost use Rattle.ffa_memshare.specs.Memory.{memory_of, memory_parts};
ghost use Rattle.ffa_memshare.specs.Ranges.{ArePlaced};
ghost use Rattle.ffa_memshare.specs.Scenes.{descriptor_in, scene_in};
ghost use Rattle.ffa_memshare.specs.Shared.{AreRangesInRam};
ghost use Rattle.ffa_memshare.specs.Stored.{map_in, open_in, view_of};

use crate::checks::retrieve::asked_right;
use crate::descriptor_call::DescriptorCall;
use crate::draft::Draft;
use crate::open_slot::OpenSlot;
use crate::page_run::{PageRun, read_relinquish, read_retrieve, read_send};
use crate::pool::Pool;
use crate::reasons::failing::{failing_offer, failing_reclaim, mend_offer};
use crate::transaction::OpenTransaction;
use ffa_memdesc::{FieldPlace, field_value, flaw_place};
use ffa_mend::{Cause, Explained, Mend};
use ffa_model::{
    About, Address, EndpointId, Flaw, Handle, Kind, Receiver, Refusal, RelinquishDesc,
    RetrieveDesc, RetrieveFlaw, Room, SendDesc, Version,
};
use ffa_pages::{KeptPage, PageTable};
use ffa_physmem::PhysMem;
use ffa_rxtx::Buffers;
use ffa_stage2::Layout;

// The field of a header that has the number of receivers.
const COUNT: FieldPlace = FieldPlace { first: 28, size: 4 };

impl<O: Room<OpenSlot> + Drop> Pool<O> {
    /// Returns the first check of FFA_MEM_DONATE, FFA_MEM_LEND or FFA_MEM_SHARE of an endpoint that fails, or `None`.
    /// With it, returns the field of a broken condition, an endpoint that the descriptor names, or the first page that
    /// fails the check. If a range is outside RAM, returns its first address outside RAM. If pages are of the wrong
    /// world, returns whether all of them are secure.
    pub fn why_send<M: PhysMem, P: Room<KeptPage> + Drop>(
        &self,
        ram: &M,
        layout: &Layout,
        pages: &PageTable<P>,
        buffers: &Buffers,
        caller: EndpointId,
        kind: Kind,
        call: &DescriptorCall,
    ) -> Option<(Refusal, Explained)>
        requires caller { IsCaller (memory_of (M.ram ram.now) layout.now pages.now) buffers.now caller.0 }
        requires endpoints { length self.now.sent ≡ array_vec_len layout.now.regions }
        ensures { let scene = scene_in (memory_parts (M.ram ram.now) layout.now pages.now buffers.now self.now) in
            let bytes = descriptor_in (M.ram ram.now) buffers.now caller.0 call.now in
            let told = sent_told scene caller.0 call.now.ffa kind call.now.transfer bytes in
            result ≡ option_map told (first_refusal (send_guards call.now.ffa scene caller.0 call.now.transfer (send_of call.now.ffa kind bytes))) }
    {
        let found = match call.descriptor(ram, buffers, caller) {
            Ok(found) => found,
            Err(refusal) => return Some((refusal, Explained::of(None, None))),
        };
        let receivers = field_value(&found.bytes, &COUNT);
        let mut draft = Draft::none();
        let offer = &mut draft.offer;
        if let Err(flaw) = read_send(&found.bytes, call.ffa, call.version, kind, offer) {
            let told = Explained {
                about: Some(about_field(&found.bytes, call.version, flaw)),
                page: None,
                mend: None,
                receivers,
            };
            return Some((Refusal::DescriptorMalformed, told));
        }
        let offer = &draft.offer;
        let opened = &mut draft.transaction;
        let checked = self.check_offered(
            call.ffa, layout, pages, buffers, caller, kind, offer, opened,
        );
        let refusal = checked.err()?;
        let told = Explained {
            about: named_by_send(offer, layout.regions.len(), refusal),
            page: failing_offer(offer, pages, layout, buffers, caller, refusal),
            mend: mend_offer(offer, pages, layout, refusal),
            receivers,
        };
        Some((refusal, told))
    }

    /// Returns the first check of FFA_MEM_RETRIEVE_REQ of an endpoint that fails, or `None`. With it, returns the field
    /// of a broken condition, or an endpoint or a handle that the descriptor names, and what the transaction has
    /// instead.
    pub fn why_retrieve<M: PhysMem, P: Room<KeptPage> + Drop>(
        &self,
        ram: &M,
        layout: &Layout,
        pages: &PageTable<P>,
        buffers: &Buffers,
        caller: EndpointId,
        call: &DescriptorCall,
    ) -> Option<(Refusal, Explained)>
        requires placed { AreRangesInRam self.now.slots layout.now.base.0 (length pages.now) }
        requires caller { IsCaller (memory_of (M.ram ram.now) layout.now pages.now) buffers.now caller.0 }
        ensures { let scene = scene_in (memory_parts (M.ram ram.now) layout.now pages.now buffers.now self.now) in
            let named = finite.get (map_in self.now.slots) in
            let x = call.now.transfer in
            let bytes = descriptor_in (M.ram ram.now) buffers.now caller.0 call.now in
            result ≡ option_map (λ refusal. (
              refusal,
              explained (where_whole buffers.now caller.0 x (about_retrieve call.now.ffa caller.0 bytes refusal)) None
                  (mend_asked call.now.ffa buffers.now scene.ram named caller.0 x bytes refusal),
            ))
            (first_refusal (retrieve_guards call.now.ffa scene caller.0 x (endpoints_named bytes) (retrieve_of call.now.ffa caller.0 bytes))) }
    {
        let found = match call.descriptor(ram, buffers, caller) {
            Ok(found) => found,
            Err(refusal) => return Some((refusal, Explained::of(None, None))),
        };
        match read_retrieve(&found.bytes, call.ffa, call.version, caller) {
            Ok(asked) => {
                let checked = self.check_asked(pages, layout.base, call, &found, caller, &asked);
                let refusal = checked.err()?;
                let mend = self.mend_asked(pages, layout.base, caller, &asked, refusal);
                let told = Explained::of(named_by_retrieve(&asked, refusal), mend);
                Some((refusal, told))
            }
            Err(flaw) => {
                let about = about_field(&found.bytes, call.version, flaw);
                let told = Explained::of(Some(about), None);
                Some((Refusal::DescriptorMalformed, told))
            }
        }
    }

    /// Returns the first check of a hypervisor's FFA_MEM_RETRIEVE_REQ that fails, or `None`. With it, returns the
    /// header that is not 0, or the handle and the sender of its transaction.
    pub fn why_read_back<M: PhysMem, P: Room<KeptPage> + Drop>(
        &self,
        ram: &M,
        layout: &Layout,
        pages: &PageTable<P>,
        buffers: &Buffers,
        caller: EndpointId,
        call: &DescriptorCall,
    ) -> Option<(Refusal, Explained)>
        requires caller { IsCaller (memory_of (M.ram ram.now) layout.now pages.now) buffers.now caller.0 }
        requires asked { let descriptor = descriptor_in (M.ram ram.now) buffers.now caller.0 call.now in
            is_asked_back call.now.ffa buffers.now caller.0 call.now.transfer descriptor ≡ true }
        ensures { let bytes = descriptor_in (M.ram ram.now) buffers.now caller.0 call.now in
            let full = is_full (buffers_in buffers.now caller.0) in
            let named = finite.get (map_in self.now.slots) in
            result ≡ option_map (λ refusal. (
              refusal,
              explained (about_asked_back bytes refusal) None (mend_asked_back named bytes refusal),
            ))
            (first_refusal (back_guards full caller.0 named (handle_alone bytes))) }
    {
        let checked = self.check_read_back(ram, layout, pages, buffers, caller, call);
        let refusal = checked.err()?;
        let found = match call.descriptor(ram, buffers, caller) {
            Ok(found) => found,
            Err(_) => return None,
        };
        let handle = ffa_memdesc::handle_of_header(&found.bytes);
        let told = match refusal {
            Refusal::DescriptorMalformed => {
                let flaw = Flaw::Retrieve(0, RetrieveFlaw::NotZero);
                Explained::of(Some(about_field(&found.bytes, call.version, flaw)), None)
            }
            Refusal::NotTheSenders => {
                let mend = mend_sent(self.named(handle));
                Explained::of(Some(About::Handle(handle)), Some(mend))
            }
            _ => Explained::of(None, None),
        };
        Some((refusal, told))
    }

    /// Returns the first check of FFA_MEM_RELINQUISH of an endpoint that fails, or `None`. With it, returns the field
    /// of a broken condition, or an endpoint or a handle that the descriptor names, and what the transaction has
    /// instead.
    pub fn why_relinquish<M: PhysMem>(
        &self,
        ram: &M,
        buffers: &Buffers,
        caller: EndpointId,
    ) -> Option<(Refusal, Explained)>
        requires tx { (b : Own) → buffers_in buffers.now caller.0 ≡ Some b → IsInRam (length (M.ram ram.now).pages) b }
        ensures { let own = buffers_in buffers.now caller.0 in
            let named = finite.get (map_in self.now.slots) in
            let bytes = tx_in (M.ram ram.now) own in
            result ≡ option_map (λ refusal. (
              refusal,
              explained (where_mapped own (about_relinquish bytes refusal)) None
                  (mend_given_back named caller.0 own bytes refusal),
            ))
            (first_refusal (relinquish_guards own (open_in self.now) caller.0 (relinquish_of bytes))) }
    {
        let Some(mapped) = buffers.of(caller) else {
            return Some((Refusal::BuffersMissing, Explained::of(None, None)));
        };
        let bytes = PageRun::new(ram, mapped.tx, mapped.pages, mapped.room());
        match read_relinquish(&bytes) {
            Ok(asked) => {
                let refusal = self.check_given_up(caller, &asked).err()?;
                let mend = self.mend_return(asked.handle, caller, refusal);
                let told = Explained::of(named_by_relinquish(&asked, refusal), mend);
                Some((refusal, told))
            }
            // A relinquish descriptor has one layout in all versions.
            Err(flaw) => {
                let about = about_field(&bytes, Version::V1_1, flaw);
                let told = Explained::of(Some(about), None);
                Some((Refusal::DescriptorMalformed, told))
            }
        }
    }

    /// Explains a check that refuses FFA_MEM_RECLAIM of an endpoint, in the RAM that begins at `base`. Returns the
    /// first page of the transaction that its owner may not write to, or what the transaction has instead.
    pub fn explain_reclaim<P: Room<KeptPage> + Drop>(
        &self,
        pages: &PageTable<P>,
        base: Address,
        caller: EndpointId,
        handle: Handle,
        refusal: Refusal,
    ) -> Explained
        ensures { let transaction = finite.get (map_in self.now.slots) handle.0 in
            let page = failing_reclaim (ownership_in pages.now base.0) transaction refusal in
            result ≡ explained None page (mend_return caller.0 refusal transaction) }
    {
        Explained {
            about: None,
            page: failing_reclaim(self, pages, base, handle, refusal),
            mend: self.mend_return(handle.0, caller, refusal),
            receivers: None,
        }
    }

    // Returns what to change, if a check compares a retrieve with the transaction that it names.
    fn mend_asked<P: Room<KeptPage> + Drop>(
        &self,
        pages: &PageTable<P>,
        base: Address,
        caller: EndpointId,
        asked: &RetrieveDesc,
        refusal: Refusal,
    ) -> Option<Mend>
        requires placed { AreRangesInRam self.now.slots base.0 (length pages.now) }
        ensures { let owners = ownership_in pages.now base.0 in
            let named = finite.get (map_in self.now.slots) asked.now.handle in
            result ≡ option_and_then (mend_retrieve owners caller.0 asked.now refusal) named }
    {
        let Some(slot) = self.find(asked.handle) else {
            return None;
        };
        self.at(slot)
            .mend_retrieve(pages, base, caller, asked, refusal)
    }

    // Returns what to change, if FFA_MEM_RELINQUISH or FFA_MEM_RECLAIM needs another transaction than the one with this
    // handle.
    fn mend_return(&self, handle: u64, caller: EndpointId, refusal: Refusal) -> Option<Mend>
        ensures { result ≡ mend_return caller.0 refusal (finite.get (map_in self.now.slots) handle) }
    {
        let its = self.named(handle);
        match refusal {
            Refusal::NotOffered => Some(mend_offered(its)),
            Refusal::NotTheSenders => Some(mend_sent(its)),
            Refusal::ZerosNotAllowed => mend_zeros(its, caller),
            Refusal::StillHeld => mend_held(its),
            _ => None,
        }
    }

    // Returns the transaction with this handle, if it is open.
    fn named(&self, handle: u64) -> Option<&OpenTransaction>
        ensures { option_map (λ t. view_of t.now) result ≡ finite.get (map_in self.now.slots) handle }
    {
        match self.find(handle) {
            Some(slot) => Some(self.at(slot)),
            None => None,
        }
    }
}

impl OpenTransaction {
    // Returns what the transaction has instead of what a retrieve names.
    fn mend_retrieve<P: Room<KeptPage> + Drop>(
        &self,
        pages: &PageTable<P>,
        base: Address,
        caller: EndpointId,
        asked: &RetrieveDesc,
        refusal: Refusal,
    ) -> Option<Mend>
        requires { ArePlaced base.0 (length pages.now) self.now.ranges }
        ensures { let owners = ownership_in pages.now base.0 in
            result ≡ mend_retrieve owners caller.0 asked.now refusal (view_of self.now) }
    {
        match refusal {
            Refusal::TransactionSenderDiffers => Some(Mend::Sender(self.sender)),
            Refusal::TagDiffers => Some(Mend::Tag {
                found: asked.tag,
                wanted: self.tag,
            }),
            Refusal::KindDiffers => mend_kind(asked.kind, self.kind),
            Refusal::RightTooMuch => self.mend_right(pages, base, caller, asked),
            _ => None,
        }
    }

    // Returns the right that a receiver requests, and the greatest right that it may hold.
    fn mend_right<P: Room<KeptPage> + Drop>(
        &self,
        pages: &PageTable<P>,
        base: Address,
        caller: EndpointId,
        asked: &RetrieveDesc,
    ) -> Option<Mend>
        requires { ArePlaced base.0 (length pages.now) self.now.ranges }
        ensures { let owners = ownership_in pages.now base.0 in
            let its = view_of self.now in
            result ≡ (if is_receiver caller.0 its
            then Some (Mend.Asked (right_for owners its caller.0 asked.now) (ceiling owners its caller.0))
            else None) }
    {
        let granted = self.grant_to(caller)?;
        let most = self.ceiling(pages, base, granted);
        Some(Mend::Asked {
            asked: asked_right(most, asked),
            most,
        })
    }

    // Returns the first receiver that holds the transaction, or `None`.
    fn first_holder(&self) -> Option<Receiver>
        ensures { let its = view_of self.now in
            result ≡ find (λ (r : Named). is_some (held_by its r.endpoint.0)) its.receivers }
    {
        self.receivers
            .as_slice()
            .iter()
            .copied()
            .find(|receiver| self.held_right(receiver.endpoint).is_some())
    }
}

// Returns the kind that a retrieve names and the transaction's kind, or `None` if the retrieve names no kind.
fn mend_kind(found: Option<Kind>, wanted: Kind) -> Option<Mend>
    ensures { result ≡ option_map (λ k. Mend.Kind k wanted) found }
{
    match found {
        Some(found) => Some(Mend::Kind { found, wanted }),
        None => None,
    }
}

// Returns the reason why no transaction with a handle has the caller as a receiver.
fn mend_offered(its: Option<&OpenTransaction>) -> Mend
    ensures { Some result ≡ mend_offered (option_map (λ t. view_of t.now) its.entry) }
{
    match its {
        Some(_) => Mend::Cause(Cause::NotReceiver),
        None => Mend::Cause(Cause::HandleUnknown),
    }
}

// Returns the sender of the transaction with a handle, which is not the caller, or the cause that no transaction has
// the handle.
fn mend_sent(its: Option<&OpenTransaction>) -> Mend
    ensures { Some result ≡ mend_sent (option_map (λ t. view_of t.now) its.entry) }
{
    match its {
        Some(its) => Mend::Sender(its.sender),
        None => Mend::Cause(Cause::HandleUnknown),
    }
}

// Returns the reason why the caller may not request zeros in the pages of a transaction.
fn mend_zeros(its: Option<&OpenTransaction>, caller: EndpointId) -> Option<Mend>
    ensures { result ≡ mend_zeros caller.0 (option_map (λ t. view_of t.now) its.entry) }
{
    let its = its?;
    if its.kind != Kind::Lend {
        return Some(Mend::Cause(Cause::NotLent));
    }
    match its.held_right(caller) {
        Some(right) => Some(Mend::Held(right)),
        None => None,
    }
}

// Returns the first receiver that holds a transaction.
fn mend_held(its: Option<&OpenTransaction>) -> Option<Mend>
    ensures { result ≡ mend_held (option_map (λ t. view_of t.now) its.entry) }
{
    match its?.first_holder() {
        Some(receiver) => Some(Mend::Holder(receiver.endpoint)),
        None => None,
    }
}

// Returns a condition that bytes break, with the field of the condition.
fn about_field<M: PhysMem>(bytes: &PageRun<M>, version: Version, flaw: Flaw) -> About
    ensures { result ≡ about_field (in_version version bytes.now) flaw }
{
    let place = flaw_place(bytes, version, flaw);
    About::Field {
        flaw,
        place,
        value: field_value(bytes, &place),
    }
}

// Returns the endpoint of a send that a check is about.
fn named_by_send(offer: &SendDesc, endpoints: usize, refusal: Refusal) -> Option<About>
    ensures { result ≡ named_by_send endpoints (send_record offer.now) refusal }
{
    match refusal {
        Refusal::SenderIsAnother => Some(About::Endpoint(offer.sender)),
        Refusal::ReceiverUnknown => unknown_receiver(offer.receivers.as_slice(), endpoints),
        _ => None,
    }
}

// Returns the first receiver that is not an endpoint of a machine with this number of endpoints.
fn unknown_receiver(receivers: &[Receiver], endpoints: usize) -> Option<About>
    ensures { result ≡ unknown_receiver endpoints receivers.now }
{
    let unknown = receivers
        .iter()
        .find(|receiver| !is_known(receiver, endpoints));
    match unknown {
        Some(receiver) => Some(About::Endpoint(receiver.endpoint)),
        None => None,
    }
}

// Whether a receiver is an endpoint of a machine with this number of endpoints.
fn is_known(receiver: &Receiver, endpoints: usize) -> bool
    ensures { result ≡ is_known_receiver endpoints receiver.now }
{
    receiver.endpoint.is_among(endpoints)
}

// Returns the endpoint or the handle of a retrieve that a check is about.
fn named_by_retrieve(asked: &RetrieveDesc, refusal: Refusal) -> Option<About>
    ensures { result ≡ named_by_retrieve asked.now refusal }
{
    match refusal {
        Refusal::TransactionSenderDiffers => Some(About::Endpoint(asked.sender)),
        Refusal::HandleUnknown
        | Refusal::NotReceiver
        | Refusal::ReceiversDiffer
        | Refusal::TagDiffers
        | Refusal::KindDiffers
        | Refusal::AlreadyRetrieved
        | Refusal::RightTooMuch => Some(About::Handle(asked.handle)),
        _ => None,
    }
}

// Returns the endpoint or the handle of a relinquish that a check is about.
fn named_by_relinquish(asked: &RelinquishDesc, refusal: Refusal) -> Option<About>
    ensures { result ≡ named_by_relinquish asked.now refusal }
{
    match refusal {
        Refusal::EndpointIsAnother => Some(About::Endpoint(asked.endpoint)),
        Refusal::NotOffered | Refusal::NotHeld | Refusal::ZerosNotAllowed => {
            Some(About::Handle(asked.handle))
        }
        _ => None,
    }
}
