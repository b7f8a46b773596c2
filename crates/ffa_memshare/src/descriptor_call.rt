// SPDX-License-Identifier: MIT OR Apache-2.0
//! Calls whose descriptor is in TX.
ghost use Rattle.std.specs.Prelude.{◌≡◌, length, [], IfOk, Some};
ghost use Rattle.std.specs.Result.{result_err};
ghost use Rattle.ffa_model.specs.MemorySend.{transfer_guards};
ghost use Rattle.ffa_model.specs.Buffers.{buffers_in};
ghost use Rattle.ffa_model.specs.Calls.{first_refusal};
ghost use Rattle.ffa_model.specs.HypervisorRetrieve.{is_asked_back};
ghost use Rattle.ffa_model.specs.State.{Buffers as Own};
ghost use Rattle.ffa_rxtx.specs.Parts.{IsInRam};
ghost use Rattle.ffa_rxtx.specs.Stored.{buffers_of};
ghost use Rattle.ffa_memshare.specs.Scenes.{descriptor_in};

use crate::page_run::PageRun;
use ffa_model::{EndpointId, Ffa, Refusal, Transfer, Version};
use ffa_physmem::PhysMem;
use ffa_rxtx::{Buffers, Mapped};

/// The bytes of a descriptor that is whole in the caller's TX.
#[derive(Drop)]
pub(crate) struct Descriptor<'m, M: PhysMem> {
    /// The bytes of the descriptor, in the pages of TX.
    pub(crate) bytes: PageRun<'m, M>,
    /// The caller's buffers.
    pub(crate) own: Mapped,
}

/// The parameters of a call whose descriptor is in TX.
#[derive(Clone, Copy)]
pub struct DescriptorCall {
    /// The registers of the call.
    pub transfer: Transfer,
    /// The version of FF-A that the machine serves.
    pub ffa: Ffa,
    /// The layout in which the caller writes descriptors, and reads the response of a retrieve.
    pub version: Version,
}

impl DescriptorCall {
    ghost use Rattle.ffa_rxtx.specs.Parts.{IsInRam};

    // Returns the caller's descriptor. An error is the first check of the registers that fails: the caller has no
    // buffers, or the registers do not say that the descriptor is whole in TX.
    pub(crate) fn descriptor<'m, M: PhysMem>(
        &self,
        ram: &'m M,
        buffers: &Buffers,
        caller: EndpointId,
    ) -> Result<Descriptor<'m, M>, Refusal>
        requires tx { (b : Own) → buffers_in buffers.now caller.0 ≡ Some b → IsInRam (length (M.ram ram.now).pages) b }
        ensures refusal { result_err result ≡ first_refusal (transfer_guards buffers.now caller.0 self.now.transfer) }
        ensures own { IfOk result (λ found. Some (buffers_of found.own) ≡ buffers_in buffers.now caller.0) }
        ensures bytes { let descriptor = descriptor_in (M.ram ram.now) buffers.now caller.0 self.now in
            IfOk result (λ found. found.bytes ≡ descriptor.bytes) }
    {
        let Some(own) = buffers.of(caller) else {
            return Err(Refusal::BuffersMissing);
        };
        let transfer = &self.transfer;
        if transfer.total != transfer.fragment {
            return Err(Refusal::Fragmented);
        }
        if transfer.total as usize > own.room() {
            return Err(Refusal::DescriptorTooLong);
        }
        if transfer.address != 0 {
            return Err(Refusal::BufferAddressGiven);
        }
        if transfer.pages != 0 {
            return Err(Refusal::BufferPagesGiven);
        }
        let bytes = PageRun::new(ram, own.tx, own.pages, transfer.total as usize);
        Ok(Descriptor { bytes, own })
    }

    /// Whether the call is a hypervisor's retrieve: the normal world of a machine of FF-A 1.2 requests what it sent.
    /// The descriptor in its TX then has no access descriptor.
    pub fn asks_back<M: PhysMem>(&self, ram: &M, buffers: &Buffers, caller: EndpointId) -> bool
        requires tx { (b : Own) → buffers_in buffers.now caller.0 ≡ Some b → IsInRam (length (M.ram ram.now).pages) b }
        ensures { let descriptor = descriptor_in (M.ram ram.now) buffers.now caller.0 self.now in
            result ≡ is_asked_back self.now.ffa buffers.now caller.0 self.now.transfer descriptor }
    {
        if self.ffa == Ffa::V1_1 || caller != EndpointId::NORMAL_WORLD {
            return false;
        }
        match self.descriptor(ram, buffers, caller) {
            Ok(found) => ffa_memdesc::has_no_access(&found.bytes, self.version),
            Err(_) => false,
        }
    }
}
