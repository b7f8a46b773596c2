// SPDX-License-Identifier: MIT OR Apache-2.0
//! The checks of FFA_MEM_RELINQUISH: whether an endpoint may release a transaction.
ghost use Rattle.std.specs.Prelude.{◌≡◌, ℕ, List, length, Some, IfOk};
ghost use Rattle.std.specs.FinMap as finite;
ghost use Rattle.std.specs.Result.{result_err};
ghost use Rattle.ffa_model.specs.Buffers.{buffers_in};
ghost use Rattle.ffa_model.specs.Calls.{first_refusal};
ghost use Rattle.ffa_model.specs.MemoryReturn.{holder_guards, is_zeroable, relinquish_guards};
ghost use Rattle.ffa_model.specs.RelinquishDescriptor.{relinquish_of};
ghost use Rattle.ffa_model.specs.State.{Buffers as Own};
ghost use Rattle.ffa_rxtx.specs.Parts.{IsInRam, tx_in};
ghost use Rattle.ffa_memshare.specs.Found.{IsGivenUp};
ghost use Rattle.ffa_memshare.specs.Stored.{map_in, open_in};

use crate::found::FoundReturn;
use crate::open_slot::OpenSlot;
use crate::page_run::{PageRun, read_relinquish};
use crate::pool::Pool;
use crate::transaction::OpenTransaction;
use ffa_model::{Data, EndpointId, Kind, Refusal, RelinquishDesc, Room};
use ffa_physmem::PhysMem;
use ffa_rxtx::Buffers;

impl<O: Room<OpenSlot> + Drop> Pool<O> {
    /// Checks that an endpoint may relinquish as the descriptor in its TX says. Returns the slot of the transaction,
    /// and whether the descriptor requests zeros.
    ///
    /// # Errors
    ///
    /// The first check of FFA_MEM_RELINQUISH that fails.
    pub fn check_relinquish<M: PhysMem>(
        &self,
        ram: &M,
        buffers: &Buffers,
        caller: EndpointId,
    ) -> Result<FoundReturn, Refusal>
        requires { (b : Own) → buffers_in buffers.now caller.0 ≡ Some b → IsInRam (length (M.ram ram.now).pages) b }
        ensures refusal { let own = buffers_in buffers.now caller.0 in
            let asked = relinquish_of (tx_in (M.ram ram.now) own) in
            result_err result ≡ first_refusal (relinquish_guards own (open_in self.now) caller.0 asked) }
        ensures found { let bytes = tx_in (M.ram ram.now) (buffers_in buffers.now caller.0) in
            IfOk result (IsGivenUp self.now.slots bytes) }
    {
        let Some(mapped) = buffers.of(caller) else {
            return Err(Refusal::BuffersMissing);
        };
        let bytes = PageRun::new(ram, mapped.tx, mapped.pages, mapped.room());
        let Ok(asked) = read_relinquish(&bytes) else {
            return Err(Refusal::DescriptorMalformed);
        };
        self.check_given_up(caller, &asked)
    }

    // Checks that an endpoint may relinquish as a descriptor says. An error is the first check that fails.
    pub(crate) fn check_given_up(
        &self,
        caller: EndpointId,
        asked: &RelinquishDesc,
    ) -> Result<FoundReturn, Refusal>
        ensures refusal { let named = finite.get (map_in self.now.slots) asked.now.handle in
            result_err result ≡ first_refusal (holder_guards caller.0 asked.now named) }
        ensures found { (bytes : List ℕ) → relinquish_of bytes ≡ Some asked.now → IfOk result (IsGivenUp self.now.slots bytes) }
    {
        if asked.endpoint != caller {
            return Err(Refusal::EndpointIsAnother);
        }
        let Some(slot) = self.find(asked.handle) else {
            return Err(Refusal::NotOffered);
        };
        let open = self.at(slot);
        open.check_relinquish(caller, asked)?;
        Ok(FoundReturn {
            slot,
            zero: asked.zero,
        })
    }
}

impl OpenTransaction {
    ghost use Rattle.ffa_memshare.specs.Stored.{view_of};

    // Checks that an endpoint may relinquish this transaction for itself. An error is the first check that fails.
    fn check_relinquish(&self, caller: EndpointId, asked: &RelinquishDesc) -> Result<(), Refusal>
        requires { asked.now.endpoint.0 ≡ caller.0 }
        ensures { result_err result ≡ first_refusal (holder_guards caller.0 asked.now (Some (view_of self.now))) }
    {
        if !self.is_receiver(caller) {
            return Err(Refusal::NotOffered);
        }
        if self.held_right(caller).is_none() {
            return Err(Refusal::NotHeld);
        }
        if asked.zero && !self.is_zeroable(caller) {
            return Err(Refusal::ZerosNotAllowed);
        }
        Ok(())
    }

    // Whether an endpoint may request zeros in the pages. It must hold a lend, and be allowed to write to the pages.
    fn is_zeroable(&self, endpoint: EndpointId) -> bool
        ensures { result ≡ is_zeroable endpoint.0 (Some (view_of self.now)) }
    {
        match self.held_right(endpoint) {
            Some(right) => matches!(self.kind, Kind::Lend) && right.level == Data::Rw,
            None => false,
        }
    }
}
