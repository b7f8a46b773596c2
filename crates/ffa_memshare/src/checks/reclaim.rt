// SPDX-License-Identifier: MIT OR Apache-2.0
//! The checks of FFA_MEM_RECLAIM: whether a sender may end its transaction.
ghost use Rattle.ffa_rxtx.specs.Parts.{ownership_in};
ghost use Rattle.std.specs.Prelude.{◌≡◌, ◌≤◌, ◌==◌, ℕ, length, Some, IfOk};
ghost use Rattle.std.specs.Result.{result_err};
ghost use Rattle.ffa_model.specs.Calls.{first_refusal};
ghost use Rattle.ffa_model.specs.MemoryReturn.{is_unheld, reclaim_guards};
ghost use Rattle.ffa_model.specs.State.{Transaction};
ghost use Rattle.ffa_memshare.specs.Ranges.{ArePlaced};
ghost use Rattle.ffa_memshare.specs.Shared.{AreRangesInRam};
ghost use Rattle.ffa_memshare.specs.Stored.{pool_slot, transaction_in};

use crate::found::FoundReturn;
use crate::open_slot::OpenSlot;
use crate::pool::Pool;
use crate::transaction::OpenTransaction;
use ffa_model::{Address, EndpointId, Handle, Refusal, Room};
use ffa_pages::{KeptPage, PageTable};

impl<O: Room<OpenSlot> + Drop> Pool<O> {
    /// Checks that an endpoint may reclaim the transaction with this handle. `flags` is the value of w3. Returns the
    /// slot of the transaction, and whether the flags request zeros.
    ///
    /// # Errors
    ///
    /// The first check of FFA_MEM_RECLAIM that fails.
    pub fn check_reclaim<P: Room<KeptPage> + Drop>(
        &self,
        pages: &PageTable<P>,
        base: Address,
        caller: EndpointId,
        handle: Handle,
        flags: u32,
    ) -> Result<FoundReturn, Refusal>
        requires { AreRangesInRam self.now.slots base.0 (length pages.now) }
        ensures refusal { let owners = ownership_in pages.now base.0 in
            let transaction = transaction_in self.now.slots handle.0 in
            result_err result ≡ first_refusal (reclaim_guards owners caller.0 flags transaction) }
        ensures slot { let slots = self.now.slots in
            IfOk result (λ found. (t : Transaction) × (pool_slot slots found.slot ≡ Some (handle.0, t))) }
        ensures zero { IfOk result (λ found. found.zero ≡ (flags == 1)) }
    {
        if flags > 1 {
            return Err(Refusal::FlagsReserved);
        }
        let Some(slot) = self.find(handle.0) else {
            return Err(Refusal::NotTheSenders);
        };
        let open = self.at(slot);
        open.check_reclaim(pages, base, caller, flags)?;
        Ok(FoundReturn {
            slot,
            zero: flags == 1,
        })
    }
}

impl OpenTransaction {
    ghost use Rattle.ffa_memshare.specs.Stored.{view_of};

    // Checks that the caller may end the transaction, with flags that are 0 or 1. An error is the first check that
    // fails.
    fn check_reclaim<P: Room<KeptPage> + Drop>(
        &self,
        pages: &PageTable<P>,
        base: Address,
        caller: EndpointId,
        flags: u32,
    ) -> Result<(), Refusal>
        requires placed { ArePlaced base.0 (length pages.now) self.now.ranges }
        requires flags { flags ≤ 1 }
        ensures { let owners = ownership_in pages.now base.0 in let transaction = Some (view_of self.now) in
            result_err result ≡ first_refusal (reclaim_guards owners caller.0 flags transaction) }
    {
        if self.sender != caller {
            return Err(Refusal::NotTheSenders);
        }
        if !self.is_unheld() {
            return Err(Refusal::StillHeld);
        }
        if flags == 1 && !self.common(pages, base).is_writable {
            return Err(Refusal::ZerosUnwritable);
        }
        Ok(())
    }

    // Whether no receiver holds the transaction.
    fn is_unheld(&self) -> bool
        ensures { result ≡ is_unheld (Some (view_of self.now)) }
    {
        self.receivers
            .as_slice()
            .iter()
            .all(|receiver| self.held_right(receiver.endpoint).is_none())
    }
}
