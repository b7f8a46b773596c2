// SPDX-License-Identifier: MIT OR Apache-2.0
//! FFA_MEM_RELINQUISH: a receiver releases a transaction.
ghost use Rattle.std.specs.Prelude.{◌≡◌, length, IfOk, OnOk, OnErr, ℕ, Bool, None, Option, Some};
ghost use Rattle.std.specs.Result.{result_err};
ghost use Rattle.ffa_model.specs.Buffers.{buffers_in};
ghost use Rattle.ffa_model.specs.Calls.{first_failure};
ghost use Rattle.ffa_model.specs.MemoryReturn.{relinquish_guards};
ghost use Rattle.ffa_model.specs.RelinquishDescriptor.{relinquish_of};
ghost use Rattle.ffa_physmem.specs.Moments.{Only};
ghost use Rattle.ffa_rxtx.specs.Parts.{tx_in};
ghost use Rattle.ffa_memshare.specs.Callers.{IsCaller};
ghost use Rattle.ffa_memshare.specs.Memory.{memory_of, memory_parts};
ghost use Rattle.ffa_memshare.specs.Relinquished.{IsRelinquished};
ghost use Rattle.ffa_memshare.specs.Shared.{IsShared};
ghost use Rattle.ffa_memshare.specs.Steps.{EndsSettledFor, OnlyMomentsFor};
ghost use Rattle.ffa_memshare.specs.Stored.{open_in, transaction_in};
ghost use Rattle.ffa_physmem.specs.Work.{AddsAtMost};
ghost use Rattle.ffa_memshare.specs.Work.{AreSplitsIn, taken_work};
ghost use Rattle.ffa_stage2.specs.Layout.{IsBuiltFor};
ghost use Rattle.ffa_model.specs.declared.rights.Rights.{Rights};
ghost use Rattle.ffa_model.specs.Identifiers.{place};
ghost use Rattle.ffa_model.specs.declared.descriptor.RelinquishDesc.{RelinquishDesc};
ghost use Rattle.ffa_model.specs.State.{Transaction};
ghost use Rattle.ffa_memshare.specs.Ranges.{in_ranges};

use crate::changed::{News, Value};
use crate::grants::NewRight;
use crate::open_slot::OpenSlot;
use crate::page_changes::change_pages;
use crate::pool::Pool;
use ffa_model::{EndpointId, ErrorCode, Room};
use ffa_pages::{KeptPage, PageTable};
use ffa_physmem::PhysMem;
use ffa_rxtx::Buffers;
use ffa_stage2::Layout;

impl<O: Room<OpenSlot> + Drop> Pool<O> {
    /// Serves FFA_MEM_RELINQUISH of an endpoint, with the descriptor in its TX. The caller no longer holds the
    /// transaction, and has no right to the pages. If the descriptor requests it, the pages are zeros. The report of
    /// changed access names the caller.
    ///
    /// # Errors
    ///
    /// The first of these that applies. An error changes nothing.
    ///
    /// - `InvalidParameters`: the caller has no buffers.
    /// - `InvalidParameters`: TX has no descriptor, or the descriptor names another endpoint than the caller.
    /// - `InvalidParameters`: no open transaction with the handle has the caller as a receiver.
    /// - `Denied`: the caller does not hold the transaction.
    /// - `Denied`: the descriptor requests zeros, and the caller does not hold a lend with write access.
    #[inline(always)]
    pub fn relinquish<M: PhysMem, P: Room<KeptPage> + Drop>(
        &mut self,
        ram: &mut M,
        layout: &Layout,
        pages: &PageTable<P>,
        buffers: &Buffers,
        caller: EndpointId,
        news: &mut News,
    ) -> Result<Value, ErrorCode>
        requires shared { IsShared (memory_of (M.ram ram.old) layout.now pages.now) self.old.slots }
        requires caller { IsCaller (memory_of (M.ram ram.old) layout.now pages.now) buffers.now caller.0 }
        ensures refusal { let own = buffers_in buffers.now caller.0 in
            let asked = relinquish_of (tx_in (M.ram ram.old) own) in
            result_err result ≡ first_failure (relinquish_guards own (open_in self.old) caller.0 asked) }
        ensures kept { OnErr result (self.new ≡ self.old) }
        ensures kept_ram { OnErr result (M.ram ram.new ≡ M.ram ram.old) }
        ensures kept_past { OnErr result (M.past ram.new ≡ M.past ram.old) }
        ensures kept_news { OnErr result (news.new ≡ news.old) }
        ensures nothing { IfOk result (λ value. value ≡ Value.Nothing) }
        ensures done { let before = memory_parts (M.ram ram.old) layout.now pages.now buffers.now self.old in
            let after = memory_parts (M.ram ram.new) layout.now pages.now buffers.now self.new in
            let bytes = tx_in (M.ram ram.old) (buffers_in buffers.now caller.0) in
            OnOk result (IsRelinquished before after caller.0 bytes news.new) }
        ensures steps { OnlyMomentsFor layout.now (M.ram ram.old) (M.ram ram.new) (M.past ram.old) (M.past ram.new) }
        ensures ended { EndsSettledFor layout.now (M.ram ram.old) (M.ram ram.new) (M.past ram.new) }
        ensures few { let base = layout.now.base.0 in let bytes = tx_in (M.ram ram.old) (buffers_in buffers.now caller.0) in
            (asked : RelinquishDesc) (t : Transaction) (access : ℕ → ℕ → Option Rights) (split : ℕ → Bool)
            → relinquish_of bytes ≡ Some asked → transaction_in self.old.slots asked.handle ≡ Some t
            → IsBuiltFor layout.now (M.ram ram.old) access
            → AreSplitsIn (access (place caller.0)) (in_ranges base t.ranges) None split
            → AddsAtMost (M.past ram.old) (M.past ram.new) (taken_work base split t.ranges asked.zero) }
    {
        let found = self.check_relinquish(ram, buffers, caller)?;
        let open = self.at(found.slot);
        let index = caller.place();
        let nothing = NewRight::Same(None);
        change_pages(ram, layout, pages, &open.ranges, index, nothing, found.zero);
        news.told.tell(&open.ranges, Some(caller));
        self.set_held(found.slot, caller, None);
        Ok(Value::Nothing)
    }
}
