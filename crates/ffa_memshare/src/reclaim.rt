// SPDX-License-Identifier: MIT OR Apache-2.0
//! FFA_MEM_RECLAIM: a sender ends its transaction.
ghost use Rattle.ffa_rxtx.specs.Parts.{ownership_in};
ghost use Rattle.std.specs.Prelude.{◌≡◌, ◌==◌, None, Some, IfOk, OnOk, OnErr, ℕ, Option};
ghost use Rattle.std.specs.Result.{result_err};
ghost use Rattle.ffa_model.specs.Calls.{first_failure};
ghost use Rattle.ffa_model.specs.Identifiers.{place};
ghost use Rattle.ffa_model.specs.MemoryReturn.{named_ranges, reclaim_guards};
ghost use Rattle.ffa_model.specs.Transactions.{closed};
ghost use Rattle.ffa_physmem.specs.Moments.{Only};
ghost use Rattle.ffa_pages.specs.Entry.{own_right_at};
ghost use Rattle.ffa_memshare.specs.Changed.{changed_reclaimer};
ghost use Rattle.ffa_memshare.specs.Changes.{IsMarked, IsMovedFor};
ghost use Rattle.ffa_memshare.specs.Memory.{memory_of};
ghost use Rattle.ffa_memshare.specs.Ranges.{in_ranges};
ghost use Rattle.ffa_memshare.specs.Shared.{IsShared};
ghost use Rattle.ffa_memshare.specs.SlotChanges.{IsClosed};
ghost use Rattle.ffa_memshare.specs.Steps.{EndsSettledFor, OnlyMomentsFor};
ghost use Rattle.ffa_memshare.specs.Stored.{open_in, transaction_in};
ghost use Rattle.ffa_physmem.specs.Work.{AddsAtMost};
ghost use Rattle.ffa_memshare.specs.Work.{LosesNone, given_work};
ghost use Rattle.ffa_stage2.specs.Layout.{IsBuiltFor};
ghost use Rattle.ffa_model.specs.declared.rights.Rights.{Rights};

use crate::changed::{News, Value, changed_sender};
use crate::marks::Mark;
use crate::open_slot::OpenSlot;
use crate::pool::Pool;
use ffa_model::{EndpointId, ErrorCode, Handle, Room};
use ffa_pages::{KeptPage, PageTable};
use ffa_physmem::PhysMem;
use ffa_stage2::Layout;

impl<O: Room<OpenSlot> + Drop> Pool<O> {
    /// Serves FFA_MEM_RECLAIM of an endpoint. `flags` is the value of w3. The transaction with this handle is closed,
    /// and the sender has its own right to the pages. If bit 0 of `flags` is set, the pages are zeros. The report of
    /// changed access names the sender, or no endpoint if the transaction is a share.
    ///
    /// # Errors
    ///
    /// The first of these that applies. An error changes nothing.
    ///
    /// - `InvalidParameters`: `flags` is above 1, or no open transaction of the caller has the handle.
    /// - `Denied`: a receiver holds the transaction.
    /// - `Denied`: the flags request zeros, and the sender's own right to a page does not allow writing.
    #[inline(always)]
    pub fn reclaim<M: PhysMem, P: Room<KeptPage> + Drop>(
        &mut self,
        ram: &mut M,
        layout: &Layout,
        pages: &mut PageTable<P>,
        caller: EndpointId,
        handle: Handle,
        flags: u32,
        news: &mut News,
    ) -> Result<Value, ErrorCode>
        requires { IsShared (memory_of (M.ram ram.old) layout.now pages.old) self.old.slots }
        ensures refusal { let owners = ownership_in pages.old layout.now.base.0 in
            let transaction = transaction_in self.old.slots handle.0 in
            result_err result ≡ first_failure (reclaim_guards owners caller.0 flags transaction) }
        ensures kept { OnErr result (self.new ≡ self.old) }
        ensures kept_pages { OnErr result (pages.new ≡ pages.old) }
        ensures kept_ram { OnErr result (M.ram ram.new ≡ M.ram ram.old) }
        ensures kept_past { OnErr result (M.past ram.new ≡ M.past ram.old) }
        ensures kept_news { OnErr result (news.new ≡ news.old) }
        ensures nothing { IfOk result (λ value. value ≡ Value.Nothing) }
        ensures slot { OnOk result (IsClosed self.old self.new handle.0) }
        ensures open_transactions { OnOk result (open_in self.new ≡ closed (open_in self.old) handle.0) }
        ensures ram { let ranges = named_ranges (transaction_in self.old.slots handle.0) in
            let named = in_ranges layout.now.base.0 ranges in
            let right = own_right_at pages.old in let zero = flags == 1 in
            OnOk result (IsMovedFor layout.now (M.ram ram.old) (M.ram ram.new) (place caller.0) named right zero) }
        ensures steps { OnlyMomentsFor layout.now (M.ram ram.old) (M.ram ram.new) (M.past ram.old) (M.past ram.new) }
        ensures ended { EndsSettledFor layout.now (M.ram ram.old) (M.ram ram.new) (M.past ram.new) }
        ensures few { let base = layout.now.base.0 in let ranges = named_ranges (transaction_in self.old.slots handle.0) in
            (access : ℕ → ℕ → Option Rights) → IsBuiltFor layout.now (M.ram ram.old) access
            → LosesNone (access (place caller.0)) (in_ranges base ranges) (own_right_at pages.old)
            → AddsAtMost (M.past ram.old) (M.past ram.new) (given_work base None ranges (flags == 1)) }
        ensures pages { let ranges = named_ranges (transaction_in self.old.slots handle.0) in
            let named = in_ranges layout.now.base.0 ranges in
            OnOk result (IsMarked pages.old pages.new named (Mark.Named None)) }
        ensures changed { let transaction = transaction_in self.old.slots handle.0 in
            let whose = changed_reclaimer transaction caller.0 in
            OnOk result (news.new ≡ Some (record { ranges = named_ranges transaction; endpoint = whose })) }
    {
        let found = self.check_reclaim(pages, layout.base, caller, handle, flags)?;
        let open = self.at(found.slot);
        open.give_back(ram, layout, pages, found.zero);
        news.told
            .tell(&open.ranges, changed_sender(open.kind, caller));
        self.close(found.slot);
        Ok(Value::Nothing)
    }
}
