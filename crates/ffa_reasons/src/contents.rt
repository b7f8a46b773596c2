// SPDX-License-Identifier: MIT OR Apache-2.0
//! Explains a check that refuses a call by what the call names: a message, a descriptor, pages, a transaction or bits.
//! It reads each once, changes nothing, and allocates nothing.
ghost use Rattle.std.specs.Prelude.{◌≡◌, None, length};
ghost use Rattle.std.specs.Option.{option_map};
ghost use Rattle.ffa_model.specs.AboutContents.{about_bits};
ghost use Rattle.ffa_model.specs.Buffers.{rxtx_map};
ghost use Rattle.ffa_model.specs.Calls.{first_refusal};
ghost use Rattle.ffa_model.specs.HypervisorRetrieve.{memory_retrieve};
ghost use Rattle.ffa_model.specs.MemoryReturn.{memory_reclaim, memory_relinquish};
ghost use Rattle.ffa_model.specs.MemorySend.{descriptor_in, is_inside, memory_send};
ghost use Rattle.ffa_model.specs.Messages.{msg_send2};
ghost use Rattle.ffa_model.specs.Notifications.{notifications_of};
ghost use Rattle.ffa_model.specs.Transactions.{scene_of};
ghost use Rattle.ffa_mend.specs.Explained.{explained};
ghost use Rattle.ffa_mend.specs.Mend.{mend_buffer, mend_map, mend_noticed, outside_of};
ghost use Rattle.ffa_rxtx.specs.Parts.{ownership_in};
ghost use Rattle.ffa_memshare.specs.Found.{sent_told};
ghost use Rattle.ffa_reasons.specs.Explanation.{with_told};

use crate::reasons::Reasons;
use ffa_memshare::DescriptorCall;
use ffa_mend::{Explained, Mend};
use ffa_model::{Address, Call, Handle, Kind, Range, Refusal, Room, Transfer};
use ffa_pages::{KeptPage, PageTable};
use ffa_physmem::PhysMem;
use ffa_spmc::Store;
use ffa_tlb::Translations;

impl<M: PhysMem + Drop, T: Translations + Drop, S: Store> Reasons<'_, M, T, S> {
    // Explains the first check of FFA_RXTX_MAP that fails.
    pub(crate) fn why_map(&self, tx: u64, rx: u64, pages: u32) -> Option<(Refusal, Explained)>
        ensures { result ≡ with_told self.now (Call.RxtxMap tx rx pages) (first_refusal (rxtx_map self.now tx rx pages).guards) }
    {
        let refusal = self.rxtx_map_refusal(tx, rx, pages)?;
        let base = self.parts.manifest.ram_base;
        let runner = self.parts.chain.runner();
        let owners = self.parts.pages;
        let told = Explained {
            about: None,
            page: ffa_rxtx::failing_map(owners, base, runner, tx, rx, pages, refusal),
            mend: mend_map(owners, base, tx, rx, pages, refusal),
            receivers: None,
        };
        Some((refusal, told))
    }

    // Explains the first check of FFA_MSG_SEND2 that fails.
    pub(crate) fn why_message(&self) -> Option<(Refusal, Explained)>
        ensures { result ≡ with_told self.now Call.MsgSend2 (first_refusal (msg_send2 self.now).guards) }
    {
        let refusal = self.msg_send2_refusal()?;
        let runner = self.parts.chain.runner();
        let (ram, buffers) = (self.parts.ram, self.parts.buffers);
        let told = ffa_messages::explain_message(ram, buffers, runner, refusal);
        Some((refusal, told))
    }

    // Explains the first check of FFA_MEM_DONATE, FFA_MEM_LEND or FFA_MEM_SHARE that fails.
    pub(crate) fn why_send(&self, kind: Kind, transfer: Transfer) -> Option<(Refusal, Explained)>
        ensures { let told = sent_told (scene_of self.now) self.now.runner self.now.ffa kind transfer (descriptor_in self.now transfer.total) in
            result ≡ option_map told (first_refusal (memory_send self.now kind transfer).guards) }
    {
        let ffa = self.parts.manifest.ffa;
        let version = self.version();
        let call = DescriptorCall {
            transfer,
            ffa,
            version,
        };
        let parts = &self.parts;
        let runner = parts.chain.runner();
        let (layout, pages) = (parts.layout, parts.pages);
        let (ram, buffers) = (parts.ram, parts.buffers);
        parts
            .pool
            .why_send(ram, layout, pages, buffers, runner, kind, &call)
    }

    // Explains the first check of FFA_MEM_RETRIEVE_REQ that fails.
    pub(crate) fn why_retrieve(&self, transfer: Transfer) -> Option<(Refusal, Explained)>
        ensures { result ≡ with_told self.now (Call.MemRetrieve transfer) (first_refusal (memory_retrieve self.now transfer).guards) }
    {
        let call = DescriptorCall {
            transfer,
            ffa: self.ffa(),
            version: self.version(),
        };
        let parts = &self.parts;
        let runner = parts.chain.runner();
        let (layout, pages) = (parts.layout, parts.pages);
        let (ram, buffers) = (parts.ram, parts.buffers);
        let pool = parts.pool;
        if call.asks_back(ram, buffers, runner) {
            return pool.why_read_back(ram, layout, pages, buffers, runner, &call);
        }
        pool.why_retrieve(ram, layout, pages, buffers, runner, &call)
    }

    // Explains the first check of FFA_MEM_RELINQUISH that fails.
    pub(crate) fn why_relinquish(&self) -> Option<(Refusal, Explained)>
        ensures { result ≡ with_told self.now Call.MemRelinquish (first_refusal (memory_relinquish self.now).guards) }
    {
        let parts = &self.parts;
        let runner = parts.chain.runner();
        parts.pool.why_relinquish(parts.ram, parts.buffers, runner)
    }

    // Explains the first check of FFA_MEM_RECLAIM that fails.
    pub(crate) fn why_reclaim(&self, handle: Handle, flags: u32) -> Option<(Refusal, Explained)>
        ensures { let refusal = first_refusal (memory_reclaim self.now handle.0 flags).guards in
            result ≡ with_told self.now (Call.MemReclaim handle flags) refusal }
    {
        let refusal = self.mem_reclaim_refusal(handle, flags)?;
        let parts = &self.parts;
        let base = parts.manifest.ram_base;
        let runner = parts.chain.runner();
        let told = parts
            .pool
            .explain_reclaim(parts.pages, base, runner, handle, refusal);
        Some((refusal, told))
    }

    // Explains the first check of FFA_NOTIFICATION_BIND, FFA_NOTIFICATION_UNBIND or FFA_NOTIFICATION_SET that fails.
    pub(crate) fn why_bits(
        &self,
        call: &Call,
        refusal: Option<Refusal>,
    ) -> Option<(Refusal, Explained)>
        ensures { let bits = about_bits (length self.now.parties) (notifications_of self.now) self.now.runner call.now in
            result ≡ option_map (λ refusal. (refusal, explained (bits refusal) None (mend_noticed self.now call.now refusal))) refusal }
    {
        let refusal = refusal?;
        let runner = self.parts.chain.runner();
        let told = self.parts.bitmaps.explain_bits(runner, call, refusal);
        Some((refusal, told))
    }
}

// Returns what to change about the buffers that begin at these addresses and have this number of pages. RAM begins at
// `base`.
fn mend_map<P: Room<KeptPage> + Drop>(
    owners: &PageTable<P>,
    base: Address,
    tx: u64,
    rx: u64,
    pages: u32,
    refusal: Refusal,
) -> Option<Mend>
    ensures { result ≡ mend_map (ownership_in owners.now base.0) tx rx pages refusal }
{
    match refusal {
        Refusal::TxMisplaced => mend_buffer(owners, base, Range { address: tx, pages }),
        Refusal::RxMisplaced => mend_buffer(owners, base, Range { address: rx, pages }),
        _ => None,
    }
}

// Returns the first page outside RAM of a buffer that begins at a page and is not entirely in RAM.
fn mend_buffer<P: Room<KeptPage> + Drop>(
    owners: &PageTable<P>,
    base: Address,
    buffer: Range,
) -> Option<Mend>
    ensures { result ≡ mend_buffer (ownership_in owners.now base.0) buffer }
{
    if buffer.address % 4096 == 0 && !is_inside(owners, base, buffer) {
        Some(Mend::Outside(outside_of(owners, base, buffer)))
    } else {
        None
    }
}

// Whether a range is entirely in RAM.
fn is_inside<P: Room<KeptPage> + Drop>(owners: &PageTable<P>, base: Address, range: Range) -> bool
    ensures { result ≡ is_inside (ownership_in owners.now base.0) range }
{
    let start = u64::from(base.0);
    let end = start + 4096 * u64::from(owners.pages());
    let behind = u128::from(range.address) + 4096 * u128::from(range.pages);
    start <= range.address && behind <= u128::from(end)
}

// Returns the address of the first page outside RAM, of a range that is not entirely in RAM.
fn outside_of<P: Room<KeptPage> + Drop>(owners: &PageTable<P>, base: Address, range: Range) -> u64
    ensures { result ≡ outside_of (ownership_in owners.now base.0) range }
{
    let start = u64::from(base.0);
    let end = start + 4096 * u64::from(owners.pages());
    if start <= range.address && range.address < end {
        end
    } else {
        range.address
    }
}
