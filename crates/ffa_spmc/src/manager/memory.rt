// SPDX-License-Identifier: MIT OR Apache-2.0
//! The calls on memory. Each is a function of its own, so that other calls need no stack for it. The pool writes the
//! access that changed to the news, and the cache forgets what the news report.
ghost use Rattle.std.specs.Prelude.{◌≡◌, false, true};
ghost use Rattle.std.specs.Option.{option_or};
ghost use Rattle.ffa_model.specs.HypervisorRetrieve.{asks_back, hypervisor_retrieve, memory_retrieve};
ghost use Rattle.ffa_model.specs.MemoryRetrieve.{receiver_retrieve, retrieve_read};
ghost use Rattle.ffa_model.specs.MemoryReturn.{memory_reclaim, memory_relinquish, relinquish_read};
ghost use Rattle.ffa_model.specs.MemorySend.{memory_send, send_read};
ghost use Rattle.ffa_spmc.specs.Replies.{change_told};
ghost use Rattle.ffa_model.specs.State.{version_of};
ghost use Rattle.ffa_spmc.specs.Served.{IsAnswered, IsReplied, IsTold};
ghost use Rattle.ffa_physmem.specs.Work.{loans_of};
ghost use Rattle.ffa_spmc.specs.Work.{call_work, relinquish_work, retrieve_work, send_work};
ghost use Rattle.ffa_model.specs.declared.call.Call.TheVariants.{MemReclaim, MemRetrieve};

use super::Manager;
use super::forgetting::conclude;
use crate::storage::Store;
use ffa_memshare::{DescriptorCall, News, Value};
use ffa_model::{ErrorCode, Handle, Kind, Reply, Transfer};
use ffa_physmem::PhysMem;
use ffa_tlb::Translations;

impl<M: PhysMem + Drop, S: Store> Manager<M, S> {
    // Serves FFA_MEM_DONATE, FFA_MEM_LEND or FFA_MEM_SHARE of the runner.
    #[inline(never)]
    pub(super) fn mem_send<T: Translations>(
        &mut self,
        kind: Kind,
        transfer: Transfer,
        cache: &mut T,
        news: &mut News,
    ) -> Reply
        ensures { let held = T.entries cache.old in let kept = T.entries cache.new in
            let call = memory_send self.old.state kind transfer in
            let most = send_work self.old.state kind (send_read self.old.state kind transfer.total) in
            IsAnswered self.old self.new held kept news.old news.new true call most result }
    {
        let base = self.ram_base();
        let done = self.pool_send(kind, transfer, news);
        conclude(cache, base, done, news)
    }

    // Serves FFA_MEM_DONATE, FFA_MEM_LEND or FFA_MEM_SHARE of the runner. The cache keeps what it had.
    #[inline(always)]
    fn pool_send(
        &mut self,
        kind: Kind,
        transfer: Transfer,
        news: &mut News,
    ) -> Result<Value, ErrorCode>
        ensures done { let most = send_work self.old.state kind (send_read self.old.state kind transfer.total) in
            IsTold self.old self.new (memory_send self.old.state kind transfer) most result news.new }
        ensures told { news.new ≡ option_or (change_told result news.new) news.old }
    {
        let ffa = self.kept.manifest.ffa;
        let version = self.version();
        let call = DescriptorCall {
            transfer,
            ffa,
            version,
        };
        let runner = self.kept.chain.runner();
        let kept = &mut self.kept;
        let pool = &mut kept.pool;
        pool.send(
            &mut self.ram,
            &kept.layout,
            &mut kept.pages,
            &kept.buffers,
            runner,
            kind,
            &call,
            news,
        )
    }

    // Serves FFA_MEM_RETRIEVE_REQ of the runner.
    #[inline(never)]
    pub(super) fn mem_retrieve<T: Translations>(
        &mut self,
        transfer: Transfer,
        cache: &mut T,
        news: &mut News,
    ) -> Reply
        ensures { let held = T.entries cache.old in let kept = T.entries cache.new in
            let call = memory_retrieve self.old.state transfer in let most = call_work self.old.state (MemRetrieve transfer) in
            IsAnswered self.old self.new held kept news.old news.new true call most result }
    {
        if self.asks_back(transfer) {
            return self.read_back(transfer);
        }
        let base = self.ram_base();
        let done = self.pool_retrieve(transfer, news);
        conclude(cache, base, done, news)
    }

    // Whether FFA_MEM_RETRIEVE_REQ with these registers is a hypervisor's request: the runner wants the description of
    // what it sent itself.
    pub(super) fn asks_back(&self, transfer: Transfer) -> bool
        ensures { result ≡ asks_back self.now.state transfer }
    {
        let call = self.descriptor_call(transfer);
        let runner = self.kept.chain.runner();
        call.asks_back(&self.ram, &self.kept.buffers, runner)
    }

    // Returns the call with these registers, whose descriptor is in the runner's TX.
    #[inline(always)]
    pub(super) fn descriptor_call(&self, transfer: Transfer) -> DescriptorCall
        ensures { result ≡ record {
          transfer = transfer;
          ffa = self.now.state.ffa;
          version = version_of self.now.state self.now.state.runner;
        } }
    {
        DescriptorCall {
            transfer,
            ffa: self.kept.manifest.ffa,
            version: self.version(),
        }
    }

    // Serves a hypervisor's FFA_MEM_RETRIEVE_REQ. If nothing refuses the call, it writes the description of the
    // runner's own transaction to the runner's RX.
    #[inline(never)]
    fn read_back(&mut self, transfer: Transfer) -> Reply
        requires { asks_back self.old.state transfer ≡ true }
        ensures { IsReplied self.old self.new (hypervisor_retrieve self.old.state transfer) (loans_of 1) result }
    {
        let call = self.descriptor_call(transfer);
        let runner = self.kept.chain.runner();
        let kept = &mut self.kept;
        let told = kept.pool.read_back(
            &mut self.ram,
            &kept.layout,
            &kept.pages,
            &mut kept.buffers,
            runner,
            &call,
        );
        match told {
            Ok(size) => Reply::Retrieved(size),
            Err(code) => Reply::Error(code),
        }
    }

    // Serves FFA_MEM_RETRIEVE_REQ of a receiver. The cache keeps what it had.
    #[inline(always)]
    fn pool_retrieve(&mut self, transfer: Transfer, news: &mut News) -> Result<Value, ErrorCode>
        requires { asks_back self.old.state transfer ≡ false }
        ensures done { let most = retrieve_work self.old.state (retrieve_read self.old.state transfer.total) in
            IsTold self.old self.new (receiver_retrieve self.old.state transfer) most result news.new }
        ensures told { news.new ≡ option_or (change_told result news.new) news.old }
    {
        let ffa = self.kept.manifest.ffa;
        let version = self.version();
        let call = DescriptorCall {
            transfer,
            ffa,
            version,
        };
        let runner = self.kept.chain.runner();
        let kept = &mut self.kept;
        let pool = &mut kept.pool;
        pool.retrieve(
            &mut self.ram,
            &kept.layout,
            &mut kept.pages,
            &mut kept.buffers,
            runner,
            &call,
            news,
        )
    }

    // Serves FFA_MEM_RELINQUISH of the runner.
    #[inline(never)]
    pub(super) fn mem_relinquish<T: Translations>(
        &mut self,
        cache: &mut T,
        news: &mut News,
    ) -> Reply
        ensures { let held = T.entries cache.old in let kept = T.entries cache.new in
            let call = memory_relinquish self.old.state in
            let most = relinquish_work self.old.state (relinquish_read self.old.state) in
            IsAnswered self.old self.new held kept news.old news.new true call most result }
    {
        let base = self.ram_base();
        let done = self.pool_relinquish(news);
        conclude(cache, base, done, news)
    }

    // Serves FFA_MEM_RELINQUISH of the runner. The cache keeps what it had.
    #[inline(always)]
    fn pool_relinquish(&mut self, news: &mut News) -> Result<Value, ErrorCode>
        ensures done { let most = relinquish_work self.old.state (relinquish_read self.old.state) in
            IsTold self.old self.new (memory_relinquish self.old.state) most result news.new }
        ensures told { news.new ≡ option_or (change_told result news.new) news.old }
    {
        let runner = self.kept.chain.runner();
        let kept = &mut self.kept;
        let pool = &mut kept.pool;
        pool.relinquish(
            &mut self.ram,
            &kept.layout,
            &kept.pages,
            &kept.buffers,
            runner,
            news,
        )
    }

    // Serves FFA_MEM_RECLAIM of the runner.
    #[inline(never)]
    pub(super) fn mem_reclaim<T: Translations>(
        &mut self,
        handle: Handle,
        flags: u32,
        cache: &mut T,
        news: &mut News,
    ) -> Reply
        ensures { let held = T.entries cache.old in let kept = T.entries cache.new in
            let call = memory_reclaim self.old.state handle.0 flags in
            let most = call_work self.old.state (MemReclaim handle flags) in
            IsAnswered self.old self.new held kept news.old news.new true call most result }
    {
        let base = self.ram_base();
        let done = self.pool_reclaim(handle, flags, news);
        conclude(cache, base, done, news)
    }

    // Serves FFA_MEM_RECLAIM of the runner. The cache keeps what it had.
    #[inline(always)]
    fn pool_reclaim(
        &mut self,
        handle: Handle,
        flags: u32,
        news: &mut News,
    ) -> Result<Value, ErrorCode>
        ensures done { let most = call_work self.old.state (MemReclaim handle flags) in
            IsTold self.old self.new (memory_reclaim self.old.state handle.0 flags) most result news.new }
        ensures told { news.new ≡ option_or (change_told result news.new) news.old }
    {
        let runner = self.kept.chain.runner();
        let kept = &mut self.kept;
        let pages = &mut kept.pages;
        let pool = &mut kept.pool;
        pool.reclaim(
            &mut self.ram,
            &kept.layout,
            pages,
            runner,
            handle,
            flags,
            news,
        )
    }
}
