// SPDX-License-Identifier: MIT OR Apache-2.0
//! The calls on buffers, and partition information.
ghost use Rattle.std.specs.Prelude.{◌≡◌, length, None, if◌then◌else◌};
ghost use Rattle.std.specs.Result.{result_err};
ghost use Rattle.ffa_model.specs.Buffers.{rx_release, rxtx_map, rxtx_unmap};
ghost use Rattle.ffa_model.specs.Calls.{first_refusal, success};
ghost use Rattle.ffa_model.specs.State.{version_of};
ghost use Rattle.ffa_model.specs.Setup.{info_get, info_guards, told_info_size, informed, is_count_alone, selected, uuid_bytes};
ghost use Rattle.ffa_spmc.specs.Served.{IsReplied};
ghost use Rattle.ffa_spmc.specs.Moments.{AreMoments};
ghost use Rattle.ffa_spmc.specs.Unowned.{KeepsUnowned};
ghost use Rattle.ffa_physmem.specs.Work.{AddsAtMost, loans_of, no_work};

use super::Manager;
use crate::replies::done_or_error;
use crate::storage::Store;
use ffa_model::{Refusal, Reply};
use ffa_physmem::PhysMem;

// Whether a request for partition information wants only the count.
fn is_count_alone(flags: u32) -> bool
    ensures { result ≡ is_count_alone flags }
{
    flags % 2 == 1
}

impl<M: PhysMem + Drop, S: Store> Manager<M, S> {
    // Serves FFA_RX_RELEASE of the runner.
    pub(super) fn rx_release(&mut self) -> Reply
        ensures { IsReplied self.old self.new (rx_release self.old.state) no_work result }
    {
        let runner = self.kept.chain.runner();
        done_or_error(self.kept.buffers.rx_release(runner))
    }

    // Serves FFA_RXTX_MAP of the runner.
    pub(super) fn rxtx_map(&mut self, tx: u64, rx: u64, pages: u32) -> Reply
        ensures { IsReplied self.old self.new (rxtx_map self.old.state tx rx pages) no_work result }
    {
        let runner = self.kept.chain.runner();
        let ram_base = self.kept.manifest.ram_base;
        let owners = &self.kept.pages;
        done_or_error(
            self.kept
                .buffers
                .map(owners, ram_base, runner, tx, rx, pages),
        )
    }

    // Serves FFA_RXTX_UNMAP of the runner.
    pub(super) fn rxtx_unmap(&mut self, endpoint: u32) -> Reply
        ensures { IsReplied self.old self.new (rxtx_unmap self.old.state endpoint) no_work result }
    {
        let runner = self.kept.chain.runner();
        done_or_error(self.kept.buffers.unmap(runner, endpoint))
    }

    // Serves FFA_PARTITION_INFO_GET of the runner.
    pub(super) fn partition_info_get(&mut self, uuid: [u32; 4], flags: u32) -> Reply
        ensures { IsReplied self.old self.new (info_get self.old.state uuid flags) (loans_of 1) result }
    {
        match self.check_info(uuid, flags) {
            Ok(()) => self.inform(uuid, flags),
            Err(refusal) => Reply::Error(refusal.code()),
        }
    }

    // Makes the checks of FFA_PARTITION_INFO_GET of the runner in order. Returns the first check that fails.
    pub(super) fn check_info(&self, uuid: [u32; 4], flags: u32) -> Result<(), Refusal>
        ensures { result_err result ≡ first_refusal (info_guards self.now.state (uuid_bytes uuid) flags) }
    {
        let runner = self.kept.chain.runner();
        if !ffa_setup::is_recognized(&self.kept.manifest, uuid) {
            return Err(Refusal::UuidUnknown);
        }
        if is_count_alone(flags) {
            return Ok(());
        }
        if !self.kept.buffers.has(runner) {
            return Err(ffa_setup::missing_buffers(self.kept.manifest.ffa));
        }
        if self.kept.buffers.is_full(runner) {
            return Err(Refusal::RxFull);
        }
        Ok(())
    }

    // Returns the reply to a request of the runner for partition information. Unless the runner wants only the count,
    // it writes the descriptors to the runner's RX.
    fn inform(&mut self, uuid: [u32; 4], flags: u32) -> Reply
        requires { first_refusal (info_guards self.old.state (uuid_bytes uuid) flags) ≡ None }
        ensures state { self.new.state ≡ informed self.old.state (uuid_bytes uuid) flags }
        ensures unowned { KeepsUnowned self.old.state self.old.ram self.new.ram }
        ensures moments { AreMoments self.old.state self.old.ram self.new.ram self.old.past self.new.past }
        ensures few { AddsAtMost self.old.past self.new.past (loans_of 1) }
        ensures reply { result ≡ success (length (selected self.old.state.parties (uuid_bytes uuid)))
            (if is_count_alone flags then 0 else told_info_size (version_of self.old.state self.old.state.runner)) }
    {
        let count = ffa_setup::count(&self.kept.manifest, uuid);
        if is_count_alone(flags) {
            return Reply::Success([count, 0, 0, 0, 0, 0]);
        }
        let version = self.version();
        let bytes = ffa_setup::info_bytes(&self.kept.manifest, version, uuid);
        let runner = self.kept.chain.runner();
        self.kept
            .buffers
            .fill(&mut self.ram, runner, bytes.as_slice());
        Reply::Success([count, ffa_setup::told_info_size(version), 0, 0, 0, 0])
    }
}
