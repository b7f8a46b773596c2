// SPDX-License-Identifier: MIT OR Apache-2.0
//! A machine with the outcomes that C sees, for each kind of RAM.
ghost use Rattle.std.specs.Prelude.{◌≡◌, ◌<◌, ◌≤◌, ◌*◌, ◌↔◌, IfSome, IsTrue, true, false, length, is_some};
ghost use Rattle.std.specs.Option.{option_map};
ghost use Rattle.ffa_model.specs.declared.limits.TheConstants.{MOST_PROCESSORS};
ghost use Rattle.ffa_model.specs.Access.{access};
ghost use Rattle.ffa_model.specs.Agreement.{Agrees, blocks_of, roots_of};
ghost use Rattle.ffa_model.specs.Certified.{IsCertified};
ghost use Rattle.ffa_model.specs.Notices.{has_notices};
ghost use Rattle.ffa_model.specs.Notifications.{has_pending, notifications_of};
ghost use Rattle.ffa_model.specs.Processors.{first_processors};
ghost use Rattle.ffa_model.specs.Ram.{page_of, zero_ram};
ghost use Rattle.ffa_model.specs.Why.{granted};
ghost use Rattle.ffa_manifest.specs.Document.{parts_of};
ghost use Rattle.ffa_physmem.specs.Moments.{HasNoCopies};
ghost use Rattle.ffa_spmc.specs.Booted.{IsBootedBy};
ghost use Rattle.ffa_spmc.specs.Storages.{IsRoomFor};
ghost use Rattle.ffa_playable.specs.Standing.{detail};
ghost use Rattle.ffa_c.specs.Boarded.{cluster_of};
ghost use Rattle.ffa_c.specs.Booting.{IsFirst, IsFirstBy};
ghost use Rattle.ffa_c.specs.Border.{HasDone, access_code, owner_number, root_number};
ghost use Rattle.ffa_c.specs.Changes.{with_all_told};
ghost use Rattle.ffa_c.specs.Processors.{HasInterrupted, selected};
ghost use Rattle.ffa_c.specs.Runs.{run_at};
ghost use Rattle.ffa_c.specs.Why.{refuses, why_here};

use crate::kind::{BoardMachine, audited_by, code_of, operate, owner_by, root_by, run_by};
use crate::outcome::COutcome;
use ffa_lent::{Frames, LentRam};
use ffa_memshare::Changed;
use ffa_model::{
    CertRun, EndpointId, Grant, MOST_ENDPOINTS, MOST_PROCESSORS, Manifest, Op, PageNo,
};
use ffa_physmem::{FlatRam, PhysMem};
use ffa_playable::Explanation;
use ffa_spmc::{Cluster, Fill, Given, Machine, Storage, Store};
use ffa_tlb::NoTlb;
use std::alloc::Global;
use std::marker::Model;

// Does the same with the cluster of a machine of either kind.
macro_rules! either {
    ($kind:expr, $cluster:ident => $done:expr) => {
        match $kind {
            BoardMachine::Heap($cluster) => $done,
            BoardMachine::Lent($cluster) => $done,
        }
    };
}

// Asks a machine of either kind the same, as the processor of the last operation sees it.
macro_rules! asked {
    ($kind:expr, $machine:ident => $asked:expr) => {
        either!($kind, cluster => {
            let $machine = cluster.machine();
            $asked
        })
    };
}

mod copy;

/// The way in which a boot treats the bytes of lent pages.
#[derive(Clone, Copy)]
pub enum FirstBytes {
    /// All pages are zeros, except the pages of the tables.
    Cleared,
    /// Pages of the manifest's regions keep their bytes. All other pages are zeros, except the pages of the tables.
    Kept,
}

/// A machine with no cache, in RAM from the heap or in lent RAM. Contracts see the machine as the selected processor
/// sees it, the runner of each other processor, and which RAM the machine has.
#[derive(Drop)]
pub struct Board {
    kind: BoardMachine,
}

impl Model for Board {
    ghost use Rattle.ffa_c.specs.Boarded.{Boarded, boarded, coded_boarded};

    ghost Value = { Boarded };

    ghost coded = { coded_boarded };

    ghost view = { λ b. boarded b.kind };
}

// The machine of a manifest in its first state, in RAM of any kind and with no cache.
fn boot_cluster<M: PhysMem + Drop, S: Store>(
    storage: Storage<S>,
    manifest: &Manifest,
    ram: M,
    fill: Fill,
) -> Cluster<M, NoTlb, S>
    requires storage { IsRoomFor manifest.now storage }
    requires base { (M.ram ram).base ≡ manifest.now.ram_base.0 }
    requires size { length (M.ram ram).pages ≡ 512 * manifest.now.ram_blocks }
    requires zeros { fill ≡ Fill.AlreadyZero → M.ram ram ≡ zero_ram manifest.now.ram_base.0 (512 * manifest.now.ram_blocks) }
    requires free { HasNoCopies (M.past ram) }
    ensures site { result.machine.past.site ≡ (M.past ram).site }
    ensures booted { IsBootedBy fill manifest.now (M.ram ram) result.machine.state result.machine.ram }
    ensures told { result.machine.told ≡ None }
    ensures processors { result.processors ≡ first_processors }
{
    Cluster::of(Machine::boot_in(storage, manifest, ram, NoTlb, fill))
}

impl Board {
    /// Boots the machine of a manifest in its first state, in RAM that is zeros. Each processor runs the normal world.
    pub fn boot(manifest: &Manifest, ram: FlatRam, storage: Storage<Given<Global>>) -> Board
        requires storage { IsRoomFor manifest.now storage }
        requires ram { let pages = 512 * manifest.now.ram_blocks in
            ⟦<FlatRam as PhysMem>⟧.ram ram ≡ zero_ram manifest.now.ram_base.0 pages }
        ensures first { IsFirst (parts_of manifest.now) result.machine }
        ensures processors { result.processors ≡ first_processors }
        ensures kind { result.is_lent ≡ false }
    {
        let cluster = boot_cluster(storage, manifest, ram, Fill::AlreadyZero);
        Board {
            kind: BoardMachine::Heap(cluster),
        }
    }

    /// Boots the machine of a manifest in its first state, in lent RAM. It clears the RAM, or keeps the bytes in the
    /// manifest's regions. Each processor runs the normal world, and each page stays where it was lent.
    pub fn boot_lent(
        manifest: &Manifest,
        ram: LentRam,
        storage: Storage<Given<Global>>,
        bytes: FirstBytes,
    ) -> Board
        requires storage { IsRoomFor manifest.now storage }
        requires base { (⟦<LentRam as PhysMem>⟧.ram ram).base ≡ manifest.now.ram_base.0 }
        requires size { length (⟦<LentRam as PhysMem>⟧.ram ram).pages ≡ 512 * manifest.now.ram_blocks }
        requires free { HasNoCopies (⟦<LentRam as PhysMem>⟧.past ram) }
        ensures site { result.machine.past.site ≡ (⟦<LentRam as PhysMem>⟧.past ram).site }
        ensures first { IsFirstBy bytes (⟦<LentRam as PhysMem>⟧.ram ram).pages (parts_of manifest.now) result.machine }
        ensures processors { result.processors ≡ first_processors }
        ensures kind { result.is_lent ≡ true }
    {
        let cluster = match bytes {
            FirstBytes::Cleared => boot_cluster(storage, manifest, ram, Fill::Clear),
            FirstBytes::Kept => boot_cluster(storage, manifest, ram, Fill::KeepRegions),
        };
        Board {
            kind: BoardMachine::Lent(cluster),
        }
    }

    /// Whether the RAM of the machine is lent.
    pub fn is_lent(&self) -> bool
        ensures { result ≡ self.now.is_lent }
    {
        matches!(self.kind, BoardMachine::Lent(_))
    }

    /// Ends a machine in lent RAM. Returns the lent pages, with the bytes that they had in the end, and the room for
    /// another machine in them.
    pub fn into_frames(self) -> (Frames, Storage<Given<Global>>)
        requires { self.is_lent ≡ true }
        ensures pages { result.0.pages ≡ self.machine.ram.pages }
        ensures places { result.0.places ≡ self.machine.past.site.places }
        ensures ready { result.0.is_ready ≡ true }
        ensures room { length result.1.pages ≡ length result.0.pages }
    {
        match self.kind {
            BoardMachine::Lent(cluster) => {
                let (ram, storage) = cluster.into_machine().into_parts();
                (ram.into_frames(), storage)
            }
            BoardMachine::Heap(_) => unreachable!(),
        }
    }

    /// Does one operation of the runner of the selected processor, and writes the outcome in place. If the RAM is lent,
    /// others may write to the runner's TX at the same time.
    pub fn op(&mut self, op: &Op, outcome: &mut COutcome)
        ensures done { HasDone self.old.is_lent (cluster_of self.old) (cluster_of self.new) op.now outcome.new }
        ensures kind { self.new.is_lent ≡ self.old.is_lent }
    {
        either!(&mut self.kind, cluster => operate(cluster, op, outcome))
    }

    /// Whether FFA_NOTIFICATION_INFO_GET would name an endpoint to the normal world.
    pub fn has_notices(&self) -> bool
        ensures { result ≡ has_notices self.now.machine.state }
    {
        asked!(&self.kind, machine => machine.has_notices())
    }

    /// Selects a processor. From then on, operations are of the runner there.
    pub fn select(&mut self, processor: usize)
        requires { processor < MOST_PROCESSORS }
        ensures cluster { cluster_of self.new ≡ selected processor (cluster_of self.old) }
        ensures kind { self.new.is_lent ≡ self.old.is_lent }
    {
        either!(&mut self.kind, cluster => cluster.select(processor))
    }

    /// Does what an interrupt does that the selected processor takes, whichever endpoint runs there.
    pub fn interrupt(&mut self) -> COutcome
        ensures done { HasInterrupted (cluster_of self.old) (cluster_of self.new) result }
        ensures kind { self.new.is_lent ≡ self.old.is_lent }
    {
        either!(&mut self.kind, cluster => COutcome::of(&cluster.interrupt()))
    }

    /// Returns the report on the last successful call on memory, and clears it: whose access has changed, and to which
    /// pages.
    pub fn take_change(&mut self) -> Option<Changed>
        ensures told { result ≡ self.old.machine.told }
        ensures rest { self.new ≡ with_all_told self.old }
    {
        either!(&mut self.kind, cluster => cluster.take_change())
    }

    /// Returns the identifier of the endpoint that runs on the selected processor.
    pub fn runner(&self) -> u32
        ensures { result ≡ self.now.machine.state.runner }
    {
        asked!(&self.kind, machine => u32::from(machine.runner().0))
    }

    /// Returns the number of the machine's endpoints.
    pub fn endpoints(&self) -> u32
        ensures { result ≡ length self.now.machine.state.parties }
    {
        asked!(&self.kind, machine => machine.endpoints() as u32)
    }

    /// Returns RAM's first address.
    pub fn ram_base(&self) -> u32
        ensures { result ≡ self.now.machine.state.ram_base }
    {
        asked!(&self.kind, machine => machine.ram().base().0)
    }

    /// Returns the number of RAM's blocks of 2 MiB.
    pub fn ram_blocks(&self) -> u32
        ensures { result ≡ blocks_of self.now.machine.state }
    {
        asked!(&self.kind, machine => machine.ram().pages() / 512)
    }

    /// Returns the address of an endpoint's level 1 table, or `NOTHING` if there is no such endpoint.
    pub fn root_of(&self, endpoint: u16) -> u32
        ensures { result ≡ root_number self.now.machine.state endpoint }
    {
        asked!(&self.kind, machine => root_by(machine, EndpointId(endpoint)))
    }

    /// Returns the number of RAM's pages.
    pub fn pages(&self) -> u32
        ensures { result ≡ length self.now.machine.ram.pages }
    {
        asked!(&self.kind, machine => machine.ram().pages())
    }

    /// Returns the owner of a page, with 0x8000 for the manager, or `NOTHING` if there is no such page.
    pub fn owner_of(&self, page: u32) -> u32
        ensures { result ≡ owner_number self.now.machine page }
    {
        asked!(&self.kind, machine => owner_by(machine, PageNo(page)))
    }

    /// Returns the right of an endpoint to a page, as the number that C has for it.
    pub fn access(&self, endpoint: u16, page: u32) -> u32
        ensures { result ≡ access_code (access self.now.machine.state endpoint page) }
    {
        asked!(&self.kind, machine => code_of(machine.access(EndpointId(endpoint), PageNo(page))))
    }

    /// Returns the ground on which an endpoint has its access to a page, if it has access.
    pub fn grant_of(&self, endpoint: u16, page: u32) -> Option<Grant>
        ensures { result ≡ granted self.now.machine.state endpoint page }
    {
        asked!(&self.kind, machine => ffa_reasons::grant_of(machine, EndpointId(endpoint), PageNo(page)))
    }

    /// Returns the longest run of the certificate from a page on, if there is such a page.
    pub fn cert_run(&self, page: u32) -> Option<CertRun>
        ensures { result ≡ run_at self.now.machine page }
    {
        asked!(&self.kind, machine => run_by(machine, PageNo(page)))
    }

    /// Returns why an operation of the runner would be refused now, or was refused just before. Returns `None` if the
    /// operation would be done.
    pub fn why(&self, op: &Op) -> Option<Explanation>
        ensures why { option_map (λ its. its.why) result ≡ why_here self.now.machine.state op.now }
        ensures detail { IfSome result (λ its. its.detail ≡ detail self.now.machine.state op.now its.why) }
        ensures refused { is_some result ≡ refuses self.now.machine.state op.now }
    {
        asked!(&self.kind, machine => ffa_reasons::why_resuming(machine, op))
    }

    /// Whether an endpoint has a pending notification.
    pub fn has_pending(&self, endpoint: u16) -> bool
        ensures { result ≡ has_pending (notifications_of self.now.machine.state) endpoint }
    {
        asked!(&self.kind, machine => machine.has_pending(EndpointId(endpoint)))
    }

    /// Whether runs of pages are a certificate that the machine's tables give.
    pub fn audit(&self, runs: &[CertRun]) -> bool
        ensures certified { let s = self.now.machine in IsTrue result ↔ IsCertified s.ram (roots_of s.state) runs.now }
        ensures agrees { Agrees self.now.machine.ram self.now.machine.state }
        ensures few { length self.now.machine.state.parties ≤ MOST_ENDPOINTS }
    {
        asked!(&self.kind, machine => audited_by(machine, runs))
    }

    /// Returns the bytes of a page of RAM.
    pub fn page(&self, page: u32) -> &[u8; 4096]
        requires { page < length self.now.machine.ram.pages }
        ensures { result.now ≡ page_of self.now.machine.ram page }
    {
        asked!(&self.kind, machine => machine.ram().page(PageNo(page)))
    }
}
