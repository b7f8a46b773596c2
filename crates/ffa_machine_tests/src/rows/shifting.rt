// SPDX-License-Identifier: MIT OR Apache-2.0
//! Calls that read TX in RAM to which others write at the same time. A call uses the bytes of one reading.
//!
//! One word of this RAM changes at each reading, and again when the reading ends. So a call that read it twice, or
//! after the end, would find two different words.
ghost use Rattle.std.specs.Prelude.{◌≡◌, ℕ, ◌+◌, ◌*◌, ◌<◌, ◌≤◌, true, length, IfOk};
ghost use Rattle.ffa_model.specs.Lists.{is_in_run};
ghost use Rattle.ffa_model.specs.Ram.{page_of, zero_ram};
ghost use Rattle.ffa_physmem.specs.Moments.{IsBeside};

use super::*;
use crate::checks::{alike, same};
use ffa_manifest::{ManifestError, of_parts};
use ffa_model::{Address, Effect, Ffa, Op, Outcome, PageNo, Size};
use ffa_physmem::{FlatRam, Observed, PhysMem};
use ffa_spmc::{Cluster, Fill, Machine, Storage};
use fixtures::{FIRST, partition, word, writable};

// Returns the machine of the rows with a third partition.
fn three_partitions() -> Result<Manifest, ManifestError> {
    let mut endpoints = row_machine().endpoints;
    endpoints.push(partition(0x20, writable(0x4004_0000, 16)));
    of_parts(0x4000_0000, 1, PageNo(0), endpoints, Ffa::V1_1)
}

// The first page of the first partition's TX. The next two constants are places of words there. They are the word of
// the page that its descriptor names, and the word of its message's receiver.
const TX: PageNo = PageNo(0x2E);

const NAMED: usize = 10;

const RECEIVER: usize = 1;

// Whether TX is one of this number of pages from `first` on.
fn has_tx(first: PageNo, count: u32) -> bool
    ensures { result ≡ is_in_run first.0 count 0x2E }
{
    let (first, count) = (u64::from(first.0), u64::from(count));
    first <= u64::from(TX.0) && u64::from(TX.0) < first + count
}

// RAM with a word to which others write. At each reading of its page, and at each end of a reading, the word becomes
// the next one.
#[derive(Drop)]
struct Shifting {
    ram: FlatRam,
    word: usize,
    next: u64,
    last: u64,
    ghost place: { word < 512 },
}

impl Shifting {
    // Returns a RAM of zeros for a machine.
    fn new(
        alloc: Global,
        manifest: &Manifest,
        word: usize,
        next: [u64; 2],
    ) -> Result<Shifting, Fail>
        requires { word < 512 }
        ensures { IfOk result (λ ram. ⟦<Shifting as PhysMem>⟧.ram ram
            ≡ zero_ram manifest.now.ram_base.0 (512 * manifest.now.ram_blocks)) }
    {
        let ram = FlatRam::new(alloc, manifest.ram_base, 512 * manifest.ram_blocks)?;
        Ok(Shifting {
            ram,
            word,
            next: next[0],
            last: next[1],
        })
    }

    // Writes the next word, if its page is one of these pages.
    fn shift(&mut self, first: PageNo, count: u32)
        requires { first.0 + count ≤ length (⟦<FlatRam as PhysMem>⟧.ram self.old.ram).pages }
        ensures beside { IsBeside (⟦<FlatRam as PhysMem>⟧.ram self.old.ram) (⟦<FlatRam as PhysMem>⟧.ram self.new.ram)
            (is_in_run first.0 count) }
        ensures whole { (p : ℕ) → length (page_of (⟦<FlatRam as PhysMem>⟧.ram self.new.ram) p)
            ≡ length (page_of (⟦<FlatRam as PhysMem>⟧.ram self.old.ram) p) }
    {
        if has_tx(first, count) {
            // Proof step: the page is whole.
            let _ = self.ram.page(TX);
            self.ram.write_word(TX, self.word, self.next);
            self.next = self.last;
        }
    }
}

impl PhysMem for Shifting {
    ghost use Rattle.std.specs.Prelude.{refl};
    ghost use Rattle.ffa_physmem.specs.Unrecorded.{no_site, no_spending, no_steps, no_turn, unrecorded};
    ghost use Rattle.ffa_physmem.specs.Work.{loans_of};

    ghost ram = { λ m. ⟦<FlatRam as PhysMem>⟧.ram m.ram };

    ghost memory = { λ m. ⟦<FlatRam as PhysMem>⟧.ram m.ram };

    ghost with_bytes = { λ m page bytes. record m { ram = ⟦<FlatRam as PhysMem>⟧.with_bytes m.ram page bytes } };

    // This RAM keeps no record of its steps.
    ghost past = { λ _. unrecorded no_site };

    ghost beneath = { λ _. refl };

    ghost one_page = { λ m page bytes. refl };

    ghost in_loan = { λ _ _ _. no_steps refl };

    ghost one_loan = { λ _ _ _. no_spending no_site (loans_of 1) };

    ghost in_turn = { λ _. no_turn _ no_site };

    fn base(&self) -> Address {
        self.ram.base()
    }

    fn pages(&self) -> u32 {
        self.ram.pages()
    }

    fn page(&self, page: PageNo) -> &[u8; 4096] {
        self.ram.page(page)
    }

    fn page_mut(&mut self, page: PageNo) -> &mut [u8; 4096] {
        self.ram.page_mut(page)
    }

    fn write_word(&mut self, page: PageNo, index: usize, value: u64) {
        self.ram.write_word(page, index, value);
    }

    fn settle(&mut self, _endpoint: usize, _first: PageNo, _count: u32) {}
}

impl Observed for Shifting {
    ghost use Rattle.std.specs.Prelude.{true, false};

    // A word changes only when a reading begins or ends.
    ghost is_alone = { false };

    ghost is_copying = { false };

    ghost is_shared = { true };

    #[inline(always)]
    fn is_shared(&self) -> bool {
        true
    }

    fn observe(&mut self, first: PageNo, count: u32, _bytes: usize) {
        self.shift(first, count);
    }

    fn release(&mut self, first: PageNo, count: u32) {
        self.shift(first, count);
    }
}

// Returns a call with these three registers.
fn call(x0: u64, x1: u64, x2: u64) -> Op {
    Op::Call([x0, x1, x2, 0, 0, 0, 0, 0])
}

// Returns FFA_RXTX_MAP with one page for each buffer.
fn map(tx: u64) -> Op {
    Op::Call([
        0x8400_0066,
        tx,
        u64::wrapping_add(tx, 0x1000),
        1,
        0,
        0,
        0,
        0,
    ])
}

fn store(addr: u64, value: u64) -> Op {
    Op::Store {
        addr,
        size: Size::B8,
        value,
    }
}

// Does one operation that lets no preempted partition go on.
fn act(machine: &mut Cluster<Shifting>, op: &Op) -> Outcome {
    let mut effect = Effect::Outcome(Outcome::Done);
    machine.op(op, &mut effect);
    match effect {
        Effect::Outcome(outcome) => outcome,
        Effect::Resumed(_) => Outcome::Done,
    }
}

// Maps the buffers of each partition. The first partition runs at the end.
fn begin(machine: &mut Cluster<Shifting>) {
    for (target, tx) in [
        (0x8003_0000, 0x4004_E000),
        (0x8002_0000, 0x4003_E000),
        (0x8001_0000, 0x4002_E000),
    ] {
        // The partition that runs does FFA_MSG_WAIT, and the normal world does FFA_RUN of the next partition.
        let _ = act(machine, &call(0x8400_006B, 0, 0));
        let _ = act(machine, &call(0x8400_006D, target, 0));
        let _ = act(machine, &map(tx));
    }
}

// Returns a machine whose first partition runs, and whose partitions all have buffers.
fn shifting_machine(alloc: Global, word: usize, next: [u64; 2]) -> Result<Cluster<Shifting>, Fail>
    requires { word < 512 }
{
    let manifest = three_partitions()?;
    let ram = Shifting::new(alloc, &manifest, word, next)?;
    let storage = Storage::inline(&manifest);
    let machine = Machine::boot_in(storage, &manifest, ram, NoTlb, Fill::AlreadyZero);
    let mut machine = Cluster::of(machine);
    begin(&mut machine);
    Ok(machine)
}

// Returns the registers of a call's outcome.
fn registers(outcome: &Outcome) -> [u64; 8] {
    match outcome {
        Outcome::Regs { x, .. } => *x,
        _ => [0; 8],
    }
}

// Writes the descriptor of a lend of the page at 40021000 to the second partition. It omits the word that names the
// page.
fn write_lend(machine: &mut Cluster<Shifting>) {
    let words = [
        (0x00, 0x8001),
        (0x18, 0x1_0000_0010),
        (0x20, 0x30),
        (0x30, 0x40_0002_8002),
        (0x40, 0x1_0000_0001),
        (0x58, 1),
    ];
    for (place, value) in words {
        let _ = act(
            machine,
            &store(u64::wrapping_add(0x4002_E000, place), value),
        );
    }
}

// The call lends the page that the reading names, and not the page that is named in TX when the call ends.
#[test]
fn a_descriptor_is_read_once(rt: HostRuntime) -> Result<(), Fail> {
    let mut machine = shifting_machine(rt.alloc(), NAMED, [0x4002_1000, 0x4002_2000])?;
    write_lend(&mut machine);
    let outcome = act(&mut machine, &call(0x8400_0072, 0x60, 0x60));
    same(&rt, registers(&outcome)[0], 0x8400_0061);
    same(
        &rt,
        word(machine.machine().ram(), TX.0, NAMED),
        Some(0x4002_2000),
    );
    alike(
        &rt,
        machine.machine().access(FIRST, PageNo(0x21)).is_some(),
        false,
    );
    alike(
        &rt,
        machine.machine().access(FIRST, PageNo(0x22)).is_some(),
        true,
    );
    Ok(())
}

// The call refuses a page of another endpoint that the reading names, though TX names an own page when the call ends.
#[test]
fn a_bad_descriptor_is_read_once(rt: HostRuntime) -> Result<(), Fail> {
    let mut machine = shifting_machine(rt.alloc(), NAMED, [0x4003_1000, 0x4002_1000])?;
    write_lend(&mut machine);
    let outcome = act(&mut machine, &call(0x8400_0072, 0x60, 0x60));
    same(&rt, registers(&outcome)[0], 0x8400_0060);
    alike(
        &rt,
        machine.machine().access(FIRST, PageNo(0x21)).is_some(),
        true,
    );
    Ok(())
}

// A message goes to the receiver that the reading names, with the bytes of this reading.
#[test]
fn a_message_is_read_once(rt: HostRuntime) -> Result<(), Fail> {
    let next = [0x8001_8002_0000_0018, 0x8001_8003_0000_0018];
    let mut machine = shifting_machine(rt.alloc(), RECEIVER, next)?;
    let _ = act(&mut machine, &store(0x4002_E010, 2));
    let _ = act(&mut machine, &store(0x4002_E018, 0x0707));
    let outcome = act(&mut machine, &call(0x8400_0086, 0, 0));
    same(&rt, registers(&outcome)[0], 0x8400_0061);
    same(
        &rt,
        word(machine.machine().ram(), TX.0, RECEIVER),
        Some(0x8001_8003_0000_0018),
    );
    same(
        &rt,
        word(machine.machine().ram(), 0x3F, RECEIVER),
        Some(0x8001_8002_0000_0018),
    );
    same(&rt, word(machine.machine().ram(), 0x3F, 3), Some(0x0707));
    same(&rt, word(machine.machine().ram(), 0x4F, RECEIVER), Some(0));
    Ok(())
}
