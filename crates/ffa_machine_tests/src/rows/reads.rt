// SPDX-License-Identifier: MIT OR Apache-2.0
//! The pages of RAM that an operation reads. They are the tables' pages, and the page that the definition of its reads
//! names, because each TX here has one page. No clause says that the code reads no other page.
ghost use Rattle.std.specs.Prelude.{◌≡◌, ◌*◌, IfOk};
ghost use Rattle.ffa_model.specs.Ram.{zero_ram};

use super::*;
use crate::checks::{alike, holds_at};
use ffa_model::{Address, Op, Outcome, PageNo, Size};
use ffa_physmem::{FlatRam, PhysMem};
use ffa_spmc::Machine;
use std::cell::Cell;

// The pages of the tables of the machine of the rows.
const TABLES: u32 = 9;

// The TX page of the first partition. The next constant is the TX page of the second partition.
const FIRST_TX: u32 = 0x2E;

const SECOND_TX: u32 = 0x3E;

// RAM that notes which pages are read, except the tables' pages.
#[derive(Drop)]
struct Noting {
    ram: FlatRam,
    named: Cell<Option<u32>>,
    is_read: Cell<bool>,
    strays: Cell<u32>,
}

impl Noting {
    // Returns a RAM of zeros for a machine.
    fn new(alloc: Global, manifest: &Manifest) -> Result<Noting, Fail>
        ensures { IfOk result (λ ram. ⟦<Noting as PhysMem>⟧.ram ram
            ≡ zero_ram manifest.now.ram_base.0 (512 * manifest.now.ram_blocks)) }
    {
        let ram = FlatRam::new(alloc, manifest.ram_base, 512 * manifest.ram_blocks)?;
        Ok(Noting {
            ram,
            named: Cell::new(None),
            is_read: Cell::new(false),
            strays: Cell::new(0),
        })
    }

    // Forgets the noted reads before an operation, which may read this page.
    fn begin(&self, named: Option<u32>) {
        self.named.set(named);
        self.is_read.set(false);
        self.strays.set(0);
    }

    // Notes that a page is read.
    fn note(&self, page: PageNo) {
        if page.0 < TABLES {
            return;
        }
        if self.named.get() == Some(page.0) {
            self.is_read.set(true);
        } else {
            self.strays.set(self.strays.get().wrapping_add(1));
        }
    }
}

impl PhysMem for Noting {
    ghost use Rattle.std.specs.Prelude.{refl};
    ghost use Rattle.ffa_physmem.specs.Unrecorded.{no_site, no_spending, no_steps, no_turn, unrecorded};
    ghost use Rattle.ffa_physmem.specs.Work.{loans_of};

    ghost ram = { λ m. ⟦<FlatRam as PhysMem>⟧.ram m.ram };

    ghost memory = { λ m. ⟦<FlatRam as PhysMem>⟧.ram m.ram };

    ghost with_bytes = { λ m page bytes. record m { ram = ⟦<FlatRam as PhysMem>⟧.with_bytes m.ram page bytes } };

    // This RAM keeps no record of its steps.
    ghost past = { λ _. unrecorded no_site };

    ghost beneath = { λ _. refl };

    ghost one_page = { λ m page bytes. refl };

    ghost in_loan = { λ _ _ _. no_steps refl };

    ghost one_loan = { λ _ _ _. no_spending no_site (loans_of 1) };

    ghost in_turn = { λ _. no_turn _ no_site };

    fn base(&self) -> Address {
        self.ram.base()
    }

    fn pages(&self) -> u32 {
        self.ram.pages()
    }

    fn page(&self, page: PageNo) -> &[u8; 4096] {
        self.note(page);
        self.ram.page(page)
    }

    fn page_mut(&mut self, page: PageNo) -> &mut [u8; 4096] {
        self.ram.page_mut(page)
    }

    fn read_word(&self, page: PageNo, index: usize) -> u64 {
        self.note(page);
        self.ram.read_word(page, index)
    }

    fn write_word(&mut self, page: PageNo, index: usize, value: u64) {
        self.ram.write_word(page, index, value);
    }

    fn settle(&mut self, _endpoint: usize, _first: PageNo, _count: u32) {}
}

// Whether a call with this x0 reads TX, by its function identifier.
fn reads_tx(x0: u64) -> bool {
    matches!(
        x0 & 0xFFFF_FFFF,
        0x8400_0071..=0x8400_0074 | 0x8400_0076 | 0x8400_0086
    )
}

// Returns the page that an operation of the runner may read, besides the tables' pages.
fn page_of(op: &Op, runner: u16) -> Option<u32> {
    match *op {
        Op::Call(x) if !reads_tx(x[0]) => None,
        Op::Call(_) if runner == 0x8001 => Some(FIRST_TX),
        Op::Call(_) if runner == 0x8002 => Some(SECOND_TX),
        Op::Call(_) => Some(0x1E),
        Op::Load { addr, .. } | Op::Fetch { addr } => {
            let offset = u64::wrapping_sub(addr, 0x4000_0000) / 4096;
            if offset < 512 {
                Some(offset as u32)
            } else {
                None
            }
        }
        Op::Store { .. } => None,
    }
}

// Does an operation. Asserts that it reads no page except the page that it may read. Returns whether it read this page.
fn reads_only(rt: &impl Abort, machine: &mut Machine<Noting>, op: &Op, case: u64) -> bool {
    let named = page_of(op, machine.runner().0);
    machine.ram().begin(named);
    let _ = machine.op(op);
    holds_at(rt, machine.ram().strays.get() == 0, &case);
    machine.ram().is_read.get()
}

fn call(x0: u64, x1: u64, x2: u64) -> Op {
    Op::Call([x0, x1, x2, 0, 0, 0, 0, 0])
}

fn map(tx: u64) -> Op {
    let rx = u64::wrapping_add(tx, 0x1000);
    Op::Call([0x8400_0066, tx, rx, 1, 0, 0, 0, 0])
}

fn store(addr: u64, value: u64) -> Op {
    let size = Size::B8;
    Op::Store { addr, size, value }
}

// Whether an operation is refused.
fn is_refused(outcome: &Outcome) -> bool {
    match outcome {
        Outcome::Regs { x, .. } => x[0] == 0x8400_0060,
        Outcome::Fault { .. } => true,
        _ => false,
    }
}

// Returns a machine whose first partition runs, and whose endpoints all have buffers.
fn noting_machine(alloc: Global) -> Result<Machine<Noting>, Fail> {
    let manifest = row_machine();
    let ram = Noting::new(alloc, &manifest)?;
    let mut machine = Machine::boot_with(&manifest, ram, NoTlb);
    let _ = machine.op(&map(0x4001_E000));
    for (target, tx) in [(0x8002_0000, 0x4003_E000), (0x8001_0000, 0x4002_E000)] {
        let _ = machine.op(&call(0x8400_006B, 0, 0));
        let _ = machine.op(&call(0x8400_006D, target, 0));
        let _ = machine.op(&map(tx));
    }
    Ok(machine)
}

// Does operations, and asserts that no operation is refused.
fn all_done(rt: &impl Abort, machine: &mut Machine<Noting>, ops: &[Op]) {
    for op in ops {
        let outcome = machine.op(op);
        alike(rt, is_refused(&outcome), false);
    }
}

// The words that the first partition writes to lend the page at 40021000, with zeros. The next two constants have the
// words that the second partition writes to retrieve and to relinquish this page.
const LEND: [(u64, u64); 8] = [
    (0x4002_E000, 0x1_0000_8001),
    (0x4002_E018, 0x1_0000_0010),
    (0x4002_E020, 0x30),
    (0x4002_E030, 0x40_0002_8002),
    (0x4002_E040, 0x1_0000_0001),
    (0x4002_E050, 0x4002_1000),
    (0x4002_E058, 1),
    (0x4002_E060, 0),
];

const RETRIEVE: [(u64, u64); 5] = [
    (0x4003_E000, 0x8001),
    (0x4003_E008, 0x8001_0000_0001),
    (0x4003_E018, 0x1_0000_0010),
    (0x4003_E020, 0x30),
    (0x4003_E030, 0x2_8002),
];

const RELINQUISH: [(u64, u64); 3] = [
    (0x4003_E000, 0x8001_0000_0001),
    (0x4003_E008, 0x1_0000_0001),
    (0x4003_E010, 0x8002),
];

// Writes words, and asserts that this reads no page.
fn write(rt: &impl Abort, machine: &mut Machine<Noting>, words: &[(u64, u64)]) {
    for word in words {
        let read = reads_only(rt, machine, &store(word.0, word.1), word.0);
        alike(rt, read, false);
    }
}

// A lend, a retrieve and a relinquish that succeed read the page of TX with their descriptor. A load reads its own
// page. A fetch without the right to execute does not read its page. No operation here reads another page.
#[test]
fn an_operation_reads_what_is_named(rt: HostRuntime) -> Result<(), Fail> {
    let mut machine = noting_machine(rt.alloc())?;
    write(&rt, &mut machine, &LEND);
    alike(
        &rt,
        reads_only(&rt, &mut machine, &call(0x8400_0072, 0x60, 0x60), 1),
        true,
    );
    all_done(
        &rt,
        &mut machine,
        &[call(0x8400_006B, 0, 0), call(0x8400_006D, 0x8002_0000, 0)],
    );
    write(&rt, &mut machine, &RETRIEVE);
    alike(
        &rt,
        reads_only(&rt, &mut machine, &call(0x8400_0074, 0x40, 0x40), 2),
        true,
    );
    all_done(
        &rt,
        &mut machine,
        &[call(0x8400_0065, 0, 0), store(0x4002_1000, 7)],
    );
    write(&rt, &mut machine, &RELINQUISH);
    alike(
        &rt,
        reads_only(&rt, &mut machine, &call(0x8400_0076, 0, 0), 3),
        true,
    );
    let load = Op::Load {
        addr: 0x4003_2000,
        size: Size::B8,
    };
    alike(&rt, reads_only(&rt, &mut machine, &load, 4), true);
    let fetch = Op::Fetch { addr: 0x4003_2000 };
    alike(&rt, reads_only(&rt, &mut machine, &fetch, 5), false);
    write(
        &rt,
        &mut machine,
        &[
            (0x4003_E008, 0x8002_8001_0000_0018),
            (0x4003_E000, 0),
            (0x4003_E010, 4),
        ],
    );
    let _ = reads_only(&rt, &mut machine, &call(0x8400_0086, 0, 0), 6);
    Ok(())
}

// Returns the next number of a sequence.
fn next(seed: &Cell<u64>) -> u64 {
    let value = u64::wrapping_add(
        u64::wrapping_mul(seed.get(), 6364136223846793005),
        1442695040888963407,
    );
    seed.set(value);
    value >> 16
}

// Draws an operation from a sequence of numbers. It is a call whose number is near the served numbers, or an access
// near pages of the partitions.
fn drawn(seed: &Cell<u64>) -> Op {
    let kind = next(seed) % 8;
    let addr = u64::wrapping_add(0x4001_0000, 8 * (next(seed) % 0x6800));
    match kind {
        0..=3 => {
            let number = u64::wrapping_add(0x8400_0060, next(seed) % 0x30);
            let (x1, x2) = (next(seed) % 0x80, next(seed) % 0x80);
            Op::Call([number, x1, x2, next(seed) % 2, 0, 0, 0, 0])
        }
        4 => Op::Fetch { addr },
        5 => Op::Load {
            addr,
            size: Size::B8,
        },
        _ => store(addr, next(seed)),
    }
}

// Operations that are drawn read only the pages that they may read.
#[test]
fn drawn_operations_read_what_is_named(rt: HostRuntime) -> Result<(), Fail> {
    let mut machine = noting_machine(rt.alloc())?;
    let seed = Cell::new(73);
    for case in 0..20_000u64 {
        let op = drawn(&seed);
        let _ = reads_only(&rt, &mut machine, &op, case);
    }
    Ok(())
}
