// SPDX-License-Identifier: MIT OR Apache-2.0
//! Calls on memory, with a look at RAM after each write, as a second processor could look. The tests check three
//! things. At any time, the walk of a page has its result from before the call, its result from after the call, or a
//! fault. No page is filled with zeros while a walk leads to it, or led to it since the page was last settled. After a
//! call, no translation unit may hold a result of a walk that the walk no longer has.
//!
//! Each word of a table is a write of its own here. No page of tables is lent by `page_mut`, because a look would see
//! all words of a loan at once. A retrieve lends one page: its caller's RX.
ghost use Rattle.std.specs.Prelude.{◌≡◌, ◌*◌, ◌<◌, length, IfOk};
ghost use Rattle.ffa_model.specs.Ram.{zero_ram};

use super::memory::{MAPPED, RETRIEVE, TO_FIRST, TO_SECOND};
use super::*;
use crate::checks::same_at;
use ffa_model::{Address, FaultKind, Leaf, PageNo};
use ffa_physmem::{FlatRam, PhysMem};
use ffa_reasons::Explained;
use ffa_spmc::Machine;
use ffa_walker::{is_in_ram, translate};
use fixtures::{row_machine_with, writable};
use std::cell::Cell;

// The walk of a page by one endpoint's tables: its result when the call began, another result since then that leads to
// a page, and its result now. `held` is the result that a translation unit may hold, because a look saw it and it was
// not settled since. `is_broken` says that the walk faulted during the call. `is_strange` says that there was more than
// one other result.
#[derive(Drop)]
struct Walk {
    endpoint: usize,
    root: u32,
    page: u32,
    address: u64,
    before: Cell<Result<Leaf, FaultKind>>,
    behind: Cell<Result<Leaf, FaultKind>>,
    answer: Cell<Result<Leaf, FaultKind>>,
    held: Cell<Result<Leaf, FaultKind>>,
    is_broken: Cell<bool>,
    is_strange: Cell<bool>,
}

impl Walk {
    // Returns the result of the walk now.
    fn answer_in(&self, ram: &FlatRam) -> Result<Leaf, FaultKind> {
        if self.root % 4096 != 0 || !is_in_ram(ram, u64::from(self.root)) {
            return Err(FaultKind::OutsideRam);
        }
        translate(ram, self.root, self.address)
    }

    // Notes the result of the walk now.
    fn look(&self, ram: &FlatRam) {
        let answer = self.answer_in(ram);
        let last = self.answer.get();
        if answer.is_ok() {
            self.held.set(answer);
        }
        if answer == last {
            return;
        }
        self.answer.set(answer);
        if answer.is_err() {
            self.is_broken.set(true);
        } else if answer != self.before.get() {
            let is_second = self.behind.get().is_ok() && answer != self.behind.get();
            self.is_strange.set(self.is_strange.get() || is_second);
            self.behind.set(answer);
        }
    }

    // Whether there was a result other than the result before the call, the result now, and a fault.
    fn is_wavering(&self) -> bool {
        let behind = self.behind.get();
        self.is_strange.get() || behind.is_ok() && behind != self.answer.get()
    }

    // Whether a translation unit may hold a result other than the result now.
    fn is_stale(&self) -> bool {
        self.held.get().is_ok() && self.held.get() != self.answer.get()
    }

    // Forgets the notes, because a call begins.
    fn begin(&self) {
        self.before.set(self.answer.get());
        self.behind.set(Err(FaultKind::Translation));
        self.is_broken.set(false);
        self.is_strange.set(false);
    }
}

// The effects of a call's writes. `changed` is the number of walks with another result after the call, and `broken` the
// number with the same result that faulted during the call. `wavering` is the number of walks that had a third result.
// `cleared` is the number of pages that became zeros, and `reached` the number of them that a translation unit could
// reach then. `stale` is the number of walks with another result in a translation unit after the call. `lent` is the
// number of pages that were lent for writing: a look sees all writes to them at once.
#[derive(Clone, Copy, Debug, PartialEq, Eq)]
struct Writes {
    changed: u32,
    broken: u32,
    wavering: u32,
    cleared: u32,
    reached: u32,
    stale: u32,
    lent: u32,
}

// The pages of the tables of the machine of the rows.
const TABLES: u32 = 9;

// RAM that looks at walks after each write of a call: the walks of some pages, by the tables of every endpoint. It
// counts reads of tables at any time.
#[derive(Drop)]
pub(super) struct Watched {
    ram: FlatRam,
    walks: Vec<Walk>,
    writes: Cell<Writes>,
    is_call: Cell<bool>,
    pub(super) reads: Cell<u32>,
}

impl Watched {
    // Counts the read of a page, if it is a page of the tables.
    fn count(&self, page: PageNo) {
        if page.0 < TABLES {
            self.reads.set(self.reads.get().wrapping_add(1));
        }
    }

    // Looks at each walk, during a call.
    fn look(&self) {
        if self.is_call.get() {
            for walk in self.walks.iter() {
                walk.look(&self.ram);
            }
        }
    }

    // Whether some translation unit may reach a page.
    fn is_reached(&self, page: PageNo) -> bool {
        let base = u64::from(self.ram.base().0);
        let address = u64::wrapping_add(base, 4096 * u64::from(page.0));
        self.walks.iter().any(|walk| match walk.held.get() {
            Ok(leaf) => leaf.phys == address,
            Err(_) => false,
        })
    }

    // Forgets the counts, because a call begins.
    fn begin(&self) {
        self.is_call.set(true);
        self.look();
        for walk in self.walks.iter() {
            walk.begin();
        }
        self.writes.set(NOTHING);
    }

    // Returns the counts since the call began, because the call is over.
    fn counted(&self) -> Writes {
        self.look();
        self.is_call.set(false);
        let mut writes = self.writes.get();
        for walk in self.walks.iter() {
            writes.stale = writes.stale.wrapping_add(u32::from(walk.is_stale()));
            if walk.is_wavering() {
                writes.wavering = writes.wavering.wrapping_add(1);
            } else if walk.answer.get() != walk.before.get() {
                writes.changed = writes.changed.wrapping_add(1);
            } else if walk.is_broken.get() {
                writes.broken = writes.broken.wrapping_add(1);
            }
        }
        writes
    }
}

// No writes.
const NOTHING: Writes = Writes {
    changed: 0,
    broken: 0,
    wavering: 0,
    cleared: 0,
    reached: 0,
    stale: 0,
    lent: 0,
};

impl PhysMem for Watched {
    ghost use Rattle.std.specs.Prelude.{refl};
    ghost use Rattle.ffa_physmem.specs.Unrecorded.{no_site, no_spending, no_steps, no_turn, unrecorded};
    ghost use Rattle.ffa_physmem.specs.Work.{loans_of};

    ghost ram = { λ m. ⟦<FlatRam as PhysMem>⟧.ram m.ram };

    ghost memory = { λ m. ⟦<FlatRam as PhysMem>⟧.ram m.ram };

    ghost with_bytes = { λ m page bytes. record m { ram = ⟦<FlatRam as PhysMem>⟧.with_bytes m.ram page bytes } };

    // This RAM keeps no record of its steps.
    ghost past = { λ _. unrecorded no_site };

    ghost beneath = { λ _. refl };

    ghost one_page = { λ m page bytes. refl };

    ghost in_loan = { λ _ _ _. no_steps refl };

    ghost one_loan = { λ _ _ _. no_spending no_site (loans_of 1) };

    ghost in_turn = { λ _. no_turn _ no_site };

    fn base(&self) -> Address {
        self.ram.base()
    }

    fn pages(&self) -> u32 {
        self.ram.pages()
    }

    fn page(&self, page: PageNo) -> &[u8; 4096] {
        self.count(page);
        self.ram.page(page)
    }

    fn read_word(&self, page: PageNo, index: usize) -> u64 {
        self.count(page);
        self.ram.read_word(page, index)
    }

    fn page_mut(&mut self, page: PageNo) -> &mut [u8; 4096] {
        self.look();
        let writes = self.writes.get();
        self.writes.set(Writes {
            lent: writes.lent.wrapping_add(1),
            ..writes
        });
        self.ram.page_mut(page)
    }

    fn settle(&mut self, endpoint: usize, first: PageNo, count: u32) {
        self.look();
        for walk in self.walks.iter() {
            let is_named = walk.page >= first.0 && walk.page - first.0 < count;
            if walk.endpoint == endpoint && is_named {
                walk.held.set(walk.answer.get());
            }
        }
    }

    fn write_word(&mut self, page: PageNo, index: usize, value: u64) {
        self.ram.write_word(page, index, value);
        self.look();
    }

    fn clear_page(&mut self, page: PageNo) {
        let writes = self.writes.get();
        let reached = u32::from(self.is_reached(page));
        self.writes.set(Writes {
            cleared: writes.cleared.wrapping_add(1),
            reached: writes.reached.wrapping_add(reached),
            ..writes
        });
        self.ram.clear_page(page);
        self.look();
    }
}

impl Watched {
    // Returns a RAM of zeros for a machine.
    pub(super) fn new(alloc: Global, manifest: &Manifest) -> Result<Watched, Fail>
        ensures { IfOk result (λ ram. ⟦<Watched as PhysMem>⟧.ram ram
            ≡ zero_ram manifest.now.ram_base.0 (512 * manifest.now.ram_blocks)) }
    {
        let walks = walks_of(alloc, manifest)?;
        let ram = FlatRam::new(alloc, manifest.ram_base, 512 * manifest.ram_blocks)?;
        Ok(Watched {
            ram,
            walks,
            writes: Cell::new(NOTHING),
            is_call: Cell::new(false),
            reads: Cell::new(0),
        })
    }
}

// Returns the walks from the roots of all endpoints.
fn walks_of(alloc: Global, manifest: &Manifest) -> Result<Vec<Walk>, Fail> {
    let mut walks = Vec::new(alloc);
    for index in 0..manifest.endpoints.len() {
        push_walks(&mut walks, manifest, index)?;
    }
    Ok(walks)
}

// Adds the walks of an endpoint for the first three and the last three pages of each block.
fn push_walks(walks: &mut Vec<Walk>, manifest: &Manifest, endpoint: usize) -> Result<(), Fail>
    requires { endpoint < length manifest.now.endpoints.items }
{
    let root = manifest.root(endpoint);
    for page in 0..512 * manifest.ram_blocks {
        if (page + 3) % 512 < 6 {
            walks.push(Walk {
                endpoint,
                root,
                page,
                address: u64::from(manifest.ram_base.0) + 4096 * u64::from(page),
                before: Cell::new(Err(FaultKind::Translation)),
                behind: Cell::new(Err(FaultKind::Translation)),
                answer: Cell::new(Err(FaultKind::Translation)),
                held: Cell::new(Err(FaultKind::Translation)),
                is_broken: Cell::new(false),
                is_strange: Cell::new(false),
            })?;
        }
    }
    Ok(())
}

// Returns the machine of the rows with one more block. Its first partition has this whole block, and the two pages
// before it. That partition runs, and all endpoints have buffers.
fn watched_machine(rt: &impl Abort, alloc: Global) -> Result<Player<Explained<Watched>>, Fail> {
    let manifest = row_machine_with(2, 1, writable(0x401F_E000, 514))?;
    let ram = Watched::new(alloc, &manifest)?;
    let mut player = Player::new(Explained(Machine::boot_with(&manifest, ram, NoTlb)));
    goes_on(rt, alloc, &mut player, MAPPED)?;
    Ok(player)
}

// Plays a call that prints its text. Returns the effects of the call's writes.
fn writes_of(
    rt: &impl Abort,
    alloc: Global,
    player: &mut Player<Explained<Watched>>,
    call: &str,
) -> Result<Writes, Fail> {
    player.machine().0.ram().begin();
    goes_on(rt, alloc, player, call)?;
    Ok(player.machine().0.ram().counted())
}

// Pages that a partition sends. `pages` is their number, and `looked_at` the number of them that the RAM looks at.
// `beside` is the number of other pages that it looks at, and whose block is split or joined for the sender.
struct Sending {
    steps: &'static str,
    pages: u32,
    looked_at: u32,
    beside: u32,
}

// The page before the block, and the whole block.
const AROUND: Sending = Sending {
    steps: "\
store 4002E040 0000000100000201 -> done
store 4002E050 00000000401FF000 -> done
store 4002E058 0000000000000201 -> done
",
    pages: 513,
    looked_at: 7,
    beside: 0,
};

// Two pages inside the block.
const INSIDE: Sending = Sending {
    steps: "\
store 4002E040 0000000100000002 -> done
store 4002E050 0000000040201000 -> done
store 4002E058 0000000000000002 -> done
",
    pages: 2,
    looked_at: 2,
    beside: 4,
};

impl Sending {
    // Returns the effects of a call that changes the access to these pages and fills them with zeros.
    fn with_zeros(&self) -> Writes {
        Writes {
            changed: self.looked_at,
            cleared: self.pages,
            ..NOTHING
        }
    }

    // Returns the effects of a call of the sender that also splits or joins the sender's block.
    fn with_a_break(&self) -> Writes {
        Writes {
            broken: self.beside,
            ..self.with_zeros()
        }
    }

    // Returns the effects of a call that changes the access to these pages and keeps their bytes.
    fn with_bytes(&self) -> Writes {
        Writes {
            cleared: 0,
            ..self.with_zeros()
        }
    }

    // Returns the effects of a call of the sender that keeps the bytes, and also splits or joins the sender's block.
    fn with_bytes_and_a_break(&self) -> Writes {
        Writes {
            cleared: 0,
            ..self.with_a_break()
        }
    }

    // Returns the effects of a call that changes the access to these pages and writes a response to RX.
    fn with_response(&self) -> Writes {
        Writes {
            changed: self.looked_at,
            lent: 1,
            ..NOTHING
        }
    }
}

// The first partition sends to the second, with zeros.
const ZEROED: &str = "\
store 4002E000 0000000100008001 -> done
store 4002E018 0000000100000010 -> done
store 4002E020 0000000000000030 -> done
";

const LENT: &str = "store 4002E030 0000004000028002 -> done\n";

const DONATED: &str = "store 4002E030 0000004000008002 -> done\n";

// The second partition relinquishes the transaction, with zeros.
const GIVEN_UP: &str = "\
store 4003E000 0000800100000001 -> done
store 4003E008 0000000100000001 -> done
store 4003E010 8002 -> done
";

const RETRIEVED: &str = "response: call 84000074 40 40 -> 8002: 84000075 60 60";

const RECLAIM: &str = "break and zeros: call 84000077 1 8001 1 -> 8001: 84000061";

// Plays steps one by one on a machine whose first partition runs. Counts the effects of each step that is a call on
// memory.
fn counts(rt: &impl Abort, alloc: Global, sending: &Sending, parts: &[&str]) -> Result<(), Fail> {
    let mut player = watched_machine(rt, alloc)?;
    for part in parts {
        for step in part.lines() {
            counts_step(rt, alloc, &mut player, sending, step)?;
        }
    }
    Ok(())
}

fn counts_step(
    rt: &impl Abort,
    alloc: Global,
    player: &mut Player<Explained<Watched>>,
    sending: &Sending,
    step: &str,
) -> Result<(), Fail> {
    if let Some(call) = step.strip_prefix("zeros: ") {
        let writes = writes_of(rt, alloc, player, call)?;
        same_at(rt, writes, sending.with_zeros(), &step);
    } else if let Some(call) = step.strip_prefix("break and zeros: ") {
        let writes = writes_of(rt, alloc, player, call)?;
        same_at(rt, writes, sending.with_a_break(), &step);
    } else if let Some(call) = step.strip_prefix("bytes: ") {
        let writes = writes_of(rt, alloc, player, call)?;
        same_at(rt, writes, sending.with_bytes(), &step);
    } else if let Some(call) = step.strip_prefix("break and bytes: ") {
        let writes = writes_of(rt, alloc, player, call)?;
        same_at(rt, writes, sending.with_bytes_and_a_break(), &step);
    } else if let Some(call) = step.strip_prefix("response: ") {
        let writes = writes_of(rt, alloc, player, call)?;
        same_at(rt, writes, sending.with_response(), &step);
    } else {
        goes_on(rt, alloc, player, step)?;
    }
    Ok(())
}

// The steps of a lend: how the sender sends it, how the receiver relinquishes it, and how the sender reclaims it.
struct Lending {
    send: &'static str,
    give_up: &'static str,
    reclaim: &'static str,
}

// A lend with zeros at each step that may have them.
const WITH_ZEROS: Lending = Lending {
    send: "break and zeros: call 84000072 60 60 -> 8001: 84000061 0 1 8001",
    give_up: "zeros: call 84000076 -> 8002: 84000061",
    reclaim: RECLAIM,
};

// A lend in which every page keeps its bytes.
const WITH_BYTES: Lending = Lending {
    send: "\
store 4002E000 0000000000008001 -> done
break and bytes: call 84000072 60 60 -> 8001: 84000061 0 1 8001
",
    give_up: "\
store 4003E008 0000000100000000 -> done
bytes: call 84000076 -> 8002: 84000061
",
    reclaim: "break and bytes: call 84000077 1 8001 0 -> 8001: 84000061",
};

// Plays a lend, its retrieve, its relinquish and its reclaim.
fn lends(rt: &impl Abort, alloc: Global, sending: &Sending, lending: &Lending) -> Result<(), Fail> {
    let parts = [
        ZEROED,
        LENT,
        sending.steps,
        lending.send,
        "call 84000068 0 0 0 0 1 -> 8001: 84000061 0 2",
        TO_SECOND,
        RETRIEVE,
        RETRIEVED,
        GIVEN_UP,
        lending.give_up,
        TO_FIRST,
        lending.reclaim,
    ];
    counts(rt, alloc, sending, &parts)
}

#[test]
fn each_write_of_a_lend(rt: HostRuntime) -> Result<(), Fail> {
    lends(&rt, rt.alloc(), &AROUND, &WITH_ZEROS)?;
    lends(&rt, rt.alloc(), &INSIDE, &WITH_ZEROS)
}

#[test]
fn each_write_of_a_lend_that_keeps_its_bytes(rt: HostRuntime) -> Result<(), Fail> {
    lends(&rt, rt.alloc(), &AROUND, &WITH_BYTES)?;
    lends(&rt, rt.alloc(), &INSIDE, &WITH_BYTES)
}

// Plays a donate that is reclaimed, with zeros at each step, and another donate that is retrieved.
fn donates(rt: &impl Abort, alloc: Global, sending: &Sending) -> Result<(), Fail> {
    let parts = [
        ZEROED,
        DONATED,
        sending.steps,
        "break and zeros: call 84000071 60 60 -> 8001: 84000061 0 1 8001",
        RECLAIM,
        "break and zeros: call 84000071 60 60 -> 8001: 84000061 0 2 8001",
        TO_SECOND,
        RETRIEVE,
        "store 4003E008 0000800100000002 -> done",
        RETRIEVED,
    ];
    counts(rt, alloc, sending, &parts)
}

#[test]
fn each_write_of_a_donate(rt: HostRuntime) -> Result<(), Fail> {
    donates(&rt, rt.alloc(), &AROUND)?;
    donates(&rt, rt.alloc(), &INSIDE)
}
