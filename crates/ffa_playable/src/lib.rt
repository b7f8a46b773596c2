// SPDX-License-Identifier: MIT OR Apache-2.0
//! Defines what a player needs of a machine: its operations, and what it reports about itself. The definitions of the
//! state say all of it, so a player needs neither RAM nor tables.
#![tactic(auto)]

ghost use Rattle.std.specs.Prelude.{◌≡◌, ℕ, ◌+◌, ◌*◌, ◌^◌, ◌<◌, ◌≤◌, ◌↔◌, IfSome, IsTrue, Some, is_some, length};
ghost use Rattle.std.specs.Option.{option_map};
ghost use Rattle.ffa_model.specs.declared.limits.TheConstants.{MOST_ENDPOINTS, MOST_PROCESSORS};
ghost use Rattle.ffa_model.specs.Access.{access};
ghost use Rattle.ffa_model.specs.Agreement.{root};
ghost use Rattle.ffa_model.specs.Certificate.{IsRun, certificate, run_from};
ghost use Rattle.ffa_model.specs.Ram.{word_of};
ghost use Rattle.ffa_model.specs.State.{Page, owner_of, page_at};
ghost use Rattle.ffa_model.specs.Why.{outcome_of};
ghost use Rattle.ffa_mend.specs.Offered.{offered};
ghost use Rattle.ffa_playable.specs.Audited.{GiveAccess};
ghost use Rattle.ffa_playable.specs.Bench.{Bench, after_interrupt, after_op, effect_of, outcome_of_interrupt, processors_of, refuses, turned_to, why_of};
ghost use Rattle.ffa_playable.specs.Standing.{detail};

mod detail;

pub use detail::{Detail, Explanation, Standing};
use ffa_model::{Address, CertRun, Effect, EndpointId, Op, Outcome, PageNo, Rights};

/// A machine on which traces can be played. Its answers and its changes are what the small machine does from the same
/// state. One processor runs it, or several processors do, and then one of them is on turn.
pub trait Playable: Drop {
    /// The state, which is a state of the small machine, and the processors, if there are several.
    ghost bench: { Self → Bench };

    /// Does one operation of the runner, and writes its result to `effect`. A refusal, which is FFA_ERROR or a fault,
    /// changes nothing.
    fn op(&mut self, op: &Op, effect: &mut Effect)
        ensures effect { effect.new ≡ effect_of (bench self.old) op.now }
        ensures bench { bench self.new ≡ after_op (bench self.old) op.now };

    /// Returns the number of processors that a trace may name, from 0 on. Returns `None` if only one processor runs the
    /// machine.
    fn processors(&self) -> Option<usize>
        ensures number { result ≡ processors_of (bench self.now) }
        ensures few { IfSome result (λ count. count ≤ MOST_PROCESSORS) };

    /// Puts another processor on turn. Nothing changes if only one processor runs the machine, or if a trace may not
    /// name this processor.
    fn turn(&mut self, processor: usize)
        ensures { bench self.new ≡ turned_to (bench self.old) processor };

    /// Makes the processor on turn take an interrupt, which preempts the partition that it runs. Nothing is done if
    /// only one processor runs the machine.
    fn interrupt(&mut self) -> Outcome
        ensures outcome { result ≡ outcome_of_interrupt (bench self.old) }
        ensures bench { bench self.new ≡ after_interrupt (bench self.old) };

    /// Returns why an operation of the runner is refused, or `None` if it is not refused. The explanation also says
    /// what to change, the state of the thing that the check is about, or the values that may be there, as far as the
    /// machine knows it. It changes nothing.
    fn why(&self, op: &Op) -> Option<Explanation>
        ensures why { option_map (λ its. its.why) result ≡ why_of (bench self.now) op.now }
        ensures detail { IfSome result (λ its. its.detail ≡ detail (bench self.now).state op.now its.why) }
        ensures refused { is_some result ≡ refuses (bench self.now) op.now }
        ensures outcome { IfSome result (λ its.
            effect_of (bench self.now) op.now ≡ Effect.Outcome (outcome_of (bench self.now).state its.why)) };

    /// Returns the endpoint that runs.
    fn runner(&self) -> EndpointId
        ensures { result.0 ≡ (bench self.now).state.runner };

    /// Returns the number of endpoints, from 1 to `MOST_ENDPOINTS`.
    fn endpoints(&self) -> usize
        ensures number { result ≡ length (bench self.now).state.parties }
        ensures some { 1 ≤ result }
        ensures few { result ≤ MOST_ENDPOINTS };

    /// Returns the address of RAM's first byte.
    fn ram_base(&self) -> Address
        ensures value { result.0 ≡ (bench self.now).state.ram_base }
        ensures within { result.0 + 4096 * length (bench self.now).state.pages ≤ 2 ^ 32 };

    /// Returns the number of RAM's pages.
    fn ram_pages(&self) -> u32
        ensures { result ≡ length (bench self.now).state.pages };

    /// Returns the address of the level 1 table of the endpoint at a place, counted from 0.
    fn root_at(&self, place: usize) -> u32
        requires { place < length (bench self.now).state.parties }
        ensures { result ≡ root (bench self.now).state place };

    /// Returns the owner of a page of RAM. 0x8000 is the manager.
    fn owner_of(&self, page: PageNo) -> EndpointId
        requires { page.0 < length (bench self.now).state.pages }
        ensures { result.0 ≡ owner_of (bench self.now).state page.0 };

    /// Returns the right of an endpoint to a page. Returns `None` outside RAM, and for an endpoint that the machine
    /// does not have.
    fn access(&self, endpoint: EndpointId, page: PageNo) -> Option<Rights>
        ensures { result ≡ access (bench self.now).state endpoint.0 page.0 };

    /// Returns the most that an endpoint may still get of the open transaction that a page of RAM is in. Returns `None`
    /// if the endpoint may not retrieve it, because it is not a receiver or holds the transaction already.
    fn offered(&self, endpoint: EndpointId, page: PageNo) -> Option<Rights>
        requires { page.0 < length (bench self.now).state.pages }
        ensures { result ≡ offered (bench self.now).state endpoint.0 page.0 };

    /// Returns the longest run from a page of RAM on whose pages are alike. They have the same owner, the same open
    /// transaction or no transaction, and the same access of each endpoint. It allocates nothing.
    fn cert_run(&self, from: PageNo) -> CertRun
        requires { from.0 < length (bench self.now).state.pages }
        ensures run { IsRun (bench self.now).state from.0 result }
        ensures computed { result ≡ run_from (bench self.now).state from.0 };

    /// Whether the machine's tables give what runs of pages say, which is true exactly if the runs give the state's
    /// access. It says nothing of owners and handles. The runs of `cert_run` from page 0 on, one after the other, give
    /// this access. It allocates nothing.
    fn audit(&self, runs: &[CertRun]) -> bool
        ensures access { IsTrue result ↔ GiveAccess (bench self.now).state runs.now }
        ensures own { runs.now ≡ certificate (bench self.now).state → IsTrue result };
}

/// A machine on which traces can be played, and whose RAM can be read.
pub trait Readable: Playable {
    /// Returns the word at a place of a page of RAM, from 0 to 511: 8 bytes, the lowest first. The content of the
    /// manager's pages is not part of the state.
    fn word_at(&self, page: PageNo, index: usize) -> u64
        requires page { page.0 < length (Self.bench self.now).state.pages }
        requires index { index < 512 }
        ensures { (own : Page) → page_at (Self.bench self.now).state page.0 ≡ Some own → result ≡ word_of own.bytes index };
}
