// SPDX-License-Identifier: MIT OR Apache-2.0
//! Isolation: an endpoint's view, its own operations and the events for it determine what it sees.

ghost use Rattle.std.specs.Prelude.{ℕ, ◌≡◌, ◌≢◌, ◌*◌, ◌<◌, Bool, true, List, length, Some, slice_get};
ghost use Rattle.ffa_model.specs.declared.endpoint.Endpoint.{Endpoint};
ghost use Rattle.ffa_model.specs.declared.manifest.Ffa.{Ffa};
ghost use Rattle.ffa_model.specs.First.{first, first_held};
ghost use Rattle.ffa_model.specs.declared.call.Call.{Call};
ghost use Rattle.ffa_model.specs.declared.operation.Op.{Op};
ghost use Rattle.ffa_model.specs.Identifiers.{manager};
ghost use Rattle.ffa_model.specs.Manifest.{is_accepted};
ghost use Rattle.ffa_model.specs.Memory.{page_bytes};
ghost use Rattle.ffa_model.specs.Numbers.{PageIndex};
ghost use Rattle.ffa_model.specs.Regions.{owner_in};
ghost use Rattle.ffa_model.specs.SoundState.{IsSoundState, are_bytes};
ghost use Rattle.ffa_model.specs.State.{State};
ghost use Rattle.ffa_model.specs.Step.{serve, state_after, step};
ghost use Rattle.ffa_laws.specs.Steady.{IsSteady};
ghost use Rattle.ffa_laws.specs.OwnAccess.{AreApart, AreWorldsApart, OwnAccess};
ghost use Rattle.ffa_laws.specs.Loans.{OfferSaysNothing, ZeroedIsForgotten};
ghost use Rattle.ffa_laws.specs.Readable.{Confidential, RunConfidential};
ghost use Rattle.ffa_laws.specs.Reads.{AreBeside, ReadsNoMore};
ghost use Rattle.ffa_laws.specs.Replay.{Replays};
ghost use Rattle.ffa_laws.specs.RunIntegrity.{RunIntegrity};
ghost use Rattle.ffa_laws.specs.Silence.{Silence};
ghost use Rattle.ffa_laws.specs.Writers.{LeavesTx, OnlyWriters};
ghost use Rattle.ffa_laws.specs.Isolation.{Integrity, Isolated, NeverGrow, OneStep, Shown};
ghost use Rattle.ffa_laws.specs.Moves.{by_call, by_runner};

/// Proves the laws of one call in a steady state. The call changes another endpoint's view exactly as its events for
/// that endpoint say. The outcome, and the runner's view afterwards, depend only on the runner's view before. A steady
/// or sound state remains steady or sound, and no right grows. The call does not change the bytes of a page that is in
/// no open transaction and whose owner is not the runner. The exception is a message into the owner's RX.
pub fn one_call()
    ensures call { (s : State) (call : Call) → IsSteady s → OneStep (by_call call) s }
    ensures steady { (s : State) (call : Call) → IsSteady s → IsSteady (serve s call).state }
    ensures sound { (s : State) (call : Call) → IsSoundState s → IsSoundState (serve s call).state }
    ensures never_grow { (s : State) (call : Call) → IsSteady s → NeverGrow s (serve s call).state }
    ensures integrity { (s : State) (call : Call) → IsSteady s → Integrity (by_call call) s }
{}

/// Proves the laws of one operation in a steady state. The operation changes another endpoint's view exactly as its
/// events for that endpoint say. The outcome, and the runner's view afterwards, depend only on the runner's view
/// before. No right grows, and a steady or sound state remains steady or sound.
pub fn one_step()
    ensures step { (s : State) (op : Op) → IsSteady s → OneStep (by_runner op) s }
    ensures never_grow { (s : State) (op : Op) → IsSteady s → NeverGrow s (step s op).state }
    ensures steady { (s : State) (op : Op) → IsSteady s → IsSteady (step s op).state }
    ensures sound { (s : State) (op : Op) → IsSoundState s → IsSoundState (step s op).state }
{}

/// Proves the laws of a list of operations, from a steady state on. An endpoint's view at the start, its own operations
/// and the events for it determine what it sees of the list, and its view afterwards. Both result if these operations
/// and events act on the first view in order. All that the endpoint sees is in the outcomes.
pub fn whole_run()
    ensures isolated { (s : State) (ops : List Op) → IsSteady s → Isolated s ops }
    ensures replays { (s : State) (ops : List Op) → IsSteady s → Replays s ops }
    ensures shown { (s : State) (ops : List Op) → Shown s ops }
{}

/// Proves that no right grows from a steady state on, whatever operations are done.
pub fn rights_never_grow()
    ensures { (s : State) (ops : List Op) → IsSteady s → NeverGrow s (state_after s ops) }
{}

/// Proves integrity: an operation in a steady state does not change the bytes of a page that is in no open transaction
/// and whose owner is not the runner. The exception is a message into the owner's RX.
pub fn integrity()
    ensures { (s : State) (op : Op) → IsSteady s → Integrity (by_runner op) s }
{}

/// Proves integrity of a run from a steady state on. Take a page that is in no open transaction, and whose owner does
/// no operation in the run. If the page is in the owner's RX, the owner also gets no message into RX. Then after the
/// run the page has the same owner, right and bytes, and is in no open transaction.
pub fn run_integrity()
    ensures { (s : State) (ops : List Op) → IsSteady s → RunIntegrity s ops }
{}

/// Proves that the bytes of a page change only in three cases, in a sound state. The runner may write to the page
/// before the operation. The operation is FFA_MEM_RECLAIM, and the runner may write to the page afterwards. An indirect
/// message fills its receiver's RX, and the page is in this RX.
pub fn only_writers()
    ensures { (s : State) (op : Op) → IsSoundState s → OnlyWriters (by_runner op) s }
{}

/// Proves that only an endpoint's own calls change its access, and says which calls can give access and which can take
/// it. The state is steady, and in it no endpoint is offered what it sent itself. In the first state no endpoint is
/// offered what it sent itself, and each operation leaves this so.
pub fn own_access()
    ensures access { (s : State) (op : Op) → IsSteady s → AreApart s → OwnAccess (by_runner op) s }
    ensures stays { (s : State) (op : Op) → AreApart s → AreApart (step s op).state }
    ensures first { (ffa : Ffa) (base tables blocks : ℕ) (es : List Endpoint) → AreApart (first ffa base tables blocks es) }
{}

/// Proves that four things determine what an endpoint sees, and what it can read afterwards. They are what it can read
/// before, its own operations, what these reveal to it, and the events that it learns readably. The states are steady.
/// In the states of the law of one operation, no endpoint is offered what it sent itself.
///
/// The bytes of a page are not in these things while the endpoint has no access to the page. It has no access while it
/// has lent the page, or while it is offered the page and has not retrieved it.
pub fn confidential()
    ensures step { (s : State) (op : Op) → IsSteady s → AreApart s → Confidential (by_runner op) s }
    ensures run { (s : State) (ops : List Op) → IsSteady s → RunConfidential s ops }
{}

/// Proves which bytes an operation reads, in a sound state. A call reads the first bytes of TX, and a load or a fetch
/// reads the bytes at its address. Take another sound state that has the same bytes there, and differs only in bytes of
/// pages. The operation has the same outcome in it. The two new states differ only in bytes of pages in which the old
/// states differed. A call changes no byte of its caller's TX. If two states can differ only in bytes of some pages,
/// and have the same bytes in these pages, they are the same state.
pub fn reads_no_more()
    ensures reads { (s : State) (op : Op) → IsSoundState s → ReadsNoMore s op }
    ensures leaves { (s : State) (call : Call) → IsSoundState s → LeavesTx s call }
    ensures same { (s t : State) (named : PageIndex → Bool) → AreBeside s t named
        → ((p : ℕ) → named p ≡ true → page_bytes t p ≡ page_bytes s p) → t ≡ s }
{}

/// Proves two laws about loans, in a steady state. A borrower stores into a loan, and its next call, which is not
/// refused, relinquishes the loan with zeros. Then nothing later depends on the bytes that it stored, and no endpoint
/// that does not hold the loan learns them readably. The second law is about a state in which no endpoint is offered
/// what it sent itself. An offer says nothing of the bytes of its pages to a receiver that does not retrieve it.
pub fn loans()
    ensures zeroed { (s : State) → IsSteady s → ZeroedIsForgotten s }
    ensures offered { (s : State) (op : Op) → IsSteady s → AreApart s → OfferSaysNothing s op }
{}

/// Proves that each operation in a steady state causes only the events of its row in `Silence`, and that only some
/// calls change the public part. An event changes the view of the endpoint that learns it, except messages, writes,
/// filled RX, pending bits and zeros. Except for messages, these events may repeat. In a sound state they are about
/// something in the view: the page that is written, the endpoint's own buffers or bitmaps, or the transaction whose
/// pages are zeroed. All that an event says enters the view, except the registers of a message. So no event names a
/// page that the ranges of its transaction do not name, a byte that has no room in RX, or a bit twice.
pub fn silence()
    ensures { (s : State) (op : Op) → IsSteady s → Silence op (by_runner op) s }
{}

/// Proves that each sound state is steady, which is what isolation needs. If secure and non-secure memory are
/// distinguished, the normal world has no access to secure pages in a sound state.
pub fn sound_is_steady()
    ensures steady { (s : State) → IsSoundState s → IsSteady s }
    ensures worlds { (s : State) → IsSoundState s → AreWorldsApart s }
{}

/// Proves that the state in which the machine of an accepted manifest starts is sound, if each UUID has 16 bytes. The
/// pages of regions can have zeros, or any 4096 bytes each.
pub fn first_is_sound()
    ensures zeros { (ffa : Ffa) (base tables blocks : ℕ) (es : List Endpoint) → is_accepted base tables blocks es ≡ true
        → ((i : ℕ) (e : Endpoint) → slice_get es i ≡ Some e → (length e.uuid ≡ 16) × are_bytes e.uuid)
        → IsSoundState (first ffa base tables blocks es) }
    ensures held { (ffa : Ffa) (base tables blocks : ℕ) (es : List Endpoint) (held : ℕ → List ℕ)
        → is_accepted base tables blocks es ≡ true
        → ((i : ℕ) (e : Endpoint) → slice_get es i ≡ Some e → (length e.uuid ≡ 16) × are_bytes e.uuid)
        → ((p : ℕ) → p < 512 * blocks → owner_in base es p ≢ manager → (length (held p) ≡ 4096) × are_bytes (held p))
        → IsSoundState (first_held ffa base tables blocks es held) }
{}
