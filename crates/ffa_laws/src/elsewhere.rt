// SPDX-License-Identifier: MIT OR Apache-2.0
//! The laws of one operation of any endpoint, whichever endpoint runs. They are the laws of a step.

ghost use Rattle.std.specs.Prelude.{ℕ, ◌≡◌, ◌+◌, ◌*◌, ◌<◌, true, List, length};
ghost use Rattle.ffa_model.specs.declared.operation.Op.{Op};
ghost use Rattle.ffa_model.specs.Access.{access};
ghost use Rattle.ffa_model.specs.Elsewhere.{state_after_as, step_as};
ghost use Rattle.ffa_model.specs.Rights.{may_store};
ghost use Rattle.ffa_model.specs.SoundState.{IsSoundState, are_bytes};
ghost use Rattle.ffa_model.specs.State.{State, is_known};
ghost use Rattle.ffa_model.specs.Step.{step};
ghost use Rattle.ffa_laws.specs.Elsewhere.{by};
ghost use Rattle.ffa_laws.specs.ElsewhereRuns.{IsolatedAs, are_known};
ghost use Rattle.ffa_laws.specs.Isolation.{Integrity, NeverGrow, OneStep};
ghost use Rattle.ffa_laws.specs.OwnAccess.{AreApart, OwnAccess};
ghost use Rattle.ffa_laws.specs.Readable.{Confidential};
ghost use Rattle.ffa_laws.specs.Silence.{Silence};
ghost use Rattle.ffa_laws.specs.Steady.{IsSteady};
ghost use Rattle.ffa_laws.specs.Stores.{AreWritten, all_stores, stores, with_bytes_of};
ghost use Rattle.ffa_laws.specs.Writers.{OnlyWriters};

/// Proves the laws of one operation of any endpoint of the machine, in a steady state. If the endpoint is the runner,
/// the operation is a step. The operation changes another endpoint's view exactly as its events for that endpoint say.
/// Its outcome, and the view of its own endpoint afterwards, depend only on this endpoint's view before. No right
/// grows, and a steady or sound state remains steady or sound.
pub fn one_step_as()
    ensures runner { (s : State) (op : Op) → step_as s s.runner op ≡ step s op }
    ensures step { (s : State) (e : ℕ) (op : Op) → IsSteady s → is_known s e ≡ true → OneStep (by e op) s }
    ensures never_grow { (s : State) (e : ℕ) (op : Op) → IsSteady s → is_known s e ≡ true
        → NeverGrow s (step_as s e op).state }
    ensures steady { (s : State) (e : ℕ) (op : Op) → IsSteady s → is_known s e ≡ true
        → IsSteady (step_as s e op).state }
    ensures sound { (s : State) (e : ℕ) (op : Op) → IsSoundState s → IsSoundState (step_as s e op).state }
{}

/// Proves integrity for an operation of any endpoint, in a steady state. The operation does not change the bytes of a
/// page that is in no open transaction and whose owner is another endpoint. The exception is a message of the runner
/// into the owner's RX.
pub fn integrity_as()
    ensures { (s : State) (e : ℕ) (op : Op) → IsSteady s → is_known s e ≡ true → Integrity (by e op) s }
{}

/// Proves when an operation of any endpoint can change the bytes of a page, in a sound state. The endpoint may write to
/// the page before the operation, or a call of the runner is one of two calls. FFA_MEM_RECLAIM can change the page if
/// the runner may write to it afterwards. An indirect message can fill its receiver's RX.
pub fn only_writers_as()
    ensures { (s : State) (e : ℕ) (op : Op) → IsSoundState s → OnlyWriters (by e op) s }
{}

/// Proves that an operation of any endpoint changes no access, except that a call of the runner can change the runner's
/// access. The state is steady, and in it no endpoint is offered what it sent itself.
pub fn own_access_as()
    ensures { (s : State) (e : ℕ) (op : Op) → IsSteady s → AreApart s → OwnAccess (by e op) s }
{}

/// Proves what determines the outcome of an operation of any endpoint, and what this endpoint can read afterwards: what
/// it can read before, and what the operation reveals to it. For another endpoint, the readable part changes only by
/// the events that it learns readably. The state is steady, and in it no endpoint is offered what it sent itself.
pub fn confidential_as()
    ensures { (s : State) (e : ℕ) (op : Op) → IsSteady s → is_known s e ≡ true → AreApart s → Confidential (by e op) s }
{}

/// Proves that an operation of any endpoint causes only the events of its row in `Silence`, and that only calls of the
/// runner change the public part. The state is steady. Each event changes the view of the endpoint that learns it, or
/// is of a kind that may repeat. In a sound state it is about something in that view. All that it says enters the view,
/// except the registers of a message.
pub fn silence_as()
    ensures { (s : State) (e : ℕ) (op : Op) → IsSteady s → Silence op (by e op) s }
{}

/// Proves the laws of a list of operations, each of an endpoint of the machine, from a steady state on. An endpoint's
/// view at the start, its own operations and the events for it determine what it sees of the list, and its view
/// afterwards. No right grows, and a steady or sound state remains steady or sound.
pub fn whole_run_as()
    ensures isolated { (s : State) (ops : List (ℕ × Op)) → IsSteady s → are_known s ops ≡ true → IsolatedAs s ops }
    ensures never_grow { (s : State) (ops : List (ℕ × Op)) → IsSteady s → are_known s ops ≡ true
        → NeverGrow s (state_after_as s ops) }
    ensures steady { (s : State) (ops : List (ℕ × Op)) → IsSteady s → are_known s ops ≡ true
        → IsSteady (state_after_as s ops) }
    ensures sound { (s : State) (ops : List (ℕ × Op)) → IsSoundState s → IsSoundState (state_after_as s ops) }
{}

/// Proves that bytes that others write are stores, in a sound state. An endpoint's processors can leave any bytes in a
/// page to which the endpoint may write. The state is then the one that the endpoint's stores leave, one store for each
/// byte. So the laws of lists of operations also hold where others write between the operations.
pub fn bytes_are_stores()
    ensures page { (s : State) (e p : ℕ) (bytes : List ℕ) → IsSoundState s → p < length s.pages
        → may_store (access s e p) ≡ true → length bytes ≡ 4096 → are_bytes bytes
        → state_after_as s (stores e (s.ram_base + 4096 * p) bytes) ≡ with_bytes_of s p bytes }
    ensures pages { (s t : State) → IsSoundState s → (written : AreWritten s t)
        → state_after_as s (all_stores t written.pages) ≡ t }
{}
