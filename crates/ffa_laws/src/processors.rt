// SPDX-License-Identifier: MIT OR Apache-2.0
//! The laws of interrupts, and of operations of several processors. It is public which endpoints run. All else is as in
//! the laws of a step.

ghost use Rattle.std.specs.Prelude.{ℕ, ◌≡◌, ◌<◌, true, List, length, None};
ghost use Rattle.ffa_model.specs.declared.endpoint.Endpoint.{Endpoint};
ghost use Rattle.ffa_model.specs.declared.manifest.Ffa.{Ffa};
ghost use Rattle.ffa_model.specs.declared.operation.Act.{Act};
ghost use Rattle.ffa_model.specs.declared.operation.Op.{Op};
ghost use Rattle.ffa_model.specs.First.{first, first_held};
ghost use Rattle.ffa_model.specs.OneChain.{IsOneChain, IsSimple};
ghost use Rattle.ffa_model.specs.Processors.{ArePlaced, Processors, Shared, are_there, effected, interrupt, on, shared_after_all, step_on, step_resuming, turned};
ghost use Rattle.ffa_model.specs.RunStates.{Schedule, schedule_of};
ghost use Rattle.ffa_model.specs.Sound.{IsSound};
ghost use Rattle.ffa_model.specs.SoundState.{IsSoundState};
ghost use Rattle.ffa_model.specs.State.{State};
ghost use Rattle.ffa_model.specs.Step.{step};
ghost use Rattle.ffa_laws.specs.Isolation.{Integrity, NeverGrow, OneStep};
ghost use Rattle.ffa_laws.specs.OwnAccess.{AreApart, OwnAccess};
ghost use Rattle.ffa_laws.specs.Processors.{ConfidentialInterrupt, HasRunner, OneInterrupt, on_processor, resuming};
ghost use Rattle.ffa_laws.specs.ProcessorRuns.{IsSoundShared, IsSteadyShared, IsolatedOn, Turn, are_possible, as_turns, turns_after};
ghost use Rattle.ffa_laws.specs.Readable.{Confidential};
ghost use Rattle.ffa_laws.specs.Silence.{IsHeard, Silence};
ghost use Rattle.ffa_laws.specs.Steady.{IsSteady};
ghost use Rattle.ffa_laws.specs.Writers.{OnlyWriters};

/// Proves that an interrupt changes each endpoint's view exactly as its events say, and changes no right and no byte in
/// it. A sound state remains sound.
pub fn one_interrupt()
    ensures interrupt { (s : State) → OneInterrupt s }
    ensures sound { (s : State) → IsSoundState s → IsSoundState (interrupt s).state }
{}

/// Proves that the laws of a step hold for one operation where interrupts may preempt partitions, in a steady state. A
/// sound state remains sound.
pub fn one_effect()
    ensures effect { (s : State) (op : Op) → IsSteady s → OneStep (resuming op) s }
    ensures never_grow { (s : State) (op : Op) → IsSteady s → NeverGrow s (step_resuming s op).state }
    ensures sound { (s : State) (op : Op) → IsSoundState s → IsSoundState (step_resuming s op).state }
{}

/// Proves that the laws of a step hold for one operation of a processor, in a steady state. A sound state remains
/// sound, and the processors' runners still fit the state.
pub fn one_operation()
    ensures operation { (processors : Processors) (p : ℕ) (s : State) (op : Op) → IsSteady s
        → HasRunner processors p s → OneStep (on_processor processors p op) s }
    ensures never_grow { (processors : Processors) (p : ℕ) (s : State) (op : Op) → IsSteady s
        → HasRunner processors p s → NeverGrow s (step_on processors p s op).state }
    ensures sound { (processors : Processors) (p : ℕ) (s : State) (op : Op) → p < length processors.runners
        → ArePlaced processors s → IsSoundState s → IsSoundState (step_on processors p s op).state }
    ensures placed { (processors : Processors) (p : ℕ) (s : State) (op : Op) → p < length processors.runners
        → ArePlaced processors s → IsSoundState s
        → ArePlaced (turned processors p s) (step_on processors p s op).state }
{}

/// Proves the laws of a step for an operation of a processor, seen from the state before: laws of bytes, of access, of
/// events and of the readable part. The state is sound, and the processors' runners fit it. For the laws of access and
/// of the readable part, no endpoint is offered what it sent itself. An interrupt changes the readable part of an
/// endpoint only by the events that the endpoint learns readably.
pub fn rights_on()
    ensures integrity { (processors : Processors) (p : ℕ) (s : State) (op : Op) → p < length processors.runners
        → ArePlaced processors s → IsSoundState s → Integrity (on_processor processors p op) s }
    ensures only_writers { (processors : Processors) (p : ℕ) (s : State) (op : Op) → p < length processors.runners
        → ArePlaced processors s → IsSoundState s → OnlyWriters (on_processor processors p op) s }
    ensures own_access { (processors : Processors) (p : ℕ) (s : State) (op : Op) → p < length processors.runners
        → ArePlaced processors s → IsSoundState s → AreApart s → OwnAccess (on_processor processors p op) s }
    ensures silence { (processors : Processors) (p : ℕ) (s : State) (op : Op) → p < length processors.runners
        → ArePlaced processors s → IsSoundState s
        → Silence op (resuming op) (on processors p s) × IsHeard (on_processor processors p op) s }
    ensures confidential { (processors : Processors) (p : ℕ) (s : State) (op : Op) → p < length processors.runners
        → ArePlaced processors s → IsSoundState s → AreApart s → Confidential (on_processor processors p op) s }
    ensures interrupt { (processors : Processors) (p : ℕ) (s : State) → ConfidentialInterrupt processors p s }
{}

/// Proves that sound run states are one chain if no partition is preempted or runs elsewhere. The chain goes from the
/// normal world to the runner, and through each blocked endpoint once. No partition is preempted or runs elsewhere in
/// the first state, with zeros or with other bytes, and each step keeps this so. It follows that there is always one
/// chain if one processor does operations and takes no interrupt. In such a state an operation is a step.
pub fn one_chain()
    ensures chain { (c : Schedule) → IsSound c → IsSimple c → IsOneChain c }
    ensures first { (ffa : Ffa) (base tables blocks : ℕ) (es : List Endpoint)
        → IsSimple (schedule_of (first ffa base tables blocks es)) }
    ensures held { (ffa : Ffa) (base tables blocks : ℕ) (es : List Endpoint) (held : ℕ → List ℕ)
        → IsSimple (schedule_of (first_held ffa base tables blocks es held)) }
    ensures stays { (s : State) (op : Op) → IsSimple (schedule_of s) → IsSimple (schedule_of (step s op).state) }
    ensures effect { (s : State) (op : Op) → length s.works ≡ length s.parties → IsSimple (schedule_of s)
        → step_resuming s op ≡ effected s op None }
    ensures operation { (processors : Processors) (s : State) (op : Op)
        → step_on processors processors.current s op ≡ step_resuming s op }
{}

/// Proves the laws of a list of operations and interrupts of several processors, and of stores of any endpoints between
/// them. An endpoint's view at the start, its own operations and the events for it determine what it sees of the list,
/// and its view afterwards. This holds from a steady state on. No right grows, a sound state remains sound, and the
/// processors' runners still fit the state. A list without such stores leads to the state that the definitions say.
pub fn whole_run_on()
    ensures isolated { (m : Shared) (xs : List Turn) → IsSteadyShared m → are_possible m xs ≡ true → IsolatedOn m xs }
    ensures steady { (m : Shared) → IsSoundShared m → IsSteadyShared m }
    ensures sound { (m : Shared) (xs : List Turn) → IsSoundShared m → are_possible m xs ≡ true
        → IsSoundShared (turns_after m xs) }
    ensures never_grow { (m : Shared) (xs : List Turn) → IsSoundShared m → are_possible m xs ≡ true
        → NeverGrow m.state (turns_after m xs).state }
    ensures acts { (m : Shared) (xs : List (ℕ × Act)) → turns_after m (as_turns xs) ≡ shared_after_all m xs }
    ensures there { (m : Shared) (xs : List (ℕ × Act)) → are_possible m (as_turns xs) ≡ are_there m xs }
{}
