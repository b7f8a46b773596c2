// SPDX-License-Identifier: MIT OR Apache-2.0
//! Laws of operations one after another, and of operations while others write to memory.

ghost use Rattle.std.specs.Prelude.{◌≡◌, ℕ, Bool, List, true, false};
ghost use Rattle.ffa_model.specs.declared.operation.Act.{Act};
ghost use Rattle.ffa_model.specs.declared.operation.Effect.{Effect};
ghost use Rattle.ffa_model.specs.declared.operation.Op.{Op};
ghost use Rattle.ffa_model.specs.declared.operation.Outcome.{Outcome};
ghost use Rattle.ffa_model.specs.Agreement.{Agrees};
ghost use Rattle.ffa_model.specs.Processors.{Shared, are_there};
ghost use Rattle.ffa_model.specs.SoundState.{IsSoundState};
ghost use Rattle.ffa_laws.specs.Isolation.{NeverGrow};
ghost use Rattle.ffa_laws.specs.ProcessorRuns.{IsSoundShared};
ghost use Rattle.ffa_spmc.specs.Clustered.{AreActed, IsEffected, IsEffectedAlone, IsRunOfActs, IsRunOfTurns, IsServed};
ghost use Rattle.ffa_spmc.specs.Meanwhile.{AreDoneAmid, LeavesAmid};
ghost use Rattle.ffa_spmc.specs.Operated.{IsOperated};
ghost use Rattle.ffa_spmc.specs.Snapshot.{Snapshot};

/// The law of an operation that does what `Machine::op` promises, while others write to memory. Others may write to
/// each page to which their walks, or their translation units, let them write at that moment. Whatever they write, the
/// result is a machine. It differs from the promised machine only in the bytes of these pages, so the next operation
/// can begin there. To each of these pages, some endpoint has the right to write in the state before or after the
/// operation.
pub fn left_among_others()
    ensures operated { (old new : Snapshot) (op : Op) → IsOperated old op new → Agrees old.ram old.state
        → IsSoundState old.state → LeavesAmid old new }
    // For a list of operations, between which others write too, the state stays sound, and rights never grow.
    ensures list { (old : Snapshot) (ops : List Op) (told : List Outcome) (new : Snapshot) → IsSoundState old.state
        → AreDoneAmid old ops told new → IsSoundState new.state × NeverGrow old.state new.state }
{}

/// The laws of acts, which are operations and interrupts of several processors, one after another. Each act changes the
/// state as `Cluster::select`, and then `Cluster::op` or `Cluster::interrupt`, promise. Take an endpoint of the
/// machine. Take another steady state in which it has the same view, and another list. If the endpoint does and learns
/// the same in both lists, it sees the same, and its view is the same after them. Rights never grow.
pub fn act_in_turn()
    // The promise of `Cluster::op` on the machine contains this promise on the state. Lists do not need the rest.
    ensures served { (shared : Bool) (old new : Snapshot) (op : Op) (effect : Effect) → IsEffected shared old op effect new
        → IsServed shared old.state op effect new.state }
    // If others may write, but nobody does, the operation is as if nobody may write.
    ensures unshared { (shared : Bool) (old new : Snapshot) (op : Op) (effect : Effect) → IsEffected shared old op effect new
        → IsEffectedAlone old.state op effect new.state → IsServed false old.state op effect new.state }
    // In RAM to which nobody else writes, acts have the effects and lead to the state that the definitions name for the
    // list.
    ensures alone { (old : Shared) (acts : List (ℕ × Act)) (told : List Effect) (new : Shared) → IsSoundShared old
        → are_there old acts ≡ true → AreActed false false old acts told new → IsRunOfActs old acts told new }
    // Others may write to the TX of the endpoint that acts, and between acts to any page to which they may write. These
    // writes are stores of endpoints between the acts. If others write only during acts, these are stores of the
    // endpoint that acts, into the pages that the act sees at once.
    ensures among { (shared between : Bool) (old : Shared) (acts : List (ℕ × Act)) (told : List Effect) (new : Shared)
        → IsSoundShared old → are_there old acts ≡ true → AreActed shared between old acts told new
        → IsRunOfTurns shared between old acts told new }
{}
