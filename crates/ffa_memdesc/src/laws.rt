// SPDX-License-Identifier: MIT OR Apache-2.0
//! Laws of the definitions of descriptors.

ghost use Rattle.std.specs.Prelude.{◌≡◌, ◌↔◌, ◌+◌, ◌≤◌, ℕ, List, Some, length};
ghost use Rattle.ffa_model.specs.DescriptorPlaces.{Versioned, IsHeader, array_place, composite_place};
ghost use Rattle.ffa_model.specs.FlawPlaces.{told_array, told_composite};
ghost use Rattle.ffa_model.specs.declared.flaw.Flaw.{Flaw};
ghost use Rattle.ffa_model.specs.Flaws.{SendBreaks, RetrieveBreaks, RelinquishBreaks};
ghost use Rattle.ffa_model.specs.SendDescriptor.{SendRecord, Send, send_of};
ghost use Rattle.ffa_model.specs.RetrieveDescriptor.{Retrieve, retrieve_of};
ghost use Rattle.ffa_model.specs.RelinquishDescriptor.{Relinquish, relinquish_of};
ghost use Rattle.ffa_model.specs.declared.descriptor.RetrieveDesc.{RetrieveDesc};
ghost use Rattle.ffa_model.specs.declared.descriptor.RelinquishDesc.{RelinquishDesc};
ghost use Rattle.ffa_model.specs.declared.manifest.Ffa.{Ffa};
ghost use Rattle.ffa_model.specs.declared.rights.Kind.{Kind};

/// Proves that bytes fit at most one record of each of the relations `Send`, `Retrieve` and `Relinquish`. The functions
/// `send_of`, `retrieve_of` and `relinquish_of` compute this record. Bytes that break a condition fit no record.
pub fn one_record()
    ensures one_send { (ffa : Ffa) (kind : Kind) (b : Versioned) (r s : SendRecord) → Send ffa kind b r → Send ffa kind b s → r ≡ s }
    ensures one_retrieve { (ffa : Ffa) (e : ℕ) (b : Versioned) (r s : RetrieveDesc) → Retrieve ffa e b r → Retrieve ffa e b s → r ≡ s }
    ensures one_relinquish { (b : List ℕ) (r s : RelinquishDesc) → Relinquish b r → Relinquish b s → r ≡ s }

    ensures broken_send { (ffa : Ffa) (kind : Kind) (b : Versioned) (flaw : Flaw) (r : SendRecord)
        → SendBreaks ffa kind b flaw → Send ffa kind b r → ⊥ }
    ensures broken_retrieve { (ffa : Ffa) (e : ℕ) (b : Versioned) (flaw : Flaw) (r : RetrieveDesc)
        → RetrieveBreaks ffa e b flaw → Retrieve ffa e b r → ⊥ }
    ensures broken_relinquish { (b : List ℕ) (flaw : Flaw) (r : RelinquishDesc)
        → RelinquishBreaks b flaw → Relinquish b r → ⊥ }

    ensures send { (ffa : Ffa) (kind : Kind) (b : Versioned) (r : SendRecord) → Send ffa kind b r ↔ (send_of ffa kind b ≡ Some r) }
    ensures retrieve { (ffa : Ffa) (e : ℕ) (b : Versioned) (r : RetrieveDesc) → Retrieve ffa e b r ↔ (retrieve_of ffa e b ≡ Some r) }
    ensures relinquish { (b : List ℕ) (r : RelinquishDesc) → Relinquish b r ↔ (relinquish_of b ≡ Some r) }
{}

/// Proves that the places which `told_array` and `told_composite` read from bytes are correct, if the bytes have a
/// header. The first is the place of the access descriptors. The second is the place of the composite, if the bytes
/// include the first 8 bytes of the first access descriptor.
pub fn told_places()
    ensures array { (b : Versioned) → IsHeader b → told_array b ≡ array_place b }
    ensures composite { (b : Versioned) → IsHeader b → array_place b + 8 ≤ length b.bytes
        → told_composite b ≡ composite_place b }
{}
