// SPDX-License-Identifier: MIT OR Apache-2.0
//! Reads a manifest from a text in TOML or from numbers, or finds the first cause to reject it.
#![tactic(auto)]

ghost use Rattle.std.specs.Prelude.{◌≡◌, ◌≢◌, ◌≤◌, Ok, Err, IfOk, IfErr, IfSome, IsUtf8, length};
ghost use Rattle.ffa_model.specs.declared.manifest.Ffa.TheVariants.{V1_1};
ghost use Rattle.ffa_manifest.specs.Document.{machine_of, parts_of};
ghost use Rattle.ffa_manifest.specs.Meeting.{SharesPage};
ghost use Rattle.ffa_manifest.specs.Places.{IsByteIn, IsPlaceIn, IsRefused};

mod control;
mod document;
mod endpoints;
pub mod error;
mod error_start;
mod identifier;
mod keys;
mod locate;
mod met;
mod near;
mod parts;
mod parts_place;
pub mod refusal;
mod region_space;
mod regions;
mod text_place;

pub use error::ManifestError;
pub use error_start::ErrorStart;
pub use ffa_model::{Ffa, Manifest};
pub use near::nearest;
pub use parts::of_parts;
pub use parts_place::{PartsPlace, place_of_parts};
pub use refusal::{Found, ManifestRefusal};
use std::alloc::{AllocError, Global};
pub use text_place::TextPlace;

/// Reads the text of a manifest for a machine of FF-A 1.1, as `read_for` does. Returns the first cause if it rejects
/// the text.
pub fn read(alloc: Global, text: &str) -> Result<Manifest, ManifestError>
    ensures accepted { IfOk result (λ m. machine_of V1_1 text.now ≡ Ok (parts_of m)) }
    ensures refused { IfErr result (λ e. e ≢ ManifestError.NoMemory → machine_of V1_1 text.now ≡ Err e) }
{
    read_for(alloc, text, Ffa::V1_1)
}

/// Reads the text of a manifest for a machine of this version of FF-A: the machine's RAM, and its endpoints with their
/// regions. The version decides which `version` an endpoint may have.
///
/// A rejected text has the first cause in the order of reading. In a table, first come unknown keys, and then the
/// table's keys in their order. Each key is tested for its presence, its kind and its value. `NoMemory` can come at any
/// time, and says nothing of the text.
// It uses the heap, because `toml` takes no other allocator. So `tests/refused-memory` refuses each allocation of the
// built program. RAM, the player and the commands take any allocator, so tests in Rattle refuse theirs.
#[tactic(auto, unfolding(crate::specs::Document::machine_of))]
pub fn read_for(alloc: Global, text: &str, ffa: Ffa) -> Result<Manifest, ManifestError>
    ensures accepted { IfOk result (λ m. machine_of ffa text.now ≡ Ok (parts_of m)) }
    ensures refused { IfErr result (λ e. e ≢ ManifestError.NoMemory → machine_of ffa text.now ≡ Err e) }
{
    match toml::table_from_str(alloc, text) {
        Ok(table) => document::machine(&table, ffa),
        Err(e) if e.is_memory() => Err(ManifestError::NoMemory),
        Err(_) => Err(ManifestError::Toml),
    }
}

/// Reads the bytes of a manifest's text as `read_for` does, and finds the place where it rejects a text.
///
/// The cause is the one that `read_for` returns. Bytes that are not UTF-8 are not TOML. The place is where reading
/// ends: the endpoint and the region that are rejected, after all before them were read. With the place come the key
/// and the value there, which no clause promises and tests show. If another region overlaps the rejected one, that
/// region comes instead, and it does have a page of the rejected one. If the text is not TOML, the byte is where the
/// parser's error begins.
///
/// # Errors
///
/// The allocator refused memory.
pub fn explain(
    alloc: Global,
    bytes: &[u8],
    ffa: Ffa,
) -> Result<Result<Manifest, ManifestRefusal>, AllocError>
    ensures accepted { IfOk result (λ read. IfOk read (λ m. IsUtf8 bytes.now × (machine_of ffa bytes.now ≡ Ok (parts_of m)))) }
    ensures refused { IfOk result (λ read. IfErr read (λ r. IsRefused ffa bytes.now r)) }
    ensures inside { IfOk result (λ read. IfErr read (λ r. IfSome r.byte (λ at. at ≤ length bytes.now))) }
    ensures met { IfOk result (λ read. IfErr read (λ r. SharesPage r.place.found)) }
{
    match str::from_utf8(bytes) {
        Ok(text) => explain_text(alloc, text, ffa),
        Err(error) => Ok(Err(ManifestRefusal {
            cause: ManifestError::Toml,
            place: locate::in_no_endpoint(Found::NoText(error)),
            byte: Some(error.valid_up_to()),
        })),
    }
}

// Reads a text, and finds the place where it rejects a text.
#[tactic(auto, unfolding(crate::specs::Document::machine_of))]
fn explain_text(
    alloc: Global,
    text: &str,
    ffa: Ffa,
) -> Result<Result<Manifest, ManifestRefusal>, AllocError>
    ensures accepted { IfOk result (λ read. IfOk read (λ m. machine_of ffa text.now ≡ Ok (parts_of m))) }
    ensures cause { IfOk result (λ read. IfErr read (λ r. machine_of ffa text.now ≡ Err r.cause)) }
    ensures place { IfOk result (λ read. IfErr read (λ r. IsPlaceIn ffa text.now r.place)) }
    ensures byte { IfOk result (λ read. IfErr read (λ r. IsByteIn text.now r)) }
    ensures inside { IfOk result (λ read. IfErr read (λ r. IfSome r.byte (λ at. at ≤ length text.now))) }
    ensures met { IfOk result (λ read. IfErr read (λ r. SharesPage r.place.found)) }
{
    let table = match toml::table_from_str(alloc, text) {
        Ok(table) => table,
        Err(e) if e.is_memory() => return Err(AllocError),
        Err(e) => {
            let start = ErrorStart::of(&e);
            return Ok(Err(ManifestRefusal {
                cause: ManifestError::Toml,
                place: locate::in_text(alloc, text.as_bytes(), start, &e)?,
                byte: Some(start.byte()),
            }));
        }
    };
    match document::machine(&table, ffa) {
        Ok(manifest) => Ok(Ok(manifest)),
        Err(cause) => Ok(Err(ManifestRefusal {
            cause,
            place: locate::in_top(alloc, &table, ffa)?,
            byte: None,
        })),
    }
}
