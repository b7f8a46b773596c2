// SPDX-License-Identifier: MIT OR Apache-2.0
//! The identifier of a partition.
ghost use Rattle.ffa_manifest.specs.Reading.{Exact};
ghost use Rattle.ffa_manifest.specs.Endpoints.{identifier as identifier_of};

use crate::error::ManifestError;
use uuid::Uuid;

/// Reads the bytes of the UUID that a text writes. Rejects the Nil UUID, and a text that is not a UUID.
#[tactic(auto, unfolding(crate::specs::Endpoints::identifier))]
pub(crate) fn identifier(text: &str) -> Result<[u8; 16], ManifestError>
    ensures { Exact (λ bytes. bytes) result (identifier_of text.now) }
{
    match Uuid::parse_str(text) {
        Err(_) => Err(ManifestError::Uuid),
        Ok(id) => {
            if id.is_nil() {
                Err(ManifestError::Uuid)
            } else {
                Ok(id.into_bytes())
            }
        }
    }
}
