// SPDX-License-Identifier: MIT OR Apache-2.0
//! The name that a wrong word may have been meant for.

use std::alloc::{AllocError, Allocator};
use strsim::osa_distance;

// The most bytes of a word that can be near to a name.
const LONGEST: usize = 40;

/// Returns the name that is nearest to a word, and the first of several. An edit puts in, leaves out or changes a
/// character, or swaps neighbours. A name is near if at most one edit for each three characters of the name leads from
/// one to the other. Capitals and small letters are alike. Returns `None` if no name is near.
pub fn nearest<A: Allocator + Copy>(
    alloc: A,
    word: &str,
    names: &[&'static str],
) -> Result<Option<&'static str>, AllocError> {
    if word.len() > LONGEST {
        return Ok(None);
    }
    let lower = word.to_ascii_lowercase(alloc)?;
    let mut nearest = None;
    let mut least = LONGEST;
    for name in names {
        let edits = osa_distance(
            alloc,
            lower.as_str(),
            name.to_ascii_lowercase(alloc)?.as_str(),
        )?;
        if edits <= name.len() / 3 && edits < least {
            nearest = Some(*name);
            least = edits;
        }
    }
    Ok(nearest)
}
