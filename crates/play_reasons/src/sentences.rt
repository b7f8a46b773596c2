// SPDX-License-Identifier: MIT OR Apache-2.0
//! The words for each check.
ghost use Rattle.std.specs.Prelude.{◌≡◌};
ghost use Rattle.ffa_model.specs.Words.{words_of};

use ffa_model::{Refusal, WORDS};

/// Returns what is wrong if a check fails, in words.
pub fn words(refusal: Refusal) -> &'static str
    ensures { result.now ≡ words_of refusal }
{
    WORDS[refusal as usize].1
}
