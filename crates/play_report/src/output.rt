// SPDX-License-Identifier: MIT OR Apache-2.0
//! Writes a text as a command's output.
ghost use Rattle.std.specs.Prelude.{◌≡◌, IfErr, OnOk};
ghost use Rattle.std.specs.Io.KnownBytes.{Appends};

use crate::failure::Failure;
use std::io::Write;

/// Writes all of a text. Fails with `Write` if the output cannot be written.
pub(crate) fn write<'a, W: Write>(out: &mut W, text: &[u8]) -> Result<(), Failure<'a>>
    ensures written { OnOk result (Appends (W.contents out.old) (W.contents out.new) text.now) }
    ensures failed { IfErr result (λ failure. failure ≡ Failure.Write) }
{
    play_trace::output::write_text(out, text).map_err(|_| Failure::Write)
}
