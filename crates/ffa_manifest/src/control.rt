// SPDX-License-Identifier: MIT OR Apache-2.0
//! Control characters that TOML does not allow. It allows a tab and the ends of lines.
ghost use Rattle.std.specs.Prelude.{◌≡◌, ◌≤◌, length, drop};
ghost use Rattle.ffa_manifest.specs.Controls.{forbidden_control};

/// Returns the control character at this place in a text, counted from 0, if TOML does not allow it there.
pub(crate) fn forbidden_control(text: &[u8], at: usize) -> Option<u8>
    requires { at ≤ length text.now }
    ensures { result ≡ forbidden_control (drop at text.now) }
{
    match &text[at..] {
        [b'\t' | b'\n', ..] | [b'\r', b'\n', ..] => None,
        [byte, ..] if byte.is_ascii_control() => Some(*byte),
        _ => None,
    }
}
