// SPDX-License-Identifier: MIT OR Apache-2.0
//! The place of a byte in a text.
ghost use Rattle.std.specs.Prelude.{◌≡◌, ◌≤◌, length, take};
ghost use Rattle.ffa_manifest.specs.TextPlaces.{column_behind, is_first_byte, line_behind};

/// The place of a byte in a text: its line, and its column in this line, in characters. Both count from 1.
#[derive(Clone, Copy, Debug, PartialEq, Eq)]
pub struct TextPlace {
    pub line: usize,
    pub column: usize,
}

impl TextPlace {
    /// Returns the place of a byte of the text, counted from 0, or the place after the last byte.
    pub fn of(text: &[u8], at: usize) -> TextPlace
        requires { at ≤ length text.now }
        ensures line { result.line ≡ line_behind (take at text.now) }
        ensures column { result.column ≡ column_behind (take at text.now) }
    {
        let mut line = 1;
        let mut column = 1;
        for index in 0..at {
            let byte = text[index];
            if byte == b'\n' {
                line += 1;
                column = 1;
            } else if is_first_byte(byte) {
                column += 1;
            }
        }
        TextPlace { line, column }
    }
}

// Whether a byte is the first byte of a character in UTF-8.
fn is_first_byte(byte: u8) -> bool
    ensures { result ≡ is_first_byte byte }
{
    !matches!(byte, 0x80..=0xBF)
}
