// SPDX-License-Identifier: MIT OR Apache-2.0
//! The byte at which an error of TOML's parser begins.
ghost use Rattle.std.specs.Prelude.{◌≡◌};
ghost use Rattle.toml.specs.Errors.{IsMemory, span_start};

/// The byte of a text at which an error of TOML's parser begins, counted from 0. Only such an error makes this value.
#[derive(Clone, Copy, Debug, Drop)]
pub struct ErrorStart {
    byte: usize,
}

impl ErrorStart {
    /// Returns the start of this error of the parser.
    pub(crate) fn of(error: &toml::de::Error) -> ErrorStart
        requires { IsMemory error.now → ⊥ }
        ensures { result.byte ≡ span_start error.now }
    {
        match error.span() {
            Some(span) => ErrorStart { byte: span.start },
            None => unreachable!(),
        }
    }

    /// Returns the byte, counted from 0.
    pub fn byte(self) -> usize
        ensures { result ≡ self.byte }
    {
        self.byte
    }
}
