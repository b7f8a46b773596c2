// SPDX-License-Identifier: MIT OR Apache-2.0
//! The input of a trace, or of an expected text.
use std::io::{self, Read};

/// A file, or standard input.
#[derive(Drop)]
pub(crate) enum Input<F, S> {
    File(F),
    Standard(S),
}

impl<F: Read + Drop, S: Read + Drop> Read for Input<F, S> {
    fn read(&mut self, buf: &mut [u8]) -> io::Result<usize> {
        match self {
            Input::File(file) => file.read(buf),
            Input::Standard(input) => input.read(buf),
        }
    }
}
