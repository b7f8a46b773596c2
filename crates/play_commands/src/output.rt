// SPDX-License-Identifier: MIT OR Apache-2.0
//! The output and the messages of the program, where the reader of a pipe may be gone.
use std::cell::Cell;
use std::io::{self, ErrorKind, Write};

/// The output of the program. It notes if a write shows that nobody reads the output.
#[derive(Drop)]
pub(crate) struct Output<'a, W> {
    pub(crate) out: W,
    pub(crate) is_closed: &'a Cell<bool>,
}

impl<W: Write> Write for Output<'_, W> {
    fn write(&mut self, buf: &[u8]) -> io::Result<usize> {
        let written = self.out.write(buf);
        self.note(&written);
        written
    }

    fn flush(&mut self) -> io::Result<()> {
        let flushed = self.out.flush();
        self.note(&flushed);
        flushed
    }
}

impl<W> Output<'_, W> {
    fn note<T>(&self, done: &io::Result<T>) {
        if let Err(error) = done
            && error.kind() == ErrorKind::BrokenPipe
        {
            self.is_closed.set(true);
        }
    }
}

/// The messages of the program. After a write has shown that nobody reads the output, it drops each message.
#[derive(Drop)]
pub(crate) struct Told<'a, 'b, E> {
    pub(crate) err: &'a mut E,
    pub(crate) is_closed: &'b Cell<bool>,
}

impl<E: Write> Write for Told<'_, '_, E> {
    fn write(&mut self, buf: &[u8]) -> io::Result<usize> {
        if self.is_closed.get() {
            return Ok(buf.len());
        }
        self.err.write(buf)
    }

    fn flush(&mut self) -> io::Result<()> {
        self.err.flush()
    }
}
