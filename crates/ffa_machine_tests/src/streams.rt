// SPDX-License-Identifier: MIT OR Apache-2.0
//! The player on readers and writers that stop, at each byte and for each reason.
ghost use Rattle.std.specs.Prelude.{◌≡◌, IfOk};

use crate::checks::{same, same_at};
use crate::machines::{FlatPlayer, booted};
use ffa_reasons::Explained;
use play_arguments::built_in;
use play_player::Player;
use play_trace::PlayError;
use std::alloc::{AllocError, Global};
use std::io;
use std::io::{ErrorKind, Read, Write};
use std::process::Abort;
use std::test::Fail;

const FIRST: &str = "call 84000069\nstore 40010000 2A\nload 40010000 1\nload 40020000 1\nshow\n";

const FIRST_TEXT: &str =
    "regs 0000 0000000084000061 0000000000000000 0000000000000000 0000000000000000 0000000000000000 0000000000000000 0000000000000000 0000000000000000\ndone\ndata 2A\nfault translation\nrunner 0000\npages 40000000 4000FFFF 8000 --- ---\npages 40010000 4001FFFF 0000 rw- ---\npages 40020000 4002FFFF 8001 --- rwx\npages 40030000 401FFFFF 8000 --- ---\n";

// The number of bytes of the first lines of FIRST, from no line on. The next constant has the number of bytes of their
// texts.
const LINES: [usize; 6] = [0, 14, 32, 48, 64, 69];

const TEXTS: [usize; 6] = [0, 146, 151, 159, 177, 337];

// Every kind of error, with lack of memory and interruption first.
const KINDS: [ErrorKind; 42] = [
    ErrorKind::OutOfMemory,
    ErrorKind::Interrupted,
    ErrorKind::NotFound,
    ErrorKind::PermissionDenied,
    ErrorKind::ConnectionRefused,
    ErrorKind::ConnectionReset,
    ErrorKind::HostUnreachable,
    ErrorKind::NetworkUnreachable,
    ErrorKind::ConnectionAborted,
    ErrorKind::NotConnected,
    ErrorKind::AddrInUse,
    ErrorKind::AddrNotAvailable,
    ErrorKind::NetworkDown,
    ErrorKind::BrokenPipe,
    ErrorKind::AlreadyExists,
    ErrorKind::WouldBlock,
    ErrorKind::NotADirectory,
    ErrorKind::IsADirectory,
    ErrorKind::DirectoryNotEmpty,
    ErrorKind::ReadOnlyFilesystem,
    ErrorKind::FilesystemLoop,
    ErrorKind::StaleNetworkFileHandle,
    ErrorKind::InvalidInput,
    ErrorKind::InvalidData,
    ErrorKind::TimedOut,
    ErrorKind::WriteZero,
    ErrorKind::StorageFull,
    ErrorKind::NotSeekable,
    ErrorKind::QuotaExceeded,
    ErrorKind::FileTooLarge,
    ErrorKind::ResourceBusy,
    ErrorKind::ExecutableFileBusy,
    ErrorKind::Deadlock,
    ErrorKind::CrossesDevices,
    ErrorKind::TooManyLinks,
    ErrorKind::InvalidFilename,
    ErrorKind::ArgumentListTooLong,
    ErrorKind::Unsupported,
    ErrorKind::UnexpectedEof,
    ErrorKind::InProgress,
    ErrorKind::Other,
    ErrorKind::Uncategorized,
];

// The way in which a stream stops. It fails with this error, or for `None` it passes no bytes. It does so once, and
// goes on if it is called again.
type Stop = Option<ErrorKind>;

fn stopped(stop: Stop) -> io::Result<usize>
    ensures { IfOk result (λ count. count ≡ 0) }
{
    match stop {
        Some(kind) => Err(io::Error::from(kind)),
        None => Ok(0),
    }
}

// A reader that returns at most `most` bytes in one read, and stops before the rest.
#[derive(Drop)]
struct Source<'a> {
    bytes: &'a [u8],
    rest: &'a [u8],
    most: usize,
    stop: Stop,
    // The number of calls that a play never makes: another method, or a read after the stream stopped.
    astray: usize,
    has_stopped: bool,
}

impl Source<'_> {
    // Returns a reader that stops after the first `left` bytes of FIRST.
    fn cut(left: usize, most: usize, stop: Stop) -> Source<'static> {
        let (bytes, rest) = FIRST.as_bytes().split_at(left.min(FIRST.len()));
        Source {
            bytes,
            rest,
            most,
            stop,
            astray: 0,
            has_stopped: false,
        }
    }
}

impl Read for Source<'_> {
    fn read(&mut self, buf: &mut [u8]) -> io::Result<usize> {
        self.astray = self.astray.saturating_add(usize::from(self.has_stopped));
        let count = buf.len().min(self.bytes.len()).min(self.most);
        if count == 0 {
            let stop = self.stop;
            self.stop = None;
            self.bytes = self.rest;
            self.rest = &[];
            self.has_stopped = true;
            return stopped(stop);
        }
        let (front, rest) = self.bytes.split_at(count);
        buf[..count].copy_from_slice(front);
        self.bytes = rest;
        Ok(count)
    }

    fn read_exact(&mut self, _buf: &mut [u8]) -> io::Result<()> {
        self.astray = self.astray.saturating_add(1);
        Err(io::Error::from(ErrorKind::Unsupported))
    }
}

// A writer that takes at most `most` bytes in one write, and stops after `room` of them.
#[derive(Drop)]
struct Sink {
    taken: Vec<u8>,
    room: usize,
    most: usize,
    stop: Stop,
    // The number of calls that a play never makes: another method, or a write after the stream stopped.
    astray: usize,
    has_stopped: bool,
}

impl Sink {
    fn new(alloc: Global, room: usize, most: usize, stop: Stop) -> Sink {
        Sink {
            taken: Vec::new(alloc),
            room,
            most,
            stop,
            astray: 0,
            has_stopped: false,
        }
    }
}

impl Write for Sink {
    fn write(&mut self, buf: &[u8]) -> io::Result<usize> {
        self.astray = self.astray.saturating_add(usize::from(self.has_stopped));
        let count = buf.len().min(self.room).min(self.most);
        if count == 0 {
            self.room = usize::MAX;
            self.has_stopped = true;
            return stopped(self.stop);
        }
        self.taken.extend_from_slice(&buf[..count])?;
        self.room -= count;
        Ok(count)
    }

    fn flush(&mut self) -> io::Result<()> {
        self.astray = self.astray.saturating_add(1);
        Ok(())
    }

    fn write_all(&mut self, _buf: &[u8]) -> io::Result<()> {
        self.astray = self.astray.saturating_add(1);
        Ok(())
    }
}

// The result of a play, the text that it wrote, also after it went on, and the number of calls that a play never makes.
#[derive(Debug, PartialEq, Drop)]
struct Seen {
    played: Result<(), PlayError>,
    text: Vec<u8>,
    astray: usize,
}

fn demonstration(alloc: Global) -> Result<FlatPlayer, Fail> {
    Ok(Player::new(Explained(booted(alloc, &built_in())?)))
}

// Plays FIRST. The same player then loads the byte that the second line stores, and goes on after the first `done`
// lines.
fn play_first(
    alloc: Global,
    mut source: Source<'_>,
    mut sink: Sink,
    done: usize,
) -> Result<Seen, Fail> {
    let mut player = demonstration(alloc)?;
    let played = player.play(alloc, &mut source, &mut sink);
    let mut text = sink.taken;
    let rest = LINES
        .get(done)
        .and_then(|start| FIRST.as_bytes().get(*start..));
    for mut more in [b"load 40010000 1\n".as_slice(), rest.unwrap_or_default()] {
        if player.play(alloc, &mut more, &mut text).is_err() {
            text.clear();
        }
    }
    let astray = source.astray.saturating_add(sink.astray);
    Ok(Seen {
        played,
        text,
        astray,
    })
}

// Returns the expected result, if `written` bytes of the text were written and the first `done` lines were done.
fn wanted(
    alloc: Global,
    played: Result<(), PlayError>,
    written: usize,
    done: usize,
) -> Result<Seen, AllocError> {
    let all = FIRST_TEXT.as_bytes();
    let rest = TEXTS.get(done).and_then(|start| all.get(*start..));
    let mut text = Vec::from_slice(alloc, all.get(..written).unwrap_or_default())?;
    let load = if done < 2 { b"data 00\n" } else { b"data 2A\n" };
    text.extend_from_slice(load)?;
    text.extend_from_slice(rest.unwrap_or_default())?;
    Ok(Seen {
        played,
        text,
        astray: 0,
    })
}

// Returns the number of these ends, except the first, that are within this number of bytes.
fn count_within(ends: &[usize; 6], bytes: usize) -> usize {
    ends.iter().skip(1).filter(|end| **end <= bytes).count()
}

// Returns the number of bytes that the writer took, if this number of lines was done.
fn text_of(lines: usize) -> usize {
    TEXTS.get(lines).copied().unwrap_or_default()
}

// Asserts the result of a play whose reader fails after `left` bytes, with at most `most` bytes in a read.
fn fails_to_read(rt: &impl Abort, alloc: Global, left: usize, most: usize) -> Result<(), Fail> {
    let source = Source::cut(left, most, Some(ErrorKind::Interrupted));
    let sink = Sink::new(alloc, usize::MAX, usize::MAX, None);
    let done = count_within(&LINES, left);
    let want = wanted(alloc, Err(PlayError::Read), text_of(done), done)?;
    same_at(rt, play_first(alloc, source, sink, done)?, want, &left);
    Ok(())
}

// After the bytes of whole lines, the reader may return bytes of a line that has not ended, in the same read or not.
#[test]
fn does_the_lines_before_a_failed_read(rt: HostRuntime) -> Result<(), Fail> {
    for left in 0..=FIRST.len() {
        fails_to_read(&rt, rt.alloc(), left, 1)?;
        fails_to_read(&rt, rt.alloc(), left, usize::MAX)?;
    }
    Ok(())
}

// Returns the end of a play of the first `left` bytes. The first `done` lines of these bytes are whole.
fn end_of(left: usize, done: usize) -> Result<(), PlayError> {
    if LINES.contains(&left) {
        Ok(())
    } else {
        Err(PlayError::BadLine(done.saturating_add(1) as u64))
    }
}

fn is_cut(rt: &impl Abort, alloc: Global, left: usize) -> Result<(), Fail> {
    let source = Source::cut(left, usize::MAX, None);
    let sink = Sink::new(alloc, usize::MAX, usize::MAX, None);
    let done = count_within(&LINES, left);
    let want = wanted(alloc, end_of(left, done), text_of(done), done)?;
    same_at(rt, play_first(alloc, source, sink, done)?, want, &left);
    Ok(())
}

// A trace that is cut at a line's end is a trace.
#[test]
fn refuses_the_line_that_is_cut(rt: HostRuntime) -> Result<(), Fail> {
    for left in 0..=FIRST.len() {
        is_cut(&rt, rt.alloc(), left)?;
    }
    Ok(())
}

// Asserts the result of a play whose writer stops after `room` bytes, with at most `most` bytes in a write.
fn fails_to_write(
    rt: &impl Abort,
    alloc: Global,
    room: usize,
    most: usize,
    stop: Stop,
) -> Result<(), Fail> {
    let source = Source::cut(FIRST.len(), usize::MAX, None);
    let sink = Sink::new(alloc, room, most, stop);
    let done = count_within(&TEXTS, room).saturating_add(1);
    let want = wanted(alloc, Err(PlayError::Write), room, done)?;
    same_at(rt, play_first(alloc, source, sink, done)?, want, &room);
    Ok(())
}

// The line whose text is not written whole is done.
#[test]
fn does_the_lines_up_to_a_failed_write(rt: HostRuntime) -> Result<(), Fail> {
    for room in 0..FIRST_TEXT.len() {
        fails_to_write(&rt, rt.alloc(), room, 3, Some(ErrorKind::Interrupted))?;
        fails_to_write(&rt, rt.alloc(), room, usize::MAX, None)?;
    }
    Ok(())
}

// Asserts the result of a play whose reader fails with this kind of error in the second line.
fn fails_to_read_by(rt: &impl Abort, alloc: Global, kind: ErrorKind) -> Result<(), Fail> {
    let source = Source::cut(20, usize::MAX, Some(kind));
    let sink = Sink::new(alloc, usize::MAX, usize::MAX, None);
    let want = wanted(alloc, Err(PlayError::Read), 146, 1)?;
    same(rt, play_first(alloc, source, sink, 1)?, want);
    Ok(())
}

// The player reports lack of memory of a reader or a writer as an error of the stream, not as its own. It tries nothing
// again.
#[test]
fn tells_errors_of_each_kind_by_their_side(rt: HostRuntime) -> Result<(), Fail> {
    for kind in KINDS {
        fails_to_read_by(&rt, rt.alloc(), kind)?;
        fails_to_write(&rt, rt.alloc(), 148, usize::MAX, Some(kind))?;
    }
    Ok(())
}
