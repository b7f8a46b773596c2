// SPDX-License-Identifier: MIT OR Apache-2.0
//! The flags that a trace gives for its own machine, in comments before all other lines.
use play_arguments::{FFA_WANTED, MachineOptions, PROCESSORS_WANTED, read_ffa, read_processors};
use std::alloc::Global;
use std::io::{self, BufRead, BufReader, Read, Write};

/// The bytes before the flags in a comment that gives flags.
const FRONT: &[u8] = b"# with ";

/// The message for any other word of such a comment.
const FLAGS_WANTED: &str =
    "only --frames, --tlb, --processors N and --ffa VERSION can follow `# with`";

/// Returns the options of a machine after the flags of a trace replaced some of them. The function reads only the comments
/// and the empty lines at the beginning of the trace. If a flag is wrong, the function writes the message for the first
/// such flag to `told`, and returns `None`.
pub(crate) fn with_own_flags<R: Read + Drop, W: Write>(
    alloc: Global,
    trace: R,
    mut machine: MachineOptions,
    told: &mut W,
) -> io::Result<Option<MachineOptions>> {
    let mut reader = BufReader::new(alloc, trace)?;
    let mut line = Vec::new(alloc);
    for number in 1..u64::MAX {
        line.clear();
        reader.read_until(b'\n', &mut line)?;
        if !is_before_commands(&line) {
            break;
        }
        match with_line(&line, machine) {
            Ok(changed) => machine = changed,
            Err(wanted) => {
                writeln!(told, "ffaplay: line {number}: {wanted}")?;
                return Ok(None);
            }
        }
    }
    Ok(Some(machine))
}

// Whether a line can be before the first command: an empty line, or a comment other than a guard `#=`. The end of a trace
// is no line.
fn is_before_commands(line: &[u8]) -> bool {
    match line {
        [b'#', b'=', ..] => false,
        [b'#', ..] | [b'\n'] => true,
        _ => false,
    }
}

// Returns the options of a machine after the flags of a line replaced some of them, or the message for the first wrong
// flag.
fn with_line(line: &[u8], machine: MachineOptions) -> Result<MachineOptions, &'static str> {
    match line.strip_prefix(FRONT).map(str::from_utf8) {
        Some(Ok(text)) => with_flags(text, machine),
        Some(Err(_)) => Err(FLAGS_WANTED),
        None => Ok(machine),
    }
}

fn with_flags(text: &str, mut machine: MachineOptions) -> Result<MachineOptions, &'static str> {
    let mut words = text.split_whitespace();
    // A text has at most one word for each of its bytes.
    for _ in 0..text.len() {
        let Some(flag) = words.next() else {
            break;
        };
        match flag {
            "--frames" => machine.frames = true,
            "--tlb" => machine.tlb = true,
            "--processors" => {
                let count = read_processors(words.next().unwrap_or(""));
                machine.processors = Some(count.ok_or(PROCESSORS_WANTED)?);
            }
            "--ffa" => machine.ffa = read_ffa(words.next().unwrap_or("")).ok_or(FFA_WANTED)?,
            _ => return Err(FLAGS_WANTED),
        }
    }
    Ok(machine)
}
