// SPDX-License-Identifier: MIT OR Apache-2.0
//! Comments of a generated trace.
use ffa_model::EndpointId;
use play_generator::{Attempt, Change, Deed, GenerateError, TraceEntry, Turns, write_turns};
use std::test::Fail;

// A source of turns that repeats a turn of three entries.
#[derive(Drop)]
struct SameTurn {
    entries: [TraceEntry; 3],
}

impl Turns for SameTurn {
    fn play_turn(&mut self, _most: u64) -> Result<&[TraceEntry], GenerateError> {
        Ok(&self.entries)
    }
}

fn attempt(deed: Deed, other: Option<EndpointId>, change: Change) -> TraceEntry {
    TraceEntry::Attempt(Attempt {
        actor: EndpointId(0x800A),
        deed,
        other,
        change,
    })
}

#[test]
fn a_comment_is_a_line(rt: HostRuntime) -> Result<(), Fail> {
    let mut turns = SameTurn {
        entries: [
            attempt(Deed::Lend, Some(EndpointId(0x7F)), Change::Outside),
            TraceEntry::Show,
            attempt(Deed::Wait, None, Change::Nothing),
        ],
    };
    let mut out = Vec::new(rt.alloc());
    write_turns(rt.alloc(), &mut turns, 4, &mut out)?;
    let wanted = "\
# 800A lends pages to 007F, with a range outside RAM
show
# 800A waits
# 800A lends pages to 007F, with a range outside RAM
";
    assert_eq!(rt; out.as_slice(), wanted.as_bytes());
    Ok(())
}
