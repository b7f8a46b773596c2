// SPDX-License-Identifier: MIT OR Apache-2.0
//! The additions of `--number` and `--names` to the text of a line: its number, and the names of what registers hold.
ghost use Rattle.std.specs.Prelude.{[]};
ghost use Rattle.std.specs.Option.{option_map_or};
ghost use Rattle.ffa_abi.specs.Names.{error_name_of};
ghost use Rattle.play_trace.specs.TraceText.{spaced};
ghost use Rattle.play_reasons.specs.Drafts.{Puts};
ghost use Rattle.play_reasons.specs.Marks.{names_mark, number_mark};

use crate::draft::Draft;
use ffa_abi::{call_name, error_name};
use std::alloc::Allocator;

/// Puts the number of a line, a colon and a space.
pub fn put_number<A: Allocator>(text: &mut Draft<A>, number: u64)
    ensures { Puts text.old text.new (number_mark number) }
{
    text.put_shown(&number);
    text.put(": ");
}

/// Puts ` # ` and the name of the call that registers hold, then the name of their error. Puts nothing if the call has no name.
pub fn put_names<A: Allocator>(text: &mut Draft<A>, x: &[u64; 8])
    ensures { Puts text.old text.new (names_mark x.now) }
{
    if let Some(name) = call_name(x) {
        text.put(" # ");
        text.put(name);
        put_error(text, x);
    }
}

/// Puts a space and the name of the error that registers hold. Puts nothing if they hold no error.
pub fn put_error<A: Allocator>(text: &mut Draft<A>, x: &[u64; 8])
    ensures { Puts text.old text.new (option_map_or spaced (error_name_of x.now) []) }
{
    if let Some(error) = error_name(x) {
        text.put(" ");
        text.put(error);
    }
}
