// SPDX-License-Identifier: MIT OR Apache-2.0
//! Translates lines in words into lines of the plain format.
ghost use Rattle.std.specs.Prelude.{◌≡◌, ◌+◌, ◌<◌, ◌^◌, [], ◌++◌, drop, false, length, true, IfErr, IfOk, OnOk, Ok, List, ℕ};
ghost use Rattle.ffa_model.specs.declared.operation.Op.TheVariants.{Call};
ghost use Rattle.play_trace.specs.TraceLines.{words_of};
ghost use Rattle.play_trace.specs.TraceText.{ended};
ghost use Rattle.play_trace.specs.Script.{GrowsBy};
ghost use Rattle.play_trace.specs.Words.{Gives, Refuses, call_in, is_named, plain_line, unmarked};

use crate::fault::{Cause, LowerError, WordsFault};
use crate::function::function_named;
use crate::given::{cut_word, first_missing, read_given, registers};
use crate::number::bare;
use crate::put_operation;
use ffa_model::Op;
use std::alloc::{AllocError, Allocator};

/// Translates a line in words into the line of the plain format, with its LF. The given line does not have its LF.
///
/// A line that begins with `call FFA_` names a call and its arguments. It becomes the call with the registers of these
/// arguments. A comment stays as it is. In any other line only the words after the first change: they lose their `0x`.
///
/// Fails if there is no memory. A line that begins with `call FFA_` also fails if its words are no call.
pub fn lower_line<A: Allocator + Copy>(alloc: A, line: &[u8]) -> Result<Vec<u8, A>, LowerError>
    ensures call { is_named line.now ≡ true
        → IfOk result (λ text. (x : List ℕ) × (call_in (drop 5 line.now) ≡ Ok x) × GrowsBy (Call x) [] text.items) }
    ensures refused { is_named line.now ≡ true → IfErr result (Refuses (call_in (drop 5 line.now))) }
    ensures plain { is_named line.now ≡ false → IfOk result (λ text. text.items ≡ ended (plain_line line.now)) }
    ensures failed { is_named line.now ≡ false → IfErr result (λ error. error ≡ LowerError.NoMemory) }
{
    if line.starts_with(b"call FFA_".as_slice()) {
        lower_call(alloc, &line[5..])
    } else {
        match plain_line(alloc, line) {
            Ok(text) => Ok(text),
            Err(_) => Err(LowerError::NoMemory),
        }
    }
}

// Returns the line of the call that the words after `call ` say.
fn lower_call<A: Allocator + Copy>(alloc: A, text: &[u8]) -> Result<Vec<u8, A>, LowerError>
    requires { length text.now + 6 < 2 ^ 64 }
    ensures call { IfOk result (λ line. (x : List ℕ) × (call_in text.now ≡ Ok x) × GrowsBy (Call x) [] line.items) }
    ensures refused { IfErr result (Refuses (call_in text.now)) }
{
    let x = read_call(alloc, text)?;
    let mut line = Vec::new(alloc);
    match put_operation(&mut line, &Op::Call(x)) {
        Ok(()) => Ok(line),
        Err(_) => Err(LowerError::NoMemory),
    }
}

// Returns the registers of the call that the words after `call ` say.
#[tactic(auto, unfolding(crate::specs::Words::call_in))]
fn read_call<A: Allocator + Copy>(alloc: A, text: &[u8]) -> Result<[u64; 8], LowerError>
    requires { length text.now + 6 < 2 ^ 64 }
    ensures { Gives (λ x. x) (call_in text.now) result }
{
    let (name, words) = cut_word(text);
    let Some(function) = function_named(name) else {
        return Err(refuse(6, Cause::UnknownCall));
    };
    let given = read_given(alloc, &function, words, name.len() + 7)?;
    match first_missing(&function, &given) {
        Some(name) => Err(refuse(text.len() + 6, Cause::Missing(name))),
        None => Ok(registers(&function, &given)),
    }
}

fn refuse(column: usize, cause: Cause) -> LowerError
    ensures { result ≡ LowerError.Words (record { column = column; cause = cause }) }
{
    LowerError::Words(WordsFault { column, cause })
}

// Returns the plain form of any other line, with its LF.
#[tactic(auto, unfolding(crate::specs::Words::plain_line))]
fn plain_line<A: Allocator>(alloc: A, line: &[u8]) -> Result<Vec<u8, A>, AllocError>
    ensures { IfOk result (λ text. text.items ≡ ended (plain_line line.now)) }
{
    let mut text = Vec::new(alloc);
    if line.starts_with(b"#".as_slice()) {
        text.extend_from_slice(line)?;
    } else {
        put_unmarked(&mut text, line)?;
    }
    text.extend_from_slice(b"\n")?;
    Ok(text)
}

// Appends a line whose words after the first lose their `0x`.
fn put_unmarked<A: Allocator>(text: &mut Vec<u8, A>, line: &[u8]) -> Result<(), AllocError>
    ensures { OnOk result (text.new.items ≡ text.old.items ++ unmarked (words_of line.now)) }
{
    let (name, words) = cut_word(line);
    text.extend_from_slice(name)?;
    let mut rest = words;
    'words: while let Some(left) = rest {
        let (word, behind) = cut_word(left);
        text.extend_from_slice(b" ")?;
        text.extend_from_slice(bare(word))?;
        rest = behind;
    }
    Ok(())
}
