// SPDX-License-Identifier: MIT OR Apache-2.0
//! What an operation comes to, in short words: names in place of identifiers, and no zeros in front of numbers.
ghost use Rattle.std.specs.Prelude.{◌≡◌, ◌==◌};
ghost use Rattle.std.specs.List.{flat_map, list_all};
ghost use Rattle.play_trace.specs.TraceText.{hex, spaced};
ghost use Rattle.play_reasons.specs.Drafts.{Puts};
ghost use Rattle.play_player.specs.Short.{cut_zeros, filled, function_word, short_data, short_number, short_registers};

use ffa_abi::call_name;
use ffa_model::EndpointId;
use play_reasons::Draft;
use play_trace::text::{self, Text};
use std::alloc::Allocator;

// From here on an identifier is that of a 64-bit form, whose name is that of the 32-bit form.
const WIDE_FROM: u64 = 0xC000_0000;

/// Puts who runs next, and the registers that it sees, up to the last one that isn't 0.
#[tactic(auto, using(play_reasons::proofs::Together::together), unfolding(crate::specs::Short::short_registers))]
pub(crate) fn put_short_registers<A: Allocator>(
    text: &mut Draft<A>,
    runner: EndpointId,
    x: &[u64; 8],
)
    ensures { Puts text.old text.new (short_registers runner.0 x.now) }
{
    put_runner(text, runner);
    text.put(": ");
    put_function(text, x);
    put_filled(text, &x[1..]);
}

/// Puts what was loaded or fetched.
#[tactic(auto, using(play_reasons::proofs::Together::together), unfolding(crate::specs::Short::short_data))]
pub(crate) fn put_short_data<A: Allocator>(text: &mut Draft<A>, value: u64)
    ensures { Puts text.old text.new (short_data value) }
{
    text.put("data");
    put_word(text, value);
}

fn put_runner<A: Allocator>(text: &mut Draft<A>, runner: EndpointId)
    ensures { Puts text.old text.new (hex 4 runner.0) }
{
    let mut word = Text::new();
    text::push_digits(&mut word, 4, u64::from(runner.0));
    text.put_bytes(word.as_slice());
}

// Puts the name of the function that registers are, or the first of them.
#[tactic(auto, unfolding(crate::specs::Short::function_word))]
fn put_function<A: Allocator>(text: &mut Draft<A>, x: &[u64; 8])
    ensures { Puts text.old text.new (function_word x.now) }
{
    match call_name(x) {
        Some(name) if x[0] < WIDE_FROM => text.put(name),
        _ => put_number(text, x[0]),
    }
}

// Puts registers, each behind a space, up to the last one that isn't 0.
fn put_filled<A: Allocator>(text: &mut Draft<A>, x: &[u64])
    ensures { Puts text.old text.new (flat_map (λ v. spaced (short_number v)) (filled x.now)) }
{
    let mut rest = x;
    while !is_zero(rest) {
        put_word(text, rest[0]);
        rest = &rest[1..];
    }
}

fn is_zero(x: &[u64]) -> bool
    ensures { result ≡ list_all (λ v. v == 0) x.now }
{
    x.iter().all(|value| *value == 0)
}

#[tactic(auto, using(play_reasons::proofs::Together::together))]
fn put_word<A: Allocator>(text: &mut Draft<A>, value: u64)
    ensures { Puts text.old text.new (spaced (short_number value)) }
{
    text.put(" ");
    put_number(text, value);
}

// Puts a number without zeros in front.
#[tactic(auto, unfolding(crate::specs::Short::short_number))]
fn put_number<A: Allocator>(text: &mut Draft<A>, value: u64)
    ensures { Puts text.old text.new (short_number value) }
{
    let mut word = Text::new();
    text::push_digits(&mut word, 16, value);
    text.put_bytes(without_zeros(word.as_slice()));
}

// Digits without the zeros in front, but one digit at least.
fn without_zeros(word: &[u8]) -> &[u8]
    ensures { result.now ≡ cut_zeros word.now }
{
    let mut rest = word;
    while rest.len() > 1 && rest[0] == b'0' {
        rest = &rest[1..];
    }
    rest
}
