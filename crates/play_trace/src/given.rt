// SPDX-License-Identifier: MIT OR Apache-2.0
//! The arguments that words give, and the registers that they make.
ghost use Rattle.std.specs.Prelude.{◌≡◌, ◌+◌, ◌<◌, ◌^◌, ◌==◌, [], ◌∷◌, find, length, option_map, position};
ghost use Rattle.play_trace.specs.TraceLines.{words_of};
ghost use Rattle.play_trace.specs.Calls.{form_of};
ghost use Rattle.play_trace.specs.Cuts.{left_length, words_left};
ghost use Rattle.play_trace.specs.Words.{Gives, argument_named, given_in, givens, feature_in, is_given, is_missing, is_whole, most_of, named_in, register_of, registers, share, usual_of, uuid_in, value_in, value_named, value_of, word_at};

use crate::arguments::{Argument, Place, Usual};
use crate::fault::{Cause, LowerError, WordsFault};
use crate::function::{Function, function_named};
use crate::name::Name;
use crate::number::number_in;
use std::alloc::Allocator;
use uuid::Uuid;

/// An argument, with the number that a word gives for it.
#[derive(Clone, Copy)]
pub struct Given {
    pub argument: Argument,
    pub value: u128,
}

/// Cuts off the first word of a text. Returns the word, and the text after the space that follows it. The second part
/// is `None` if no space follows the word.
pub(crate) fn cut_word(text: &[u8]) -> (&[u8], Option<&[u8]>)
    ensures words { words_of text.now ≡ result.0.now ∷ words_left result.1 }
    ensures length { length text.now ≡ length result.0.now + left_length result.1 }
{
    match first_of(text, b' ') {
        Some(end) => (&text[..end], Some(&text[end + 1..])),
        None => (text, None),
    }
}

// Returns the index of the first byte with this value.
fn first_of(text: &[u8], byte: u8) -> Option<usize>
    ensures { result ≡ position (λ c. c == byte) text.now }
{
    text.iter().position(|c| *c == byte)
}

/// Reads the arguments that words give, in the order of the words. The first of these words is in the column `column`.
/// Fails at the first word that gives no argument of the call, or if there is no memory.
pub(crate) fn read_given<A: Allocator + Copy>(
    alloc: A,
    function: &Function,
    words: Option<&[u8]>,
    column: usize,
) -> Result<Vec<Given, A>, LowerError>
    requires { column + left_length words < 2 ^ 64 }
    ensures { Gives (λ given. given.items) (givens (form_of function.now) column [] (words_left words.entry)) result }
{
    let mut given = Vec::new(alloc);
    let mut rest = words;
    let mut column = column;
    'words: while let Some(left) = rest {
        let (word, behind) = cut_word(left);
        match given_in(function, &given, word) {
            Ok(one) => match given.push(one) {
                Ok(()) => (),
                Err(_) => return Err(LowerError::NoMemory),
            },
            Err(cause) => return Err(LowerError::Words(WordsFault { column, cause })),
        }
        column += word.len() + 1;
        rest = behind;
    }
    Ok(given)
}

// Returns the argument that one word gives, after the arguments that words before it gave.
#[tactic(auto, unfolding(crate::specs::Words::given_in))]
fn given_in(function: &Function, before: &[Given], word: &[u8]) -> Result<Given, Cause>
    ensures { result ≡ given_in (form_of function.now) before.now word.now }
{
    match first_of(word, b'=') {
        Some(end) => named_in(function, before, &word[..end], &word[end + 1..]),
        None => Err(Cause::NoArgument),
    }
}

#[tactic(auto, unfolding(crate::specs::Words::named_in))]
fn named_in(function: &Function, before: &[Given], name: &[u8], text: &[u8]) -> Result<Given, Cause>
    ensures { result ≡ named_in (form_of function.now) before.now name.now text.now }
{
    let Some(argument) = argument_named(function.arguments, name) else {
        return Err(Cause::UnknownArgument(function.narrow));
    };
    if is_given(before, name) {
        return Err(Cause::Twice);
    }
    let most = most_of(function, &argument);
    match value_in(argument.0, text) {
        Err(cause) => Err(cause),
        Ok(value) if value > most => Err(Cause::TooLarge(most)),
        Ok(value) => Ok(Given { argument, value }),
    }
}

// Returns the number that a text writes for an argument of this name.
fn value_in(name: Name, text: &[u8]) -> Result<u128, Cause>
    ensures { result ≡ value_in name text.now }
{
    match name {
        Name::Uuid => uuid_in(text).ok_or(Cause::NoUuid),
        Name::Feature => feature_in(text).ok_or(Cause::NoFeature),
        _ => number_in(32, text).ok_or(Cause::NoNumber),
    }
}

// Returns the number of a UUID, which is written as in a manifest. The first byte of the UUID has the lowest bits.
#[tactic(auto, unfolding(crate::specs::Words::uuid_in))]
fn uuid_in(text: &[u8]) -> Option<u128>
    ensures { result ≡ uuid_in text.now }
{
    match Uuid::try_parse_ascii(text) {
        Ok(uuid) => Some(u128::from_le_bytes(uuid.into_bytes())),
        Err(_) => None,
    }
}

// Returns the number of a feature, which the text writes as a number or as the name of a call.
#[tactic(auto, unfolding(crate::specs::Words::feature_in))]
fn feature_in(text: &[u8]) -> Option<u128>
    ensures { result ≡ feature_in text.now }
{
    if let Some(number) = number_in(32, text) {
        return Some(number);
    }
    match function_named(text) {
        Some(function) => Some(u128::from(function.number)),
        None => None,
    }
}

fn argument_named(arguments: &[Argument], name: &[u8]) -> Option<Argument>
    ensures { result ≡ argument_named arguments.now name.now }
{
    arguments
        .iter()
        .find(|argument| argument.0.text().as_bytes() == name)
        .copied()
}

fn is_given(given: &[Given], name: &[u8]) -> bool
    ensures { result ≡ is_given given.now name.now }
{
    given
        .iter()
        .any(|one| one.argument.0.text().as_bytes() == name)
}

// Returns the largest number that an argument may be in this form of the call.
fn most_of(function: &Function, argument: &Argument) -> u128
    ensures { result ≡ most_of (form_of function.now) argument.now }
{
    match argument.1 {
        Place::Word(register) if is_whole(function, register) => 0xFFFF_FFFF_FFFF_FFFF,
        _ => argument.2,
    }
}

// Whether this form of the call reads a register whole.
fn is_whole(function: &Function, register: u32) -> bool
    ensures { result ≡ is_whole (form_of function.now) register }
{
    function.is_wide && function.whole.contains(&register)
}

/// Returns the name of the first argument that the call needs and the words do not give, or `None` if there is no such
/// argument.
pub(crate) fn first_missing(function: &Function, given: &[Given]) -> Option<Name>
    ensures { result ≡ option_map (λ argument. argument.0) (find (is_missing given.now) function.now.arguments.now) }
{
    match function
        .arguments
        .iter()
        .find(|argument| value_of(given, argument).is_none())
    {
        Some(argument) => Some(argument.0),
        None => None,
    }
}

fn value_of(given: &[Given], argument: &Argument) -> Option<u128>
    ensures { result ≡ value_of given.now argument.now }
{
    match value_named(given, argument.0.text().as_bytes()) {
        Some(value) => Some(value),
        None => usual_of(given, argument.3),
    }
}

fn usual_of(given: &[Given], usual: Usual) -> Option<u128>
    ensures { result ≡ usual_of given.now usual }
{
    match usual {
        Usual::Needed => None,
        Usual::Zero => Some(0),
        Usual::Length => value_named(given, b"length"),
    }
}

fn value_named(given: &[Given], name: &[u8]) -> Option<u128>
    ensures { result ≡ value_named given.now name.now }
{
    match given
        .iter()
        .find(|one| one.argument.0.text().as_bytes() == name)
    {
        Some(one) => Some(one.value),
        None => None,
    }
}

/// Returns the registers of a call with these arguments.
pub(crate) fn registers(function: &Function, given: &[Given]) -> [u64; 8]
    ensures { result ≡ registers (form_of function.now) given.now }
{
    [
        u64::from(function.number),
        register_of(function, given, 1),
        register_of(function, given, 2),
        register_of(function, given, 3),
        register_of(function, given, 4),
        register_of(function, given, 5),
        register_of(function, given, 6),
        register_of(function, given, 7),
    ]
}

// Returns the value of a register, by its number.
fn register_of(function: &Function, given: &[Given], number: u32) -> u64
    ensures { result ≡ register_of (form_of function.now) given.now number }
{
    let mut held = 0;
    for argument in function.arguments {
        let value = value_of(given, argument).unwrap_or(0);
        held |= share(function, argument.1, value, number);
    }
    held
}

// Returns the bits of a register, by its number, that come from an argument with this value.
fn share(function: &Function, place: Place, value: u128, number: u32) -> u64
    ensures { result ≡ share (form_of function.now) place value number }
{
    match place {
        Place::High(its) if number == its => (value % 0x1_0000 * 0x1_0000) as u64,
        Place::Low(its) if number == its => (value % 0x1_0000) as u64,
        Place::Word(its) if number == its && is_whole(function, its) => {
            (value % 0x1_0000_0000_0000_0000) as u64
        }
        Place::Word(its) if number == its => (value % 0x1_0000_0000) as u64,
        Place::Words(first) if first <= number => word_at(value, number - first),
        _ => 0,
    }
}

// Returns the 32-bit word of a number at this place. Place 0 has the lowest bits.
fn word_at(value: u128, place: u32) -> u64
    ensures { result ≡ word_at value place }
{
    if place < 4 {
        ((value >> (32 * place)) % 0x1_0000_0000) as u64
    } else {
        0
    }
}
