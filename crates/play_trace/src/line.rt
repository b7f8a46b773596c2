// SPDX-License-Identifier: MIT OR Apache-2.0
//! Reads the words of a trace's lines. Each function is inlined, although plays on machines of four kinds call it.
ghost use Rattle.std.specs.Prelude.{◌≡◌, ◌<◌, ◌≤◌, ◌+◌, ◌*◌, ◌^◌, ℕ, length, nat_lt, replicate, Some, None, option_and_then, option_map, if◌then◌else◌};
ghost use Rattle.ffa_model.specs.declared.operation.Op.TheVariants.{Call, Load, Store, Fetch};
ghost use Rattle.play_trace.specs.TraceLines.{operate, size_named, size_written, call_of, load_of, store_of, fetch_of, turn, turn_of, words_of};
ghost use Rattle.play_trace.specs.Parsed.{AreDigits, GoesOn, IsFront, IsStored, value_at, value_of};

use ffa_model::Size;

// The first word of some bytes.
#[derive(Clone, Copy)]
enum Front<'a> {
    // A number, and no other word follows.
    Last(u64),
    // A number, and the bytes after the space that follows it.
    More(u64, &'a [u8]),
    // A word that is no number.
    Other,
}

// Reads the first word as a number. It takes four digits at a time.
#[inline(always)]
fn read_front(bytes: &[u8]) -> Front<'_>
    ensures { IsFront bytes.now result }
{
    let mut number = 0;
    let mut end = 0;
    while end <= 12 {
        if bytes.len() - end < 4 {
            break;
        }
        let four = four_or_more(bytes, end);
        if four >= 0x1_0000 {
            break;
        }
        number = 0x1_0000 * number + four;
        end += 4;
        if end == bytes.len() {
            return Front::Last(number);
        }
        if bytes[end] == b' ' {
            return Front::More(number, &bytes[end + 1..]);
        }
    }
    read_on(bytes, number, end)
}

// Reads the rest of a number, digit by digit. The first `end` bytes are the digits of `number`.
#[inline(always)]
fn read_on(bytes: &[u8], number: u64, end: usize) -> Front<'_>
    requires digits { AreDigits bytes.now number end }
    requires few { end ≤ 16 }
    requires more { GoesOn bytes.now end }
    ensures { IsFront bytes.now result }
{
    if end == bytes.len() {
        return Front::Other;
    }
    let mut number = number;
    let mut end = end;
    while end < 16 {
        let value = value_or_more(bytes[end]);
        if value >= NO_DIGIT {
            break;
        }
        number = 16 * number + value;
        end += 1;
        if end == bytes.len() {
            return Front::Last(number);
        }
        if bytes[end] == b' ' {
            return Front::More(number, &bytes[end + 1..]);
        }
    }
    Front::Other
}

// Returns the number that four bytes write as digits. If one byte is no digit, the result is too large for four digits,
// so that one test is enough.
#[inline(always)]
fn four_or_more(bytes: &[u8], first: usize) -> u64
    requires { first + 4 ≤ length bytes.now }
    ensures { let digit = value_at bytes.now in
        result ≡ 16 * (16 * (16 * digit first + digit (first + 1)) + digit (first + 2)) + digit (first + 3) }
{
    let a = value_or_more(bytes[first]);
    let b = value_or_more(bytes[first + 1]);
    let c = value_or_more(bytes[first + 2]);
    let d = value_or_more(bytes[first + 3]);
    16 * (16 * (16 * a + b) + c) + d
}

/// Reads the words of a `call` line into the registers `x`, which are all 0 before. Returns true if the words are 1 to
/// 8 hexadecimal numbers. Otherwise it returns false, and `x` may hold anything.
#[inline(always)]
pub fn registers(words: &[u8], x: &mut [u64; 8]) -> bool
    requires { x.old ≡ replicate 8 0 }
    ensures { (if result then Some (operate (Call x.new)) else None) ≡ call_of (words_of words.now) }
{
    let mut rest = words;
    for count in 0..8 {
        match read_front(rest) {
            Front::Last(number) => {
                x[count] = number;
                return true;
            }
            Front::More(number, more) => {
                x[count] = number;
                rest = more;
            }
            Front::Other => return false,
        }
    }
    false
}

/// Reads the words of a `load` line: the address, and the size. Returns `None` if the words are no load.
#[inline(always)]
pub fn load(words: &[u8]) -> Option<(u64, Size)>
    ensures { option_map (λ r. operate (Load r.0 r.1)) result ≡ load_of (words_of words.now) }
{
    match read_front(words) {
        Front::More(addr, rest) => Some((addr, size_named(rest)?)),
        Front::Last(_) | Front::Other => None,
    }
}

/// Reads the words of a `store` line: the address, the size and the value. The value has two digits
/// for each byte. Returns `None` if the words are no store.
#[inline(always)]
pub fn store(words: &[u8]) -> Option<(u64, Size, u64)>
    ensures { option_map (λ r. operate (Store r.0 r.1 r.2)) result ≡ store_of (words_of words.now) }
{
    match read_front(words) {
        Front::More(addr, rest) => {
            let (size, value) = size_and_value(rest)?;
            Some((addr, size, value))
        }
        Front::Last(_) | Front::Other => None,
    }
}

// Returns the size and the value that all bytes write. The number of digits gives the size.
#[inline(always)]
fn size_and_value(word: &[u8]) -> Option<(Size, u64)>
    ensures { IsStored word.now result }
{
    let size = size_written(word)?;
    match read_front(word) {
        Front::Last(value) => Some((size, value)),
        Front::More(_, _) | Front::Other => None,
    }
}

/// Reads the words of a `fetch` line: the address. Returns `None` if the words are no fetch.
pub fn fetch(words: &[u8]) -> Option<u64>
    ensures { option_map (λ addr. operate (Fetch addr)) result ≡ fetch_of (words_of words.now) }
{
    match read_front(words) {
        Front::Last(addr) => Some(addr),
        Front::More(_, _) | Front::Other => None,
    }
}

/// Reads the words of an `on` line: the number of a processor, which can be too large for the machine. Returns `None`
/// if the words are no number.
pub fn processor(words: &[u8]) -> Option<u64>
    ensures { (count : ℕ) → option_and_then (λ p. if nat_lt p count then Some (turn p) else None) result ≡ turn_of count (words_of words.now) }
{
    match read_front(words) {
        Front::Last(processor) => Some(processor),
        Front::More(_, _) | Front::Other => None,
    }
}

// Returns the number of bytes that a load reads.
#[inline(always)]
#[tactic(auto, unfolding(crate::specs::TraceLines::size_named))]
fn size_named(word: &[u8]) -> Option<Size>
    ensures { result ≡ size_named word.now }
{
    match word {
        b"1" => Some(Size::B1),
        b"2" => Some(Size::B2),
        b"4" => Some(Size::B4),
        b"8" => Some(Size::B8),
        _ => None,
    }
}

// Returns the number of bytes that a store writes, by the digits of the value.
#[inline(always)]
#[tactic(auto, unfolding(crate::specs::TraceLines::size_written))]
fn size_written(word: &[u8]) -> Option<Size>
    ensures { result ≡ size_written word.now }
{
    match word.len() {
        2 => Some(Size::B1),
        4 => Some(Size::B2),
        8 => Some(Size::B4),
        16 => Some(Size::B8),
        _ => None,
    }
}

// Returns the value of a byte as a hexadecimal digit, or `NO_DIGIT`. It uses a table, since digits and letters follow
// one another without rule.
#[inline(always)]
fn value_or_more(byte: u8) -> u64
    ensures value { result ≡ value_of byte }
    ensures few { result ≤ 2 ^ 32 }
{
    let value = DIGIT_VALUES[byte as usize];
    value
}

// The value of a byte that is no digit. It is more than any four digits write.
const NO_DIGIT: u64 = 1 << 32;

// The value of each byte as a digit.
#[rattlefmt::skip]
static DIGIT_VALUES: [u64; 256] = [
    NO_DIGIT, NO_DIGIT, NO_DIGIT, NO_DIGIT, NO_DIGIT, NO_DIGIT, NO_DIGIT, NO_DIGIT,
    NO_DIGIT, NO_DIGIT, NO_DIGIT, NO_DIGIT, NO_DIGIT, NO_DIGIT, NO_DIGIT, NO_DIGIT,
    NO_DIGIT, NO_DIGIT, NO_DIGIT, NO_DIGIT, NO_DIGIT, NO_DIGIT, NO_DIGIT, NO_DIGIT,
    NO_DIGIT, NO_DIGIT, NO_DIGIT, NO_DIGIT, NO_DIGIT, NO_DIGIT, NO_DIGIT, NO_DIGIT,
    NO_DIGIT, NO_DIGIT, NO_DIGIT, NO_DIGIT, NO_DIGIT, NO_DIGIT, NO_DIGIT, NO_DIGIT,
    NO_DIGIT, NO_DIGIT, NO_DIGIT, NO_DIGIT, NO_DIGIT, NO_DIGIT, NO_DIGIT, NO_DIGIT,
    0, 1, 2, 3, 4, 5, 6, 7,
    8, 9, NO_DIGIT, NO_DIGIT, NO_DIGIT, NO_DIGIT, NO_DIGIT, NO_DIGIT,
    NO_DIGIT, 10, 11, 12, 13, 14, 15, NO_DIGIT,
    NO_DIGIT, NO_DIGIT, NO_DIGIT, NO_DIGIT, NO_DIGIT, NO_DIGIT, NO_DIGIT, NO_DIGIT,
    NO_DIGIT, NO_DIGIT, NO_DIGIT, NO_DIGIT, NO_DIGIT, NO_DIGIT, NO_DIGIT, NO_DIGIT,
    NO_DIGIT, NO_DIGIT, NO_DIGIT, NO_DIGIT, NO_DIGIT, NO_DIGIT, NO_DIGIT, NO_DIGIT,
    NO_DIGIT, 10, 11, 12, 13, 14, 15, NO_DIGIT,
    NO_DIGIT, NO_DIGIT, NO_DIGIT, NO_DIGIT, NO_DIGIT, NO_DIGIT, NO_DIGIT, NO_DIGIT,
    NO_DIGIT, NO_DIGIT, NO_DIGIT, NO_DIGIT, NO_DIGIT, NO_DIGIT, NO_DIGIT, NO_DIGIT,
    NO_DIGIT, NO_DIGIT, NO_DIGIT, NO_DIGIT, NO_DIGIT, NO_DIGIT, NO_DIGIT, NO_DIGIT,
    NO_DIGIT, NO_DIGIT, NO_DIGIT, NO_DIGIT, NO_DIGIT, NO_DIGIT, NO_DIGIT, NO_DIGIT,
    NO_DIGIT, NO_DIGIT, NO_DIGIT, NO_DIGIT, NO_DIGIT, NO_DIGIT, NO_DIGIT, NO_DIGIT,
    NO_DIGIT, NO_DIGIT, NO_DIGIT, NO_DIGIT, NO_DIGIT, NO_DIGIT, NO_DIGIT, NO_DIGIT,
    NO_DIGIT, NO_DIGIT, NO_DIGIT, NO_DIGIT, NO_DIGIT, NO_DIGIT, NO_DIGIT, NO_DIGIT,
    NO_DIGIT, NO_DIGIT, NO_DIGIT, NO_DIGIT, NO_DIGIT, NO_DIGIT, NO_DIGIT, NO_DIGIT,
    NO_DIGIT, NO_DIGIT, NO_DIGIT, NO_DIGIT, NO_DIGIT, NO_DIGIT, NO_DIGIT, NO_DIGIT,
    NO_DIGIT, NO_DIGIT, NO_DIGIT, NO_DIGIT, NO_DIGIT, NO_DIGIT, NO_DIGIT, NO_DIGIT,
    NO_DIGIT, NO_DIGIT, NO_DIGIT, NO_DIGIT, NO_DIGIT, NO_DIGIT, NO_DIGIT, NO_DIGIT,
    NO_DIGIT, NO_DIGIT, NO_DIGIT, NO_DIGIT, NO_DIGIT, NO_DIGIT, NO_DIGIT, NO_DIGIT,
    NO_DIGIT, NO_DIGIT, NO_DIGIT, NO_DIGIT, NO_DIGIT, NO_DIGIT, NO_DIGIT, NO_DIGIT,
    NO_DIGIT, NO_DIGIT, NO_DIGIT, NO_DIGIT, NO_DIGIT, NO_DIGIT, NO_DIGIT, NO_DIGIT,
    NO_DIGIT, NO_DIGIT, NO_DIGIT, NO_DIGIT, NO_DIGIT, NO_DIGIT, NO_DIGIT, NO_DIGIT,
    NO_DIGIT, NO_DIGIT, NO_DIGIT, NO_DIGIT, NO_DIGIT, NO_DIGIT, NO_DIGIT, NO_DIGIT,
    NO_DIGIT, NO_DIGIT, NO_DIGIT, NO_DIGIT, NO_DIGIT, NO_DIGIT, NO_DIGIT, NO_DIGIT,
    NO_DIGIT, NO_DIGIT, NO_DIGIT, NO_DIGIT, NO_DIGIT, NO_DIGIT, NO_DIGIT, NO_DIGIT,
    NO_DIGIT, NO_DIGIT, NO_DIGIT, NO_DIGIT, NO_DIGIT, NO_DIGIT, NO_DIGIT, NO_DIGIT,
];
