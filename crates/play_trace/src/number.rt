// SPDX-License-Identifier: MIT OR Apache-2.0
//! Reads numbers that may have `0x` or `0X` before them. No line of the plain format has these.
ghost use Rattle.std.specs.Prelude.{◌≡◌, ◌<◌, ◌≤◌, ◌^◌, fold, length, IfSome, Some};
ghost use Rattle.play_trace.specs.TraceLines.{bare, digit_value, number_in, with_digit};

/// Returns a word without the `0x` or `0X` of a hexadecimal number at its beginning.
pub fn bare(word: &[u8]) -> &[u8]
    ensures { result.now ≡ bare word.now }
{
    if word.starts_with(b"0x".as_slice()) {
        &word[2..]
    } else if word.starts_with(b"0X".as_slice()) {
        &word[2..]
    } else {
        word
    }
}

/// Returns the number that 1 to `most` hexadecimal digits write, with or without `0x` or `0X` before them. Returns
/// `None` for any other word.
#[tactic(auto, unfolding(crate::specs::TraceLines::number_in))]
pub fn number_in(most: usize, word: &[u8]) -> Option<u128>
    requires { most ≤ 32 }
    ensures number { result ≡ number_in most word.now }
    ensures fits { IfSome result (λ n. n < 16 ^ most) }
{
    let written = bare(word);
    if written.is_empty() || written.len() > most {
        None
    } else {
        digits(written)
    }
}

fn digits(word: &[u8]) -> Option<u128>
    requires { length word.now ≤ 32 }
    ensures number { result ≡ fold with_digit (Some 0) word.now }
    ensures fits { IfSome result (λ n. n < 16 ^ length word.now) }
{
    let mut number = 0;
    for byte in word {
        number = 16 * number + digit(*byte)?;
    }
    Some(number)
}

#[tactic(auto, unfolding(crate::specs::TraceLines::digit_value))]
fn digit(byte: u8) -> Option<u128>
    ensures { result ≡ digit_value byte }
{
    match byte {
        b'0'..=b'9' => Some(u128::from(byte - b'0')),
        b'A'..=b'F' => Some(u128::from(byte - b'A') + 10),
        b'a'..=b'f' => Some(u128::from(byte - b'a') + 10),
        _ => None,
    }
}
