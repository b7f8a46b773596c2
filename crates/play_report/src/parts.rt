// SPDX-License-Identifier: MIT OR Apache-2.0
//! The parts of a word: members between commas, parts before and after a colon or a plus, and numbers.
ghost use Rattle.std.specs.Prelude.{◌≡◌, ◌+◌, ◌<◌, ◌==◌, ◌∷◌, length, IfSome, option_map};
ghost use Rattle.std.specs.List.{slice_split};
ghost use Rattle.play_trace.specs.TraceLines.{number_in};
ghost use Rattle.play_report.specs.Members.{comma, one_or_two};
ghost use Rattle.play_report.specs.Cuts.{parts_left};

use play_trace::number::number_in;

/// Cuts a text at its first mark. Returns the text before the mark, and the text after it. Without a mark, it returns
/// the whole text and `None`.
pub(crate) fn cut(text: &str, mark: char) -> (&str, Option<&str>)
    requires { mark < 128 }
    ensures parts { slice_split (λ c. c == mark) text.now ≡ result.0.now ∷ parts_left mark result.1 }
    ensures shorter { IfSome result.1 (λ rest. length rest.now < length text.now) }
{
    match text.split_once(mark) {
        Some((before, behind)) => (before, Some(behind)),
        None => (text, None),
    }
}

/// Cuts a word at its mark, and returns one part or two. Returns `None` if the word has more than one mark.
pub(crate) fn one_or_two(word: &str, mark: char) -> Option<(&str, Option<&str>)>
    requires { mark < 128 }
    ensures { option_map (λ p. (p.0.now, option_map (λ s. s.now) p.1)) result
        ≡ one_or_two (slice_split (λ c. c == mark) word.now) }
{
    let (first, behind) = cut(word, mark);
    let Some(behind) = behind else {
        return Some((first, None));
    };
    match cut(behind, mark) {
        (second, None) => Some((first, Some(second))),
        (_, Some(_)) => None,
    }
}

/// Returns the number of commas in a list, which is one less than the number of members.
pub(crate) fn commas(text: &str) -> usize
    ensures { result + 1 ≡ length (slice_split (λ c. c == comma) text.now) }
{
    let mut count = 0;
    for byte in text.as_bytes() {
        if *byte == b',' {
            count += 1;
        }
    }
    count
}

/// Returns the number that 1 to 16 hexadecimal digits write, with or without `0x` or `0X` before them. Returns `None`
/// for any other word.
pub(crate) fn number(word: &str) -> Option<u64>
    ensures { result ≡ number_in 16 word.now }
{
    Some(number_in(16, word.as_bytes())? as u64)
}
