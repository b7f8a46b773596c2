// SPDX-License-Identifier: MIT OR Apache-2.0
//! Readers of single words.
ghost use Rattle.std.specs.Prelude.{◌≡◌, ◌%◌, ◌≤◌, length, option_map, IfSome};
ghost use Rattle.play_report.specs.Members.{asker_of, each, first_misplaced, grant_of, identifier_of, kind_of, members_of, misplaced_of, page_count_of, range_of, receiver_of, right_of, tx_of, version_of};

use crate::fault::Form;
use crate::parts::{cut, number, one_or_two};
use crate::right::Right;
use arrayvec::ArrayVec;
use ffa_model::{
    Address, Data, EndpointId, Kind, MOST_RANGES, MOST_RECEIVERS, Range, Receiver, Version,
};

/// The endpoint that retrieves, and the right that it requests. If the right to data is `None`, the retrieve does not
/// specify it.
#[derive(Clone, Copy, PartialEq, Eq)]
pub struct Asker {
    pub endpoint: EndpointId,
    pub level: Option<Data>,
    pub exec: bool,
}

#[tactic(auto, unfolding(crate::specs::Members::identifier_of))]
pub(crate) fn read_identifier(word: &str) -> Option<EndpointId>
    ensures { result ≡ identifier_of word.now }
{
    match number(word)? {
        n if n < 1 << 16 => Some(EndpointId(n as u16)),
        _ => None,
    }
}

#[tactic(auto, unfolding(crate::specs::Members::page_count_of))]
fn read_page_count(word: &str) -> Option<u32>
    ensures { result ≡ page_count_of word.now }
{
    match number(word)? {
        n if n < 1 << 32 => Some(n as u32),
        _ => None,
    }
}

/// Reads the address of TX, which must be the address of a page below 2^32. Returns `None` for any other word.
#[tactic(auto, unfolding(crate::specs::Members::tx_of))]
pub(crate) fn read_tx(word: &str) -> Option<Address>
    ensures value { result ≡ tx_of word.now }
    ensures aligned { IfSome result (λ a. a.0 % 4096 ≡ 0) }
{
    match number(word)? {
        n if n < 1 << 32 && n % 4096 == 0 => Some(Address(n as u32)),
        _ => None,
    }
}

#[tactic(auto, unfolding(crate::specs::Members::range_of))]
fn read_range(word: &str) -> Option<Range>
    ensures { result ≡ range_of word.now }
{
    let (address, pages) = one_or_two(word, '+')?;
    Some(Range {
        address: number(address)?,
        pages: read_page_count(pages?)?,
    })
}

/// Reads the kind of a transaction: `donate`, `lend` or `share`. Returns `None` for any other word.
#[tactic(auto, unfolding(crate::specs::Members::kind_of))]
pub(crate) fn read_kind(word: &str) -> Option<Kind>
    ensures { result ≡ kind_of word.now }
{
    match word {
        "donate" => Some(Kind::Donate),
        "lend" => Some(Kind::Lend),
        "share" => Some(Kind::Share),
        _ => None,
    }
}

/// Reads the version in whose form a descriptor is written: `compact`, `1.1` or `1.2`. Returns `None` for any other
/// word.
#[tactic(auto, unfolding(crate::specs::Members::version_of))]
pub(crate) fn read_version(word: &str) -> Option<Version>
    ensures { result ≡ version_of word.now }
{
    match word {
        "compact" => Some(Version::Compact),
        "1.1" => Some(Version::V1_1),
        "1.2" => Some(Version::V1_2),
        _ => None,
    }
}

#[tactic(auto, unfolding(crate::specs::Members::grant_of))]
fn read_grant(word: &str) -> Option<Data>
    ensures { result ≡ grant_of word.now }
{
    match word {
        "ro" => Some(Data::Ro),
        "rw" => Some(Data::Rw),
        _ => None,
    }
}

fn read_right(word: &str) -> Option<(Option<Data>, bool)>
    ensures { result ≡ right_of word.now }
{
    match Right::read(word) {
        None => None,
        Some(right) => Some(right.asked()),
    }
}

// Returns the right after an endpoint, if the right has no place in this form.
#[tactic(auto, unfolding(crate::specs::Members::misplaced_of))]
fn misplaced(form: Form, word: &str) -> Option<Right>
    ensures { result ≡ misplaced_of form word.now }
{
    let (_, right) = one_or_two(word, ':')?;
    let right = Right::read(right?)?;
    if right.has_place(form) {
        None
    } else {
        Some(right)
    }
}

/// Returns the first right in a list of endpoints that has no place in this form, or `None` if each right has a place.
pub(crate) fn first_misplaced(form: Form, text: &str) -> Option<Right>
    ensures { result ≡ first_misplaced form (members_of text.now) }
{
    let mut rest = Some(text);
    'members: while let Some(left) = rest {
        let (word, behind) = cut(left, ',');
        if let Some(right) = misplaced(form, word) {
            return Some(right);
        }
        rest = behind;
    }
    None
}

#[tactic(auto, unfolding(crate::specs::Members::receiver_of))]
fn read_receiver(word: &str) -> Option<Receiver>
    ensures { result ≡ receiver_of word.now }
{
    let (first, right) = one_or_two(word, ':')?;
    let endpoint = read_identifier(first)?;
    let grant = match right {
        None => None,
        Some(right) => Some(read_grant(right)?),
    };
    Some(Receiver { endpoint, grant })
}

/// Reads the one receiver of a retrieve, which may have a right, as in `8002:rw`. Returns `None` for any other word.
#[tactic(auto, unfolding(crate::specs::Members::asker_of))]
pub(crate) fn read_asker(word: &str) -> Option<Asker>
    ensures { result ≡ asker_of word.now }
{
    let (first, asked) = one_or_two(word, ':')?;
    let endpoint = read_identifier(first)?;
    let (level, exec) = match asked {
        None => (None, false),
        Some(asked) => read_right(asked)?,
    };
    Some(Asker {
        endpoint,
        level,
        exec,
    })
}

/// Reads the receivers of a send, which have commas between them. Returns `None` if one of them cannot be read. The
/// list has at most MOST_RECEIVERS members.
pub(crate) fn read_receivers(text: &str) -> Option<ArrayVec<Receiver, MOST_RECEIVERS>>
    requires { length (members_of text.now) ≤ MOST_RECEIVERS }
    ensures { option_map (λ rs. rs.items) result ≡ each receiver_of (members_of text.now) }
{
    let mut receivers = ArrayVec::new();
    let mut rest = Some(text);
    'members: while let Some(left) = rest {
        let (word, behind) = cut(left, ',');
        receivers.push(read_receiver(word)?);
        rest = behind;
    }
    Some(receivers)
}

/// Reads the ranges of a send, which have commas between them. Returns `None` if one of them cannot be read. The list
/// has at most MOST_RANGES members.
pub(crate) fn read_ranges(text: &str) -> Option<ArrayVec<Range, MOST_RANGES>>
    requires { length (members_of text.now) ≤ MOST_RANGES }
    ensures { option_map (λ rs. rs.items) result ≡ each range_of (members_of text.now) }
{
    let mut ranges = ArrayVec::new();
    let mut rest = Some(text);
    'members: while let Some(left) = rest {
        let (word, behind) = cut(left, ',');
        ranges.push(read_range(word)?);
        rest = behind;
    }
    Some(ranges)
}
