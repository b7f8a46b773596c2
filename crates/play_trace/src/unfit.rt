// SPDX-License-Identifier: MIT OR Apache-2.0
//! The records that a send descriptor can say.

ghost use Rattle.std.specs.Prelude.{◌≡◌, ◌≤◌, ◌%◌, ◌^◌, ◌==◌, nat_le, length, if◌then◌else◌};
ghost use Rattle.std.specs.List.{list_all};
ghost use Rattle.ffa_model.specs.declared.limits.TheConstants.{MOST_RANGES};
ghost use Rattle.ffa_model.specs.declared.transaction.Range.{Range};
ghost use Rattle.ffa_model.specs.declared.transaction.Receiver.{Receiver};
ghost use Rattle.ffa_model.specs.DescriptorPlaces.{data_code};
ghost use Rattle.ffa_model.specs.SendDescriptor.{send_record, is_grant, range_end, most_receivers, most_flags};
ghost use Rattle.play_trace.specs.Conditions.{are_distinct, are_all_apart, grant_cause, receiver_conditions, range_conditions, conditions, first_broken};

use ffa_memdesc::parts::{is_apart_from, is_named, page_total, range_end};
use ffa_model::{Data, EndpointId, Kind, MOST_RECEIVERS, Range, Receiver, SendDesc};
use std::fmt;

/// A condition of a send descriptor (DEN0077A, 5.11 and 16) that a record breaks.
#[derive(Clone, Copy, Debug, PartialEq, Eq)]
pub enum Unfit {
    /// A share requests that its pages are zeroed.
    ZeroedShare,
    NoReceiver,
    SeveralReceiversOfADonate,
    /// A share or a lend grants a receiver no right to data.
    GrantMissing,
    /// A donate grants a right to data.
    GrantOfADonate,
    ReceiverIsSender,
    ReceiverTwice,
    NoRange,
    EmptyRange,
    /// A range begins inside a page.
    RangeUnaligned,
    /// A range ends above 2^48.
    RangeTooHigh,
    RangesOverlap,
    /// The ranges have more pages together than the composite can say: 2^32 or more.
    TooManyPages,
}

/// Returns the cause of the first condition that does not hold, or `None` if all hold.
fn first_broken(conditions: &[(bool, Unfit)]) -> Option<Unfit>
    ensures { result ≡ first_broken conditions.now }
{
    match conditions {
        [] => None,
        [(true, _), rest @ ..] => first_broken(rest),
        [(false, cause), ..] => Some(*cause),
    }
}

fn most_receivers(kind: Kind) -> usize
    ensures { result ≡ most_receivers kind }
{
    match kind {
        Kind::Share | Kind::Lend => MOST_RECEIVERS,
        Kind::Donate => 1,
    }
}

/// Whether a send of this kind may grant a receiver this right to data. `None` means no right.
fn is_grant(kind: Kind, grant: Option<Data>) -> bool
    ensures { result ≡ is_grant kind (data_code grant) }
{
    match grant {
        Some(Data::Ro | Data::Rw) => kind != Kind::Donate,
        None => kind == Kind::Donate,
    }
}

fn grant_cause(kind: Kind) -> Unfit
    ensures { result ≡ grant_cause kind }
{
    match kind {
        Kind::Share | Kind::Lend => Unfit::GrantMissing,
        Kind::Donate => Unfit::GrantOfADonate,
    }
}

fn are_distinct(receivers: &[Receiver]) -> bool
    ensures { result ≡ are_distinct receivers.now }
{
    match receivers {
        [] => true,
        [first, rest @ ..] => !is_named(first.endpoint, rest) && are_distinct(rest),
    }
}

fn are_all_apart(ranges: &[Range]) -> bool
    ensures { result ≡ are_all_apart ranges.now }
{
    match ranges {
        [] => true,
        [first, rest @ ..] => is_apart_from(first, rest) && are_all_apart(rest),
    }
}

fn are_granted(kind: Kind, receivers: &[Receiver]) -> bool
    ensures { result ≡ list_all (λ (x : Receiver). is_grant kind (data_code x.grant)) receivers.now }
{
    receivers.iter().all(|r| is_grant(kind, r.grant))
}

fn have_pages(ranges: &[Range]) -> bool
    ensures { result ≡ list_all (λ (q : Range). nat_le 1 q.pages) ranges.now }
{
    ranges.iter().all(|r| r.pages >= 1)
}

fn are_aligned(ranges: &[Range]) -> bool
    ensures { result ≡ list_all (λ (q : Range). q.address % 4096 == 0) ranges.now }
{
    ranges.iter().all(|r| r.address % 4096 == 0)
}

fn are_below(ranges: &[Range]) -> bool
    ensures { result ≡ list_all (λ (q : Range). nat_le (range_end q) (2 ^ 48)) ranges.now }
{
    ranges.iter().all(|r| range_end(r) <= 1 << 48)
}

fn unfit_receivers(kind: Kind, sender: EndpointId, receivers: &[Receiver]) -> Option<Unfit>
    ensures { result ≡ first_broken (receiver_conditions kind sender.0 receivers.now) }
{
    first_broken(&[
        (receivers.len() >= 1, Unfit::NoReceiver),
        (
            receivers.len() <= most_receivers(kind),
            Unfit::SeveralReceiversOfADonate,
        ),
        (are_granted(kind, receivers), grant_cause(kind)),
        (!is_named(sender, receivers), Unfit::ReceiverIsSender),
        (are_distinct(receivers), Unfit::ReceiverTwice),
    ])
}

fn unfit_ranges(ranges: &[Range]) -> Option<Unfit>
    requires { length ranges.now ≤ MOST_RANGES }
    ensures { result ≡ first_broken (range_conditions ranges.now) }
{
    first_broken(&[
        (ranges.len() >= 1, Unfit::NoRange),
        (have_pages(ranges), Unfit::EmptyRange),
        (are_aligned(ranges), Unfit::RangeUnaligned),
        (are_below(ranges), Unfit::RangeTooHigh),
        (are_all_apart(ranges), Unfit::RangesOverlap),
        (page_total(ranges) < 1 << 32, Unfit::TooManyPages),
    ])
}

/// Whether a send of this kind may have this value in bit 0 of its flags.
fn may_zero(kind: Kind, zero: bool) -> bool
    ensures { result ≡ nat_le (if zero then 1 else 0) (most_flags kind) }
{
    match kind {
        Kind::Share => !zero,
        Kind::Lend | Kind::Donate => true,
    }
}

/// Returns the cause of the first condition of a send of this kind that the record breaks, or `None` if it breaks no
/// condition.
pub fn find_unfit(kind: Kind, desc: &SendDesc) -> Option<Unfit>
    ensures { result ≡ first_broken (conditions kind (send_record desc.now)) }
{
    if !may_zero(kind, desc.zero) {
        return Some(Unfit::ZeroedShare);
    }
    match unfit_receivers(kind, desc.sender, desc.receivers.as_slice()) {
        Some(unfit) => Some(unfit),
        None => unfit_ranges(desc.ranges.as_slice()),
    }
}

impl fmt::Display for Unfit {
    fn fmt<W: fmt::Write>(&self, f: &mut fmt::Formatter<W>) -> fmt::Result {
        f.write_str(match self {
            Unfit::ZeroedShare => {
                "a share cannot zero its pages: store zeros first, or lend or donate the pages, which zeroes them at the send"
            }
            Unfit::NoReceiver => "no receiver is named",
            Unfit::SeveralReceiversOfADonate => "a donate has several receivers",
            Unfit::GrantMissing => "a receiver of a share or a lend is granted no data right",
            Unfit::GrantOfADonate => "a receiver of a donate is granted a data right",
            Unfit::ReceiverIsSender => "the sender is named as a receiver",
            Unfit::ReceiverTwice => "a receiver is named twice",
            Unfit::NoRange => "no range is named",
            Unfit::EmptyRange => "a range has no page",
            Unfit::RangeUnaligned => "a range begins inside a page",
            Unfit::RangeTooHigh => "a range ends above 2^48",
            Unfit::RangesOverlap => "two ranges overlap",
            Unfit::TooManyPages => "the ranges have 2^32 pages or more together",
        })
    }
}
