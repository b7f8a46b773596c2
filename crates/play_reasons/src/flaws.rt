// SPDX-License-Identifier: MIT OR Apache-2.0
//! The words for each condition of a descriptor.
ghost use Rattle.std.specs.Prelude.{◌≡◌};
ghost use Rattle.ffa_model.specs.declared.flaw.Flaw.TheVariants.{Header, Send, Access, Composite, Range, Retrieve, Relinquish};
ghost use Rattle.play_reasons.specs.FlawWords.{flaw_words_of};

use ffa_model::{
    AccessFlaw, CompositeFlaw, Flaw, HeaderFlaw, RangeFlaw, RelinquishFlaw, RetrieveFlaw, SendFlaw,
};

const HEADER: &[(HeaderFlaw, &str)] = &[
    (
        HeaderFlaw::Short,
        "the descriptor is shorter than its header",
    ),
    (
        HeaderFlaw::AccessSize,
        "the access descriptor size field is not 16, 32 in FF-A 1.2, or 0 in the compact form",
    ),
    (
        HeaderFlaw::ArrayUnaligned,
        "the offset of the access descriptors is not a multiple of 16",
    ),
    (
        HeaderFlaw::ArrayInHeader,
        "the access descriptors begin inside the header",
    ),
    (
        HeaderFlaw::ArrayOutside,
        "the access descriptors end outside the descriptor",
    ),
    (
        HeaderFlaw::Reserved,
        "reserved bytes at the end of the header are not 0",
    ),
];

const SEND: &[(SendFlaw, &str)] = &[
    (
        SendFlaw::Attributes,
        "the memory attributes are wrong for this call and this number of receivers",
    ),
    (
        SendFlaw::Flags,
        "a flag is set that this call does not allow",
    ),
    (SendFlaw::Handle, "the handle is not 0"),
    (SendFlaw::NoReceiver, "there is no receiver"),
    (
        SendFlaw::ManyReceivers,
        "there are more receivers than this call allows",
    ),
];

// After the index of the access descriptor.
const ACCESS: &[(AccessFlaw, &str)] = &[
    (
        AccessFlaw::Permissions,
        "this call does not allow these permissions",
    ),
    (
        AccessFlaw::Flags,
        "the access descriptor has a flag that this call does not allow",
    ),
    (
        AccessFlaw::OtherComposite,
        "the access descriptor refers to a different composite than this call allows",
    ),
    (
        AccessFlaw::Reserved,
        "reserved bytes of the access descriptor are not 0",
    ),
    (
        AccessFlaw::ReceiverIsSender,
        "the access descriptor names the sender",
    ),
    (
        AccessFlaw::ReceiverTwice,
        "the access descriptor names the same receiver as an earlier one",
    ),
];

const COMPOSITE: &[(CompositeFlaw, &str)] = &[
    (
        CompositeFlaw::Outside,
        "the composite ends outside the descriptor, even without its ranges",
    ),
    (
        CompositeFlaw::Unaligned,
        "the offset of the composite is not a multiple of 16",
    ),
    (
        CompositeFlaw::InArray,
        "the composite begins before the access descriptors end",
    ),
    (CompositeFlaw::NoRange, "the composite has no ranges"),
    (
        CompositeFlaw::ManyRanges,
        "the composite has more ranges than a transaction may have",
    ),
    (
        CompositeFlaw::Reserved,
        "reserved bytes of the composite are not 0",
    ),
    (
        CompositeFlaw::RangesOutside,
        "the ranges end outside the descriptor",
    ),
    (
        CompositeFlaw::Total,
        "the page count of the composite is not the sum of the page counts of its ranges",
    ),
];

// After the index of the range.
const RANGE: &[(RangeFlaw, &str)] = &[
    (RangeFlaw::Empty, "the range has no pages"),
    (RangeFlaw::Unaligned, "the range is not page-aligned"),
    (RangeFlaw::TooHigh, "the range ends above 2^48"),
    (RangeFlaw::Reserved, "reserved bytes of the range are not 0"),
    (RangeFlaw::Overlap, "the range overlaps an earlier range"),
];

const RETRIEVE: &[(RetrieveFlaw, &str)] = &[
    (
        RetrieveFlaw::Attributes,
        "the memory attributes are neither 0 nor normal memory",
    ),
    (
        RetrieveFlaw::Flags,
        "a flag is set that this call does not allow",
    ),
    (
        RetrieveFlaw::AccessCount,
        "the number of access descriptors is not 1, or in FF-A 1.2 not one to four",
    ),
    (
        RetrieveFlaw::ReceiverIsAnother,
        "no access descriptor names the caller",
    ),
    (
        RetrieveFlaw::DataPermission,
        "the data permission has a reserved value",
    ),
    (
        RetrieveFlaw::InstructionPermission,
        "the instruction permission has a reserved value",
    ),
    (
        RetrieveFlaw::PermissionsReserved,
        "reserved bits of the permissions are not 0",
    ),
    (
        RetrieveFlaw::AccessFlags,
        "the flags of the access descriptor are not 0",
    ),
    (RetrieveFlaw::CompositeTold, "a composite is given"),
    (
        RetrieveFlaw::AccessReserved,
        "reserved bytes of the access descriptor are not 0",
    ),
    (
        RetrieveFlaw::NotZero,
        "a field of a hypervisor's retrieve is not 0, and is not the handle",
    ),
];

const RELINQUISH: &[(RelinquishFlaw, &str)] = &[
    (
        RelinquishFlaw::Short,
        "the descriptor is shorter than 18 bytes",
    ),
    (RelinquishFlaw::Flags, "a flag other than bit 0 is set"),
    (
        RelinquishFlaw::EndpointCount,
        "the number of endpoints is not 1",
    ),
];

// (Each table has a function of its own, so that none is proved over all of them.)
fn header_words(flaw: HeaderFlaw) -> &'static str
    ensures { result.now ≡ flaw_words_of (Header flaw) }
{
    HEADER[flaw as usize].1
}

fn send_words(flaw: SendFlaw) -> &'static str
    ensures { result.now ≡ flaw_words_of (Send flaw) }
{
    SEND[flaw as usize].1
}

fn access_words(flaw: AccessFlaw) -> &'static str
    ensures { result.now ≡ flaw_words_of (Access 0 flaw) }
{
    ACCESS[flaw as usize].1
}

fn composite_words(flaw: CompositeFlaw) -> &'static str
    ensures { result.now ≡ flaw_words_of (Composite flaw) }
{
    COMPOSITE[flaw as usize].1
}

fn range_words(flaw: RangeFlaw) -> &'static str
    ensures { result.now ≡ flaw_words_of (Range 0 flaw) }
{
    RANGE[flaw as usize].1
}

fn retrieve_words(flaw: RetrieveFlaw) -> &'static str
    ensures { result.now ≡ flaw_words_of (Retrieve 0 flaw) }
{
    RETRIEVE[flaw as usize].1
}

fn relinquish_words(flaw: RelinquishFlaw) -> &'static str
    ensures { result.now ≡ flaw_words_of (Relinquish flaw) }
{
    RELINQUISH[flaw as usize].1
}

/// Returns the words for a condition that the bytes of a descriptor break. The index of an access descriptor or of a range is not in
/// them: the caller puts it in front.
pub fn flaw_words(flaw: Flaw) -> &'static str
    ensures { result.now ≡ flaw_words_of flaw }
{
    match flaw {
        Flaw::Header(flaw) => header_words(flaw),
        Flaw::Send(flaw) => send_words(flaw),
        Flaw::Access(_, flaw) => access_words(flaw),
        Flaw::Composite(flaw) => composite_words(flaw),
        Flaw::Range(_, flaw) => range_words(flaw),
        Flaw::Retrieve(_, flaw) => retrieve_words(flaw),
        Flaw::Relinquish(flaw) => relinquish_words(flaw),
    }
}
