// SPDX-License-Identifier: MIT OR Apache-2.0
//! The conditions of the descriptors of memory transactions, by the part of the descriptor (DEN0077A, 5.11 and 16).
//! Bytes that break a condition are not a descriptor.

/// A condition of a descriptor that its bytes break, by the part of the descriptor.
#[derive(Clone, Copy)]
pub enum Flaw {
    /// A condition of the header, the same for a send and a retrieve.
    Header(HeaderFlaw),
    /// A condition of the header of a send only.
    Send(SendFlaw),
    /// A condition of the access descriptor with this index, counted from 0. A send has access descriptors. In FF-A
    /// 1.2, so has a retrieve that names its receivers.
    Access(u32, AccessFlaw),
    /// A condition of the composite of a send.
    Composite(CompositeFlaw),
    /// A condition of the range of a send that has this index, counted from 0.
    Range(u32, RangeFlaw),
    /// A condition of a retrieve descriptor only. For a condition of an access descriptor, the number is the index of
    /// the caller's access descriptor, counted from 0.
    Retrieve(u32, RetrieveFlaw),
    /// A condition of a relinquish descriptor.
    Relinquish(RelinquishFlaw),
}

/// A condition of the header of a send or a retrieve, by what is wrong if the bytes break it.
#[derive(Clone, Copy)]
pub enum HeaderFlaw {
    /// The descriptor is shorter than its header.
    Short,
    /// The access descriptor size field is not 16, 32 in FF-A 1.2, or 0 in the compact form.
    AccessSize,
    /// The offset of the access descriptors is not a multiple of 16.
    ArrayUnaligned,
    /// The access descriptors begin inside the header.
    ArrayInHeader,
    /// The access descriptors end outside the descriptor.
    ArrayOutside,
    /// Reserved bytes at the end of the header are not 0.
    Reserved,
}

/// A condition of the header of a send, by what is wrong if the bytes break it.
#[derive(Clone, Copy)]
pub enum SendFlaw {
    /// The memory attributes are wrong for this call and this number of receivers.
    Attributes,
    /// A flag is set that this call does not allow.
    Flags,
    /// The handle is not 0.
    Handle,
    /// There is no receiver.
    NoReceiver,
    /// There are more receivers than this call allows.
    ManyReceivers,
}

/// A condition of each access descriptor, by what is wrong if the bytes break it.
#[derive(Clone, Copy)]
pub enum AccessFlaw {
    /// The call does not allow the permissions of the access descriptor.
    Permissions,
    /// A flag of the access descriptor is set that the call does not allow.
    Flags,
    /// The access descriptor refers to another composite than the one that the descriptor has, if it has one.
    OtherComposite,
    /// Reserved bytes of the access descriptor are not 0.
    Reserved,
    /// The access descriptor names the sender.
    ReceiverIsSender,
    /// The access descriptor names the same receiver as an earlier one.
    ReceiverTwice,
}

/// A condition of the composite of a send, by what is wrong if the bytes break it.
#[derive(Clone, Copy)]
pub enum CompositeFlaw {
    /// The composite ends outside the descriptor, even without its ranges.
    Outside,
    /// The offset of the composite is not a multiple of 16.
    Unaligned,
    /// The composite begins before the access descriptors end.
    InArray,
    /// The composite has no ranges.
    NoRange,
    /// The composite has more ranges than a transaction may have.
    ManyRanges,
    /// Reserved bytes of the composite are not 0.
    Reserved,
    /// The ranges end outside the descriptor.
    RangesOutside,
    /// The page count of the composite is not the sum of the page counts of its ranges.
    // No reason reports the correct sum. With a wrong total the bytes are no descriptor, so the sum would need its own
    // reader.
    Total,
}

/// A condition of a range of a send, by what is wrong if the bytes break it.
#[derive(Clone, Copy)]
pub enum RangeFlaw {
    /// The range has no pages.
    Empty,
    /// The range is not page-aligned.
    Unaligned,
    /// The range ends above 2^48.
    TooHigh,
    /// Reserved bytes of the range are not 0.
    Reserved,
    /// The range overlaps an earlier range.
    Overlap,
}

/// A condition of a retrieve descriptor after its header, by what is wrong if the bytes break it.
#[derive(Clone, Copy)]
pub enum RetrieveFlaw {
    /// The memory attributes are neither 0 nor normal memory.
    Attributes,
    /// A flag is set that the call does not allow.
    Flags,
    /// The number of access descriptors is not one that the call allows. FF-A 1.1 allows only 1. FF-A 1.2 allows 1 to
    /// 4, but only 1 if bit 10 of the flags is set.
    AccessCount,
    /// No access descriptor names the caller.
    ReceiverIsAnother,
    /// The data permission has a reserved value.
    DataPermission,
    /// The instruction permission has a reserved value.
    InstructionPermission,
    /// Reserved bits of the permissions are not 0.
    PermissionsReserved,
    /// The flags of the access descriptor are not 0.
    AccessFlags,
    /// A composite is given.
    CompositeTold,
    /// Reserved bytes of the access descriptor are not 0.
    AccessReserved,
    /// A field of the header of a hypervisor's retrieve is not 0. Only the handle may have another value.
    NotZero,
}

/// A condition of a relinquish descriptor, by what is wrong if the bytes break it.
#[derive(Clone, Copy)]
pub enum RelinquishFlaw {
    /// The descriptor is shorter than 18 bytes.
    Short,
    /// A flag other than bit 0 is set.
    Flags,
    /// The number of endpoints is not 1.
    EndpointCount,
}

/// The place of a field in a descriptor.
#[derive(Clone, Copy)]
pub struct FieldPlace {
    /// The offset of the field's first byte in the descriptor, counted from 0.
    pub first: u64,
    /// The size of the field in bytes.
    pub size: u64,
}
