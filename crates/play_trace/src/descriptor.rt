// SPDX-License-Identifier: MIT OR Apache-2.0
//! Lines of a trace that write a descriptor.

ghost use Rattle.std.specs.Prelude.{◌≡◌, ◌%◌, ◌≤◌, List, ℕ, [], ◌∷◌, ◌++◌, length, take, IfOk, OnOk, OnErr};
ghost use Rattle.std.specs.Result.{result_err};
ghost use Rattle.ffa_model.specs.declared.operation.Op.TheVariants.{Call};
ghost use Rattle.play_trace.specs.TraceLines.{joined};
ghost use Rattle.play_trace.specs.Script.{IsLineOf, Stores};
ghost use Rattle.play_trace.specs.Written.{GrowsByDescriptor, IsDescriptor, call_with, sends, unfit_of, unfit_told};

use crate::operation::put_operation;
use crate::stores::put_stores;
use crate::{
    RelinquishDesc, RetrieveDesc, SendDesc, Unfit, write_relinquish, write_retrieve, write_send,
};
use ffa_model::function::{
    FFA_MEM_DONATE, FFA_MEM_LEND, FFA_MEM_RELINQUISH, FFA_MEM_RETRIEVE_REQ, FFA_MEM_SHARE,
};
use ffa_model::{Address, EndpointId, Kind, Op, Version};
use std::alloc::{AllocError, Allocator};
use thiserror::Error;

/// A descriptor of a memory transaction, and the call that it is for (DEN0077A, 5.11 and 16).
#[derive(Drop)]
pub enum DescriptorContents {
    /// A descriptor for FFA_MEM_SHARE, FFA_MEM_LEND or FFA_MEM_DONATE, as the kind says.
    Send {
        kind: Kind,
        desc: SendDesc,
    },
    /// A descriptor for FFA_MEM_RETRIEVE_REQ, with the endpoint that retrieves.
    Retrieve {
        desc: RetrieveDesc,
        receiver: EndpointId,
    },
    /// A descriptor for FFA_MEM_RELINQUISH.
    Relinquish(RelinquishDesc),
}

/// The reason why the lines of a descriptor were not appended.
#[derive(Clone, Copy, Debug, PartialEq, Eq, Error)]
pub enum ScriptError {
    /// There is no memory for the lines.
    #[error("no memory")]
    NoMemory,
    /// No bytes of a descriptor say these contents.
    #[error("{0}")]
    Unfit(Unfit),
}

/// Appends lines to a text that write a descriptor into TX and make its call. First come the stores of the descriptor's
/// bytes, then the call. It is FFA_MEM_DONATE, FFA_MEM_LEND, FFA_MEM_SHARE, FFA_MEM_RETRIEVE_REQ or FFA_MEM_RELINQUISH.
///
/// TX begins at a page, and the caller has this version. After an error the text is as it was.
pub fn put_descriptor<A: Allocator>(
    text: &mut Vec<u8, A>,
    version: Version,
    descriptor: &DescriptorContents,
    tx: Address,
) -> Result<(), ScriptError>
    requires { tx.0 % 4096 ≡ 0 }
    ensures written { OnOk result (GrowsByDescriptor version descriptor.now tx.0 text.old.items text.new.items) }
    ensures refused { unfit_told result ≡ unfit_of descriptor.now }
    ensures kept { OnErr result (text.new.items ≡ text.old.items) }
{
    let mut page = [0; 4096];
    let size = match write_descriptor(version, descriptor, &mut page) {
        Ok(size) => size,
        Err(cause) => return Err(ScriptError::Unfit(cause)),
    };
    let call = call_with(descriptor, u64::from(size));
    match put_called(text, tx, &page[..size as usize], &call) {
        Ok(()) => Ok(()),
        Err(AllocError) => Err(ScriptError::NoMemory),
    }
}

// Writes a descriptor from the page's first byte on, and returns its size in bytes.
fn write_descriptor(
    version: Version,
    descriptor: &DescriptorContents,
    page: &mut [u8; 4096],
) -> Result<u32, Unfit>
    ensures cause { result_err result ≡ unfit_of descriptor.now }
    ensures inside { IfOk result (λ n. n ≤ 4096) }
    ensures said { IfOk result (λ n. IsDescriptor version descriptor.now (take n page.new)) }
{
    match descriptor {
        DescriptorContents::Send { kind, desc } => write_send(version, *kind, desc, page),
        DescriptorContents::Retrieve { desc, receiver } => {
            Ok(write_retrieve(version, desc, *receiver, page))
        }
        DescriptorContents::Relinquish(desc) => Ok(write_relinquish(desc, page)),
    }
}

fn function_of(kind: Kind) -> u32
    ensures { result ≡ sends kind }
{
    match kind {
        Kind::Share => FFA_MEM_SHARE,
        Kind::Lend => FFA_MEM_LEND,
        Kind::Donate => FFA_MEM_DONATE,
    }
}

// Returns the registers of the call with a descriptor of this length in TX. The length is in bytes.
fn call_with(descriptor: &DescriptorContents, length: u64) -> [u64; 8]
    ensures { result ≡ call_with descriptor.now length }
{
    let (function, told) = match descriptor {
        DescriptorContents::Send { kind, .. } => (function_of(*kind), length),
        DescriptorContents::Retrieve { .. } => (FFA_MEM_RETRIEVE_REQ, length),
        DescriptorContents::Relinquish(_) => (FFA_MEM_RELINQUISH, 0),
    };
    [u64::from(function), told, told, 0, 0, 0, 0, 0]
}

// Appends the stores of bytes from an address on, and a call after them. It stores zeros too, since TX may hold
// anything. It stores eight bytes at once as long as eight remain. So a reader can compare the lines with the tables of
// a descriptor.
fn put_called<A: Allocator>(
    text: &mut Vec<u8, A>,
    tx: Address,
    bytes: &[u8],
    call: &[u64; 8],
) -> Result<(), AllocError>
    requires aligned { tx.0 % 4096 ≡ 0 }
    requires inside { length bytes.now ≤ 4096 }
    ensures written { OnOk result ((stores : List (List ℕ)) × (line : List ℕ)
        × (text.new.items ≡ text.old.items ++ joined (stores ++ line ∷ [])) × Stores tx.0 stores bytes.now
        × IsLineOf line (Call call.now)) }
    ensures kept { OnErr result (text.new.items ≡ text.old.items) }
{
    let before = text.len();
    put_stores(text, tx, bytes)?;
    let put = put_operation(text, &Op::Call(*call));
    if put.is_err() {
        text.truncate(before);
    }
    put
}
