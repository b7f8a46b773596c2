// SPDX-License-Identifier: MIT OR Apache-2.0
//! The calls whose reply is all that they do, and the answers of FFA_VERSION.
ghost use Rattle.std.specs.Prelude.{◌≡◌, ◌==◌, ◌&&◌, not, if◌then◌else◌};
ghost use Rattle.std.specs.Result.{result_err};
ghost use Rattle.ffa_model.specs.Bits.{bits, is_set};
ghost use Rattle.ffa_model.specs.Calls.{first_refusal, success};
ghost use Rattle.ffa_model.specs.Identifiers.{manager};
ghost use Rattle.ffa_model.specs.Setup.{version_reply, feature_properties, features_guards, features_reply, map_properties, may_call, retrieve_properties, tells_normal};

use ffa_abi::is_function;
use ffa_model::function::{
    FFA_MEM_RETRIEVE_REQ, FFA_MEM_RETRIEVE_REQ_64, FFA_NOTIFICATION_INFO_GET,
    FFA_NOTIFICATION_INFO_GET_64, FFA_RXTX_MAP, FFA_RXTX_MAP_64,
};
use ffa_model::{EndpointId, Ffa, MOST_BUFFER_PAGES, Refusal, Reply, Version};

/// FF-A 1.1 as FFA_VERSION writes it: the major number in bits 30:16, and the minor number below.
const V1_1: u32 = 0x0001_0001;

/// FF-A 1.2 as FFA_VERSION writes it: the major number in bits 30:16, and the minor number below.
const V1_2: u32 = 0x0001_0002;

/// The property of FFA_RXTX_MAP that FFA_FEATURES returns: in bits 31:16, the most pages that a buffer can have.
const GREATEST_SIZE: u32 = MOST_BUFFER_PAGES << 16;

/// The property of FFA_MEM_RETRIEVE_REQ that FFA_FEATURES returns if the response reports non-secure memory: bit 1.
const TELLS_WORLDS: u32 = 2;

/// The property of FFA_MEM_RETRIEVE_REQ that FFA_FEATURES returns to the normal world, whose hypervisor may read back
/// what it sent: bit 2.
const READS_BACK: u32 = 4;

/// NOT_SUPPORTED as FFA_VERSION answers it, as 32 bits of two's complement.
const NO_VERSION: u32 = 0xFFFF_FFFF;

/// Returns the answer to FFA_VERSION (DEN0077A, 13) on a machine of FF-A 1.1. It is version 1.1 if the caller's version
/// has the major number 1, and NOT_SUPPORTED otherwise.
pub fn version(version: u32) -> Reply
    ensures { result ≡ version_reply version }
{
    told_version(is_version(version), V1_1)
}

/// Whether a word names a version whose major number is 1.
pub fn is_version(word: u32) -> bool
    ensures { result ≡ (not (is_set 31 word) && bits 30 16 word == 1) }
{
    word >> 16 == 1
}

/// Returns the answer to FFA_VERSION on a machine of FF-A 1.2: version 1.2 if the caller's version is served, and
/// NOT_SUPPORTED otherwise.
pub fn answer(is_served: bool) -> Reply
    ensures { result ≡ Reply.Version (if is_served then 0x10002 else 0xFFFFFFFF) }
{
    told_version(is_served, V1_2)
}

// Returns the answer to FFA_VERSION: this version if the caller's version is served, and NOT_SUPPORTED otherwise.
fn told_version(is_served: bool, version: u32) -> Reply
    ensures { result ≡ Reply.Version (if is_served then version else 0xFFFFFFFF) }
{
    Reply::Version(if is_served { version } else { NO_VERSION })
}

/// Returns the answer to FFA_FEATURES (DEN0077A, 13) about a call, by the identifier of either form: whether the caller
/// may make the call.
///
/// A machine of FF-A 1.2 also reports properties of two calls. For FFA_RXTX_MAP, a caller of the form of FF-A 1.2 sees
/// the most pages that a buffer can have. For FFA_MEM_RETRIEVE_REQ, a caller of any form except the compact one sees
/// that the response reports non-secure memory. The normal world also sees that a hypervisor may read back what it
/// sent. No other call has further properties.
pub fn features(function: u32, ffa: Ffa, caller: EndpointId, version: Version) -> Reply
    ensures { result ≡ features_reply ffa caller.0 version function }
{
    match check_features(function, ffa, caller) {
        Ok(()) => Reply::Success([properties(function, ffa, caller, version), 0, 0, 0, 0, 0]),
        Err(refusal) => Reply::Error(refusal.code()),
    }
}

// Returns the properties of a call on a machine of this version of FF-A, for this caller of this form.
fn properties(function: u32, ffa: Ffa, caller: EndpointId, version: Version) -> u32
    ensures { result ≡ feature_properties ffa caller.0 version function }
{
    match ffa {
        Ffa::V1_1 => 0,
        Ffa::V1_2 => match function {
            FFA_RXTX_MAP | FFA_RXTX_MAP_64 => map_properties(version),
            FFA_MEM_RETRIEVE_REQ | FFA_MEM_RETRIEVE_REQ_64 => {
                retrieve_properties(caller, version)
            }
            _ => 0,
        },
    }
}

// Returns the properties of FFA_RXTX_MAP for a caller of this form.
fn map_properties(version: Version) -> u32
    ensures { result ≡ map_properties version }
{
    match version {
        Version::V1_2 => GREATEST_SIZE,
        _ => 0,
    }
}

// Returns the properties of FFA_MEM_RETRIEVE_REQ for this caller of this form.
fn retrieve_properties(caller: EndpointId, version: Version) -> u32
    ensures { result ≡ retrieve_properties caller.0 version }
{
    let read_back = if caller == EndpointId::NORMAL_WORLD {
        READS_BACK
    } else {
        0
    };
    told_worlds(version) + read_back
}

// Returns the bit of non-secure memory in the properties of FFA_MEM_RETRIEVE_REQ.
fn told_worlds(version: Version) -> u32
    ensures { result ≡ if tells_normal version then 2 else 0 }
{
    match version {
        Version::Compact => 0,
        _ => TELLS_WORLDS,
    }
}

/// Makes the check of FFA_FEATURES, on a machine of this version of FF-A: whether the caller may make the call with
/// this identifier.
///
/// # Errors
///
/// `FunctionUnknown` if the caller may not make the call.
pub fn check_features(function: u32, ffa: Ffa, caller: EndpointId) -> Result<(), Refusal>
    ensures { result_err result ≡ first_refusal (features_guards ffa caller.0 function) }
{
    if !may_call(function, ffa, caller) {
        return Err(Refusal::FunctionUnknown);
    }
    Ok(())
}

// Whether a caller may make the call with this identifier.
fn may_call(function: u32, ffa: Ffa, caller: EndpointId) -> bool
    ensures { result ≡ may_call ffa caller.0 function }
{
    match function {
        FFA_NOTIFICATION_INFO_GET | FFA_NOTIFICATION_INFO_GET_64 => ffa.tells_notices(caller),
        _ => is_function(function),
    }
}

/// Returns the answer to FFA_ID_GET (DEN0077A, 13): the caller's own identifier.
pub fn id(caller: EndpointId) -> Reply
    ensures { result ≡ success caller.0 0 }
{
    Reply::Success([u32::from(caller.0), 0, 0, 0, 0, 0])
}

/// Returns the answer to FFA_SPM_ID_GET (DEN0077A, 13): the manager's identifier.
pub fn spm_id() -> Reply
    ensures { result ≡ success manager 0 }
{
    id(EndpointId::MANAGER)
}
