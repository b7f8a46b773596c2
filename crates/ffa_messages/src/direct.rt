// SPDX-License-Identifier: MIT OR Apache-2.0
//! Direct messages (DEN0077A, 7.1 and 15).
ghost use Rattle.std.specs.Prelude.{◌≡◌, length, map, OnOk, OnErr};
ghost use Rattle.std.specs.Result.{result_err};
ghost use Rattle.ffa_model.specs.Calls.{first_failure};
ghost use Rattle.ffa_model.specs.First.{party_of};
ghost use Rattle.ffa_model.specs.RunStates.{finished, request_guards, requested, response_guards};
ghost use Rattle.ffa_model.specs.Sound.{IsSound};

use crate::checks::{check_direct_req, check_direct_resp};
use ffa_model::{DirectMessage, ErrorCode, Manifest};
use ffa_schedule::Chain;

/// Sends a direct request: FFA_MSG_SEND_DIRECT_REQ of the runner (DEN0077A, 15). The runner is then blocked. The
/// receiver, which waited, runs and works for the runner. The receiver sees the message itself.
///
/// # Errors
///
/// The first of these that applies. An error changes nothing.
///
/// - `InvalidParameters`: the message's sender is not the runner, a flag is set, or the receiver is not another
///   endpoint.
/// - `Denied`: the receiver is the normal world, the runner does not send direct requests, or the receiver does not
///   receive them.
/// - `Busy`: the receiver does not wait.
#[inline(always)]
pub fn direct_req(
    chain: &mut Chain,
    manifest: &Manifest,
    message: &DirectMessage,
) -> Result<(), ErrorCode>
    requires endpoints { length chain.old.works ≡ length manifest.now.endpoints.items }
    ensures refusal { result_err result
        ≡ first_failure (request_guards (map party_of manifest.now.endpoints.items) chain.old message.now) }
    ensures kept { OnErr result (chain.new ≡ chain.old) }
    ensures changed { OnOk result (chain.new ≡ requested chain.old message.now.receiver.0) }
    ensures sound { IsSound chain.new }
{
    let receiver = check_direct_req(chain, manifest, message)?;
    chain.request(receiver);
    Ok(())
}

/// Sends a direct response: FFA_MSG_SEND_DIRECT_RESP of the runner (DEN0077A, 15). The runner then waits. The endpoint
/// whose request it worked on runs, and sees the message itself.
///
/// # Errors
///
/// The first of these that applies. An error changes nothing.
///
/// - `Denied`: the runner works on no direct request.
/// - `InvalidParameters`: the message's sender is not the runner, its receiver is not the endpoint that sent the
///   request, or a flag is set.
#[inline(always)]
pub fn direct_resp(chain: &mut Chain, message: &DirectMessage) -> Result<(), ErrorCode>
    ensures refusal { result_err result ≡ first_failure (response_guards chain.old message.now) }
    ensures kept { OnErr result (chain.new ≡ chain.old) }
    ensures changed { OnOk result (chain.new ≡ finished chain.old message.now.receiver.0) }
    ensures sound { IsSound chain.new }
{
    check_direct_resp(chain, message)?;
    chain.respond();
    Ok(())
}
