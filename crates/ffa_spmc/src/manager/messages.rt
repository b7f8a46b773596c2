// SPDX-License-Identifier: MIT OR Apache-2.0
//! The calls on run states, and the calls that send messages.
ghost use Rattle.std.specs.Prelude.{false, true, ◌≡◌, ◌==◌};
ghost use Rattle.ffa_model.specs.declared.function.TheConstants.{FFA_ERROR};
ghost use Rattle.ffa_model.specs.Messages.{msg_send2};
ghost use Rattle.ffa_model.specs.RunStates.{direct_request, direct_response, keeps_rx, msg_wait, run_partition, yield_now};
ghost use Rattle.ffa_model.specs.State.{version_of};
ghost use Rattle.ffa_spmc.specs.Served.{IsReplied};
ghost use Rattle.ffa_physmem.specs.Work.{loans_of, no_work};
ghost use Rattle.ffa_spmc.specs.Work.{message_pages};

use super::Manager;
use crate::replies::{DONE, message_or_error, reply_or_error};
use crate::storage::Store;
use ffa_messages::{direct_req, direct_resp, send2};
use ffa_model::{DirectMessage, EndpointId, Reply};
use ffa_physmem::PhysMem;
use ffa_schedule::keeps_rx;

impl<M: PhysMem + Drop, S: Store> Manager<M, S> {
    // Serves FFA_RUN of the runner.
    pub(super) fn run_partition(&mut self, target: EndpointId, context: u16) -> Reply
        ensures { IsReplied self.old self.new (run_partition self.old.state target.0 context) no_work result }
    {
        reply_or_error(self.kept.chain.run_partition(target, context))
    }

    // Serves FFA_MSG_WAIT of the runner. If the call succeeds, the runner's RX is empty after it, unless the flags keep
    // RX as it is.
    pub(super) fn msg_wait(&mut self, flags: u32) -> Reply
        ensures { IsReplied self.old self.new (msg_wait self.old.state flags) no_work result }
    {
        if keeps_rx(self.version(), flags) {
            self.wait_with_rx(flags)
        } else {
            self.wait_without_rx(flags)
        }
    }

    // Serves FFA_MSG_WAIT if the flags keep RX.
    fn wait_with_rx(&mut self, _flags: u32) -> Reply
        requires { keeps_rx (version_of self.old.state self.old.state.runner) _flags ≡ true }
        ensures { IsReplied self.old self.new (msg_wait self.old.state _flags) no_work result }
    {
        reply_or_error(self.kept.chain.wait())
    }

    // Serves FFA_MSG_WAIT if the flags do not keep RX.
    fn wait_without_rx(&mut self, _flags: u32) -> Reply
        requires { keeps_rx (version_of self.old.state self.old.state.runner) _flags ≡ false }
        ensures { IsReplied self.old self.new (msg_wait self.old.state _flags) no_work result }
    {
        let runner = self.kept.chain.runner();
        let result = self.kept.chain.wait();
        if result.is_ok() {
            self.kept.buffers.empty(runner);
        }
        reply_or_error(result)
    }

    // Serves FFA_YIELD of the runner.
    pub(super) fn yield_now(&mut self) -> Reply
        ensures { IsReplied self.old self.new (yield_now self.old.state) no_work result }
    {
        reply_or_error(self.kept.chain.yield_now())
    }

    // Serves FFA_MSG_SEND_DIRECT_REQ of the runner.
    pub(super) fn direct_request(&mut self, message: &DirectMessage) -> Reply
        requires { (message.now.function == FFA_ERROR) ≡ false }
        ensures { IsReplied self.old self.new (direct_request self.old.state message.now) no_work result }
    {
        let answer = direct_req(&mut self.kept.chain, &self.kept.manifest, message);
        message_or_error(message, answer)
    }

    // Serves FFA_MSG_SEND_DIRECT_RESP of the runner.
    pub(super) fn direct_response(&mut self, message: &DirectMessage) -> Reply
        requires { (message.now.function == FFA_ERROR) ≡ false }
        ensures { IsReplied self.old self.new (direct_response self.old.state message.now) no_work result }
    {
        message_or_error(message, direct_resp(&mut self.kept.chain, message))
    }

    // Serves FFA_MSG_SEND2 of the runner. The manager sets its own bit of the receiver, so that the receiver learns of
    // the message.
    pub(super) fn msg_send2(&mut self) -> Reply
        ensures { IsReplied self.old self.new (msg_send2 self.old.state) (loans_of (message_pages self.old.state)) result }
    {
        let version = self.version();
        let runner = self.kept.chain.runner();
        let kept = &mut self.kept;
        let (ram, buffers) = (&mut self.ram, &mut kept.buffers);
        match send2(ram, buffers, &kept.manifest, version, runner) {
            Ok(receiver) => {
                kept.bitmaps.raise_framework(receiver);
                DONE
            }
            Err(code) => Reply::Error(code),
        }
    }
}
