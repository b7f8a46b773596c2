// SPDX-License-Identifier: MIT OR Apache-2.0
//! Explains why a message is refused. No call uses this.
ghost use Rattle.std.specs.Prelude.{◌≡◌, None, length};
ghost use Rattle.ffa_model.specs.AboutContents.{about_ends, about_message};
ghost use Rattle.ffa_model.specs.Bits.{word_of_two};
ghost use Rattle.ffa_model.specs.Buffers.{buffers_in};
ghost use Rattle.ffa_model.specs.Messages.{header_in};
ghost use Rattle.ffa_model.specs.RunStates.{requester, work_in};
ghost use Rattle.ffa_mend.specs.Explained.{explained};
ghost use Rattle.ffa_mend.specs.Mend.{mend_header, mend_message, mend_response};
ghost use Rattle.ffa_messages.specs.Parts.{AreInRam, header_of, sent_in};

use crate::checks::requester;
use crate::indirect::{MessageHeader, read_header};
use ffa_mend::{Explained, Mend};
use ffa_model::{About, EndpointId, Refusal};
use ffa_physmem::PhysMem;
use ffa_rxtx::Buffers;
use ffa_schedule::Chain;

impl MessageHeader {
    // Returns the end that a check is about.
    fn about(&self, refusal: Refusal) -> Option<About>
        ensures { result ≡ about_ends (header_of self.now) refusal }
    {
        match refusal {
            Refusal::SenderIsAnother => Some(About::Endpoint(self.sender)),
            Refusal::ReceiverUnknown
            | Refusal::ReceiverIsCaller
            | Refusal::MessagesUnreceived
            | Refusal::ReceiverBuffersMissing
            | Refusal::ReceiverRxFull
            | Refusal::ReceiverRxSmall => Some(About::Endpoint(self.receiver)),
            _ => None,
        }
    }

    // Returns the word that a check is about, or the end of the message, in a buffer of this size.
    fn mend(&self, room: usize, refusal: Refusal) -> Option<Mend>
        ensures { result ≡ mend_header room (header_of self.now) refusal }
    {
        match refusal {
            Refusal::FlagsReserved => Some(word(0, self.flags)),
            Refusal::HeaderReserved => Some(word(4, self.reserved)),
            Refusal::MessageInHeader => Some(word(8, self.offset)),
            Refusal::MessageEmpty => Some(word(16, self.size)),
            Refusal::MessageTooLong => Some(Mend::Message {
                offset: self.offset,
                size: self.size,
                room: room as u64,
            }),
            _ => None,
        }
    }
}

// Returns a word of a header, by the place of its first byte.
fn word(place: u32, value: u32) -> Mend
    ensures { result ≡ Mend.Word place value }
{
    Mend::Word { place, value }
}

/// Explains a check that refuses FFA_MSG_SEND2 of an endpoint. Returns the end in the header that the check is about,
/// the header's word, or the end of the message.
pub fn explain_message<M: PhysMem>(
    ram: &M,
    buffers: &Buffers,
    caller: EndpointId,
    refusal: Refusal,
) -> Explained
    requires { AreInRam (length (M.ram ram.now).pages) buffers.now }
    ensures { let own = buffers_in buffers.now caller.0 in
        let header = header_in (sent_in (M.ram ram.now) buffers.now caller.0) in
        result ≡ explained (about_message own header refusal) None (mend_message own header refusal) }
{
    match buffers.of(caller) {
        Some(from) => {
            let header = read_header(ram, &from);
            Explained::of(header.about(refusal), header.mend(from.room(), refusal))
        }
        None => Explained::of(None, None),
    }
}

/// Returns the one value of w1 that FFA_MSG_SEND_DIRECT_RESP may have, if the runner works on a direct request.
pub fn mend_response(chain: &Chain) -> Option<Mend>
    ensures { result ≡ mend_response chain.now.runner (requester (work_in chain.now chain.now.runner)) }
{
    match requester(chain) {
        Some(by) => Some(Mend::Wanted(u64::from(word_of_two(chain.runner(), by)))),
        None => None,
    }
}

// Returns two endpoints in one register, with the sender in the high half.
fn word_of_two(sender: EndpointId, receiver: EndpointId) -> u32
    ensures { result ≡ word_of_two sender.0 receiver.0 }
{
    u32::from(sender.0) * 0x10000 + u32::from(receiver.0)
}
