// SPDX-License-Identifier: MIT OR Apache-2.0
//! The generator. This file says on what it plays, how it makes a call, and what it learns of the endpoints from an
//! answer.
ghost use Rattle.std.specs.Prelude.{◌≤◌};
ghost use Rattle.ffa_model.specs.declared.limits.TheConstants.{MOST_ENDPOINTS};

use crate::buffers::MappedBuffers;
use crate::dice::{Dice, Round};
use crate::offers::{MOST_OFFERS, Offer};
use crate::setup::form_of;
use crate::stage::Stage;
use crate::{Attempt, Change, Deed, TraceEntry};
use bitflags::Flags;
use ffa_abi::decode;
use ffa_model::function::*;
use ffa_model::{
    Call, Endpoint, EndpointId, Ffa, MOST_ENDPOINTS, Manifest, Op, Outcome, Properties, Range,
    Version, Work,
};

/// The answer of FFA_VERSION on a machine of FF-A 1.2 that keeps the form that the caller requested.
const SERVED_1_2: u64 = 0x1_0002;

/// The generator's knowledge of an endpoint.
#[derive(Clone, Copy, Default)]
pub(crate) struct Known {
    pub buffers: Option<MappedBuffers>,
    /// The form that the endpoint requested by FFA_VERSION, if a machine of FF-A 1.2 keeps it.
    pub version: Option<Version>,
    /// The work of the endpoint, or `None` if it waits.
    pub work: Option<Work>,
    /// The notification bits that the endpoint bound last, as a word, and the sender to which it bound them.
    pub bound: Option<(u64, EndpointId)>,
    /// Whether one of the endpoint's notification bits is pending.
    pub pending: bool,
}

impl Known {
    /// Notes that RX has this number of bytes. RX is empty if the number is 0.
    pub(crate) fn fill_rx(&mut self, bytes: u32) {
        if let Some(buffers) = &mut self.buffers {
            buffers.filled = bytes;
        }
    }
}

/// A generator, which makes the lines of a trace. It plays each operation at once, and therefore knows the outcome.
#[derive(Drop)]
pub struct Generator<'m, S: Stage + Drop> {
    pub(crate) manifest: &'m Manifest,
    pub(crate) stage: S,
    pub(crate) dice: Dice,
    pub(crate) rounds: Rounds,
    /// The generator's knowledge of each endpoint, by the endpoint's place in the manifest.
    pub(crate) known: [Known; MOST_ENDPOINTS],
    /// The open transactions.
    pub(crate) offers: [Option<Offer>; MOST_OFFERS],
    /// The endpoint that gathers pages now.
    pub(crate) hoarder: Option<EndpointId>,
    /// The number of turns that the generator has played.
    pub(crate) turns: u64,
    /// The number of stores that no load has followed yet.
    pub(crate) unread: u64,
    /// The size in bytes of the last descriptor that an endpoint stored in its TX.
    pub(crate) tx_length: u32,
}

/// The lists that the generator goes through in turn.
#[derive(Default, Drop)]
pub(crate) struct Rounds {
    pub maps: Round,
    pub runs: Round,
    pub messages: Round,
    pub sends: Round,
    pub read_only: Round,
    pub retrieves: Round,
    pub names: Round,
    pub read_backs: Round,
    pub relinquishes: Round,
    pub creates: Round,
    pub binds: Round,
    pub unbinds: Round,
    pub sets: Round,
    pub gets: Round,
}

/// Returns the identifier of the call that a deed makes. If the deed makes no call, or can make several, this is
/// FFA_ERROR, which identifies no call.
pub(crate) fn function_of(deed: Deed) -> u32 {
    match deed {
        Deed::Information => FFA_PARTITION_INFO_GET,
        Deed::Map => FFA_RXTX_MAP,
        Deed::Unmap => FFA_RXTX_UNMAP,
        Deed::Release => FFA_RX_RELEASE,
        Deed::Wait => FFA_MSG_WAIT,
        Deed::Yield => FFA_YIELD,
        Deed::Run => FFA_RUN,
        Deed::Request => FFA_MSG_SEND_DIRECT_REQ,
        Deed::Respond => FFA_MSG_SEND_DIRECT_RESP,
        Deed::Message => FFA_MSG_SEND2,
        Deed::Share => FFA_MEM_SHARE,
        Deed::Lend => FFA_MEM_LEND,
        Deed::Donate => FFA_MEM_DONATE,
        Deed::Retrieve | Deed::ReadBack => FFA_MEM_RETRIEVE_REQ,
        Deed::Relinquish => FFA_MEM_RELINQUISH,
        Deed::Reclaim => FFA_MEM_RECLAIM,
        Deed::CreateBitmaps => FFA_NOTIFICATION_BITMAP_CREATE,
        Deed::DestroyBitmaps => FFA_NOTIFICATION_BITMAP_DESTROY,
        Deed::Bind => FFA_NOTIFICATION_BIND,
        Deed::Unbind => FFA_NOTIFICATION_UNBIND,
        Deed::SetBits => FFA_NOTIFICATION_SET,
        Deed::GetBits => FFA_NOTIFICATION_GET,
        Deed::AskNotices => FFA_NOTIFICATION_INFO_GET,
        _ => FFA_ERROR,
    }
}

/// Returns a word with an endpoint in bits 31 to 16, and with a number or another endpoint's identifier in bits 15 to
/// 0.
pub(crate) fn pair(high: EndpointId, low: u16) -> u64 {
    u64::from(high.0) << 16 | u64::from(low)
}

/// Returns the low and the high 32 bits of a word.
pub(crate) fn halves(word: u64) -> [u64; 2] {
    [word % (1 << 32), word >> 32]
}

impl<'m, S: Stage + Drop> Generator<'m, S> {
    /// Returns a generator with this seed on a stage, whose machine is the machine of this manifest in its first state.
    pub fn new(manifest: &'m Manifest, stage: S, seed: u64) -> Generator<'m, S> {
        Generator {
            manifest,
            stage,
            dice: Dice::of_seed(seed),
            rounds: Rounds::default(),
            known: [Known::default(); MOST_ENDPOINTS],
            offers: [None; MOST_OFFERS],
            hoarder: None,
            turns: 0,
            unread: 0,
            tx_length: 0,
        }
    }

    /// Ends the generator, and returns its stage.
    pub fn into_stage(self) -> S {
        let Generator { stage, .. } = self;
        stage
    }

    /// Adds a comment to the trace that says what the runner does next, to whom, and what is wrong with it.
    pub(crate) fn announce(&mut self, deed: Deed, other: Option<EndpointId>, change: Change) {
        let actor = self.stage.runner();
        self.stage.put(TraceEntry::Attempt(Attempt {
            actor,
            deed,
            other,
            change,
        }));
    }

    /// Adds a comment that says what the runner tries, and makes the runner's call. Returns whether the call succeeded.
    pub(crate) fn attempt(
        &mut self,
        deed: Deed,
        other: Option<EndpointId>,
        change: Change,
        arguments: &[u64],
    ) -> bool {
        self.announce(deed, other, change);
        self.call(function_of(deed), arguments).is_some()
    }

    /// Makes a call with the first 7 of these arguments. The other registers are 0. Returns the registers that the next
    /// runner sees, or `None` if the call did not succeed.
    pub(crate) fn call(&mut self, function: u32, arguments: &[u64]) -> Option<[u64; 8]> {
        let mut x = [0; 8];
        x[0] = u64::from(function);
        let count = arguments.len().min(7);
        x[1..=count].copy_from_slice(&arguments[..count]);
        self.play_call(x)
    }

    /// Plays a call of these registers, and learns from the registers that the next runner sees. Returns those, or
    /// `None` if the call did not succeed.
    pub(crate) fn play_call(&mut self, x: [u64; 8]) -> Option<[u64; 8]> {
        let caller = self.runner();
        match self.stage.play(&Op::Call(x)) {
            Some(Outcome::Regs { x: answer, .. }) if answer[0] != u64::from(FFA_ERROR) => {
                self.learn(caller, decode(x), &answer);
                Some(answer)
            }
            _ => None,
        }
    }

    pub(crate) fn runner(&self) -> EndpointId {
        self.stage.runner()
    }

    /// Returns the sender that a descriptor names: the runner, or the manager if the change is a wrong sender.
    pub(crate) fn sender(&self, change: Change) -> EndpointId {
        match change {
            Change::Sender => EndpointId::MANAGER,
            _ => self.runner(),
        }
    }

    /// Returns the runner's buffers, or `None` if it has no buffers.
    pub(crate) fn buffers(&self) -> Option<MappedBuffers> {
        self.known_of(self.runner()).buffers
    }

    /// Whether the machine serves FF-A 1.2.
    pub(crate) fn serves_1_2(&self) -> bool {
        self.manifest.ffa == Ffa::V1_2
    }

    /// Returns the number of endpoints of the machine.
    pub(crate) fn endpoints(&self) -> usize
        ensures { result ≤ MOST_ENDPOINTS }
    {
        self.manifest.endpoints.as_slice().len()
    }

    /// Returns an endpoint of the manifest, or `None` if the machine has no such endpoint.
    pub(crate) fn endpoint(&self, endpoint: EndpointId) -> Option<&'m Endpoint> {
        self.manifest.endpoints.as_slice().get(endpoint.place())
    }

    /// Returns the form in which an endpoint writes and reads. This is the form that the endpoint requested, if there
    /// is one. Otherwise it is the form that the manifest says.
    pub(crate) fn version_of(&self, id: EndpointId) -> Version {
        let given = self.endpoint(id).map_or(Version::V1_1, |it| it.version);
        self.known_of(id).version.unwrap_or(given)
    }

    /// Whether an endpoint has all these properties. A machine without this endpoint answers false.
    pub(crate) fn has_properties(&self, endpoint: EndpointId, wanted: Properties) -> bool {
        self.endpoint(endpoint)
            .is_some_and(|it| it.properties.contains(wanted))
    }

    /// Returns one of the endpoints at random.
    pub(crate) fn any_endpoint(&mut self) -> EndpointId {
        let endpoints = self.endpoints();
        EndpointId::at(self.dice.place(endpoints))
    }

    /// Returns an endpoint other than the runner. If the machine has only one endpoint, it returns an identifier that
    /// the machine does not have.
    pub(crate) fn another(&mut self) -> EndpointId {
        let endpoints = self.endpoints();
        if endpoints < 2 {
            return EndpointId::at(1);
        }
        let step = 1 + self.dice.place(endpoints - 1);
        EndpointId::at((self.runner().place() + step) % endpoints)
    }

    /// Returns the generator's knowledge of an endpoint. The endpoint's place is below MOST_ENDPOINTS, so the remainder
    /// is the place itself.
    pub(crate) fn known_of(&self, endpoint: EndpointId) -> Known {
        self.known[endpoint.place() % MOST_ENDPOINTS]
    }

    pub(crate) fn known_mut(&mut self, endpoint: EndpointId) -> &mut Known {
        &mut self.known[endpoint.place() % MOST_ENDPOINTS]
    }

    // Learns from a call that succeeded, by the registers that the next runner sees.
    fn learn(&mut self, caller: EndpointId, call: Call, answer: &[u64; 8]) {
        let runner = self.runner();
        let form = self.version_of(caller);
        let known = self.known_mut(caller);
        match call {
            Call::Version { version } if answer[0] == SERVED_1_2 => {
                known.version = Some(form_of(version));
            }
            Call::RxtxMap { tx, rx, pages } => {
                known.buffers = Some(MappedBuffers {
                    tx: Range { address: tx, pages },
                    rx: Range { address: rx, pages },
                    filled: 0,
                });
            }
            Call::RxtxUnmap { .. } => known.buffers = None,
            Call::RxRelease => known.fill_rx(0),
            Call::PartitionInfoGet { flags, .. } if flags % 2 == 0 => {
                let bytes = (answer[2] % 256) * (answer[3] % 256);
                known.fill_rx(bytes.max(1) as u32);
            }
            Call::MemRetrieve(_) => known.fill_rx((answer[1] % (1 << 32)) as u32),
            Call::NotificationBind(bits) => known.bound = Some((bits.bitmap, bits.sender)),
            Call::NotificationUnbind(_) => known.bound = None,
            Call::NotificationSet(bits) => self.known_mut(bits.receiver).pending = true,
            Call::NotificationGet { .. } => known.pending = false,
            Call::Run { .. } if answer[0] == u64::from(FFA_RUN) => {
                self.known_mut(runner).work = Some(Work::Run);
            }
            Call::DirectRequest(_) => self.known_mut(runner).work = Some(Work::Request(caller)),
            Call::DirectResponse(_) => known.work = None,
            Call::MsgWait { flags } => {
                known.work = None;
                if form != Version::V1_2 || flags % 2 == 0 {
                    known.fill_rx(0);
                }
            }
            _ => {}
        }
    }
}
