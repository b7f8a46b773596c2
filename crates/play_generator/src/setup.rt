// SPDX-License-Identifier: MIT OR Apache-2.0
//! Setup calls, and identifiers of no call.
use crate::generator::{Generator, halves};
use crate::stage::Stage;
use crate::{Change, Deed};
use byteorder::{ByteOrder, LittleEndian};
use ffa_model::Version;
use ffa_model::function::*;

/// The identifiers about which the runner calls FFA_FEATURES.
const ASKED: [u32; 10] = [
    FFA_RXTX_MAP,
    FFA_RXTX_MAP_64,
    FFA_MEM_SHARE_64,
    FFA_NOTIFICATION_GET,
    FFA_VERSION,
    FFA_ERROR,
    FFA_SUCCESS,
    FFA_MEM_RETRIEVE_RESP,
    FFA_ID_GET + WIDE,
    0,
];

/// Identifiers that are no call: results, 64-bit forms that do not exist, and neighbours of calls.
const NO_CALLS: [u32; 10] = [
    FFA_ERROR,
    FFA_SUCCESS,
    FFA_MEM_RETRIEVE_RESP,
    FFA_VERSION + WIDE,
    FFA_RUN + WIDE,
    FFA_MEM_RECLAIM + WIDE,
    FFA_RUN + 1,
    FFA_MEM_RECLAIM + 1,
    FFA_MSG_SEND2 + 1,
    FFA_ERROR - 1,
];

/// The words of FFA_VERSION on a machine of FF-A 1.1.
const VERSIONS: [u64; 5] = [0x10000, 0x10001, 0x20000, 0x80010001, 0];

/// The words of FFA_VERSION on a machine of FF-A 1.2. If the runner has buffers, this machine refuses a form other than
/// the runner's. Otherwise it keeps the form.
const LATER_VERSIONS: [u64; 7] = [0x10000, 0x10001, 0x10002, 0x10003, 0x20000, 0x80010002, 0];

/// Returns the form of an endpoint that requested this version of a machine of FF-A 1.2, by the word of FFA_VERSION.
pub(crate) fn form_of(word: u32) -> Version {
    match word % 0x1_0000 {
        0 => Version::Compact,
        1 => Version::V1_1,
        _ => Version::V1_2,
    }
}

impl<'m, S: Stage + Drop> Generator<'m, S> {
    /// Plays FFA_VERSION, FFA_FEATURES, FFA_ID_GET or FFA_SPM_ID_GET.
    pub(crate) fn play_setup(&mut self) {
        let (function, argument) = match self.dice.below(4) {
            0 if self.serves_1_2() => (FFA_VERSION, self.dice.pick(&LATER_VERSIONS)),
            0 => (FFA_VERSION, self.dice.pick(&VERSIONS)),
            1 => (FFA_FEATURES, u64::from(self.dice.pick(&ASKED))),
            2 => (FFA_ID_GET, self.dice.word()),
            _ => (FFA_SPM_ID_GET, 0),
        };
        self.announce(Deed::Setup, None, Change::Nothing);
        self.call(function, &[argument]);
    }

    /// Requests a version for a runner without buffers on a machine of FF-A 1.2. It does so if the runner never
    /// requested one, and in one of four other cases.
    pub(crate) fn ask_version(&mut self) {
        if self.serves_1_2()
            && (self.known_of(self.runner()).version.is_none() || self.dice.one_in(4))
        {
            let word = self.dice.pick(&[0x1_0000, 0x1_0001, 0x1_0002, 0x1_0002]);
            self.announce(Deed::Setup, None, Change::Nothing);
            self.call(FFA_VERSION, &[word]);
        }
    }

    /// Plays FFA_PARTITION_INFO_GET: without buffers, with RX full, or by a UUID. The UUID is the Nil UUID, an
    /// endpoint's UUID or nobody's.
    pub(crate) fn play_information(&mut self) {
        let number = self.dice.below(6);
        if number == 0 {
            self.unmap_any();
            return self.ask_information([0; 4], 0, Change::NoBuffers);
        }
        self.need_buffers();
        if number == 1 {
            self.ask_information([0; 4], 0, Change::Nothing);
            return self.ask_information([0; 4], 0, Change::RxFull);
        }
        let endpoint = self.any_endpoint();
        let uuid = self.endpoint(endpoint).map_or([0; 16], |it| it.uuid);
        let [w1, w2] = halves(LittleEndian::read_u64(&uuid));
        let [w3, w4] = halves(LittleEndian::read_u64(&uuid[8..]));
        let (words, change) = match self.dice.below(3) {
            0 => ([0; 4], Change::Nothing),
            1 => ([w1, w2, w3, self.dice.spoil(w4)], Change::NobodysUuid),
            _ => ([w1, w2, w3, w4], Change::Nothing),
        };
        let flags = self.dice.pick(&[0, 0, 1, 2, 3]);
        self.ask_information(words, flags, change);
        self.release_mostly();
    }

    fn ask_information(&mut self, uuid: [u64; 4], flags: u64, change: Change) {
        let [w1, w2, w3, w4] = uuid;
        self.attempt(Deed::Information, None, change, &[w1, w2, w3, w4, flags]);
    }

    /// Plays a call whose identifier is mostly no call, or else any word.
    pub(crate) fn play_no_call(&mut self) {
        let function = match self.dice.below(3) {
            0 => self.dice.word(),
            _ => u64::from(self.dice.pick(&NO_CALLS)),
        };
        let runner = u64::from(self.runner().0);
        self.announce(Deed::NoCall, None, Change::Nothing);
        self.play_call([function, runner, 0, 0, 0, 0, 0, 0]);
    }
}
