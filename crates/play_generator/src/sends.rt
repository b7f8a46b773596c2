// SPDX-License-Identifier: MIT OR Apache-2.0
//! Sends (FFA_MEM_SHARE, FFA_MEM_LEND and FFA_MEM_DONATE), in the right form and with something changed.
use crate::Change;
use crate::changes::{KINDS, READ_ONLY_SENDS, SENDS};
use crate::descriptors::{PAGE_SIZE, deed_of};
use crate::dice::Dice;
use crate::generator::Generator;
use crate::offers::{MOST_PARTS, Offer, Parts, Taker, Takers};
use crate::pages::{meet, one_page};
use crate::stage::Stage;
use ffa_model::{Data, EndpointId, Kind, Range};
use play_trace::write_send;

/// An endpoint that has this number of free pages or fewer donates no page.
const FEWEST_FREE: usize = 6;

impl<'m, S: Stage + Drop> Generator<'m, S> {
    /// Plays a send of any kind that should succeed.
    pub(crate) fn play_send(&mut self) {
        let kind = self.dice.pick(&KINDS);
        let is_poor = kind == Kind::Donate && self.count_free() <= FEWEST_FREE;
        if !is_poor && self.need_buffers() {
            let takers = self.choose_takers(kind);
            let parts = self.choose_parts(&[1, 2, 3]);
            self.send(kind, takers, parts, Change::Nothing);
        }
    }

    /// Plays a send with something changed: each kind with each change in turn.
    pub(crate) fn play_turned_send(&mut self) {
        let number = self.rounds.sends.below(KINDS.len() * SENDS.len());
        let kind = KINDS[number % KINDS.len()];
        let change = SENDS[number / KINDS.len()];
        if change == Change::NoBuffers {
            self.attempt_without_buffers(deed_of(kind), &[96, 96]);
        } else if self.need_buffers() {
            let mut takers = self.choose_takers(kind);
            let mut parts = self.choose_parts(&[1, 2, 1]);
            match change {
                Change::UnfitPage => parts[0] = one_page(self.unfit_page()),
                Change::Outside => parts[0] = one_page(self.ram_end()),
                Change::Stranger => {
                    let stranger = self.dice.stranger();
                    takers = [Some(self.dice.taker(kind, stranger)), None];
                }
                _ => {}
            }
            self.send(kind, takers, parts, change);
        }
    }

    /// Plays a send of a page that the runner may only read, if it has one: with a grant to write, with zeros, or in
    /// the right form. If a send in the right form succeeds, the runner tries to reclaim the page with zeros, which it
    /// may not write. Then it reclaims the page without zeros.
    pub(crate) fn play_read_only(&mut self) {
        if let Some(page) = self.free_run(1, Data::Ro)
            && self.need_buffers()
        {
            let (kind, change) = self.rounds.read_only.next_of(&READ_ONLY_SENDS);
            let level = match change {
                Change::Grant => Data::Rw,
                _ => Data::Ro,
            };
            let grant = (kind != Kind::Donate).then_some(level);
            let taker = Taker::new(self.another(), grant);
            self.send_page(kind, taker, page, change);
        }
    }

    /// Sends one receiver a page of the runner, if the runner has a page that it could send and may write.
    pub(crate) fn send_free_page(&mut self, kind: Kind, to: EndpointId, change: Change) {
        if let Some(page) = self.free_run(1, Data::Rw) {
            let taker = self.dice.taker(kind, to);
            self.send_page(kind, taker, page, change);
        }
    }

    fn send_page(&mut self, kind: Kind, taker: Taker, page: Range, change: Change) {
        let parts = [page, Range::default(), Range::default()];
        self.send(kind, [Some(taker), None], parts, change);
    }

    // Chooses one receiver, or sometimes two for a share or a lend.
    fn choose_takers(&mut self, kind: Kind) -> Takers {
        let first = self.another();
        let mut takers = [Some(self.dice.taker(kind, first)), None];
        if kind != Kind::Donate && self.dice.one_in(3) {
            let second = self.another();
            if second != first {
                takers[1] = Some(self.dice.taker(kind, second));
            }
        }
        takers
    }

    // Chooses up to three ranges of the runner's own. Each range has one of these sizes, and no page is in two ranges.
    // A range has no page if the runner has no fitting run.
    fn choose_parts(&mut self, sizes: &[u32; 3]) -> Parts {
        let mut parts = [Range::default(); MOST_PARTS];
        let count = if self.dice.one_in(3) { MOST_PARTS } else { 1 };
        for place in 0..count {
            let pages = self.dice.pick(sizes);
            let part = self.free_run(pages, Data::Rw).unwrap_or_default();
            if !parts.iter().any(|other| meet(*other, part)) {
                parts[place] = part;
            }
        }
        parts
    }

    // Makes a send, and remembers it if it succeeds. If the runner may only read the page, it reclaims the page at
    // once.
    fn send(&mut self, kind: Kind, takers: Takers, parts: Parts, change: Change) {
        let zero = match change {
            _ if kind == Kind::Share => false,
            Change::Zeros => true,
            Change::ReadOnly => false,
            _ => self.dice.one_in(4),
        };
        let mut offer = Offer {
            handle: 0,
            sender: self.sender(change),
            kind,
            zero,
            tag: self.dice.pick(&[0, 0, 1, u64::MAX]),
            takers,
            parts,
        };
        let version = self.version_of(self.runner());
        let mut page = [0; PAGE_SIZE];
        let Ok(length) = write_send(version, kind, &offer.describe(), &mut page) else {
            return;
        };
        let (deed, to) = (deed_of(kind), takers[0].map(|it| it.receiver.endpoint));
        let answer = self.attempt_by_tx(deed, to, change, &mut page, length, &parts);
        if let Some(answer) = answer {
            offer.handle = answer[2] | answer[3] << 32;
            self.add_offer(offer);
            if change == Change::ReadOnly {
                self.reclaim(offer.handle, 1, Change::Zeros);
                self.reclaim(offer.handle, 0, Change::Nothing);
            }
        }
        self.read_tx();
    }
}

impl Dice {
    // Returns a receiver, and its grant for a send of this kind.
    fn taker(&mut self, kind: Kind, endpoint: EndpointId) -> Taker {
        let grant = match kind {
            Kind::Donate => None,
            Kind::Share | Kind::Lend => Some(self.pick(&[Data::Ro, Data::Rw, Data::Rw])),
        };
        Taker::new(endpoint, grant)
    }
}
