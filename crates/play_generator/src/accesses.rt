// SPDX-License-Identifier: MIT OR Apache-2.0
//! Loads, stores and fetches. They are at the edges of what an endpoint reaches, and read what the endpoint itself, the
//! sender of the pages or the manager stored.
use crate::dice::Dice;
use crate::generator::Generator;
use crate::offers::{Offer, Wish};
use crate::pages::{PAGE, has_address};
use crate::stage::Stage;
use crate::{Change, Deed};
use ffa_model::{Data, EndpointId, Op, Range, Region, Size};

/// The first address that has more than 32 bits.
const TOO_HIGH: u64 = 1 << 32;

/// The largest number of words of 8 bytes that an endpoint reads at once.
const MOST_WORDS: u64 = 12;

/// The number of words of 8 bytes that an endpoint reads at once even if loads have read all that was stored.
const FEW_WORDS: u64 = 3;

impl<'m, S: Stage + Drop> Generator<'m, S> {
    pub(crate) fn store(&mut self, addr: u64, size: Size, value: u64) {
        self.stage.play(&Op::Store { addr, size, value });
        self.unread = self.unread.saturating_add(1);
    }

    fn load(&mut self, addr: u64, size: Size) {
        self.stage.play(&Op::Load { addr, size });
        self.unread = self.unread.saturating_sub(1);
    }

    /// Plays one to three accesses.
    pub(crate) fn play_accesses(&mut self) {
        self.announce(Deed::Access, None, Change::Nothing);
        let count = 1 + self.dice.below(3);
        for _ in 0..count {
            self.play_access();
        }
    }

    // Plays a load, a fetch, or a store and a load of the same bytes. It mostly leaves TX to descriptors.
    fn play_access(&mut self) {
        let page = self.edge_page();
        let size = self.dice.pick(&[Size::B1, Size::B2, Size::B4, Size::B8]);
        let addr = page.wrapping_add(self.dice.offset(size));
        let is_tx = self.buffers().is_some_and(|it| has_address(it.tx, addr));
        if is_tx && !self.dice.one_in(4) {
            return;
        }
        match self.dice.below(3) {
            0 => self.load(addr, size),
            1 => {
                self.stage.play(&Op::Fetch { addr });
            }
            _ => {
                let value = self.dice.word();
                self.store(addr, size, value);
                self.load(addr, size);
            }
        }
    }

    // Returns the address of a page at an edge of what the runner reaches: at an edge of its regions, of another's
    // regions or of RAM, or a page of a transaction.
    fn edge_page(&mut self) -> u64 {
        let runner = self.runner();
        let other = self.any_endpoint();
        let owner = if self.dice.one_in(2) { runner } else { other };
        let region = self.any_region(owner).unwrap_or_default();
        let first = u64::from(region.base);
        let end = first + PAGE * u64::from(region.pages);
        match self.dice.below(12) {
            0 | 1 => first,
            2 | 3 => end.wrapping_sub(PAGE),
            4 => first.wrapping_sub(PAGE),
            5 => end,
            6 => self.ram_base(),
            7 => {
                let ends = [self.ram_end(), TOO_HIGH, 0, u64::MAX - (PAGE - 1)];
                self.dice.pick(&ends)
            }
            8 | 9 => {
                let wishes = [Wish::Held, Wish::Held, Wish::OwnFree, Wish::OwnHeld];
                let wish = self.dice.pick(&wishes);
                match self.any_offer(wish) {
                    Some(offer) => offer.parts[0].address,
                    None => self.any_page(),
                }
            }
            _ => self.any_page(),
        }
    }

    // Returns one of an endpoint's regions, or `None` if it has no regions.
    fn any_region(&mut self, endpoint: EndpointId) -> Option<Region> {
        let regions = self.endpoint(endpoint)?.regions.as_slice();
        regions.get(self.dice.place(regions.len())).copied()
    }

    // Loads the first words of this number of bytes, after a comment: FEW_WORDS in any case, and up to MOST_WORDS while
    // there are stores without a load.
    fn read_words(&mut self, deed: Deed, address: u64, bytes: u32) {
        self.announce(deed, None, Change::Nothing);
        for index in 0..MOST_WORDS {
            let is_wanted = index < FEW_WORDS || self.unread > 0;
            if is_wanted && 8 * index < u64::from(bytes) {
                self.load(address.wrapping_add(8 * index), Size::B8);
            }
        }
    }

    /// The runner reads back the descriptor that it stored in TX, if more than MOST_WORDS stores are without a load.
    pub(crate) fn read_tx(&mut self) {
        if let Some(buffers) = self.buffers()
            && self.unread > MOST_WORDS
        {
            self.read_words(Deed::ReadTx, buffers.tx.address, self.tx_length);
        }
    }

    /// The runner reads the bytes in its RX, if there are any.
    pub(crate) fn read_rx(&mut self) {
        if let Some(buffers) = self.buffers()
            && buffers.filled > 0
        {
            self.read_words(Deed::ReadRx, buffers.rx.address, buffers.filled);
        }
    }

    /// The runner stores a word of 8 bytes in each of these ranges, if it may write there.
    pub(crate) fn mark_parts(&mut self, parts: &[Range]) {
        for part in parts {
            if part.pages > 0 && self.free_level(part.address) == Some(Data::Rw) {
                let value = self.dice.word();
                self.store(part.address, Size::B8, value);
            }
        }
    }

    /// The runner reads the first and the last word of 8 bytes of each range of a transaction.
    pub(crate) fn read_parts(&mut self, offer: &Offer) {
        self.announce(Deed::ReadPages, Some(offer.sender), Change::Nothing);
        for part in &offer.parts {
            if part.pages > 0 {
                let end = part.address.wrapping_add(PAGE * u64::from(part.pages));
                self.load(part.address, Size::B8);
                self.load(end.wrapping_sub(8), Size::B8);
            }
        }
    }
}

impl Dice {
    // Returns an offset in a page, in bytes: at the beginning, at the end or between. It is mostly a multiple of the
    // size.
    fn offset(&mut self, size: Size) -> u64 {
        let count = size.bytes();
        let any = self.word() % PAGE;
        let aligned = any / 8 * 8;
        self.pick(&[0, PAGE - count, PAGE - 4, aligned, aligned, any])
    }
}
