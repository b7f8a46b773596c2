// SPDX-License-Identifier: MIT OR Apache-2.0
//! Scenes that map, unmap and release buffers.
use crate::generator::Generator;
use crate::pages::{has_address, meet, one_page};
use crate::stage::Stage;
use crate::{Change, Deed};
use ffa_model::function::FFA_RXTX_MAP;
use ffa_model::{Data, MOST_BUFFER_PAGES, Range};

/// An endpoint's buffers, and the number of bytes in RX. RX is full if this number is not 0.
#[derive(Clone, Copy)]
pub(crate) struct MappedBuffers {
    pub tx: Range,
    pub rx: Range,
    pub filled: u32,
}

impl MappedBuffers {
    /// Whether an address is in one of the buffers.
    pub(crate) fn have_address(&self, address: u64) -> bool {
        has_address(self.tx, address) || has_address(self.rx, address)
    }
}

impl<'m, S: Stage + Drop> Generator<'m, S> {
    /// The runner maps buffers, if it has no buffers. Returns whether it has buffers then.
    pub(crate) fn need_buffers(&mut self) -> bool {
        if self.buffers().is_none() {
            let pages = if self.dice.one_in(4) { 2 } else { 1 };
            self.map(pages);
        }
        if self.buffers().is_none() {
            self.map(1);
        }
        self.buffers().is_some()
    }

    /// The runner, which has no buffers, maps buffers of this number of pages each, if it finds the pages.
    pub(crate) fn map(&mut self, pages: u32) {
        self.ask_version();
        if let Some(tx) = self.free_run(pages, Data::Rw)
            && let Some(rx) = self.free_run_beside(tx)
        {
            self.call_map([tx.address, rx.address, u64::from(pages)], Change::Nothing);
        }
    }

    // Calls FFA_RXTX_MAP in either form.
    fn call_map(&mut self, arguments: [u64; 3], change: Change) {
        self.announce(Deed::Map, None, change);
        let function = self.dice.either(FFA_RXTX_MAP);
        self.call(function, &arguments);
    }

    // Returns a run of pages that is as long as TX and has no page of TX. Returns `None` if a few tries find no such
    // run.
    fn free_run_beside(&mut self, tx: Range) -> Option<Range> {
        for _ in 0..16 {
            let rx = self.free_run(tx.pages, Data::Rw)?;
            if !meet(tx, rx) {
                return Some(rx);
            }
        }
        None
    }

    /// Plays FFA_RXTX_MAP, in half of the cases with something changed.
    pub(crate) fn play_map(&mut self) {
        if self.dice.one_in(2) {
            self.play_turned_map();
        } else {
            self.unmap_any();
            let pages = 1 + self.dice.below(MOST_BUFFER_PAGES);
            self.map(pages);
        }
    }

    // Plays FFA_RXTX_MAP with one thing changed, another one each time.
    fn play_turned_map(&mut self) {
        let number = self.rounds.maps.below(7);
        if number == 0 {
            self.need_buffers();
        } else {
            self.unmap_any();
        }
        let tx = self.free_run(1, Data::Rw).unwrap_or(one_page(0));
        let rx = self.free_run_beside(tx).unwrap_or(tx).address;
        let tx = tx.address;
        let unfit = self.unfit_page();
        let bit = self.dice.pick(&[8, 8, 2048, 1 << 32]);
        let (change, arguments) = match number {
            0 => (Change::BuffersThere, [tx, rx, 1]),
            1 => (
                Change::PageCount,
                [tx, rx, self.dice.pick(&[0, 5, 0xFFFF_FFFF])],
            ),
            2 => (Change::TxMisplaced, [tx | bit, rx, 1]),
            3 => (Change::RxMisplaced, [tx, rx | bit, 1]),
            4 => (Change::Overlap, [tx, tx, 1]),
            5 => (Change::TxUnfit, [unfit, rx, 1]),
            _ => (Change::RxUnfit, [tx, unfit, 1]),
        };
        self.call_map(arguments, change);
    }

    fn unmap(&mut self) {
        self.attempt(Deed::Unmap, None, Change::Nothing, &[]);
    }

    /// Unmaps the runner's buffers, if it has any.
    pub(crate) fn unmap_any(&mut self) {
        if self.buffers().is_some() {
            self.unmap();
        }
    }

    /// Unmaps the runner's buffers, and makes a call that needs buffers.
    pub(crate) fn attempt_without_buffers(&mut self, deed: Deed, arguments: &[u64]) {
        self.unmap_any();
        let other = self.another();
        self.attempt(deed, Some(other), Change::NoBuffers, arguments);
    }

    /// Plays FFA_RXTX_UNMAP, sometimes with its register changed or without buffers.
    pub(crate) fn play_unmap(&mut self) {
        let endpoint = self.dice.pick(&[0, 0, 1, 0x8001_0000]);
        let change = match endpoint {
            0 => Change::Nothing,
            _ => Change::NotZero,
        };
        self.attempt(Deed::Unmap, None, change, &[endpoint]);
        if self.dice.one_in(4) {
            self.unmap();
        }
    }

    /// The runner reads its RX, and releases it by FFA_RX_RELEASE.
    pub(crate) fn release(&mut self) {
        self.read_rx();
        self.attempt(Deed::Release, None, Change::Nothing, &[]);
    }

    /// The runner reads its RX and releases it in two of three cases, if RX is full.
    pub(crate) fn release_mostly(&mut self) {
        let is_full = self.buffers().is_some_and(|it| it.filled > 0);
        if is_full && !self.dice.one_in(3) {
            self.release();
        }
    }
}
