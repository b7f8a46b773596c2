// SPDX-License-Identifier: MIT OR Apache-2.0
//! The right that an endpoint may still retrieve.
ghost use Rattle.std.specs.Prelude.{◌≡◌, ◌<◌, Some, length};
ghost use Rattle.ffa_mend.specs.Offered.{offered_by};
ghost use Rattle.ffa_pages.specs.Entry.{slot_at};
ghost use Rattle.ffa_rxtx.specs.Parts.{ownership_in};
ghost use Rattle.ffa_memshare.specs.Ranges.{ArePlaced};
ghost use Rattle.ffa_memshare.specs.Shared.{AreRangesInRam};
ghost use Rattle.ffa_memshare.specs.Stored.{named_in};

use crate::open_slot::OpenSlot;
use crate::pool::Pool;
use crate::transaction::OpenTransaction;
use ffa_model::{Address, EndpointId, PageNo, Rights, Room};
use ffa_pages::{KeptPage, PageTable};

impl<O: Room<OpenSlot> + Drop> Pool<O> {
    /// Returns the greatest right that an endpoint may still get of the open transaction that names a page. Returns
    /// `None` if no open transaction names the page, or if the endpoint is not a receiver or holds the transaction
    /// already.
    pub fn offered_at<P: Room<KeptPage> + Drop>(
        &self,
        pages: &PageTable<P>,
        base: Address,
        endpoint: EndpointId,
        page: PageNo,
    ) -> Option<Rights>
        requires placed { AreRangesInRam self.now.slots base.0 (length pages.now) }
        requires inside { page.0 < length pages.now }
        ensures { let owners = ownership_in pages.now base.0 in
            result ≡ offered_by owners endpoint.0 (named_in self.now.slots (slot_at pages.now page.0)) }
    {
        let slot = pages.slot_of(page)?;
        let open = self.in_slot(usize::from(slot))?;
        open.offered_to(pages, base, endpoint)
    }
}

impl OpenTransaction {
    ghost use Rattle.ffa_memshare.specs.Stored.{view_of};

    // Returns the greatest right that an endpoint may still get of the transaction, or `None`.
    fn offered_to<P: Room<KeptPage> + Drop>(
        &self,
        pages: &PageTable<P>,
        base: Address,
        endpoint: EndpointId,
    ) -> Option<Rights>
        requires { ArePlaced base.0 (length pages.now) self.now.ranges }
        ensures { let owners = ownership_in pages.now base.0 in
            result ≡ offered_by owners endpoint.0 (Some (view_of self.now)) }
    {
        if self.held_right(endpoint).is_some() {
            return None;
        }
        let granted = self.grant_to(endpoint)?;
        Some(self.ceiling(pages, base, granted))
    }
}
