// SPDX-License-Identifier: MIT OR Apache-2.0
//! FFA_RXTX_MAP, FFA_RXTX_UNMAP and FFA_RX_RELEASE (DEN0077A, 7.2).
ghost use Rattle.std.specs.Prelude.{◌≡◌, ◌≤◌, length, true, false, Some, None, OnOk, OnErr};
ghost use Rattle.std.specs.Result.{result_err};
ghost use Rattle.ffa_model.specs.Buffers.{buffers_in, buffers_with, buffers_with_rx, map_guards, new_buffers, release_guards, unmap_guards};
ghost use Rattle.ffa_model.specs.Calls.{first_failure};
ghost use Rattle.ffa_model.specs.State.{is_known_among};
ghost use Rattle.ffa_rxtx.specs.Parts.{ownership_in};

use crate::buffers::Buffers;
use ffa_model::{Address, EndpointId, ErrorCode, Room};
use ffa_pages::{KeptPage, PageTable};

impl Buffers {
    /// Maps the buffers of an endpoint: FFA_RXTX_MAP. TX and RX begin at these addresses, and each has this number of
    /// pages. RX is empty. The table has the owners of RAM's pages, and RAM begins at `ram_base`.
    ///
    /// # Errors
    ///
    /// The first of these that applies. An error changes nothing.
    ///
    /// - `Denied`: the caller has buffers already.
    /// - `InvalidParameters`: the number of pages is not from 1 to 4.
    /// - `InvalidParameters`: an address is not the start of a page, a page is not in RAM, or a page is in both
    ///   buffers.
    /// - `Denied`: the caller does not own a page, a page is in an open transaction, or the owner's right to a page is
    ///   not rw.
    pub fn map<P: Room<KeptPage> + Drop>(
        &mut self,
        table: &PageTable<P>,
        ram_base: Address,
        caller: EndpointId,
        tx: u64,
        rx: u64,
        pages: u32,
    ) -> Result<(), ErrorCode>
        requires some { 1 ≤ length self.old }
        requires known { is_known_among (length self.old) caller.0 ≡ true }
        ensures refusal { let own = buffers_in self.old caller.0 in let ram = ownership_in table.now ram_base.0 in
            result_err result ≡ first_failure (map_guards caller.0 own ram tx rx pages) }
        ensures kept { OnErr result (self.new ≡ self.old) }
        ensures mapped { let own = new_buffers ram_base.0 tx rx pages in
            OnOk result (self.new ≡ buffers_with self.old caller.0 (Some own)) }
    {
        let mapped = self.check_map(table, ram_base, caller, tx, rx, pages)?;
        self.put(caller, Some(mapped));
        Ok(())
    }

    /// Unmaps the buffers of an endpoint, whether RX is full or not: FFA_RXTX_UNMAP with this word in w1. The caller
    /// then has no buffers.
    ///
    /// # Errors
    ///
    /// The first of these that applies. An error changes nothing.
    ///
    /// - `InvalidParameters`: the word is not 0.
    /// - `InvalidParameters`: the caller has no buffers.
    pub fn unmap(&mut self, caller: EndpointId, endpoint_word: u32) -> Result<(), ErrorCode>
        requires { is_known_among (length self.old) caller.0 ≡ true }
        ensures refusal { let own = buffers_in self.old caller.0 in
            result_err result ≡ first_failure (unmap_guards own endpoint_word) }
        ensures kept { OnErr result (self.new ≡ self.old) }
        ensures unmapped { OnOk result (self.new ≡ buffers_with self.old caller.0 None) }
    {
        self.check_unmap(caller, endpoint_word)?;
        self.put(caller, None);
        Ok(())
    }

    /// Marks RX of an endpoint as empty: FFA_RX_RELEASE.
    ///
    /// # Errors
    ///
    /// `Denied`: the caller has no buffers, or its RX is not full. An error changes nothing.
    pub fn rx_release(&mut self, caller: EndpointId) -> Result<(), ErrorCode>
        requires { is_known_among (length self.old) caller.0 ≡ true }
        ensures refusal { result_err result ≡ first_failure (release_guards (buffers_in self.old caller.0)) }
        ensures kept { OnErr result (self.new ≡ self.old) }
        ensures emptied { OnOk result (self.new ≡ buffers_with_rx self.old caller.0 false) }
    {
        self.check_release(caller)?;
        self.empty(caller);
        Ok(())
    }
}
