// SPDX-License-Identifier: MIT OR Apache-2.0
//! A slot for one open transaction.
ghost use Rattle.std.specs.Prelude.{◌≡◌, ◌<◌, Some, None, is_some, not};
ghost use Rattle.std.specs.Option.{option_copied};
ghost use Rattle.ffa_model.specs.declared.limits.TheConstants.{MOST_ENDPOINTS};
ghost use Rattle.ffa_model.specs.Identifiers.{identifier, place};
ghost use Rattle.ffa_memshare.specs.declared.transaction.OpenTransaction.{OpenTransaction};
ghost use Rattle.ffa_memshare.specs.Held.{held_with};

use crate::transaction::OpenTransaction;
use ffa_model::{EndpointId, Rights};
use std::marker::Model;

/// A slot for one open transaction. A call fills the slot in place, because a transaction is costly to move. Contracts
/// see the open transaction, or `None`.
#[derive(Drop)]
pub struct OpenSlot {
    is_open: bool,
    transaction: OpenTransaction,
}

impl Model for OpenSlot {
    ghost use Rattle.std.specs.Prelude.{Option};
    ghost use Rattle.ffa_memshare.specs.OpenSlots.{open_if};
    ghost use Rattle.ffa_memshare.specs.declared.transaction.OpenTransaction.{OpenTransaction};
    ghost use Rattle.ffa_memshare.specs.Codes.{coded_slot};

    ghost Value = { Option OpenTransaction };

    ghost coded = { coded_slot };

    ghost view = { λ s. open_if s.is_open s.transaction };
}

impl Default for OpenSlot {
    fn default() -> OpenSlot {
        OpenSlot::free()
    }
}

impl OpenSlot {
    /// Returns a slot without an open transaction.
    pub fn free() -> OpenSlot
        ensures { result ≡ None }
    {
        OpenSlot {
            is_open: false,
            transaction: OpenTransaction::none(),
        }
    }

    // Returns the open transaction of the slot, or `None`.
    pub(crate) fn get(&self) -> Option<&OpenTransaction>
        ensures { option_copied result ≡ self.now }
    {
        if self.is_open {
            Some(&self.transaction)
        } else {
            None
        }
    }

    // Whether the slot has no open transaction.
    pub(crate) fn is_free(&self) -> bool
        ensures { is_some self.now ≡ not result }
    {
        !self.is_open
    }

    // Opens a transaction in the slot. It replaces the transaction of the slot.
    pub(crate) fn open(&mut self, transaction: &OpenTransaction)
        ensures { self.new ≡ Some transaction.now }
    {
        self.is_open = true;
        self.transaction.fill(transaction);
    }

    // Copies another slot into this slot.
    pub(crate) fn copy_from(&mut self, other: &OpenSlot)
        ensures { self.new ≡ other.now }
    {
        match other.get() {
            Some(open) => self.open(open),
            None => self.close(),
        }
    }

    // Sets the right that an endpoint holds of the open transaction. With `None`, the endpoint holds no right.
    pub(crate) fn set_held(&mut self, endpoint: EndpointId, right: Option<Rights>)
        requires known { identifier (place endpoint.0) ≡ endpoint.0 }
        requires few { place endpoint.0 < MOST_ENDPOINTS }
        ensures { (t : OpenTransaction) → self.old ≡ Some t
            → self.new ≡ Some (record t { held = held_with t.held endpoint.0 right }) }
    {
        self.transaction.held.set(endpoint, right);
    }

    // Closes the open transaction, if the slot has one.
    pub(crate) fn close(&mut self)
        ensures { self.new ≡ None }
    {
        self.is_open = false;
    }
}
