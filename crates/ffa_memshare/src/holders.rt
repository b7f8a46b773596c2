// SPDX-License-Identifier: MIT OR Apache-2.0
//! The endpoints that hold an open transaction, with their rights.
ghost use Rattle.std.specs.Prelude.{◌≡◌, ◌<◌};
ghost use Rattle.std.specs.FinMap as finite;
ghost use Rattle.ffa_model.specs.declared.limits.TheConstants.{MOST_ENDPOINTS};
ghost use Rattle.ffa_model.specs.Identifiers.{identifier, place};
ghost use Rattle.ffa_memshare.specs.Held.{held_with};

use ffa_model::{EndpointId, MOST_ENDPOINTS, Rights};
use std::marker::Model;

/// The right that each endpoint holds of a transaction. The right is stored at the endpoint's place in the manifest.
#[derive(Drop)]
pub struct Holders {
    rights: [Option<Rights>; MOST_ENDPOINTS],
}

impl Model for Holders {
    ghost use Rattle.std.specs.Prelude.{◌≡◌, length};
    ghost use Rattle.std.specs.Ordering.{nat_cmp};
    ghost use Rattle.std.specs.FinMap as finite;
    ghost use Rattle.std.specs.Coded.{coded_ℕ};
    ghost use Rattle.ffa_model.specs.declared.rights.Rights.{Rights};
    ghost use Rattle.ffa_model.specs.Codes.{coded_rights};
    ghost use Rattle.ffa_model.specs.declared.limits.TheConstants.{MOST_ENDPOINTS};

    ghost Value = { finite.FinMap nat_cmp Rights };

    ghost coded = { finite.code coded_ℕ coded_rights };

    ghost use Rattle.ffa_memshare.specs.Held.{held_in};

    ghost view = { λ h. held_in h.rights };

    ghost invariant = { λ h. length h.rights ≡ MOST_ENDPOINTS };
}

impl Holders {
    /// Returns a value in which no endpoint holds a right.
    pub fn none() -> Holders
        ensures { result ≡ finite.empty }
    {
        Holders {
            rights: [None; MOST_ENDPOINTS],
        }
    }

    /// Copies these rights into this value.
    pub fn fill(&mut self, others: &Holders)
        ensures { self.new ≡ others.now }
    {
        self.rights = others.rights;
    }

    /// Returns the right that an endpoint holds, or `None`.
    pub fn of(&self, endpoint: EndpointId) -> Option<Rights>
        ensures { result ≡ finite.get self.now endpoint.0 }
    {
        let place = endpoint.place();
        if EndpointId::at(place) == endpoint && place < MOST_ENDPOINTS {
            self.rights[place]
        } else {
            None
        }
    }

    /// Sets the right that an endpoint holds. With `None`, the endpoint holds no right.
    pub fn set(&mut self, endpoint: EndpointId, right: Option<Rights>)
        requires known { identifier (place endpoint.0) ≡ endpoint.0 }
        requires few { place endpoint.0 < MOST_ENDPOINTS }
        ensures { self.new ≡ held_with self.old endpoint.0 right }
    {
        self.rights[endpoint.place()] = right;
    }
}
