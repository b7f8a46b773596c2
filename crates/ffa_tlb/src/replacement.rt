// SPDX-License-Identifier: MIT OR Apache-2.0
//! The policy that picks the entry which makes room for a new one.
ghost use Rattle.std.specs.Prelude.{◌≡◌, ℕ, ◌+◌, ◌%◌, ◌^◌};

use ffa_model::{EndpointId, PageNo};

/// A policy that picks the slot for a new entry.
pub trait Replacement {
    /// The number that a policy picks for a page of an endpoint.
    ghost picked: { Self → ℕ → ℕ → ℕ };

    /// The policy after it picked a number for a page of an endpoint.
    ghost moved: { Self → ℕ → ℕ → Self };

    /// Returns the slot for a page of an endpoint, counted from 0. The policy may pick any number, because the cache
    /// takes it modulo the number of slots.
    fn pick(&mut self, endpoint: EndpointId, page: PageNo) -> usize
        ensures picked { result ≡ picked self.old endpoint.0 page.0 }
        ensures moved { self.new ≡ moved self.old endpoint.0 page.0 };
}

/// A policy that picks the slots in turn: 0, 1, 2 and so on.
#[derive(Clone, Copy)]
pub struct InTurn {
    next: usize,
}

impl Default for InTurn {
    /// Returns the policy that begins at slot 0.
    fn default() -> InTurn
        ensures { result.next ≡ 0 }
    {
        InTurn { next: 0 }
    }
}

impl Replacement for InTurn {
    ghost picked = { λ turn e p. turn.next };

    ghost moved = { λ turn e p. record { next = (turn.next + 1) % 2 ^ 64 } };

    fn pick(&mut self, _endpoint: EndpointId, _page: PageNo) -> usize {
        let slot = self.next;
        self.next = slot.wrapping_add(1);
        slot
    }
}
