// SPDX-License-Identifier: MIT OR Apache-2.0
//! The reasons why an operation is refused, and why an endpoint has access to a page.

use crate::endpoint::{EndpointId, PageNo};
use crate::flaw::{FieldPlace, Flaw};
use crate::operation::FaultKind;
use crate::refusal::Refusal;

/// The reason why an operation is refused.
#[derive(Clone, Copy)]
pub enum Why {
    /// The first check of the call that fails, and the thing that this check is about.
    Refused {
        refusal: Refusal,
        about: Option<About>,
    },
    /// The fault of an access. A translation fault below 2^32 also has its obstacle.
    Fault {
        kind: FaultKind,
        obstacle: Option<Obstacle>,
    },
}

/// The thing that a failed check is about.
#[derive(Clone, Copy)]
pub enum About {
    /// The first page that fails the check, and the obstacle there.
    Page {
        page: PageNo,
        obstacle: Option<Obstacle>,
    },
    /// The endpoint that the call names.
    Endpoint(EndpointId),
    /// The handle of a transaction.
    Handle(u64),
    /// The number of a register, and its value.
    Register {
        register: u32,
        value: u64,
    },
    /// The number of a notification bit.
    Bit(u32),
    /// The first condition that a descriptor breaks, and the place of the field that the condition is about. `value` is
    /// the number in this field, if the field has 1, 2, 4 or 8 bytes and all of them are there.
    Field {
        flaw: Flaw,
        place: FieldPlace,
        value: Option<u64>,
    },
}

/// The obstacle at an address below 2^32 that the runner's tables do not map, or at a page that a call names.
#[derive(Clone, Copy)]
pub enum Obstacle {
    /// The address is outside RAM.
    OutsideRam,
    /// The page belongs to the manager.
    ManagersPage,
    /// The page belongs to this endpoint, which is another one.
    OwnedBy(EndpointId),
    /// The page is in the open transaction with this handle.
    InTransaction(u64),
}

/// The reason why an endpoint has access to a page.
#[derive(Clone, Copy)]
pub enum Grant {
    /// The endpoint owns the page, and no open transaction names the page.
    Own,
    /// The endpoint owns the page, and shares it by the open transaction with this handle.
    Shared(u64),
    /// The endpoint holds the open transaction with this handle, and this transaction names the page.
    Held(u64),
}
