// SPDX-License-Identifier: MIT OR Apache-2.0
//! The room in which a call on memory works.
ghost use Rattle.std.specs.Prelude.{◌≡◌, []};

use crate::transaction::OpenTransaction;
use arrayvec::ArrayVec;
use ffa_model::{Data, EndpointId, Kind, Response, Rights, SendDesc};

/// The room in which the library reads and checks a send, and builds the response of a retrieve. Its lists are costly
/// to clear and to move, so calls fill them in place.
#[derive(Drop)]
pub struct Draft {
    /// The contents of the send descriptor.
    pub(crate) offer: SendDesc,
    /// The transaction that the send opens.
    pub(crate) transaction: OpenTransaction,
    /// The response of a retrieve.
    pub(crate) response: Response,
}

impl Draft {
    /// Returns room without contents.
    pub fn none() -> Draft
        ensures { result.transaction.ranges ≡ [] }
    {
        Draft {
            offer: SendDesc::none(),
            transaction: OpenTransaction::none(),
            response: no_response(),
        }
    }

    /// Clears the ranges of the offer. The next send then has no ranges to clear.
    #[inline(always)]
    pub(crate) fn clear_offer(&mut self)
        ensures { self.new.transaction ≡ self.old.transaction }
    {
        self.offer.ranges.clear();
    }
}

// Returns a response without pages, for no endpoint. It is room for another response.
fn no_response() -> Response {
    Response {
        sender: EndpointId::MANAGER,
        kind: Kind::Share,
        zero: false,
        normal: false,
        handle: 0,
        tag: 0,
        endpoint: EndpointId::MANAGER,
        rights: Rights {
            level: Data::Ro,
            exec: false,
        },
        ranges: ArrayVec::new(),
    }
}
