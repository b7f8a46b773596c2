// SPDX-License-Identifier: MIT OR Apache-2.0
//! The explanation of a refused call by what the call names.
ghost use Rattle.std.specs.Prelude.{◌≡◌, None};
ghost use Rattle.ffa_mend.specs.Explained.{explained};

use crate::Mend;
use ffa_model::{About, PageNo};

/// The explanation of a check that refuses a call, from the call's message, descriptor, pages, bits or transaction.
#[derive(Clone, Copy)]
pub struct Explained {
    /// The endpoint, handle, field or bit that the check is about.
    pub about: Option<About>,
    /// The first page that fails the check.
    pub page: Option<PageNo>,
    /// The thing to change.
    pub mend: Option<Mend>,
    /// The number of receivers in the header of the descriptor of a send.
    pub receivers: Option<u64>,
}

impl Explained {
    /// Makes the explanation of what a check is about and what to change, if no page fails the check.
    pub fn of(about: Option<About>, mend: Option<Mend>) -> Explained
        ensures { result ≡ explained about None mend }
    {
        Explained {
            about,
            page: None,
            mend,
            receivers: None,
        }
    }
}
