// SPDX-License-Identifier: MIT OR Apache-2.0
//! The record of a page.
ghost use Rattle.std.specs.Prelude.{◌≡◌};
ghost use Rattle.ffa_pages.specs.Stored.{own_right_in, slot_in, standing_of};

use ffa_model::{Data, EndpointId, Rights, SlotNumber};
use std::mem::size_of;

// The right of a page's owner while the page is in no open transaction, and the place in the pool of the open
// transaction that names the page. One enum has both in twice the bytes of a place. As two fields they would take more.
#[derive(Clone, Copy, Default, PartialEq, Eq)]
pub(crate) enum Standing {
    #[default]
    Read,
    ReadExecute,
    Write,
    WriteExecute,
    NamedRead(SlotNumber),
    NamedReadExecute(SlotNumber),
    NamedWrite(SlotNumber),
    NamedWriteExecute(SlotNumber),
}

impl Standing {
    pub(crate) fn of(own_right: Rights, slot: Option<SlotNumber>) -> Standing
        ensures own_right { own_right_in result ≡ own_right }
        ensures slot { slot_in result ≡ slot }
    {
        match (own_right.level, own_right.exec, slot) {
            (Data::Ro, false, None) => Standing::Read,
            (Data::Ro, true, None) => Standing::ReadExecute,
            (Data::Rw, false, None) => Standing::Write,
            (Data::Rw, true, None) => Standing::WriteExecute,
            (Data::Ro, false, Some(slot)) => Standing::NamedRead(slot),
            (Data::Ro, true, Some(slot)) => Standing::NamedReadExecute(slot),
            (Data::Rw, false, Some(slot)) => Standing::NamedWrite(slot),
            (Data::Rw, true, Some(slot)) => Standing::NamedWriteExecute(slot),
        }
    }

    pub(crate) fn own_right(self) -> Rights
        ensures { result ≡ own_right_in self }
    {
        let (level, exec) = match self {
            Standing::Read | Standing::NamedRead(_) => (Data::Ro, false),
            Standing::ReadExecute | Standing::NamedReadExecute(_) => (Data::Ro, true),
            Standing::Write | Standing::NamedWrite(_) => (Data::Rw, false),
            Standing::WriteExecute | Standing::NamedWriteExecute(_) => (Data::Rw, true),
        };
        Rights { level, exec }
    }

    pub(crate) fn slot(self) -> Option<SlotNumber>
        ensures { result ≡ slot_in self }
    {
        match self {
            Standing::NamedRead(slot)
            | Standing::NamedReadExecute(slot)
            | Standing::NamedWrite(slot)
            | Standing::NamedWriteExecute(slot) => Some(slot),
            Standing::Read | Standing::ReadExecute | Standing::Write | Standing::WriteExecute =>
                None,
        }
    }
}

/// The record of a page, which has four bytes if a `SlotNumber` has one byte. `EndpointId::MANAGER` owns a page of the
/// manager, and then the field `standing` says nothing.
#[derive(Clone, Copy, Default, PartialEq, Eq)]
pub struct KeptPage {
    pub(crate) owner: EndpointId,
    pub(crate) standing: Standing,
}

const _: () = prove!(size_of::<KeptPage>() == 2 + 2 * size_of::<SlotNumber>());

impl KeptPage {
    /// The record of a page of the manager.
    pub const MANAGERS: KeptPage = KeptPage {
        owner: EndpointId::MANAGER,
        standing: Standing::Read,
    };

    // Returns the field `standing` of a page that an endpoint owns, and `None` for a page of the manager.
    pub(crate) fn own_standing(self) -> Option<Standing>
        ensures { result ≡ standing_of self }
    {
        if self.owner == EndpointId::MANAGER {
            None
        } else {
            Some(self.standing)
        }
    }
}
