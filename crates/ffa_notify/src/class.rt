// SPDX-License-Identifier: MIT OR Apache-2.0
//! The classes of a receiver's bits.
ghost use Rattle.std.specs.Prelude.{◌≡◌, ◌<◌};
ghost use Rattle.ffa_model.specs.Notifications.{class_of};
ghost use Rattle.ffa_notify.specs.Stored.{class_number};

use ffa_model::EndpointId;

/// The class of a notification bit, by who sets the bit.
#[derive(Clone, Copy, PartialEq, Eq)]
pub enum Class {
    /// Partitions set the bits of this class.
    Partitions,
    /// The normal world sets the bits of this class.
    NormalWorld,
    /// The manager sets the bits of this class.
    Manager,
}

impl Class {
    /// Returns the class of the bits that an endpoint sets.
    pub fn of(sender: EndpointId) -> Class
        ensures { class_number result ≡ class_of sender.0 }
    {
        if sender == EndpointId::NORMAL_WORLD {
            Class::NormalWorld
        } else {
            Class::Partitions
        }
    }

    // Returns the number of the class, by which FFA_NOTIFICATION_GET selects it.
    pub(crate) fn number(self) -> usize
        ensures value { result ≡ class_number self }
        ensures few { result < 3 }
    {
        match self {
            Class::Partitions => 0,
            Class::NormalWorld => 1,
            Class::Manager => 2,
        }
    }
}
