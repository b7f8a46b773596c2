// SPDX-License-Identifier: MIT OR Apache-2.0
//! The names of arguments, which are the same in the Python package.
ghost use Rattle.std.specs.Prelude.{◌≡◌};
ghost use Rattle.play_trace.specs.Names.{name_text};

use std::fmt;

/// The name of an argument. It prints as a line in words has it.
#[derive(Clone, Copy, Debug, PartialEq, Eq)]
pub enum Name {
    Major,
    Minor,
    Feature,
    Tx,
    Rx,
    Pages,
    Endpoint,
    Uuid,
    CountOnly,
    Partition,
    Context,
    Flags,
    Sender,
    Receiver,
    Payload0,
    Payload1,
    Payload2,
    Payload3,
    Payload4,
    Length,
    Fragment,
    Address,
    Handle,
    Contexts,
    Bits,
}

impl Name {
    /// Returns the text of the name, as a line in words has it.
    pub fn text(self) -> &'static str
        ensures { result.now ≡ name_text self }
    {
        match self {
            Name::Major => "major",
            Name::Minor => "minor",
            Name::Feature => "feature",
            Name::Tx => "tx",
            Name::Rx => "rx",
            Name::Pages => "pages",
            Name::Endpoint => "endpoint",
            Name::Uuid => "uuid",
            Name::CountOnly => "count_only",
            Name::Partition => "partition",
            Name::Context => "context",
            Name::Flags => "flags",
            Name::Sender => "sender",
            Name::Receiver => "receiver",
            Name::Payload0 => "payload0",
            Name::Payload1 => "payload1",
            Name::Payload2 => "payload2",
            Name::Payload3 => "payload3",
            Name::Payload4 => "payload4",
            Name::Length => "length",
            Name::Fragment => "fragment",
            Name::Address => "address",
            Name::Handle => "handle",
            Name::Contexts => "contexts",
            Name::Bits => "bits",
        }
    }
}

impl fmt::Display for Name {
    fn fmt<W: fmt::Write>(&self, f: &mut fmt::Formatter<W>) -> fmt::Result {
        f.write_str(self.text())
    }
}
