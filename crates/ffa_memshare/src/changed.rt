// SPDX-License-Identifier: MIT OR Apache-2.0
//! The reports of changed access: the pages of a call on memory, and the endpoint whose access to them changed.
ghost use Rattle.std.specs.Prelude.{◌≡◌, Some, None};
ghost use Rattle.std.specs.Option.{option_copied};
ghost use Rattle.ffa_memshare.specs.Changed.{changed_sender};

use crate::draft::Draft;
use crate::page_ranges::PageRanges;
use ffa_model::{EndpointId, Kind};
use std::marker::Model;

/// A report of changed access: the pages that a call on memory is about, and the endpoint whose access to them changed.
#[derive(Drop)]
pub struct Changed {
    /// The ranges of the transaction.
    pub ranges: PageRanges,
    /// The endpoint whose access to the pages changed, or `None` if no endpoint's access changed.
    pub endpoint: Option<EndpointId>,
}

impl Changed {
    fn copy(&self) -> Changed
        ensures { result ≡ self.now }
    {
        Changed {
            ranges: self.ranges.copy(),
            endpoint: self.endpoint,
        }
    }
}

/// The result that a successful call on memory returns to its caller.
// If the four calls on memory returned a `Reply`, each of them would need a promise that it is not an error.
#[derive(Clone, Copy, PartialEq, Eq)]
pub enum Value {
    /// The call returns only success.
    Nothing,
    /// The handle of the transaction that the call opened.
    Handle(u64),
    /// The size of the response in the caller's RX, in bytes.
    Size(u32),
}

// The last report of changed access, or no report. A call fills the report in place, because its ranges are costly to
// move. Contracts see the report.
#[derive(Drop)]
pub(crate) struct Told {
    is_told: bool,
    changed: Changed,
}

impl Model for Told {
    ghost use Rattle.std.specs.Prelude.{Option};
    ghost use Rattle.ffa_memshare.specs.News.{news_of};
    ghost use Rattle.ffa_memshare.specs.declared.changed.Changed.{Changed};

    ghost Value = { Option Changed };

    ghost view = { λ n. news_of n.is_told n.changed };
}

impl Told {
    // Returns a value without a report.
    fn none() -> Told
        ensures { result ≡ None }
    {
        Told {
            is_told: false,
            changed: Changed {
                ranges: PageRanges::none(),
                endpoint: None,
            },
        }
    }

    // Makes a report that the access of an endpoint to the pages of these ranges changed. If `endpoint` is `None`, no
    // endpoint's access changed. The new report replaces the last one.
    #[inline(always)]
    pub(crate) fn tell(&mut self, ranges: &PageRanges, endpoint: Option<EndpointId>)
        ensures { self.new ≡ Some (record { ranges = ranges.now; endpoint = endpoint }) }
    {
        self.is_told = true;
        self.changed.ranges.fill(ranges);
        self.changed.endpoint = endpoint;
    }

    // Returns the report. The report stays.
    fn last(&self) -> Option<&Changed>
        ensures { option_copied result ≡ self.now }
    {
        if self.is_told {
            Some(&self.changed)
        } else {
            None
        }
    }

    // Returns a copy, with the report.
    pub(crate) fn copy(&self) -> Told
        ensures { result ≡ self.now }
    {
        Told {
            is_told: self.is_told,
            changed: self.changed.copy(),
        }
    }

    // Returns the report, and removes it.
    fn take(&mut self) -> Option<Changed>
        ensures told { result ≡ self.old }
        ensures none { self.new ≡ None }
    {
        if !self.is_told {
            return None;
        }
        self.is_told = false;
        Some(self.changed.copy())
    }
}

/// The last report of changed access, or no report. The value also has room in which calls read descriptors. Contracts
/// see the report.
#[derive(Drop)]
pub struct News {
    pub(crate) told: Told,
    pub(crate) draft: Draft,
}

impl Model for News {
    ghost use Rattle.std.specs.Prelude.{Option};
    ghost use Rattle.ffa_memshare.specs.declared.changed.Changed.{Changed};

    ghost Value = { Option Changed };

    ghost view = { λ n. n.told };
}

impl News {
    /// Returns a value without a report.
    pub fn none() -> News
        ensures { result ≡ None }
    {
        News {
            told: Told::none(),
            draft: Draft::none(),
        }
    }

    /// Returns the report. The report stays.
    pub fn last(&self) -> Option<&Changed>
        ensures { option_copied result ≡ self.now }
    {
        self.told.last()
    }

    /// Returns the report, and removes it.
    pub fn take(&mut self) -> Option<Changed>
        ensures told { result ≡ self.old }
        ensures none { self.new ≡ None }
    {
        self.told.take()
    }
}

// Returns the endpoint whose access a send or a reclaim changes. It is the sender, or `None` for a share, because the
// sender of a share keeps its right.
pub(crate) fn changed_sender(kind: Kind, sender: EndpointId) -> Option<EndpointId>
    ensures { result ≡ changed_sender kind sender.0 }
{
    match kind {
        Kind::Share => None,
        Kind::Lend | Kind::Donate => Some(sender),
    }
}
