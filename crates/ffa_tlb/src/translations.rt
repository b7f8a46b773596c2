// SPDX-License-Identifier: MIT OR Apache-2.0
//! The trait of a cache of leaves, and the cache that holds no leaves.
ghost use Rattle.std.specs.Prelude.{◌≡◌, List, []};
ghost use Rattle.ffa_tlb.specs.Lookups.{is_pair, lookup, IsFilled, IsForgotten};
ghost use Rattle.ffa_tlb.specs.declared.translations.Entry.{Entry};

use ffa_model::{EndpointId, Leaf, PageNo};

/// A leaf that a cache holds for a page of an endpoint: the leaf of the page's first address.
#[derive(Clone, Copy, PartialEq, Eq)]
pub struct Entry {
    pub endpoint: EndpointId,
    pub page: PageNo,
    pub leaf: Leaf,
}

impl Entry {
    /// Whether the cache holds this leaf for this page of this endpoint.
    pub fn is_of(&self, endpoint: EndpointId, page: PageNo) -> bool
        ensures { result ≡ is_pair self.now.endpoint.0 self.now.page.0 endpoint.0 page.0 }
    {
        self.endpoint == endpoint && self.page == page
    }
}

/// A cache of leaves, each for a page of an endpoint (DDI 0487, D8). At a `fill` it may lose leaves that it holds. But
/// it returns no leaf that it was not given, and no leaf that was forgotten since.
pub trait Translations {
    /// The entries that the cache holds. If two entries are for one page of one endpoint, the first counts.
    ghost entries: { Self → List Entry };

    /// Returns the leaf that the cache holds for a page of an endpoint, or `None`.
    fn lookup(&self, endpoint: EndpointId, page: PageNo) -> Option<Leaf>
        ensures { result ≡ lookup (entries self.now) endpoint.0 page.0 };

    /// Gives the cache a leaf for a page of an endpoint, instead of the one before. The cache may lose any leaf, also
    /// this one.
    fn fill(&mut self, endpoint: EndpointId, page: PageNo, leaf: Leaf)
        ensures { IsFilled (entries self.old) (entries self.new) endpoint.0 page.0 leaf };

    /// Removes the leaf for a page of an endpoint. Every other leaf stays.
    fn forget(&mut self, endpoint: EndpointId, page: PageNo)
        ensures { IsForgotten (entries self.old) (entries self.new) endpoint.0 page.0 };

    /// Removes all leaves.
    fn clear(&mut self)
        ensures { entries self.new ≡ [] };
}

/// The cache that holds nothing: each access walks.
#[derive(Clone, Copy, Default)]
pub struct NoTlb;

impl Translations for NoTlb {
    ghost entries = { λ _. [] };

    #[inline(always)]
    fn lookup(&self, _endpoint: EndpointId, _page: PageNo) -> Option<Leaf> {
        None
    }

    #[inline(always)]
    fn fill(&mut self, _endpoint: EndpointId, _page: PageNo, _leaf: Leaf) {}

    #[inline(always)]
    fn forget(&mut self, _endpoint: EndpointId, _page: PageNo) {}

    #[inline(always)]
    fn clear(&mut self) {}
}
