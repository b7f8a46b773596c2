// SPDX-License-Identifier: MIT OR Apache-2.0
//! The certificate of a machine, run by run, and the audit of its tables by a certificate.
ghost use Rattle.std.specs.Prelude.{◌≡◌, ◌+◌, ◌-◌, ◌<◌, ◌↔◌, IsTrue, None, Some, if◌then◌else◌, length};
ghost use Rattle.std.specs.List.{list_all};
ghost use Rattle.ffa_model.specs.declared.limits.TheConstants.{MOST_ENDPOINTS};
ghost use Rattle.ffa_model.specs.Access.{access, handle_at};
ghost use Rattle.ffa_model.specs.Agreement.{root, roots_of};
ghost use Rattle.ffa_model.specs.Alike.{is_alike, is_same_right};
ghost use Rattle.ffa_model.specs.Certificate.{IsRun, access_by_place, are_as_one, certificate, is_same_handle, last_from, run_from};
ghost use Rattle.ffa_model.specs.Certified.{IsCertified};
ghost use Rattle.ffa_model.specs.Identifiers.{place};
ghost use Rattle.ffa_model.specs.Lists.{listed};
ghost use Rattle.ffa_model.specs.State.{identifiers, is_known};

use super::Machine;
use crate::storage::Store;
use ffa_model::{CertRun, EndpointId, MOST_ENDPOINTS, PageNo, Rights};
use ffa_physmem::PhysMem;
use ffa_tlb::Translations;

impl<M: PhysMem + Drop, T: Translations + Drop, S: Store> Machine<M, T, S> {
    /// Returns the longest run of pages that begins with a page of the RAM and has one owner and one access. All its
    /// pages are in the same open transaction, or in no open transaction. Each endpoint has the same access to all of
    /// them. It allocates no memory.
    #[tactic(auto, unfolding(ffa_model::specs::Certificate::run_from))]
    pub fn cert_run(&self, from: PageNo) -> CertRun
        requires { from.0 < length self.now.state.pages }
        ensures run { IsRun self.now.state from.0 result }
        ensures computed { result ≡ run_from self.now.state from.0 }
    {
        CertRun {
            first: from,
            last: self.last_from(from),
            owner: self.owner_of(from),
            handle: self.handle_at(from),
            access: self.accesses(from),
        }
    }

    /// Whether the machine's tables grant exactly what these runs of pages say, from RAM's first page to its last. It
    /// reads only the RAM's bytes, as `ffa_walker::audit` does. It does not check owners and handles. It is true for
    /// the machine's own certificate: the runs of `cert_run` from page 0 on, one after another. It allocates no memory.
    pub fn audit(&self, runs: &[CertRun]) -> bool
        ensures certified { IsTrue result ↔ IsCertified self.now.ram (roots_of self.now.state) runs.now }
        ensures own { runs.now ≡ certificate self.now.state → IsTrue result }
    {
        self.manager.audit(runs)
    }

    /// Returns the address of the level 1 table that translates an endpoint's accesses. VTTBR_EL2 has this address
    /// while the endpoint runs (DDI 0487, D17.2). Returns `None` if the machine has no such endpoint.
    pub fn root_of(&self, endpoint: EndpointId) -> Option<u32>
        ensures { let known = is_known self.now.state endpoint.0 in
            result ≡ (if known then Some (root self.now.state (place endpoint.0)) else None) }
    {
        if endpoint.is_among(self.endpoints()) {
            Some(self.root_at(endpoint.place()))
        } else {
            None
        }
    }

    /// Returns the address of the level 1 table of the endpoint at a place. Places are counted from 0.
    pub fn root_at(&self, place: usize) -> u32
        requires { place < length self.now.state.parties }
        ensures { result ≡ root self.now.state place }
    {
        self.manager.root_at(place)
    }

    // Whether two pages have the same owner, and each endpoint has the same access to both.
    #[tactic(auto, unfolding(ffa_model::specs::Alike::is_alike))]
    fn is_alike(&self, page: PageNo, other: PageNo) -> bool
        requires page { page.0 < length self.now.state.pages }
        requires other { other.0 < length self.now.state.pages }
        ensures { result ≡ is_alike self.now.state page.0 other.0 }
    {
        self.owner_of(page) == self.owner_of(other) && self.has_same_accesses(page, other)
    }

    fn has_same_accesses(&self, page: PageNo, other: PageNo) -> bool
        ensures { result ≡ list_all (λ e.
            is_same_right (access self.now.state e page.0) (access self.now.state e other.0))
            (identifiers self.now.state) }
    {
        for place in 0..self.endpoints() {
            let endpoint = EndpointId::at(place);
            if !is_same_right(self.access(endpoint, page), self.access(endpoint, other)) {
                return false;
            }
        }
        true
    }

    /// Returns the handle of the open transaction that has a page of the RAM. Returns `None` if no open transaction has
    /// it.
    pub fn handle_at(&self, page: PageNo) -> Option<u64>
        requires { page.0 < length self.now.state.pages }
        ensures { result ≡ handle_at self.now.state page.0 }
    {
        self.manager.handle_at(page)
    }

    // Whether two pages are alike, and are in the same open transaction or both in no open transaction.
    #[tactic(auto, unfolding(ffa_model::specs::Certificate::are_as_one))]
    fn are_as_one(&self, page: PageNo, other: PageNo) -> bool
        requires page { page.0 < length self.now.state.pages }
        requires other { other.0 < length self.now.state.pages }
        ensures { result ≡ are_as_one self.now.state page.0 other.0 }
    {
        self.is_alike(page, other) && is_same_handle(self.handle_at(page), self.handle_at(other))
    }

    // Returns the last page of the run that goes on from a page.
    fn last_from(&self, from: PageNo) -> PageNo
        requires { from.0 < length self.now.state.pages }
        ensures { result.0 ≡ last_from self.now.state from.0 (length self.now.state.pages - (from.0 + 1)) }
    {
        let pages = self.ram().pages();
        let mut last = from.0;
        while last + 1 < pages && self.are_as_one(PageNo(last), PageNo(last + 1)) {
            last += 1;
        }
        PageNo(last)
    }

    // Returns the access of each endpoint to a page, by place.
    fn accesses(&self, page: PageNo) -> [Option<Rights>; MOST_ENDPOINTS]
        ensures { result ≡ listed MOST_ENDPOINTS (access_by_place self.now.state page.0) }
    {
        let mut accesses = [None; MOST_ENDPOINTS];
        for place in 0..self.endpoints() {
            accesses[place] = self.access(EndpointId::at(place), page);
        }
        accesses
    }
}

fn is_same_right(right: Option<Rights>, other: Option<Rights>) -> bool
    ensures { result ≡ is_same_right right other }
{
    right == other
}

fn is_same_handle(handle: Option<u64>, other: Option<u64>) -> bool
    ensures { result ≡ is_same_handle handle other }
{
    handle == other
}
