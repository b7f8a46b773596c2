// SPDX-License-Identifier: MIT OR Apache-2.0
//! The manager's data on pages and tables that a certificate is about.
ghost use Rattle.std.specs.Prelude.{true, ◌≡◌, ◌<◌, ◌↔◌, All, IsTrue, length};
ghost use Rattle.ffa_model.specs.Access.{handle_at};
ghost use Rattle.ffa_model.specs.Agreement.{root, roots_of};
ghost use Rattle.ffa_model.specs.Certificate.{certificate};
ghost use Rattle.ffa_model.specs.Certified.{IsCertified};
ghost use Rattle.ffa_model.specs.Walk.{is_page_address};

use super::Manager;
use crate::storage::Store;
use arrayvec::ArrayVec;
use ffa_model::{CertRun, MOST_ENDPOINTS, PageNo};
use ffa_physmem::PhysMem;

impl<M: PhysMem + Drop, S: Store> Manager<M, S> {
    // Returns the handle of the open transaction that has a page of the RAM. Returns `None` if no open transaction has
    // it.
    pub(crate) fn handle_at(&self, page: PageNo) -> Option<u64>
        requires { page.0 < length self.now.state.pages }
        ensures { result ≡ handle_at self.now.state page.0 }
    {
        self.kept.pool.handle_at(&self.kept.pages, page)
    }

    // Returns the address of the level 1 table of the endpoint at a place.
    pub(crate) fn root_at(&self, place: usize) -> u32
        requires { place < length self.now.state.parties }
        ensures value { result ≡ root self.now.state place }
        ensures page { is_page_address self.now.ram result ≡ true }
    {
        self.kept.manifest.root(place)
    }

    // Returns the address of the level 1 table of each endpoint.
    fn roots(&self) -> ArrayVec<u32, MOST_ENDPOINTS>
        ensures value { result.items ≡ roots_of self.now.state }
        ensures pages { All (λ root. is_page_address self.now.ram root ≡ true) result.items }
    {
        let mut roots = ArrayVec::new();
        for place in 0..self.endpoints() {
            roots.push(self.root_at(place));
        }
        roots
    }

    // Whether the tables grant exactly what these runs of pages say. It is true for the state's own certificate.
    pub(crate) fn audit(&self, runs: &[CertRun]) -> bool
        ensures certified { IsTrue result ↔ IsCertified self.now.ram (roots_of self.now.state) runs.now }
        ensures own { runs.now ≡ certificate self.now.state → IsTrue result }
    {
        let roots = self.roots();
        ffa_walker::audit(&self.ram, roots.as_slice(), runs)
    }
}
