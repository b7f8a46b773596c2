// SPDX-License-Identifier: MIT OR Apache-2.0
//! A machine for which reasons are found.
ghost use Rattle.std.specs.Prelude.{◌≡◌};
ghost use Rattle.ffa_model.specs.Access.{access};
ghost use Rattle.ffa_model.specs.State.{version_of};

use ffa_model::{EndpointId, Ffa, PageNo, Rights, Version};
use ffa_physmem::PhysMem;
use ffa_spmc::{Machine, Parts, Store};
use ffa_tlb::Translations;
use std::marker::Model;

/// A machine, with its parts. Contracts see its state.
#[derive(Drop)]
pub(crate) struct Reasons<'a, M: PhysMem + Drop, T: Translations + Drop, S: Store> {
    pub(crate) machine: &'a Machine<M, T, S>,
    pub(crate) parts: Parts<'a, M, S>,
}

impl<'a, M: PhysMem + Drop, T: Translations + Drop, S: Store> Model for Reasons<'a, M, T, S> {
    ghost use Rattle.ffa_model.specs.State.{State};
    ghost use Rattle.ffa_model.specs.Codes.{coded_state};

    ghost Value = { State };

    ghost coded = { coded_state };

    ghost use Rattle.ffa_spmc.specs.Lent.{AreParts, lent_parts};

    ghost view = { λ r. r.machine.now.state };

    ghost invariant = { λ r. AreParts (lent_parts M.ram r.parts) r.machine.now.state };
}

impl<'a, M: PhysMem + Drop, T: Translations + Drop, S: Store> Reasons<'a, M, T, S> {
    pub(crate) fn of(machine: &'a Machine<M, T, S>) -> Reasons<'a, M, T, S>
        ensures { result ≡ machine.now.state }
    {
        Reasons {
            machine,
            parts: machine.parts(),
        }
    }

    // Returns the endpoint that runs.
    pub(crate) fn runner(&self) -> EndpointId
        ensures { result.0 ≡ self.now.runner }
    {
        self.machine.runner()
    }

    // Returns the right of an endpoint to a page. Returns `None` outside RAM, and for an endpoint that the machine does
    // not have.
    pub(crate) fn access(&self, endpoint: EndpointId, page: PageNo) -> Option<Rights>
        ensures { result ≡ access self.now endpoint.0 page.0 }
    {
        self.machine.access(endpoint, page)
    }

    // Returns the version of FF-A that the machine serves.
    pub(crate) fn ffa(&self) -> Ffa
        ensures { result ≡ self.now.ffa }
    {
        self.parts.manifest.ffa
    }

    // Returns the form in which the runner writes and reads descriptors.
    pub(crate) fn version(&self) -> Version
        ensures { result ≡ version_of self.now self.now.runner }
    {
        self.parts.versions.of_endpoint(self.parts.chain.runner())
    }
}
