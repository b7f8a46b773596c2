// SPDX-License-Identifier: MIT OR Apache-2.0
//! The call on the version of FF-A.
ghost use Rattle.std.specs.Prelude.{◌≡◌};
ghost use Rattle.ffa_model.specs.declared.manifest.Ffa.TheVariants.{V1_2};
ghost use Rattle.ffa_model.specs.Setup.{ffa_version, form_of, is_served_version};
ghost use Rattle.ffa_spmc.specs.Served.{IsReplied};
ghost use Rattle.ffa_physmem.specs.Work.{no_work};

use super::Manager;
use crate::storage::Store;
use ffa_model::{Ffa, Reply, Version};
use ffa_physmem::PhysMem;
use ffa_setup::{form_of, is_version};

impl<M: PhysMem + Drop, S: Store> Manager<M, S> {
    // Serves FFA_VERSION of the runner.
    pub(super) fn ffa_version(&mut self, word: u32) -> Reply
        ensures { IsReplied self.old self.new (ffa_version self.old.state word) no_work result }
    {
        match self.kept.manifest.ffa {
            Ffa::V1_1 => ffa_setup::version(word),
            Ffa::V1_2 => self.keep_version(word),
        }
    }

    // Serves FFA_VERSION on a machine of FF-A 1.2, which keeps the form of the version.
    fn keep_version(&mut self, word: u32) -> Reply
        requires { self.old.state.ffa ≡ V1_2 }
        ensures { IsReplied self.old self.new (ffa_version self.old.state word) no_work result }
    {
        let form = form_of(word);
        if !self.is_served_version(word, form) {
            return ffa_setup::answer(false);
        }
        let runner = self.kept.chain.runner();
        self.kept.versions.keep(runner, form);
        ffa_setup::answer(true)
    }

    // Whether the manager serves this version. Its major number must be 1, and a runner with buffers must name the form
    // that it has.
    fn is_served_version(&self, word: u32, form: Version) -> bool
        requires { form ≡ form_of word }
        ensures { result ≡ is_served_version self.now.state word }
    {
        let runner = self.kept.chain.runner();
        is_version(word) && (!self.kept.buffers.has(runner) || form == self.version())
    }
}
