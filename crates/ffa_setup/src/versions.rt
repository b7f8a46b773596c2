// SPDX-License-Identifier: MIT OR Apache-2.0
//! The form in which each endpoint writes and reads.
ghost use Rattle.std.specs.Prelude.{◌≡◌, ◌<◌, length, map, slice_index_or, slice_set};
ghost use Rattle.ffa_model.specs.declared.endpoint.Version.TheVariants.{V1_1};
ghost use Rattle.ffa_model.specs.Identifiers.{place};
ghost use Rattle.ffa_model.specs.Setup.{form_of};

use arrayvec::ArrayVec;
use ffa_model::{EndpointId, MOST_ENDPOINTS, Manifest, Version};
use std::marker::Model;

/// The form in which each endpoint writes and reads descriptors. The value has no memory besides itself.
#[derive(Drop)]
pub struct Versions {
    entries: ArrayVec<Version, MOST_ENDPOINTS>,
}

impl Model for Versions {
    ghost use Rattle.std.specs.Prelude.{List};
    ghost use Rattle.ffa_model.specs.declared.endpoint.Version as versions;

    ghost Value = { List versions.Version };

    ghost view = { λ v. v.entries.items };
}

impl Versions {
    /// Returns the forms that a manifest gives to its endpoints.
    pub fn of(manifest: &Manifest) -> Versions
        ensures { result ≡ map (λ e. e.version) manifest.now.endpoints.items }
    {
        let mut entries = ArrayVec::new();
        for endpoint in manifest.endpoints.as_slice() {
            entries.push(endpoint.version);
        }
        Versions { entries }
    }

    /// Returns a copy of the forms. It allocates nothing.
    pub fn copy(&self) -> Versions
        ensures { result ≡ self.now }
    {
        let mut entries = ArrayVec::new();
        for entry in self.entries.as_slice() {
            entries.push(*entry);
        }
        Versions { entries }
    }

    /// Returns the form of an endpoint. For an identifier of no endpoint, it returns the form at the identifier's place
    /// in the manifest. Returns the form of FF-A 1.1 if no endpoint has the place.
    pub fn of_endpoint(&self, endpoint: EndpointId) -> Version
        ensures { result ≡ slice_index_or self.now (place endpoint.0) V1_1 }
    {
        let entries = self.entries.as_slice();
        if endpoint.place() < entries.len() {
            entries[endpoint.place()]
        } else {
            Version::V1_1
        }
    }

    /// Sets the form in which an endpoint writes and reads from now on.
    pub fn keep(&mut self, endpoint: EndpointId, version: Version)
        requires { place endpoint.0 < length self.old }
        ensures { self.new ≡ slice_set self.old (place endpoint.0) version }
    {
        self.entries.as_mut_slice()[endpoint.place()] = version;
    }
}

/// Returns the form of the version that a word of FFA_VERSION names, by its minor number. FF-A 1.0 has the compact
/// form, and versions above 1.2 have the form of FF-A 1.2.
pub fn form_of(word: u32) -> Version
    ensures { result ≡ form_of word }
{
    match word % 0x1_0000 {
        0 => Version::Compact,
        1 => Version::V1_1,
        _ => Version::V1_2,
    }
}
