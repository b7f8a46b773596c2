// SPDX-License-Identifier: MIT OR Apache-2.0
//! The kinds of messages that each endpoint sends and receives.
ghost use Rattle.std.specs.Prelude.{◌≡◌, map};
ghost use Rattle.ffa_model.specs.First.{party_of};
ghost use Rattle.ffa_model.specs.State.{has_property, properties_among};

use bitflags::Flags;
use ffa_model::{EndpointId, Manifest, Properties};

// Returns the properties of an endpoint. An identifier that names no endpoint is read at its place, so each identifier
// up to 0x8000 has the normal world's properties. If the manifest has no such place, there are no properties.
fn properties_of(manifest: &Manifest, endpoint: EndpointId) -> Properties
    ensures { result.0 ≡ properties_among (map party_of manifest.now.endpoints.items) endpoint.0 }
{
    let endpoints = manifest.endpoints.as_slice();
    if endpoint.place() < endpoints.len() {
        endpoints[endpoint.place()].properties
    } else {
        Properties::empty()
    }
}

/// Whether an endpoint sends and receives indirect messages.
pub fn has_indirect_messages(manifest: &Manifest, endpoint: EndpointId) -> bool
    ensures { result ≡ has_property (map party_of manifest.now.endpoints.items) endpoint.0 2 }
{
    properties_of(manifest, endpoint).contains(Properties::INDIRECT_MESSAGES)
}

/// Whether an endpoint sends direct requests.
pub fn sends_direct_requests(manifest: &Manifest, endpoint: EndpointId) -> bool
    ensures { result ≡ has_property (map party_of manifest.now.endpoints.items) endpoint.0 1 }
{
    properties_of(manifest, endpoint).contains(Properties::SENDS_DIRECT_REQUESTS)
}

/// Whether an endpoint receives direct requests.
pub fn receives_direct_requests(manifest: &Manifest, endpoint: EndpointId) -> bool
    ensures { result ≡ has_property (map party_of manifest.now.endpoints.items) endpoint.0 0 }
{
    properties_of(manifest, endpoint).contains(Properties::RECEIVES_DIRECT_REQUESTS)
}
