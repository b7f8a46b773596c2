// SPDX-License-Identifier: MIT OR Apache-2.0
//! Chooses the form of a descriptor by the manifest of a machine.
ghost use Rattle.std.specs.Prelude.{◌≡◌, option_map};
ghost use Rattle.play_arguments.specs.Commands.{words_of};
ghost use Rattle.play_report.specs.Versions.{caller_of, manifest_version, usual_form, version_text, versioned};

use crate::members::{read_asker, read_identifier};
use ffa_model::{EndpointId, Manifest, Version};
use play_arguments::DescriptorWords;

/// Returns the words with the form of the caller's version in a manifest, unless they give another form. If the
/// manifest does not have the caller, the words stay as they are.
#[tactic(auto, unfolding(crate::specs::Versions::versioned))]
pub fn words_for<'a>(words: DescriptorWords<'a>, manifest: &Manifest) -> DescriptorWords<'a>
    ensures { words_of result ≡ versioned manifest.now.endpoints.items (words_of words.entry) }
{
    let form = match words.form {
        Some(form) => Some(form),
        None => usual_form(&words, manifest),
    };
    DescriptorWords { form, ..words }
}

// Returns the form of the caller, if the words say who calls and the manifest has this endpoint.
#[tactic(auto, unfolding(crate::specs::Versions::usual_form))]
fn usual_form(words: &DescriptorWords<'_>, manifest: &Manifest) -> Option<&'static str>
    ensures { option_map (λ s. s.now) result ≡ usual_form manifest.now.endpoints.items (words_of words.now) }
{
    Some(version_text(manifest_version(caller(words)?, manifest)?))
}

// Returns the endpoint that calls with a descriptor, if the words say it.
#[tactic(auto, unfolding(crate::specs::Versions::caller_of))]
fn caller(words: &DescriptorWords<'_>) -> Option<EndpointId>
    ensures { result ≡ caller_of (words_of words.now) }
{
    match words.kind {
        "reclaim" => None,
        "retrieve" | "relinquish" => Some(read_asker(words.to?)?.endpoint),
        _ => read_identifier(words.from?),
    }
}

#[tactic(auto, unfolding(crate::specs::Versions::manifest_version))]
fn manifest_version(endpoint: EndpointId, manifest: &Manifest) -> Option<Version>
    ensures { result ≡ manifest_version manifest.now.endpoints.items endpoint.0 }
{
    let endpoints = manifest.endpoints.as_slice();
    match endpoints.get(endpoint.place()) {
        Some(party) if endpoint.is_among(endpoints.len()) => Some(party.version),
        _ => None,
    }
}

fn version_text(version: Version) -> &'static str
    ensures { result.now ≡ version_text version }
{
    match version {
        Version::Compact => "compact",
        Version::V1_1 => "1.1",
        Version::V1_2 => "1.2",
    }
}
