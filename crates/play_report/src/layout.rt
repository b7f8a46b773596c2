// SPDX-License-Identifier: MIT OR Apache-2.0
//! The addresses of a machine's tables.
ghost use Rattle.std.specs.Prelude.{◌≡◌, ◌+◌, ◌^◌, ◌<◌, [], ◌++◌};
ghost use Rattle.arrayvec.specs.ArrayVec.{array_vec_len};
ghost use Rattle.ffa_model.specs.declared.limits.TheConstants.{MOST_ENDPOINTS};
ghost use Rattle.ffa_manifest.specs.Document.{parts_of};
ghost use Rattle.play_report.specs.Layouts.{endpoint_line, layout_text};

use ffa_model::{EndpointId, Manifest};
use play_trace::text::{self, CAPACITY, Text};

/// Appends a line for each endpoint to an empty text. The line has the addresses of the endpoint's level 1 page, its
/// level 2 page and its first level 3 page.
pub fn push_layout(text: &mut Text, manifest: &Manifest)
    requires { text.old.items ≡ [] }
    ensures { text.new.items ≡ layout_text (parts_of manifest.now) }
{
    for place in 0..manifest.endpoints.len() {
        push_endpoint(text, place, u64::from(manifest.root(place)));
    }
}

#[tactic(auto, unfolding(crate::specs::Layouts::endpoint_line))]
fn push_endpoint(text: &mut Text, place: usize, root: u64)
    requires place { place < MOST_ENDPOINTS }
    requires root { root < 2 ^ 32 }
    requires room { array_vec_len text.old + 32 < CAPACITY }
    ensures items { text.new.items ≡ text.old.items ++ endpoint_line place root }
    ensures len { array_vec_len text.new ≡ array_vec_len text.old + 32 }
{
    text::push_digits(text, 4, u64::from(EndpointId::at(place).0));
    text::push_hex(text, 8, root);
    text::push_hex(text, 8, root + 4096);
    text::push_hex(text, 8, root + 8192);
    text.push(b'\n');
}
