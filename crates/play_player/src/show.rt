// SPDX-License-Identifier: MIT OR Apache-2.0
//! The table of accesses.
ghost use Rattle.std.specs.Prelude.{◌≡◌, ◌+◌, ◌<◌, ◌≤◌, [], ◌++◌, length};
ghost use Rattle.std.specs.List.{flat_map, list_all};
ghost use Rattle.arrayvec.specs.ArrayVec.{array_vec_len};
ghost use Rattle.ffa_model.specs.declared.limits.TheConstants.{MOST_ENDPOINTS};
ghost use Rattle.ffa_model.specs.Identifiers.{identifier};
ghost use Rattle.ffa_model.specs.State.{identifiers};
ghost use Rattle.ffa_model.specs.Access.{access};
ghost use Rattle.ffa_model.specs.Alike.{is_alike, is_same_right};
ghost use Rattle.play_trace.specs.TraceText.{spaced, rights_text, ends_run, run_text, runner_text, show_text};
ghost use Rattle.play_trace.specs.Output.{Writes};

use ffa_model::{Address, EndpointId, PageNo, Rights};
use ffa_playable::Playable;
use play_trace::output::{self, PlayError};
use play_trace::text::{self, CAPACITY, Text};
use std::io::Write;

/// Writes the runner, and the longest runs of pages that have one owner and one access of each endpoint.
pub fn write_show<P: Playable, W: Write>(machine: &P, writer: &mut W) -> Result<(), PlayError>
    ensures { Writes (W.contents writer.old) (W.contents writer.new) (show_text (P.bench machine.now).state) result }
{
    let mut text = Text::new();
    push_runner(&mut text, machine);
    output::write_text(writer, text.as_slice())?;
    let mut first = 0;
    for last in 0..machine.ram_pages() {
        if ends_run(machine, last) {
            text.clear();
            push_run(&mut text, machine, first, last);
            output::write_text(writer, text.as_slice())?;
            first = last + 1;
        }
    }
    Ok(())
}

#[tactic(auto, unfolding(play_trace::specs::TraceText::runner_text))]
fn push_runner<P: Playable>(text: &mut Text, machine: &P)
    requires { text.old.items ≡ [] }
    ensures { text.new.items ≡ runner_text (P.bench machine.now).state }
{
    text::push_word(text, b"runner");
    text::push_hex(text, 4, u64::from(machine.runner().0));
    text.push(b'\n');
}

// Appends the run of pages from `first` to `last` to no text yet.
#[tactic(auto, unfolding(play_trace::specs::TraceText::run_text))]
fn push_run<P: Playable>(text: &mut Text, machine: &P, first: u32, last: u32)
    requires empty { text.old.items ≡ [] }
    requires first { first < length (P.bench machine.now).state.pages }
    requires last { last < length (P.bench machine.now).state.pages }
    ensures { text.new.items ≡ run_text (P.bench machine.now).state (first, last) }
{
    let Address(base) = machine.ram_base();
    let owner = machine.owner_of(PageNo(first));
    text::push_word(text, b"pages");
    text::push_hex(text, 8, u64::from(base + 4096 * first));
    text::push_hex(text, 8, u64::from(base + 4096 * last + 4095));
    text::push_hex(text, 4, u64::from(owner.0));
    push_accesses(text, machine, PageNo(first));
    text.push(b'\n');
}

// Appends the access of each endpoint to a page.
fn push_accesses<P: Playable>(text: &mut Text, machine: &P, page: PageNo)
    requires { array_vec_len text.old ≤ 64 }
    ensures items { let s = (P.bench machine.now).state in
        text.new.items ≡ text.old.items ++ flat_map (λ e. spaced (rights_text (access s e page.0))) (identifiers s) }
    ensures room { array_vec_len text.new < CAPACITY }
{
    for place in 0..machine.endpoints() {
        text::push_right(text, access(machine, place, page));
    }
}

// The access of the endpoint at a place in the manifest.
fn access<P: Playable>(machine: &P, place: usize, page: PageNo) -> Option<Rights>
    requires { place < MOST_ENDPOINTS }
    ensures { result ≡ access (P.bench machine.now).state (identifier place) page.0 }
{
    machine.access(EndpointId::at(place), page)
}

// Whether a run of pages ends with this one.
fn ends_run<P: Playable>(machine: &P, page: u32) -> bool
    requires { page < length (P.bench machine.now).state.pages }
    ensures { result ≡ ends_run (P.bench machine.now).state page }
{
    let pages = machine.ram_pages();
    page + 1 == pages || !is_alike(machine, PageNo(page), PageNo(page + 1))
}

// Whether two pages have the same owner, and each endpoint has the same access to both.
#[tactic(auto, unfolding(ffa_model::specs::Alike::is_alike))]
fn is_alike<P: Playable>(machine: &P, page: PageNo, other: PageNo) -> bool
    requires page { page.0 < length (P.bench machine.now).state.pages }
    requires other { other.0 < length (P.bench machine.now).state.pages }
    ensures { result ≡ is_alike (P.bench machine.now).state page.0 other.0 }
{
    machine.owner_of(page) == machine.owner_of(other) && has_same_accesses(machine, page, other)
}

fn has_same_accesses<P: Playable>(machine: &P, page: PageNo, other: PageNo) -> bool
    ensures { let s = (P.bench machine.now).state in
        result ≡ list_all (λ e. is_same_right (access s e page.0) (access s e other.0)) (identifiers s) }
{
    for place in 0..machine.endpoints() {
        if !is_same_right(access(machine, place, page), access(machine, place, other)) {
            return false;
        }
    }
    true
}

fn is_same_right(right: Option<Rights>, other: Option<Rights>) -> bool
    ensures { result ≡ is_same_right right other }
{
    right == other
}
