// SPDX-License-Identifier: MIT OR Apache-2.0
//! The certificate of the machine, and whether its tables give it.
ghost use Rattle.std.specs.Prelude.{◌≡◌, ◌+◌, ◌*◌, ◌<◌, ◌≤◌, [], ◌++◌, length, take, codes, IfOk};
ghost use Rattle.std.specs.List.{flat_map, range_with_len};
ghost use Rattle.arrayvec.specs.ArrayVec.{array_vec_len};
ghost use Rattle.ffa_model.specs.declared.limits.TheConstants.{MOST_ENDPOINTS};
ghost use Rattle.ffa_model.specs.Certificate.{certificate};
ghost use Rattle.play_trace.specs.TraceText.{audit_text, cert_run_text, cert_text, ended, handle_text, rights_text, root_text, spaced};
ghost use Rattle.play_trace.specs.Output.{Writes, WritesIfRoom};

use ffa_model::{CertRun, EndpointId, PageNo};
use ffa_playable::Playable;
use play_trace::output::{self, PlayError};
use play_trace::text::{self, CAPACITY, Text};
use std::alloc::{AllocError, Allocator};
use std::io::Write;

/// Writes the machine's certificate with the addresses of its level 1 tables, and whether the tables give it. The runs
/// are put together first: where there is no memory for them, nothing is written.
pub(crate) fn write_audit<P: Playable, A: Allocator, W: Write>(
    machine: &P,
    alloc: A,
    writer: &mut W,
) -> Result<(), PlayError>
    ensures { WritesIfRoom (W.contents writer.old) (W.contents writer.new) (audit_text (P.bench machine.now).state) result }
{
    match runs(machine, alloc) {
        Ok(runs) => write_certificate(machine, runs.as_slice(), writer),
        Err(_) => Err(PlayError::NoMemory),
    }
}

// The runs of the machine's pages, one behind the other: its certificate.
fn runs<P: Playable, A: Allocator>(machine: &P, alloc: A) -> Result<Vec<CertRun, A>, AllocError>
    ensures { IfOk result (λ runs. runs.items ≡ certificate (P.bench machine.now).state) }
{
    let mut runs = Vec::new(alloc);
    let pages = machine.ram_pages();
    let mut from = 0;
    while from < pages {
        let run = machine.cert_run(PageNo(from));
        runs.push(run)?;
        from = run.last.0 + 1;
    }
    Ok(runs)
}

// Writes the machine's certificate, whose runs these are.
fn write_certificate<P: Playable, W: Write>(
    machine: &P,
    runs: &[CertRun],
    writer: &mut W,
) -> Result<(), PlayError>
    requires { runs.now ≡ certificate (P.bench machine.now).state }
    ensures { Writes (W.contents writer.old) (W.contents writer.new) (audit_text (P.bench machine.now).state) result }
{
    let mut text = Text::new();
    push_cert(&mut text, machine);
    push_roots(&mut text, machine);
    output::write_text(writer, text.as_slice())?;
    write_runs(machine, runs, writer)?;
    output::write_text(writer, verdict(machine, runs))
}

// Writes runs of pages.
fn write_runs<P: Playable, W: Write>(
    machine: &P,
    runs: &[CertRun],
    writer: &mut W,
) -> Result<(), PlayError>
    ensures { let held = W.contents writer.old in
        let holds = W.contents writer.new in
        Writes held holds (flat_map (cert_run_text (P.bench machine.now).state) runs.now) result }
{
    let mut text = Text::new();
    for run in runs {
        text.clear();
        push_run(&mut text, machine, run);
        output::write_text(writer, text.as_slice())?;
    }
    Ok(())
}

// The last line of the machine's certificate.
fn verdict<P: Playable>(machine: &P, runs: &[CertRun]) -> &'static [u8]
    requires { runs.now ≡ certificate (P.bench machine.now).state }
    ensures { result.now ≡ ended (codes "agrees") }
{
    if machine.audit(runs) {
        b"agrees\n"
    } else {
        b"differs\n"
    }
}

// Appends the first line to no text yet.
#[tactic(auto, unfolding(play_trace::specs::TraceText::cert_text))]
fn push_cert<P: Playable>(text: &mut Text, machine: &P)
    requires { text.old.items ≡ [] }
    ensures items { text.new.items ≡ cert_text (P.bench machine.now).state }
    ensures len { array_vec_len text.new ≡ 25 }
{
    let base = u64::from(machine.ram_base().0);
    let last = u64::from(machine.ram_pages().saturating_sub(1));
    text::push_word(text, b"cert");
    text::push_hex(text, 8, base);
    text::push_hex(text, 8, base + 4096 * last + 4095);
    text::push_hex(text, 1, machine.endpoints() as u64);
    text.push(b'\n');
}

// Appends the line of each endpoint's level 1 table.
fn push_roots<P: Playable>(text: &mut Text, machine: &P)
    requires { array_vec_len text.old ≤ 64 }
    ensures { let s = (P.bench machine.now).state in
        text.new.items ≡ text.old.items ++ flat_map (root_text s) (range_with_len 0 (length s.parties)) }
{
    for place in 0..machine.endpoints() {
        push_root(text, machine, place);
    }
}

// Appends one of them.
#[tactic(auto, unfolding(play_trace::specs::TraceText::root_text))]
fn push_root<P: Playable>(text: &mut Text, machine: &P, place: usize)
    requires room { array_vec_len text.old + 19 ≤ CAPACITY }
    requires few { place < MOST_ENDPOINTS }
    requires there { place < length (P.bench machine.now).state.parties }
    ensures items { text.new.items ≡ text.old.items ++ root_text (P.bench machine.now).state place }
    ensures len { array_vec_len text.new ≡ array_vec_len text.old + 19 }
{
    text::push_word(text, b"root");
    text::push_hex(text, 4, u64::from(EndpointId::at(place).0));
    text::push_hex(text, 8, u64::from(machine.root_at(place)));
    text.push(b'\n');
}

// Appends a run to no text yet.
#[tactic(auto, unfolding(play_trace::specs::TraceText::cert_run_text))]
fn push_run<P: Playable>(text: &mut Text, machine: &P, run: &CertRun)
    requires { text.old.items ≡ [] }
    ensures { text.new.items ≡ cert_run_text (P.bench machine.now).state run.now }
{
    let base = u64::from(machine.ram_base().0);
    text::push_word(text, b"pages");
    text::push_hex(text, 8, base + 4096 * u64::from(run.first.0));
    text::push_hex(text, 8, base + 4096 * u64::from(run.last.0) + 4095);
    text::push_hex(text, 4, u64::from(run.owner.0));
    push_handle(text, run.handle);
    for right in &run.access[..machine.endpoints()] {
        text::push_right(text, *right);
    }
    text.push(b'\n');
}

// Appends a space and the handle of an open transaction, if there is one.
fn push_handle(text: &mut Text, handle: Option<u64>)
    requires { array_vec_len text.old ≤ 64 }
    ensures items { text.new.items ≡ text.old.items ++ spaced (handle_text handle) }
    ensures len { array_vec_len text.new ≤ array_vec_len text.old + 17 }
{
    match handle {
        Some(handle) => text::push_hex(text, 16, handle),
        None => text::push_word(text, b" -"),
    }
}
