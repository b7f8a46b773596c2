// SPDX-License-Identifier: MIT OR Apache-2.0
//! The lines of a trace that write a descriptor.
ghost use Rattle.std.specs.Prelude.{◌≡◌, IfErr, OnOk};
ghost use Rattle.play_arguments.specs.Commands.{words_of};
ghost use Rattle.play_report.specs.Told.{HasAlignedTx};
ghost use Rattle.play_trace.specs.Written.{unfit_told};
ghost use Rattle.play_report.specs.Manifests.{bytes_of};
ghost use Rattle.play_report.specs.Descriptors.{FailsToSay, FailsToSayFor, Grows, IsSaid, IsSaidFor, unfit_asked};

use crate::failure::Failure;
use crate::manifest::read_manifest;
use crate::notes::Notes;
use crate::output::write;
use crate::{Asked, read_words, words_for};
use ffa_model::Ffa;
use play_arguments::DescriptorWords;
use play_trace::{ScriptError, put_descriptor, put_reclaim};
use std::alloc::{Allocator, Global};
use std::io::Write;

/// Prints the lines of a trace that write the descriptor of these words and make its call. For a reclaim, it prints the
/// line of the call.
///
/// If `path` names a manifest and the words give no form, the descriptor has the form that the caller has in this
/// manifest. `manifest` has the bytes of its file, or is `None` if the program could not read the file. The manifest
/// may be for a machine of FF-A 1.1 or 1.2. A machine of 1.2 accepts each manifest that a machine of 1.1 accepts.
///
/// Fails if the words are wrong, if no bytes are the descriptor, or if the manifest cannot be read or is rejected. Then
/// it wrote nothing. It also fails if the output cannot be written, or if there is no memory.
pub fn describe_for<'a, A: Allocator + Copy, W: Write>(
    alloc: A,
    manifests: Global,
    path: Option<&'a str>,
    manifest: Option<&[u8]>,
    words: DescriptorWords<'_>,
    out: &mut W,
    notes: &mut Notes<A>,
) -> Result<(), Failure<'a>>
    ensures said { OnOk result (IsSaidFor path.entry words.entry (bytes_of manifest.entry) (W.contents out.old) (W.contents out.new)) }
    ensures failed { IfErr result (FailsToSayFor path.entry words.entry (bytes_of manifest.entry) (W.contents out.old) (W.contents out.new)) }
{
    let Some(path) = path else {
        return describe(alloc, &words, out);
    };
    let manifest = read_manifest(manifests, path, manifest, Ffa::V1_2, notes)?;
    describe(alloc, &words_for(words, &manifest), out)
}

// Prints the lines of these words as they are.
fn describe<A: Allocator, W: Write>(
    alloc: A,
    words: &DescriptorWords<'_>,
    out: &mut W,
) -> Result<(), Failure<'static>>
    ensures said { OnOk result (IsSaid (words_of words.now) (W.contents out.old) (W.contents out.new)) }
    ensures failed { IfErr result (FailsToSay (words_of words.now) (W.contents out.old) (W.contents out.new)) }
{
    let asked = match read_words(words) {
        Ok(asked) => asked,
        Err(fault) => return Err(Failure::Words(fault)),
    };
    let mut text = Vec::new(alloc);
    match put_asked(&mut text, &asked) {
        Ok(()) => write(out, &text),
        Err(ScriptError::NoMemory) => Err(Failure::NoMemory),
        Err(ScriptError::Unfit(cause)) => Err(Failure::Unfit(cause)),
    }
}

// Appends the lines that the words request.
fn put_asked<A: Allocator>(text: &mut Vec<u8, A>, asked: &Asked) -> Result<(), ScriptError>
    requires { HasAlignedTx asked.now }
    ensures written { OnOk result (Grows asked.now text.old.items text.new.items) }
    ensures refused { unfit_told result ≡ unfit_asked asked.now }
{
    match asked {
        Asked::Descriptor(told) => put_descriptor(text, told.version, &told.descriptor, told.tx),
        Asked::Reclaim(reclaim) => match put_reclaim(text, *reclaim) {
            Ok(()) => Ok(()),
            Err(_) => Err(ScriptError::NoMemory),
        },
    }
}
