// SPDX-License-Identifier: MIT OR Apache-2.0
//! The commands that need only a manifest, and the reader of manifests.
ghost use Rattle.std.specs.Prelude.{◌≡◌, ◌++◌, None, Some, Ok, OnOk, IfErr, IfOk, true};
ghost use Rattle.ffa_manifest.specs.Document.{machine_of, parts_of};
ghost use Rattle.play_report.specs.Layouts.{regions_text};
ghost use Rattle.play_report.specs.Manifests.{Describes, FailsToRead, FailsUnplayed, IsChecked, IsLaidOut, bytes_of};
ghost use Rattle.play_report.specs.Noted.{IsNoted};

use crate::failure::Failure;
use crate::layout;
use crate::notes::{More, Notes};
use crate::output::write;
use crate::regions::put_regions;
use ffa_manifest::ManifestError;
use ffa_model::{Ffa, Manifest};
use play_trace::text::Text;
use std::alloc::{AllocError, Allocator, Global};
use std::io::Write;

/// Prints that a manifest is accepted for a machine of this version of FF-A. Fails if the manifest cannot be read or is
/// rejected, if the output cannot be written, or if there is no memory. If the manifest is rejected, it wrote nothing.
pub fn accept<'a, A: Allocator, W: Write>(
    alloc: Global,
    path: &'a str,
    manifest: Option<&[u8]>,
    ffa: Ffa,
    out: &mut W,
    notes: &mut Notes<A>,
) -> Result<(), Failure<'a>>
    ensures done { OnOk result (IsChecked ffa (bytes_of manifest.entry) (W.contents out.old) (W.contents out.new)) }
    ensures failed { IfErr result (FailsUnplayed ffa (bytes_of manifest.entry) (W.contents out.old) (W.contents out.new)) }
{
    read_manifest(alloc, path, manifest, ffa, notes)?;
    write(out, b"accepted\n")
}

/// Prints the addresses of the tables of a manifest's machine of this version of FF-A. If `regions` is true, it also
/// prints the regions and RAM. Fails if the manifest cannot be read or is rejected, if the output cannot be written, or
/// if there is no memory. If the manifest is rejected, it wrote nothing.
pub fn lay_out<'a, A: Allocator, W: Write>(
    alloc: Global,
    path: &'a str,
    manifest: Option<&[u8]>,
    ffa: Ffa,
    regions: bool,
    out: &mut W,
    notes: &mut Notes<A>,
) -> Result<(), Failure<'a>>
    ensures done { OnOk result (IsLaidOut ffa regions (bytes_of manifest.entry) (W.contents out.old) (W.contents out.new)) }
    ensures failed { IfErr result (FailsUnplayed ffa (bytes_of manifest.entry) (W.contents out.old) (W.contents out.new)) }
{
    let manifest = read_manifest(alloc, path, manifest, ffa, notes)?;
    let mut text = Text::new();
    layout::push_layout(&mut text, &manifest);
    if !regions {
        return write(out, text.as_slice());
    }
    match with_regions(alloc, text.as_slice(), &manifest) {
        Ok(whole) => write(out, &whole),
        Err(AllocError) => Err(Failure::NoMemory),
    }
}

// Returns a text, with the lines of a manifest's regions and RAM after it.
fn with_regions(alloc: Global, text: &[u8], manifest: &Manifest) -> Result<Vec<u8>, AllocError>
    ensures { IfOk result (λ whole. whole.items ≡ text.now ++ regions_text (parts_of manifest.now)) }
{
    let mut whole = Vec::new(alloc);
    whole.extend_from_slice(text)?;
    put_regions(&mut whole, manifest)?;
    Ok(whole)
}

/// Reads the manifest at this path for a machine of this version of FF-A. `bytes` has the bytes of its file, or is
/// `None` if the program could not read the file. If the manifest is rejected and the user requests more, `notes` then
/// says more about that. Fails if the manifest cannot be read or is rejected, or if there is no memory.
pub fn read_manifest<'a, A: Allocator>(
    alloc: Global,
    path: &'a str,
    bytes: Option<&[u8]>,
    ffa: Ffa,
    notes: &mut Notes<A>,
) -> Result<Manifest, Failure<'a>>
    ensures described { IfOk result (λ m. Describes ffa (bytes_of bytes.entry) (parts_of m)) }
    ensures failed { IfErr result (FailsUnplayed ffa (bytes_of bytes.entry) None None) }
    ensures noted { IfErr result (IsNoted notes.old.verbose notes.new.manifest) }
{
    let Some(bytes) = bytes else {
        return Err(Failure::Read(path));
    };
    if notes.verbose {
        return explain_bytes(alloc, bytes, ffa, notes);
    }
    match str::from_utf8(bytes) {
        Ok(text) => read_text(alloc, text, ffa),
        Err(_) => Err(Failure::Manifest(ManifestError::Toml)),
    }
}

// Reads the text of a manifest.
fn read_text(alloc: Global, text: &str, ffa: Ffa) -> Result<Manifest, Failure<'static>>
    ensures described { IfOk result (λ m. machine_of ffa text.now ≡ Ok (parts_of m)) }
    ensures failed { IfErr result (FailsToRead ffa text.now) }
{
    match ffa_manifest::read_for(alloc, text, ffa) {
        Ok(manifest) => Ok(manifest),
        Err(ManifestError::NoMemory) => Err(Failure::NoMemory),
        Err(cause) => Err(Failure::Manifest(cause)),
    }
}

// Reads the bytes of a manifest. If the manifest is rejected, it notes the place.
#[tactic(auto, using(crate::proofs::Refusals::refused_as_read))]
fn explain_bytes<A: Allocator>(
    alloc: Global,
    bytes: &[u8],
    ffa: Ffa,
    notes: &mut Notes<A>,
) -> Result<Manifest, Failure<'static>>
    ensures described { IfOk result (λ m. Describes ffa (Some bytes.now) (parts_of m)) }
    ensures failed { IfErr result (FailsUnplayed ffa (Some bytes.now) None None) }
    ensures noted { IfErr result (IsNoted true notes.new.manifest) }
{
    match ffa_manifest::explain(alloc, bytes, ffa) {
        Ok(Ok(manifest)) => Ok(manifest),
        Ok(Err(refusal)) => {
            let cause = refusal.cause;
            notes.manifest = Some(More::Place(refusal));
            Err(Failure::Manifest(cause))
        }
        Err(_) => Err(Failure::NoMemory),
    }
}
