// SPDX-License-Identifier: MIT OR Apache-2.0
//! Boots machines for C, in RAM from the heap and in lent RAM.
ghost use Rattle.std.specs.Prelude.{◌≡◌, ◌≢◌, ◌*◌, ◌<◌, ◌⊎◌, [], length, true, false, Bool, Ok, Some, None, IfOk, IfErr, IfSome, IsUtf8};
ghost use Rattle.ffa_model.specs.Ram.{zero_ram};
ghost use Rattle.ffa_manifest.specs.Document.{Parts, parts_of};
ghost use Rattle.ffa_manifest.specs.declared.error.ManifestError.{ManifestError};
ghost use Rattle.ffa_manifest.specs.declared.error.ManifestError.TheVariants as causes;
ghost use Rattle.ffa_spmc.specs.Storages.{IsRoomFor};
ghost use Rattle.ffa_c.specs.Boarded.{ram_places};
ghost use Rattle.ffa_c.specs.Booting.{Describes, HasBegun, HasBooted, IsFirstBy, IsRefusedFor, cause_number};
ghost use Rattle.ffa_c.specs.Boots.{Boots, BootsLent};
ghost use Rattle.ffa_c.specs.declared.board.FirstBytes.TheVariants.{Cleared, Kept};
ghost use Rattle.ffa_c.specs.Given.{Gives, IsGivenFor};
ghost use Rattle.ffa_c.specs.Lending.{page_count, pages_of, ready_for};

use crate::board::{Board, FirstBytes};
use crate::codes::{
    MANIFEST_ENDPOINT_COUNT, MANIFEST_MISSING_KEY, MANIFEST_PROPERTY, MANIFEST_RAM_BASE,
    MANIFEST_RAM_BLOCKS, MANIFEST_REGION_COUNT, MANIFEST_REGION_OUTSIDE, MANIFEST_REGION_OVERLAP,
    MANIFEST_TABLES_OUTSIDE, MANIFEST_TOML, MANIFEST_UNKNOWN_KEY, MANIFEST_UUID, MANIFEST_VERSION,
    MANIFEST_WRONG_KIND, NO_LIST, NO_MEMORY, OCCUPIED, OK, WRONG_COUNT,
};
use crate::lending::CLent;
use crate::lent_list::LentList;
use crate::machine::{CMachine, put};
use crate::manifest::{CManifest, manifest_of_numbers};
use crate::seat::Seat;
use ffa_manifest::ManifestError;
use ffa_model::Manifest;
use ffa_physmem::{FlatRam, NoMemory, PhysMem};
use ffa_spmc::{Given, Storage};
use std::alloc::{AllocError, Global};

/// A form in which C passes a manifest.
pub(crate) trait ManifestForm {
    /// Whether the form describes these parts of a machine.
    ghost describes: { Self → Parts → Type 0 };

    /// Whether the library rejects the form for this cause.
    ghost is_cause: { Self → ManifestError → Type 0 };

    /// Whether the library takes memory while it reads the form.
    ghost takes_memory: { Bool };

    /// Returns the manifest, or the cause for which the library rejects it. If the form takes memory, the cause can
    /// also be a lack of memory.
    fn manifest(&self, alloc: Global) -> Result<Manifest, ManifestError>
        ensures described { IfOk result (λ m. describes self.now (parts_of m)) }
        ensures wanting { IfOk result (λ _. is_cause self.now causes.NoMemory) }
        ensures refused { IfErr result (λ e. is_cause self.now e) }
        ensures whole { takes_memory ≡ false → IfErr result (λ e. e ≢ causes.NoMemory) };
}

impl ManifestForm for &[u8] {
    ghost use Rattle.std.specs.Prelude.{true};
    ghost use Rattle.ffa_c.specs.Boarded.{ram_places};
    ghost use Rattle.ffa_c.specs.Booting.{Describes, IsRefusedFor};

    ghost describes = { λ text parts. Describes text.now parts };

    ghost is_cause = { λ text cause. IsRefusedFor text.now cause };

    ghost takes_memory = { true };

    fn manifest(&self, alloc: Global) -> Result<Manifest, ManifestError> {
        manifest_of(alloc, self)
    }
}

impl ManifestForm for CManifest {
    ghost use Rattle.std.specs.Prelude.{false};
    ghost use Rattle.ffa_c.specs.Given.{Gives, IsGivenFor};

    ghost describes = { λ given parts. Gives given parts };

    ghost is_cause = { λ given cause. IsGivenFor given cause };

    ghost takes_memory = { false };

    fn manifest(&self, _alloc: Global) -> Result<Manifest, ManifestError> {
        manifest_of_numbers(self)
    }
}

/// Boots the machine of a manifest's text, in RAM from the heap. Returns `OK` if the machine was booted. Otherwise
/// returns `OCCUPIED` if there is already a machine, `NO_MEMORY`, or the cause for which the library rejects the text,
/// from `MANIFEST_TOML` to `MANIFEST_VERSION`. Then nothing has changed.
#[unsafe(no_mangle)]
pub extern "C" fn gorseplumb_boot(alloc: Global, machine: &mut CMachine, text: &[u8]) -> u32
    ensures { Boots (Describes text.now) (IsRefusedFor text.now) machine.old machine.new result }
{
    boot(alloc, machine, &text)
}

/// Boots the machine of a manifest as numbers, in RAM from the heap. Returns `OK` if the machine was booted. Otherwise
/// returns `OCCUPIED` if there is already a machine, `NO_MEMORY`, or the cause for which the library rejects the
/// numbers. Then nothing has changed.
#[unsafe(no_mangle)]
pub extern "C" fn gorseplumb_boot_manifest(
    alloc: Global,
    machine: &mut CMachine,
    given: &CManifest,
) -> u32
    ensures { Boots (Gives given.now) (IsGivenFor given.now) machine.old machine.new result }
{
    boot(alloc, machine, given)
}

/// Boots the machine of a manifest's text in the pages of a list. It clears the pages, and leaves the list empty.
/// Returns `OK` if the machine was booted. Otherwise returns `OCCUPIED` if there is already a machine, and then
/// `NO_LIST` if there is no list. Otherwise returns `NO_MEMORY`, the cause for which the library rejects the text, or
/// `WRONG_COUNT` if the manifest's RAM has more pages than the list or fewer. Then nothing has changed. If the list has
/// the number of pages for which it was begun, the boot takes memory only while it reads the text.
#[unsafe(no_mangle)]
pub extern "C" fn gorseplumb_boot_lent(
    alloc: Global,
    machine: &mut CMachine,
    lent: &mut CLent,
    text: &[u8],
) -> u32
    ensures { BootsLent (Describes text.now) (IsRefusedFor text.now) Cleared machine.old machine.new lent.old lent.new result }
{
    boot_lent(alloc, machine, lent, &text, FirstBytes::Cleared)
}

/// Boots the machine of a manifest as numbers in the pages of a list, like `gorseplumb_boot_lent` for a text. It
/// returns `NO_MEMORY` only if the list is ready for fewer pages than it has. A new list is ready for the number of
/// pages for which it was begun.
#[unsafe(no_mangle)]
pub extern "C" fn gorseplumb_boot_lent_manifest(
    alloc: Global,
    machine: &mut CMachine,
    lent: &mut CLent,
    given: &CManifest,
) -> u32
    ensures boots { BootsLent (Gives given.now) (IsGivenFor given.now) Cleared machine.old machine.new lent.old lent.new result }
    ensures unready { result ≡ NO_MEMORY → ready_for lent.old.held.value < page_count (pages_of lent.old.held.value) }
{
    boot_lent(alloc, machine, lent, given, FirstBytes::Cleared)
}

/// Boots the machine of a manifest's text in the pages of a list, like `gorseplumb_boot_lent`, but keeps the bytes of
/// pages in the manifest's regions. So images of partitions or of a kernel that you put there are there before the
/// first operation. All other pages are zeros, except the pages of the tables.
#[unsafe(no_mangle)]
pub extern "C" fn gorseplumb_boot_preloaded(
    alloc: Global,
    machine: &mut CMachine,
    lent: &mut CLent,
    text: &[u8],
) -> u32
    ensures { BootsLent (Describes text.now) (IsRefusedFor text.now) Kept machine.old machine.new lent.old lent.new result }
{
    boot_lent(alloc, machine, lent, &text, FirstBytes::Kept)
}

/// Boots the machine of a manifest as numbers in the pages of a list, and keeps the bytes of pages in the manifest's
/// regions, like `gorseplumb_boot_preloaded` for a text. It returns `NO_MEMORY` only as `gorseplumb_boot_lent_manifest`
/// does.
#[unsafe(no_mangle)]
pub extern "C" fn gorseplumb_boot_preloaded_manifest(
    alloc: Global,
    machine: &mut CMachine,
    lent: &mut CLent,
    given: &CManifest,
) -> u32
    ensures boots { BootsLent (Gives given.now) (IsGivenFor given.now) Kept machine.old machine.new lent.old lent.new result }
    ensures unready { result ≡ NO_MEMORY → ready_for lent.old.held.value < page_count (pages_of lent.old.held.value) }
{
    boot_lent(alloc, machine, lent, given, FirstBytes::Kept)
}

// Boots a machine in RAM from the heap.
fn boot<F: ManifestForm>(alloc: Global, machine: &mut CMachine, form: &F) -> u32
    ensures { Boots (F.describes form.now) (F.is_cause form.now) machine.old machine.new result }
{
    if machine.live {
        return OCCUPIED;
    }
    match form.manifest(alloc) {
        Ok(manifest) => boot_heap(alloc, machine, &manifest),
        Err(cause) => number_of(cause),
    }
}

// Boots a machine in the pages of a list.
fn boot_lent<F: ManifestForm>(
    alloc: Global,
    machine: &mut CMachine,
    lent: &mut CLent,
    form: &F,
    bytes: FirstBytes,
) -> u32
    ensures boots { BootsLent (F.describes form.now) (F.is_cause form.now) bytes machine.old machine.new lent.old lent.new result }
    ensures unready { F.takes_memory ≡ false → result ≡ NO_MEMORY
        → ready_for lent.old.held.value < page_count (pages_of lent.old.held.value) }
{
    if machine.live {
        OCCUPIED
    } else if !lent.live {
        NO_LIST
    } else {
        match form.manifest(alloc) {
            Ok(manifest) => boot_over(alloc, machine, lent.held.list_mut(), &manifest, bytes),
            Err(cause) => number_of(cause),
        }
    }
}

/// Returns the number that C has for the cause for which the library rejects a manifest.
pub(crate) fn number_of(cause: ManifestError) -> u32
    ensures number { result ≡ cause_number cause }
    ensures positive { result ≢ 0 }
{
    match cause {
        ManifestError::NoMemory => NO_MEMORY,
        ManifestError::Toml => MANIFEST_TOML,
        ManifestError::UnknownKey => MANIFEST_UNKNOWN_KEY,
        ManifestError::MissingKey => MANIFEST_MISSING_KEY,
        ManifestError::WrongKind => MANIFEST_WRONG_KIND,
        ManifestError::RamBase => MANIFEST_RAM_BASE,
        ManifestError::RamBlocks => MANIFEST_RAM_BLOCKS,
        ManifestError::EndpointCount => MANIFEST_ENDPOINT_COUNT,
        ManifestError::Uuid => MANIFEST_UUID,
        ManifestError::Property => MANIFEST_PROPERTY,
        ManifestError::RegionCount => MANIFEST_REGION_COUNT,
        ManifestError::RegionOutside => MANIFEST_REGION_OUTSIDE,
        ManifestError::RegionOverlap => MANIFEST_REGION_OVERLAP,
        ManifestError::Version => MANIFEST_VERSION,
        ManifestError::TablesOutside => MANIFEST_TABLES_OUTSIDE,
    }
}

// The manifest that a text describes. It is not inlined, so that no boot has its frame.
#[inline(never)]
pub(crate) fn manifest_of(alloc: Global, text: &[u8]) -> Result<Manifest, ManifestError>
    ensures described { IfOk result (λ m. Describes text.now (parts_of m)) }
    ensures refused { IfErr result (λ e. IsRefusedFor text.now e) }
{
    let Ok(text) = str::from_utf8(text) else {
        return Err(ManifestError::Toml);
    };
    ffa_manifest::read(alloc, text)
}

// Boots a machine at a place without a machine, in RAM from the heap. If there is no memory for it, nothing has
// changed.
fn boot_heap(alloc: Global, machine: &mut CMachine, manifest: &Manifest) -> u32
    requires { machine.old.held.value ≡ None }
    ensures booted { result ≡ 0 → HasBooted (λ p. p ≡ parts_of manifest.now) false machine.new.held.value }
    ensures refused { result ≢ 0 → (result ≡ NO_MEMORY) × (machine.new ≡ machine.old) }
{
    match box_seat(alloc, manifest) {
        Ok(seat) => {
            put(machine, seat);
            OK
        }
        Err(NoMemory) => NO_MEMORY,
    }
}

// The machine of a manifest over RAM from the heap, in its own seat.
#[inline(never)]
pub(crate) fn box_seat(alloc: Global, manifest: &Manifest) -> Result<Box<Seat>, NoMemory>
    ensures { IfOk result (λ b. HasBooted (λ p. p ≡ parts_of manifest.now) false b.value) }
{
    let (mut seat, ram, storage) = open_heap(alloc, manifest)?;
    seat.fill(Board::boot(manifest, ram, storage));
    Ok(seat)
}

// Takes what the machine of a manifest needs from the heap: its place, its RAM, and room for its data. It is not
// inlined, so that no boot and no copy has its frame.
#[inline(never)]
pub(crate) fn open_heap(
    alloc: Global,
    manifest: &Manifest,
) -> Result<(Box<Seat>, FlatRam, Storage<Given<Global>>), NoMemory>
    ensures seat { IfOk result (λ o. o.0.value ≡ None) }
    ensures ram { let pages = 512 * manifest.now.ram_blocks in
        IfOk result (λ o. ⟦<FlatRam as PhysMem>⟧.ram o.1 ≡ zero_ram manifest.now.ram_base.0 pages) }
    ensures storage { IfOk result (λ o. IsRoomFor manifest.now o.2) }
{
    let ram = FlatRam::new(alloc, manifest.ram_base, 512 * manifest.ram_blocks)?;
    let (Ok(seat), Ok(storage)) = (Seat::empty(alloc), Storage::allocate_for(alloc, manifest))
    else {
        return Err(NoMemory);
    };
    Ok((seat, ram, storage))
}

// Boots a machine at a place without a machine, in the pages of this list.
fn boot_over(
    alloc: Global,
    machine: &mut CMachine,
    list: &mut LentList,
    manifest: &Manifest,
    bytes: FirstBytes,
) -> u32
    requires { machine.old.held.value ≡ None }
    ensures booted { result ≡ 0
        → HasBegun (λ p. p ≡ parts_of manifest.now) (IsFirstBy bytes list.old.pages) true machine.new.held.value }
    ensures placed { result ≡ 0 → ram_places machine.new.held.value ≡ Some list.old.places }
    ensures emptied { result ≡ 0 → list.new.pages ≡ [] }
    ensures machine { result ≢ 0 → machine.new ≡ machine.old }
    ensures list { result ≢ 0 → list.new ≡ list.old }
    ensures why { result ≢ 0 → (result ≡ NO_MEMORY) ⊎ (result ≡ WRONG_COUNT) }
    ensures wrong_count { result ≡ WRONG_COUNT → length list.old.pages ≢ 512 * manifest.now.ram_blocks }
    ensures unready { result ≡ NO_MEMORY → list.old.ready_for < length list.old.pages }
{
    if list.pages() != 512 * manifest.ram_blocks as usize {
        return WRONG_COUNT;
    }
    match list.boot(alloc, manifest, bytes) {
        Ok(seat) => {
            put(machine, seat);
            OK
        }
        Err(AllocError) => NO_MEMORY,
    }
}
