// SPDX-License-Identifier: MIT OR Apache-2.0
//! The choices of a boot about the bytes that are in RAM before it.
ghost use Rattle.std.specs.Prelude.{◌≡◌, ◌≢◌, ℕ, ◌*◌, ◌<◌, length, replicate};
ghost use Rattle.ffa_model.specs.Identifiers.{manager};
ghost use Rattle.ffa_model.specs.Ram.{page_of, with_page, zero_ram};
ghost use Rattle.ffa_model.specs.SoundState.{are_bytes};
ghost use Rattle.ffa_spmc.specs.Readied.{IsFilled, IsReadyFor, first_owner};

use crate::manager::holds_bytes;
use ffa_model::{EndpointId, Manifest, PageNo};
use ffa_physmem::PhysMem;

/// The choice of a boot about the bytes that are in RAM before it. The boot acts on it before it builds the tables.
#[derive(Clone, Copy, PartialEq, Eq)]
pub enum Fill {
    /// The boot clears every page.
    Clear,
    /// The boot clears nothing. Every byte must be zero already, as in new memory.
    AlreadyZero,
    /// The boot clears every page except the pages of the manifest's regions. So an image of a partition that you put
    /// there is there before the first operation.
    KeepRegions,
}

impl Fill {
    // Makes RAM ready for the tables, as this choice says. It is not inlined, so that the stack of a boot does not have
    // its frame while the boot builds tables.
    #[inline(never)]
    pub(crate) fn prepare<M: PhysMem>(self, ram: &mut M, manifest: &Manifest)
        requires base { (M.ram ram.old).base ≡ manifest.now.ram_base.0 }
        requires size { length (M.ram ram.old).pages ≡ 512 * manifest.now.ram_blocks }
        requires zeros { self ≡ Fill.AlreadyZero → M.ram ram.old ≡ zero_ram manifest.now.ram_base.0 (512 * manifest.now.ram_blocks) }
        ensures filled { IsFilled self manifest.now (M.ram ram.old) (M.ram ram.new) }
        ensures site { (M.past ram.new).site ≡ (M.past ram.old).site }
    {
        match self {
            Fill::Clear => clear(ram),
            Fill::AlreadyZero => {}
            Fill::KeepRegions => clear_rest(ram, manifest),
        }
    }
}

// Fills all pages with zeros.
fn clear<M: PhysMem>(ram: &mut M)
    ensures zeros { M.ram ram.new ≡ zero_ram (M.ram ram.old).base (length (M.ram ram.old).pages) }
    ensures site { (M.past ram.new).site ≡ (M.past ram.old).site }
{
    for page in 0..ram.pages() {
        ram.clear_page(PageNo(page));
    }
}

// Fills all pages with zeros, except the pages of the manifest's regions. They keep their bytes.
fn clear_rest<M: PhysMem>(ram: &mut M, manifest: &Manifest)
    requires base { (M.ram ram.old).base ≡ manifest.now.ram_base.0 }
    requires size { length (M.ram ram.old).pages ≡ 512 * manifest.now.ram_blocks }
    ensures ready { IsReadyFor manifest.now (M.ram ram.new) }
    ensures kept { (p : ℕ) → first_owner manifest.now p ≢ manager
        → page_of (M.ram ram.new) p ≡ page_of (M.ram ram.old) p }
    ensures site { (M.past ram.new).site ≡ (M.past ram.old).site }
{
    for page in 0..ram.pages() {
        clear_unowned(ram, manifest, PageNo(page));
    }
}

// Fills a page with zeros, if no region has it.
fn clear_unowned<M: PhysMem>(ram: &mut M, manifest: &Manifest, page: PageNo)
    requires { page.0 < length (M.ram ram.old).pages }
    ensures cleared { first_owner manifest.now page.0 ≡ manager
        → M.ram ram.new ≡ with_page (M.ram ram.old) page.0 (replicate 4096 0) }
    ensures kept { first_owner manifest.now page.0 ≢ manager → M.ram ram.new ≡ M.ram ram.old }
    ensures whole { length (page_of (M.ram ram.new) page.0) ≡ 4096 }
    ensures bytes { are_bytes (page_of (M.ram ram.new) page.0) }
    ensures site { (M.past ram.new).site ≡ (M.past ram.old).site }
{
    if manifest.owner_of(page) == EndpointId::MANAGER {
        ram.clear_page(page);
    }
    // Proof step: the page holds bytes.
    holds_bytes(ram.page(page));
}
