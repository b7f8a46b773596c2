// SPDX-License-Identifier: MIT OR Apache-2.0
//! The parts of a machine, lent to be read.
use crate::storage::Store;
use ffa_memshare::Pool;
use ffa_model::Manifest;
use ffa_notify::Bitmaps;
use ffa_pages::PageTable;
use ffa_physmem::PhysMem;
use ffa_rxtx::Buffers;
use ffa_schedule::Chain;
use ffa_setup::Versions;
use ffa_stage2::Layout;

/// The parts of a machine, for code that explains what the machine itself does not report. `Machine::parts` lends them.
#[derive(Drop)]
pub struct Parts<'a, M: PhysMem + Drop, S: Store> {
    /// The RAM. Its bytes are all that the machine keeps of tables and data.
    pub ram: &'a M,
    /// The manifest of the machine.
    pub manifest: &'a Manifest,
    /// The places and the number of the tables.
    pub layout: &'a Layout,
    /// The notifications: which endpoints have bitmaps, which bits are bound, and which bits are pending.
    pub bitmaps: &'a Bitmaps,
    /// The owner of each page.
    pub pages: &'a PageTable<S::Pages>,
    /// The open memory transactions.
    pub pool: &'a Pool<S::Open>,
    /// The buffers of each endpoint.
    pub buffers: &'a Buffers,
    /// The run states: which endpoint runs, and for which endpoint it works.
    pub chain: &'a Chain,
    /// The form in which each endpoint writes and reads.
    pub versions: &'a Versions,
}
