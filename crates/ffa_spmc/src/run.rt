// SPDX-License-Identifier: MIT OR Apache-2.0
//! Pages in a row.

use ffa_model::PageNo;

/// A number of pages in a row.
#[derive(Clone, Copy)]
pub struct Run {
    /// The first page.
    pub first: PageNo,
    /// The number of pages.
    pub count: u32,
}

/// The first bytes of pages in a row.
#[derive(Clone, Copy)]
pub(crate) struct Front {
    /// The pages that hold these bytes.
    pub(crate) pages: Run,
    /// The number of bytes, if the pages have that number.
    pub(crate) bytes: usize,
}
