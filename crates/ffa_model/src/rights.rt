// SPDX-License-Identifier: MIT OR Apache-2.0
//! Rights to pages, and the kinds of memory transactions.

/// The right to the data of a page, in rising order.
#[derive(Clone, Copy, Debug, PartialEq, Eq, PartialOrd, Ord, Default)]
pub enum Data {
    /// The data may be read.
    #[default]
    Ro,
    /// The data may be read and written.
    Rw,
}

/// The right of an endpoint to a page. An endpoint without a right has `None` as an `Option<Rights>`.
#[derive(Clone, Copy, Debug, PartialEq, Eq, Default)]
pub struct Rights {
    pub level: Data,
    /// Whether instructions may be fetched from the page.
    pub exec: bool,
}

/// The kind of a memory transaction, which says how it passes its pages to receivers (DEN0077A, 5.1).
#[derive(Clone, Copy, Debug, PartialEq, Eq)]
pub enum Kind {
    /// The owner keeps its access to the pages.
    Share,
    /// The owner loses its access to the pages until it reclaims them.
    Lend,
    /// The receiver becomes the owner of the pages.
    Donate,
}
