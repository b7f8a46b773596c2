// SPDX-License-Identifier: MIT OR Apache-2.0
//! Explains why a call on memory was refused, and which endpoints may still retrieve a page. This module serves
//! diagnostics only. No call uses it and it changes nothing, so an auditor of the core can skip it.

mod about;
mod failing;
mod offered;
