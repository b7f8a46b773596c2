// SPDX-License-Identifier: MIT OR Apache-2.0
//! Decodes a call from the registers x0 to x7, and encodes a reply into them (DEN0028, 2; DEN0077A, 11). It also has
//! the names of calls and errors.
#![tactic(auto)]

mod call;
mod names;
mod reply;

pub use call::{decode, decode_into, is_function, is_read_whole, low};
pub use ffa_model::{Call, CallRow, Reply};
pub use names::{call_name, call_place, call_row, error_name};
pub use reply::{encode, encode_into};
