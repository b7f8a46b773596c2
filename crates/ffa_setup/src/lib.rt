// SPDX-License-Identifier: MIT OR Apache-2.0
//! Answers the setup calls: version, features, identifiers and partition information (DEN0077A, 13).
#![tactic(auto)]

mod partitions;
mod replies;
mod versions;

pub use partitions::{
    MOST_INFO_BYTES, count, info_bytes, is_recognized, missing_buffers, told_info_size,
};
pub use replies::{answer, check_features, features, id, is_version, spm_id, version};
pub use versions::{Versions, form_of};
