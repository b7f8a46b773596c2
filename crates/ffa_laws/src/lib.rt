// SPDX-License-Identifier: MIT OR Apache-2.0
//! Proves isolation and other laws of the definitions in `ffa_model/specs`. It has no code that runs.
#![tactic(auto)]

pub mod elsewhere;
pub mod isolation;
pub mod processors;

pub use elsewhere::{
    confidential_as, integrity_as, one_step_as, only_writers_as, own_access_as, silence_as,
    whole_run_as,
};
pub use isolation::{
    confidential, first_is_sound, integrity, loans, one_call, one_step, only_writers, own_access,
    reads_no_more, rights_never_grow, run_integrity, silence, sound_is_steady, whole_run,
};
pub use processors::{
    one_chain, one_effect, one_interrupt, one_operation, rights_on, whole_run_on,
};
