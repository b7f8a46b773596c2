// SPDX-License-Identifier: MIT OR Apache-2.0
//! A descriptor that no machine gets.
use crate::checks::holds;
use ffa_memdesc::read_relinquish;
use ffa_model::{Flaw, RelinquishFlaw};

fn is_short(bytes: &[u8]) -> bool {
    matches!(
        read_relinquish(&bytes),
        Err(Flaw::Relinquish(RelinquishFlaw::Short))
    )
}

// A relinquish by 8002, and this relinquish without its last byte. TX is never so short.
#[test]
fn a_relinquish_that_is_cut(rt: HostRuntime) {
    let bytes = [1, 0, 0, 0, 1, 0x80, 0, 0, 0, 0, 0, 0, 1, 0, 0, 0, 2, 0x80];
    holds(&rt, !is_short(&bytes));
    holds(&rt, is_short(&bytes[..17]));
}
