// SPDX-License-Identifier: MIT OR Apache-2.0
//! Partition information that no call requests.
use crate::checks::{holds, same};
use ffa_model::Version;
use ffa_setup::{count, info_bytes, is_recognized};
use fixtures::row_machine;

// No partition has this UUID, so a call with it is refused.
#[test]
fn information_on_none(rt: HostRuntime) {
    let uuid = [0, 0, 0, 1];
    same(&rt, count(&row_machine(), uuid), 0);
    holds(&rt, !is_recognized(&row_machine(), uuid));
    holds(
        &rt,
        info_bytes(&row_machine(), Version::V1_1, uuid).is_empty(),
    );
}
