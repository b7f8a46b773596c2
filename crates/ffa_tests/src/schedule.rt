// SPDX-License-Identifier: MIT OR Apache-2.0
//! Run states that no call shows. The normal world is blocked while a partition runs, and a partition that waits has no
//! work.
use crate::checks::{holds, same};
use ffa_model::{EndpointId, Status, Work};
use ffa_schedule::Chain;
use fixtures::{FIRST, SECOND};

const NORMAL: EndpointId = EndpointId(0);

#[test]
fn runs_and_waits(rt: HostRuntime) {
    let mut chain = Chain::first(3);
    holds(&rt, chain.run_partition(FIRST, 0).is_ok());
    same(&rt, chain.status(NORMAL), Status::Blocked);
    same(&rt, chain.work(FIRST), Some(Work::Run));
    holds(&rt, chain.yield_now().is_ok());
    same(&rt, chain.status(NORMAL), Status::Running);
    holds(&rt, chain.run_partition(FIRST, 0).is_ok());
    same(&rt, chain.work(FIRST), Some(Work::Run));
    holds(&rt, chain.wait().is_ok());
    same(&rt, chain.work(FIRST), None);
}

#[test]
fn request_of_the_normal_world(rt: HostRuntime) {
    let mut chain = Chain::first(3);
    chain.request(SECOND);
    same(&rt, chain.status(NORMAL), Status::Blocked);
    same(&rt, chain.work(SECOND), Some(Work::Request(NORMAL)));
    chain.respond();
    same(&rt, chain.work(SECOND), None);
}
