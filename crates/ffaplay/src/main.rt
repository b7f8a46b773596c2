// SPDX-License-Identifier: MIT OR Apache-2.0
//! The program `ffaplay`, which plays FF-A calls and memory accesses on a machine.
#![tactic(auto)]

use play_commands::run;
use std::process::ExitCode;

fn main(rt: HostRuntime) -> ExitCode {
    ExitCode::from(run(&rt, rt.stdin(), rt.stdout(), &mut rt.stderr()))
}
