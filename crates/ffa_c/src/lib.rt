// SPDX-License-Identifier: MIT OR Apache-2.0
//! The static library for C: the functions that c/gorseplumb.h declares. Its operations promise what `Cluster::op`
//! promises. A boot promises that the machine is in its first state. Questions, changes and lists have promises of
//! their own. A function has the same name here and in C. `struct gorseplumb_machine` of C is `CMachine` here, and the
//! other structs have names of the same form.
#![tactic(auto)]

pub mod audit;
pub mod board;
pub mod booting;
pub mod cert_run;
pub mod certificate;
pub mod changes;
pub mod codes;
pub mod copying;
pub mod declarations;
pub mod ending;
pub mod exports;
pub mod grants;
pub mod held;
pub mod held_list;
pub mod hint;
pub mod kind;
pub mod lending;
pub mod lent_list;
pub mod machine;
pub mod manifest;
pub mod operations;
pub mod outcome;
pub mod processors;
pub mod questions;
pub mod reading;
pub mod reason;
pub mod refusing;
pub mod seat;
pub mod spans;
pub mod why;
