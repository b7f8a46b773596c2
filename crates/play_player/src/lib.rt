// SPDX-License-Identifier: MIT OR Apache-2.0
//! Plays a trace on a machine, and lets a listener hear each line. Listeners print, check guards, record and compare.
#![tactic(auto)]

mod asking;
mod certificate;
mod checking;
mod comparison;
mod form;
mod guards;
mod hint;
mod listening;
mod patterns;
mod player;
mod printing;
mod read;
mod reason;
mod recording;
mod session;
mod short;
mod show;
mod tally;
mod unmet;

pub use asking::Unasked;
pub use checking::GuardChecker;
pub use comparison::{Comparer, ComparisonStop, Mismatch};
pub use form::Form;
pub use guards::{Asks, Breach, guard_text, wanted_text};
pub use hint::Hint;
pub use listening::{Event, Listener, play};
pub use patterns::{Came, Pattern};
pub use player::{Begun, Player};
pub use printing::Printer;
pub use read::{Lines, next_line};
pub use recording::Recorder;
pub use session::play_session;
pub use tally::Tally;
pub use unmet::put_unmet;
