// SPDX-License-Identifier: MIT OR Apache-2.0
//! Why a line's operation is refused, asked of the machine.
ghost use Rattle.std.specs.Prelude.{◌≡◌, false};
ghost use Rattle.std.specs.Option.{option_map_or};
ghost use Rattle.ffa_model.specs.Refusals.{is_refusal};
ghost use Rattle.play_trace.specs.Lines.{meant};
ghost use Rattle.play_player.specs.Steps.{SaysWhy};

use crate::Player;
use ffa_model::Outcome;
use ffa_playable::Playable;
use play_reasons::Reason;
use play_trace::Line;

/// Why the operation of a line that was done is refused, where that is asked for. It is asked behind the line, and only
/// where the outcome refuses: a refusal changes nothing by which a reason goes.
pub(crate) fn reason_of<P: Playable>(
    player: &Player<P>,
    explain: bool,
    line: &Line,
    outcome: Option<Outcome>,
) -> Option<Reason>
    ensures { SaysWhy explain player.now.bench (meant line.now) outcome result }
{
    if !explain || !is_refused(outcome) {
        return None;
    }
    match *line {
        Line::Operation(op) => {
            let its = player.machine().why(&op)?;
            let base = player.machine().ram_base();
            Some(Reason {
                base,
                op,
                why: its.why,
                detail: its.detail,
            })
        }
        Line::Show | Line::Audit | Line::Nothing | Line::Turn(_) | Line::Interrupt => None,
    }
}

// Whether an operation came to a refusal, where there was one.
pub(crate) fn is_refused(outcome: Option<Outcome>) -> bool
    ensures { result ≡ option_map_or is_refusal outcome false }
{
    match outcome {
        Some(outcome) => outcome.is_refusal(),
        None => false,
    }
}
