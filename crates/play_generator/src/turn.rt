// SPDX-License-Identifier: MIT OR Apache-2.0
//! The endpoint whose turn it is.
ghost use Rattle.std.specs.Prelude.{◌≡◌, ◌≤◌, ◌%◌};
ghost use Rattle.ffa_model.specs.declared.limits.TheConstants.{MOST_ENDPOINTS};
ghost use Rattle.ffa_model.specs.Identifiers.{identifier};

use ffa_model::EndpointId;

/// Returns the endpoint whose turn it is, by the number of the turn and the number of endpoints of the machine. In each
/// round every endpoint has a turn, since chance by itself seldom gives cycles to the last ones.
pub fn actor_of(turn: u64, endpoints: usize) -> EndpointId
    requires some { 1 ≤ endpoints }
    requires few { endpoints ≤ MOST_ENDPOINTS }
    ensures { result.0 ≡ identifier (turn % endpoints) }
{
    EndpointId::at((turn % endpoints as u64) as usize)
}
