// SPDX-License-Identifier: MIT OR Apache-2.0
//! Counts of the outcomes of operations.
ghost use Rattle.std.specs.Prelude.{◌≡◌, ◌<◌, ◌≤◌, ◌==◌, suc, position, replicate, slice_index, IfSome};
ghost use Rattle.std.specs.Option.{option_map_or};
ghost use Rattle.ffa_model.specs.Registers.{low};
ghost use Rattle.ffa_model.specs.Rows.{place_in_rows};
ghost use Rattle.play_reasons.specs.Checks.{number_of};
ghost use Rattle.play_generator.specs.Counting.{row_of_access, row_of_operation, column_of_error, column_of_fault, error_numbers, column_of_registers, column_of, cell, check_cell, check_cell_of, check_of, CountsOne, CountsCheck};

use crate::unreached::Everyone;
use ffa_abi::{call_place, low};
use ffa_model::function::FFA_ERROR;
use ffa_model::{CALLS, ErrorCode, FaultKind, Manifest, Op, Outcome, Refusal, Why};
use play_reasons::check_number;

/// The row of all identifiers that are no call.
const UNKNOWN: usize = CALLS.len();

/// The number of rows: one for each call, one for all identifiers that are no call, and one for each kind of access.
const ROWS: usize = CALLS.len() + 4;

/// The number of counts in a row: one for success, and one for each error or fault.
const COLUMNS: usize = 7;

/// The number of counts in all rows.
const CELLS: usize = COLUMNS * ROWS;

/// The largest number of checks that a call has.
const MOST_CHECKS: usize = 16;

/// The number of counts of checks: MOST_CHECKS for each call, and for all identifiers that are no call.
const CHECKS: usize = MOST_CHECKS * (UNKNOWN + 1);

/// The refusal of FFA_VERSION, in w0.
const NO_VERSION: u64 = 0xFFFF_FFFF;

/// A kind of access to memory.
#[derive(Clone, Copy, PartialEq, Eq)]
pub enum AccessKind {
    Load,
    Store,
    Fetch,
}

/// Counts of outcomes. For each call, they say how often it succeeded, how often each error came, and at which check.
/// For each kind of access, they say how often it succeeded, and how often each fault came.
///
/// The two forms of a call count as one call. All identifiers that are no call count as one. A count that is 2^64 - 1
/// remains so.
#[derive(Drop)]
pub struct Counts {
    /// The count of each row and column, row by row.
    pub cells: [u64; CELLS],
    /// The count of each check of each row, row by row.
    pub checks: [u64; CHECKS],
    /// The facts about all endpoints of the machine, as far as they are known.
    pub everyone: Everyone,
}

// Returns the row of a call, by its identifier in either form.
fn row_of(function: u32) -> usize
    ensures row { result ≡ place_in_rows function }
    ensures few { result ≤ UNKNOWN }
{
    call_place(function)
}

// Returns the row of a kind of access.
fn row_of_access(access: AccessKind) -> usize
    ensures row { result ≡ row_of_access access }
    ensures few { result < ROWS }
{
    match access {
        AccessKind::Load => UNKNOWN + 1,
        AccessKind::Store => UNKNOWN + 2,
        AccessKind::Fetch => UNKNOWN + 3,
    }
}

fn row_of_operation(op: &Op) -> usize
    ensures row { result ≡ row_of_operation op.now }
    ensures few { result < ROWS }
{
    match op {
        Op::Call(x) => row_of(low(x[0])),
        Op::Load { .. } => row_of_access(AccessKind::Load),
        Op::Store { .. } => row_of_access(AccessKind::Store),
        Op::Fetch { .. } => row_of_access(AccessKind::Fetch),
    }
}

fn column_of_error(code: ErrorCode) -> usize
    ensures column { result ≡ column_of_error code }
    ensures few { result < 7 }
{
    match code {
        ErrorCode::NotSupported => 1,
        ErrorCode::InvalidParameters => 2,
        ErrorCode::NoMemory => 3,
        ErrorCode::Busy => 4,
        ErrorCode::Denied => 5,
        ErrorCode::NoData => 6,
    }
}

fn column_of_fault(fault: FaultKind) -> usize
    ensures column { result ≡ column_of_fault fault }
    ensures few { result < 7 }
{
    fault as usize
}

// Returns the column of an error, by the number in w2, or column 0 if the number is no error's.
fn column_of_number(number: u64) -> usize
    ensures column { result ≡ option_map_or suc (position (λ other. number == other) error_numbers) 0 }
    ensures few { result < 7 }
{
    match number {
        0xFFFF_FFFF => 1,
        0xFFFF_FFFE => 2,
        0xFFFF_FFFD => 3,
        0xFFFF_FFFC => 4,
        0xFFFF_FFFA => 5,
        0xFFFF_FFF7 => 6,
        _ => 0,
    }
}

// Returns the column of an outcome, by the registers that the next runner sees.
#[tactic(auto, unfolding(crate::specs::Counting::column_of_registers))]
fn column_of_registers(x: &[u64; 8]) -> usize
    ensures column { result ≡ column_of_registers x.now }
    ensures few { result < 7 }
{
    if x[0] == u64::from(FFA_ERROR) {
        column_of_number(x[2])
    } else if x[0] == NO_VERSION {
        column_of_error(ErrorCode::NotSupported)
    } else {
        0
    }
}

fn column_of(outcome: &Outcome) -> usize
    ensures column { result ≡ column_of outcome.now }
    ensures few { result < 7 }
{
    match outcome {
        Outcome::Regs { x, .. } => column_of_registers(x),
        Outcome::Data(_) | Outcome::Done => 0,
        Outcome::Fault(fault) => column_of_fault(*fault),
    }
}

fn cell(row: usize, column: usize) -> usize
    requires row { row < ROWS }
    requires column { column < 7 }
    ensures cell { result ≡ cell row column }
    ensures few { result < CELLS }
{
    COLUMNS * row + column
}

// Returns the place of the count of a check of a row. The number of a row's first check is 1.
fn check_cell(row: usize, number: usize) -> usize
    requires row { row ≤ UNKNOWN }
    requires some { 1 ≤ number }
    requires few { number ≤ MOST_CHECKS }
    ensures cell { result ≡ check_cell row number }
    ensures few { result < CHECKS }
{
    MOST_CHECKS * row + number - 1
}

// Returns the number of a check among the checks of a call, or `None` if the call does not have this check. The number
// is from 1 to 16.
fn number_of(x: &[u64; 8], refusal: Refusal) -> Option<usize>
    ensures number { result ≡ number_of (low (slice_index x.now 0)) refusal }
    ensures some { IfSome result (λ number. 1 ≤ number) }
    ensures few { IfSome result (λ number. number ≤ MOST_CHECKS) }
{
    check_number(low(x[0]), refusal)
}

// Returns the place of the count of an operation's check, or `None` if the operation does not have this check.
fn check_cell_of(op: &Op, refusal: Refusal) -> Option<usize>
    ensures cell { result ≡ check_cell_of op.now refusal }
    ensures few { IfSome result (λ cell. cell < CHECKS) }
{
    match op {
        Op::Call(x) => {
            let number = number_of(x, refusal)?;
            Some(check_cell(row_of(low(x[0])), number))
        }
        Op::Load { .. } | Op::Store { .. } | Op::Fetch { .. } => None,
    }
}

impl Counts {
    /// Returns counts that are all 0, for a machine about which nothing is known.
    pub fn new() -> Counts
        ensures cells { result.cells ≡ replicate CELLS 0 }
        ensures checks { result.checks ≡ replicate CHECKS 0 }
    {
        Counts {
            cells: [0; CELLS],
            checks: [0; CHECKS],
            everyone: Everyone::default(),
        }
    }

    /// Returns counts that are all 0, for the machine of a manifest.
    pub fn on(manifest: &Manifest) -> Counts
        ensures cells { result.cells ≡ replicate CELLS 0 }
        ensures checks { result.checks ≡ replicate CHECKS 0 }
    {
        let mut counts = Counts::new();
        counts.everyone = Everyone::of(manifest);
        counts
    }

    /// Counts the outcome of an operation. If `why` is a refused check of this operation's call, it counts this check
    /// as well.
    pub fn count(&mut self, op: &Op, outcome: &Outcome, why: Option<Why>)
        ensures cells { CountsOne (cell (row_of_operation op.now) (column_of outcome.now)) self.old.cells self.new.cells }
        ensures checks { CountsCheck (check_of op.now why) self.old.checks self.new.checks }
    {
        self.note(op, outcome);
        if let Some(Why::Refused { refusal, .. }) = why {
            self.note_check(op, refusal);
        }
    }

    /// Counts the outcome of an operation, without its check.
    pub fn note(&mut self, op: &Op, outcome: &Outcome)
        ensures cells { CountsOne (cell (row_of_operation op.now) (column_of outcome.now)) self.old.cells self.new.cells }
        ensures checks { self.new.checks ≡ self.old.checks }
    {
        let cell = cell(row_of_operation(op), column_of(outcome));
        self.cells[cell] = self.cells[cell].saturating_add(1);
    }

    /// Counts the check at which an operation was refused, if the operation's call has this check. Otherwise no count
    /// changes.
    pub fn note_check(&mut self, op: &Op, refusal: Refusal)
        ensures checks { CountsCheck (check_cell_of op.now refusal) self.old.checks self.new.checks }
        ensures cells { self.new.cells ≡ self.old.cells }
    {
        if let Some(cell) = check_cell_of(op, refusal) {
            self.checks[cell] = self.checks[cell].saturating_add(1);
        }
    }

    /// Returns how often a call was refused at a check. The registers of any call with this identifier name the call.
    /// Returns 0 if the call does not have this check.
    pub fn count_refused(&self, x: &[u64; 8], refusal: Refusal) -> u64
        ensures { result ≡ option_map_or (slice_index self.now.checks) (check_cell_of (Op.Call x.now) refusal) 0 }
    {
        match check_cell_of(&Op::Call(*x), refusal) {
            Some(cell) => self.checks[cell],
            None => 0,
        }
    }

    /// Returns how often a call succeeded, by its identifier in either form.
    pub fn successes(&self, function: u32) -> u64
        ensures { result ≡ slice_index self.now.cells (cell (place_in_rows function) 0) }
    {
        self.cells[cell(row_of(function), 0)]
    }

    /// Returns how often a call was refused with this error, by its identifier in either form.
    pub fn refusals(&self, function: u32, code: ErrorCode) -> u64
        ensures { result ≡ slice_index self.now.cells (cell (place_in_rows function) (column_of_error code)) }
    {
        self.cells[cell(row_of(function), column_of_error(code))]
    }

    /// Returns how often an access of this kind succeeded.
    pub fn count_done(&self, access: AccessKind) -> u64
        ensures { result ≡ slice_index self.now.cells (cell (row_of_access access) 0) }
    {
        self.cells[cell(row_of_access(access), 0)]
    }

    /// Returns how often an access of this kind ended in this fault.
    pub fn faults(&self, access: AccessKind, fault: FaultKind) -> u64
        ensures { result ≡ slice_index self.now.cells (cell (row_of_access access) (column_of_fault fault)) }
    {
        self.cells[cell(row_of_access(access), column_of_fault(fault))]
    }
}

impl Default for Counts {
    /// Returns counts that are all 0, for a machine about which nothing is known.
    fn default() -> Counts
        ensures cells { result.cells ≡ replicate CELLS 0 }
        ensures checks { result.checks ≡ replicate CHECKS 0 }
    {
        Counts::new()
    }
}
