// SPDX-License-Identifier: MIT OR Apache-2.0
//! The text of counts.
use crate::counts::{AccessKind, Counts};
use crate::unreached::why_unreached;
use ffa_model::function::FFA_ERROR;
use ffa_model::{CALLS, ErrorCode, FaultKind, Refusal};
use play_reasons::{checks, words};
use std::fmt;

const ERRORS: [ErrorCode; 6] = [
    ErrorCode::NotSupported,
    ErrorCode::InvalidParameters,
    ErrorCode::NoMemory,
    ErrorCode::Busy,
    ErrorCode::Denied,
    ErrorCode::NoData,
];

const FAULTS: [FaultKind; 5] = [
    FaultKind::Translation,
    FaultKind::Permission,
    FaultKind::Alignment,
    FaultKind::AccessFlag,
    FaultKind::OutsideRam,
];

const ACCESSES: [AccessKind; 3] = [AccessKind::Load, AccessKind::Store, AccessKind::Fetch];

fn name_of_error(code: ErrorCode) -> &'static str {
    match code {
        ErrorCode::NotSupported => "NOT_SUPPORTED",
        ErrorCode::InvalidParameters => "INVALID_PARAMETERS",
        ErrorCode::NoMemory => "NO_MEMORY",
        ErrorCode::Busy => "BUSY",
        ErrorCode::Denied => "DENIED",
        ErrorCode::NoData => "NO_DATA",
    }
}

fn name_of_fault(fault: FaultKind) -> &'static str {
    match fault {
        FaultKind::Translation => "translation",
        FaultKind::Permission => "permission",
        FaultKind::Alignment => "alignment",
        FaultKind::AccessFlag => "access-flag",
        FaultKind::OutsideRam => "outside-ram",
    }
}

fn name_of_access(access: AccessKind) -> &'static str {
    match access {
        AccessKind::Load => "load",
        AccessKind::Store => "store",
        AccessKind::Fetch => "fetch",
    }
}

impl Counts {
    // Writes the line of a call: how often it succeeded, and how often each error came.
    fn put_call<W: fmt::Write>(
        &self,
        f: &mut fmt::Formatter<W>,
        name: &str,
        function: u32,
    ) -> fmt::Result {
        write!(f, "{name} {}", self.successes(function))?;
        for code in ERRORS {
            let count = self.refusals(function, code);
            if count > 0 {
                write!(f, ", {} {count}", name_of_error(code))?;
            }
        }
        writeln!(f)
    }

    // Writes the line of a kind of access: how often it succeeded, and how often each fault came.
    fn put_access<W: fmt::Write>(
        &self,
        f: &mut fmt::Formatter<W>,
        access: AccessKind,
    ) -> fmt::Result {
        write!(f, "{} {}", name_of_access(access), self.count_done(access))?;
        for fault in FAULTS {
            let count = self.faults(access, fault);
            if count > 0 {
                write!(f, ", {} {count}", name_of_fault(fault))?;
            }
        }
        writeln!(f)
    }

    // Writes a line for each check of a call, by the call's identifier.
    fn put_checks<W: fmt::Write>(
        &self,
        f: &mut fmt::Formatter<W>,
        name: &str,
        function: u32,
    ) -> fmt::Result {
        let mut number = 1;
        for check in checks(function) {
            write!(f, "{name} check {number}: {}: ", words(*check))?;
            self.put_check(f, function, *check)?;
            number = u64::saturating_add(number, 1);
        }
        Ok(())
    }

    // Writes how often a call was refused at a check, or why it never was.
    fn put_check<W: fmt::Write>(
        &self,
        f: &mut fmt::Formatter<W>,
        function: u32,
        check: Refusal,
    ) -> fmt::Result {
        let count = self.count_refused(&bare_call(function), check);
        if count > 0 {
            return writeln!(f, "{count}");
        }
        match why_unreached(self.everyone, function, check) {
            Some(reason) => writeln!(f, "not reached: {reason}"),
            None => writeln!(f, "not reached"),
        }
    }

    // Writes the lines of the checks of each call, and of the identifiers that are no call.
    fn put_all_checks<W: fmt::Write>(&self, f: &mut fmt::Formatter<W>) -> fmt::Result {
        for (function, name, _, _) in CALLS {
            self.put_checks(f, name, *function)?;
        }
        self.put_checks(f, "other", FFA_ERROR)
    }
}

// Returns the registers of a call without arguments.
fn bare_call(function: u32) -> [u64; 8] {
    [u64::from(function), 0, 0, 0, 0, 0, 0, 0]
}

/// Writes a line for each call, for all identifiers that are no call and for each kind of access. The line has a name,
/// the number of successes, and each error or fault that came, with its number. After these lines comes a line for each
/// check of each call. It says how often the check was the first to fail, or why no trace reached it, if the reason is
/// known.
impl fmt::Display for Counts {
    fn fmt<W: fmt::Write>(&self, f: &mut fmt::Formatter<W>) -> fmt::Result {
        for (function, name, _, _) in CALLS {
            self.put_call(f, name, *function)?;
        }
        self.put_call(f, "other", FFA_ERROR)?;
        for access in ACCESSES {
            self.put_access(f, access)?;
        }
        self.put_all_checks(f)
    }
}
