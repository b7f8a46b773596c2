// SPDX-License-Identifier: MIT OR Apache-2.0
//! The report of a manifest that is rejected.
//!
//! Addresses and numbers of pages are in the form of a trace: hexadecimal in upper case without a prefix, and at least
//! eight digits for an address. Endpoints have their identifiers.

use crate::error::ManifestError;
use crate::error_start::ErrorStart;
use crate::text_place::TextPlace;
use ffa_model::{EndpointId, MOST_BLOCKS, MOST_RAM, Region};
use std::fmt;
use std::str::Utf8Error;

/// The cause for which a manifest is rejected, and the place. It prints as one line.
#[derive(Debug, Drop)]
pub struct ManifestRefusal {
    /// The first cause that applies, in the order in which the text is read.
    pub cause: ManifestError,
    /// The place at which the cause applies.
    pub place: Location,
    /// The byte, counted from 0, at which the text is not UTF-8. If the text is not TOML, it is the byte at which the
    /// parser's error begins.
    pub byte: Option<usize>,
}

/// The place at which a manifest is rejected.
#[derive(Debug, Drop)]
pub struct Location {
    /// The endpoint, or `None` in the top table.
    pub endpoint: Option<EndpointId>,
    /// The endpoint's region, counted from 1, or `None` in the endpoint's own table.
    pub region: Option<usize>,
    /// The thing that is wrong there.
    pub found: Found,
}

/// The thing that is wrong in a manifest. Keys, and values that are not numbers, are on one line. A value is written as
/// TOML. A key or a value that is cut ends in `...`.
#[derive(Debug, Drop)]
pub enum Found {
    /// The text is not UTF-8.
    NoText(Utf8Error),
    /// The text is not TOML. `said` is what the parser says of it, with a line and a column that count from 1, and
    /// `start` is where the parser's error begins.
    NoToml {
        said: String,
        start: ErrorStart,
    },
    /// The text is not TOML, because a control character is where the parser's error begins.
    Control {
        byte: u8,
        place: TextPlace,
        start: ErrorStart,
    },
    /// A key that is not one of the table's, and the nearest of the table's keys, if one is near.
    UnknownKey {
        key: String,
        near: Option<&'static str>,
    },
    /// One of the table's keys, which the table lacks.
    MissingKey(&'static str),
    /// The value at one of the table's keys, and what is wrong with it.
    Value {
        key: &'static str,
        value: String,
        fault: Fault,
    },
    /// The number at one of the table's keys that is an address or a number of pages, and what is wrong with it.
    Number {
        key: &'static str,
        number: i64,
        fault: Fault,
    },
    /// The array at one of the table's keys has `count` members, and not 1 to `most`.
    Count {
        key: &'static str,
        count: usize,
        most: usize,
    },
    /// The value that is there instead of the table of an endpoint or a region.
    NoTable(String),
    /// Whole pages that are not all where regions may be.
    Outside {
        base: u64,
        pages: u64,
        bounds: Bounds,
    },
    /// A region, and an earlier region that has a page of it too.
    Overlap {
        region: Region,
        met: MetRegion,
    },
}

/// A region that was read before, and its place in the manifest.
#[derive(Clone, Copy, Debug, PartialEq, Eq)]
pub struct MetRegion {
    pub endpoint: EndpointId,
    /// The place of the region among the endpoint's regions, counted from 0.
    pub place: usize,
    pub region: Region,
}

/// The bounds in which the regions of a machine may be: the addresses of the first byte, and of the byte after the
/// last.
#[derive(Clone, Copy, Debug, PartialEq, Eq)]
pub struct Bounds {
    pub first: u64,
    pub end: u64,
}

/// The reason why a value is wrong.
#[derive(Clone, Copy, Debug)]
pub enum Fault {
    /// No RAM begins at this address.
    RamBase,
    /// No RAM has this number of blocks.
    BlockCount,
    /// No region begins at this address.
    RegionBase(Bounds),
    /// No region has this number of pages.
    PageCount,
    /// A machine of FF-A 1.1 has no endpoint of this version, but a machine of FF-A 1.2 may have it.
    NewerVersion,
    /// The reason that these words give.
    Words(&'static str),
}

impl fmt::Display for Fault {
    fn fmt<W: fmt::Write>(&self, f: &mut fmt::Formatter<W>) -> fmt::Result {
        match self {
            Fault::RamBase => {
                let (least, most) = (MOST_RAM, (1 << 32) - MOST_RAM);
                write!(
                    f,
                    "must be a multiple of {least:08X}, from {least:08X} to {most:08X}"
                )
            }
            Fault::BlockCount => write!(f, "must be 1 to {MOST_BLOCKS}"),
            Fault::RegionBase(bounds) => write!(f, "must be a multiple of 1000, from {bounds}"),
            Fault::PageCount => write!(f, "must be 1 or more"),
            Fault::NewerVersion => write!(
                f,
                "must be \"1.1\" or \"compact\"; \"1.2\" needs a machine of FF-A 1.2"
            ),
            Fault::Words(words) => write!(f, "{words}"),
        }
    }
}

// A place, counted from 0, in words: 1st, 2nd and so on, up to the number of endpoints.
#[derive(Clone, Copy)]
struct Nth(usize);

impl fmt::Display for Nth {
    fn fmt<W: fmt::Write>(&self, f: &mut fmt::Formatter<W>) -> fmt::Result {
        match self.0 {
            0 => write!(f, "1st"),
            1 => write!(f, "2nd"),
            2 => write!(f, "3rd"),
            place => write!(f, "{}th", place.saturating_add(1)),
        }
    }
}

// A number in the form of a trace, with at least eight digits for an address. Its decimal digits follow if they are
// others, because a value of TOML does not show in which form it was written.
#[derive(Clone, Copy)]
struct Number {
    sign: &'static str,
    size: u64,
    is_address: bool,
}

impl Number {
    fn address(size: u64) -> Number {
        Number {
            sign: "",
            size,
            is_address: true,
        }
    }

    fn count(size: u64) -> Number {
        Number {
            sign: "",
            size,
            is_address: false,
        }
    }

    // Makes the number of a manifest that is wrong for this reason.
    fn refused(number: i64, fault: Fault) -> Number {
        Number {
            sign: if number < 0 { "-" } else { "" },
            size: number.unsigned_abs(),
            is_address: matches!(fault, Fault::RamBase | Fault::RegionBase(_)),
        }
    }
}

impl fmt::Display for Number {
    fn fmt<W: fmt::Write>(&self, f: &mut fmt::Formatter<W>) -> fmt::Result {
        let Number {
            sign,
            size,
            is_address,
        } = *self;
        if is_address {
            write!(f, "{sign}{size:08X} (decimal {sign}{size})")
        } else if size < 10 {
            write!(f, "{sign}{size}")
        } else {
            write!(f, "{sign}{size:X} (decimal {sign}{size})")
        }
    }
}

// Pages, which print as the addresses of their first and their last byte.
#[derive(Clone, Copy)]
struct Pages {
    base: u64,
    pages: u64,
}

impl fmt::Display for Pages {
    fn fmt<W: fmt::Write>(&self, f: &mut fmt::Formatter<W>) -> fmt::Result {
        let end = u128::from(self.base) + 4096 * u128::from(self.pages);
        write!(f, "{:08X} to {:08X}", self.base, end.saturating_sub(1))
    }
}

impl fmt::Display for Bounds {
    fn fmt<W: fmt::Write>(&self, f: &mut fmt::Formatter<W>) -> fmt::Result {
        write!(
            f,
            "{:08X} to {:08X}",
            self.first,
            self.end.saturating_sub(1)
        )
    }
}

impl fmt::Display for MetRegion {
    fn fmt<W: fmt::Write>(&self, f: &mut fmt::Formatter<W>) -> fmt::Result {
        let pages = Pages {
            base: u64::from(self.region.base),
            pages: u64::from(self.region.pages),
        };
        let number = self.place.saturating_add(1);
        write!(
            f,
            "endpoint {:04X}, region {number} has {pages}",
            self.endpoint.0
        )
    }
}

impl fmt::Display for ManifestRefusal {
    fn fmt<W: fmt::Write>(&self, f: &mut fmt::Formatter<W>) -> fmt::Result {
        if let Some(endpoint) = self.place.endpoint {
            let nth = Nth(endpoint.place());
            write!(f, "endpoint {:04X} (the {nth} [[endpoint]])", endpoint.0)?;
            if let Some(region) = self.place.region {
                write!(f, ", region {region}")?;
            }
            write!(f, ": ")?;
        }
        write!(f, "{}", self.place.found)
    }
}

impl std::error::Error for ManifestRefusal {}

// Writes the base and the number of pages of a region as the manifest has them, and the addresses of its first and its
// last byte.
fn write_region<W: fmt::Write>(f: &mut fmt::Formatter<W>, base: u64, pages: u64) -> fmt::Result {
    let (first, count) = (Number::address(base), Number::count(pages));
    let all = Pages { base, pages };
    write!(f, "base = {first}, pages = {count}: {all}")
}

impl fmt::Display for Found {
    fn fmt<W: fmt::Write>(&self, f: &mut fmt::Formatter<W>) -> fmt::Result {
        match self {
            Found::NoText(error) => write!(f, "{error}"),
            Found::NoToml { said, start: _ } => write!(f, "{said}"),
            Found::Control {
                byte,
                place,
                start: _,
            } => {
                let TextPlace { line, column } = *place;
                write!(f, "TOML parse error at line {line}, column {column}: ")?;
                write!(
                    f,
                    "control character \\x{byte:02X}, which TOML does not allow"
                )
            }
            Found::UnknownKey { key, near: None } => write!(f, "unknown key '{key}'"),
            Found::UnknownKey {
                key,
                near: Some(near),
            } => write!(f, "unknown key '{key}': did you mean '{near}'?"),
            Found::MissingKey(key) => write!(f, "missing key '{key}'"),
            Found::Value { key, value, fault } => write!(f, "{key} = {value}: {fault}"),
            Found::Number { key, number, fault } => {
                write!(f, "{key} = {}: {fault}", Number::refused(*number, *fault))
            }
            Found::Count { key, count, most } => {
                write!(f, "{key} has {count} members: must have 1 to {most}")
            }
            Found::NoTable(value) => write!(f, "{value} is not a table"),
            Found::Outside {
                base,
                pages,
                bounds,
            } => {
                write_region(f, *base, *pages)?;
                write!(f, "; regions must be in {bounds}")
            }
            Found::Overlap { region, met } => {
                write_region(f, u64::from(region.base), u64::from(region.pages))?;
                write!(f, "; {met}")
            }
        }
    }
}
