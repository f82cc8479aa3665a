//! Why a line of a run, or a row of an import, wasn't done, or what is told of it though it was.

use desk_core::Request;
use desk_wire::{ImportKind, WireFault, WrongField};
use part_core::{Id, Refusal};
use report_core::ReportName;

/// Where what wasn't done stands.
#[derive(Clone, Copy, Debug)]
pub enum Place {
    /// The line of a run, of which the first is 1.
    Line(u64),
    /// The row of a file, by the number that it has there.
    Row(u64),
}

/// Why something wasn't done, with what was read of it; or what was done of which a person may have meant something else.
#[derive(Clone, Copy)]
pub enum Why<'a> {
    /// The request was refused so.
    Refused {
        place: Place,
        request: &'a Request,
        refusal: Refusal,
    },
    /// The line of that number asks for this report of a row that isn't there.
    NoReport {
        line: u64,
        name: ReportName,
        of: Id,
    },
    /// The line has this fault. It was read with names or without.
    FaultyLine {
        names: bool,
        line: &'a [u8],
        fault: &'a WireFault,
    },
    /// The request was done, and it may have given a name that is near another, or blank.
    NewName {
        place: Place,
        request: &'a Request,
    },
    /// The file has this fault, in this field of a record, where it is in a field.
    FaultyFile {
        kind: ImportKind,
        fault: &'a WireFault,
        field: &'a Option<WrongField>,
    },
}
