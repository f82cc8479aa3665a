//! What may be wrong with a line or with a file.
ghost use Rattle.std.specs.Prelude.{◌≡◌, option_map};
ghost use Rattle.desk_wire.specs.Faults.{fault_name, fault_field};

use crate::field_name::FieldName;
use std::alloc::{AllocError, AllocFailed};

/// Why a line, or a file, asks for nothing. The crate's page says which of several is told.
#[derive(Debug, Drop)]
pub enum What {
    /// A line has more than 65,536 bytes, or a file more than 16,777,216.
    TooLong,
    /// The line isn't JSON in UTF-8.
    NotJson,
    /// The line is JSON, and no object.
    NotObject,
    /// A member that must be there is missing.
    NoField,
    /// A member's value is of another type, or a number has a sign, a fraction or an exponent, or
    /// is 2 to the 64 or more. In an array the types of all elements come before what they say. In a
    /// record a field isn't a number as it is to be written.
    WrongType,
    /// `do` names no command.
    UnknownCommand,
    /// A member has a name that the command, or the report, doesn't know.
    UnknownField,
    /// The key isn't 1 to 80 visible characters of ASCII.
    BadKey,
    /// The day isn't `YYYY-MM-DD`, or the calendar hasn't it, or it isn't from 2000 to 2099.
    BadDay,
    /// A name or a batch isn't 1 to 200 bytes without control characters.
    BadText,
    /// The serials don't stand in a list as it is to be written.
    BadSerials,
    /// A status, a flag or a report of no such name, or a flag that stands twice.
    BadWord,
    /// No row has the name that stands for a row in that field.
    NoName(FieldName),
    /// Several rows have the name that stands in that field.
    Ambiguous(FieldName),
    /// A record of a file isn't text in UTF-8, or has another number of fields than the header:
    /// where the file is read loosely, or is of any command, more fields.
    Csv,
    /// The first record of a file isn't the header, or there is none. Where the file is read
    /// loosely, it doesn't name each column just once; where the file is of any command, it doesn't name a column that
    /// a line has to have, or names one twice.
    Header,
    /// The books have another number now than a record of a sheet says they had.
    Changed,
}

impl What {
    /// The fault's name, as a fault line has it.
    pub fn name(&self) -> &'static str
        ensures { result.now ≡ fault_name self.now }
    {
        match self {
            What::TooLong => "TooLong",
            What::NotJson => "NotJson",
            What::NotObject => "NotObject",
            What::NoField => "NoField",
            What::WrongType => "WrongType",
            What::UnknownCommand => "UnknownCommand",
            What::UnknownField => "UnknownField",
            What::BadKey => "BadKey",
            What::BadDay => "BadDay",
            What::BadText => "BadText",
            What::BadSerials => "BadSerials",
            What::BadWord => "BadWord",
            What::NoName(_) => "NoName",
            What::Ambiguous(_) => "Ambiguous",
            What::Csv => "Csv",
            What::Header => "Header",
            What::Changed => "Changed",
        }
    }

    /// The name of the field that is wrong, where the fault tells it.
    pub fn field(&self) -> Option<&'static str>
        ensures { option_map (λ name. name.now) result ≡ fault_field self.now }
    {
        match self {
            What::NoName(field) => Some(field.as_str()),
            What::Ambiguous(field) => Some(field.as_str()),
            _ => None,
        }
    }
}

/// What is wrong with a line and the line's number, or with a record of a file and the record's number.
/// Of a whole file it is 0.
#[derive(Debug, Drop)]
pub struct WireFault {
    pub line: u64,
    pub what: What,
}

/// A field that can't be read.
#[derive(Drop)]
pub struct WrongField {
    /// The name of a member of a line, or of a column of a file.
    pub name: String,
    /// What stands there: a value as JSON, or the text of a column. A member that is missing has none.
    pub text: Option<String>,
}

/// Why a file wasn't read.
#[derive(Drop)]
pub enum FileError {
    /// A growth was refused, as memory ran out.
    Memory,
    /// The first fault of the file, and the field of its record that can't be read, where it is a field.
    Wrong(WireFault, Option<WrongField>),
}

/// Why a line, or a file, wasn't read.
#[derive(Debug, Drop)]
pub enum ReadError {
    /// A growth was refused, as memory ran out.
    Memory,
    /// The line, or the file, asks for nothing.
    Wrong(WireFault),
}

/// Why a part of a line, or a record, wasn't read.
#[derive(Debug, Drop)]
pub enum Unread {
    /// A growth was refused, as memory ran out.
    Memory,
    Wrong(What),
}

impl From<AllocError> for Unread {
    ghost use Rattle.std.specs.Prelude.{◌≡◌};
    ghost use Rattle.desk_wire.specs.declared.fault.Unread.TheVariants.{Memory};

    ghost from_gives = { λ _ unread. unread ≡ Memory };

    fn from(_: AllocError) -> Self {
        Unread::Memory
    }
}

impl From<What> for Unread {
    ghost use Rattle.std.specs.Prelude.{◌≡◌};
    ghost use Rattle.desk_wire.specs.declared.fault.Unread.TheVariants.{Wrong};

    ghost from_gives = { λ what unread. unread ≡ Wrong what };

    fn from(what: What) -> Self {
        Unread::Wrong(what)
    }
}

impl From<AllocError> for ReadError {
    ghost use Rattle.std.specs.Prelude.{◌≡◌};
    ghost use Rattle.desk_wire.specs.declared.fault.ReadError.TheVariants.{Memory};

    ghost from_gives = { λ _ error. error ≡ Memory };

    fn from(_: AllocError) -> Self {
        ReadError::Memory
    }
}

impl<T: Drop> From<AllocFailed<T>> for ReadError {
    ghost use Rattle.std.specs.Prelude.{◌≡◌};
    ghost use Rattle.desk_wire.specs.declared.fault.ReadError.TheVariants.{Memory};

    ghost from_gives = { λ _ error. error ≡ Memory };

    fn from(_: AllocFailed<T>) -> Self {
        ReadError::Memory
    }
}

impl From<AllocError> for FileError {
    ghost use Rattle.std.specs.Prelude.{◌≡◌};
    ghost use Rattle.desk_wire.specs.declared.fault.FileError.TheVariants.{Memory};

    ghost from_gives = { λ _ error. error ≡ Memory };

    fn from(_: AllocError) -> Self {
        FileError::Memory
    }
}

impl<T: Drop> From<AllocFailed<T>> for FileError {
    ghost use Rattle.std.specs.Prelude.{◌≡◌};
    ghost use Rattle.desk_wire.specs.declared.fault.FileError.TheVariants.{Memory};

    ghost from_gives = { λ _ error. error ≡ Memory };

    fn from(_: AllocFailed<T>) -> Self {
        FileError::Memory
    }
}
