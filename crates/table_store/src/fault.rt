//! Why a call on the tables didn't do what it says.
ghost use Rattle.std.specs.Prelude.{◌≡◌};
ghost use Rattle.table_store.specs.declared.fault.Cause.{Cause};

use crate::name::TableName;
use sqlite::Error;
use std::alloc::AllocError;
use std::fmt;

/// What is known of a fault.
#[derive(Debug, Drop)]
enum Cause {
    /// What a call of the database answered in place of a value.
    Database(Error),
    /// The file has no such table, or another one under its name.
    NoTable(TableName),
    /// A row of the table is none that the program writes.
    BadRow(TableName),
    /// There was no memory for a row, within a transaction that had others.
    NoMemory,
    /// Another file lies at the path of the one that was opened, or none.
    Displaced,
}

/// What is known of a fault. As text it is one line, for a person.
#[derive(Debug, Drop)]
pub struct Failed {
    cause: Cause,
}

impl Failed {
    /// Keeps the error to this crate.
    pub(crate) fn new(error: Error) -> Failed
        ensures { result.cause ≡ Cause.Database error }
    {
        Failed {
            cause: Cause::Database(error),
        }
    }

    /// Of a table that isn't as it should be.
    pub(crate) fn no_table(table: TableName) -> Failed
        ensures { result.cause ≡ Cause.NoTable table }
    {
        Failed {
            cause: Cause::NoTable(table),
        }
    }

    /// Of a row for which there was no memory.
    pub fn no_memory() -> Failed
        ensures { result.cause ≡ Cause.NoMemory }
    {
        Failed {
            cause: Cause::NoMemory,
        }
    }

    /// Of a file that doesn't lie any more where it was opened.
    pub fn displaced() -> Failed
        ensures { result.cause ≡ Cause.Displaced }
    {
        Failed {
            cause: Cause::Displaced,
        }
    }

    /// Of a row that isn't one of the table.
    pub(crate) fn bad_row(table: TableName) -> Failed
        ensures { result.cause ≡ Cause.BadRow table }
    {
        Failed {
            cause: Cause::BadRow(table),
        }
    }
}

impl fmt::Display for Failed {
    ghost use Rattle.table_store.specs.Faults.{failed_text};

    ghost output = { failed_text };

    fn fmt<W: fmt::Write>(&self, f: &mut fmt::Formatter<W>) -> fmt::Result {
        match &self.cause {
            Cause::Database(error) => write!(f, "the database answered: {error}"),
            Cause::NoTable(table) => write!(f, "the table {} is not as it should be", table.name()),
            Cause::BadRow(table) => write!(f, "a row of the table {} makes no sense", table.name()),
            Cause::NoMemory => f.write_str("there was no memory for a row"),
            Cause::Displaced => f.write_str(
                "another file lies at its path now, or none, so nothing more is kept in the one that lay there",
            ),
        }
    }
}

/// Why a call on the tables didn't do what it says.
#[derive(Debug, Drop)]
pub enum TableFault {
    /// A growth of our own was refused.
    Memory,
    /// The database failed, or ran out of memory itself, which ends the transaction too.
    Store(Failed),
    /// The file's tables aren't the desk's, of this version or of version 1.
    NoTable(Failed),
    /// A table has a row that is none of the program's.
    BadRow(Failed),
}

impl From<AllocError> for TableFault {
    ghost use Rattle.std.specs.Prelude.{◌≡◌};
    ghost use Rattle.table_store.specs.declared.fault.TableFault.TheVariants.{Memory};

    ghost from_gives = { λ _ fault. fault ≡ Memory };

    fn from(_: AllocError) -> Self {
        TableFault::Memory
    }
}
