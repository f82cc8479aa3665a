//! Why a desk gave no answer, and why there is none.
use part_core::{CoreFault, Refusal};
use std::alloc::AllocError;
use std::fmt;
use table_store::{Failed, TableFault};

/// Why a request has no answer.
#[derive(Clone, Copy, Debug, PartialEq, Eq)]
pub enum Fault {
    /// The machine refuses it.
    Refused(Refusal),
    /// A growth was refused, and nothing has changed.
    Memory,
    /// The database failed as the request was written, and the desk is closed.
    Store,
    /// The desk was closed by an earlier fault of the database.
    Closed,
}

impl From<CoreFault> for Fault {
    ghost use Rattle.std.specs.Prelude.{◌≡◌};
    ghost use Rattle.desk_store.specs.Outcomes.{fault_of};

    ghost from_gives = { λ from fault. fault ≡ fault_of from };

    fn from(fault: CoreFault) -> Self {
        match fault {
            CoreFault::Refused(refusal) => Fault::Refused(refusal),
            CoreFault::Memory => Fault::Memory,
        }
    }
}

/// Why there is no desk. As text it is one line, for a person.
#[derive(Debug, Drop)]
pub enum OpenFault {
    /// A growth was refused.
    Memory,
    /// The database failed.
    Store(Failed),
    /// The database has other tables than a desk's, or those of a version that this program doesn't know.
    Foreign,
    /// The tables are those of version 1, which an earlier program wrote: `Desk::migrate` brings them along.
    Old,
    /// The rows are the tables of no sound state: a row of a table is none of the machine's, or they are together no
    /// state that a run could have left.
    Damaged(Option<Failed>),
}

impl From<AllocError> for OpenFault {
    ghost use Rattle.std.specs.Prelude.{◌≡◌};
    ghost use Rattle.desk_store.specs.declared.fault.OpenFault.TheVariants.{Memory};

    ghost from_gives = { λ _ fault. fault ≡ Memory };

    fn from(_: AllocError) -> Self {
        OpenFault::Memory
    }
}

impl From<TableFault> for OpenFault {
    ghost use Rattle.std.specs.Prelude.{◌≡◌};
    ghost use Rattle.desk_store.specs.Opening.{open_fault_of};

    ghost from_gives = { λ from fault. fault ≡ open_fault_of from };

    fn from(fault: TableFault) -> Self {
        match fault {
            TableFault::Memory => OpenFault::Memory,
            TableFault::Store(failed) => OpenFault::Store(failed),
            TableFault::NoTable(_) => OpenFault::Foreign,
            TableFault::BadRow(failed) => OpenFault::Damaged(Some(failed)),
        }
    }
}

impl fmt::Display for OpenFault {
    ghost use Rattle.desk_store.specs.Opening.{open_fault_text};

    ghost output = { open_fault_text };

    fn fmt<W: fmt::Write>(&self, f: &mut fmt::Formatter<W>) -> fmt::Result {
        match self {
            OpenFault::Memory => f.write_str("no memory"),
            OpenFault::Store(failed) => write!(f, "{failed}"),
            OpenFault::Foreign => f.write_str("the file is no workshop's, or of another version"),
            OpenFault::Old => {
                f.write_str("the file was written by an earlier version of this program")
            }
            OpenFault::Damaged(Some(failed)) => write!(f, "{failed}"),
            OpenFault::Damaged(None) => {
                f.write_str("the rows of the tables do not fit one another")
            }
        }
    }
}
