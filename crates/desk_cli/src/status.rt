//! The status that the program ends with.
ghost use Rattle.std.specs.Prelude.{◌≡◌};
ghost use Rattle.desk_cli.specs.Statuses.{status_of, status_of_fault};

use crate::database::FileFault;
use desk_core::RunEnd;

/// Something was refused or faulty.
pub const NOT_ALL: u8 = 1;
/// The words are wrong.
pub const WRONG_WORDS: u8 = 2;
/// The reader, the writer or the file failed.
pub const DEVICE: u8 = 3;
/// There was no memory.
pub const MEMORY: u8 = 4;

/// The status of a run that ended so.
pub fn status_of(end: RunEnd) -> u8
    ensures { result ≡ status_of end }
{
    match end {
        RunEnd::Done(true) => 0,
        RunEnd::Done(false) => NOT_ALL,
        RunEnd::ReadFailed | RunEnd::WriteFailed | RunEnd::Store => DEVICE,
        RunEnd::Memory => MEMORY,
    }
}

/// The status where there is no desk.
pub fn status_of_fault(fault: &FileFault) -> u8
    ensures { result ≡ status_of_fault fault.now }
{
    match fault {
        FileFault::Memory => MEMORY,
        _ => DEVICE,
    }
}
