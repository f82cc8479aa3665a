//! The file that keeps a workshop, and why it has no desk.
ghost use Rattle.std.specs.Prelude.{◌≡◌, false, IfErr, IfOk};
ghost use Rattle.desk_cli.specs.FileFaults.{IsOfOpening};

use crate::look::{look_at, look_closer};
use desk_store::OpenFault;
use sqlite::{Connection, Error, ErrorCode, File, FileStore};
use std::alloc::AllocError;
use std::fs::{self, OpenOptions};
use std::os::unix::fs::OpenOptionsExt;
use std::{fmt, io};

/// What the mode of a file that is made gives: to read and to write, to its owner alone.
const PRIVATE: u32 = 0o600;

/// Why there is no desk. As text it is the reason alone, for a person.
#[derive(Debug, Drop)]
pub enum FileFault {
    /// A growth was refused.
    Memory,
    /// There is nothing at the path.
    Missing,
    /// The path is a folder's, or another's that is no file.
    NoFile,
    /// The folder of the path isn't there.
    NoFolder,
    /// The file, its log or its folder may not be read or written.
    NotAllowed,
    /// The database keeps the name for itself, as `:memory:` and what begins with `file:`.
    KeptName,
    /// A link lies at the path, and what it leads to isn't there.
    DanglingLink,
    /// The file has a second name, under which another program could open it without being seen.
    SecondName,
    /// Another program left the journal of a change that it didn't end.
    HotJournal,
    /// A link lies where the file's log is to be.
    LinkedLog,
    /// A folder or a device lies where the file's log is to be.
    NoLog,
    /// The file's log has a second name.
    SecondLog,
    /// The file's log belongs neither to the file's owner nor to the user that the program acts as.
    ForeignLog,
    /// The file, or its log, isn't there and can't be made in its folder.
    NotMade,
    /// The file can't be looked at.
    Device(io::Error),
    /// Another program has the file open.
    InUse,
    /// The file is no database, or a database that is damaged.
    NoDatabase,
    /// The database can't be opened.
    Database(Error),
    /// The database has other tables than a desk's.
    OtherTables,
    /// The tables are those of a version that this program doesn't know.
    OtherVersion,
    /// An earlier program wrote the file, which can be brought along.
    Old,
    /// The database has no desk: it failed, or its rows are damaged.
    Desk(OpenFault),
}

impl From<AllocError> for FileFault {
    ghost use Rattle.desk_cli.specs.declared.database.FileFault.TheVariants.{Memory};

    ghost from_gives = { λ _ fault. fault ≡ Memory };

    fn from(_: AllocError) -> Self {
        FileFault::Memory
    }
}

impl From<OpenFault> for FileFault {
    ghost use Rattle.desk_cli.specs.FileFaults.{file_fault_of};

    ghost from_gives = { λ from fault. fault ≡ file_fault_of from };

    fn from(fault: OpenFault) -> Self {
        match fault {
            OpenFault::Memory => FileFault::Memory,
            OpenFault::Foreign => FileFault::OtherVersion,
            OpenFault::Old => FileFault::Old,
            fault => FileFault::Desk(fault),
        }
    }
}

impl From<Error> for FileFault {
    ghost use Rattle.desk_cli.specs.FileFaults.{IsOfOpening, file_fault_at};

    ghost from_gives = { λ from fault. (fault ≡ file_fault_at from) × IsOfOpening fault };

    fn from(error: Error) -> Self {
        match error {
            Error::SqliteFailure(ErrorCode::OutOfMemory) => FileFault::Memory,
            Error::SqliteFailure(ErrorCode::DatabaseBusy) => FileFault::InUse,
            Error::SqliteFailure(ErrorCode::NotADatabase | ErrorCode::DatabaseCorrupt) => {
                FileFault::NoDatabase
            }
            error => FileFault::Database(error),
        }
    }
}

impl From<io::Error> for FileFault {
    ghost use Rattle.std.specs.IoError.{error_kind};
    ghost use Rattle.desk_cli.specs.FileFaults.{IsOfOpening, file_fault_by};

    ghost from_gives = { λ from fault.
        (fault ≡ file_fault_by (error_kind from) from) × IsOfOpening fault };

    fn from(error: io::Error) -> Self {
        match error.kind() {
            io::ErrorKind::OutOfMemory => FileFault::Memory,
            io::ErrorKind::IsADirectory => FileFault::NoFile,
            io::ErrorKind::NotFound | io::ErrorKind::NotADirectory => FileFault::NoFolder,
            io::ErrorKind::PermissionDenied | io::ErrorKind::ReadOnlyFilesystem => {
                FileFault::NotAllowed
            }
            _ => FileFault::Device(error),
        }
    }
}

impl fmt::Display for FileFault {
    ghost use Rattle.desk_cli.specs.FileFaults.{file_fault_text};

    ghost output = { file_fault_text };

    fn fmt<W: fmt::Write>(&self, f: &mut fmt::Formatter<W>) -> fmt::Result {
        match self {
            FileFault::Memory => f.write_str("no memory for the desk"),
            FileFault::Missing => f.write_str("there is no such file"),
            FileFault::NoFile => f.write_str("it is no file, but a folder or a device"),
            FileFault::NoFolder => f.write_str("its folder isn't there"),
            FileFault::NotAllowed => {
                f.write_str("the file or its folder may not be read and written")
            }
            FileFault::KeptName => {
                f.write_str("the database keeps such a name for itself: write ./ before it")
            }
            FileFault::DanglingLink => f.write_str("it is a link to a file that isn't there"),
            FileFault::SecondName => {
                f.write_str("it has a second name, and a workshop may have one alone")
            }
            FileFault::HotJournal => f.write_str(
                "beside it lies the journal of a change that another program didn't end: open it with sqlite3 first",
            ),
            FileFault::LinkedLog => f.write_str("a link lies where its log is to be"),
            FileFault::NoLog => f.write_str("a folder or a device lies where its log is to be"),
            FileFault::SecondLog => f.write_str("its log has a second name"),
            FileFault::ForeignLog => f.write_str(
                "another user owns its log, which has the file's name and -wal behind it",
            ),
            FileFault::NotMade => f.write_str("it, or its log, can't be made in its folder"),
            FileFault::Device(error) => write!(f, "{error}"),
            FileFault::InUse => f.write_str(
                "another program has it open; where that serves it, say --at PORT in the place of --db",
            ),
            FileFault::NoDatabase => f.write_str("it is no database, or a damaged one"),
            FileFault::Database(error) => write!(f, "the database answered: {error}"),
            FileFault::OtherTables => f.write_str("it is a database, and no workshop's"),
            FileFault::OtherVersion => f.write_str("it is a workshop's of another version"),
            FileFault::Old => {
                f.write_str(
                    "it was written by an earlier version of this program; `invdesk migrate --db FILE` brings it along",
                )
            }
            FileFault::Desk(fault) => write!(f, "{fault}"),
        }
    }
}

/// A file without a desk, and why. As text it is one line, for a person.
#[derive(Debug, Drop)]
pub struct FaultyFile<'a> {
    pub path: &'a str,
    pub fault: FileFault,
}

impl fmt::Display for FaultyFile<'_> {
    ghost use Rattle.desk_cli.specs.FileFaults.{faulty_file_text};

    ghost output = { faulty_file_text };

    fn fmt<W: fmt::Write>(&self, f: &mut fmt::Formatter<W>) -> fmt::Result {
        let (path, fault) = (self.path, &self.fault);
        write!(f, "{path}: {fault}")
    }
}

/// Makes the file where there is none, with access for its owner alone. The database, which else would make one that all may
/// read, gives the log the access of the file. A file that is there stays as it is, its mode too.
fn make_private(rt: &HostRuntime, path: &str) -> Result<(), FileFault>
    ensures { IfErr result IsOfOpening }
{
    if fs::exists(rt, path)? {
        return Ok(());
    }
    match OpenOptions::new()
        .write(true)
        .create_new(true)
        .mode(PRIVATE)
        .open(rt, path)
    {
        Ok(_) => Ok(()),
        // Another program has made it meanwhile.
        Err(error) if error.kind() == io::ErrorKind::AlreadyExists => Ok(()),
        Err(error) => {
            look_closer(rt, path)?;
            Err(FileFault::from(error))
        }
    }
}

/// Opens the file, which is made where there is none, for its owner alone. A file that can't be opened is told by what lies
/// at its path and beside it; nothing is made then.
pub fn connect(rt: &HostRuntime, path: &str) -> Result<Connection<FileStore<File>>, FileFault>
    ensures free { IfOk result (λ conn. conn.in_transaction ≡ false) }
    ensures why { IfErr result IsOfOpening }
{
    look_at(rt, path)?;
    make_private(rt, path)?;
    match Connection::open(rt, path) {
        Ok(conn) => Ok(conn),
        Err(Error::SqliteFailure(ErrorCode::CannotOpen)) => {
            look_closer(rt, path)?;
            Err(FileFault::Database(Error::SqliteFailure(ErrorCode::CannotOpen)))
        }
        Err(error) => Err(FileFault::from(error)),
    }
}
