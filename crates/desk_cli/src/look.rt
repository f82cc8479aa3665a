//! A look at a file that is to be opened, and at what lies beside it. It makes nothing and changes nothing: it asks what
//! lies at a name, and opens only what is there. `remove_log` alone changes something: it takes away a log that has
//! nothing.
ghost use Rattle.std.specs.Prelude.{◌≡◌, IfErr, Some};
ghost use Rattle.desk_cli.specs.FileFaults.{IsOfOpening};
ghost use Rattle.desk_cli.specs.Looks.{content_of, fault_of_file, fault_of_log, is_foreign, is_kept_name};

use crate::database::FileFault;
use std::alloc::AllocError;
use std::fs::OpenOptions;
use std::io::{ErrorKind, Read};
use std::os::unix::fs::MetadataExt;
use std::path::Path;
use std::{fs, io};

/// What lies at a name.
#[derive(Clone, Copy, Debug, PartialEq, Eq)]
pub enum Found {
    Nothing,
    /// A link, wherever it leads.
    Link,
    /// A file that has this name alone.
    File,
    /// A file that has other names besides.
    SharedFile,
    /// A folder, a device, a pipe or a socket.
    Other,
}

/// What a file has, as far as it is told without a database.
#[derive(Clone, Copy, Debug, PartialEq, Eq)]
pub enum Content {
    /// There is no file.
    Absent,
    /// The file has no byte.
    Empty,
    /// It begins as no database does.
    Foreign,
    /// What it has, the database has to tell.
    Database,
}

/// How many bytes each database begins with.
const FRONT: u64 = 16;

/// How many bytes a log has that has nothing.
const LOG_HEADER: u64 = 41;

/// Whether the database keeps the name for itself.
fn is_kept_name(path: &str) -> bool
    ensures { result ≡ is_kept_name path.now }
{
    path == ":memory:" || path.as_bytes().starts_with(b"file:")
}

/// What is wrong with what lies at the file's name, once links were followed.
fn fault_of_file(found: Found) -> Option<FileFault>
    ensures { result ≡ fault_of_file found }
{
    match found {
        Found::Nothing | Found::File => None,
        Found::Link => Some(FileFault::DanglingLink),
        Found::SharedFile => Some(FileFault::SecondName),
        Found::Other => Some(FileFault::NoFile),
    }
}

/// What is wrong with what lies at the log's name.
fn fault_of_log(found: Found) -> Option<FileFault>
    ensures { result ≡ fault_of_log found }
{
    match found {
        Found::Nothing | Found::File => None,
        Found::Link => Some(FileFault::LinkedLog),
        Found::SharedFile => Some(FileFault::SecondLog),
        Found::Other => Some(FileFault::NoLog),
    }
}

/// Whether the log, which this user owns if there is one, belongs neither to the owner of its file nor to the user that the
/// program acts as.
fn is_foreign(log: Option<u32>, owner: u32, user: u32) -> bool
    ensures { result ≡ is_foreign log owner user }
{
    match log {
        Some(log) => !(log == owner || log == user),
        None => false,
    }
}

/// What a file has that begins so: these are its first sixteen bytes, or all.
fn content_of(front: &[u8]) -> Content
    ensures { result ≡ content_of front.now }
{
    if front.is_empty() {
        Content::Empty
    } else if front.starts_with(b"SQLite format 3\0") {
        Content::Database
    } else {
        Content::Foreign
    }
}

/// What lies at the name itself: a link isn't followed.
fn find(rt: &HostRuntime, path: &str) -> io::Result<Found> {
    let found = match fs::symlink_metadata(rt, path) {
        Ok(found) => found,
        Err(error) if error.kind() == ErrorKind::NotFound => return Ok(Found::Nothing),
        Err(error) => return Err(error),
    };
    Ok(if found.is_symlink() {
        Found::Link
    } else if !found.is_file() {
        Found::Other
    } else if found.nlink() > 1 {
        Found::SharedFile
    } else {
        Found::File
    })
}

/// The user that the program acts as, to whom the files belong that it makes. Which one that is no clause says.
pub fn acting_user() -> u32 {
    libc::geteuid()
}

/// The owner of what lies at the name itself, if anything does.
fn owner_at(rt: &HostRuntime, path: &str) -> io::Result<Option<u32>> {
    match fs::symlink_metadata(rt, path) {
        Ok(found) => Ok(Some(found.uid())),
        Err(error) if error.kind() == ErrorKind::NotFound => Ok(None),
        Err(error) => Err(error),
    }
}

/// The path, or what the links at it lead to. Where that isn't there it is the path.
fn place_of(rt: &HostRuntime, path: &str) -> Result<String, FileFault>
    ensures { IfErr result IsOfOpening }
{
    match fs::canonicalize(rt, path) {
        Ok(place) => Ok(String::from_str(rt.alloc(), place.as_str())?),
        Err(error) if error.kind() == ErrorKind::NotFound => {
            Ok(String::from_str(rt.alloc(), path)?)
        }
        Err(error) => Err(FileFault::from(error)),
    }
}

/// The folder of a path: where it names none, the one that the program runs in.
fn folder_of(path: &str) -> &str {
    match Path::new(path).parent() {
        Some(folder) if folder.as_str().is_empty() => ".",
        Some(folder) => folder.as_str(),
        None => path,
    }
}

/// The names of the file's log and of the journal that other programs make.
fn names_beside(rt: &HostRuntime, place: &str) -> Result<(String, String), AllocError> {
    let log = format!(in rt.alloc(); "{place}-wal")?;
    let journal = format!(in rt.alloc(); "{place}-journal")?;
    Ok((log, journal))
}

/// Whether a journal lies there that is to be played back: one that is empty, or begins with a zero, has nothing.
fn is_hot(rt: &HostRuntime, journal: &str) -> io::Result<bool> {
    match find(rt, journal)? {
        Found::Nothing => Ok(false),
        Found::Link | Found::Other => Ok(true),
        Found::File | Found::SharedFile => {
            let mut first = [0];
            let mut journal = fs::open(rt, journal)?;
            Ok(journal.read(&mut first)? == 1 && first[0] != 0)
        }
    }
}

fn fail_with(fault: Option<FileFault>) -> Result<(), FileFault>
    ensures { IfErr result (λ told. fault ≡ Some told) }
{
    match fault {
        Some(fault) => Err(fault),
        None => Ok(()),
    }
}

/// Why the file at the place will not be opened, as far as what lies at its log's name tells. Whoever writes a log writes
/// the books, as the database plays back what it finds there: so it has to be the file's owner's or the user's own.
fn look_at_log(rt: &HostRuntime, place: &str, log: &str) -> Result<(), FileFault>
    ensures { IfErr result IsOfOpening }
{
    fail_with(fault_of_log(find(rt, log)?))?;
    let user = acting_user();
    // A file that isn't there is to be this user's.
    let owner = owner_at(rt, place)?.unwrap_or(user);
    if is_foreign(owner_at(rt, log)?, owner, user) {
        return Err(FileFault::ForeignLog);
    }
    Ok(())
}

/// Why the file will not be opened, as far as the names at its path and beside it tell. Another program may have it open.
pub fn look_at(rt: &HostRuntime, path: &str) -> Result<(), FileFault>
    ensures { IfErr result IsOfOpening }
{
    if is_kept_name(path) {
        return Err(FileFault::KeptName);
    }
    let place = place_of(rt, path)?;
    let found = find(rt, place.as_str())?;
    fail_with(fault_of_file(found))?;
    // The folder is opened with the database, to be sure of what is written.
    let _folder = fs::open(rt, folder_of(place.as_str()))?;
    let (log, journal) = names_beside(rt, place.as_str())?;
    look_at_log(rt, place.as_str(), log.as_str())?;
    if found == Found::Nothing && is_hot(rt, journal.as_str())? {
        return Err(FileFault::HotJournal);
    }
    Ok(())
}

/// Opens what is there to be read and written, as a database is. Where nothing is, it can't be made.
fn may_be_opened(rt: &HostRuntime, path: &str) -> Result<(), FileFault>
    ensures { IfErr result IsOfOpening }
{
    if find(rt, path)? == Found::Nothing {
        return Err(FileFault::NotMade);
    }
    let _file = OpenOptions::new().read(true).write(true).open(rt, path)?;
    Ok(())
}

/// Why the database didn't open the file, which no other program has open.
pub fn look_closer(rt: &HostRuntime, path: &str) -> Result<(), FileFault>
    ensures { IfErr result IsOfOpening }
{
    look_at(rt, path)?;
    let place = place_of(rt, path)?;
    let (log, journal) = names_beside(rt, place.as_str())?;
    if is_hot(rt, journal.as_str())? {
        return Err(FileFault::HotJournal);
    }
    may_be_opened(rt, place.as_str())?;
    may_be_opened(rt, log.as_str())
}

/// Whether the log there has anything.
fn has_bytes(rt: &HostRuntime, log: &str) -> io::Result<bool> {
    match fs::symlink_metadata(rt, log) {
        Ok(found) => Ok(found.len() > 0),
        Err(error) if error.kind() == ErrorKind::NotFound => Ok(false),
        Err(error) => Err(error),
    }
}

/// The first bytes of the file, as many as each database begins with.
fn front_of(rt: &HostRuntime, place: &str) -> io::Result<Vec<u8>> {
    let mut front = Vec::new(rt.alloc());
    fs::open(rt, place)?.take(FRONT).read_to_end(&mut front)?;
    Ok(front)
}

/// What the file at the path has. Where its log has something, it is for the database to tell: a run that was stopped may
/// have left both half made.
pub fn look_into(rt: &HostRuntime, path: &str) -> Result<Content, FileFault>
    ensures { IfErr result IsOfOpening }
{
    look_at(rt, path)?;
    let place = place_of(rt, path)?;
    if find(rt, place.as_str())? == Found::Nothing {
        return Ok(Content::Absent);
    }
    let (log, _) = names_beside(rt, place.as_str())?;
    if has_bytes(rt, log.as_str())? {
        return Ok(Content::Database);
    }
    let front = front_of(rt, place.as_str())?;
    Ok(content_of(&front))
}

/// Whether a log lies beside the file at the path.
pub fn has_log(rt: &HostRuntime, path: &str) -> Result<bool, FileFault>
    ensures { IfErr result IsOfOpening }
{
    let place = place_of(rt, path)?;
    let (log, _) = names_beside(rt, place.as_str())?;
    Ok(find(rt, log.as_str())? != Found::Nothing)
}

/// Takes away the log beside the file at the path, if it has nothing. The file is held open meanwhile, or is no database,
/// so no other program has the two.
pub fn remove_log(rt: &HostRuntime, path: &str) -> Result<(), FileFault>
    ensures { IfErr result IsOfOpening }
{
    let place = place_of(rt, path)?;
    let (log, _) = names_beside(rt, place.as_str())?;
    if fs::symlink_metadata(rt, log.as_str())?.len() <= LOG_HEADER {
        fs::remove_file(rt, log.as_str())?;
    }
    Ok(())
}
