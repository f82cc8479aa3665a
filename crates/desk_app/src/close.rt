//! The end of a run on a file: the books are copied into it.
ghost use Rattle.std.specs.Prelude.{◌≡◌, ◌≢◌, ◌⊎◌, None, IfOk, IfErr, IsTrue, MatchResult};
ghost use Rattle.sqlite.specs.Files.{IsClosed, over_files};
ghost use Rattle.sqlite_store.specs.FileStore.{files as database_files};
ghost use Rattle.sqlite_wal.specs.Reads.{AreClean};
ghost use Rattle.desk_core.specs.ShopView.{state_of};
ghost use Rattle.desk_store.specs.Desks.{IsDesk};
ghost use Rattle.desk_app.specs.Closed.{KeepAlone};

use desk_core::RunEnd;
use desk_store::Desk;
use sqlite::{Error, FileStore, Files};
use sqlite_disk::Disk;

/// Copies what was committed out of the log into the database file, and hands the files back. From then on the database
/// file alone, with no log, holds the desk's state.
///
/// Where that fails the database is handed back, with the reason: what was answered stands in the file and its log, and
/// the next start finds it. So it is, too, of a desk that a fault of the database has closed: the last commit is copied where the
/// database still answers, be it that before the request at which it failed or that after it.
pub fn close_desk<D: Disk + Drop>(
    desk: Desk<FileStore<D>>,
) -> Result<Files<D>, (Error, FileStore<D>)>
    requires { IsDesk over_files desk }
    ensures alone { desk.failed ≡ None → IfOk result (λ files.
        AreClean D.Disk files.log files.db → KeepAlone D.Disk (state_of desk.shop) files) }
    ensures usable { IfOk result (λ files.
        IsTrue (D.Disk.is_usable files.log) × IsTrue (D.Disk.is_usable files.db)) }
    ensures quiet { IfOk result (λ files. (last : _)
        × (database_files last ≡ (files.log, files.db)) × IsClosed desk.conn last) }
    ensures kept { IfErr result (λ e. IsClosed desk.conn e.1) }
{
    match desk.close().close_files() {
        Ok(files) => Ok(files),
        Err((error, database)) => Err((error, database)),
    }
}

/// Closes the desk after work that ended so, and tells how both ended: where the file couldn't be closed, that is the
/// end.
pub fn end_of_work<D: Disk + Drop>(
    desk: Desk<FileStore<D>>,
    end: RunEnd,
) -> (RunEnd, Result<Files<D>, (Error, FileStore<D>)>)
    requires { IsDesk over_files desk }
    ensures told { MatchResult result.1 (λ _. result.0 ≡ end) (λ _. result.0 ≡ RunEnd.Store) }
    ensures alone { desk.failed ≡ None → IfOk result.1 (λ files.
        AreClean D.Disk files.log files.db → KeepAlone D.Disk (state_of desk.shop) files) }
    ensures usable { IfOk result.1 (λ files.
        IsTrue (D.Disk.is_usable files.log) × IsTrue (D.Disk.is_usable files.db)) }
    ensures quiet { IfOk result.1 (λ files. (last : _)
        × (database_files last ≡ (files.log, files.db)) × IsClosed desk.conn last) }
    ensures kept { IfErr result.1 (λ e. IsClosed desk.conn e.1) }
{
    match close_desk(desk) {
        Ok(files) => (end, Ok(files)),
        Err(unclosed) => (RunEnd::Store, Err(unclosed)),
    }
}

/// Lets go of what closing handed back, once nothing more is to be said of it: a clause could not name what is gone.
pub fn let_go<D: Disk + Drop>(left: Result<Files<D>, (Error, FileStore<D>)>) {
    match left {
        Ok(files) => drop(files),
        Err((_, database)) => drop(database.close()),
    }
}
