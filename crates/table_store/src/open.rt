//! Whether a file's tables are the desk's.
//!
//! A database may be anyone's until its schema has been compared, table by table and column by column, with that which
//! `create_tables` makes, and with that of version 1. What a connection keeps true of its database tells that the
//! tables are in order, so a connection that answers is used as it is. One that doesn't gives its database up, which is
//! opened once more: that reads all rows.
ghost use Rattle.std.specs.Prelude.{◌≡◌, ◌↔◌, ◌⊎◌, ◌≤◌, false, IsTrue, IfOk, IfErr};
ghost use Rattle.sqlite.specs.Held.{state};
ghost use Rattle.sqlite.specs.State.{HasCleanDisk};
ghost use Rattle.sqlite.specs.Tree.{Trees};
ghost use Rattle.sqlite_catalog.specs.Listing.{IsSound};
ghost use Rattle.sqlite_trees.specs.View.{doubt, IsClean};
ghost use Rattle.sqlite.specs.Steps.{IsFresh};
ghost use Rattle.table_store.specs.Opened.{IsAtRest, IsForeign, FailsToOpen};
ghost use Rattle.table_store.specs.Schema.{IsOwn, desk_schema, old_schema, schema_up_to};
ghost use Rattle.table_store.specs.Transactions.{IsOfStore};
ghost use Rattle.table_store.specs.Values.{HasOldTables, HasTables};

use crate::fault::{Failed, TableFault};
use crate::shape::{is_old, odd_table};
use crate::transaction::rollback;
use sqlite::{Alter, Connection, Error, ErrorCode};
use std::alloc::Global;

/// Whether the database has nothing: no table, no index and no view.
pub fn is_bare<S: Alter>(conn: &Connection<S>) -> bool
    ensures { IsTrue result ↔ ((state S.Store conn.now).now.schema ≡ schema_up_to 0) }
{
    let schema = conn.schema();
    schema.tables.is_empty() && schema.indexes.is_empty() && schema.views.is_empty()
}

/// Whether the database has the desk's tables, with their columns, and nothing else.
pub fn has_tables<S: Alter>(conn: &Connection<S>) -> bool
    ensures { IsTrue result ↔ ((state S.Store conn.now).now.schema ≡ desk_schema) }
{
    odd_table(conn.schema()).is_none()
}

/// Whether the database has the tables of version 1, which lack `spent`, with their columns, and nothing else.
pub fn has_old_tables<S: Alter>(conn: &Connection<S>) -> bool
    ensures { IsTrue result ↔ ((state S.Store conn.now).now.schema ≡ old_schema) }
{
    is_old(conn.schema())
}

/// The database of a connection, with the tables of the last commit.
fn given_back<S: Alter + Drop>(conn: Connection<S>) -> S
    ensures fresh { IsClean (S.Store.view result) → (S.Store.view result).is_broken ≡ false
        → IsFresh (S.Store.view result) }
    ensures trees { IsTrue (S.Store.view result).is_open
        → (S.Store.view result).trees ≡ (state S.Store conn).committed.trees }
    ensures live { IsClean (S.Store.view result) → IsTrue (S.Store.view result).is_open
        → IsTrue (state S.Store conn).is_open }
    ensures clean { doubt (state S.Store conn).is_clean ≤ doubt (S.Store.view result).is_clean }
    ensures left { (trees : Trees) → S.Store.recovers result trees
        → (state S.Store conn).may_leave trees }
{
    conn.into_store()
}

/// A connection over the database, of which all rows are read and checked.
fn opened<S: Alter + Drop>(alloc: Global, database: S) -> Result<Connection<S>, (TableFault, S)>
    requires { IsClean (S.Store.view database) → (S.Store.view database).is_broken ≡ false
        → IsFresh (S.Store.view database) }
    ensures rest { IfOk result (λ c. HasCleanDisk (state S.Store c)
        → IsAtRest (state S.Store c)) }
    ensures sound { IfOk result (λ c. HasCleanDisk (state S.Store c)
        → IsSound (state S.Store c).now.schema (state S.Store c).now.trees) }
    ensures live { IfOk result (λ c. HasCleanDisk (state S.Store c)
        → IsTrue (S.Store.view database).is_open) }
    ensures same { IfOk result (λ c. HasCleanDisk (state S.Store c)
        → (state S.Store c).now.trees ≡ (S.Store.view database).trees) }
    ensures clean { IfOk result (λ c.
        doubt (S.Store.view database).is_clean ≤ doubt (state S.Store c).is_clean) }
    ensures left { IfOk result (λ c. HasCleanDisk (state S.Store c) → (trees : Trees)
        → (state S.Store c).may_leave trees → S.Store.recovers database trees) }
    ensures fault { IfErr result (λ e. IsOfStore e.0) }
    ensures unspoilt { IfErr result (λ e.
        doubt (S.Store.view database).is_clean ≤ doubt (S.Store.view e.1).is_clean) }
    ensures kept { IfErr result (λ e. IsClean (S.Store.view e.1)
        → IsTrue (S.Store.view e.1).is_open
        → IsTrue (S.Store.view database).is_open
        × ((S.Store.view e.1).trees ≡ (S.Store.view database).trees)) }
    ensures harmless { IfErr result (λ e. (trees : Trees)
        → S.Store.recovers e.1 trees → S.Store.recovers database trees) }
{
    if database.is_broken() {
        let error = Error::SqliteFailure(ErrorCode::Closed);
        return Err((TableFault::Store(Failed::new(error)), database));
    }
    match Connection::over(alloc, database) {
        Ok(conn) => Ok(conn),
        Err((error, database)) => Err((TableFault::Store(Failed::new(error)), database)),
    }
}

/// The connection with nothing begun: as it is where it answers, since another open reads all rows again, and opened
/// once more where it doesn't.
fn at_rest<S: Alter + Drop>(
    alloc: Global,
    mut conn: Connection<S>,
) -> Result<Connection<S>, (TableFault, S)>
    ensures rest { IfOk result (λ c. HasCleanDisk (state S.Store c)
        → IsAtRest (state S.Store c)) }
    ensures sound { IfOk result (λ c. HasCleanDisk (state S.Store c)
        → IsSound (state S.Store c).now.schema (state S.Store c).now.trees) }
    ensures same { IfOk result (λ c. HasCleanDisk (state S.Store c)
        → (state S.Store c).now.trees ≡ (state S.Store conn).committed.trees) }
    ensures clean { IfOk result (λ c. HasCleanDisk (state S.Store c)
        → HasCleanDisk (state S.Store conn)) }
    ensures left { IfOk result (λ c. HasCleanDisk (state S.Store c) → (trees : Trees)
        → (state S.Store c).may_leave trees → (state S.Store conn).may_leave trees) }
    ensures fault { IfErr result (λ e. IsOfStore e.0) }
    ensures kept { IfErr result (λ e. IsClean (S.Store.view e.1)
        → IsTrue (S.Store.view e.1).is_open
        → (S.Store.view e.1).trees ≡ (state S.Store conn).committed.trees) }
    ensures harmless { IfErr result (λ e. IsClean (S.Store.view e.1) → (trees : Trees)
        → S.Store.recovers e.1 trees → (state S.Store conn).may_leave trees) }
{
    match rollback(&mut conn) {
        Ok(()) => Ok(conn),
        Err(_) => opened(alloc, given_back(conn)),
    }
}

/// The connection, where its tables are the desk's, or those of version 1.
fn compared<S: Alter + Drop>(conn: Connection<S>) -> Result<Connection<S>, (TableFault, S)>
    requires rest { HasCleanDisk (state S.Store conn) → IsAtRest (state S.Store conn) }
    requires sound { HasCleanDisk (state S.Store conn)
        → IsSound (state S.Store conn).now.schema (state S.Store conn).now.trees }
    ensures same { IfOk result (λ c. c ≡ conn) }
    ensures own { IfOk result (λ c. IsOwn (state S.Store c).now.schema) }
    ensures tables { IfOk result (λ c. HasCleanDisk (state S.Store c)
        → HasTables (state S.Store c) ⊎ HasOldTables (state S.Store c)) }
    ensures foreign { IfErr result (λ e. IsClean (S.Store.view e.1)
        → FailsToOpen (state S.Store conn).now.trees e.0) }
    ensures kept { IfErr result (λ e. IsClean (S.Store.view e.1)
        → IsTrue (S.Store.view e.1).is_open
        → (S.Store.view e.1).trees ≡ (state S.Store conn).now.trees) }
    ensures clean { IfErr result (λ e.
        doubt (state S.Store conn).is_clean ≤ doubt (S.Store.view e.1).is_clean) }
    ensures harmless { IfErr result (λ e. (trees : Trees)
        → S.Store.recovers e.1 trees → (state S.Store conn).may_leave trees) }
{
    match odd_table(conn.schema()) {
        None => Ok(conn),
        Some(_) if is_old(conn.schema()) => Ok(conn),
        Some(name) => {
            let fault = TableFault::NoTable(Failed::no_table(name));
            Err((fault, given_back(conn)))
        }
    }
}

/// The connection, where its tables are the desk's, or those of version 1: `NoTable` where they are neither. What isn't
/// committed is rolled back. The database that is handed back after a fault has the tables of the last commit.
pub fn open_tables<S: Alter + Drop>(
    alloc: Global,
    conn: Connection<S>,
) -> Result<Connection<S>, (TableFault, S)>
    ensures tables { IfOk result (λ c. HasCleanDisk (state S.Store c)
        → HasTables (state S.Store c) ⊎ HasOldTables (state S.Store c)) }
    ensures sound { IfOk result (λ c. HasCleanDisk (state S.Store c)
        → IsSound (state S.Store c).now.schema (state S.Store c).now.trees) }
    ensures own { IfOk result (λ c. HasCleanDisk (state S.Store c)
        → ¬ IsForeign (state S.Store conn).committed.trees) }
    ensures rest { IfOk result (λ c. HasCleanDisk (state S.Store c)
        → IsAtRest (state S.Store c)) }
    ensures same { IfOk result (λ c. HasCleanDisk (state S.Store c)
        → (state S.Store c).now.trees ≡ (state S.Store conn).committed.trees) }
    ensures clean { IfOk result (λ c. HasCleanDisk (state S.Store c)
        → HasCleanDisk (state S.Store conn)) }
    ensures left { IfOk result (λ c. HasCleanDisk (state S.Store c) → (trees : Trees)
        → (state S.Store c).may_leave trees → (state S.Store conn).may_leave trees) }
    ensures failed { IfErr result (λ e. IsClean (S.Store.view e.1)
        → FailsToOpen (state S.Store conn).committed.trees e.0) }
    ensures kept { IfErr result (λ e. IsClean (S.Store.view e.1)
        → IsTrue (S.Store.view e.1).is_open
        → (S.Store.view e.1).trees ≡ (state S.Store conn).committed.trees) }
    ensures harmless { IfErr result (λ e. IsClean (S.Store.view e.1) → (trees : Trees)
        → S.Store.recovers e.1 trees → (state S.Store conn).may_leave trees) }
{
    match at_rest(alloc, conn) {
        Ok(conn) => compared(conn),
        Err(failed) => Err(failed),
    }
}
