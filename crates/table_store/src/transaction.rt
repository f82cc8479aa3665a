//! Transactions: all of their changes are kept, or none.
ghost use Rattle.std.specs.Prelude.{◌≡◌, ◌⊎◌, false, true, IfErr, OnOk, OnErr, IsTrue};
ghost use Rattle.sqlite.specs.Held.{state};
ghost use Rattle.sqlite.specs.State.{HasCleanDisk, Survives, Shows, IsUnchanged, IsRolledBack};
ghost use Rattle.table_store.specs.Values.{HasOldTables, HasTables};
ghost use Rattle.table_store.specs.Transactions.{Stops, IsBack, IsOfStore};

use crate::fault::{Failed, TableFault};
use sqlite::{Alter, Connection};

/// Begins a transaction. From now on only `commit` changes what a crash leaves.
pub fn begin<S: Alter>(conn: &mut Connection<S>) -> Result<(), TableFault>
    requires { HasCleanDisk (state S.Store conn.old)
        → (state S.Store conn.old).in_transaction ≡ false }
    ensures begun { HasCleanDisk (state S.Store conn.new)
        → OnOk result (Shows (state S.Store conn.old) (state S.Store conn.new)
        (state S.Store conn.old).now (state S.Store conn.old).committed true) }
    ensures tables { HasCleanDisk (state S.Store conn.new)
        → HasTables (state S.Store conn.old)
        → OnOk result (HasTables (state S.Store conn.new)) }
    ensures old_tables { HasCleanDisk (state S.Store conn.new)
        → HasOldTables (state S.Store conn.old)
        → OnOk result (HasOldTables (state S.Store conn.new)) }
    ensures stopped { HasCleanDisk (state S.Store conn.new)
        → IfErr result (Stops (state S.Store conn.old) (state S.Store conn.new)) }
    ensures fault { IfErr result IsOfStore }
    ensures crash { Survives (state S.Store conn.old) (state S.Store conn.new) (λ _. ⊥) }
{
    match conn.execute("BEGIN", &[]) {
        Ok(_) => Ok(()),
        Err(error) => Err(TableFault::Store(Failed::new(error))),
    }
}

/// Makes the transaction's tables those of the file. After `Store` a crash may leave these or the
/// former ones.
pub fn commit<S: Alter>(conn: &mut Connection<S>) -> Result<(), TableFault>
    requires { HasCleanDisk (state S.Store conn.old)
        → IsTrue (state S.Store conn.old).in_transaction }
    ensures committed { HasCleanDisk (state S.Store conn.new)
        → OnOk result (Shows (state S.Store conn.old) (state S.Store conn.new)
        (state S.Store conn.old).now (state S.Store conn.old).now false) }
    ensures tables { HasCleanDisk (state S.Store conn.new)
        → HasTables (state S.Store conn.old)
        → OnOk result (HasTables (state S.Store conn.new)) }
    ensures stopped { HasCleanDisk (state S.Store conn.new)
        → IfErr result (Stops (state S.Store conn.old) (state S.Store conn.new)) }
    ensures fault { IfErr result IsOfStore }
    ensures crash { Survives (state S.Store conn.old) (state S.Store conn.new)
        (λ trees. trees ≡ (state S.Store conn.old).now.trees) }
{
    match conn.execute("COMMIT", &[]) {
        Ok(_) => Ok(()),
        Err(error) => Err(TableFault::Store(Failed::new(error))),
    }
}

/// Whether the database still answers: it runs a text that does nothing.
fn still_answers<S: Alter>(conn: &mut Connection<S>) -> Result<(), TableFault>
    ensures same { HasCleanDisk (state S.Store conn.new)
        → OnOk result (IsUnchanged (state S.Store conn.old) (state S.Store conn.new)) }
    ensures failed { HasCleanDisk (state S.Store conn.new)
        → OnErr result (IsUnchanged (state S.Store conn.old) (state S.Store conn.new)
        ⊎ IsRolledBack (state S.Store conn.old) (state S.Store conn.new)) }
    ensures store { IfErr result IsOfStore }
    ensures crash { Survives (state S.Store conn.old) (state S.Store conn.new) (λ _. ⊥) }
{
    match conn.execute("", &[]) {
        Ok(_) => Ok(()),
        Err(error) => Err(TableFault::Store(Failed::new(error))),
    }
}

/// Ends the transaction, if one is open, and goes back to the last commit. It does no harm where
/// the database has done so by itself. Ok tells that the database still answers.
pub fn rollback<S: Alter>(conn: &mut Connection<S>) -> Result<(), TableFault>
    ensures undone { HasCleanDisk (state S.Store conn.new)
        → IsTrue (state S.Store conn.old).in_transaction
        → IsRolledBack (state S.Store conn.old) (state S.Store conn.new) }
    ensures back { HasCleanDisk (state S.Store conn.new)
        → IsBack (state S.Store conn.old) (state S.Store conn.new) }
    ensures open { HasCleanDisk (state S.Store conn.new)
        → OnOk result (IsTrue (state S.Store conn.new).is_open) }
    ensures store { IfErr result IsOfStore }
    ensures crash { Survives (state S.Store conn.old) (state S.Store conn.new) (λ _. ⊥) }
{
    if conn.is_autocommit() {
        return still_answers(conn);
    }
    match conn.execute("ROLLBACK", &[]) {
        Ok(_) => still_answers(conn),
        Err(error) => Err(TableFault::Store(Failed::new(error))),
    }
}
