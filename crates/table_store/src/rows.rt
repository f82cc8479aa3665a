//! The rows of the tables.
ghost use Rattle.std.specs.Prelude.{◌≡◌, ◌⊎◌, IfOk, IfErr, OnOk, OnErr};
ghost use Rattle.sqlite.specs.Held.{state};
ghost use Rattle.sqlite.specs.State.{HasCleanDisk, IsUnchanged, IsRolledBack, Survives};
ghost use Rattle.sqlite.specs.Tree.{without_rowid};
ghost use Rattle.sqlite.specs.Values.{bound};
ghost use Rattle.table_store.specs.Schema.{tree_number};
ghost use Rattle.table_store.specs.Transactions.{IsOfStore};
ghost use Rattle.table_store.specs.Values.{IsRow, AreDropped, with_row, HasTable, IsInside, IsLoaded, HasSet};

use crate::fault::{Failed, TableFault};
use crate::name::TableName;
use sqlite::{Alter, Connection, Row};
use sqlite_value::value::ValueRef;

/// Puts a row under its key, its first value. After a fault, as where `kept` has the word, either
/// nothing has changed or the transaction is undone.
pub fn put_row<S: Alter>(
    conn: &mut Connection<S>,
    table: TableName,
    values: &[ValueRef<'_>],
) -> Result<(), TableFault>
    requires inside { HasCleanDisk (state S.Store conn.old)
        → IsInside (state S.Store conn.old) }
    requires fits { IsRow table (bound values.now) }
    ensures put { HasCleanDisk (state S.Store conn.new)
        → OnOk result (HasSet table
        (with_row table (bound values.now) ((state S.Store conn.old).now.trees (tree_number table)))
        (state S.Store conn.old) (state S.Store conn.new)) }
    ensures failed { HasCleanDisk (state S.Store conn.new)
        → OnErr result (IsUnchanged (state S.Store conn.old) (state S.Store conn.new)
        ⊎ IsRolledBack (state S.Store conn.old) (state S.Store conn.new)) }
    ensures fault { IfErr result IsOfStore }
    ensures crash { Survives (state S.Store conn.old) (state S.Store conn.new) (λ _. ⊥) }
{
    match conn.execute(table.put_text(), values) {
        Ok(_) => Ok(()),
        Err(error) => Err(TableFault::Store(Failed::new(error))),
    }
}

/// Drops the row of a key, if it is there.
pub fn drop_row<S: Alter>(
    conn: &mut Connection<S>,
    table: TableName,
    key: i64,
) -> Result<(), TableFault>
    requires inside { HasCleanDisk (state S.Store conn.old)
        → IsInside (state S.Store conn.old) }
    requires dropped { AreDropped table }
    ensures gone { HasCleanDisk (state S.Store conn.new)
        → OnOk result (HasSet table
        (without_rowid key ((state S.Store conn.old).now.trees (tree_number table)))
        (state S.Store conn.old) (state S.Store conn.new)) }
    ensures failed { HasCleanDisk (state S.Store conn.new)
        → OnErr result (IsUnchanged (state S.Store conn.old) (state S.Store conn.new)
        ⊎ IsRolledBack (state S.Store conn.old) (state S.Store conn.new)) }
    ensures fault { IfErr result IsOfStore }
    ensures crash { Survives (state S.Store conn.old) (state S.Store conn.new) (λ _. ⊥) }
{
    match conn.execute(table.drop_text(), &[ValueRef::Int(key)]) {
        Ok(_) => Ok(()),
        Err(error) => Err(TableFault::Store(Failed::new(error))),
    }
}

/// All rows of a table, of this version's or of version 1's, the key first, in the order of the key: the words of `kept`
/// by their bytes.
pub fn load_rows<S: Alter>(
    conn: &mut Connection<S>,
    table: TableName,
) -> Result<Vec<Row>, TableFault>
    requires { HasCleanDisk (state S.Store conn.old) → HasTable table (state S.Store conn.old) }
    ensures loaded { HasCleanDisk (state S.Store conn.new)
        → IfOk result (λ rows.
        IsLoaded table ((state S.Store conn.old).now.trees (tree_number table)) rows.items) }
    ensures same { HasCleanDisk (state S.Store conn.new)
        → OnOk result (IsUnchanged (state S.Store conn.old) (state S.Store conn.new)) }
    ensures failed { HasCleanDisk (state S.Store conn.new)
        → OnErr result (IsUnchanged (state S.Store conn.old) (state S.Store conn.new)
        ⊎ IsRolledBack (state S.Store conn.old) (state S.Store conn.new)) }
    ensures store { IfErr result IsOfStore }
    ensures crash { Survives (state S.Store conn.old) (state S.Store conn.new) (λ _. ⊥) }
{
    match conn.query_all(table.load_text(), &[]) {
        Ok(rows) => Ok(rows),
        Err(error) => Err(TableFault::Store(Failed::new(error))),
    }
}
