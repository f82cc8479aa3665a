//! The changes of a sheet go into its table, and what a log was given.
ghost use Rattle.std.specs.Prelude.{◌≡◌, ◌⊎◌, ◌∷◌, ◌<◌, ◌^◌, [], ℕ, Some, map};
ghost use Rattle.std.specs.Prelude.{IfErr, IfOk, OnOk, OnErr, All, option_copied};
ghost use Rattle.std.specs.FinMap.{insert, remove};
ghost use Rattle.sqlite.specs.Held.{state};
ghost use Rattle.sqlite.specs.State.{HasCleanDisk, KeepsCommit, Survives};
ghost use Rattle.sqlite.specs.Values.{bound, bound_value};
ghost use Rattle.sqlite_value.specs.Value.{owned};
ghost use Rattle.sheet_core.specs.Columns.{IsSmall, AreSmall};
ghost use Rattle.sheet_core.specs.Filled.{StandUnderKeys, filled_onto};
ghost use Rattle.sheet_core.specs.RowKeys.{number_digits};
ghost use Rattle.sheet_core.specs.Rows.{StayThere};
ghost use Rattle.sheet_core.specs.Sheet.{Table, given, now_of};
ghost use Rattle.table_store.specs.Stored.{value_of, column_of, columns_in};
ghost use Rattle.table_store.specs.Transactions.{IsOfMemoryOrStore, IsOfStore, MayUndo};
ghost use Rattle.table_store.specs.Values.{AreDropped};
ghost use Rattle.table_store.specs.Written.{tree_of, IsReady, IsTableOf, MayStop};
ghost use Rattle.table_store.specs.Written.{Writes, Suits, Takes, changes_of, given_all};

use crate::fault::TableFault;
use crate::name::TableName;
use crate::rows::{drop_row, put_row};
use sheet_core::{Column, Log, Pending, Row, Sheet, Stored};
use sqlite::{Alter, Connection};
use sqlite_value::value::ValueRef;
use std::alloc::{AllocError, Global};

/// The value of a column, which is read as that column.
fn value_of(column: &Column) -> ValueRef<'_>
    requires { IsSmall column.now }
    ensures value { bound_value (owned result) ≡ value_of column.now }
    ensures read { column_of (value_of column.now) ≡ Some column.now }
{
    match column {
        Column::Whole(number) => ValueRef::Int(*number as i64),
        Column::Text(text) => ValueRef::Text(text.as_str().as_bytes()),
        Column::Absent => ValueRef::Null,
    }
}

/// The values of the columns, which are read as those columns.
pub(crate) fn values_of(alloc: Global, columns: &[Column]) -> Result<Vec<ValueRef<'_>>, AllocError>
    requires { All IsSmall columns.now }
    ensures values { IfOk result (λ values. bound values.items ≡ map value_of columns.now) }
    ensures read { IfOk result (λ _. columns_in (map value_of columns.now) ≡ Some columns.now) }
{
    let mut values = Vec::new(alloc);
    for column in columns {
        values.push(value_of(column))?;
    }
    Ok(values)
}

/// Puts a row of the machine under its number, in the place of the one that stands there. After `Memory` nothing has
/// changed, and after `Store` the transaction may be undone.
pub fn write_row<S: Alter, R: Stored + Row<Key = u64>>(
    alloc: Global,
    conn: &mut Connection<S>,
    table: TableName,
    row: &R,
) -> Result<(), TableFault>
    requires ready { HasCleanDisk (state S.Store conn.old) → IsReady (state S.Store conn.old) }
    requires suits { Suits R.columns_of R.key_of number_digits table }
    requires small { All IsSmall (R.columns_of row.now) }
    ensures set { HasCleanDisk (state S.Store conn.new)
        → OnOk result (Writes table (state S.Store conn.old) (state S.Store conn.new)) }
    ensures put { HasCleanDisk (state S.Store conn.new) → (rows : Table R)
        → StandUnderKeys R.key_of rows
        → IsTableOf R.row_from R.columns_of table (tree_of table (state S.Store conn.old)) rows
        → OnOk result (IsTableOf R.row_from R.columns_of table
        (tree_of table (state S.Store conn.new))
        (insert rows (R.key_of row.now) row.now)) }
    ensures failed { HasCleanDisk (state S.Store conn.new)
        → IfErr result (MayUndo (state S.Store conn.old) (state S.Store conn.new)) }
    ensures fault { IfErr result IsOfMemoryOrStore }
    ensures crash { Survives (state S.Store conn.old) (state S.Store conn.new) (λ _. ⊥) }
{
    let columns = row.columns(alloc)?;
    let values = values_of(alloc, columns.as_slice())?;
    put_row(conn, table, values.as_slice())
}

/// Drops the row of a number.
fn remove_row<S: Alter, R: Stored + Row<Key = u64>>(
    conn: &mut Connection<S>,
    table: TableName,
    number: u64,
) -> Result<(), TableFault>
    requires ready { HasCleanDisk (state S.Store conn.old) → IsReady (state S.Store conn.old) }
    requires suits { Suits R.columns_of R.key_of number_digits table }
    requires dropped { AreDropped table }
    requires small { number < 2 ^ 63 }
    ensures set { HasCleanDisk (state S.Store conn.new)
        → OnOk result (Writes table (state S.Store conn.old) (state S.Store conn.new)) }
    ensures gone { HasCleanDisk (state S.Store conn.new) → (rows : Table R)
        → StandUnderKeys R.key_of rows
        → IsTableOf R.row_from R.columns_of table (tree_of table (state S.Store conn.old)) rows
        → OnOk result (IsTableOf R.row_from R.columns_of table
        (tree_of table (state S.Store conn.new))
        (remove rows (number ∷ []))) }
    ensures failed { HasCleanDisk (state S.Store conn.new)
        → IfErr result (MayUndo (state S.Store conn.old) (state S.Store conn.new)) }
    ensures fault { IfErr result IsOfStore }
    ensures crash { Survives (state S.Store conn.old) (state S.Store conn.new) (λ _. ⊥) }
{
    drop_row(conn, table, number as i64)
}

/// Makes one change in the table.
fn write_change<S: Alter, R: Stored + Row<Key = u64>>(
    alloc: Global,
    conn: &mut Connection<S>,
    table: TableName,
    change: &Pending<'_, R>,
) -> Result<(), TableFault>
    requires ready { HasCleanDisk (state S.Store conn.old) → IsReady (state S.Store conn.old) }
    requires suits { Suits R.columns_of R.key_of number_digits table }
    requires takes { Takes R.columns_of R.key_of table
        (number_digits change.now.key.now) (option_copied change.now.row) }
    ensures set { HasCleanDisk (state S.Store conn.new)
        → OnOk result (Writes table (state S.Store conn.old) (state S.Store conn.new)) }
    ensures made { HasCleanDisk (state S.Store conn.new) → (rows : Table R)
        → StandUnderKeys R.key_of rows
        → IsTableOf R.row_from R.columns_of table (tree_of table (state S.Store conn.old)) rows
        → OnOk result (IsTableOf R.row_from R.columns_of table
        (tree_of table (state S.Store conn.new))
        (given (number_digits change.now.key.now) (option_copied change.now.row) rows)) }
    ensures failed { HasCleanDisk (state S.Store conn.new)
        → IfErr result (MayUndo (state S.Store conn.old) (state S.Store conn.new)) }
    ensures fault { IfErr result IsOfMemoryOrStore }
    ensures crash { Survives (state S.Store conn.old) (state S.Store conn.new) (λ _. ⊥) }
{
    match change.row {
        Some(row) => write_row::<S, R>(alloc, conn, table, row),
        None => remove_row::<S, R>(conn, table, *change.key),
    }
}

/// Makes the changes in the table, in their order.
fn write_changes<S: Alter, R: Stored + Row<Key = u64>>(
    alloc: Global,
    conn: &mut Connection<S>,
    table: TableName,
    changes: &[Pending<'_, R>],
) -> Result<(), TableFault>
    requires ready { HasCleanDisk (state S.Store conn.old) → IsReady (state S.Store conn.old) }
    requires suits { Suits R.columns_of R.key_of number_digits table }
    requires takes { All (λ c. Takes R.columns_of R.key_of table c.0 c.1)
        (changes_of number_digits changes.now) }
    ensures set { HasCleanDisk (state S.Store conn.new)
        → OnOk result (Writes table (state S.Store conn.old) (state S.Store conn.new)) }
    ensures made { HasCleanDisk (state S.Store conn.new) → (rows : Table R)
        → StandUnderKeys R.key_of rows
        → IsTableOf R.row_from R.columns_of table (tree_of table (state S.Store conn.old)) rows
        → OnOk result (IsTableOf R.row_from R.columns_of table
        (tree_of table (state S.Store conn.new))
        (given_all (changes_of number_digits changes.now) rows)) }
    ensures failed { HasCleanDisk (state S.Store conn.new)
        → IfErr result (MayStop table (state S.Store conn.old) (state S.Store conn.new)) }
    ensures fault { IfErr result IsOfMemoryOrStore }
    ensures crash { Survives (state S.Store conn.old) (state S.Store conn.new) (λ _. ⊥) }
{
    for change in changes {
        write_change::<S, R>(alloc, conn, table, change)?;
    }
    Ok(())
}

/// The changes of a sheet since the request began go into its table, within the transaction that the caller
/// began: each row that there is now is put, and each that there was is dropped.
///
/// Each row is written before the next is made ready, so that the values of one row are held at a time. After `Memory`
/// the rows before it stand in the table, and the transaction is still open: the caller's `rollback` takes them back.
/// After `Store` the transaction may be undone already.
pub fn write_pending<S: Alter, R: Stored + Row<Key = u64>>(
    alloc: Global,
    conn: &mut Connection<S>,
    table: TableName,
    sheet: &Sheet<R>,
) -> Result<(), TableFault>
    requires ready { HasCleanDisk (state S.Store conn.old) → IsReady (state S.Store conn.old) }
    requires suits { Suits R.columns_of R.key_of number_digits table }
    requires own { StandUnderKeys R.key_of (now_of sheet.now)
        × StandUnderKeys R.key_of sheet.now.before }
    requires small { AreSmall R.columns_of (now_of sheet.now)
        × AreSmall R.columns_of sheet.now.before }
    requires stays { AreDropped table ⊎ StayThere sheet.now.before (now_of sheet.now) }
    requires before { HasCleanDisk (state S.Store conn.old)
        → IsTableOf R.row_from R.columns_of table (tree_of table (state S.Store conn.old))
        sheet.now.before }
    ensures written { HasCleanDisk (state S.Store conn.new)
        → OnOk result (IsTableOf R.row_from R.columns_of table
        (tree_of table (state S.Store conn.new)) (now_of sheet.now)) }
    ensures set { HasCleanDisk (state S.Store conn.new)
        → OnOk result (Writes table (state S.Store conn.old) (state S.Store conn.new)) }
    ensures failed { HasCleanDisk (state S.Store conn.new)
        → IfErr result (MayStop table (state S.Store conn.old) (state S.Store conn.new)) }
    ensures commit { HasCleanDisk (state S.Store conn.new)
        → KeepsCommit (state S.Store conn.old) (state S.Store conn.new) }
    ensures fault { IfErr result IsOfMemoryOrStore }
    ensures crash { Survives (state S.Store conn.old) (state S.Store conn.new) (λ _. ⊥) }
{
    let changes = sheet.pending()?;
    write_changes::<S, R>(alloc, conn, table, changes.as_slice())
}

/// Puts the rows in the table, in their order.
fn write_rows<S: Alter, R: Stored + Row<Key = u64>>(
    alloc: Global,
    conn: &mut Connection<S>,
    table: TableName,
    rows: &[R],
) -> Result<(), TableFault>
    requires ready { HasCleanDisk (state S.Store conn.old) → IsReady (state S.Store conn.old) }
    requires suits { Suits R.columns_of R.key_of number_digits table }
    requires small { All (λ row. All IsSmall (R.columns_of row)) rows.now }
    ensures set { HasCleanDisk (state S.Store conn.new)
        → OnOk result (Writes table (state S.Store conn.old) (state S.Store conn.new)) }
    ensures put { HasCleanDisk (state S.Store conn.new) → (old : Table R)
        → StandUnderKeys R.key_of old
        → IsTableOf R.row_from R.columns_of table (tree_of table (state S.Store conn.old)) old
        → OnOk result (IsTableOf R.row_from R.columns_of table
        (tree_of table (state S.Store conn.new)) (filled_onto R.key_of old rows.now)) }
    ensures failed { HasCleanDisk (state S.Store conn.new)
        → IfErr result (MayStop table (state S.Store conn.old) (state S.Store conn.new)) }
    ensures fault { IfErr result IsOfMemoryOrStore }
    ensures crash { Survives (state S.Store conn.old) (state S.Store conn.new) (λ _. ⊥) }
{
    for row in rows {
        write_row::<S, R>(alloc, conn, table, row)?;
    }
    Ok(())
}

/// The rows that a log was given since the request began go into its table, within the transaction that the caller
/// began. The faults are those of `write_pending`.
pub fn write_log<S: Alter, R: Stored + Row<Key = u64>>(
    alloc: Global,
    conn: &mut Connection<S>,
    table: TableName,
    log: &Log<R>,
) -> Result<(), TableFault>
    requires ready { HasCleanDisk (state S.Store conn.old) → IsReady (state S.Store conn.old) }
    requires suits { Suits R.columns_of R.key_of number_digits table }
    requires own { StandUnderKeys R.key_of log.now.before }
    requires small { AreSmall R.columns_of (now_of log.now) }
    requires before { HasCleanDisk (state S.Store conn.old)
        → IsTableOf R.row_from R.columns_of table (tree_of table (state S.Store conn.old))
        log.now.before }
    ensures written { HasCleanDisk (state S.Store conn.new)
        → OnOk result (IsTableOf R.row_from R.columns_of table
        (tree_of table (state S.Store conn.new)) (now_of log.now)) }
    ensures set { HasCleanDisk (state S.Store conn.new)
        → OnOk result (Writes table (state S.Store conn.old) (state S.Store conn.new)) }
    ensures failed { HasCleanDisk (state S.Store conn.new)
        → IfErr result (MayStop table (state S.Store conn.old) (state S.Store conn.new)) }
    ensures commit { HasCleanDisk (state S.Store conn.new)
        → KeepsCommit (state S.Store conn.old) (state S.Store conn.new) }
    ensures fault { IfErr result IsOfMemoryOrStore }
    ensures crash { Survives (state S.Store conn.old) (state S.Store conn.new) (λ _. ⊥) }
{
    write_rows::<S, R>(alloc, conn, table, log.pending())
}
