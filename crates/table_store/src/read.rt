//! Rows of the machine are read from the tables.
ghost use Rattle.std.specs.Prelude.{◌≡◌, ◌↔◌, ◌⊎◌, ◌∷◌, ◌++◌, [], IfOk, IfErr, OnOk};
ghost use Rattle.std.specs.Prelude.{OnErr, IsTrue, MatchResult, ℕ, List, Some, map};
ghost use Rattle.sqlite.specs.Held.{state};
ghost use Rattle.sqlite.specs.State.{HasCleanDisk, IsUnchanged, IsRolledBack, Survives};
ghost use Rattle.sqlite_value.specs.Value.{owned};
ghost use Rattle.sqlite_value.specs.declared.value.Value.TheVariants.{Int, Text};
ghost use Rattle.sheet_core.specs.Columns.{Finds, Misses};
ghost use Rattle.table_store.specs.Faults.{NamesTable};
ghost use Rattle.table_store.specs.Stored.{column_of, columns_in, row_of, values_of};
ghost use Rattle.table_store.specs.Stored.{AreLoaded, FailsToLoad};
ghost use Rattle.table_store.specs.Transactions.{IsBadRow, IsOfReading, IsOfStore, MayUndo};
ghost use Rattle.table_store.specs.Values.{HasTable, HasTables};
ghost use Rattle.table_store.specs.Written.{tree_of, AreItsRows, IsTableOfNone, IsTableOfNoneOwn, RowsRise};
ghost use Rattle.table_store.specs.Written.{Suits, SuitKept};
ghost use Rattle.table_store.specs.declared.name.TableName.TheVariants.{Kept};

use crate::fault::{Failed, TableFault};
use crate::name::TableName;
use crate::rows::load_rows;
use crate::walk::each_row;
use sheet_core::{Column, ColumnFault, Row as KeyedRow, RowKey, Stored};
use sqlite::{Alter, Connection, Row};
use sqlite_value::value::ValueRef;
use std::alloc::{AllocError, Global};

/// The item behind the others.
pub(crate) fn push<T: Drop>(items: &mut Vec<T>, item: T) -> Result<(), AllocError>
    ensures { OnOk result (items.new.items ≡ items.old.items ++ item ∷ []) }
{
    Ok(items.push(item)?)
}

/// The column of a number: none where it is below 0.
fn whole_of(number: i64) -> Result<Column, ColumnFault>
    ensures { Finds result (column_of (Int number)) }
{
    match u64::try_from(number) {
        Ok(number) => Ok(Column::Whole(number)),
        Err(_) => Err(ColumnFault::NoRow),
    }
}

/// The column of a text: none where it isn't UTF-8.
fn text_of(alloc: Global, text: &[u8]) -> Result<Column, ColumnFault>
    ensures { Finds result (column_of (Text text.now)) }
{
    match std::str::from_utf8(text) {
        Ok(text) => Ok(Column::text(alloc, text)?),
        Err(_) => Err(ColumnFault::NoRow),
    }
}

/// The column that the value is.
fn column_of(alloc: Global, value: ValueRef<'_>) -> Result<Column, ColumnFault>
    ensures { Finds result (column_of (owned value.entry)) }
{
    match value {
        ValueRef::Null => Ok(Column::Absent),
        ValueRef::Int(number) => whole_of(number),
        ValueRef::Text(text) => text_of(alloc, text),
        _ => Err(ColumnFault::NoRow),
    }
}

/// The columns that the row's values are.
fn columns_of(alloc: Global, row: &Row) -> Result<Vec<Column>, ColumnFault>
    ensures { MatchResult result (λ columns. columns_in row.now ≡ Some columns.items)
        (λ fault. Misses fault (columns_in row.now)) }
{
    let mut columns = Vec::new(alloc);
    for at in 0..row.column_count() {
        match row.get_ref(at) {
            Ok(value) => push(&mut columns, column_of(alloc, value)?)?,
            Err(_) => unreachable!(),
        }
    }
    Ok(columns)
}

/// The row of the machine that the row of the table is.
pub(crate) fn row_of<R: Stored>(alloc: Global, row: &Row) -> Result<R, ColumnFault>
    ensures found { Finds result (row_of R.row_from row.now) }
    ensures told { IfOk result (λ read. values_of R.columns_of read ≡ row.now) }
{
    let columns = columns_of(alloc, row)?;
    R::from_columns(alloc, columns.as_slice())
}

/// An empty vector with room for so many items, or with none where there is no memory for so many.
fn with_room<T: Drop>(alloc: Global, expected: usize) -> Vec<T>
    ensures { result.items ≡ [] }
{
    let mut items = Vec::new(alloc);
    let _ = items.try_reserve_exact(expected);
    items
}

/// All rows of a table under numbers, as rows of the machine, in the order of their numbers. The table may be one of
/// version 1. Room is made at once for as many rows as are expected, so that a long list needn't be moved while it grows;
/// there may be more or fewer.
///
/// `BadRow` where one of them is none. `NoTable` is never answered: whether the tables are there is asked before.
pub fn load_sheet<S: Alter, R: Stored>(
    alloc: Global,
    conn: &mut Connection<S>,
    table: TableName,
    expected: usize,
) -> Result<Vec<R>, TableFault>
    requires { HasCleanDisk (state S.Store conn.old) → HasTable table (state S.Store conn.old) }
    ensures loaded { HasCleanDisk (state S.Store conn.new)
        → IfOk result (λ rows. AreLoaded R.row_from R.columns_of table
        (tree_of table (state S.Store conn.old)) rows.items) }
    ensures rows { HasCleanDisk (state S.Store conn.new)
        → IfOk result (λ rows. (digits : ℕ → List ℕ) → Suits R.columns_of R.key_of digits table
        → AreItsRows R.row_from R.columns_of R.key_of table
        (tree_of table (state S.Store conn.old)) rows.items) }
    ensures none { HasCleanDisk (state S.Store conn.new)
        → IfErr result (λ fault. (digits : ℕ → List ℕ) → Suits R.columns_of R.key_of digits table
        → IsBadRow fault
        → IsTableOfNone R.row_from R.columns_of table (tree_of table (state S.Store conn.old))) }
    ensures same { HasCleanDisk (state S.Store conn.new)
        → OnOk result (IsUnchanged (state S.Store conn.old) (state S.Store conn.new)) }
    ensures failed { HasCleanDisk (state S.Store conn.new)
        → IfErr result (FailsToLoad R.row_from table
        (state S.Store conn.old) (state S.Store conn.new)) }
    ensures named { IfErr result (NamesTable table) }
    ensures crash { Survives (state S.Store conn.old) (state S.Store conn.new) (λ _. ⊥) }
{
    let mut rows = with_room(alloc, expected);
    each_row::<S, R, Vec<R>>(alloc, conn, table, &mut rows)?;
    Ok(rows)
}

/// Whether the key of each row is below that of the next: rows in the order of their words have no word twice.
fn are_keys_rising<R: KeyedRow>(alloc: Global, rows: &[R]) -> Result<bool, AllocError>
    ensures { IfOk result (λ rise. IsTrue rise ↔ RowsRise R.key_of rows.now) }
{
    let Some(first) = rows.first() else {
        return Ok(true);
    };
    let mut last = first.key(alloc)?;
    for at in 1..rows.len() {
        let key = rows[at].key(alloc)?;
        if !last.compare(&key).is_lt() {
            return Ok(false);
        }
        last = key;
    }
    Ok(true)
}

/// All rows of `kept`, as rows of the machine, in the order of their words.
///
/// `BadRow` where one of them is none, or two have one word. `NoTable` is never answered.
pub fn load_kept<S: Alter, R: Stored>(
    alloc: Global,
    conn: &mut Connection<S>,
) -> Result<Vec<R>, TableFault>
    requires tables { HasCleanDisk (state S.Store conn.old) → HasTables (state S.Store conn.old) }
    requires suits { SuitKept R.columns_of R.key_of }
    ensures rows { HasCleanDisk (state S.Store conn.new)
        → IfOk result (λ rows. AreItsRows R.row_from R.columns_of R.key_of Kept
        (tree_of Kept (state S.Store conn.old)) rows.items) }
    ensures none { HasCleanDisk (state S.Store conn.new)
        → IfErr result (λ fault. IsBadRow fault
        → IsTableOfNoneOwn R.row_from R.columns_of R.key_of Kept
        (tree_of Kept (state S.Store conn.old))) }
    ensures same { HasCleanDisk (state S.Store conn.new)
        → OnOk result (IsUnchanged (state S.Store conn.old) (state S.Store conn.new)) }
    ensures failed { HasCleanDisk (state S.Store conn.new)
        → IfErr result (MayUndo (state S.Store conn.old) (state S.Store conn.new)) }
    ensures fault { IfErr result IsOfReading }
    ensures named { IfErr result (NamesTable Kept) }
    ensures crash { Survives (state S.Store conn.old) (state S.Store conn.new) (λ _. ⊥) }
{
    let mut rows = Vec::new(alloc);
    each_row::<S, R, Vec<R>>(alloc, conn, TableName::Kept, &mut rows)?;
    if are_keys_rising(alloc, rows.as_slice())? {
        Ok(rows)
    } else {
        Err(TableFault::BadRow(Failed::bad_row(TableName::Kept)))
    }
}

/// Whether a table has no row.
pub fn has_no_row<S: Alter>(conn: &mut Connection<S>, table: TableName) -> Result<bool, TableFault>
    requires { HasCleanDisk (state S.Store conn.old) → HasTables (state S.Store conn.old) }
    ensures value { HasCleanDisk (state S.Store conn.new)
        → IfOk result (λ none. IsTrue none ↔ (tree_of table (state S.Store conn.old) ≡ [])) }
    ensures same { HasCleanDisk (state S.Store conn.new)
        → OnOk result (IsUnchanged (state S.Store conn.old) (state S.Store conn.new)) }
    ensures failed { HasCleanDisk (state S.Store conn.new)
        → OnErr result (IsUnchanged (state S.Store conn.old) (state S.Store conn.new)
        ⊎ IsRolledBack (state S.Store conn.old) (state S.Store conn.new)) }
    ensures fault { IfErr result IsOfStore }
    ensures crash { Survives (state S.Store conn.old) (state S.Store conn.new) (λ _. ⊥) }
{
    Ok(load_rows(conn, table)?.is_empty())
}
