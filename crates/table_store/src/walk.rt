//! The rows of a table, one after another, as the database reads them.
ghost use Rattle.std.specs.Prelude.{◌≡◌, ◌++◌, ◌∷◌, [], Some, IfOk, IfErr, OnErr, OnOk};
ghost use Rattle.sqlite.specs.Held.{state};
ghost use Rattle.sqlite.specs.State.{HasCleanDisk, IsUnchanged, Survives};
ghost use Rattle.table_store.specs.Faults.{NamesTable};
ghost use Rattle.table_store.specs.Stored.{row_of, values_of, FailsToLoad, FailsToRead};
ghost use Rattle.table_store.specs.Transactions.{IsOfReading};
ghost use Rattle.table_store.specs.Values.{HasTable};
ghost use Rattle.table_store.specs.Walked.{TakesAll, TakesFront};
ghost use Rattle.table_store.specs.Written.{tree_of};

use crate::fault::{Failed, TableFault};
use crate::name::TableName;
use crate::read::row_of;
use sheet_core::{ColumnFault, Stored};
use sqlite::{Alter, Connection, Error, ErrorCode, Row};
use std::alloc::{AllocError, Global};

/// What takes the rows of a table as they come.
pub trait Visitor<R> {
    /// What taking a row makes of it.
    ghost takes: { Self → R → Self → Type 0 };

    /// What it may be left as where it took none.
    ghost keeps: { Self → Self → Type 0 };

    /// Takes one more row; after an error it has taken none.
    fn take(&mut self, row: R) -> Result<(), AllocError>
        ensures takes { OnOk result (takes self.old row self.new) }
        ensures keeps { OnErr result (keeps self.old self.new) };
}

/// A list takes a row as its last.
impl<R: Drop> Visitor<R> for Vec<R> {
    ghost takes = { λ old row new. new.items ≡ old.items ++ row ∷ [] };

    ghost keeps = { λ old new. new.items ≡ old.items };

    fn take(&mut self, row: R) -> Result<(), AllocError> {
        Ok(self.push(row)?)
    }
}

/// The row of the machine that the row of the table is.
fn read_row<R: Stored>(alloc: Global, table: TableName, row: &Row) -> Result<R, TableFault>
    ensures read { IfOk result (λ read. row_of R.row_from row.now ≡ Some read) }
    ensures told { IfOk result (λ read. values_of R.columns_of read ≡ row.now) }
    ensures failed { IfErr result (FailsToRead R.row_from (row.now ∷ [])) }
    ensures fault { IfErr result IsOfReading }
    ensures named { IfErr result (NamesTable table) }
{
    match row_of::<R>(alloc, row) {
        Ok(row) => Ok(row),
        Err(ColumnFault::Memory) => Err(TableFault::Memory),
        Err(ColumnFault::NoRow) => Err(TableFault::BadRow(Failed::bad_row(table))),
    }
}

/// Hands all rows of a table to the visitor, as rows of the machine and in the order of the key: each as the database
/// reads it, so that no list of them is made. The table may be one of version 1.
///
/// `BadRow` at the first row that is none of the machine's, and `Memory` also where the visitor has none. `NoTable` is
/// never answered: whether the tables are there is asked before.
pub fn each_row<S: Alter, R: Stored, V: Visitor<R>>(
    alloc: Global,
    conn: &mut Connection<S>,
    table: TableName,
    visitor: &mut V,
) -> Result<(), TableFault>
    requires { HasCleanDisk (state S.Store conn.old) → HasTable table (state S.Store conn.old) }
    ensures whole { HasCleanDisk (state S.Store conn.new)
        → OnOk result (TakesAll R.row_from R.columns_of table
        (tree_of table (state S.Store conn.old)) V.takes visitor.old visitor.new) }
    ensures front { HasCleanDisk (state S.Store conn.new)
        → OnErr result (TakesFront R.row_from R.columns_of table
        (tree_of table (state S.Store conn.old)) V.takes V.keeps visitor.old visitor.new) }
    ensures same { HasCleanDisk (state S.Store conn.new)
        → OnOk result (IsUnchanged (state S.Store conn.old) (state S.Store conn.new)) }
    ensures failed { HasCleanDisk (state S.Store conn.new)
        → IfErr result (FailsToLoad R.row_from table
        (state S.Store conn.old) (state S.Store conn.new)) }
    ensures fault { IfErr result IsOfReading }
    ensures named { IfErr result (NamesTable table) }
    ensures crash { Survives (state S.Store conn.old) (state S.Store conn.new) (λ _. ⊥) }
{
    let mut rows = match conn.query(table.load_text(), &[]) {
        Ok(rows) => rows,
        Err(error) => return Err(TableFault::Store(Failed::new(error))),
    };
    'rows: for _ in 0..u64::MAX {
        if let Err(error) = rows.advance() {
            return Err(TableFault::Store(Failed::new(error)));
        }
        let Some(row) = rows.get() else {
            return Ok(());
        };
        visitor.take(read_row::<R>(alloc, table, row)?)?;
    }
    // No table has so many rows.
    let error = Error::SqliteFailure(ErrorCode::OperationInterrupted);
    Err(TableFault::Store(Failed::new(error)))
}
