//! The answers that are kept go into their table, whose key is a word and whose rows stay as they are.
ghost use Rattle.std.specs.Prelude.{◌≡◌, IfErr, IfOk, OnOk, OnErr, All, None, option_copied};
ghost use Rattle.std.specs.FinMap.{get, insert};
ghost use Rattle.sqlite.specs.Held.{state};
ghost use Rattle.sqlite.specs.State.{HasCleanDisk, KeepsCommit, Survives};
ghost use Rattle.sheet_core.specs.Columns.{IsSmall, AreSmall};
ghost use Rattle.sheet_core.specs.Filled.{StandUnderKeys};
ghost use Rattle.sheet_core.specs.Sheet.{Table, given, now_of};
ghost use Rattle.table_store.specs.Transactions.{IsOfMemoryOrStore, MayUndo};
ghost use Rattle.table_store.specs.declared.name.TableName.TheVariants.{Kept};
ghost use Rattle.table_store.specs.Written.{tree_of, IsReady, IsTableOf, MayStop, Writes, SuitKept};
ghost use Rattle.table_store.specs.Written.{KeptTakes, StayAsTheyAre, AreNew, changes_of, given_all};

use crate::fault::TableFault;
use crate::name::TableName;
use crate::rows::put_row;
use crate::write::values_of;
use sheet_core::{Pending, Sheet, Stored};
use sqlite::{Alter, Connection};
use std::alloc::Global;

/// Puts a row of the machine under its word.
fn add_row<S: Alter, R: Stored>(
    alloc: Global,
    conn: &mut Connection<S>,
    row: &R,
) -> Result<(), TableFault>
    requires ready { HasCleanDisk (state S.Store conn.old) → IsReady (state S.Store conn.old) }
    requires suits { SuitKept R.columns_of R.key_of }
    requires small { All IsSmall (R.columns_of row.now) }
    ensures set { HasCleanDisk (state S.Store conn.new)
        → OnOk result (Writes Kept (state S.Store conn.old) (state S.Store conn.new)) }
    ensures put { HasCleanDisk (state S.Store conn.new) → (rows : Table R)
        → StandUnderKeys R.key_of rows
        → get rows (R.key_of row.now) ≡ None
        → IsTableOf R.row_from R.columns_of Kept (tree_of Kept (state S.Store conn.old)) rows
        → OnOk result (IsTableOf R.row_from R.columns_of Kept
        (tree_of Kept (state S.Store conn.new))
        (insert rows (R.key_of row.now) row.now)) }
    ensures failed { HasCleanDisk (state S.Store conn.new)
        → IfErr result (MayUndo (state S.Store conn.old) (state S.Store conn.new)) }
    ensures fault { IfErr result IsOfMemoryOrStore }
    ensures crash { Survives (state S.Store conn.old) (state S.Store conn.new) (λ _. ⊥) }
{
    let columns = row.columns(alloc)?;
    let values = values_of(alloc, columns.as_slice())?;
    put_row(conn, TableName::Kept, values.as_slice())
}

/// Makes one change in the table, which is a row that is new.
fn add_change<S: Alter, R: Stored>(
    alloc: Global,
    conn: &mut Connection<S>,
    change: &Pending<'_, R>,
) -> Result<(), TableFault>
    requires ready { HasCleanDisk (state S.Store conn.old) → IsReady (state S.Store conn.old) }
    requires suits { SuitKept R.columns_of R.key_of }
    requires takes { KeptTakes R.columns_of R.key_of
        (R.Key.digits change.now.key.now) (option_copied change.now.row) }
    ensures set { HasCleanDisk (state S.Store conn.new)
        → OnOk result (Writes Kept (state S.Store conn.old) (state S.Store conn.new)) }
    ensures made { HasCleanDisk (state S.Store conn.new) → (rows : Table R)
        → StandUnderKeys R.key_of rows
        → get rows (R.Key.digits change.now.key.now) ≡ None
        → IsTableOf R.row_from R.columns_of Kept (tree_of Kept (state S.Store conn.old)) rows
        → OnOk result (IsTableOf R.row_from R.columns_of Kept
        (tree_of Kept (state S.Store conn.new))
        (given (R.Key.digits change.now.key.now) (option_copied change.now.row) rows)) }
    ensures failed { HasCleanDisk (state S.Store conn.new)
        → IfErr result (MayUndo (state S.Store conn.old) (state S.Store conn.new)) }
    ensures fault { IfErr result IsOfMemoryOrStore }
    ensures crash { Survives (state S.Store conn.old) (state S.Store conn.new) (λ _. ⊥) }
{
    match change.row {
        Some(row) => add_row::<S, R>(alloc, conn, row),
        None => unreachable!(),
    }
}

/// Makes the changes in the table, in their order.
fn add_changes<S: Alter, R: Stored>(
    alloc: Global,
    conn: &mut Connection<S>,
    changes: &[Pending<'_, R>],
) -> Result<(), TableFault>
    requires ready { HasCleanDisk (state S.Store conn.old) → IsReady (state S.Store conn.old) }
    requires suits { SuitKept R.columns_of R.key_of }
    requires takes { All (λ c. KeptTakes R.columns_of R.key_of c.0 c.1)
        (changes_of R.Key.digits changes.now) }
    ensures set { HasCleanDisk (state S.Store conn.new)
        → OnOk result (Writes Kept (state S.Store conn.old) (state S.Store conn.new)) }
    ensures made { HasCleanDisk (state S.Store conn.new) → (rows : Table R)
        → StandUnderKeys R.key_of rows
        → AreNew (changes_of R.Key.digits changes.now) rows
        → IsTableOf R.row_from R.columns_of Kept (tree_of Kept (state S.Store conn.old)) rows
        → OnOk result (IsTableOf R.row_from R.columns_of Kept
        (tree_of Kept (state S.Store conn.new))
        (given_all (changes_of R.Key.digits changes.now) rows)) }
    ensures failed { HasCleanDisk (state S.Store conn.new)
        → IfErr result (MayStop Kept (state S.Store conn.old) (state S.Store conn.new)) }
    ensures fault { IfErr result IsOfMemoryOrStore }
    ensures crash { Survives (state S.Store conn.old) (state S.Store conn.new) (λ _. ⊥) }
{
    for change in changes {
        add_change::<S, R>(alloc, conn, change)?;
    }
    Ok(())
}

/// The rows of a sheet that are new since the request began go into the table `kept`, within the transaction that
/// the caller began. It takes no row away and changes none, so none may have gone or changed. A fault leaves what one of
/// `write_pending` does.
pub fn write_kept<S: Alter, R: Stored>(
    alloc: Global,
    conn: &mut Connection<S>,
    sheet: &Sheet<R>,
) -> Result<(), TableFault>
    requires ready { HasCleanDisk (state S.Store conn.old) → IsReady (state S.Store conn.old) }
    requires suits { SuitKept R.columns_of R.key_of }
    requires own { StandUnderKeys R.key_of (now_of sheet.now) }
    requires small { AreSmall R.columns_of (now_of sheet.now) }
    requires added { StayAsTheyAre sheet.now.before (now_of sheet.now) }
    requires before { HasCleanDisk (state S.Store conn.old)
        → IsTableOf R.row_from R.columns_of Kept (tree_of Kept (state S.Store conn.old))
        sheet.now.before }
    ensures written { HasCleanDisk (state S.Store conn.new)
        → OnOk result (IsTableOf R.row_from R.columns_of Kept
        (tree_of Kept (state S.Store conn.new)) (now_of sheet.now)) }
    ensures set { HasCleanDisk (state S.Store conn.new)
        → OnOk result (Writes Kept (state S.Store conn.old) (state S.Store conn.new)) }
    ensures failed { HasCleanDisk (state S.Store conn.new)
        → IfErr result (MayStop Kept (state S.Store conn.old) (state S.Store conn.new)) }
    ensures commit { HasCleanDisk (state S.Store conn.new)
        → KeepsCommit (state S.Store conn.old) (state S.Store conn.new) }
    ensures fault { IfErr result IsOfMemoryOrStore }
    ensures crash { Survives (state S.Store conn.old) (state S.Store conn.new) (λ _. ⊥) }
{
    let changes = sheet.pending()?;
    add_changes::<S, R>(alloc, conn, changes.as_slice())
}
