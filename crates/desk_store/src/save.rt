//! The changes of a request go into the tables, all in one transaction.
//!
//! The tables are those of the state before, and become those of the state now: each sheet writes the rows that
//! changed, the history those that were added, and the row of the counter is written whole. No table is written outside the transaction, so what a crash
//! leaves has all of it or none.
//!
//! The tables are written in turns, in their order but for the row of the counter, which is the last: where so many had
//! their turn and are those of the state now, one more becomes so. A further table needs an arm of `write_table`, and the
//! law that its sheet is one of the state. The row of the counter is written over whatever row is there, so of many
//! requests in one transaction it may be written once, after them all.
ghost use Rattle.std.specs.Prelude.{◌≡◌, ◌⊎◌, ◌+◌, false, All, IfErr, OnErr, OnOk, Ok, Err};
ghost use Rattle.sqlite.specs.Held.{state};
ghost use Rattle.sqlite.specs.State.{HasCleanDisk, KeepsCommit, Survives};
ghost use Rattle.sheet_core.specs.Columns.{IsSmall};
ghost use Rattle.sheet_core.specs.RowKeys.{number_digits};
ghost use Rattle.desk_core.specs.Machine.{IsSoundState};
ghost use Rattle.desk_core.specs.ShopView.{state_before, state_of};
ghost use Rattle.desk_core.specs.Staying.{AllStay};
ghost use Rattle.desk_store.specs.StateTables.{HoldsBooks, TablesAre};
ghost use Rattle.desk_store.specs.MetaColumns.{meta_columns, meta_of};
ghost use Rattle.desk_store.specs.Saving.{Goes, IsSheetIn, IsUnderWay, MayFollow, turn_of};
ghost use Rattle.table_store.specs.Transactions.{IsOfMemoryOrStore};
ghost use Rattle.table_store.specs.declared.fault.TableFault.TheVariants.{Memory};
ghost use Rattle.table_store.specs.declared.name.TableName.TheVariants.{History, Kept as KeptTable};

use crate::laws::may_follow;
use crate::meta::MetaRow;
use desk_core::{Kept, Shop};
use part_core::{Row, Sheet, Stored};
use sqlite::{Alter, Connection};
use std::alloc::Global;
use table_store::{
    TableFault, TableName, begin, commit, rollback, write_kept, write_log, write_pending, write_row,
};
use yard_core::Entry;

/// A table whose sheet is one of the shop's is written.
fn write_sheet<S: Alter, R: Stored + Row<Key = u64>>(
    alloc: Global,
    conn: &mut Connection<S>,
    shop: &Shop,
    table: TableName,
    sheet: &Sheet<R>,
) -> Result<(), TableFault>
    requires under_way { HasCleanDisk (state S.Store conn.old)
        → IsUnderWay (state_before shop.now) (state_of shop.now) (turn_of table)
        (state S.Store conn.old) }
    requires sheet { IsSheetIn R.row_from R.columns_of R.key_of number_digits
        (state_before shop.now) (state_of shop.now) table sheet.now }
    ensures { Goes (state_before shop.now) (state_of shop.now) (turn_of table + 1)
        (state S.Store conn.old) (state S.Store conn.new) result }
{
    write_pending::<S, R>(alloc, conn, table, sheet)
}

/// The row of the counter is written, in the place of the one that is there.
pub(crate) fn write_counter<S: Alter>(
    alloc: Global,
    conn: &mut Connection<S>,
    shop: &Shop,
) -> Result<(), TableFault>
    requires small { All IsSmall (meta_columns (meta_of (state_of shop.now))) }
    requires under_way { HasCleanDisk (state S.Store conn.old)
        → IsUnderWay (state_before shop.now) (state_of shop.now) 13 (state S.Store conn.old) }
    ensures { Goes (state_before shop.now) (state_of shop.now) 14
        (state S.Store conn.old) (state S.Store conn.new) result }
{
    write_row::<S, MetaRow>(alloc, conn, TableName::Meta, &MetaRow::of(shop))
}

/// The answers that are kept are written.
fn write_answers<S: Alter>(
    alloc: Global,
    conn: &mut Connection<S>,
    shop: &Shop,
) -> Result<(), TableFault>
    requires follows { MayFollow (state_before shop.now) (state_of shop.now) }
    requires under_way { HasCleanDisk (state S.Store conn.old)
        → IsUnderWay (state_before shop.now) (state_of shop.now) (turn_of KeptTable)
        (state S.Store conn.old) }
    ensures { Goes (state_before shop.now) (state_of shop.now) (turn_of KeptTable + 1)
        (state S.Store conn.old) (state S.Store conn.new) result }
{
    write_kept::<S, Kept>(alloc, conn, shop.answers())
}

/// The history is written.
fn write_history<S: Alter>(
    alloc: Global,
    conn: &mut Connection<S>,
    shop: &Shop,
) -> Result<(), TableFault>
    requires follows { MayFollow (state_before shop.now) (state_of shop.now) }
    requires under_way { HasCleanDisk (state S.Store conn.old)
        → IsUnderWay (state_before shop.now) (state_of shop.now) (turn_of History)
        (state S.Store conn.old) }
    ensures { Goes (state_before shop.now) (state_of shop.now) (turn_of History + 1)
        (state S.Store conn.old) (state S.Store conn.new) result }
{
    let history = shop.yard().whole_history();
    write_log::<S, Entry>(alloc, conn, TableName::History, history)
}

/// One table is written, where those whose turn is before it are.
fn write_table<S: Alter>(
    alloc: Global,
    conn: &mut Connection<S>,
    shop: &Shop,
    table: TableName,
) -> Result<(), TableFault>
    requires follows { MayFollow (state_before shop.now) (state_of shop.now) }
    requires under_way { HasCleanDisk (state S.Store conn.old)
        → IsUnderWay (state_before shop.now) (state_of shop.now) (turn_of table)
        (state S.Store conn.old) }
    ensures { Goes (state_before shop.now) (state_of shop.now) (turn_of table + 1)
        (state S.Store conn.old) (state S.Store conn.new) result }
{
    match table {
        TableName::Meta => write_counter(alloc, conn, shop),
        TableName::Categories => {
            write_sheet(alloc, conn, shop, table, shop.catalogue().categories())
        }
        TableName::Locations => write_sheet(alloc, conn, shop, table, shop.yard().locations()),
        TableName::Parts => write_sheet(alloc, conn, shop, table, shop.catalogue().parts()),
        TableName::Lines => write_sheet(alloc, conn, shop, table, shop.boms().lines()),
        TableName::Substitutes => write_sheet(alloc, conn, shop, table, shop.boms().substitutes()),
        TableName::Items => write_sheet(alloc, conn, shop, table, shop.yard().items()),
        TableName::History => write_history(alloc, conn, shop),
        TableName::Orders => write_sheet(alloc, conn, shop, table, shop.orders().orders()),
        TableName::OrderLines => write_sheet(alloc, conn, shop, table, shop.orders().lines()),
        TableName::Builds => write_sheet(alloc, conn, shop, table, shop.builds().rows()),
        TableName::Allocations => write_sheet(alloc, conn, shop, table, shop.allocations().rows()),
        TableName::Kept => write_answers(alloc, conn, shop),
        TableName::Spent => write_sheet(alloc, conn, shop, table, shop.builds().spent()),
    }
}

/// Every table but that of the counter is written.
pub(crate) fn write_further<S: Alter>(
    alloc: Global,
    conn: &mut Connection<S>,
    shop: &Shop,
) -> Result<(), TableFault>
    requires follows { MayFollow (state_before shop.now) (state_of shop.now) }
    requires under_way { HasCleanDisk (state S.Store conn.old)
        → IsUnderWay (state_before shop.now) (state_of shop.now) 0 (state S.Store conn.old) }
    ensures { Goes (state_before shop.now) (state_of shop.now) 13
        (state S.Store conn.old) (state S.Store conn.new) result }
{
    for turn in 0..13 {
        write_table(alloc, conn, shop, TableName::at(turn + 1))?;
    }
    Ok(())
}

/// Every table is written.
fn write_tables<S: Alter>(
    alloc: Global,
    conn: &mut Connection<S>,
    shop: &Shop,
) -> Result<(), TableFault>
    requires follows { MayFollow (state_before shop.now) (state_of shop.now) }
    requires under_way { HasCleanDisk (state S.Store conn.old)
        → IsUnderWay (state_before shop.now) (state_of shop.now) 0 (state S.Store conn.old) }
    ensures { Goes (state_before shop.now) (state_of shop.now) 14
        (state S.Store conn.old) (state S.Store conn.new) result }
{
    write_further(alloc, conn, shop)?;
    write_counter(alloc, conn, shop)
}

/// The whole transaction. After a fault it is undone, or still open without a commit.
#[tactic(auto, using(crate::proofs::Starting::of_store))]
fn write<S: Alter>(alloc: Global, conn: &mut Connection<S>, shop: &Shop) -> Result<(), TableFault>
    requires follows { MayFollow (state_before shop.now) (state_of shop.now) }
    requires books { HasCleanDisk (state S.Store conn.old)
        → HoldsBooks (state_before shop.now) (state S.Store conn.old) }
    ensures saved { HasCleanDisk (state S.Store conn.new)
        → OnOk result (HoldsBooks (state_of shop.now) (state S.Store conn.new)) }
    ensures commit { HasCleanDisk (state S.Store conn.new)
        → OnErr result (KeepsCommit (state S.Store conn.old) (state S.Store conn.new)) }
    ensures fault { IfErr result IsOfMemoryOrStore }
    ensures crash { Survives (state S.Store conn.old) (state S.Store conn.new)
        (λ trees. TablesAre (state_of shop.now) trees) }
{
    begin(conn)?;
    write_tables(alloc, conn, shop)?;
    commit(conn)
}

/// Makes the tables those of the shop now, where they are those of the shop before the request.
///
/// `Memory` where a growth was refused, after which nothing has changed. After `Store` a crash leaves the tables before or
/// after.
pub fn save<S: Alter>(
    alloc: Global,
    conn: &mut Connection<S>,
    shop: &Shop,
) -> Result<(), TableFault>
    requires books { HasCleanDisk (state S.Store conn.old)
        → HoldsBooks (state_before shop.now) (state S.Store conn.old) }
    requires before { IsSoundState (state_before shop.now) }
    requires after { IsSoundState (state_of shop.now) }
    requires stays { AllStay (state_before shop.now) (state_of shop.now) }
    ensures saved { HasCleanDisk (state S.Store conn.new)
        → OnOk result (HoldsBooks (state_of shop.now) (state S.Store conn.new)) }
    ensures memory { HasCleanDisk (state S.Store conn.new) → result ≡ Err Memory
        → HoldsBooks (state_before shop.now) (state S.Store conn.new) }
    ensures free { HasCleanDisk (state S.Store conn.new)
        → (state S.Store conn.new).in_transaction ≡ false }
    ensures fault { IfErr result IsOfMemoryOrStore }
    ensures crash { Survives (state S.Store conn.old) (state S.Store conn.new)
        (λ trees. TablesAre (state_of shop.now) trees) }
{
    may_follow(shop);
    match write(alloc, conn, shop) {
        Ok(()) => Ok(()),
        Err(TableFault::Memory) => {
            rollback(conn)?;
            Err(TableFault::Memory)
        }
        Err(fault) => {
            let _undone = rollback(conn);
            Err(fault)
        }
    }
}
