//! The changes of a request go into the tables as one of a group, whose transaction stays open.
//!
//! The transaction's tables are those of the state before the request, and become those of the state now, all but the row
//! of the counter: it is written once, as the group ends. The first request of a group that changes anything begins the
//! transaction. Nothing is committed before the end, so a crash leaves nothing new. After a fault the whole transaction is
//! undone. Where memory ran out and the transaction had no other request, that costs this request alone; else the others
//! are gone with it, and that is a fault of the database.
ghost use Rattle.std.specs.Prelude.{◌≡◌, false, IfErr, OnErr, OnOk, Err, IsTrue};
ghost use Rattle.sqlite.specs.Held.{state};
ghost use Rattle.sqlite.specs.State.{HasCleanDisk, KeepsCommit, Survives};
ghost use Rattle.desk_core.specs.Machine.{IsSoundState};
ghost use Rattle.desk_core.specs.ShopView.{state_before, state_of};
ghost use Rattle.desk_core.specs.Staying.{AllStay};
ghost use Rattle.desk_store.specs.StateTables.{HoldsBooks, TablesAre};
ghost use Rattle.desk_store.specs.Saving.{Goes, IsUnderWay, MayFollow};
ghost use Rattle.desk_store.specs.Groups.{ShowsBooks};
ghost use Rattle.table_store.specs.Transactions.{IsOfMemoryOrStore, IsOfStore};
ghost use Rattle.table_store.specs.declared.fault.TableFault.TheVariants.{Memory};

use crate::laws::may_follow;
use crate::save::{write_counter, write_further};
use desk_core::Shop;
use sqlite::{Alter, Connection};
use std::alloc::Global;
use table_store::{Failed, TableFault, begin, commit, rollback};

/// Begins the transaction with this request. After a fault it is undone, or still open without a commit.
#[tactic(auto, using(crate::proofs::Starting::of_store))]
fn begin_with<S: Alter>(
    alloc: Global,
    conn: &mut Connection<S>,
    shop: &Shop,
) -> Result<(), TableFault>
    requires follows { MayFollow (state_before shop.now) (state_of shop.now) }
    requires books { HasCleanDisk (state S.Store conn.old)
        → HoldsBooks (state_before shop.now) (state S.Store conn.old) }
    ensures { Goes (state_before shop.now) (state_of shop.now) 13
        (state S.Store conn.old) (state S.Store conn.new) result }
{
    begin(conn)?;
    write_further(alloc, conn, shop)
}

/// The first request of a transaction.
fn add_first<S: Alter>(
    alloc: Global,
    conn: &mut Connection<S>,
    shop: &Shop,
) -> Result<(), TableFault>
    requires follows { MayFollow (state_before shop.now) (state_of shop.now) }
    requires books { HasCleanDisk (state S.Store conn.old)
        → HoldsBooks (state_before shop.now) (state S.Store conn.old) }
    ensures added { HasCleanDisk (state S.Store conn.new)
        → OnOk result (IsUnderWay (state_before shop.now) (state_of shop.now) 13
        (state S.Store conn.new)) }
    ensures memory { HasCleanDisk (state S.Store conn.new) → result ≡ Err Memory
        → HoldsBooks (state_before shop.now) (state S.Store conn.new) }
    ensures free { HasCleanDisk (state S.Store conn.new)
        → OnErr result ((state S.Store conn.new).in_transaction ≡ false) }
    ensures fault { IfErr result IsOfMemoryOrStore }
    ensures crash { Survives (state S.Store conn.old) (state S.Store conn.new) (λ _. ⊥) }
{
    match begin_with(alloc, conn, shop) {
        Ok(()) => Ok(()),
        Err(TableFault::Memory) => {
            rollback(conn)?;
            Err(TableFault::Memory)
        }
        Err(fault) => {
            let _undone = rollback(conn);
            Err(fault)
        }
    }
}

/// A further request of a transaction. Memory that runs out is a fault of the database, since the requests before it
/// are undone too.
fn add_further<S: Alter>(
    alloc: Global,
    conn: &mut Connection<S>,
    shop: &Shop,
) -> Result<(), TableFault>
    requires follows { MayFollow (state_before shop.now) (state_of shop.now) }
    requires under_way { HasCleanDisk (state S.Store conn.old)
        → IsUnderWay (state_before shop.now) (state_of shop.now) 0 (state S.Store conn.old) }
    ensures added { HasCleanDisk (state S.Store conn.new)
        → OnOk result (IsUnderWay (state_before shop.now) (state_of shop.now) 13
        (state S.Store conn.new)) }
    ensures free { HasCleanDisk (state S.Store conn.new)
        → OnErr result ((state S.Store conn.new).in_transaction ≡ false) }
    ensures fault { IfErr result IsOfStore }
    ensures crash { Survives (state S.Store conn.old) (state S.Store conn.new) (λ _. ⊥) }
{
    match write_further(alloc, conn, shop) {
        Ok(()) => Ok(()),
        Err(TableFault::Memory) => {
            let _undone = rollback(conn);
            Err(TableFault::Store(Failed::no_memory()))
        }
        Err(fault) => {
            let _undone = rollback(conn);
            Err(fault)
        }
    }
}

/// Makes the transaction's tables those of the shop now, where the database shows those of the shop before the request. The
/// row of the counter is left for `finish`.
///
/// `Memory` where a growth was refused, after which the tables are as they were. After `Store` no transaction is open,
/// and the tables are those of the last commit.
pub(crate) fn add<S: Alter>(
    alloc: Global,
    conn: &mut Connection<S>,
    shop: &Shop,
) -> Result<(), TableFault>
    requires shows { HasCleanDisk (state S.Store conn.old)
        → ShowsBooks (state_before shop.now) (state S.Store conn.old) }
    requires before { IsSoundState (state_before shop.now) }
    requires after { IsSoundState (state_of shop.now) }
    requires stays { AllStay (state_before shop.now) (state_of shop.now) }
    ensures added { HasCleanDisk (state S.Store conn.new)
        → OnOk result (ShowsBooks (state_of shop.now) (state S.Store conn.new)) }
    ensures memory { HasCleanDisk (state S.Store conn.new) → result ≡ Err Memory
        → HoldsBooks (state_before shop.now) (state S.Store conn.new) }
    ensures free { HasCleanDisk (state S.Store conn.new)
        → OnErr result ((state S.Store conn.new).in_transaction ≡ false) }
    ensures fault { IfErr result IsOfMemoryOrStore }
    ensures crash { Survives (state S.Store conn.old) (state S.Store conn.new) (λ _. ⊥) }
{
    may_follow(shop);
    if conn.is_autocommit() {
        return add_first(alloc, conn, shop);
    }
    add_further(alloc, conn, shop)
}

/// Writes the row of the counter into a transaction that shows the shop's tables, and commits it. After a fault the
/// transaction may still be open.
#[tactic(auto, using(crate::proofs::Starting::of_store))]
fn write_last<S: Alter>(
    alloc: Global,
    conn: &mut Connection<S>,
    shop: &Shop,
) -> Result<(), TableFault>
    requires sound { IsSoundState (state_of shop.now) }
    requires shows { HasCleanDisk (state S.Store conn.old)
        → ShowsBooks (state_of shop.now) (state S.Store conn.old) }
    requires inside { HasCleanDisk (state S.Store conn.old)
        → IsTrue (state S.Store conn.old).in_transaction }
    ensures held { HasCleanDisk (state S.Store conn.new)
        → OnOk result (HoldsBooks (state_of shop.now) (state S.Store conn.new)) }
    ensures fault { IfErr result IsOfMemoryOrStore }
    ensures crash { Survives (state S.Store conn.old) (state S.Store conn.new)
        (λ trees. TablesAre (state_of shop.now) trees) }
{
    write_counter(alloc, conn, shop)?;
    commit(conn)
}

/// Ends a group: the row of the counter is written, and all that its requests changed is committed.
///
/// After a fault no transaction is open, and a crash leaves the tables of the last commit or those of the shop.
pub(crate) fn finish<S: Alter>(
    alloc: Global,
    conn: &mut Connection<S>,
    shop: &Shop,
) -> Result<(), TableFault>
    requires sound { IsSoundState (state_of shop.now) }
    requires shows { HasCleanDisk (state S.Store conn.old)
        → ShowsBooks (state_of shop.now) (state S.Store conn.old) }
    ensures held { HasCleanDisk (state S.Store conn.new)
        → OnOk result (HoldsBooks (state_of shop.now) (state S.Store conn.new)) }
    ensures free { HasCleanDisk (state S.Store conn.new)
        → (state S.Store conn.new).in_transaction ≡ false }
    ensures fault { IfErr result IsOfMemoryOrStore }
    ensures crash { Survives (state S.Store conn.old) (state S.Store conn.new)
        (λ trees. TablesAre (state_of shop.now) trees) }
{
    if conn.is_autocommit() {
        return Ok(());
    }
    match write_last(alloc, conn, shop) {
        Ok(()) => Ok(()),
        Err(fault) => {
            let _undone = rollback(conn);
            Err(fault)
        }
    }
}

/// Undoes a group: no transaction is open then, and a crash leaves the tables of the last commit.
pub(crate) fn undo<S: Alter>(conn: &mut Connection<S>)
    ensures free { HasCleanDisk (state S.Store conn.new)
        → (state S.Store conn.new).in_transaction ≡ false }
    ensures crash { Survives (state S.Store conn.old) (state S.Store conn.new) (λ _. ⊥) }
{
    let _undone = rollback(conn);
}
