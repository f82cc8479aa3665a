//! Tables of version 1 become those of this version.
//!
//! One transaction makes the table `spent` and writes the version, and ends after the shop was read from the tables as
//! they then are. So whoever wrote the old file, it is only brought along where its rows are a sound state's.
ghost use Rattle.std.specs.Prelude.{◌≡◌, ◌↔◌, ◌∷◌, ◌⊎◌, [], false, None};
ghost use Rattle.std.specs.Prelude.{IfOk, IfErr, IsTrue, OnErr, OnOk};
ghost use Rattle.sqlite.specs.Held.{state};
ghost use Rattle.sqlite.specs.State.{HasCleanDisk, KeepsCommit, Survives};
ghost use Rattle.sqlite.specs.Tree.{Trees};
ghost use Rattle.sqlite_catalog.specs.Listing.{IsSound};
ghost use Rattle.sqlite_trees.specs.View.{IsClean};
ghost use Rattle.desk_core.specs.Machine.{IsSoundState, State};
ghost use Rattle.desk_core.specs.ShopView.{state_of};
ghost use Rattle.desk_store.specs.Desks.{IsDesk};
ghost use Rattle.desk_store.specs.Loading.{Reads};
ghost use Rattle.desk_store.specs.Migrating.{AreBooksOfEither, AreSecond, EitherAre, FitFile, IsBroughtUp};
ghost use Rattle.desk_store.specs.Migrating.{IsNoOldRow, IsOldRow, MayBeMigrated, MayLeave};
ghost use Rattle.desk_store.specs.Migrating.{WhyNotMigrated, WhyNotOld};
ghost use Rattle.desk_store.specs.StateTables.{HoldsBooks};
ghost use Rattle.table_store.specs.Making.{HasSecond};
ghost use Rattle.table_store.specs.Opened.{IsAtRest};
ghost use Rattle.table_store.specs.Schema.{old_schema};
ghost use Rattle.table_store.specs.Transactions.{IsOfMemoryOrStore, IsOfStore};
ghost use Rattle.table_store.specs.Values.{HasOldTables, HasTables};
ghost use Rattle.table_store.specs.Written.{IsReady};

use crate::desk::Desk;
use crate::fault::OpenFault;
use crate::load::load;
use crate::meta::MetaRow;
use crate::old::load_old_rows;
use desk_core::Shop;
use part_core::Seed;
use sqlite::{Alter, Connection};
use std::alloc::Global;
use table_store::{
    TableFault, TableName, add_spent, begin, commit, has_no_row, has_old_tables, open_tables,
    write_row,
};

/// The numbers of a row in a file are below it.
const END_OF_NUMBERS: u64 = 1 << 63;

/// Whether a file takes the numbers of the row. Those of a desk are far below.
fn fits_file(row: &MetaRow) -> bool
    ensures { IsTrue result ↔ FitFile row.now }
{
    row.next < END_OF_NUMBERS
        && row.entries < END_OF_NUMBERS
        && row.max_numbers < END_OF_NUMBERS
        && row.max_entries < END_OF_NUMBERS
}

/// The one row of `meta` among these.
fn only_row(rows: &[MetaRow]) -> Result<MetaRow, OpenFault>
    ensures alone { IfOk result (λ row. rows.now ≡ row ∷ []) }
    ensures one { IfOk result (λ row. row.one ≡ 1) }
    ensures fits { IfOk result FitFile }
    ensures why { IfErr result (IsNoOldRow rows.now) }
{
    match rows {
        [row] if row.one == 1 && fits_file(row) => Ok(*row),
        _ => Err(OpenFault::Damaged(None)),
    }
}

/// The row of the counter in tables of version 1.
fn load_old_row<S: Alter>(alloc: Global, conn: &mut Connection<S>) -> Result<MetaRow, OpenFault>
    requires tables { HasCleanDisk (state S.Store conn.old)
        → HasOldTables (state S.Store conn.old) }
    requires listed { HasCleanDisk (state S.Store conn.old)
        → IsSound old_schema (state S.Store conn.old).now.trees }
    ensures row { Reads IsOldRow WhyNotOld (state S.Store conn.old) (state S.Store conn.new) result }
    ensures one { IfOk result (λ row. row.one ≡ 1) }
    ensures fits { IfOk result FitFile }
{
    let rows = load_old_rows(alloc, conn)?;
    only_row(rows.as_slice())
}

/// Begins a transaction and makes `spent` in it. A look at it tells that the database still answers.
fn make_spent<S: Alter>(conn: &mut Connection<S>) -> Result<(), TableFault>
    requires old { HasCleanDisk (state S.Store conn.old) → HasOldTables (state S.Store conn.old) }
    requires free { HasCleanDisk (state S.Store conn.old)
        → (state S.Store conn.old).in_transaction ≡ false }
    ensures ready { HasCleanDisk (state S.Store conn.new)
        → OnOk result (IsReady (state S.Store conn.new)) }
    ensures second { HasCleanDisk (state S.Store conn.new)
        → OnOk result (HasSecond (state S.Store conn.old) (state S.Store conn.new)) }
    ensures commit { HasCleanDisk (state S.Store conn.new)
        → KeepsCommit (state S.Store conn.old) (state S.Store conn.new) }
    ensures fault { IfErr result IsOfStore }
    ensures crash { Survives (state S.Store conn.old) (state S.Store conn.new) (λ _. ⊥) }
{
    begin(conn)?;
    add_spent(conn)?;
    let _none = has_no_row(conn, TableName::Spent)?;
    Ok(())
}

/// Makes the tables those of this version, in a transaction that stays open.
#[tactic(auto, using(crate::proofs::Starting::of_store))]
fn make_second<S: Alter>(
    alloc: Global,
    conn: &mut Connection<S>,
    row: MetaRow,
) -> Result<(), TableFault>
    requires old { HasCleanDisk (state S.Store conn.old) → HasOldTables (state S.Store conn.old) }
    requires free { HasCleanDisk (state S.Store conn.old)
        → (state S.Store conn.old).in_transaction ≡ false }
    requires row { HasCleanDisk (state S.Store conn.old)
        → IsOldRow (state S.Store conn.old).now.trees row }
    requires one { row.one ≡ 1 }
    requires fits { FitFile row }
    ensures ready { HasCleanDisk (state S.Store conn.new)
        → OnOk result (IsReady (state S.Store conn.new)) }
    ensures second { HasCleanDisk (state S.Store conn.new)
        → OnOk result (AreSecond row (state S.Store conn.old).now.trees
        (state S.Store conn.new).now.trees) }
    ensures commit { HasCleanDisk (state S.Store conn.new)
        → KeepsCommit (state S.Store conn.old) (state S.Store conn.new) }
    ensures fault { IfErr result IsOfMemoryOrStore }
    ensures crash { Survives (state S.Store conn.old) (state S.Store conn.new) (λ _. ⊥) }
{
    make_spent(conn)?;
    let row = MetaRow { version: 2, ..row };
    write_row::<S, MetaRow>(alloc, conn, TableName::Meta, &row)
}

/// The shop that the tables of version 1 have, once they are made those of this version, in a transaction that stays
/// open.
fn bring_up<S: Alter>(
    alloc: Global,
    seed: Seed,
    conn: &mut Connection<S>,
) -> Result<Shop, OpenFault>
    requires old { HasCleanDisk (state S.Store conn.old) → HasOldTables (state S.Store conn.old) }
    requires listed { HasCleanDisk (state S.Store conn.old)
        → IsSound old_schema (state S.Store conn.old).now.trees }
    requires free { HasCleanDisk (state S.Store conn.old)
        → (state S.Store conn.old).in_transaction ≡ false }
    ensures sound { IfOk result (λ shop. IsSoundState (state_of shop)) }
    ensures brought { HasCleanDisk (state S.Store conn.new) → IfOk result (λ shop.
        IsBroughtUp (state S.Store conn.old).now.trees shop (state S.Store conn.new)) }
    ensures why { HasCleanDisk (state S.Store conn.new)
        → IfErr result (WhyNotMigrated (state S.Store conn.old).now.trees) }
    ensures commit { HasCleanDisk (state S.Store conn.new)
        → KeepsCommit (state S.Store conn.old) (state S.Store conn.new) }
    ensures crash { Survives (state S.Store conn.old) (state S.Store conn.new) (λ _. ⊥) }
{
    let row = load_old_row(alloc, conn)?;
    if let Err(fault) = make_second(alloc, conn, row) {
        return Err(OpenFault::from(fault));
    }
    load(alloc, seed, conn)
}

/// The shop that the tables have, which are committed as those of this version.
fn bring<S: Alter>(alloc: Global, seed: Seed, conn: &mut Connection<S>) -> Result<Shop, OpenFault>
    requires old { HasCleanDisk (state S.Store conn.old) → HasOldTables (state S.Store conn.old) }
    requires listed { HasCleanDisk (state S.Store conn.old)
        → IsSound old_schema (state S.Store conn.old).now.trees }
    requires free { HasCleanDisk (state S.Store conn.old)
        → (state S.Store conn.old).in_transaction ≡ false }
    ensures sound { IfOk result (λ shop. IsSoundState (state_of shop)) }
    ensures books { HasCleanDisk (state S.Store conn.new) → IfOk result (λ shop.
        HoldsBooks (state_of shop) (state S.Store conn.new)) }
    ensures found { HasCleanDisk (state S.Store conn.new) → IfOk result
        (AreBooksOfEither (state S.Store conn.old).now.trees) }
    ensures why { HasCleanDisk (state S.Store conn.new)
        → IfErr result (WhyNotMigrated (state S.Store conn.old).now.trees) }
    ensures commit { HasCleanDisk (state S.Store conn.new)
        → OnErr result (KeepsCommit (state S.Store conn.old) (state S.Store conn.new)) }
    ensures crash { Survives (state S.Store conn.old) (state S.Store conn.new)
        (MayLeave (state S.Store conn.old).now.trees result) }
{
    let shop = bring_up(alloc, seed, conn)?;
    match commit(conn) {
        Ok(()) => Ok(shop),
        Err(fault) => Err(OpenFault::from(fault)),
    }
}

/// The shop that the tables have: those of version 1 are made those of this version.
fn find_or_bring<S: Alter>(
    alloc: Global,
    seed: Seed,
    conn: &mut Connection<S>,
) -> Result<Shop, OpenFault>
    requires rest { HasCleanDisk (state S.Store conn.old) → IsAtRest (state S.Store conn.old) }
    requires tables { HasCleanDisk (state S.Store conn.old)
        → HasTables (state S.Store conn.old) ⊎ HasOldTables (state S.Store conn.old) }
    requires listed { HasCleanDisk (state S.Store conn.old)
        → IsSound (state S.Store conn.old).now.schema (state S.Store conn.old).now.trees }
    ensures sound { IfOk result (λ shop. IsSoundState (state_of shop)) }
    ensures books { HasCleanDisk (state S.Store conn.new) → IfOk result (λ shop.
        HoldsBooks (state_of shop) (state S.Store conn.new)) }
    ensures found { HasCleanDisk (state S.Store conn.new) → IfOk result
        (AreBooksOfEither (state S.Store conn.old).now.trees) }
    ensures why { HasCleanDisk (state S.Store conn.new)
        → IfErr result (WhyNotMigrated (state S.Store conn.old).now.trees) }
    ensures commit { HasCleanDisk (state S.Store conn.new)
        → OnErr result (KeepsCommit (state S.Store conn.old) (state S.Store conn.new)) }
    ensures crash { Survives (state S.Store conn.old) (state S.Store conn.new)
        (MayLeave (state S.Store conn.old).now.trees result) }
{
    if has_old_tables(conn) {
        return bring(alloc, seed, conn);
    }
    load(alloc, seed, conn)
}

impl<S: Alter + Drop> Desk<S> {
    /// The desk whose books the database holds, as `open`, but tables of version 1 are made those of this version
    /// first, in one transaction: their state stays, and nothing is spent in it.
    ///
    /// `Foreign` is told as by `open`, and `Old` never. Tables of version 1 are `Damaged` where they, with nothing
    /// spent, are those of no sound state. The database is handed back beside a fault, with the tables as they were;
    /// after `Store` it is to be opened again, and a crash leaves them so, or those of this version of the same state.
    pub fn migrate(
        alloc: Global,
        seed: Seed,
        conn: Connection<S>,
    ) -> Result<Desk<S>, (OpenFault, S)>
        ensures desk { IfOk result (λ desk. IsDesk S.Store desk) }
        ensures open { IfOk result (λ desk. desk.failed ≡ None) }
        ensures found { IfOk result (λ desk. HasCleanDisk (state S.Store desk.conn)
            → EitherAre (state_of desk.shop) (state S.Store conn).committed.trees) }
        ensures one { IfOk result (λ desk. HasCleanDisk (state S.Store desk.conn)
            → (s : State) → IsSoundState s → EitherAre s (state S.Store conn).committed.trees
            → s ≡ state_of desk.shop) }
        ensures why { IfErr result (λ e. IsClean (S.Store.view e.1)
            → WhyNotMigrated (state S.Store conn).committed.trees e.0) }
        ensures kept { IfErr result (λ e. IsClean (S.Store.view e.1)
            → IsTrue (S.Store.view e.1).is_open
            → (S.Store.view e.1).trees ≡ (state S.Store conn).committed.trees) }
        ensures crash { IfErr result (λ e. IsClean (S.Store.view e.1) → (trees : Trees)
            → S.Store.recovers e.1 trees → (state S.Store conn).may_leave trees
            ⊎ MayBeMigrated (state S.Store conn).committed.trees trees e.0) }
    {
        let mut opened = match open_tables(alloc, conn) {
            Ok(opened) => opened,
            Err((fault, database)) => return Err((OpenFault::from(fault), database)),
        };
        match find_or_bring(alloc, seed, &mut opened) {
            Ok(shop) => Ok(Desk {
                conn: opened,
                shop,
                failed: None,
                alloc,
            }),
            Err(fault) => Err((fault, opened.into_store())),
        }
    }
}
