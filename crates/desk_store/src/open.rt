//! A desk in a database that has one.
//!
//! The tables are read whole, and are looked at as nobody's: whether they are the desk's at all, whether each row is
//! one of the machine's, and whether the rows are together a sound state. So the state is one that the laws of the
//! machine speak of, whoever wrote the file.
ghost use Rattle.std.specs.Prelude.{◌≡◌, ◌⊎◌, None, IfOk, IfErr, OnOk, IsTrue};
ghost use Rattle.sqlite.specs.Held.{state};
ghost use Rattle.sqlite.specs.State.{HasCleanDisk};
ghost use Rattle.sqlite.specs.Tree.{Trees};
ghost use Rattle.sqlite_catalog.specs.Listing.{IsSound};
ghost use Rattle.sqlite_trees.specs.View.{IsClean};
ghost use Rattle.desk_core.specs.Machine.{IsSoundState, State};
ghost use Rattle.desk_core.specs.ShopView.{state_of};
ghost use Rattle.desk_store.specs.StateTables.{TablesAre};
ghost use Rattle.desk_store.specs.Desks.{IsDesk};
ghost use Rattle.desk_store.specs.Loading.{AreBooksOf, Reads};
ghost use Rattle.desk_store.specs.Opening.{WhyNot};
ghost use Rattle.table_store.specs.Values.{HasOldTables, HasTables};

use crate::desk::Desk;
use crate::fault::OpenFault;
use crate::load::load;
use crate::old::load_old_rows;
use desk_core::Shop;
use part_core::Seed;
use sqlite::{Alter, Connection};
use std::alloc::Global;
use table_store::{has_old_tables, open_tables};

/// The shop that the tables have. `Old` where they are those of version 1, which are left as they are.
fn find<S: Alter>(alloc: Global, seed: Seed, conn: &mut Connection<S>) -> Result<Shop, OpenFault>
    requires tables { HasCleanDisk (state S.Store conn.old)
        → HasTables (state S.Store conn.old) ⊎ HasOldTables (state S.Store conn.old) }
    requires listed { HasCleanDisk (state S.Store conn.old)
        → IsSound (state S.Store conn.old).now.schema (state S.Store conn.old).now.trees }
    ensures sound { IfOk result (λ shop. IsSoundState (state_of shop)) }
    ensures tables { HasCleanDisk (state S.Store conn.old)
        → OnOk result (HasTables (state S.Store conn.old)) }
    ensures read { Reads AreBooksOf WhyNot
        (state S.Store conn.old) (state S.Store conn.new) result }
{
    if has_old_tables(conn) {
        return match load_old_rows(alloc, conn) {
            Ok(_) => Err(OpenFault::Old),
            Err(fault) => Err(fault),
        };
    }
    load(alloc, seed, conn)
}

impl<S: Alter + Drop> Desk<S> {
    /// The desk whose books the database holds. What isn't committed there is rolled back.
    ///
    /// `Old` where the tables are those of version 1, which `migrate` brings along; `Foreign` where they aren't a
    /// desk's, or are of another version; `Damaged` where they are the tables of no sound state. The database is handed
    /// back beside a fault, with the tables as they were; after `Store` it is to be opened again.
    pub fn open(alloc: Global, seed: Seed, conn: Connection<S>) -> Result<Desk<S>, (OpenFault, S)>
        ensures desk { IfOk result (λ desk. IsDesk S.Store desk) }
        ensures open { IfOk result (λ desk. desk.failed ≡ None) }
        ensures found { IfOk result (λ desk. HasCleanDisk (state S.Store desk.conn)
            → TablesAre (state_of desk.shop) (state S.Store conn).committed.trees) }
        ensures one { IfOk result (λ desk. HasCleanDisk (state S.Store desk.conn)
            → (s : State) → IsSoundState s → TablesAre s (state S.Store conn).committed.trees
            → s ≡ state_of desk.shop) }
        ensures why { IfErr result (λ e. IsClean (S.Store.view e.1)
            → WhyNot (state S.Store conn).committed.trees e.0) }
        ensures kept { IfErr result (λ e. IsClean (S.Store.view e.1)
            → IsTrue (S.Store.view e.1).is_open
            → (S.Store.view e.1).trees ≡ (state S.Store conn).committed.trees) }
        ensures crash { IfErr result (λ e. IsClean (S.Store.view e.1) → (trees : Trees)
            → S.Store.recovers e.1 trees → (state S.Store conn).may_leave trees) }
    {
        let mut opened = match open_tables(alloc, conn) {
            Ok(opened) => opened,
            Err((fault, database)) => return Err((OpenFault::from(fault), database)),
        };
        match find(alloc, seed, &mut opened) {
            Ok(shop) => Ok(Desk {
                conn: opened,
                shop,
                failed: None,
                alloc,
            }),
            Err(fault) => Err((fault, opened.into_store())),
        }
    }
}
