//! Databases whose tables are the desk's, and others.
ghost use Rattle.std.specs.Prelude.{◌≡◌, false};
ghost use Rattle.sqlite.specs.Held.{state};
ghost use Rattle.sqlite.specs.State.{HasCleanDisk};
ghost use Rattle.table_store.specs.Schema.{schema_up_to};

use crate::tables::{committed, ends, holds, location, made};
use sqlite::{Alter, Connection};
use std::alloc::Global;
use std::test::Fail;
use table_store::{
    TableFault, TableName, has_no_row, has_old_tables, has_tables, is_bare, open_tables,
};

/// Makes the tables, and looks before and after.
fn looks<S: Alter>(conn: &mut Connection<S>) -> Result<(), Fail>
    requires bare { HasCleanDisk (state S.Store conn.old)
        → (state S.Store conn.old).now.schema ≡ schema_up_to 0 }
    requires free { HasCleanDisk (state S.Store conn.old)
        → (state S.Store conn.old).in_transaction ≡ false }
{
    holds(is_bare(conn) && !has_tables(conn), "nothing")?;
    made(conn)?;
    committed(conn)?;
    holds(!is_bare(conn) && has_tables(conn), "the tables")?;
    holds(has_no_row(conn, TableName::Kept)?, "no row")
}

/// Makes the tables, with one location.
fn one_location<S: Alter>(conn: &mut Connection<S>) -> Result<(), Fail>
    requires bare { HasCleanDisk (state S.Store conn.old)
        → (state S.Store conn.old).now.schema ≡ schema_up_to 0 }
    requires free { HasCleanDisk (state S.Store conn.old)
        → (state S.Store conn.old).in_transaction ≡ false }
{
    made(conn)?;
    location(conn, 10, 1)?;
    committed(conn)
}

/// Makes one table more.
fn one_more<S: Alter>(conn: &mut Connection<S>) -> Result<(), Fail> {
    conn.execute("CREATE TABLE more (id INTEGER PRIMARY KEY) STRICT", &[])?;
    Ok(())
}

/// Leaves the tables that an earlier program made.
fn without_spent<S: Alter>(conn: &mut Connection<S>) -> Result<(), Fail> {
    conn.execute("DROP TABLE spent", &[])?;
    Ok(())
}

/// Whether tables of version 1 are opened, and are still those.
fn opens_old<S: Alter + Drop>(alloc: Global, conn: Connection<S>) -> Result<bool, Fail> {
    match open_tables(alloc, conn) {
        Ok(conn) => Ok(has_old_tables(&conn)),
        Err((TableFault::NoTable(_), _)) => Ok(false),
        Err((fault, _)) => Err(Fail::from(fault)),
    }
}

/// Whether the tables are opened again, and the location is there.
fn opens<S: Alter + Drop>(alloc: Global, conn: Connection<S>) -> Result<bool, Fail> {
    match open_tables(alloc, conn) {
        Ok(mut conn) => {
            if has_old_tables(&conn) {
                return Ok(false);
            }
            Ok(ends(&mut conn, TableName::Locations)? == (1, 10, 1, 10))
        }
        Err((TableFault::NoTable(_), _)) => Ok(false),
        Err((fault, _)) => Err(Fail::from(fault)),
    }
}

#[test]
fn the_tables_are_told_from_none(rt: HostRuntime) -> Result<(), Fail> {
    let mut conn = Connection::open_in_memory(rt.alloc())?;
    looks(&mut conn)
}

#[test]
fn the_tables_are_opened_again(rt: HostRuntime) -> Result<(), Fail> {
    let alloc = rt.alloc();
    let mut conn = Connection::open_in_memory(alloc)?;
    one_location(&mut conn)?;
    holds(opens(alloc, conn)?, "the location")
}

#[test]
fn one_table_more_is_too_many(rt: HostRuntime) -> Result<(), Fail> {
    let alloc = rt.alloc();
    let mut conn = Connection::open_in_memory(alloc)?;
    one_location(&mut conn)?;
    one_more(&mut conn)?;
    holds(!has_tables(&conn), "more tables")?;
    holds(!opens(alloc, conn)?, "no connection")
}

#[test]
fn the_tables_of_version_1_are_told_from_these(rt: HostRuntime) -> Result<(), Fail> {
    let alloc = rt.alloc();
    let mut conn = Connection::open_in_memory(alloc)?;
    one_location(&mut conn)?;
    holds(!has_old_tables(&conn), "this version's tables")?;
    without_spent(&mut conn)?;
    holds(!has_tables(&conn) && has_old_tables(&conn), "version 1's")?;
    holds(opens_old(alloc, conn)?, "a connection")
}

#[test]
fn one_table_more_than_version_1_is_too_many(rt: HostRuntime) -> Result<(), Fail> {
    let alloc = rt.alloc();
    let mut conn = Connection::open_in_memory(alloc)?;
    one_location(&mut conn)?;
    without_spent(&mut conn)?;
    one_more(&mut conn)?;
    holds(!has_old_tables(&conn), "more tables")?;
    holds(!opens_old(alloc, conn)?, "no connection")
}
