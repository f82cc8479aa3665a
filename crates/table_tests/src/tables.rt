//! The calls in turn, over a database in memory.
ghost use Rattle.std.specs.Prelude.{◌≡◌, false, IfOk, IsTrue};
ghost use Rattle.sqlite.specs.Held.{state};
ghost use Rattle.sqlite.specs.State.{HasCleanDisk};
ghost use Rattle.table_store.specs.Schema.{schema_up_to};
ghost use Rattle.table_store.specs.Values.{HasTables, IsInside};

use sqlite::{Alter, Connection};
use sqlite_value::value::ValueRef;
use std::test::Fail;
use table_store::{
    TableName, begin, commit, create_tables, drop_row, load_rows, put_row, rollback,
};

pub fn holds(condition: bool, text: &'static str) -> Result<(), Fail> {
    if condition {
        Ok(())
    } else {
        Err(Fail::from(text))
    }
}

/// Makes the tables and stays within the transaction.
pub fn made<S: Alter>(conn: &mut Connection<S>) -> Result<(), Fail>
    requires bare { HasCleanDisk (state S.Store conn.old)
        → (state S.Store conn.old).now.schema ≡ schema_up_to 0 }
    requires free { HasCleanDisk (state S.Store conn.old)
        → (state S.Store conn.old).in_transaction ≡ false }
    ensures { IfOk result (λ _. HasCleanDisk (state S.Store conn.new)
        → IsInside (state S.Store conn.new)) }
{
    begin(conn)?;
    Ok(create_tables(conn)?)
}

pub fn location<S: Alter>(conn: &mut Connection<S>, id: i64, parent: i64) -> Result<(), Fail>
    requires { HasCleanDisk (state S.Store conn.old) → IsInside (state S.Store conn.old) }
    ensures { IfOk result (λ _. HasCleanDisk (state S.Store conn.new)
        → IsInside (state S.Store conn.new)) }
{
    let values = [
        ValueRef::Int(id),
        ValueRef::Text(b"A shelf"),
        ValueRef::Int(parent),
    ];
    Ok(put_row(conn, TableName::Locations, &values)?)
}

fn line<S: Alter>(conn: &mut Connection<S>, id: i64) -> Result<(), Fail>
    requires { HasCleanDisk (state S.Store conn.old) → IsInside (state S.Store conn.old) }
    ensures { IfOk result (λ _. HasCleanDisk (state S.Store conn.new)
        → IsInside (state S.Store conn.new)) }
{
    let number = ValueRef::Int(1);
    let values = [ValueRef::Int(id), number, number, number, number];
    Ok(put_row(conn, TableName::Lines, &values)?)
}

fn without_line<S: Alter>(conn: &mut Connection<S>, id: i64) -> Result<(), Fail>
    requires { HasCleanDisk (state S.Store conn.old) → IsInside (state S.Store conn.old) }
    ensures { IfOk result (λ _. HasCleanDisk (state S.Store conn.new)
        → IsInside (state S.Store conn.new)) }
{
    Ok(drop_row(conn, TableName::Lines, id)?)
}

fn kept<S: Alter>(conn: &mut Connection<S>) -> Result<(), Fail>
    requires { HasCleanDisk (state S.Store conn.old) → IsInside (state S.Store conn.old) }
    ensures { IfOk result (λ _. HasCleanDisk (state S.Store conn.new)
        → IsInside (state S.Store conn.new)) }
{
    let values = [
        ValueRef::Text(b"word"),
        ValueRef::Text(b"{}"),
        ValueRef::Text(b"ok"),
    ];
    Ok(put_row(conn, TableName::Kept, &values)?)
}

pub fn committed<S: Alter>(conn: &mut Connection<S>) -> Result<(), Fail>
    requires { HasCleanDisk (state S.Store conn.old) → IsInside (state S.Store conn.old) }
    ensures tables { IfOk result (λ _. HasCleanDisk (state S.Store conn.new)
        → HasTables (state S.Store conn.new)) }
    ensures same { IfOk result (λ _. HasCleanDisk (state S.Store conn.new)
        → (state S.Store conn.new).committed ≡ (state S.Store conn.new).now) }
    ensures free { IfOk result (λ _. HasCleanDisk (state S.Store conn.new)
        → (state S.Store conn.new).in_transaction ≡ false) }
{
    Ok(commit(conn)?)
}

/// Puts a location within a transaction that is undone, and begins the next.
fn undone<S: Alter>(conn: &mut Connection<S>, id: i64) -> Result<(), Fail>
    requires tables { HasCleanDisk (state S.Store conn.old) → HasTables (state S.Store conn.old) }
    requires same { HasCleanDisk (state S.Store conn.old)
        → (state S.Store conn.old).committed ≡ (state S.Store conn.old).now }
    requires free { HasCleanDisk (state S.Store conn.old)
        → (state S.Store conn.old).in_transaction ≡ false }
    ensures { IfOk result (λ _. HasCleanDisk (state S.Store conn.new)
        → HasTables (state S.Store conn.new)) }
{
    let values = [
        ValueRef::Int(id),
        ValueRef::Text(b"A shelf"),
        ValueRef::Int(1),
    ];
    begin(conn)?;
    put_row(conn, TableName::Locations, &values)?;
    rollback(conn)?;
    Ok(begin(conn)?)
}

/// How many rows there are, the first and third value of the first, and the key of the last.
pub fn ends<S: Alter>(
    conn: &mut Connection<S>,
    table: TableName,
) -> Result<(usize, i64, i64, i64), Fail>
    requires { HasCleanDisk (state S.Store conn.old) → HasTables (state S.Store conn.old) }
{
    let rows = load_rows(conn, table)?;
    let first = rows.first().ok_or("a first row")?;
    let last = rows.last().ok_or("a last row")?;
    Ok((rows.len(), first.get(0)?, first.get(2)?, last.get(0)?))
}

fn puts_in_order<S: Alter>(conn: &mut Connection<S>) -> Result<(), Fail>
    requires bare { HasCleanDisk (state S.Store conn.old)
        → (state S.Store conn.old).now.schema ≡ schema_up_to 0 }
    requires free { HasCleanDisk (state S.Store conn.old)
        → (state S.Store conn.old).in_transaction ≡ false }
{
    made(conn)?;
    location(conn, 20, 1)?;
    location(conn, 30, 1)?;
    location(conn, 10, 1)?;
    committed(conn)?;
    holds(
        ends(conn, TableName::Locations)? == (3, 10, 1, 30),
        "three in order",
    )
}

fn puts_again<S: Alter>(conn: &mut Connection<S>) -> Result<(), Fail>
    requires bare { HasCleanDisk (state S.Store conn.old)
        → (state S.Store conn.old).now.schema ≡ schema_up_to 0 }
    requires free { HasCleanDisk (state S.Store conn.old)
        → (state S.Store conn.old).in_transaction ≡ false }
{
    made(conn)?;
    location(conn, 10, 1)?;
    location(conn, 10, 2)?;
    committed(conn)?;
    holds(
        ends(conn, TableName::Locations)? == (1, 10, 2, 10),
        "the second",
    )
}

fn keeps_a_word<S: Alter>(conn: &mut Connection<S>) -> Result<(), Fail>
    requires bare { HasCleanDisk (state S.Store conn.old)
        → (state S.Store conn.old).now.schema ≡ schema_up_to 0 }
    requires free { HasCleanDisk (state S.Store conn.old)
        → (state S.Store conn.old).in_transaction ≡ false }
{
    made(conn)?;
    kept(conn)?;
    committed(conn)?;
    let rows = load_rows(conn, TableName::Kept)?;
    let word: String = rows.first().ok_or("a row")?.get(0)?;
    holds(word.as_str() == "word", "the word")
}

fn drops_one<S: Alter>(conn: &mut Connection<S>) -> Result<(), Fail>
    requires bare { HasCleanDisk (state S.Store conn.old)
        → (state S.Store conn.old).now.schema ≡ schema_up_to 0 }
    requires free { HasCleanDisk (state S.Store conn.old)
        → (state S.Store conn.old).in_transaction ≡ false }
{
    made(conn)?;
    line(conn, 1)?;
    line(conn, 2)?;
    without_line(conn, 1)?;
    committed(conn)?;
    holds(
        ends(conn, TableName::Lines)? == (1, 2, 1, 2),
        "the other line",
    )
}

fn undoes_one<S: Alter>(conn: &mut Connection<S>) -> Result<(), Fail>
    requires bare { HasCleanDisk (state S.Store conn.old)
        → (state S.Store conn.old).now.schema ≡ schema_up_to 0 }
    requires free { HasCleanDisk (state S.Store conn.old)
        → (state S.Store conn.old).in_transaction ≡ false }
{
    made(conn)?;
    location(conn, 10, 1)?;
    committed(conn)?;
    undone(conn, 20)?;
    holds(
        ends(conn, TableName::Locations)? == (1, 10, 1, 10),
        "the first alone",
    )
}

#[test]
fn rows_are_in_the_order_of_their_keys(rt: HostRuntime) -> Result<(), Fail> {
    let mut conn = Connection::open_in_memory(rt.alloc())?;
    puts_in_order(&mut conn)
}

#[test]
fn a_row_takes_the_place_of_the_one_before(rt: HostRuntime) -> Result<(), Fail> {
    let mut conn = Connection::open_in_memory(rt.alloc())?;
    puts_again(&mut conn)
}

#[test]
fn a_word_is_kept(rt: HostRuntime) -> Result<(), Fail> {
    let mut conn = Connection::open_in_memory(rt.alloc())?;
    keeps_a_word(&mut conn)
}

#[test]
fn a_line_is_dropped(rt: HostRuntime) -> Result<(), Fail> {
    let mut conn = Connection::open_in_memory(rt.alloc())?;
    drops_one(&mut conn)
}

#[test]
fn rollback_leaves_what_was_before_begin(rt: HostRuntime) -> Result<(), Fail> {
    let mut conn = Connection::open_in_memory(rt.alloc())?;
    undoes_one(&mut conn)
}
