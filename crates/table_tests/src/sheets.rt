//! Sheets and logs go into their tables and come back.
ghost use Rattle.std.specs.Prelude.{◌≡◌, ◌∷◌, ◌++◌, ◌<◌, ◌^◌, [], false, IfOk, All};
ghost use Rattle.std.specs.FinMap.{empty};
ghost use Rattle.sqlite.specs.Held.{state};
ghost use Rattle.sqlite.specs.State.{HasCleanDisk};
ghost use Rattle.part_core.specs.NamedRows.{named_columns, named_from};
ghost use Rattle.sheet_core.specs.Columns.{IsSmall, AreSmall};
ghost use Rattle.sheet_core.specs.Filled.{StandUnderKeys};
ghost use Rattle.sheet_core.specs.Rows.{StayThere};
ghost use Rattle.sheet_core.specs.Sheet.{now_of};
ghost use Rattle.table_store.specs.Making.{IsFresh};
ghost use Rattle.table_store.specs.Schema.{schema_up_to};
ghost use Rattle.table_store.specs.Values.{HasTables};
ghost use Rattle.table_store.specs.Written.{tree_of, IsReady, IsTableOf};
ghost use Rattle.table_store.specs.declared.name.TableName.TheVariants.{Categories};

use crate::tables::{committed, holds, location, made};
use part_core::{Category, Log, Name, Seed, Sheet};
use sqlite::{Alter, Connection};
use sqlite_value::value::ValueRef;
use std::alloc::{AllocError, Global};
use std::test::Fail;
use table_store::{
    TableFault, TableName, Visitor, begin, commit, create_tables, each_row, load_sheet, put_row,
    write_log, write_pending,
};

/// Makes the tables, and begins the next transaction.
fn fresh<S: Alter>(conn: &mut Connection<S>) -> Result<(), Fail>
    requires bare { HasCleanDisk (state S.Store conn.old)
        → (state S.Store conn.old).now.schema ≡ schema_up_to 0 }
    requires free { HasCleanDisk (state S.Store conn.old)
        → (state S.Store conn.old).in_transaction ≡ false }
    ensures ready { IfOk result (λ _. HasCleanDisk (state S.Store conn.new)
        → IsReady (state S.Store conn.new)) }
    ensures fresh { IfOk result (λ _. HasCleanDisk (state S.Store conn.new)
        → IsFresh (state S.Store conn.new)) }
{
    begin(conn)?;
    create_tables(conn)?;
    commit(conn)?;
    Ok(begin(conn)?)
}

fn category(alloc: Global, number: u64, name: &str) -> Result<Category, Fail>
    requires { number < 2 ^ 63 }
    ensures small { IfOk result (λ row. All IsSmall (named_columns row)) }
    ensures number { IfOk result (λ row. row.number ≡ number) }
{
    let text = String::from_str(alloc, name)?;
    let name = Name::new(text).ok_or("a name")?;
    Ok(Category {
        number,
        name,
        parent: None,
    })
}

/// Two categories, put and still pending.
fn categories(alloc: Global) -> Result<Sheet<Category>, Fail>
    ensures own { IfOk result (λ sheet. StandUnderKeys (λ row. row.number ∷ []) (now_of sheet)) }
    ensures small { IfOk result (λ sheet. AreSmall named_columns (now_of sheet)) }
    ensures before { IfOk result (λ sheet. sheet.before ≡ empty) }
{
    let mut sheet = Sheet::new(alloc, Seed::new(0));
    let later = category(alloc, 20, "Screws")?;
    let first = category(alloc, 10, "Screws")?;
    sheet.put(later)?;
    sheet.put(first)?;
    Ok(sheet)
}

/// Keeps the categories, and puts the later one again under another name.
fn renamed(alloc: Global, sheet: &mut Sheet<Category>) -> Result<(), Fail>
    requires own { StandUnderKeys (λ row. row.number ∷ []) (now_of sheet.old) }
    requires small { AreSmall named_columns (now_of sheet.old) }
    ensures own { IfOk result (λ _. StandUnderKeys (λ row. row.number ∷ [])
        (now_of sheet.new)) }
    ensures small { IfOk result (λ _. AreSmall named_columns (now_of sheet.new)) }
    ensures stays { IfOk result (λ _. StayThere sheet.new.before (now_of sheet.new)) }
    ensures before { sheet.new.before ≡ now_of sheet.old }
{
    sheet.keep();
    let row = category(alloc, 20, "Bolts")?;
    Ok(sheet.put(row)?)
}

/// Writes the categories, where the table has their rows before.
fn written<S: Alter>(
    alloc: Global,
    conn: &mut Connection<S>,
    sheet: &Sheet<Category>,
) -> Result<(), Fail>
    requires ready { HasCleanDisk (state S.Store conn.old) → IsReady (state S.Store conn.old) }
    requires own { StandUnderKeys (λ row. row.number ∷ []) (now_of sheet.now)
        × StandUnderKeys (λ row. row.number ∷ []) sheet.now.before }
    requires small { AreSmall named_columns (now_of sheet.now)
        × AreSmall named_columns sheet.now.before }
    requires stays { StayThere sheet.now.before (now_of sheet.now) }
    requires before { HasCleanDisk (state S.Store conn.old)
        → IsTableOf named_from named_columns Categories
        (tree_of Categories (state S.Store conn.old)) sheet.now.before }
    ensures ready { IfOk result (λ _. HasCleanDisk (state S.Store conn.new)
        → IsReady (state S.Store conn.new)) }
    ensures table { IfOk result (λ _. HasCleanDisk (state S.Store conn.new)
        → IsTableOf named_from named_columns Categories
        (tree_of Categories (state S.Store conn.new)) (now_of sheet.now)) }
{
    Ok(write_pending::<S, Category>(alloc, conn, TableName::Categories, sheet)?)
}

fn writes<S: Alter>(alloc: Global, conn: &mut Connection<S>) -> Result<(), Fail>
    requires bare { HasCleanDisk (state S.Store conn.old)
        → (state S.Store conn.old).now.schema ≡ schema_up_to 0 }
    requires free { HasCleanDisk (state S.Store conn.old)
        → (state S.Store conn.old).in_transaction ≡ false }
{
    fresh(conn)?;
    let mut sheet = categories(alloc)?;
    written(alloc, conn, &sheet)?;
    renamed(alloc, &mut sheet)?;
    written(alloc, conn, &sheet)?;
    let rows = load_sheet::<S, Category>(alloc, conn, TableName::Categories, 2)?;
    let numbers: Vec<u64> = rows.iter().map(|row| row.number).collect(alloc)?;
    let is_as_now = |row: &Category| (row.number == 20) == (row.name.as_str() == "Bolts");
    holds(
        numbers.as_slice() == [10, 20].as_slice() && rows.iter().all(is_as_now),
        "both categories as they are now",
    )
}

/// Notes the numbers of the rows that come.
#[derive(Drop)]
struct Numbers {
    seen: Vec<u64>,
}

impl Visitor<Category> for Numbers {
    ghost takes = { λ old row new. new.seen.items ≡ old.seen.items ++ row.number ∷ [] };

    ghost keeps = { λ old new. new.seen.items ≡ old.seen.items };

    fn take(&mut self, row: Category) -> Result<(), AllocError> {
        Ok(self.seen.push(row.number)?)
    }
}

/// The numbers of three locations, as they are handed on.
fn walked<S: Alter>(alloc: Global, conn: &mut Connection<S>) -> Result<Vec<u64>, Fail>
    requires bare { HasCleanDisk (state S.Store conn.old)
        → (state S.Store conn.old).now.schema ≡ schema_up_to 0 }
    requires free { HasCleanDisk (state S.Store conn.old)
        → (state S.Store conn.old).in_transaction ≡ false }
{
    made(conn)?;
    location(conn, 20, 1)?;
    location(conn, 30, 1)?;
    location(conn, 10, 1)?;
    committed(conn)?;
    let mut numbers = Numbers {
        seen: Vec::new(alloc),
    };
    each_row::<S, Category, Numbers>(alloc, conn, TableName::Locations, &mut numbers)?;
    Ok(numbers.seen)
}

/// A log with a category that is pending.
fn log_of_one(alloc: Global) -> Result<Log<Category>, Fail>
    ensures small { IfOk result (λ log. AreSmall named_columns (now_of log)) }
    ensures before { IfOk result (λ log. log.before ≡ empty) }
{
    let mut log = Log::new(alloc);
    let row = category(alloc, 1, "Screws")?;
    log.put(row)?;
    Ok(log)
}

/// Writes the log, where the table has its rows before.
fn log_written<S: Alter>(
    alloc: Global,
    conn: &mut Connection<S>,
    log: &Log<Category>,
) -> Result<(), Fail>
    requires ready { HasCleanDisk (state S.Store conn.old) → IsReady (state S.Store conn.old) }
    requires own { StandUnderKeys (λ row. row.number ∷ []) log.now.before }
    requires small { AreSmall named_columns (now_of log.now) }
    requires before { HasCleanDisk (state S.Store conn.old)
        → IsTableOf named_from named_columns Categories
        (tree_of Categories (state S.Store conn.old)) log.now.before }
    ensures ready { IfOk result (λ _. HasCleanDisk (state S.Store conn.new)
        → IsReady (state S.Store conn.new)) }
{
    Ok(write_log::<S, Category>(alloc, conn, TableName::Categories, log)?)
}

fn writes_log<S: Alter>(alloc: Global, conn: &mut Connection<S>) -> Result<(), Fail>
    requires bare { HasCleanDisk (state S.Store conn.old)
        → (state S.Store conn.old).now.schema ≡ schema_up_to 0 }
    requires free { HasCleanDisk (state S.Store conn.old)
        → (state S.Store conn.old).in_transaction ≡ false }
{
    fresh(conn)?;
    let log = log_of_one(alloc)?;
    log_written(alloc, conn, &log)?;
    let rows = load_sheet::<S, Category>(alloc, conn, TableName::Categories, 2)?;
    let numbers: Vec<u64> = rows.iter().map(|row| row.number).collect(alloc)?;
    holds(numbers.as_slice() == [1].as_slice(), "the row that was put")
}

/// A location whose parent is this number is loaded as this fault, or as none.
fn loads<S: Alter>(
    alloc: Global,
    conn: &mut Connection<S>,
    name: &'static [u8],
    parent: i64,
) -> Result<bool, Fail>
    requires bare { HasCleanDisk (state S.Store conn.old)
        → (state S.Store conn.old).now.schema ≡ schema_up_to 0 }
    requires free { HasCleanDisk (state S.Store conn.old)
        → (state S.Store conn.old).in_transaction ≡ false }
{
    made(conn)?;
    let values = [
        ValueRef::Int(1),
        ValueRef::Text(name),
        ValueRef::Int(parent),
    ];
    put_row(conn, TableName::Locations, &values)?;
    committed(conn)?;
    match load_sheet::<S, Category>(alloc, conn, TableName::Locations, 0) {
        Ok(rows) => Ok(rows.len() == 1),
        Err(TableFault::BadRow(_)) => Ok(false),
        Err(fault) => Err(Fail::from(fault)),
    }
}

#[test]
fn a_sheet_is_written_again_and_loaded(rt: HostRuntime) -> Result<(), Fail> {
    let alloc = rt.alloc();
    let mut conn = Connection::open_in_memory(alloc)?;
    writes(alloc, &mut conn)
}

#[test]
fn each_row_is_handed_on_in_order(rt: HostRuntime) -> Result<(), Fail> {
    let alloc = rt.alloc();
    let mut conn = Connection::open_in_memory(alloc)?;
    let numbers = walked(alloc, &mut conn)?;
    holds(numbers.as_slice() == [10, 20, 30].as_slice(), "each row")
}

#[test]
fn a_log_is_written_and_loaded(rt: HostRuntime) -> Result<(), Fail> {
    let alloc = rt.alloc();
    let mut conn = Connection::open_in_memory(alloc)?;
    writes_log(alloc, &mut conn)
}

#[test]
fn a_row_is_loaded(rt: HostRuntime) -> Result<(), Fail> {
    let alloc = rt.alloc();
    let mut conn = Connection::open_in_memory(alloc)?;
    holds(loads(alloc, &mut conn, b"A shelf", 2)?, "a row")
}

#[test]
fn a_negative_number_is_a_bad_row(rt: HostRuntime) -> Result<(), Fail> {
    let alloc = rt.alloc();
    let mut conn = Connection::open_in_memory(alloc)?;
    holds(!loads(alloc, &mut conn, b"A shelf", -2)?, "a bad row")
}

#[test]
fn an_empty_name_is_a_bad_row(rt: HostRuntime) -> Result<(), Fail> {
    let alloc = rt.alloc();
    let mut conn = Connection::open_in_memory(alloc)?;
    holds(!loads(alloc, &mut conn, b"", 2)?, "a bad row")
}
