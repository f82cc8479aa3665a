//! A shop from the rows of the tables.
//!
//! Each table is read whole, and none is changed. Whatever keeps the rows from being a desk's is told of the tables, so
//! that a damaged file is one that no desk has left.
ghost use Rattle.std.specs.Prelude.{◌≡◌, ◌∷◌, [], IfOk, IfErr};
ghost use Rattle.sqlite.specs.Held.{state};
ghost use Rattle.sqlite.specs.State.{HasCleanDisk};
ghost use Rattle.sheet_core.specs.RowKeys.{number_digits};
ghost use Rattle.sqlite.specs.Tree.{Trees};
ghost use Rattle.desk_core.specs.Machine.{IsSoundState};
ghost use Rattle.desk_core.specs.ShopView.{state_of};
ghost use Rattle.desk_store.specs.Loading.{AreAnswers, AreBillRows, AreBooksOf, AreBuildRows};
ghost use Rattle.desk_store.specs.Loading.{AreOrderRows, ArePartRows, AreStockRows};
ghost use Rattle.desk_store.specs.Loading.{AreSheets, AreTables, AreTheRows, IsMetaRow, IsNoMeta, Reads};
ghost use Rattle.desk_store.specs.Opening.{IsBroken, IsOfOtherVersion, WhyBut, WhyUnread};
ghost use Rattle.table_store.specs.Schema.{tree_number};
ghost use Rattle.table_store.specs.Values.{HasTables};
ghost use Rattle.table_store.specs.Written.{IsTableOfNone, Suits};

use crate::fault::OpenFault;
use crate::meta::MetaRow;
use alloc_core::Allocation;
use bom_core::{Line, Substitute};
use build_core::{Build, Spent};
use desk_core::{AssembleFault, Kept, Shop, Tables};
use order_core::{Order, OrderLine};
use part_core::{Category, Limits, Part, Seed, Stored};
use sqlite::{Alter, Connection};
use std::alloc::Global;
use table_store::{TableName, load_kept, load_sheet};
use yard_core::{Entry, Item, Location};

/// How many rows a table is expected to have that doesn't tell.
const UNTOLD: usize = 0;

/// The rows of a table under numbers, of which so many are expected.
fn load_rows<S: Alter, R: Stored>(
    alloc: Global,
    conn: &mut Connection<S>,
    table: TableName,
    expected: usize,
) -> Result<Vec<R>, OpenFault>
    requires tables { HasCleanDisk (state S.Store conn.old) → HasTables (state S.Store conn.old) }
    requires suits { Suits R.columns_of R.key_of number_digits table }
    requires breaks { (trees : Trees)
        → IsTableOfNone R.row_from R.columns_of table (trees (tree_number table))
        → IsBroken table trees }
    ensures { Reads
        (λ trees rows. AreTheRows R.row_from R.columns_of R.key_of table
        (trees (tree_number table)) rows.items)
        WhyUnread (state S.Store conn.old) (state S.Store conn.new) result }
{
    match load_sheet::<S, R>(alloc, conn, table, expected) {
        Ok(rows) => Ok(rows),
        Err(fault) => Err(OpenFault::from(fault)),
    }
}

/// The answers that are kept.
fn load_answers<S: Alter>(alloc: Global, conn: &mut Connection<S>) -> Result<Vec<Kept>, OpenFault>
    requires { HasCleanDisk (state S.Store conn.old) → HasTables (state S.Store conn.old) }
    ensures { Reads (λ trees rows. AreAnswers trees rows.items) WhyUnread
        (state S.Store conn.old) (state S.Store conn.new) result }
{
    match load_kept::<S, Kept>(alloc, conn) {
        Ok(rows) => Ok(rows),
        Err(fault) => Err(OpenFault::from(fault)),
    }
}

/// The one row of `meta` among these. `Foreign` where a row is of another version.
fn meta_in(rows: &[MetaRow]) -> Result<MetaRow, OpenFault>
    ensures alone { IfOk result (λ row. rows.now ≡ row ∷ []) }
    ensures one { IfOk result (λ row. row.one ≡ 1) }
    ensures version { IfOk result (λ row. row.version ≡ 2) }
    ensures why { IfErr result (IsNoMeta rows.now) }
{
    for row in rows {
        if row.version != 2 {
            return Err(OpenFault::Foreign);
        }
    }
    match rows {
        [row] if row.one == 1 => Ok(*row),
        _ => Err(OpenFault::Damaged(None)),
    }
}

/// The row of the counter.
fn load_meta<S: Alter>(alloc: Global, conn: &mut Connection<S>) -> Result<MetaRow, OpenFault>
    requires { HasCleanDisk (state S.Store conn.old) → HasTables (state S.Store conn.old) }
    ensures { Reads IsMetaRow (WhyBut IsOfOtherVersion) (state S.Store conn.old)
        (state S.Store conn.new) result }
{
    match load_sheet::<S, MetaRow>(alloc, conn, TableName::Meta, 1) {
        Ok(rows) => meta_in(rows.as_slice()),
        Err(fault) => Err(OpenFault::from(fault)),
    }
}

/// The row of the counter, and the limits that it has.
fn load_counter<S: Alter>(
    alloc: Global,
    conn: &mut Connection<S>,
) -> Result<(MetaRow, Limits), OpenFault>
    requires { HasCleanDisk (state S.Store conn.old) → HasTables (state S.Store conn.old) }
    ensures row { Reads (λ trees found. IsMetaRow trees found.0) (WhyBut IsOfOtherVersion)
        (state S.Store conn.old) (state S.Store conn.new) result }
    ensures numbers { IfOk result (λ found. found.1.numbers ≡ found.0.max_numbers) }
    ensures entries { IfOk result (λ found. found.1.entries ≡ found.0.max_entries) }
{
    let row = load_meta(alloc, conn)?;
    match Limits::new(row.max_numbers, row.max_entries) {
        Some(limits) => Ok((row, limits)),
        None => Err(OpenFault::Damaged(None)),
    }
}

/// The rows of the catalogue.
fn load_catalogue<S: Alter>(
    alloc: Global,
    conn: &mut Connection<S>,
) -> Result<(Vec<Category>, Vec<Part>), OpenFault>
    requires { HasCleanDisk (state S.Store conn.old) → HasTables (state S.Store conn.old) }
    ensures { Reads (λ trees rows. ArePartRows trees rows.0.items rows.1.items) WhyUnread
        (state S.Store conn.old) (state S.Store conn.new) result }
{
    let categories = load_rows::<S, Category>(alloc, conn, TableName::Categories, UNTOLD)?;
    let parts = load_rows::<S, Part>(alloc, conn, TableName::Parts, UNTOLD)?;
    Ok((categories, parts))
}

/// The rows of the bills.
fn load_bills<S: Alter>(
    alloc: Global,
    conn: &mut Connection<S>,
) -> Result<(Vec<Line>, Vec<Substitute>), OpenFault>
    requires { HasCleanDisk (state S.Store conn.old) → HasTables (state S.Store conn.old) }
    ensures { Reads (λ trees rows. AreBillRows trees rows.0.items rows.1.items) WhyUnread
        (state S.Store conn.old) (state S.Store conn.new) result }
{
    let lines = load_rows::<S, Line>(alloc, conn, TableName::Lines, UNTOLD)?;
    let substitutes = load_rows::<S, Substitute>(alloc, conn, TableName::Substitutes, UNTOLD)?;
    Ok((lines, substitutes))
}

/// The rows of the catalogue and of the bills.
fn load_parts<S: Alter>(
    alloc: Global,
    conn: &mut Connection<S>,
) -> Result<(Vec<Category>, Vec<Part>, Vec<Line>, Vec<Substitute>), OpenFault>
    requires { HasCleanDisk (state S.Store conn.old) → HasTables (state S.Store conn.old) }
    ensures { Reads (λ trees rows. ArePartRows trees rows.0.items rows.1.items
        × AreBillRows trees rows.2.items rows.3.items) WhyUnread
        (state S.Store conn.old) (state S.Store conn.new) result }
{
    let (categories, parts) = load_catalogue(alloc, conn)?;
    let (lines, substitutes) = load_bills(alloc, conn)?;
    Ok((categories, parts, lines, substitutes))
}

/// The rows of the stock, whose history has so many entries by the row of the counter.
fn load_stock<S: Alter>(
    alloc: Global,
    conn: &mut Connection<S>,
    entries: u64,
) -> Result<(Vec<Location>, Vec<Item>, Vec<Entry>), OpenFault>
    requires { HasCleanDisk (state S.Store conn.old) → HasTables (state S.Store conn.old) }
    ensures { Reads (λ trees rows. AreStockRows trees rows.0.items rows.1.items rows.2.items)
        WhyUnread (state S.Store conn.old) (state S.Store conn.new) result }
{
    let locations = load_rows::<S, Location>(alloc, conn, TableName::Locations, UNTOLD)?;
    let items = load_rows::<S, Item>(alloc, conn, TableName::Items, UNTOLD)?;
    let history = load_rows::<S, Entry>(alloc, conn, TableName::History, entries as usize)?;
    Ok((locations, items, history))
}

/// The rows of the orders and of their lines.
fn load_order_rows<S: Alter>(
    alloc: Global,
    conn: &mut Connection<S>,
) -> Result<(Vec<Order>, Vec<OrderLine>), OpenFault>
    requires { HasCleanDisk (state S.Store conn.old) → HasTables (state S.Store conn.old) }
    ensures { Reads (λ trees rows. AreOrderRows trees rows.0.items rows.1.items) WhyUnread
        (state S.Store conn.old) (state S.Store conn.new) result }
{
    let orders = load_rows::<S, Order>(alloc, conn, TableName::Orders, UNTOLD)?;
    let lines = load_rows::<S, OrderLine>(alloc, conn, TableName::OrderLines, UNTOLD)?;
    Ok((orders, lines))
}

/// The rows of the builds, of the allocations and of what was spent.
fn load_build_rows<S: Alter>(
    alloc: Global,
    conn: &mut Connection<S>,
) -> Result<(Vec<Build>, Vec<Allocation>, Vec<Spent>), OpenFault>
    requires { HasCleanDisk (state S.Store conn.old) → HasTables (state S.Store conn.old) }
    ensures { Reads (λ trees rows. AreBuildRows trees rows.0.items rows.1.items rows.2.items)
        WhyUnread (state S.Store conn.old) (state S.Store conn.new) result }
{
    let builds = load_rows::<S, Build>(alloc, conn, TableName::Builds, UNTOLD)?;
    let allocations = load_rows::<S, Allocation>(alloc, conn, TableName::Allocations, UNTOLD)?;
    let spent = load_rows::<S, Spent>(alloc, conn, TableName::Spent, UNTOLD)?;
    Ok((builds, allocations, spent))
}

/// The rows of the orders, of their lines, of the builds, of the allocations and of what was spent.
fn load_orders<S: Alter>(
    alloc: Global,
    conn: &mut Connection<S>,
) -> Result<
    (
        Vec<Order>,
        Vec<OrderLine>,
        Vec<Build>,
        Vec<Allocation>,
        Vec<Spent>,
    ),
    OpenFault,
>
    requires { HasCleanDisk (state S.Store conn.old) → HasTables (state S.Store conn.old) }
    ensures { Reads (λ trees rows. AreOrderRows trees rows.0.items rows.1.items
        × AreBuildRows trees rows.2.items rows.3.items rows.4.items) WhyUnread
        (state S.Store conn.old) (state S.Store conn.new) result }
{
    let (orders, lines) = load_order_rows(alloc, conn)?;
    let (builds, allocations, spent) = load_build_rows(alloc, conn)?;
    Ok((orders, lines, builds, allocations, spent))
}

/// The rows of all tables beside the row of the counter.
fn load_sheets<S: Alter>(
    alloc: Global,
    conn: &mut Connection<S>,
    row: MetaRow,
    limits: Limits,
) -> Result<Tables, OpenFault>
    requires { HasCleanDisk (state S.Store conn.old) → HasTables (state S.Store conn.old) }
    ensures sheets { Reads AreSheets WhyUnread
        (state S.Store conn.old) (state S.Store conn.new) result }
    ensures next { IfOk result (λ tables. tables.next ≡ row.next) }
    ensures entries { IfOk result (λ tables. tables.entries ≡ row.entries) }
    ensures limits { IfOk result (λ tables. tables.limits ≡ limits) }
{
    let (orders, order_lines, builds, allocations, spent) = load_orders(alloc, conn)?;
    let (categories, parts, lines, substitutes) = load_parts(alloc, conn)?;
    let (locations, items, history) = load_stock(alloc, conn, row.entries)?;
    let answers = load_answers(alloc, conn)?;
    Ok(Tables {
        categories,
        parts,
        lines,
        substitutes,
        locations,
        items,
        history,
        allocations,
        orders,
        order_lines,
        builds,
        spent,
        answers,
        next: row.next,
        entries: row.entries,
        limits,
    })
}

/// The rows of all tables. The row of the counter comes first: a file of another version is `Foreign`, whatever else is
/// in it.
fn load_tables<S: Alter>(alloc: Global, conn: &mut Connection<S>) -> Result<Tables, OpenFault>
    requires { HasCleanDisk (state S.Store conn.old) → HasTables (state S.Store conn.old) }
    ensures { Reads AreTables (WhyBut IsOfOtherVersion)
        (state S.Store conn.old) (state S.Store conn.new) result }
{
    let (row, limits) = load_counter(alloc, conn)?;
    match load_sheets(alloc, conn, row, limits) {
        Ok(tables) => Ok(tables),
        Err(fault) => Err(fault),
    }
}

/// The shop whose state the tables have.
pub(crate) fn load<S: Alter>(
    alloc: Global,
    seed: Seed,
    conn: &mut Connection<S>,
) -> Result<Shop, OpenFault>
    requires { HasCleanDisk (state S.Store conn.old) → HasTables (state S.Store conn.old) }
    ensures sound { IfOk result (λ shop. IsSoundState (state_of shop)) }
    ensures read { Reads AreBooksOf (WhyBut IsOfOtherVersion)
        (state S.Store conn.old) (state S.Store conn.new) result }
{
    let tables = load_tables(alloc, conn)?;
    match Shop::assemble(alloc, seed, tables) {
        Ok(shop) => Ok(shop),
        Err(AssembleFault::Memory) => Err(OpenFault::Memory),
        Err(AssembleFault::Unsound) => Err(OpenFault::Damaged(None)),
    }
}
