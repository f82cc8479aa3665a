//! The books, and entries of the history, as JSON in one line.
//!
//! A table is the array of its rows in the order of the key, and a row the array of its fields, each a string: those that
//! an export has. A text is written into one buffer while the rows are gone through, and no list of its parts is made.
ghost use Rattle.std.specs.Prelude.{◌≡◌, ◌++◌, ◌∷◌, [], map, take, filter, nat_le, IfOk};
ghost use Rattle.std.specs.FinMap.{values};
ghost use Rattle.json.specs.Print.{print};
ghost use Rattle.serde_json.specs.Data.{string};
ghost use Rattle.sheet_core.specs.Sheet.{now_of};
ghost use Rattle.desk_core.specs.DataOf.{maybe_whole};
ghost use Rattle.desk_core.specs.ShopView.{state_of};
ghost use Rattle.desk_core.specs.TextWriting.{Adds};
ghost use Rattle.desk_store.specs.Exports.{field_of, rows_of, table_rows};
ghost use Rattle.desk_store.specs.Shown.{row_data, rows_data, books_data, books_text};
ghost use Rattle.desk_store.specs.Shown.{entries_data, entries_from, history_text};

use crate::meta::MetaRow;
use desk_core::Shop;
use forest::Entry;
use json::Writer;
use part_core::{Column, Log, Sheet, Stored};
use std::alloc::{AllocError, Global};
use table_store::TableName;
use yard_core::rows_in_order;

/// The tables that the books are told with: all but the history and the answers that are kept.
const BOOKS: [TableName; 12] = [
    TableName::Meta,
    TableName::Categories,
    TableName::Locations,
    TableName::Parts,
    TableName::Lines,
    TableName::Substitutes,
    TableName::Items,
    TableName::Orders,
    TableName::OrderLines,
    TableName::Builds,
    TableName::Allocations,
    TableName::Spent,
];

/// How many entries of the history are told at most.
const MOST_ENTRIES: usize = 1000;

/// Writes the field of a column.
fn write_column(out: &mut Writer, column: &Column) -> Result<(), AllocError>
    ensures { Adds result out.old out.new (string (field_of column.now)) }
{
    match column {
        Column::Whole(number) => out.quoted_u64(*number),
        Column::Text(text) => out.string(text.as_str()),
        Column::Absent => out.string(""),
    }
}

/// Writes the columns of a row.
fn write_columns(out: &mut Writer, columns: &[Column]) -> Result<(), AllocError>
    ensures { Adds result out.old out.new (row_data columns.now) }
{
    out.begin_array()?;
    for column in columns {
        write_column(out, column)?;
    }
    out.end_array()
}

fn write_row<R: Stored>(alloc: Global, out: &mut Writer, row: &R) -> Result<(), AllocError>
    ensures { Adds result out.old out.new (row_data (R.columns_of row.now)) }
{
    let columns = row.columns(alloc)?;
    write_columns(out, columns.as_slice())
}

fn write_rows<R: Stored>(alloc: Global, out: &mut Writer, rows: &[R]) -> Result<(), AllocError>
    ensures { Adds result out.old out.new (rows_data (map R.columns_of rows.now)) }
{
    out.begin_array()?;
    for row in rows {
        write_row(alloc, out, row)?;
    }
    out.end_array()
}

fn write_lent<R: Stored>(alloc: Global, out: &mut Writer, rows: &[&R]) -> Result<(), AllocError>
    ensures { Adds result out.old out.new
        (rows_data (map R.columns_of (map (λ row. row.now) rows.now))) }
{
    out.begin_array()?;
    for row in rows {
        write_row(alloc, out, *row)?;
    }
    out.end_array()
}

/// Writes the rows of a sheet, in the order of the key.
fn write_sheet<R: Stored>(
    alloc: Global,
    out: &mut Writer,
    sheet: &Sheet<R>,
) -> Result<(), AllocError>
    ensures { Adds result out.old out.new
        (rows_data (rows_of R.columns_of (now_of sheet.now))) }
{
    let rows = rows_in_order(sheet)?;
    write_lent(alloc, out, rows.as_slice())
}

/// Writes the rows that the shop has in a table.
fn write_table(
    alloc: Global,
    out: &mut Writer,
    table: TableName,
    shop: &Shop,
) -> Result<(), AllocError>
    ensures { Adds result out.old out.new (rows_data (table_rows table (state_of shop.now))) }
{
    match table {
        TableName::Meta => write_rows(alloc, out, &[MetaRow::of(shop)]),
        TableName::Categories => write_sheet(alloc, out, shop.catalogue().categories()),
        TableName::Locations => write_sheet(alloc, out, shop.yard().locations()),
        TableName::Parts => write_sheet(alloc, out, shop.catalogue().parts()),
        TableName::Lines => write_sheet(alloc, out, shop.boms().lines()),
        TableName::Substitutes => write_sheet(alloc, out, shop.boms().substitutes()),
        TableName::Items => write_sheet(alloc, out, shop.yard().items()),
        TableName::History => write_rows(alloc, out, shop.yard().whole_history().as_slice()),
        TableName::Orders => write_sheet(alloc, out, shop.orders().orders()),
        TableName::OrderLines => write_sheet(alloc, out, shop.orders().lines()),
        TableName::Builds => write_sheet(alloc, out, shop.builds().rows()),
        TableName::Allocations => write_sheet(alloc, out, shop.allocations().rows()),
        TableName::Kept => write_sheet(alloc, out, shop.answers()),
        TableName::Spent => write_sheet(alloc, out, shop.builds().spent()),
    }
}

/// Writes how many requests were accepted, where that is known.
fn write_accepted(out: &mut Writer, accepted: Option<u64>) -> Result<(), AllocError>
    ensures { Adds result out.old out.new (maybe_whole accepted) }
{
    match accepted {
        None => out.null(),
        Some(number) => out.u64(number),
    }
}

/// Writes the object of these tables.
fn write_books(
    alloc: Global,
    out: &mut Writer,
    accepted: Option<u64>,
    tables: &[TableName],
    shop: &Shop,
) -> Result<(), AllocError>
    ensures { Adds result out.old out.new
        (books_data accepted (state_of shop.now) tables.now) }
{
    out.begin_object()?;
    out.key("accepted")?;
    write_accepted(out, accepted)?;
    for table in tables {
        out.key(table.name())?;
        write_table(alloc, out, *table, shop)?;
    }
    out.end_object()
}

/// Writes the object of these entries.
fn write_history(alloc: Global, out: &mut Writer, entries: &[Entry]) -> Result<(), AllocError>
    ensures { Adds result out.old out.new (entries_data entries.now) }
{
    out.begin_object()?;
    out.key("history")?;
    write_rows(alloc, out, entries)?;
    out.end_object()
}

/// A writer that has written nothing.
fn begun(alloc: Global) -> Result<Writer, AllocError>
    ensures before { IfOk result (λ out. out.before ≡ []) }
    ensures tokens { IfOk result (λ out. out.tokens ≡ []) }
{
    Ok(Writer::new(Vec::with_capacity(alloc, 1024)?))
}

/// What a writer has written, and an LF.
fn line(out: Writer) -> Result<Vec<u8>, AllocError>
    requires { out.before ≡ [] }
    ensures { IfOk result (λ text. text.items ≡ print out.tokens ++ 10 ∷ []) }
{
    let mut text = out.into_inner();
    text.push(b'\n')?;
    Ok(text)
}

/// The entries from a number on, so many at most as are told.
fn entries_from(history: &Log<Entry>, from: u64) -> &[Entry]
    ensures { result.now ≡ take 1000
        (filter (λ e. nat_le from e.number) (values (now_of history.now))) }
{
    let entries = history.as_slice();
    let before = from.saturating_sub(1).min(entries.len() as u64) as usize;
    let left = &entries[before..];
    &left[..left.len().min(MOST_ENTRIES)]
}

/// The books as JSON: how many requests were accepted, null where that is not known, and each table under its name, but for
/// the history and the answers that are kept.
///
/// Beside the text it takes a list of the rows of one table after another.
pub fn books_text(alloc: Global, shop: &Shop, accepted: Option<u64>) -> Result<Vec<u8>, AllocError>
    ensures { IfOk result (λ text. text.items ≡ books_text accepted (state_of shop.now)) }
{
    let mut out = begun(alloc)?;
    write_books(alloc, &mut out, accepted, &BOOKS, shop)?;
    line(out)
}

/// The entries of the history from a number on, a thousand at most, as JSON.
pub fn history_text(alloc: Global, shop: &Shop, from: u64) -> Result<Vec<u8>, AllocError>
    ensures { IfOk result (λ text. text.items ≡ history_text from (state_of shop.now)) }
{
    let mut out = begun(alloc)?;
    write_history(
        alloc,
        &mut out,
        entries_from(shop.yard().whole_history(), from),
    )?;
    line(out)
}
