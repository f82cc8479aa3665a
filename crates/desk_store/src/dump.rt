//! The tables of a shop as SQL, which makes them anew in a database that has nothing.
ghost use Rattle.std.specs.Prelude.{◌≡◌, ◌≢◌, ◌↔◌, OnErr, OnOk, Err, IsSome};
ghost use Rattle.std.specs.Io.KnownBytes.{Appends, Keeps};
ghost use Rattle.desk_core.specs.ShopView.{state_of};
ghost use Rattle.desk_store.specs.Dumps.{create_line, dump_text, table_lines, tables_lines};
ghost use Rattle.desk_store.specs.Exports.{AppendsFront, Sends};

use crate::desk::Desk;
use crate::export::{ExportFault, RowForm, write_table};
use crate::sending::{flush, write_whole};
use desk_core::Shop;
use sqlite::Alter;
use std::alloc::Global;
use std::io::Write;
use table_store::TableName;

/// All tables, in the order in which the desk's file has them. The index that a database makes for the words of `kept`
/// comes before `spent`, and so has the place that an opening looks for.
const ALL: [TableName; 14] = [
    TableName::Meta,
    TableName::Categories,
    TableName::Locations,
    TableName::Parts,
    TableName::Lines,
    TableName::Substitutes,
    TableName::Items,
    TableName::History,
    TableName::Orders,
    TableName::OrderLines,
    TableName::Builds,
    TableName::Allocations,
    TableName::Kept,
    TableName::Spent,
];

/// The line that makes a table.
fn create_line(table: TableName) -> &'static str
    ensures { result.now ≡ create_line table }
{
    match table {
        TableName::Meta =>
            "CREATE TABLE meta (one INTEGER PRIMARY KEY, version INTEGER NOT NULL, next INTEGER NOT NULL, entries INTEGER NOT NULL, max_numbers INTEGER NOT NULL, max_entries INTEGER NOT NULL) STRICT;\n",
        TableName::Categories =>
            "CREATE TABLE categories (id INTEGER PRIMARY KEY, name TEXT NOT NULL, parent INTEGER) STRICT;\n",
        TableName::Locations =>
            "CREATE TABLE locations (id INTEGER PRIMARY KEY, name TEXT NOT NULL, parent INTEGER) STRICT;\n",
        TableName::Parts =>
            "CREATE TABLE parts (id INTEGER PRIMARY KEY, name TEXT NOT NULL, category INTEGER, template INTEGER, flags INTEGER NOT NULL, retired INTEGER NOT NULL) STRICT;\n",
        TableName::Lines =>
            "CREATE TABLE lines (id INTEGER PRIMARY KEY, assembly INTEGER NOT NULL, component INTEGER NOT NULL, quantity INTEGER NOT NULL, flags INTEGER NOT NULL) STRICT;\n",
        TableName::Substitutes =>
            "CREATE TABLE substitutes (id INTEGER PRIMARY KEY, line INTEGER NOT NULL, part INTEGER NOT NULL) STRICT;\n",
        TableName::Items =>
            "CREATE TABLE items (id INTEGER PRIMARY KEY, part INTEGER NOT NULL, batch TEXT, serial TEXT, status INTEGER NOT NULL, quantity INTEGER NOT NULL, place INTEGER NOT NULL, ref INTEGER NOT NULL) STRICT;\n",
        TableName::History =>
            "CREATE TABLE history (n INTEGER PRIMARY KEY, day TEXT NOT NULL, kind INTEGER NOT NULL, item INTEGER NOT NULL, part INTEGER NOT NULL, quantity INTEGER NOT NULL, place INTEGER NOT NULL, ref INTEGER NOT NULL) STRICT;\n",
        TableName::Orders =>
            "CREATE TABLE orders (id INTEGER PRIMARY KEY, side INTEGER NOT NULL, partner TEXT NOT NULL, state INTEGER NOT NULL) STRICT;\n",
        TableName::OrderLines =>
            "CREATE TABLE order_lines (id INTEGER PRIMARY KEY, owner INTEGER NOT NULL, part INTEGER NOT NULL, quantity INTEGER NOT NULL, done INTEGER NOT NULL) STRICT;\n",
        TableName::Builds =>
            "CREATE TABLE builds (id INTEGER PRIMARY KEY, part INTEGER NOT NULL, quantity INTEGER NOT NULL, state INTEGER NOT NULL, done INTEGER NOT NULL) STRICT;\n",
        TableName::Allocations =>
            "CREATE TABLE allocations (id INTEGER PRIMARY KEY, item INTEGER NOT NULL, quantity INTEGER NOT NULL, side INTEGER NOT NULL, owner INTEGER NOT NULL, line INTEGER NOT NULL, output INTEGER NOT NULL) STRICT;\n",
        TableName::Kept =>
            "CREATE TABLE kept (word TEXT PRIMARY KEY NOT NULL, command TEXT NOT NULL, answer TEXT NOT NULL) STRICT;\n",
        TableName::Spent =>
            "CREATE TABLE spent (id INTEGER PRIMARY KEY, build INTEGER NOT NULL, line INTEGER NOT NULL, quantity INTEGER NOT NULL) STRICT;\n",
    }
}

/// Writes the lines that make a table and put the rows that the shop has in it.
fn write_table_lines<W: Write>(
    alloc: Global,
    writer: &mut W,
    table: TableName,
    shop: &Shop,
) -> Result<(), ExportFault>
    ensures { Sends (W.contents writer.old) (W.contents writer.new)
        (table_lines table (state_of shop.now)) result }
{
    write_whole(writer, create_line(table).as_bytes())?;
    write_table(alloc, writer, RowForm::Insert(table), table, shop)
}

/// Writes the lines of these tables.
fn write_tables<W: Write>(
    alloc: Global,
    writer: &mut W,
    tables: &[TableName],
    shop: &Shop,
) -> Result<(), ExportFault>
    ensures { Sends (W.contents writer.old) (W.contents writer.new)
        (tables_lines tables.now (state_of shop.now)) result }
{
    for table in tables {
        write_table_lines(alloc, writer, *table, shop)?;
    }
    Ok(())
}

/// Writes all tables of a shop as SQL, and flushes: in one transaction each table is made and each row put, a statement a
/// line. So a text that was cut short ends without its COMMIT, and a database that is given it keeps nothing of it.
///
/// Each row's line is written as soon as it is made, so that the text is nowhere whole. Beside it there is a list of the
/// rows of one table, of the history none.
pub fn write_dump<W: Write>(alloc: Global, writer: &mut W, shop: &Shop) -> Result<(), ExportFault>
    ensures { Sends (W.contents writer.old) (W.contents writer.new)
        (dump_text (state_of shop.now)) result }
{
    write_whole(writer, b"BEGIN;\n")?;
    write_tables(alloc, writer, &ALL, shop)?;
    write_whole(writer, b"COMMIT;\n")?;
    Ok(flush(writer)?)
}

impl<S: Alter> Desk<S> {
    /// Writes all tables as SQL, which makes them anew in a database that has nothing: `write_dump`.
    ///
    /// It is what the tables have (`IsDesk`), and the database is not asked for it. What the text makes has the schema
    /// that `open` looks for, to the byte, and rows in the order of the key.
    pub fn dump<W: Write>(&self, writer: &mut W) -> Result<(), ExportFault>
        ensures whole { OnOk result (Appends (W.contents writer.old) (W.contents writer.new)
            (dump_text (state_of self.now.shop))) }
        ensures front { OnErr result (
            AppendsFront (W.contents writer.old) (W.contents writer.new)
            (dump_text (state_of self.now.shop))) }
        ensures nothing { result ≡ Err ExportFault.Closed
            → Keeps (W.contents writer.old) (W.contents writer.new) }
        ensures closed { (result ≡ Err ExportFault.Closed) ↔ IsSome self.now.failed }
        ensures there { result ≢ Err ExportFault.NoSuch }
    {
        if self.failed.is_some() {
            return Err(ExportFault::Closed);
        }
        write_dump(self.alloc, writer, &self.shop)
    }
}
