//! Whether a schema is that of the desk's tables.
ghost use Rattle.std.specs.Prelude.{◌≡◌, ◌↔◌, ◌≤◌, ◌∷◌, [], length, map, take, IsTrue, None};
ghost use Rattle.sqlite_value.specs.Keys.{plain};
ghost use Rattle.table_store.specs.Schema.{column_of, table_of, all_names, kept_index, desk_schema, old_schema, no_stamps};
ghost use Rattle.table_store.specs.Shape.{IsNumbered, IsWorded, HasNoRule, IsNamed, IsKeyed, HasParts, HasKeptIndex};

use crate::name::TableName;
use sqlite_items::Items;
use sqlite_schema::code::Terms;
use sqlite_schema::schema::{Column, Index, Kind, Schema, Stamps, Table};
use sqlite_value::keys::{Collation, Order};
use sqlite_value::value::Value;

/// Whether there are no terms.
fn has_no_term(terms: &Terms) -> bool
    ensures { IsTrue result ↔ (terms.now ≡ []) }
{
    terms.roots.is_empty()
}

/// Whether it is a value of no kind.
fn is_absent(value: &Value) -> bool
    ensures { IsTrue result ↔ (value.now ≡ Value.Null) }
{
    match value {
        Value::Null => true,
        _ => false,
    }
}

/// Whether the column is this one, of a STRICT table and without a default.
fn is_column(column: &Column, name: &str, kind: Kind, not_null: bool) -> bool
    ensures { IsTrue result ↔ (column.now ≡ column_of kind not_null name.now) }
{
    column.name.as_slice() == name.as_bytes()
        && column.kind == kind
        && column.not_null == not_null
        && column.is_strict
        && column.collation == Collation::Binary
        && is_absent(&column.default)
}

/// Whether the columns are these.
fn are_columns(columns: &[Column], wanted: &[(&str, Kind, bool)]) -> bool
    ensures { IsTrue result ↔ (columns.now ≡ map (λ w. column_of w.1 w.2 w.0.now) wanted.now) }
{
    if columns.len() != wanted.len() {
        return false;
    }
    for at in 0..columns.len() {
        let (name, kind, not_null) = wanted[at];
        if !is_column(&columns[at], name, kind, not_null) {
            return false;
        }
    }
    true
}

/// Whether the numbers are these.
fn are_places(places: &Items<usize>, wanted: &[usize]) -> bool
    ensures { IsTrue result ↔ (places.now ≡ wanted.now) }
{
    places.as_slice() == wanted
}

/// Whether the rows stand under a whole number, which is the first column.
fn is_numbered(table: &Table) -> bool
    ensures { IsTrue result ↔ IsNumbered table.now }
{
    table.key == Some(0)
        && are_places(&table.primary, &[0])
        && table.uniques.is_empty()
        && table.orders.is_empty()
}

/// Whether there is one list of places, which is this one.
fn is_only(uniques: &Items<Items<usize>>, wanted: &[usize]) -> bool
    ensures { IsTrue result ↔ (uniques.now ≡ wanted.now ∷ []) }
{
    match uniques.as_slice() {
        [places] => are_places(places, wanted),
        _ => false,
    }
}

/// Whether there is one order, by bytes from the least.
fn is_plain(orders: &Items<Order>) -> bool
    ensures { IsTrue result ↔ (orders.now ≡ plain ∷ []) }
{
    match orders.as_slice() {
        [order] => *order == Order::PLAIN,
        _ => false,
    }
}

/// Whether the rows stand under a word, which is the first column.
fn is_worded(table: &Table) -> bool
    ensures { IsTrue result ↔ IsWorded table.now }
{
    table.key.is_none()
        && are_places(&table.primary, &[1])
        && is_only(&table.uniques, &[1])
        && is_plain(&table.orders)
}

/// Whether no default reads the time.
fn has_no_stamp(stamps: &Stamps) -> bool
    ensures { IsTrue result ↔ (stamps.now ≡ no_stamps) }
{
    stamps.places.is_empty() && has_no_term(&stamps.terms) && stamps.formats.is_empty()
}

/// Whether the table has no rule besides its key and its columns.
fn has_no_rule(table: &Table) -> bool
    ensures { IsTrue result ↔ HasNoRule table.now }
{
    has_no_term(&table.checks)
        && table.references.is_empty()
        && table.computed.is_empty()
        && has_no_stamp(&table.stamps)
        && !table.is_counted
}

/// Whether the table has this name and tree, and the columns that go with them.
fn is_named(table: &Table, name: TableName) -> bool
    ensures { IsTrue result ↔ IsNamed name table.now }
{
    table.name.as_slice() == name.name().as_bytes()
        && table.tree == name.tree()
        && are_columns(table.columns.as_slice(), name.columns())
}

/// Whether the table stands under what its name says.
fn is_keyed(table: &Table, name: TableName) -> bool
    ensures { IsTrue result ↔ IsKeyed name table.now }
{
    match name {
        TableName::Kept => is_worded(table),
        _ => is_numbered(table),
    }
}

/// Whether each part of the table is that of the table of this name.
fn has_parts(table: &Table, name: TableName) -> bool
    ensures { IsTrue result ↔ HasParts name table.now }
{
    is_named(table, name) && is_keyed(table, name) && has_no_rule(table)
}

/// Whether the table is the one of this name.
fn is_table(table: &Table, name: TableName) -> bool
    ensures { IsTrue result ↔ (table.now ≡ table_of name) }
{
    has_parts(table, name)
}

/// Whether the index is that of the words of `kept`.
fn is_kept_index(index: &Index) -> bool
    ensures { IsTrue result ↔ (index.now ≡ kept_index) }
{
    index.name.as_slice() == "sqlite_autoindex_kept_1".as_bytes()
        && index.tree == 13
        && index.table == 12
        && are_places(&index.columns, &[1])
        && index.order == Order::PLAIN
        && index.is_unique
}

/// Whether the only index is that of the words of `kept`, and there is no view.
fn has_kept_index(schema: &Schema) -> bool
    ensures { IsTrue result ↔ HasKeptIndex schema.now }
{
    match schema.indexes.as_slice() {
        [index] => is_kept_index(index) && schema.views.is_empty(),
        _ => false,
    }
}

/// The first of so many tables that isn't the one that stands at its place, if there is one.
fn first_odd(tables: &[Table], count: usize) -> Option<TableName>
    requires all { length tables.now ≡ count }
    requires known { count ≤ 14 }
    ensures { (result ≡ None) ↔ (tables.now ≡ map table_of (take count all_names)) }
{
    for place in 0..count {
        let name = TableName::at(place);
        if !is_table(&tables[place], name) {
            return Some(name);
        }
    }
    None
}

/// A table of the desk's that isn't as it should be, if there is one.
pub(crate) fn odd_table(schema: &Schema) -> Option<TableName>
    ensures { (result ≡ None) ↔ (schema.now ≡ desk_schema) }
{
    if schema.tables.len() != 14 {
        return Some(TableName::Meta);
    }
    match first_odd(schema.tables.as_slice(), 14) {
        Some(name) => Some(name),
        None if has_kept_index(schema) => None,
        None => Some(TableName::Kept),
    }
}

/// Whether the tables are those of version 1.
pub(crate) fn is_old(schema: &Schema) -> bool
    ensures { IsTrue result ↔ (schema.now ≡ old_schema) }
{
    schema.tables.len() == 13
        && first_odd(schema.tables.as_slice(), 13).is_none()
        && has_kept_index(schema)
}
