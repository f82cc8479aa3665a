//! The columns of a file that is read loosely: what stands between two fields, and where each of a
//! row's fields stands.
ghost use Rattle.std.specs.Prelude.{◌≡◌, true, IfOk, option_map};
ghost use Rattle.csv.specs.Reading.{records, strip_bom};
ghost use Rattle.csv.specs.Records.{fields_of};
ghost use Rattle.desk_core.specs.ShopView.{state_of};
ghost use Rattle.desk_wire.specs.Imports.{arranged, column_by, columns_of, field_at_place};
ghost use Rattle.desk_wire.specs.Imports.{first_columns, layout_by, may_lack, places_from};
ghost use Rattle.desk_wire.specs.Imports.{asked_by, expected_name, first_place, first_width};
ghost use Rattle.desk_wire.specs.Imports.{has_other_separator, is_unchanged, says, separators};
ghost use Rattle.desk_wire.specs.Layouts.{ReadsText, columns_in, layout_in};
ghost use Rattle.desk_wire.specs.Records.{IsReading, are_texts, config_by};

use crate::fault::Unread;
use crate::kind::ImportKind;
use crate::number::number_in;
use crate::records::{next_record, records_of};
use crate::row::{ImportRow, field, header};
use crate::sheet_columns::column_headed;
use csv::{Reader, StringRecord};
use desk_core::Shop;
use std::alloc::{AllocError, Global};

/// What may stand between two fields, in the order in which they are tried.
pub const SEPARATORS: [u8; 3] = [b',', b';', b'\t'];

/// The columns that a header names.
#[derive(Drop)]
pub struct HeaderColumns<'a> {
    /// Where each of a row's fields stands. One that has no column is empty.
    places: Vec<Option<usize>>,
    /// How many fields a record may have.
    width: usize,
    /// Where a sheet says what the books had, if it does.
    expected: Option<usize>,
    /// The books that are still to have it, where they are asked.
    books: Option<&'a Shop>,
}

/// What a sheet calls what the books had.
fn expected_name(kind: ImportKind) -> &'static str
    ensures { result.now ≡ expected_name kind }
{
    match kind {
        ImportKind::Receipts => "outstanding",
        ImportKind::Counts => "expected",
    }
}

/// The first column of that name, if there is one.
fn first_column(name: &str, header: &StringRecord) -> Option<usize>
    ensures { result ≡ first_place (places_from 0 name.now (fields_of header.now)) }
{
    for index in 0..header.len() {
        if name == field(header, index) {
            return Some(index);
        }
    }
    None
}

/// Whether the field of that name may have no column.
fn may_lack(name: &str) -> bool
    ensures { result ≡ may_lack name.now }
{
    name == "batch" || name == "serials"
}

/// The column of that name, if it has just one, or, where it may, none.
#[tactic(auto, using(crate::proofs::ColumnFacts::column_one, crate::proofs::ColumnFacts::column_none, crate::proofs::ColumnFacts::column_twice))]
fn column_by(name: &str, header: &StringRecord) -> Option<Option<usize>>
    ensures { result ≡ column_by name.now (places_from 0 name.now (fields_of header.now)) }
{
    let column = column_headed(name, header)?;
    if column.is_some() || may_lack(name) {
        Some(column)
    } else {
        None
    }
}

/// The columns that a file's first record names, whatever else it names.
fn columns_of<'a>(
    alloc: Global,
    kind: ImportKind,
    first: &StringRecord,
) -> Result<Option<HeaderColumns<'a>>, AllocError>
    requires { are_texts (fields_of first.now) ≡ true }
    ensures { IfOk result (λ columns. option_map columns_in columns
        ≡ columns_of kind (fields_of first.now)) }
{
    let mut places = Vec::new(alloc);
    for name in header(kind) {
        let Some(place) = column_by(name, first) else {
            return Ok(None);
        };
        places.push(place)?;
    }
    Ok(Some(HeaderColumns {
        places,
        width: first.len(),
        expected: first_column(expected_name(kind), first),
        books: None,
    }))
}

/// The columns that the first record names, where that separator stands between two fields.
fn columns_by<'a>(
    alloc: Global,
    kind: ImportKind,
    separator: u8,
    bytes: &[u8],
) -> Result<Option<HeaderColumns<'a>>, AllocError>
    ensures { IfOk result (λ columns. option_map columns_in columns
        ≡ first_columns kind (records (config_by separator) (strip_bom bytes.now))) }
{
    let mut reader = records_of(alloc, separator, bytes);
    let mut first = StringRecord::new(alloc);
    match next_record(&mut reader, &mut first) {
        Ok(true) => columns_of(alloc, kind, &first),
        Ok(false) => Ok(None),
        Err(Unread::Wrong(_)) => Ok(None),
        Err(Unread::Memory) => Err(AllocError),
    }
}

/// The first separator by which the first record names the columns, with the columns.
pub fn layout_of<'a>(
    alloc: Global,
    kind: ImportKind,
    bytes: &[u8],
) -> Result<Option<(u8, HeaderColumns<'a>)>, AllocError>
    ensures { IfOk result (λ layout. option_map layout_in layout
        ≡ layout_by kind (strip_bom bytes.now) separators) }
{
    for separator in SEPARATORS {
        if let Some(columns) = columns_by(alloc, kind, separator, bytes)? {
            return Ok(Some((separator, columns)));
        }
    }
    Ok(None)
}

/// Reads the next record: whether there is one, and it is text.
fn reads_text(reader: &mut Reader<&[u8]>, fields: &mut StringRecord) -> Result<bool, AllocError>
    requires { IsReading reader.old }
    ensures { IfOk result (λ found. ReadsText reader.old reader.new (fields_of fields.new) found) }
{
    match next_record(reader, fields) {
        Ok(found) => Ok(found),
        Err(Unread::Wrong(_)) => Ok(false),
        Err(Unread::Memory) => Err(AllocError),
    }
}

/// How many fields the first record under the header has, where that separator stands between two
/// fields, both records are there, and they are text.
#[tactic(auto, using(crate::proofs::ClosedRecords::no_first, crate::proofs::ClosedRecords::no_second, crate::proofs::ClosedRecords::second_there))]
fn first_width(alloc: Global, separator: u8, bytes: &[u8]) -> Result<Option<usize>, AllocError>
    ensures { IfOk result (λ width. width
        ≡ first_width (records (config_by separator) (strip_bom bytes.now))) }
{
    let mut reader = records_of(alloc, separator, bytes);
    let mut header = StringRecord::new(alloc);
    if !reads_text(&mut reader, &mut header)? {
        return Ok(None);
    }
    let mut fields = StringRecord::new(alloc);
    if !reads_text(&mut reader, &mut fields)? {
        return Ok(None);
    }
    Ok(Some(fields.len()))
}

/// Whether another separator stands in the records than in the header, which has that one between two fields and is so
/// wide: by the header's the first record under it hasn't as many fields, and by another it has.
pub fn has_other_separator(
    alloc: Global,
    separator: u8,
    width: usize,
    bytes: &[u8],
) -> Result<bool, AllocError>
    ensures { IfOk result (λ other. other
        ≡ has_other_separator (strip_bom bytes.now) separator width) }
{
    match first_width(alloc, separator, bytes)? {
        Some(own) if own != width => {}
        _ => return Ok(false),
    }
    for other in SEPARATORS {
        if first_width(alloc, other, bytes)? == Some(width) {
            return Ok(true);
        }
    }
    Ok(false)
}

fn field_at_place(place: Option<usize>, fields: &StringRecord) -> &str
    ensures { result.now ≡ field_at_place place (fields_of fields.now) }
{
    match place {
        None => "",
        Some(index) => field(fields, index),
    }
}

/// Whether a text says that number, or nothing.
fn says(text: &str, number: Option<u64>) -> bool
    ensures { result ≡ says text.now number }
{
    if text.is_empty() {
        return true;
    }
    match number {
        None => true,
        Some(number) => number_in(text) == Some(number),
    }
}

impl<'a> HeaderColumns<'a> {
    /// The columns, with the books that are asked, if any are.
    pub fn asking(self, books: Option<&'a Shop>) -> Self
        ensures { columns_in result
            ≡ asked_by (option_map (λ shop. state_of shop.now) books.entry) (columns_in self.entry) }
    {
        match books {
            None => self,
            Some(_) => HeaderColumns { books, ..self },
        }
    }

    /// Whether the books have what the record of a row says they had, where they are asked.
    pub fn is_unchanged(&self, fields: &StringRecord, row: &ImportRow) -> bool
        ensures { result ≡ is_unchanged (columns_in self.now) (fields_of fields.now) row.now }
    {
        match self.books {
            None => true,
            Some(shop) => says(
                field_at_place(self.expected, fields),
                row.still_booked(shop),
            ),
        }
    }

    /// How many fields a record may have.
    pub fn width(&self) -> usize
        ensures { result ≡ (columns_in self.now).width }
    {
        self.width
    }

    /// A row's fields, in their order, out of a record: one that the record ends before is empty.
    pub fn arranged(&self, alloc: Global, fields: &StringRecord) -> Result<StringRecord, AllocError>
        ensures { IfOk result (λ row. fields_of row
            ≡ arranged (columns_in self.now) (fields_of fields.now)) }
    {
        let mut row = StringRecord::new(alloc);
        for place in &self.places {
            row.push_field(field_at_place(*place, fields))?;
        }
        Ok(row)
    }
}
