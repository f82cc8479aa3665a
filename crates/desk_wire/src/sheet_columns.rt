//! The columns of a file of any command: where each member of a line stands in a record.
ghost use Rattle.std.specs.Prelude.{◌≡◌, IfOk, true, option_map};
ghost use Rattle.csv.specs.Reading.{records, strip_bom};
ghost use Rattle.csv.specs.Records.{fields_of};
ghost use Rattle.word_core.specs.Forms.{shown};
ghost use Rattle.word_core.specs.Forms as forms;
ghost use Rattle.desk_wire.specs.Imports.{separators};
ghost use Rattle.desk_wire.specs.Records.{are_texts, config_by};
ghost use Rattle.desk_wire.specs.Sheets.{cell, column_headed, field_places, first_columns, is_blank};
ghost use Rattle.desk_wire.specs.Sheets.{has_column, is_left_out, layout_by, may_lack, place_at, place_of, said_of};
ghost use Rattle.desk_wire.specs.Sheets.{sheet_columns, with_column};
ghost use Rattle.desk_wire.specs.SheetViews.{shown_columns, shown_fields, shown_layout, shown_place};
ghost use Rattle.desk_wire.specs.SheetViews.{shown_said, shown_sayings};
ghost use Rattle.std.specs.List.{list_all};

use crate::columns::SEPARATORS;
use crate::fault::Unread;
use crate::records::{next_record, records_of};
use crate::row::field;
use csv::StringRecord;
use part_core::{FieldKind, Form};
use std::alloc::{AllocError, Global};

/// What is said of a member of a line.
#[derive(Clone, Copy, Debug)]
pub enum Said<'a> {
    /// Its column has this name.
    Headed(&'a str),
    /// It has this text in each record.
    Always(&'a str),
}

/// Where a member of a line stands in a record.
#[derive(Clone, Copy)]
pub enum Place<'a> {
    /// In the column of this number.
    Column(usize),
    /// It is this text.
    Text(&'a str),
    Nowhere,
}

/// A field of a form, and where it stands.
#[derive(Clone, Copy)]
pub struct FieldPlace<'a> {
    pub name: &'static str,
    pub kind: FieldKind,
    pub place: Place<'a>,
}

/// Where each member of a line stands.
#[derive(Drop)]
pub struct HeaderPlaces<'a> {
    pub fields: Vec<FieldPlace<'a>>,
    pub number: Place<'a>,
    pub key: Place<'a>,
    pub day: Place<'a>,
    /// How many fields a record may have.
    pub width: usize,
}

/// What is said of the member of that name.
fn said_of<'a>(said: &[(&'a str, Said<'a>)], name: &str) -> Option<Said<'a>>
    ensures { option_map shown_said result ≡ said_of (shown_sayings said.now) name.now }
{
    for (member, what) in said {
        if *member == name {
            return Some(*what);
        }
    }
    None
}

/// Whether a line may lack a field of that kind.
pub fn may_lack(kind: FieldKind) -> bool
    ensures { result ≡ may_lack kind }
{
    match kind {
        FieldKind::MaybeRow(_) => true,
        FieldKind::MaybeText => true,
        FieldKind::MaybeSerials => true,
        FieldKind::Yes => true,
        FieldKind::Flags => true,
        _ => false,
    }
}

/// The column of that name, if there is one; none at all where two columns have the name.
pub fn column_headed(name: &str, header: &StringRecord) -> Option<Option<usize>>
    ensures { result ≡ column_headed name.now (fields_of header.now) }
{
    let mut column = None;
    for index in 0..header.len() {
        if name == field(header, index) {
            if column.is_some() {
                return None;
            }
            column = Some(index);
        }
    }
    Some(column)
}

fn place_at<'a>(may_lack: bool, column: Option<usize>) -> Option<Place<'a>>
    ensures { option_map shown_place result ≡ place_at may_lack column }
{
    match column {
        Some(index) => Some(Place::Column(index)),
        None => { if may_lack { Some(Place::Nowhere) } else { None } }
    }
}

/// Where the member of that name stands, by the header and by what is said of it, if it is as it has to be.
fn place_of<'a>(
    said: Option<Said<'a>>,
    may_lack: bool,
    name: &str,
    header: &StringRecord,
) -> Option<Place<'a>>
    ensures { option_map shown_place result
        ≡ place_of (option_map shown_said said.entry) may_lack name.now (fields_of header.now) }
{
    match said {
        None => {
            let column = column_headed(name, header)?;
            place_at(may_lack, column)
        }
        Some(Said::Headed(other)) => {
            let column = column_headed(other, header)?;
            place_at(false, column)
        }
        Some(Said::Always(text)) => match column_headed(name, header) {
            Some(_) => Some(Place::Text(text)),
            None => None,
        },
    }
}

/// Where each field of a form stands.
fn field_places<'a>(
    alloc: Global,
    blanks: &'static [(&'static str, FieldKind)],
    said: &[(&'a str, Said<'a>)],
    header: &StringRecord,
) -> Result<Option<Vec<FieldPlace<'a>>>, AllocError>
    ensures { IfOk result (λ places. option_map (λ fields. shown_fields fields.items) places
        ≡ field_places (shown_sayings said.now) (forms.shown_fields blanks.now)
        (fields_of header.now)) }
{
    let mut places = Vec::new(alloc);
    for (name, kind) in blanks {
        let Some(place) = place_of(said_of(said, name), may_lack(*kind), name, header) else {
            return Ok(None);
        };
        places.push(FieldPlace {
            name,
            kind: *kind,
            place,
        })?;
    }
    Ok(Some(places))
}

/// Whether one of these has a column.
fn has_column(places: &[FieldPlace<'_>]) -> bool
    ensures { result ≡ has_column (shown_fields places.now) }
{
    for f in places {
        if matches!(f.place, Place::Column(_)) {
            return true;
        }
    }
    false
}

/// The columns that a file's first record names, whatever else it names.
fn sheet_columns<'a>(
    alloc: Global,
    form: &Form,
    said: &[(&'a str, Said<'a>)],
    header: &StringRecord,
) -> Result<Option<HeaderPlaces<'a>>, AllocError>
    requires { are_texts (fields_of header.now) ≡ true }
    ensures { IfOk result (λ columns. option_map shown_columns columns
        ≡ sheet_columns (shown form.now) (shown_sayings said.now) (fields_of header.now)) }
{
    let Some(fields) = field_places(alloc, form.fields, said, header)? else {
        return Ok(None);
    };
    if !has_column(&fields) {
        return Ok(None);
    }
    let Some(number) = place_of(said_of(said, "number"), true, "number", header) else {
        return Ok(None);
    };
    let Some(key) = place_of(said_of(said, "key"), true, "key", header) else {
        return Ok(None);
    };
    let Some(day) = place_of(said_of(said, "day"), true, "day", header) else {
        return Ok(None);
    };
    Ok(Some(HeaderPlaces {
        fields,
        number,
        key,
        day,
        width: header.len(),
    }))
}

/// The columns that the first record names, where that separator stands between two fields.
fn columns_by<'a>(
    alloc: Global,
    form: &Form,
    said: &[(&'a str, Said<'a>)],
    separator: u8,
    bytes: &[u8],
) -> Result<Option<HeaderPlaces<'a>>, AllocError>
    ensures { IfOk result (λ columns. option_map shown_columns columns
        ≡ first_columns (shown form.now) (shown_sayings said.now)
        (records (config_by separator) (strip_bom bytes.now))) }
{
    let mut reader = records_of(alloc, separator, bytes);
    let mut first = StringRecord::new(alloc);
    match next_record(&mut reader, &mut first) {
        Ok(true) => sheet_columns(alloc, form, said, &first),
        Ok(false) => Ok(None),
        Err(Unread::Wrong(_)) => Ok(None),
        Err(Unread::Memory) => Err(AllocError),
    }
}

/// The first separator by which the first record names the columns, with the columns.
pub fn layout_of<'a>(
    alloc: Global,
    form: &Form,
    said: &[(&'a str, Said<'a>)],
    bytes: &[u8],
) -> Result<Option<(u8, HeaderPlaces<'a>)>, AllocError>
    ensures { IfOk result (λ layout. option_map shown_layout layout
        ≡ layout_by (shown form.now) (shown_sayings said.now) (strip_bom bytes.now) separators) }
{
    for separator in SEPARATORS {
        if let Some(columns) = columns_by(alloc, form, said, separator, bytes)? {
            return Ok(Some((separator, columns)));
        }
    }
    Ok(None)
}

/// What stands there in a record.
pub fn cell<'b>(place: Place<'b>, fields: &'b StringRecord) -> &'b str
    ensures { result.now ≡ cell (shown_place place.entry) (fields_of fields.now) }
{
    match place {
        Place::Column(index) => field(fields, index),
        Place::Text(text) => text,
        Place::Nowhere => "",
    }
}

/// Whether nobody filled in its column, if it has one.
fn is_blank(place: Place<'_>, fields: &StringRecord) -> bool
    ensures { result ≡ is_blank (shown_place place.entry) (fields_of fields.now) }
{
    match place {
        Place::Column(index) => field(fields, index).is_empty(),
        Place::Text(_) => true,
        Place::Nowhere => true,
    }
}

fn are_blank(places: &[FieldPlace<'_>], fields: &StringRecord) -> bool
    ensures { result ≡ list_all (λ f. is_blank f.place (fields_of fields.now))
        (shown_fields places.now) }
{
    for f in places {
        if !is_blank(f.place, fields) {
            return false;
        }
    }
    true
}

impl<'a> HeaderPlaces<'a> {
    /// Whether nothing is filled in of a record but, it may be, its number.
    pub fn leaves_out(&self, fields: &StringRecord) -> bool
        ensures { result ≡ is_left_out (shown_columns self.now) (fields_of fields.now) }
    {
        are_blank(&self.fields, fields) && is_blank(self.key, fields) && is_blank(self.day, fields)
    }
}
