//! What a file is, as a text.
use desk_core::{Command, Shop};
use desk_wire::{
    Document, FileError, ImportKind, ImportRow, WireFault, WrongField, import_counts,
    import_receipts, import_rows,
};
use order_core::OrderCommand;
use part_core::{Day, Serials, Text};
use std::alloc::{AllocError, Global};
use std::test::Fail;
use stock_core::{NewStock, StockCommand};

fn show_serials(alloc: Global, serials: &Option<Serials>) -> Result<String, AllocError> {
    let mut text = String::new(alloc);
    if let Some(serials) = serials {
        for serial in serials.as_slice() {
            text.push_str(" ")?;
            text.push_str(serial.as_str())?;
        }
    }
    Ok(text)
}

fn show_batch(batch: &Option<Text>) -> &str {
    match batch {
        None => "none",
        Some(batch) => batch.as_str(),
    }
}

/// So many, with a batch or none, and the serials.
fn show_new(alloc: Global, new: &NewStock) -> Result<String, AllocError> {
    let (quantity, batch) = (new.quantity, show_batch(&new.batch));
    let serials = show_serials(alloc, &new.serials)?;
    format!(in alloc; "{quantity} {batch}{serials}")
}

fn show_command(alloc: Global, command: &Command) -> Result<String, AllocError> {
    match command {
        Command::Order(
            OrderCommand::Receive {
                line,
                location,
                new,
            },
        ) => {
            let new = show_new(alloc, new)?;
            format!(in alloc; "receive {line} {location} {new}")
        }
        Command::Stock(StockCommand::Count { item, quantity }) => {
            format!(in alloc; "count {item} {quantity}")
        }
        _ => String::from_str(alloc, "another command"),
    }
}

/// The number, the key, the day and the command of a row, on a line.
fn show_row(alloc: Global, row: &ImportRow) -> Result<String, AllocError> {
    let request = row.request(alloc)?;
    let command = show_command(alloc, &request.command)?;
    let (number, day) = (row.number(), request.day);
    let key = match &request.key {
        None => "none",
        Some(key) => key.as_str(),
    };
    format!(in alloc; "{number} {key} {day:?} {command}\n")
}

fn show_rows(alloc: Global, rows: &[ImportRow]) -> Result<String, AllocError> {
    let mut text = String::new(alloc);
    for row in rows {
        text.push_str(show_row(alloc, row)?.as_str())?;
    }
    Ok(text)
}

/// The rows of a file of that document, of the first of March 2030, or its fault. With a shop its rows may be called
/// by their names.
pub fn rows_of(
    alloc: Global,
    shop: Option<&Shop>,
    kind: ImportKind,
    document: &str,
    bytes: &[u8],
) -> Result<Result<Vec<ImportRow>, FileError>, Fail> {
    let name = String::from_str(alloc, document)?;
    let document = Document::new(name).ok_or("it is a document")?;
    let day = Day::parse("2030-03-01").ok_or("it is a day")?;
    Ok(match kind {
        ImportKind::Receipts => import_receipts(alloc, shop, bytes, &document, day),
        ImportKind::Counts => import_counts(alloc, shop, bytes, &document, day),
    })
}

/// The fault's name, the field that it tells, and the number of the record.
fn show_fault(alloc: Global, fault: &WireFault) -> Result<String, AllocError> {
    let (name, number) = (fault.what.name(), fault.line);
    match fault.what.field() {
        None => format!(in alloc; "{name} {number}"),
        Some(field) => format!(in alloc; "{name} {field} {number}"),
    }
}

/// Each row of a file of document D1, or its fault with its number.
pub fn show(
    alloc: Global,
    shop: Option<&Shop>,
    kind: ImportKind,
    bytes: &[u8],
) -> Result<String, Fail> {
    let read = rows_of(alloc, shop, kind, "D1", bytes)?;
    let text = match &read {
        Ok(rows) => show_rows(alloc, rows.as_slice())?,
        Err(FileError::Wrong(fault, _)) => show_fault(alloc, fault)?,
        Err(FileError::Memory) => String::from_str(alloc, "no memory")?,
    };
    Ok(text)
}

/// The fault, with the field that can't be read, if it is one.
pub fn show_field(
    alloc: Global,
    fault: &WireFault,
    field: &Option<WrongField>,
) -> Result<String, AllocError> {
    let mut text = show_fault(alloc, fault)?;
    if let Some(field) = field {
        text.push_str(": ")?;
        text.push_str(field.name.as_str())?;
        if let Some(there) = &field.text {
            text.push_str(" is ")?;
            text.push_str(there.as_str())?;
        }
    }
    Ok(text)
}

/// Each row of a file of document D1 that is read strictly or loosely, or its fault with the field that can't be read.
pub fn show_as(alloc: Global, loose: bool, kind: ImportKind, bytes: &[u8]) -> Result<String, Fail> {
    let document = Document::new(String::from_str(alloc, "D1")?).ok_or("it is a document")?;
    let day = Day::parse("2030-03-01").ok_or("it is a day")?;
    let nobody = None::<&Shop>;
    let text = match &import_rows(alloc, loose, nobody, bytes, kind, &document, day) {
        Ok(rows) => show_rows(alloc, rows.as_slice())?,
        Err(FileError::Wrong(fault, field)) => show_field(alloc, fault, field)?,
        Err(FileError::Memory) => String::from_str(alloc, "no memory")?,
    };
    Ok(text)
}

/// A header and the lines under it.
pub fn under(alloc: Global, header: &str, lines: &[u8]) -> Result<Vec<u8>, AllocError> {
    let mut bytes = Vec::new(alloc);
    bytes.extend_from_slice(header.as_bytes())?;
    bytes.extend_from_slice(b"\n".as_slice())?;
    bytes.extend_from_slice(lines)?;
    Ok(bytes)
}
