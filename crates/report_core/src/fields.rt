//! What stands in the fields of a report.
ghost use Rattle.std.specs.Prelude.{◌≡◌, decimal, map, IfOk};
ghost use Rattle.std.specs.String.{string_bytes};
ghost use Rattle.part_core.specs.Catalogue.{part_in};
ghost use Rattle.part_core.specs.CatalogueView.{parts_of};
ghost use Rattle.report_core.specs.Fields.{name_of, text_or_empty};
ghost use Rattle.report_core.specs.Lines.{fields_of};

use part_core::{Batch, Catalogue, Serial};
use std::alloc::{AllocError, Global};

/// A number's digits.
pub fn number_field(alloc: Global, number: u64) -> Result<String, AllocError>
    ensures { IfOk result (λ text. string_bytes text ≡ decimal number) }
{
    format!(in alloc; "{number}")
}

/// An amount's digits.
pub fn amount_field(alloc: Global, amount: u128) -> Result<String, AllocError>
    ensures { IfOk result (λ text. string_bytes text ≡ decimal amount) }
{
    format!(in alloc; "{amount}")
}

/// A batch, or nothing where there is none.
pub fn batch_field(alloc: Global, batch: &Option<Batch>) -> Result<String, AllocError>
    ensures { IfOk result (λ text. string_bytes text ≡ text_or_empty batch.now) }
{
    match batch {
        Some(batch) => String::from_str(alloc, batch.as_str()),
        None => Ok(String::new(alloc)),
    }
}

/// A serial number, or nothing where there is none.
pub fn serial_field(alloc: Global, serial: &Option<Serial>) -> Result<String, AllocError>
    ensures { IfOk result (λ text. string_bytes text ≡ text_or_empty serial.now) }
{
    match serial {
        Some(serial) => String::from_str(alloc, serial.as_str()),
        None => Ok(String::new(alloc)),
    }
}

/// The name of the part of that number, or nothing where there is none.
pub fn name_field(alloc: Global, catalogue: &Catalogue, number: u64) -> Result<String, AllocError>
    ensures { IfOk result (λ text.
        string_bytes text ≡ name_of (part_in number (parts_of catalogue.now))) }
{
    match catalogue.part(number) {
        Some(part) => String::from_str(alloc, part.name.as_str()),
        None => Ok(String::new(alloc)),
    }
}

/// A line of these words.
pub fn words_line(alloc: Global, words: &[&str]) -> Result<Vec<String>, AllocError>
    ensures { IfOk result (λ line. fields_of line ≡ map (λ w. w.now) words.now) }
{
    let mut line = Vec::with_capacity(alloc, words.len())?;
    for word in words {
        line.push(String::from_str(alloc, word)?)?;
    }
    Ok(line)
}
