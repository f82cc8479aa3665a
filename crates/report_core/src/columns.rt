//! A report's lines in columns.
ghost use Rattle.std.specs.Prelude.{◌≡◌, ◌++◌, ◌-◌, codes, flat_map, map, slice_index, IfOk, OnOk};
ghost use Rattle.std.specs.List.{repeat};
ghost use Rattle.std.specs.String.{string_bytes};
ghost use Rattle.report_core.specs.Columns.{column_line, column_widths, columns_text, in_columns};
ghost use Rattle.report_core.specs.Columns.{width, wider};
ghost use Rattle.report_core.specs.Lines.{lines_of};

use crate::lines::Report;
use std::alloc::{AllocError, Global};

/// How many characters a text has: a byte from 0x80 to 0xBF goes on with one.
fn width(text: &str) -> usize
    ensures { result ≡ width text.now }
{
    text.as_bytes()
        .iter()
        .filter(|byte| **byte < 0x80 || 0xC0 <= **byte)
        .count()
}

/// Widens the columns that a line's fields don't fit.
fn widen(widths: &mut Vec<usize>, fields: &[String]) -> Result<(), AllocError>
    ensures { OnOk result (widths.new.items
        ≡ wider widths.old.items (map string_bytes fields.now)) }
{
    for (column, field) in fields.iter().enumerate() {
        let width = width(field.as_str());
        if column < widths.len() {
            widths[column] = widths[column].max(width);
        } else {
            widths.push(width)?;
        }
    }
    Ok(())
}

/// The width of each column.
fn column_widths(alloc: Global, lines: &[Vec<String>]) -> Result<Vec<usize>, AllocError>
    ensures { IfOk result (λ widths. widths.items ≡ column_widths (lines_of lines.now)) }
{
    let mut widths = Vec::new(alloc);
    for line in lines {
        widen(&mut widths, line.as_slice())?;
    }
    Ok(widths)
}

/// The width of a column, or 0 where there is no such column.
fn widest(widths: &[usize], column: usize) -> usize
    ensures { result ≡ slice_index widths.now column }
{
    widths.get(column).copied().unwrap_or(0)
}

/// Adds the spaces behind a field of this width.
fn push_gap(text: &mut String, width: usize, widest: usize) -> Result<(), AllocError>
    ensures { OnOk result (string_bytes text.new
        ≡ string_bytes text.old ++ (repeat (widest - width) (codes " ") ++ codes "  ")) }
{
    for _space in width..widest {
        text.push_str(" ")?;
    }
    text.push_str("  ")
}

fn push_fields(text: &mut String, widths: &[usize], fields: &[String]) -> Result<(), AllocError>
    ensures { OnOk result (string_bytes text.new
        ≡ string_bytes text.old ++ in_columns widths.now (map string_bytes fields.now)) }
{
    for (column, field) in fields.iter().enumerate() {
        text.push_str(field.as_str())?;
        if column + 1 < fields.len() {
            push_gap(text, width(field.as_str()), widest(widths, column))?;
        }
    }
    Ok(())
}

fn push_lines(text: &mut String, widths: &[usize], lines: &[Vec<String>]) -> Result<(), AllocError>
    ensures { OnOk result (string_bytes text.new
        ≡ string_bytes text.old ++ flat_map (column_line widths.now) (lines_of lines.now)) }
{
    for line in lines {
        push_fields(text, widths, line.as_slice())?;
        text.push_str("\n")?;
    }
    Ok(())
}

impl Report {
    /// The lines in columns: each field but the last of its line is filled up with spaces to the widest of its column
    /// and two more.
    pub fn columns_text(&self, alloc: Global) -> Result<String, AllocError>
        ensures { IfOk result (λ text. string_bytes text ≡ columns_text self.now) }
    {
        let widths = column_widths(alloc, self.lines())?;
        let mut text = String::new(alloc);
        push_lines(&mut text, widths.as_slice(), self.lines())?;
        Ok(text)
    }
}
