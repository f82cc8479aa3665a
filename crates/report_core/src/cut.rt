//! Texts that are cut, so that a list fits a terminal.
ghost use Rattle.std.specs.Prelude.{◌≡◌, ◌++◌, map, IfOk, OnOk};
ghost use Rattle.std.specs.String.{string_bytes};
ghost use Rattle.report_core.specs.Lines.{fields_of, lines_of};
ghost use Rattle.report_core.specs.Cut.{cut_fields, cut_lines, cut_name, kept_char, left_behind};

use crate::lines::Report;
use std::alloc::{AllocError, Global};

/// A name of so many characters isn't shown whole.
const LONG_NAME: usize = 33;

/// Adds a character of a line of which so many places are left: in the last one stands that more follows.
#[tactic(auto, using(crate::proofs::Cutting::nothing_kept))]
fn push_within(line: &mut String, c: char, left: usize) -> Result<(), AllocError>
    ensures { OnOk result (string_bytes line.new ≡ string_bytes line.old ++ kept_char left c) }
{
    if c == '\n' || 1 < left {
        return line.push(c);
    }
    if left == 1 {
        return line.push('…');
    }
    Ok(())
}

/// How many places are left behind a character.
fn left_behind(most: usize, left: usize, c: char) -> usize
    ensures { result ≡ left_behind most left c }
{
    if c == '\n' {
        return most;
    }
    left.saturating_sub(1)
}

/// The text, of which each line has fewer characters than so many, or as many of which the last tells that more follow.
pub fn cut_lines(alloc: Global, text: &str, most: usize) -> Result<String, AllocError>
    ensures { IfOk result (λ cut. string_bytes cut ≡ cut_lines most text.now) }
{
    let mut cut = String::new(alloc);
    let mut left = most;
    for c in text.chars() {
        push_within(&mut cut, c, left)?;
        left = left_behind(most, left, c);
    }
    Ok(cut)
}

/// A line with each field cut that is long.
fn cut_line(alloc: Global, fields: &[String]) -> Result<Vec<String>, AllocError>
    ensures { IfOk result (λ line. fields_of line ≡ map cut_name (map string_bytes fields.now)) }
{
    let mut line = Vec::with_capacity(alloc, fields.len())?;
    for field in fields {
        line.push(cut_lines(alloc, field.as_str(), LONG_NAME)?)?;
    }
    Ok(line)
}

/// The lines, with each field cut that is long.
fn cut_each(alloc: Global, lines: &[Vec<String>]) -> Result<Vec<Vec<String>>, AllocError>
    ensures { IfOk result (λ told. lines_of told.items ≡ cut_fields (lines_of lines.now)) }
{
    let mut told = Vec::with_capacity(alloc, lines.len())?;
    for line in lines {
        told.push(cut_line(alloc, line.as_slice())?)?;
    }
    Ok(told)
}

/// The lines of the report, with each field cut that is long. An error is one of memory.
pub fn cut_report(alloc: Global, report: &Report) -> Result<Report, AllocError>
    ensures { IfOk result (λ told. told ≡ cut_fields report.now) }
{
    let lines = cut_each(alloc, report.lines())?;
    Ok(Report::new(lines))
}
