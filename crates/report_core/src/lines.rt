//! A report's lines, and how they are written.
ghost use Rattle.std.specs.Prelude.{◌≡◌, ◌++◌, false, map, IfOk, OnOk};
ghost use Rattle.std.specs.String.{string_bytes};
ghost use Rattle.serde_json.specs.View.{view};
ghost use Rattle.report_core.specs.Lines.{fields_text, line_data, line_text, lines_of, report_data, report_text};

use serde_json::Value;
use std::alloc::{AllocError, Global};
use std::marker::Model;

/// The lines of a report, each a list of fields. A clause sees the bytes of each field.
#[derive(Drop)]
pub struct Report {
    lines: Vec<Vec<String>>,
}

impl Model for Report {
    ghost use Rattle.std.specs.Prelude.{ℕ, List};
    ghost use Rattle.report_core.specs.Lines.{lines_of};

    ghost Value = { List (List (List ℕ)) };

    ghost view = { λ r. lines_of r.lines.items };
}

fn push_fields(text: &mut String, fields: &[String]) -> Result<(), AllocError>
    ensures { OnOk result (string_bytes text.new
        ≡ string_bytes text.old ++ fields_text false (map string_bytes fields.now)) }
{
    let mut later = false;
    for field in fields {
        if later {
            text.push_str("\t")?;
        }
        later = true;
        text.push_str(field.as_str())?;
    }
    Ok(())
}

fn push_line(text: &mut String, fields: &[String]) -> Result<(), AllocError>
    ensures { OnOk result (string_bytes text.new
        ≡ string_bytes text.old ++ line_text (map string_bytes fields.now)) }
{
    push_fields(text, fields)?;
    text.push_str("\n")?;
    Ok(())
}

/// A line as text: its fields with a tab between two, and an LF.
pub fn line_text(alloc: Global, fields: &[String]) -> Result<String, AllocError>
    ensures { IfOk result (λ text. string_bytes text ≡ line_text (map string_bytes fields.now)) }
{
    let mut text = String::new(alloc);
    push_line(&mut text, fields)?;
    Ok(text)
}

fn push_lines(text: &mut String, lines: &[Vec<String>]) -> Result<(), AllocError>
    ensures { OnOk result (string_bytes text.new
        ≡ string_bytes text.old ++ report_text (lines_of lines.now)) }
{
    for line in lines {
        push_line(text, line.as_slice())?;
    }
    Ok(())
}

fn line_value(alloc: Global, fields: &[String]) -> Result<Value, AllocError>
    ensures { IfOk result (λ value. view value ≡ line_data (map string_bytes fields.now)) }
{
    let mut values = Vec::with_capacity(alloc, fields.len())?;
    for field in fields {
        let text = String::from_str(alloc, field.as_str())?;
        values.push(Value::String(text))?;
    }
    Ok(Value::Array(values))
}

fn lines_value(alloc: Global, lines: &[Vec<String>]) -> Result<Value, AllocError>
    ensures { IfOk result (λ value. view value ≡ report_data (lines_of lines.now)) }
{
    let mut values = Vec::with_capacity(alloc, lines.len())?;
    for line in lines {
        let value = line_value(alloc, line.as_slice())?;
        values.push(value)?;
    }
    Ok(Value::Array(values))
}

impl Report {
    /// The report of these lines.
    pub fn new(lines: Vec<Vec<String>>) -> Self
        ensures { result ≡ lines_of lines.items }
    {
        Report { lines }
    }

    /// The lines, each the list of its fields.
    pub fn lines(&self) -> &[Vec<String>]
        ensures { lines_of result.now ≡ self.now }
    {
        self.lines.as_slice()
    }

    /// The report as text: the fields of a line with a tab between two, and an LF after each line.
    pub fn text(&self, alloc: Global) -> Result<String, AllocError>
        ensures { IfOk result (λ text. string_bytes text ≡ report_text self.now) }
    {
        let mut text = String::new(alloc);
        push_lines(&mut text, self.lines.as_slice())?;
        Ok(text)
    }

    /// The report as JSON: the array of its lines, each the array of its fields as texts.
    pub fn json(&self, alloc: Global) -> Result<Value, AllocError>
        ensures { IfOk result (λ value. view value ≡ report_data self.now) }
    {
        lines_value(alloc, self.lines.as_slice())
    }
}
