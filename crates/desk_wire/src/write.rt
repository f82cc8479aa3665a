//! The lines that are answered, each with its LF.
ghost use Rattle.std.specs.Prelude.{◌≡◌, ◌++◌, ◌∷◌, [], IfOk, false};
ghost use Rattle.std.specs.String.{string_bytes};
ghost use Rattle.serde_json.specs.View.{view};
ghost use Rattle.serde_json.specs.Written.{compact_text, has_float};
ghost use Rattle.desk_wire.specs.Writing.{answer_text, refused_text, fault_text, report_object, report_text};

use crate::fault::WireFault;
use desk_core::answer_line;
use part_core::{Answer, Refusal};
use report_core::Report;
use serde_json::{Value, json};
use std::alloc::{AllocError, Global};

/// What an accepted command is answered.
pub fn answer_text(alloc: Global, answer: &Answer) -> Result<String, AllocError>
    ensures { IfOk result (λ text. string_bytes text ≡ answer_text answer.now) }
{
    let mut text = answer_line(alloc, answer)?;
    text.push_str("\n")?;
    Ok(text)
}

/// What a refused command is answered.
pub fn refused_text(alloc: Global, refusal: Refusal) -> Result<String, AllocError>
    ensures { IfOk result (λ text. string_bytes text ≡ refused_text refusal) }
{
    let mut text = String::from_str(alloc, "{\"refused\":\"")?;
    text.push_str(refusal.name())?;
    text.push_str("\"}\n")?;
    Ok(text)
}

/// What a line is answered that asks for nothing. A field's name is written as it is, since no name of a form has
/// a character that JSON escapes.
pub fn fault_text(alloc: Global, fault: WireFault) -> Result<String, AllocError>
    ensures { IfOk result (λ text. string_bytes text ≡ fault_text fault) }
{
    let number = fault.line;
    let mut text = String::from_str(alloc, "{\"fault\":\"")?;
    text.push_str(fault.what.name())?;
    text.push_str("\"")?;
    if let Some(name) = fault.what.field() {
        text.push_str(",\"field\":\"")?;
        text.push_str(name)?;
        text.push_str("\"")?;
    }
    write!(text, ",\"line\":{number}}}\n")?;
    Ok(text)
}

fn report_value(alloc: Global, report: Value) -> Result<Value, AllocError>
    ensures { IfOk result (λ value. view value ≡ report_object (view report)) }
{
    json!(in alloc; {"report": report})
}

/// The line of an object whose one member is this value. Of floats no clause says how they are spelled.
fn value_text(alloc: Global, report: Value) -> Result<String, AllocError>
    ensures { IfOk result (λ text. has_float (view report) ≡ false
        → string_bytes text ≡ compact_text (report_object (view report)) ++ 10 ∷ []) }
{
    let mut text = report_value(alloc, report)?.to_string(alloc)?;
    text.push_str("\n")?;
    Ok(text)
}

/// What a line is answered that asks for a report.
pub fn report_text(alloc: Global, report: &Report) -> Result<String, AllocError>
    ensures { IfOk result (λ text. string_bytes text ≡ report_text report.now) }
{
    let value = report.json(alloc)?;
    value_text(alloc, value)
}
