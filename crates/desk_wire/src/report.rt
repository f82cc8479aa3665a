//! The report of an import.
ghost use Rattle.std.specs.Prelude.{◌≡◌, ◌++◌, IfOk, OnOk};
ghost use Rattle.std.specs.String.{string_bytes};
ghost use Rattle.desk_wire.specs.ImportReports.{import_text, outcome_text, report_line};

use crate::write::{answer_text, refused_text};
use part_core::{Answer, Refusal};
use std::alloc::{AllocError, Global};

fn outcome_text(alloc: Global, outcome: &Result<Answer, Refusal>) -> Result<String, AllocError>
    ensures { IfOk result (λ text. string_bytes text ≡ outcome_text outcome.now) }
{
    match outcome {
        Ok(answer) => answer_text(alloc, answer),
        Err(refusal) => refused_text(alloc, *refusal),
    }
}

/// Adds the line of the row of that number, whose answer line comes with its LF.
pub fn push_report_line(text: &mut String, number: u64, answer: &str) -> Result<(), AllocError>
    ensures { OnOk result
        (string_bytes text.new ≡ string_bytes text.old ++ report_line number answer.now) }
{
    write!(text, "{number}\t")?;
    text.push_str(answer)
}

/// The report of an import: of each row its number, a tab and its answer line.
pub fn import_report(
    alloc: Global,
    numbers: &[u64],
    outcomes: &[Result<Answer, Refusal>],
) -> Result<String, AllocError>
    ensures { IfOk result (λ text. string_bytes text ≡ import_text numbers.now outcomes.now) }
{
    let mut text = String::new(alloc);
    for (number, outcome) in numbers.iter().zip(outcomes) {
        let answer = outcome_text(alloc, outcome)?;
        push_report_line(&mut text, *number, answer.as_str())?;
    }
    Ok(text)
}
