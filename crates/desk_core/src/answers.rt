//! Answers as text: what is told to a clerk, and kept under a key.
ghost use Rattle.std.specs.Prelude.{◌≡◌, ◌++◌, false, true, None, IfOk, OnOk};
ghost use Rattle.std.specs.String.{string_bytes};
ghost use Rattle.sheet_core.specs.Columns.{Finds};
ghost use Rattle.desk_core.specs.AnswerLine.{answer_line, answer_of_numbers, answer_told};
ghost use Rattle.desk_core.specs.AnswerLine.{is_digit, numbers_in, numbers_text, with_digit};
ghost use Rattle.desk_core.specs.CommandText.{AreFit, Fits};

use part_core::{Answer, ColumnFault, Ids};
use std::alloc::{AllocError, Global};

fn push_numbers(text: &mut String, numbers: &[u64]) -> Result<(), AllocError>
    ensures { OnOk result (string_bytes text.new
        ≡ string_bytes text.old ++ numbers_text false numbers.now) }
{
    let mut later = false;
    for number in numbers {
        if later {
            text.push_str(",")?;
        }
        later = true;
        write!(text, "{number}")?;
    }
    Ok(())
}

/// The line that tells an answer, without its LF.
pub fn answer_line(alloc: Global, answer: &Answer) -> Result<String, AllocError>
    ensures { IfOk result (λ text. string_bytes text ≡ answer_line answer.now) }
{
    let entries = answer.entries;
    let mut text = format!(in alloc; "{{\"entries\":{entries},\"ids\":[")?;
    push_numbers(&mut text, answer.ids.as_slice())?;
    text.push_str("]}")?;
    Ok(text)
}

fn is_digit(byte: u8) -> bool
    ensures { result ≡ is_digit byte }
{
    48 <= byte && byte <= 57
}

/// The number with one digit more.
fn with_digit(begun: Option<u64>, digit: u8) -> u64
    requires { is_digit digit ≡ true }
    ensures { result ≡ with_digit begun digit }
{
    let ones = u64::from(digit - 48);
    match begun {
        None => ones,
        Some(number) => number.wrapping_mul(10).wrapping_add(ones),
    }
}

/// The numbers whose digits stand in a text, in order.
fn numbers_in(alloc: Global, text: &[u8]) -> Result<Vec<u64>, AllocError>
    ensures { IfOk result (λ numbers. numbers.items ≡ numbers_in None text.now) }
{
    let mut numbers = Vec::new(alloc);
    let mut begun = None;
    for byte in text {
        if is_digit(*byte) {
            begun = Some(with_digit(begun, *byte));
        } else if let Some(number) = begun {
            numbers.push(number)?;
            begun = None;
        }
    }
    if let Some(number) = begun {
        numbers.push(number)?;
    }
    Ok(numbers)
}

/// The answer that has these numbers: the first tells the entries, the others are the ids.
fn answer_of_numbers(alloc: Global, numbers: &[u64]) -> Result<Answer, ColumnFault>
    ensures { Finds result (answer_of_numbers numbers.now) }
{
    let Some((entries, ids)) = numbers.split_first() else {
        return Err(ColumnFault::NoRow);
    };
    let ids = Ids::new(ids.to_vec(alloc)?);
    Ok(Answer {
        ids,
        entries: *entries,
    })
}

/// The answer that a text tells: `NoRow` where the text isn't, byte for byte, the line of an answer.
pub fn read_answer(alloc: Global, text: &str) -> Result<Answer, ColumnFault>
    ensures { Finds result (answer_told text.now) }
{
    let numbers = numbers_in(alloc, text.as_bytes())?;
    let answer = answer_of_numbers(alloc, numbers.as_slice())?;
    if answer_line(alloc, &answer)?.as_str() == text {
        Ok(answer)
    } else {
        Err(ColumnFault::NoRow)
    }
}

/// Tells of the numbers of an answer that they are of 64 bits.
pub(crate) fn are_fit(entries: u64, ids: &[u64])
    ensures entries { Fits entries }
    ensures ids { AreFit ids.now }
{
    let _ = entries;
    let _ = ids;
}
