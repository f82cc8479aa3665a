//! Texts for a person's terminal.
ghost use Rattle.std.specs.Prelude.{◌≡◌, ◌++◌, ◌<◌, true, map, IfOk, IfSome, OnOk};
ghost use Rattle.std.specs.Char.{digit_char};
ghost use Rattle.std.specs.String.{string_bytes};
ghost use Rattle.report_core.specs.Lines.{fields_of, lines_of};
ghost use Rattle.report_core.specs.Escaped.{escape, escaped, escaped_char, escaped_lines, hex_text};
ghost use Rattle.report_core.specs.Escaped.{is_acted_on, turns_text, two_digits};

use crate::lines::Report;
use std::alloc::{AllocError, Global};
use std::fmt::Display;

/// Whether it is a mark that turns the direction in which the text around it is shown.
fn turns_text(c: char) -> bool
    ensures { result ≡ turns_text c }
{
    let code = c as u32;
    code == 0x61C
        || (0x200E <= code && code <= 0x200F)
        || (0x202A <= code && code <= 0x202E)
        || (0x2066 <= code && code <= 0x2069)
}

/// Whether it isn't read as it stands: a terminal acts on it, or it turns text.
fn is_acted_on(c: char) -> bool
    ensures acted_on { result ≡ is_acted_on c }
    ensures small { result ≡ true → c < 65536 }
{
    c.is_control() || turns_text(c)
}

fn hex_digit(digit: u32) -> char
    requires { digit < 16 }
    ensures { result ≡ digit_char digit }
{
    char::from_digit(digit, 16).unwrap()
}

/// Adds two hexadecimal digits.
fn push_two_digits(line: &mut String, number: u32) -> Result<(), AllocError>
    requires { number < 256 }
    ensures { OnOk result (string_bytes line.new ≡ string_bytes line.old ++ two_digits number) }
{
    line.push(hex_digit(number / 16))?;
    line.push(hex_digit(number % 16))
}

/// Adds the hexadecimal digits of a number: two, or from 256 on four.
fn push_hex(line: &mut String, number: u32) -> Result<(), AllocError>
    requires { number < 65536 }
    ensures { OnOk result (string_bytes line.new ≡ string_bytes line.old ++ hex_text number) }
{
    if number < 256 {
        return push_two_digits(line, number);
    }
    push_two_digits(line, number / 256)?;
    push_two_digits(line, number % 256)
}

/// Adds the escape of a character.
fn push_escape(line: &mut String, c: char) -> Result<(), AllocError>
    requires { c < 65536 }
    ensures { OnOk result (string_bytes line.new ≡ string_bytes line.old ++ escape c) }
{
    line.push_str("\\u{")?;
    push_hex(line, c as u32)?;
    line.push_str("}")
}

/// Adds a character, and of one that is acted on its escape.
fn push_escaped(line: &mut String, c: char) -> Result<(), AllocError>
    ensures { OnOk result (string_bytes line.new ≡ string_bytes line.old ++ escaped_char c) }
{
    if is_acted_on(c) {
        return push_escape(line, c);
    }
    line.push(c)
}

/// The text as it is told to a person: a control character of either kind, on which a terminal would act, and a mark that
/// turns the direction of text, as Rust writes it in a text, `\u{1b}` and `\u{202e}`; all else as it is.
pub fn escaped(alloc: Global, text: &str) -> Result<String, AllocError>
    ensures { IfOk result (λ line. string_bytes line ≡ escaped text.now) }
{
    let mut line = String::new(alloc);
    for c in text.chars() {
        push_escaped(&mut line, c)?;
    }
    Ok(line)
}

/// What is told, as a line for a person's terminal.
pub fn told_line<T: Display>(alloc: Global, what: &T) -> Result<String, AllocError>
    ensures { IfOk result (λ line. IfSome (T.output what.now)
        (λ text. string_bytes line ≡ escaped text)) }
{
    let text = what.to_string(alloc)?;
    escaped(alloc, text.as_str())
}

/// A line with each field escaped.
fn escaped_fields(alloc: Global, fields: &[String]) -> Result<Vec<String>, AllocError>
    ensures { IfOk result (λ line. fields_of line ≡ map escaped (map string_bytes fields.now)) }
{
    let mut line = Vec::with_capacity(alloc, fields.len())?;
    for field in fields {
        line.push(escaped(alloc, field.as_str())?)?;
    }
    Ok(line)
}

/// The lines, with each field escaped.
fn escaped_lines(alloc: Global, lines: &[Vec<String>]) -> Result<Vec<Vec<String>>, AllocError>
    ensures { IfOk result (λ told. lines_of told.items ≡ escaped_lines (lines_of lines.now)) }
{
    let mut told = Vec::with_capacity(alloc, lines.len())?;
    for line in lines {
        told.push(escaped_fields(alloc, line.as_slice())?)?;
    }
    Ok(told)
}

/// The lines of the report, with each field as it is told to a person. An error is one of memory.
pub fn escaped_report(alloc: Global, report: &Report) -> Result<Report, AllocError>
    ensures { IfOk result (λ told. told ≡ escaped_lines report.now) }
{
    let lines = escaped_lines(alloc, report.lines())?;
    Ok(Report::new(lines))
}
