//! Rows as SQL that puts them.
ghost use Rattle.std.specs.Prelude.{◌≡◌, ◌<◌, ◌++◌, false, IfOk, OnOk};
ghost use Rattle.std.specs.List.{list_all};
ghost use Rattle.word_core.specs.Text.{is_plain};
ghost use Rattle.desk_store.specs.Dumps.{hex_bytes, hex_digit, insert_line, literal_of, quoted_byte, quoted_bytes};
ghost use Rattle.desk_store.specs.Dumps.{text_literal, values_text};

use part_core::Column;
use std::alloc::{AllocError, Global};
use table_store::TableName;

/// Whether no byte is part of a control character.
fn are_plain(text: &[u8]) -> bool
    ensures { result ≡ list_all is_plain text.now }
{
    text.iter().all(|b| *b >= 32 && *b != 127)
}

/// Adds a byte within quotes.
fn push_quoted_byte(line: &mut Vec<u8>, byte: u8) -> Result<(), AllocError>
    ensures { OnOk result (line.new.items ≡ line.old.items ++ quoted_byte byte) }
{
    if byte == b'\'' {
        return line.extend_from_slice(b"''");
    }
    Ok(line.push(byte)?)
}

/// Adds bytes within quotes.
fn push_quoted_bytes(line: &mut Vec<u8>, text: &[u8]) -> Result<(), AllocError>
    ensures { OnOk result (line.new.items ≡ line.old.items ++ quoted_bytes text.now) }
{
    for byte in text {
        push_quoted_byte(line, *byte)?;
    }
    Ok(())
}

/// A number below 16 as a digit.
fn hex_digit(number: u8) -> u8
    requires { number < 16 }
    ensures { result ≡ hex_digit number }
{
    if number < 10 {
        48 + number
    } else {
        55 + number
    }
}

/// Adds bytes, each as two digits.
fn push_hex_bytes(line: &mut Vec<u8>, text: &[u8]) -> Result<(), AllocError>
    ensures { OnOk result (line.new.items ≡ line.old.items ++ hex_bytes text.now) }
{
    for byte in text {
        line.extend_from_slice(&[hex_digit(*byte / 16), hex_digit(*byte % 16)])?;
    }
    Ok(())
}

/// Adds the literal of a text.
fn push_text(line: &mut Vec<u8>, text: &[u8]) -> Result<(), AllocError>
    ensures { OnOk result (line.new.items ≡ line.old.items ++ text_literal text.now) }
{
    if are_plain(text) {
        line.extend_from_slice(b"'")?;
        push_quoted_bytes(line, text)?;
        return line.extend_from_slice(b"'");
    }
    line.extend_from_slice(b"CAST(X'")?;
    push_hex_bytes(line, text)?;
    line.extend_from_slice(b"' AS TEXT)")
}

/// Adds the literal of a column.
fn push_literal(alloc: Global, line: &mut Vec<u8>, column: &Column) -> Result<(), AllocError>
    ensures { OnOk result (line.new.items ≡ line.old.items ++ literal_of column.now) }
{
    match column {
        Column::Whole(number) => {
            let digits = format!(in alloc; "{number}")?;
            line.extend_from_slice(digits.as_bytes())
        }
        Column::Text(text) => push_text(line, text.as_str().as_bytes()),
        Column::Absent => line.extend_from_slice(b"NULL"),
    }
}

/// Adds the literals of columns, with a comma between two.
fn push_values(alloc: Global, line: &mut Vec<u8>, columns: &[Column]) -> Result<(), AllocError>
    ensures { OnOk result (line.new.items ≡ line.old.items ++ values_text false columns.now) }
{
    let mut later = false;
    for column in columns {
        if later {
            line.extend_from_slice(b",")?;
        }
        later = true;
        push_literal(alloc, line, column)?;
    }
    Ok(())
}

/// The line that puts a row of these columns into a table.
pub(crate) fn insert_line(
    alloc: Global,
    table: TableName,
    columns: &[Column],
) -> Result<Vec<u8>, AllocError>
    ensures { IfOk result (λ line. line.items ≡ insert_line table columns.now) }
{
    let mut line = Vec::from_slice(alloc, b"INSERT INTO ")?;
    line.extend_from_slice(table.name().as_bytes())?;
    line.extend_from_slice(b" VALUES(")?;
    push_values(alloc, &mut line, columns)?;
    line.extend_from_slice(b");\n")?;
    Ok(line)
}
