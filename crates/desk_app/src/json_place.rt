//! Where a line is no JSON any more, in words: the byte at which its reader stopped, and what stands before it.

use desk_wire::json_stop;
use report_core::escaped;
use std::alloc::{AllocError, Global};
use std::str;

/// So many characters of what stands before are told at most.
const TOLD: usize = 40;

/// Behind which byte a member or an element begins.
fn opens(byte: u8) -> bool {
    byte == b',' || byte == b'{' || byte == b'['
}

/// What stands in the line before its byte of that number, counted from 1, behind the last comma or opening bracket that has
/// something behind it.
fn before(line: &[u8], byte: usize) -> &[u8] {
    let front = line.get(..byte.saturating_sub(1)).unwrap_or(line);
    let mut from = 0;
    for (index, byte) in front.iter().enumerate() {
        if opens(*byte) && index + 1 < front.len() {
            from = index + 1;
        }
    }
    front.get(from..).unwrap_or(front)
}

/// The last characters of a text, so many at most.
fn tail(alloc: Global, text: &str) -> Result<String, AllocError> {
    let left_out = text.chars().count().saturating_sub(TOLD);
    let mut told = String::new(alloc);
    for (index, c) in text.chars().enumerate() {
        if index >= left_out {
            told.push(c)?;
        }
    }
    Ok(told)
}

/// Where a line that isn't JSON is none any more. An error is one of memory.
pub fn json_place(alloc: Global, line: &[u8]) -> Result<String, AllocError> {
    let Some(byte) = json_stop(alloc, line) else {
        return Ok(String::new(alloc));
    };
    let mut text = format!(in alloc; ": at byte {byte}")?;
    if let Ok(before) = str::from_utf8(before(line, byte)) {
        let before = before.trim();
        if !before.is_empty() {
            let told = tail(alloc, before)?;
            text.push_str(", after ")?;
            text.push_str(escaped(alloc, told.as_str())?.as_str())?;
        }
    }
    Ok(text)
}
