//! The word that was meant where one is misspelt.

use crate::guide_text::{COMMANDS, FIELDS, WORDS};
use desk_wire::{What, WrongField};
use std::alloc::{AllocError, Global};
use strsim::levenshtein;

/// So many letters may differ, be missing or be too many.
const MOST_APART: usize = 2;

/// The word of these that is most like the one that was said, where one is like it and none is the same. An error is one of
/// memory.
fn nearest(
    alloc: Global,
    said: &str,
    words: &[&'static str],
) -> Result<Option<&'static str>, AllocError> {
    let mut nearest = None;
    let mut least = MOST_APART + 1;
    for word in words {
        let apart = levenshtein(alloc, said, word)?;
        if apart == 0 {
            return Ok(None);
        }
        if apart < least {
            least = apart;
            nearest = Some(*word);
        }
    }
    Ok(nearest)
}

/// The word that is most like one of those that stand in quotes in this text of JSON.
fn nearest_quoted(
    alloc: Global,
    json: &str,
    words: &[&'static str],
) -> Result<Option<&'static str>, AllocError> {
    for said in json.split("\"") {
        if said.len() > MOST_APART {
            if let Some(word) = nearest(alloc, said, words)? {
                return Ok(Some(word));
            }
        }
    }
    Ok(None)
}

/// The known word that is most like what a field has, or like the field's name, where a line has an unknown one.
pub fn guess(
    alloc: Global,
    what: &What,
    field: &WrongField,
) -> Result<Option<&'static str>, AllocError> {
    let said = match &field.text {
        Some(said) => said.as_str(),
        None => "",
    };
    match what {
        What::UnknownField => nearest(alloc, field.name.as_str(), FIELDS.as_slice()),
        What::UnknownCommand => nearest_quoted(alloc, said, COMMANDS.as_slice()),
        What::BadWord => nearest_quoted(alloc, said, WORDS.as_slice()),
        _ => Ok(None),
    }
}
