//! The ways of categories and locations: their names from the top.
ghost use Rattle.std.specs.Prelude.{◌≡◌, ◌∷◌, IfOk};
ghost use Rattle.std.specs.String.{string_bytes};
ghost use Rattle.sheet_core.specs.Sheet.{now_of};
ghost use Rattle.list_core.specs.Ways.{as_names, is_under, joined, way_text};

use part_core::{Id, NamedRow, Sheet};
use std::alloc::{AllocError, Global};

/// The name with the way from there on behind it, or alone where that is empty.
fn above(alloc: Global, name: &str, way: &str) -> Result<String, AllocError>
    ensures { IfOk result (λ text.
        string_bytes text ≡ joined (name.now ∷ as_names way.now)) }
{
    if way.is_empty() {
        String::from_str(alloc, name)
    } else {
        format!(in alloc; "{name} / {way}")
    }
}

/// The name of a row behind those of the rows above it, from the top, with ` / ` between two. It is empty where there is
/// no such row.
pub fn way_field(
    alloc: Global,
    rows: &Sheet<NamedRow>,
    at: Option<Id>,
) -> Result<String, AllocError>
    ensures { IfOk result (λ text. string_bytes text ≡ way_text at (now_of rows.now)) }
{
    let mut way = String::new(alloc);
    let mut at = at;
    for _step in 0..rows.len() {
        let Some(number) = at else {
            return Ok(way);
        };
        let Some(row) = rows.get(&number) else {
            return Ok(way);
        };
        way = above(alloc, row.name.as_str(), way.as_str())?;
        at = row.parent;
    }
    Ok(way)
}

/// Whether a row is the one at the top, or lies below it.
pub fn is_under(rows: &Sheet<NamedRow>, top: Id, number: Id) -> bool
    ensures { result ≡ is_under top number (now_of rows.now) }
{
    let mut at = number;
    for _step in 0..rows.len() {
        if at == top {
            return true;
        }
        match rows.get(&at) {
            Some(row) => match row.parent {
                Some(parent) => at = parent,
                None => return false,
            },
            None => return false,
        }
    }
    false
}
