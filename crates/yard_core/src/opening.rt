//! Checks on rows that were read from a file: whether they are those of a sound yard.
//!
//! Each answers exactly, on rows in order of number. None compares each row with each: an item is found by halving, or
//! by the hash of its number, and what is summed is summed part by part.
ghost use Rattle.std.specs.Prelude.{◌≡◌, ◌↔◌, IsTrue, IfOk, map};
ghost use Rattle.std.specs.FinMap as table;
ghost use Rattle.sheet_core.specs.Sheet.{now_of};
ghost use Rattle.yard_core.specs.Climbs.{IsByNumber};
ghost use Rattle.yard_core.specs.Opening.{AreSoundRows};

use equations::is_balanced;
use forest::{Entry, Item};
use holders::are_held;
use part_core::{Row, Sheet};
use quantities::are_items;
use std::alloc::{AllocError, Global};
use trees::is_table;

mod equations;
mod holders;
mod quantities;
mod shares;
mod trees;

/// The rows of a sheet, in order of key. An error is one of memory.
pub fn rows_in_order<R: Row>(sheet: &Sheet<R>) -> Result<Vec<&R>, AllocError>
    ensures { IfOk result (λ rows.
        map (λ x. x.now) rows.items ≡ table.values (now_of sheet.now)) }
{
    sheet.select(|_row| true)
}

/// Whether items in order of number, and entries that are numbered, are those of a sound yard. `items` has the same
/// items, to look them up. An error is one of memory.
pub fn are_sound_rows(
    alloc: Global,
    items: &Sheet<Item>,
    rows: &[&Item],
    entries: &[Entry],
) -> Result<bool, AllocError>
    requires { IsByNumber (map (λ x. x.now) rows.now) }
    ensures { IfOk result (λ sound. IsTrue sound ↔ AreSoundRows (now_of items.now)
        (map (λ x. x.now) rows.now) entries.now) }
{
    if !are_items(rows) {
        return Ok(false);
    }
    if !are_held(items, rows) {
        return Ok(false);
    }
    if !is_table(rows) {
        return Ok(false);
    }
    let balanced = is_balanced(alloc, rows, entries)?;
    Ok(balanced)
}
