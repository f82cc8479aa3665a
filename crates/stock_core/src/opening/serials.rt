//! Whether no serial stands twice in a family.
ghost use Rattle.std.specs.Prelude.{◌≡◌, ◌↔◌, IsTrue, IfOk, map, option_map};
ghost use Rattle.part_core.specs.CatalogueView.{parts_of};
ghost use Rattle.stock_core.specs.Opening.{SerialsOnce, held_key, seen_key};
ghost use Rattle.yard_core.specs.Climbs.{IsByNumber};

use part_core::{Catalogue, Id};
use std::alloc::{AllocError, Global};
use std::collections::HashSet;
use yard_core::{Item, Place};

/// The family and the serial that an item holds, none where it is gone or has no serial.
fn held_key<'a>(catalogue: &Catalogue, item: &'a Item) -> Option<(Id, &'a str)>
    ensures { option_map seen_key result ≡ held_key (parts_of catalogue.now) item.now }
{
    if matches!(item.place, Place::Gone) {
        return None;
    }
    match &item.lot.serial {
        None => None,
        Some(serial) => Some((catalogue.family(item.part), serial.as_str())),
    }
}

/// Whether no two items that aren't gone hold one serial in one family. It keeps each serial with its family, by hashes that
/// begin with the seed of the catalogue. An error is one of memory.
pub fn serials_stand_once(
    alloc: Global,
    catalogue: &Catalogue,
    rows: &[&Item],
) -> Result<bool, AllocError>
    requires { IsByNumber (map (λ x. x.now) rows.now) }
    ensures { IfOk result (λ once. IsTrue once
        ↔ SerialsOnce (parts_of catalogue.now) (map (λ x. x.now) rows.now)) }
{
    let mut taken = HashSet::with_hasher(alloc, catalogue.seed());
    for i in 0..rows.len() {
        match held_key(catalogue, rows[i]) {
            None => {}
            Some(key) => {
                let is_new = taken.insert(key)?;
                if !is_new {
                    return Ok(false);
                }
            }
        }
    }
    Ok(true)
}
