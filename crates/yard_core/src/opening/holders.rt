//! Whether what items lie in may hold others.
ghost use Rattle.std.specs.Prelude.{◌≡◌, ◌↔◌, IsTrue, map};
ghost use Rattle.sheet_core.specs.Sheet.{now_of};
ghost use Rattle.yard_core.specs.Stock.{AreHeld, IsHeld, IsHolder, may_hold};

use forest::{Item, Place};
use part_core::Sheet;

/// Whether an item may hold others at such a place.
fn may_hold(place: Place) -> bool
    ensures { result ≡ may_hold place }
{
    !matches!(place, Place::Output(_) | Place::Gone)
}

/// Whether an item may hold others: it has a serial, and is neither an output nor gone.
fn is_holder(item: &Item) -> bool
    ensures { IsTrue result ↔ IsHolder item.now }
{
    item.lot.serial.is_some() && may_hold(item.place)
}

/// Whether the item lies in none, or in one that is there and may hold it.
fn is_held(items: &Sheet<Item>, item: &Item) -> bool
    ensures { IsTrue result ↔ IsHeld (now_of items.now) item.now }
{
    let Place::In(holder) = item.place else {
        return true;
    };
    match items.get(&holder) {
        None => false,
        Some(row) => is_holder(row),
    }
}

/// Whether each of the rows lies in none, or in one that is there and may hold it. It looks up one item for each.
pub fn are_held(items: &Sheet<Item>, rows: &[&Item]) -> bool
    ensures { IsTrue result ↔ AreHeld (now_of items.now) (map (λ x. x.now) rows.now) }
{
    for item in rows {
        if !is_held(items, item) {
            return false;
        }
    }
    true
}
