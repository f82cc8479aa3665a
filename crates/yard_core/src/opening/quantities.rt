//! Whether items have quantities that items have.
ghost use Rattle.std.specs.Prelude.{◌≡◌, ◌↔◌, IsTrue, map};
ghost use Rattle.yard_core.specs.Stock.{AreItems, IsItem};

use forest::{Item, Place};
use part_core::LARGEST;

/// Whether the item's quantity is one that an item has at its place.
fn is_item(item: &Item) -> bool
    ensures { IsTrue result ↔ IsItem item.now }
{
    if matches!(item.place, Place::Gone) {
        return item.quantity == 0;
    }
    if item.quantity < 1 || item.quantity > LARGEST {
        return false;
    }
    item.lot.serial.is_none() || item.quantity == 1
}

/// Whether each item's quantity is one that an item has at its place.
pub fn are_items(rows: &[&Item]) -> bool
    ensures { IsTrue result ↔ AreItems (map (λ x. x.now) rows.now) }
{
    for item in rows {
        if !is_item(item) {
            return false;
        }
    }
    true
}
