//! Whether what rows name is there, and their numbers were drawn.
ghost use Rattle.std.specs.Prelude.{◌≡◌, ◌↔◌, IsTrue, map};
ghost use Rattle.std.specs.List.{All};
ghost use Rattle.part_core.specs.CatalogueView.{parts_of};
ghost use Rattle.stock_core.specs.Opening.{IsDrawn};
ghost use Rattle.stock_core.specs.Sound.{IsPlace, IsSoundEntry, IsSoundItem};
ghost use Rattle.yard_core.specs.YardView.{stock_of};

use crate::owners::KnowsOwners;
use part_core::{Catalogue, Id, LARGEST};
use yard_core::{Entry, Item, Place, Yard};

/// Whether the row that a place names is there.
fn is_place<W: KnowsOwners>(owners: &W, yard: &Yard, place: Place) -> bool
    ensures { IsTrue result ↔ IsPlace (W.owners_of owners.now) (stock_of yard.now) place }
{
    match place {
        Place::At(location) => yard.location(location).is_some(),
        Place::In(item) => yard.item(item).is_some(),
        Place::Output(build) => owners.is_build(build),
        Place::Sent(order) => owners.is_order(order),
        Place::Used(build) => owners.is_build(build),
        Place::Off(_) | Place::Gone => true,
    }
}

/// Whether the part and the place of an item are there.
fn is_sound_item<W: KnowsOwners>(
    owners: &W,
    catalogue: &Catalogue,
    yard: &Yard,
    item: &Item,
) -> bool
    ensures { IsTrue result ↔ IsSoundItem (W.owners_of owners.now)
        (parts_of catalogue.now) (stock_of yard.now) item.now }
{
    catalogue.part(item.part).is_some() && is_place::<W>(owners, yard, item.place)
}

/// Whether the item, the part and the place of an entry are there, and it is of 1 to 1,000,000,000 pieces.
fn is_sound_entry<W: KnowsOwners>(
    owners: &W,
    catalogue: &Catalogue,
    yard: &Yard,
    entry: &Entry,
) -> bool
    ensures { IsTrue result ↔ IsSoundEntry (W.owners_of owners.now)
        (parts_of catalogue.now) (stock_of yard.now) entry.now }
{
    let note = entry.note;
    yard.item(note.item).is_some()
        && catalogue.part(note.part).is_some()
        && is_place::<W>(owners, yard, note.place)
        && note.quantity >= 1
        && note.quantity <= LARGEST
}

/// Whether the part and the place of each of the items are there.
pub fn are_sound_items<W: KnowsOwners>(
    owners: &W,
    catalogue: &Catalogue,
    yard: &Yard,
    items: &[&Item],
) -> bool
    ensures { IsTrue result ↔ All (IsSoundItem (W.owners_of owners.now)
        (parts_of catalogue.now) (stock_of yard.now)) (map (λ x. x.now) items.now) }
{
    for item in items {
        if !is_sound_item::<W>(owners, catalogue, yard, item) {
            return false;
        }
    }
    true
}

/// Whether the item, the part and the place of each of the entries are there, and it is of 1 to 1,000,000,000 pieces.
pub fn are_sound_entries<W: KnowsOwners>(
    owners: &W,
    catalogue: &Catalogue,
    yard: &Yard,
    entries: &[Entry],
) -> bool
    ensures { IsTrue result ↔ All (IsSoundEntry (W.owners_of owners.now)
        (parts_of catalogue.now) (stock_of yard.now)) entries.now }
{
    for entry in entries {
        if !is_sound_entry::<W>(owners, catalogue, yard, entry) {
            return false;
        }
    }
    true
}

/// Whether the item has a number below `next`, from 1 on.
fn is_drawn(next: Id, item: &Item) -> bool
    ensures { IsTrue result ↔ IsDrawn next item.now }
{
    item.number >= 1 && item.number < next
}

/// Whether each of the items has a number below `next`, from 1 on.
pub fn are_drawn(next: Id, items: &[&Item]) -> bool
    ensures { IsTrue result ↔ All (IsDrawn next) (map (λ x. x.now) items.now) }
{
    for item in items {
        if !is_drawn(next, item) {
            return false;
        }
    }
    true
}
