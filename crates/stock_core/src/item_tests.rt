//! Tests of items, of which checks are made. An item that isn't there counts as one that is gone.
ghost use Rattle.std.specs.Prelude.{◌≡◌, is_none};
ghost use Rattle.word_core.specs.Status.{is_allocatable};
ghost use Rattle.forest.specs.Forest.{is_off};
ghost use Rattle.forest.specs.Rows.{parent_in};
ghost use Rattle.yard_core.specs.Stock.{item_at};
ghost use Rattle.yard_core.specs.YardView.{stock_of};
ghost use Rattle.stock_core.specs.ItemTests.{has_less, has_more, is_loose, is_no_item, is_no_location};
ghost use Rattle.stock_core.specs.ItemTests.{is_serialised, part_at, quantity_at, stands_loose};

use part_core::{Id, Quantity};
use yard_core::{Place, Yard};

pub fn is_no_location(yard: &Yard, location: Id) -> bool
    ensures { result ≡ is_no_location location (stock_of yard.now) }
{
    yard.location(location).is_none()
}

pub fn is_no_item(yard: &Yard, item: Id) -> bool
    ensures { result ≡ is_no_item item (stock_of yard.now) }
{
    yard.item(item).is_none()
}

/// Whether the item lies at a location by itself.
pub fn is_loose(yard: &Yard, item: Id) -> bool
    ensures { result ≡ is_loose item (stock_of yard.now) }
{
    match yard.item(item) {
        Some(row) => row.place.is_at(),
        None => false,
    }
}

/// Whether the item is at a location, by itself or in another item that is.
pub fn stands_loose(yard: &Yard, item: Id) -> bool
    ensures { result ≡ stands_loose item (stock_of yard.now) }
{
    is_loose(yard, yard.root(item))
}

/// Whether the item lies in no other.
pub fn lies_in_none(yard: &Yard, item: Id) -> bool
    ensures { result ≡ is_none (parent_in (item_at item (stock_of yard.now)).place) }
{
    match yard.item(item) {
        Some(row) => !matches!(row.place, Place::In(_)),
        None => true,
    }
}

/// Whether the item itself is off the books.
pub fn is_off(yard: &Yard, item: Id) -> bool
    ensures { result ≡ is_off (item_at item (stock_of yard.now)).place }
{
    match yard.item(item) {
        Some(row) => row.place.is_off(),
        None => false,
    }
}

/// Whether the item's status is one in which stock may be used. One that isn't there counts as okay.
pub fn is_available(yard: &Yard, item: Id) -> bool
    ensures { result ≡ is_allocatable (item_at item (stock_of yard.now)).lot.status }
{
    match yard.item(item) {
        Some(row) => row.lot.status.is_allocatable(),
        None => true,
    }
}

/// Whether the item has a serial.
pub fn is_serialised(yard: &Yard, item: Id) -> bool
    ensures { result ≡ is_serialised item (stock_of yard.now) }
{
    match yard.item(item) {
        Some(row) => row.lot.serial.is_some(),
        None => false,
    }
}

/// The item's quantity, or 0 where it isn't there.
pub fn quantity_at(yard: &Yard, item: Id) -> Quantity
    ensures { result ≡ quantity_at (stock_of yard.now) item }
{
    match yard.item(item) {
        Some(row) => row.quantity,
        None => 0,
    }
}

/// Whether the item has more than the amount.
pub fn has_more(yard: &Yard, item: Id, quantity: Quantity) -> bool
    ensures { result ≡ has_more item quantity (stock_of yard.now) }
{
    quantity < quantity_at(yard, item)
}

/// Whether the item has less than the amount.
pub fn has_less(yard: &Yard, item: Id, quantity: Quantity) -> bool
    ensures { result ≡ has_less item quantity (stock_of yard.now) }
{
    quantity_at(yard, item) < quantity
}

/// The number of the item's part, or 0 where the item isn't there.
pub fn part_at(yard: &Yard, item: Id) -> Id
    ensures { result ≡ part_at item (stock_of yard.now) }
{
    match yard.item(item) {
        Some(row) => row.part,
        None => 0,
    }
}
