//! Where a part lies: the ways of the locations at which its items lie.
ghost use Rattle.std.specs.Prelude.{◌≡◌, ◌==◌, [], map, IfOk, OnOk};
ghost use Rattle.std.specs.List.{list_any};
ghost use Rattle.std.specs.String.{string_bytes};
ghost use Rattle.desk_core.specs.ShopView.{state_of};
ghost use Rattle.list_core.specs.Lies.{lies_text, location_under, locations_from, locations_of};
ghost use Rattle.list_core.specs.Lies.{ways_text, with_location};

use crate::place_list::location_of;
use crate::ways::way_field;
use desk_core::Shop;
use part_core::Id;
use std::alloc::{AllocError, Global};
use yard_core::Item;

/// The location at which the item lies, by itself or in what lies there, at any depth.
fn location_under(shop: &Shop, item: &Item) -> Option<Id>
    ensures { result ≡ location_under (state_of shop.now) item.now }
{
    let yard = shop.yard();
    match yard.item(yard.root(item.number)) {
        Some(root) => location_of(root.place),
        None => None,
    }
}

/// Whether the location is among these.
fn is_among(locations: &[Id], location: Id) -> bool
    ensures { result ≡ list_any (λ m. m == location) locations.now }
{
    locations.iter().any(|other| *other == location)
}

/// A location comes behind those that are there, unless it is one of them. An error is one of memory.
fn add_location(locations: &mut Vec<Id>, location: Option<Id>) -> Result<(), AllocError>
    ensures { OnOk result (locations.new.items ≡ with_location locations.old.items location) }
{
    let Some(location) = location else {
        return Ok(());
    };
    if is_among(locations.as_slice(), location) {
        return Ok(());
    }
    locations.push(location)?;
    Ok(())
}

/// The locations of these items, each once, in the order in which they come. An error is one of memory.
fn locations_from(alloc: Global, shop: &Shop, items: &[&Item]) -> Result<Vec<Id>, AllocError>
    ensures { IfOk result (λ locations. locations.items
        ≡ locations_from (state_of shop.now) [] (map (λ i. i.now) items.now)) }
{
    let mut locations = Vec::new(alloc);
    for item in items {
        add_location(&mut locations, location_under(shop, item))?;
    }
    Ok(locations)
}

/// The locations at which the part's items lie. It looks at those alone. An error is one of memory.
fn locations_of(alloc: Global, shop: &Shop, part: Id) -> Result<Vec<Id>, AllocError>
    ensures { IfOk result (λ locations. locations.items ≡ locations_of (state_of shop.now) part) }
{
    let items = shop.yard().items_of(part)?;
    locations_from(alloc, shop, items.as_slice())
}

/// The ways of these locations, with a semicolon between two.
fn ways_text(alloc: Global, shop: &Shop, locations: &[Id]) -> Result<String, AllocError>
    ensures { IfOk result (λ text. string_bytes text ≡ ways_text (state_of shop.now) locations.now) }
{
    let mut text = String::new(alloc);
    let mut later = false;
    for location in locations {
        if later {
            text.push_str("; ")?;
        }
        later = true;
        let way = way_field(alloc, shop.yard().locations(), Some(*location))?;
        text.push_str(way.as_str())?;
    }
    Ok(text)
}

/// The ways of the locations at which items of the part lie, by themselves or in what lies there, with a semicolon between
/// two: each once, in the order of the items' numbers. It looks at those items alone. An error is one of memory.
pub fn lies_field(alloc: Global, shop: &Shop, part: Id) -> Result<String, AllocError>
    ensures { IfOk result (λ text. string_bytes text ≡ lies_text (state_of shop.now) part) }
{
    let locations = locations_of(alloc, shop, part)?;
    ways_text(alloc, shop, locations.as_slice())
}
