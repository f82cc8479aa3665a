//! The list of what lies at a location and below it.
ghost use Rattle.std.specs.Prelude.{◌≡◌, ◌++◌, ◌∷◌, flat_map, map, IfOk, OnOk};
ghost use Rattle.std.specs.String.{string_bytes};
ghost use Rattle.yard_core.specs.Contents.{shown_content};
ghost use Rattle.yard_core.specs.YardView.{stock_of};
ghost use Rattle.desk_core.specs.ShopView.{state_of};
ghost use Rattle.report_core.specs.Lines.{Gives, fields_of, lines_of};
ghost use Rattle.list_core.specs.PlaceList.{content_at, indented, items_under, lies_under};
ghost use Rattle.list_core.specs.PlaceList.{location_of, place_header, place_list, placed_row};
ghost use Rattle.list_core.specs.PlaceList.{placed_rows};

use crate::amounts::free_of;
use crate::ways::{is_under, way_field};
use desk_core::Shop;
use part_core::{CoreFault, Id, Refusal, Worded};
use report_core::Report;
use report_core::fields::{
    amount_field, batch_field, name_field, number_field, serial_field, words_line,
};
use std::alloc::{AllocError, Global};
use yard_core::{Inside, Item, Place, Yard};

/// The location that an item at this place lies at itself.
pub fn location_of(place: Place) -> Option<Id>
    ensures { result ≡ location_of place }
{
    match place {
        Place::At(location) => Some(location),
        _ => None,
    }
}

/// Whether the item lies itself at the location or at one below it.
fn lies_under(yard: &Yard, top: Id, item: &Item) -> bool
    ensures { result ≡ lies_under top (stock_of yard.now) item.now }
{
    match location_of(item.place) {
        Some(location) => is_under(yard.locations(), top, location),
        None => false,
    }
}

/// The items that lie themselves at the location or at one below it, in order of number. An error is one of memory.
pub fn items_under(yard: &Yard, top: Id) -> Result<Vec<&Item>, AllocError>
    ensures { IfOk result (λ items.
        map (λ i. i.now) items.items ≡ items_under top (stock_of yard.now)) }
{
    yard.items().select(|item| lies_under(yard, top, item))
}

/// The name behind two spaces for each item that it lies in.
pub(crate) fn indented(alloc: Global, depth: u64, name: &str) -> Result<String, AllocError>
    ensures { IfOk result (λ text. string_bytes text ≡ indented depth name.now) }
{
    let mut text = "  ".repeat(alloc, depth.saturating_sub(1) as usize)?;
    text.push_str(name)?;
    Ok(text)
}

/// An item's row. The way is empty where it lies at no location itself.
fn placed_row(
    alloc: Global,
    shop: &Shop,
    item: &Item,
    depth: u64,
) -> Result<Vec<String>, AllocError>
    ensures { IfOk result (λ line.
        fields_of line ≡ placed_row (state_of shop.now) (item.now, depth)) }
{
    let way = way_field(alloc, shop.yard().locations(), location_of(item.place))?;
    let level = number_field(alloc, depth)?;
    let number = number_field(alloc, item.number)?;
    let part = number_field(alloc, item.part)?;
    let name = name_field(alloc, shop.catalogue(), item.part)?;
    let name = indented(alloc, depth, name.as_str())?;
    let quantity = number_field(alloc, item.quantity)?;
    let free = amount_field(alloc, free_of(shop, item))?;
    let batch = batch_field(alloc, &item.lot.batch)?;
    let serial = serial_field(alloc, &item.lot.serial)?;
    let status = String::from_str(alloc, item.lot.status.word())?;
    Ok(vec![in alloc;
        way, level, number, part, name, quantity, free, batch, serial, status,
    ]?)
}

/// What lies in the item of that number, and nothing where there is no such item. An error is one of memory.
fn content_at(alloc: Global, yard: &Yard, number: Id) -> Result<Vec<Inside>, AllocError>
    ensures { IfOk result (λ content.
        shown_content content.items ≡ content_at number (stock_of yard.now)) }
{
    match yard.item(number) {
        Some(_) => yard.content(number),
        None => Ok(Vec::new(alloc)),
    }
}

/// Adds the item's row and those of all that lies in it.
fn push_rows(
    alloc: Global,
    shop: &Shop,
    item: &Item,
    lines: &mut Vec<Vec<String>>,
) -> Result<(), AllocError>
    ensures { OnOk result (lines_of lines.new.items
        ≡ lines_of lines.old.items ++ placed_rows (state_of shop.now) item.now) }
{
    lines.push(placed_row(alloc, shop, item, 1)?)?;
    let content = content_at(alloc, shop.yard(), item.number)?;
    for inside in &content {
        lines.push(placed_row(alloc, shop, inside.item, inside.depth)?)?;
    }
    Ok(())
}

fn place_header(alloc: Global) -> Result<Vec<String>, AllocError>
    ensures { IfOk result (λ line. fields_of line ≡ place_header) }
{
    words_line(
        alloc,
        &[
            "way", "depth", "item", "part", "name", "quantity", "free", "batch", "serial", "status",
        ],
    )
}

/// The header, and the rows of each of these items with what lies in it.
fn place_lines(alloc: Global, shop: &Shop, items: &[&Item]) -> Result<Vec<Vec<String>>, AllocError>
    ensures { IfOk result (λ lines. lines_of lines.items ≡ place_header
        ∷ flat_map (placed_rows (state_of shop.now)) (map (λ i. i.now) items.now)) }
{
    let mut lines = vec![in alloc; place_header(alloc)?]?;
    for item in items {
        push_rows(alloc, shop, item, &mut lines)?;
    }
    Ok(lines)
}

/// Each item that lies at the location or below it, in order of number, each followed by what lies in it. NoSuch where
/// there is no such location. It goes over all items once, and up from the location of each.
pub fn place_list(alloc: Global, shop: &Shop, location: Id) -> Result<Report, CoreFault>
    ensures { Gives (place_list location (state_of shop.now)) result }
{
    if shop.yard().location(location).is_none() {
        return Err(CoreFault::Refused(Refusal::NoSuch));
    }
    let items = items_under(shop.yard(), location)?;
    let lines = place_lines(alloc, shop, items.as_slice())?;
    Ok(Report::new(lines))
}
