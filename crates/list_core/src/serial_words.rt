//! A word that is a serial: the items that it may say.
ghost use Rattle.std.specs.Prelude.{◌≡◌, map, IfOk};
ghost use Rattle.std.specs.String.{string_bytes};
ghost use Rattle.desk_core.specs.ShopView.{state_of};
ghost use Rattle.report_core.specs.Lines.{fields_of};
ghost use Rattle.list_core.specs.SerialWords.{called, called_text, found_among, is_serial, items_called};
ghost use Rattle.list_core.specs.SerialWords.{serial_found};

use crate::command_facts::commas;
use desk_core::Shop;
use part_core::{Found, Serial};
use report_core::fields::name_field;
use report_core::stock::is_gone;
use std::alloc::{AllocError, Global};
use yard_core::Item;

fn is_serial(word: &str, serial: &Option<Serial>) -> bool
    ensures { result ≡ is_serial word.now serial.now }
{
    match serial {
        Some(serial) => serial.as_str() == word,
        None => false,
    }
}

/// The items with this serial that aren't gone, in order of number. It goes over all items once. An error is one of memory.
fn items_called<'a>(shop: &'a Shop, word: &str) -> Result<Vec<&'a Item>, AllocError>
    ensures { IfOk result (λ items.
        map (λ i. i.now) items.items ≡ items_called word.now (state_of shop.now)) }
{
    shop.yard()
        .items()
        .select(|item| is_serial(word, &item.lot.serial) && !is_gone(item))
}

/// The one of these items, if there is one alone.
fn found_among(items: &[&Item]) -> Found
    ensures { result ≡ found_among (map (λ i. i.now) items.now) }
{
    match items {
        [] => Found::Nothing,
        [item] => Found::One(item.number),
        _ => Found::Several,
    }
}

/// The item that isn't gone and has the word as its serial, where there is one alone. An error is one of memory.
pub fn serial_found(shop: &Shop, word: &str) -> Result<Found, AllocError>
    ensures { IfOk result (λ found. found ≡ serial_found word.now (state_of shop.now)) }
{
    let items = items_called(shop, word)?;
    Ok(found_among(items.as_slice()))
}

/// An item by its part's name and its number.
fn called(alloc: Global, shop: &Shop, item: &Item) -> Result<String, AllocError>
    ensures { IfOk result (λ text. string_bytes text ≡ called (state_of shop.now) item.now) }
{
    let name = name_field(alloc, shop.catalogue(), item.part)?;
    let number = item.number;
    format!(in alloc; "{name} (item {number})")
}

/// The same of each of these.
fn all_called(alloc: Global, shop: &Shop, items: &[&Item]) -> Result<Vec<String>, AllocError>
    ensures { IfOk result (λ texts.
        fields_of texts ≡ map (called (state_of shop.now)) (map (λ i. i.now) items.now)) }
{
    let mut texts = Vec::with_capacity(alloc, items.len())?;
    for item in items {
        texts.push(called(alloc, shop, item)?)?;
    }
    Ok(texts)
}

/// The items that aren't gone and have the word as their serial: each by its part and its number, with a comma between two.
/// An error is one of memory.
pub fn called_text(alloc: Global, shop: &Shop, word: &str) -> Result<String, AllocError>
    ensures { IfOk result (λ text.
        string_bytes text ≡ called_text word.now (state_of shop.now)) }
{
    let items = items_called(shop, word)?;
    let texts = all_called(alloc, shop, items.as_slice())?;
    commas(alloc, texts.as_slice())
}
