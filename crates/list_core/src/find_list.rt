//! The list of what a word finds: parts, locations, items and keys.
ghost use Rattle.std.specs.Prelude.{◌≡◌, ◌++◌, filter, map, IfOk, OnOk};
ghost use Rattle.std.specs.FinMap as table;
ghost use Rattle.std.specs.String.{string_bytes};
ghost use Rattle.bom_core.specs.Bills.{part_rows};
ghost use Rattle.desk_core.specs.ShopView.{state_of};
ghost use Rattle.list_core.specs.FindList.{begins_with, find_header, find_list, first_number, found_item};
ghost use Rattle.list_core.specs.FindList.{found_key, found_lines, found_location, found_part};
ghost use Rattle.list_core.specs.FindList.{has_word, is_front, is_in, is_lot, is_word};
ghost use Rattle.list_core.specs.Folds.{case_fold};
ghost use Rattle.report_core.specs.Lines.{fields_of, lines_of};

use crate::folds::case_fold;
use crate::item_list::where_field;
use crate::ways::way_field;
use desk_core::{Kept, Shop};
use part_core::{Batch, Id, NamedRow, Part, Serial};
use report_core::Report;
use report_core::fields::{name_field, number_field};
use std::alloc::{AllocError, Global};
use yard_core::{Item, rows_in_order};

// A word is in folded case, so each text is folded before it is held beside it.

/// Whether the word stands in the text.
fn has_word(word: &str, text: &str) -> bool
    ensures { result ≡ has_word word.now text.now }
{
    text.contains(word)
}

/// Whether the text begins with the word.
fn begins_with(word: &str, text: &str) -> bool
    ensures { result ≡ begins_with word.now text.now }
{
    text.starts_with(word)
}

/// Whether the word stands in this name or key. An error is one of memory.
fn is_in(alloc: Global, word: &str, text: &str) -> Result<bool, AllocError>
    ensures { IfOk result (λ stands. stands ≡ is_in word.now text.now) }
{
    let folded = case_fold(alloc, text)?;
    Ok(has_word(word, folded.as_str()))
}

/// Whether the word is the front of this serial. An error is one of memory.
fn is_front(alloc: Global, word: &str, serial: &Option<Serial>) -> Result<bool, AllocError>
    ensures { IfOk result (λ front. front ≡ is_front word.now serial.now) }
{
    let Some(serial) = serial else {
        return Ok(false);
    };
    let folded = case_fold(alloc, serial.as_str())?;
    Ok(begins_with(word, folded.as_str()))
}

/// Whether the word is this batch. An error is one of memory.
fn is_batch(alloc: Global, word: &str, batch: &Option<Batch>) -> Result<bool, AllocError>
    ensures { IfOk result (λ same. same ≡ is_word word.now batch.now) }
{
    let Some(batch) = batch else {
        return Ok(false);
    };
    let folded = case_fold(alloc, batch.as_str())?;
    Ok(folded.as_str() == word)
}

/// Whether the word is the front of the item's serial, or its batch. An error is one of memory.
fn is_lot(alloc: Global, word: &str, item: &Item) -> Result<bool, AllocError>
    ensures { IfOk result (λ found. found ≡ is_lot word.now item.now) }
{
    if is_front(alloc, word, &item.lot.serial)? {
        return Ok(true);
    }
    is_batch(alloc, word, &item.lot.batch)
}

/// All parts, in order of number.
fn all_parts(shop: &Shop) -> Result<Vec<&Part>, AllocError>
    ensures { IfOk result (λ parts.
        map (λ p. p.now) parts.items ≡ part_rows (state_of shop.now).parts) }
{
    rows_in_order(shop.catalogue().parts())
}

/// All locations, in order of number.
fn all_locations(shop: &Shop) -> Result<Vec<&NamedRow>, AllocError>
    ensures { IfOk result (λ locations.
        map (λ l. l.now) locations.items ≡ table.values (state_of shop.now).stock.locations) }
{
    rows_in_order(shop.yard().locations())
}

/// All items, in order of number, also those that are gone.
fn all_items(shop: &Shop) -> Result<Vec<&Item>, AllocError>
    ensures { IfOk result (λ items.
        map (λ i. i.now) items.items ≡ table.values (state_of shop.now).stock.items) }
{
    rows_in_order(shop.yard().items())
}

/// All answers that are kept, in order of their keys.
fn all_answers(shop: &Shop) -> Result<Vec<&Kept>, AllocError>
    ensures { IfOk result (λ answers.
        map (λ k. k.now) answers.items ≡ table.values (state_of shop.now).answers) }
{
    rows_in_order(shop.answers())
}

/// The names of the columns.
fn find_header(alloc: Global) -> Result<Vec<String>, AllocError>
    ensures { IfOk result (λ line. fields_of line ≡ find_header) }
{
    let kind = String::from_str(alloc, "kind")?;
    let number = String::from_str(alloc, "number")?;
    let name = String::from_str(alloc, "name")?;
    let place = String::from_str(alloc, "where")?;
    Ok(vec![in alloc; kind, number, name, place]?)
}

/// The line of a part: its number, its name, and the way of its category.
fn found_part(alloc: Global, shop: &Shop, part: &Part) -> Result<Vec<String>, AllocError>
    ensures { IfOk result (λ line. fields_of line ≡ found_part (state_of shop.now) part.now) }
{
    let kind = String::from_str(alloc, "part")?;
    let number = number_field(alloc, part.number)?;
    let name = String::from_str(alloc, part.name.as_str())?;
    let way = way_field(alloc, shop.catalogue().categories(), part.category)?;
    Ok(vec![in alloc; kind, number, name, way]?)
}

/// The line of a location: its number, its name, and its way.
fn found_location(
    alloc: Global,
    shop: &Shop,
    location: &NamedRow,
) -> Result<Vec<String>, AllocError>
    ensures { IfOk result (λ line.
        fields_of line ≡ found_location (state_of shop.now) location.now) }
{
    let kind = String::from_str(alloc, "location")?;
    let number = number_field(alloc, location.number)?;
    let name = String::from_str(alloc, location.name.as_str())?;
    let way = way_field(alloc, shop.yard().locations(), Some(location.number))?;
    Ok(vec![in alloc; kind, number, name, way]?)
}

/// The line of an item: its number, its part's name, and where it is.
fn found_item(alloc: Global, shop: &Shop, item: &Item) -> Result<Vec<String>, AllocError>
    ensures { IfOk result (λ line. fields_of line ≡ found_item (state_of shop.now) item.now) }
{
    let kind = String::from_str(alloc, "item")?;
    let number = number_field(alloc, item.number)?;
    let name = name_field(alloc, shop.catalogue(), item.part)?;
    let place = where_field(alloc, shop, item.place)?;
    Ok(vec![in alloc; kind, number, name, place]?)
}

/// The first of the numbers, or nothing where there is none.
fn first_number(alloc: Global, numbers: &[Id]) -> Result<String, AllocError>
    ensures { IfOk result (λ text. string_bytes text ≡ first_number numbers.now) }
{
    match numbers.first() {
        Some(number) => number_field(alloc, *number),
        None => Ok(String::new(alloc)),
    }
}

/// The line of a key: the first number that its request drew, if it drew one, and the key.
fn found_key(alloc: Global, kept: &Kept) -> Result<Vec<String>, AllocError>
    ensures { IfOk result (λ line. fields_of line ≡ found_key kept.now) }
{
    let kind = String::from_str(alloc, "key")?;
    let number = first_number(alloc, kept.answer.ids.as_slice())?;
    let word = String::from_str(alloc, kept.word.as_str())?;
    Ok(vec![in alloc; kind, number, word, String::new(alloc)]?)
}

/// Adds the lines of the parts that the word finds.
fn push_parts(
    alloc: Global,
    shop: &Shop,
    word: &str,
    lines: &mut Vec<Vec<String>>,
) -> Result<(), AllocError>
    ensures { OnOk result (lines_of lines.new.items ≡ lines_of lines.old.items
        ++ map (found_part (state_of shop.now))
        (filter (λ p. is_in word.now p.name) (part_rows (state_of shop.now).parts))) }
{
    let parts = all_parts(shop)?;
    for part in &parts {
        if is_in(alloc, word, part.name.as_str())? {
            lines.push(found_part(alloc, shop, part)?)?;
        }
    }
    Ok(())
}

/// Adds the lines of the locations that the word finds.
fn push_locations(
    alloc: Global,
    shop: &Shop,
    word: &str,
    lines: &mut Vec<Vec<String>>,
) -> Result<(), AllocError>
    ensures { OnOk result (lines_of lines.new.items ≡ lines_of lines.old.items
        ++ map (found_location (state_of shop.now)) (filter (λ l. is_in word.now l.name)
        (table.values (state_of shop.now).stock.locations))) }
{
    let locations = all_locations(shop)?;
    for location in &locations {
        if is_in(alloc, word, location.name.as_str())? {
            lines.push(found_location(alloc, shop, location)?)?;
        }
    }
    Ok(())
}

/// Adds the lines of the items that the word finds.
fn push_items(
    alloc: Global,
    shop: &Shop,
    word: &str,
    lines: &mut Vec<Vec<String>>,
) -> Result<(), AllocError>
    ensures { OnOk result (lines_of lines.new.items ≡ lines_of lines.old.items
        ++ map (found_item (state_of shop.now))
        (filter (is_lot word.now) (table.values (state_of shop.now).stock.items))) }
{
    let items = all_items(shop)?;
    for item in &items {
        if is_lot(alloc, word, item)? {
            lines.push(found_item(alloc, shop, item)?)?;
        }
    }
    Ok(())
}

/// Adds the lines of the keys that the word finds.
fn push_keys(
    alloc: Global,
    shop: &Shop,
    word: &str,
    lines: &mut Vec<Vec<String>>,
) -> Result<(), AllocError>
    ensures { OnOk result (lines_of lines.new.items ≡ lines_of lines.old.items
        ++ map found_key (filter (λ k. is_in word.now k.word)
        (table.values (state_of shop.now).answers))) }
{
    let answers = all_answers(shop)?;
    for kept in &answers {
        if is_in(alloc, word, kept.word.as_str())? {
            lines.push(found_key(alloc, kept)?)?;
        }
    }
    Ok(())
}

/// The header, and the lines of all that the word finds.
fn found_lines(alloc: Global, shop: &Shop, word: &str) -> Result<Vec<Vec<String>>, AllocError>
    ensures { IfOk result (λ lines. lines_of lines.items
        ≡ found_lines word.now (state_of shop.now)) }
{
    let mut lines = vec![in alloc; find_header(alloc)?]?;
    push_parts(alloc, shop, word, &mut lines)?;
    push_locations(alloc, shop, word, &mut lines)?;
    push_items(alloc, shop, word, &mut lines)?;
    push_keys(alloc, shop, word, &mut lines)?;
    Ok(lines)
}

/// What the word finds, behind a line with the names of the columns: the parts and locations in whose names it stands,
/// the items whose serial begins with it or whose batch it is, and the keys in which it stands. Letters of either case
/// are alike. It looks at all rows of each kind. An error is one of memory.
pub fn find_list(alloc: Global, shop: &Shop, word: &str) -> Result<Report, AllocError>
    ensures { IfOk result (λ list. list ≡ find_list word.now (state_of shop.now)) }
{
    let folded = case_fold(alloc, word)?;
    let lines = found_lines(alloc, shop, folded.as_str())?;
    Ok(Report::new(lines))
}
