//! The row that a word says of whom a list or a report is asked for: by its number or its name, as a field of a line has
//! it, and an item by its serial alone, too.
ghost use Rattle.std.specs.Prelude.{◌≡◌};
ghost use Rattle.desk_core.specs.ShopView.{state_of};
ghost use Rattle.desk_wire.specs.Steps.{Gives};
ghost use Rattle.list_words.specs.WordRows.{is_plain, item_at, named_at, row_at, serial_at, subject_at};

use desk_core::{Names, Shop};
use desk_wire::{Unread, is_json, number_in, one_row, row_at_word};
use list_core::serial_found;
use part_core::{Found, Id, RowKind};
use std::alloc::Global;

/// Whether the word is neither a number nor JSON.
fn is_plain(word: &str) -> bool
    ensures { result ≡ is_plain word.now }
{
    number_in(word).is_none() && !is_json(word)
}

/// The row of that table, by its number or its name.
fn named_at(alloc: Global, shop: &Shop, table: RowKind, word: &str) -> Result<Id, Unread>
    ensures { Gives result (named_at table word.now (state_of shop.now)) }
{
    row_at_word(alloc, Some(shop), table, "of", word)
}

/// The item that isn't gone and has the word as its serial, where there is one alone.
fn serial_at(shop: &Shop, word: &str) -> Result<Id, Unread>
    ensures { Gives result (serial_at word.now (state_of shop.now)) }
{
    let found = serial_found(shop, word)?;
    Ok(one_row("of", found)?)
}

/// The item that a word says: a plain word by its serial, any other by its number or its name.
fn item_at(alloc: Global, shop: &Shop, word: &str) -> Result<Id, Unread>
    ensures { Gives result (item_at word.now (state_of shop.now)) }
{
    if is_plain(word) {
        return serial_at(shop, word);
    }
    named_at(alloc, shop, RowKind::Item, word)
}

/// The row of that table that a word says. `NoName` where no row is called so, `Ambiguous` where several are, and the
/// faults of a field of a line for what is no name of such a row.
pub fn row_at(alloc: Global, shop: &Shop, table: RowKind, word: &str) -> Result<Id, Unread>
    ensures { Gives result (row_at table word.now (state_of shop.now)) }
{
    match table {
        RowKind::Item => item_at(alloc, shop, word),
        _ => named_at(alloc, shop, table, word),
    }
}

/// The part, the item or the order that a word says: by its number, by JSON, or, where it is a plain word, a part by its
/// name or else an item by its serial. The faults are those of `row_at`.
pub fn subject_at(alloc: Global, shop: &Shop, word: &str) -> Result<Id, Unread>
    ensures { Gives result (subject_at word.now (state_of shop.now)) }
{
    if !is_plain(word) {
        return named_at(alloc, shop, RowKind::Item, word);
    }
    match shop.part(word)? {
        Found::Nothing => serial_at(shop, word),
        found => Ok(one_row("of", found)?),
    }
}
