//! Whether stock that was read from a file is sound, beside the catalogue, the numbers that were drawn and the limits.
//!
//! Each check answers exactly, and none compares each row with each: what a row names is looked up, and a serial is
//! looked for in a set of those before it.
ghost use Rattle.std.specs.Prelude.{◌≡◌, ◌↔◌, IsTrue, IfOk, map};
ghost use Rattle.part_core.specs.CatalogueView.{parts_of};
ghost use Rattle.sheet_core.specs.Rows.{StandRight};
ghost use Rattle.stock_core.specs.Opening.{AreSoundRows};
ghost use Rattle.stock_core.specs.Sound.{AreSoundItems, IsSoundStock};
ghost use Rattle.yard_core.specs.BooksView.{books_now};
ghost use Rattle.yard_core.specs.Climbs.{IsByNumber};
ghost use Rattle.yard_core.specs.Stock.{IsSound};
ghost use Rattle.yard_core.specs.YardView.{stock_of};

use crate::owners::KnowsOwners;
use part_core::{Catalogue, Id};
use rows::{are_drawn, are_sound_entries, are_sound_items};
use serials::serials_stand_once;
use std::alloc::{AllocError, Global};
use yard_core::{Entry, Item, Yard, YardBooks, rows_in_order};

mod rows;
mod serials;

/// Whether each item has a number below `next`, from 1 on. An error is one of memory.
fn are_items_drawn(yard: &Yard, next: Id) -> Result<bool, AllocError>
    requires { IsSound (stock_of yard.now) }
    ensures { IfOk result (λ drawn.
        IsTrue drawn ↔ StandRight (λ i. i.number) next (stock_of yard.now).items) }
{
    let items = rows_in_order(yard.items())?;
    Ok(are_drawn(next, items.as_slice()))
}

/// Whether the stock is sound, but for what the catalogue says of it: also the history is within its limit, and numbers
/// were drawn. An error is one of memory.
fn is_sound_alone(books: &YardBooks) -> Result<bool, AllocError>
    ensures { IfOk result (λ sound. IsTrue sound ↔ AreSoundItems (books_now books.now)) }
{
    let yard = &books.yard;
    let next = books.counter.next();
    if yard.entries() > books.counter.limits().entries {
        return Ok(false);
    }
    let located = yard.are_locations_sound(next)?;
    if !located {
        return Ok(false);
    }
    let sound = yard.is_sound()?;
    if !sound {
        return Ok(false);
    }
    let drawn = are_items_drawn(yard, next)?;
    Ok(drawn)
}

/// Whether items and entries, in order of number, are right beside the catalogue. An error is one of memory.
fn are_sound_rows<W: KnowsOwners>(
    alloc: Global,
    owners: &W,
    catalogue: &Catalogue,
    yard: &Yard,
    items: &[&Item],
    entries: &[Entry],
) -> Result<bool, AllocError>
    requires { IsByNumber (map (λ x. x.now) items.now) }
    ensures { IfOk result (λ sound. IsTrue sound
        ↔ AreSoundRows (W.owners_of owners.now) (parts_of catalogue.now) (stock_of yard.now)
        (map (λ x. x.now) items.now) entries.now) }
{
    if !are_sound_items::<W>(owners, catalogue, yard, items) {
        return Ok(false);
    }
    if !are_sound_entries::<W>(owners, catalogue, yard, entries) {
        return Ok(false);
    }
    let once = serials_stand_once(alloc, catalogue, items)?;
    Ok(once)
}

/// Whether sound items and their history are right beside the catalogue. An error is one of memory.
fn is_sound_beside<W: KnowsOwners>(
    owners: &W,
    catalogue: &Catalogue,
    books: &YardBooks,
) -> Result<bool, AllocError>
    requires { AreSoundItems (books_now books.now) }
    ensures { IfOk result (λ sound. IsTrue sound ↔ IsSoundStock (W.owners_of owners.now)
        (parts_of catalogue.now) (books_now books.now)) }
{
    let yard = &books.yard;
    let items = rows_in_order(yard.items())?;
    let entries = yard.whole_history().as_slice();
    let sound = are_sound_rows::<W>(
        books.alloc,
        owners,
        catalogue,
        yard,
        items.as_slice(),
        entries,
    )?;
    Ok(sound)
}

/// Whether items, locations and history are sound beside the orders and builds that there are, the catalogue, the
/// numbers that were drawn and the limits. It keeps what it sums of each part, and the serials, while it looks. An error
/// is one of memory.
pub fn is_sound_stock<W: KnowsOwners>(
    owners: &W,
    catalogue: &Catalogue,
    books: &YardBooks,
) -> Result<bool, AllocError>
    ensures { IfOk result (λ sound. IsTrue sound ↔ IsSoundStock (W.owners_of owners.now)
        (parts_of catalogue.now) (books_now books.now)) }
{
    let alone = is_sound_alone(books)?;
    if !alone {
        return Ok(false);
    }
    let sound = is_sound_beside::<W>(owners, catalogue, books)?;
    Ok(sound)
}
