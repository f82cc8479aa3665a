//! Pieces that are cut off items.
ghost use Rattle.std.specs.Prelude.{◌≡◌, ◌+◌, ◌≤◌, true, IfOk, OnErr, OnOk, None, length};
ghost use Rattle.word_core.specs.Counter.{numbering_of};
ghost use Rattle.yard_core.specs.BooksView.{books_before, books_now};
ghost use Rattle.yard_core.specs.Stock.{IsSound, next_entry};
ghost use Rattle.yard_core.specs.YardView.{stock_of};
ghost use Rattle.stock_core.specs.Arrives.{HasRoom};
ghost use Rattle.stock_core.specs.Drawing.{books_at};
ghost use Rattle.stock_core.specs.ItemTests.{has_more, is_loose};
ghost use Rattle.stock_core.specs.Pieces.{CanCut, IsWhole};
ghost use Rattle.stock_core.specs.Steps.{cut_each, cut_off, take};

use crate::item_tests::has_more;
use alloc_core::draw_up_to;
use part_core::{Day, Id, Quantity, Serial};
use std::alloc::AllocError;
use yard_core::YardBooks;

/// Cuts an amount off a loose item without serial, under the next number, which it gives.
pub fn cut_off(
    books: &mut YardBooks,
    item: Id,
    quantity: Quantity,
    serial: Option<Serial>,
    day: Day,
) -> Result<Id, AllocError>
    requires can { CanCut item quantity serial (books_now books.old) }
    ensures ok { IfOk result (λ _. books_now books.new
        ≡ cut_off item quantity serial day (books_now books.old)) }
    ensures number { IfOk result (λ number. number ≡ books.old.counter.next) }
    ensures sound { OnOk result (IsSound (stock_of books.new.yard)) }
    ensures before { books_before books.new ≡ books_before books.old }
{
    books
        .yard
        .cut(item, quantity, books.counter.next(), serial, day)?;
    Ok(books.counter.draw())
}

/// Cuts a single piece off the item for each serial, in their order.
pub fn cut_each(
    books: &mut YardBooks,
    item: Id,
    serials: &[Serial],
    day: Day,
) -> Result<(), AllocError>
    requires room { HasRoom (length serials.now) (books_now books.old) }
    requires whole { IsWhole item (length serials.now) (books_now books.old) }
    ensures ok { OnOk result (books_now books.new
        ≡ cut_each item serials.now day (books_now books.old)) }
    ensures before { books_before books.new ≡ books_before books.old }
{
    for serial in serials {
        let own = serial.copy(books.alloc)?;
        let _ = cut_off(books, item, 1, Some(own), day)?;
    }
    Ok(())
}

/// Takes an amount of a loose item: less than the whole is cut off it, under this number, after which the next one comes.
/// It gives the number of what was taken, and draws none.
pub fn take_at(
    books: &mut YardBooks,
    next: &mut Id,
    item: Id,
    quantity: Quantity,
    day: Day,
) -> Result<Id, AllocError>
    requires sound { IsSound (stock_of books.old.yard) }
    requires loose { is_loose item (stock_of books.old.yard) ≡ true }
    requires can { has_more item quantity (stock_of books.old.yard) ≡ true
        → CanCut item quantity None (books_at next.old books.old.yard books.old.counter) }
    ensures ok { IfOk result (λ number. take item quantity day
        (books_at next.old books.old.yard books.old.counter)
        ≡ (books_at next.new books.new.yard books.new.counter, number)) }
    ensures sound { OnOk result (IsSound (stock_of books.new.yard)) }
    ensures loose { IfOk result (λ number. is_loose number (stock_of books.new.yard) ≡ true) }
    ensures entries { OnOk result (next_entry (stock_of books.new.yard)
        ≤ next_entry (stock_of books.old.yard) + 1) }
    ensures from { next.old ≤ next.new }
    ensures within { next.old ≤ books.old.counter.limits.numbers + 1
        → next.new ≤ books.old.counter.limits.numbers + 1 }
    ensures undrawn { books.new.counter ≡ books.old.counter }
    ensures before { books_before books.new ≡ books_before books.old }
{
    if !has_more(&books.yard, item, quantity) {
        return Ok(item);
    }
    let number = *next;
    books.yard.cut(item, quantity, number, None, day)?;
    // There is a number for it, so that the next is none past the largest.
    let _ = books.counter.largest();
    *next += 1;
    Ok(number)
}

/// Takes an amount of a loose item: less than the whole is cut off it, under the next number. It gives the
/// number of what was taken. Where there is no memory, none is drawn.
pub fn take(books: &mut YardBooks, item: Id, quantity: Quantity, day: Day) -> Result<Id, AllocError>
    requires sound { IsSound (stock_of books.old.yard) }
    requires loose { is_loose item (stock_of books.old.yard) ≡ true }
    requires can { has_more item quantity (stock_of books.old.yard) ≡ true
        → CanCut item quantity None (books_now books.old) }
    ensures ok { IfOk result (λ number. take item quantity day (books_now books.old)
        ≡ (books_now books.new, number)) }
    ensures sound { OnOk result (IsSound (stock_of books.new.yard)) }
    ensures loose { IfOk result (λ number. is_loose number (stock_of books.new.yard) ≡ true) }
    ensures entries { OnOk result (next_entry (stock_of books.new.yard)
        ≤ next_entry (stock_of books.old.yard) + 1) }
    ensures undrawn { OnErr result
        (numbering_of books.new.counter ≡ numbering_of books.old.counter) }
    ensures before { books_before books.new ≡ books_before books.old }
{
    let mut next = books.counter.next();
    let _ = books.counter.largest();
    let number = take_at(books, &mut next, item, quantity, day)?;
    draw_up_to(&mut books.counter, next);
    Ok(number)
}
