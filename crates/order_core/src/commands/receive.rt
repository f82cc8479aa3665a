//! Stock comes by a line of a purchase.
ghost use Rattle.std.specs.Prelude.{ℕ, ◌≡◌, ◌+◌, OnOk, None, nat_lt};
ghost use Rattle.part_core.specs.Catalogue.{Parts};
ghost use Rattle.part_core.specs.CatalogueView.{parts_of};
ghost use Rattle.word_core.specs.Checks.{first};
ghost use Rattle.word_core.specs.Day.{CivilDay};
ghost use Rattle.stock_core.specs.Sound.{AreSoundItems};
ghost use Rattle.stock_core.specs.Steps.{make_new};
ghost use Rattle.yard_core.specs.StockBooks.{is_full};
ghost use Rattle.yard_core.specs.BooksView.{books_now};
ghost use Rattle.order_core.specs.Receive.{arrival_at, receive, receive_checks};
ghost use Rattle.order_core.specs.OrderBooks.{AreSoundSomehow, Does, order_books, order_books_before};

use crate::orders::Orders;
use part_core::{Answer, Catalogue, CoreFault, Day, Id, Quantity, Refusal, is_bad_quantity};
use std::alloc::AllocError;
use stock_core::{
    Arrival, Floor, NewStock, count_of, finish, is_no_location, lacks_room, make_new, names_many,
    names_needless, names_other_count, names_taken,
};
use yard_core::{Kind, Place, YardBooks};

/// Whether that much more beside what is done is above the most.
fn is_over(most: Quantity, done: Quantity, more: Quantity) -> bool
    ensures { result ≡ nat_lt most (done + more) }
{
    u128::from(done) + u128::from(more) > u128::from(most)
}

/// Whether the limits leave no room for it: each new item needs a number and an entry.
fn is_full(books: &YardBooks, new: &NewStock) -> bool
    requires { AreSoundItems (books_now books.now) }
    ensures { (part location : ℕ) (day : CivilDay) → result ≡ is_full
        (make_new (arrival_at part location) new.now day (books_now books.now)) }
{
    let count = count_of(new);
    lacks_room(books, count, count)
}

/// Why nothing is received.
fn receive_refusal(
    catalogue: &Catalogue,
    orders: &Orders,
    floor: &Floor,
    line: Id,
    location: Id,
    new: &NewStock,
) -> Option<Refusal>
    requires { AreSoundItems (books_now floor.now.stock) }
    ensures { (day : CivilDay) → result ≡ first (receive_checks line location new.now day
        (parts_of catalogue.now) (order_books orders.now floor.now)) }
{
    let yard = &floor.stock.yard;
    let Some(row) = orders.line(line) else {
        return Some(Refusal::NoSuch);
    };
    if is_no_location(yard, location) {
        return Some(Refusal::NoSuch);
    }
    if is_bad_quantity(new.quantity) || names_many(new) {
        return Some(Refusal::BadNumber);
    }
    if names_needless(catalogue, row.part, new) {
        return Some(Refusal::WrongFlag);
    }
    if !orders.is_in_progress(row.order) {
        return Some(Refusal::WrongState);
    }
    if orders.is_sale(row.order) {
        return Some(Refusal::Mismatch);
    }
    if is_over(row.quantity, row.done, new.quantity) {
        return Some(Refusal::OverNeed);
    }
    if names_other_count(new) {
        return Some(Refusal::SerialCount);
    }
    if names_taken(catalogue, yard, row.part, new) {
        return Some(Refusal::SerialTaken);
    }
    if is_full(&floor.stock, new) {
        return Some(Refusal::Full);
    }
    None
}

/// Makes the new items, and so much more of the line is done.
fn arrive(
    orders: &mut Orders,
    floor: &mut Floor,
    day: Day,
    line: Id,
    location: Id,
    new: &NewStock,
) -> Result<(), AllocError>
    requires sound { AreSoundSomehow (order_books orders.old floor.old) }
    requires checked { (parts : Parts) × (first (receive_checks line location new.now day parts
        (order_books orders.old floor.old)) ≡ None) }
    ensures ok { OnOk result (order_books orders.new floor.new
        ≡ receive line location new.now day
        (order_books orders.old floor.old)) }
    ensures before { order_books_before orders.new floor.new
        ≡ order_books_before orders.old floor.old }
{
    let part = match orders.line(line) {
        Some(row) => row.part,
        None => 0,
    };
    let arrival = Arrival {
        kind: Kind::Received,
        place: Place::At(location),
        part,
    };
    make_new(&mut floor.stock, arrival, new, day)?;
    orders.add_done(line, new.quantity)
}

/// Takes in stock by a line of a purchase in progress: new items at a location, and a `Received` of each; so
/// much more of the line is done. `NoSuch` where the line or the location isn't there, `BadNumber` for a
/// quantity out of its range or more than 1,000 serials, `WrongFlag` for serials of a part that isn't
/// trackable, `WrongState` where the order isn't in progress, `Mismatch` for a sale, `OverNeed` where the
/// line doesn't need so many, `SerialCount` where there are more or fewer serials than pieces, `SerialTaken`
/// where one stands twice in the list or is held in the part's family, and `Full` where there aren't so many
/// numbers or entries left.
pub fn receive(
    catalogue: &Catalogue,
    orders: &mut Orders,
    floor: &mut Floor,
    day: Day,
    line: Id,
    location: Id,
    new: &NewStock,
) -> Result<Answer, CoreFault>
    requires nothing_pending { order_books_before orders.old floor.old
        ≡ order_books orders.old floor.old }
    requires sound { AreSoundSomehow (order_books orders.old floor.old) }
    ensures does { let b = order_books orders.old floor.old in
        Does (receive_checks line location new.now day (parts_of catalogue.now) b)
        (receive line location new.now day b) b result
        (order_books orders.new floor.new) }
    ensures before { order_books_before orders.new floor.new
        ≡ order_books_before orders.old floor.old }
{
    let refusal = receive_refusal(catalogue, orders, floor, line, location, new);
    if let Some(refusal) = refusal {
        return Err(CoreFault::Refused(refusal));
    }
    let made = arrive(orders, floor, day, line, location, new);
    finish(orders, floor, made)
}
