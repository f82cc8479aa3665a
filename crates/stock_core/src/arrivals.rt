//! Stock that comes, and the new items that it is.
ghost use Rattle.std.specs.Prelude.{◌≡◌, ◌≤◌, ◌+◌, IfOk, IfSome, OnErr, OnOk, length, not};
ghost use Rattle.part_core.specs.Catalogue.{is_trackable, part_in};
ghost use Rattle.part_core.specs.CatalogueView.{parts_of};
ghost use Rattle.word_core.specs.Counter.{numbering_of};
ghost use Rattle.forest.specs.Moves.{largest};
ghost use Rattle.yard_core.specs.BooksView.{books_before, books_now};
ghost use Rattle.yard_core.specs.Stock.{IsSound};
ghost use Rattle.yard_core.specs.YardView.{stock_of};
ghost use Rattle.stock_core.specs.Arrives.{HasRoom, IsArrival, count_of};
ghost use Rattle.stock_core.specs.Drawing.{books_at};
ghost use Rattle.stock_core.specs.Serials.{are_many, are_taken, given, is_other_count};
ghost use Rattle.stock_core.specs.Steps.{make_each, make_new, make_one, new_item};

use crate::serials::{are_many, are_taken, is_other_count};
use alloc_core::draw_up_to;
use part_core::{Batch, Catalogue, Day, Id, Quantity, Serial, Serials, Status};
use std::alloc::{AllocError, Global};
use yard_core::{Item, Kind, Lot, Place, Yard, YardBooks, copy_batch};

/// Where stock comes to, of which part it is, and the kind of its entries.
#[derive(Clone, Copy, Debug)]
pub struct Arrival {
    pub kind: Kind,
    pub place: Place,
    pub part: Id,
}

/// What is said of stock that comes: one item of the quantity, or one of a single piece for each serial, in
/// their order. All are of the batch.
#[derive(Drop)]
pub struct NewStock {
    pub quantity: Quantity,
    pub batch: Option<Batch>,
    pub serials: Option<Serials>,
}

/// Equal serials, or none.
pub fn copy_serials(alloc: Global, serials: &Option<Serials>) -> Result<Option<Serials>, AllocError>
    ensures { IfOk result (λ copy. copy ≡ serials.now) }
{
    match serials {
        None => Ok(None),
        Some(serials) => Ok(Some(serials.copy(alloc)?)),
    }
}

/// How many new items there are.
pub fn count_of(new: &NewStock) -> u64
    ensures { result ≡ count_of new.now.serials }
{
    match &new.serials {
        None => 1,
        Some(serials) => serials.as_slice().len() as u64,
    }
}

/// Whether more serials are named than a command may.
pub fn names_many(new: &NewStock) -> bool
    ensures { result ≡ given are_many new.now.serials }
{
    match &new.serials {
        None => false,
        Some(serials) => are_many(serials.as_slice()),
    }
}

/// Whether serials are named for a part that has none.
pub fn names_needless(catalogue: &Catalogue, part: Id, new: &NewStock) -> bool
    ensures { result ≡ given (λ _.
        not (is_trackable (part_in part (parts_of catalogue.now)))) new.now.serials }
{
    match &new.serials {
        None => false,
        Some(_) => !catalogue.is_trackable(part),
    }
}

/// Whether more or fewer serials are named than pieces.
pub fn names_other_count(new: &NewStock) -> bool
    ensures { result ≡ given (is_other_count new.now.quantity) new.now.serials }
{
    match &new.serials {
        None => false,
        Some(serials) => is_other_count(new.quantity, serials.as_slice()),
    }
}

/// Whether a serial is named twice, or one that is held in the part's family.
pub fn names_taken(catalogue: &Catalogue, yard: &Yard, part: Id, new: &NewStock) -> bool
    ensures { result
        ≡ given (are_taken part (parts_of catalogue.now) (stock_of yard.now)) new.now.serials }
{
    match &new.serials {
        None => false,
        Some(serials) => are_taken(catalogue, yard, part, serials.as_slice()),
    }
}

/// A new item, Okay.
fn new_item(
    alloc: Global,
    number: Id,
    arrival: Arrival,
    quantity: Quantity,
    batch: &Option<Batch>,
    serial: Option<Serial>,
) -> Result<Item, AllocError>
    ensures { IfOk result (λ item. item ≡ new_item number arrival quantity batch.now serial) }
{
    let batch = copy_batch(alloc, batch)?;
    Ok(Item {
        number,
        part: arrival.part,
        lot: Lot {
            batch,
            serial,
            status: Status::Okay,
        },
        quantity,
        place: arrival.place,
    })
}

/// Makes a new item under this number, after which the next one comes. None is drawn.
fn make_one(
    books: &mut YardBooks,
    next: &mut Id,
    arrival: Arrival,
    quantity: Quantity,
    batch: &Option<Batch>,
    serial: Option<Serial>,
    day: Day,
) -> Result<(), AllocError>
    requires room { HasRoom 1 (books_at next.old books.old.yard books.old.counter) }
    requires arrival { IsArrival arrival }
    requires quantity { (1 ≤ quantity) × (quantity ≤ largest) × IfSome serial (λ _. quantity ≡ 1) }
    ensures ok { OnOk result (books_at next.new books.new.yard books.new.counter
        ≡ make_one arrival quantity batch.now serial day
        (books_at next.old books.old.yard books.old.counter)) }
    ensures sound { OnOk result (IsSound (stock_of books.new.yard)) }
    ensures from { next.old ≤ next.new }
    ensures within { OnOk result (next.new ≤ books.new.counter.limits.numbers + 1) }
    ensures undrawn { books.new.counter ≡ books.old.counter }
    ensures before { books_before books.new ≡ books_before books.old }
{
    let item = new_item(books.alloc, *next, arrival, quantity, batch, serial)?;
    books.yard.make(arrival.kind, item, day)?;
    // There is a number for it, so that the next is none past the largest.
    let _ = books.counter.largest();
    *next += 1;
    Ok(())
}

/// Makes a new item of a single piece for each serial, in their order, under this number and those after it. None is drawn.
fn make_each(
    books: &mut YardBooks,
    next: &mut Id,
    arrival: Arrival,
    batch: &Option<Batch>,
    serials: &[Serial],
    day: Day,
) -> Result<(), AllocError>
    requires room { HasRoom (length serials.now)
        (books_at next.old books.old.yard books.old.counter) }
    requires arrival { IsArrival arrival }
    ensures ok { OnOk result (books_at next.new books.new.yard books.new.counter
        ≡ make_each arrival batch.now serials.now day
        (books_at next.old books.old.yard books.old.counter)) }
    ensures from { next.old ≤ next.new }
    ensures within { OnOk result (next.new ≤ books.new.counter.limits.numbers + 1) }
    ensures undrawn { books.new.counter ≡ books.old.counter }
    ensures before { books_before books.new ≡ books_before books.old }
{
    for serial in serials {
        let own = serial.copy(books.alloc)?;
        make_one(books, next, arrival, 1, batch, Some(own), day)?;
    }
    Ok(())
}

/// Makes the new items, under the next numbers. Where memory runs out, some of them may be there, but no number is drawn.
pub fn make_new(
    books: &mut YardBooks,
    arrival: Arrival,
    new: &NewStock,
    day: Day,
) -> Result<(), AllocError>
    requires room { HasRoom (count_of new.now.serials) (books_now books.old) }
    requires arrival { IsArrival arrival }
    requires quantity { (1 ≤ new.now.quantity) × (new.now.quantity ≤ largest) }
    ensures ok { OnOk result (books_now books.new
        ≡ make_new arrival new.now day (books_now books.old)) }
    ensures undrawn { OnErr result
        (numbering_of books.new.counter ≡ numbering_of books.old.counter) }
    ensures before { books_before books.new ≡ books_before books.old }
{
    let mut next = books.counter.next();
    match &new.serials {
        None => make_one(
            books,
            &mut next,
            arrival,
            new.quantity,
            &new.batch,
            None,
            day,
        )?,
        Some(serials) => {
            let serials = serials.as_slice();
            make_each(books, &mut next, arrival, &new.batch, serials, day)?;
        }
    }
    draw_up_to(&mut books.counter, next);
    Ok(())
}
