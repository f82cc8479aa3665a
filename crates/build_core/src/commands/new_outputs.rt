//! Items that a build makes are begun.
ghost use Rattle.std.specs.Prelude.{ℕ, ◌≡◌, ◌+◌, IfOk, OnOk, None, nat_lt};
ghost use Rattle.part_core.specs.Catalogue.{Parts};
ghost use Rattle.part_core.specs.CatalogueView.{parts_of};
ghost use Rattle.word_core.specs.Checks.{first};
ghost use Rattle.word_core.specs.Day.{CivilDay};
ghost use Rattle.bom_core.specs.Bills.{Bills};
ghost use Rattle.bom_core.specs.BomsView.{bills_of};
ghost use Rattle.yard_core.specs.StockBooks.{is_full};
ghost use Rattle.yard_core.specs.BooksView.{books_now};
ghost use Rattle.stock_core.specs.Sound.{AreSoundItems};
ghost use Rattle.stock_core.specs.Steps.{make_new};
ghost use Rattle.build_core.specs.BuildBooks.{AreSoundSomehow, Does, build_books, build_books_before};
ghost use Rattle.build_core.specs.NewOutputs.{begun_at, new_outputs, new_outputs_checks};

use crate::builds::Builds;
use crate::needs::has_tracked;
use bom_core::Boms;
use part_core::{Answer, Catalogue, CoreFault, Day, Id, Quantity, Refusal, is_bad_quantity};
use std::alloc::AllocError;
use stock_core::{
    Arrival, Floor, NewStock, count_of, finish, lacks_room, make_new, names_many, names_needless,
    names_other_count, names_taken,
};
use yard_core::{Kind, Place, YardBooks};

/// Whether that much more, beside what is done and what is begun, is above the most.
fn is_over(most: Quantity, done: Quantity, begun: u128, more: Quantity) -> bool
    ensures { result ≡ nat_lt most (done + begun + more) }
{
    let most = u128::from(most);
    begun > most || u128::from(done) + u128::from(more) > most - begun
}

/// Whether the limits leave no room for it: each new item needs a number, and none an entry.
fn is_full(books: &YardBooks, new: &NewStock) -> bool
    requires { AreSoundItems (books_now books.now) }
    ensures { (build part : ℕ) (day : CivilDay) → result ≡ is_full
        (make_new (begun_at build part) new.now day (books_now books.now)) }
{
    lacks_room(books, count_of(new), 0)
}

/// Why nothing is begun. An error is one of memory.
fn new_outputs_refusal(
    catalogue: &Catalogue,
    boms: &Boms,
    builds: &Builds,
    floor: &Floor,
    build: Id,
    new: &NewStock,
) -> Result<Option<Refusal>, AllocError>
    requires { AreSoundItems (books_now floor.now.stock) }
    ensures { IfOk result (λ refusal. (day : CivilDay)
        → refusal ≡ first (new_outputs_checks build new.now day
        (parts_of catalogue.now) (bills_of boms.now)
        (build_books builds.now floor.now))) }
{
    let yard = &floor.stock.yard;
    let Some(row) = builds.build(build) else {
        return Ok(Some(Refusal::NoSuch));
    };
    if is_bad_quantity(new.quantity) || names_many(new) {
        return Ok(Some(Refusal::BadNumber));
    }
    if names_needless(catalogue, row.part, new) {
        return Ok(Some(Refusal::WrongFlag));
    }
    if !row.state.is_in_production() {
        return Ok(Some(Refusal::WrongState));
    }
    let tracked = has_tracked(catalogue, boms, row.part)?;
    if new.serials.is_none() && tracked {
        return Ok(Some(Refusal::NotSerialised));
    }
    let begun = yard.quantity_out(build);
    if is_over(row.quantity, row.done, begun, new.quantity) {
        return Ok(Some(Refusal::OverNeed));
    }
    if names_other_count(new) {
        return Ok(Some(Refusal::SerialCount));
    }
    if names_taken(catalogue, yard, row.part, new) {
        return Ok(Some(Refusal::SerialTaken));
    }
    if is_full(&floor.stock, new) {
        return Ok(Some(Refusal::Full));
    }
    Ok(None)
}

/// Makes the new items, at the build's output.
fn begin(
    builds: &Builds,
    floor: &mut Floor,
    day: Day,
    build: Id,
    new: &NewStock,
) -> Result<(), AllocError>
    requires sound { AreSoundSomehow (build_books builds.now floor.old) }
    requires checked { (parts : Parts) × (bills : Bills)
        × (first (new_outputs_checks build new.now day parts bills
        (build_books builds.now floor.old)) ≡ None) }
    ensures ok { OnOk result (build_books builds.now floor.new
        ≡ new_outputs build new.now day
        (build_books builds.now floor.old)) }
    ensures before { build_books_before builds.now floor.new
        ≡ build_books_before builds.now floor.old }
{
    let part = match builds.build(build) {
        Some(row) => row.part,
        None => 0,
    };
    let arrival = Arrival {
        kind: Kind::Found,
        place: Place::Output(build),
        part,
    };
    make_new(&mut floor.stock, arrival, new, day)
}

/// Begins items that a build in production makes: new items of the build's part at its output, without an
/// entry. `NoSuch` where there is no such build, `BadNumber` for a quantity out of its range or more than
/// 1,000 serials, `WrongFlag` for serials of a part that isn't trackable, `WrongState` where the build isn't
/// in production, `NotSerialised` where there are no serials and the part has a tracked line, `OverNeed`
/// where with what is done and what is begun they are more than the build's quantity, `SerialCount` where
/// there are more or fewer serials than pieces, `SerialTaken` where one stands twice in the list or is held
/// in the part's family, and `Full` where there aren't so many numbers left.
pub fn new_outputs(
    catalogue: &Catalogue,
    boms: &Boms,
    builds: &mut Builds,
    floor: &mut Floor,
    day: Day,
    build: Id,
    new: &NewStock,
) -> Result<Answer, CoreFault>
    requires nothing_pending { build_books_before builds.old floor.old
        ≡ build_books builds.old floor.old }
    requires sound { AreSoundSomehow (build_books builds.old floor.old) }
    ensures does { let b = build_books builds.old floor.old in
        Does (new_outputs_checks build new.now day (parts_of catalogue.now) (bills_of boms.now) b)
        (new_outputs build new.now day b) b result
        (build_books builds.new floor.new) }
    ensures before { build_books_before builds.new floor.new
        ≡ build_books_before builds.old floor.old }
{
    let refusal = new_outputs_refusal(catalogue, boms, builds, floor, build, new)?;
    if let Some(refusal) = refusal {
        return Err(CoreFault::Refused(refusal));
    }
    let made = begin(builds, floor, day, build, new);
    finish(builds, floor, made)
}
