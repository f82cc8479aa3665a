//! An output is done, and written off.
ghost use Rattle.std.specs.Prelude.{◌≡◌, IfOk, OnOk, None};
ghost use Rattle.word_core.specs.Checks.{first};
ghost use Rattle.word_core.specs.Day.{CivilDay};
ghost use Rattle.yard_core.specs.BooksView.{books_now};
ghost use Rattle.yard_core.specs.StockBooks.{is_full};
ghost use Rattle.yard_core.specs.Stock.{IsThere};
ghost use Rattle.yard_core.specs.YardView.{stock_of};
ghost use Rattle.stock_core.specs.FloorView.{floor_before};
ghost use Rattle.stock_core.specs.Sound.{AreSoundItems};
ghost use Rattle.build_core.specs.BuildBooks.{AreSoundSomehow, Does, build_books, build_books_before};
ghost use Rattle.build_core.specs.ScrapOutput.{scrap_output, scrap_output_checks, scrapped};
ghost use Rattle.build_core.specs.declared.builds.Builds.{Builds};

use crate::builds::Builds;
use crate::outputs::is_no_output;
use alloc_core::Owner;
use part_core::{Answer, CoreFault, Day, Id, Refusal};
use std::alloc::AllocError;
use stock_core::{Floor, finish, is_no_item, lacks_room};
use yard_core::{Place, Reason, YardBooks};

/// Whether the limits leave no room for it: each item of the tree needs two entries. An error is one of
/// memory.
fn is_full(books: &YardBooks, output: Id) -> Result<bool, AllocError>
    requires sound { AreSoundItems (books_now books.now) }
    requires there { IsThere output (stock_of books.now.yard) }
    ensures { IfOk result (λ full. (day : CivilDay)
        → full ≡ is_full (scrapped output day (books_now books.now))) }
{
    let entries = books
        .yard
        .lift_entries(output, Place::Off(Reason::Scrapped))?;
    Ok(lacks_room(books, 0, entries))
}

/// Why it is refused. An error is one of memory.
fn scrap_output_refusal(
    builds: &Builds,
    floor: &Floor,
    output: Id,
) -> Result<Option<Refusal>, AllocError>
    requires { AreSoundSomehow (build_books builds.now floor.now) }
    ensures { IfOk result (λ refusal. (day : CivilDay)
        → refusal ≡ first (scrap_output_checks output day
        (build_books builds.now floor.now))) }
{
    if is_no_item(&floor.stock.yard, output) {
        return Ok(Some(Refusal::NoSuch));
    }
    if is_no_output(builds, floor, output) {
        return Ok(Some(Refusal::WrongState));
    }
    if is_full(&floor.stock, output)? {
        return Ok(Some(Refusal::Full));
    }
    Ok(None)
}

/// Its allocations go, and it is built and written off.
fn write_off(floor: &mut Floor, day: Day, output: Id) -> Result<(), AllocError>
    requires { (builds : Builds) × AreSoundSomehow (build_books builds floor.old)
        × (first (scrap_output_checks output day (build_books builds floor.old)) ≡ None) }
    ensures ok { (builds : Builds) → OnOk result (build_books builds floor.new
        ≡ scrap_output output day (build_books builds floor.old)) }
    ensures before { floor_before floor.new ≡ floor_before floor.old }
{
    floor.allocations.release_for(Owner::Output(output))?;
    floor
        .stock
        .yard
        .lift(output, Place::Off(Reason::Scrapped), day)
}

/// Writes off an output of a build in production: its allocations go, and it is recorded as built and as
/// written off at once. `NoSuch` where there is no such item, `WrongState` where it is no output, or its
/// build isn't in production, and `Full` where there aren't so many entries left.
pub fn scrap_output(
    builds: &mut Builds,
    floor: &mut Floor,
    day: Day,
    output: Id,
) -> Result<Answer, CoreFault>
    requires nothing_pending { build_books_before builds.old floor.old
        ≡ build_books builds.old floor.old }
    requires sound { AreSoundSomehow (build_books builds.old floor.old) }
    ensures does { let b = build_books builds.old floor.old in
        Does (scrap_output_checks output day b) (scrap_output output day b) b result
        (build_books builds.new floor.new) }
    ensures before { build_books_before builds.new floor.new
        ≡ build_books_before builds.old floor.old }
{
    let refusal = scrap_output_refusal(builds, floor, output)?;
    if let Some(refusal) = refusal {
        return Err(CoreFault::Refused(refusal));
    }
    let made = write_off(floor, day, output);
    finish(builds, floor, made)
}
