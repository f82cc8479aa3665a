//! What is allocated for an untracked line of a build in production is used up before the build is complete.
ghost use Rattle.std.specs.Prelude.{◌≡◌, ◌+◌, ◌<◌, ◌^◌, Err, not, OnOk, Some, None, false, true};
ghost use Rattle.word_core.specs.Checks.{first};
ghost use Rattle.yard_core.specs.BooksView.{books_now};
ghost use Rattle.yard_core.specs.StockBooks.{is_full};
ghost use Rattle.build_core.specs.BuildBooks.{AreSoundSomehow, Does, build_books, build_books_before};
ghost use Rattle.build_core.specs.Builds.{build_in, is_in_production};
ghost use Rattle.build_core.specs.BuildsView.{builds_now, spent_now};
ghost use Rattle.build_core.specs.Consume.{consume, consume_asks, consume_checks, spend, used_up};
ghost use Rattle.build_core.specs.Spent.{spent_row};
ghost use Rattle.stock_core.specs.declared.halt.Halt.TheVariants as halts;
ghost use Rattle.build_core.specs.declared.spent.Spent.{Spent};

use crate::builds::Builds;
use crate::spent::Spent;
use alloc_core::Purpose;
use part_core::{Answer, CoreFault, Day, Id, Quantity, Refusal, Row};
use stock_core::{Floor, Halt, conclude, take_away};
use yard_core::Place;

/// Whether the build isn't in production. One that isn't there isn't.
fn is_at_rest(builds: &Builds, build: Id) -> bool
    ensures { result ≡ not (is_in_production (build_in build (builds_now builds.now)).state) }
{
    match builds.build(build) {
        Some(row) => !row.state.is_in_production(),
        None => true,
    }
}

/// Why nothing is consumed, whatever the limits are.
fn consume_refusal(builds: &Builds, floor: &Floor, allocation: Id) -> Option<Refusal>
    ensures { result ≡ first (consume_asks allocation (build_books builds.now floor.now)) }
{
    let Some(row) = floor.allocations.allocation(allocation) else {
        return Some(Refusal::NoSuch);
    };
    match &row.purpose {
        Purpose::Sale { .. } => Some(Refusal::Mismatch),
        Purpose::Build { build, output, .. } => {
            if is_at_rest(builds, *build) {
                return Some(Refusal::WrongState);
            }
            if output.is_some() {
                return Some(Refusal::Mismatch);
            }
            None
        }
    }
}

/// So much more was spent on the line of the build: in the row that it has, or in a new one under the next number.
/// `Full` where there is no number left for that.
fn spend(
    builds: &mut Builds,
    floor: &mut Floor,
    build: Id,
    line: Id,
    quantity: Quantity,
) -> Result<(), Halt>
    requires fits { (row : Spent) → spent_row build line (spent_now builds.old) ≡ Some row
        → row.quantity + quantity < 2 ^ 64 }
    ensures ok { OnOk result (build_books builds.new floor.new
        ≡ spend build line quantity (build_books builds.old floor.old)) }
    ensures full { result ≡ Err halts.Full → is_full (spend build line quantity
        (build_books builds.old floor.old)).books ≡ true }
    ensures before { build_books_before builds.new floor.new
        ≡ build_books_before builds.old floor.old }
{
    let found = builds.spent_row(build, line)?;
    let row = match found {
        Some(row) => {
            let mut more = row.copy(floor.stock.alloc)?;
            more.quantity += quantity;
            more
        }
        None => {
            if floor.stock.counter.lacks(1) {
                return Err(Halt::Full);
            }
            Spent {
                number: floor.stock.counter.draw(),
                build,
                line,
                quantity,
            }
        }
    };
    builds.put_spent(row)?;
    Ok(())
}

/// All that the command changes.
fn use_allocated(
    builds: &mut Builds,
    floor: &mut Floor,
    day: Day,
    allocation: Id,
) -> Result<(), Halt>
    requires sound { AreSoundSomehow (build_books builds.old floor.old) }
    requires checked { first (consume_asks allocation (build_books builds.old floor.old)) ≡ None }
    ensures ok { OnOk result (build_books builds.new floor.new
        ≡ consume allocation day (build_books builds.old floor.old)) }
    ensures within { OnOk result (is_full (books_now floor.new.stock) ≡ false) }
    ensures full { result ≡ Err halts.Full → is_full (consume allocation day
        (build_books builds.old floor.old)).books ≡ true }
    ensures before { build_books_before builds.new floor.new
        ≡ build_books_before builds.old floor.old }
{
    let Some(row) = floor.allocations.allocation(allocation) else {
        unreachable!()
    };
    let Purpose::Build { build, line, .. } = &row.purpose else {
        unreachable!()
    };
    let (build, line, item, quantity) = (*build, *line, row.item, row.quantity);
    let used = take_away(&mut floor.stock, day, item, quantity, Place::Used(build));
    if let Err(halt) = used {
        return Err(halt);
    }
    floor.allocations.release(allocation)?;
    spend(builds, floor, build, line, quantity)?;
    // No number is past the limit.
    let _ = floor.stock.counter.largest();
    Ok(())
}

/// Uses up what an allocation for an untracked line of a build in production holds, with all that lies in it and less
/// than the whole of its item by a cut: the allocation goes, and what was spent on the line grows by it, in a row of its
/// own under the next number where nothing was. `NoSuch` where there is no such allocation, `WrongState` where its build
/// isn't in production, `Mismatch` where it is an order's or names an output, and `Full` where there aren't so many
/// numbers or entries left.
pub fn consume(
    builds: &mut Builds,
    floor: &mut Floor,
    day: Day,
    allocation: Id,
) -> Result<Answer, CoreFault>
    requires nothing_pending { build_books_before builds.old floor.old
        ≡ build_books builds.old floor.old }
    requires sound { AreSoundSomehow (build_books builds.old floor.old) }
    ensures does { let b = build_books builds.old floor.old in
        Does (consume_checks allocation day b) (consume allocation day b) b result
        (build_books builds.new floor.new) }
    ensures before { build_books_before builds.new floor.new
        ≡ build_books_before builds.old floor.old }
{
    let refusal = consume_refusal(builds, floor, allocation);
    if let Some(refusal) = refusal {
        return Err(CoreFault::Refused(refusal));
    }
    let moved = use_allocated(builds, floor, day, allocation);
    conclude(builds, floor, moved)
}
