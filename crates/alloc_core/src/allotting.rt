//! What is missing for a line of a build is taken from what is free of items, one after another.
ghost use Rattle.std.specs.Prelude.{◌≡◌, ◌≤◌, ◌+◌, ◌-◌, Err, IfOk, OnErr, OnOk, min, true};
ghost use Rattle.word_core.specs.Counter.{numbering_before, numbering_of, passes_limit};
ghost use Rattle.yard_core.specs.YardView.{stock_of};
ghost use Rattle.alloc_core.specs.AllocationsView.{allocations_before, allocations_now};
ghost use Rattle.alloc_core.specs.Allocations.{free};
ghost use Rattle.alloc_core.specs.Allotments.{allotments_at, allotments_of, for_line};
ghost use Rattle.alloc_core.specs.Allotting.{allocate_some, allot_in_turn};
ghost use Rattle.alloc_core.specs.declared.allotting.AllotFault.TheVariants as faults;

use crate::allocation::Allocation;
use crate::allocations::Allocations;
use crate::drawing::draw_up_to;
use crate::purpose::Purpose;
use part_core::{Counter, Id, Quantity};
use std::alloc::AllocError;
use yard_core::Yard;

/// Why an allotment stops: the limit leaves no number for the next row, or there is no memory.
#[derive(Clone, Copy, Debug)]
pub enum AllotFault {
    Full,
    Memory,
}

impl From<AllocError> for AllotFault {
    ghost from_gives = { λ error fault. fault ≡ faults.Memory };

    fn from(_error: AllocError) -> AllotFault {
        AllotFault::Memory
    }
}

/// What is left of a quantity.
fn left_of(quantity: Quantity, allocated: u128) -> Quantity
    ensures { result ≡ quantity - allocated }
{
    if allocated < u128::from(quantity) {
        quantity - allocated as Quantity
    } else {
        0
    }
}

/// What is free of an item, which is no more than its quantity.
fn free_of(allocations: &Allocations, yard: &Yard, item: Id) -> Quantity
    ensures { result ≡ free item (allocations_now allocations.now) (stock_of yard.now) }
{
    match yard.item(item) {
        Some(row) => left_of(row.quantity, allocations.allocated(item)),
        None => 0,
    }
}

/// The lesser of the two.
fn lesser(amount: Quantity, missing: u128) -> Quantity
    ensures { result ≡ min amount missing }
{
    if missing < u128::from(amount) {
        missing as Quantity
    } else {
        amount
    }
}

/// A row for an amount of the item under this number, after which the next one comes; none for an amount of 0. `Full`
/// where the limit doesn't leave this number. None is drawn.
fn put_some(
    allocations: &mut Allocations,
    counter: &Counter,
    next: &mut Id,
    build: Id,
    line: Id,
    item: Id,
    quantity: Quantity,
) -> Result<(), AllotFault>
    ensures ok { OnOk result (allotments_at next.new allocations.new counter.now
        ≡ allocate_some (for_line build line) item quantity
        (allotments_at next.old allocations.old counter.now)) }
    ensures full { result ≡ Err faults.Full → passes_limit
        (allocate_some (for_line build line) item quantity
        (allotments_at next.old allocations.old counter.now)).counter ≡ true }
    ensures from { next.old ≤ next.new }
    ensures within { next.old ≤ counter.now.limits.numbers + 1
        → next.new ≤ counter.now.limits.numbers + 1 }
    ensures before { allocations_before allocations.new
        ≡ allocations_before allocations.old }
{
    if quantity == 0 {
        return Ok(());
    }
    if *next >= counter.largest() {
        return Err(AllotFault::Full);
    }
    let row = Allocation {
        number: *next,
        item,
        quantity,
        purpose: Purpose::Build {
            build,
            line,
            output: None,
        },
    };
    allocations.allocate(row)?;
    *next += 1;
    Ok(())
}

impl Allocations {
    /// Allocates what is missing for a line of a build: each of the items in turn gives what is free of it by
    /// then, up to what is still missing, in a row of its own under the next number. `Full` where there is no
    /// number left for a row. After an error some of the rows may have come, but no number is drawn.
    pub fn allot(
        &mut self,
        counter: &mut Counter,
        yard: &Yard,
        build: Id,
        line: Id,
        items: &[Id],
        missing: u128,
    ) -> Result<(), AllotFault>
        ensures ok { OnOk result (allotments_of self.new counter.new
            ≡ allot_in_turn (for_line build line) items.now missing (stock_of yard.now)
            (allotments_of self.old counter.old)) }
        ensures full { result ≡ Err faults.Full → passes_limit
            (allot_in_turn (for_line build line) items.now missing (stock_of yard.now)
            (allotments_of self.old counter.old)).counter ≡ true }
        ensures undrawn { OnErr result (numbering_of counter.new ≡ numbering_of counter.old) }
        ensures before { allocations_before self.new ≡ allocations_before self.old }
        ensures counter_before { numbering_before counter.new ≡ numbering_before counter.old }
    {
        let mut next = counter.next();
        let _ = counter.largest();
        let mut left = missing;
        for item in items {
            let amount = lesser(free_of(self, yard, *item), left);
            let put = put_some(self, counter, &mut next, build, line, *item, amount);
            if let Err(fault) = put {
                return Err(fault);
            }
            left -= u128::from(amount);
        }
        draw_up_to(counter, next);
        Ok(())
    }
}
