//! Whether allocations that were read from a file are sound beside the stock. Each row is asked once, and each item is,
//! with a look at its own allocations.
ghost use Rattle.std.specs.Prelude.{◌≡◌, ◌≤◌, ◌↔◌, ◌∷◌, [], IsTrue};
ghost use Rattle.alloc_core.specs.Allocations.{allocated};
ghost use Rattle.alloc_core.specs.AllocationsView.{allocations_now};
ghost use Rattle.alloc_core.specs.RowTests.{is_covered, is_sound_row};
ghost use Rattle.alloc_core.specs.Sound.{AreSoundAllocations, IsSoundAllocation};
ghost use Rattle.sheet_core.specs.Filled.{StandUnderKeys};
ghost use Rattle.sheet_core.specs.Rows.{EachRow, StandRight};
ghost use Rattle.yard_core.specs.StockBooks.{stock_books_of};
ghost use Rattle.yard_core.specs.YardView.{stock_of};

use crate::allocation::Allocation;
use crate::allocations::Allocations;
use part_core::{Counter, Id, is_bad_quantity, is_drawn};
use yard_core::{Item, Yard};

/// Whether the allocation is of 1 to 1,000,000,000 pieces of an item at a location.
fn is_sound_row(yard: &Yard, row: &Allocation) -> bool
    ensures { result ≡ is_sound_row (stock_of yard.now) row.now }
{
    let is_loose = match yard.item(row.item) {
        Some(item) => item.place.is_at(),
        None => false,
    };
    !is_bad_quantity(row.quantity) && is_loose
}

impl Allocations {
    /// Whether no more of the item is allocated than it has.
    fn is_covered(&self, item: &Item) -> bool
        ensures { result ≡ is_covered (allocations_now self.now) item.now }
    {
        self.allocated(item.number) <= u128::from(item.quantity)
    }

    fn are_drawn(&self, next: Id) -> bool
        ensures { IsTrue result ↔ StandRight (λ a. a.number) next (allocations_now self.now) }
    {
        !self.rows().any(|row| !is_drawn(row.number, next))
    }

    fn are_sound_rows(&self, yard: &Yard) -> bool
        ensures { IsTrue result
            ↔ EachRow (IsSoundAllocation (stock_of yard.now)) (allocations_now self.now) }
    {
        !self.rows().any(|row| !is_sound_row(yard, row))
    }

    fn are_items_covered(&self, yard: &Yard) -> bool
        ensures { IsTrue result
            ↔ EachRow (λ x. allocated x.number (allocations_now self.now) ≤ x.quantity)
            (stock_of yard.now).items }
    {
        !yard.items().any(|item| !self.is_covered(item))
    }

    /// Whether the allocations are sound beside the stock and the numbers that were drawn: each of its own number, of
    /// an item at a location, and of no item more than it has.
    pub fn is_sound(&self, yard: &Yard, counter: &Counter) -> bool
        requires { StandUnderKeys (λ x. x.number ∷ []) (stock_of yard.now).items }
        ensures { IsTrue result ↔ AreSoundAllocations (allocations_now self.now)
            (stock_books_of yard.now counter.now) }
    {
        if !self.are_drawn(counter.next()) {
            return false;
        }
        if !self.are_sound_rows(yard) {
            return false;
        }
        self.are_items_covered(yard)
    }
}
