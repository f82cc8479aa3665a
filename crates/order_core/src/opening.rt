//! Whether orders that were read from a file are sound, beside the catalogue, the stock and the allocations. Each row is
//! asked once, by look-ups of numbers, and each line with a look at its own allocations.
ghost use Rattle.std.specs.Prelude.{◌≡◌, ◌≤◌, ◌+◌, ◌↔◌, ◌∷◌, [], IsTrue, true};
ghost use Rattle.alloc_core.specs.AllocationsView.{allocations_now};
ghost use Rattle.alloc_core.specs.Allocations.{allocated_for_sale_line};
ghost use Rattle.part_core.specs.CatalogueView.{parts_of};
ghost use Rattle.sheet_core.specs.Filled.{StandUnderKeys};
ghost use Rattle.word_core.specs.Quantity.{largest};
ghost use Rattle.sheet_core.specs.Rows.{EachRow, IsThere, StandRight};
ghost use Rattle.sheet_core.specs.Sheet.{now_of};
ghost use Rattle.yard_core.specs.YardView.{stock_of};
ghost use Rattle.order_core.specs.OrderBooks.{order_books};
ghost use Rattle.order_core.specs.RowTests.{HasRows, has_rows, is_sound_purpose, is_sound_sale, is_within};
ghost use Rattle.order_core.specs.Sound.{AreSoundOrders, IsSoundPurpose};

use crate::line::OrderLine;
use crate::orders::Orders;
use alloc_core::{Allocation, Allocations, Purpose};
use part_core::{Catalogue, Id, is_bad_quantity, is_drawn};
use stock_core::{Floor, part_at};
use yard_core::Yard;

/// Whether what is done of the line, and what is allocated for it besides, are not more than it asks for.
fn is_within(allocations: &Allocations, line: &OrderLine) -> bool
    ensures { result ≡ is_within (allocations_now allocations.now) line.now }
{
    let allocated = allocations.allocated_for_sale_line(line.number);
    let quantity = u128::from(line.quantity);
    allocated <= quantity && u128::from(line.done) <= quantity - allocated
}

impl Orders {
    fn has_rows(&self, catalogue: &Catalogue, line: &OrderLine) -> bool
        ensures { result
            ≡ has_rows (parts_of catalogue.now) (now_of self.now.orders) line.now }
    {
        self.order(line.order).is_some()
            && catalogue.part(line.part).is_some()
            && !is_bad_quantity(line.quantity)
    }

    fn is_sound_sale(&self, yard: &Yard, item: Id, order: Id, line: Id) -> bool
        ensures { result ≡ is_sound_sale (now_of self.now.orders) (now_of self.now.lines)
            (stock_of yard.now) item order line }
    {
        let Some(row) = self.line(line) else {
            return false;
        };
        self.is_sale(order)
            && self.is_in_progress(order)
            && row.order == order
            && part_at(yard, item) == row.part
    }

    fn is_sound_purpose(&self, yard: &Yard, row: &Allocation) -> bool
        ensures { result ≡ is_sound_purpose (now_of self.now.orders) (now_of self.now.lines)
            (stock_of yard.now) row.now.item row.now.purpose }
    {
        match row.purpose {
            Purpose::Sale { order, line } => self.is_sound_sale(yard, row.item, order, line),
            Purpose::Build { .. } => true,
        }
    }

    fn are_orders_drawn(&self, next: Id) -> bool
        requires { StandUnderKeys (λ o. o.number ∷ []) (now_of self.now.orders) }
        ensures { IsTrue result ↔ StandRight (λ o. o.number) next (now_of self.now.orders) }
    {
        !self.orders().any(|row| !is_drawn(row.number, next))
    }

    fn are_lines_drawn(&self, next: Id) -> bool
        ensures { IsTrue result ↔ StandRight (λ l. l.number) next (now_of self.now.lines) }
    {
        !self.lines().any(|row| !is_drawn(row.number, next))
    }

    fn have_rows(&self, catalogue: &Catalogue) -> bool
        ensures { IsTrue result
            ↔ EachRow (HasRows (parts_of catalogue.now) (now_of self.now.orders))
            (now_of self.now.lines) }
    {
        !self.lines().any(|row| !self.has_rows(catalogue, row))
    }

    fn are_within(&self, allocations: &Allocations) -> bool
        ensures { IsTrue result ↔ EachRow (λ l. l.done
            + allocated_for_sale_line l.number (allocations_now allocations.now) ≤ l.quantity)
            (now_of self.now.lines) }
    {
        !self.lines().any(|row| !is_within(allocations, row))
    }

    fn are_sound_sales(&self, floor: &Floor) -> bool
        ensures { let b = order_books self.now floor.now in
            IsTrue result ↔ EachRow (λ a. IsSoundPurpose b a.item a.purpose) b.allocations }
    {
        let yard = &floor.stock.yard;
        !floor
            .allocations
            .rows()
            .any(|row| !self.is_sound_purpose(yard, row))
    }

    /// Whether the orders are sound beside the catalogue, the allocations, the stock and the numbers that were drawn.
    pub fn is_sound(&self, catalogue: &Catalogue, floor: &Floor) -> bool
        requires { StandUnderKeys (λ o. o.number ∷ []) (now_of self.now.orders) }
        ensures { IsTrue result ↔ AreSoundOrders (parts_of catalogue.now)
            (order_books self.now floor.now) }
    {
        let counter = &floor.stock.counter;
        if !self.are_orders_drawn(counter.next()) {
            return false;
        }
        if !self.are_lines_drawn(counter.next()) {
            return false;
        }
        if !self.have_rows(catalogue) {
            return false;
        }
        if !self.are_within(&floor.allocations) {
            return false;
        }
        self.are_sound_sales(floor)
    }
}
