//! All orders and their lines.
ghost use Rattle.std.specs.Prelude.{◌≡◌, ◌+◌, ◌<◌, ◌^◌, ◌==◌, ◌∷◌, [], filter, map};
ghost use Rattle.std.specs.Prelude.{option_copied, IfOk, OnOk};
ghost use Rattle.std.specs.FinMap as table;
ghost use Rattle.std.specs.List.{list_any};
ghost use Rattle.sheet_core.specs.Rows.{IsThere};
ghost use Rattle.sheet_core.specs.Sheet.{now_of};
ghost use Rattle.order_core.specs.CloseOrder.{is_missing};
ghost use Rattle.sheet_core.specs.Filled.{StandUnderKeys, filled};
ghost use Rattle.word_core.specs.Side.{is_sale};
ghost use Rattle.order_core.specs.Orders.{done_more, in_state, is_in_progress, line_in, order_in};

use crate::line::{OrderLine, of_order_key};
use crate::order::Order;
use crate::state::OrderState;
use part_core::{Id, IndexedSheet, Quantity, Row, Seed, Sheet};
use std::alloc::{AllocError, Global};

/// Whether the line is of the order, and not all of it is done.
fn is_missing(order: Id, line: &OrderLine) -> bool
    ensures { result ≡ is_missing order line.now }
{
    line.order == order && line.done < line.quantity
}

/// The orders, and the lines of all orders, found by their order.
pub struct Orders {
    orders: Sheet<Order>,
    lines: IndexedSheet<OrderLine>,
    alloc: Global,
}

// It is written out, so that a caller does not prove again how each part is dropped.
impl Drop for Orders {
    fn drop(self) {
        let Orders {
            orders: _,
            lines: _,
            alloc: _,
        } = self;
    }
}

impl Orders {
    /// No order.
    pub fn new(alloc: Global, seed: Seed) -> Self
        ensures orders { now_of result.orders ≡ table.empty }
        ensures lines { now_of result.lines ≡ table.empty }
        ensures orders_before { result.orders.before ≡ table.empty }
        ensures lines_before { result.lines.before ≡ table.empty }
    {
        Orders {
            orders: Sheet::new(alloc, seed),
            lines: IndexedSheet::new(alloc, seed),
            alloc,
        }
    }

    /// The orders and lines of these rows, now and before. An error is one of memory.
    pub fn assemble(
        alloc: Global,
        seed: Seed,
        orders: Vec<Order>,
        lines: Vec<OrderLine>,
    ) -> Result<Self, AllocError>
        ensures orders { IfOk result (λ all. now_of all.orders
            ≡ filled (λ o. o.number ∷ []) orders.items) }
        ensures lines { IfOk result (λ all. now_of all.lines
            ≡ filled (λ l. l.number ∷ []) lines.items) }
        ensures orders_before { IfOk result (λ all. all.orders.before ≡ now_of all.orders) }
        ensures lines_before { IfOk result (λ all. all.lines.before ≡ now_of all.lines) }
    {
        let orders = Sheet::filled(alloc, seed, orders)?;
        let lines = IndexedSheet::filled(alloc, seed, lines)?;
        Ok(Orders {
            orders,
            lines,
            alloc,
        })
    }

    /// The orders, as a sheet.
    pub fn orders(&self) -> &Sheet<Order>
        ensures { result.now ≡ self.now.orders }
    {
        &self.orders
    }

    /// The lines of all orders, as a sheet.
    pub fn lines(&self) -> &Sheet<OrderLine>
        ensures value { result.now ≡ self.now.lines }
        ensures own { StandUnderKeys (λ l. l.number ∷ []) (now_of self.now.lines) }
    {
        self.lines.rows()
    }

    /// The order of that number.
    pub fn order(&self, number: Id) -> Option<&Order>
        ensures { option_copied result ≡ table.get (now_of self.now.orders) (number ∷ []) }
    {
        self.orders.get(&number)
    }

    /// The line of that number.
    pub fn line(&self, number: Id) -> Option<&OrderLine>
        ensures { option_copied result ≡ table.get (now_of self.now.lines) (number ∷ []) }
    {
        self.lines.get(number)
    }

    /// Whether the order of that number is under way, one that isn't there being given up.
    pub fn is_in_progress(&self, number: Id) -> bool
        ensures { result ≡ is_in_progress (order_in number (now_of self.now.orders)).state }
    {
        match self.order(number) {
            Some(order) => order.state.is_in_progress(),
            None => false,
        }
    }

    /// Whether the order of that number is a sale.
    pub fn is_sale(&self, number: Id) -> bool
        ensures { result ≡ is_sale (order_in number (now_of self.now.orders)).side }
    {
        match self.order(number) {
            Some(order) => order.side.is_sale(),
            None => false,
        }
    }

    /// Whether not all of a line of the order is done. It looks at the order's lines alone.
    pub fn has_missing(&self, number: Id) -> bool
        ensures { result ≡ list_any (is_missing number) (table.values (now_of self.now.lines)) }
    {
        self.lines
            .any_under(of_order_key(number), |line| is_missing(number, line))
    }

    /// The lines of the order, in order of number. It looks at those alone. An error is one of memory.
    pub fn lines_of(&self, number: Id) -> Result<Vec<&OrderLine>, AllocError>
        ensures { IfOk result (λ lines. map (λ l. l.now) lines.items
            ≡ filter (λ l. l.order == number) (table.values (now_of self.now.lines))) }
    {
        self.lines
            .select_under(of_order_key(number), |line| line.order == number)
    }

    /// A new order. An error is one of memory.
    pub(crate) fn add_order(&mut self, row: Order) -> Result<(), AllocError>
        ensures orders { OnOk result (now_of self.new.orders
            ≡ table.insert (now_of self.old.orders) (row.number ∷ []) row) }
        ensures lines { self.new.lines ≡ self.old.lines }
        ensures orders_before { self.new.orders.before ≡ self.old.orders.before }
    {
        self.orders.put(row)
    }

    /// A new line. An error is one of memory.
    pub(crate) fn add_line(&mut self, row: OrderLine) -> Result<(), AllocError>
        ensures lines { OnOk result (now_of self.new.lines
            ≡ table.insert (now_of self.old.lines) (row.number ∷ []) row) }
        ensures orders { self.new.orders ≡ self.old.orders }
        ensures lines_before { self.new.lines.before ≡ self.old.lines.before }
    {
        self.lines.put(row)
    }

    /// An order gets another state. An error is one of memory.
    pub(crate) fn set_state(&mut self, number: Id, state: OrderState) -> Result<(), AllocError>
        requires there { IsThere (now_of self.old.orders) number }
        requires own { (order_in number (now_of self.old.orders)).number ≡ number }
        ensures orders { OnOk result (now_of self.new.orders ≡ table.insert (now_of self.old.orders)
            (number ∷ []) (in_state state (order_in number (now_of self.old.orders)))) }
        ensures lines { self.new.lines ≡ self.old.lines }
        ensures orders_before { self.new.orders.before ≡ self.old.orders.before }
    {
        let Some(order) = self.orders.get(&number) else {
            unreachable!()
        };
        let mut row = order.copy(self.alloc)?;
        row.state = state;
        self.orders.put(row)
    }

    /// So much more of a line is done. An error is one of memory.
    pub(crate) fn add_done(&mut self, number: Id, more: Quantity) -> Result<(), AllocError>
        requires there { IsThere (now_of self.old.lines) number }
        requires fits { (line_in number (now_of self.old.lines)).done + more < 2 ^ 64 }
        ensures lines { OnOk result (now_of self.new.lines
            ≡ done_more number more (now_of self.old.lines)) }
        ensures orders { self.new.orders ≡ self.old.orders }
        ensures lines_before { self.new.lines.before ≡ self.old.lines.before }
    {
        let Some(line) = self.lines.get(number) else {
            unreachable!()
        };
        let row = OrderLine {
            number: line.number,
            order: line.order,
            part: line.part,
            quantity: line.quantity,
            done: line.done + more,
        };
        self.lines.put(row)
    }

    /// Makes the changes final: the rows now become the rows before.
    pub fn keep(&mut self)
        ensures orders { now_of self.new.orders ≡ now_of self.old.orders }
        ensures lines { now_of self.new.lines ≡ now_of self.old.lines }
        ensures orders_before { self.new.orders.before ≡ now_of self.old.orders }
        ensures lines_before { self.new.lines.before ≡ now_of self.old.lines }
    {
        self.orders.keep();
        self.lines.keep();
    }

    /// Takes the changes back: the rows are again those before.
    pub fn back(&mut self)
        ensures orders { now_of self.new.orders ≡ self.old.orders.before }
        ensures lines { now_of self.new.lines ≡ self.old.lines.before }
        ensures orders_before { self.new.orders.before ≡ self.old.orders.before }
        ensures lines_before { self.new.lines.before ≡ self.old.lines.before }
    {
        self.orders.back();
        self.lines.back();
    }
}
