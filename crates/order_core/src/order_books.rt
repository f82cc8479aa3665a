//! Orders as what a command changes beside the floor.
use crate::orders::Orders;
use stock_core::BesideFloor;

impl BesideFloor for Orders {
    ghost use Rattle.order_core.specs.Orders.{OrderBooks};
    ghost use Rattle.order_core.specs.OrderBooks.{books_beside, books_beside_before};

    ghost Books = { OrderBooks };

    ghost books_now = { books_beside };

    ghost books_before = { books_beside_before };

    fn take_back(&mut self) {
        self.back();
    }
}
