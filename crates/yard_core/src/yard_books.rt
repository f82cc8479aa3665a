//! What a command on stock is lent to read and change.
ghost use Rattle.std.specs.Prelude.{◌≡◌};
ghost use Rattle.yard_core.specs.BooksView.{books_before, books_now};

use crate::yard::Yard;
use part_core::Counter;
use std::alloc::Global;

/// The yard, the counter that its rows draw their numbers from, and what both take their memory from.
pub struct YardBooks {
    pub yard: Yard,
    pub counter: Counter,
    pub alloc: Global,
}

// It is written out, so that a caller does not prove again how each part is dropped.
impl Drop for YardBooks {
    fn drop(self) {
        let YardBooks {
            yard: _,
            counter: _,
            alloc: _,
        } = self;
    }
}

impl YardBooks {
    /// Makes the changes final: what is now becomes what was before.
    pub fn keep(&mut self)
        ensures now { books_now self.new ≡ books_now self.old }
        ensures before { books_before self.new ≡ books_now self.old }
    {
        self.yard.keep();
        self.counter.keep();
    }

    /// Takes the changes back: all is again as it was before.
    pub fn back(&mut self)
        ensures now { books_now self.new ≡ books_before self.old }
        ensures before { books_before self.new ≡ books_before self.old }
    {
        self.yard.back();
        self.counter.back();
    }
}
