//! The floor: the stock books with what is allocated of them. Commands on orders and builds are lent it whole.
ghost use Rattle.std.specs.Prelude.{◌≡◌, IfOk, OnErr};
ghost use Rattle.yard_core.specs.StockBooks.{answer_of};
ghost use Rattle.stock_core.specs.Endings.{Ends};
ghost use Rattle.stock_core.specs.FloorView.{floor_before, floor_now};

use crate::halt::Halt;
use alloc_core::Allocations;
use part_core::{Answer, CoreFault, Refusal};
use yard_core::YardBooks;

/// The allocations, and the stock books that they are of.
pub struct Floor {
    pub allocations: Allocations,
    pub stock: YardBooks,
}

// It is written out, so that a caller does not prove again how each part is dropped.
impl Drop for Floor {
    fn drop(self) {
        let Floor {
            allocations: _,
            stock: _,
        } = self;
    }
}

impl Floor {
    /// Makes the changes final: what is now becomes what was before.
    pub fn keep(&mut self)
        ensures now { floor_now self.new ≡ floor_now self.old }
        ensures before { floor_before self.new ≡ floor_now self.old }
    {
        self.allocations.keep();
        self.stock.keep();
    }

    /// Takes the changes back: all is again as it was before.
    pub fn back(&mut self)
        ensures now { floor_now self.new ≡ floor_before self.old }
        ensures before { floor_before self.new ≡ floor_before self.old }
    {
        self.allocations.back();
        self.stock.back();
    }

    /// Ends a command whose changes were tried: answers what they drew and wrote since the request began, or,
    /// where the limits left no room or there was no memory for them or for the answer, takes everything back.
    pub fn conclude(&mut self, moved: Result<(), Halt>) -> Result<Answer, CoreFault>
        ensures ended { Ends moved result }
        ensures done { IfOk result (λ _. floor_now self.new ≡ floor_now self.old) }
        ensures told { IfOk result (λ answer.
            answer ≡ answer_of (floor_before self.old).books (floor_now self.old).books) }
        ensures back { OnErr result (floor_now self.new ≡ floor_before self.old) }
        ensures before { floor_before self.new ≡ floor_before self.old }
    {
        let yard = &self.stock.yard;
        let entries = yard.entries().saturating_sub(yard.entries_before());
        let fault = match moved {
            Ok(()) => match self.stock.counter.pending(self.stock.alloc) {
                Ok(ids) => return Ok(Answer { ids, entries }),
                Err(_) => CoreFault::Memory,
            },
            Err(Halt::Full) => CoreFault::Refused(Refusal::Full),
            Err(Halt::Memory) => CoreFault::Memory,
        };
        self.back();
        Err(fault)
    }
}
