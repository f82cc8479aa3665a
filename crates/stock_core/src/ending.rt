//! The end of a command that changes rows beside the floor: what it changed stands, or all is taken back.
ghost use Rattle.std.specs.Prelude.{◌≡◌, Err, IfOk, IsOk, OnErr};
ghost use Rattle.word_core.specs.declared.refusal.CoreFault.{CoreFault};
ghost use Rattle.yard_core.specs.StockBooks.{answer_of};
ghost use Rattle.stock_core.specs.Endings.{Ends};
ghost use Rattle.stock_core.specs.FloorView.{FloorBooks, floor_before, floor_now};

use crate::floor::Floor;
use crate::halt::Halt;
use part_core::{Answer, CoreFault};
use std::alloc::AllocError;

/// Rows that a command changes beside the floor: those of orders, or of builds.
pub trait BesideFloor {
    // the books that such a command is lent: these rows, and what the floor holds
    ghost Books: { Type 0 };

    // the books as they are, where the floor holds this
    ghost books_now: { Self → FloorBooks → Books };

    // the books as they were before the request, where the floor held this
    ghost books_before: { Self → FloorBooks → Books };

    /// Takes the changes of the rows back. It takes no memory.
    fn take_back(&mut self)
        ensures now { (held : FloorBooks) → books_now self.new held ≡ books_before self.old held }
        ensures before { (held : FloorBooks)
            → books_before self.new held ≡ books_before self.old held };
}

/// Ends a command whose changes were tried: answers what they drew and wrote since the request began, or,
/// where the limits left no room or there was no memory for them or for the answer, takes everything back.
pub fn conclude<B: BesideFloor>(
    beside: &mut B,
    floor: &mut Floor,
    moved: Result<(), Halt>,
) -> Result<Answer, CoreFault>
    ensures ended { Ends moved result }
    ensures done { IfOk result (λ _. B.books_now beside.new (floor_now floor.new)
        ≡ B.books_now beside.old (floor_now floor.old)) }
    ensures told { IfOk result (λ answer.
        answer ≡ answer_of (floor_before floor.old).books (floor_now floor.old).books) }
    ensures back { OnErr result (B.books_now beside.new (floor_now floor.new)
        ≡ B.books_before beside.old (floor_before floor.old)) }
    ensures before { B.books_before beside.new (floor_before floor.new)
        ≡ B.books_before beside.old (floor_before floor.old) }
{
    let ended = floor.conclude(moved);
    if ended.is_err() {
        beside.take_back();
    }
    ended
}

/// Ends a command of which the limits leave room for all that it changes: answers what was drawn and written
/// since the request began, or, where there was no memory, takes everything back.
pub fn finish<B: BesideFloor>(
    beside: &mut B,
    floor: &mut Floor,
    made: Result<(), AllocError>,
) -> Result<Answer, CoreFault>
    ensures made { IfOk result (λ _. IsOk made) }
    ensures done { IfOk result (λ _. B.books_now beside.new (floor_now floor.new)
        ≡ B.books_now beside.old (floor_now floor.old)) }
    ensures told { IfOk result (λ answer.
        answer ≡ answer_of (floor_before floor.old).books (floor_now floor.old).books) }
    ensures memory { OnErr result (result ≡ Err CoreFault.Memory) }
    ensures back { OnErr result (B.books_now beside.new (floor_now floor.new)
        ≡ B.books_before beside.old (floor_before floor.old)) }
    ensures before { B.books_before beside.new (floor_before floor.new)
        ≡ B.books_before beside.old (floor_before floor.old) }
{
    let moved = match made {
        Ok(()) => Ok(()),
        Err(_) => Err(Halt::Memory),
    };
    conclude(beside, floor, moved)
}
