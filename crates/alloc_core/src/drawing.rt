//! Numbers that are drawn once the rows that have them are made, so that none is where memory runs out before.
ghost use Rattle.std.specs.Prelude.{◌≡◌, ◌≤◌, ◌+◌};
ghost use Rattle.word_core.specs.Counter.{numbering_before, numbering_of, resumed};

use part_core::{Counter, Id};

/// Draws the numbers below this one, which is then the next.
pub fn draw_up_to(counter: &mut Counter, next: Id)
    requires from { counter.old.next ≤ next }
    requires within { next ≤ counter.old.limits.numbers + 1 }
    ensures now { numbering_of counter.new ≡ resumed counter.old.limits next }
    ensures before { numbering_before counter.new ≡ numbering_before counter.old }
{
    for _number in counter.next()..next {
        let _ = counter.draw();
    }
}
