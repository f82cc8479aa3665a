//! What the proofs have to be told of a shop before its state goes into a file, and what a dump can be relied on for.
//!
//! The functions do nothing when they are run, and are called for their contracts alone.
ghost use Rattle.desk_core.specs.Machine.{IsSoundState};
ghost use Rattle.desk_core.specs.ShopView.{state_before, state_of};
ghost use Rattle.desk_core.specs.Staying.{AllStay};
ghost use Rattle.desk_store.specs.DumpLaws.{CutDumpsCommitNothing, RowsAreRead};
ghost use Rattle.desk_store.specs.Saving.{MayFollow};

use desk_core::{Shop, rows_are_small};

/// The tables of the shop before the request may become those of the shop now.
pub fn may_follow(shop: &Shop)
    requires before { IsSoundState (state_before shop.now) }
    requires after { IsSoundState (state_of shop.now) }
    requires stays { AllStay (state_before shop.now) (state_of shop.now) }
    ensures { MayFollow (state_before shop.now) (state_of shop.now) }
{
    rows_are_small();
}

/// The law that the line of a dump that puts a row is read, by the rules of SQL for literals, as that row, whatever its
/// texts are: a text in quotes ends at the quote that isn't doubled.
pub fn rows_are_read()
    ensures { RowsAreRead }
{}

/// The law that a dump that was cut short has no COMMIT, whatever its texts are, so that a database that is given it keeps
/// nothing.
pub fn cut_dumps_commit_nothing()
    ensures { CutDumpsCommitNothing }
{}
