//! The commands of the yard, as a machine: one call that does any of them, and its laws.
ghost use Rattle.std.specs.Prelude.{◌≡◌};
ghost use Rattle.yard_core.specs.BooksView.{books_before, books_now};
ghost use Rattle.yard_core.specs.StockBooks.{Does};
ghost use Rattle.yard_core.specs.YardMachine.{ChecksAreInOrder, EffectsAreSound, NamesStay, RowsStay, checks, effect};

use crate::yard_books::YardBooks;
use part_core::{Answer, CoreFault, Id, Ids, Name};

/// What a clerk may ask of the yard itself. Row numbers are any numbers: whether they name rows is part of
/// the command's checks.
#[derive(Drop)]
pub enum YardCommand {
    /// A new location, under a parent or at the top.
    AddLocation { name: Name, parent: Option<Id> },
}

/// Does the command, or is refused by the first check that applies. The docstrings of the calls that stand
/// for the commands say when each refusal comes.
pub fn act(books: &mut YardBooks, command: &YardCommand) -> Result<Answer, CoreFault>
    requires nothing_pending { books_before books.old ≡ books_now books.old }
    ensures does { let b = books_now books.old in
        Does (checks command.now b) (effect command.now b) b result (books_now books.new) }
    ensures before { books_before books.new ≡ books_before books.old }
{
    match command {
        YardCommand::AddLocation { name, parent } => {
            let ids = Ids::one(books.alloc, books.counter.next());
            books.yard.add_location(&mut books.counter, name, *parent)?;
            Ok(Answer { ids, entries: 0 })
        }
    }
}

/// The law that the refusals of each command are checked in the one order of checks.
pub fn checks_are_in_order()
    ensures { ChecksAreInOrder }
{}

/// The law that what passes its checks leaves sound locations sound.
pub fn effects_are_sound()
    ensures { EffectsAreSound }
{}

/// The law that no command of the yard takes a row away.
pub fn rows_stay()
    ensures { RowsStay }
{}

/// The law that what a location is called under its parent it is called for good.
pub fn names_stay()
    ensures { NamesStay }
{}
