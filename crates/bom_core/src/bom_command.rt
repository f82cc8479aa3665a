//! The commands on bills, as a machine: one call that does any of them, and its laws.
ghost use Rattle.std.specs.Prelude.{◌≡◌};
ghost use Rattle.word_core.specs.Acts.{Acts};
ghost use Rattle.part_core.specs.CatalogueView.{parts_of};
ghost use Rattle.bom_core.specs.BomMachine.{ChecksAreInOrder, EffectsAreSound, answer_of, checks, effect};
ghost use Rattle.bom_core.specs.BomsView.{bill_books, bill_books_before, bills_of};
ghost use Rattle.bom_core.specs.Sound.{IsSoundBill};

use crate::boms::Boms;
use crate::line::NewLine;
use part_core::{Answer, Catalogue, CoreFault, Counter, Id, Ids};
use std::alloc::Global;

/// What a clerk may ask of the bills. Row numbers and quantities are any numbers: whether they name rows
/// and are in their ranges is part of the command's checks.
#[derive(Drop)]
pub enum BomCommand {
    /// A new line of an assembly's bill: so many of a component go into one unit of it.
    AddLine(NewLine),
    /// A line goes out of its assembly's bill, and its substitutes with it.
    DropLine { line: Id },
    /// A part that may go in for a line's component.
    AddSubstitute { line: Id, part: Id },
    /// A substitute goes off its line.
    DropSubstitute { substitute: Id },
}

/// Does the command, or is refused by the first check that applies. The docstrings of the calls that stand
/// for the commands say when each refusal comes.
pub fn act(
    alloc: Global,
    catalogue: &Catalogue,
    boms: &mut Boms,
    counter: &mut Counter,
    open_parts: &[Id],
    command: &BomCommand,
) -> Result<Answer, CoreFault>
    requires nothing_pending { bill_books_before boms.old counter.old
        ≡ bill_books boms.old counter.old }
    requires sound { IsSoundBill (parts_of catalogue.now) (bills_of boms.old) counter.old.next }
    ensures acts { let b = bill_books boms.old counter.old in
        let after = effect command.now b in
        Acts (checks command.now open_parts.now (parts_of catalogue.now) b)
        (after, answer_of b after) b result (bill_books boms.new counter.new) }
    ensures before { bill_books_before boms.new counter.new
        ≡ bill_books_before boms.old counter.old }
{
    match command {
        BomCommand::AddLine(new) => {
            let ids = Ids::one(alloc, counter.next());
            boms.add_line(catalogue, counter, open_parts, *new)?;
            Ok(Answer { ids, entries: 0 })
        }
        BomCommand::DropLine { line } => {
            boms.drop_line(catalogue, open_parts, *line)?;
            Ok(Answer {
                ids: Ids::none(alloc),
                entries: 0,
            })
        }
        BomCommand::AddSubstitute { line, part } => {
            let ids = Ids::one(alloc, counter.next());
            boms.add_substitute(catalogue, counter, open_parts, *line, *part)?;
            Ok(Answer { ids, entries: 0 })
        }
        BomCommand::DropSubstitute { substitute } => {
            boms.drop_substitute(catalogue, open_parts, *substitute)?;
            Ok(Answer {
                ids: Ids::none(alloc),
                entries: 0,
            })
        }
    }
}

/// The law that the refusals of each command are checked in the one order of checks.
pub fn checks_are_in_order()
    ensures { ChecksAreInOrder }
{}

/// The law that what passes its checks leaves sound bills sound.
pub fn effects_are_sound()
    ensures { EffectsAreSound }
{}
