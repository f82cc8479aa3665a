//! Lines come into bills and go: `add_line` and `drop_line`.
ghost use Rattle.std.specs.Prelude.{◌≡◌, ◌≢◌, ◌∷◌, [], true, false, IfOk, OnOk, Err, map};
ghost use Rattle.word_core.specs.Acts.{Acts};
ghost use Rattle.part_core.specs.CatalogueView.{parts_of};
ghost use Rattle.sheet_core.specs.Rows.{IsThere};
ghost use Rattle.sheet_core.specs.Sheet.{now_of};
ghost use Rattle.word_core.specs.declared.refusal.Refusal.{Refusal};
ghost use Rattle.bom_core.specs.BomsView.{bill_books, bill_books_before, bills_before, bills_of};
ghost use Rattle.bom_core.specs.Lines.{add_line, add_line_checks, drop_line_checks};
ghost use Rattle.bom_core.specs.Lines.{removed_all, substitutes_of, with_line, without_line};
ghost use Rattle.bom_core.specs.Sound.{IsSoundBill};
ghost use Rattle.bom_core.specs.Walks.{contains_itself};

use crate::boms::Boms;
use crate::checks::line_refusal;
use crate::line::{Line, NewLine};
use crate::substitute::Substitute;
use part_core::{Catalogue, CoreFault, Counter, Id, IndexedSheet, Refusal};
use std::alloc::{AllocError, Global};

// The numbers of the substitutes.
fn numbers_of(alloc: Global, substitutes: &[&Substitute]) -> Result<Vec<Id>, AllocError>
    ensures { IfOk result (λ numbers. numbers.items ≡ map (λ s. s.now.number) substitutes.now) }
{
    substitutes.iter().map(|row| row.number).collect(alloc)
}

// Removes the rows of these numbers.
fn remove_all(substitutes: &mut IndexedSheet<Substitute>, numbers: &[Id]) -> Result<(), AllocError>
    ensures removed { OnOk result (now_of substitutes.new
        ≡ removed_all numbers.now (now_of substitutes.old)) }
    ensures before { substitutes.new.before ≡ substitutes.old.before }
{
    for number in numbers {
        substitutes.remove(*number)?;
    }
    Ok(())
}

impl Boms {
    // Puts the line in. `Cycle` where some part contains itself then.
    fn put_line(&mut self, catalogue: &Catalogue, line: Line) -> Result<(), CoreFault>
        requires sound { IsSoundBill (parts_of catalogue.now) (bills_of self.old) line.number }
        requires component { IsThere (parts_of catalogue.now).parts line.component }
        ensures put { OnOk result (bills_of self.new ≡ with_line line (bills_of self.old)) }
        ensures acyclic { OnOk result (contains_itself
            (parts_of catalogue.now) (with_line line (bills_of self.old)) ≡ false) }
        ensures refused { (refusal : Refusal)
            → result ≡ Err (CoreFault.Refused refusal) → (refusal ≡ Refusal.Cycle)
            × (contains_itself (parts_of catalogue.now) (with_line line (bills_of self.old))
            ≡ true) }
        ensures before { bills_before self.new ≡ bills_before self.old }
    {
        let assembly = line.assembly;
        let inherited = line.flags.inherited;
        self.lines.put(line)?;
        if self.is_in_cycle(catalogue, assembly, inherited)? {
            return Err(CoreFault::Refused(Refusal::Cycle));
        }
        Ok(())
    }

    /// A new line of the assembly's bill, under a number that is drawn for it. `NoSuch` where the assembly or the
    /// component is no part, `BadNumber` for a quantity out of its range, `WrongFlag` where the one isn't an assembly or
    /// the other isn't a component, or is virtual on a line that isn't consumable, `Retired` for a retired part, `InUse`
    /// where the assembly or a variant of it has an open build, `Cycle` where a part would contain itself, and `Full`
    /// where there is no number left.
    pub fn add_line(
        &mut self,
        catalogue: &Catalogue,
        counter: &mut Counter,
        open_parts: &[Id],
        new: NewLine,
    ) -> Result<Id, CoreFault>
        requires nothing_pending { bill_books_before self.old counter.old
            ≡ bill_books self.old counter.old }
        requires sound { IsSoundBill (parts_of catalogue.now) (bills_of self.old) counter.old.next }
        ensures acts { let b = bill_books self.old counter.old in
            Acts (add_line_checks new open_parts.now (parts_of catalogue.now) b)
            (add_line new b, b.counter.next) b result (bill_books self.new counter.new) }
        ensures before { bill_books_before self.new counter.new
            ≡ bill_books_before self.old counter.old }
    {
        let refusal = line_refusal(catalogue, open_parts, new);
        if let Some(refusal) = refusal {
            return Err(CoreFault::Refused(refusal));
        }
        if let Err(fault) = self.put_line(catalogue, new.row(counter.next())) {
            self.back();
            return Err(fault);
        }
        if counter.lacks(1) {
            self.back();
            return Err(CoreFault::Refused(Refusal::Full));
        }
        Ok(counter.draw())
    }

    // The numbers of the line's substitutes.
    fn substitutes_of(&self, line: Id) -> Result<Vec<Id>, AllocError>
        ensures { IfOk result (λ numbers. numbers.items ≡ substitutes_of line (bills_of self.now)) }
    {
        let rows = self.substitutes_on(line)?;
        numbers_of(self.alloc, &rows)
    }

    // Takes the line and its substitutes out.
    fn take_line(&mut self, line: Id) -> Result<(), CoreFault>
        ensures taken { OnOk result (bills_of self.new ≡ without_line line (bills_of self.old)) }
        ensures refused { (refusal : Refusal) → result ≢ Err (CoreFault.Refused refusal) }
        ensures before { bills_before self.new ≡ bills_before self.old }
    {
        let numbers = self.substitutes_of(line)?;
        self.lines.remove(line)?;
        remove_all(&mut self.substitutes, &numbers)?;
        Ok(())
    }

    /// The line and its substitutes go. `NoSuch` where there is no such line, and `InUse` where its assembly or a variant
    /// of that has an open build.
    pub fn drop_line(
        &mut self,
        catalogue: &Catalogue,
        open_parts: &[Id],
        line: Id,
    ) -> Result<(), CoreFault>
        requires { bills_before self.old ≡ bills_of self.old }
        ensures acts { let bills = bills_of self.old in
            Acts (drop_line_checks line open_parts.now (parts_of catalogue.now) bills)
            (without_line line bills, tt) bills result (bills_of self.new) }
        ensures before { bills_before self.new ≡ bills_before self.old }
    {
        if !self.has_line(line) {
            return Err(CoreFault::Refused(Refusal::NoSuch));
        }
        if self.is_line_open(catalogue, open_parts, line) {
            return Err(CoreFault::Refused(Refusal::InUse));
        }
        if let Err(fault) = self.take_line(line) {
            self.back();
            return Err(fault);
        }
        Ok(())
    }
}
