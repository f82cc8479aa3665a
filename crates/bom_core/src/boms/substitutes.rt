//! Substitutes come onto lines and go: `add_substitute` and `drop_substitute`.
ghost use Rattle.std.specs.Prelude.{◌≡◌, true, false, OnOk, Err};
ghost use Rattle.word_core.specs.Acts.{Acts};
ghost use Rattle.part_core.specs.CatalogueView.{parts_of};
ghost use Rattle.word_core.specs.Checks.{first};
ghost use Rattle.sheet_core.specs.Rows.{IsThere};
ghost use Rattle.word_core.specs.declared.refusal.Refusal.{Refusal};
ghost use Rattle.bom_core.specs.BomsView.{bill_books, bill_books_before, bills_before, bills_of};
ghost use Rattle.bom_core.specs.Changes.{has_row, is_line_open, row_is};
ghost use Rattle.bom_core.specs.Sound.{IsSoundBill};
ghost use Rattle.bom_core.specs.Substitutes.{add_substitute, add_substitute_checks, drop_substitute_checks};
ghost use Rattle.bom_core.specs.Substitutes.{is_fitting, substitute_row_checks, with_substitute, without_substitute};
ghost use Rattle.bom_core.specs.Walks.{contains_itself};

use crate::boms::Boms;
use crate::checks::{has_part, is_component};
use crate::substitute::Substitute;
use part_core::{Catalogue, CoreFault, Counter, Id, Refusal};

impl Boms {
    // Whether the line of that number fits the part.
    fn is_fitting(&self, catalogue: &Catalogue, line: Id, part: Id) -> bool
        ensures { result ≡ is_fitting (parts_of catalogue.now) (bills_of self.now) line part }
    {
        match self.line(line) {
            Some(line) => self.fits(catalogue, line, part),
            None => false,
        }
    }

    // Whether there is a substitute of that number.
    fn has_substitute(&self, substitute: Id) -> bool
        ensures { result ≡ has_row (bills_of self.now).substitutes substitute }
    {
        match self.substitute(substitute) {
            Some(_) => true,
            None => false,
        }
    }

    // Why a new substitute is refused, whatever walks it makes.
    fn substitute_refusal(
        &self,
        catalogue: &Catalogue,
        open_parts: &[Id],
        line: Id,
        part: Id,
    ) -> Option<Refusal>
        ensures { result ≡ first (substitute_row_checks
            line part open_parts.now (parts_of catalogue.now) (bills_of self.now)) }
    {
        if !(self.has_line(line) && has_part(catalogue, part)) {
            return Some(Refusal::NoSuch);
        }
        if !is_component(catalogue, part) || catalogue.is_virtual(part) {
            return Some(Refusal::WrongFlag);
        }
        if catalogue.is_retired(part) {
            return Some(Refusal::Retired);
        }
        if self.is_line_open(catalogue, open_parts, line)
            || self.is_fitting(catalogue, line, part)
        {
            return Some(Refusal::InUse);
        }
        None
    }

    // Puts the substitute in. `Cycle` where some part contains itself then.
    fn put_substitute(
        &mut self,
        catalogue: &Catalogue,
        substitute: Substitute,
    ) -> Result<(), CoreFault>
        requires sound { IsSoundBill
            (parts_of catalogue.now) (bills_of self.old) substitute.number }
        requires line { IsThere (bills_of self.old).lines substitute.line }
        requires part { IsThere (parts_of catalogue.now).parts substitute.part }
        ensures put { OnOk result (bills_of self.new
            ≡ with_substitute substitute (bills_of self.old)) }
        ensures acyclic { OnOk result (contains_itself
            (parts_of catalogue.now) (with_substitute substitute (bills_of self.old)) ≡ false) }
        ensures refused { (refusal : Refusal) → result ≡ Err (CoreFault.Refused refusal)
            → (refusal ≡ Refusal.Cycle) × (contains_itself
            (parts_of catalogue.now) (with_substitute substitute (bills_of self.old)) ≡ true) }
        ensures before { bills_before self.new ≡ bills_before self.old }
    {
        let of_line = substitute.line;
        self.substitutes.put(substitute)?;
        let Some(line) = self.line(of_line) else {
            return Ok(());
        };
        if self.is_in_cycle(catalogue, line.assembly, line.flags.inherited)? {
            return Err(CoreFault::Refused(Refusal::Cycle));
        }
        Ok(())
    }

    /// A new substitute on the line, under a number that is drawn for it. `NoSuch` where the line or the part isn't there,
    /// `WrongFlag` for a part that isn't a component or is virtual, `Retired` for a retired part, `InUse` where the line's
    /// assembly or a variant of it has an open build, or the line fits the part already, `Cycle` where a part would
    /// contain itself, and `Full` where there is no number left.
    pub fn add_substitute(
        &mut self,
        catalogue: &Catalogue,
        counter: &mut Counter,
        open_parts: &[Id],
        line: Id,
        part: Id,
    ) -> Result<Id, CoreFault>
        requires nothing_pending { bill_books_before self.old counter.old
            ≡ bill_books self.old counter.old }
        requires sound { IsSoundBill (parts_of catalogue.now) (bills_of self.old) counter.old.next }
        ensures acts { let b = bill_books self.old counter.old in
            Acts (add_substitute_checks line part open_parts.now (parts_of catalogue.now) b)
            (add_substitute line part b, b.counter.next)
            b result (bill_books self.new counter.new) }
        ensures before { bill_books_before self.new counter.new
            ≡ bill_books_before self.old counter.old }
    {
        let refusal = self.substitute_refusal(catalogue, open_parts, line, part);
        if let Some(refusal) = refusal {
            return Err(CoreFault::Refused(refusal));
        }
        let substitute = Substitute {
            number: counter.next(),
            line,
            part,
        };
        if let Err(fault) = self.put_substitute(catalogue, substitute) {
            self.back();
            return Err(fault);
        }
        if counter.lacks(1) {
            self.back();
            return Err(CoreFault::Refused(Refusal::Full));
        }
        Ok(counter.draw())
    }

    // Whether the assembly of the substitute's line, or a variant of that, is among those with an open build.
    fn is_substitute_open(&self, catalogue: &Catalogue, open_parts: &[Id], substitute: Id) -> bool
        ensures { result ≡ row_is (λ s. is_line_open (parts_of catalogue.now)
            (bills_of self.now) open_parts.now s.line) (bills_of self.now).substitutes substitute }
    {
        match self.substitute(substitute) {
            Some(substitute) => self.is_line_open(catalogue, open_parts, substitute.line),
            None => false,
        }
    }

    /// The substitute goes. `NoSuch` where there is no such substitute, and `InUse` where its line's assembly or a variant
    /// of that has an open build.
    pub fn drop_substitute(
        &mut self,
        catalogue: &Catalogue,
        open_parts: &[Id],
        substitute: Id,
    ) -> Result<(), CoreFault>
        requires { bills_before self.old ≡ bills_of self.old }
        ensures acts { let bills = bills_of self.old in
            Acts (drop_substitute_checks substitute open_parts.now (parts_of catalogue.now) bills)
            (without_substitute substitute bills, tt) bills result (bills_of self.new) }
        ensures before { bills_before self.new ≡ bills_before self.old }
    {
        if !self.has_substitute(substitute) {
            return Err(CoreFault::Refused(Refusal::NoSuch));
        }
        if self.is_substitute_open(catalogue, open_parts, substitute) {
            return Err(CoreFault::Refused(Refusal::InUse));
        }
        self.substitutes.remove(substitute)?;
        Ok(())
    }
}
