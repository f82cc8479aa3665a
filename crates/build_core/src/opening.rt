//! Whether builds that were read from a file are sound, beside the catalogue, the bills, the stock and the
//! allocations. Each build, each item and each allocation is asked once: what it names is looked up, and what is
//! summed is found by an index.
ghost use Rattle.std.specs.Prelude.{◌≡◌, ◌↔◌, IfOk, IsTrue, map, not, true};
ghost use Rattle.std.specs.List.{All};
ghost use Rattle.part_core.specs.CatalogueView.{parts_of};
ghost use Rattle.sheet_core.specs.Rows.{EachRow, StandRight};
ghost use Rattle.bom_core.specs.BomsView.{bills_of};
ghost use Rattle.alloc_core.specs.AllocationsView.{allocations_now};
ghost use Rattle.yard_core.specs.YardView.{stock_of};
ghost use Rattle.build_core.specs.AllocateBuild.{is_other_output};
ghost use Rattle.build_core.specs.BuildBooks.{build_books};
ghost use Rattle.build_core.specs.BuildsView.{builds_now, spent_now};
ghost use Rattle.build_core.specs.RowTests.{is_right_meant, is_right_placed, is_sound_build};
ghost use Rattle.build_core.specs.RowTests.{is_sound_spent, is_spent_once};
ghost use Rattle.build_core.specs.Sound.{AreSoundBuilds, IsSoundBuild, IsSoundSpending};

use crate::build::Build;
use crate::builds::Builds;
use crate::needs::{has_tracked, is_suited, is_untracked_of, needed, wanted_whole};
use crate::outputs::is_output_of;
use crate::spent::Spent;
use alloc_core::{Allocation, Allocations, OutputNumber, Purpose};
use bom_core::Boms;
use part_core::{Catalogue, Id, is_bad_quantity, is_drawn};
use std::alloc::AllocError;
use stock_core::{Floor, part_at};
use yard_core::{Item, Place, Yard, rows_in_order};

/// Whether the build's part is there, it is of 1 to 1,000,000,000, and no more are done and begun than that.
fn is_sound_build(catalogue: &Catalogue, yard: &Yard, row: &Build) -> bool
    ensures { result ≡ is_sound_build (parts_of catalogue.now) (stock_of yard.now) row.now }
{
    let begun = yard.quantity_out(row.number);
    let quantity = u128::from(row.quantity);
    catalogue.part(row.part).is_some()
        && !is_bad_quantity(row.quantity)
        && begun <= quantity
        && u128::from(row.done) <= quantity - begun
}

/// Whether an output that is named is one of the build's.
fn is_own_output(yard: &Yard, build: Id, output: Option<Id>) -> bool
    ensures { result ≡ not (is_other_output build output (stock_of yard.now)) }
{
    match output {
        None => true,
        Some(output) => is_output_of(yard, build, output),
    }
}

/// The number of the output, where one is named.
fn number_of(output: &Option<OutputNumber>) -> Option<Id>
    ensures { result ≡ output.now }
{
    match output {
        None => None,
        Some(output) => Some(output.number()),
    }
}

impl Builds {
    fn are_drawn(&self, next: Id) -> bool
        ensures { IsTrue result ↔ StandRight (λ x. x.number) next (builds_now self.now) }
    {
        !self.rows().any(|row| !is_drawn(row.number, next))
    }

    fn are_sound_rows(&self, catalogue: &Catalogue, yard: &Yard) -> bool
        ensures { IsTrue result ↔ EachRow (IsSoundBuild
            (parts_of catalogue.now) (stock_of yard.now)) (builds_now self.now) }
    {
        !self.rows().any(|row| !is_sound_build(catalogue, yard, row))
    }

    /// Whether the item is no output, or is of the part of a build that is open, and has a serial where that part
    /// has a tracked line. An error is one of memory.
    fn is_right_placed(
        &self,
        catalogue: &Catalogue,
        boms: &Boms,
        item: &Item,
    ) -> Result<bool, AllocError>
        ensures { IfOk result (λ right. right ≡ is_right_placed
            (parts_of catalogue.now) (bills_of boms.now) (builds_now self.now) item.now) }
    {
        let Place::Output(number) = item.place else {
            return Ok(true);
        };
        let Some(build) = self.build(number) else {
            return Ok(false);
        };
        if !build.state.is_open() || item.part != build.part {
            return Ok(false);
        }
        if item.lot.serial.is_some() {
            return Ok(true);
        }
        let tracked = has_tracked(catalogue, boms, item.part)?;
        Ok(!tracked)
    }

    fn are_right_placed(
        &self,
        catalogue: &Catalogue,
        boms: &Boms,
        items: &[&Item],
    ) -> Result<bool, AllocError>
        ensures { IfOk result (λ right. IsTrue right ↔ All (λ x. is_right_placed
            (parts_of catalogue.now) (bills_of boms.now) (builds_now self.now) x ≡ true)
            (map (λ x. x.now) items.now)) }
    {
        for item in items {
            let right = self.is_right_placed(catalogue, boms, item)?;
            if !right {
                return Ok(false);
            }
        }
        Ok(true)
    }

    fn are_sound_outputs(
        &self,
        catalogue: &Catalogue,
        boms: &Boms,
        yard: &Yard,
    ) -> Result<bool, AllocError>
        ensures { IfOk result (λ sound. IsTrue sound ↔ EachRow (λ x. is_right_placed
            (parts_of catalogue.now) (bills_of boms.now) (builds_now self.now) x ≡ true)
            (stock_of yard.now).items) }
    {
        let items = rows_in_order(yard.items())?;
        self.are_right_placed(catalogue, boms, items.as_slice())
    }

    /// Whether a row for a build is of one that is open, an output that is named is one of it, and the line is there,
    /// fits the item for the build, and needs what is allocated for it.
    fn is_right_meant(
        &self,
        catalogue: &Catalogue,
        boms: &Boms,
        allocations: &Allocations,
        yard: &Yard,
        row: &Allocation,
    ) -> bool
        ensures { result ≡ is_right_meant (parts_of catalogue.now) (bills_of boms.now)
            (builds_now self.now) (spent_now self.now) (allocations_now allocations.now)
            (stock_of yard.now) row.now }
    {
        let Purpose::Build {
            build,
            line,
            output,
        } = &row.purpose
        else {
            return true;
        };
        let (build, line, output) = (*build, *line, number_of(output));
        let Some(target) = self.build(build) else {
            return false;
        };
        let Some(bill_line) = boms.line(line) else {
            return false;
        };
        let part = part_at(yard, row.item);
        target.state.is_open()
            && is_own_output(yard, build, output)
            && is_suited(catalogue, boms, target.part, output, part, bill_line)
            && allocations.allocated_for_line(build, line, output)
                <= needed(self, yard, bill_line, target, output)
    }

    fn are_right_meant(
        &self,
        catalogue: &Catalogue,
        boms: &Boms,
        allocations: &Allocations,
        yard: &Yard,
    ) -> bool
        ensures { let t = allocations_now allocations.now in
            IsTrue result ↔ EachRow (λ a. is_right_meant (parts_of catalogue.now)
            (bills_of boms.now) (builds_now self.now) (spent_now self.now) t
            (stock_of yard.now) a ≡ true) t }
    {
        !allocations.rows().any(|row| !self.is_right_meant(catalogue, boms, allocations, yard, row))
    }

    fn are_drawn_spent(&self, next: Id) -> bool
        ensures { IsTrue result ↔ StandRight (λ x. x.number) next (spent_now self.now) }
    {
        !self.spent().any(|row| !is_drawn(row.number, next))
    }

    /// Whether the build is open, something was spent, and the line is an untracked one of the build's part that wants
    /// so much of it.
    fn is_sound_spent(&self, catalogue: &Catalogue, boms: &Boms, row: &Spent) -> bool
        ensures { result ≡ is_sound_spent (parts_of catalogue.now) (bills_of boms.now)
            (builds_now self.now) row.now }
    {
        let Some(build) = self.build(row.build) else {
            return false;
        };
        let Some(bill_line) = boms.line(row.line) else {
            return false;
        };
        build.state.is_open()
            && row.quantity != 0
            && is_untracked_of(catalogue, build.part, bill_line)
            && u128::from(row.quantity) <= wanted_whole(bill_line, build)
    }

    fn are_sound_spent(&self, catalogue: &Catalogue, boms: &Boms) -> bool
        ensures { IsTrue result ↔ EachRow (λ x. is_sound_spent (parts_of catalogue.now)
            (bills_of boms.now) (builds_now self.now) x ≡ true) (spent_now self.now) }
    {
        !self
            .spent()
            .any(|row| !self.is_sound_spent(catalogue, boms, row))
    }

    /// Whether no other row is of the same line of the same build.
    fn is_spent_once(&self, row: &Spent) -> bool
        ensures { result ≡ is_spent_once (spent_now self.now) row.now }
    {
        !self.is_again(row)
    }

    fn are_spent_once(&self) -> bool
        ensures { let t = spent_now self.now in
            IsTrue result ↔ EachRow (λ x. is_spent_once t x ≡ true) t }
    {
        !self.spent().any(|row| !self.is_spent_once(row))
    }

    /// Whether what was spent is sound: each row is of an open build and an untracked line of its part, once for each of
    /// these, and of no more than the line wants.
    fn is_sound_spending(&self, catalogue: &Catalogue, boms: &Boms, floor: &Floor) -> bool
        ensures { IsTrue result ↔ IsSoundSpending (parts_of catalogue.now) (bills_of boms.now)
            (build_books self.now floor.now) }
    {
        if !self.are_drawn_spent(floor.stock.counter.next()) {
            return false;
        }
        if !self.are_sound_spent(catalogue, boms) {
            return false;
        }
        self.are_spent_once()
    }

    /// Whether the builds are sound beside the catalogue, the bills, the stock, the allocations and the numbers that
    /// were drawn. An error is one of memory.
    pub fn is_sound(
        &self,
        catalogue: &Catalogue,
        boms: &Boms,
        floor: &Floor,
    ) -> Result<bool, AllocError>
        ensures { IfOk result (λ sound. IsTrue sound
            ↔ AreSoundBuilds (parts_of catalogue.now) (bills_of boms.now)
            (build_books self.now floor.now)) }
    {
        let yard = &floor.stock.yard;
        if !self.are_drawn(floor.stock.counter.next()) {
            return Ok(false);
        }
        if !self.are_sound_rows(catalogue, yard) {
            return Ok(false);
        }
        if !self.are_right_meant(catalogue, boms, &floor.allocations, yard) {
            return Ok(false);
        }
        if !self.is_sound_spending(catalogue, boms, floor) {
            return Ok(false);
        }
        self.are_sound_outputs(catalogue, boms, yard)
    }
}
