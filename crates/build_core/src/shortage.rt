//! What an open build still wants of the lines of its bill.
ghost use Rattle.std.specs.Prelude.{◌≡◌, filter, IfOk, map, not};
ghost use Rattle.part_core.specs.CatalogueView.{parts_of};
ghost use Rattle.bom_core.specs.BomsView.{bills_of};
ghost use Rattle.alloc_core.specs.AllocationsView.{allocations_now};
ghost use Rattle.build_core.specs.BuildsView.{builds_now, spent_now};
ghost use Rattle.build_core.specs.Shortage.{required_still, shortage_of, shortages, shortages_of};

use crate::build::Build;
use crate::builds::Builds;
use crate::needs::{is_tracked, needed_whole};
use alloc_core::Allocations;
use bom_core::{Boms, Line};
use part_core::{Catalogue, Id};
use std::alloc::{AllocError, Global};

/// What a build still wants of a line.
#[derive(Clone, Copy, Debug)]
pub struct Shortage {
    pub line: Id,
    pub component: Id,
    /// For the whole build less what was spent on the line, or, of a tracked line, for what isn't done of it.
    pub required: u128,
    /// For the line, whatever the output.
    pub allocated: u128,
    /// What is required and isn't allocated.
    pub missing: u128,
}

/// What is required of a line: of a tracked one its quantity for each unit that isn't done, of any other its
/// quantity for each unit of the build, less what was spent on it.
fn required_still(catalogue: &Catalogue, builds: &Builds, line: &Line, build: &Build) -> u128
    ensures { result ≡ required_still (parts_of catalogue.now) line.now build.now
        (spent_now builds.now) }
{
    if is_tracked(catalogue, line) {
        let units = build.quantity.saturating_sub(build.done);
        return u128::from(line.quantity) * u128::from(units);
    }
    needed_whole(builds, line, build)
}

/// The row of a line.
fn shortage_of(
    catalogue: &Catalogue,
    builds: &Builds,
    allocations: &Allocations,
    build: &Build,
    line: &Line,
) -> Shortage
    ensures { result ≡ shortage_of (parts_of catalogue.now) build.now (spent_now builds.now)
        (allocations_now allocations.now) line.now }
{
    let required = required_still(catalogue, builds, line, build);
    let allocated = allocations.allocated_for_build_line(build.number, line.number);
    Shortage {
        line: line.number,
        component: line.component,
        required,
        allocated,
        missing: required.saturating_sub(allocated),
    }
}

/// The rows of those of the lines that aren't consumable.
fn rows_of(
    alloc: Global,
    catalogue: &Catalogue,
    builds: &Builds,
    allocations: &Allocations,
    build: &Build,
    lines: &[&Line],
) -> Result<Vec<Shortage>, AllocError>
    ensures { IfOk result (λ rows. rows.items ≡ map (λ l. shortage_of (parts_of catalogue.now)
        build.now (spent_now builds.now) (allocations_now allocations.now) l.now)
        (filter (λ l. not l.now.flags.consumable) lines.now)) }
{
    lines
        .iter()
        .filter(|line| !line.flags.consumable)
        .map(|line| shortage_of(catalogue, builds, allocations, build, line))
        .collect(alloc)
}

/// The rows of a build's bill.
fn shortages_of(
    alloc: Global,
    catalogue: &Catalogue,
    boms: &Boms,
    builds: &Builds,
    allocations: &Allocations,
    build: &Build,
) -> Result<Vec<Shortage>, AllocError>
    ensures { IfOk result (λ rows. rows.items ≡ shortages_of (parts_of catalogue.now)
        (bills_of boms.now) build.now (spent_now builds.now) (allocations_now allocations.now)) }
{
    let lines = boms.effective(catalogue, build.part)?;
    rows_of(
        alloc,
        catalogue,
        builds,
        allocations,
        build,
        lines.as_slice(),
    )
}

/// What an open build still wants of each line of its bill that isn't consumable, in order of number: what is
/// required, which for a tracked line is its quantity for each unit that isn't done yet, and for any other its
/// quantity for each unit of the build, less what was spent on it; what is allocated for the line, whatever the output; and what of that
/// is missing. There are no rows where there is no such build, or it is cancelled or complete. An error is one
/// of memory.
pub fn shortages(
    alloc: Global,
    catalogue: &Catalogue,
    boms: &Boms,
    builds: &Builds,
    allocations: &Allocations,
    build: Id,
) -> Result<Vec<Shortage>, AllocError>
    ensures { IfOk result (λ rows. rows.items
        ≡ shortages build (parts_of catalogue.now) (bills_of boms.now)
        (builds_now builds.now) (spent_now builds.now) (allocations_now allocations.now)) }
{
    let Some(row) = builds.build(build) else {
        return Ok(Vec::new(alloc));
    };
    if !row.state.is_open() {
        return Ok(Vec::new(alloc));
    }
    shortages_of(alloc, catalogue, boms, builds, allocations, row)
}
