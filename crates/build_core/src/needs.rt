//! What the lines of a build's bill need, and what is missing for them.
ghost use Rattle.std.specs.Prelude.{◌≡◌, ◌*◌, ◌∷◌, [], IfOk, map};
ghost use Rattle.std.specs.FinMap as table;
ghost use Rattle.std.specs.List.{list_any};
ghost use Rattle.part_core.specs.CatalogueView.{parts_of};
ghost use Rattle.bom_core.specs.Bills.{effective, is_effective};
ghost use Rattle.bom_core.specs.BomsView.{bills_of};
ghost use Rattle.alloc_core.specs.AllocationsView.{allocations_now};
ghost use Rattle.yard_core.specs.YardView.{stock_of};
ghost use Rattle.build_core.specs.BuildsView.{builds_now, spent_now};
ghost use Rattle.build_core.specs.BuildBooks.{build_books};
ghost use Rattle.build_core.specs.Needs.{has_tracked, is_lacking, is_named_right, is_needed_by};
ghost use Rattle.build_core.specs.Needs.{is_suited, is_tracked, is_untracked, is_untracked_of, lacks_for, line_in};
ghost use Rattle.build_core.specs.Needs.{needed_whole, required, required_of, wanted_whole};

use crate::build::Build;
use crate::builds::Builds;
use alloc_core::Allocations;
use bom_core::{Boms, Line};
use part_core::{Catalogue, Id, Quantity};
use std::alloc::AllocError;
use stock_core::{Floor, quantity_at};
use yard_core::Yard;

/// Whether the line is counted, and its component trackable.
pub(crate) fn is_tracked(catalogue: &Catalogue, line: &Line) -> bool
    ensures { result ≡ is_tracked (parts_of catalogue.now) line.now }
{
    catalogue.is_trackable(line.component) && !line.flags.consumable
}

/// Whether the line is counted, and its component not trackable.
pub(crate) fn is_untracked(catalogue: &Catalogue, line: &Line) -> bool
    ensures { result ≡ is_untracked (parts_of catalogue.now) line.now }
{
    !catalogue.is_trackable(line.component) && !line.flags.consumable
}

/// Whether one of the lines is tracked.
fn any_tracked(catalogue: &Catalogue, lines: &[&Line]) -> bool
    ensures { result
        ≡ list_any (is_tracked (parts_of catalogue.now)) (map (λ l. l.now) lines.now) }
{
    lines.iter().any(|line| is_tracked(catalogue, line))
}

/// Whether the part has a tracked line. An error is one of memory.
pub(crate) fn has_tracked(catalogue: &Catalogue, boms: &Boms, part: Id) -> Result<bool, AllocError>
    ensures { IfOk result (λ has.
        has ≡ has_tracked (parts_of catalogue.now) (bills_of boms.now) part) }
{
    let lines = boms.effective(catalogue, part)?;
    Ok(any_tracked(catalogue, lines.as_slice()))
}

/// What that many units take, if each takes this quantity.
fn times(quantity: Quantity, units: Quantity) -> u128
    ensures { result ≡ quantity * units }
{
    u128::from(quantity) * u128::from(units)
}

/// What a line wants of the whole build.
pub(crate) fn wanted_whole(line: &Line, build: &Build) -> u128
    ensures { result ≡ wanted_whole line.now build.now }
{
    times(line.quantity, build.quantity)
}

/// What a line needs for the whole build: what it wants, less what was spent on it.
pub(crate) fn needed_whole(builds: &Builds, line: &Line, build: &Build) -> u128
    ensures { result ≡ needed_whole line.now build.now (spent_now builds.now) }
{
    wanted_whole(line, build).saturating_sub(builds.spent_on(build.number, line.number))
}

/// What a line needs: for the whole build less what was spent on it, or for the output where one is named.
pub(crate) fn needed(
    builds: &Builds,
    yard: &Yard,
    line: &Line,
    build: &Build,
    output: Option<Id>,
) -> u128
    ensures { result ≡ required line.now build.now output (spent_now builds.now)
        (stock_of yard.now) }
{
    match output {
        None => needed_whole(builds, line, build),
        Some(output) => times(line.quantity, quantity_at(yard, output)),
    }
}

/// What a line of the bill of a build's part needs: for the whole build less what was spent on it, or for the output
/// where one is named, as it is where the line is tracked. It is meant for lines that aren't consumable. It is 0 where there is no such
/// build or no such line, and it takes no memory.
pub fn required(
    boms: &Boms,
    builds: &Builds,
    yard: &Yard,
    build: Id,
    line: Id,
    output: Option<Id>,
) -> u128
    ensures { result ≡ required_of (line_in line (bills_of boms.now))
        (table.get (builds_now builds.now) (build ∷ [])) output (spent_now builds.now)
        (stock_of yard.now) }
{
    let Some(row) = boms.line(line) else {
        return 0;
    };
    match builds.build(build) {
        Some(build) => needed(builds, yard, row, build, output),
        None => 0,
    }
}

/// Whether the line is needed there: of the output that is named, or else of the whole build.
fn is_needed_by(catalogue: &Catalogue, line: &Line, output: Option<Id>) -> bool
    ensures { result ≡ is_needed_by (parts_of catalogue.now) output line.now }
{
    match output {
        None => is_untracked(catalogue, line),
        Some(_) => is_tracked(catalogue, line),
    }
}

/// Whether the line is needed there, isn't optional, and less is allocated for it than it needs.
fn is_lacking(
    catalogue: &Catalogue,
    builds: &Builds,
    allocations: &Allocations,
    yard: &Yard,
    line: &Line,
    build: &Build,
    output: Option<Id>,
) -> bool
    ensures { result ≡ is_lacking (parts_of catalogue.now) build.now output
        (spent_now builds.now) (allocations_now allocations.now) (stock_of yard.now) line.now }
{
    is_needed_by(catalogue, line, output)
        && !line.flags.optional
        && allocations.allocated_for_line(build.number, line.number, output)
            < needed(builds, yard, line, build, output)
}

/// Whether one of the lines lacks something for the output that is named, or else for the whole build.
fn any_lacking(
    catalogue: &Catalogue,
    builds: &Builds,
    allocations: &Allocations,
    yard: &Yard,
    lines: &[&Line],
    build: &Build,
    output: Option<Id>,
) -> bool
    ensures { result ≡ list_any (is_lacking (parts_of catalogue.now) build.now output
        (spent_now builds.now) (allocations_now allocations.now) (stock_of yard.now))
        (map (λ l. l.now) lines.now) }
{
    lines.iter().any(|line| is_lacking(catalogue, builds, allocations, yard, line, build, output))
}

/// Whether a line that isn't optional is allocated below its need: a tracked one below its need for the output that is
/// named, or, where none is, an untracked one below its need for the whole build. An error is one of memory.
pub(crate) fn lacks_for(
    catalogue: &Catalogue,
    boms: &Boms,
    builds: &Builds,
    floor: &Floor,
    build: &Build,
    output: Option<Id>,
) -> Result<bool, AllocError>
    ensures { IfOk result (λ lacks. lacks ≡ lacks_for
        (parts_of catalogue.now) (bills_of boms.now) build.now output
        (build_books builds.now floor.now)) }
{
    let lines = boms.effective(catalogue, build.part)?;
    Ok(any_lacking(
        catalogue,
        builds,
        &floor.allocations,
        &floor.stock.yard,
        lines.as_slice(),
        build,
        output,
    ))
}

/// Whether the line is the part's own or an inherited one of a template above it.
fn is_effective(catalogue: &Catalogue, part: Id, line: &Line) -> bool
    ensures { result ≡ is_effective (parts_of catalogue.now) part line.now }
{
    line.assembly == part || (line.flags.inherited && catalogue.descends(part, line.assembly))
}

/// Whether the line is the part's, and is untracked.
pub(crate) fn is_untracked_of(catalogue: &Catalogue, part: Id, line: &Line) -> bool
    ensures { result ≡ is_untracked_of (parts_of catalogue.now) part line.now }
{
    is_effective(catalogue, part, line) && is_untracked(catalogue, line)
}

/// Whether an output is named exactly where the line is tracked.
fn is_named_right(catalogue: &Catalogue, line: &Line, output: Option<Id>) -> bool
    ensures { result ≡ is_named_right (parts_of catalogue.now) line.now output }
{
    match output {
        None => !is_tracked(catalogue, line),
        Some(_) => is_tracked(catalogue, line),
    }
}

/// Whether the line is the part's, is counted, names an output exactly where it is tracked, and fits the
/// item's part.
pub(crate) fn is_suited(
    catalogue: &Catalogue,
    boms: &Boms,
    part: Id,
    output: Option<Id>,
    item_part: Id,
    line: &Line,
) -> bool
    ensures { result ≡ is_suited (parts_of catalogue.now) (bills_of boms.now) part output
        item_part line.now }
{
    is_effective(catalogue, part, line)
        && !line.flags.consumable
        && is_named_right(catalogue, line, output)
        && boms.fits(catalogue, line, item_part)
}
