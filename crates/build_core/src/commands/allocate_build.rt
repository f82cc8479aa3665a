//! An amount of an item is meant for a line of a build.
ghost use Rattle.std.specs.Prelude.{◌≡◌, ◌+◌, ◌≤◌, ◌∷◌, [], IfSome, OnOk, None, false, nat_lt};
ghost use Rattle.std.specs.FinMap as table;
ghost use Rattle.part_core.specs.CatalogueView.{parts_of};
ghost use Rattle.word_core.specs.Checks.{first};
ghost use Rattle.word_core.specs.Counter.{drawn, lacks, numbering_before, numbering_of};
ghost use Rattle.bom_core.specs.BomsView.{bills_of};
ghost use Rattle.alloc_core.specs.AllocationsView.{allocations_before, allocations_now};
ghost use Rattle.alloc_core.specs.Allotting.{new_allocation};
ghost use Rattle.alloc_core.specs.declared.purpose.Purpose.TheVariants as purpose;
ghost use Rattle.yard_core.specs.YardView.{stock_of};
ghost use Rattle.build_core.specs.AllocateBuild.{allocate_build, allocate_build_checks};
ghost use Rattle.build_core.specs.AllocateBuild.{is_no_named, is_other_output};
ghost use Rattle.build_core.specs.BuildBooks.{AreSoundSomehow, Does, build_books, build_books_before};

use crate::builds::Builds;
use crate::needs::{is_suited, needed};
use crate::outputs::is_output_of;
use alloc_core::{Allocation, Allocations, OutputNumber, Purpose};
use bom_core::Boms;
use part_core::{Answer, Catalogue, CoreFault, Counter, Id, Quantity, Refusal, is_bad_quantity};
use std::alloc::AllocError;
use stock_core::{Floor, finish, is_available, is_loose, is_no_item, part_at};
use yard_core::Yard;

/// What is asked for: that an amount of an item is meant for a line of a build, and for which of its outputs where the
/// line is tracked.
#[derive(Clone, Copy)]
pub struct Wanted {
    pub build: Id,
    pub line: Id,
    pub item: Id,
    pub quantity: Quantity,
    pub output: Option<Id>,
}

/// Whether an output is named that isn't there.
fn is_no_named(yard: &Yard, output: Option<Id>) -> bool
    ensures { result ≡ is_no_named output (stock_of yard.now) }
{
    match output {
        None => false,
        Some(output) => is_no_item(yard, output),
    }
}

/// Whether an output is named that isn't one of the build's.
fn is_other_output(yard: &Yard, build: Id, output: Option<Id>) -> bool
    ensures { result ≡ is_other_output build output (stock_of yard.now) }
{
    match output {
        None => false,
        Some(output) => !is_output_of(yard, build, output),
    }
}

/// Whether that much more beside what is allocated is above the most.
fn is_over(most: u128, allocated: u128, more: Quantity) -> bool
    ensures { result ≡ nat_lt most (allocated + more) }
{
    allocated > most || u128::from(more) > most - allocated
}

/// Why nothing is allocated.
fn allocate_build_refusal(
    catalogue: &Catalogue,
    boms: &Boms,
    builds: &Builds,
    floor: &Floor,
    wanted: Wanted,
) -> Option<Refusal>
    ensures { result ≡ first (allocate_build_checks wanted (parts_of catalogue.now)
        (bills_of boms.now) (build_books builds.now floor.now)) }
{
    let Wanted {
        build,
        line,
        item,
        quantity,
        output,
    } = wanted;
    let yard = &floor.stock.yard;
    let Some(row) = builds.build(build) else {
        return Some(Refusal::NoSuch);
    };
    let Some(bill_line) = boms.line(line) else {
        return Some(Refusal::NoSuch);
    };
    if is_no_item(yard, item) || is_no_named(yard, output) {
        return Some(Refusal::NoSuch);
    }
    if is_bad_quantity(quantity) {
        return Some(Refusal::BadNumber);
    }
    if !row.state.may_prepare() || is_other_output(yard, build, output) {
        return Some(Refusal::WrongState);
    }
    if !is_suited(
        catalogue,
        boms,
        row.part,
        output,
        part_at(yard, item),
        bill_line,
    ) {
        return Some(Refusal::Unfit);
    }
    if !is_loose(yard, item) {
        return Some(Refusal::NotLoose);
    }
    if !is_available(yard, item) {
        return Some(Refusal::Unavailable);
    }
    if floor.allocations.is_above_free(yard, item, quantity) {
        return Some(Refusal::Allocated);
    }
    let allocated = floor.allocations.allocated_for_line(build, line, output);
    if is_over(
        needed(builds, yard, bill_line, row, output),
        allocated,
        quantity,
    ) {
        return Some(Refusal::OverNeed);
    }
    if floor.stock.counter.lacks(1) {
        return Some(Refusal::Full);
    }
    None
}

/// The number of an output that is named.
fn output_number(output: Option<Id>) -> Option<OutputNumber>
    requires { IfSome output (λ number. 1 ≤ number) }
    ensures { result ≡ output }
{
    match output {
        None => None,
        Some(number) => OutputNumber::new(number),
    }
}

/// Puts the allocation, under the next number.
fn put_meant(
    allocations: &mut Allocations,
    counter: &mut Counter,
    wanted: Wanted,
) -> Result<(), AllocError>
    requires room { lacks 1 (numbering_of counter.old) ≡ false }
    requires named { IfSome wanted.output (λ number. 1 ≤ number) }
    ensures allocations { let n = counter.old.next in OnOk result (allocations_now allocations.new
        ≡ table.insert (allocations_now allocations.old) (n ∷ [])
        (new_allocation n (purpose.Build wanted.build wanted.line wanted.output)
        wanted.item wanted.quantity)) }
    ensures counter { OnOk result (numbering_of counter.new ≡ drawn 1 (numbering_of counter.old)) }
    ensures allocations_before { allocations_before allocations.new
        ≡ allocations_before allocations.old }
    ensures counter_before { numbering_before counter.new ≡ numbering_before counter.old }
{
    let row = Allocation {
        number: counter.next(),
        item: wanted.item,
        quantity: wanted.quantity,
        purpose: Purpose::Build {
            build: wanted.build,
            line: wanted.line,
            output: output_number(wanted.output),
        },
    };
    allocations.allocate(row)?;
    let _ = counter.draw();
    Ok(())
}

/// Allocates an amount of a loose item for a line of a build that is pending or in production, for one of
/// its outputs where the line is tracked, under the next number. `NoSuch` where the build, the line, the
/// item or the output isn't there, `BadNumber` for a quantity out of its range, `WrongState` where the build
/// is in another state or the output isn't at the build's, `Unfit` where the line isn't effective for the
/// build's part, is consumable, is tracked without an output or untracked with one, or doesn't fit the
/// item's part, `NotLoose` and `Unavailable` (the status isn't allocatable) as it is, `Allocated` where less
/// of it is free, `OverNeed` where the line doesn't need so much, and `Full` where there is no number left.
pub fn allocate_build(
    catalogue: &Catalogue,
    boms: &Boms,
    builds: &mut Builds,
    floor: &mut Floor,
    wanted: Wanted,
) -> Result<Answer, CoreFault>
    requires nothing_pending { build_books_before builds.old floor.old
        ≡ build_books builds.old floor.old }
    requires sound { AreSoundSomehow (build_books builds.old floor.old) }
    ensures does { let b = build_books builds.old floor.old in
        Does (allocate_build_checks wanted (parts_of catalogue.now) (bills_of boms.now) b)
        (allocate_build wanted b) b result
        (build_books builds.new floor.new) }
    ensures before { build_books_before builds.new floor.new
        ≡ build_books_before builds.old floor.old }
{
    let refusal = allocate_build_refusal(catalogue, boms, builds, floor, wanted);
    if let Some(refusal) = refusal {
        return Err(CoreFault::Refused(refusal));
    }
    let made = put_meant(&mut floor.allocations, &mut floor.stock.counter, wanted);
    finish(builds, floor, made)
}
