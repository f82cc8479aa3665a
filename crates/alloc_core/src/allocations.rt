//! All allocations.
ghost use Rattle.std.specs.Prelude.{◌≡◌, ◌∷◌, [], filter, IfOk, map, OnErr, OnOk, option_copied};
ghost use Rattle.std.specs.FinMap as table;
ghost use Rattle.bom_core.specs.Lines.{removed_all};
ghost use Rattle.sheet_core.specs.Filled.{StandUnderKeys};
ghost use Rattle.sheet_core.specs.Sheet.{now_of};
ghost use Rattle.yard_core.specs.YardView.{stock_of};
ghost use Rattle.alloc_core.specs.Allocations.{amount_where, is_for_build_line};

use crate::allocation::{Allocation, item_key};
use crate::allocation_rows::AllocationRows;
use crate::purpose::{Owner, build_key, build_line_key, order_key, output_key};
use crate::share::Share;
use part_core::{Id, Quantity, Seed, Sheet};
use std::alloc::{AllocError, Global};
use yard_core::Yard;

/// What an allocation adds to the sum of a line of a build, whatever the output.
fn amount_for_build_line(build: Id, line: Id, allocation: &Allocation) -> u64
    ensures { result ≡ amount_where (λ a. is_for_build_line build line a.purpose) allocation.now }
{
    if allocation.purpose.is_for_build_line(build, line) {
        allocation.quantity
    } else {
        0
    }
}

/// The numbers of the rows.
fn numbers_of(alloc: Global, rows: &[&Allocation]) -> Result<Vec<Id>, AllocError>
    ensures { IfOk result (λ numbers. numbers.items ≡ map (λ a. a.now.number) rows.now) }
{
    rows.iter().map(|row| row.number).collect(alloc)
}

/// Takes out the rows of these numbers. An error is one of memory, and may have left some of them.
fn remove_all(rows: &mut AllocationRows, numbers: &[Id]) -> Result<(), AllocError>
    ensures removed { OnOk result (now_of rows.new ≡ removed_all numbers.now (now_of rows.old)) }
    ensures before { rows.new.before ≡ rows.old.before }
{
    for number in numbers {
        rows.remove(*number)?;
    }
    Ok(())
}

/// The rows of allocations, found by item, by order or build, by line of a sale or of a build, and by
/// output.
pub struct Allocations {
    rows: AllocationRows,
    alloc: Global,
}

// It is written out, so that a caller does not prove again how each part is dropped.
impl Drop for Allocations {
    fn drop(self) {
        let Allocations { rows: _, alloc: _ } = self;
    }
}

impl Allocations {
    ghost use Rattle.alloc_core.specs.Allocations.{allocated, allocated_for_build_line, allocated_for_line};
    ghost use Rattle.alloc_core.specs.Allocations.{allocated_for_sale_line, allocation_in, allocations_of};
    ghost use Rattle.alloc_core.specs.Allocations.{free, has_allocations, is_above_free, released_for};
    ghost use Rattle.alloc_core.specs.AllocationsView.{allocations_before, allocations_from, allocations_now};
    ghost use Rattle.alloc_core.specs.Release.{release};

    /// No allocation.
    pub fn new(alloc: Global, seed: Seed) -> Self
        ensures now { allocations_now result ≡ table.empty }
        ensures before { allocations_before result ≡ table.empty }
    {
        Allocations {
            rows: AllocationRows::new(alloc, seed),
            alloc,
        }
    }

    /// The allocations of these rows, now and before. An error is one of memory.
    pub fn assemble(alloc: Global, seed: Seed, rows: Vec<Allocation>) -> Result<Self, AllocError>
        ensures now { IfOk result (λ all. allocations_now all ≡ allocations_from rows.items) }
        ensures before { IfOk result (λ all. allocations_before all ≡ allocations_from rows.items) }
    {
        let rows = AllocationRows::filled(alloc, seed, rows)?;
        Ok(Allocations { rows, alloc })
    }

    /// The allocations, as a sheet.
    pub fn rows(&self) -> &Sheet<Allocation>
        ensures value { result.now ≡ self.now.rows }
        ensures own { StandUnderKeys (λ a. a.number ∷ []) (allocations_now self.now) }
    {
        self.rows.rows().rows()
    }

    /// The allocation of that number.
    pub fn allocation(&self, number: Id) -> Option<&Allocation>
        ensures { option_copied result ≡ allocation_in number (allocations_now self.now) }
    {
        self.rows.rows().get(number)
    }

    /// How much of an item is allocated. It takes one look-up, however many allocations the item has, and no memory.
    pub fn allocated(&self, item: Id) -> u128
        ensures { result ≡ allocated item (allocations_now self.now) }
    {
        self.rows.sum(Share::Item(item))
    }

    /// How much is allocated for a line of a sale. It takes one look-up, and no memory.
    pub fn allocated_for_sale_line(&self, line: Id) -> u128
        ensures { result ≡ allocated_for_sale_line line (allocations_now self.now) }
    {
        self.rows.sum(Share::SaleLine(line))
    }

    /// How much is allocated for a line of a build, whatever the output. It looks at that line's allocations alone, and
    /// takes no memory.
    pub fn allocated_for_build_line(&self, build: Id, line: Id) -> u128
        ensures { result ≡ allocated_for_build_line build line (allocations_now self.now) }
    {
        self.rows
            .rows()
            .sum_under(build_line_key(build, line), |row| {
                amount_for_build_line(build, line, row)
            })
    }

    /// How much is allocated for a line of a build and that output, or for no output where none is named. It takes one
    /// look-up, and no memory.
    pub fn allocated_for_line(&self, build: Id, line: Id, output: Option<Id>) -> u128
        ensures { result ≡ allocated_for_line build line output (allocations_now self.now) }
    {
        self.rows.sum(Share::BuildLine(build, line, output))
    }

    /// Whether some of the item is allocated. It looks at the item's allocations alone, and takes no memory.
    pub fn has_allocations(&self, item: Id) -> bool
        ensures { result ≡ has_allocations item (allocations_now self.now) }
    {
        self.rows
            .rows()
            .any_under(item_key(item), |row| row.item == item)
    }

    /// What is free of an item: what it has, less what is allocated of it. An item that isn't there has
    /// nothing.
    pub fn free(&self, yard: &Yard, item: Id) -> u128
        ensures { result ≡ free item (allocations_now self.now) (stock_of yard.now) }
    {
        let has = match yard.item(item) {
            Some(row) => row.quantity,
            None => 0,
        };
        u128::from(has).saturating_sub(self.allocated(item))
    }

    /// Whether the amount is more than what is free of the item.
    pub fn is_above_free(&self, yard: &Yard, item: Id, quantity: Quantity) -> bool
        ensures { result
            ≡ is_above_free item quantity (allocations_now self.now) (stock_of yard.now) }
    {
        self.free(yard, item) < u128::from(quantity)
    }

    /// The owner's allocations, in order of number. It looks at these alone. An error is one of memory.
    pub fn owned_by(&self, owner: Owner) -> Result<Vec<&Allocation>, AllocError>
        ensures { IfOk result (λ rows. map (λ r. r.now) rows.items
            ≡ allocations_of owner (allocations_now self.now)) }
    {
        match owner {
            Owner::Order(order) => self
                .rows
                .rows()
                .select_under(order_key(order), |row| row.purpose.is_for_order(order)),
            Owner::Build(build) => self
                .rows
                .rows()
                .select_under(build_key(build), |row| row.purpose.is_for_build(build)),
            Owner::Output(output) => self.rows.rows().select_under(
                output_key(output),
                |row| row.purpose.is_for_output(output),
            ),
        }
    }

    /// An allocation comes, in place of one that had its number. An error is one of memory.
    pub fn allocate(&mut self, row: Allocation) -> Result<(), AllocError>
        ensures ok { OnOk result (allocations_now self.new
            ≡ table.insert (allocations_now self.old) (row.number ∷ []) row) }
        ensures err { OnErr result (self.new ≡ self.old) }
        ensures before { allocations_before self.new ≡ allocations_before self.old }
    {
        self.rows.put(row)
    }

    /// The allocation of that number goes, if there is one. An error is one of memory.
    pub fn release(&mut self, number: Id) -> Result<(), AllocError>
        ensures ok { OnOk result (allocations_now self.new
            ≡ release number (allocations_now self.old)) }
        ensures err { OnErr result (self.new ≡ self.old) }
        ensures before { allocations_before self.new ≡ allocations_before self.old }
    {
        self.rows.remove(number)
    }

    /// The owner's allocations go, and no other. An error is one of memory, and may have left some of them.
    pub fn release_for(&mut self, owner: Owner) -> Result<(), AllocError>
        ensures ok { OnOk result (allocations_now self.new
            ≡ released_for owner (allocations_now self.old)) }
        ensures before { allocations_before self.new ≡ allocations_before self.old }
    {
        let numbers = self.numbers_for(owner)?;
        remove_all(&mut self.rows, numbers.as_slice())
    }

    /// The numbers of the owner's allocations, by which they go.
    fn numbers_for(&self, owner: Owner) -> Result<Vec<Id>, AllocError>
        ensures { IfOk result (λ numbers. removed_all numbers.items (allocations_now self.now)
            ≡ released_for owner (allocations_now self.now)) }
    {
        let _ = self.rows();
        let rows = self.owned_by(owner)?;
        numbers_of(self.alloc, rows.as_slice())
    }

    /// Makes the changes final: the rows now become the rows before.
    pub fn keep(&mut self)
        ensures now { allocations_now self.new ≡ allocations_now self.old }
        ensures before { allocations_before self.new ≡ allocations_now self.old }
    {
        self.rows.keep();
    }

    /// Takes the changes back: the rows are again those before.
    pub fn back(&mut self)
        ensures now { allocations_now self.new ≡ allocations_before self.old }
        ensures before { allocations_before self.new ≡ allocations_before self.old }
    {
        self.rows.back();
    }
}
