//! The rows of allocations, with what they add up to.
//!
//! The sums stand beside the rows and change with them, so that a sum costs one look-up. Where memory runs out amid
//! such a change the rows stay as they were, and the sums are `stale`: they are made from the rows, until `back`
//! brings those of before.
ghost use Rattle.std.specs.Prelude.{◌≡◌, ◌∷◌, [], filter, IfOk, IfSome, map, OnErr, OnOk, option_copied};
ghost use Rattle.std.specs.FinMap as table;
ghost use Rattle.sheet_core.specs.Filled.{StandUnderKeys};
ghost use Rattle.sheet_core.specs.Sheet.{now_of};
ghost use Rattle.alloc_core.specs.Allocations.{amount_where, is_for_line, is_for_sale_line, is_of_item};
ghost use Rattle.alloc_core.specs.AllocationsView.{allocations_from};
ghost use Rattle.alloc_core.specs.ShareSums.{share_in};

use crate::allocation::{Allocation, item_key};
use crate::purpose::{build_line_key, output_key, sale_line_key};
use crate::share::Share;
use crate::share_sums::{Sum, count_in, count_out, sum_at};
use part_core::{Id, IndexedSheet, Seed, Sheet};
use std::alloc::{AllocError, Global};
use std::marker::Model;

/// What an allocation adds to the sum of an item.
fn amount_of(item: Id, allocation: &Allocation) -> u64
    ensures { result ≡ amount_where (is_of_item item) allocation.now }
{
    if allocation.item == item {
        allocation.quantity
    } else {
        0
    }
}

/// What an allocation adds to the sum of a line of a sale.
fn amount_for(line: Id, allocation: &Allocation) -> u64
    ensures { result ≡ amount_where (λ a. is_for_sale_line line a.purpose) allocation.now }
{
    if allocation.purpose.is_for_sale_line(line) {
        allocation.quantity
    } else {
        0
    }
}

/// What an allocation adds to the sum of a line of a build and an output, or none.
fn amount_for_line(build: Id, line: Id, output: Option<Id>, allocation: &Allocation) -> u64
    ensures { result
        ≡ amount_where (λ a. is_for_line build line output a.purpose) allocation.now }
{
    if allocation.purpose.is_for_line(build, line, output) {
        allocation.quantity
    } else {
        0
    }
}

/// The rows of allocations, found by what they are looked up by, with a sum for each share.
pub(crate) struct AllocationRows {
    rows: IndexedSheet<Allocation>,
    sums: Sheet<Sum>,
    // Whether memory ran out amid a change of the sums: now, and when the request began.
    stale: bool,
    stale_before: bool,
}

// It is written out, so that a caller does not prove again how each part is dropped.
impl Drop for AllocationRows {
    fn drop(self) {
        let AllocationRows {
            rows: _,
            sums: _,
            stale: _,
            stale_before: _,
        } = self;
    }
}

impl Model for AllocationRows {
    ghost use Rattle.alloc_core.specs.ShareSums.{AreKept};
    ghost use Rattle.alloc_core.specs.contracts.allocation.Allocation as allocation;
    ghost use Rattle.alloc_core.specs.declared.allocation.Allocation.{Allocation};
    ghost use Rattle.sheet_core.specs.Sheet.{Rows, rows_code};

    ghost Value = { Rows Allocation };

    ghost coded = { rows_code allocation.the_row.coded };

    ghost view = { λ s. s.rows };

    ghost invariant = { λ s. AreKept s.stale s.rows.rows s.sums.rows
        × AreKept s.stale_before s.rows.before s.sums.before };
}

impl AllocationRows {
    /// No allocation.
    pub(crate) fn new(alloc: Global, seed: Seed) -> Self
        ensures rows { now_of result ≡ table.empty }
        ensures before { result.before ≡ table.empty }
    {
        AllocationRows {
            rows: IndexedSheet::new(alloc, seed),
            sums: Sheet::new(alloc, seed),
            stale: false,
            stale_before: false,
        }
    }

    /// These rows, now and before. An error is one of memory.
    pub(crate) fn filled(
        alloc: Global,
        seed: Seed,
        rows: Vec<Allocation>,
    ) -> Result<Self, AllocError>
        ensures rows { IfOk result (λ all. now_of all ≡ allocations_from rows.items) }
        ensures before { IfOk result (λ all. all.before ≡ allocations_from rows.items) }
    {
        let mut all = AllocationRows::new(alloc, seed);
        for row in rows {
            all.put(row)?;
        }
        all.keep();
        Ok(all)
    }

    /// The rows, as a sheet with an index.
    pub(crate) fn rows(&self) -> &IndexedSheet<Allocation>
        ensures { result.now ≡ self.now }
    {
        &self.rows
    }

    /// What the allocations for the share add up to: one look-up, which takes no memory.
    pub(crate) fn sum(&self, share: Share) -> u128
        ensures { result ≡ share_in share (now_of self.now) }
    {
        if self.stale {
            return self.sum_anew(share);
        }
        sum_at(&self.sums, share)
    }

    /// What the allocations for the share add up to: a look at those that count in it. It takes no memory.
    fn sum_anew(&self, share: Share) -> u128
        ensures { result ≡ share_in share (now_of self.now) }
    {
        match share {
            Share::Item(item) => self
                .rows
                .sum_under(item_key(item), |row| amount_of(item, row)),
            Share::SaleLine(line) => self
                .rows
                .sum_under(sale_line_key(line), |row| amount_for(line, row)),
            Share::BuildLine(build, line, None) => {
                self.rows.sum_under(build_line_key(build, line), |row| {
                    amount_for_line(build, line, None, row)
                })
            }
            Share::BuildLine(build, line, Some(output)) => {
                self.rows.sum_under(output_key(output), |row| {
                    amount_for_line(build, line, Some(output), row)
                })
            }
        }
    }

    /// Puts the row under its number, in the place of the one that stands there. An error is one of memory.
    pub(crate) fn put(&mut self, row: Allocation) -> Result<(), AllocError>
        ensures ok { OnOk result (now_of self.new
            ≡ table.insert (now_of self.old) (row.number ∷ []) row) }
        ensures err { OnErr result (self.new ≡ self.old) }
        ensures before { self.new.before ≡ self.old.before }
    {
        let stale = self.stale;
        self.stale = true;
        count_out(&mut self.sums, self.rows.get(row.number))?;
        count_in(&mut self.sums, &row)?;
        self.rows.put(row)?;
        self.stale = stale;
        Ok(())
    }

    /// Removes the row of that number, if there is one. An error is one of memory.
    pub(crate) fn remove(&mut self, number: Id) -> Result<(), AllocError>
        ensures ok { OnOk result (now_of self.new
            ≡ table.remove (now_of self.old) (number ∷ [])) }
        ensures err { OnErr result (self.new ≡ self.old) }
        ensures before { self.new.before ≡ self.old.before }
    {
        let stale = self.stale;
        self.stale = true;
        count_out(&mut self.sums, self.rows.get(number))?;
        self.rows.remove(number)?;
        self.stale = stale;
        Ok(())
    }

    /// Makes the changes final: the rows now become the rows before. It takes no memory.
    pub(crate) fn keep(&mut self)
        ensures rows { now_of self.new ≡ now_of self.old }
        ensures before { self.new.before ≡ now_of self.old }
    {
        self.rows.keep();
        self.sums.keep();
        self.stale_before = self.stale;
    }

    /// Takes the changes back: the rows are again those before. It takes no memory.
    pub(crate) fn back(&mut self)
        ensures rows { now_of self.new ≡ self.old.before }
        ensures before { self.new.before ≡ self.old.before }
    {
        self.rows.back();
        self.sums.back();
        self.stale = self.stale_before;
    }
}
