//! What allocations add up to: of an item, for a line of a sale, and for a line of a build.
//!
//! Each sum stands in a row of its own, so that it is found by one look-up, however many allocations it has. A sum of
//! nothing has no row. An allocation counts in two of them: that of its item, and that of what it is for.
ghost use Rattle.std.specs.Prelude.{◌≡◌, ◌+◌, ◌-◌, OnOk, if◌then◌else◌, option_copied};
ghost use Rattle.sheet_core.specs.Sheet.{now_of};
ghost use Rattle.alloc_core.specs.Allocations.{amount_where};
ghost use Rattle.alloc_core.specs.ShareSums.{adds_to, counted_in, counts_in, is_same_share, share_digits};
ghost use Rattle.alloc_core.specs.ShareSums.{share_of, sum_at};
ghost use Rattle.alloc_core.specs.ShareKeys.{share_exact};

use crate::allocation::Allocation;
use crate::purpose::{OutputNumber, Purpose};
use crate::share::Share;
use part_core::{Id, Quantity, Row, RowKey, Sheet};
use std::alloc::{AllocError, Global};
use std::cmp::Ordering;

/// The number of the output, where there is one.
fn number_of(output: &Option<OutputNumber>) -> Option<Id>
    ensures { result ≡ output.now }
{
    match output {
        None => None,
        Some(output) => Some(output.number()),
    }
}

/// What the allocations for a share add up to, which is more than 0.
#[derive(Drop)]
pub(crate) struct Sum {
    pub(crate) share: Share,
    pub(crate) amount: u128,
}

impl RowKey for Share {
    ghost digits = { share_digits };

    ghost exact = { share_exact };

    fn compare(&self, other: &Share) -> Ordering {
        self.cmp(other)
    }
}

impl Row for Sum {
    type Key = Share;

    ghost key_of = { λ row. share_digits row.share };

    fn key(&self, _alloc: Global) -> Result<Share, AllocError> {
        Ok(self.share)
    }

    fn equals(&self, other: &Self) -> bool {
        self.share == other.share && self.amount == other.amount
    }

    fn copy(&self, _alloc: Global) -> Result<Self, AllocError> {
        Ok(Sum {
            share: self.share,
            amount: self.amount,
        })
    }
}

impl Share {
    /// The share of what the allocation is for.
    fn of(purpose: &Purpose) -> Share
        ensures { result ≡ share_of purpose.now }
    {
        match purpose {
            Purpose::Sale { line, .. } => Share::SaleLine(*line),
            Purpose::Build {
                build,
                line,
                output,
            } => Share::BuildLine(*build, *line, number_of(output)),
        }
    }
}

/// The sum that is kept for the share, found by one look-up.
pub(crate) fn sum_at(sums: &Sheet<Sum>, share: Share) -> u128
    ensures { result ≡ sum_at share (now_of sums.now) }
{
    match sums.get(&share) {
        Some(sum) => sum.amount,
        None => 0,
    }
}

/// Writes the sum of the share: none where it is 0. An error is one of memory.
fn write(sums: &mut Sheet<Sum>, share: Share, amount: u128) -> Result<(), AllocError>
    ensures written { OnOk result ((other : Share) → sum_at other (now_of sums.new)
        ≡ (if is_same_share other share then amount else sum_at other (now_of sums.old))) }
    ensures before { sums.new.before ≡ sums.old.before }
{
    if amount == 0 {
        sums.remove(&share)
    } else {
        sums.put(Sum { share, amount })
    }
}

/// Adds an amount to the sum of the share. An error is one of memory: a sum of allocations always fits.
fn add(sums: &mut Sheet<Sum>, share: Share, quantity: Quantity) -> Result<(), AllocError>
    ensures added { OnOk result ((other : Share) → sum_at other (now_of sums.new)
        ≡ sum_at other (now_of sums.old) + adds_to share quantity other) }
    ensures before { sums.new.before ≡ sums.old.before }
{
    let sum = sum_at(sums, share);
    let Some(more) = sum.checked_add(u128::from(quantity)) else {
        return Err(AllocError);
    };
    write(sums, share, more)
}

/// Takes an amount from the sum of the share. An error is one of memory.
fn take(sums: &mut Sheet<Sum>, share: Share, quantity: Quantity) -> Result<(), AllocError>
    ensures taken { OnOk result ((other : Share) → sum_at other (now_of sums.new)
        ≡ sum_at other (now_of sums.old) - adds_to share quantity other) }
    ensures before { sums.new.before ≡ sums.old.before }
{
    let sum = sum_at(sums, share);
    write(sums, share, sum.saturating_sub(u128::from(quantity)))
}

/// Adds an allocation to the sums that it counts in. An error is one of memory, and may have left some as they were.
pub(crate) fn count_in(sums: &mut Sheet<Sum>, row: &Allocation) -> Result<(), AllocError>
    ensures counted { OnOk result ((share : Share) → sum_at share (now_of sums.new)
        ≡ sum_at share (now_of sums.old) + amount_where (counts_in share) row.now) }
    ensures before { sums.new.before ≡ sums.old.before }
{
    add(sums, Share::Item(row.item), row.quantity)?;
    add(sums, Share::of(&row.purpose), row.quantity)
}

/// Takes an allocation from the sums that it counts in. An error is one of memory, and may have left some as they were.
fn take_out(sums: &mut Sheet<Sum>, row: &Allocation) -> Result<(), AllocError>
    ensures counted { OnOk result ((share : Share) → sum_at share (now_of sums.new)
        ≡ sum_at share (now_of sums.old) - amount_where (counts_in share) row.now) }
    ensures before { sums.new.before ≡ sums.old.before }
{
    take(sums, Share::Item(row.item), row.quantity)?;
    take(sums, Share::of(&row.purpose), row.quantity)
}

/// Takes an allocation, if there is one, from the sums that it counts in. An error is one of memory, and may have left
/// some as they were.
pub(crate) fn count_out(sums: &mut Sheet<Sum>, gone: Option<&Allocation>) -> Result<(), AllocError>
    ensures counted { OnOk result ((share : Share) → sum_at share (now_of sums.new)
        ≡ sum_at share (now_of sums.old) - counted_in share (option_copied gone.entry)) }
    ensures before { sums.new.before ≡ sums.old.before }
{
    match gone {
        Some(row) => take_out(sums, row),
        None => Ok(()),
    }
}
