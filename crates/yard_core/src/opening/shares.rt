//! Whether what goes in and what comes out is the same, part by part.
ghost use Rattle.std.specs.Prelude.{◌≡◌, ◌↔◌, ◌+◌, ◌++◌, ◌∷◌, [], List, IsTrue, IfOk, OnOk};
ghost use Rattle.std.specs.Ordering.{nat_cmp};
ghost use Rattle.std.specs.BTreeMap as tree;
ghost use Rattle.yard_core.specs.Shares.{Agree, AreTotals, total_or_none};

use part_core::Id;
use std::alloc::AllocError;
use std::collections::BTreeMap;

/// What a row adds to the two sides of an equation for its part.
#[derive(Clone, Copy)]
pub struct Share {
    pub part: Id,
    pub left: u64,
    pub right: u64,
}

/// The two sides for a part so far.
#[derive(Clone, Copy)]
pub struct Total {
    left: u128,
    right: u128,
}

/// The two sides so far, nothing yet where the part is new.
fn total_of(totals: &BTreeMap<Id, Total>, part: Id) -> Total
    ensures { result ≡ total_or_none (tree.get nat_cmp totals.now part) }
{
    match totals.get(&part) {
        Some(total) => *total,
        None => Total { left: 0, right: 0 },
    }
}

/// The sum of the two. An error stands for one beyond 128 bits, which no rows in memory come near.
fn raised(sum: u128, amount: u64) -> Result<u128, AllocError>
    ensures { IfOk result (λ raised. raised ≡ sum + amount) }
{
    sum.checked_add(u128::from(amount)).ok_or(AllocError)
}

/// Adds the share to the two sides for its part. An error is one of memory.
pub fn add_share(totals: &mut BTreeMap<Id, Total>, share: Share) -> Result<(), AllocError>
    ensures { OnOk result ((ss : List Share)
        → AreTotals totals.old ss → AreTotals totals.new (ss ++ share ∷ [])) }
{
    let before = total_of(totals, share.part);
    let left = raised(before.left, share.left)?;
    let right = raised(before.right, share.right)?;
    totals.insert(share.part, Total { left, right })?;
    Ok(())
}

/// Whether the two sides are the same for each part, whatever shares these are the totals of.
pub fn are_even(totals: &BTreeMap<Id, Total>) -> bool
    ensures { (ss : List Share) → AreTotals totals.now ss → IsTrue result ↔ Agree ss }
{
    for part in totals.keys() {
        let total = total_of(totals, *part);
        if total.left != total.right {
            return false;
        }
    }
    true
}
