//! What is still to come of each part, added up once for a list that says it row by row.
ghost use Rattle.std.specs.Prelude.{◌≡◌, ◌∷◌, [], map, IfOk, OnOk};
ghost use Rattle.std.specs.FinMap as table;
ghost use Rattle.sheet_core.specs.Sheet.{now_of};
ghost use Rattle.desk_core.specs.ShopView.{state_of};
ghost use Rattle.list_core.specs.Coming.{AreComing, coming_in, gathered, with_line};

use crate::amounts::added;
use crate::receipt_sheet::awaited;
use desk_core::Shop;
use order_core::OrderLine;
use part_core::{Id, Row, Seed, Sheet};
use std::alloc::{AllocError, Global};

/// What is still to come of a part, by all lines together.
#[derive(Drop)]
pub struct Coming {
    pub part: Id,
    pub amount: u128,
}

impl Row for Coming {
    type Key = u64;

    ghost key_of = { λ coming. coming.part ∷ [] };

    fn key(&self, _alloc: Global) -> Result<u64, AllocError> {
        Ok(self.part)
    }

    fn equals(&self, other: &Self) -> bool {
        if self.part != other.part {
            return false;
        }
        self.amount == other.amount
    }

    fn copy(&self, _alloc: Global) -> Result<Self, AllocError> {
        Ok(Coming {
            part: self.part,
            amount: self.amount,
        })
    }
}

/// What is to come of a part: nothing where no line has it.
pub fn coming_in(coming: &Sheet<Coming>, part: Id) -> u128
    ensures { result ≡ coming_in part (now_of coming.now) }
{
    match coming.get(&part) {
        Some(found) => found.amount,
        None => 0,
    }
}

/// Adds what is still to come of a line to what is to come of its part. An error is one of memory.
fn gather(coming: &mut Sheet<Coming>, line: &OrderLine) -> Result<(), AllocError>
    ensures { OnOk result (now_of coming.new ≡ with_line line.now (now_of coming.old)) }
{
    let left = line.quantity.saturating_sub(line.done);
    let amount = added(coming_in(coming, line.part), u128::from(left))?;
    coming.put(Coming {
        part: line.part,
        amount,
    })
}

/// What is still to come of each part by these lines. An error is one of memory.
fn gathered(alloc: Global, seed: Seed, lines: &[&OrderLine]) -> Result<Sheet<Coming>, AllocError>
    ensures { IfOk result (λ coming.
        now_of coming ≡ gathered (map (λ l. l.now) lines.now) table.empty) }
{
    let mut coming = Sheet::new(alloc, seed);
    for line in lines {
        gather(&mut coming, line)?;
    }
    Ok(coming)
}

/// What is still to come of each part by purchases that are under way. It goes over all lines once. An error is one of
/// memory.
pub fn coming_amounts(alloc: Global, shop: &Shop) -> Result<Sheet<Coming>, AllocError>
    ensures { IfOk result (λ coming. AreComing (state_of shop.now) (now_of coming)) }
{
    let lines = awaited(shop, None)?;
    gathered(alloc, shop.catalogue().seed(), lines.as_slice())
}
