//! What is free of each part, added up once for a list that says it row by row.
ghost use Rattle.std.specs.Prelude.{◌≡◌, ◌∷◌, [], IfOk};
ghost use Rattle.sheet_core.specs.Sheet.{now_of};
ghost use Rattle.desk_core.specs.ShopView.{state_of};
ghost use Rattle.list_core.specs.Amounts.{free_amount};
ghost use Rattle.list_core.specs.FreeAmounts.{AreFree};

use crate::amounts::free_amount;
use desk_core::Shop;
use part_core::{Id, Part, Row, Sheet};
use std::alloc::{AllocError, Global};

/// What is free of a part, all of its items together.
#[derive(Drop)]
pub struct FreeAmount {
    pub part: Id,
    pub amount: u128,
}

impl Row for FreeAmount {
    type Key = u64;

    ghost key_of = { λ free. free.part ∷ [] };

    fn key(&self, _alloc: Global) -> Result<u64, AllocError> {
        Ok(self.part)
    }

    fn equals(&self, other: &Self) -> bool {
        if self.part != other.part {
            return false;
        }
        self.amount == other.amount
    }

    fn copy(&self, _alloc: Global) -> Result<Self, AllocError> {
        Ok(FreeAmount {
            part: self.part,
            amount: self.amount,
        })
    }
}

/// What is free of these parts. It goes over the items of each once. An error is one of memory.
pub fn free_amounts(
    alloc: Global,
    shop: &Shop,
    parts: &[&Part],
) -> Result<Sheet<FreeAmount>, AllocError>
    ensures { IfOk result (λ found. AreFree (state_of shop.now) (now_of found)) }
{
    let mut found = Sheet::new(alloc, shop.catalogue().seed());
    for part in parts {
        let amount = free_amount(shop, part.number)?;
        found.put(FreeAmount {
            part: part.number,
            amount,
        })?;
    }
    Ok(found)
}

/// What is free of the part: as it was found or, where it is none of those parts, added up. An error is one of memory.
pub fn free_in(shop: &Shop, found: &Sheet<FreeAmount>, part: Id) -> Result<u128, AllocError>
    requires { AreFree (state_of shop.now) (now_of found.now) }
    ensures { IfOk result (λ amount. amount ≡ free_amount part (state_of shop.now)) }
{
    match found.get(&part) {
        Some(free) => Ok(free.amount),
        None => free_amount(shop, part),
    }
}
