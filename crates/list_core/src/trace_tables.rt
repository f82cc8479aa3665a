//! The tables that a walk looks into, each made once.
ghost use Rattle.std.specs.Prelude.{IfOk};
ghost use Rattle.desk_core.specs.Machine.{IsSoundState};
ghost use Rattle.desk_core.specs.ShopView.{state_of};
ghost use Rattle.list_core.specs.TraceTables.{AreTables};

use crate::lives::{Life, lives};
use crate::origins::{Origin, origins};
use crate::used::{UsedItem, used};
use desk_core::Shop;
use part_core::{IndexedSheet, Sheet};
use std::alloc::{AllocError, Global};

/// What made each row, what each build used, and what the history says of each item.
pub struct TraceTables {
    pub origins: IndexedSheet<Origin>,
    pub used: IndexedSheet<UsedItem>,
    pub lives: Sheet<Life>,
}

// It is written out, so that a caller does not prove again how each part is dropped.
impl Drop for TraceTables {
    fn drop(self) {
        let TraceTables {
            origins: _,
            used: _,
            lives: _,
        } = self;
    }
}

/// The tables of a shop. It goes over its kept answers, its items and its history once. An error is one of memory.
pub(crate) fn trace_tables(alloc: Global, shop: &Shop) -> Result<TraceTables, AllocError>
    requires { IsSoundState (state_of shop.now) }
    ensures { IfOk result (λ tables. AreTables (state_of shop.now) tables) }
{
    let origins = origins(alloc, shop)?;
    let used = used(alloc, shop.yard())?;
    let lives = lives(alloc, shop)?;
    Ok(TraceTables {
        origins,
        used,
        lives,
    })
}
