//! The levels that a file says of parts, for the list of what has less free.
ghost use Rattle.std.specs.Prelude.{◌≡◌, Ok, map, IfOk, MatchResult};
ghost use Rattle.desk_core.specs.ShopView.{state_of};
ghost use Rattle.desk_wire.specs.Levels.{FailsAs};
ghost use Rattle.desk_cli.specs.LowLevels.{level_by, levels_in};

use desk_core::Shop;
use desk_wire::{FileError, LevelRow, read_levels};
use list_core::Level;
use std::alloc::{AllocError, Global};

/// The levels that these records say.
fn levels_by(alloc: Global, rows: &[LevelRow]) -> Result<Vec<Level>, AllocError>
    ensures { IfOk result (λ levels. levels.items ≡ map level_by rows.now) }
{
    let mut levels = Vec::with_capacity(alloc, rows.len())?;
    for row in rows {
        levels.push(Level {
            part: row.part,
            amount: row.amount,
        })?;
    }
    Ok(levels)
}

/// The levels that a file says, in its order, its parts looked up among those of the shop by their numbers or names; or its
/// first fault.
pub fn levels_in(alloc: Global, shop: &Shop, bytes: &[u8]) -> Result<Vec<Level>, FileError>
    ensures { let reading = levels_in bytes.now (state_of shop.now) in
        MatchResult result (λ levels. reading ≡ Ok levels.items) (FailsAs reading) }
{
    let rows = read_levels(alloc, shop, bytes)?;
    let levels = levels_by(alloc, rows.as_slice())?;
    Ok(levels)
}
