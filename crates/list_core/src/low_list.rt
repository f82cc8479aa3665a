//! The list of what has less free than its level.
ghost use Rattle.std.specs.Prelude.{◌≡◌, ◌+◌, ◌-◌, ◌++◌, ◌∷◌, [], decimal, flat_map, IfOk, OnOk};
ghost use Rattle.std.specs.List.{list_all};
ghost use Rattle.sheet_core.specs.Sheet.{now_of};
ghost use Rattle.desk_core.specs.ShopView.{state_of};
ghost use Rattle.report_core.specs.Lines.{Gives, fields_of, lines_of};
ghost use Rattle.list_core.specs.Coming.{AreComing};
ghost use Rattle.list_core.specs.LowList.{has_part, level_rows, low_header, low_list, low_row};
ghost use Rattle.list_core.specs.Ways.{way_text};

use crate::amounts::{added, free_amount};
use crate::coming::{Coming, coming_amounts, coming_in};
use crate::ways::way_field;
use desk_core::Shop;
use part_core::{CoreFault, Id, Part, Refusal, Sheet};
use report_core::Report;
use report_core::fields::{amount_field, number_field, words_line};
use std::alloc::{AllocError, Global};

/// How much of a part there is to be at least.
#[derive(Clone, Copy, Debug)]
pub struct Level {
    pub part: Id,
    pub amount: u64,
}

/// The fields' names.
fn header(alloc: Global) -> Result<Vec<String>, AllocError>
    ensures { IfOk result (λ row. fields_of row ≡ low_header) }
{
    words_line(
        alloc,
        &["part", "name", "category", "level", "free", "coming", "buy"],
    )
}

/// A part with its level, of which so much is free and so much is still to come.
fn row_with(
    alloc: Global,
    shop: &Shop,
    level: &Level,
    part: &Part,
    free: u128,
    coming: u128,
) -> Result<Vec<String>, AllocError>
    ensures { IfOk result (λ row. fields_of row
        ≡ decimal level.now.part ∷ part.now.name
        ∷ way_text part.now.category (state_of shop.now).parts.categories
        ∷ decimal level.now.amount ∷ decimal free ∷ decimal coming
        ∷ decimal (level.now.amount - (free + coming)) ∷ []) }
{
    let buy = u128::from(level.amount).saturating_sub(added(free, coming)?);
    let number = number_field(alloc, level.part)?;
    let name = String::from_str(alloc, part.name.as_str())?;
    let way = way_field(alloc, shop.catalogue().categories(), part.category)?;
    let amount = number_field(alloc, level.amount)?;
    let free = amount_field(alloc, free)?;
    let coming = amount_field(alloc, coming)?;
    let buy = amount_field(alloc, buy)?;
    Ok(vec![in alloc; number, name, way, amount, free, coming, buy]?)
}

/// The row of a level whose part has less free comes behind the rows so far; one that has as much as its level has none.
fn push_level(
    alloc: Global,
    shop: &Shop,
    coming: &Sheet<Coming>,
    level: &Level,
    rows: &mut Vec<Vec<String>>,
) -> Result<(), AllocError>
    requires { AreComing (state_of shop.now) (now_of coming.now) }
    ensures { OnOk result (lines_of rows.new.items
        ≡ lines_of rows.old.items ++ level_rows (state_of shop.now) level.now) }
{
    let Some(part) = shop.catalogue().part(level.part) else {
        return Ok(());
    };
    let free = free_amount(shop, level.part)?;
    if free >= u128::from(level.amount) {
        return Ok(());
    }
    let coming = coming_in(coming, level.part);
    rows.push(row_with(alloc, shop, level, part, free, coming)?)?;
    Ok(())
}

/// The header, and the rows of those of the levels whose part has less free.
fn rows_of(
    alloc: Global,
    shop: &Shop,
    coming: &Sheet<Coming>,
    levels: &[Level],
) -> Result<Vec<Vec<String>>, AllocError>
    requires { AreComing (state_of shop.now) (now_of coming.now) }
    ensures { IfOk result (λ rows. lines_of rows.items
        ≡ low_header ∷ flat_map (level_rows (state_of shop.now)) levels.now) }
{
    let mut rows = vec![in alloc; header(alloc)?]?;
    for level in levels {
        push_level(alloc, shop, coming, level, &mut rows)?;
    }
    Ok(rows)
}

/// Whether the part of a level is there.
fn has_part(shop: &Shop, level: &Level) -> bool
    ensures { result ≡ has_part (state_of shop.now) level.now }
{
    shop.catalogue().part(level.part).is_some()
}

/// Whether the part of each of these levels is there.
fn has_parts(shop: &Shop, levels: &[Level]) -> bool
    ensures { result ≡ list_all (has_part (state_of shop.now)) levels.now }
{
    levels.iter().all(|level| has_part(shop, level))
}

/// A row for each of these levels whose part has less free, in their order: the part, its category's way, its level, what is
/// free, what is still to come by purchases that are under way, and how many have to be bought besides. A part that has two
/// levels may have two rows. NoSuch where the part of any isn't there. It goes over the lines of orders once, and for each
/// level over the items of its part.
pub fn low_list(alloc: Global, shop: &Shop, levels: &[Level]) -> Result<Report, CoreFault>
    ensures { Gives (low_list levels.now (state_of shop.now)) result }
{
    if !has_parts(shop, levels) {
        return Err(CoreFault::Refused(Refusal::NoSuch));
    }
    let coming = coming_amounts(alloc, shop)?;
    let rows = rows_of(alloc, shop, &coming, levels)?;
    Ok(Report::new(rows))
}
