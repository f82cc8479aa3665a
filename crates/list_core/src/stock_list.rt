//! The list of what is in stock: a line for each part.
ghost use Rattle.std.specs.Prelude.{◌≡◌, ◌∷◌, [], decimal, filter, map, IfOk};
ghost use Rattle.desk_core.specs.ShopView.{state_of};
ghost use Rattle.report_core.specs.Lines.{fields_of, lines_of};
ghost use Rattle.list_core.specs.Lies.{lies_text};
ghost use Rattle.list_core.specs.StockList.{is_below, is_low, stock_header, stock_list, stock_row};
ghost use Rattle.list_core.specs.Ways.{way_text};

use crate::amounts::{Amounts, amounts_of};
use crate::lies::lies_field;
use crate::ways::way_field;
use desk_core::Shop;
use part_core::Part;
use report_core::Report;
use report_core::fields::{amount_field, number_field};
use std::alloc::{AllocError, Global};
use yard_core::rows_in_order;

/// The fields' names.
fn header(alloc: Global) -> Result<Vec<String>, AllocError>
    ensures { IfOk result (λ line. fields_of line ≡ stock_header) }
{
    let line = vec![in alloc;
        String::from_str(alloc, "number")?,
        String::from_str(alloc, "name")?,
        String::from_str(alloc, "category")?,
        String::from_str(alloc, "present")?,
        String::from_str(alloc, "free")?,
        String::from_str(alloc, "allocated")?,
        String::from_str(alloc, "items")?,
        String::from_str(alloc, "where")?,
    ]?;
    Ok(line)
}

/// A part with its category's way, these amounts, and where it lies.
fn row_with(
    alloc: Global,
    shop: &Shop,
    part: &Part,
    amounts: &Amounts,
) -> Result<Vec<String>, AllocError>
    ensures { IfOk result (λ line. fields_of line
        ≡ decimal part.now.number ∷ part.now.name
        ∷ way_text part.now.category (state_of shop.now).parts.categories
        ∷ decimal amounts.now.present ∷ decimal amounts.now.free
        ∷ decimal amounts.now.allocated ∷ decimal amounts.now.items
        ∷ lies_text (state_of shop.now) part.now.number ∷ []) }
{
    let number = number_field(alloc, part.number)?;
    let name = String::from_str(alloc, part.name.as_str())?;
    let way = way_field(alloc, shop.catalogue().categories(), part.category)?;
    let present = amount_field(alloc, amounts.present)?;
    let free = amount_field(alloc, amounts.free)?;
    let allocated = amount_field(alloc, amounts.allocated)?;
    let items = number_field(alloc, amounts.items as u64)?;
    let lies = lies_field(alloc, shop, part.number)?;
    Ok(vec![in alloc; number, name, way, present, free, allocated, items, lies]?)
}

/// Whether so much is less than the amount, where one is given; where none is, it is.
fn is_below(low: Option<u64>, free: u128) -> bool
    ensures { result ≡ is_below low free }
{
    match low {
        Some(amount) => free < u128::from(amount),
        None => true,
    }
}

/// The header, and the rows of those of the parts that are low.
fn rows_of(
    alloc: Global,
    shop: &Shop,
    low: Option<u64>,
    parts: &[&Part],
) -> Result<Vec<Vec<String>>, AllocError>
    ensures { IfOk result (λ lines. lines_of lines.items
        ≡ stock_header ∷ map (stock_row (state_of shop.now))
        (filter (is_low low (state_of shop.now)) (map (λ p. p.now) parts.now))) }
{
    let mut lines = vec![in alloc; header(alloc)?]?;
    for part in parts {
        let amounts = amounts_of(shop, part.number)?;
        if is_below(low, amounts.free) {
            lines.push(row_with(alloc, shop, part, &amounts)?)?;
        }
    }
    Ok(lines)
}

/// What there is of each part, in order of number: what is present, what of it is free, what is allocated, how many items
/// that is, and where they lie. With an amount the list has those parts alone of which less is free. It goes over each
/// part's items twice. An error is one of memory.
pub fn stock_list(alloc: Global, shop: &Shop, low: Option<u64>) -> Result<Report, AllocError>
    ensures { IfOk result (λ list. list ≡ stock_list low (state_of shop.now)) }
{
    let parts = rows_in_order(shop.catalogue().parts())?;
    let lines = rows_of(alloc, shop, low, parts.as_slice())?;
    Ok(Report::new(lines))
}
