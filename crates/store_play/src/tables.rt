//! All tables of a shop as one text, by which two shops are told apart.
use desk_core::Shop;
use desk_store::MetaRow;
use part_core::{Column, Sheet, Stored};
use std::alloc::{AllocError, Global};

fn push_row<R: Stored>(alloc: Global, text: &mut String, row: &R) -> Result<(), AllocError> {
    let columns = row.columns(alloc)?;
    for column in columns.as_slice() {
        match column {
            Column::Whole(number) => write!(text, "{number}")?,
            Column::Text(words) => text.push_str(words.as_str())?,
            Column::Absent => text.push('-')?,
        }
        text.push('\t')?;
    }
    text.push('\n')
}

fn push_sheet<R: Stored>(
    alloc: Global,
    text: &mut String,
    name: &str,
    sheet: &Sheet<R>,
) -> Result<(), AllocError> {
    text.push_str(name)?;
    text.push('\n')?;
    let rows = sheet.select(|_row| true)?;
    for row in rows.as_slice() {
        push_row(alloc, text, *row)?;
    }
    Ok(())
}

fn push_history(alloc: Global, text: &mut String, shop: &Shop) -> Result<(), AllocError> {
    text.push_str("history\n")?;
    for entry in shop.yard().whole_history().as_slice() {
        push_row(alloc, text, entry)?;
    }
    Ok(())
}

fn push_parts_and_bills(alloc: Global, text: &mut String, shop: &Shop) -> Result<(), AllocError> {
    push_row(alloc, text, &MetaRow::of(shop))?;
    push_sheet(alloc, text, "categories", shop.catalogue().categories())?;
    push_sheet(alloc, text, "parts", shop.catalogue().parts())?;
    push_sheet(alloc, text, "lines", shop.boms().lines())?;
    push_sheet(alloc, text, "substitutes", shop.boms().substitutes())
}

fn push_stock(alloc: Global, text: &mut String, shop: &Shop) -> Result<(), AllocError> {
    push_sheet(alloc, text, "locations", shop.yard().locations())?;
    push_sheet(alloc, text, "items", shop.yard().items())?;
    push_history(alloc, text, shop)?;
    push_sheet(alloc, text, "allocations", shop.allocations().rows())
}

fn push_orders_and_builds(alloc: Global, text: &mut String, shop: &Shop) -> Result<(), AllocError> {
    push_sheet(alloc, text, "orders", shop.orders().orders())?;
    push_sheet(alloc, text, "order_lines", shop.orders().lines())?;
    push_sheet(alloc, text, "builds", shop.builds().rows())?;
    push_sheet(alloc, text, "spent", shop.builds().spent())
}

/// The rows of all tables that a file of the shop has, in order, a line each under the name of their table; first the row
/// of the counter.
pub fn tables_text(alloc: Global, shop: &Shop) -> Result<String, AllocError> {
    let mut text = String::new(alloc);
    push_parts_and_bills(alloc, &mut text, shop)?;
    push_stock(alloc, &mut text, shop)?;
    push_orders_and_builds(alloc, &mut text, shop)?;
    push_sheet(alloc, &mut text, "kept", shop.answers())?;
    Ok(text)
}
