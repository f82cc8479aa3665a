//! The content of an item: the item, and all that lies in it, each with its depth.
ghost use Rattle.std.specs.Prelude.{◌≡◌, ◌∷◌, map, IfOk};
ghost use Rattle.part_core.specs.CatalogueView.{parts_of};
ghost use Rattle.yard_core.specs.Contents.{shown_content};
ghost use Rattle.desk_core.specs.ShopView.{state_of};
ghost use Rattle.report_core.specs.Content.{content_lines, node_line};
ghost use Rattle.report_core.specs.Lines.{Gives, fields_of, lines_of};

use crate::fields::{name_field, number_field, serial_field};
use crate::lines::Report;
use desk_core::Shop;
use part_core::{Catalogue, CoreFault, Refusal};
use std::alloc::{AllocError, Global};
use yard_core::{Inside, Item};

fn node_line(
    alloc: Global,
    catalogue: &Catalogue,
    item: &Item,
    depth: u64,
) -> Result<Vec<String>, AllocError>
    ensures { IfOk result (λ line.
        fields_of line ≡ node_line (parts_of catalogue.now) (item.now, depth)) }
{
    let depth = number_field(alloc, depth)?;
    let number = number_field(alloc, item.number)?;
    let name = name_field(alloc, catalogue, item.part)?;
    let quantity = number_field(alloc, item.quantity)?;
    let serial = serial_field(alloc, &item.lot.serial)?;
    Ok(vec![in alloc; depth, number, name, quantity, serial]?)
}

fn tree_lines(
    alloc: Global,
    catalogue: &Catalogue,
    item: &Item,
    content: &[Inside],
) -> Result<Vec<Vec<String>>, AllocError>
    ensures { IfOk result (λ lines. lines_of lines.items
        ≡ node_line (parts_of catalogue.now) (item.now, 1)
        ∷ map (node_line (parts_of catalogue.now)) (shown_content content.now)) }
{
    let mut lines = vec![in alloc; node_line(alloc, catalogue, item, 1)?]?;
    for inside in content {
        lines.push(node_line(alloc, catalogue, inside.item, inside.depth)?)?;
    }
    Ok(lines)
}

/// The item of that number and all that lies in it: the item, with depth 1, then what lies in it in order
/// of number, each followed by what lies in that. NoSuch where there is no such item; one that is gone has
/// its own line.
pub fn content(alloc: Global, shop: &Shop, number: u64) -> Result<Report, CoreFault>
    ensures { Gives (content_lines number (state_of shop.now)) result }
{
    let Some(item) = shop.yard().item(number) else {
        return Err(CoreFault::Refused(Refusal::NoSuch));
    };
    let content = shop.yard().content(number)?;
    let lines = tree_lines(alloc, shop.catalogue(), item, content.as_slice())?;
    Ok(Report::new(lines))
}
