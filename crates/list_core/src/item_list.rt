//! The list of all that there is of an item: where it is, what lies in it, and its history.
ghost use Rattle.std.specs.Prelude.{◌≡◌, ◌++◌, ◌∷◌, codes, map, option_copied, IfOk, OnOk};
ghost use Rattle.std.specs.String.{string_bytes};
ghost use Rattle.yard_core.specs.Contents.{shown_content};
ghost use Rattle.yard_core.specs.EntryLines.{kind_name};
ghost use Rattle.desk_core.specs.ShopView.{state_of};
ghost use Rattle.list_core.specs.ItemList.{delivery_text, from_text, history_fields, item_fields, item_header};
ghost use Rattle.list_core.specs.ItemList.{item_list, made_fields, made_rows, source_text, where_text};
ghost use Rattle.report_core.specs.Lines.{Gives, fields_of, lines_of};

use crate::origins::{Origin, Source, day_field, key_day, origins};
use crate::place_list::indented;
use crate::ways::way_field;
use desk_core::Shop;
use part_core::{CoreFault, Id, Refusal, Worded};
use report_core::Report;
use report_core::fields::{batch_field, name_field, number_field, serial_field, words_line};
use std::alloc::{AllocError, Global};
use yard_core::{Entry, Inside, Item, Kind, Place, place_text};

/// Where something is: of a location its way, of any other place what a report says of it.
pub(crate) fn where_field(alloc: Global, shop: &Shop, place: Place) -> Result<String, AllocError>
    ensures { IfOk result (λ text. string_bytes text ≡ where_text (state_of shop.now) place) }
{
    match place {
        Place::At(location) => way_field(alloc, shop.yard().locations(), Some(location)),
        _ => place_text(alloc, place),
    }
}

/// The name of what an entry says was done.
pub(crate) fn kind_name(kind: Kind) -> &'static str
    ensures { result.now ≡ kind_name kind }
{
    match kind {
        Kind::Received => "received",
        Kind::Found => "found",
        Kind::Built => "built",
        Kind::Consumed => "consumed",
        Kind::Shipped => "shipped",
        Kind::Returned => "returned",
        Kind::Written => "written",
        Kind::Moved => "moved",
        Kind::Cut => "cut",
        Kind::Poured => "poured",
        Kind::Installed => "installed",
        Kind::TakenOut => "taken_out",
        Kind::Marked => "marked",
    }
}

fn item_header(alloc: Global) -> Result<Vec<String>, AllocError>
    ensures { IfOk result (λ line. fields_of line ≡ item_header) }
{
    words_line(
        alloc,
        &[
            "kind", "number", "part", "name", "quantity", "batch", "serial", "status", "where",
            "day", "key",
        ],
    )
}

/// An item's row under the heading, so deep in the item that the list is of.
fn item_fields(
    alloc: Global,
    shop: &Shop,
    heading: &str,
    item: &Item,
    depth: u64,
) -> Result<Vec<String>, AllocError>
    ensures { IfOk result (λ line. fields_of line
        ≡ item_fields heading.now (state_of shop.now) (item.now, depth)) }
{
    let heading = String::from_str(alloc, heading)?;
    let number = number_field(alloc, item.number)?;
    let part = number_field(alloc, item.part)?;
    let name = name_field(alloc, shop.catalogue(), item.part)?;
    let name = indented(alloc, depth, name.as_str())?;
    let quantity = number_field(alloc, item.quantity)?;
    let batch = batch_field(alloc, &item.lot.batch)?;
    let serial = serial_field(alloc, &item.lot.serial)?;
    let status = String::from_str(alloc, item.lot.status.word())?;
    let place = where_field(alloc, shop, item.place)?;
    let day = String::new(alloc);
    let key = String::new(alloc);
    Ok(vec![in alloc;
        heading, number, part, name, quantity, batch, serial, status, place, day, key,
    ]?)
}

/// An entry's row. It has no part, batch, serial or status.
fn history_fields(alloc: Global, shop: &Shop, entry: &Entry) -> Result<Vec<String>, AllocError>
    ensures { IfOk result (λ line. fields_of line
        ≡ history_fields (state_of shop.now) entry.now) }
{
    let note = entry.note;
    let heading = String::from_str(alloc, "history")?;
    let number = number_field(alloc, entry.number)?;
    let part = String::new(alloc);
    let kind = String::from_str(alloc, kind_name(note.kind))?;
    let quantity = number_field(alloc, note.quantity)?;
    let batch = String::new(alloc);
    let serial = String::new(alloc);
    let status = String::new(alloc);
    let place = where_field(alloc, shop, note.place)?;
    let day = entry.day.text(alloc)?;
    let key = String::new(alloc);
    Ok(vec![in alloc;
        heading, number, part, kind, quantity, batch, serial, status, place, day, key,
    ]?)
}

/// The number of what a source names, or nothing where it names nothing.
fn source_field(alloc: Global, source: Source) -> Result<String, AllocError>
    ensures { IfOk result (λ text. string_bytes text ≡ source_text source) }
{
    match source {
        Source::Begun(number) | Source::Received(number) | Source::CutOff(number) => {
            number_field(alloc, number)
        }
        Source::Made => Ok(String::new(alloc)),
    }
}

/// The order of the line of that number, and who delivered, or nothing where the line or its order isn't there.
fn delivery_field(alloc: Global, shop: &Shop, line: Id) -> Result<String, AllocError>
    ensures { IfOk result (λ text. string_bytes text ≡ delivery_text line (state_of shop.now)) }
{
    let Some(line) = shop.orders().line(line) else {
        return Ok(String::new(alloc));
    };
    let Some(order) = shop.orders().order(line.order) else {
        return Ok(String::new(alloc));
    };
    let number = order.number;
    let partner = order.partner.as_str();
    format!(in alloc; "order {number} from {partner}")
}

/// What an item came from, as far as it is a delivery.
fn from_field(alloc: Global, shop: &Shop, source: Source) -> Result<String, AllocError>
    ensures { IfOk result (λ text. string_bytes text ≡ from_text (state_of shop.now) source) }
{
    match source {
        Source::Received(line) => delivery_field(alloc, shop, line),
        _ => Ok(String::new(alloc)),
    }
}

/// The row of what made an item: the number of its build, its order line or the item that it was cut off, the command,
/// who delivered it, and the request's key with its day. It has no part, quantity, batch, serial or status.
fn made_fields(alloc: Global, shop: &Shop, origin: &Origin) -> Result<Vec<String>, AllocError>
    ensures { IfOk result (λ line. fields_of line ≡ made_fields (state_of shop.now) origin.now) }
{
    let heading = String::from_str(alloc, "made")?;
    let number = source_field(alloc, origin.source)?;
    let part = String::new(alloc);
    let verb = String::from_str(alloc, origin.verb.as_str())?;
    let quantity = String::new(alloc);
    let batch = String::new(alloc);
    let serial = String::new(alloc);
    let status = String::new(alloc);
    let place = from_field(alloc, shop, origin.source)?;
    let day = day_field(alloc, key_day(&origin.key))?;
    let key = String::from_str(alloc, origin.key.as_str())?;
    Ok(vec![in alloc;
        heading, number, part, verb, quantity, batch, serial, status, place, day, key,
    ]?)
}

/// Adds a row for each item of the content.
fn push_content(
    alloc: Global,
    shop: &Shop,
    content: &[Inside],
    lines: &mut Vec<Vec<String>>,
) -> Result<(), AllocError>
    ensures { OnOk result (lines_of lines.new.items ≡ lines_of lines.old.items
        ++ map (item_fields (codes "inside") (state_of shop.now)) (shown_content content.now)) }
{
    for inside in content {
        lines.push(item_fields(alloc, shop, "inside", inside.item, inside.depth)?)?;
    }
    Ok(())
}

/// Adds the row of what made the item, where that is kept.
fn push_made(
    alloc: Global,
    shop: &Shop,
    origin: Option<&Origin>,
    lines: &mut Vec<Vec<String>>,
) -> Result<(), AllocError>
    ensures { OnOk result (lines_of lines.new.items ≡ lines_of lines.old.items
        ++ made_rows (state_of shop.now) (option_copied origin.entry)) }
{
    if let Some(origin) = origin {
        lines.push(made_fields(alloc, shop, origin)?)?;
    }
    Ok(())
}

/// Adds a row for each entry.
fn push_history(
    alloc: Global,
    shop: &Shop,
    entries: &[&Entry],
    lines: &mut Vec<Vec<String>>,
) -> Result<(), AllocError>
    ensures { OnOk result (lines_of lines.new.items ≡ lines_of lines.old.items
        ++ map (history_fields (state_of shop.now)) (map (λ e. e.now) entries.now)) }
{
    for entry in entries {
        lines.push(history_fields(alloc, shop, entry)?)?;
    }
    Ok(())
}

fn item_lines(
    alloc: Global,
    shop: &Shop,
    item: &Item,
    content: &[Inside],
    origin: Option<&Origin>,
    entries: &[&Entry],
) -> Result<Vec<Vec<String>>, AllocError>
    ensures { IfOk result (λ lines. let s = state_of shop.now in lines_of lines.items
        ≡ item_header
        ∷ item_fields (codes "item") s (item.now, 1)
        ∷ (map (item_fields (codes "inside") s) (shown_content content.now)
        ++ (made_rows s (option_copied origin.entry)
        ++ map (history_fields s) (map (λ e. e.now) entries.now)))) }
{
    let header = item_header(alloc)?;
    let own = item_fields(alloc, shop, "item", item, 1)?;
    let mut lines = vec![in alloc; header, own]?;
    push_content(alloc, shop, content, &mut lines)?;
    push_made(alloc, shop, origin, &mut lines)?;
    push_history(alloc, shop, entries, &mut lines)?;
    Ok(lines)
}

/// The item of that number, all that lies in it in order of number, each followed by what lies in that, the kept request
/// that made it, and the entries on it in their order. NoSuch where there is no such item; one that is gone has its own
/// row and its history. It goes over what is kept and over the whole history once.
pub fn item_list(alloc: Global, shop: &Shop, number: Id) -> Result<Report, CoreFault>
    ensures { Gives (item_list number (state_of shop.now)) result }
{
    let Some(item) = shop.yard().item(number) else {
        return Err(CoreFault::Refused(Refusal::NoSuch));
    };
    let content = shop.yard().content(number)?;
    let entries = shop.yard().history(number)?;
    let origins = origins(alloc, shop)?;
    let origin = origins.get(number);
    let lines = item_lines(
        alloc,
        shop,
        item,
        content.as_slice(),
        origin,
        entries.as_slice(),
    )?;
    Ok(Report::new(lines))
}
