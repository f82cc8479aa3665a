//! The list of all that there is of a part: its flags, its sums, its bill, where it is used, and its items.
ghost use Rattle.std.specs.Prelude.{◌≡◌, ◌+◌, ◌++◌, ◌∷◌, ◌<◌, ◌^◌, [], filter, map, not, IfOk, OnOk};
ghost use Rattle.std.specs.String.{string_bytes};
ghost use Rattle.sheet_core.specs.Sheet.{now_of};
ghost use Rattle.bom_core.specs.Bills.{effective, part_rows};
ghost use Rattle.yard_core.specs.Stock.{is_gone};
ghost use Rattle.alloc_core.specs.Candidates.{substitutes_on};
ghost use Rattle.desk_core.specs.Machine.{IsSoundState};
ghost use Rattle.desk_core.specs.ShopView.{state_of};
ghost use Rattle.list_core.specs.Amounts.{items_of};
ghost use Rattle.list_core.specs.Origins.{origins_in};
ghost use Rattle.report_core.specs.Lines.{Gives, fields_of, lines_of};
ghost use Rattle.list_core.specs.PartList.{bill_rows, came, equation, line_row, line_rows, line_words};
ghost use Rattle.list_core.specs.PartList.{part_header, part_list, part_row, piece_row, spaced};
ghost use Rattle.list_core.specs.PartList.{substitute_row, sums_row, used_row, went, word_if};
ghost use Rattle.report_core.specs.WhereUsed.{uses};

use crate::item_list::where_field;
use crate::origins::{Origin, key_field, origins};
use crate::place_list::indented;
use crate::rows::push_empty;
use bom_core::{Line, LineFlags, Substitute};
use desk_core::Shop;
use part_core::{CoreFault, Id, IndexedSheet, Part, Refusal, Worded};
use report_core::Report;
use report_core::fields::{
    amount_field, batch_field, name_field, number_field, serial_field, words_line,
};
use report_core::stock::is_gone;
use report_core::where_used::parts_using;
use std::alloc::{AllocError, Global};
use yard_core::{Item, Sums};

/// The words with a space between two.
pub(crate) fn spaced(alloc: Global, words: &[&str]) -> Result<String, AllocError>
    ensures { IfOk result (λ text. string_bytes text ≡ spaced (map (λ w. w.now) words.now)) }
{
    let mut text = String::new(alloc);
    let mut later = false;
    for word in words {
        if later {
            text.push_str(" ")?;
        }
        later = true;
        text.push_str(word)?;
    }
    Ok(text)
}

/// Adds the word where it holds.
pub(crate) fn push_word_if<'a>(
    words: &mut Vec<&'a str>,
    holds: bool,
    word: &'a str,
) -> Result<(), AllocError>
    ensures { OnOk result (map (λ w. w.now) words.new.items
        ≡ map (λ w. w.now) words.old.items ++ word_if holds word.now) }
{
    if holds {
        words.push(word)?;
    }
    Ok(())
}

/// The words for what a line asks for.
pub(crate) fn line_words(alloc: Global, flags: LineFlags) -> Result<Vec<&'static str>, AllocError>
    ensures { IfOk result (λ words. map (λ w. w.now) words.items ≡ line_words flags) }
{
    let mut words = Vec::new(alloc);
    push_word_if(&mut words, flags.optional, "optional")?;
    push_word_if(&mut words, flags.consumable, "consumable")?;
    push_word_if(&mut words, flags.inherited, "inherited")?;
    push_word_if(&mut words, flags.variants, "variants")?;
    Ok(words)
}

fn part_header(alloc: Global) -> Result<Vec<String>, AllocError>
    ensures { IfOk result (λ line. fields_of line ≡ part_header) }
{
    words_line(
        alloc,
        &[
            "kind", "number", "part", "name", "quantity", "more", "batch", "serial", "key",
        ],
    )
}

/// The part's own row, with its flags, and whether it is retired.
fn part_row(alloc: Global, part: &Part) -> Result<Vec<String>, AllocError>
    ensures { IfOk result (λ line. fields_of line ≡ part_row part.now) }
{
    let kind = String::from_str(alloc, "part")?;
    let number = number_field(alloc, part.number)?;
    let own = String::new(alloc);
    let name = String::from_str(alloc, part.name.as_str())?;
    let quantity = String::new(alloc);
    let mut words = part.flags.words(alloc)?;
    push_word_if(&mut words, part.retired, "retired")?;
    let more = spaced(alloc, words.as_slice())?;
    let mut row = vec![in alloc; kind, number, own, name, quantity, more]?;
    push_empty(alloc, &mut row, 3)?;
    Ok(row)
}

/// What came in of a part.
fn came(alloc: Global, sums: &Sums) -> Result<String, AllocError>
    ensures { IfOk result (λ text. string_bytes text ≡ came sums.now) }
{
    let Sums {
        received,
        found,
        built,
        returned,
        ..
    } = *sums;
    format!(in alloc; "received {received} + found {found} + built {built} + returned {returned}")
}

/// What of it is present, and what went.
fn went(alloc: Global, sums: &Sums) -> Result<String, AllocError>
    ensures { IfOk result (λ text. string_bytes text ≡ went sums.now) }
{
    let Sums {
        present,
        consumed,
        shipped,
        written,
        ..
    } = *sums;
    format!(in alloc;
        "present {present} + consumed {consumed} + shipped {shipped} + written off {written}"
    )
}

/// That as much came in as is present or went.
fn equation(alloc: Global, sums: &Sums) -> Result<String, AllocError>
    ensures { IfOk result (λ text. string_bytes text ≡ equation sums.now) }
{
    let mut text = came(alloc, sums)?;
    text.push_str(" = ")?;
    text.push_str(went(alloc, sums)?.as_str())?;
    Ok(text)
}

fn sums_row(alloc: Global, sums: &Sums) -> Result<Vec<String>, AllocError>
    ensures { IfOk result (λ line. fields_of line ≡ sums_row sums.now) }
{
    let kind = String::from_str(alloc, "sums")?;
    let number = String::new(alloc);
    let part = String::new(alloc);
    let name = String::new(alloc);
    let quantity = amount_field(alloc, sums.present)?;
    let more = equation(alloc, sums)?;
    let mut row = vec![in alloc; kind, number, part, name, quantity, more]?;
    push_empty(alloc, &mut row, 3)?;
    Ok(row)
}

/// The row of a line of a bill that stands so deep in the part's bill.
fn line_row(alloc: Global, shop: &Shop, depth: u64, line: &Line) -> Result<Vec<String>, AllocError>
    ensures { IfOk result (λ row. fields_of row ≡ line_row (state_of shop.now) depth line.now) }
{
    let kind = String::from_str(alloc, "line")?;
    let number = number_field(alloc, line.number)?;
    let part = number_field(alloc, line.component)?;
    let name = name_field(alloc, shop.catalogue(), line.component)?;
    let name = indented(alloc, depth, name.as_str())?;
    let quantity = number_field(alloc, line.quantity)?;
    let words = line_words(alloc, line.flags)?;
    let more = spaced(alloc, words.as_slice())?;
    let mut row = vec![in alloc; kind, number, part, name, quantity, more]?;
    push_empty(alloc, &mut row, 3)?;
    Ok(row)
}

/// The row of a substitute on a line that stands so deep in the part's bill.
fn substitute_row(
    alloc: Global,
    shop: &Shop,
    depth: u64,
    substitute: &Substitute,
) -> Result<Vec<String>, AllocError>
    ensures { IfOk result (λ row.
        fields_of row ≡ substitute_row (state_of shop.now) depth substitute.now) }
{
    let kind = String::from_str(alloc, "substitute")?;
    let number = number_field(alloc, substitute.number)?;
    let part = number_field(alloc, substitute.part)?;
    let name = name_field(alloc, shop.catalogue(), substitute.part)?;
    let name = indented(alloc, depth, name.as_str())?;
    let quantity = String::new(alloc);
    let more = String::new(alloc);
    let mut row = vec![in alloc; kind, number, part, name, quantity, more]?;
    push_empty(alloc, &mut row, 3)?;
    Ok(row)
}

/// Adds a row for each of the substitutes.
fn push_substitutes(
    alloc: Global,
    shop: &Shop,
    depth: u64,
    substitutes: &[&Substitute],
    lines: &mut Vec<Vec<String>>,
) -> Result<(), AllocError>
    ensures { OnOk result (lines_of lines.new.items ≡ lines_of lines.old.items
        ++ map (substitute_row (state_of shop.now) depth) (map (λ s. s.now) substitutes.now)) }
{
    for substitute in substitutes {
        lines.push(substitute_row(alloc, shop, depth, substitute)?)?;
    }
    Ok(())
}

/// The substitutes on the line. It looks at those alone.
fn substitutes_of(shop: &Shop, line: Id) -> Result<Vec<&Substitute>, AllocError>
    ensures { IfOk result (λ rows.
        map (λ s. s.now) rows.items ≡ substitutes_on line (state_of shop.now).bills) }
{
    shop.boms().substitutes_on(line)
}

/// Adds the line's row and those of its substitutes.
fn push_line(
    alloc: Global,
    shop: &Shop,
    depth: u64,
    line: &Line,
    lines: &mut Vec<Vec<String>>,
) -> Result<(), AllocError>
    ensures { OnOk result (lines_of lines.new.items
        ≡ lines_of lines.old.items ++ line_rows (state_of shop.now) depth line.now) }
{
    lines.push(line_row(alloc, shop, depth, line)?)?;
    let substitutes = substitutes_of(shop, line.number)?;
    push_substitutes(alloc, shop, depth, substitutes.as_slice(), lines)
}

/// The lines that hold for the part.
fn bill_of(shop: &Shop, part: Id) -> Result<Vec<&Line>, AllocError>
    ensures { IfOk result (λ bill. let s = state_of shop.now in
        map (λ l. l.now) bill.items ≡ effective s.parts s.bills part) }
{
    shop.boms().effective(shop.catalogue(), part)
}

/// Adds the bill of the part, so many levels deep: each line, followed by the bill of its component.
fn push_bill(
    alloc: Global,
    shop: &Shop,
    levels: u64,
    depth: u64,
    part: Id,
    lines: &mut Vec<Vec<String>>,
) -> Result<(), AllocError>
    requires { depth + levels < 2 ^ 32 }
    ensures { OnOk result (lines_of lines.new.items
        ≡ lines_of lines.old.items ++ bill_rows levels (state_of shop.now) depth part) }
{
    if levels == 0 {
        return Ok(());
    }
    let bill = bill_of(shop, part)?;
    for line in &bill {
        push_line(alloc, shop, depth, line, lines)?;
        push_bill(alloc, shop, levels - 1, depth + 1, line.component, lines)?;
    }
    Ok(())
}

fn used_row(alloc: Global, part: &Part) -> Result<Vec<String>, AllocError>
    ensures { IfOk result (λ row. fields_of row ≡ used_row part.now) }
{
    let kind = String::from_str(alloc, "used in")?;
    let number = number_field(alloc, part.number)?;
    let own = String::new(alloc);
    let name = String::from_str(alloc, part.name.as_str())?;
    let quantity = String::new(alloc);
    let more = String::new(alloc);
    let mut row = vec![in alloc; kind, number, own, name, quantity, more]?;
    push_empty(alloc, &mut row, 3)?;
    Ok(row)
}

/// Adds a row for each of the parts.
fn push_used(alloc: Global, parts: &[&Part], lines: &mut Vec<Vec<String>>) -> Result<(), AllocError>
    ensures { OnOk result (lines_of lines.new.items
        ≡ lines_of lines.old.items ++ map used_row (map (λ p. p.now) parts.now)) }
{
    for part in parts {
        lines.push(used_row(alloc, part)?)?;
    }
    Ok(())
}

/// The row of an item of the part, with its status where other rows have a name, and the key of the request that made it.
fn piece_row(
    alloc: Global,
    shop: &Shop,
    origins: &IndexedSheet<Origin>,
    item: &Item,
) -> Result<Vec<String>, AllocError>
    requires { now_of origins.now ≡ origins_in (state_of shop.now) }
    ensures { IfOk result (λ row. fields_of row ≡ piece_row (state_of shop.now) item.now) }
{
    let kind = String::from_str(alloc, "item")?;
    let number = number_field(alloc, item.number)?;
    let part = String::new(alloc);
    let status = String::from_str(alloc, item.lot.status.word())?;
    let quantity = number_field(alloc, item.quantity)?;
    let place = where_field(alloc, shop, item.place)?;
    let batch = batch_field(alloc, &item.lot.batch)?;
    let serial = serial_field(alloc, &item.lot.serial)?;
    let key = key_field(alloc, origins, item.number)?;
    Ok(vec![in alloc;
        kind, number, part, status, quantity, place, batch, serial, key,
    ]?)
}

/// Adds a row for each of the items that isn't gone.
fn push_left(
    alloc: Global,
    shop: &Shop,
    origins: &IndexedSheet<Origin>,
    items: &[&Item],
    lines: &mut Vec<Vec<String>>,
) -> Result<(), AllocError>
    requires { now_of origins.now ≡ origins_in (state_of shop.now) }
    ensures { OnOk result (lines_of lines.new.items ≡ lines_of lines.old.items
        ++ map (piece_row (state_of shop.now))
        (filter (λ i. not (is_gone i.place)) (map (λ i. i.now) items.now))) }
{
    for item in items {
        if !is_gone(item) {
            lines.push(piece_row(alloc, shop, origins, item)?)?;
        }
    }
    Ok(())
}

/// Adds a row for each item of the part that isn't gone. It looks at the part's items alone.
fn push_pieces(
    alloc: Global,
    shop: &Shop,
    origins: &IndexedSheet<Origin>,
    part: Id,
    lines: &mut Vec<Vec<String>>,
) -> Result<(), AllocError>
    requires { now_of origins.now ≡ origins_in (state_of shop.now) }
    ensures { let s = state_of shop.now in OnOk result (lines_of lines.new.items
        ≡ lines_of lines.old.items ++ map (piece_row s) (items_of part s)) }
{
    let items = shop.yard().items_of(part)?;
    push_left(alloc, shop, origins, items.as_slice(), lines)
}

/// Adds a row for each part that contains the part.
fn push_users(
    alloc: Global,
    shop: &Shop,
    part: Id,
    lines: &mut Vec<Vec<String>>,
) -> Result<(), AllocError>
    requires { IsSoundState (state_of shop.now) }
    ensures { let s = state_of shop.now in OnOk result (lines_of lines.new.items
        ≡ lines_of lines.old.items
        ++ map used_row (filter (uses s.parts s.bills part) (part_rows s.parts))) }
{
    let parts = parts_using(shop, part)?;
    push_used(alloc, parts.as_slice(), lines)
}

/// The header, the part's own row and its sums.
fn head_lines(alloc: Global, part: &Part, sums: &Sums) -> Result<Vec<Vec<String>>, AllocError>
    ensures { IfOk result (λ lines. lines_of lines.items
        ≡ part_header ∷ part_row part.now ∷ sums_row sums.now ∷ []) }
{
    let header = part_header(alloc)?;
    let own = part_row(alloc, part)?;
    let sums = sums_row(alloc, sums)?;
    Ok(vec![in alloc; header, own, sums]?)
}

fn part_lines(
    alloc: Global,
    shop: &Shop,
    part: &Part,
    number: Id,
    sums: &Sums,
) -> Result<Vec<Vec<String>>, AllocError>
    requires { IsSoundState (state_of shop.now) }
    ensures { IfOk result (λ lines. let s = state_of shop.now in lines_of lines.items
        ≡ part_header
        ∷ part_row part.now
        ∷ sums_row sums.now
        ∷ (bill_rows 16 s 1 number
        ++ (map used_row (filter (uses s.parts s.bills number) (part_rows s.parts))
        ++ map (piece_row s) (items_of number s)))) }
{
    let mut lines = head_lines(alloc, part, sums)?;
    push_bill(alloc, shop, 16, 1, number, &mut lines)?;
    push_users(alloc, shop, number, &mut lines)?;
    let origins = origins(alloc, shop)?;
    push_pieces(alloc, shop, &origins, number, &mut lines)?;
    Ok(lines)
}

/// The part of that number with its flags, its sums, its bill down to 16 levels, the parts that contain it, and its items
/// that aren't gone, each with the key of the request that made it. NoSuch where there is no such part. The sums look at
/// every item and every entry, and what is kept is gone over once.
pub fn part_list(alloc: Global, shop: &Shop, number: Id) -> Result<Report, CoreFault>
    requires { IsSoundState (state_of shop.now) }
    ensures { Gives (part_list number (state_of shop.now)) result }
{
    let Some(part) = shop.catalogue().part(number) else {
        return Err(CoreFault::Refused(Refusal::NoSuch));
    };
    let sums = shop.yard().sums(number);
    let lines = part_lines(alloc, shop, part, number, &sums)?;
    Ok(Report::new(lines))
}
