//! Facts of the rows that a command names, for whoever is told why it was refused: the state of each row as the tables
//! have it, and the amounts that were asked for.
ghost use Rattle.std.specs.Prelude.{◌≡◌, ◌++◌, ◌∷◌, [], Some, codes, filter, length, map, option_map};
ghost use Rattle.std.specs.Prelude.{IfOk, OnOk};
ghost use Rattle.std.specs.FinMap as table;
ghost use Rattle.std.specs.String.{string_bytes};
ghost use Rattle.part_core.specs.Catalogue.{part_in};
ghost use Rattle.word_core.specs.Flags.{flag_words};
ghost use Rattle.word_core.specs.Forms.{shown_fields};
ghost use Rattle.sheet_core.specs.Sheet.{now_of};
ghost use Rattle.alloc_core.specs.Allocations.{allocation_in};
ghost use Rattle.desk_core.specs.ShopView.{state_of};
ghost use Rattle.list_core.specs.Facts.{allocation_words, batch_words, build_facts, build_words, by_order, commas};
ghost use Rattle.list_core.specs.Facts.{facts_from, facts_of, field_facts, is_left, is_missing, item_words};
ghost use Rattle.list_core.specs.Facts.{left_fact, line_facts, lot_words, many, many_of, missing_fact, numbered};
ghost use Rattle.list_core.specs.Facts.{order_facts, order_line_words, order_words, output_words, part_words};
ghost use Rattle.list_core.specs.Facts.{purpose_words, row_fact, row_words, serial_words, substitute_words};
ghost use Rattle.list_core.specs.Facts.{text_fact, words_or_none, words_or_nothing};
ghost use Rattle.report_core.specs.Lines.{fields_of};
ghost use Rattle.list_core.specs.Ways.{way_text};

use crate::amounts::free_of;
use crate::build_list::build_state_name;
use crate::item_list::where_field;
use crate::order_list::{order_state_name, outstanding};
use crate::part_list::{line_words, push_word_if, spaced};
use crate::ways::way_field;
use alloc_core::{OutputNumber, Purpose};
use build_core::{Build, Shortage};
use desk_core::Shop;
use order_core::{Order, OrderLine};
use part_core::{
    Batch, Field, FieldKind, Flags, Formed, Id, NamedRow, RowKind, Serial, Sheet, Worded,
};
use report_core::fields::{name_field, number_field, words_line};
use report_core::shortage::wants_of;
use std::alloc::{AllocError, Global};
use yard_core::Item;

/// The texts with a comma between two.
pub(crate) fn commas(alloc: Global, texts: &[String]) -> Result<String, AllocError>
    ensures { IfOk result (λ text. string_bytes text ≡ commas (map string_bytes texts.now)) }
{
    let mut text = String::new(alloc);
    let mut later = false;
    for word in texts {
        if later {
            text.push_str(", ")?;
        }
        later = true;
        text.push_str(word.as_str())?;
    }
    Ok(text)
}

/// So many of something.
fn many(alloc: Global, amount: u128, what: &str) -> Result<String, AllocError>
    ensures { IfOk result (λ text. string_bytes text ≡ many amount what.now) }
{
    format!(in alloc; "{amount} {what}")
}

/// So many of a part.
fn many_of(alloc: Global, amount: u128, part: &str, what: &str) -> Result<String, AllocError>
    ensures { IfOk result (λ text. string_bytes text ≡ many_of amount part.now what.now) }
{
    format!(in alloc; "{amount} of {part} {what}")
}

/// Something with its number.
fn numbered(alloc: Global, what: &str, number: Id) -> Result<String, AllocError>
    ensures { IfOk result (λ text. string_bytes text ≡ numbered what.now number) }
{
    format!(in alloc; "{what} {number}")
}

/// A field's name, and what stands in the field.
fn text_fact(alloc: Global, name: &str, text: &str) -> Result<String, AllocError>
    ensures { IfOk result (λ fact. string_bytes fact ≡ text_fact name.now text.now) }
{
    format!(in alloc; "{name} {text}")
}

/// The way of the category or the location of that number, if there is one.
fn way_words(
    alloc: Global,
    rows: &Sheet<NamedRow>,
    number: Id,
) -> Result<Option<Vec<String>>, AllocError>
    ensures { IfOk result (λ words. option_map fields_of words
        ≡ option_map (λ _. way_text (Some number) (now_of rows.now) ∷ [])
        (table.get (now_of rows.now) (number ∷ []))) }
{
    if rows.get(&number).is_none() {
        return Ok(None);
    }
    let way = way_field(alloc, rows, Some(number))?;
    Ok(Some(vec![in alloc; way]?))
}

/// What is said of the part of that number, if there is one: its name, its flags, and whether it is retired.
fn part_words(alloc: Global, shop: &Shop, number: Id) -> Result<Option<Vec<String>>, AllocError>
    ensures { IfOk result (λ words. option_map fields_of words
        ≡ option_map part_words (part_in number (state_of shop.now).parts)) }
{
    let Some(part) = shop.catalogue().part(number) else {
        return Ok(None);
    };
    let name = String::from_str(alloc, part.name.as_str())?;
    let mut flags = part.flags.words(alloc)?;
    push_word_if(&mut flags, part.retired, "retired")?;
    let mut words = vec![in alloc; name]?;
    let mut more = words_line(alloc, flags.as_slice())?;
    words.append(&mut more)?;
    Ok(Some(words))
}

/// What is said of the line of a bill of that number, if there is one: how many go into one piece, and what it asks for.
fn line_facts(alloc: Global, shop: &Shop, number: Id) -> Result<Option<Vec<String>>, AllocError>
    ensures { IfOk result (λ words. let s = state_of shop.now in option_map fields_of words
        ≡ option_map (line_facts s) (table.get s.bills.lines (number ∷ []))) }
{
    let Some(line) = shop.boms().line(number) else {
        return Ok(None);
    };
    let component = name_field(alloc, shop.catalogue(), line.component)?;
    let quantity = many(alloc, u128::from(line.quantity), component.as_str())?;
    let assembly = name_field(alloc, shop.catalogue(), line.assembly)?;
    let assembly = text_fact(alloc, "in", assembly.as_str())?;
    let flags = line_words(alloc, line.flags)?;
    let mut words = vec![in alloc; quantity, assembly]?;
    let mut more = words_line(alloc, flags.as_slice())?;
    words.append(&mut more)?;
    Ok(Some(words))
}

/// What is said of the substitute of that number, if there is one.
fn substitute_words(
    alloc: Global,
    shop: &Shop,
    number: Id,
) -> Result<Option<Vec<String>>, AllocError>
    ensures { IfOk result (λ words. let s = state_of shop.now in option_map fields_of words
        ≡ option_map (substitute_words s) (table.get s.bills.substitutes (number ∷ []))) }
{
    let Some(substitute) = shop.boms().substitute(number) else {
        return Ok(None);
    };
    let part = name_field(alloc, shop.catalogue(), substitute.part)?;
    let line = numbered(alloc, "in line", substitute.line)?;
    Ok(Some(vec![in alloc; part, line]?))
}

/// An item's serial number, where it has one.
fn serial_words(alloc: Global, serial: &Option<Serial>) -> Result<Vec<String>, AllocError>
    ensures { IfOk result (λ words. fields_of words ≡ serial_words serial.now) }
{
    match serial {
        Some(serial) => {
            let text = text_fact(alloc, "serial", serial.as_str())?;
            Ok(vec![in alloc; text]?)
        }
        None => Ok(Vec::new(alloc)),
    }
}

fn batch_words(alloc: Global, batch: &Option<Batch>) -> Result<Vec<String>, AllocError>
    ensures { IfOk result (λ words. fields_of words ≡ batch_words batch.now) }
{
    match batch {
        Some(batch) => {
            let text = text_fact(alloc, "batch", batch.as_str())?;
            Ok(vec![in alloc; text]?)
        }
        None => Ok(Vec::new(alloc)),
    }
}

/// The batch and the serial of an item, where it has one.
fn lot_words(alloc: Global, item: &Item) -> Result<Vec<String>, AllocError>
    ensures { IfOk result (λ words. fields_of words ≡ lot_words item.now) }
{
    let mut words = batch_words(alloc, &item.lot.batch)?;
    let mut serial = serial_words(alloc, &item.lot.serial)?;
    words.append(&mut serial)?;
    Ok(words)
}

/// What is said of the item of that number, if there is one: its part, its batch, its serial, where it is, how much of it
/// there is, how much of that is free, and its status.
fn item_words(alloc: Global, shop: &Shop, number: Id) -> Result<Option<Vec<String>>, AllocError>
    ensures { IfOk result (λ words. let s = state_of shop.now in option_map fields_of words
        ≡ option_map (item_words s) (table.get s.stock.items (number ∷ []))) }
{
    let Some(item) = shop.yard().item(number) else {
        return Ok(None);
    };
    let part = name_field(alloc, shop.catalogue(), item.part)?;
    let mut words = vec![in alloc; part]?;
    let mut lot = lot_words(alloc, item)?;
    words.append(&mut lot)?;
    let place = where_field(alloc, shop, item.place)?;
    let quantity = number_field(alloc, item.quantity)?;
    let free = many(alloc, free_of(shop, item), "free")?;
    let status = String::from_str(alloc, item.lot.status.word())?;
    let mut more = vec![in alloc; place, quantity, free, status]?;
    words.append(&mut more)?;
    Ok(Some(words))
}

/// What is said of an order: its side, its state, and whom it is with.
fn order_words(alloc: Global, order: &Order) -> Result<Vec<String>, AllocError>
    ensures { IfOk result (λ words. fields_of words ≡ order_words order.now) }
{
    let side = String::from_str(alloc, order.side.word())?;
    let state = String::from_str(alloc, order_state_name(order.state))?;
    let partner = String::from_str(alloc, order.partner.as_str())?;
    Ok(vec![in alloc; side, state, partner]?)
}

/// How much of a line is outstanding.
fn left_fact(
    alloc: Global,
    shop: &Shop,
    order: &Order,
    line: &OrderLine,
) -> Result<String, AllocError>
    ensures { IfOk result (λ fact.
        string_bytes fact ≡ left_fact (state_of shop.now) order.now line.now) }
{
    let part = name_field(alloc, shop.catalogue(), line.part)?;
    let left = u128::from(outstanding(order, line));
    many_of(alloc, left, part.as_str(), "outstanding")
}

/// Adds what is outstanding of each of the lines of which something is.
fn push_left(
    alloc: Global,
    shop: &Shop,
    order: &Order,
    lines: &[&OrderLine],
    facts: &mut Vec<String>,
) -> Result<(), AllocError>
    ensures { OnOk result (fields_of facts.new ≡ fields_of facts.old
        ++ map (left_fact (state_of shop.now) order.now)
        (filter (is_left order.now) (map (λ l. l.now) lines.now))) }
{
    for line in lines {
        if outstanding(order, line) > 0 {
            facts.push(left_fact(alloc, shop, order, line)?)?;
        }
    }
    Ok(())
}

/// What is said of an order, and what is outstanding of its lines, in order of number. It looks at those alone.
fn order_facts(alloc: Global, shop: &Shop, order: &Order) -> Result<Vec<String>, AllocError>
    ensures { IfOk result (λ facts.
        fields_of facts ≡ order_facts (state_of shop.now) order.now) }
{
    let mut facts = order_words(alloc, order)?;
    let lines = shop.orders().lines_of(order.number)?;
    push_left(alloc, shop, order, lines.as_slice(), &mut facts)?;
    Ok(facts)
}

/// What is said of the order of that number, if there is one.
fn order_row_words(
    alloc: Global,
    shop: &Shop,
    number: Id,
) -> Result<Option<Vec<String>>, AllocError>
    ensures { IfOk result (λ words. let s = state_of shop.now in option_map fields_of words
        ≡ option_map (order_facts s) (table.get s.orders (number ∷ []))) }
{
    let Some(order) = shop.orders().order(number) else {
        return Ok(None);
    };
    Ok(Some(order_facts(alloc, shop, order)?))
}

/// What is said of the order that a line is of, and how many are still outstanding.
fn by_order(alloc: Global, shop: &Shop, line: &OrderLine) -> Result<Vec<String>, AllocError>
    ensures { IfOk result (λ words. let s = state_of shop.now in fields_of words
        ≡ by_order line.now (table.get s.orders (line.now.order ∷ []))) }
{
    let Some(order) = shop.orders().order(line.order) else {
        return Ok(Vec::new(alloc));
    };
    let left = many(alloc, u128::from(outstanding(order, line)), "outstanding")?;
    let mut words = vec![in alloc; left]?;
    let mut more = order_words(alloc, order)?;
    words.append(&mut more)?;
    Ok(words)
}

/// What is said of the line of an order of that number, if there is one: how many are wanted, done and allocated, and
/// what is said of its order.
fn order_line_words(
    alloc: Global,
    shop: &Shop,
    number: Id,
) -> Result<Option<Vec<String>>, AllocError>
    ensures { IfOk result (λ words. let s = state_of shop.now in option_map fields_of words
        ≡ option_map (order_line_words s) (table.get s.order_lines (number ∷ []))) }
{
    let Some(line) = shop.orders().line(number) else {
        return Ok(None);
    };
    let part = name_field(alloc, shop.catalogue(), line.part)?;
    let wanted = many(alloc, u128::from(line.quantity), "wanted")?;
    let done = many(alloc, u128::from(line.done), "done")?;
    let allocated = shop.allocations().allocated_for_sale_line(line.number);
    let allocated = many(alloc, allocated, "allocated")?;
    let order = numbered(alloc, "order", line.order)?;
    let mut words = vec![in alloc; part, wanted, done, allocated, order]?;
    let mut more = by_order(alloc, shop, line)?;
    words.append(&mut more)?;
    Ok(Some(words))
}

/// What is said of a build itself: its part, its state, and how many are wanted and done.
fn build_words(alloc: Global, shop: &Shop, build: &Build) -> Result<Vec<String>, AllocError>
    ensures { IfOk result (λ words. fields_of words ≡ build_words (state_of shop.now) build.now) }
{
    let part = name_field(alloc, shop.catalogue(), build.part)?;
    let state = String::from_str(alloc, build_state_name(build.state))?;
    let wanted = many(alloc, u128::from(build.quantity), "wanted")?;
    let done = many(alloc, u128::from(build.done), "done")?;
    Ok(vec![in alloc; part, state, wanted, done]?)
}

/// How much is missing of what a build wants of a line.
fn missing_fact(alloc: Global, shop: &Shop, want: &Shortage) -> Result<String, AllocError>
    ensures { IfOk result (λ fact.
        string_bytes fact ≡ missing_fact (state_of shop.now) want.now) }
{
    let part = name_field(alloc, shop.catalogue(), want.component)?;
    many_of(alloc, want.missing, part.as_str(), "missing")
}

/// Adds what is missing of each of the lines of which something is.
fn push_missing(
    alloc: Global,
    shop: &Shop,
    wants: &[Shortage],
    facts: &mut Vec<String>,
) -> Result<(), AllocError>
    ensures { OnOk result (fields_of facts.new ≡ fields_of facts.old
        ++ map (missing_fact (state_of shop.now)) (filter is_missing wants.now)) }
{
    for want in wants {
        if want.missing > 0 {
            facts.push(missing_fact(alloc, shop, want)?)?;
        }
    }
    Ok(())
}

/// What is said of a build, and what is missing of the lines of its bill, in order of number.
fn build_facts(alloc: Global, shop: &Shop, build: &Build) -> Result<Vec<String>, AllocError>
    ensures { IfOk result (λ facts.
        fields_of facts ≡ build_facts (state_of shop.now) build.now) }
{
    let mut facts = build_words(alloc, shop, build)?;
    let wants = wants_of(alloc, shop, build.number)?;
    push_missing(alloc, shop, wants.as_slice(), &mut facts)?;
    Ok(facts)
}

/// What is said of the build of that number, if there is one.
fn build_row_words(
    alloc: Global,
    shop: &Shop,
    number: Id,
) -> Result<Option<Vec<String>>, AllocError>
    ensures { IfOk result (λ words. let s = state_of shop.now in option_map fields_of words
        ≡ option_map (build_facts s) (table.get s.builds (number ∷ []))) }
{
    let Some(build) = shop.builds().build(number) else {
        return Ok(None);
    };
    Ok(Some(build_facts(alloc, shop, build)?))
}

/// An output of a build, where one is named.
fn output_words(alloc: Global, output: &Option<OutputNumber>) -> Result<Vec<String>, AllocError>
    ensures { IfOk result (λ words. fields_of words ≡ output_words output.now) }
{
    match output {
        Some(output) => {
            let text = numbered(alloc, "output", output.number())?;
            Ok(vec![in alloc; text]?)
        }
        None => Ok(Vec::new(alloc)),
    }
}

/// What an allocation is for.
fn purpose_words(alloc: Global, purpose: &Purpose) -> Result<Vec<String>, AllocError>
    ensures { IfOk result (λ words. fields_of words ≡ purpose_words purpose.now) }
{
    match purpose {
        Purpose::Sale { order, line } => {
            let order = numbered(alloc, "order", *order)?;
            let line = numbered(alloc, "line", *line)?;
            Ok(vec![in alloc; order, line]?)
        }
        Purpose::Build {
            build,
            line,
            output,
        } => {
            let build = numbered(alloc, "build", *build)?;
            let line = numbered(alloc, "line", *line)?;
            let mut words = vec![in alloc; build, line]?;
            let mut more = output_words(alloc, output)?;
            words.append(&mut more)?;
            Ok(words)
        }
    }
}

/// What is said of the allocation of that number, if there is one: how many, of which item, and what for.
fn allocation_words(
    alloc: Global,
    shop: &Shop,
    number: Id,
) -> Result<Option<Vec<String>>, AllocError>
    ensures { IfOk result (λ words. option_map fields_of words
        ≡ option_map allocation_words (allocation_in number (state_of shop.now).allocations)) }
{
    let Some(allocation) = shop.allocations().allocation(number) else {
        return Ok(None);
    };
    let quantity = number_field(alloc, allocation.quantity)?;
    let item = numbered(alloc, "item", allocation.item)?;
    let mut words = vec![in alloc; quantity, item]?;
    let mut more = purpose_words(alloc, &allocation.purpose)?;
    words.append(&mut more)?;
    Ok(Some(words))
}

/// What is said of the row of that number in a table: none where there is no such row.
fn row_words(
    alloc: Global,
    shop: &Shop,
    kind: RowKind,
    number: Id,
) -> Result<Option<Vec<String>>, AllocError>
    ensures { IfOk result (λ words.
        option_map fields_of words ≡ row_words (state_of shop.now) kind number) }
{
    match kind {
        RowKind::Category => way_words(alloc, shop.catalogue().categories(), number),
        RowKind::Part => part_words(alloc, shop, number),
        RowKind::Line => line_facts(alloc, shop, number),
        RowKind::Substitute => substitute_words(alloc, shop, number),
        RowKind::Location => way_words(alloc, shop.yard().locations(), number),
        RowKind::Item => item_words(alloc, shop, number),
        RowKind::Order => order_row_words(alloc, shop, number),
        RowKind::OrderLine => order_line_words(alloc, shop, number),
        RowKind::Build => build_row_words(alloc, shop, number),
        RowKind::Allocation => allocation_words(alloc, shop, number),
    }
}

/// What is said of a row, or that there is no such row.
fn words_or_none(alloc: Global, words: &Option<Vec<String>>) -> Result<String, AllocError>
    ensures { IfOk result (λ text.
        string_bytes text ≡ words_or_none (option_map fields_of words.now)) }
{
    match words {
        Some(words) => commas(alloc, words.as_slice()),
        None => String::from_str(alloc, "no such row"),
    }
}

/// A row that a field names: the field, the row's number, and in brackets what the tables say of it, or that there is no
/// such row. An error is one of memory.
pub fn row_fact(
    alloc: Global,
    shop: &Shop,
    name: &str,
    kind: RowKind,
    number: Id,
) -> Result<String, AllocError>
    ensures { IfOk result (λ text.
        string_bytes text ≡ row_fact (state_of shop.now) name.now kind number) }
{
    let words = row_words(alloc, shop, kind, number)?;
    let words = words_or_none(alloc, &words)?;
    let row = numbered(alloc, name, number)?;
    format!(in alloc; "{row} ({words})")
}

/// A fact for each of the rows of a table that a field names.
fn row_facts(
    alloc: Global,
    shop: &Shop,
    name: &str,
    kind: RowKind,
    numbers: &[Id],
) -> Result<Vec<String>, AllocError>
    ensures { IfOk result (λ facts. fields_of facts
        ≡ map (row_fact (state_of shop.now) name.now kind) numbers.now) }
{
    let mut facts = Vec::with_capacity(alloc, numbers.len())?;
    for number in numbers {
        facts.push(row_fact(alloc, shop, name, kind, *number)?)?;
    }
    Ok(facts)
}

/// The words of flags, or that there are none.
fn words_or_nothing(alloc: Global, words: &[&str]) -> Result<String, AllocError>
    ensures { IfOk result (λ text.
        string_bytes text ≡ words_or_nothing (map (λ w. w.now) words.now)) }
{
    if words.is_empty() {
        return String::from_str(alloc, "none");
    }
    spaced(alloc, words)
}

/// A field of flags, with their words.
fn flags_fact(alloc: Global, name: &str, flags: Flags) -> Result<String, AllocError>
    ensures { IfOk result (λ fact.
        string_bytes fact ≡ text_fact name.now (words_or_nothing (flag_words flags))) }
{
    let words = flags.words(alloc)?;
    let words = words_or_nothing(alloc, words.as_slice())?;
    text_fact(alloc, name, words.as_str())
}

/// A field of serials, with how many there are.
fn count_fact(alloc: Global, name: &str, serials: &[Serial]) -> Result<String, AllocError>
    ensures { IfOk result (λ fact. string_bytes fact ≡ many (length serials.now) name.now) }
{
    many(alloc, serials.len() as u128, name)
}

/// What is said of a field of that name and kind: each row that it names, or an amount, a text, flags, a status, a side,
/// or how many serials there are.
fn field_facts(
    alloc: Global,
    shop: &Shop,
    name: &str,
    kind: FieldKind,
    field: &Field,
) -> Result<Vec<String>, AllocError>
    ensures { IfOk result (λ facts. fields_of facts
        ≡ field_facts (state_of shop.now) name.now kind field.now) }
{
    let fact = match (kind, field) {
        (FieldKind::Number, Field::Number(number)) => numbered(alloc, name, *number)?,
        (FieldKind::Row(of), Field::Number(number))
        | (FieldKind::MaybeRow(of), Field::MaybeNumber(Some(number))) => {
            row_fact(alloc, shop, name, of, *number)?
        }
        (FieldKind::Rows(of), Field::Numbers(numbers)) => {
            return row_facts(alloc, shop, name, of, numbers.as_slice());
        }
        (FieldKind::Text, Field::Text(text))
        | (FieldKind::MaybeText, Field::MaybeText(Some(text))) => {
            text_fact(alloc, name, text.as_str())?
        }
        (FieldKind::Flags, Field::Flags(flags)) => flags_fact(alloc, name, *flags)?,
        (FieldKind::Serials, Field::Serials(serials))
        | (FieldKind::MaybeSerials, Field::MaybeSerials(Some(serials))) => {
            count_fact(alloc, name, serials.as_slice())?
        }
        (FieldKind::Status, Field::Status(status)) => text_fact(alloc, name, status.word())?,
        (FieldKind::Side, Field::Side(side)) => text_fact(alloc, name, side.word())?,
        _ => return Ok(Vec::new(alloc)),
    };
    Ok(vec![in alloc; fact]?)
}

/// What is said of the fields of a form, in its order.
fn facts_from(
    alloc: Global,
    shop: &Shop,
    blanks: &[(&'static str, FieldKind)],
    fields: &[Field],
) -> Result<Vec<String>, AllocError>
    ensures { IfOk result (λ facts. fields_of facts
        ≡ facts_from (state_of shop.now) (shown_fields blanks.now) fields.now) }
{
    let mut facts = Vec::new(alloc);
    for ((name, kind), field) in blanks.iter().zip(fields) {
        let mut more = field_facts(alloc, shop, name, *kind, field)?;
        facts.append(&mut more)?;
    }
    Ok(facts)
}

/// The facts of a command, in the order of its verb's form: each row that it names, each amount, text, status or side that
/// it says, its flags, and how many serials it has. An error is one of memory.
pub(crate) fn facts<C: Formed>(
    alloc: Global,
    shop: &Shop,
    command: &C,
) -> Result<Vec<String>, AllocError>
    ensures { IfOk result (λ facts. fields_of facts
        ≡ facts_of C.forms_of (C.verb_of command.now) (C.fields_of command.now)
        (state_of shop.now)) }
{
    let fields = command.fields(alloc)?;
    let Some(form) = C::form(command.verb()) else {
        return Ok(Vec::new(alloc));
    };
    facts_from(alloc, shop, form.fields, fields.as_slice())
}
