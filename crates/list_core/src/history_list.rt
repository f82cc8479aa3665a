//! The history in words: the entries of some days, on all items, or on those of a part, on an item, or of an order.
ghost use Rattle.std.specs.Prelude.{◌≡◌, map, option_map, IfOk};
ghost use Rattle.std.specs.FinMap as table;
ghost use Rattle.std.specs.String.{string_bytes};
ghost use Rattle.sheet_core.specs.Sheet.{now_of};
ghost use Rattle.desk_core.specs.ShopView.{state_of};
ghost use Rattle.report_core.specs.Lines.{Gives, fields_of, lines_of};
ghost use Rattle.list_core.specs.HistoryList.{batch_of, build_words, has_history, history_header};
ghost use Rattle.list_core.specs.HistoryList.{history_list, history_row, history_rows, is_from, is_listed};
ghost use Rattle.list_core.specs.HistoryList.{is_of, is_row, is_to, is_until, is_within, item_words, span_of};
ghost use Rattle.list_core.specs.HistoryList.{number_or_empty, order_key, partner_of, place_words};
ghost use Rattle.list_core.specs.HistoryList.{serial_of};
ghost use Rattle.list_core.specs.Trace.{build_at, item_in};

use crate::item_list::kind_name;
use crate::origins::{Origin, key_field, origins};
use crate::past::{order_of, whole_history};
use crate::trace_list::trace_where;
use desk_core::Shop;
use part_core::{CoreFault, Day, Id, IndexedSheet, Refusal};
use report_core::Report;
use report_core::fields::{batch_field, name_field, number_field, serial_field, words_line};
use std::alloc::{AllocError, Global};
use std::cmp::Ordering;
use yard_core::{Entry, Place};

/// Some days: from the first on, where one is given, to the last, where one is. Each is the text of a day, `YYYY-MM-DD`.
#[derive(Clone, Copy, Debug)]
pub struct Days<'a> {
    pub first: Option<&'a str>,
    pub last: Option<&'a str>,
}

/// Whether the day isn't after the other, by their texts.
fn is_until(day: &str, other: &str) -> bool
    ensures { result ≡ is_until day.now other.now }
{
    match day.as_bytes().cmp(other.as_bytes()) {
        Ordering::Less => true,
        Ordering::Equal => true,
        Ordering::Greater => false,
    }
}

fn is_from(first: Option<&str>, day: &str) -> bool
    ensures { result ≡ is_from (option_map (λ t. t.now) first.entry) day.now }
{
    match first {
        None => true,
        Some(first) => is_until(first, day),
    }
}

fn is_to(last: Option<&str>, day: &str) -> bool
    ensures { result ≡ is_to (option_map (λ t. t.now) last.entry) day.now }
{
    match last {
        None => true,
        Some(last) => is_until(day, last),
    }
}

/// Whether the day is one of these. An error is one of memory.
fn is_within(alloc: Global, days: &Days<'_>, day: &Day) -> Result<bool, AllocError>
    ensures { IfOk result (λ within. within ≡ is_within (span_of days.now) day.now) }
{
    let text = day.text(alloc)?;
    if !is_from(days.first, text.as_str()) {
        return Ok(false);
    }
    Ok(is_to(days.last, text.as_str()))
}

/// Whether the entry is of the part, the item or the order of that number; where none is given, it is.
fn is_of(shop: &Shop, origins: &IndexedSheet<Origin>, of: Option<Id>, entry: &Entry) -> bool
    ensures { result ≡ is_of of (state_of shop.now) (now_of origins.now) entry.now }
{
    let Some(number) = of else {
        return true;
    };
    if entry.note.part == number || entry.note.item == number {
        return true;
    }
    match order_of(shop, origins, entry) {
        Some(order) => order == number,
        None => false,
    }
}

/// Whether the entry is listed. An error is one of memory.
fn is_listed(
    alloc: Global,
    shop: &Shop,
    origins: &IndexedSheet<Origin>,
    of: Option<Id>,
    days: &Days<'_>,
    entry: &Entry,
) -> Result<bool, AllocError>
    ensures { IfOk result (λ listed. listed
        ≡ is_listed of (span_of days.now) (state_of shop.now) (now_of origins.now) entry.now) }
{
    if !is_within(alloc, days, &entry.day)? {
        return Ok(false);
    }
    Ok(is_of(shop, origins, of, entry))
}

/// The item of that number by its number, its part's name, and its serial, where it has one.
fn item_words(alloc: Global, shop: &Shop, number: Id) -> Result<String, AllocError>
    ensures { IfOk result (λ text. let s = state_of shop.now in
        string_bytes text ≡ item_words s number (item_in number s)) }
{
    let Some(item) = shop.yard().item(number) else {
        return number_field(alloc, number);
    };
    let name = name_field(alloc, shop.catalogue(), item.part)?;
    match &item.lot.serial {
        Some(serial) => {
            let serial = serial.as_str();
            format!(in alloc; "{number} {name} {serial}")
        }
        None => format!(in alloc; "{number} {name}"),
    }
}

/// The build of that number by its number, and the name of what it makes.
fn build_words(alloc: Global, shop: &Shop, number: Id) -> Result<String, AllocError>
    ensures { IfOk result (λ text. let s = state_of shop.now in
        string_bytes text ≡ build_words s number (build_at number s)) }
{
    let Some(build) = shop.builds().build(number) else {
        return number_field(alloc, number);
    };
    let name = name_field(alloc, shop.catalogue(), build.part)?;
    format!(in alloc; "{number} of {name}")
}

/// A place in words.
pub(crate) fn place_words(alloc: Global, shop: &Shop, place: Place) -> Result<String, AllocError>
    ensures { IfOk result (λ text. string_bytes text ≡ place_words (state_of shop.now) place) }
{
    match place {
        Place::In(number) => {
            let item = item_words(alloc, shop, number)?;
            format!(in alloc; "in {item}")
        }
        Place::Output(number) => {
            let build = build_words(alloc, shop, number)?;
            format!(in alloc; "output {build}")
        }
        Place::Used(number) => {
            let build = build_words(alloc, shop, number)?;
            format!(in alloc; "used {build}")
        }
        _ => trace_where(alloc, shop, place),
    }
}

/// The batch of the item of that number, or nothing where it has none or isn't there.
fn batch_of(alloc: Global, shop: &Shop, number: Id) -> Result<String, AllocError>
    ensures { IfOk result (λ text.
        string_bytes text ≡ batch_of (item_in number (state_of shop.now))) }
{
    match shop.yard().item(number) {
        Some(item) => batch_field(alloc, &item.lot.batch),
        None => Ok(String::new(alloc)),
    }
}

/// The serial of the item of that number, or nothing where it has none or isn't there.
fn serial_of(alloc: Global, shop: &Shop, number: Id) -> Result<String, AllocError>
    ensures { IfOk result (λ text.
        string_bytes text ≡ serial_of (item_in number (state_of shop.now))) }
{
    match shop.yard().item(number) {
        Some(item) => serial_field(alloc, &item.lot.serial),
        None => Ok(String::new(alloc)),
    }
}

/// A number's digits, or nothing where there is none.
fn number_or_empty(alloc: Global, number: Option<u64>) -> Result<String, AllocError>
    ensures { IfOk result (λ text. string_bytes text ≡ number_or_empty number) }
{
    match number {
        Some(number) => number_field(alloc, number),
        None => Ok(String::new(alloc)),
    }
}

/// The partner of the order of that number, or nothing where none is given or there is no such order.
pub(crate) fn partner_of(
    alloc: Global,
    shop: &Shop,
    order: Option<Id>,
) -> Result<String, AllocError>
    ensures { IfOk result (λ text. string_bytes text ≡ partner_of (state_of shop.now) order) }
{
    let Some(number) = order else {
        return Ok(String::new(alloc));
    };
    match shop.orders().order(number) {
        Some(order) => String::from_str(alloc, order.partner.as_str()),
        None => Ok(String::new(alloc)),
    }
}

/// The key of the request that made the order, or nothing where none is given or no key is kept.
fn order_key(
    alloc: Global,
    origins: &IndexedSheet<Origin>,
    order: Option<Id>,
) -> Result<String, AllocError>
    ensures { IfOk result (λ text. string_bytes text ≡ order_key (now_of origins.now) order) }
{
    match order {
        Some(number) => key_field(alloc, origins, number),
        None => Ok(String::new(alloc)),
    }
}

fn history_header(alloc: Global) -> Result<Vec<String>, AllocError>
    ensures { IfOk result (λ line. fields_of line ≡ history_header) }
{
    words_line(
        alloc,
        &[
            "entry",
            "day",
            "what",
            "quantity",
            "part",
            "item",
            "batch",
            "serial",
            "where",
            "order",
            "partner",
            "order key",
            "key",
        ],
    )
}

fn history_row(
    alloc: Global,
    shop: &Shop,
    origins: &IndexedSheet<Origin>,
    entry: &Entry,
) -> Result<Vec<String>, AllocError>
    ensures { IfOk result (λ line. fields_of line
        ≡ history_row (state_of shop.now) (now_of origins.now) entry.now) }
{
    let note = entry.note;
    let by = order_of(shop, origins, entry);
    let number = number_field(alloc, entry.number)?;
    let day = entry.day.text(alloc)?;
    let kind = String::from_str(alloc, kind_name(note.kind))?;
    let quantity = number_field(alloc, note.quantity)?;
    let part = name_field(alloc, shop.catalogue(), note.part)?;
    let item = number_field(alloc, note.item)?;
    let batch = batch_of(alloc, shop, note.item)?;
    let serial = serial_of(alloc, shop, note.item)?;
    let place = place_words(alloc, shop, note.place)?;
    let order = number_or_empty(alloc, by)?;
    let partner = partner_of(alloc, shop, by)?;
    let order_key = order_key(alloc, origins, by)?;
    let key = key_field(alloc, origins, note.item)?;
    Ok(vec![in alloc;
        number, day, kind, quantity, part, item, batch, serial, place, order, partner, order_key,
        key,
    ]?)
}

/// The header, and the rows of those of the entries that are listed.
fn history_rows(
    alloc: Global,
    shop: &Shop,
    origins: &IndexedSheet<Origin>,
    of: Option<Id>,
    days: &Days<'_>,
    entries: &[Entry],
) -> Result<Vec<Vec<String>>, AllocError>
    ensures { IfOk result (λ lines. lines_of lines.items
        ≡ history_rows of (span_of days.now) (state_of shop.now) (now_of origins.now) entries.now) }
{
    let mut lines = vec![in alloc; history_header(alloc)?]?;
    for entry in entries {
        if is_listed(alloc, shop, origins, of, days, entry)? {
            lines.push(history_row(alloc, shop, origins, entry)?)?;
        }
    }
    Ok(lines)
}

/// Whether a part, an item or an order has the number.
fn is_row(shop: &Shop, number: Id) -> bool
    ensures { result ≡ is_row number (state_of shop.now) }
{
    shop.catalogue().part(number).is_some()
        || shop.yard().item(number).is_some()
        || shop.orders().order(number).is_some()
}

fn has_history(shop: &Shop, of: Option<Id>) -> bool
    ensures { result ≡ has_history of (state_of shop.now) }
{
    match of {
        Some(number) => is_row(shop, number),
        None => true,
    }
}

/// The entries of these days, in order, on all items or on those of a part, on an item, or by which something of an order
/// was delivered or sent. NoSuch where a number is given and no part, item or order has it. It goes over what is kept and
/// over the history once.
pub fn history_list(
    alloc: Global,
    shop: &Shop,
    of: Option<Id>,
    days: &Days<'_>,
) -> Result<Report, CoreFault>
    ensures { Gives (history_list of (span_of days.now) (state_of shop.now)) result }
{
    if !has_history(shop, of) {
        return Err(CoreFault::Refused(Refusal::NoSuch));
    }
    let origins = origins(alloc, shop)?;
    let lines = history_rows(alloc, shop, &origins, of, days, whole_history(shop))?;
    Ok(Report::new(lines))
}
