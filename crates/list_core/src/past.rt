//! What the lists of orders and builds say of the past of each: the key of the request that made it, the day of that key,
//! and the last day on which something of it came or went.
ghost use Rattle.std.specs.Prelude.{◌≡◌, ◌∷◌, [], IfOk, OnOk, option_map};
ghost use Rattle.std.specs.FinMap as table;
ghost use Rattle.std.specs.String.{string_bytes};
ghost use Rattle.sheet_core.specs.Sheet.{now_of};
ghost use Rattle.desk_core.specs.ShopView.{state_of};
ghost use Rattle.list_core.specs.Origins.{day_or_empty, origin_at};
ghost use Rattle.list_core.specs.Past.{IsPast, build_of, built_for, day_in, gathered_days, is_output, number_of};
ghost use Rattle.list_core.specs.Past.{order_of, order_of_line, received_of, sent_for, told_past, with_day};
ghost use Rattle.report_core.specs.Lines.{fields_of};

use crate::origins::{Origin, Source, day_field, key_day_field, key_field, origins};
use desk_core::Shop;
use part_core::{Day, Id, IndexedSheet, Row, Sheet};
use std::alloc::{AllocError, Global};
use yard_core::{Entry, Kind, Place};

/// Whose past it is.
#[derive(Clone, Copy, Debug)]
pub(crate) enum Subject {
    Orders,
    Builds,
}

/// The last day of the order or the build of that number.
#[derive(Drop)]
pub(crate) struct LastDay {
    pub number: Id,
    pub day: Day,
}

impl Row for LastDay {
    type Key = u64;

    ghost key_of = { λ last. last.number ∷ [] };

    fn key(&self, _alloc: Global) -> Result<u64, AllocError> {
        Ok(self.number)
    }

    fn equals(&self, other: &Self) -> bool {
        if self.number != other.number {
            return false;
        }
        self.day.equals(&other.day)
    }

    fn copy(&self, _alloc: Global) -> Result<Self, AllocError> {
        Ok(LastDay {
            number: self.number,
            day: self.day,
        })
    }
}

/// What made each row, and the last day of each order or of each build.
#[derive(Drop)]
pub(crate) struct Past {
    pub origins: IndexedSheet<Origin>,
    pub days: Sheet<LastDay>,
}

/// What the origin of the item of that number names, where it has one.
fn source_of_item(origins: &IndexedSheet<Origin>, item: Id) -> Option<Source>
    ensures { result ≡ option_map (λ o. o.source) (origin_at item (now_of origins.now)) }
{
    match origins.get(item) {
        Some(origin) => Some(origin.source),
        None => None,
    }
}

/// The order of the line of that number, where there is such a line.
fn order_of_line(shop: &Shop, line: Id) -> Option<Id>
    ensures { result ≡ order_of_line line (state_of shop.now) }
{
    match shop.orders().line(line) {
        Some(line) => Some(line.order),
        None => None,
    }
}

/// The order for which an item with this source was received.
fn received_of(shop: &Shop, source: Option<Source>) -> Option<Id>
    ensures { result ≡ received_of (state_of shop.now) source }
{
    match source {
        Some(Source::Received(line)) => order_of_line(shop, line),
        _ => None,
    }
}

/// The order for which this is the place of what was sent.
fn sent_for(place: Place) -> Option<Id>
    ensures { result ≡ sent_for place }
{
    match place {
        Place::Sent(order) => Some(order),
        _ => None,
    }
}

/// The order of which something was delivered or sent by the entry.
pub(crate) fn order_of(shop: &Shop, origins: &IndexedSheet<Origin>, entry: &Entry) -> Option<Id>
    ensures { result ≡ order_of (state_of shop.now) (now_of origins.now) entry.now }
{
    match entry.note.kind {
        Kind::Shipped => sent_for(entry.note.place),
        Kind::Received => received_of(shop, source_of_item(origins, entry.note.item)),
        _ => None,
    }
}

/// Whether it is the place of a build's outputs.
fn is_output(place: Place) -> bool
    ensures { result ≡ is_output place }
{
    matches!(place, Place::Output(_))
}

/// The build for which an item with this source was begun.
fn built_for(source: Option<Source>) -> Option<Id>
    ensures { result ≡ built_for source }
{
    match source {
        Some(Source::Begun(build)) => Some(build),
        _ => None,
    }
}

/// The build of which an output was completed by the entry. One that was scrapped stays an output to the end.
fn build_of(origins: &IndexedSheet<Origin>, entry: &Entry) -> Option<Id>
    ensures { result ≡ build_of (now_of origins.now) entry.now }
{
    match entry.note.kind {
        Kind::Built => {
            if is_output(entry.note.place) {
                return None;
            }
            built_for(source_of_item(origins, entry.note.item))
        }
        _ => None,
    }
}

/// The order or the build of which something came or went by the entry.
fn number_of(
    shop: &Shop,
    origins: &IndexedSheet<Origin>,
    subject: Subject,
    entry: &Entry,
) -> Option<Id>
    ensures { result ≡ number_of subject (state_of shop.now) (now_of origins.now) entry.now }
{
    match subject {
        Subject::Orders => order_of(shop, origins, entry),
        Subject::Builds => build_of(origins, entry),
    }
}

/// Sets the last day of that number, if there is one. An error is one of memory.
fn gather_day(days: &mut Sheet<LastDay>, number: Option<Id>, day: Day) -> Result<(), AllocError>
    ensures { OnOk result (now_of days.new ≡ with_day number day (now_of days.old)) }
{
    match number {
        Some(number) => days.put(LastDay { number, day }),
        None => Ok(()),
    }
}

/// All entries, in order.
pub(crate) fn whole_history(shop: &Shop) -> &[Entry]
    ensures { result.now ≡ table.values (state_of shop.now).stock.history }
{
    shop.yard().whole_history().as_slice()
}

/// The last day of each number: that of the last entry by which something of it came or went. An error is one of memory.
fn last_days(
    alloc: Global,
    shop: &Shop,
    origins: &IndexedSheet<Origin>,
    subject: Subject,
) -> Result<Sheet<LastDay>, AllocError>
    ensures { IfOk result (λ days. let s = state_of shop.now in now_of days
        ≡ gathered_days (number_of subject s (now_of origins.now))
        (table.values s.stock.history) table.empty) }
{
    let mut days = Sheet::new(alloc, shop.catalogue().seed());
    let entries = whole_history(shop);
    for entry in entries {
        let number = number_of(shop, origins, subject, entry);
        gather_day(&mut days, number, entry.day)?;
    }
    Ok(days)
}

/// What made each row, and the last day of each order or of each build. It reads each text that is kept, and goes over the
/// history, once. An error is one of memory.
pub(crate) fn past_of(alloc: Global, shop: &Shop, subject: Subject) -> Result<Past, AllocError>
    ensures { IfOk result (λ past. IsPast subject (state_of shop.now) past) }
{
    let origins = origins(alloc, shop)?;
    let days = last_days(alloc, shop, &origins, subject)?;
    Ok(Past { origins, days })
}

/// The last day of that number as a text, or nothing where there is none.
fn last_field(alloc: Global, days: &Sheet<LastDay>, number: Id) -> Result<String, AllocError>
    ensures { IfOk result (λ text.
        string_bytes text ≡ day_or_empty (day_in number (now_of days.now))) }
{
    match days.get(&number) {
        Some(last) => last.day.text(alloc),
        None => Ok(String::new(alloc)),
    }
}

/// What is said of the past of that number: the key of the request that made it, the day of that key, and its last day.
#[tactic(auto, unfolding(crate::specs::Past::told_past))]
pub(crate) fn past_fields(alloc: Global, past: &Past, number: Id) -> Result<Vec<String>, AllocError>
    ensures { IfOk result (λ row. fields_of row ≡ told_past number past.now) }
{
    let key = key_field(alloc, &past.origins, number)?;
    let day = key_day_field(alloc, &past.origins, number)?;
    let last = last_field(alloc, &past.days, number)?;
    Ok(vec![in alloc; key, day, last]?)
}
