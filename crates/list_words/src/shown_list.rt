//! A list of what a shop has, as it is shown to a person or saved for a spreadsheet.
ghost use Rattle.std.specs.Prelude.{◌≡◌, IfErr, IfOk};
ghost use Rattle.desk_core.specs.Machine.{IsSoundState};
ghost use Rattle.desk_core.specs.ShopView.{state_of};
ghost use Rattle.list_core.specs.Listings.{listing_lines};
ghost use Rattle.desk_wire.specs.Steps.{Gives};
ghost use Rattle.list_words.specs.Lists.{forward_by, list_text, listing_by, shown_list, told_list, told_text};
ghost use Rattle.desk_core.specs.declared.end.Stop.{Stop};
ghost use Rattle.list_core.specs.TraceList.{has_batch};

use crate::list_of::ListOf;
use crate::word_rows::{row_at, subject_at};
use desk_core::{Shop, Stop};
use desk_wire::{Unread, refused_text, table_of};
use list_core::{Listing, has_batch, listed};
use part_core::{CoreFault, RowKind};
use report_core::{Report, cut_lines, cut_report, escaped_report, records_text};
use std::alloc::{AllocError, Global};

/// Where the items of a batch went, where any item has the word as its batch; else where the item went that it says.
fn forward_of<'a>(alloc: Global, shop: &Shop, word: &'a str) -> Result<Listing<'a>, Unread>
    ensures { Gives result (forward_by word.entry (has_batch word.now (state_of shop.now))
        (state_of shop.now)) }
{
    if has_batch(shop, word) {
        return Ok(Listing::TraceBatch(word));
    }
    let item = row_at(alloc, shop, RowKind::Item, word)?;
    Ok(Listing::TraceForward(item))
}

/// The list that is asked for, its row looked up among those of the shop.
pub fn listing_in<'a>(alloc: Global, shop: &Shop, list: ListOf<'a>) -> Result<Listing<'a>, Unread>
    ensures { Gives result (listing_by list.entry (state_of shop.now)) }
{
    match list {
        ListOf::Stock(low) => Ok(Listing::Stock(low)),
        ListOf::At(word) => Ok(Listing::At(row_at(alloc, shop, RowKind::Location, word)?)),
        ListOf::Part(word) => Ok(Listing::Part(row_at(alloc, shop, RowKind::Part, word)?)),
        ListOf::Item(word) => Ok(Listing::Item(row_at(alloc, shop, RowKind::Item, word)?)),
        ListOf::Orders(only_open) => Ok(Listing::Orders(only_open)),
        ListOf::Builds(only_open) => Ok(Listing::Builds(only_open)),
        ListOf::Find(word) => Ok(Listing::Find(word)),
        ListOf::Shortages => Ok(Listing::Shortages),
        ListOf::TraceForward(word) => forward_of(alloc, shop, word),
        ListOf::TraceBack(word) => {
            let item = row_at(alloc, shop, RowKind::Item, word)?;
            Ok(Listing::TraceBack(item))
        }
        ListOf::CountSheet(None) => Ok(Listing::CountSheet(None)),
        ListOf::CountSheet(Some(word)) => {
            let location = row_at(alloc, shop, RowKind::Location, word)?;
            Ok(Listing::CountSheet(Some(location)))
        }
        ListOf::ReceiptSheet(None) => Ok(Listing::ReceiptSheet(None)),
        ListOf::ReceiptSheet(Some(word)) => {
            let order = row_at(alloc, shop, RowKind::Order, word)?;
            Ok(Listing::ReceiptSheet(Some(order)))
        }
        ListOf::History(None, days) => Ok(Listing::History(None, days)),
        ListOf::History(Some(word), days) => {
            let number = subject_at(alloc, shop, word)?;
            Ok(Listing::History(Some(number), days))
        }
        ListOf::Report(name, word) => {
            let number = row_at(alloc, shop, table_of(name), word)?;
            Ok(Listing::Report(name, number))
        }
    }
}

/// The text of a list: its lines in columns, or as comma-separated values.
fn list_text(alloc: Global, report: &Report, csv: bool) -> Result<Vec<u8>, AllocError>
    ensures { IfOk result (λ text. text.items ≡ list_text csv report.now) }
{
    if csv {
        return records_text(alloc, report);
    }
    Ok(report.columns_text(alloc)?.into_bytes())
}

/// What is shown of a list, and whether there is one.
#[derive(Drop)]
pub struct ShownList {
    pub text: Vec<u8>,
    pub fine: bool,
}

/// Shows a list, or tells that there is no such row, which isn't fine.
pub fn show_listing(
    alloc: Global,
    shop: &Shop,
    listing: Listing<'_>,
    csv: bool,
) -> Result<ShownList, Stop>
    requires { IsSoundState (state_of shop.now) }
    ensures ok { IfOk result (λ shown. (shown.text.items, shown.fine)
        ≡ shown_list csv (listing_lines listing.entry (state_of shop.now))) }
    ensures err { IfErr result (λ stop. stop ≡ Stop.Memory) }
{
    match listed(alloc, shop, listing) {
        Ok(report) => Ok(ShownList {
            text: list_text(alloc, &report, csv)?,
            fine: true,
        }),
        Err(CoreFault::Refused(refusal)) => Ok(ShownList {
            text: refused_text(alloc, refusal)?.into_bytes(),
            fine: false,
        }),
        Err(CoreFault::Memory) => Err(Stop::Memory),
    }
}

/// The text of a list at a person's terminal, which has so many columns, if that is known: its fields are escaped, and its
/// lines cut, or else its long names.
fn told_text(alloc: Global, report: &Report, most: Option<usize>) -> Result<Vec<u8>, AllocError>
    ensures { IfOk result (λ text. text.items ≡ told_text most report.now) }
{
    let told = escaped_report(alloc, report)?;
    match most {
        Some(most) => {
            let text = told.columns_text(alloc)?;
            Ok(cut_lines(alloc, text.as_str(), most)?.into_bytes())
        }
        None => {
            let cut = cut_report(alloc, &told)?;
            Ok(cut.columns_text(alloc)?.into_bytes())
        }
    }
}

/// Shows a list at a person's terminal, which has so many columns, if that is known, or elsewhere, or tells that there is
/// no such row, which isn't fine.
pub fn told_list(
    alloc: Global,
    shop: &Shop,
    listing: Listing<'_>,
    csv: bool,
    person: bool,
    most: Option<usize>,
) -> Result<ShownList, Stop>
    requires { IsSoundState (state_of shop.now) }
    ensures ok { IfOk result (λ shown. (shown.text.items, shown.fine)
        ≡ told_list csv person most (listing_lines listing.entry (state_of shop.now))) }
    ensures err { IfErr result (λ stop. stop ≡ Stop.Memory) }
{
    if csv || !person {
        return show_listing(alloc, shop, listing, csv);
    }
    match listed(alloc, shop, listing) {
        Ok(report) => Ok(ShownList {
            text: told_text(alloc, &report, most)?,
            fine: true,
        }),
        Err(CoreFault::Refused(_)) => show_listing(alloc, shop, listing, csv),
        Err(CoreFault::Memory) => Err(Stop::Memory),
    }
}
