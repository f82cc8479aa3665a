//! Reports in a second form, for a spreadsheet: with a header, and with a name or a way beside each number, or in its place.
ghost use Rattle.std.specs.Prelude.{◌≡◌, ◌∷◌, ◌++◌, drop, filter, map, not, option_map, Some, IfOk, OnOk};
ghost use Rattle.std.specs.String.{string_bytes};
ghost use Rattle.yard_core.specs.Stock.{is_gone};
ghost use Rattle.desk_core.specs.Machine.{IsSoundState};
ghost use Rattle.desk_core.specs.ShopView.{state_of};
ghost use Rattle.report_core.specs.Lines.{Gives, fields_of, lines_of};
ghost use Rattle.report_core.specs.Reports.{report_lines};
ghost use Rattle.list_core.specs.NamedReports.{content_header, ledger_header, named_item, named_ledger, named_report};
ghost use Rattle.list_core.specs.NamedReports.{named_stock, shortage_header, stock_header, used_header};

use crate::history_list::{Days, history_list, place_words};
use desk_core::Shop;
use part_core::{CoreFault, Id, Refusal, Worded};
use report_core::fields::{batch_field, name_field, number_field, serial_field, words_line};
use report_core::stock::is_gone;
use report_core::{Report, ReportName, report};
use std::alloc::{AllocError, Global};
use yard_core::Item;

fn ledger_header(alloc: Global) -> Result<Vec<String>, AllocError>
    ensures { IfOk result (λ line. fields_of line ≡ ledger_header) }
{
    words_line(alloc, &["part", "what", "amount"])
}

fn stock_header(alloc: Global) -> Result<Vec<String>, AllocError>
    ensures { IfOk result (λ line. fields_of line ≡ stock_header) }
{
    words_line(
        alloc,
        &[
            "part", "item", "quantity", "status", "where", "batch", "serial",
        ],
    )
}

fn used_header(alloc: Global) -> Result<Vec<String>, AllocError>
    ensures { IfOk result (λ line. fields_of line ≡ used_header) }
{
    words_line(alloc, &["number", "part"])
}

fn content_header(alloc: Global) -> Result<Vec<String>, AllocError>
    ensures { IfOk result (λ line. fields_of line ≡ content_header) }
{
    words_line(alloc, &["depth", "item", "part", "quantity", "serial"])
}

fn shortage_header(alloc: Global) -> Result<Vec<String>, AllocError>
    ensures { IfOk result (λ line. fields_of line ≡ shortage_header) }
{
    words_line(
        alloc,
        &["line", "component", "required", "allocated", "missing"],
    )
}

/// Adds copies of these fields.
fn push_copies(alloc: Global, line: &mut Vec<String>, fields: &[String]) -> Result<(), AllocError>
    ensures { OnOk result (fields_of line.new
        ≡ fields_of line.old ++ map string_bytes fields.now) }
{
    for field in fields {
        line.push(String::from_str(alloc, field.as_str())?)?;
    }
    Ok(())
}

/// Adds copies of these lines.
fn push_lines(
    alloc: Global,
    told: &mut Vec<Vec<String>>,
    lines: &[Vec<String>],
) -> Result<(), AllocError>
    ensures { OnOk result (lines_of told.new.items ≡ lines_of told.old.items ++ lines_of lines.now) }
{
    for line in lines {
        let mut copy = Vec::new(alloc);
        push_copies(alloc, &mut copy, line.as_slice())?;
        told.push(copy)?;
    }
    Ok(())
}

/// The header, and copies of these lines.
fn headed(alloc: Global, header: Vec<String>, lines: &[Vec<String>]) -> Result<Report, AllocError>
    ensures { IfOk result (λ told. told ≡ fields_of header ∷ lines_of lines.now) }
{
    let mut told = vec![in alloc; header]?;
    push_lines(alloc, &mut told, lines)?;
    Ok(Report::new(told))
}

/// A line with the part's name before it.
fn line_of_part(alloc: Global, name: &str, fields: &[String]) -> Result<Vec<String>, AllocError>
    ensures { IfOk result (λ line. fields_of line ≡ name.now ∷ map string_bytes fields.now) }
{
    let mut line = vec![in alloc; String::from_str(alloc, name)?]?;
    push_copies(alloc, &mut line, fields)?;
    Ok(line)
}

/// The header, and these lines with the part's name before each.
fn ledger_of(
    alloc: Global,
    name: &str,
    lines: &[Vec<String>],
) -> Result<Vec<Vec<String>>, AllocError>
    ensures { IfOk result (λ told. lines_of told.items
        ≡ ledger_header ∷ map (λ line. name.now ∷ line) (lines_of lines.now)) }
{
    let mut told = vec![in alloc; ledger_header(alloc)?]?;
    for line in lines {
        told.push(line_of_part(alloc, name, line.as_slice())?)?;
    }
    Ok(told)
}

/// The lines behind the first.
fn behind_first(lines: &[Vec<String>]) -> &[Vec<String>]
    ensures { result.now ≡ drop 1 lines.now }
{
    match lines.split_first() {
        Some((_first, rest)) => rest,
        None => lines,
    }
}

/// The ledger of the part of that name, but for its own first line.
fn named_lines(alloc: Global, name: &str, ledger: &Report) -> Result<Report, AllocError>
    ensures { IfOk result (λ told. told ≡ named_ledger name.now ledger.now) }
{
    let told = ledger_of(alloc, name, behind_first(ledger.lines()))?;
    Ok(Report::new(told))
}

fn named_ledger(alloc: Global, shop: &Shop, part: Id) -> Result<Report, CoreFault>
    requires { IsSoundState (state_of shop.now) }
    ensures { Gives (named_report ReportName.Ledger part (state_of shop.now)) result }
{
    let ledger = report(alloc, shop, ReportName::Ledger, part)?;
    let name = name_field(alloc, shop.catalogue(), part)?;
    Ok(named_lines(alloc, name.as_str(), &ledger)?)
}

fn named_item(alloc: Global, shop: &Shop, item: &Item) -> Result<Vec<String>, AllocError>
    ensures { IfOk result (λ line. fields_of line ≡ named_item (state_of shop.now) item.now) }
{
    let part = name_field(alloc, shop.catalogue(), item.part)?;
    let number = number_field(alloc, item.number)?;
    let quantity = number_field(alloc, item.quantity)?;
    let status = String::from_str(alloc, item.lot.status.word())?;
    let place = place_words(alloc, shop, item.place)?;
    let batch = batch_field(alloc, &item.lot.batch)?;
    let serial = serial_field(alloc, &item.lot.serial)?;
    Ok(vec![in alloc; part, number, quantity, status, place, batch, serial]?)
}

/// The header, and the lines of those items that aren't gone.
fn named_items(alloc: Global, shop: &Shop, items: &[&Item]) -> Result<Vec<Vec<String>>, AllocError>
    ensures { IfOk result (λ lines. lines_of lines.items
        ≡ stock_header ∷ map (named_item (state_of shop.now))
        (filter (λ i. not (is_gone i.place)) (map (λ i. i.now) items.now))) }
{
    let mut lines = vec![in alloc; stock_header(alloc)?]?;
    for item in items {
        if !is_gone(item) {
            lines.push(named_item(alloc, shop, item)?)?;
        }
    }
    Ok(lines)
}

/// The lines of the part's items. It looks at those alone.
fn stock_of_part(alloc: Global, shop: &Shop, part: Id) -> Result<Vec<Vec<String>>, AllocError>
    ensures { IfOk result (λ lines. lines_of lines.items ≡ named_stock part (state_of shop.now)) }
{
    let items = shop.yard().items_of(part)?;
    named_items(alloc, shop, items.as_slice())
}

fn named_stock(alloc: Global, shop: &Shop, part: Id) -> Result<Report, CoreFault>
    ensures { Gives (named_report ReportName.Stock part (state_of shop.now)) result }
{
    if shop.catalogue().part(part).is_none() {
        return Err(CoreFault::Refused(Refusal::NoSuch));
    }
    let lines = stock_of_part(alloc, shop, part)?;
    Ok(Report::new(lines))
}

fn named_history(alloc: Global, shop: &Shop, item: Id) -> Result<Report, CoreFault>
    ensures { Gives (named_report ReportName.History item (state_of shop.now)) result }
{
    if shop.yard().item(item).is_none() {
        return Err(CoreFault::Refused(Refusal::NoSuch));
    }
    let days = Days {
        first: None,
        last: None,
    };
    history_list(alloc, shop, Some(item), &days)
}

/// The report of that name with this header before it.
fn with_header(
    alloc: Global,
    shop: &Shop,
    name: ReportName,
    number: Id,
    header: Vec<String>,
) -> Result<Report, CoreFault>
    requires { IsSoundState (state_of shop.now) }
    ensures { Gives (option_map (λ lines. fields_of header ∷ lines)
        (report_lines name number (state_of shop.now))) result }
{
    let found = report(alloc, shop, name, number)?;
    Ok(headed(alloc, header, found.lines())?)
}

/// The report of that name in its second form. NoSuch where there is no such row.
pub fn named_report(
    alloc: Global,
    shop: &Shop,
    name: ReportName,
    number: Id,
) -> Result<Report, CoreFault>
    requires { IsSoundState (state_of shop.now) }
    ensures { Gives (named_report name number (state_of shop.now)) result }
{
    match name {
        ReportName::Ledger => named_ledger(alloc, shop, number),
        ReportName::Stock => named_stock(alloc, shop, number),
        ReportName::WhereUsed => with_header(alloc, shop, name, number, used_header(alloc)?),
        ReportName::History => named_history(alloc, shop, number),
        ReportName::Content => with_header(alloc, shop, name, number, content_header(alloc)?),
        ReportName::Shortage => with_header(alloc, shop, name, number, shortage_header(alloc)?),
    }
}
