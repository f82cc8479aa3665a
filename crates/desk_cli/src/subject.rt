//! The row that a report is of, where a word says it.
ghost use Rattle.std.specs.Prelude.{◌≡◌, IfSome, Ok, MatchResult};
ghost use Rattle.std.specs.String.{string_bytes};
ghost use Rattle.desk_core.specs.ShopView.{state_of};
ghost use Rattle.list_core.specs.SerialWords.{called_text};
ghost use Rattle.desk_cli.specs.Subjects.{TellsNoRow, no_row_text, row_of_report};

use crate::task::ReportOf;
use desk_store::Desk;
use desk_wire::{Unread, What, table_of};
use list_core::called_text;
use list_words::row_at;
use report_core::ReportName;
use sqlite::Alter;
use std::alloc::Global;

/// Why a word says no row.
#[derive(Debug, Drop)]
pub enum NoRow {
    /// No row is called so, or several are, or nothing can be called so.
    Wrong(What),
    /// A growth was refused, as memory ran out.
    Memory,
    /// A fault of the database has closed the desk.
    Closed,
}

/// The number of the row that the report is of. A word is looked up among the rows of the desk.
pub fn row_of_report<S: Alter>(
    alloc: Global,
    desk: &Desk<S>,
    name: ReportName,
    of: ReportOf<'_>,
) -> Result<u64, NoRow>
    ensures { MatchResult result
        (λ number. row_of_report name of.entry (state_of desk.now.shop) ≡ Ok number)
        (λ why. TellsNoRow desk.now.failed (row_of_report name of.entry (state_of desk.now.shop)) why) }
{
    let word = match of {
        ReportOf::Number(number) => return Ok(number),
        ReportOf::Word(word) => word,
    };
    let Ok(shop) = desk.shop() else {
        return Err(NoRow::Closed);
    };
    match row_at(alloc, shop, table_of(name), word) {
        Ok(number) => Ok(number),
        Err(Unread::Wrong(what)) => Err(NoRow::Wrong(what)),
        Err(Unread::Memory) => Err(NoRow::Memory),
    }
}

/// The items that have the word as their serial, where it is told that several rows are called so: each by its part and its
/// number. None where no item is called so, where the desk is closed, and where there is no memory.
pub fn several_called<S: Alter>(
    alloc: Global,
    desk: &Desk<S>,
    word: &str,
    what: &What,
) -> Option<String>
    ensures { IfSome result (λ text.
        string_bytes text ≡ called_text word.now (state_of desk.now.shop)) }
{
    if !matches!(what, What::Ambiguous(_)) {
        return None;
    }
    let Ok(shop) = desk.shop() else {
        return None;
    };
    let Ok(text) = called_text(alloc, shop, word) else {
        return None;
    };
    if text.is_empty() {
        return None;
    }
    Some(text)
}

/// What is told of a word that says no row.
pub fn no_row_text(what: &What) -> &'static str
    ensures { result.now ≡ no_row_text what.now }
{
    match what {
        What::NoName(_) => "no row is called so",
        What::Ambiguous(_) => "several rows are called so",
        _ => "no row can be called so",
    }
}
