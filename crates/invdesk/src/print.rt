//! What is printed of a desk.
ghost use Rattle.std.specs.Prelude.{◌≡◌, false};
ghost use Rattle.desk_core.specs.ShopView.{state_of};
ghost use Rattle.desk_store.specs.Desks.{IsDesk};
ghost use Rattle.list_words.specs.Lists.{listing_by};
ghost use Rattle.desk_cli.specs.Subjects.{row_of_report};
ghost use Rattle.invdesk.specs.Prints.{Prints, PrintsList, PrintsListOut, PrintsOfRow, PrintsOut};

use crate::low::print_low;
use crate::pipe::{Output, end_of_print};
use crate::tell::{tell_line, told_columns};
use desk_cli::{
    ListLayout, LookAt, NoRow, ReportOf, listing_of, no_row_text, print_dump, print_export,
    print_list, print_report, row_of_report, says_item_too, several_called,
};
use desk_core::RunEnd;
use desk_store::Desk;
use desk_wire::What;
use list_words::ListOf;
use report_core::ReportName;
use sqlite::Alter;
use std::io::{self, BufWriter, IsTerminal, Write};

/// Tells why a word says no row, and of a serial that several items have which they are.
fn tell_of_word<S: Alter>(rt: &HostRuntime, desk: &Desk<S>, word: &str, what: &What) {
    let why = no_row_text(what);
    match several_called(rt.alloc(), desk, word, what) {
        Some(each) => tell_line(rt, format_args!("{word}: {why}: {each}")),
        None => tell_line(rt, format_args!("{word}: {why}")),
    }
}

/// Tells why a word says no row, if there is a word. So printing ends.
fn tell_no_row<S: Alter>(
    rt: &HostRuntime,
    desk: &Desk<S>,
    word: Option<&str>,
    what: &What,
) -> RunEnd
    ensures { result ≡ RunEnd.Done false }
{
    if let Some(word) = word {
        tell_of_word(rt, desk, word, what);
    }
    RunEnd::Done(false)
}

/// Tells that the word of a batch says an item, too, which the list isn't of.
fn tell_item_too(rt: &HostRuntime, word: Option<&str>) {
    if let Some(word) = word {
        tell_line(
            rt,
            format_args!(
                "{word}: the list is of the batch; an item is called so, too: see show trace-back, or its number"
            ),
        );
    }
}

/// Prints the list that the words ask for, laid out so. Where a word says no row, it is told why.
fn print_of_list<S: Alter, W: Write>(
    rt: &HostRuntime,
    list: ListOf<'_>,
    layout: ListLayout,
    desk: &Desk<S>,
    writer: &mut W,
) -> RunEnd
    requires { IsDesk S.Store desk.now }
    ensures { PrintsList layout (listing_by list.entry (state_of desk.now.shop))
        (state_of desk.now.shop) (W.contents writer.old) (W.contents writer.new) result }
{
    match listing_of(rt.alloc(), desk, list) {
        Ok(listing) => {
            if says_item_too(rt.alloc(), desk, &listing) {
                tell_item_too(rt, list.word());
            }
            print_list(rt.alloc(), desk, listing, layout, writer)
        }
        Err(NoRow::Wrong(what)) => tell_no_row(rt, desk, list.word(), &what),
        Err(NoRow::Memory) => RunEnd::Memory,
        Err(NoRow::Closed) => RunEnd::Store,
    }
}

/// The same, for whoever the standard output is for.
fn print_list_out<S: Alter, W: Write>(
    rt: &HostRuntime,
    list: ListOf<'_>,
    csv: bool,
    desk: &Desk<S>,
    writer: &mut W,
) -> RunEnd
    requires { IsDesk S.Store desk.now }
    ensures { PrintsListOut csv (listing_by list.entry (state_of desk.now.shop))
        (state_of desk.now.shop) (W.contents writer.old) (W.contents writer.new) result }
{
    let layout = ListLayout {
        csv,
        person: rt.stdout().is_terminal(),
        most: told_columns(rt),
    };
    print_of_list(rt, list, layout, desk, writer)
}

/// Prints the report of that name, of the row that the words say. Where a word says none, it is told why.
fn print_of_row<S: Alter, W: Write>(
    rt: &HostRuntime,
    name: ReportName,
    of: ReportOf<'_>,
    desk: &Desk<S>,
    writer: &mut W,
) -> RunEnd
    requires { IsDesk S.Store desk.now }
    ensures { PrintsOfRow name (row_of_report name of.entry (state_of desk.now.shop))
        (state_of desk.now.shop) (W.contents writer.old) (W.contents writer.new) result }
{
    match row_of_report(rt.alloc(), desk, name, of) {
        Ok(number) => print_report(rt.alloc(), desk, name, number, writer),
        Err(NoRow::Wrong(what)) => tell_no_row(rt, desk, of.word(), &what),
        Err(NoRow::Memory) => RunEnd::Memory,
        Err(NoRow::Closed) => RunEnd::Store,
    }
}

/// Prints what is looked at, of the desk.
fn print<S: Alter, W: Write>(
    rt: &HostRuntime,
    look: &LookAt<'_>,
    desk: &Desk<S>,
    writer: &mut W,
) -> RunEnd
    requires { IsDesk S.Store desk.now }
    ensures { Prints look.now (state_of desk.now.shop) (W.contents writer.old)
        (W.contents writer.new) result }
{
    match look {
        LookAt::Report { name, of } => print_of_row(rt, *name, *of, desk, writer),
        LookAt::Export(table) => print_export(desk, *table, writer),
        LookAt::Dump => print_dump(desk, writer),
        LookAt::Show { list, csv } => print_list_out(rt, *list, *csv, desk, writer),
        LookAt::Low { levels, csv } => print_low(rt, levels, *csv, desk, writer),
    }
}

/// How many bytes of what is printed wait, so that lines aren't written one by one.
const PRINTED_AT_ONCE: usize = 65_536;

/// Prints what is looked at, of the desk, on the standard output. Where there is no memory for a buffer, what is
/// printed waits in none. Where whoever reads it goes before its end, that is no failure.
pub fn print_out<S: Alter>(rt: &HostRuntime, look: &LookAt<'_>, desk: &Desk<S>) -> RunEnd
    requires { IsDesk S.Store desk.now }
    ensures { PrintsOut look.now (state_of desk.now.shop) result }
{
    match BufWriter::with_capacity(rt.alloc(), PRINTED_AT_ONCE, Output::new(io::writer(rt))) {
        Ok(mut buffered) => {
            let end = print(rt, look, desk, &mut buffered);
            end_of_print(end, buffered.get_ref().is_left)
        }
        Err(_) => {
            let mut output = Output::new(io::writer(rt));
            let end = print(rt, look, desk, &mut output);
            end_of_print(end, output.is_left)
        }
    }
}
