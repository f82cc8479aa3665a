//! The list of what has less free than the level that a file says of it.
ghost use Rattle.desk_core.specs.ShopView.{state_of};
ghost use Rattle.desk_store.specs.Desks.{IsDesk};
ghost use Rattle.desk_cli.specs.LowLists.{told_low};
ghost use Rattle.desk_cli.specs.LowLevels.{low_lines};
ghost use Rattle.invdesk.specs.Prints.{PrintsFault, PrintsLow, PrintsText};

use crate::bytes::bytes_at;
use crate::tell::{tell_line, told_columns};
use desk_cli::{ListLayout, NoLevels, levels_of, print_fault, print_list};
use desk_core::RunEnd;
use desk_store::Desk;
use desk_wire::{FileError, What, WireFault, WrongField};
use list_core::Listing;
use sqlite::Alter;
use std::io::{IsTerminal, Write};

/// Tells which record of the file at the path is at fault and, where it is one of its fields, which and what stands there.
fn tell_fault(rt: &HostRuntime, path: &str, fault: &WireFault, field: Option<&WrongField>) {
    let (record, name) = (fault.line, fault.what.name());
    match field {
        Some(
            WrongField {
                name: column,
                text: Some(text),
            },
        ) => {
            let (column, text) = (column.as_str(), text.as_str());
            tell_line(
                rt,
                format_args!("{path}: record {record}: {column}: {name}: {text}"),
            );
        }
        _ if matches!(fault.what, What::Header) => {
            tell_line(
                rt,
                format_args!("{path}: record {record}: {name}: columns part and level are wanted"),
            );
        }
        _ => tell_line(rt, format_args!("{path}: record {record}: {name}")),
    }
}

/// Prints the line of the file's fault, and tells it.
fn print_file_fault<W: Write>(
    rt: &HostRuntime,
    path: &str,
    error: FileError,
    writer: &mut W,
) -> RunEnd
    ensures { PrintsFault error (W.contents writer.old) (W.contents writer.new) result }
{
    match error {
        FileError::Wrong(fault, field) => {
            tell_fault(rt, path, &fault, field.as_ref());
            print_fault(rt.alloc(), fault, writer)
        }
        FileError::Memory => RunEnd::Memory,
    }
}

/// Prints the list by the bytes of the file at the path, laid out so. A fault of the file is told, too.
fn print_levels<S: Alter, W: Write>(
    rt: &HostRuntime,
    path: &str,
    bytes: &[u8],
    layout: ListLayout,
    desk: &Desk<S>,
    writer: &mut W,
) -> RunEnd
    requires { IsDesk S.Store desk.now }
    ensures { PrintsText (told_low layout (low_lines bytes.now (state_of desk.now.shop)))
        (W.contents writer.old) (W.contents writer.new) result }
{
    match levels_of(rt.alloc(), desk, bytes) {
        Ok(levels) => {
            let listing = Listing::Low(levels.as_slice());
            print_list(rt.alloc(), desk, listing, layout, writer)
        }
        Err(NoLevels::Wrong(error)) => print_file_fault(rt, path, error, writer),
        Err(NoLevels::Closed) => RunEnd::Store,
    }
}

/// Prints the list by the file of levels at the path, for whoever the standard output is for. Where the file can't be read,
/// it is told why.
pub fn print_low<S: Alter, W: Write>(
    rt: &HostRuntime,
    path: &str,
    csv: bool,
    desk: &Desk<S>,
    writer: &mut W,
) -> RunEnd
    requires { IsDesk S.Store desk.now }
    ensures { PrintsLow csv (state_of desk.now.shop) (W.contents writer.old) (W.contents writer.new)
        result }
{
    let bytes = match bytes_at(rt, path) {
        Ok(bytes) => bytes,
        Err(end) => return end,
    };
    let layout = ListLayout {
        csv,
        person: rt.stdout().is_terminal(),
        most: told_columns(rt),
    };
    print_levels(rt, path, &bytes, layout, desk, writer)
}
