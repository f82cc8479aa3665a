//! The history of an item as text.
ghost use Rattle.std.specs.Prelude.{◌≡◌, ◌↔◌, ◌⊎◌, map, None, IfOk, OnErr, OnOk, Err, IsSome};
ghost use Rattle.std.specs.Io.KnownBytes.{Appends, Keeps};
ghost use Rattle.std.specs.String.{string_bytes};
ghost use Rattle.desk_core.specs.ShopView.{state_of};
ghost use Rattle.report_core.specs.History.{entries_on, history_lines};
ghost use Rattle.report_core.specs.Lines.{line_text, report_text};
ghost use Rattle.yard_core.specs.EntryLines.{entry_line};
ghost use Rattle.desk_store.specs.Exports.{AppendsFront, Sends};

use crate::desk::Desk;
use crate::export::ExportFault;
use crate::sending::{flush, write_whole};
use report_core::line_text;
use sqlite::Alter;
use std::alloc::{AllocError, Global};
use std::io::Write;
use yard_core::{Entry, entry_line};

/// The line of an entry, as text.
fn entry_text(alloc: Global, entry: &Entry) -> Result<String, AllocError>
    ensures { IfOk result (λ text. string_bytes text ≡ line_text (entry_line entry.now)) }
{
    let fields = entry_line(alloc, entry)?;
    line_text(alloc, fields.as_slice())
}

/// Writes the line of an entry.
fn write_entry<W: Write>(alloc: Global, writer: &mut W, entry: &Entry) -> Result<(), ExportFault>
    ensures { Sends (W.contents writer.old) (W.contents writer.new)
        (line_text (entry_line entry.now)) result }
{
    let line = entry_text(alloc, entry)?;
    Ok(write_whole(writer, line.as_bytes())?)
}

/// Writes the lines of entries, one after another, and flushes.
fn write_entries<W: Write>(
    alloc: Global,
    writer: &mut W,
    entries: &[&Entry],
) -> Result<(), ExportFault>
    ensures { Sends (W.contents writer.old) (W.contents writer.new)
        (report_text (map entry_line (map (λ entry. entry.now) entries.now))) result }
{
    for entry in entries {
        write_entry(alloc, writer, entry)?;
    }
    Ok(flush(writer)?)
}

impl<S: Alter> Desk<S> {
    /// Writes the history of an item as the report of that name has it as text: a line for each entry on the item, in
    /// their order. An item that is gone has its history still.
    ///
    /// Each line is written as soon as it is made, so that the text is nowhere whole. `NoSuch` where there is no item of
    /// that number.
    pub fn history<W: Write>(&self, item: u64, writer: &mut W) -> Result<(), ExportFault>
        ensures whole { OnOk result (Appends (W.contents writer.old) (W.contents writer.new)
            (report_text (entries_on item (state_of self.now.shop)))) }
        ensures front { OnErr result (
            AppendsFront (W.contents writer.old) (W.contents writer.new)
            (report_text (entries_on item (state_of self.now.shop)))) }
        ensures nothing { (result ≡ Err ExportFault.Closed) ⊎ (result ≡ Err ExportFault.NoSuch)
            → Keeps (W.contents writer.old) (W.contents writer.new) }
        ensures closed { (result ≡ Err ExportFault.Closed) ↔ IsSome self.now.failed }
        ensures there { self.now.failed ≡ None → (result ≡ Err ExportFault.NoSuch)
            ↔ (history_lines item (state_of self.now.shop) ≡ None) }
    {
        if self.failed.is_some() {
            return Err(ExportFault::Closed);
        }
        let yard = self.shop.yard();
        if yard.item(item).is_none() {
            return Err(ExportFault::NoSuch);
        }
        let entries = yard.history(item)?;
        write_entries(self.alloc, writer, entries.as_slice())
    }
}
