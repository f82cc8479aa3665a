//! The line of an entry, as texts.
ghost use Rattle.std.specs.Prelude.{◌≡◌, map, IfOk};
ghost use Rattle.std.specs.String.{string_bytes};
ghost use Rattle.yard_core.specs.EntryLines.{entry_line, kind_name, place_text, reason_name};

use forest::{Entry, Kind, Place, Reason};
use std::alloc::{AllocError, Global};

/// The kind's name.
fn kind_name(kind: Kind) -> &'static str
    ensures { result.now ≡ kind_name kind }
{
    match kind {
        Kind::Received => "received",
        Kind::Found => "found",
        Kind::Built => "built",
        Kind::Consumed => "consumed",
        Kind::Shipped => "shipped",
        Kind::Returned => "returned",
        Kind::Written => "written",
        Kind::Moved => "moved",
        Kind::Cut => "cut",
        Kind::Poured => "poured",
        Kind::Installed => "installed",
        Kind::TakenOut => "taken_out",
        Kind::Marked => "marked",
    }
}

fn reason_name(reason: Reason) -> &'static str
    ensures { result.now ≡ reason_name reason }
{
    match reason {
        Reason::Removed => "removed",
        Reason::Counted => "counted",
        Reason::Disassembled => "disassembled",
        Reason::Scrapped => "scrapped",
    }
}

/// A place as text, with the number of the row that it names.
pub fn place_text(alloc: Global, place: Place) -> Result<String, AllocError>
    ensures { IfOk result (λ text. string_bytes text ≡ place_text place) }
{
    match place {
        Place::At(location) => format!(in alloc; "at {location}"),
        Place::In(item) => format!(in alloc; "in {item}"),
        Place::Output(build) => format!(in alloc; "output {build}"),
        Place::Sent(order) => format!(in alloc; "sent {order}"),
        Place::Used(build) => format!(in alloc; "used {build}"),
        Place::Off(reason) => {
            let name = reason_name(reason);
            format!(in alloc; "off {name}")
        }
        Place::Gone => String::from_str(alloc, "gone"),
    }
}

/// The fields of an entry's line: its number, its day, its kind, its quantity and its place. The item and its part
/// aren't among them.
pub fn entry_line(alloc: Global, entry: &Entry) -> Result<Vec<String>, AllocError>
    ensures { IfOk result (λ line. map string_bytes line.items ≡ entry_line entry.now) }
{
    let note = entry.note;
    let number = entry.number;
    let number = format!(in alloc; "{number}")?;
    let day = entry.day.text(alloc)?;
    let kind = String::from_str(alloc, kind_name(note.kind))?;
    let quantity = note.quantity;
    let quantity = format!(in alloc; "{quantity}")?;
    let place = place_text(alloc, note.place)?;
    Ok(vec![in alloc; number, day, kind, quantity, place]?)
}
