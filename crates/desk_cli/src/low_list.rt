//! The list of what has less free than its level: the levels that a file says, and the file's fault.
ghost use Rattle.std.specs.Prelude.{◌≡◌, ◌≢◌, Bool, false, Ok, MatchResult};
ghost use Rattle.std.specs.Io.KnownBytes.{Appends, Keeps};
ghost use Rattle.desk_core.specs.ShopView.{state_of};
ghost use Rattle.desk_store.specs.Exports.{AppendsFront};
ghost use Rattle.desk_wire.specs.Writing.{fault_text};
ghost use Rattle.desk_cli.specs.LowLevels.{levels_in};
ghost use Rattle.desk_cli.specs.LowLists.{TellsNoLevels};

use crate::low_levels::levels_in;
use desk_core::RunEnd;
use desk_store::{Desk, WriteFailed, send};
use desk_wire::{FileError, WireFault, fault_text};
use list_core::Level;
use sqlite::Alter;
use std::alloc::Global;
use std::io::Write;

/// Why a file says no levels.
#[derive(Drop)]
pub enum NoLevels {
    /// The file has a fault, or memory ran out.
    Wrong(FileError),
    /// A fault of the database has closed the desk.
    Closed,
}

/// The levels that a file says, its parts looked up among those of the desk.
pub fn levels_of<S: Alter>(
    alloc: Global,
    desk: &Desk<S>,
    bytes: &[u8],
) -> Result<Vec<Level>, NoLevels>
    ensures { let reading = levels_in bytes.now (state_of desk.now.shop) in
        MatchResult result (λ levels. reading ≡ Ok levels.items)
        (TellsNoLevels desk.now.failed reading) }
{
    let Ok(shop) = desk.shop() else {
        return Err(NoLevels::Closed);
    };
    match levels_in(alloc, shop, bytes) {
        Ok(levels) => Ok(levels),
        Err(error) => Err(NoLevels::Wrong(error)),
    }
}

/// Prints the line of a file's fault, which isn't fine: the whole text in one write.
pub fn print_fault<W: Write>(alloc: Global, fault: WireFault, writer: &mut W) -> RunEnd
    ensures whole { (fine : Bool) → result ≡ RunEnd.Done fine
        → (fine ≡ false) × Appends (W.contents writer.old) (W.contents writer.new) (fault_text fault) }
    ensures front { result ≡ RunEnd.WriteFailed
        → AppendsFront (W.contents writer.old) (W.contents writer.new) (fault_text fault) }
    ensures nothing { result ≡ RunEnd.Memory
        → Keeps (W.contents writer.old) (W.contents writer.new) }
    ensures never_read { result ≢ RunEnd.ReadFailed }
    ensures never_stored { result ≢ RunEnd.Store }
{
    let Ok(text) = fault_text(alloc, fault) else {
        return RunEnd::Memory;
    };
    match send(writer, text.as_bytes()) {
        Ok(()) => RunEnd::Done(false),
        Err(WriteFailed) => RunEnd::WriteFailed,
    }
}
