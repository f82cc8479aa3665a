//! A file, read as far as it is wanted.
ghost use Rattle.std.specs.Prelude.{◌≡◌, ℕ, List, Option, IfOk, IfErr, IfSome};
ghost use Rattle.word_core.specs.Day.{CivilDay};
ghost use Rattle.desk_core.specs.Machine.{State};
ghost use Rattle.desk_core.specs.Naming.{Naming};
ghost use Rattle.desk_wire.specs.Imports.{import_by};
ghost use Rattle.desk_wire.specs.declared.kind.FileReading.{FileReading};
ghost use Rattle.desk_wire.specs.declared.kind.ImportKind.{ImportKind};
ghost use Rattle.desk_app.specs.Cuts.{ReadsFile};
ghost use Rattle.desk_app.specs.Runs.{IsOfReading};

use crate::lines::Lines;
use desk_core::Stop;
use std::alloc::Global;
use std::io::Read;

/// The bytes of a file that is imported: all of them, or of a file that is too long the first 16,777,217,
/// which show it. `ReadFailed` where a read fails, and after 4,000,000,000 reads.
pub fn read_file<R: Read>(alloc: Global, reader: &mut R) -> Result<Vec<u8>, Stop>
    ensures bytes { IfOk result (λ bytes. ReadsFile (R.remaining reader.old) bytes.items) }
    ensures imported { IfOk result (λ bytes. IfSome (R.remaining reader.old)
        (λ file. (reading : FileReading) (s : State) (names : Option Naming) (kind : ImportKind)
        (document : List ℕ) (day : CivilDay) → import_by reading s names kind document day bytes.items
        ≡ import_by reading s names kind document day file)) }
    ensures failed { IfErr result IsOfReading }
{
    let mut read = Lines::new(alloc)?;
    let mut bytes = Vec::new(alloc);
    while read.fill(reader)? {
        read.take_read(&mut bytes)?;
        if bytes.len() == 16_777_217 {
            return Ok(bytes);
        }
    }
    Ok(bytes)
}
