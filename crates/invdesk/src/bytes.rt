//! Files and the standard input, read whole.
ghost use Rattle.std.specs.Prelude.{IfErr, IfOk};
ghost use Rattle.desk_app.specs.Cuts.{ReadsFile};
ghost use Rattle.invdesk.specs.Rows.{IsOfFile};

use crate::tell::tell_line;
use desk_app::read_file;
use desk_core::{RunEnd, Stop};
use std::alloc::Global;
use std::fs;
use std::io::{self, Read};

/// All bytes of the reader, or of one that has too many as many as show it.
pub fn all_of<R: Read>(alloc: Global, reader: &mut R) -> Result<Vec<u8>, RunEnd>
    ensures bytes { IfOk result (λ bytes. ReadsFile (R.remaining reader.old) bytes.items) }
    ensures why { IfErr result IsOfFile }
{
    match read_file(alloc, reader) {
        Ok(bytes) => Ok(bytes),
        Err(Stop::Memory) => Err(RunEnd::Memory),
        Err(_) => Err(RunEnd::ReadFailed),
    }
}

/// The bytes of the file at the path that is imported. Where it can't be opened, it is told why. Which bytes a real file
/// has is known to no clause.
pub fn bytes_at(rt: &HostRuntime, path: &str) -> Result<Vec<u8>, RunEnd>
    ensures { IfErr result IsOfFile }
{
    let mut file = match fs::open(rt, path) {
        Ok(file) => file,
        Err(error) => {
            tell_line(rt, format_args!("{path}: {error}"));
            if error.kind() == io::ErrorKind::OutOfMemory {
                return Err(RunEnd::Memory);
            }
            return Err(RunEnd::ReadFailed);
        }
    };
    all_of(rt.alloc(), &mut file)
}
