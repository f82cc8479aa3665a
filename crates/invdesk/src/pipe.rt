//! The standard output, and whether whoever reads it has gone.
ghost use Rattle.std.specs.Prelude.{◌≡◌};
ghost use Rattle.invdesk.specs.Prints.{ends_quietly};

use desk_core::RunEnd;
use std::io::{self, Write};

/// A writer that keeps in mind whether it failed since whoever reads it has gone.
#[derive(Drop)]
pub struct Output<W> {
    writer: W,
    pub is_left: bool,
}

impl<W: Write> Output<W> {
    /// Whoever reads it is there, as far as is known.
    pub fn new(writer: W) -> Self {
        Output {
            writer,
            is_left: false,
        }
    }
}

impl<W: Write> Write for Output<W> {
    fn write(&mut self, buf: &[u8]) -> io::Result<usize> {
        let written = self.writer.write(buf);
        if let Err(error) = &written {
            if is_of_a_reader(error) {
                self.is_left = true;
            }
        }
        written
    }

    fn flush(&mut self) -> io::Result<()> {
        self.writer.flush()
    }
}

/// Whether it was failed to write since whoever reads has gone.
pub fn is_of_a_reader(error: &io::Error) -> bool {
    error.kind() == io::ErrorKind::BrokenPipe
}

/// How printing ends that ended so: well, if it failed since whoever reads has gone, who has what he wanted.
pub fn end_of_print(end: RunEnd, is_left: bool) -> RunEnd
    ensures { result ≡ ends_quietly is_left end }
{
    match end {
        RunEnd::WriteFailed if is_left => RunEnd::Done(true),
        _ => end,
    }
}
