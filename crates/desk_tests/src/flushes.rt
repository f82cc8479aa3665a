//! What a writer sees of the answers.
use desk_app::{RunOptions, run_lines};
use desk_core::RunEnd;
use sqlite::Connection;
use std::io::{self, Write};
use std::test::Fail;
use store_play::files::created;

/// Shows what is written once it is flushed.
#[derive(Drop)]
struct Held {
    held: Vec<u8>,
    shown: Vec<u8>,
    flushes: usize,
}

impl Write for Held {
    fn write(&mut self, buf: &[u8]) -> io::Result<usize> {
        self.held.extend_from_slice(buf)?;
        Ok(buf.len())
    }

    fn flush(&mut self) -> io::Result<()> {
        self.shown.extend_from_slice(self.held.as_slice())?;
        self.held.clear();
        self.flushes = self.flushes.wrapping_add(1);
        Ok(())
    }
}

#[test]
fn flushes_each_answer(rt: HostRuntime) -> Result<(), Fail> {
    let alloc = rt.alloc();
    let conn = Connection::open_in_memory(alloc)?;
    let mut desk = created(alloc, conn)?;
    let mut reader = b"[]\n\n{}".as_slice();
    let mut writer = Held {
        held: Vec::new(alloc),
        shown: Vec::new(alloc),
        flushes: 0,
    };
    let end = run_lines(
        alloc,
        &mut reader,
        &mut writer,
        &mut desk,
        RunOptions::PLAIN,
    );
    assert_eq!(rt; end, RunEnd::Done(false));
    assert_eq!(rt; writer.flushes, 2);
    let wanted =
        b"{\"fault\":\"NotObject\",\"line\":1}\n{\"fault\":\"NoField\",\"line\":3}\n".as_slice();
    assert!(rt; writer.shown.as_slice() == wanted);
    Ok(())
}
