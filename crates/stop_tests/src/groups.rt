//! Lines in groups: what one read gives is kept together and answered in one write. However a text is cut into reads, its
//! answers are the same bytes; where the writer fails, what was run stays and is answered when it is sent again.
use desk_app::{RunOptions, run_lines};
use desk_core::RunEnd;
use desk_play::play::lines_in;
use desk_stops::stops::{Keyed, Sending, stops_in_groups};
use sqlite::Connection;
use std::alloc::Global;
use std::io::{self, ErrorKind, Read, Write};
use std::test::Fail;
use store_play::devices::{Sink, Source};
use store_play::files::created;

const LINES: &str = r#"{"day":"2030-01-02","do":"add_location","key":"a","name":"A"}
{"day":"2030-01-02","do":"add_part","flags":["component","purchaseable"],"key":"b","name":"Screw"}
{"day":"2030-01-02","do":"found","key":"c","location":1,"part":2,"quantity":100}
{"day":"2030-01-03","do":"remove","item":3,"key":"d","quantity":30}
{"day":"2030-01-03","do":"found","key":"e","location":1,"part":2,"quantity":7}
{"day":"2030-01-03","do":"transfer","item":4,"key":"f","location":1,"quantity":2}
"#;

const ANSWERS: &str = r#"{"entries":0,"ids":[1]}
{"entries":0,"ids":[2]}
{"entries":1,"ids":[3]}
{"entries":1,"ids":[]}
{"entries":1,"ids":[4]}
{"entries":2,"ids":[5]}
"#;

const FEW: &str = r#"{"day":"2030-01-02","do":"add_location","name":"A"}
{"day":"2030-01-02","do":"add_part","flags":["component"],"name":"Screw"}
{"day":"2030-01-02","do":"found","location":1,"part":2,"quantity":100}
{"day":"2030-01-03","do":"remove","item":3,"quantity":30}
"#;

const FEW_ANSWERS: &str = r#"{"entries":0,"ids":[1]}
{"entries":0,"ids":[2]}
{"entries":1,"ids":[3]}
{"entries":1,"ids":[]}
"#;

/// Counts the flushes, and how many bytes came at most before one of them.
#[derive(Drop)]
struct Flushed {
    bytes: Vec<u8>,
    held: usize,
    most: usize,
    flushes: usize,
}

impl Flushed {
    fn new(alloc: Global) -> Self {
        Flushed {
            bytes: Vec::new(alloc),
            held: 0,
            most: 0,
            flushes: 0,
        }
    }
}

impl Write for Flushed {
    fn write(&mut self, buf: &[u8]) -> io::Result<usize> {
        self.bytes.extend_from_slice(buf)?;
        self.held = self.held.saturating_add(buf.len());
        Ok(buf.len())
    }

    fn flush(&mut self) -> io::Result<()> {
        self.most = self.most.max(self.held);
        self.held = 0;
        self.flushes = self.flushes.wrapping_add(1);
        Ok(())
    }
}

/// Takes so many bytes in all, and then fails.
#[derive(Drop)]
struct Brim {
    bytes: Vec<u8>,
    room: usize,
}

impl Write for Brim {
    fn write(&mut self, buf: &[u8]) -> io::Result<usize> {
        let n = buf.len().min(self.room);
        if n == 0 {
            return Err(io::Error::from(ErrorKind::Other));
        }
        self.bytes.extend_from_slice(&buf[..n])?;
        self.room -= n;
        Ok(n)
    }

    fn flush(&mut self) -> io::Result<()> {
        Ok(())
    }
}

/// Gives one line a read.
#[derive(Drop)]
struct ByLine<'a> {
    text: &'a [u8],
}

impl Read for ByLine<'_> {
    fn read(&mut self, buf: &mut [u8]) -> io::Result<usize> {
        let line = match self.text.iter().position(|byte| *byte == b'\n') {
            Some(at) => at.saturating_add(1),
            None => self.text.len(),
        };
        let n = line.min(self.text.len()).min(buf.len());
        buf[..n].copy_from_slice(&self.text[..n]);
        self.text = &self.text[n..];
        Ok(n)
    }
}

/// What a desk with nothing in it answers to the reader.
fn told<R: Read>(alloc: Global, reader: &mut R) -> Result<Flushed, Fail> {
    let conn = Connection::open_in_memory(alloc)?;
    let mut desk = created(alloc, conn)?;
    let mut writer = Flushed::new(alloc);
    match run_lines(alloc, reader, &mut writer, &mut desk, RunOptions::PLAIN) {
        RunEnd::Done(true) => Ok(writer),
        _ => Err(Fail::from("another end")),
    }
}

/// Each read that ends a line is a group: its answers come in one write, before the next read.
#[test]
fn each_read_is_a_group(rt: HostRuntime) -> Result<(), Fail> {
    let alloc = rt.alloc();
    let text = LINES.as_bytes();
    for step in [1, 2, 7, 61, 62, 63, 90, 120, 200, 300, 500] {
        let mut source = Source::new(text, step);
        let writer = told(alloc, &mut source)?;
        let groups = text
            .chunks(step)
            .filter(|piece| lines_in(piece) > 0)
            .count();
        assert!(rt;
            writer.bytes.as_slice() == ANSWERS.as_bytes(),
            "at {step} bytes"
        );
        assert_eq!(rt; writer.flushes, groups, "at {step} bytes");
    }
    let whole = told(alloc, &mut Source::new(text, 65_536))?;
    assert!(rt; whole.bytes.as_slice() == ANSWERS.as_bytes());
    assert_eq!(rt; whole.flushes, 1);
    let by_line = told(alloc, &mut ByLine { text })?;
    assert!(rt; by_line.bytes.as_slice() == ANSWERS.as_bytes());
    assert_eq!(rt; by_line.flushes, 6);
    Ok(())
}

/// Where one read gives lines with long answers, these are written before 65,536 bytes and one answer more wait.
#[test]
fn long_answers_end_a_group(rt: HostRuntime) -> Result<(), Fail> {
    let alloc = rt.alloc();
    let mut text = String::from_str(alloc, LINES)?;
    for _ in 0..500u64 {
        text.push_str("{\"of\":2,\"report\":\"ledger\"}\n")?;
    }
    let writer = told(alloc, &mut Source::new(text.as_bytes(), 65_536))?;
    assert_eq!(rt; lines_in(writer.bytes.as_slice()), 506);
    assert!(rt; writer.flushes > 1);
    assert!(rt; writer.most < 65_536 + 400, "{} bytes wait", writer.most);
    Ok(())
}

/// Runs the lines by a writer that takes so many bytes, then sends them all again: what the writer took, and how many lines
/// were kept by then.
fn cut_at(alloc: Global, room: usize, step: usize) -> Result<(Vec<u8>, usize), Fail> {
    let conn = Connection::open_in_memory(alloc)?;
    let mut desk = created(alloc, conn)?;
    let mut brim = Brim {
        bytes: Vec::new(alloc),
        room,
    };
    let end = run_lines(
        alloc,
        &mut Source::new(LINES.as_bytes(), step),
        &mut brim,
        &mut desk,
        RunOptions::PLAIN,
    );
    let kept = match desk.shop() {
        Ok(shop) => shop.answers().len(),
        Err(_) => return Err(Fail::from("the desk is closed")),
    };
    let mut sink = Sink::new(alloc, 4096);
    let again = run_lines(
        alloc,
        &mut LINES.as_bytes(),
        &mut sink,
        &mut desk,
        RunOptions::PLAIN,
    );
    if end == RunEnd::WriteFailed
        && again == RunEnd::Done(true)
        && sink.bytes.as_slice() == ANSWERS.as_bytes()
    {
        return Ok((brim.bytes, kept));
    }
    Err(Fail::from("another end"))
}

/// A writer fails at one byte after another: a front of the answers is written, and the group that was being answered is
/// kept.
#[test]
fn a_writer_fails_at_a_byte(rt: HostRuntime) -> Result<(), Fail> {
    let alloc = rt.alloc();
    for room in [0, 1, 22, 23, 24, 50, 69, 90, 120, 142] {
        let (bytes, kept) = cut_at(alloc, room, 65_536)?;
        assert!(rt;
            ANSWERS.as_bytes().starts_with(bytes.as_slice()),
            "at byte {room}"
        );
        assert_eq!(rt; bytes.len(), room);
        assert_eq!(rt; kept, 6, "at byte {room}");
        let (bytes, kept) = cut_at(alloc, room, 1)?;
        assert!(rt;
            ANSWERS.as_bytes().starts_with(bytes.as_slice()),
            "at byte {room}"
        );
        assert_eq!(rt; bytes.len(), room);
        assert_eq!(rt;
            kept,
            lines_in(bytes.as_slice()).saturating_add(1),
            "at byte {room}"
        );
    }
    Ok(())
}

/// A stop at each call of the log, where a read gives a line and a half.
#[test]
fn a_stop_amid_groups(rt: HostRuntime) -> Result<(), Fail> {
    let alloc = rt.alloc();
    let keyed = Keyed::new(alloc, FEW, FEW_ANSWERS)?;
    assert!(rt; stops_in_groups(alloc, &keyed, Sending::Lines(120), true)? > 1);
    Ok(())
}
