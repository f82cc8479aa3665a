//! How connections end that aren't answered whole.
use crate::counting::Counting;
use crate::devices::{Sink, Source};
use crate::play::{open, response};
use desk_http::{Served, serve_one};
use std::alloc::{AllocError, Global};
use std::io::{self, ErrorKind, Read};
use std::test::Fail;

const REQUEST: &str =
    "POST /run HTTP/1.1\r\nHost: localhost:8080\r\nContent-Length: 5\r\n\r\nabcde";

/// Serves the request from the source, and tells what was counted beside.
fn served(
    alloc: Global,
    source: &mut Source,
    sink: &mut Sink,
) -> Result<(Served, u64), AllocError> {
    let mut service = Counting::new(0);
    let served = serve_one(alloc, source, sink, &mut service, &open(alloc)?);
    Ok((served, service.total))
}

#[test]
fn fronts_end(rt: HostRuntime) -> Result<(), Fail> {
    let alloc = rt.alloc();
    for length in 0..REQUEST.len() {
        let mut source = Source::new(&REQUEST.as_bytes()[..length], 4096);
        let mut sink = Sink::new(alloc, 4096);
        let (served, total) = served(alloc, &mut source, &mut sink)?;
        assert!(rt; served == Served::Ended);
        assert!(rt; sink.calls == 0 && total == 0);
    }
    Ok(())
}

/// A long head is refused at 8,192 bytes, and waited for before.
#[test]
fn heads_without_an_end(rt: HostRuntime) -> Result<(), Fail> {
    let alloc = rt.alloc();
    for (length, wanted) in [
        (8191, Served::Ended),
        (8192, Served::Answered(431)),
        (9000, Served::Answered(431)),
    ] {
        let text = vec![in alloc; b'x'; length]?;
        let mut source = Source::new(&text, 4096);
        let mut sink = Sink::new(alloc, 4096);
        let (served, _) = served(alloc, &mut source, &mut sink)?;
        assert!(rt; served == wanted);
    }
    Ok(())
}

/// Nothing is done where a read fails, and an interrupted one is tried again.
#[test]
fn each_read_fails(rt: HostRuntime) -> Result<(), Fail> {
    let alloc = rt.alloc();
    for fails in 1..20u64 {
        for failure in [ErrorKind::Other, ErrorKind::Interrupted] {
            let mut source = Source::new(REQUEST.as_bytes(), 7);
            (source.fails, source.failure) = (fails, failure);
            let mut sink = Sink::new(alloc, 4096);
            let (served, total) = served(alloc, &mut source, &mut sink)?;
            let failed = source.calls == fails && failure == ErrorKind::Other;
            if failed {
                assert!(rt; served == Served::ReadFailed);
                assert!(rt; sink.calls == 0 && total == 0);
            } else {
                assert!(rt; served == Served::Answered(200) && total == 5);
            }
        }
    }
    Ok(())
}

/// The line was run where a write fails, and a front of the response is written.
#[test]
fn each_write_fails(rt: HostRuntime) -> Result<(), Fail> {
    let alloc = rt.alloc();
    let wanted = response(alloc, (200, "OK"), "application/json", "", "5\n")?;
    for fails in 1..20u64 {
        let mut source = Source::new(REQUEST.as_bytes(), 4096);
        let mut sink = Sink::new(alloc, 10);
        sink.fails = fails;
        let (served, total) = served(alloc, &mut source, &mut sink)?;
        assert!(rt; total == 5);
        assert!(rt;
            wanted
                .as_str()
                .as_bytes()
                .starts_with(sink.bytes.as_slice())
        );
        if sink.calls < fails {
            assert!(rt; served == Served::Answered(200));
            assert!(rt; sink.bytes.as_slice() == wanted.as_str().as_bytes());
        } else {
            assert!(rt; served == Served::WriteFailed);
        }
    }
    Ok(())
}

/// A writer that takes no byte has failed; where no reply is told, nothing is written.
#[test]
fn writes_nothing(rt: HostRuntime) -> Result<(), Fail> {
    let alloc = rt.alloc();
    let mut source = Source::new(REQUEST.as_bytes(), 4096);
    let mut sink = Sink::new(alloc, 0);
    let (served, total) = served(alloc, &mut source, &mut sink)?;
    assert!(rt; served == Served::WriteFailed && total == 5);
    let untold = "POST /run HTTP/1.1\r\nContent-Length: 6\r\n\r\nuntold";
    let mut source = Source::new(untold.as_bytes(), 4096);
    let mut sink = Sink::new(alloc, 4096);
    let mut service = Counting::new(0);
    let end = serve_one(alloc, &mut source, &mut sink, &mut service, &open(alloc)?);
    assert!(rt; end == Served::Memory && sink.calls == 0);
    Ok(())
}

const EXPECTING: &str =
    "POST /run HTTP/1.1\r\nExpect: 100-continue\r\nContent-Length: 5\r\n\r\nabcde";

/// A client that was told to send its body, and doesn't, is told no more; and nothing is done where it can't be told so.
#[test]
fn invites_in_vain(rt: HostRuntime) -> Result<(), Fail> {
    let alloc = rt.alloc();
    let interim = b"HTTP/1.1 100 Continue\r\n\r\n".as_slice();
    let mut source = Source::new(&EXPECTING.as_bytes()[..EXPECTING.len() - 1], 7);
    let mut sink = Sink::new(alloc, 4096);
    let (end, total) = served(alloc, &mut source, &mut sink)?;
    assert!(rt; end == Served::Ended && total == 0 && sink.bytes.as_slice() == interim);
    for (fails, step, written) in [(1, 4096, 0), (2, 4096, 25), (3, 10, 20), (0, 0, 0)] {
        let mut source = Source::new(EXPECTING.as_bytes(), 7);
        let mut sink = Sink::new(alloc, step);
        sink.fails = fails;
        let (end, total) = served(alloc, &mut source, &mut sink)?;
        assert!(rt; end == Served::WriteFailed && total == 0);
        assert!(rt; sink.bytes.len() == written && interim.starts_with(sink.bytes.as_slice()));
    }
    Ok(())
}

/// Is interrupted at each read, and counts them.
#[derive(Drop)]
struct Interrupted {
    calls: u64,
}

impl Read for Interrupted {
    fn read(&mut self, _buf: &mut [u8]) -> io::Result<usize> {
        self.calls = self.calls.wrapping_add(1);
        Err(io::Error::from(ErrorKind::Interrupted))
    }
}

#[test]
fn reads_are_bounded(rt: HostRuntime) -> Result<(), Fail> {
    let alloc = rt.alloc();
    let mut source = Interrupted { calls: 0 };
    let mut sink = Sink::new(alloc, 4096);
    let mut service = Counting::new(0);
    let end = serve_one(alloc, &mut source, &mut sink, &mut service, &open(alloc)?);
    assert!(rt; end == Served::ReadFailed);
    assert!(rt; source.calls == 2_000_000 && sink.calls == 0);
    Ok(())
}
