//! How long clients are waited for.
ghost use Rattle.std.specs.Prelude.{◌≡◌, ◌≤◌, IfOk, length};
ghost use Rattle.desk_http.specs.Paces.{answer_seconds, request_seconds};

use std::alloc::Global;
use std::io::{self, ErrorKind, Read, Write};
use std::net::TcpStream;
use std::time::{Clock, Duration, Instant};

/// How many seconds a request may take from its first byte, and an answer from its beginning, however short. Nor is the
/// next byte of a request waited for longer.
const SECONDS: u64 = 30;

/// How many bytes of a request earn a second more. So a head, which is shorter, has the seconds above, and a body goes on
/// as long as so many bytes a second come.
const BYTES_A_SECOND: u64 = 10_240;

/// How many bytes of an answer earn one. Since one client is answered after another, an answer as a whole has an end.
const TAKEN_A_SECOND: u64 = 102_400;

/// How many bytes of an answer are handed over at a time, so that a client which takes none shows.
const PIECE: usize = 65_536;

/// How many bytes of an answer are gathered before they are handed over, so that a text of many short lines takes few calls
/// of the system.
const GATHERED: usize = 16_384;

/// For how many seconds a piece is waited for. One of which a part is taken at once is waited for twice.
const PIECE_SECONDS: u64 = 15;

/// For how many seconds a client that was answered may go on sending.
const READING_OFF: u64 = 1;

/// How much is left of the time that is allowed since then. Where none is, that is an error.
fn time_left<C: Clock>(clock: &C, began: Instant, allowed: Duration) -> io::Result<Duration> {
    match allowed.checked_sub(began.elapsed(clock)?) {
        Some(left) if !left.is_zero() => Ok(left),
        _ => Err(io::Error::new(ErrorKind::TimedOut, "the client is too slow")),
    }
}

/// For how many seconds a request may go on of which so many bytes have come.
fn request_seconds(bytes: u64) -> u64
    ensures { result ≡ request_seconds bytes }
{
    SECONDS + bytes / BYTES_A_SECOND
}

/// For how many seconds an answer may go on of which so many bytes were taken.
fn answer_seconds(bytes: u64) -> u64
    ensures { result ≡ answer_seconds bytes }
{
    SECONDS + bytes / TAKEN_A_SECOND
}

/// When a client began, and how many bytes went by since.
#[derive(Clone, Copy)]
struct Pace {
    began: Instant,
    bytes: u64,
}

impl Pace {
    fn start<C: Clock>(clock: &C) -> io::Result<Self> {
        Ok(Pace {
            began: Instant::now(clock)?,
            bytes: 0,
        })
    }

    /// How long the client may still take for its next bytes, of so many seconds in all, and so many at most.
    fn time_left<C: Clock>(&self, clock: &C, seconds: u64, longest: u64) -> io::Result<Duration> {
        let left = time_left(clock, self.began, Duration::from_secs(seconds))?;
        Ok(left.min(Duration::from_secs(longest)))
    }

    fn count(&mut self, bytes: usize) {
        self.bytes = self.bytes.saturating_add(bytes as u64);
    }
}

/// Reads what a client sends, of whom something has come, as long as it keeps the pace.
#[derive(Drop)]
pub struct PacedReader<'a, C: Clock> {
    clock: &'a C,
    stream: &'a TcpStream,
    pace: Option<Pace>,
}

impl<'a, C: Clock> PacedReader<'a, C> {
    pub fn new(clock: &'a C, stream: &'a TcpStream) -> Self {
        PacedReader {
            clock,
            stream,
            pace: None,
        }
    }

    /// Has what comes next waited for only as long as the client may take for it. What comes first is there already.
    fn set_timeout(&self) -> io::Result<()> {
        let Some(pace) = &self.pace else {
            return Ok(());
        };
        let left = pace.time_left(self.clock, request_seconds(pace.bytes), SECONDS)?;
        self.stream.set_read_timeout(Some(left))
    }
}

impl<C: Clock> Read for PacedReader<'_, C> {
    fn read(&mut self, buf: &mut [u8]) -> io::Result<usize> {
        self.set_timeout()?;
        let mut stream = self.stream;
        let n = stream.read(buf)?;
        let mut pace = match self.pace {
            None => Pace::start(self.clock)?,
            Some(pace) => pace,
        };
        pace.count(n);
        self.pace = Some(pace);
        Ok(n)
    }
}

/// Hands over what a client is answered, as long as it takes it and keeps the pace.
#[derive(Drop)]
struct Taker<'a, C: Clock> {
    clock: &'a C,
    stream: &'a TcpStream,
    pace: Option<Pace>,
}

impl<C: Clock> Taker<'_, C> {
    /// Hands over bytes, and tells how many were taken.
    fn hand_over(&mut self, bytes: &[u8]) -> io::Result<usize>
        ensures { IfOk result (λ n. n ≤ length bytes.now) }
    {
        let mut pace = match self.pace {
            None => Pace::start(self.clock)?,
            Some(pace) => pace,
        };
        let left = pace.time_left(self.clock, answer_seconds(pace.bytes), PIECE_SECONDS)?;
        self.stream.set_write_timeout(Some(left))?;
        let mut stream = self.stream;
        let n = stream.write(&bytes[..bytes.len().min(PIECE)])?;
        pace.count(n);
        self.pace = Some(pace);
        Ok(n)
    }

    /// Hands over all the bytes.
    fn hand_over_all(&mut self, bytes: &[u8]) -> io::Result<()> {
        let mut at = 0;
        while at < bytes.len() {
            match self.hand_over(&bytes[at..])? {
                0 => return Err(io::Error::new(ErrorKind::WriteZero, "nothing is taken")),
                n => at += n,
            }
        }
        Ok(())
    }
}

/// Writes what a client is answered. It is gathered, and handed over when it is flushed, or when there is much of it.
#[derive(Drop)]
pub struct PacedWriter<'a, C: Clock> {
    taker: Taker<'a, C>,
    gathered: Vec<u8>,
}

impl<'a, C: Clock> PacedWriter<'a, C> {
    pub fn new(clock: &'a C, alloc: Global, stream: &'a TcpStream) -> Self {
        PacedWriter {
            taker: Taker {
                clock,
                stream,
                pace: None,
            },
            gathered: Vec::new(alloc),
        }
    }

    fn hand_over_gathered(&mut self) -> io::Result<()> {
        self.taker.hand_over_all(&self.gathered)?;
        self.gathered.clear();
        Ok(())
    }

    /// Whether so many bytes more are gathered with those that there are.
    fn has_room(&self, bytes: usize) -> bool {
        self.gathered.len() <= GATHERED && bytes <= GATHERED - self.gathered.len()
    }
}

impl<C: Clock> Write for PacedWriter<'_, C> {
    fn write(&mut self, buf: &[u8]) -> io::Result<usize> {
        if !self.has_room(buf.len()) {
            self.hand_over_gathered()?;
        }
        if buf.len() <= GATHERED && self.gathered.extend_from_slice(buf).is_ok() {
            return Ok(buf.len());
        }
        self.hand_over_gathered()?;
        self.taker.hand_over(buf)
    }

    /// What is written next is an answer of its own, with its own time: the body of a request may come in between.
    fn flush(&mut self) -> io::Result<()> {
        self.hand_over_gathered()?;
        self.taker.pace = None;
        Ok(())
    }
}

/// Reads on after an answer until the client ends, so that it gets the answer though it sent more than was read. A client
/// that sends on and on is left after a second.
pub fn read_off<C: Clock>(clock: &C, mut stream: &TcpStream) -> io::Result<()> {
    let began = Instant::now(clock)?;
    let mut bytes = [0u8; 4096];
    for _ in 0..u64::MAX {
        let left = time_left(clock, began, Duration::from_secs(READING_OFF))?;
        stream.set_read_timeout(Some(left))?;
        if stream.read(&mut bytes)? == 0 {
            break;
        }
    }
    Ok(())
}
