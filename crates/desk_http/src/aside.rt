//! Clients that are connected and have said nothing yet. They wait aside, so that whoever says something is answered
//! meanwhile.
ghost use Rattle.std.specs.Prelude.{◌≡◌, ◌+◌, ◌≤◌, ◌<◌, ◌==◌, [], length, true, false, IfErr};
ghost use Rattle.std.specs.Prelude.{IfSome, MatchOption, OnOk, OnSome};
ghost use Rattle.std.specs.Duration.{as_nanos};
ghost use Rattle.std.specs.IoError.{error_kind};
ghost use Rattle.desk_http.specs.Paces.{is_too_long};

use std::alloc::Global;
use std::io::{self, ErrorKind};
use std::net::TcpStream;
use std::time::{Clock, Duration, Instant};

/// How many may wait.
const MOST: usize = 256;

/// For how many milliseconds a client is waited for that connects while no other waits. It costs less than to wait aside,
/// and most say something at once.
const AT_ONCE: u64 = 10;

/// Whether a look at what came found that something did: bytes, or the end, or that the connection failed.
fn has_come(looked: io::Result<usize>) -> bool
    ensures came { OnOk looked (result ≡ true) }
    ensures silent { IfErr looked (λ e. error_kind e ≡ ErrorKind.WouldBlock → result ≡ false) }
{
    match looked {
        Ok(_) => true,
        Err(e) => e.kind() != ErrorKind::WouldBlock && e.kind() != ErrorKind::Interrupted,
    }
}

/// Whether something has come of a client. What has stays to be read.
fn speaks(stream: &TcpStream) -> bool {
    let mut byte = [0u8; 1];
    has_come(stream.peek(&mut byte))
}

/// Whether something comes of a client at once.
pub fn speaks_at_once(stream: &TcpStream) -> bool {
    match stream.set_read_timeout(Some(Duration::from_millis(AT_ONCE))) {
        Ok(()) => speaks(stream),
        Err(_) => false,
    }
}

/// Whether a client has said nothing for so long that it is left.
fn is_too_long(silence: Duration) -> bool
    ensures { result ≡ is_too_long (as_nanos silence) }
{
    silence >= Duration::from_secs(1)
}

/// A client that has said nothing since.
#[derive(Drop)]
struct Silent {
    stream: TcpStream,
    since: Instant,
}

impl Silent {
    fn new<C: Clock>(clock: &C, stream: TcpStream) -> io::Result<Self> {
        stream.set_nonblocking(true)?;
        Ok(Silent {
            stream,
            since: Instant::now(clock)?,
        })
    }

    /// Its connection, which is waited for from now on; nothing where that fails.
    fn into_stream(self) -> Option<TcpStream> {
        match self.stream.set_nonblocking(false) {
            Ok(()) => Some(self.stream),
            Err(_) => None,
        }
    }
}

/// The clients that wait, the one that came first foremost.
#[derive(Drop)]
pub struct Aside {
    silent: Vec<Silent>,
}

impl Aside {
    pub fn new(alloc: Global) -> Self
        ensures { result.silent.items ≡ [] }
    {
        Aside {
            silent: Vec::new(alloc),
        }
    }

    /// Whether nobody waits.
    pub fn is_empty(&self) -> bool
        ensures { result ≡ (length self.now.silent.items == 0) }
    {
        self.silent.is_empty()
    }

    /// Closes the connection that was waited for longest, if there is one.
    pub fn close_first(&mut self)
        ensures fewer { length self.new.silent.items ≤ length self.old.silent.items }
        ensures one { 0 < length self.old.silent.items
            → length self.new.silent.items + 1 ≡ length self.old.silent.items }
    {
        if !self.silent.is_empty() {
            let _ = self.silent.remove(0);
        }
    }

    /// Has a client wait. Where so many wait that no more may, the one that waited longest is closed.
    fn add(&mut self, silent: Silent)
        ensures most { length self.old.silent.items ≤ 256
            → length self.new.silent.items ≤ 256 }
        ensures one { length self.new.silent.items ≤ length self.old.silent.items + 1 }
    {
        if self.silent.len() >= MOST {
            self.close_first();
        }
        let _ = self.silent.push(silent);
    }

    /// A client that has just connected, if something has come of it; else it waits.
    pub fn meet<C: Clock>(&mut self, clock: &C, stream: TcpStream) -> Option<TcpStream>
        ensures most { length self.old.silent.items ≤ 256
            → length self.new.silent.items ≤ 256 }
        ensures one { MatchOption result
            (length self.new.silent.items ≤ length self.old.silent.items + 1)
            (λ _. length self.new.silent.items ≤ length self.old.silent.items) }
    {
        let Ok(silent) = Silent::new(clock, stream) else {
            return None;
        };
        if speaks(&silent.stream) {
            let stream = silent.into_stream()?;
            return Some(stream);
        }
        self.add(silent);
        None
    }

    /// Where the first stands of whom something has come.
    fn find_speaking(&self) -> Option<usize>
        ensures { IfSome result (λ i. i < length self.now.silent.items) }
    {
        for (i, silent) in self.silent.iter().enumerate() {
            if speaks(&silent.stream) {
                return Some(i);
            }
        }
        None
    }

    /// The first of whom something has come, which waits no more.
    pub fn take_speaking(&mut self) -> Option<TcpStream>
        ensures fewer { length self.new.silent.items ≤ length self.old.silent.items }
        ensures one { OnSome result (length self.new.silent.items + 1
            ≡ length self.old.silent.items) }
    {
        let i = self.find_speaking()?;
        let stream = self.silent.remove(i).into_stream()?;
        Some(stream)
    }

    /// Whether the one that was waited for longest has said nothing for too long.
    fn is_late<C: Clock>(&self, clock: &C) -> bool {
        match self.silent.first() {
            Some(first) => match first.since.elapsed(clock) {
                Ok(silence) => is_too_long(silence),
                Err(_) => true,
            },
            None => false,
        }
    }

    /// Closes the connections of those that have said nothing for too long.
    pub fn close_late<C: Clock>(&mut self, clock: &C)
        ensures { length self.new.silent.items ≤ length self.old.silent.items }
    {
        'late: for _ in 0..self.silent.len() {
            if !self.is_late(clock) {
                return;
            }
            self.close_first();
        }
    }
}
