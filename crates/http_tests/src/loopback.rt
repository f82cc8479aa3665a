//! Clients on the loopback, over sockets: slow ones, silent ones, and a listener that fails. The clock is the test's own,
//! so that nothing waits.
use crate::counting::Counting;
use crate::play::{open, with_page};
use desk_http::{Clients, serve_connections};
use std::alloc::{AllocError, Global};
use std::cell::Cell;
use std::io::{self, ErrorKind, Read, Write};
use std::net::{Ipv4Addr, OpenListener, Shutdown, SocketAddr, TcpListener, TcpStream};
use std::test::Fail;
use std::time::{Clock, Duration};

/// A clock that goes on by a step each time that it is looked at, and by the whole of each sleep.
#[derive(Drop)]
struct SteppingClock {
    now: Cell<u64>,
    step: u64,
    sleeps: Cell<u64>,
}

impl SteppingClock {
    /// A step is so many milliseconds.
    fn new(step: u64) -> Self {
        SteppingClock {
            now: Cell::new(0),
            step,
            sleeps: Cell::new(0),
        }
    }
}

impl Clock for SteppingClock {
    fn monotonic(&self) -> io::Result<Duration> {
        self.now.set(self.now.get().saturating_add(self.step));
        Ok(Duration::from_millis(self.now.get()))
    }

    fn since_1970(&self) -> io::Result<Duration> {
        self.monotonic()
    }

    fn sleep(&self, duration: Duration) {
        let slept = u64::try_from(duration.as_millis()).unwrap_or(u64::MAX);
        self.now.set(self.now.get().saturating_add(slept));
        self.sleeps.set(self.sleeps.get().saturating_add(1));
    }
}

/// A clock that stands still, and at which a client that said nothing asks once somebody sleeps.
#[derive(Drop)]
struct WakingClock {
    client: TcpStream,
    has_asked: Cell<bool>,
}

impl Clock for WakingClock {
    fn monotonic(&self) -> io::Result<Duration> {
        Ok(Duration::from_millis(0))
    }

    fn since_1970(&self) -> io::Result<Duration> {
        self.monotonic()
    }

    fn sleep(&self, _: Duration) {
        if !self.has_asked.get() {
            self.has_asked.set(true);
            let mut client = &self.client;
            let _ = client.write_all(REPORT);
            let _ = self.client.shutdown(Shutdown::Write);
        }
    }
}

/// A listener whose first accepts fail so, one after another.
#[derive(Drop)]
struct FaultyListener<'a> {
    listener: TcpListener,
    faults: &'a [i32],
    calls: Cell<usize>,
}

impl OpenListener for FaultyListener<'_> {
    type Stream = TcpStream;

    fn accept(&self) -> io::Result<(TcpStream, SocketAddr)> {
        let call = self.calls.get();
        self.calls.set(call.saturating_add(1));
        match self.faults.get(call) {
            Some(code) => Err(io::Error::from_raw_os_error(*code)),
            None => self.listener.accept(),
        }
    }
}

/// A client that has sent this, and says no more.
fn asked(rt: &HostRuntime, listener: &TcpListener, request: &[u8]) -> io::Result<TcpStream> {
    let mut client = TcpStream::connect(rt, listener.local_addr()?)?;
    client.write_all(request)?;
    client.shutdown(Shutdown::Write)?;
    Ok(client)
}

/// Whether the client is answered with that status, or not at all.
fn is_answered(alloc: Global, mut client: TcpStream, status: Option<&str>) -> io::Result<bool> {
    let mut bytes = Vec::new(alloc);
    match client.read_to_end(&mut bytes) {
        Ok(_) => {}
        Err(e) if e.kind() == ErrorKind::ConnectionReset => {}
        Err(e) => return Err(e),
    }
    Ok(match status {
        Some(status) => bytes.as_slice().starts_with(status.as_bytes()),
        None => bytes.is_empty(),
    })
}

const REPORT: &[u8] = b"GET /report/ledger/1 HTTP/1.1\r\n\r\n";

const OK: Option<&str> = Some("HTTP/1.1 200 OK\r\n");

/// Serves one client behind these faults, and tells the sleeps and whether it was served.
fn serves_behind(rt: &HostRuntime, faults: &[i32]) -> Result<(u64, bool), Fail> {
    let alloc = rt.alloc();
    let listener = TcpListener::bind(rt, (Ipv4Addr::LOCALHOST, 0))?;
    let client = asked(rt, &listener, REPORT)?;
    let calls = Cell::new(0);
    let mut clients = Clients::of(FaultyListener {
        listener,
        faults,
        calls,
    });
    let clock = SteppingClock::new(0);
    let mut service = Counting::new(0);
    let served = serve_connections(&clock, alloc, &mut clients, 1, &mut service, &open(alloc)?);
    if served.is_err() {
        return Ok((clock.sleeps.get(), false));
    }
    if !is_answered(alloc, client, OK)? {
        return Err(Fail::from("the client is not answered"));
    }
    Ok((clock.sleeps.get(), true))
}

/// Codes of the system: no descriptor in the program and in the machine, a connection given up, a wrong argument.
const MANY: i32 = 24;

const ALL: i32 = 23;

const GIVEN_UP: i32 = 103;

const WRONG: i32 = 22;

/// A connection that was given up costs nothing, and descriptors are waited for ten times.
#[test]
fn faults_of_accept(rt: HostRuntime) -> Result<(), Fail> {
    assert!(rt; serves_behind(&rt, &[])? == (0, true));
    assert!(rt; serves_behind(&rt, &[GIVEN_UP; 20])? == (0, true));
    assert!(rt; serves_behind(&rt, &[MANY, GIVEN_UP, ALL, GIVEN_UP])? == (2, true));
    assert!(rt; serves_behind(&rt, &[MANY; 10])? == (10, true));
    assert!(rt; serves_behind(&rt, &[ALL; 11])? == (10, false));
    assert!(rt; serves_behind(&rt, &[WRONG])? == (0, false));
    Ok(())
}

/// A line of so many bytes.
fn line(alloc: Global, length: usize) -> Result<Vec<u8>, AllocError> {
    let head = format!(in alloc; "POST /run HTTP/1.1\r\nContent-Length: {length}\r\n\r\n")?;
    let mut bytes = Vec::new(alloc);
    bytes.extend_from_slice(head.as_str().as_bytes())?;
    for _ in 0..length {
        bytes.push(b'a')?;
    }
    Ok(bytes)
}

/// Whether a request is answered with that status where each look at the clock finds it so many milliseconds later.
fn answers_at(
    rt: &HostRuntime,
    step: u64,
    request: &[u8],
    status: Option<&str>,
) -> Result<bool, Fail> {
    let alloc = rt.alloc();
    let listener = TcpListener::bind(rt, (Ipv4Addr::LOCALHOST, 0))?;
    let client = asked(rt, &listener, request)?;
    let clock = SteppingClock::new(step);
    let mut service = Counting::new(0);
    let mut clients = Clients::of(listener);
    serve_connections(&clock, alloc, &mut clients, 1, &mut service, &open(alloc)?)?;
    Ok(is_answered(alloc, client, status)?)
}

/// A request has 30 seconds, and one more for each 10 KiB that come.
#[test]
fn slow_clients(rt: HostRuntime) -> Result<(), Fail> {
    let alloc = rt.alloc();
    let mut head = String::from_str(alloc, "GET /report/ledger/1 HTTP/1.1\r\na: ")?;
    for _ in 0..8_000u32 {
        head.push_str("b")?;
    }
    head.push_str("\r\n\r\n")?;
    let head = head.as_str().as_bytes();
    assert!(rt; answers_at(&rt, 10_000, REPORT, OK)?);
    assert!(rt; answers_at(&rt, 29_000, head, OK)?);
    assert!(rt; answers_at(&rt, 31_000, head, None)?);
    let body = line(alloc, 40_000)?;
    assert!(rt; answers_at(&rt, 2_000, &body, OK)?);
    assert!(rt; answers_at(&rt, 5_000, &body, None)?);
    Ok(())
}

/// A client that says nothing, or drops its connection amid its request, costs nothing but the connection.
#[test]
fn silent_clients(rt: HostRuntime) -> Result<(), Fail> {
    let alloc = rt.alloc();
    let listener = TcpListener::bind(&rt, (Ipv4Addr::LOCALHOST, 0))?;
    let silent = TcpStream::connect(&rt, listener.local_addr()?)?;
    let early = asked(&rt, &listener, b"GET /repo")?;
    let third = asked(&rt, &listener, REPORT)?;
    let mut service = Counting::new(0);
    let mut clients = Clients::of(listener);
    serve_connections(&rt, alloc, &mut clients, 3, &mut service, &open(alloc)?)?;
    assert!(rt; is_answered(alloc, silent, None)?);
    assert!(rt; is_answered(alloc, early, None)?);
    assert!(rt; is_answered(alloc, third, OK)?);
    Ok(())
}

/// A client that says nothing keeps nobody waiting, and is answered once it asks.
#[test]
fn silent_clients_wait_aside(rt: HostRuntime) -> Result<(), Fail> {
    let alloc = rt.alloc();
    let listener = TcpListener::bind(&rt, (Ipv4Addr::LOCALHOST, 0))?;
    let silent = TcpStream::connect(&rt, listener.local_addr()?)?;
    let other = asked(&rt, &listener, REPORT)?;
    let clock = WakingClock {
        client: silent.try_clone()?,
        has_asked: Cell::new(false),
    };
    let mut service = Counting::new(0);
    let mut clients = Clients::of(listener);
    serve_connections(&clock, alloc, &mut clients, 2, &mut service, &open(alloc)?)?;
    assert!(rt; is_answered(alloc, other, OK)?);
    assert!(rt; is_answered(alloc, silent, OK)?);
    Ok(())
}

/// How many bytes a client gets of an answer of 400,000 and its head, where each look at the clock finds it so many
/// milliseconds later.
fn taken_at(rt: &HostRuntime, step: u64) -> Result<usize, Fail> {
    let alloc = rt.alloc();
    let listener = TcpListener::bind(rt, (Ipv4Addr::LOCALHOST, 0))?;
    let mut client = asked(rt, &listener, b"GET /export/items HTTP/1.1\r\n\r\n")?;
    let clock = SteppingClock::new(step);
    let mut service = Counting::new(400_000);
    let mut clients = Clients::of(listener);
    serve_connections(
        &clock,
        alloc,
        &mut clients,
        1,
        &mut service,
        &with_page(alloc)?,
    )?;
    let mut bytes = Vec::new(alloc);
    let _ = client.read_to_end(&mut bytes);
    Ok(bytes.len())
}

/// An answer has 30 seconds, and one more for each 100 KiB that are taken.
#[test]
fn slow_answers(rt: HostRuntime) -> Result<(), Fail> {
    assert!(rt; taken_at(&rt, 3_000)? > 400_000);
    assert!(rt; taken_at(&rt, 6_000)? < 400_000);
    Ok(())
}
