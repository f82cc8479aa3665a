//! Clients on the loopback, a request a connection, one connection after another. Those that say nothing wait aside.
ghost use Rattle.std.specs.Prelude.{◌≡◌, ◌⊎◌, ◌+◌, ◌<◌, ◌≤◌, ◌^◌, ℕ, length, true, IfNone};
ghost use Rattle.std.specs.Prelude.{IfOk, IfSome, MatchOption, OnErr, OnOk};
ghost use Rattle.desk_http.specs.Paces.{HaveGone, Meets};
ghost use Rattle.desk_http.specs.Services.{Performs};
ghost use Rattle.desk_http.specs.Serving.{AreSteps, IsOneOperation, IsOneStep, IsTaken};

use crate::aside::{Aside, speaks_at_once};
use crate::pace::{PacedReader, PacedWriter, read_off};
use crate::serve::serve_one;
use crate::served::Served;
use crate::service::Service;
use crate::site::Site;
use std::alloc::Global;
use std::io::{self, ErrorKind};
use std::net::{OpenListener, Shutdown, TcpStream};
use std::thread;
use std::time::{Clock, Duration};

/// How often a descriptor is waited for, where none is left for a connection.
const TRIES: u32 = 10;

/// How many milliseconds each time.
const MILLISECONDS: u64 = 200;

/// How many connections are accepted at most before those that wait are looked at again.
const AT_A_TIME: u32 = 64;

/// For how many microseconds nothing is looked at while clients wait that say nothing.
const MICROSECONDS: u64 = 200;

/// The codes of the system where the machine, or the program, may have no descriptor more.
const NO_DESCRIPTOR: [i32; 2] = [23, 24];

/// Ends a connection: one that was answered is read off first, so that the client gets the answer whole.
fn end<C: Clock>(clock: &C, stream: &TcpStream, served: Served) -> io::Result<()> {
    match served {
        Served::Answered(_) => {
            stream.shutdown(Shutdown::Write)?;
            read_off(clock, stream)
        }
        _ => Ok(()),
    }
}

/// Answers the request of a connection: what becomes of the service is what some bytes ask for, namely those that came.
/// Whatever fails costs the connection alone.
fn answer<C: Clock, S: Service>(
    clock: &C,
    alloc: Global,
    stream: &TcpStream,
    service: &mut S,
    site: &Site,
) -> io::Result<()>
    requires { S.is_kept service.old }
    ensures kept { S.is_kept service.new }
    ensures step { IsOneStep (Performs S.state S.machine S.left S.relates) site.now
        service.old service.new }
{
    let mut reader = PacedReader::new(clock, stream);
    let mut writer = PacedWriter::new(clock, alloc, stream);
    let served = serve_one(alloc, &mut reader, &mut writer, service, site);
    end(clock, stream, served)
}

/// The clients of a listener, and how many connections of theirs were accepted.
#[derive(Drop)]
pub struct Clients<L: OpenListener<Stream = TcpStream> + Drop> {
    listener: L,
    /// Whether a connection is waited for where none is there.
    waits: bool,
    accepted: u64,
}

impl<L: OpenListener<Stream = TcpStream> + Drop> Clients<L> {
    /// The clients of this listener, none of which was accepted yet.
    pub fn of(listener: L) -> Self
        ensures { result.accepted ≡ 0 }
    {
        Clients {
            listener,
            waits: true,
            accepted: 0,
        }
    }

    /// Has connections waited for, or not.
    fn set_waits(&mut self, waits: bool) -> io::Result<()>
        ensures { self.new.accepted ≡ self.old.accepted }
    {
        if self.waits != waits {
            self.listener.set_nonblocking(!waits)?;
            self.waits = waits;
        }
        Ok(())
    }

    /// The next connection.
    fn accept(&mut self) -> io::Result<TcpStream>
        requires { self.old.accepted + 1 < 2 ^ 64 }
        ensures accepted { OnOk result (self.new.accepted ≡ self.old.accepted + 1) }
        ensures none { OnErr result (self.new.accepted ≡ self.old.accepted) }
    {
        let (stream, _) = self.listener.accept()?;
        self.accepted += 1;
        Ok(stream)
    }

    /// The next connection that is there to be answered. One that its client gave up before is passed over and not
    /// counted; where no descriptor is left, it waits for one, ten times at most.
    fn accept_patiently<C: Clock>(&mut self, clock: &C) -> io::Result<TcpStream>
        requires { self.old.accepted + 1 < 2 ^ 64 }
        ensures accepted { OnOk result (self.new.accepted ≡ self.old.accepted + 1) }
        ensures none { OnErr result (self.new.accepted ≡ self.old.accepted) }
    {
        self.set_waits(true)?;
        let mut tries = 0;
        'tries: for _ in 0..u64::MAX {
            let error = match self.accept() {
                Ok(stream) => return Ok(stream),
                Err(error) => error,
            };
            if error.kind() == ErrorKind::ConnectionAborted {
                continue 'tries;
            }
            if tries >= TRIES || !lacks_descriptor(&error) {
                return Err(error);
            }
            tries += 1;
            thread::sleep(clock, Duration::from_millis(MILLISECONDS));
        }
        Err(io::Error::new(ErrorKind::Other, "no client stays"))
    }

    /// The next connection, if one is there already. Where no descriptor is left, the client that waited longest is
    /// closed.
    fn accept_now(&mut self, aside: &mut Aside) -> io::Result<Option<TcpStream>>
        requires { self.old.accepted + 1 < 2 ^ 64 }
        ensures aside { length aside.new.silent.items ≤ length aside.old.silent.items }
        ensures accepted { IfOk result (λ met. MatchOption met
            (self.new.accepted ≡ self.old.accepted)
            (λ _. self.new.accepted ≡ self.old.accepted + 1)) }
        ensures none { OnErr result (self.new.accepted ≡ self.old.accepted) }
    {
        self.set_waits(false)?;
        let error = match self.accept() {
            Ok(stream) => return Ok(Some(stream)),
            Err(error) => error,
        };
        if lacks_descriptor(&error) {
            aside.close_first();
            return Ok(None);
        }
        if is_nobody(&error) {
            Ok(None)
        } else {
            Err(error)
        }
    }
}

/// Whether it is no fault of the listener that no connection is there: none has come, or it was given up.
fn is_nobody(error: &io::Error) -> bool {
    match error.kind() {
        ErrorKind::WouldBlock | ErrorKind::Interrupted | ErrorKind::ConnectionAborted => true,
        _ => false,
    }
}

fn lacks_descriptor(error: &io::Error) -> bool {
    match error.raw_os_error() {
        Some(code) => NO_DESCRIPTOR.contains(&code),
        None => false,
    }
}

/// The first client of whom something has come, of those that are connecting. The others wait aside. So many connections
/// are accepted at most in all.
fn meet_some<C: Clock, L: OpenListener<Stream = TcpStream> + Drop>(
    clock: &C,
    clients: &mut Clients<L>,
    aside: &mut Aside,
    last: u64,
) -> io::Result<Option<TcpStream>>
    requires { clients.old.accepted ≤ last }
    ensures meets { Meets last clients.old.accepted (length aside.old.silent.items)
        clients.new.accepted (length aside.new.silent.items) result }
{
    'others: for _ in 0..AT_A_TIME {
        if clients.accepted >= last {
            return Ok(None);
        }
        let Some(stream) = clients.accept_now(aside)? else {
            return Ok(None);
        };
        if let Some(stream) = aside.meet(clock, stream) {
            return Ok(Some(stream));
        }
    }
    Ok(None)
}

/// The next client of whom something has come, if there is one now: of those that wait, and then of those that are
/// connecting. Whoever has said nothing for too long is closed.
fn look_round<C: Clock, L: OpenListener<Stream = TcpStream> + Drop>(
    clock: &C,
    clients: &mut Clients<L>,
    aside: &mut Aside,
    last: u64,
) -> io::Result<Option<TcpStream>>
    requires { clients.old.accepted ≤ last }
    ensures meets { Meets last clients.old.accepted (length aside.old.silent.items)
        clients.new.accepted (length aside.new.silent.items) result }
{
    if let Some(stream) = aside.take_speaking() {
        return Ok(Some(stream));
    }
    aside.close_late(clock);
    if let Some(stream) = meet_some(clock, clients, aside, last)? {
        return Ok(Some(stream));
    }
    thread::sleep(clock, Duration::from_micros(MICROSECONDS));
    Ok(None)
}

/// The next client where nobody waits, if something comes of it at once: else it waits aside.
fn meet_next<C: Clock, L: OpenListener<Stream = TcpStream> + Drop>(
    clock: &C,
    clients: &mut Clients<L>,
    aside: &mut Aside,
) -> io::Result<Option<TcpStream>>
    requires { clients.old.accepted + 1 < 2 ^ 64 }
    ensures meets { Meets (clients.old.accepted + 1) clients.old.accepted
        (length aside.old.silent.items) clients.new.accepted
        (length aside.new.silent.items) result }
{
    let stream = clients.accept_patiently(clock)?;
    if speaks_at_once(&stream) {
        return Ok(Some(stream));
    }
    match aside.meet(clock, stream) {
        Some(stream) => Ok(Some(stream)),
        None => Ok(None),
    }
}

/// The next client of whom something has come, if there is one now; where nobody waits, one is waited for.
fn look<C: Clock, L: OpenListener<Stream = TcpStream> + Drop>(
    clock: &C,
    clients: &mut Clients<L>,
    aside: &mut Aside,
    last: u64,
) -> io::Result<Option<TcpStream>>
    requires { clients.old.accepted ≤ last }
    ensures meets { Meets last clients.old.accepted (length aside.old.silent.items)
        clients.new.accepted (length aside.new.silent.items) result }
{
    if aside.is_empty() && clients.accepted < last {
        meet_next(clock, clients, aside)
    } else {
        look_round(clock, clients, aside, last)
    }
}

/// The next client of whom something has come. The others wait aside meanwhile, each for its second. There is none once so
/// many connections were accepted and none waits.
fn next_client<C: Clock, L: OpenListener<Stream = TcpStream> + Drop>(
    clock: &C,
    clients: &mut Clients<L>,
    aside: &mut Aside,
    last: u64,
) -> io::Result<Option<TcpStream>>
    requires { clients.old.accepted ≤ last }
    ensures last { clients.new.accepted ≤ last }
    ensures none { IfOk result (λ met. IfNone met (clients.new.accepted ≡ last)) }
    ensures one { IfOk result (λ met. IfSome met (λ _. HaveGone 1 clients.old.accepted
        (length aside.old.silent.items) clients.new.accepted
        (length aside.new.silent.items))) }
{
    'rounds: for _ in 0..u64::MAX {
        if aside.is_empty() && clients.accepted == last {
            return Ok(None);
        }
        if let Some(stream) = look(clock, clients, aside, last)? {
            return Ok(Some(stream));
        }
    }
    Err(io::Error::new(ErrorKind::Other, "no client says anything"))
}

/// Accepts so many connections, and answers each of whom something comes.
fn serve_clients<C: Clock, L: OpenListener<Stream = TcpStream> + Drop, S: Service>(
    clock: &C,
    alloc: Global,
    clients: &mut Clients<L>,
    count: u64,
    service: &mut S,
    site: &Site,
) -> io::Result<()>
    requires kept { S.is_kept service.old }
    requires room { clients.old.accepted + count < 2 ^ 64 }
    ensures kept { S.is_kept service.new }
    ensures steps { (n : ℕ) × (n ≤ count)
        × AreSteps (IsTaken S.over
        (IsOneStep (Performs S.state S.machine S.left S.relates) site.now)) n
        service.old service.new }
    ensures most { clients.new.accepted ≤ clients.old.accepted + count }
    ensures accepted { OnOk result ((clients.new.accepted ≡ clients.old.accepted + count)
        ⊎ (S.over service.new ≡ true)) }
{
    let last = clients.accepted + count;
    let mut aside = Aside::new(alloc);
    for done in 0..count {
        if service.is_over() {
            return Ok(());
        }
        let Some(stream) = next_client(clock, clients, &mut aside, last)? else {
            return Ok(());
        };
        let _ = answer(clock, alloc, &stream, service, site);
    }
    Ok(())
}

/// Accepts so many connections and answers each as `serve_one` does, whatever it gives, once it gives something; none is
/// accepted once the service is over. A client that says nothing waits aside, and is left after a second; one that is slow
/// is left when it doesn't keep the pace. An error is one of the listener, which gives no connection.
pub fn serve_connections<C: Clock, L: OpenListener<Stream = TcpStream> + Drop, S: Service>(
    clock: &C,
    alloc: Global,
    clients: &mut Clients<L>,
    count: u64,
    service: &mut S,
    site: &Site,
) -> io::Result<()>
    requires kept { S.is_kept service.old }
    requires room { clients.old.accepted + count < 2 ^ 64 }
    ensures kept { S.is_kept service.new }
    ensures steps { (n : ℕ) × (n ≤ count)
        × AreSteps (IsTaken S.over
        (IsOneStep (Performs S.state S.machine S.left S.relates) site.now)) n
        service.old service.new }
    ensures operations { (n : ℕ) × (n ≤ count)
        × AreSteps (IsTaken S.over
        (IsOneOperation (Performs S.state S.machine S.left S.relates))) n
        service.old service.new }
    ensures most { clients.new.accepted ≤ clients.old.accepted + count }
    ensures accepted { OnOk result ((clients.new.accepted ≡ clients.old.accepted + count)
        ⊎ (S.over service.new ≡ true)) }
{
    serve_clients(clock, alloc, clients, count, service, site)
}
