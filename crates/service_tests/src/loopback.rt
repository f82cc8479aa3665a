//! Clients on the loopback, over sockets: each has asked before the first is answered.
use crate::readings::serving;
use crate::requests::{FIRST, LINES, NOTHING};
use desk_app::LineOptions;
use desk_core::Shop;
use desk_http::{Access, Clients, Site, serve_connections};
use part_core::{Limits, Seed};
use std::alloc::Global;
use std::io::{self, Read, Write};
use std::net::{Ipv4Addr, Shutdown, TcpListener, TcpStream};
use std::test::Fail;
use store_play::outcomes::holds;

/// A client that has sent its request, and says no more.
fn asked(rt: &HostRuntime, listener: &TcpListener, request: &str) -> io::Result<TcpStream> {
    let mut client = TcpStream::connect(rt, listener.local_addr()?)?;
    client.write_all(request.as_bytes())?;
    client.shutdown(Shutdown::Write)?;
    Ok(client)
}

/// Fails where the client got anything else, or its connection stays open.
fn got(alloc: Global, mut client: TcpStream, answer: &str) -> Result<(), Fail> {
    let mut bytes = Vec::new(alloc);
    client.read_to_end(&mut bytes)?;
    holds(bytes.as_slice() == answer.as_bytes(), "another answer")
}

#[test]
fn serve_loopback(rt: HostRuntime) -> Result<(), Fail> {
    let alloc = rt.alloc();
    let books = Shop::new(alloc, Seed::new(0), Limits::LARGEST);
    let mut service = serving(books, LineOptions::PLAIN, None);
    let listener = TcpListener::bind(&rt, (Ipv4Addr::LOCALHOST, 0))?;
    let first = asked(&rt, &listener, FIRST[0])?;
    let second = asked(&rt, &listener, NOTHING[0][0])?;
    // One that drops its connection amid the request costs nothing but the connection.
    let third = asked(&rt, &listener, "GET /repo")?;
    let fourth = asked(&rt, &listener, LINES[1][0])?;
    let site = Site {
        access: Access::new(alloc, listener.local_addr()?.port(), None)?,
        page: None,
    };
    let mut clients = Clients::of(listener);
    serve_connections(&rt, alloc, &mut clients, 4, &mut service, &site)?;
    got(alloc, first, FIRST[1])?;
    got(alloc, second, NOTHING[0][1])?;
    got(alloc, third, "")?;
    got(alloc, fourth, LINES[1][1])
}
