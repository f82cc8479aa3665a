//! One request of HTTP, read and answered. Its bytes come from a connection (`src/loopback.rt`). Its head is found by
//! `src/receive.rt` and checked by `src/plan.rt`; its operation goes to a `Service`, which `desk_app` `src/service.rt`
//! makes of the books, and what that replies to the client by `src/respond.rt`.
//!
//! What holds, each by the clauses of that name:
//!
//! 1. `kept`: however the request ends, the service may be asked again.
//! 2. `serves`: by the bytes that the reader has, the request is rejected by the first check that it fails, or told the
//!    page or the proof of the token, or its one operation is done and its reply told; of one that didn't come whole
//!    nothing is done (`Serving.ServesOne`).
//! 3. `read`: the same holds by the bytes that were read, so also where no clause knows those of the reader, as of a
//!    connection.
//! 4. `more`: bytes that were read are never lost, but read on behind.
ghost use Rattle.std.specs.Prelude.{◌≡◌, ◌≤◌, ℕ, List, Some, [], length, IfOk};
ghost use Rattle.std.specs.Io.{StartsWith};
ghost use Rattle.desk_http.specs.HeadEnds.{all_of, arrival};
ghost use Rattle.desk_http.specs.Routes.{all_routes};
ghost use Rattle.desk_http.specs.Services.{Performs};
ghost use Rattle.desk_http.specs.Serving.{AreReceived, IsReceived, ServesOne, Waits, WaitsAt, result_of};

use crate::expect::is_waiting;
use crate::head::read_head;
use crate::plan::{Work, make_plan};
use crate::receive::{HeadArrival, Input};
use crate::rejection::Rejection;
use crate::respond::{prove, reject, respond, show_page};
use crate::route::{Route, make_router};
use crate::send::send_interim;
use crate::served::{Served, Stop};
use crate::service::Service;
use crate::site::Site;
use httparse::spans::EMPTY_HEADER_SPAN;
use matchit::Router;
use std::alloc::{AllocError, Global};
use std::io::{Read, Write};

fn copy(alloc: Global, bytes: &[u8]) -> Result<Vec<u8>, AllocError>
    ensures { IfOk result (λ copy. copy.items ≡ bytes.now) }
{
    let mut copy = Vec::new(alloc);
    copy.extend_from_slice(bytes)?;
    Ok(copy)
}

/// Answers a request whose head has come, and has so many bytes.
fn serve_head<R: Read, W: Write, S: Service>(
    alloc: Global,
    reader: &mut R,
    writer: &mut W,
    service: &mut S,
    site: &Site,
    router: &Router<Route>,
    input: &mut Input,
    n: usize,
) -> Result<u16, Stop>
    requires inside { n ≤ length input.old.bytes.items }
    requires head { HeadArrival.Head n ≡ arrival input.old.bytes.items }
    requires router { router.now ≡ all_routes }
    requires kept { S.is_kept service.old }
    ensures kept { S.is_kept service.new }
    ensures more { StartsWith input.new.bytes.items input.old.bytes.items }
    ensures serves { ServesOne (Performs S.state S.machine S.left S.relates) site.now
        (WaitsAt site.now (HeadArrival.Head n) input.old.bytes.items)
        (AreReceived site.now (HeadArrival.Head n)
        (all_of (R.remaining reader.old) input.old.bytes.items) input.new.bytes.items)
        service.old service.new (W.contents writer.old) (W.contents writer.new) result }
{
    let head = copy(alloc, &input.bytes[..n])?;
    let mut spans = [EMPTY_HEADER_SPAN; 64];
    let class = read_head(&head, &mut spans);
    let work = match make_plan(site, router, &head, class, &spans) {
        Ok(work) => work,
        Err(rejection) => return reject(alloc, writer, &site.page, rejection),
    };
    match work {
        Work::ShowPage(page) => show_page(alloc, writer, page),
        Work::Prove(nonce) => prove(alloc, writer, &site.access, &site.page, nonce),
        Work::Ask(target, known, len) => {
            let waits = is_waiting(&head, class, &spans, input.bytes.len() - n, len);
            send_interim(writer, waits)?;
            if !input.receive_body(reader, n, len)? {
                return Err(Stop::Ended);
            }
            let body = &input.bytes[n..n + len];
            respond(alloc, writer, service, site, &target, known, body)
        }
    }
}

/// Answers one request, of which nothing was read before.
fn answer_one<R: Read, W: Write, S: Service>(
    alloc: Global,
    reader: &mut R,
    writer: &mut W,
    service: &mut S,
    site: &Site,
    input: &mut Input,
) -> Result<u16, Stop>
    requires fresh { input.old.bytes.items ≡ [] }
    requires kept { S.is_kept service.old }
    ensures kept { S.is_kept service.new }
    ensures serves { ServesOne (Performs S.state S.machine S.left S.relates) site.now
        (Waits site.now (R.remaining reader.old)) (IsReceived site.now (R.remaining reader.old))
        service.old service.new (W.contents writer.old) (W.contents writer.new) result }
    ensures read { ServesOne (Performs S.state S.machine S.left S.relates) site.now
        (Waits site.now (Some input.new.bytes.items))
        (IsReceived site.now (Some input.new.bytes.items))
        service.old service.new (W.contents writer.old) (W.contents writer.new) result }
{
    let Ok(router) = make_router(alloc) else {
        return Err(Stop::Memory);
    };
    match input.receive_head(reader)? {
        HeadArrival::Incomplete => Err(Stop::Ended),
        HeadArrival::TooLong => reject(alloc, writer, &site.page, Rejection::HeadTooLarge),
        HeadArrival::Head(n) => {
            serve_head(alloc, reader, writer, service, site, &router, input, n)
        }
    }
}

fn served_of(end: Result<u16, Stop>) -> Served
    ensures { result_of result ≡ end }
{
    match end {
        Ok(status) => Served::Answered(status),
        Err(Stop::Ended) => Served::Ended,
        Err(Stop::ReadFailed) => Served::ReadFailed,
        Err(Stop::WriteFailed) => Served::WriteFailed,
        Err(Stop::Memory) => Served::Memory,
    }
}

/// Reads one request, has the service do what it asks, and answers it.
///
/// Who may ask is said by the site, and whether there is a page; a request of anyone else is refused, and nothing of it is
/// done.
///
/// A request is read as far as its body goes, and nothing behind it; of a GET no body is read. A client that waits to be
/// told that its body may come is told so, once its head has passed the checks. There is one answer, and the connection is
/// the caller's to close. There are at most 2,000,000 reads.
///
/// Of a reader whose bytes aren't known it did what it would do for some bytes, namely those that it read.
pub fn serve_one<R: Read, W: Write, S: Service>(
    alloc: Global,
    reader: &mut R,
    writer: &mut W,
    service: &mut S,
    site: &Site,
) -> Served
    requires { S.is_kept service.old }
    ensures kept { S.is_kept service.new }
    ensures serves { ServesOne (Performs S.state S.machine S.left S.relates) site.now
        (Waits site.now (R.remaining reader.old)) (IsReceived site.now (R.remaining reader.old))
        service.old service.new (W.contents writer.old) (W.contents writer.new)
        (result_of result) }
    ensures read { (xs : List ℕ) × ServesOne (Performs S.state S.machine S.left S.relates) site.now
        (Waits site.now (Some xs)) (IsReceived site.now (Some xs))
        service.old service.new (W.contents writer.old) (W.contents writer.new)
        (result_of result) }
{
    let mut input = Input::new(alloc);
    served_of(answer_one(alloc, reader, writer, service, site, &mut input))
}
