//! Whole writes.
ghost use Rattle.std.specs.Prelude.{◌≡◌, ◌≤◌, ◌++◌, List, ℕ, take, true, MatchResult, length};
ghost use Rattle.std.specs.Io.KnownBytes.{Appends};
ghost use Rattle.desk_http.specs.Responses.{interim_bytes, response};
ghost use Rattle.desk_http.specs.Serving.{AppendsFront, Sends};

use crate::served::Stop;
use crate::service::Service;
use http::StatusCode;
use std::alloc::Global;
use std::io::Write;

/// Writes all the bytes; else a front of them.
fn send<W: Write>(writer: &mut W, text: &[u8]) -> Result<(), Stop>
    ensures { MatchResult result
        (λ _. Appends (W.contents writer.old) (W.contents writer.new) text.now)
        (λ e. (e ≡ Stop.WriteFailed)
        × AppendsFront (W.contents writer.old) (W.contents writer.new) text.now) }
{
    let mut at = 0;
    while at < text.len() {
        match writer.write(&text[at..]) {
            Ok(0) => return Err(Stop::WriteFailed),
            Ok(n) => at += n,
            Err(_) => return Err(Stop::WriteFailed),
        }
    }
    Ok(())
}

/// Writes all the bytes and has them go out at once; else a front of them is written.
#[tactic(auto, using(crate::proofs::Known::kept_whole, crate::proofs::Known::kept_front))]
pub fn send_now<W: Write>(writer: &mut W, text: &[u8]) -> Result<(), Stop>
    ensures { MatchResult result
        (λ _. Appends (W.contents writer.old) (W.contents writer.new) text.now)
        (λ e. (e ≡ Stop.WriteFailed)
        × AppendsFront (W.contents writer.old) (W.contents writer.new) text.now) }
{
    match send(writer, text) {
        Ok(()) => match writer.flush() {
            Ok(()) => Ok(()),
            Err(_) => Err(Stop::WriteFailed),
        },
        Err(_) => Err(Stop::WriteFailed),
    }
}

/// Tells a client that waits for it to send its body.
pub fn send_interim<W: Write>(writer: &mut W, waits: bool) -> Result<(), Stop>
    ensures { MatchResult result
        (λ _. Appends (W.contents writer.old) (W.contents writer.new) (interim_bytes waits))
        (λ e. (e ≡ Stop.WriteFailed) × (waits ≡ true)
        × AppendsFront (W.contents writer.old) (W.contents writer.new) (interim_bytes waits)) }
{
    if waits {
        send_now(writer, b"HTTP/1.1 100 Continue\r\n\r\n")
    } else {
        Ok(())
    }
}

/// Sends a response of this status, its head and then its body.
pub fn send_response<W: Write>(
    writer: &mut W,
    status: StatusCode,
    head: &str,
    body: &[u8],
) -> Result<u16, Stop>
    ensures { Sends (response status (head.now ++ body.now))
        (W.contents writer.old) (W.contents writer.new) result }
{
    send(writer, head.as_bytes())?;
    match send(writer, body) {
        Ok(()) => match writer.flush() {
            Ok(()) => Ok(status.as_u16()),
            Err(_) => Err(Stop::WriteFailed),
        },
        Err(_) => Err(Stop::WriteFailed),
    }
}

/// Sends a response of status 200, its head and then the dump of a service, as it is written.
pub fn send_dump<W: Write, S: Service>(
    alloc: Global,
    writer: &mut W,
    service: &S,
    head: &str,
) -> Result<u16, Stop>
    requires { S.is_kept service.now }
    ensures { Sends (response 200 (head.now ++ S.machine.show_dump (S.state service.now)))
        (W.contents writer.old) (W.contents writer.new) result }
{
    send(writer, head.as_bytes())?;
    match service.dump(alloc, writer) {
        Ok(()) => match writer.flush() {
            Ok(()) => Ok(200),
            Err(_) => Err(Stop::WriteFailed),
        },
        Err(_) => Err(Stop::WriteFailed),
    }
}
