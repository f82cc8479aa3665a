//! A service is asked, over a connection of its own.
ghost use Rattle.std.specs.Prelude.{◌≡◌, ◌⊎◌, IfErr, IfOk, IfSome};
ghost use Rattle.desk_http.specs.Answering.{IsAsked};
ghost use Rattle.desk_http.specs.Asking.{request_bytes};

use crate::access::Access;
use crate::answer::{Answer, Unheard, read_answer};
use crate::question::Question;
use crate::receive::Input;
use crate::request::request_bytes;
use crate::send::send_now;
use crate::served::Stop;
use std::alloc::Global;
use std::io::{Read, Write};

/// All bytes that a connection gives until it ends.
fn receive_all<R: Read>(alloc: Global, reader: &mut R) -> Result<Vec<u8>, Unheard>
    ensures bytes { IfOk result (λ bytes.
        IfSome (R.remaining reader.old) (λ known. bytes.items ≡ known)) }
    ensures failed { IfErr result (λ why. (why ≡ Unheard.Failed) ⊎ (why ≡ Unheard.Memory)) }
{
    let mut input = Input::new(alloc);
    match input.receive_body(reader, 0, usize::MAX) {
        Ok(false) => Ok(input.into_bytes()),
        Err(Stop::Memory) => Err(Unheard::Memory),
        _ => Err(Unheard::Failed),
    }
}

/// Asks a service of this port and token, over a connection to it, and reads what it answers, all that the connection gives
/// until it ends. What is only asked for has no body.
pub fn ask_service<R: Read, W: Write>(
    alloc: Global,
    reader: &mut R,
    writer: &mut W,
    access: &Access,
    question: Question<'_>,
    body: &[u8],
) -> Result<Answer, Unheard>
    ensures { IsAsked (request_bytes access.now question.entry body.now)
        (R.remaining reader.old) (W.contents writer.old) (W.contents writer.new) result }
{
    let request = request_bytes(alloc, access, question, body)?;
    match send_now(writer, &request) {
        Ok(()) => {}
        Err(_) => return Err(Unheard::Failed),
    }
    let bytes = receive_all(alloc, reader)?;
    read_answer(alloc, &bytes)
}
