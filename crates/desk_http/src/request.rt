//! A request, byte by byte.
ghost use Rattle.std.specs.Prelude.{◌≡◌, ◌++◌, length, IfOk, OnOk};
ghost use Rattle.desk_http.specs.Asking.{length_line, request_bytes, request_head, token_line};
ghost use Rattle.desk_http.specs.Responses.{line};
ghost use Rattle.desk_http.specs.Targets.{some_text};

use crate::access::Access;
use crate::question::{Question, method_part, target_of};
use std::alloc::{AllocError, Global};

#[tactic(auto, unfolding(crate::specs::Responses::line), using(crate::proofs::Known::grouped))]
fn push_line(head: &mut Vec<u8>, name: &[u8], value: &[u8]) -> Result<(), AllocError>
    ensures { OnOk result (head.new.items ≡ head.old.items ++ line name.now value.now) }
{
    head.extend_from_slice(name)?;
    head.extend_from_slice(value)?;
    head.extend_from_slice(b"\r\n")
}

/// Adds the line that shows the token, if there is one.
fn push_token(head: &mut Vec<u8>, token: Option<&[u8]>) -> Result<(), AllocError>
    ensures { OnOk result (head.new.items ≡ head.old.items ++ token_line (some_text token.entry)) }
{
    match token {
        Some(token) => push_line(head, b"Authorization: Bearer ", token),
        None => Ok(()),
    }
}

/// Adds the line that tells the length of the body, where there may be one.
fn push_length(
    alloc: Global,
    head: &mut Vec<u8>,
    is_done: bool,
    count: usize,
) -> Result<(), AllocError>
    ensures { OnOk result (head.new.items ≡ head.old.items ++ length_line is_done count) }
{
    if !is_done {
        return Ok(());
    }
    let text = format!(in alloc; "{count}")?;
    push_line(head, b"Content-Length: ", text.as_str().as_bytes())
}

/// The head of the request that asks so, of a service of this port and token.
fn request_head(
    alloc: Global,
    access: &Access,
    question: Question<'_>,
    count: usize,
) -> Result<Vec<u8>, AllocError>
    ensures { IfOk result (λ head. head.items ≡ request_head access.now question.entry count) }
{
    let is_done = question.is_done();
    let target = target_of(alloc, question)?;
    let mut head = Vec::new(alloc);
    head.extend_from_slice(method_part(is_done).as_bytes())?;
    head.extend_from_slice(target.as_str().as_bytes())?;
    push_line(&mut head, b" HTTP/1.1", b"")?;
    push_line(&mut head, b"Host: 127.0.0.1", access.port_part().as_bytes())?;
    push_token(&mut head, access.token_text())?;
    push_length(alloc, &mut head, is_done, count)?;
    push_line(&mut head, b"Connection: close", b"")?;
    head.extend_from_slice(b"\r\n")?;
    Ok(head)
}

/// The request that asks so, of a service of this port and token, with the body behind it.
pub fn request_bytes(
    alloc: Global,
    access: &Access,
    question: Question<'_>,
    body: &[u8],
) -> Result<Vec<u8>, AllocError>
    ensures { IfOk result (λ bytes. bytes.items
        ≡ request_bytes access.now question.entry body.now) }
{
    let mut bytes = request_head(alloc, access, question, body.len())?;
    bytes.extend_from_slice(body)?;
    Ok(bytes)
}
