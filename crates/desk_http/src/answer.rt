//! What a service answers, of the bytes that its connection gave.
ghost use Rattle.std.specs.Prelude.{◌≡◌, ◌≤◌, codes, length, drop, map, All};
ghost use Rattle.httparse.specs.Spans.{IsHeaderWithin, header_bytes};
ghost use Rattle.desk_http.specs.Answering.{are_own, body_by, body_view, body_within, own_body, says};
ghost use Rattle.desk_http.specs.Answering.{IsHeard};
ghost use Rattle.desk_http.specs.Fields.{said};
ghost use Rattle.desk_http.specs.Targets.{number_of};

use crate::field::{FieldValue, find_field};
use crate::target::read_number;
use httparse::Status;
use httparse::spans::{EMPTY_HEADER_SPAN, HeaderSpan, parse_response};
use std::alloc::{AllocError, Global};

/// What a service answered.
#[derive(Debug, Drop)]
pub struct Answer {
    pub status: u16,
    pub body: Vec<u8>,
}

/// Why no answer was heard.
#[derive(Clone, Copy, Debug, PartialEq, Eq)]
pub enum Unheard {
    /// What answers is no service with a page.
    Foreign,
    /// The connection ended before the answer did.
    Cut,
    /// The connection failed.
    Failed,
    /// A growth was refused.
    Memory,
}

impl From<AllocError> for Unheard {
    ghost use Rattle.std.specs.Prelude.{◌≡◌};
    ghost use Rattle.desk_http.specs.declared.answer.Unheard.TheVariants.{Memory};

    ghost from_gives = { λ _ why. why ≡ Memory };

    fn from(_: AllocError) -> Self {
        Unheard::Memory
    }
}

/// Whether the fields have one of this name, and it says this.
fn says(head: &[u8], spans: &[HeaderSpan], name: &[u8], value: &[u8]) -> bool
    requires { All (IsHeaderWithin (length head.now)) spans.now }
    ensures { result ≡ says name.now value.now (map (header_bytes head.now) spans.now) }
{
    match find_field(head, spans, name) {
        FieldValue::One(text) => text == value,
        FieldValue::Missing | FieldValue::Several => false,
    }
}

/// Whether the fields are those that each response of a service with a page has.
fn are_own(head: &[u8], spans: &[HeaderSpan]) -> bool
    requires { All (IsHeaderWithin (length head.now)) spans.now }
    ensures { result ≡ are_own (map (header_bytes head.now) spans.now) }
{
    says(head, spans, b"x-content-type-options", b"nosniff")
        && says(head, spans, b"cache-control", b"no-store")
        && says(head, spans, b"cross-origin-resource-policy", b"same-origin")
}

/// The front of the bytes that the text says how long it is.
fn body_within<'b>(text: &[u8], rest: &'b [u8]) -> Result<&'b [u8], Unheard>
    ensures { body_view result ≡ body_within (number_of text.now) rest.now }
{
    let Some(count) = read_number(text) else {
        return Err(Unheard::Foreign);
    };
    if (rest.len() as u64) < count {
        return Err(Unheard::Cut);
    }
    Ok(&rest[..count as usize])
}

/// The body of what stands behind a head.
fn body_of<'b>(head: &[u8], spans: &[HeaderSpan], rest: &'b [u8]) -> Result<&'b [u8], Unheard>
    requires { All (IsHeaderWithin (length head.now)) spans.now }
    ensures { body_view result ≡ body_by
        (said (codes "content-length") (map (header_bytes head.now) spans.now)) rest.now }
{
    match find_field(head, spans, b"content-length") {
        FieldValue::Missing => Ok(rest),
        FieldValue::One(text) => body_within(text, rest),
        FieldValue::Several => Err(Unheard::Foreign),
    }
}

/// The body that a service answers whose head is found so.
fn own_body<'b>(bytes: &'b [u8], spans: &[HeaderSpan], len: usize) -> Result<&'b [u8], Unheard>
    requires fields { All (IsHeaderWithin (length bytes.now)) spans.now }
    requires inside { len ≤ length bytes.now }
    ensures { body_view result ≡ own_body (map (header_bytes bytes.now) spans.now)
        (drop len bytes.now) }
{
    if !are_own(bytes, spans) {
        return Err(Unheard::Foreign);
    }
    body_of(bytes, spans, &bytes[len..])
}

/// The answer that the bytes say, which are all that a connection gave.
pub fn read_answer(alloc: Global, bytes: &[u8]) -> Result<Answer, Unheard>
    ensures { IsHeard bytes.now result }
{
    let mut spans = [EMPTY_HEADER_SPAN; 64];
    let found = match parse_response(bytes, &mut spans) {
        Ok(Status::Complete(found)) => found,
        Ok(Status::Partial) => return Err(Unheard::Cut),
        Err(_) => return Err(Unheard::Foreign),
    };
    let shown = own_body(bytes, &spans[..found.headers], found.len)?;
    let mut body = Vec::new(alloc);
    body.extend_from_slice(shown)?;
    Ok(Answer {
        status: found.code,
        body,
    })
}
