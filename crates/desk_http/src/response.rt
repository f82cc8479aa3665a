//! Responses, byte by byte.
ghost use Rattle.std.specs.Prelude.{◌≡◌, ◌++◌, decimal, length, IfOk, OnOk, string_bytes};
ghost use Rattle.desk_http.specs.Responses.{AreNamed, guards, head_bytes, line, page_fields, status_words};
ghost use Rattle.desk_http.specs.Responses.{error_body, open_head, sql, tag_line, tag_of, unchanged_response};
ghost use Rattle.desk_http.specs.Responses.{rejection_status, further_of, outcome_status, media_of, failure_status};
ghost use Rattle.desk_http.specs.Services.{tag_text};
ghost use Rattle.desk_http.specs.Sites.{page_view, some_page};

use crate::rejection::Rejection;
use crate::service::{Failure, Outcome, Tag};
use crate::site::Page;
use http::StatusCode;
use std::alloc::{AllocError, Global};

#[tactic(auto, unfolding(crate::specs::Responses::line), using(crate::proofs::Known::grouped))]
fn push_line(text: &mut String, name: &str, value: &str) -> Result<(), AllocError>
    ensures { OnOk result (string_bytes text.new
        ≡ string_bytes text.old ++ line name.now value.now) }
{
    text.push_str(name)?;
    text.push_str(value)?;
    text.push_str("\r\n")
}

#[tactic(auto, unfolding(crate::specs::Responses::status_words))]
fn status_text(alloc: Global, status: StatusCode) -> Result<String, AllocError>
    ensures { IfOk result (λ text. string_bytes text ≡ status_words status) }
{
    format!(in alloc; "{status}")
}

fn length_text(alloc: Global, length: usize) -> Result<String, AllocError>
    ensures { IfOk result (λ text. string_bytes text ≡ decimal length) }
{
    format!(in alloc; "{length}")
}

/// The lines of the fields that each response of a service with a page has besides.
fn push_guards(text: &mut String, page: &Option<Page>) -> Result<(), AllocError>
    ensures { OnOk result (string_bytes text.new
        ≡ string_bytes text.old ++ guards (some_page page.now)) }
{
    if page.is_none() {
        return Ok(());
    }
    push_line(text, "X-Content-Type-Options: ", "nosniff")?;
    push_line(text, "Cache-Control: ", "no-store")?;
    push_line(text, "Cross-Origin-Resource-Policy: ", "same-origin")?;
    Ok(())
}

/// The head of a response with a body of that length, and with the lines of fields more, or nothing in their place.
pub fn head_text(
    alloc: Global,
    page: &Option<Page>,
    status: StatusCode,
    media: &str,
    length: usize,
    further: &str,
) -> Result<String, AllocError>
    ensures { IfOk result (λ text. string_bytes text
        ≡ head_bytes (some_page page.now) status media.now length further.now) }
{
    let status_words = status_text(alloc, status)?;
    let length = length_text(alloc, length)?;
    let mut text = String::new(alloc);
    push_line(&mut text, "HTTP/1.1 ", status_words.as_str())?;
    push_line(&mut text, "Content-Type: ", media)?;
    push_line(&mut text, "Content-Length: ", length.as_str())?;
    text.push_str(further)?;
    push_guards(&mut text, page)?;
    push_line(&mut text, "Connection: close", "")?;
    text.push_str("\r\n")?;
    Ok(text)
}

/// The head of a dump, whose body ends with the connection.
pub fn dump_head(alloc: Global, page: &Option<Page>) -> Result<String, AllocError>
    ensures { IfOk result (λ text. string_bytes text ≡ open_head (some_page page.now) 200 sql) }
{
    let status_words = status_text(alloc, StatusCode::OK)?;
    let mut text = String::new(alloc);
    push_line(&mut text, "HTTP/1.1 ", status_words.as_str())?;
    push_line(&mut text, "Content-Type: ", "application/sql")?;
    push_guards(&mut text, page)?;
    push_line(&mut text, "Connection: close", "")?;
    text.push_str("\r\n")?;
    Ok(text)
}

/// The text of a tag, its quotes too.
pub fn tag_text(alloc: Global, tag: Tag) -> Result<String, AllocError>
    ensures { IfOk result (λ text. string_bytes text ≡ tag_text tag) }
{
    let (began, accepted) = (tag.began, tag.accepted);
    format!(in alloc; "\"{began}-{accepted}\"")
}

fn tag_line(alloc: Global, tag: Tag) -> Result<String, AllocError>
    ensures { IfOk result (λ text. string_bytes text ≡ tag_line tag) }
{
    let tag = tag_text(alloc, tag)?;
    let mut text = String::new(alloc);
    push_line(&mut text, "ETag: ", tag.as_str())?;
    Ok(text)
}

/// The line of the tag of what is shown, or nothing where it has none.
pub fn tag_of(alloc: Global, outcome: Outcome) -> Result<String, AllocError>
    ensures { IfOk result (λ text. string_bytes text ≡ tag_of outcome) }
{
    match outcome {
        Outcome::Shown(Some(tag)) => tag_line(alloc, tag),
        _ => Ok(String::new(alloc)),
    }
}

/// The response that nothing has changed, which has no body.
pub fn unchanged_text(alloc: Global, page: &Option<Page>, tag: Tag) -> Result<String, AllocError>
    ensures { IfOk result (λ text. string_bytes text
        ≡ (unchanged_response (some_page page.now) tag).bytes) }
{
    let status_words = status_text(alloc, StatusCode::NOT_MODIFIED)?;
    let tag = tag_line(alloc, tag)?;
    let mut text = String::new(alloc);
    push_line(&mut text, "HTTP/1.1 ", status_words.as_str())?;
    text.push_str(tag.as_str())?;
    push_guards(&mut text, page)?;
    push_line(&mut text, "Connection: close", "")?;
    text.push_str("\r\n")?;
    Ok(text)
}

/// The lines of what a page tells its browser.
pub fn page_lines(alloc: Global, page: &Page) -> Result<String, AllocError>
    ensures { IfOk result (λ text. string_bytes text ≡ page_fields (page_view page.now)) }
{
    let mut text = String::new(alloc);
    push_line(&mut text, "Referrer-Policy: ", "same-origin")?;
    push_line(&mut text, "Cross-Origin-Opener-Policy: ", "same-origin")?;
    push_line(&mut text, "Clear-Site-Data: ", "\"cache\"")?;
    push_line(&mut text, "Content-Security-Policy: ", page.policy)?;
    Ok(text)
}

/// The body of an error: it has the status alone.
pub fn error_body(alloc: Global, status: u16) -> Result<String, AllocError>
    ensures { IfOk result (λ text. string_bytes text ≡ error_body status) }
{
    format!(in alloc; "{{\"http\":{status}}}\n")
}

pub fn rejection_status(rejection: Rejection) -> StatusCode
    ensures { result ≡ rejection_status rejection }
{
    match rejection {
        Rejection::HeadTooLarge => StatusCode::REQUEST_HEADER_FIELDS_TOO_LARGE,
        Rejection::BadRequest => StatusCode::BAD_REQUEST,
        Rejection::NotFound => StatusCode::NOT_FOUND,
        Rejection::OnlyPost => StatusCode::METHOD_NOT_ALLOWED,
        Rejection::OnlyGet => StatusCode::METHOD_NOT_ALLOWED,
        Rejection::Misdirected => StatusCode::MISDIRECTED_REQUEST,
        Rejection::Forbidden => StatusCode::FORBIDDEN,
        Rejection::Unauthorized => StatusCode::UNAUTHORIZED,
        Rejection::LengthRequired => StatusCode::LENGTH_REQUIRED,
        Rejection::BodyTooLarge => StatusCode::PAYLOAD_TOO_LARGE,
    }
}

/// The line of what else a rejection tells: which method is allowed, or how a client shows who it is.
pub fn further_line(rejection: Rejection) -> &'static str
    ensures { result.now ≡ further_of rejection }
{
    match rejection {
        Rejection::OnlyPost => "Allow: POST\r\n",
        Rejection::OnlyGet => "Allow: GET\r\n",
        Rejection::Unauthorized => "WWW-Authenticate: Bearer\r\n",
        _ => "",
    }
}

pub fn outcome_status(outcome: Outcome) -> StatusCode
    ensures { result ≡ outcome_status outcome }
{
    match outcome {
        Outcome::Answered => StatusCode::OK,
        Outcome::Refused => StatusCode::CONFLICT,
        Outcome::Faulty => StatusCode::BAD_REQUEST,
        Outcome::Reported => StatusCode::OK,
        Outcome::Exported => StatusCode::OK,
        Outcome::Shown(_) => StatusCode::OK,
        Outcome::Unchanged(_) => StatusCode::NOT_MODIFIED,
        Outcome::Unknown => StatusCode::NOT_FOUND,
        Outcome::FaultyLines => StatusCode::BAD_REQUEST,
        Outcome::AnsweredLines => StatusCode::OK,
        Outcome::Dumped => StatusCode::OK,
    }
}

pub fn media_type(outcome: Outcome) -> &'static str
    ensures { result.now ≡ media_of outcome }
{
    match outcome {
        Outcome::Reported | Outcome::FaultyLines => "text/plain; charset=utf-8",
        Outcome::Exported => "text/csv; charset=utf-8",
        Outcome::AnsweredLines => "application/x-ndjson",
        Outcome::Dumped => "application/sql",
        _ => "application/json",
    }
}

pub fn failure_status(failure: Failure) -> StatusCode
    ensures { result ≡ failure_status failure }
{
    match failure {
        Failure::Store => StatusCode::INTERNAL_SERVER_ERROR,
        Failure::Memory => StatusCode::SERVICE_UNAVAILABLE,
    }
}

/// The names of the statuses that are answered.
pub fn statuses_are_named()
    ensures { AreNamed }
{}
