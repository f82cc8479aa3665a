//! A request is done by the service and answered, or rejected.
ghost use Rattle.std.specs.Prelude.{◌≡◌, false, IfOk, MatchResult, option_map, string_bytes};
ghost use Rattle.std.specs.Str.{bytes_eq};
ghost use Rattle.desk_http.specs.Responses.{dump_response, error_response, failure_response};
ghost use Rattle.desk_http.specs.Responses.{page_response, proof_response};
ghost use Rattle.desk_http.specs.Proofs.{proof_of};
ghost use Rattle.desk_http.specs.Responses.{rejection_response, reply_response, told_response};
ghost use Rattle.desk_http.specs.Responses.{unchanged_response};
ghost use Rattle.desk_http.specs.Services.{Performs, ShowBooks, ShowDump, ShowList, heard, operation};
ghost use Rattle.desk_http.specs.Services.{reply_view, tag_text};
ghost use Rattle.desk_http.specs.Serving.{PerformsAndSends, Sends};
ghost use Rattle.desk_http.specs.Sites.{page_view, some_page};
ghost use Rattle.desk_http.specs.Targets.{is_dump, meant, resource, some_text, IsProper};

use crate::access::Access;
use crate::query::ListWords;
use crate::rejection::Rejection;
use crate::response::{
    dump_head, error_body, failure_status, further_line, head_text, media_type, outcome_status,
    page_lines, rejection_status, tag_of, tag_text, unchanged_text,
};
use crate::send::{send_dump, send_response};
use crate::served::Stop;
use crate::service::{Failure, NoReply, Outcome, Reply, Service, Tag};
use crate::site::{Page, Site};
use crate::target::Target;
use http::StatusCode;
use percent_encoding::percent_decode;
use std::alloc::{AllocError, Global};
use std::io::Write;

/// Answers an error, of which its status is told alone.
fn tell_error<W: Write>(
    alloc: Global,
    writer: &mut W,
    page: &Option<Page>,
    status: StatusCode,
    further: &str,
) -> Result<u16, Stop>
    ensures { Sends (error_response (some_page page.now) status further.now)
        (W.contents writer.old) (W.contents writer.new) result }
{
    let body = error_body(alloc, status.as_u16())?;
    let body = body.as_str().as_bytes();
    let head = head_text(alloc, page, status, "application/json", body.len(), further)?;
    send_response(writer, status, head.as_str(), body)
}

/// Answers a request that isn't handed on.
pub fn reject<W: Write>(
    alloc: Global,
    writer: &mut W,
    page: &Option<Page>,
    rejection: Rejection,
) -> Result<u16, Stop>
    ensures { Sends (rejection_response (some_page page.now) rejection)
        (W.contents writer.old) (W.contents writer.new) result }
{
    let status = rejection_status(rejection);
    tell_error(alloc, writer, page, status, further_line(rejection))
}

/// Answers that the service failed.
fn tell_failure<W: Write>(
    alloc: Global,
    writer: &mut W,
    page: &Option<Page>,
    failure: Failure,
) -> Result<u16, Stop>
    ensures { Sends (failure_response (some_page page.now) failure)
        (W.contents writer.old) (W.contents writer.new) result }
{
    tell_error(alloc, writer, page, failure_status(failure), "")
}

/// Shows the page.
pub fn show_page<W: Write>(alloc: Global, writer: &mut W, page: Page) -> Result<u16, Stop>
    ensures { Sends (page_response (page_view page))
        (W.contents writer.old) (W.contents writer.new) result }
{
    let body = page.text.as_bytes();
    let lines = page_lines(alloc, &page)?;
    let head = head_text(
        alloc,
        &Some(page),
        StatusCode::OK,
        "text/html; charset=utf-8",
        body.len(),
        lines.as_str(),
    )?;
    send_response(writer, StatusCode::OK, head.as_str(), body)
}

/// Proves to whoever said this that the token is known.
pub fn prove<W: Write>(
    alloc: Global,
    writer: &mut W,
    access: &Access,
    page: &Option<Page>,
    nonce: &[u8],
) -> Result<u16, Stop>
    ensures { Sends (proof_response (some_page page.now) (proof_of access.now nonce.now))
        (W.contents writer.old) (W.contents writer.new) result }
{
    let proof = access.proof_of(alloc, nonce)?;
    let body = proof.as_str().as_bytes();
    let media = "text/plain; charset=utf-8";
    let head = head_text(alloc, page, StatusCode::OK, media, body.len(), "")?;
    send_response(writer, StatusCode::OK, head.as_str(), body)
}

/// Answers that nothing has changed.
fn tell_unchanged<W: Write>(
    alloc: Global,
    writer: &mut W,
    page: &Option<Page>,
    tag: Tag,
) -> Result<u16, Stop>
    ensures { Sends (unchanged_response (some_page page.now) tag)
        (W.contents writer.old) (W.contents writer.new) result }
{
    let head = unchanged_text(alloc, page, tag)?;
    send_response(writer, StatusCode::NOT_MODIFIED, head.as_str(), b"")
}

/// Writes a reply whole.
fn tell_body<W: Write>(
    alloc: Global,
    writer: &mut W,
    page: &Option<Page>,
    outcome: Outcome,
    body: &[u8],
) -> Result<u16, Stop>
    ensures { Sends (told_response (some_page page.now) outcome body.now)
        (W.contents writer.old) (W.contents writer.new) result }
{
    let status = outcome_status(outcome);
    let tag = tag_of(alloc, outcome)?;
    let media = media_type(outcome);
    let head = head_text(alloc, page, status, media, body.len(), tag.as_str())?;
    send_response(writer, status, head.as_str(), body)
}

/// Writes a dump that was replied whole.
fn tell_whole_dump<W: Write>(
    alloc: Global,
    writer: &mut W,
    page: &Option<Page>,
    body: &[u8],
) -> Result<u16, Stop>
    ensures { Sends (dump_response (some_page page.now) body.now)
        (W.contents writer.old) (W.contents writer.new) result }
{
    let head = dump_head(alloc, page)?;
    send_response(writer, StatusCode::OK, head.as_str(), body)
}

/// Writes what the service replied.
fn tell<W: Write>(
    alloc: Global,
    writer: &mut W,
    page: &Option<Page>,
    reply: &Reply,
) -> Result<u16, Stop>
    ensures { Sends (reply_response (some_page page.now) (reply_view reply.now))
        (W.contents writer.old) (W.contents writer.new) result }
{
    match reply.outcome {
        Outcome::Unchanged(tag) => tell_unchanged(alloc, writer, page, tag),
        Outcome::Unknown => reject(alloc, writer, page, Rejection::NotFound),
        Outcome::Dumped => tell_whole_dump(alloc, writer, page, &reply.body),
        outcome => tell_body(alloc, writer, page, outcome, &reply.body),
    }
}

/// Whether the text is the one of the tag.
fn is_text_of(alloc: Global, tag: Tag, text: &[u8]) -> Result<bool, AllocError>
    ensures { IfOk result (λ is. is ≡ bytes_eq text.now (tag_text tag)) }
{
    let tag = tag_text(alloc, tag)?;
    Ok(text == tag.as_str().as_bytes())
}

/// Has the service show its books, unless what is known of them is their tag.
fn show_books<S: Service>(
    alloc: Global,
    service: &S,
    known: Option<&[u8]>,
) -> Result<Result<Reply, NoReply>, AllocError>
    requires { S.is_kept service.now }
    ensures { IfOk result (λ outcome. Performs S.state S.machine S.left S.relates service.now
        (ShowBooks (some_text known.entry)) (heard outcome) service.now) }
{
    let Some(known) = known else {
        return Ok(service.books(alloc));
    };
    match service.tag() {
        Err(why) => Ok(Err(why)),
        Ok(None) => Ok(service.books(alloc)),
        Ok(Some(tag)) => {
            if is_text_of(alloc, tag, known)? {
                Ok(Ok(Reply {
                    outcome: Outcome::Unchanged(tag),
                    body: Vec::new(alloc),
                }))
            } else {
                Ok(service.books(alloc))
            }
        }
    }
}

/// The text that a word of a target stands for.
fn meant(alloc: Global, word: &[u8]) -> Result<String, AllocError>
    ensures { IfOk result (λ text. string_bytes text ≡ meant word.now) }
{
    let mut bytes = Vec::new(alloc);
    percent_decode(word).append_to(&mut bytes)?;
    String::from_utf8_lossy(alloc, &bytes)
}

/// Has the service show a list, of what a word says if there is one.
fn show_list<S: Service>(
    alloc: Global,
    service: &S,
    list: &str,
    word: Option<&[u8]>,
    said: ListWords,
) -> Result<Result<Reply, NoReply>, AllocError>
    requires { S.is_kept service.now }
    ensures { IfOk result (λ outcome. Performs S.state S.machine S.left S.relates service.now
        (ShowList list.now (option_map (λ w. meant w.now) word.entry) said)
        (heard outcome) service.now) }
{
    let Some(word) = word else {
        return Ok(service.show(alloc, list, None, said));
    };
    let word = meant(alloc, word)?;
    Ok(service.show(alloc, list, Some(word.as_str()), said))
}

/// Whether all tables are asked for.
fn is_dump(target: &Target<'_>) -> bool
    ensures { result ≡ is_dump (resource target.now) }
{
    match target {
        Target::Dump => true,
        _ => false,
    }
}

/// Has the service do what the target names, with the body. An error is that there was no memory to ask it.
fn perform<S: Service>(
    alloc: Global,
    service: &mut S,
    target: &Target<'_>,
    known: Option<&[u8]>,
    body: &[u8],
) -> Result<Result<Reply, NoReply>, AllocError>
    requires kept { S.is_kept service.old }
    requires proper { IsProper target.now }
    requires replied { is_dump (resource target.now) ≡ false }
    ensures kept { S.is_kept service.new }
    ensures performs { MatchResult result
        (λ outcome. Performs S.state S.machine S.left S.relates service.old
        (operation (resource target.now) (some_text known.entry) body.now) (heard outcome)
        service.new)
        (λ _. service.new ≡ service.old) }
{
    match target {
        Target::Run => Ok(service.run(alloc, body)),
        Target::Import(loose, kind, document, day) => {
            Ok(service.import(alloc, *loose, *kind, document, *day, body))
        }
        Target::Report(name, number) => Ok(service.report(alloc, *name, *number)),
        Target::Export(table) => Ok(service.export(alloc, table)),
        Target::Books => show_books(alloc, service, known),
        Target::HistoryFrom(from) => Ok(service.history(alloc, *from)),
        Target::Sheet(command, document, day) => {
            Ok(service.import_sheet(alloc, command, document, *day, body))
        }
        Target::Show(list, word, said) => show_list(alloc, service, list, *word, *said),
        Target::RunAll(said) => Ok(service.run_lines(alloc, *said, body)),
        Target::Stop => Ok(service.stop(alloc)),
        Target::Dump => unreachable!(),
    }
}

/// Answers with the dump of a service that may be dumped.
fn tell_dump<W: Write, S: Service>(
    alloc: Global,
    writer: &mut W,
    service: &S,
    page: &Option<Page>,
) -> Result<u16, Stop>
    requires { S.is_kept service.now }
    ensures { Sends (dump_response (some_page page.now)
        (S.machine.show_dump (S.state service.now)))
        (W.contents writer.old) (W.contents writer.new) result }
{
    let head = dump_head(alloc, page)?;
    send_dump(alloc, writer, service, head.as_str())
}

/// Answers with the dump of a service, or that it failed.
fn respond_with_dump<W: Write, S: Service>(
    alloc: Global,
    writer: &mut W,
    service: &S,
    site: &Site,
) -> Result<u16, Stop>
    requires { S.is_kept service.now }
    ensures { PerformsAndSends (Performs S.state S.machine S.left S.relates) site.now
        service.now ShowDump service.now (W.contents writer.old) (W.contents writer.new) result }
{
    match service.may_dump() {
        Ok(()) => tell_dump(alloc, writer, service, &site.page),
        Err(NoReply::Failed(failure)) => tell_failure(alloc, writer, &site.page, failure),
        Err(NoReply::Untold) => Err(Stop::Memory),
    }
}

/// Has the service do what the target names, of which it replies, and answers it.
fn respond_with_reply<W: Write, S: Service>(
    alloc: Global,
    writer: &mut W,
    service: &mut S,
    site: &Site,
    target: &Target<'_>,
    known: Option<&[u8]>,
    body: &[u8],
) -> Result<u16, Stop>
    requires kept { S.is_kept service.old }
    requires proper { IsProper target.now }
    requires replied { is_dump (resource target.now) ≡ false }
    ensures kept { S.is_kept service.new }
    ensures sends { PerformsAndSends (Performs S.state S.machine S.left S.relates) site.now
        service.old (operation (resource target.now) (some_text known.entry) body.now)
        service.new (W.contents writer.old) (W.contents writer.new) result }
{
    let outcome = perform(alloc, service, target, known, body)?;
    let why = match outcome {
        Ok(reply) => return tell(alloc, writer, &site.page, &reply),
        Err(why) => why,
    };
    match why {
        NoReply::Failed(failure) => tell_failure(alloc, writer, &site.page, failure),
        NoReply::Untold => Err(Stop::Memory),
    }
}

/// Has the service do what the target names, and answers it.
pub fn respond<W: Write, S: Service>(
    alloc: Global,
    writer: &mut W,
    service: &mut S,
    site: &Site,
    target: &Target<'_>,
    known: Option<&[u8]>,
    body: &[u8],
) -> Result<u16, Stop>
    requires kept { S.is_kept service.old }
    requires proper { IsProper target.now }
    ensures kept { S.is_kept service.new }
    ensures sends { PerformsAndSends (Performs S.state S.machine S.left S.relates) site.now
        service.old (operation (resource target.now) (some_text known.entry) body.now)
        service.new (W.contents writer.old) (W.contents writer.new) result }
{
    if is_dump(target) {
        respond_with_dump(alloc, writer, service, site)
    } else {
        respond_with_reply(alloc, writer, service, site, target, known, body)
    }
}
