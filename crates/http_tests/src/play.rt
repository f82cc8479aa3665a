//! One connection, from the bytes that it is sent to those that answer it.
use crate::counting::Counting;
use crate::devices::{Sink, Source};
use desk_http::{Access, Page, Served, Site, Token, serve_one};
use std::alloc::{AllocError, Global};

/// A response as the rules have it: `allow` is the lines of further fields, each with its CR LF, or nothing.
pub fn response(
    alloc: Global,
    (status, name): (u16, &str),
    media: &str,
    allow: &str,
    body: &str,
) -> Result<String, AllocError> {
    let length = body.len();
    format!(in alloc;
        "HTTP/1.1 {status} {name}\r\nContent-Type: {media}\r\nContent-Length: {length}\r\n{allow}Connection: close\r\n\r\n{body}"
    )
}

/// The response of an error that the service doesn't tell.
pub fn error(
    alloc: Global,
    (status, name): (u16, &str),
    allow: &str,
) -> Result<String, AllocError> {
    let body = format!(in alloc; "{{\"http\":{status}}}\n")?;
    response(
        alloc,
        (status, name),
        "application/json",
        allow,
        body.as_str(),
    )
}

/// A service at port 8080 that asks for no token, and has no page.
pub fn open(alloc: Global) -> Result<Site, AllocError> {
    open_at(alloc, 8080)
}

/// The same at another port.
pub fn open_at(alloc: Global, port: u16) -> Result<Site, AllocError> {
    Ok(Site {
        access: Access::new(alloc, port, None)?,
        page: None,
    })
}

/// A service at port 8080 that asks for this token, if it may be one, and has this page, if any.
pub fn guarded(alloc: Global, token: &str, page: Option<Page>) -> Result<Site, AllocError> {
    let mut bytes = Vec::new(alloc);
    bytes.extend_from_slice(token.as_bytes())?;
    Ok(Site {
        access: Access::new(alloc, 8080, Token::new(bytes))?,
        page,
    })
}

/// A page.
pub const PAGE: Page = Page {
    text: "<!DOCTYPE html>\n<title>\u{e9}</title>\n",
    policy: "default-src 'none'; connect-src 'self'",
};

/// A service at port 8080 that asks for no token, and has that page.
pub fn with_page(alloc: Global) -> Result<Site, AllocError> {
    Ok(Site {
        access: Access::new(alloc, 8080, None)?,
        page: Some(PAGE),
    })
}

/// The status that answers a request, 0 where none does, and how much is counted.
pub fn status_of(alloc: Global, site: &Site, request: &str) -> (u16, u64) {
    let mut source = Source::new(request.as_bytes(), 4096);
    let mut sink = Sink::new(alloc, 4096);
    let mut service = Counting::new(0);
    match serve_one(alloc, &mut source, &mut sink, &mut service, site) {
        Served::Answered(status) => (status, service.total),
        _ => (0, service.total),
    }
}

/// The status that answers a request, 0 where none does, and what is written.
pub fn answer_of(alloc: Global, site: &Site, request: &str) -> (u16, Vec<u8>) {
    let mut source = Source::new(request.as_bytes(), 4096);
    let mut sink = Sink::new(alloc, 4096);
    let mut service = Counting::new(0);
    match serve_one(alloc, &mut source, &mut sink, &mut service, site) {
        Served::Answered(status) => (status, sink.bytes),
        _ => (0, sink.bytes),
    }
}

/// Whether a service of this site, where so many bytes were counted, answers the request with this status and so, and
/// counts no more.
pub fn is_read(
    alloc: Global,
    site: &Site,
    total: u64,
    request: &str,
    (status, wanted): (u16, &[u8]),
) -> bool {
    let mut source = Source::new(request.as_bytes(), 4096);
    let mut sink = Sink::new(alloc, 65_536);
    let mut service = Counting::new(total);
    let served = serve_one(alloc, &mut source, &mut sink, &mut service, site);
    served == Served::Answered(status) && sink.bytes.as_slice() == wanted && service.total == total
}

/// Whether the request is answered so, with this status, where its bytes come `step` at a time and as many are taken,
/// and so many bytes are counted.
pub fn is_answered_by(
    alloc: Global,
    step: usize,
    request: &[u8],
    (status, wanted): (u16, &[u8]),
    counted: u64,
) -> Result<bool, AllocError> {
    let mut source = Source::new(request, step);
    let mut sink = Sink::new(alloc, step);
    let mut service = Counting::new(0);
    let served = serve_one(alloc, &mut source, &mut sink, &mut service, &open(alloc)?);
    Ok(
        served == Served::Answered(status)
            && sink.bytes.as_slice() == wanted
            && service.total == counted,
    )
}

/// The same, however its bytes come.
pub fn is_answered(
    alloc: Global,
    request: &[u8],
    wanted: (u16, &[u8]),
    counted: u64,
) -> Result<bool, AllocError> {
    Ok(
        is_answered_by(alloc, 4096, request, wanted, counted)?
            && is_answered_by(alloc, 1, request, wanted, counted)?,
    )
}

/// Whether the request is answered so and nothing is counted, where the service isn't to see it.
pub fn is_rejected(
    alloc: Global,
    request: &str,
    (status, name): (u16, &str),
    allow: &str,
) -> Result<bool, AllocError> {
    let wanted = error(alloc, (status, name), allow)?;
    let wanted = (status, wanted.as_str().as_bytes());
    is_answered(alloc, request.as_bytes(), wanted, 0)
}
