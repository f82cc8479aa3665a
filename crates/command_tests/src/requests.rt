//! Requests that stand in lines without a day.
use desk_core::{Request, Shop};
use desk_wire::read_request;
use std::alloc::Global;
use std::test::Fail;

/// The request that stands in a line, which has no day, behind what comes of it.
pub fn request_of(alloc: Global, line: &str) -> Result<Request, Fail> {
    let (_, rest) = line.split_once('{').ok_or("a line has no request")?;
    let line = format!(in alloc; "{{\"day\":\"2030-01-02\",{rest}")?;
    match read_request::<Shop>(alloc, None, line.as_str().as_bytes(), 1) {
        Ok(request) => Ok(request),
        Err(_) => Err(Fail::from("a line is no request")),
    }
}
