//! A request of HTTP that is sent to books.
use desk_app::{Books, BooksService};
use desk_http::{Access, Served, Site, serve_one};
use std::alloc::Global;
use std::io::{Read, Write};

/// The port that requests are sent to.
const PORT: u16 = 8080;

/// Serves one request of the reader, which needn't show a token; there is no page.
pub fn ask<R: Read, W: Write, B: Books>(
    alloc: Global,
    reader: &mut R,
    writer: &mut W,
    service: &mut BooksService<B>,
) -> Served
    requires { B.are_kept service.old.books }
    ensures { B.are_kept service.new.books }
{
    match Access::new(alloc, PORT, None) {
        Ok(access) => {
            let site = Site { access, page: None };
            serve_one(alloc, reader, writer, service, &site)
        }
        Err(_) => Served::Memory,
    }
}
