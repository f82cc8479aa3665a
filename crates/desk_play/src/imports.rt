//! A file of comma-separated values that is imported to books.
use desk_app::{Books, ImportOf, import_file};
use desk_core::RunEnd;
use desk_wire::{FileReading, ImportKind};
use std::alloc::Global;
use std::io::Write;
use std::test::Fail;
use store_play::delivery::{day, document};

/// How the import of a file ends, and what it writes.
pub fn imports<B: Books, W: Write>(
    alloc: Global,
    books: &mut B,
    kind: ImportKind,
    on: &str,
    file: &str,
    writer: &mut W,
) -> Result<RunEnd, Fail>
    requires { B.are_kept books.old }
    ensures { B.are_kept books.new }
{
    let document = document(alloc)?;
    let asked = ImportOf {
        kind,
        document: &document,
        day: day(on)?,
        reading: FileReading::Strict,
        names: false,
    };
    Ok(import_file(alloc, file.as_bytes(), &asked, writer, books))
}
