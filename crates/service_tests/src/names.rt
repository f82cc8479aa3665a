//! Rows that are said by what they are called, in lines, in a file and by HTTP, where that is allowed and where it isn't.
use crate::requests::asks_all;
use desk_app::{BooksService, ImportOf, LineOptions, RunOptions, import_file, run_lines};
use desk_core::{RunEnd, Shop};
use desk_play::play::plays_on;
use desk_wire::{FileReading, ImportKind};
use part_core::{Limits, Seed};
use sqlite::Connection;
use std::alloc::Global;
use std::test::Fail;
use store_play::delivery::{DELIVERY_OUT, ORDERED, ORDERED_OUT, day, document};
use store_play::devices::{Sink, Source};
use store_play::files::created;
use store_play::outcomes::holds;

/// A purchase and its delivery, and a location that isn't there.
const LINES: &str = r#"{"day":"2030-01-02","do":"add_location","name":"A"}
{"day":"2030-01-02","do":"add_part","flags":["component","purchaseable"],"name":"Screw"}
{"day":"2030-01-02","do":"order","key":"PO-1","partner":"Acme","side":"purchase"}
{"day":"2030-01-02","do":"order_line","key":"PO-1/1","order":{"key":"PO-1"},"part":"Screw","quantity":500}
{"day":"2030-01-02","do":"issue_order","order":{"key":"PO-1"}}
{"day":"2030-01-03","do":"receive","key":"D1","line":{"key":"PO-1/1"},"location":"A","quantity":20}
{"day":"2030-01-03","do":"found","location":"B","part":"Screw","quantity":1}
{"of":"Screw","report":"stock"}
"#;

/// What is told where lines may have names in them.
const NAMED: &str = r#"{"entries":0,"ids":[1]}
{"entries":0,"ids":[2]}
{"entries":0,"ids":[3]}
{"entries":0,"ids":[4]}
{"entries":0,"ids":[]}
{"entries":1,"ids":[5]}
{"fault":"NoName","field":"location","line":7}
{"report":[["5","20","OK","at 1","",""]]}
"#;

/// What is told where they may not.
const NUMBERED: &str = r#"{"entries":0,"ids":[1]}
{"entries":0,"ids":[2]}
{"entries":0,"ids":[3]}
{"fault":"WrongType","line":4}
{"fault":"WrongType","line":5}
{"fault":"WrongType","line":6}
{"fault":"WrongType","line":7}
{"fault":"WrongType","line":8}
"#;

/// Runs the lines on a desk with nothing in it, some bytes at a time.
fn runs(alloc: Global, options: RunOptions, step: usize, answers: &str) -> Result<(), Fail> {
    let mut desk = created(alloc, Connection::open_in_memory(alloc)?)?;
    let mut source = Source::new(LINES.as_bytes(), step);
    let mut sink = Sink::new(alloc, step);
    let end = run_lines(alloc, &mut source, &mut sink, &mut desk, options);
    holds(end == RunEnd::Done(false), "another end")?;
    holds(
        sink.bytes.as_slice() == answers.as_bytes(),
        "another answer",
    )
}

#[test]
fn lines_with_names(rt: HostRuntime) -> Result<(), Fail> {
    let alloc = rt.alloc();
    for step in [4096, 1] {
        runs(alloc, RunOptions::NAMED, step, NAMED)?;
        runs(alloc, RunOptions::PLAIN, step, NUMBERED)?;
    }
    Ok(())
}

/// A delivery whose locations are named, and one to a location that isn't there.
const FILE: &str =
    "number,line,location,quantity,batch,serials\n1,5,A,100,L1,\n2,5,A,50,,\n3,6,A,2,,\"M1,M2\"\n";

const ELSEWHERE: &str = "number,line,location,quantity,batch,serials\n1,5,B,100,L1,\n";

/// Imports the file where a purchase was issued, and fails where it ends or is answered otherwise.
fn is_imported(
    alloc: Global,
    names: bool,
    file: &str,
    end: RunEnd,
    told: &str,
) -> Result<(), Fail> {
    let mut shop = Shop::new(alloc, Seed::new(0), Limits::LARGEST);
    plays_on(alloc, &mut shop, ORDERED, ORDERED_OUT)?;
    let mut sink = Sink::new(alloc, 4096);
    let document = document(alloc)?;
    let asked = ImportOf {
        kind: ImportKind::Receipts,
        document: &document,
        day: day("2030-03-01")?,
        reading: FileReading::Strict,
        names,
    };
    let ended = import_file(alloc, file.as_bytes(), &asked, &mut sink, &mut shop);
    holds(ended == end, "another end")?;
    holds(sink.bytes.as_slice() == told.as_bytes(), "another report")
}

#[test]
fn files_with_names(rt: HostRuntime) -> Result<(), Fail> {
    let alloc = rt.alloc();
    let wrong = "{\"fault\":\"WrongType\",\"line\":2}\n";
    let none = "{\"fault\":\"NoName\",\"field\":\"location\",\"line\":2}\n";
    is_imported(alloc, true, FILE, RunEnd::Done(true), DELIVERY_OUT)?;
    is_imported(alloc, false, FILE, RunEnd::Done(false), wrong)?;
    is_imported(alloc, true, ELSEWHERE, RunEnd::Done(false), none)
}

/// Requests after a purchase was issued. Each names a location: two that are there, and one that isn't.
const REQUESTS: [[&str; 2]; 3] = [
    [
        "POST /run HTTP/1.1\r\nContent-Length: 64\r\n\r\n{\"day\":\"2030-01-02\",\"do\":\"add_location\",\"name\":\"D\",\"parent\":\"A\"}",
        "HTTP/1.1 200 OK\r\nContent-Type: application/json\r\nContent-Length: 24\r\nConnection: close\r\n\r\n{\"entries\":0,\"ids\":[7]}\n",
    ],
    [
        "POST /run HTTP/1.1\r\nContent-Length: 70\r\n\r\n{\"day\":\"2030-01-02\",\"do\":\"add_location\",\"name\":\"E\",\"parent\":[\"A\",\"D\"]}",
        "HTTP/1.1 200 OK\r\nContent-Type: application/json\r\nContent-Length: 24\r\nConnection: close\r\n\r\n{\"entries\":0,\"ids\":[8]}\n",
    ],
    [
        "POST /run HTTP/1.1\r\nContent-Length: 64\r\n\r\n{\"day\":\"2030-01-02\",\"do\":\"add_location\",\"name\":\"F\",\"parent\":\"B\"}",
        "HTTP/1.1 400 Bad Request\r\nContent-Type: application/json\r\nContent-Length: 45\r\nConnection: close\r\n\r\n{\"fault\":\"NoName\",\"field\":\"parent\",\"line\":1}\n",
    ],
];

#[test]
fn requests_with_names(rt: HostRuntime) -> Result<(), Fail> {
    let alloc = rt.alloc();
    let mut books = Shop::new(alloc, Seed::new(0), Limits::LARGEST);
    plays_on(alloc, &mut books, ORDERED, ORDERED_OUT)?;
    let mut service = BooksService::new(books, LineOptions::NAMED, None);
    asks_all(alloc, &mut service, 1, REQUESTS.as_slice())
}
