//! What a page reads of a shop: the tag of its books, the books, tables and the history.
ghost use Rattle.desk_core.specs.Machine.{IsSoundState};
ghost use Rattle.desk_core.specs.ShopView.{state_of};

use desk_app::{Books, BooksService, LineOptions};
use desk_core::Shop;
use desk_http::{NoReply, Outcome, Reply, Service, Tag};
use part_core::{Limits, Seed};
use std::alloc::Global;
use std::test::Fail;
use store_play::outcomes::holds;

/// When the service began.
const BEGAN: u64 = 1700000000000000000;

const ADD_LOCATION: &str = r#"{"day":"2030-01-02","do":"add_location","name":"Shelf \"A\", left"}"#;

const ADD_PART: &str =
    r#"{"day":"2030-01-02","do":"add_part","flags":["component","purchaseable","salable"],"name":"Bücher 日本"}"#;

const FOUND: &str =
    r#"{"day":"2030-01-02","do":"found","key":"k","location":1,"part":2,"quantity":100}"#;

const REMOVE: &str = r#"{"day":"2030-01-03","do":"remove","item":3,"quantity":30}"#;

const BOOKS: &str =
    r#""meta":[["1","2","4","2","10000000000","10000000000"]],"categories":[],"locations":[["1","Shelf \"A\", left",""]],"parts":[["2","Bücher 日本","","","52","0"]],"lines":[],"substitutes":[],"items":[["3","2","","","0","70","0","1"]],"orders":[],"order_lines":[],"builds":[],"allocations":[],"spent":[]}
"#;

const FIRST: &str = r#"["1","2030-01-02","1","3","2","100","0","1"]"#;

const SECOND: &str = r#"["2","2030-01-03","6","3","2","30","5","0"]"#;

/// A service of these books, which are in order.
pub fn serving<B: Books>(books: B, options: LineOptions, began: Option<u64>) -> BooksService<B>
    requires { B.are_kept books }
    ensures { B.are_kept result.books }
{
    BooksService::new(books, options, began)
}

/// A service of a shop with nothing in it, that has accepted so many requests.
pub fn service(alloc: Global, accepted: u64) -> BooksService<Shop>
    ensures { IsSoundState (state_of result.books) }
{
    BooksService {
        books: Shop::new(alloc, Seed::new(0), Limits::LARGEST),
        options: LineOptions::PLAIN,
        tag: Some(Tag {
            began: BEGAN,
            accepted,
        }),
        stopped: false,
        ends_at_fault: false,
    }
}

/// The tag is of so many requests, or there is none.
pub fn has_tag<B: Books>(service: &BooksService<B>, accepted: Option<u64>) -> Result<(), Fail>
    requires { B.are_kept service.now.books }
{
    let Ok(tag) = service.tag() else {
        return Err(Fail::from("no tag is told"));
    };
    match tag {
        Some(tag) => holds(
            tag.began == BEGAN && accepted == Some(tag.accepted),
            "another tag",
        ),
        None => holds(accepted.is_none(), "no tag"),
    }
}

/// The body of what was replied.
fn body_of(replied: Result<Reply, NoReply>) -> Result<Vec<u8>, Fail> {
    match replied {
        Ok(reply) => Ok(reply.body),
        Err(_) => Err(Fail::from("no reply")),
    }
}

/// The line is answered.
fn answers<B: Books>(alloc: Global, service: &mut BooksService<B>, line: &str) -> Result<(), Fail>
    requires { B.are_kept service.old.books }
    ensures { B.are_kept service.new.books }
{
    match service.run(alloc, line.as_bytes()) {
        Ok(
            Reply {
                outcome: Outcome::Answered,
                ..
            },
        ) => Ok(()),
        _ => Err(Fail::from("the line is not answered")),
    }
}

/// The books are told as these, behind this number.
fn shows_books<B: Books>(alloc: Global, service: &BooksService<B>, number: &str) -> Result<(), Fail>
    requires { B.are_kept service.now.books }
{
    let body = body_of(service.books(alloc))?;
    let wanted = format!(in alloc; "{{\"accepted\":{number},{BOOKS}")?;
    holds(body.as_slice() == wanted.as_bytes(), "other books")
}

/// The history from a number on is told as these entries.
fn shows_history<B: Books>(
    alloc: Global,
    service: &BooksService<B>,
    from: u64,
    entries: &str,
) -> Result<(), Fail>
    requires { B.are_kept service.now.books }
{
    let body = body_of(service.history(alloc, from))?;
    let wanted = format!(in alloc; "{{\"history\":[{entries}]}}\n")?;
    holds(body.as_slice() == wanted.as_bytes(), "another history")
}

#[test]
fn a_tag_tells_what_was_accepted(rt: HostRuntime) -> Result<(), Fail> {
    let alloc = rt.alloc();
    let mut service = service(alloc, 0);
    has_tag(&service, Some(0))?;
    answers(alloc, &mut service, ADD_LOCATION)?;
    has_tag(&service, Some(1))?;
    let again = service.run(alloc, ADD_LOCATION.as_bytes());
    holds(
        matches!(
            again,
            Ok(Reply {
                outcome: Outcome::Refused,
                ..
            })
        ),
        "a name is taken twice",
    )?;
    has_tag(&service, Some(1))?;
    let fault = service.run(alloc, b"[]");
    holds(
        matches!(
            fault,
            Ok(Reply {
                outcome: Outcome::Faulty,
                ..
            })
        ),
        "a list is a request",
    )?;
    has_tag(&service, Some(1))?;
    answers(alloc, &mut service, ADD_PART)?;
    has_tag(&service, Some(2))
}

#[test]
fn a_count_that_is_full_is_no_tag(rt: HostRuntime) -> Result<(), Fail> {
    let alloc = rt.alloc();
    let mut service = service(alloc, u64::MAX);
    has_tag(&service, Some(u64::MAX))?;
    answers(alloc, &mut service, ADD_LOCATION)?;
    has_tag(&service, None)?;
    answers(alloc, &mut service, ADD_PART)?;
    has_tag(&service, None)?;
    answers(alloc, &mut service, FOUND)?;
    answers(alloc, &mut service, REMOVE)?;
    shows_books(alloc, &service, "null")
}

#[test]
fn a_page_reads_the_books(rt: HostRuntime) -> Result<(), Fail> {
    let alloc = rt.alloc();
    let mut service = service(alloc, 0);
    answers(alloc, &mut service, ADD_LOCATION)?;
    answers(alloc, &mut service, ADD_PART)?;
    answers(alloc, &mut service, FOUND)?;
    answers(alloc, &mut service, REMOVE)?;
    shows_books(alloc, &service, "4")?;
    let both = format!(in alloc; "{FIRST},{SECOND}")?;
    shows_history(alloc, &service, 0, both.as_str())?;
    shows_history(alloc, &service, 1, both.as_str())?;
    shows_history(alloc, &service, 2, SECOND)?;
    shows_history(alloc, &service, 3, "")?;
    has_tag(&service, Some(4))
}

/// The tables of a shop that has nothing but a location, but for the rest, as SQL.
const DUMPED: [&str; 5] = [
    "BEGIN;\nCREATE TABLE meta (one INTEGER PRIMARY KEY, version INTEGER NOT NULL, next INTEGER NOT NULL,",
    "\nCREATE TABLE locations (id INTEGER PRIMARY KEY, name TEXT NOT NULL, parent INTEGER) STRICT;\n",
    "INSERT INTO locations VALUES(1,'Shelf \"A\", left',NULL);\n",
    "\nCREATE TABLE spent (id INTEGER PRIMARY KEY,",
    ";\nCOMMIT;\n",
];

/// What is dumped has the rows, and tells no other tag.
#[test]
fn the_books_are_dumped(rt: HostRuntime) -> Result<(), Fail> {
    let alloc = rt.alloc();
    let mut service = service(alloc, 0);
    answers(alloc, &mut service, ADD_LOCATION)?;
    holds(service.may_dump().is_ok(), "there is no dump")?;
    let mut text = Vec::new(alloc);
    holds(service.dump(alloc, &mut text).is_ok(), "a dump is cut")?;
    let text = String::from_utf8_lossy(alloc, &text)?;
    let mut rest = text.as_str();
    for part in DUMPED {
        let Some((_, behind)) = rest.split_once(part) else {
            return Err(Fail::from("another dump"));
        };
        rest = behind;
    }
    holds(rest.is_empty(), "more is dumped")?;
    has_tag(&service, Some(1))
}

#[test]
fn a_page_reads_a_table(rt: HostRuntime) -> Result<(), Fail> {
    let alloc = rt.alloc();
    let mut service = service(alloc, 0);
    answers(alloc, &mut service, ADD_LOCATION)?;
    let body = body_of(service.export(alloc, b"locations"))?;
    let wanted = "id,name,parent\n1,\"Shelf \"\"A\"\", left\",\n";
    holds(body.as_slice() == wanted.as_bytes(), "other locations")?;
    let unknown = service.export(alloc, b"location");
    holds(
        matches!(
            unknown,
            Ok(Reply {
                outcome: Outcome::Unknown,
                ..
            })
        ),
        "a table of no name",
    )?;
    let unreadable = service.export(alloc, &[255, 254]);
    holds(
        matches!(
            unreadable,
            Ok(Reply {
                outcome: Outcome::Unknown,
                ..
            })
        ),
        "a table whose name is no text",
    )
}
