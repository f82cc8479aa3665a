//! Requests of HTTP, on a shop and on a desk.
ghost use Rattle.std.specs.Prelude.{◌≡◌, false};
ghost use Rattle.sqlite.specs.Held.{state};
ghost use Rattle.sqlite.specs.State.{HasCleanDisk};

use crate::readings::serving;
use desk_app::{Books, BooksService, LineOptions};
use desk_core::Shop;
use desk_http::Served;
use desk_play::ask::ask;
use desk_play::play::plays_on;
use part_core::{Limits, Seed};
use sqlite::{Alter, Connection};
use std::alloc::Global;
use std::test::Fail;
use store_play::delivery::{ORDERED, ORDERED_OUT};
use store_play::devices::{Sink, Source};
use store_play::files::created;
use store_play::outcomes::holds;

/// Requests that change nothing on books with nothing in them: lines without a length, too long, or with two lengths, and
/// reports of nothing that is there.
const BAD: [[&str; 2]; 6] = [
    [
        "POST /run HTTP/1.1\r\n\r\n",
        "HTTP/1.1 411 Length Required\r\nContent-Type: application/json\r\nContent-Length: 13\r\nConnection: close\r\n\r\n{\"http\":411}\n",
    ],
    [
        "POST /run HTTP/1.1\r\nContent-Length: 1048577\r\n\r\n",
        "HTTP/1.1 413 Payload Too Large\r\nContent-Type: application/json\r\nContent-Length: 13\r\nConnection: close\r\n\r\n{\"http\":413}\n",
    ],
    [
        "POST /run HTTP/1.1\r\nContent-Length: 51\r\nContent-Length: 51\r\n\r\n{\"day\":\"2030-01-02\",\"do\":\"add_location\",\"name\":\"A\"}",
        "HTTP/1.1 400 Bad Request\r\nContent-Type: application/json\r\nContent-Length: 13\r\nConnection: close\r\n\r\n{\"http\":400}\n",
    ],
    [
        "POST /run HTTP/1.1\r\nContent-Length: 51\r\nTransfer-Encoding: chunked\r\n\r\n{\"day\":\"2030-01-02\",\"do\":\"add_location\",\"name\":\"A\"}",
        "HTTP/1.1 400 Bad Request\r\nContent-Type: application/json\r\nContent-Length: 13\r\nConnection: close\r\n\r\n{\"http\":400}\n",
    ],
    [
        "GET /report/ledger/99 HTTP/1.1\r\n\r\n",
        "HTTP/1.1 409 Conflict\r\nContent-Type: application/json\r\nContent-Length: 21\r\nConnection: close\r\n\r\n{\"refused\":\"NoSuch\"}\n",
    ],
    [
        "GET /report/price/1 HTTP/1.1\r\n\r\n",
        "HTTP/1.1 404 Not Found\r\nContent-Type: application/json\r\nContent-Length: 13\r\nConnection: close\r\n\r\n{\"http\":404}\n",
    ],
];

/// A delivery.
pub const DELIVERED: [&str; 2] = [
    "POST /import/receipts/D1/2030-03-01 HTTP/1.1\r\nContent-Length: 86\r\n\r\nnumber,line,location,quantity,batch,serials\n1,5,1,100,L1,\n2,5,1,50,,\n3,6,1,2,,\"M1,M2\"\n",
    "HTTP/1.1 200 OK\r\nContent-Type: text/plain; charset=utf-8\r\nContent-Length: 81\r\nConnection: close\r\n\r\n1\t{\"entries\":1,\"ids\":[7]}\n2\t{\"entries\":1,\"ids\":[8]}\n3\t{\"entries\":2,\"ids\":[9,10]}\n",
];

/// The delivery, the same on another day, and with another quantity in its first row.
const FILES: [[&str; 2]; 3] = [
    DELIVERED,
    [
        "POST /import/receipts/D1/2030-03-02 HTTP/1.1\r\nContent-Length: 86\r\n\r\nnumber,line,location,quantity,batch,serials\n1,5,1,100,L1,\n2,5,1,50,,\n3,6,1,2,,\"M1,M2\"\n",
        "HTTP/1.1 200 OK\r\nContent-Type: text/plain; charset=utf-8\r\nContent-Length: 81\r\nConnection: close\r\n\r\n1\t{\"entries\":1,\"ids\":[7]}\n2\t{\"entries\":1,\"ids\":[8]}\n3\t{\"entries\":2,\"ids\":[9,10]}\n",
    ],
    [
        "POST /import/receipts/D1/2030-03-02 HTTP/1.1\r\nContent-Length: 86\r\n\r\nnumber,line,location,quantity,batch,serials\n1,5,1,101,L1,\n2,5,1,50,,\n3,6,1,2,,\"M1,M2\"\n",
        "HTTP/1.1 200 OK\r\nContent-Type: text/plain; charset=utf-8\r\nContent-Length: 80\r\nConnection: close\r\n\r\n1\t{\"refused\":\"KeyTaken\"}\n2\t{\"entries\":1,\"ids\":[8]}\n3\t{\"entries\":2,\"ids\":[9,10]}\n",
    ],
];

const ADD_LOCATION: &str =
    "POST /run HTTP/1.1\r\nContent-Length: 51\r\n\r\n{\"day\":\"2030-01-02\",\"do\":\"add_location\",\"name\":\"C\"}";

/// The request where the location is the first row of all.
pub const FIRST: [&str; 2] = [
    ADD_LOCATION,
    "HTTP/1.1 200 OK\r\nContent-Type: application/json\r\nContent-Length: 24\r\nConnection: close\r\n\r\n{\"entries\":0,\"ids\":[1]}\n",
];

/// A request, and the same again, which is refused; and bodies that are none.
pub const LINES: [[&str; 2]; 5] = [
    [
        ADD_LOCATION,
        "HTTP/1.1 200 OK\r\nContent-Type: application/json\r\nContent-Length: 25\r\nConnection: close\r\n\r\n{\"entries\":0,\"ids\":[11]}\n",
    ],
    [
        ADD_LOCATION,
        "HTTP/1.1 409 Conflict\r\nContent-Type: application/json\r\nContent-Length: 24\r\nConnection: close\r\n\r\n{\"refused\":\"NameTaken\"}\n",
    ],
    [
        "POST /run HTTP/1.1\r\nContent-Length: 2\r\n\r\n[]",
        "HTTP/1.1 400 Bad Request\r\nContent-Type: application/json\r\nContent-Length: 31\r\nConnection: close\r\n\r\n{\"fault\":\"NotObject\",\"line\":1}\n",
    ],
    [
        "POST /run HTTP/1.1\r\nContent-Length: 0\r\n\r\n",
        "HTTP/1.1 400 Bad Request\r\nContent-Type: application/json\r\nContent-Length: 29\r\nConnection: close\r\n\r\n{\"fault\":\"NotJson\",\"line\":1}\n",
    ],
    [
        "POST /run HTTP/1.1\r\nContent-Length: 26\r\n\r\n{\"of\":2,\"report\":\"ledger\"}",
        "HTTP/1.1 400 Bad Request\r\nContent-Type: application/json\r\nContent-Length: 29\r\nConnection: close\r\n\r\n{\"fault\":\"NoField\",\"line\":1}\n",
    ],
];

/// Reports of what is there.
const REPORTS: [[&str; 2]; 5] = [
    [
        "GET /report/ledger/002 HTTP/1.1\r\n\r\n",
        "HTTP/1.1 200 OK\r\nContent-Type: text/plain; charset=utf-8\r\nContent-Length: 112\r\nConnection: close\r\n\r\nledger\t2\tScrew\nreceived\t150\nfound\t0\nbuilt\t0\nreturned\t0\nconsumed\t0\nshipped\t0\nwritten\t0\npresent\t150\nsent\t0\nused\t0\n",
    ],
    [
        "GET /report/stock/2 HTTP/1.1\r\n\r\n",
        "HTTP/1.1 200 OK\r\nContent-Type: text/plain; charset=utf-8\r\nContent-Length: 33\r\nConnection: close\r\n\r\n7\t100\tOK\tat 1\tL1\t\n8\t50\tOK\tat 1\t\t\n",
    ],
    [
        "GET /report/content/7 HTTP/1.1\r\n\r\n",
        "HTTP/1.1 200 OK\r\nContent-Type: text/plain; charset=utf-8\r\nContent-Length: 15\r\nConnection: close\r\n\r\n1\t7\tScrew\t100\t\n",
    ],
    [
        "GET /report/where_used/2 HTTP/1.1\r\n\r\n",
        "HTTP/1.1 200 OK\r\nContent-Type: text/plain; charset=utf-8\r\nContent-Length: 0\r\nConnection: close\r\n\r\n",
    ],
    [
        "GET /report/history/7 HTTP/1.1\r\n\r\n",
        "HTTP/1.1 200 OK\r\nContent-Type: text/plain; charset=utf-8\r\nContent-Length: 31\r\nConnection: close\r\n\r\n1\t2030-03-01\treceived\t100\tat 1\n",
    ],
];

/// Reports of nothing that is there, a file that is none, what is no route, and another method.
pub const NOTHING: [[&str; 2]; 5] = [
    [
        "GET /report/stock/99 HTTP/1.1\r\n\r\n",
        "HTTP/1.1 409 Conflict\r\nContent-Type: application/json\r\nContent-Length: 21\r\nConnection: close\r\n\r\n{\"refused\":\"NoSuch\"}\n",
    ],
    [
        "GET /report/shortage/1 HTTP/1.1\r\n\r\n",
        "HTTP/1.1 409 Conflict\r\nContent-Type: application/json\r\nContent-Length: 21\r\nConnection: close\r\n\r\n{\"refused\":\"NoSuch\"}\n",
    ],
    [
        "POST /import/counts/C1/2030-03-03 HTTP/1.1\r\nContent-Length: 12\r\n\r\nnumber,item\n",
        "HTTP/1.1 400 Bad Request\r\nContent-Type: application/json\r\nContent-Length: 28\r\nConnection: close\r\n\r\n{\"fault\":\"Header\",\"line\":1}\n",
    ],
    [
        "GET /x HTTP/1.1\r\n\r\n",
        "HTTP/1.1 404 Not Found\r\nContent-Type: application/json\r\nContent-Length: 13\r\nConnection: close\r\n\r\n{\"http\":404}\n",
    ],
    [
        "GET /run HTTP/1.1\r\n\r\n",
        "HTTP/1.1 405 Method Not Allowed\r\nContent-Type: application/json\r\nContent-Length: 13\r\nAllow: POST\r\nConnection: close\r\n\r\n{\"http\":405}\n",
    ],
];

/// A request for a page of another origin, one under another name, and the same as the first from elsewhere: it alone is
/// done.
const FOREIGN: [[&str; 2]; 3] = [
    [
        "POST /run HTTP/1.1\r\nOrigin: null\r\nContent-Length: 51\r\n\r\n{\"day\":\"2030-01-02\",\"do\":\"add_location\",\"name\":\"E\"}",
        "HTTP/1.1 403 Forbidden\r\nContent-Type: application/json\r\nContent-Length: 13\r\nConnection: close\r\n\r\n{\"http\":403}\n",
    ],
    [
        "GET /report/stock/2 HTTP/1.1\r\nHost: evil.example\r\n\r\n",
        "HTTP/1.1 421 Misdirected Request\r\nContent-Type: application/json\r\nContent-Length: 13\r\nConnection: close\r\n\r\n{\"http\":421}\n",
    ],
    [
        "POST /run HTTP/1.1\r\nHost: localhost:8080\r\nContent-Length: 51\r\n\r\n{\"day\":\"2030-01-02\",\"do\":\"add_location\",\"name\":\"E\"}",
        "HTTP/1.1 200 OK\r\nContent-Type: application/json\r\nContent-Length: 25\r\nConnection: close\r\n\r\n{\"entries\":0,\"ids\":[12]}\n",
    ],
];

/// A request whose body is one byte short.
const SHORT: &str =
    "POST /run HTTP/1.1\r\nContent-Length: 51\r\n\r\n{\"day\":\"2030-01-02\",\"do\":\"add_location\",\"name\":\"D\"";

/// Sends the bytes, at most `step` at a time to a writer that takes as many, and fails where they are answered otherwise.
fn asks<B: Books>(
    alloc: Global,
    service: &mut BooksService<B>,
    step: usize,
    exchange: [&str; 2],
) -> Result<Served, Fail>
    requires { B.are_kept service.old.books }
    ensures { B.are_kept service.new.books }
{
    let [bytes, answer] = exchange;
    let mut reader = Source::new(bytes.as_bytes(), step);
    let mut sink = Sink::new(alloc, step);
    let served = ask(alloc, &mut reader, &mut sink, service);
    holds(sink.bytes.as_slice() == answer.as_bytes(), "another answer")?;
    Ok(served)
}

/// Sends each, which is answered.
pub fn asks_all<B: Books>(
    alloc: Global,
    service: &mut BooksService<B>,
    step: usize,
    exchanges: &[[&str; 2]],
) -> Result<(), Fail>
    requires { B.are_kept service.old.books }
    ensures { B.are_kept service.new.books }
{
    for exchange in exchanges {
        let served = asks(alloc, service, step, *exchange)?;
        holds(matches!(served, Served::Answered(_)), "it is not answered")?;
    }
    Ok(())
}

/// Bad requests, a delivery and other requests, and one that doesn't come whole, on books with nothing in them, by a reader
/// and a writer of so many bytes.
fn is_served<B: Books>(
    alloc: Global,
    service: &mut BooksService<B>,
    step: usize,
) -> Result<(), Fail>
    requires { B.are_kept service.old.books }
    ensures { B.are_kept service.new.books }
{
    asks_all(alloc, service, step, BAD.as_slice())?;
    plays_on(alloc, &mut service.books, ORDERED, ORDERED_OUT)?;
    asks_all(alloc, service, step, FILES.as_slice())?;
    asks_all(alloc, service, step, LINES.as_slice())?;
    asks_all(alloc, service, step, REPORTS.as_slice())?;
    asks_all(alloc, service, step, NOTHING.as_slice())?;
    asks_all(alloc, service, step, FOREIGN.as_slice())?;
    let served = asks(alloc, service, step, [SHORT, ""])?;
    holds(served == Served::Ended, "a short body is run")
}

/// The same on a desk in a database, one byte at a time.
fn is_served_by_desk<S: Alter + Drop>(alloc: Global, conn: Connection<S>) -> Result<(), Fail>
    requires { HasCleanDisk (state S.Store conn) → (state S.Store conn).in_transaction ≡ false }
{
    let books = created(alloc, conn)?;
    let mut service = serving(books, LineOptions::PLAIN, None);
    is_served(alloc, &mut service, 1)
}

#[test]
fn a_shop_is_asked(rt: HostRuntime) -> Result<(), Fail> {
    let alloc = rt.alloc();
    let books = Shop::new(alloc, Seed::new(0), Limits::LARGEST);
    let mut service = serving(books, LineOptions::PLAIN, None);
    is_served(alloc, &mut service, 4096)
}

#[test]
fn a_desk_is_asked(rt: HostRuntime) -> Result<(), Fail> {
    let alloc = rt.alloc();
    is_served_by_desk(alloc, Connection::open_in_memory(alloc)?)
}
