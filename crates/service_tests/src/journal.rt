//! Requests of HTTP with a journal: each that is accepted is kept, under a key where it has none.
use crate::readings::serving;
use crate::requests::asks_all;
use desk_app::LineOptions;
use desk_core::Shop;
use part_core::{Limits, Seed};
use std::test::Fail;
use store_play::outcomes::holds;

/// A request without a key, the same again, which is refused, one with a key, and one more without, of a later day.
const REQUESTS: [[&str; 2]; 4] = [
    [
        "POST /run HTTP/1.1\r\nContent-Length: 51\r\n\r\n{\"day\":\"2030-01-02\",\"do\":\"add_location\",\"name\":\"A\"}",
        "HTTP/1.1 200 OK\r\nContent-Type: application/json\r\nContent-Length: 24\r\nConnection: close\r\n\r\n{\"entries\":0,\"ids\":[1]}\n",
    ],
    [
        "POST /run HTTP/1.1\r\nContent-Length: 51\r\n\r\n{\"day\":\"2030-01-02\",\"do\":\"add_location\",\"name\":\"A\"}",
        "HTTP/1.1 409 Conflict\r\nContent-Type: application/json\r\nContent-Length: 24\r\nConnection: close\r\n\r\n{\"refused\":\"NameTaken\"}\n",
    ],
    [
        "POST /run HTTP/1.1\r\nContent-Length: 65\r\n\r\n{\"day\":\"2030-01-02\",\"do\":\"add_location\",\"key\":\"given\",\"name\":\"B\"}",
        "HTTP/1.1 200 OK\r\nContent-Type: application/json\r\nContent-Length: 24\r\nConnection: close\r\n\r\n{\"entries\":0,\"ids\":[2]}\n",
    ],
    [
        "POST /run HTTP/1.1\r\nContent-Length: 51\r\n\r\n{\"day\":\"2030-01-05\",\"do\":\"add_location\",\"name\":\"C\"}",
        "HTTP/1.1 200 OK\r\nContent-Type: application/json\r\nContent-Length: 24\r\nConnection: close\r\n\r\n{\"entries\":0,\"ids\":[3]}\n",
    ],
];

#[test]
fn requests_are_kept(rt: HostRuntime) -> Result<(), Fail> {
    let alloc = rt.alloc();
    let books = Shop::new(alloc, Seed::new(0), Limits::LARGEST);
    let options = LineOptions {
        names: false,
        journal: true,
    };
    let mut service = serving(books, options, None);
    asks_all(alloc, &mut service, 1, REQUESTS.as_slice())?;
    let answers = service.books.answers();
    holds(answers.len() == 3, "more or fewer answers are kept")?;
    for key in ["2030-01-02/1", "given", "2030-01-05/3"] {
        let key = String::from_str(alloc, key)?;
        holds(answers.get(&key).is_some(), "a key isn't kept")?;
    }
    Ok(())
}
