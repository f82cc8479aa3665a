//! Lines that are sent by HTTP in one body, and the stop, on a shop and on a desk whose disk fails.
ghost use Rattle.desk_core.specs.Machine.{IsSoundState};
ghost use Rattle.desk_core.specs.ShopView.{state_of};

use crate::readings::{has_tag, service, serving};
use desk_app::{Books, BooksService, LineOptions};
use desk_core::Shop;
use desk_http::{
    Access, Failure, LineWords, ListWords, NoReply, Outcome, Page, Reply, Served, Service, Site,
    serve_one,
};
use desk_store::Desk;
use part_core::{Limits, Seed};
use sqlite::FileStore;
use std::alloc::Global;
use std::test::Fail;
use store_play::devices::{Sink, Source};
use store_play::files::{Fused, fresh, fused, opened, opened_again, tables_of};
use store_play::outcomes::holds;

/// All lines are run.
const ALL: LineWords = LineWords {
    stop: false,
    check: false,
};

/// The first that is refused or faulty is the last.
const STOPS: LineWords = LineWords {
    stop: true,
    check: false,
};

/// All are looked at before.
const CHECKED: LineWords = LineWords {
    stop: false,
    check: true,
};

const CHECKED_STOPS: LineWords = LineWords {
    stop: true,
    check: true,
};

/// Of what kind a reply is, in a word, and its body.
fn told(replied: Result<Reply, NoReply>) -> Result<(&'static str, Vec<u8>), Fail> {
    match replied {
        Ok(Reply { outcome, body }) => match outcome {
            Outcome::AnsweredLines => Ok(("answers", body)),
            Outcome::Faulty => Ok(("fault", body)),
            Outcome::FaultyLines => Ok(("faults", body)),
            _ => Err(Fail::from("another reply")),
        },
        Err(_) => Err(Fail::from("no reply")),
    }
}

/// The lines are replied to so.
fn answers<B: Books>(
    alloc: Global,
    service: &mut BooksService<B>,
    said: LineWords,
    lines: &str,
    reply: (&str, &str),
) -> Result<(), Fail>
    requires { B.are_kept service.old.books }
    ensures { B.are_kept service.new.books }
{
    let (kind, body) = reply;
    let (is, text) = told(service.run_lines(alloc, said, lines.as_bytes()))?;
    holds(is == kind, "another kind of reply")?;
    holds(text.as_slice() == body.as_bytes(), "another body")
}

/// A location, a blank line, one that is refused, one that is none, a report, and one more location without an LF.
const MIXED: &str =
    "{\"day\":\"2030-01-02\",\"do\":\"add_location\",\"key\":\"a\",\"name\":\"A\"}\r\n\r\n{\"day\":\"2030-01-02\",\"do\":\"add_location\",\"name\":\"A\"}\n[]\n{\"of\":1,\"report\":\"ledger\"}\n{\"day\":\"2030-01-02\",\"do\":\"add_location\",\"key\":\"b\",\"name\":\"B\"}";

const MIXED_OUT: &str =
    "{\"entries\":0,\"ids\":[1]}\n{\"refused\":\"NameTaken\"}\n{\"fault\":\"NotObject\",\"line\":4}\n{\"refused\":\"NoSuch\"}\n{\"entries\":0,\"ids\":[2]}\n";

#[test]
fn lines_are_run(rt: HostRuntime) -> Result<(), Fail> {
    let alloc = rt.alloc();
    let mut books = service(alloc, 0);
    answers(alloc, &mut books, ALL, MIXED, ("answers", MIXED_OUT))?;
    has_tag(&books, Some(1))?;
    answers(alloc, &mut books, ALL, MIXED, ("answers", MIXED_OUT))?;
    has_tag(&books, Some(2))?;
    answers(alloc, &mut books, ALL, "", ("answers", ""))?;
    answers(alloc, &mut books, ALL, "\n\r\n", ("answers", ""))?;
    has_tag(&books, Some(4))?;
    let mut stops = service(alloc, 0);
    let first = "{\"entries\":0,\"ids\":[1]}\n{\"refused\":\"NameTaken\"}\n";
    answers(alloc, &mut stops, STOPS, MIXED, ("answers", first))?;
    has_tag(&stops, Some(1))?;
    let mut checks = service(alloc, 0);
    let fault = ("fault", "{\"fault\":\"NotObject\",\"line\":4}\n");
    answers(alloc, &mut checks, CHECKED, MIXED, fault)?;
    answers(alloc, &mut checks, CHECKED_STOPS, MIXED, fault)?;
    let faults = (
        "faults",
        "{\"fault\":\"NotObject\",\"line\":1}\n{\"fault\":\"NotJson\",\"line\":2}\n",
    );
    answers(alloc, &mut checks, CHECKED, "[]\n{\n", faults)?;
    has_tag(&checks, Some(0))?;
    let fine = "{\"day\":\"2030-01-02\",\"do\":\"add_location\",\"name\":\"A\"}\n";
    let twice = format!(in alloc; "{fine}{fine}{fine}")?;
    answers(
        alloc,
        &mut checks,
        CHECKED_STOPS,
        twice.as_str(),
        ("answers", first),
    )
}

/// Names are looked up as the service takes them, and requests get keys where it keeps a journal.
#[test]
fn lines_are_taken_as_lines(rt: HostRuntime) -> Result<(), Fail> {
    let alloc = rt.alloc();
    let named =
        "{\"day\":\"2030-01-02\",\"do\":\"add_location\",\"name\":\"A\"}\n{\"day\":\"2030-01-02\",\"do\":\"add_location\",\"name\":\"B\",\"parent\":\"A\"}\n";
    let mut plain = service(alloc, 0);
    let fault = (
        "answers",
        "{\"entries\":0,\"ids\":[1]}\n{\"fault\":\"WrongType\",\"line\":2}\n",
    );
    answers(alloc, &mut plain, ALL, named, fault)?;
    let options = LineOptions {
        names: true,
        journal: true,
    };
    let books = Shop::new(alloc, Seed::new(0), Limits::LARGEST);
    let mut kept = serving(books, options, None);
    let made = (
        "answers",
        "{\"entries\":0,\"ids\":[1]}\n{\"entries\":0,\"ids\":[2]}\n",
    );
    answers(alloc, &mut kept, CHECKED, named, made)?;
    let answers = kept.books.answers();
    holds(answers.len() == 2, "no journal is kept")
}

/// So many locations, each with a key.
fn locations(alloc: Global, count: u64) -> Result<String, Fail> {
    let mut lines = String::new(alloc);
    for number in 0..count {
        let line = format!(in alloc;
            "{{\"day\":\"2030-01-02\",\"do\":\"add_location\",\"key\":\"k{number}\",\"name\":\"L{number}\"}}\n"
        )?;
        lines.push_str(line.as_str())?;
    }
    Ok(lines)
}

/// What is answered to them on books with nothing in them.
fn located(alloc: Global, count: u64) -> Result<String, Fail> {
    let mut answers = String::new(alloc);
    for number in 0..count {
        let id = number + 1;
        answers.push_str(format!(in alloc; "{{\"entries\":0,\"ids\":[{id}]}}\n")?.as_str())?;
    }
    Ok(answers)
}

/// Three thousand lines, which are more than one group, sent twice: they are done once.
#[test]
fn many_lines(rt: HostRuntime) -> Result<(), Fail> {
    let alloc = rt.alloc();
    let (lines, wanted) = (locations(alloc, 3_000)?, located(alloc, 3_000)?);
    let desk = match opened(alloc, fresh(alloc)?, 8) {
        Ok(desk) => desk,
        Err(_) => return Err(Fail::from("a new desk isn't opened")),
    };
    let mut service = serving(desk, LineOptions::PLAIN, None);
    answers(
        alloc,
        &mut service,
        ALL,
        lines.as_str(),
        ("answers", wanted.as_str()),
    )?;
    answers(
        alloc,
        &mut service,
        CHECKED,
        lines.as_str(),
        ("answers", wanted.as_str()),
    )
}

/// What a service says that failed.
fn is_store(replied: &Result<Reply, NoReply>) -> bool {
    matches!(replied, Err(NoReply::Failed(Failure::Store)))
}

/// Sends the lines to a desk whose log stops after so many calls: whether they were answered. Where they weren't, the service
/// is over if it ends at a fault, nothing is answered any more, and the file has the tables of none of the lines, or of all.
fn sends_to_fused(alloc: Global, calls: u64, ends: bool) -> Result<bool, Fail> {
    let files = fresh(alloc)?;
    let lines = locations(alloc, 3)?;
    let desk: Desk<FileStore<Fused>> = match opened(alloc, fused(alloc, &files, calls, true)?, 8) {
        Ok(desk) => desk,
        Err(_) => return Ok(false),
    };
    let before = tables_of(alloc, &desk)?;
    let mut service = serving(desk, LineOptions::PLAIN, Some(5));
    service.ends_at_fault = ends;
    let replied = service.run_lines(alloc, ALL, lines.as_bytes());
    let answered = replied.is_ok();
    if !answered {
        holds(is_store(&replied), "another failure")?;
        holds(service.is_over() == ends, "it goes on otherwise")?;
        let again = service.run_lines(alloc, CHECKED, lines.as_bytes());
        holds(is_store(&again), "closed books are asked")?;
        let list = service.show(alloc, "stock", None, UNSAID);
        holds(is_store(&list), "closed books are shown")?;
    } else {
        holds(!service.is_over(), "it is over")?;
    }
    let files = service.books.close().into_store().close();
    let desk = opened_again(alloc, files)?;
    let after = tables_of(alloc, &desk)?;
    let unchanged = after.as_str() == before.as_str();
    holds(!(answered && unchanged), "what was answered is lost")?;
    Ok(answered)
}

#[test]
fn each_call_fails(rt: HostRuntime) -> Result<(), Fail> {
    let alloc = rt.alloc();
    for calls in 1..200u64 {
        let answered = sends_to_fused(alloc, calls, true)?;
        holds(
            sends_to_fused(alloc, calls, false)? == answered,
            "another end",
        )?;
        if answered {
            return holds(calls > 4, "no call fails");
        }
    }
    Err(Fail::from("too many calls"))
}

/// Nothing is said of a list.
const UNSAID: ListWords = ListWords {
    csv: false,
    only_open: false,
    low: None,
};

/// Stops the service, as it is asked to by HTTP, with a page or without it: the status.
fn asks_to_stop<B: Books>(
    alloc: Global,
    service: &mut BooksService<B>,
    page: Option<Page>,
) -> Result<u16, Fail>
    requires { B.are_kept service.old.books }
    ensures { B.are_kept service.new.books }
{
    let site = Site {
        access: Access::new(alloc, 8080, None)?,
        page,
    };
    let mut source = Source::new(b"POST /stop HTTP/1.1\r\n\r\n", 4096);
    let mut sink = Sink::new(alloc, 4096);
    match serve_one(alloc, &mut source, &mut sink, service, &site) {
        Served::Answered(status) => Ok(status),
        _ => Err(Fail::from("no answer")),
    }
}

const PAGE: Page = Page {
    text: "",
    policy: "",
};

/// Asks the service to stop, which it is by then, however often it is asked.
fn is_stopped(alloc: Global, service: &mut BooksService<Shop>) -> Result<(), Fail>
    requires { IsSoundState (state_of service.old.books) }
    ensures { IsSoundState (state_of service.new.books) }
{
    holds(
        asks_to_stop(alloc, service, Some(PAGE))? == 200,
        "it doesn't stop",
    )?;
    holds(service.is_over() && service.stopped, "it goes on")?;
    has_tag(service, Some(3))
}

/// A service stops where it is asked to, by a request that is there with a page alone; its books stay as they are.
#[test]
fn a_stop(rt: HostRuntime) -> Result<(), Fail> {
    let alloc = rt.alloc();
    let mut service = service(alloc, 3);
    holds(
        asks_to_stop(alloc, &mut service, None)? == 404,
        "it stops without a page",
    )?;
    holds(!service.is_over(), "it is over")?;
    is_stopped(alloc, &mut service)?;
    is_stopped(alloc, &mut service)
}
