//! Files of commands that are sent to a shop.
use crate::readings::{has_tag, service};
use desk_app::{Books, BooksService};
use desk_http::{NoReply, Outcome, Reply, Service};
use part_core::Day;
use std::alloc::Global;
use std::test::Fail;
use store_play::outcomes::holds;

/// What a reply is, in a word, and its body.
fn told(replied: Result<Reply, NoReply>) -> Result<(&'static str, Vec<u8>), Fail> {
    match replied {
        Ok(Reply { outcome, body }) => match outcome {
            Outcome::Reported => Ok(("answers", body)),
            Outcome::Faulty => Ok(("fault", body)),
            Outcome::FaultyLines => Ok(("faults", body)),
            Outcome::Unknown => Ok(("unknown", body)),
            _ => Err(Fail::from("another reply")),
        },
        Err(_) => Err(Fail::from("no reply")),
    }
}

/// The file of the command is replied to so.
fn is_told<B: Books>(
    alloc: Global,
    service: &mut BooksService<B>,
    sent: (&str, &str),
    reply: (&str, &str),
) -> Result<(), Fail>
    requires { B.are_kept service.old.books }
    ensures { B.are_kept service.new.books }
{
    let (command, file) = sent;
    let (kind, body) = reply;
    let Some(day) = Day::parse("2030-01-02") else {
        return Err(Fail::from("no day"));
    };
    let replied = service.import_sheet(alloc, command, "S1", day, file.as_bytes());
    let (is, text) = told(replied)?;
    holds(is == kind, "another kind of reply")?;
    holds(text.as_slice() == body.as_bytes(), "another body")
}

const PARTS: (&str, &str) = (
    "add_part",
    "name;flags\nWasher;component\n;\nStud;component\n",
);

const MADE: (&str, &str) = (
    "answers",
    "{\"entries\":0,\"ids\":[1]}\n{\"entries\":0,\"ids\":[2]}\n",
);

#[test]
fn files_of_commands(rt: HostRuntime) -> Result<(), Fail> {
    let alloc = rt.alloc();
    let mut service = service(alloc, 0);
    is_told(alloc, &mut service, PARTS, MADE)?;
    has_tag(&service, Some(1))?;
    is_told(alloc, &mut service, PARTS, MADE)?;
    has_tag(&service, Some(2))?;
    let location = ("add_location", "name\nStore\n");
    let made = ("answers", "{\"entries\":0,\"ids\":[3]}\n");
    is_told(alloc, &mut service, location, made)?;
    let found = (
        "found",
        "part,location,quantity\nWasher,Store,3\nNut,Store,1\n",
    );
    let some = (
        "answers",
        "{\"entries\":1,\"ids\":[4]}\n{\"fault\":\"NoName\",\"field\":\"part\",\"line\":3}\n",
    );
    is_told(alloc, &mut service, found, some)?;
    has_tag(&service, Some(4))
}

/// The file of the command is replied to so, and changes nothing.
fn is_refused<B: Books>(
    alloc: Global,
    service: &mut BooksService<B>,
    sent: (&str, &str),
    reply: (&str, &str),
) -> Result<(), Fail>
    requires { B.are_kept service.old.books }
    ensures { B.are_kept service.new.books }
{
    is_told(alloc, service, sent, reply)?;
    has_tag(service, Some(0))
}

#[test]
fn faulty_files_of_commands(rt: HostRuntime) -> Result<(), Fail> {
    let alloc = rt.alloc();
    let mut service = service(alloc, 0);
    let headless = ("add_part", "flags\n");
    let header = ("fault", "{\"fault\":\"Header\",\"line\":1}\n");
    is_refused(alloc, &mut service, headless, header)?;
    let misspelt = ("add_part", "name,flags\nA,component\nB,metal\n");
    let word = ("fault", "{\"fault\":\"BadWord\",\"line\":3}\n");
    is_refused(alloc, &mut service, misspelt, word)?;
    let twice = ("add_part", "name,flags\nA,wood\nB,component\nC,metal\n");
    let words = (
        "faults",
        "{\"fault\":\"BadWord\",\"line\":2}\n{\"fault\":\"BadWord\",\"line\":4}\n",
    );
    is_refused(alloc, &mut service, twice, words)
}

#[test]
fn files_of_no_command(rt: HostRuntime) -> Result<(), Fail> {
    let alloc = rt.alloc();
    let mut service = service(alloc, 0);
    let receive = ("receive", "line,location,quantity\n");
    is_refused(alloc, &mut service, receive, ("unknown", ""))?;
    let capital = ("Add_part", "name,flags\n");
    is_refused(alloc, &mut service, capital, ("unknown", ""))
}
