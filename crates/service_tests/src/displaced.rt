//! Single requests to a service whose file was taken away: what changes nothing is told, and nothing else is kept.
ghost use Rattle.desk_store.specs.Desks.{IsDesk};

use crate::readings::serving;
use desk_app::{Advice, Books, BooksService, HeldFile, LineOptions, WatchedDesk};
use desk_http::{Outcome, Reply, Service};
use desk_play::play::filled;
use desk_store::Desk;
use sqlite::Alter;
use std::alloc::Global;
use std::test::Fail;
use store_play::devices::Sink;
use store_play::outcomes::holds;

const BEFORE: &str = r#"{"day":"2030-01-02","do":"add_location","key":"a","name":"A"}"#;

const ANSWER: &str = r#"{"entries":0,"ids":[1]}
"#;

/// The name is taken.
const REFUSED: &str = r#"{"day":"2030-01-02","do":"add_location","name":"A"}"#;

const NEW: &str = r#"{"day":"2030-01-02","do":"add_location","name":"B"}"#;

const TOLD: &str =
    "invdesk: gone.db: another file lies at its path now, or none, so nothing more is kept in the one that lay there; all requests fail until the service is started again\n";

/// A file that lies at its path no more.
#[derive(Drop)]
struct Gone;

impl HeldFile for Gone {
    fn name(&self) -> &str {
        "gone.db"
    }

    fn is_in_place(&self) -> bool {
        false
    }
}

/// What is replied to the line. There is none where it isn't replied to.
fn outcome_of<B: Books>(alloc: Global, service: &mut BooksService<B>, line: &str) -> Option<Outcome>
    requires { B.are_kept service.old.books }
    ensures { B.are_kept service.new.books }
{
    match service.run(alloc, line.as_bytes()) {
        Ok(Reply { outcome, .. }) => Some(outcome),
        Err(_) => None,
    }
}

/// A repeat and a refusal are told, a new request isn't, and then nothing is.
fn tells_what_changes_nothing<B: Books>(
    alloc: Global,
    service: &mut BooksService<B>,
) -> Result<(), Fail>
    requires { B.are_kept service.old.books }
{
    let repeat = outcome_of(alloc, service, BEFORE);
    holds(matches!(repeat, Some(Outcome::Answered)), "no repeat")?;
    let refused = outcome_of(alloc, service, REFUSED);
    holds(matches!(refused, Some(Outcome::Refused)), "no refusal")?;
    let new = outcome_of(alloc, service, NEW);
    holds(new.is_none(), "a request is answered and not kept")?;
    let later = outcome_of(alloc, service, BEFORE);
    holds(later.is_none(), "a service whose books are closed answers")
}

/// Serves the desk, whose file is gone.
fn serves<S: Alter + Drop>(alloc: Global, desk: Desk<S>, told: &mut Sink) -> Result<(), Fail>
    requires { IsDesk S.Store desk }
{
    let watched = WatchedDesk::new(desk, Gone, Advice::StartAgain, told);
    let mut service = serving(watched, LineOptions::PLAIN, None);
    tells_what_changes_nothing(alloc, &mut service)
}

#[test]
fn nothing_is_kept_of_a_file_that_is_gone(rt: HostRuntime) -> Result<(), Fail> {
    let alloc = rt.alloc();
    let mut told = Sink::new(alloc, 4096);
    let desk = filled(alloc, BEFORE, ANSWER)?;
    serves(alloc, desk, &mut told)?;
    holds(
        told.bytes.as_slice() == TOLD.as_bytes(),
        "it is told otherwise",
    )
}
