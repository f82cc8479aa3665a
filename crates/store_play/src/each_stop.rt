//! A stop at each call of a disk while requests are run one at a time. What a file then holds are the tables before or
//! after the request that was being run, and all requests, sent again, end as if there had been no stop.
use crate::files::{Fused, fresh, fused, opened, opened_again, tables_of};
use crate::outcomes::holds;
use crate::tables::tables_text;
use desk_core::{Request, Shop, answer_line};
use desk_store::Fault;
use desk_wire::read_request;
use part_core::{Answer, Limits, Seed};
use sqlite::Files;
use sqlite_disk::Memory;
use std::alloc::Global;
use std::test::Fail;

/// Requests that are accepted, and what comes of them where nothing stops.
#[derive(Drop)]
pub struct Unbroken {
    requests: Vec<Request>,
    /// What each is answered.
    answers: Vec<String>,
    /// All tables before the first of them, and after each.
    tables: Vec<String>,
}

/// The request of a line, under a key of its own.
fn keyed(alloc: Global, number: usize, line: &str) -> Result<Request, Fail> {
    let Some(rest) = line.strip_prefix('{') else {
        return Err(Fail::from("a line is no request"));
    };
    let line = format!(in alloc; "{{\"key\":\"k{number}\",{rest}")?;
    match read_request::<Shop>(alloc, None, line.as_str().as_bytes(), 1) {
        Ok(request) => Ok(request),
        Err(_) => Err(Fail::from("a line is no request")),
    }
}

/// All tables of a shop that ran the requests.
fn tables_after(alloc: Global, requests: &[Request]) -> Result<String, Fail> {
    let mut shop = Shop::new(alloc, Seed::new(0), Limits::LARGEST);
    let outcomes = shop.run_list(alloc, requests)?;
    holds(
        outcomes.iter().all(|outcome| outcome.is_ok()),
        "a request is refused",
    )?;
    Ok(tables_text(alloc, &shop)?)
}

impl Unbroken {
    /// Of these lines those that are accepted, each under a key of its own.
    pub fn new(alloc: Global, lines: &str, answers: &str) -> Result<Self, Fail> {
        let mut requests = Vec::new(alloc);
        let mut kept = Vec::new(alloc);
        let mut tables = Vec::new(alloc);
        tables.push(tables_after(alloc, requests.as_slice())?)?;
        for (number, (line, answer)) in lines.lines().zip(answers.lines()).enumerate() {
            if answer.starts_with("{\"entries\"") {
                requests.push(keyed(alloc, number, line)?)?;
                kept.push(String::from_str(alloc, answer)?)?;
                tables.push(tables_after(alloc, requests.as_slice())?)?;
            }
        }
        Ok(Unbroken {
            requests,
            answers: kept,
            tables,
        })
    }

    /// How many of the requests were answered before the disk stopped.
    fn answered(&self, alloc: Global, outcomes: &[Result<Answer, Fault>]) -> Result<usize, Fail> {
        for (number, (outcome, answer)) in outcomes.iter().zip(self.answers.iter()).enumerate() {
            match outcome {
                Ok(given) => {
                    let line = answer_line(alloc, given)?;
                    holds(line.as_str() == answer.as_str(), "another answer")?;
                }
                Err(Fault::Store) => return Ok(number),
                Err(_) => return Err(Fail::from("a request is refused")),
            }
        }
        Ok(self.answers.len())
    }

    /// Whether these are all tables after so many of the requests.
    fn is_after(&self, count: usize, tables: &str) -> bool {
        match self.tables.get(count) {
            Some(wanted) => wanted.as_str() == tables,
            None => false,
        }
    }
}

/// Runs the requests on the desk of the files until the disk stops: how many were answered, and the files as it left them.
fn stopped(
    alloc: Global,
    files: Files<Fused>,
    unbroken: &Unbroken,
) -> Result<(usize, Files<Fused>), Fail> {
    let mut desk = match opened(alloc, files, 8) {
        Ok(desk) => desk,
        Err(files) => return Ok((0, files)),
    };
    let outcomes = desk.run_list(alloc, unbroken.requests.as_slice())?;
    let done = unbroken.answered(alloc, outcomes.as_slice())?;
    Ok((done, desk.close().into_store().close()))
}

/// Opens the files after a stop behind so many answers, and sends all requests again.
fn sent_again(
    alloc: Global,
    files: Files<Fused>,
    unbroken: &Unbroken,
    done: usize,
) -> Result<(), Fail> {
    let mut desk = opened_again(alloc, files)?;
    let tables = tables_of(alloc, &desk)?;
    let before = unbroken.is_after(done, tables.as_str());
    let after = unbroken.is_after(done.saturating_add(1), tables.as_str());
    holds(before || after, "tables that no request left")?;
    let outcomes = desk.run_list(alloc, unbroken.requests.as_slice())?;
    let count = unbroken.answered(alloc, outcomes.as_slice())?;
    holds(count == unbroken.requests.len(), "not all are answered")?;
    let tables = tables_of(alloc, &desk)?;
    holds(
        unbroken.is_after(count, tables.as_str()),
        "other tables in the end",
    )
}

/// A run on copies of the files whose log or database stops after so many calls: whether all were answered before.
fn stop_after(
    alloc: Global,
    files: &Files<Memory>,
    unbroken: &Unbroken,
    calls: u64,
    of_log: bool,
) -> Result<bool, Fail> {
    let files = fused(alloc, files, calls, of_log)?;
    let (done, left) = stopped(alloc, files, unbroken)?;
    sent_again(alloc, left, unbroken, done)?;
    Ok(done == unbroken.requests.len())
}

/// Stops at each call of the log or of the database in turn, until all are answered: how many stops there were.
pub fn stops_amid_requests(alloc: Global, unbroken: &Unbroken, of_log: bool) -> Result<u64, Fail> {
    let files = fresh(alloc)?;
    for calls in 0..4_000u64 {
        if stop_after(alloc, &files, unbroken, calls, of_log)? {
            return Ok(calls);
        }
    }
    Err(Fail::from("the requests don't end"))
}
