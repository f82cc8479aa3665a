//! A stop at each call of a disk, amid lines or rows of a file that are run in groups. What a file then holds are the
//! tables after some of the groups, and of no fewer lines or rows than were answered. All of them, sent again, are answered
//! as if there had been no stop.
ghost use Rattle.sqlite.specs.Files.{over_files};
ghost use Rattle.desk_store.specs.Desks.{IsDesk};

use desk_app::{Books, RunOptions, close_desk, run_lines};
use desk_core::{RunEnd, Shop};
use desk_play::imports::imports;
use desk_play::play::{filled, lines_in, plays_on_shop};
use desk_store::Desk;
use desk_wire::ImportKind;
use part_core::{Limits, Seed};
use sqlite::{FileStore, Files};
use sqlite_disk::{Disk, Memory};
use std::alloc::Global;
use std::test::Fail;
use store_play::devices::{Sink, Source};
use store_play::files::{Fused, fresh, fused, opened, opened_again, tables_of};
use store_play::outcomes::holds;
use store_play::tables::tables_text;

/// So many bytes at once are all of a text.
const WHOLE: usize = 65_536;

/// How a text is sent.
#[derive(Clone, Copy)]
pub enum Sending {
    /// As lines, of which a read gives at most so many bytes.
    Lines(usize),
    /// As a file of receipts, whose rows are one group.
    Receipts,
}

impl Sending {
    /// The same, all at once.
    fn whole(self) -> Self {
        match self {
            Sending::Lines(_) => Sending::Lines(WHOLE),
            Sending::Receipts => Sending::Receipts,
        }
    }
}

/// Lines, or rows of a file, that are sent again after a stop, and what answers them.
#[derive(Drop)]
pub struct Keyed {
    /// The files that they are sent to.
    before: Files<Memory>,
    text: String,
    /// A line for each line or row.
    answers: String,
    /// All tables before the first of them, and after each.
    tables: Vec<String>,
}

/// All tables of a shop that ran the lines, which are answered so.
fn tables_after(alloc: Global, lines: &str, answers: &str) -> Result<String, Fail> {
    let mut shop = Shop::new(alloc, Seed::new(0), Limits::LARGEST);
    plays_on_shop(alloc, &mut shop, lines, answers)?;
    Ok(tables_text(alloc, &shop)?)
}

/// All tables of a shop that ran the lines, which are answered so, and to which the receipts came then.
fn tables_received(alloc: Global, lines: &str, answers: &str, file: &str) -> Result<String, Fail> {
    let mut shop = Shop::new(alloc, Seed::new(0), Limits::LARGEST);
    plays_on_shop(alloc, &mut shop, lines, answers)?;
    let mut sink = Sink::new(alloc, 4096);
    let end = received(alloc, &mut shop, file, &mut sink)?;
    holds(end == RunEnd::Done(true), "a row is refused")?;
    Ok(tables_text(alloc, &shop)?)
}

/// The files of a desk that ran the lines, which are answered so, and was closed.
fn closed_files(alloc: Global, lines: &str, answers: &str) -> Result<Files<Memory>, Fail> {
    match close_desk(filled(alloc, lines, answers)?) {
        Ok(files) => Ok(files),
        Err((_, database)) => {
            drop(database.close());
            Err(Fail::from("a desk that isn't closed"))
        }
    }
}

impl Keyed {
    /// Of these lines those that are accepted, each under a key of its own, so that it is done once however often it is
    /// sent. What else there is has another answer later on.
    pub fn new(alloc: Global, lines: &str, answers: &str) -> Result<Self, Fail> {
        let mut keyed = Keyed {
            before: fresh(alloc)?,
            text: String::new(alloc),
            answers: String::new(alloc),
            tables: Vec::new(alloc),
        };
        keyed.push_tables(alloc)?;
        for (number, (line, answer)) in lines.lines().zip(answers.lines()).enumerate() {
            if answer.starts_with("{\"entries\"") {
                keyed.push(alloc, number, line, answer)?;
            }
        }
        Ok(keyed)
    }

    /// The rows of a file of receipts, a line of the text each, with the report of them, where the lines before it are
    /// answered so.
    pub fn receipts(
        alloc: Global,
        lines: &str,
        answers: &str,
        file: &str,
        report: &str,
    ) -> Result<Self, Fail> {
        let mut tables = Vec::new(alloc);
        let mut front = String::new(alloc);
        for row in file.lines() {
            front.push_str(row)?;
            front.push('\n')?;
            let after = tables_received(alloc, lines, answers, front.as_str())?;
            tables.push(after)?;
        }
        Ok(Keyed {
            before: closed_files(alloc, lines, answers)?,
            text: front,
            answers: String::from_str(alloc, report)?,
            tables,
        })
    }

    fn push(&mut self, alloc: Global, number: usize, line: &str, answer: &str) -> Result<(), Fail> {
        let Some(rest) = line.strip_prefix('{') else {
            return Err(Fail::from("a line is no request"));
        };
        let key = format!(in alloc; "{{\"key\":\"k{number}\",{rest}\n")?;
        self.text.push_str(key.as_str())?;
        self.answers.push_str(answer)?;
        self.answers.push('\n')?;
        self.push_tables(alloc)
    }

    fn push_tables(&mut self, alloc: Global) -> Result<(), Fail> {
        let tables = tables_after(alloc, self.text.as_str(), self.answers.as_str())?;
        self.tables.push(tables)?;
        Ok(())
    }

    /// How many lines or rows there are.
    fn len(&self) -> usize {
        lines_in(self.answers.as_bytes())
    }

    /// After how many of them these are all tables.
    fn done_at(&self, tables: &str) -> Result<usize, Fail> {
        let done = self
            .tables
            .iter()
            .position(|after| after.as_str() == tables);
        Ok(done.ok_or("tables that nothing left")?)
    }

    /// Whether a group ends behind so many of them.
    fn ends_group(&self, done: usize, sending: Sending) -> bool {
        let mut read = 0usize;
        if let Sending::Lines(step) = sending {
            for piece in self.text.as_bytes().chunks(step.max(1)) {
                if read == done {
                    return true;
                }
                read = read.saturating_add(lines_in(piece));
            }
        }
        done == 0 || done == self.len()
    }
}

/// Imports the file of receipts to the books: how it ends, and what it writes.
fn received<B: Books>(
    alloc: Global,
    books: &mut B,
    file: &str,
    sink: &mut Sink,
) -> Result<RunEnd, Fail>
    requires { B.are_kept books.old }
    ensures { B.are_kept books.new }
{
    imports(alloc, books, ImportKind::Receipts, "2030-03-01", file, sink)
}

/// Sends the text to the desk: how it ends, and what is answered.
fn answered<D: Disk + Drop>(
    alloc: Global,
    desk: &mut Desk<FileStore<D>>,
    keyed: &Keyed,
    sending: Sending,
) -> Result<(RunEnd, Sink), Fail>
    requires { IsDesk over_files desk.old }
{
    let mut sink = Sink::new(alloc, 4096);
    let end = match sending {
        Sending::Lines(step) => {
            let mut source = Source::new(keyed.text.as_bytes(), step);
            run_lines(alloc, &mut source, &mut sink, desk, RunOptions::PLAIN)
        }
        Sending::Receipts => received(alloc, desk, keyed.text.as_str(), &mut sink)?,
    };
    Ok((end, sink))
}

/// Sends the text to the desk of the files until the disk stops: whether it comes to its end, how many lines or rows were
/// answered, and the files as the disk left them.
fn stopped(
    alloc: Global,
    files: Files<Fused>,
    keyed: &Keyed,
    sending: Sending,
) -> Result<(bool, usize, Files<Fused>), Fail> {
    let mut desk = match opened(alloc, files, 8) {
        Ok(desk) => desk,
        Err(files) => return Ok((false, 0, files)),
    };
    let (end, sink) = answered(alloc, &mut desk, keyed, sending)?;
    let told = sink.bytes.as_slice();
    holds(keyed.answers.as_bytes().starts_with(told), "another answer")?;
    holds(
        matches!(end, RunEnd::Done(true) | RunEnd::Store),
        "another end",
    )?;
    let files = desk.close().into_store().close();
    Ok((end == RunEnd::Done(true), lines_in(told), files))
}

/// Opens the files after the stop, which loses what was not synced, looks at what is there, and sends all again.
fn sent_again(
    alloc: Global,
    files: Files<Fused>,
    keyed: &Keyed,
    sending: Sending,
    told: usize,
) -> Result<(), Fail> {
    let mut desk = opened_again(alloc, files)?;
    let tables = tables_of(alloc, &desk)?;
    let done = keyed.done_at(tables.as_str())?;
    holds(told <= done, "what was answered is gone")?;
    holds(keyed.ends_group(done, sending), "a group is there by half")?;
    let (end, sink) = answered(alloc, &mut desk, keyed, sending.whole())?;
    holds(end == RunEnd::Done(true), "what is sent again doesn't end")?;
    holds(
        sink.bytes.as_slice() == keyed.answers.as_bytes(),
        "other answers when sent again",
    )?;
    let tables = tables_of(alloc, &desk)?;
    holds(
        keyed.done_at(tables.as_str())? == keyed.len(),
        "other tables in the end",
    )
}

/// Stops at each call of the log or of the database in turn, until a run comes to its end: how many stops there were.
pub fn stops_in_groups(
    alloc: Global,
    keyed: &Keyed,
    sending: Sending,
    of_log: bool,
) -> Result<u64, Fail> {
    for calls in 0..4_000u64 {
        let files = fused(alloc, &keyed.before, calls, of_log)?;
        let (ended, told, left) = stopped(alloc, files, keyed, sending)?;
        sent_again(alloc, left, keyed, sending, told)?;
        if ended {
            return Ok(calls);
        }
    }
    Err(Fail::from("no run comes to its end"))
}

/// Stops at each call of the log or of the database in turn, where a read gives all lines, so that they are one group, and
/// where it gives a third of them.
pub fn stops_at_each_call(alloc: Global, keyed: &Keyed, of_log: bool) -> Result<(), Fail> {
    let third = (keyed.text.len() / 3).saturating_add(1);
    let whole = stops_in_groups(alloc, keyed, Sending::Lines(WHOLE), of_log)?;
    let thirds = stops_in_groups(alloc, keyed, Sending::Lines(third), of_log)?;
    holds(whole > 1 && thirds > 1, "hardly a stop")
}
