//! The words that ask a service, at a port, in the place of a file.
ghost use Rattle.std.specs.Prelude.{◌≡◌, IfOk, Some, is_some, option_and_then, option_map};
ghost use Rattle.std.specs.Prelude.{codes};
ghost use Rattle.list_words.specs.Lists.{list_by};
ghost use Rattle.desk_cli.specs.AtWords.{asking_of};
ghost use Rattle.desk_cli.specs.Words.{file_asked, given_in, has_own_words, is_at, is_empty_word};
ghost use Rattle.desk_cli.specs.Words.{lines_asked, number_up_to, report_asked, rows_in, served};
ghost use Rattle.desk_cli.specs.Words.{show_asked, table_asked, AsksFor};

use crate::task::Task;
use crate::words::{
    given, has_flag, has_levels, has_sheet_words, import_day, import_document, import_kind,
    low_amount, number_up_to,
};
use clap::ArgMatches;
use desk_wire::number_in;
use list_words::list_called;
use std::alloc::{AllocError, Global};

/// How a service is asked to run lines.
#[derive(Clone, Copy, Debug)]
pub struct AskedLines {
    /// The first that is refused or faulty is the last.
    pub stop: bool,
    /// Nothing is run unless all can be read.
    pub check: bool,
}

/// What is said of a list that a service is asked for, beside its name and its word.
#[derive(Clone, Copy, Debug)]
pub struct AskedList {
    /// Of the stock: those parts alone of which less is free.
    pub low: Option<u64>,
    /// Of orders and builds: the open ones alone.
    pub only_open: bool,
    /// As comma-separated values, and not in columns.
    pub csv: bool,
}

/// What a service is asked.
#[derive(Clone, Copy, Debug)]
pub enum Asked<'a> {
    /// The lines of the standard input are run.
    Lines(AskedLines),
    /// A report of this name and number.
    Report(&'a str, u64),
    /// A table.
    Table(&'a str),
    /// All tables as SQL.
    Dump,
    /// A list.
    Show {
        list: &'a str,
        of: Option<&'a str>,
        words: AskedList,
    },
    /// The file at the path is taken in.
    File {
        loose: bool,
        kind: &'a str,
        document: &'a str,
        day: &'a str,
        path: &'a str,
    },
    /// The service stops.
    Stop,
}

/// Whether the words ask a service: they tell its port, or its token.
pub fn is_at(matches: &ArgMatches<'_>) -> bool
    ensures { result ≡ is_at (rows_in matches.now) }
{
    given(matches, "at").is_some() || given(matches, "token").is_some()
}

/// Whether the words have what no service is told: a file, or what was said when it was started, or that reasons be told.
fn has_own_words(matches: &ArgMatches<'_>) -> bool
    ensures { result ≡ has_own_words (rows_in matches.now) }
{
    given(matches, "db").is_some()
        || has_flag(matches, "names")
        || has_flag(matches, "journal")
        || has_flag(matches, "explain")
}

/// Whether the words tell a port, and nothing that no service is told, whatever is asked.
pub fn tell_port_alone(matches: &ArgMatches<'_>) -> bool {
    at_port(matches).is_some() && !has_own_words(matches)
}

fn at_port(matches: &ArgMatches<'_>) -> Option<u16>
    ensures { result ≡ option_and_then (number_up_to 65535) (given_in (codes "at") matches.now) }
{
    let port = number_up_to(65_535, given(matches, "at")?)?;
    Some(port as u16)
}

/// The task of a service that is asked so, if the words name its port and nothing that it isn't told.
#[tactic(auto, unfolding(crate::specs::Words::served))]
pub fn at_task<'a>(matches: &ArgMatches<'a>, asked: Option<Asked<'a>>) -> Option<Task<'a>>
    ensures { AsksFor (served (rows_in matches.now) (option_map asking_of asked.entry)) result }
{
    let port = at_port(matches)?;
    let asked = asked?;
    if has_own_words(matches) {
        return None;
    }
    Some(Task::At {
        port,
        token: given(matches, "token"),
        asked,
    })
}

/// The lines that are asked to be run.
pub fn lines_asked<'a>(matches: &ArgMatches<'a>) -> Option<Asked<'a>>
    ensures { option_map asking_of result ≡ lines_asked (rows_in matches.now) }
{
    Some(Asked::Lines(AskedLines {
        stop: has_flag(matches, "stop"),
        check: has_flag(matches, "check"),
    }))
}

/// The report that is asked for, if the words name one of a number. Its second form is the desk's alone.
#[tactic(auto, unfolding(crate::specs::Words::report_asked))]
pub fn report_asked<'a>(matches: &ArgMatches<'a>) -> Option<Asked<'a>>
    ensures { option_map asking_of result ≡ report_asked (rows_in matches.now) }
{
    let name = given(matches, "name")?;
    let number = number_in(given(matches, "number")?)?;
    if has_flag(matches, "csv") {
        return None;
    }
    Some(Asked::Report(name, number))
}

/// The table that is asked for, if the words name one.
pub fn table_asked<'a>(matches: &ArgMatches<'a>) -> Option<Asked<'a>>
    ensures { option_map asking_of result ≡ table_asked (rows_in matches.now) }
{
    let table = given(matches, "table")?;
    Some(Asked::Table(table))
}

/// Whether there is a word that has no byte.
fn is_empty_word(word: Option<&str>) -> bool
    ensures { result ≡ is_empty_word (option_map (λ w. w.now) word.entry) }
{
    match word {
        Some(word) => word.is_empty(),
        None => false,
    }
}

/// Whether there is a list of that name with which these words go.
fn is_list(name: &str, of: Option<&str>, low: Option<u64>, only_open: bool) -> bool
    ensures { result ≡ is_some
        (list_by name.now (option_map (λ w. w.now) of.entry) low only_open) }
{
    list_called(name, of, low, only_open).is_some()
}

/// The list that is asked for, if the words name one that a service shows.
#[tactic(auto, unfolding(crate::specs::Words::show_asked))]
pub fn show_asked<'a>(matches: &ArgMatches<'a>) -> Option<Asked<'a>>
    ensures { option_map asking_of result ≡ show_asked (rows_in matches.now) }
{
    let list = given(matches, "list")?;
    let low = low_amount(given(matches, "low"))?;
    let of = given(matches, "of");
    let only_open = has_flag(matches, "open");
    let own = given(matches, "from").is_some()
        || given(matches, "to").is_some()
        || has_levels(matches);
    if !is_list(list, of, low, only_open) || own || is_empty_word(of) {
        return None;
    }
    let words = AskedList {
        low,
        only_open,
        csv: has_flag(matches, "csv"),
    };
    Some(Asked::Show { list, of, words })
}

/// The file that is asked to be taken in, if the words tell of one that a service takes.
#[tactic(auto, unfolding(crate::specs::Words::file_asked))]
pub fn file_asked<'a>(
    alloc: Global,
    matches: &ArgMatches<'a>,
) -> Result<Option<Asked<'a>>, AllocError>
    ensures { IfOk result (λ asked. option_map asking_of asked ≡ file_asked (rows_in matches.now)) }
{
    let Some(kind) = given(matches, "kind") else {
        return Ok(None);
    };
    let Some(document) = given(matches, "document") else {
        return Ok(None);
    };
    if import_document(alloc, matches)?.is_none() {
        return Ok(None);
    }
    let Some(day) = given(matches, "day") else {
        return Ok(None);
    };
    if import_day(matches).is_none() {
        return Ok(None);
    }
    let Some(path) = given(matches, "path") else {
        return Ok(None);
    };
    if has_sheet_words(matches) || has_flag(matches, "unchanged") {
        return Ok(None);
    }
    Ok(Some(Asked::File {
        loose: has_flag(matches, "loose") && import_kind(matches).is_some(),
        kind,
        document,
        day,
        path,
    }))
}
