//! The task that the words ask for, and what is said of how it is to be done.
ghost use Rattle.std.specs.Prelude.{◌≡◌};
ghost use Rattle.desk_cli.specs.Subjects.{said_word};

use crate::at_words::Asked;
use clap::Error;
use desk_wire::{Document, FileReading, ImportKind, Sheet};
use list_words::ListOf;
use part_core::Day;
use report_core::ReportName;
use table_store::TableName;

/// What a report is of.
#[derive(Clone, Copy, Debug)]
pub enum ReportOf<'a> {
    /// The part, the item or the build of this number.
    Number(u64),
    /// What this word says, where rows may be named: it is looked up once the file is open.
    Word(&'a str),
}

impl<'a> ReportOf<'a> {
    /// The word that says its row, if a word does.
    pub fn word(&self) -> Option<&'a str>
        ensures { result ≡ said_word self.now }
    {
        match self {
            ReportOf::Number(_) => None,
            ReportOf::Word(word) => Some(*word),
        }
    }
}

/// How the lines of the standard input are run.
#[derive(Clone, Copy, Debug)]
pub struct RunWords {
    /// Lines may name rows.
    pub names: bool,
    /// The run ends at the first line that is refused or faulty.
    pub stop: bool,
    /// Nothing is run unless all lines can be read.
    pub check: bool,
    /// It is told why a line isn't done.
    pub explain: bool,
    /// A request without a key gets one.
    pub journal: bool,
}

/// How clients are served.
#[derive(Clone, Copy, Debug)]
pub struct ServeWords<'a> {
    /// The port of the loopback.
    pub port: u16,
    /// How many connections are served; where it isn't said, one after another without an end.
    pub count: Option<u64>,
    /// The path of the file with the token, where one is asked for.
    pub token: Option<&'a str>,
    /// What is sent may name rows.
    pub names: bool,
    /// The page is served, too.
    pub page: bool,
    /// A request without a key gets one.
    pub journal: bool,
}

/// A file whose rows are run.
#[derive(Drop)]
pub struct RowsFile<'a> {
    pub kind: ImportKind,
    pub document: Document,
    pub day: Day,
    pub path: &'a str,
    /// Rows may be named in it.
    pub names: bool,
    pub reading: FileReading,
    /// It is told why a row isn't done.
    pub explain: bool,
}

/// A file whose records are of a command, of which each is a line that is run. Rows may be named in it.
#[derive(Drop)]
pub struct SheetFile<'a> {
    pub sheet: Sheet<'a>,
    pub path: &'a str,
    /// The run ends at the first line that is refused or faulty.
    pub stop: bool,
    /// It is told why a line isn't done.
    pub explain: bool,
}

/// What is looked at of the desk in a file, and printed.
#[derive(Clone, Copy, Debug)]
pub enum LookAt<'a> {
    /// A report.
    Report { name: ReportName, of: ReportOf<'a> },
    /// A table.
    Export(TableName),
    /// All tables as SQL.
    Dump,
    /// A list, in columns or as comma-separated values.
    Show { list: ListOf<'a>, csv: bool },
    /// The list of what has less free than its level, in columns or as comma-separated values. Which level each part has is
    /// said by the file at the path `levels`.
    Low { levels: &'a str, csv: bool },
}

/// The task that the words ask for. A file is named by its path.
#[derive(Drop)]
pub enum Task<'a> {
    /// Each line of the standard input is answered, by the desk in the file, or by a new one in memory.
    Run {
        file: Option<&'a str>,
        options: RunWords,
    },
    /// Something of the desk in the file is printed, and nothing changed.
    Look {
        file: &'a str,
        look: LookAt<'a>,
    },
    /// The file, if an earlier program wrote it, is brought along.
    Migrate(&'a str),
    /// The rows of a file are run by the desk in the file.
    Import {
        file: &'a str,
        rows: RowsFile<'a>,
    },
    /// The lines that a file of a command is are run by the desk in the file once all have been looked at.
    Sheet {
        file: &'a str,
        lines: SheetFile<'a>,
    },
    /// The lines that the file at the path is are printed.
    Lines {
        sheet: Sheet<'a>,
        path: &'a str,
    },
    /// Connections to a port of the loopback are served, by the desk in the file, or by a new one in memory.
    Serve {
        file: Option<&'a str>,
        options: ServeWords<'a>,
    },
    /// Help on this topic is printed.
    Guide(&'a str),
    /// The service at this port of the loopback is asked. Where a token is shown, it stands in the file at the path.
    At {
        port: u16,
        token: Option<&'a str>,
        asked: Asked<'a>,
    },
    /// Help, or the version, is printed.
    Help(Error),
    /// The words are wrong.
    Wrong(Error),
    /// A word isn't UTF-8.
    Unreadable,
    /// A growth was refused, as memory ran out.
    Memory,
}
