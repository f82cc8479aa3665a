//! The words that the program is called with.
ghost use Rattle.std.specs.Prelude.{◌≡◌, ◌≤◌, ℕ, List, map, option_map};
ghost use Rattle.std.specs.Prelude.{option_and_then, codes, true, false, IfOk, IfSome, Some};
ghost use Rattle.clap.specs.Words.{app_of, kind_of, rule_of, subcommand_rows_of};
ghost use Rattle.word_core.specs.Day.{day_of};
ghost use Rattle.list_core.specs.HistoryList.{span_of};
ghost use Rattle.report_core.specs.Names.{report_named};
ghost use Rattle.desk_wire.specs.Numbers.{number_in};
ghost use Rattle.desk_wire.specs.Kinds.{import_kind_named};
ghost use Rattle.desk_cli.specs.Words.{file_rule, flag_rule, journal_rule, names_rule, option_rule};
ghost use Rattle.desk_cli.specs.Words.{is_given, optional_rule, word_rule};
ghost use Rattle.desk_cli.specs.AtWords as ats;
ghost use Rattle.desk_cli.specs.Words.{dump_line, migrate_line, run_line, serve_line, stop_line, with_place, IsKindRule};
ghost use Rattle.desk_cli.specs.Words.{file_asked, lines_asked, placed, report_asked, show_asked, table_asked};
ghost use Rattle.desk_cli.specs.Words.{IsReportLine, IsExportLine, IsImportLine, IsCommandLine, IsLinesLine};
ghost use Rattle.desk_cli.specs.Words.{has_sheet_words, lines_in, repeated_rule, rows_import_in, sheet_import_in};
ghost use Rattle.word_core.specs.Forms.{shown};
ghost use Rattle.desk_cli.specs.Words.{IsListRule, IsReportRule, IsShowLine, optional_word_rule, show_in};
ghost use Rattle.desk_cli.specs.Words.{has_levels, has_list_words, low_list_in, shown_in};
ghost use Rattle.desk_cli.specs.Words.{guide_in, IsHelpLine, IsTopicRule};
ghost use Rattle.desk_cli.specs.Words.{day_in, days_in, history_by, listed_by, low_in};
ghost use Rattle.list_words.specs.Lists.{listed_of};
ghost use Rattle.desk_wire.specs.Documents.{document_named};
ghost use Rattle.table_store.specs.Named.{table_named};
ghost use Rattle.desk_cli.specs.Words.{loose_in, number_up_to, reading_by, report_in, unchanged_in};
ghost use Rattle.desk_cli.specs.Words.{dump_in, export_in, migrate_in, import_in, count_in, serve_in, desk_task_met};
ghost use Rattle.desk_cli.specs.Words.{desk_task_of, names_in, run_in, subject_by, subject_of};
ghost use Rattle.desk_cli.specs.Words.{given_in, rows_in, AsksFor, Tells, Parses};
ghost use Rattle.desk_cli.specs.Words.{asks_run, asks_help, asks_version, run_on};
ghost use Rattle.desk_cli.specs.Words.{run_with, is_path, Answers, Runs, RunsOn, HelpsBy};

use crate::at_words::{
    Asked, at_task, file_asked, is_at, lines_asked, report_asked, show_asked, table_asked,
    tell_port_alone,
};
use crate::sheet_words::{kind_form, sheet_of};
use crate::task::{LookAt, ReportOf, RowsFile, RunWords, ServeWords, SheetFile, Task};
use clap::error::ErrorKind;
use clap::{Arg, ArgAction, ArgMatches, Command, Error};
use desk_wire::{Document, FileReading, ImportKind, import_kind_named, number_in};
use list_core::Days;
use list_words::{ListOf, list_called};
use part_core::{Day, Form};
use report_core::{ReportName, report_named};
use std::alloc::{AllocError, Global};
use std::convert::AsStr;
use table_store::{TableName, table_named};

/// The version of the program, and the kit's line with which it is proved, as `rt version` prints it.
const VERSION: &str = "0.4 (rattle-kit-13f logic dac8208d650f15bf)";

const RUN_EXAMPLE: &str = "Example: invdesk run --db workshop.db < requests";

const REPORT_EXAMPLE: &str = "Examples:
  invdesk report --db workshop.db ledger 2
  invdesk report --db workshop.db --names --csv stock Screw > screws.csv";

const EXPORT_EXAMPLE: &str = "Example: invdesk export --db workshop.db items";

const DUMP_EXAMPLE: &str = "Example: invdesk dump --db workshop.db > workshop.sql";

const SHOW_EXAMPLE: &str = "Examples:
  invdesk show --db workshop.db stock --low 20
  invdesk show --db workshop.db low --levels levels.csv
  invdesk show --db workshop.db at Store
  invdesk show --db workshop.db trace-forward L22
  invdesk show --db workshop.db --csv count-sheet > sheet.csv
  invdesk show --db workshop.db history Screw --from 2026-05-01";

const MIGRATE_EXAMPLE: &str = "Example: invdesk migrate --db workshop.db";

const IMPORT_EXAMPLE: &str = "Examples:
  invdesk import --db workshop.db --kind receipts --document D7 --day 2026-05-02 delivery.csv
  invdesk import --db workshop.db --kind add_part --document P1 --day 2026-05-02 parts.csv
  invdesk import --db workshop.db --kind add_line --document board-1 --day 2026-05-02 \
    --set assembly=Board --column component=Value --column quantity=Qty bom.csv";

const LINES_EXAMPLE: &str =
    "Example: invdesk lines --kind found --document S1 --day 2026-05-02 stock.csv";

const SERVE_EXAMPLE: &str = "Example: invdesk serve --db workshop.db --port 8080";

const STOP_EXAMPLE: &str = "Example: invdesk stop --at 8080";

/// The names of the reports.
const REPORTS: [&str; 6] = [
    "ledger",
    "stock",
    "where_used",
    "history",
    "content",
    "shortage",
];

/// The names of the tables.
const TABLES: [&str; 14] = [
    "meta",
    "categories",
    "locations",
    "parts",
    "lines",
    "substitutes",
    "items",
    "history",
    "orders",
    "order_lines",
    "builds",
    "allocations",
    "kept",
    "spent",
];

/// The names of the lists.
const LISTS: [&str; 14] = [
    "stock",
    "at",
    "part",
    "item",
    "orders",
    "builds",
    "find",
    "shortages",
    "trace-forward",
    "trace-back",
    "count-sheet",
    "receipt-sheet",
    "history",
    "low",
];

/// The names of the kinds of files: receipts, counts, and each command but those two's.
const KINDS: [&str; 43] = [
    "receipts",
    "counts",
    "add_category",
    "add_location",
    "add_part",
    "retire_part",
    "add_line",
    "drop_line",
    "add_substitute",
    "drop_substitute",
    "found",
    "add",
    "remove",
    "transfer",
    "split",
    "merge",
    "serialise",
    "set_status",
    "install",
    "uninstall",
    "disassemble",
    "reinstate",
    "order",
    "order_line",
    "issue_order",
    "allocate_sale",
    "ship",
    "return_item",
    "close_order",
    "cancel_order",
    "build",
    "issue_build",
    "hold_build",
    "cancel_build",
    "outputs",
    "complete_output",
    "cancel_output",
    "scrap_output",
    "allocate_build",
    "auto_allocate",
    "release",
    "complete_build",
    "consume",
];

/// The topics of help: the names of the guide's entries, which `tools/make_guide.py` looks at.
const TOPICS: [&str; 92] = [
    "help",
    "commands",
    "add_category",
    "add_location",
    "add_part",
    "retire_part",
    "add_line",
    "drop_line",
    "add_substitute",
    "drop_substitute",
    "found",
    "add",
    "remove",
    "count",
    "transfer",
    "split",
    "merge",
    "serialise",
    "set_status",
    "install",
    "uninstall",
    "disassemble",
    "reinstate",
    "order",
    "order_line",
    "issue_order",
    "receive",
    "allocate_sale",
    "ship",
    "return_item",
    "close_order",
    "cancel_order",
    "build",
    "issue_build",
    "hold_build",
    "cancel_build",
    "outputs",
    "complete_output",
    "cancel_output",
    "scrap_output",
    "allocate_build",
    "auto_allocate",
    "complete_build",
    "consume",
    "release",
    "flags",
    "refusals",
    "KeyTaken",
    "NoSuch",
    "BadNumber",
    "NameTaken",
    "WrongFlag",
    "Retired",
    "WrongState",
    "Mismatch",
    "OpenOutputs",
    "InUse",
    "Cycle",
    "SelfInside",
    "Unfit",
    "NotLoose",
    "Serialised",
    "NotSerialised",
    "HasContent",
    "Unavailable",
    "Short",
    "Allocated",
    "OverNeed",
    "SerialCount",
    "SerialTaken",
    "TooDeep",
    "TooLarge",
    "Full",
    "faults",
    "TooLong",
    "NotJson",
    "NotObject",
    "NoField",
    "WrongType",
    "UnknownCommand",
    "UnknownField",
    "BadKey",
    "BadDay",
    "BadText",
    "BadSerials",
    "BadWord",
    "NoName",
    "Ambiguous",
    "Csv",
    "Header",
    "Changed",
    "mistakes",
];

/// What help says of requests that get keys.
const JOURNAL: &str = "Each request without a key gets one, so that its answer is kept";

/// The same of a run.
const RUN_JOURNAL: &str =
    "Each request without a key gets one, so that its answer is kept; at a terminal it always does";

/// What help says of a file that is made.
const MADE_FILE: &str = "The file that keeps the workshop; it is made where there is none";

/// The same of one that is only looked at, or brought along.
const KEPT_FILE: &str = "The file that keeps the workshop";

/// The option that names the file.
fn file<'a>(alloc: Global, help: &'a str) -> Arg<'a>
    ensures rule { rule_of result ≡ file_rule }
    ensures local { result.global ≡ false }
{
    Arg::new(alloc, "db")
        .long("db")
        .value_name("FILE")
        .help(help)
        .action(ArgAction::Set)
}

/// A flag.
fn flag<'a>(alloc: Global, id: &'a str, help: &'a str) -> Arg<'a>
    ensures rule { rule_of result ≡ flag_rule id.now }
    ensures local { result.global ≡ false }
{
    Arg::new(alloc, id)
        .long(id)
        .help(help)
        .action(ArgAction::SetTrue)
}

/// The flag that lets rows be named.
fn names_flag<'a>(alloc: Global) -> Arg<'a>
    ensures rule { rule_of result ≡ names_rule }
    ensures local { result.global ≡ false }
{
    flag(
        alloc,
        "names",
        "Rows may be named in the place of their numbers",
    )
}

/// The flag that lets requests get keys.
fn journal_flag<'a>(alloc: Global, help: &'a str) -> Arg<'a>
    ensures rule { rule_of result ≡ journal_rule }
    ensures local { result.global ≡ false }
{
    flag(alloc, "journal", help)
}

/// The flag that asks why something isn't done.
fn explain_flag<'a>(alloc: Global) -> Arg<'a>
    ensures rule { rule_of result ≡ flag_rule (codes "explain") }
    ensures local { result.global ≡ false }
{
    flag(
        alloc,
        "explain",
        "Says on the standard error why something is refused or faulty; at a terminal it always does",
    )
}

/// A word that may be left out.
fn optional_word<'a>(alloc: Global, id: &'a str, name: &'a str) -> Arg<'a>
    ensures rule { rule_of result ≡ optional_word_rule id.now }
    ensures local { result.global ≡ false }
{
    Arg::new(alloc, id).value_name(name).action(ArgAction::Set)
}

/// A word that has to be there.
fn word<'a>(alloc: Global, id: &'a str, name: &'a str) -> Arg<'a>
    ensures rule { rule_of result ≡ word_rule id.now }
    ensures local { result.global ≡ false }
{
    Arg::new(alloc, id)
        .value_name(name)
        .required(true)
        .action(ArgAction::Set)
}

/// An option that has to be there.
fn option<'a>(alloc: Global, id: &'a str, name: &'a str) -> Arg<'a>
    ensures rule { rule_of result ≡ option_rule id.now }
    ensures local { result.global ≡ false }
{
    word(alloc, id, name).long(id)
}

/// An option that may be left out.
fn optional<'a>(alloc: Global, id: &'a str, name: &'a str) -> Arg<'a>
    ensures rule { rule_of result ≡ optional_rule id.now }
    ensures local { result.global ≡ false }
{
    Arg::new(alloc, id)
        .long(id)
        .value_name(name)
        .action(ArgAction::Set)
}

/// The option that names the port of a service, in the place of a file.
fn at_option<'a>(alloc: Global) -> Arg<'a>
    ensures rule { rule_of result ≡ optional_rule (codes "at") }
    ensures local { result.global ≡ false }
{
    optional(alloc, "at", "PORT").help(
        "In the place of --db: the port at which 'serve --page' has the file open",
    )
}

/// The option that names the file of the token that the service is shown.
fn token_option<'a>(alloc: Global) -> Arg<'a>
    ensures rule { rule_of result ≡ optional_rule (codes "token") }
    ensures local { result.global ≡ false }
{
    optional(alloc, "token", "FILE").help(
        "With --at: the file with the token that the service asks for",
    )
}

/// A command with the options that say where the books are.
fn with_place<'a>(
    alloc: Global,
    command: Command<'a>,
    help: &'a str,
) -> Result<Command<'a>, AllocError>
    ensures { IfOk result (λ placed. app_of placed ≡ with_place (app_of command.entry)) }
{
    command
        .arg(file(alloc, help))?
        .arg(at_option(alloc))?
        .arg(token_option(alloc))
}

fn run_command<'a>(alloc: Global) -> Result<Command<'a>, AllocError>
    ensures { IfOk result (λ command. app_of command ≡ run_line) }
{
    let command = Command::new(alloc, "run")
        .about("Answers each line of the standard input")
        .after_help(RUN_EXAMPLE);
    with_place(alloc, command, MADE_FILE)?
        .arg(names_flag(alloc))?
        .arg(journal_flag(alloc, RUN_JOURNAL))?
        .arg(flag(
            alloc,
            "stop",
            "Ends at the first line that is refused or faulty",
        ))?
        .arg(flag(
            alloc,
            "check",
            "Reads all lines before any is run, and runs none where one is faulty",
        ))?
        .arg(explain_flag(alloc))
}

/// The word that says which report it is.
fn report_word<'a>(alloc: Global) -> Arg<'a>
    ensures rule { IsReportRule (rule_of result) }
    ensures local { result.global ≡ false }
{
    word(alloc, "name", "NAME")
        .value_parser(REPORTS.as_slice())
        .help("Of a part; history and content are of an item, shortage is of a build")
}

fn report_command<'a>(alloc: Global) -> Result<Command<'a>, AllocError>
    ensures { IfOk result (λ command. IsReportLine (app_of command)) }
{
    let number = word(alloc, "number", "NUMBER").help(
        "The number of the part, the item or the build, or with --names what it is called",
    );
    let command = Command::new(alloc, "report")
        .about("Prints a report")
        .after_help(REPORT_EXAMPLE);
    with_place(alloc, command, KEPT_FILE)?
        .arg(names_flag(alloc))?
        .arg(flag(
            alloc,
            "csv",
            "For a spreadsheet: comma-separated values with a header, with names and ways",
        ))?
        .arg(report_word(alloc))?
        .arg(number)
}

fn export_command<'a>(alloc: Global) -> Result<Command<'a>, AllocError>
    ensures { IfOk result (λ command. IsExportLine (app_of command)) }
{
    let table = word(alloc, "table", "TABLE")
        .value_parser(TABLES.as_slice())
        .help("The name of the table");
    let command = Command::new(alloc, "export")
        .about("Prints a table as comma-separated values")
        .after_help(EXPORT_EXAMPLE);
    with_place(alloc, command, KEPT_FILE)?.arg(table)
}

fn dump_command<'a>(alloc: Global) -> Result<Command<'a>, AllocError>
    ensures { IfOk result (λ command. app_of command ≡ dump_line) }
{
    let command = Command::new(alloc, "dump")
        .about("Prints all tables as SQL, which sqlite3 makes a file of again")
        .after_help(DUMP_EXAMPLE);
    with_place(alloc, command, KEPT_FILE)
}

/// The word that says which list it is.
fn list_word<'a>(alloc: Global) -> Arg<'a>
    ensures rule { IsListRule (rule_of result) }
    ensures local { result.global ≡ false }
{
    word(alloc, "list", "LIST")
        .value_parser(LISTS.as_slice())
        .help(
            "Which list; at, part, item, find, trace-forward and trace-back take a word, and count-sheet, \
            receipt-sheet and history may take one",
        )
}

fn show_command<'a>(alloc: Global) -> Result<Command<'a>, AllocError>
    ensures { IfOk result (λ command. IsShowLine (app_of command)) }
{
    let low = optional(alloc, "low", "N").help("Of stock: those parts of which less is free");
    let levels = optional(alloc, "levels", "FILE").help(
        "Of low: comma-separated values of columns part and level; those parts are listed of which less is free",
    );
    let from = optional(alloc, "from", "DAY").help("Of history: from this day on, YYYY-MM-DD");
    let to = optional(alloc, "to", "DAY").help("Of history: up to this day, and with it");
    let of = optional_word(alloc, "of", "WORD").help(
        "The number of a location, a part, an item or an order, or what it is called; of trace-forward a batch, too; \
        of find, what to look for",
    );
    let command = Command::new(alloc, "show")
        .about("Shows a list")
        .after_help(SHOW_EXAMPLE);
    with_place(alloc, command, KEPT_FILE)?
        .arg(flag(alloc, "csv", "As comma-separated values, for a spreadsheet"))?
        .arg(flag(alloc, "open", "Of orders and builds: the open ones alone"))?
        .arg(low)?
        .arg(levels)?
        .arg(from)?
        .arg(to)?
        .arg(list_word(alloc))?
        .arg(of)
}

fn migrate_command<'a>(alloc: Global) -> Result<Command<'a>, AllocError>
    ensures { IfOk result (λ command. app_of command ≡ migrate_line) }
{
    Command::new(alloc, "migrate")
        .about("Brings a file of an earlier version of this program along")
        .after_help(MIGRATE_EXAMPLE)
        .arg(file(alloc, KEPT_FILE).required(true))
}

/// The option that says what the rows of a file are.
fn kind_option<'a>(alloc: Global) -> Arg<'a>
    ensures rule { IsKindRule (rule_of result) }
    ensures local { result.global ≡ false }
{
    option(alloc, "kind", "KIND")
        .value_parser(KINDS.as_slice())
        .help(
            "What its rows are: receipts of order lines, counts of items, or the command of this name",
        )
}

/// An option that may be given several times.
fn repeated<'a>(alloc: Global, id: &'a str, name: &'a str, help: &'a str) -> Arg<'a>
    ensures rule { rule_of result ≡ repeated_rule id.now }
    ensures local { result.global ≡ false }
{
    Arg::new(alloc, id)
        .long(id)
        .value_name(name)
        .help(help)
        .action(ArgAction::Append)
}

/// The option that says which text a member has.
fn set_option<'a>(alloc: Global) -> Arg<'a>
    ensures rule { rule_of result ≡ repeated_rule (codes "set") }
    ensures local { result.global ≡ false }
{
    repeated(
        alloc,
        "set",
        "MEMBER=TEXT",
        "Of a command: each row has this text there; MEMBER is number, key, day or one of its fields",
    )
}

/// The option that says which column a member has.
fn column_option<'a>(alloc: Global) -> Arg<'a>
    ensures rule { rule_of result ≡ repeated_rule (codes "column") }
    ensures local { result.global ≡ false }
{
    repeated(
        alloc,
        "column",
        "MEMBER=NAME",
        "Of a command: the column of this name has it; without this, the one of the member's own name",
    )
}

fn import_command<'a>(alloc: Global) -> Result<Command<'a>, AllocError>
    ensures { IfOk result (λ command. IsImportLine (app_of command)) }
{
    let document = option(alloc, "document", "D").help("The name of the document that it is");
    let day = option(alloc, "day", "DAY").help(
        "The day of its rows, as YYYY-MM-DD; of a command, but of those that tell one",
    );
    let path = word(alloc, "path", "PATH").help("The file of comma-separated values");
    let command = Command::new(alloc, "import")
        .about("Runs each row of a file of comma-separated values")
        .after_help(IMPORT_EXAMPLE);
    with_place(alloc, command, MADE_FILE)?
        .arg(names_flag(alloc))?
        .arg(flag(
            alloc,
            "loose",
            "Columns are taken by their names, and rows without a quantity are left out",
        ))?
        .arg(flag(
            alloc,
            "unchanged",
            "With --loose: runs no row where the books have another number than a sheet says they had",
        ))?
        .arg(explain_flag(alloc))?
        .arg(kind_option(alloc))?
        .arg(document)?
        .arg(day)?
        .arg(set_option(alloc))?
        .arg(column_option(alloc))?
        .arg(flag(
            alloc,
            "stop",
            "Of a command: ends at the first row that is refused or faulty",
        ))?
        .arg(path)
}

fn lines_command<'a>(alloc: Global) -> Result<Command<'a>, AllocError>
    ensures { IfOk result (λ command. IsLinesLine (app_of command)) }
{
    let document = option(alloc, "document", "D").help("The name of the document that it is");
    let day = option(alloc, "day", "DAY").help(
        "The day of its rows, as YYYY-MM-DD, but of those that tell one",
    );
    let path = word(alloc, "path", "PATH").help("The file of comma-separated values");
    Command::new(alloc, "lines")
        .about("Prints the lines that import runs of a file of a command")
        .after_help(LINES_EXAMPLE)
        .arg(kind_option(alloc))?
        .arg(document)?
        .arg(day)?
        .arg(set_option(alloc))?
        .arg(column_option(alloc))?
        .arg(path)
}

fn serve_command<'a>(alloc: Global) -> Result<Command<'a>, AllocError>
    ensures { IfOk result (λ command. app_of command ≡ serve_line) }
{
    let port = option(alloc, "port", "P").help("The port of the loopback, 1 to 65535");
    let count = optional(alloc, "count", "N").help(
        "How many connections, 1 to 1000000; without it, until it is stopped",
    );
    let token = optional(alloc, "token", "FILE").help(
        "The file with the token that clients have to show; without it, any program may ask",
    );
    Command::new(alloc, "serve")
        .about("Answers requests over HTTP, one a connection")
        .after_help(SERVE_EXAMPLE)
        .arg(file(alloc, MADE_FILE))?
        .arg(names_flag(alloc))?
        .arg(journal_flag(alloc, JOURNAL))?
        .arg(flag(alloc, "page", "A page to look at is served too"))?
        .arg(port)?
        .arg(count)?
        .arg(token)
}

fn stop_command<'a>(alloc: Global) -> Result<Command<'a>, AllocError>
    ensures { IfOk result (λ command. app_of command ≡ stop_line) }
{
    let port = option(alloc, "at", "PORT").help("The port of the service, 1 to 65535");
    Command::new(alloc, "stop")
        .about("Stops a service, which closes its file")
        .after_help(STOP_EXAMPLE)
        .arg(port)?
        .arg(token_option(alloc))
}

/// The word that says on what help is asked for.
fn topic_word<'a>(alloc: Global) -> Arg<'a>
    ensures rule { IsTopicRule (rule_of result) }
    ensures local { result.global ≡ false }
{
    optional_word(alloc, "topic", "TOPIC")
        .value_parser(TOPICS.as_slice())
        .help("On what; without it, on what a line can ask for")
}

fn help_command<'a>(alloc: Global) -> Result<Command<'a>, AllocError>
    ensures { IfOk result (λ command. IsHelpLine (app_of command)) }
{
    Command::new(alloc, "help")
        .about("Prints what a line can ask for, or why one is refused or faulty")
        .arg(topic_word(alloc))
}

fn command<'a>(alloc: Global) -> Result<Command<'a>, AllocError>
    ensures { IfOk result (λ command. IsCommandLine (app_of command)) }
{
    Command::new(alloc, "invdesk")
        .about("Keeps an inventory: requests in, one line of JSON each, and answers out")
        .disable_help_subcommand(true)
        .version(VERSION)
        .subcommand(run_command(alloc)?)?
        .subcommand(report_command(alloc)?)?
        .subcommand(export_command(alloc)?)?
        .subcommand(dump_command(alloc)?)?
        .subcommand(show_command(alloc)?)?
        .subcommand(migrate_command(alloc)?)?
        .subcommand(import_command(alloc)?)?
        .subcommand(lines_command(alloc)?)?
        .subcommand(serve_command(alloc)?)?
        .subcommand(stop_command(alloc)?)?
        .subcommand(help_command(alloc)?)
}

/// The number from 1 to so many that 1 to 19 digits are.
pub fn number_up_to(most: u64, text: &str) -> Option<u64>
    ensures value { result ≡ number_up_to most text.now }
    ensures bound { IfSome result (λ number. number ≤ most) }
{
    let number = number_in(text)?;
    if 0 < number && number <= most {
        Some(number)
    } else {
        None
    }
}

/// The first value of that word or option.
pub fn given<'a>(matches: &ArgMatches<'a>, id: &str) -> Option<&'a str>
    ensures { option_map (λ text. text.now) result ≡ given_in id.now matches.now }
{
    matches.get_str(id)
}

fn report_name(matches: &ArgMatches<'_>) -> Option<ReportName>
    ensures { result ≡ option_and_then report_named (given_in (codes "name") matches.now) }
{
    report_named(given(matches, "name")?)
}

/// Whether the flag was given.
pub fn has_flag(matches: &ArgMatches<'_>, id: &str) -> bool
    ensures { result ≡ is_given (given_in id.now matches.now) }
{
    match given(matches, id) {
        Some(text) => text == "true",
        None => false,
    }
}

/// What the report is of: where rows may be named any word, else a number alone.
fn report_of<'a>(matches: &ArgMatches<'a>) -> Option<ReportOf<'a>>
    ensures { option_map subject_of result
        ≡ subject_by (names_in (rows_in matches.now)) (given_in (codes "number") matches.now) }
{
    let word = given(matches, "number")?;
    if has_flag(matches, "names") {
        return Some(ReportOf::Word(word));
    }
    Some(ReportOf::Number(number_in(word)?))
}

fn export_table(matches: &ArgMatches<'_>) -> Option<TableName>
    ensures { result ≡ option_and_then table_named (given_in (codes "table") matches.now) }
{
    table_named(given(matches, "table")?)
}

pub fn import_kind(matches: &ArgMatches<'_>) -> Option<ImportKind>
    ensures { result ≡ option_and_then import_kind_named (given_in (codes "kind") matches.now) }
{
    import_kind_named(given(matches, "kind")?)
}

pub fn import_day(matches: &ArgMatches<'_>) -> Option<Day>
    ensures { result ≡ option_and_then day_of (given_in (codes "day") matches.now) }
{
    Day::parse(given(matches, "day")?)
}

pub fn import_document(
    alloc: Global,
    matches: &ArgMatches<'_>,
) -> Result<Option<Document>, AllocError>
    ensures { IfOk result (λ document.
        document ≡ option_and_then document_named (given_in (codes "document") matches.now)) }
{
    match given(matches, "document") {
        Some(name) => Ok(Document::new(String::from_str(alloc, name)?)),
        None => Ok(None),
    }
}

fn serve_port(matches: &ArgMatches<'_>) -> Option<u16>
    ensures { result ≡ option_and_then (number_up_to 65535) (given_in (codes "port") matches.now) }
{
    let port = number_up_to(65_535, given(matches, "port")?)?;
    Some(port as u16)
}

/// How many connections, if it is said; none where what is said is no such number.
fn serve_count(matches: &ArgMatches<'_>) -> Option<Option<u64>>
    ensures { result ≡ count_in (given_in (codes "count") matches.now) }
{
    match given(matches, "count") {
        None => Some(None),
        Some(text) => match number_up_to(1_000_000, text) {
            None => None,
            Some(count) => Some(Some(count)),
        },
    }
}

/// The run that is asked for.
fn run_task<'a>(matches: &ArgMatches<'a>) -> Task<'a>
    ensures { desk_task_of result ≡ Some (run_in (rows_in matches.now)) }
{
    let options = RunWords {
        names: has_flag(matches, "names"),
        stop: has_flag(matches, "stop"),
        check: has_flag(matches, "check"),
        explain: has_flag(matches, "explain"),
        journal: has_flag(matches, "journal"),
    };
    Task::Run {
        file: given(matches, "db"),
        options,
    }
}

/// The report that is asked for, if the words name one: its second form is a list.
#[tactic(auto, unfolding(crate::specs::Words::report_in))]
fn report_task<'a>(matches: &ArgMatches<'a>) -> Option<Task<'a>>
    ensures { AsksFor (report_in (rows_in matches.now)) result }
{
    let file = given(matches, "db")?;
    let name = report_name(matches)?;
    let of = report_of(matches)?;
    let word = given(matches, "number")?;
    if has_flag(matches, "csv") {
        let list = ListOf::Report(name, word);
        let look = LookAt::Show { list, csv: true };
        return Some(Task::Look { file, look });
    }
    let look = LookAt::Report { name, of };
    Some(Task::Look { file, look })
}

/// The export that is asked for, if the words name one.
#[tactic(auto, unfolding(crate::specs::Words::export_in))]
fn export_task<'a>(matches: &ArgMatches<'a>) -> Option<Task<'a>>
    ensures { AsksFor (export_in (rows_in matches.now)) result }
{
    let file = given(matches, "db")?;
    let table = export_table(matches)?;
    let look = LookAt::Export(table);
    Some(Task::Look { file, look })
}

/// The dump that is asked for, if the words name a file.
#[tactic(auto, unfolding(crate::specs::Words::dump_in))]
fn dump_task<'a>(matches: &ArgMatches<'a>) -> Option<Task<'a>>
    ensures { AsksFor (dump_in (rows_in matches.now)) result }
{
    let file = given(matches, "db")?;
    Some(Task::Look {
        file,
        look: LookAt::Dump,
    })
}

/// The amount below which a part is low, if it is said; none where what is said is no number.
pub fn low_amount(low: Option<&str>) -> Option<Option<u64>>
    ensures { result ≡ low_in (option_map (λ t. t.now) low.entry) }
{
    match low {
        None => Some(None),
        Some(text) => match number_in(text) {
            None => None,
            Some(amount) => Some(Some(amount)),
        },
    }
}

/// The text of a day, if it is said; none where what is said is no day.
fn said_day(text: Option<&str>) -> Option<Option<&str>>
    ensures { option_map (option_map (λ t. t.now)) result
        ≡ day_in (option_map (λ t. t.now) text.entry) }
{
    match text {
        None => Some(None),
        Some(text) => match Day::parse(text) {
            None => None,
            Some(_) => Some(Some(text)),
        },
    }
}

/// The days from the one to the other, where they are said; none where what is said is no day.
fn said_days<'a>(first: Option<&'a str>, last: Option<&'a str>) -> Option<Days<'a>>
    ensures { option_map span_of result ≡ days_in (option_map (λ t. t.now) first.entry)
        (option_map (λ t. t.now) last.entry) }
{
    let first = said_day(first)?;
    let last = said_day(last)?;
    Some(Days { first, last })
}

/// The history of these days, if no other word goes with it than one that says of what it is.
fn history_list<'a>(
    of: Option<&'a str>,
    low: Option<u64>,
    only_open: bool,
    days: Option<Days<'a>>,
) -> Option<ListOf<'a>>
    ensures { option_map listed_of result ≡ history_by (option_map (λ t. t.now) of.entry)
        low only_open (option_map span_of days.entry) }
{
    if low.is_some() || only_open {
        return None;
    }
    Some(ListOf::History(of, days?))
}

/// The list of that name, if these words and days go with it.
fn list_by_days<'a>(
    name: &str,
    of: Option<&'a str>,
    low: Option<u64>,
    only_open: bool,
    first: Option<&'a str>,
    last: Option<&'a str>,
) -> Option<ListOf<'a>>
    ensures { option_map listed_of result ≡ listed_by name.now (option_map (λ t. t.now) of.entry)
        low only_open (option_map (λ t. t.now) first.entry) (option_map (λ t. t.now) last.entry) }
{
    if name == "history" {
        return history_list(of, low, only_open, said_days(first, last));
    }
    if first.is_some() || last.is_some() {
        return None;
    }
    list_called(name, of, low, only_open)
}

/// The list that is asked for, if the words name one.
#[tactic(auto, unfolding(crate::specs::Words::show_in))]
fn show_task<'a>(matches: &ArgMatches<'a>) -> Option<Task<'a>>
    ensures { AsksFor (show_in (rows_in matches.now)) result }
{
    let file = given(matches, "db")?;
    let name = given(matches, "list")?;
    let low = low_amount(given(matches, "low"))?;
    let list = list_by_days(
        name,
        given(matches, "of"),
        low,
        has_flag(matches, "open"),
        given(matches, "from"),
        given(matches, "to"),
    )?;
    let csv = has_flag(matches, "csv");
    let look = LookAt::Show { list, csv };
    Some(Task::Look { file, look })
}

/// Whether something is said of a list beside its name and a file of levels.
fn has_list_words(matches: &ArgMatches<'_>) -> bool
    ensures { result ≡ has_list_words (rows_in matches.now) }
{
    given(matches, "of").is_some()
        || given(matches, "low").is_some()
        || has_flag(matches, "open")
        || given(matches, "from").is_some()
        || given(matches, "to").is_some()
}

/// Whether a file of levels is named.
pub fn has_levels(matches: &ArgMatches<'_>) -> bool
    ensures { result ≡ has_levels (rows_in matches.now) }
{
    given(matches, "levels").is_some()
}

/// The list of what has less free than its level, if the words name it with the file of levels, and nothing else goes with it.
#[tactic(auto, unfolding(crate::specs::Words::low_list_in))]
fn low_task<'a>(matches: &ArgMatches<'a>) -> Option<Task<'a>>
    ensures { AsksFor (low_list_in (rows_in matches.now)) result }
{
    let file = given(matches, "db")?;
    let name = given(matches, "list")?;
    let levels = given(matches, "levels")?;
    if name != "low" || has_list_words(matches) {
        return None;
    }
    let csv = has_flag(matches, "csv");
    let look = LookAt::Low { levels, csv };
    Some(Task::Look { file, look })
}

/// The list that is asked for, by whether a file of levels is named.
fn shown_task<'a>(matches: &ArgMatches<'a>) -> Option<Task<'a>>
    ensures { AsksFor (shown_in (rows_in matches.now)) result }
{
    if has_levels(matches) {
        return low_task(matches);
    }
    show_task(matches)
}

/// The migration that is asked for, if the words name a file.
#[tactic(auto, unfolding(crate::specs::Words::migrate_in))]
fn migrate_task<'a>(matches: &ArgMatches<'a>) -> Option<Task<'a>>
    ensures { AsksFor (migrate_in (rows_in matches.now)) result }
{
    let file = given(matches, "db")?;
    Some(Task::Migrate(file))
}

/// Whether the words have what goes with the name of a command alone.
pub fn has_sheet_words(matches: &ArgMatches<'_>) -> bool
    ensures { result ≡ has_sheet_words (rows_in matches.now) }
{
    given(matches, "set").is_some()
        || given(matches, "column").is_some()
        || has_flag(matches, "stop")
}

/// How a file is read, if the words can be said together.
fn reading(matches: &ArgMatches<'_>) -> Option<FileReading>
    ensures { result ≡ reading_by (loose_in (rows_in matches.now)) (unchanged_in (rows_in matches.now)) }
{
    match (has_flag(matches, "loose"), has_flag(matches, "unchanged")) {
        (false, false) => Some(FileReading::Strict),
        (true, false) => Some(FileReading::Loose),
        (true, true) => Some(FileReading::Unchanged),
        (false, true) => None,
    }
}

/// The import of receipts or counts of that document that is asked for, if the words name one.
#[tactic(auto, unfolding(crate::specs::Words::rows_import_in))]
fn import_of<'a>(matches: &ArgMatches<'a>, document: Option<Document>) -> Option<Task<'a>>
    requires { document ≡ option_and_then document_named (given_in (codes "document") matches.now) }
    ensures { AsksFor (rows_import_in (rows_in matches.now)) result }
{
    let file = given(matches, "db")?;
    let kind = import_kind(matches)?;
    let document = document?;
    let day = import_day(matches)?;
    let path = given(matches, "path")?;
    let reading = reading(matches)?;
    if has_sheet_words(matches) {
        return None;
    }
    let rows = RowsFile {
        kind,
        document,
        day,
        path,
        names: has_flag(matches, "names"),
        reading,
        explain: has_flag(matches, "explain"),
    };
    Some(Task::Import { file, rows })
}

/// The import of a file of records of that form's command that is asked for, if the words tell of one.
#[tactic(auto, unfolding(crate::specs::Words::sheet_import_in))]
fn sheet_task<'a>(
    alloc: Global,
    form: &'static Form,
    matches: &ArgMatches<'a>,
) -> Result<Option<Task<'a>>, AllocError>
    ensures { IfOk result (AsksFor (sheet_import_in (shown form.now) (rows_in matches.now))) }
{
    let Some(sheet) = sheet_of(alloc, form, matches)? else {
        return Ok(None);
    };
    let Some(file) = given(matches, "db") else {
        return Ok(None);
    };
    let Some(path) = given(matches, "path") else {
        return Ok(None);
    };
    if has_flag(matches, "unchanged") {
        return Ok(None);
    }
    let lines = SheetFile {
        sheet,
        path,
        stop: has_flag(matches, "stop"),
        explain: has_flag(matches, "explain"),
    };
    Ok(Some(Task::Sheet { file, lines }))
}

fn import_task<'a>(alloc: Global, matches: &ArgMatches<'a>) -> Result<Option<Task<'a>>, AllocError>
    ensures { IfOk result (AsksFor (import_in (rows_in matches.now))) }
{
    if let Some(form) = kind_form(matches) {
        return sheet_task(alloc, form, matches);
    }
    let document = import_document(alloc, matches)?;
    Ok(import_of(matches, document))
}

/// The lines that are asked for, if the words tell of a file of a command.
#[tactic(auto, unfolding(crate::specs::Words::lines_in))]
fn lines_task<'a>(alloc: Global, matches: &ArgMatches<'a>) -> Result<Option<Task<'a>>, AllocError>
    ensures { IfOk result (AsksFor (lines_in (rows_in matches.now))) }
{
    let Some(form) = kind_form(matches) else {
        return Ok(None);
    };
    let Some(sheet) = sheet_of(alloc, form, matches)? else {
        return Ok(None);
    };
    let Some(path) = given(matches, "path") else {
        return Ok(None);
    };
    Ok(Some(Task::Lines { sheet, path }))
}

/// The serving that is asked for, if the words name a port, and no count or one that it may have.
#[tactic(auto, unfolding(crate::specs::Words::serve_in))]
fn serve_task<'a>(matches: &ArgMatches<'a>) -> Option<Task<'a>>
    ensures { AsksFor (serve_in (rows_in matches.now)) result }
{
    let file = given(matches, "db");
    let port = serve_port(matches)?;
    let count = serve_count(matches)?;
    let token = given(matches, "token");
    let options = ServeWords {
        port,
        count,
        token,
        names: has_flag(matches, "names"),
        page: has_flag(matches, "page"),
        journal: has_flag(matches, "journal"),
    };
    Some(Task::Serve { file, options })
}

/// The help that is asked for: where the words name no topic, on what a line can ask for.
fn guide_task<'a>(matches: &ArgMatches<'a>) -> Task<'a>
    ensures { desk_task_of result ≡ Some (guide_in (rows_in matches.now)) }
{
    match given(matches, "topic") {
        Some(topic) => Task::Guide(topic),
        None => Task::Guide("help"),
    }
}

/// The run that is asked for, of a desk or a service.
fn run_words<'a>(matches: &ArgMatches<'a>) -> Option<Task<'a>>
    ensures { AsksFor (placed (rows_in matches.now) (Some (run_in (rows_in matches.now)))
        (lines_asked (rows_in matches.now))) result }
{
    if is_at(matches) {
        return at_task(matches, lines_asked(matches));
    }
    Some(run_task(matches))
}

/// The report that is asked for, of a desk or a service.
fn report_words<'a>(matches: &ArgMatches<'a>) -> Option<Task<'a>>
    ensures { AsksFor (placed (rows_in matches.now) (report_in (rows_in matches.now))
        (report_asked (rows_in matches.now))) result }
{
    if is_at(matches) {
        return at_task(matches, report_asked(matches));
    }
    report_task(matches)
}

/// The table that is asked for, of a desk or a service.
fn export_words<'a>(matches: &ArgMatches<'a>) -> Option<Task<'a>>
    ensures { AsksFor (placed (rows_in matches.now) (export_in (rows_in matches.now))
        (table_asked (rows_in matches.now))) result }
{
    if is_at(matches) {
        return at_task(matches, table_asked(matches));
    }
    export_task(matches)
}

/// The dump that is asked for, of a desk or a service.
fn dump_words<'a>(matches: &ArgMatches<'a>) -> Option<Task<'a>>
    ensures { AsksFor (placed (rows_in matches.now) (dump_in (rows_in matches.now))
        (Some ats.dump)) result }
{
    if is_at(matches) {
        return at_task(matches, Some(Asked::Dump));
    }
    dump_task(matches)
}

/// The list that is asked for, of a desk or a service.
fn show_words<'a>(matches: &ArgMatches<'a>) -> Option<Task<'a>>
    ensures { AsksFor (placed (rows_in matches.now) (shown_in (rows_in matches.now))
        (show_asked (rows_in matches.now))) result }
{
    if is_at(matches) {
        return at_task(matches, show_asked(matches));
    }
    shown_task(matches)
}

/// The import that is asked for, by a desk or a service.
fn import_words<'a>(alloc: Global, matches: &ArgMatches<'a>) -> Result<Option<Task<'a>>, AllocError>
    ensures { IfOk result (AsksFor (placed (rows_in matches.now) (import_in (rows_in matches.now))
        (file_asked (rows_in matches.now)))) }
{
    if is_at(matches) {
        let asked = file_asked(alloc, matches)?;
        return Ok(at_task(matches, asked));
    }
    import_task(alloc, matches)
}

/// The task that words ask for in which nothing is wrong but, it may be, the form of a value.
fn task_by<'a>(alloc: Global, matches: &ArgMatches<'a>) -> Result<Option<Task<'a>>, AllocError>
    ensures { IfOk result (AsksFor (desk_task_met (subcommand_rows_of matches.now))) }
{
    match matches.subcommand() {
        Some(("report", matches)) => Ok(report_words(matches)),
        Some(("export", matches)) => Ok(export_words(matches)),
        Some(("dump", matches)) => Ok(dump_words(matches)),
        Some(("show", matches)) => Ok(show_words(matches)),
        Some(("migrate", matches)) => Ok(migrate_task(matches)),
        Some(("import", matches)) => import_words(alloc, matches),
        Some(("lines", matches)) => lines_task(alloc, matches),
        Some(("serve", matches)) => Ok(serve_task(matches)),
        Some(("stop", matches)) => Ok(at_task(matches, Some(Asked::Stop))),
        Some(("help", matches)) => Ok(Some(guide_task(matches))),
        Some((_, matches)) => Ok(run_words(matches)),
        None => Ok(Some(Task::Run {
            file: None,
            options: RunWords {
                names: false,
                stop: false,
                check: false,
                explain: false,
                journal: false,
            },
        })),
    }
}

/// What `clap` finds in the words.
fn parse<'a, S: AsStr>(alloc: Global, words: &'a [S]) -> Result<ArgMatches<'a>, Error>
    ensures { Parses (map S.text words.now) result }
{
    let matches = command(alloc)?.try_get_matches_from(words)?;
    Ok(matches)
}

/// What is said of the members of a file's lines.
const SAID_WANTS: &str =
    "MEMBER is number, key, day or a field of the command, and is told once, by --set MEMBER=TEXT or \
    --column MEMBER=NAME";

/// What the values that tell of a file are to be, where that is to be said of a file of no command.
fn file_wants(
    alloc: Global,
    matches: &ArgMatches<'_>,
    of_no_command: &'static str,
) -> Result<&'static str, AllocError> {
    if import_document(alloc, matches)?.is_none() {
        return Ok("D has 1 to 32 letters, digits, dots, underscores and hyphens");
    }
    if import_day(matches).is_none() {
        return Ok("DAY is YYYY-MM-DD, a day of the years 2000 to 2099");
    }
    match kind_form(matches) {
        Some(_) => Ok(SAID_WANTS),
        None => Ok(of_no_command),
    }
}

/// What the values of an import are to be.
fn import_wants(alloc: Global, matches: &ArgMatches<'_>) -> Result<&'static str, AllocError> {
    if has_flag(matches, "unchanged") {
        return Ok("--unchanged goes with --loose, and with receipts or counts");
    }
    file_wants(
        alloc,
        matches,
        "--set, --column and --stop go with the name of a command",
    )
}

/// What the values of a printing of lines are to be.
fn lines_wants(alloc: Global, matches: &ArgMatches<'_>) -> Result<&'static str, AllocError> {
    file_wants(
        alloc,
        matches,
        "KIND is the name of a command: receipts and counts are imported as they stand",
    )
}

/// What the values of a serving are to be.
fn serve_wants(matches: &ArgMatches<'_>) -> &'static str {
    match serve_port(matches) {
        Some(_) => "N is 1 to 1000000",
        None => "P is 1 to 65535",
    }
}

/// What goes with which list.
const SHOW_WANTS: &str =
    "stock takes --low N, where N has 1 to 19 digits; low takes --levels FILE; orders and builds take --open; history takes --from DAY and \
    --to DAY, where DAY is YYYY-MM-DD of the years 2000 to 2099; at, part, item, find, trace-forward and trace-back take a \
    word, count-sheet, receipt-sheet and history may take one, and no other list does";

/// What goes with --at.
const AT_WANTS: &str =
    "PORT is 1 to 65535; --at stands in the place of --db, and --token goes with it; neither --names nor --journal do, since \
    they are said when the service is started, nor --explain, --unchanged, --set and --column, nor the --stop of a file, the \
    --csv of a report, show history and show low; a report is of a number then, which has 1 to 19 digits";

/// What is to be said, where neither a file nor a port is.
const PLACE_WANTS: &str = "--db FILE says where the books are, or --at PORT";

/// Whether the words say where the books are.
fn has_place(matches: &ArgMatches<'_>) -> bool {
    given(matches, "db").is_some() || is_at(matches)
}

/// Whether the words of that name tell what a service takes, so that only a value can be wrong, as with a file.
fn ask_as_of_file(name: &str, matches: &ArgMatches<'_>) -> bool {
    match name {
        "import" => !has_sheet_words(matches) && !has_flag(matches, "unchanged"),
        "show" => {
            !matches!(given(matches, "list"), Some("history" | "low"))
                && !has_levels(matches)
                && given(matches, "from").is_none()
                && given(matches, "to").is_none()
        }
        _ => false,
    }
}

/// What the values are to be where one isn't so, of words that say where the books are.
fn value_wants(alloc: Global, matches: &ArgMatches<'_>) -> Result<&'static str, AllocError> {
    match matches.subcommand() {
        Some(("import", matches)) => import_wants(alloc, matches),
        Some(("lines", matches)) => lines_wants(alloc, matches),
        Some(("serve", matches)) => Ok(serve_wants(matches)),
        Some(("show", _)) => Ok(SHOW_WANTS),
        _ => Ok("NUMBER has 1 to 19 digits"),
    }
}

/// What the values are to be where one isn't so.
fn wants(alloc: Global, matches: &ArgMatches<'_>) -> Result<&'static str, AllocError> {
    match matches.subcommand() {
        Some(("lines" | "serve", _)) | None => value_wants(alloc, matches),
        Some((_, given)) if !has_place(given) => Ok(PLACE_WANTS),
        Some((name, given)) if is_at(given) => {
            if tell_port_alone(given) && ask_as_of_file(name, given) {
                value_wants(alloc, matches)
            } else {
                Ok(AT_WANTS)
            }
        }
        Some(_) => value_wants(alloc, matches),
    }
}

/// The command whose values are told of: that of the word, under the name by which it is called.
fn faulty_command<'a>(alloc: Global, word: Option<&str>) -> Result<Command<'a>, AllocError> {
    match word {
        Some("run") => run_command(alloc)?.bin_name("invdesk run"),
        Some("report") => report_command(alloc)?.bin_name("invdesk report"),
        Some("export") => export_command(alloc)?.bin_name("invdesk export"),
        Some("dump") => dump_command(alloc)?.bin_name("invdesk dump"),
        Some("import") => import_command(alloc)?.bin_name("invdesk import"),
        Some("lines") => lines_command(alloc)?.bin_name("invdesk lines"),
        Some("show") => show_command(alloc)?.bin_name("invdesk show"),
        Some("serve") => serve_command(alloc)?.bin_name("invdesk serve"),
        Some("stop") => stop_command(alloc)?.bin_name("invdesk stop"),
        _ => command(alloc),
    }
}

/// That a value isn't what it is to be, with the usage of its word.
fn wrong_value(alloc: Global, matches: &ArgMatches<'_>) -> Result<Error, AllocError>
    ensures { IfOk result (λ e. kind_of e ≡ ErrorKind.ValueValidation) }
{
    let wanted = wants(alloc, matches)?;
    faulty_command(alloc, matches.subcommand_name())?.error(ErrorKind::ValueValidation, wanted)
}

/// The task that words ask for in which `clap` finds nothing wrong.
fn told_by<'a>(alloc: Global, matches: &ArgMatches<'a>) -> Task<'a>
    ensures { Tells (desk_task_met (subcommand_rows_of matches.now)) result }
{
    match task_by(alloc, matches) {
        Ok(Some(task)) => task,
        Ok(None) => match wrong_value(alloc, matches) {
            Ok(error) => Task::Wrong(error),
            Err(_) => Task::Memory,
        },
        Err(_) => Task::Memory,
    }
}

/// Reads the words, of which the first is the program's name: no more, or `run`, `report`, `export`, `dump`, `show`,
/// `migrate`, `import`, `lines`, `serve`, `stop` or `help` with theirs.
pub fn read_words<'a, S: AsStr>(alloc: Global, words: &'a [S]) -> Task<'a>
    ensures answers { Answers (map S.text words.now) result }
    ensures runs { asks_run (map S.text words.now) ≡ true → Runs result }
    ensures runs_on { (name file : List ℕ) → map S.text words.now ≡ run_on name file
        → RunsOn file result }
    ensures runs_with { (name file : List ℕ) → is_path file ≡ true
        → map S.text words.now ≡ run_with name file → RunsOn file result }
    ensures helps { asks_help (map S.text words.now) ≡ true
        → HelpsBy ErrorKind.DisplayHelp result }
    ensures versions { asks_version (map S.text words.now) ≡ true
        → HelpsBy ErrorKind.DisplayVersion result }
{
    match parse(alloc, words) {
        Ok(matches) => told_by(alloc, &matches),
        Err(e) => match e.kind() {
            ErrorKind::OutOfMemory => Task::Memory,
            ErrorKind::DisplayHelp => Task::Help(e),
            ErrorKind::DisplayVersion => Task::Help(e),
            _ => Task::Wrong(e),
        },
    }
}
