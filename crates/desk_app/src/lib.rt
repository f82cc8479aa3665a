//! What the program does with a desk: lines of requests and of reports, run and answered, files of rows that are imported,
//! why lines and rows aren't done, help and lines that are typed, and the books as a service of HTTP.
//!
//! - `Books`, the trait of what a run asks: a state (`state_in`), whether it is kept or in a group (`are_kept`,
//!   `are_grouping`), why the books failed (`failure_of`), what a crash may leave (`may_leave`) and the reasons that
//!   were told (`reasons_in`). `Desk`, `WatchedDesk`, `CountedBooks`, `ExplainedBooks` and `Shop` are such books; a
//!   shop answers neither Store nor Closed. Before it keeps anything `WatchedDesk` asks its `HeldFile` whether it is in
//!   its place: where it isn't, the group is given up, and a request is decided without a call of the database.
//! - `run_lines`: answers each line, of known bytes or else of some lines (`done`); how it stops is `Runs.Stopped`
//!   (`stopped`), and what was answered is kept (`answered`: `Answered.AnsweredIsKept`). `Lines::new` allows
//!   4,000,000,000 reads.
//! - `run_checked`: tells each fault (`faults`) and leaves the books (`untouched`), or does what `run_lines` does
//!   (`done`).
//! - `run_in_memory`: the same on empty books, without a file (`done`).
//! - `import_file`, `import_sheet`: run the rows of a file, and never end with ReadFailed (`never` of `import_file`),
//!   or what a file of a command asks as a text of lines (`runs` of `import_sheet`).
//! - `lines_are_requests`, `journal_keeps_answers_alone`, `lines_sent_again_end_alike`,
//!   `files_sent_again_change_nothing`, `sheets_sent_again_change_nothing`: laws of lines, of the journal and of what
//!   is sent again. Those of what is sent again say nothing of lines and rows that were refused. None compares whole
//!   runs with the journal and without it, since a line whose own key the journal gave is answered otherwise; those of
//!   the journal speak of fewer than 2^64 answers, which no clause says of a shop.
//! - `BooksService` is the service that books are, with options, which no operation changes, and a tag
//!   (`Services.counted`). Only a Store closes the books.
//! - `close_desk`: where it is Ok, on clean files, the database file holds the state (`alone`: `Closed.KeepAlone`);
//!   else a crash leaves nothing new (`kept`).
//! - `end_of_work`: the same, and where it couldn't be closed the end is `Store` (`told`).
//! - `ask_and_print`, `ask_lines`: print what is to be shown of what any `Asker` hears (`Heard.shown_of`), or a front
//!   of it; each line is sent once, in order (`Asked.RunsAt`).
//!
//! Of a reason it is said how it begins (`Reasons.IsReason`), and that telling it changes nothing of the books. That a
//! near name is told wherever there is one has no clause, nor have the words behind the facts, nor what `WatchedDesk`
//! and `CountedBooks` tell a terminal.
#![tactic(auto)]

mod again;
mod at;
mod books;
mod checked;
mod close;
mod counted;
mod explained;
mod guesses;
mod guide;
mod guide_text;
mod heard;
mod held;
mod import;
mod journal;
mod json_place;
mod lines;
mod list_reply;
mod memory;
mod options;
mod pieces;
mod reasons;
mod run;
mod service;
mod sheet;
mod sheet_reply;
mod typed;
mod undone;
mod watched;
mod whole;

pub use again::{
    files_sent_again_change_nothing, lines_sent_again_end_alike, sheets_sent_again_change_nothing,
    texts_are_lines, texts_run_alike,
};
pub use at::{Asker, ask_and_print, ask_lines};
pub use books::Books;
pub use checked::{explain_faults, run_checked};
pub use close::{close_desk, end_of_work, let_go};
pub use counted::CountedBooks;
pub use explained::ExplainedBooks;
pub use guide::guide_to;
pub use heard::{Shown, Trouble, shown_of};
pub use held::HeldFile;
pub use import::import_file;
pub use journal::{journal_keeps_answers_alone, journal_keys_are_new, journalled};
pub use memory::run_in_memory;
pub use options::{ImportOf, LineOptions, RunOptions};
pub use run::{lines_are_requests, run_lines};
pub use service::{BooksService, tags_tell_books};
pub use sheet::{import_sheet, print_sheet};
pub use typed::TypedLines;
pub use undone::{Place, Why};
pub use watched::{Advice, WatchedDesk};
pub use whole::read_file;
