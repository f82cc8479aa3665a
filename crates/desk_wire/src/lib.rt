//! Requests and reports as lines of JSON, and the lines that are answered; files of comma-separated values as lists of
//! keyed requests, and the report of their run; and files of levels. What a line and a file may say, and which of their
//! faults is told first, `docs/MACHINE.md` has under Lines, Names and Imports.
//!
//! One reader reads every command: it goes over the form of its verb. The reading stands on `serde_json`'s statement of
//! JSON (`Values.parsed`) and `csv`'s of records.
//!
//! - `read_line`: exactly what the line asks, or its first fault; of a line too long 65,537 bytes are enough.
//!   `read_request` is the same where only a request may stand.
//! - `lines_are_commands`, `names_change_little`: laws, that the fields of a form, once read, are always a command, and
//!   that what is read without names is read so with them.
//! - `wrong_field`: the first member that can't be read. A number with a fraction may be spelled otherwise there.
//! - `answer_text`, `refused_text`, `fault_text`, `report_text`: exactly the line that answers.
//! - `import_rows`, `import_unchanged`: the rows of a file of receipts or counts, or its first fault. What is read
//!   strictly is read so loosely too, unless a quote is open at its end (law `loose_reads_strict`); names change only
//!   what a value of a wrong type was (law `names_change_files_little`).
//! - `sheet_text`: the text of lines that a file of any other command is, line n of record n, or its first fault.
//! - `read_levels`: the levels of a file, its parts looked up by the names that it is lent, or its first fault
//!   (`Levels.file_levels`).
#![tactic(auto)]

mod columns;
mod document;
mod fault;
mod field_name;
mod fields;
mod import;
mod json_fault;
mod kind;
mod layout;
mod levels;
mod line_faults;
mod members;
mod number;
mod printed;
mod quotes;
mod read;
mod records;
mod report;
mod row;
mod row_command;
mod row_faults;
mod row_names;
mod row_words;
mod serial_count;
mod serial_list;
mod sheet;
mod sheet_columns;
mod sheet_values;
mod text_ways;
mod texts;
mod told;
mod values;
mod verbs;
mod write;

pub use document::Document;
pub use fault::{FileError, ReadError, Unread, What, WireFault, WrongField};
pub use field_name::FieldName;
pub use import::{
    import_counts, import_receipts, import_rows, import_unchanged, loose_reads_strict,
    names_change_files_little,
};
pub use json_fault::json_stop;
pub use kind::{FileReading, ImportKind, import_kind_named};
pub use levels::{LevelRow, read_levels};
pub use line_faults::wrong_field;
pub use number::number_in;
pub use printed::tell_report_as_text;
pub use read::{Wish, lines_are_commands, names_change_little, read_line, read_request, table_of};
pub use report::{import_report, push_report_line};
pub use row::ImportRow;
pub use row_names::one_row;
pub use row_words::{is_json, row_at_word, words_are_numbers};
pub use sheet::{
    Sheet, keys_tell_records, lines_ask_under_keys, records_have_keys, sheet_text, sheets_are_lines,
};
pub use sheet_columns::{Said, may_lack};
pub use told::Told;
pub use verbs::sheet_form;
pub use write::{answer_text, fault_text, refused_text, report_text};
