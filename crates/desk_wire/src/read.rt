//! A line, as what it asks for: a wish. The line comes from a run (`desk_app` `src/run.rt`), and the request that is
//! read goes back to it, and from there to the desk (`desk_store` `src/group.rt`).
ghost use Rattle.std.specs.Prelude.{◌≡◌, Ok, Err, MatchResult, option_map};
ghost use Rattle.serde_json.specs.View.{view};
ghost use Rattle.word_core.specs.Forms.{shown};
ghost use Rattle.desk_wire.specs.Steps.{Gives, GivesAt, Fails};
ghost use Rattle.desk_wire.specs.Reading.{LinesAreCommands, NamesChangeLittle, object_of, form_in};
ghost use Rattle.desk_wire.specs.Reading.{command_in, request_of, is_report, of_in, report_of, report_table};
ghost use Rattle.desk_wire.specs.Reading.{table_of, wish_of};
ghost use Rattle.desk_wire.specs.Reading as reading;

use crate::fault::{ReadError, Unread, What, WireFault};
use crate::fields::{day, fields, key, number, row};
use crate::members::knows_all;
use crate::values::{member, parsed, text, text_of};
use desk_core::{Command, Names, Request};
use part_core::{Form, Formed, Id, RowKind};
use report_core::{ReportName, report_named};
use serde_json::Value;
use std::alloc::Global;

/// What a line asks for.
#[derive(Drop)]
pub enum Wish {
    Request(Request),
    /// The report of that name on the part, or the item, of this number.
    Report { name: ReportName, of: u64 },
}

/// The object that a line is.
pub fn object(alloc: Global, bytes: &[u8]) -> Result<Value, Unread>
    ensures { MatchResult result (λ value. object_of bytes.now ≡ Ok (view value))
        (λ unread. Fails unread (object_of bytes.now)) }
{
    if bytes.len() > 65_536 {
        return Err(Unread::Wrong(What::TooLong));
    }
    let value = parsed(alloc, bytes, What::NotJson)?;
    if !value.is_object() {
        return Err(Unread::Wrong(What::NotObject));
    }
    Ok(value)
}

/// The form of the object's verb, where the form has each member of the object.
fn form<C: Formed>(object: &Value) -> Result<&'static Form, What>
    ensures { MatchResult result
        (λ form. form_in C.forms_of (view object.now) ≡ Ok (shown form.now))
        (λ what. form_in C.forms_of (view object.now) ≡ Err what) }
{
    let value = member(object, "do")?;
    let verb = text_of(value)?;
    let form = C::form(verb).ok_or(What::UnknownCommand)?;
    if !knows_all(&["do", "key", "day"], form.fields, object) {
        return Err(What::UnknownField);
    }
    Ok(form)
}

/// The command of that form whose fields are the object's, or the first fault of a field.
fn command<C: Formed, N: Names>(
    alloc: Global,
    names: Option<&N>,
    object: &Value,
    form: &Form,
) -> Result<C, Unread>
    ensures { Gives result (command_in (option_map (λ n. N.naming_of n.now) names.entry) C.command_of
        (shown form.now) (view object.now)) }
{
    let fields = fields(alloc, names, object, form.fields)?;
    let command = C::from_fields(form.verb, fields).ok_or(What::UnknownCommand)?;
    Ok(command)
}

fn request<N: Names>(alloc: Global, names: Option<&N>, object: &Value) -> Result<Request, Unread>
    ensures { Gives result (request_of (option_map (λ n. N.naming_of n.now) names.entry) (view object.now)) }
{
    let form = form::<Command>(object)?;
    let key = key(alloc, object)?;
    let day = day(object)?;
    let command = command::<Command, N>(alloc, names, object, form)?;
    Ok(Request { key, day, command })
}

/// Whether an object asks for a report: it has `report`, and `do` is missing.
pub fn is_report(object: &Value) -> bool
    ensures { result ≡ is_report (view object.now) }
{
    object.get("do").is_none() && object.get("report").is_some()
}

/// What the report of a name is of.
pub fn table_of(name: ReportName) -> RowKind
    ensures { result ≡ table_of name }
{
    match name {
        ReportName::Ledger => RowKind::Part,
        ReportName::Stock => RowKind::Part,
        ReportName::WhereUsed => RowKind::Part,
        ReportName::History => RowKind::Item,
        ReportName::Content => RowKind::Item,
        ReportName::Shortage => RowKind::Build,
    }
}

/// The table that the report is of, where there is one of its name.
fn report_table(object: &Value) -> Option<RowKind>
    ensures { result ≡ report_table (view object.now) }
{
    let value = object.get("report")?;
    let text = value.as_str()?;
    let name = report_named(text)?;
    Some(table_of(name))
}

/// What the report is of: a row of its table, and a number alone where there is no such report.
pub fn of<N: Names>(alloc: Global, names: Option<&N>, object: &Value) -> Result<Id, Unread>
    ensures { Gives result (of_in (option_map (λ n. N.naming_of n.now) names.entry)
        (report_table (view object.now)) (view object.now)) }
{
    match report_table(object) {
        None => Ok(number(object, "of")?),
        Some(table) => row(alloc, names, table, object, "of"),
    }
}

fn report<N: Names>(alloc: Global, names: Option<&N>, object: &Value) -> Result<Wish, Unread>
    ensures { Gives result (report_of (option_map (λ n. N.naming_of n.now) names.entry) (view object.now)) }
{
    if !knows_all(&["of", "report"], &[], object) {
        return Err(Unread::Wrong(What::UnknownField));
    }
    let of = of(alloc, names, object)?;
    let text = text(object, "report")?;
    let name = report_named(text).ok_or(What::BadWord)?;
    Ok(Wish::Report { name, of })
}

/// Most lines are requests, so a report is looked for only where no request stands.
#[tactic(auto, using(crate::proofs::Wishes::requests_are_wishes))]
fn wish_of<N: Names>(alloc: Global, names: Option<&N>, object: &Value) -> Result<Wish, Unread>
    ensures { Gives result (wish_of (option_map (λ n. N.naming_of n.now) names.entry) (view object.now)) }
{
    match request(alloc, names, object) {
        Ok(request) => Ok(Wish::Request(request)),
        Err(unread) => {
            if is_report(object) {
                report(alloc, names, object)
            } else {
                Err(unread)
            }
        }
    }
}

fn line_wish<N: Names>(alloc: Global, names: Option<&N>, bytes: &[u8]) -> Result<Wish, Unread>
    ensures { Gives result (reading.line (option_map (λ n. N.naming_of n.now) names.entry) bytes.now) }
{
    let object = object(alloc, bytes)?;
    wish_of(alloc, names, &object)
}

fn line_request<N: Names>(alloc: Global, names: Option<&N>, bytes: &[u8]) -> Result<Request, Unread>
    ensures { Gives result (reading.request (option_map (λ n. N.naming_of n.now) names.entry) bytes.now) }
{
    let object = object(alloc, bytes)?;
    request(alloc, names, &object)
}

/// What the line of this number asks for, or its first fault. Of a long line its first 65,537 bytes
/// are enough. Where the books are handed in, a field that is the number of a row may have its name.
pub fn read_line<N: Names>(
    alloc: Global,
    names: Option<&N>,
    bytes: &[u8],
    line: u64,
) -> Result<Wish, ReadError>
    ensures { GivesAt line result (reading.line (option_map (λ n. N.naming_of n.now) names.entry)
        bytes.now) }
{
    match line_wish(alloc, names, bytes) {
        Ok(wish) => Ok(wish),
        Err(Unread::Memory) => Err(ReadError::Memory),
        Err(Unread::Wrong(what)) => Err(ReadError::Wrong(WireFault { line, what })),
    }
}

/// The request of the line of this number, where only requests may stand, or its first fault. A
/// line that asks for a report is `NoField`.
pub fn read_request<N: Names>(
    alloc: Global,
    names: Option<&N>,
    bytes: &[u8],
    line: u64,
) -> Result<Request, ReadError>
    ensures { GivesAt line result (reading.request (option_map (λ n. N.naming_of n.now) names.entry)
        bytes.now) }
{
    match line_request(alloc, names, bytes) {
        Ok(request) => Ok(request),
        Err(Unread::Memory) => Err(ReadError::Memory),
        Err(Unread::Wrong(what)) => Err(ReadError::Wrong(WireFault { line, what })),
    }
}

/// The law that the fields of a form, once they are read, are always a command of the form's verb: a
/// line with the fields of its verb is never `UnknownCommand`.
pub fn lines_are_commands<C: Formed>()
    ensures { LinesAreCommands C.forms_of C.verb_of C.fields_of C.command_of }
{}

/// The law that with names a line is read as it is without, but for one with a value of a wrong type.
pub fn names_change_little()
    ensures { NamesChangeLittle }
{}
