//! What a person is told of a line or a row that wasn't done: where it stands, the word that was answered, the facts of the
//! request, and what the word means. And of one that was done the note on the name that it gave.
ghost use Rattle.std.specs.Prelude.{◌≡◌, ◌++◌, ℕ, List, codes, decimal, Option, option_map, IfOk};
ghost use Rattle.std.specs.String.{string_bytes};
ghost use Rattle.desk_core.specs.Naming.{naming_in};
ghost use Rattle.desk_core.specs.ShopView.{state_of};
ghost use Rattle.report_core.specs.Escaped.{escaped};
ghost use Rattle.desk_wire.specs.declared.fault.WrongField.{WrongField};
ghost use Rattle.desk_wire.specs.WrongFields.{wrong_in_line, TellsField};
ghost use Rattle.desk_app.specs.Reasons.{fault_words, no_report_words, place_text, refused_words};
ghost use Rattle.desk_app.specs.Reasons.{Begins, IsNewName, IsReason};
ghost use Rattle.desk_app.specs.Runs.{naming};

use crate::guesses::guess;
use crate::guide::guide_to;
use crate::json_place::json_place;
use crate::undone::{Place, Why};
use desk_core::{Names, Request, Shop};
use desk_wire::{ImportKind, What, WireFault, WrongField, table_of, wrong_field};
use list_core::{NearNames, request_facts, row_fact};
use part_core::{Id, Refusal};
use report_core::{ReportName, escaped};
use std::alloc::{AllocError, Global};

/// What a line of the guide ends with that is of use only where rows may not be said by what they are called.
const OF_NAMES: &str = " To call rows by names, add --names.";

/// A line of the guide, for whom names may be said or may not.
fn guide_line(line: &str, named: bool) -> &str {
    let line = line.trim();
    if named {
        line.strip_suffix(OF_NAMES).unwrap_or(line)
    } else {
        line
    }
}

/// What the word means, and what can be done, to the end of the line, for whom names may be said or may not.
fn meaning_to(alloc: Global, word: &str, named: bool) -> Result<String, AllocError> {
    let mut text = String::from_str(alloc, ".")?;
    if let Some(entry) = guide_to(word) {
        for line in entry.lines().skip(1) {
            text.push_str(" ")?;
            text.push_str(guide_line(line, named))?;
        }
    }
    text.push_str("\n")?;
    Ok(text)
}

/// What the word means, and what can be done, to the end of the line.
pub(crate) fn meaning(alloc: Global, word: &str) -> Result<String, AllocError> {
    meaning_to(alloc, word, false)
}

/// The text with more behind it.
pub(crate) fn followed(mut text: String, more: &str) -> Result<String, AllocError>
    ensures { (front : List ℕ) → string_bytes text ≡ front
        → IfOk result (λ told. Begins front (string_bytes told)) }
{
    text.push_str(more)?;
    Ok(text)
}

fn place_text(alloc: Global, place: Place) -> Result<String, AllocError>
    ensures { IfOk result (λ text. string_bytes text ≡ place_text place) }
{
    match place {
        Place::Line(number) => format!(in alloc; "line {number}"),
        Place::Row(number) => format!(in alloc; "row {number}"),
    }
}

/// What stands in the books, as a person is told it, and behind it what the answer's word means.
fn told_with_meaning(alloc: Global, words: &str, word: &str) -> Result<String, AllocError>
    ensures { IfOk result (λ text. Begins (escaped words.now) (string_bytes text)) }
{
    let text = escaped(alloc, words)?;
    let meaning = meaning(alloc, word)?;
    followed(text, meaning.as_str())
}

/// Where a request was refused, the word, and the facts of the request.
fn refused_words(
    alloc: Global,
    shop: &Shop,
    place: Place,
    request: &Request,
    refusal: Refusal,
) -> Result<String, AllocError>
    ensures { IfOk result (λ words.
        string_bytes words ≡ refused_words (state_of shop.now) place request.now refusal) }
{
    let (place, name) = (place_text(alloc, place)?, refusal.name());
    let facts = request_facts(alloc, shop, request)?;
    format!(in alloc; "{place}: {name}: {facts}")
}

/// Why a request was refused.
fn why_refused(
    alloc: Global,
    shop: &Shop,
    place: Place,
    request: &Request,
    refusal: Refusal,
) -> Result<String, AllocError>
    ensures { IfOk result (λ text. Begins
        (escaped (refused_words (state_of shop.now) place request.now refusal))
        (string_bytes text)) }
{
    let words = refused_words(alloc, shop, place, request, refusal)?;
    told_with_meaning(alloc, words.as_str(), refusal.name())
}

/// Where a report was asked for, and the row that it would be of.
fn no_report_words(
    alloc: Global,
    shop: &Shop,
    line: u64,
    name: ReportName,
    of: Id,
) -> Result<String, AllocError>
    ensures { IfOk result (λ words.
        string_bytes words ≡ no_report_words (state_of shop.now) line name of) }
{
    let place = place_text(alloc, Place::Line(line))?;
    let fact = row_fact(alloc, shop, "of", table_of(name), of)?;
    format!(in alloc; "{place}: NoSuch: {fact}")
}

/// Why there is no report.
fn why_no_report(
    alloc: Global,
    shop: &Shop,
    line: u64,
    name: ReportName,
    of: Id,
) -> Result<String, AllocError>
    ensures { IfOk result (λ text. Begins
        (escaped (no_report_words (state_of shop.now) line name of)) (string_bytes text)) }
{
    let words = no_report_words(alloc, shop, line, name, of)?;
    told_with_meaning(alloc, words.as_str(), "NoSuch")
}

/// A fault with the field that it is in, and what stands there.
fn fault_words(
    alloc: Global,
    place: &str,
    what: &What,
    field: &Option<WrongField>,
) -> Result<String, AllocError>
    ensures { IfOk result (λ text.
        string_bytes text ≡ fault_words place.now what.now field.now) }
{
    let mut text = String::from_str(alloc, place)?;
    text.push_str(": ")?;
    if let Some(field) = field {
        text.push_str(field.name.as_str())?;
        text.push_str(": ")?;
    }
    text.push_str(what.name())?;
    if let Some(field) = field {
        if let Some(value) = &field.text {
            text.push_str(": ")?;
            text.push_str(value.as_str())?;
        }
    }
    Ok(text)
}

/// The same as a line for a person's terminal, which has nothing from a file or a line that a terminal would act on.
pub(crate) fn told_fault(
    alloc: Global,
    place: &str,
    what: &What,
    field: &Option<WrongField>,
) -> Result<String, AllocError>
    ensures { IfOk result (λ text.
        string_bytes text ≡ escaped (fault_words place.now what.now field.now)) }
{
    let words = fault_words(alloc, place, what, field)?;
    escaped(alloc, words.as_str())
}

/// The names that a line was read with.
fn names_of(shop: &Shop, names: bool) -> Option<&Shop>
    ensures { option_map (λ shop. naming_in (state_of shop.now)) result
        ≡ naming names (state_of shop.now) }
{
    if names { Some(shop) } else { None }
}

/// The known word that is most like one of those that were said, in brackets, where a word was misspelt.
fn guess_text(
    alloc: Global,
    what: &What,
    field: Option<&WrongField>,
) -> Result<String, AllocError> {
    let Some(field) = field else {
        return Ok(String::new(alloc));
    };
    match guess(alloc, what, field)? {
        Some(word) => format!(in alloc; " (did you mean {word}?)"),
        None => Ok(String::new(alloc)),
    }
}

/// What stands behind a fault of a line in which rows may be named or may not: where it is no JSON any more, or a word that
/// may have been meant, and what the fault means.
fn behind_fault(
    alloc: Global,
    line: &[u8],
    what: &What,
    field: Option<&WrongField>,
    named: bool,
) -> Result<String, AllocError> {
    let mut text = match what {
        What::NotJson => json_place(alloc, line)?,
        _ => guess_text(alloc, what, field)?,
    };
    text.push_str(meaning_to(alloc, what.name(), named)?.as_str())?;
    Ok(text)
}

/// What is wrong with a line that was read with these names.
pub(crate) fn why_faulty_line<N: Names>(
    alloc: Global,
    names: Option<&N>,
    line: &[u8],
    fault: &WireFault,
) -> Result<String, AllocError>
    ensures { IfOk result (λ text. (field : Option WrongField)
        × TellsField field
        (wrong_in_line (option_map (λ n. N.naming_of n.now) names.entry) line.now)
        × Begins (escaped (fault_words (place_text (Place.Line fault.now.line)) fault.now.what
        field)) (string_bytes text)) }
{
    let field = wrong_field(alloc, names, line)?;
    let place = place_text(alloc, Place::Line(fault.line))?;
    let text = told_fault(alloc, place.as_str(), &fault.what, &field)?;
    let more = behind_fault(alloc, line, &fault.what, field.as_ref(), names.is_some())?;
    followed(text, more.as_str())
}

/// What stands behind a fault of a file: the header that is wanted, and what the fault means.
fn behind_fault_of_file(
    alloc: Global,
    kind: ImportKind,
    what: &What,
) -> Result<String, AllocError> {
    let wanted = match (what, kind) {
        (What::Header, ImportKind::Receipts) => {
            ": number,line,location,quantity,batch,serials is wanted"
        }
        (What::Header, ImportKind::Counts) => ": number,item,quantity is wanted",
        _ => "",
    };
    let mut text = String::from_str(alloc, wanted)?;
    text.push_str(meaning(alloc, what.name())?.as_str())?;
    Ok(text)
}

/// What is wrong with a file.
fn why_faulty_file(
    alloc: Global,
    kind: ImportKind,
    fault: &WireFault,
    field: &Option<WrongField>,
) -> Result<String, AllocError>
    ensures { IfOk result (λ text.
        Begins (escaped (fault_words (codes "record " ++ decimal fault.now.line) fault.now.what
        field.now)) (string_bytes text)) }
{
    let number = fault.line;
    let place = format!(in alloc; "record {number}")?;
    let text = told_fault(alloc, place.as_str(), &fault.what, field)?;
    let more = behind_fault_of_file(alloc, kind, &fault.what)?;
    followed(text, more.as_str())
}

/// What is told of the name that a request gave: nothing where no row was made since the names were filed, as when the
/// request is one that was done before.
fn new_name_note(
    alloc: Global,
    shop: &Shop,
    names: &NearNames,
    place: Place,
    request: &Request,
) -> Result<String, AllocError>
    ensures { IfOk result (λ text. IsNewName (state_of shop.now) place request.now
        (string_bytes text)) }
{
    if !names.is_behind(shop) {
        return Ok(String::new(alloc));
    }
    let Some(note) = names.note(alloc, shop, &request.command)? else {
        return Ok(String::new(alloc));
    };
    let place = place_text(alloc, place)?;
    let mut text = format!(in alloc; "{place}: note: {note}")?;
    text.push_str("\n")?;
    Ok(text)
}

/// The line that a person is told, with its LF, or nothing. Names that may be near another are those that were filed. An
/// error is one of memory.
pub fn reason(
    alloc: Global,
    shop: &Shop,
    names: &NearNames,
    why: &Why<'_>,
) -> Result<String, AllocError>
    ensures { IfOk result (λ text. IsReason (state_of shop.now) why.now (string_bytes text)) }
{
    match why {
        Why::Refused {
            place,
            request,
            refusal,
        } => why_refused(alloc, shop, *place, request, *refusal),
        Why::NoReport { line, name, of } => why_no_report(alloc, shop, *line, *name, *of),
        Why::FaultyLine { names, line, fault } => {
            why_faulty_line(alloc, names_of(shop, *names), line, fault)
        }
        Why::NewName { place, request } => new_name_note(alloc, shop, names, *place, request),
        Why::FaultyFile { kind, fault, field } => why_faulty_file(alloc, *kind, fault, field),
    }
}
