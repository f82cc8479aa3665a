//! Which member of a faulty line is wrong, for whoever is told why. A line is read once more for
//! it, member by member, by the same readings in the same order; the first that fails is the one
//! whose fault was answered.
ghost use Rattle.std.specs.Prelude.{◌≡◌, ◌++◌, IfOk, MatchResult, Ok, Err, Some, map, option_map};
ghost use Rattle.serde_json.specs.Find.{get};
ghost use Rattle.serde_json.specs.View.{view};
ghost use Rattle.word_core.specs.Forms.{names_of, shown, shown_fields};
ghost use Rattle.desk_wire.specs.Steps.{has_failed};
ghost use Rattle.desk_wire.specs.WrongFields.{Spells, TellsField, unknown_in, verb_form};
ghost use Rattle.desk_wire.specs.WrongFields.{report_word, wrong_field, wrong_in_line};
ghost use Rattle.desk_wire.specs.WrongFields.{wrong_in_object, wrong_in_report, wrong_in_request};

use crate::fault::{Unread, What, WrongField};
use crate::fields::{day, field, key};
use crate::members::is_known;
use crate::read::{is_report, object, of};
use crate::values::{member, text, text_of};
use desk_core::{Command, Names};
use part_core::{FieldKind, Form, Formed};
use report_core::report_named;
use serde_json::Value;
use std::alloc::{AllocError, Global};

/// Whether a reading failed. An error is one of memory.
fn has_failed<T: Drop>(reading: Result<T, Unread>) -> Result<bool, AllocError>
    ensures { result ≡ has_failed reading }
{
    match reading {
        Ok(_) => Ok(false),
        Err(Unread::Memory) => Err(AllocError),
        Err(Unread::Wrong(_)) => Ok(true),
    }
}

/// The text of what stands in a member, if it is there.
fn text_there(alloc: Global, value: Option<&Value>) -> Result<Option<String>, AllocError>
    ensures { IfOk result (λ text. Spells text (option_map (λ v. view v.now) value.entry)) }
{
    match value {
        None => Ok(None),
        Some(value) => Ok(Some(value.to_string(alloc)?)),
    }
}

/// The member of this name as it is told, with what stands there.
fn told(alloc: Global, name: &str, value: Option<&Value>) -> Result<WrongField, AllocError>
    ensures { IfOk result (λ field. TellsField (Some field)
        (Some (name.now, option_map (λ v. view v.now) value.entry))) }
{
    let text = text_there(alloc, value)?;
    let name = String::from_str(alloc, name)?;
    Ok(WrongField { name, text })
}

/// The object's member of that name as it is told.
fn told_of(alloc: Global, object: &Value, name: &str) -> Result<Option<WrongField>, AllocError>
    ensures { IfOk result (λ field. TellsField field
        (Some (name.now, get name.now (view object.now)))) }
{
    let field = told(alloc, name, object.get(name))?;
    Ok(Some(field))
}

/// The first member that has none of these names and is none of these fields.
#[tactic(auto, using(crate::proofs::LineFaults::unknown_in_members))]
fn unknown_member(
    alloc: Global,
    names: &[&str],
    blanks: &[(&str, FieldKind)],
    object: &Value,
) -> Result<Option<WrongField>, AllocError>
    ensures { IfOk result (λ field. TellsField field
        (unknown_in (map (λ name. name.now) names.now ++ names_of (shown_fields blanks.now))
        (view object.now))) }
{
    let Some(members) = object.as_object() else {
        return Ok(None);
    };
    for (name, value) in members.iter() {
        if !is_known(name.as_str(), names, blanks) {
            let field = told(alloc, name.as_str(), Some(value))?;
            return Ok(Some(field));
        }
    }
    Ok(None)
}

/// The first field of a form that can't be read.
fn wrong_in_fields<N: Names>(
    alloc: Global,
    names: Option<&N>,
    object: &Value,
    blanks: &[(&'static str, FieldKind)],
) -> Result<Option<WrongField>, AllocError>
    ensures { IfOk result (λ field. TellsField field
        (wrong_field (option_map (λ n. N.naming_of n.now) names.entry) (shown_fields blanks.now)
        (view object.now))) }
{
    for (name, kind) in blanks {
        if has_failed(field(alloc, names, object, name, *kind))? {
            return told_of(alloc, object, name);
        }
    }
    Ok(None)
}

/// The form of the object's verb.
fn verb_form(object: &Value) -> Result<&'static Form, What>
    ensures { MatchResult result
        (λ form. verb_form (view object.now) ≡ Ok (shown form.now))
        (λ what. verb_form (view object.now) ≡ Err what) }
{
    let value = member(object, "do")?;
    let verb = text_of(value)?;
    Command::form(verb).ok_or(What::UnknownCommand)
}

fn wrong_in_request<N: Names>(
    alloc: Global,
    names: Option<&N>,
    object: &Value,
) -> Result<Option<WrongField>, AllocError>
    ensures { IfOk result (λ field. TellsField field
        (wrong_in_request (option_map (λ n. N.naming_of n.now) names.entry) (view object.now))) }
{
    let Ok(form) = verb_form(object) else {
        return told_of(alloc, object, "do");
    };
    if let Some(field) = unknown_member(alloc, &["do", "key", "day"], form.fields, object)? {
        return Ok(Some(field));
    }
    if has_failed(key(alloc, object))? {
        return told_of(alloc, object, "key");
    }
    if day(object).is_err() {
        return told_of(alloc, object, "day");
    }
    wrong_in_fields(alloc, names, object, form.fields)
}

/// The word that names the report.
fn report_word(object: &Value) -> Result<&str, What>
    ensures { MatchResult result (λ word. report_word (view object.now) ≡ Ok word.now)
        (λ what. report_word (view object.now) ≡ Err what) }
{
    let word = text(object, "report")?;
    if report_named(word).is_none() {
        return Err(What::BadWord);
    }
    Ok(word)
}

fn wrong_in_report<N: Names>(
    alloc: Global,
    names: Option<&N>,
    object: &Value,
) -> Result<Option<WrongField>, AllocError>
    ensures { IfOk result (λ field. TellsField field
        (wrong_in_report (option_map (λ n. N.naming_of n.now) names.entry) (view object.now))) }
{
    if let Some(field) = unknown_member(alloc, &["of", "report"], &[], object)? {
        return Ok(Some(field));
    }
    if has_failed(of(alloc, names, object))? {
        return told_of(alloc, object, "of");
    }
    if report_word(object).is_err() {
        return told_of(alloc, object, "report");
    }
    Ok(None)
}

fn wrong_in_object<N: Names>(
    alloc: Global,
    names: Option<&N>,
    object: &Value,
) -> Result<Option<WrongField>, AllocError>
    ensures { IfOk result (λ field. TellsField field
        (wrong_in_object (option_map (λ n. N.naming_of n.now) names.entry)
        (Ok (view object.now)))) }
{
    if is_report(object) {
        wrong_in_report(alloc, names, object)
    } else {
        wrong_in_request(alloc, names, object)
    }
}

/// The first member of the line that can't be read, with what stands there: none where the line is
/// no object, or where nothing is wrong with it. It is asked with the names that the line was read
/// with. An error is one of memory.
pub fn wrong_field<N: Names>(
    alloc: Global,
    names: Option<&N>,
    bytes: &[u8],
) -> Result<Option<WrongField>, AllocError>
    ensures { IfOk result (λ field. TellsField field
        (wrong_in_line (option_map (λ n. N.naming_of n.now) names.entry) bytes.now)) }
{
    match object(alloc, bytes) {
        Ok(object) => wrong_in_object(alloc, names, &object),
        Err(Unread::Memory) => Err(AllocError),
        Err(Unread::Wrong(_)) => Ok(None),
    }
}
