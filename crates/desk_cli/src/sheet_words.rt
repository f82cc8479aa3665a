//! The words that tell what stands beside a file of records of a command.
ghost use Rattle.std.specs.Prelude.{◌≡◌, map, option_map, option_and_then, codes, is_some, IfOk, Some, None};
ghost use Rattle.std.specs.Prelude.{if◌then◌else◌};
ghost use Rattle.word_core.specs.Forms.{is_among, names_of, shown, shown_fields};
ghost use Rattle.desk_wire.specs.Sheets.{always, headed, said_of};
ghost use Rattle.desk_wire.specs.SheetViews.{shown_said, shown_sayings, shown_sheet};
ghost use Rattle.desk_cli.specs.SheetWords.{form_in, is_member, parts_of, sayings_in, sheet_in, values_in};
ghost use Rattle.desk_cli.specs.SheetWords.{with_saying, with_sayings};
ghost use Rattle.desk_cli.specs.Words.{rows_in};

use crate::words::{given, import_day, import_document};
use clap::ArgMatches;
use desk_wire::{Said, Sheet, sheet_form};
use part_core::Form;
use std::alloc::{AllocError, Global};

/// What stands before the first `=` of a word, and behind it.
fn parts_of(word: &str) -> Option<(&str, &str)>
    ensures { option_map (λ parts. (parts.0.now, parts.1.now)) result ≡ parts_of word.now }
{
    word.split_once('=')
}

fn is_field(form: &Form, name: &str) -> bool
    ensures { result ≡ is_among name.now (names_of (shown_fields form.now.fields.now)) }
{
    for (field, _) in form.fields {
        if name == *field {
            return true;
        }
    }
    false
}

/// Whether a line of that form has a member of that name which may be told.
fn is_member(form: &Form, name: &str) -> bool
    ensures { result ≡ is_member (shown form.now) name.now }
{
    name == "number" || name == "key" || name == "day" || is_field(form, name)
}

/// Whether something is said of the member.
fn is_told(said: &[(&str, Said<'_>)], name: &str) -> bool
    ensures { result ≡ is_some (said_of (shown_sayings said.now) name.now) }
{
    for (member, _) in said {
        if *member == name {
            return true;
        }
    }
    false
}

/// What a word tells of a member: its text, or the name of its column.
fn said_as<'a>(is_text: bool, text: &'a str) -> Said<'a>
    ensures { shown_said result ≡ (if is_text then always text.now else headed text.now) }
{
    if is_text {
        Said::Always(text)
    } else {
        Said::Headed(text)
    }
}

/// Adds what the word says, if it can be said: of a member that a line has, and of which nothing is said so far.
fn add_saying<'a>(
    form: &Form,
    word: &'a str,
    is_text: bool,
    said: &mut Vec<(&'a str, Said<'a>)>,
) -> Result<bool, AllocError>
    ensures { IfOk result (λ fine. (if fine then Some (shown_sayings said.new.items) else None)
        ≡ with_saying (shown form.now) (λ text. if is_text then always text else headed text)
        (shown_sayings said.old.items) word.now) }
{
    let Some((member, text)) = parts_of(word) else {
        return Ok(false);
    };
    if !is_member(form, member) || is_told(said, member) {
        return Ok(false);
    }
    said.push((member, said_as(is_text, text)))?;
    Ok(true)
}

/// Adds what these words say, if it can be said.
fn add_sayings<'a>(
    form: &Form,
    words: &[&'a str],
    is_text: bool,
    said: &mut Vec<(&'a str, Said<'a>)>,
) -> Result<bool, AllocError>
    ensures { IfOk result (λ fine. (if fine then Some (shown_sayings said.new.items) else None)
        ≡ with_sayings (shown form.now) (λ text. if is_text then always text else headed text)
        (shown_sayings said.old.items) (map (λ w. w.now) words.now)) }
{
    for word in words {
        if !add_saying(form, word, is_text, said)? {
            return Ok(false);
        }
    }
    Ok(true)
}

/// Adds what the values of that option say, if it can be said.
#[tactic(auto, using(crate::proofs::Givens::given_values))]
fn add_given<'a>(
    form: &Form,
    matches: &ArgMatches<'a>,
    id: &str,
    is_text: bool,
    said: &mut Vec<(&'a str, Said<'a>)>,
) -> Result<bool, AllocError>
    ensures { IfOk result (λ fine. (if fine then Some (shown_sayings said.new.items) else None)
        ≡ with_sayings (shown form.now) (λ text. if is_text then always text else headed text)
        (shown_sayings said.old.items) (values_in id.now (rows_in matches.now))) }
{
    match matches.get_strs(id) {
        None => Ok(true),
        Some(words) => add_sayings(form, words, is_text, said),
    }
}

/// What is said of the members of a line, if it can be said.
fn sayings<'a>(
    alloc: Global,
    form: &Form,
    matches: &ArgMatches<'a>,
) -> Result<Option<Vec<(&'a str, Said<'a>)>>, AllocError>
    ensures { IfOk result (λ said. option_map (λ all. shown_sayings all.items) said
        ≡ sayings_in (shown form.now) (rows_in matches.now)) }
{
    let mut said = Vec::new(alloc);
    if !add_given(form, matches, "set", true, &mut said)? {
        return Ok(None);
    }
    if !add_given(form, matches, "column", false, &mut said)? {
        return Ok(None);
    }
    Ok(Some(said))
}

/// The form of the command that is named as the kind of a file.
pub fn kind_form(matches: &ArgMatches<'_>) -> Option<&'static Form>
    ensures { option_map (λ form. shown form.now) result ≡ form_in (rows_in matches.now) }
{
    sheet_form(given(matches, "kind")?)
}

/// What the words tell beside a file of records of that form's command, if they tell it.
#[tactic(auto, unfolding(crate::specs::SheetWords::sheet_in))]
pub fn sheet_of<'a>(
    alloc: Global,
    form: &'static Form,
    matches: &ArgMatches<'a>,
) -> Result<Option<Sheet<'a>>, AllocError>
    ensures { IfOk result (λ sheet. option_map shown_sheet sheet
        ≡ sheet_in (shown form.now) (rows_in matches.now)) }
{
    let Some(said) = sayings(alloc, form, matches)? else {
        return Ok(None);
    };
    let Some(document) = import_document(alloc, matches)? else {
        return Ok(None);
    };
    let Some(day) = import_day(matches) else {
        return Ok(None);
    };
    Ok(Some(Sheet {
        form,
        said,
        document,
        day,
    }))
}
