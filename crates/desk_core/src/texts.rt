//! Commands as text: one writer for all of them, which goes by the form of the command's verb.
//!
//! The text is JSON without spaces. The members stand in byte order of their names, and every field is there: null for
//! none, false too. A list of serials is an array, and so are a part's flags, in their own order. So a text tells its
//! command, and equal texts are of equal commands.
ghost use Rattle.std.specs.Prelude.{◌≡◌, [], IfOk, OnOk, codes};
ghost use Rattle.std.specs.String.{string_bytes};
ghost use Rattle.json.specs.Print.{print};
ghost use Rattle.serde_json.specs.Data.{no_members, object, put, string};
ghost use Rattle.word_core.specs.Forms.{shown_fields};
ghost use Rattle.desk_core.specs.CommandText.{TextsTell, TextsTellCommands, command_text};
ghost use Rattle.desk_core.specs.CommandText.{data_in, text_in, with_fields};
ghost use Rattle.desk_core.specs.TextWriting.{Adds, in_order, value_data};

use crate::command::Command;
use json::Writer;
use part_core::{Field, FieldKind, Formed};
use std::alloc::{AllocError, Global};
use std::collections::BTreeMap;
use values::write_field;

mod values;

/// What stands in a member of a command's text.
#[derive(Drop)]
enum MemberValue {
    Verb(&'static str),
    Field(Field),
}

/// Puts a member where it stands in byte order.
#[tactic(auto, using(crate::proofs::TextMembers::in_order_insert))]
fn put(
    members: &mut BTreeMap<&'static str, MemberValue>,
    name: &'static str,
    value: MemberValue,
) -> Result<(), AllocError>
    ensures { OnOk result (in_order members.new.entries
        ≡ put name.now (value_data value) (in_order members.old.entries)) }
{
    members.insert(name, value)?;
    Ok(())
}

/// The members of a verb, and of fields under their names.
fn members(
    alloc: Global,
    verb: &'static str,
    blanks: &'static [(&'static str, FieldKind)],
    fields: Vec<Field>,
) -> Result<BTreeMap<&'static str, MemberValue>, AllocError>
    ensures { IfOk result (λ members. in_order members.entries
        ≡ with_fields (shown_fields blanks.now) fields.items
        (put (codes "do") (string verb.now) no_members)) }
{
    let mut members = BTreeMap::new(alloc);
    put(&mut members, "do", MemberValue::Verb(verb))?;
    let mut left = fields.into_iter();
    for (name, _) in blanks {
        match left.next() {
            None => return Ok(members),
            Some(field) => put(&mut members, name, MemberValue::Field(field))?,
        }
    }
    Ok(members)
}

/// Writes what stands in a member.
fn write_value(alloc: Global, out: &mut Writer, value: &MemberValue) -> Result<(), AllocError>
    ensures { Adds result out.old out.new (value_data value.now) }
{
    match value {
        MemberValue::Verb(verb) => out.string(verb),
        MemberValue::Field(field) => write_field(alloc, out, field),
    }
}

/// Writes an object of these members, in their order.
fn write_members(
    alloc: Global,
    out: &mut Writer,
    members: &BTreeMap<&'static str, MemberValue>,
) -> Result<(), AllocError>
    ensures { Adds result out.old out.new (object (in_order members.now.entries)) }
{
    out.begin_object()?;
    for (name, value) in members.iter() {
        out.key(name)?;
        write_value(alloc, out, value)?;
    }
    out.end_object()
}

/// The text of what a writer has written.
fn written(out: Writer) -> Result<String, AllocError>
    requires { out.before ≡ [] }
    ensures { IfOk result (λ text. string_bytes text ≡ print out.tokens) }
{
    match String::from_utf8(out.into_inner()) {
        Ok(text) => Ok(text),
        // It isn't reached: what a writer has written is UTF-8.
        Err(_) => Err(AllocError),
    }
}

/// The members of a command's text: its verb, and its fields under the names that its form has for them.
fn members_of<C: Formed>(
    alloc: Global,
    command: &C,
) -> Result<BTreeMap<&'static str, MemberValue>, AllocError>
    ensures { IfOk result (λ members. object (in_order members.entries)
        ≡ data_in C.forms_of (C.verb_of command.now) (C.fields_of command.now)) }
{
    let verb = command.verb();
    let fields = command.fields(alloc)?;
    match C::form(verb) {
        None => Ok(BTreeMap::new(alloc)),
        Some(form) => members(alloc, verb, form.fields, fields),
    }
}

fn text<C: Formed>(alloc: Global, command: &C) -> Result<String, AllocError>
    ensures { IfOk result (λ text. string_bytes text
        ≡ text_in C.forms_of (C.verb_of command.now) (C.fields_of command.now)) }
{
    let members = members_of(alloc, command)?;
    let mut out = Writer::new(Vec::with_capacity(alloc, 128)?);
    write_members(alloc, &mut out, &members)?;
    written(out)
}

/// The command's text: what is kept beside an answer, to know the command again.
pub fn command_text(alloc: Global, command: &Command) -> Result<String, AllocError>
    ensures { IfOk result (λ text. string_bytes text ≡ command_text command.now) }
{
    text(alloc, command)
}

fn texts_tell<C: Formed>()
    ensures { TextsTell C.forms_of C.verb_of C.fields_of }
{}

/// The law that equal texts are of equal commands, where their numbers fit 64 bits, as the program's do.
pub fn texts_tell_commands()
    ensures { TextsTellCommands }
{
    texts_tell::<Command>();
}
