//! Fields as JSON, which a writer writes.
ghost use Rattle.std.specs.Prelude.{map};
ghost use Rattle.word_core.specs.Flags.{flag_words};
ghost use Rattle.desk_core.specs.DataOf.{data_of, maybe_string, maybe_strings, maybe_whole, strings, wholes};
ghost use Rattle.desk_core.specs.TextWriting.{Adds};

use json::Writer;
use part_core::{Field, Flags, Serial, Serials, Text, Worded};
use std::alloc::{AllocError, Global};

fn maybe_whole(out: &mut Writer, number: Option<u64>) -> Result<(), AllocError>
    ensures { Adds result out.old out.new (maybe_whole number) }
{
    match number {
        None => out.null(),
        Some(number) => out.u64(number),
    }
}

fn maybe_text(out: &mut Writer, text: &Option<Text>) -> Result<(), AllocError>
    ensures { Adds result out.old out.new (maybe_string text.now) }
{
    match text {
        None => out.null(),
        Some(text) => out.string(text.as_str()),
    }
}

fn wholes(out: &mut Writer, numbers: &[u64]) -> Result<(), AllocError>
    ensures { Adds result out.old out.new (wholes numbers.now) }
{
    out.begin_array()?;
    for number in numbers {
        out.u64(*number)?;
    }
    out.end_array()
}

fn serials(out: &mut Writer, list: &[Serial]) -> Result<(), AllocError>
    ensures { Adds result out.old out.new (strings list.now) }
{
    out.begin_array()?;
    for serial in list {
        out.string(serial.as_str())?;
    }
    out.end_array()
}

fn maybe_serials(out: &mut Writer, list: &Option<Serials>) -> Result<(), AllocError>
    ensures { Adds result out.old out.new (maybe_strings list.now) }
{
    match list {
        None => out.null(),
        Some(list) => serials(out, list.as_slice()),
    }
}

fn words(out: &mut Writer, words: &[&str]) -> Result<(), AllocError>
    ensures { Adds result out.old out.new (strings (map (λ w. w.now) words.now)) }
{
    out.begin_array()?;
    for word in words {
        out.string(word)?;
    }
    out.end_array()
}

/// A word for each flag that is set.
fn flags(alloc: Global, out: &mut Writer, flags: Flags) -> Result<(), AllocError>
    ensures { Adds result out.old out.new (strings (flag_words flags)) }
{
    let chosen = flags.words(alloc)?;
    words(out, chosen.as_slice())
}

/// Writes what stands in a field.
pub fn write_field(alloc: Global, out: &mut Writer, field: &Field) -> Result<(), AllocError>
    ensures { Adds result out.old out.new (data_of field.now) }
{
    match field {
        Field::Number(number) => out.u64(*number),
        Field::MaybeNumber(number) => maybe_whole(out, *number),
        Field::Text(text) => out.string(text.as_str()),
        Field::MaybeText(text) => maybe_text(out, text),
        Field::Yes(holds) => out.boolean(*holds),
        Field::Flags(set) => flags(alloc, out, *set),
        Field::Status(status) => out.string(status.word()),
        Field::Side(side) => out.string(side.word()),
        Field::Serials(list) => serials(out, list.as_slice()),
        Field::MaybeSerials(list) => maybe_serials(out, list),
        Field::Numbers(ids) => wholes(out, ids.as_slice()),
    }
}
