//! Texts that say what stands in a row, in a line and in a file alike.
ghost use Rattle.word_core.specs.Serials.{serials_in};
ghost use Rattle.desk_wire.specs.Steps.{Gives};
ghost use Rattle.desk_wire.specs.Texts.{row_text_from, listed};

use crate::fault::{Unread, What};
use part_core::{SerialFault, Serials, Text, read_serials};
use std::alloc::Global;

/// A text that may stand in a row: else `BadText`.
pub fn row_text_from(alloc: Global, text: &str) -> Result<Text, Unread>
    ensures { Gives result (row_text_from text.now) }
{
    let row_text = Text::new(String::from_str(alloc, text)?).ok_or(What::BadText)?;
    Ok(row_text)
}

/// The serials that a text lists: else `BadSerials`.
pub fn listed(alloc: Global, text: &str) -> Result<Serials, Unread>
    ensures { Gives result (listed (serials_in text.now)) }
{
    match read_serials(alloc, text) {
        Ok(serials) => Ok(Serials::new(serials)),
        Err(fault) => {
            if fault == SerialFault::Memory {
                Err(Unread::Memory)
            } else {
                Err(Unread::Wrong(What::BadSerials))
            }
        }
    }
}
