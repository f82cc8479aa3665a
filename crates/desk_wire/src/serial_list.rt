//! Serials as they were written.
ghost use Rattle.std.specs.Prelude.{◌≡◌, IfOk};
ghost use Rattle.word_core.specs.Serials.{serials_in};
ghost use Rattle.desk_wire.specs.Steps.{Gives};
ghost use Rattle.desk_wire.specs.Texts.{listed};

use crate::fault::{Unread, What};
use crate::serial_count::lists_serials;
use part_core::{Serials, read_serials};
use std::alloc::{AllocError, Global};
use std::marker::Model;

/// A text that lists serials, kept as it was written: it takes the room of the text, however many serials it stands
/// for. A clause sees the serials.
#[derive(Drop)]
pub struct SerialList {
    text: String,
}

impl Model for SerialList {
    ghost use Rattle.std.specs.Prelude.{ℕ, List, ◌≡◌, true, is_ok};
    ghost use Rattle.std.specs.String.{string_bytes};
    ghost use Rattle.word_core.specs.Serials.{serials_in};
    ghost use Rattle.desk_wire.specs.SerialLists.{listed_by};

    ghost Value = { List (List ℕ) };

    ghost view = { λ list. listed_by (string_bytes list.text) };

    ghost invariant = { λ list. is_ok (serials_in (string_bytes list.text)) ≡ true };
}

impl SerialList {
    /// The serials that a text lists: else `BadSerials`.
    pub fn new(alloc: Global, text: &str) -> Result<Self, Unread>
        ensures { Gives result (listed (serials_in text.now)) }
    {
        if !lists_serials(text) {
            return Err(Unread::Wrong(What::BadSerials));
        }
        let text = String::from_str(alloc, text)?;
        Ok(SerialList { text })
    }

    /// The serials, made out.
    pub fn serials(&self, alloc: Global) -> Result<Serials, AllocError>
        ensures { IfOk result (λ serials. serials ≡ self.now) }
    {
        match read_serials(alloc, self.text.as_str()) {
            Ok(serials) => Ok(Serials::new(serials)),
            // What was read once is read again, unless memory runs out.
            Err(_) => Err(AllocError),
        }
    }
}
