//! Texts that stand in rows: names and batches.
ghost use Rattle.std.specs.Prelude.{◌≡◌, ◌↔◌, IsTrue, IsSome, IfOk, IfSome};
ghost use Rattle.std.specs.String.{string_bytes};
ghost use Rattle.std.specs.List.{list_all};
ghost use Rattle.std.specs.Str.{bytes_eq};
ghost use Rattle.word_core.specs.Text.{is_text, is_plain};

use std::alloc::{AllocError, Global};
use std::marker::Model;

/// A text of 1 to 200 bytes of UTF-8 without control characters (U+0000 to U+001F and U+007F).
/// A clause sees its bytes.
#[derive(Drop)]
pub struct Text {
    text: String,
}

impl Model for Text {
    ghost use Rattle.std.specs.Prelude.{ℕ, List, ◌≡◌, true};
    ghost use Rattle.std.specs.String.{string_bytes};
    ghost use Rattle.word_core.specs.Text.{is_text};

    ghost Value = { List ℕ };

    ghost view = { λ t. string_bytes t.text };

    ghost invariant = { λ t. is_text (string_bytes t.text) ≡ true };
}

fn are_plain(bytes: &[u8]) -> bool
    ensures { result ≡ list_all is_plain bytes.now }
{
    bytes.iter().all(|b| *b >= 32 && *b != 127)
}

/// Whether a text may stand in a row.
pub fn is_text(text: &str) -> bool
    ensures { result ≡ is_text text.now }
{
    0 < text.len() && text.len() <= 200 && are_plain(text.as_bytes())
}

impl Text {
    /// The text, where it may stand in a row.
    pub fn new(text: String) -> Option<Self>
        ensures fits { IsSome result ↔ IsTrue (is_text (string_bytes text)) }
        ensures value { IfSome result (λ t. t ≡ string_bytes text) }
    {
        if is_text(text.as_str()) {
            Some(Text { text })
        } else {
            None
        }
    }

    pub fn as_str(&self) -> &str
        ensures value { result.now ≡ self.now }
        ensures fits { IsTrue (is_text self.now) }
    {
        self.text.as_str()
    }

    /// An equal text.
    pub fn copy(&self, alloc: Global) -> Result<Self, AllocError>
        ensures { IfOk result (λ text. text ≡ self.now) }
    {
        let text = String::from_str(alloc, self.text.as_str())?;
        Ok(Text { text })
    }

    /// Whether the texts are equal.
    pub fn equals(&self, other: &Text) -> bool
        ensures value { result ≡ bytes_eq self.now other.now }
        ensures same { IsTrue result ↔ (self.now ≡ other.now) }
    {
        self.text.as_str() == other.text.as_str()
    }
}
