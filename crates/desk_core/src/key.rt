//! The key of a request.
ghost use Rattle.std.specs.Prelude.{◌≡◌, ◌↔◌, true, IsTrue, IsSome, IfOk, IfSome};
ghost use Rattle.std.specs.String.{string_bytes};
ghost use Rattle.std.specs.List.{list_all};
ghost use Rattle.desk_core.specs.Key.{is_key, is_visible};

use std::alloc::{AllocError, Global};
use std::marker::Model;

/// What a clerk calls a request by, so that it is done once however often it is sent: 1 to 80 bytes, each
/// a visible character of ASCII (0x21 to 0x7E). A clause sees its bytes.
#[derive(Drop)]
pub struct Key {
    text: String,
}

impl Model for Key {
    ghost use Rattle.std.specs.Prelude.{ℕ, List, ◌≡◌, true};
    ghost use Rattle.std.specs.String.{string_bytes};
    ghost use Rattle.desk_core.specs.Key.{is_key};

    ghost Value = { List ℕ };

    ghost view = { λ k. string_bytes k.text };

    ghost invariant = { λ k. is_key (string_bytes k.text) ≡ true };
}

fn are_visible(bytes: &[u8]) -> bool
    ensures { result ≡ list_all is_visible bytes.now }
{
    bytes.iter().all(|b| 33 <= *b && *b <= 126)
}

/// Whether a text is a key.
pub fn is_key(text: &str) -> bool
    ensures { result ≡ is_key text.now }
{
    0 < text.len() && text.len() <= 80 && are_visible(text.as_bytes())
}

impl Key {
    /// The key of this text, where it is one.
    pub fn new(text: String) -> Option<Self>
        ensures fits { IsSome result ↔ IsTrue (is_key (string_bytes text)) }
        ensures value { IfSome result (λ key. key ≡ string_bytes text) }
    {
        if is_key(text.as_str()) {
            Some(Key { text })
        } else {
            None
        }
    }

    pub fn as_str(&self) -> &str
        ensures value { result.now ≡ self.now }
        ensures fits { IsTrue (is_key self.now) }
    {
        self.text.as_str()
    }

    /// The key as a text of its own, by which a kept answer is looked up.
    pub fn text(&self) -> &String
        ensures value { string_bytes result.now ≡ self.now }
        ensures fits { is_key self.now ≡ true }
    {
        &self.text
    }

    /// Whether the keys are equal.
    pub fn equals(&self, other: &Key) -> bool
        ensures { IsTrue result ↔ (self.now ≡ other.now) }
    {
        self.text.as_str() == other.text.as_str()
    }

    /// An equal key.
    pub fn copy(&self, alloc: Global) -> Result<Self, AllocError>
        ensures { IfOk result (λ key. key ≡ self.now) }
    {
        let text = String::from_str(alloc, self.text.as_str())?;
        Ok(Key { text })
    }
}
