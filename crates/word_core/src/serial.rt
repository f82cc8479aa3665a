//! Serial numbers.
ghost use Rattle.std.specs.Prelude.{◌≡◌, ◌↔◌, IsTrue, IsSome, IfOk, IfSome};
ghost use Rattle.std.specs.String.{string_bytes};
ghost use Rattle.std.specs.List.{list_all};
ghost use Rattle.word_core.specs.Serial.{is_serial, is_serial_byte};

use std::alloc::{AllocError, Global};
use std::marker::Model;

/// A serial number: 1 to 24 ASCII letters, digits, `.`, `_`, `/` and `-`. A clause sees its bytes.
#[derive(Drop)]
pub struct Serial {
    text: String,
}

impl Model for Serial {
    ghost use Rattle.std.specs.Prelude.{ℕ, List, ◌≡◌, true};
    ghost use Rattle.std.specs.String.{string_bytes};
    ghost use Rattle.word_core.specs.Serial.{is_serial};

    ghost Value = { List ℕ };

    ghost view = { λ s. string_bytes s.text };

    ghost invariant = { λ s. is_serial (string_bytes s.text) ≡ true };
}

fn is_serial_byte(b: u8) -> bool
    ensures { result ≡ is_serial_byte b }
{
    b.is_ascii_alphanumeric() || b == b'.' || b == b'_' || b == b'/' || b == b'-'
}

/// Whether each byte may stand in a serial number.
pub fn are_serial(bytes: &[u8]) -> bool
    ensures { result ≡ list_all is_serial_byte bytes.now }
{
    bytes.iter().all(|b| is_serial_byte(*b))
}

/// Whether a text is a serial number.
fn is_serial(text: &str) -> bool
    ensures { result ≡ is_serial text.now }
{
    0 < text.len() && text.len() <= 24 && are_serial(text.as_bytes())
}

impl Serial {
    /// The serial number of this text, where it is one.
    pub fn new(text: String) -> Option<Self>
        ensures fits { IsSome result ↔ IsTrue (is_serial (string_bytes text)) }
        ensures value { IfSome result (λ s. s ≡ string_bytes text) }
    {
        if is_serial(text.as_str()) {
            Some(Serial { text })
        } else {
            None
        }
    }

    pub fn as_str(&self) -> &str
        ensures value { result.now ≡ self.now }
        ensures fits { IsTrue (is_serial self.now) }
    {
        self.text.as_str()
    }

    /// An equal serial number.
    pub fn copy(&self, alloc: Global) -> Result<Self, AllocError>
        ensures { IfOk result (λ serial. serial ≡ self.now) }
    {
        let text = String::from_str(alloc, self.text.as_str())?;
        Ok(Serial { text })
    }

    /// Whether the serial numbers are equal.
    pub fn equals(&self, other: &Serial) -> bool
        ensures { IsTrue result ↔ (self.now ≡ other.now) }
    {
        self.text.as_str() == other.text.as_str()
    }
}

/// Serial numbers, in order. A clause sees the list.
#[derive(Drop)]
pub struct Serials {
    items: Vec<Serial>,
}

impl Model for Serials {
    ghost use Rattle.std.specs.Prelude.{ℕ, List};

    ghost Value = { List (List ℕ) };

    ghost view = { λ a. a.items.items };
}

fn copies(alloc: Global, serials: &[Serial]) -> Result<Vec<Serial>, AllocError>
    ensures { IfOk result (λ copies. copies.items ≡ serials.now) }
{
    let mut copies = Vec::new(alloc);
    for serial in serials {
        copies.push(serial.copy(alloc)?)?;
    }
    Ok(copies)
}

impl Serials {
    pub fn new(items: Vec<Serial>) -> Self
        ensures { result ≡ items.items }
    {
        Serials { items }
    }

    pub fn as_slice(&self) -> &[Serial]
        ensures { result.now ≡ self.now }
    {
        self.items.as_slice()
    }

    /// An equal list.
    pub fn copy(&self, alloc: Global) -> Result<Self, AllocError>
        ensures { IfOk result (λ serials. serials ≡ self.now) }
    {
        let items = copies(alloc, self.items.as_slice())?;
        Ok(Serials { items })
    }
}
