//! Names of fields.
ghost use Rattle.std.specs.Prelude.{◌≡◌};

use std::marker::Model;

/// The name of a field, as a form has it, or the header of a file. A clause sees its bytes.
#[derive(Debug, Drop)]
pub struct FieldName {
    text: &'static str,
}

impl Model for FieldName {
    ghost use Rattle.std.specs.Prelude.{ℕ, List};

    ghost Value = { List ℕ };

    ghost view = { λ name. name.text.now };
}

impl FieldName {
    /// The name that this text is.
    pub fn new(text: &'static str) -> Self
        ensures { result ≡ text.now }
    {
        FieldName { text }
    }

    pub fn as_str(&self) -> &'static str
        ensures { result.now ≡ self.now }
    {
        self.text
    }
}
