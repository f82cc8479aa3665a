//! Names of the documents that are imported.
ghost use Rattle.std.specs.Prelude.{◌≡◌, ◌↔◌, true, IsTrue, IsSome, IfSome};
ghost use Rattle.std.specs.String.{string_bytes};
ghost use Rattle.std.specs.List.{list_all};
ghost use Rattle.desk_wire.specs.Documents.{is_document, is_document_byte};

use std::marker::Model;

/// The name of a document that is imported: 1 to 32 ASCII letters, digits, `.`, `_` and `-`. A clause sees
/// its bytes.
#[derive(Drop)]
pub struct Document {
    text: String,
}

impl Model for Document {
    ghost use Rattle.std.specs.Prelude.{ℕ, List, ◌≡◌, true};
    ghost use Rattle.std.specs.String.{string_bytes};
    ghost use Rattle.desk_wire.specs.Documents.{is_document};

    ghost Value = { List ℕ };

    ghost view = { λ d. string_bytes d.text };

    ghost invariant = { λ d. is_document (string_bytes d.text) ≡ true };
}

fn is_document_byte(b: u8) -> bool
    ensures { result ≡ is_document_byte b }
{
    b.is_ascii_alphanumeric() || b == b'.' || b == b'_' || b == b'-'
}

fn are_document(bytes: &[u8]) -> bool
    ensures { result ≡ list_all is_document_byte bytes.now }
{
    bytes.iter().all(|b| is_document_byte(*b))
}

fn is_document(text: &str) -> bool
    ensures { result ≡ is_document text.now }
{
    0 < text.len() && text.len() <= 32 && are_document(text.as_bytes())
}

impl Document {
    /// The document of that name, if the text is one.
    pub fn new(text: String) -> Option<Self>
        ensures fits { IsSome result ↔ IsTrue (is_document (string_bytes text)) }
        ensures value { IfSome result (λ d. d ≡ string_bytes text) }
    {
        if is_document(text.as_str()) {
            Some(Document { text })
        } else {
            None
        }
    }

    pub fn as_str(&self) -> &str
        ensures value { result.now ≡ self.now }
        ensures fits { is_document self.now ≡ true }
    {
        self.text.as_str()
    }
}
