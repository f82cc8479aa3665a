//! The token that clients show.
ghost use Rattle.std.specs.Prelude.{◌≡◌, ◌==◌, ◌↔◌, true, IsTrue, IsSome, IfSome};
ghost use Rattle.std.specs.List.{before_first, list_all};
ghost use Rattle.std.specs.Str.{bytes_eq};
ghost use Rattle.desk_http.specs.AccessRules.{is_visible, is_token, is_bearer};

use std::marker::Model;

/// A secret text that the clients of a service show: 32 to 128 visible characters of ASCII. A clause sees its bytes.
#[derive(Drop)]
pub struct Token {
    bytes: Vec<u8>,
}

impl Model for Token {
    ghost use Rattle.std.specs.Prelude.{ℕ, List, ◌≡◌, true};
    ghost use Rattle.desk_http.specs.AccessRules.{is_token};

    ghost Value = { List ℕ };

    ghost view = { λ t. t.bytes.items };

    ghost invariant = { λ t. is_token t.bytes.items ≡ true };
}

fn is_visible(b: u8) -> bool
    ensures { result ≡ is_visible b }
{
    b'!' <= b && b <= b'~'
}

fn are_visible(bytes: &[u8]) -> bool
    ensures { result ≡ list_all is_visible bytes.now }
{
    bytes.iter().all(|b| is_visible(*b))
}

fn is_token(bytes: &[u8]) -> bool
    ensures { result ≡ is_token bytes.now }
{
    32 <= bytes.len() && bytes.len() <= 128 && are_visible(bytes)
}

/// The bytes before the first LF, or all where there is none.
pub fn first_line(bytes: &[u8]) -> &[u8]
    ensures { result.now ≡ before_first (λ b. b == 10) bytes.now }
{
    for (i, b) in bytes.iter().enumerate() {
        if *b == b'\n' {
            return &bytes[..i];
        }
    }
    bytes
}

/// Whether two texts are the same. All bytes of two texts of one length are looked at, wherever they differ, so that the
/// time which it takes tells nothing of them but their lengths.
fn is_same(a: &[u8], b: &[u8]) -> bool
    ensures { result ≡ bytes_eq a.now b.now }
{
    if a.len() != b.len() {
        return false;
    }
    let mut same = true;
    for i in 0..a.len() {
        same &= a[i] == b[i];
    }
    same
}

impl Token {
    /// The token of these bytes, if they may be one.
    pub fn new(bytes: Vec<u8>) -> Option<Self>
        ensures fits { IsSome result ↔ IsTrue (is_token bytes.items) }
        ensures value { IfSome result (λ token. token ≡ bytes.items) }
    {
        if is_token(&bytes) {
            Some(Token { bytes })
        } else {
            None
        }
    }

    /// Its bytes.
    pub fn text(&self) -> &[u8]
        ensures { result.now ≡ self.now }
    {
        &self.bytes
    }

    /// Whether a text, the value of a field `Authorization`, shows this token: `Bearer`, a space, and the token.
    pub fn is_shown_by(&self, text: &[u8]) -> bool
        ensures { result ≡ is_bearer self.now text.now }
    {
        match text.strip_prefix(b"Bearer ".as_slice()) {
            Some(shown) => is_same(shown, &self.bytes),
            None => false,
        }
    }
}
