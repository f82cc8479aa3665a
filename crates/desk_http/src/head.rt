//! What the bytes of a head are.
ghost use Rattle.std.specs.Prelude.{◌≡◌, ◌≤◌, ◌<◌, ℕ, List, [], length};
ghost use Rattle.httparse.specs.Grammar.{RequestHead, ReadsRequest};
ghost use Rattle.desk_http.specs.Heads.{IsHead, HeadParts, Class, WellFormed, TooManyFields};
ghost use Rattle.desk_http.specs.Spans.{class_of, LiesWithin};

use httparse::spans::{HeaderSpan, RequestSpans, parse_request};
use httparse::{Error, Status};

/// What a head is, and where its parts lie.
#[derive(Clone, Copy)]
pub enum Head {
    WellFormed(RequestSpans),
    /// It has more than 64 fields.
    TooManyFields,
    Malformed,
}

/// What these bytes are, all of them.
#[tactic(auto, using(crate::proofs::Sorting::whole, crate::proofs::Sorting::longer, crate::proofs::Sorting::refused_partial, crate::proofs::Sorting::refused_ever, crate::proofs::Sorting::many))]
pub fn read_head(bytes: &[u8], spans: &mut [HeaderSpan]) -> Head
    requires { length spans.old ≡ 64 }
    ensures head { IsHead bytes.now (class_of bytes.now spans.new result) }
    ensures within { LiesWithin bytes.now spans.new result }
{
    match parse_request(bytes, spans) {
        Ok(Status::Complete(found)) => {
            if found.len == bytes.len() {
                Head::WellFormed(found)
            } else {
                Head::Malformed
            }
        }
        Ok(Status::Partial) => Head::Malformed,
        Err(Error::TooManyHeaders) => Head::TooManyFields,
        Err(_) => Head::Malformed,
    }
}

/// A head of the grammar is of one class: with at most 64 fields it is read, with more it is too large. A head that is
/// malformed and has more than 64 field lines may be called either.
pub fn one_class()
    ensures whole { (bytes : List ℕ) (p : HeadParts) (c : Class) → IsHead bytes (WellFormed p)
        → IsHead bytes c → c ≡ WellFormed p }
    ensures many { (bytes : List ℕ) (h : RequestHead) (c : Class) → ReadsRequest bytes h []
        → 64 < length h.fields → IsHead bytes c → c ≡ TooManyFields }
{}
