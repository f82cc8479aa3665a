//! What a client waits for before it sends its body.
ghost use Rattle.std.specs.Prelude.{◌≡◌, ◌&&◌, nat_lt};
ghost use Rattle.desk_http.specs.AccessRules.{has_to_say};
ghost use Rattle.desk_http.specs.Fields.{said_in};
ghost use Rattle.desk_http.specs.Plans.{expects_continue, is_continue};
ghost use Rattle.desk_http.specs.Spans.{class_of, LiesWithin};

use crate::field::{FieldValue, find_field, is_same_text};
use crate::head::Head;
use httparse::spans::HeaderSpan;

fn is_continue(value: FieldValue<'_>) -> bool
    ensures { result ≡ has_to_say is_continue (said_in value.entry) }
{
    match value {
        FieldValue::One(text) => is_same_text(text, b"100-continue"),
        FieldValue::Missing | FieldValue::Several => false,
    }
}

/// Whether a head asks to be told that its body may come. One of HTTP/1.0 can't, since its client knows no interim
/// response.
fn expects_continue(bytes: &[u8], head: Head, spans: &[HeaderSpan]) -> bool
    requires { LiesWithin bytes.now spans.now head }
    ensures { result ≡ expects_continue (class_of bytes.now spans.now head) }
{
    match head {
        Head::WellFormed(found) => {
            let spans = &spans[..found.headers];
            found.version == 1 && is_continue(find_field(bytes, spans, b"expect"))
        }
        Head::TooManyFields | Head::Malformed => false,
    }
}

/// Whether a client waits to be told that its body may come, which has so many bytes, and of which so many have come.
pub fn is_waiting(bytes: &[u8], head: Head, spans: &[HeaderSpan], came: usize, len: usize) -> bool
    requires { LiesWithin bytes.now spans.now head }
    ensures { result
        ≡ (nat_lt came len && expects_continue (class_of bytes.now spans.now head)) }
{
    came < len && expects_continue(bytes, head, spans)
}
