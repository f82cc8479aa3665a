//! The length of a body, as the fields of a head tell it.
ghost use Rattle.std.specs.Prelude.{◌≡◌, length, map, All};
ghost use Rattle.httparse.specs.Spans.{IsHeaderWithin, header_bytes};
ghost use Rattle.desk_http.specs.Targets.{number_of};
ghost use Rattle.desk_http.specs.Plans.{body_length, length_within};

use crate::field::{FieldValue, find_field, has_field};
use crate::rejection::Rejection;
use crate::target::read_number;
use httparse::spans::HeaderSpan;

fn read_length(text: &[u8]) -> Result<usize, Rejection>
    ensures { result ≡ length_within (number_of text.now) }
{
    match read_number(text) {
        None => Err(Rejection::BadRequest),
        Some(n) => {
            if n > 1_048_576 {
                Err(Rejection::BodyTooLarge)
            } else {
                Ok(n as usize)
            }
        }
    }
}

/// The length of the body that the fields of a POST tell.
pub fn read_body_length(head: &[u8], spans: &[HeaderSpan]) -> Result<usize, Rejection>
    requires { All (IsHeaderWithin (length head.now)) spans.now }
    ensures { result ≡ body_length (map (header_bytes head.now) spans.now) }
{
    if has_field(head, spans, b"transfer-encoding") {
        return Err(Rejection::BadRequest);
    }
    match find_field(head, spans, b"content-length") {
        FieldValue::Missing => Err(Rejection::LengthRequired),
        FieldValue::One(text) => read_length(text),
        FieldValue::Several => Err(Rejection::BadRequest),
    }
}
