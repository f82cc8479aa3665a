//! The fields of a head, by their names.
ghost use Rattle.std.specs.Prelude.{◌≡◌, length, map, All};
ghost use Rattle.std.specs.List.{list_any};
ghost use Rattle.std.specs.Str.{str_eq_ignore_ascii_case};
ghost use Rattle.httparse.specs.Spans.{IsHeaderWithin, header_bytes};
ghost use Rattle.desk_http.specs.Fields.{is_named, said, said_in};

use httparse::spans::HeaderSpan;

/// What the fields of one name say.
#[derive(Clone, Copy)]
pub enum FieldValue<'b> {
    /// There is no field of the name.
    Missing,
    /// There is one, with this value.
    One(&'b [u8]),
    /// There are several, whatever they say.
    Several,
}

/// Whether two texts differ in the case of letters alone.
#[tactic(auto, using(crate::proofs::Numbers::as_test))]
pub fn is_same_text(a: &[u8], b: &[u8]) -> bool
    ensures { result ≡ str_eq_ignore_ascii_case a.now b.now }
{
    a.eq_ignore_ascii_case(b)
}

/// Whether a field has this name, in whatever case.
pub fn has_field(head: &[u8], spans: &[HeaderSpan], name: &[u8]) -> bool
    requires { All (IsHeaderWithin (length head.now)) spans.now }
    ensures { result ≡ list_any (is_named name.now) (map (header_bytes head.now) spans.now) }
{
    for span in spans {
        if is_same_text(span.name.of(head), name) {
            return true;
        }
    }
    false
}

/// What the fields of this name say, in whatever case it is written.
pub fn find_field<'b>(head: &'b [u8], spans: &[HeaderSpan], name: &[u8]) -> FieldValue<'b>
    requires { All (IsHeaderWithin (length head.now)) spans.now }
    ensures { said_in result ≡ said name.now (map (header_bytes head.now) spans.now) }
{
    let mut found: Option<&[u8]> = None;
    for span in spans {
        if !is_same_text(span.name.of(head), name) {
            continue;
        }
        if found.is_some() {
            return FieldValue::Several;
        }
        found = Some(span.value.of(head));
    }
    match found {
        None => FieldValue::Missing,
        Some(value) => FieldValue::One(value),
    }
}
