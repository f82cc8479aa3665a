//! Quotes that are open where a file ends.
ghost use Rattle.std.specs.Prelude.{◌≡◌, ◌||◌, ◌==◌, Some};
ghost use Rattle.csv.specs.Machine.{in_field, is_end, step};
ghost use Rattle.csv.specs.Reading.{strip_bom};
ghost use Rattle.csv.specs.declared.parser.State.{State};
ghost use Rattle.desk_wire.specs.Layouts.{ends_record, place_of};
ghost use Rattle.desk_wire.specs.Quotes.{open_record};
ghost use Rattle.desk_wire.specs.Records.{config_by};

/// Where a byte stands in a record.
#[derive(Clone, Copy, PartialEq, Eq)]
enum Place {
    /// Between two records.
    Between,
    /// At the start of a field that another one comes before.
    Start,
    /// In a field without quotes, or behind quotes that are closed.
    Plain,
    /// Between a quote and the one that closes it.
    Quoted,
    /// Behind a quote in quotes, which closes them unless another quote follows.
    Closing,
}

/// Whether a line ends with this byte.
fn ends_line(byte: u8) -> bool
    ensures { result ≡ ((byte == 13) || (byte == 10)) }
{
    byte == b'\r' || byte == b'\n'
}

impl Place {
    /// The place behind a byte that isn't quoted, and is no quote that opens a field.
    fn behind_plain(separator: u8, byte: u8) -> Place
        ensures { place_of (in_field (config_by separator) byte).0 ≡ Some result }
    {
        if byte == separator {
            Place::Start
        } else if ends_line(byte) {
            Place::Between
        } else {
            Place::Plain
        }
    }

    /// Whether a byte ends a record that stands here, and has that place behind it.
    fn ends_record(self, next: Place) -> bool
        ensures { result ≡ ends_record self next }
    {
        self != Place::Between && next == Place::Between
    }

    /// The place behind a byte that stands here.
    fn behind(self, separator: u8, byte: u8) -> Place
        ensures place { (state : State) → place_of state ≡ Some self
            → place_of (step (config_by separator) state byte).0 ≡ Some result }
        ensures ends { (state : State) → place_of state ≡ Some self
            → is_end (step (config_by separator) state byte).1 ≡ ends_record self result }
    {
        match self {
            Place::Between if ends_line(byte) => Place::Between,
            Place::Between | Place::Start if byte == b'"' => Place::Quoted,
            Place::Closing if byte == b'"' => Place::Quoted,
            Place::Quoted if byte == b'"' => Place::Closing,
            Place::Quoted => Place::Quoted,
            _ => Place::behind_plain(separator, byte),
        }
    }
}

/// A text without the mark of its byte order.
fn without_mark(bytes: &[u8]) -> &[u8]
    ensures { result.now ≡ strip_bom bytes.now }
{
    if bytes.starts_with(b"\xef\xbb\xbf") {
        &bytes[3..]
    } else {
        bytes
    }
}

/// The number of the record in which a quote is opened that nothing closes, where that separator stands between two
/// fields: the last record of the file, of which the first has the number 1.
pub fn open_record(separator: u8, bytes: &[u8]) -> Option<u64>
    ensures { result ≡ open_record (config_by separator) (strip_bom bytes.now) }
{
    let mut place = Place::Between;
    let mut ended = 0;
    for (index, byte) in without_mark(bytes).iter().enumerate() {
        let next = place.behind(separator, *byte);
        if place.ends_record(next) {
            ended += 1;
        }
        place = next;
    }
    match place {
        Place::Quoted => Some(ended + 1),
        _ => None,
    }
}
