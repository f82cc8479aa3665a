//! What a target says behind its first `?`, in words with `&` between them.
ghost use Rattle.std.specs.Prelude.{◌≡◌};
ghost use Rattle.desk_http.specs.Targets.{amount_said, is_loose, is_unsaid, line_words, list_words};
ghost use Rattle.desk_http.specs.Targets.{low_said, once};
ghost use Rattle.desk_http.specs.Targets.{query_of, unsaid, word_said};

use crate::target::read_number;

/// What is said of a list.
#[derive(Clone, Copy, Debug)]
pub struct ListWords {
    /// It is told as comma-separated values.
    pub csv: bool,
    /// The open ones alone are meant.
    pub only_open: bool,
    /// The amount below which a part is low.
    pub low: Option<u64>,
}

/// What is said of lines.
#[derive(Clone, Copy, Debug)]
pub struct LineWords {
    /// The first that is refused or faulty is the last that is run.
    pub stop: bool,
    /// All are looked at before any is run.
    pub check: bool,
}

/// All that may be said, each at most once.
#[derive(Clone, Copy, Debug)]
pub struct Query {
    pub csv: bool,
    pub only_open: bool,
    pub low: Option<u64>,
    pub stop: bool,
    pub check: bool,
    pub loose: bool,
}

impl Query {
    /// Nothing is said.
    pub const UNSAID: Query = Query {
        csv: false,
        only_open: false,
        low: None,
        stop: false,
        check: false,
        loose: false,
    };

    /// What is said of a list, if nothing else is.
    pub fn of_list(self) -> Option<ListWords>
        ensures { result ≡ list_words self }
    {
        if self.stop || self.check || self.loose {
            return None;
        }
        Some(ListWords {
            csv: self.csv,
            only_open: self.only_open,
            low: self.low,
        })
    }

    /// What is said of lines, if nothing else is.
    pub fn of_lines(self) -> Option<LineWords>
        ensures { result ≡ line_words self }
    {
        if self.csv || self.only_open || self.low.is_some() || self.loose {
            return None;
        }
        Some(LineWords {
            stop: self.stop,
            check: self.check,
        })
    }

    /// Whether nothing is said.
    pub fn is_unsaid(self) -> bool
        ensures { result ≡ is_unsaid self }
    {
        !(self.csv || self.only_open || self.low.is_some() || self.stop || self.check || self.loose)
    }

    /// Whether it is said that a file is read loosely, and nothing else.
    pub fn is_loose(self) -> bool
        ensures { result ≡ is_loose self }
    {
        self.loose && !(self.csv || self.only_open || self.low.is_some() || self.stop || self.check)
    }
}

/// What is said, where it wasn't said before.
fn once(before: bool, said: Query) -> Option<Query>
    ensures { result ≡ once before said }
{
    if before { None } else { Some(said) }
}

/// What is said with the amount below which a part is low.
fn add_low(said: Query, number: &[u8]) -> Option<Query>
    ensures { result ≡ low_said said number.now }
{
    let amount = read_number(number)?;
    let low = Some(amount);
    once(said.low.is_some(), Query { low, ..said })
}

/// The same, where a word is the amount.
fn add_amount(said: Query, word: &[u8]) -> Option<Query>
    ensures { result ≡ amount_said said word.now }
{
    match word.strip_prefix(b"low=".as_slice()) {
        Some(number) => add_low(said, number),
        None => None,
    }
}

/// What is said with one word more, if it is one and wasn't said before.
fn add_word(said: Query, word: &[u8]) -> Option<Query>
    ensures { result ≡ word_said said word.now }
{
    if word == b"csv".as_slice() {
        once(said.csv, Query { csv: true, ..said })
    } else if word == b"open".as_slice() {
        let only_open = true;
        once(said.only_open, Query { only_open, ..said })
    } else if word == b"stop".as_slice() {
        once(said.stop, Query { stop: true, ..said })
    } else if word == b"check".as_slice() {
        once(
            said.check,
            Query {
                check: true,
                ..said
            },
        )
    } else if word == b"loose".as_slice() {
        once(
            said.loose,
            Query {
                loose: true,
                ..said
            },
        )
    } else {
        add_amount(said, word)
    }
}

/// What the words say.
pub fn read_query(text: &[u8]) -> Option<Query>
    ensures { result ≡ query_of text.now }
{
    let mut said = Query::UNSAID;
    for word in text.split(|b| *b == b'&') {
        let Some(more) = add_word(said, word) else {
            return None;
        };
        said = more;
    }
    Some(said)
}
