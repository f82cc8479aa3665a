//! A list by its name, with what is said beside it.
ghost use Rattle.std.specs.Prelude.{◌≡◌, option_map};
ghost use Rattle.list_words.specs.Lists.{list_by, listed_of, other_by, stock_by, trace_by};
ghost use Rattle.list_words.specs.Lists.{way_back, way_forward, word_of};

use list_core::Days;
use report_core::ReportName;

/// The list that is asked for. What it is of is said by a word, which is looked up once the desk is there.
#[derive(Clone, Copy, Debug)]
pub enum ListOf<'a> {
    /// What is in stock; with an amount those parts alone of which less is free.
    Stock(Option<u64>),
    /// What lies at a location and below it.
    At(&'a str),
    /// All that there is of a part.
    Part(&'a str),
    /// All that there is of an item.
    Item(&'a str),
    /// The orders; where it is true, the open ones alone.
    Orders(bool),
    /// The builds; where it is true, the open ones alone.
    Builds(bool),
    /// What is found by this word.
    Find(&'a str),
    /// What open builds lack.
    Shortages,
    /// Where the items of a batch went, or where an item went.
    TraceForward(&'a str),
    /// Where an item came from.
    TraceBack(&'a str),
    /// What is to be counted at a location and below it, or everywhere.
    CountSheet(Option<&'a str>),
    /// What is still to come by an order, or by all purchases that are under way.
    ReceiptSheet(Option<&'a str>),
    /// The history of these days, of a part, an item or an order, or of all.
    History(Option<&'a str>, Days<'a>),
    /// The report of that name, in its second form.
    Report(ReportName, &'a str),
}

impl<'a> ListOf<'a> {
    /// The word that says what row it is of, if it is of one.
    pub fn word(&self) -> Option<&'a str>
        ensures { result ≡ word_of self.now }
    {
        match self {
            ListOf::At(word)
            | ListOf::Part(word)
            | ListOf::Item(word)
            | ListOf::TraceForward(word)
            | ListOf::TraceBack(word)
            | ListOf::Report(_, word) => Some(*word),
            ListOf::CountSheet(word) | ListOf::ReceiptSheet(word) | ListOf::History(word, _) =>
                *word,
            _ => None,
        }
    }
}

/// The list of what is in stock, if no other word goes with it than an amount.
fn stock_list<'a>(of: Option<&str>, low: Option<u64>, only_open: bool) -> Option<ListOf<'a>>
    ensures { option_map listed_of result
        ≡ stock_by (option_map (λ t. t.now) of.entry) low only_open }
{
    if of.is_some() || only_open {
        return None;
    }
    Some(ListOf::Stock(low))
}

/// The list of that name, if these words go with it. Those of what is in stock and of ways are other functions'.
fn other_list<'a>(name: &str, of: Option<&'a str>, only_open: bool) -> Option<ListOf<'a>>
    ensures { option_map listed_of result
        ≡ other_by name.now (option_map (λ t. t.now) of.entry) only_open }
{
    match (name, of, only_open) {
        ("at", Some(location), false) => Some(ListOf::At(location)),
        ("part", Some(part), false) => Some(ListOf::Part(part)),
        ("item", Some(item), false) => Some(ListOf::Item(item)),
        ("orders", None, _) => Some(ListOf::Orders(only_open)),
        ("builds", None, _) => Some(ListOf::Builds(only_open)),
        ("find", Some(word), false) => Some(ListOf::Find(word)),
        ("shortages", None, false) => Some(ListOf::Shortages),
        ("count-sheet", _, false) => Some(ListOf::CountSheet(of)),
        ("receipt-sheet", _, false) => Some(ListOf::ReceiptSheet(of)),
        _ => None,
    }
}

/// The list of where something went that a word says.
fn forward_list(of: Option<&str>, only_open: bool) -> Option<ListOf<'_>>
    ensures { option_map listed_of result
        ≡ way_forward (option_map (λ t. t.now) of.entry) only_open }
{
    if only_open {
        return None;
    }
    Some(ListOf::TraceForward(of?))
}

/// The list of where an item came from that a word says.
fn back_list(of: Option<&str>, only_open: bool) -> Option<ListOf<'_>>
    ensures { option_map listed_of result
        ≡ way_back (option_map (λ t. t.now) of.entry) only_open }
{
    if only_open {
        return None;
    }
    Some(ListOf::TraceBack(of?))
}

/// The list of that name, if these words go with it. That of what is in stock is another function's.
fn trace_list<'a>(name: &str, of: Option<&'a str>, only_open: bool) -> Option<ListOf<'a>>
    ensures { option_map listed_of result
        ≡ trace_by name.now (option_map (λ t. t.now) of.entry) only_open }
{
    match name {
        "trace-forward" => forward_list(of, only_open),
        "trace-back" => back_list(of, only_open),
        _ => other_list(name, of, only_open),
    }
}

/// The list of that name, if these words go with it: what it is of, the amount below which a part is low, and that the
/// open ones alone are meant.
pub fn list_called<'a>(
    name: &str,
    of: Option<&'a str>,
    low: Option<u64>,
    only_open: bool,
) -> Option<ListOf<'a>>
    ensures { option_map listed_of result
        ≡ list_by name.now (option_map (λ t. t.now) of.entry) low only_open }
{
    if name == "stock" {
        return stock_list(of, low, only_open);
    }
    if low.is_some() {
        return None;
    }
    trace_list(name, of, only_open)
}
