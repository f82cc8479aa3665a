//! A way that is written as one text, as lists show it: names from the top of a tree, with ` / ` between two.
ghost use Rattle.std.specs.Prelude.{◌≡◌, None, Ok, length, option_map};
ghost use Rattle.desk_wire.specs.Steps.{Gives};
ghost use Rattle.desk_wire.specs.TextWays.{by_text_way, cut_at_stroke, led_by};

use crate::fault::Unread;
use desk_core::Names;
use part_core::Found;

/// What stands before the first ` / ` of the text, and what behind it: the whole text, where it has none.
#[tactic(auto, using(crate::proofs::Strokes::cut_none))]
fn cut_at_stroke(text: &str) -> (&str, Option<&str>)
    ensures { (result.0.now, option_map (λ rest. rest.now) result.1) ≡ cut_at_stroke text.now }
{
    match text.split_once(" / ") {
        Some((name, rest)) => (name, Some(rest)),
        None => (text, None),
    }
}

/// The category to which the names of the text lead from the top.
fn led_to_category<N: Names>(names: &N, text: &str) -> Result<Found, Unread>
    ensures { Gives result (Ok (led_by (N.naming_of names.now).category (length text.now) None text.now)) }
{
    let mut parent = None;
    let mut left = text;
    for _step in 0..text.len() {
        let (name, rest) = cut_at_stroke(left);
        match names.category(parent, name)? {
            Found::Nothing => return Ok(Found::Nothing),
            Found::Several => return Ok(Found::Several),
            Found::One(number) => match rest {
                None => return Ok(Found::One(number)),
                Some(rest) => {
                    parent = Some(number);
                    left = rest;
                }
            },
        }
    }
    Ok(Found::Nothing)
}

/// The location to which the names of the text lead from the top.
fn led_to_location<N: Names>(names: &N, text: &str) -> Result<Found, Unread>
    ensures { Gives result (Ok (led_by (N.naming_of names.now).location (length text.now) None text.now)) }
{
    let mut parent = None;
    let mut left = text;
    for _step in 0..text.len() {
        let (name, rest) = cut_at_stroke(left);
        match names.location(parent, name)? {
            Found::Nothing => return Ok(Found::Nothing),
            Found::Several => return Ok(Found::Several),
            Found::One(number) => match rest {
                None => return Ok(Found::One(number)),
                Some(rest) => {
                    parent = Some(number);
                    left = rest;
                }
            },
        }
    }
    Ok(Found::Nothing)
}

/// The category at the top that has the name, or else the one to which the text is the way.
pub fn category_by_text<N: Names>(names: &N, text: &str) -> Result<Found, Unread>
    ensures { Gives result (Ok (by_text_way (N.naming_of names.now).category text.now)) }
{
    match names.category(None, text)? {
        Found::Nothing => led_to_category(names, text),
        Found::One(number) => Ok(Found::One(number)),
        Found::Several => Ok(Found::Several),
    }
}

/// The location at the top that has the name, or else the one to which the text is the way.
pub fn location_by_text<N: Names>(names: &N, text: &str) -> Result<Found, Unread>
    ensures { Gives result (Ok (by_text_way (N.naming_of names.now).location text.now)) }
{
    match names.location(None, text)? {
        Found::Nothing => led_to_location(names, text),
        Found::One(number) => Ok(Found::One(number)),
        Found::Several => Ok(Found::Several),
    }
}
