//! Whether the three equations of conservation hold for each part: each is two sums over entries and items, part by
//! part.
ghost use Rattle.std.specs.Prelude.{◌≡◌, ◌↔◌, ℕ, IsTrue, IfOk, map};
ghost use Rattle.yard_core.specs.Climbs.{IsByNumber, in_rows};
ghost use Rattle.yard_core.specs.Shares.{Agree};
ghost use Rattle.yard_core.specs.Equations.{AreBalanced, entry_share, is_counted, is_left};
ghost use Rattle.yard_core.specs.Equations.{is_right, item_share, place_up, shares_of};

use crate::opening::shares::{Share, add_share, are_even};
use crate::opening::trees::row_of;
use forest::{Entry, Item, Kind, Place};
use std::alloc::{AllocError, Global};
use std::collections::BTreeMap;

/// One of the three equations.
#[derive(Clone, Copy)]
pub enum Equation {
    /// What was received, found, built and returned is what is present, consumed, shipped and written off.
    Accounted,
    /// What was shipped is what came back and what is sent.
    Sent,
    /// What was consumed is what is used.
    Used,
}

impl Equation {
    /// Whether entries of the kind stand on the left.
    fn is_left(self, kind: Kind) -> bool
        ensures { result ≡ is_left self kind }
    {
        match self {
            Equation::Accounted => matches!(
                kind,
                Kind::Received | Kind::Found | Kind::Built | Kind::Returned
            ),
            Equation::Sent => matches!(kind, Kind::Shipped),
            Equation::Used => matches!(kind, Kind::Consumed),
        }
    }

    /// Whether entries of the kind stand on the right.
    fn is_right(self, kind: Kind) -> bool
        ensures { result ≡ is_right self kind }
    {
        match self {
            Equation::Accounted => matches!(kind, Kind::Consumed | Kind::Shipped | Kind::Written),
            Equation::Sent => matches!(kind, Kind::Returned),
            Equation::Used => false,
        }
    }

    /// Whether items at the place stand on the right.
    fn is_counted(self, place: Place) -> bool
        ensures { result ≡ is_counted self place }
    {
        match self {
            Equation::Accounted => place.is_at(),
            Equation::Sent => place.is_sent(),
            Equation::Used => place.is_used(),
        }
    }
}

/// What an entry adds to the two sides.
fn entry_share(equation: Equation, entry: &Entry) -> Share
    ensures { result ≡ entry_share equation entry.now }
{
    let left = if equation.is_left(entry.note.kind) {
        entry.note.quantity
    } else {
        0
    };
    let right = if equation.is_right(entry.note.kind) {
        entry.note.quantity
    } else {
        0
    };
    Share {
        part: entry.note.part,
        left,
        right,
    }
}

/// The place of the item that lies in no other, where at most so many steps up lead to it.
#[tactic(auto, unfolding(crate::specs::Equations::place_up))]
fn place_up(rows: &[&Item], item: &Item, steps: u8) -> Option<Place>
    requires { IsByNumber (map (λ x. x.now) rows.now) }
    ensures { result ≡ place_up (in_rows (map (λ x. x.now) rows.now)) steps item.now }
{
    let Place::In(parent) = item.place else {
        return Some(item.place);
    };
    if steps == 0 {
        return None;
    }
    match row_of(rows, parent) {
        None => None,
        Some(over) => place_up(rows, over, steps - 1),
    }
}

/// What an item adds to the two sides.
fn item_share(equation: Equation, rows: &[&Item], item: &Item) -> Share
    requires { IsByNumber (map (λ x. x.now) rows.now) }
    ensures { result ≡ item_share equation (in_rows (map (λ x. x.now) rows.now)) item.now }
{
    let right = match place_up(rows, item, 16) {
        None => 0,
        Some(place) => {
            if equation.is_counted(place) {
                item.quantity
            } else {
                0
            }
        }
    };
    Share {
        part: item.part,
        left: 0,
        right,
    }
}

/// Whether one of the equations holds for each part. It keeps two sums for each part that occurs, and no list of what
/// is added. An error is one of memory.
fn holds(
    alloc: Global,
    equation: Equation,
    rows: &[&Item],
    entries: &[Entry],
) -> Result<bool, AllocError>
    requires { IsByNumber (map (λ x. x.now) rows.now) }
    ensures { IfOk result (λ same. IsTrue same ↔ Agree (shares_of equation
        (map (λ x. x.now) rows.now) entries.now)) }
{
    let mut totals = BTreeMap::new(alloc);
    for entry in entries {
        add_share(&mut totals, entry_share(equation, entry))?;
    }
    for item in rows {
        add_share(&mut totals, item_share(equation, rows, item))?;
    }
    Ok(are_even(&totals))
}

/// Whether the three equations hold for each part. An error is one of memory.
pub fn is_balanced(alloc: Global, rows: &[&Item], entries: &[Entry]) -> Result<bool, AllocError>
    requires { IsByNumber (map (λ x. x.now) rows.now) }
    ensures { IfOk result (λ balanced. IsTrue balanced
        ↔ AreBalanced (map (λ x. x.now) rows.now) entries.now) }
{
    let accounted = holds(alloc, Equation::Accounted, rows, entries)?;
    if !accounted {
        return Ok(false);
    }
    let sent = holds(alloc, Equation::Sent, rows, entries)?;
    if !sent {
        return Ok(false);
    }
    let used = holds(alloc, Equation::Used, rows, entries)?;
    Ok(used)
}
