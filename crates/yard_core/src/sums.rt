//! What the history records of a part, and what lies in stock.
ghost use Rattle.std.specs.Prelude.{◌≡◌, sum_by};
ghost use Rattle.forest.specs.Forest.{amount, counted};
ghost use Rattle.forest.specs.Tables.{node_of};

use forest::{Entry, Item, Kind};
use part_core::Id;

/// The sums over one part: what the history records of it by kind, and its pieces that are at
/// locations, sent, and used, loose or installed at any depth. Each fits 128 bits whatever the history.
#[derive(Clone, Copy, Debug)]
pub struct Sums {
    pub received: u128,
    pub found: u128,
    pub built: u128,
    pub returned: u128,
    pub consumed: u128,
    pub shipped: u128,
    pub written: u128,
    pub present: u128,
    pub sent: u128,
    pub used: u128,
}

/// The item's quantity, where it is of the part.
pub fn amount_of(part: Id, item: &Item) -> u64
    ensures { result ≡ amount part (node_of item.now) }
{
    if item.part == part { item.quantity } else { 0 }
}

/// The entry's quantity, where it is of the kind and the part.
fn counted_of(kind: Kind, part: Id, entry: &Entry) -> u64
    ensures { result ≡ counted kind part entry.now.note }
{
    if entry.note.kind.code() == kind.code() && entry.note.part == part {
        entry.note.quantity
    } else {
        0
    }
}

/// The quantities of the entries of the kind and the part, added up. They fit 128 bits however many there are.
pub fn recorded(kind: Kind, part: Id, entries: &[Entry]) -> u128
    ensures { result ≡ sum_by (λ e. counted kind part e.note) entries.now }
{
    let mut total = 0;
    for entry in entries {
        total += u128::from(counted_of(kind, part, entry));
    }
    total
}
