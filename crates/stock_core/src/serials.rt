//! Serials that new items are to have.
ghost use Rattle.std.specs.Prelude.{◌≡◌};
ghost use Rattle.std.specs.List.{list_any};
ghost use Rattle.std.specs.Str.{bytes_eq};
ghost use Rattle.part_core.specs.CatalogueView.{parts_of};
ghost use Rattle.word_core.specs.Twice.{stands_twice};
ghost use Rattle.yard_core.specs.YardView.{stock_of};
ghost use Rattle.stock_core.specs.Serials.{are_many, are_taken, is_one_held, is_other_count};

use part_core::{Catalogue, Id, Quantity, Serial};
use yard_core::Yard;

/// A command names at most so many serials.
const MOST_SERIALS: usize = 1000;

/// Whether more serials are named than a command may.
pub fn are_many(serials: &[Serial]) -> bool
    ensures { result ≡ are_many serials.now }
{
    serials.len() > MOST_SERIALS
}

/// Whether there are more or fewer serials than pieces.
pub fn is_other_count(quantity: Quantity, serials: &[Serial]) -> bool
    ensures { result ≡ is_other_count quantity serials.now }
{
    serials.len() as u64 != quantity
}

/// Whether a serial is among others.
fn is_among(serial: &Serial, others: &[Serial]) -> bool
    ensures { result ≡ list_any (λ other. bytes_eq other serial.now) others.now }
{
    others.iter().any(|other| other.equals(serial))
}

/// Whether a serial stands twice in the list. It compares each with all that follow.
fn stands_twice(serials: &[Serial]) -> bool
    ensures { result ≡ stands_twice bytes_eq serials.now }
{
    for i in 0..serials.len() {
        if is_among(&serials[i], &serials[i + 1..]) {
            return true;
        }
    }
    false
}

/// Whether a serial of the list is held in the part's family.
fn is_one_held(catalogue: &Catalogue, yard: &Yard, part: Id, serials: &[Serial]) -> bool
    ensures { result ≡ is_one_held part (parts_of catalogue.now) (stock_of yard.now) serials.now }
{
    serials
        .iter()
        .any(|serial| !yard.serial_free(catalogue, serial, part))
}

/// Whether a serial stands twice in the list, or is held in the part's family. The family is asked first, since it costs
/// less: of a delivery that is read again the first serial tells.
pub fn are_taken(catalogue: &Catalogue, yard: &Yard, part: Id, serials: &[Serial]) -> bool
    ensures { result ≡ are_taken part (parts_of catalogue.now) (stock_of yard.now) serials.now }
{
    if is_one_held(catalogue, yard, part, serials) {
        return true;
    }
    stands_twice(serials)
}
