//! Quantities.
ghost use Rattle.std.specs.Prelude.{◌≡◌};
ghost use Rattle.word_core.specs.Quantity.{is_bad_quantity};

/// An amount of a part in whole pieces: 1 to 1,000,000,000, and 0 for an item that is gone.
pub type Quantity = u64;

/// The largest quantity that an item has and a command names.
pub const LARGEST: Quantity = 1_000_000_000;

/// Whether a quantity that a command names is out of its range, 1 to 1,000,000,000.
pub fn is_bad_quantity(quantity: Quantity) -> bool
    ensures { result ≡ is_bad_quantity quantity }
{
    quantity == 0 || quantity > LARGEST
}
