//! The side of an order.
ghost use Rattle.std.specs.Prelude.{◌≡◌, ◌↔◌, IsTrue};
ghost use Rattle.word_core.specs.Side.{all_sides, is_sale, side_code, side_name, side_of, sides_told};

use crate::worded::Worded;

/// Whether stock comes or goes by an order: it is bought from a partner, or sold to one.
#[derive(Clone, Copy, Debug, PartialEq, Eq)]
pub enum Side {
    Purchase,
    Sale,
}

impl Side {
    /// Whether stock goes by it.
    pub fn is_sale(self) -> bool
        ensures { result ≡ is_sale self }
    {
        matches!(self, Side::Sale)
    }

    /// The side's number, as a file has it.
    pub fn code(self) -> u64
        ensures { result ≡ side_code self }
    {
        match self {
            Side::Purchase => 0,
            Side::Sale => 1,
        }
    }

    /// The side of that number, none where there is none.
    pub fn from_code(code: u64) -> Option<Side>
        ensures { result ≡ side_of code }
    {
        match code {
            0 => Some(Side::Purchase),
            1 => Some(Side::Sale),
            _ => None,
        }
    }

    /// Whether the sides are the same.
    pub fn equals(self, other: Side) -> bool
        ensures { IsTrue result ↔ (self ≡ other) }
    {
        self == other
    }
}

impl Worded for Side {
    ghost word_of = { side_name };

    ghost all_of = { all_sides };

    ghost told = { sides_told };

    fn all() -> &'static [Side] {
        &[Side::Purchase, Side::Sale]
    }

    fn word(self) -> &'static str {
        match self {
            Side::Purchase => "purchase",
            Side::Sale => "sale",
        }
    }
}
