//! Orders and builds, as the stock knows them: by their numbers.
ghost use Rattle.std.specs.Prelude.{◌≡◌};
ghost use Rattle.stock_core.specs.Sound.{Owners};

use part_core::Id;

/// Which numbers are an order's and which a build's: places name them, and their rows stand in crates above.
pub trait KnowsOwners {
    ghost use Rattle.stock_core.specs.Sound.{Owners};

    ghost owners_of: { Self → Owners };

    /// Whether there is an order of that number.
    fn is_order(&self, number: Id) -> bool
        ensures { result ≡ (owners_of self.now).is_order number };

    /// Whether there is a build of that number.
    fn is_build(&self, number: Id) -> bool
        ensures { result ≡ (owners_of self.now).is_build number };
}
