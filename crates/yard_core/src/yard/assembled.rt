//! A yard of rows that were read from a file, and whether it is sound.
ghost use Rattle.std.specs.Prelude.{◌≡◌, ◌↔◌, IsTrue, IsSome, IfOk, IfSome, map};
ghost use Rattle.std.specs.List.{All};
ghost use Rattle.yard_core.specs.SoundLocations.{AreSoundLocations, IsSoundLocation};
ghost use Rattle.yard_core.specs.Stock.{IsRun, IsSound};
ghost use Rattle.yard_core.specs.YardView.{stock_before, stock_from, stock_of};

use crate::Location;
use crate::opening::{are_sound_rows, rows_in_order};
use crate::yard::Yard;
use forest::{Entry, Item};
use part_core::{Id, IndexedSheet, Log, Seed, has_parent};
use std::alloc::{AllocError, Global};

impl Yard {
    /// The yard of these rows, now and before: none where the entries aren't numbered 1, 2 and so on, in their order. An
    /// error is one of memory.
    pub fn assemble(
        alloc: Global,
        seed: Seed,
        locations: Vec<Location>,
        items: Vec<Item>,
        history: Vec<Entry>,
    ) -> Result<Option<Self>, AllocError>
        ensures numbered { IfOk result (λ yard. IsSome yard ↔ IsRun 1 history.items) }
        ensures now { IfOk result (λ yard. IfSome yard (λ y.
            stock_of y ≡ stock_from locations.items items.items history.items)) }
        ensures before { IfOk result (λ yard. IfSome yard (λ y.
            stock_before y ≡ stock_from locations.items items.items history.items)) }
    {
        let Some(history) = Log::filled(alloc, history)? else {
            return Ok(None);
        };
        let locations = IndexedSheet::filled(alloc, seed, locations)?;
        let items = IndexedSheet::filled(alloc, seed, items)?;
        Ok(Some(Yard {
            locations,
            items,
            history,
            alloc,
        }))
    }

    /// Whether the location is sound, where the numbers below `next` were drawn.
    fn is_location_sound(&self, next: Id, location: &Location) -> bool
        ensures { IsTrue result ↔ IsSoundLocation next (stock_of self.now) location.now }
    {
        location.number >= 1 && location.number < next && has_parent(&self.locations, location)
    }

    /// Whether each of the locations is sound, where the numbers below `next` were drawn.
    fn is_each_location_sound(&self, next: Id, rows: &[&Location]) -> bool
        ensures { IsTrue result ↔ All (IsSoundLocation next (stock_of self.now))
            (map (λ x. x.now) rows.now) }
    {
        for location in rows {
            if !self.is_location_sound(next, location) {
                return false;
            }
        }
        true
    }

    /// Whether the locations are sound, where the numbers below `next` were drawn: each has a number of those, and a
    /// parent that is there and has a smaller one, or none. It looks up one location for each. An error is one of
    /// memory.
    pub fn are_locations_sound(&self, next: Id) -> Result<bool, AllocError>
        ensures { IfOk result (λ sound.
            IsTrue sound ↔ AreSoundLocations next (stock_of self.now)) }
    {
        if next == 0 {
            return Ok(false);
        }
        let rows = rows_in_order(self.locations.rows())?;
        Ok(self.is_each_location_sound(next, rows.as_slice()))
    }

    /// Whether the items are the flat table of a sound forest, and the history agrees with it. It climbs from each item
    /// at most 16 steps, four times, and keeps what it sums of each part. An error is one of memory.
    pub fn is_sound(&self) -> Result<bool, AllocError>
        ensures { IfOk result (λ sound. IsTrue sound ↔ IsSound (stock_of self.now)) }
    {
        let items = self.items.rows();
        let rows = rows_in_order(items)?;
        let entries = self.history.as_slice();
        let sound = are_sound_rows(self.alloc, items, rows.as_slice(), entries)?;
        Ok(sound)
    }
}
