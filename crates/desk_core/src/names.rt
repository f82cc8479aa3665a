//! Rows that are looked up by what a clerk calls them.
ghost use Rattle.std.specs.Prelude.{◌≡◌, IfOk};
ghost use Rattle.desk_core.specs.Naming.{Naming, naming_in, the_number};
ghost use Rattle.desk_core.specs.ShopView.{state_of};

use crate::key::Key;
use crate::shop::Shop;
use part_core::{Found, Id, Serial};
use std::alloc::AllocError;

/// Books whose rows are looked up by their names. An error is one of memory.
pub trait Names {
    /// What each name is found to be.
    ghost naming_of: { Self → Naming };

    /// The part of that name.
    fn part(&self, name: &str) -> Result<Found, AllocError>
        ensures { IfOk result (λ found. found ≡ (naming_of self.now).part name.now) };

    /// The category of that name under this parent, or at the top.
    fn category(&self, parent: Option<Id>, name: &str) -> Result<Found, AllocError>
        ensures { IfOk result (λ found. found ≡ (naming_of self.now).category parent name.now) };

    /// The location of that name under this parent, or at the top.
    fn location(&self, parent: Option<Id>, name: &str) -> Result<Found, AllocError>
        ensures { IfOk result (λ found. found ≡ (naming_of self.now).location parent name.now) };

    /// The newest item of the part with that serial, of those that aren't gone where there is one.
    fn item(&self, part: Id, serial: &Serial) -> Result<Found, AllocError>
        ensures { IfOk result (λ found. found ≡ (naming_of self.now).item part serial.now) };

    /// The one row that the request of that key made. It takes no memory.
    fn made(&self, key: &Key) -> Found
        ensures { result ≡ (naming_of self.now).made key.now };
}

/// The one number of these.
fn the_number(numbers: &[Id]) -> Found
    ensures { result ≡ the_number numbers.now }
{
    if numbers.is_empty() {
        return Found::Nothing;
    }
    if numbers.len() > 1 {
        return Found::Several;
    }
    Found::One(numbers[0])
}

impl Names for Shop {
    ghost naming_of = { λ shop. naming_in (state_of shop) };

    fn part(&self, name: &str) -> Result<Found, AllocError> {
        self.catalogue().part_named(name)
    }

    fn category(&self, parent: Option<Id>, name: &str) -> Result<Found, AllocError> {
        self.catalogue().category_named(parent, name)
    }

    fn location(&self, parent: Option<Id>, name: &str) -> Result<Found, AllocError> {
        self.yard().location_named(parent, name)
    }

    fn item(&self, part: Id, serial: &Serial) -> Result<Found, AllocError> {
        self.yard().item_named(part, serial)
    }

    fn made(&self, key: &Key) -> Found {
        match self.answers().get(key.text()) {
            None => Found::Nothing,
            Some(kept) => the_number(kept.answer.ids.as_slice()),
        }
    }
}
