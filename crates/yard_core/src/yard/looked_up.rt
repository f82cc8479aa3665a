//! Items that are looked up by their part, by their serial, and by the build at whose output they are; locations that
//! are looked up by their name.
ghost use Rattle.std.specs.Prelude.{◌≡◌, ◌==◌, ◌&&◌, IfOk, filter, map};
ghost use Rattle.std.specs.FinMap as table;
ghost use Rattle.part_core.specs.Names.{child_named};
ghost use Rattle.part_core.specs.declared.found.Found.TheVariants.{Nothing};
ghost use Rattle.sheet_core.specs.Sheet.{now_of};
ghost use Rattle.forest.specs.Rows.{is_output_of};
ghost use Rattle.yard_core.specs.Outputs.{amount_out, has_output, outputs_of, quantity_out};
ghost use Rattle.yard_core.specs.Stock.{has_serial};
ghost use Rattle.yard_core.specs.ItemNames.{item_named, newest, newest_left};
ghost use Rattle.yard_core.specs.YardView.{stock_of};

use super::Yard;
use crate::walks::numbers_of;
use forest::{Item, Place, output_key, part_key, piece_key};
use part_core::{Found, Id, IndexedSheet, Serial, child_named};
use std::alloc::AllocError;

/// What an item adds to the quantities at the build's output.
fn amount_out(build: Id, item: &Item) -> u64
    ensures { result ≡ amount_out build item.now }
{
    if item.place.is_output_of(build) {
        item.quantity
    } else {
        0
    }
}

/// The items at the build's output, in order of number.
#[tactic(auto, using(crate::proofs::Filed::output_filed))]
fn outputs(items: &IndexedSheet<Item>, build: Id) -> Result<Vec<&Item>, AllocError>
    ensures { IfOk result (λ outputs. map (λ i. i.now) outputs.items
        ≡ filter (λ x. is_output_of build x.place) (table.values (now_of items.now))) }
{
    items.select_under(output_key(build), |item| item.place.is_output_of(build))
}

/// Whether the item has the serial.
fn has_serial(serial: &Serial, item: &Item) -> bool
    ensures { result ≡ has_serial serial.now item.now }
{
    match &item.lot.serial {
        None => false,
        Some(own) => own.equals(serial),
    }
}

/// The last of these items.
fn newest(items: &[&Item]) -> Found
    ensures { result ≡ newest Nothing (map (λ i. i.now) items.now) }
{
    let mut found = Found::Nothing;
    for item in items {
        found = Found::One(item.number);
    }
    found
}

/// The last of these items that isn't gone, and the last of all where there is none such.
fn newest_left(items: &[&Item]) -> Found
    ensures { let named = map (λ i. i.now) items.now in
        result ≡ newest_left (newest Nothing named) named }
{
    let mut found = newest(items);
    for item in items {
        if !matches!(item.place, Place::Gone) {
            found = Found::One(item.number);
        }
    }
    found
}

impl Yard {
    /// The location of that name under this parent, or at the top. It looks at those that have the index key of both.
    /// An error is one of memory.
    pub fn location_named(&self, parent: Option<Id>, name: &str) -> Result<Found, AllocError>
        ensures { IfOk result (λ found.
            found ≡ child_named parent name.now (stock_of self.now).locations) }
    {
        child_named(&self.locations, parent, name)
    }

    /// The newest item of the part that has the serial, of those that aren't gone where there is one. It looks at the
    /// items that have both. An error is one of memory.
    #[tactic(auto, using(crate::proofs::Filed::piece_filed))]
    pub fn item_named(&self, part: Id, serial: &Serial) -> Result<Found, AllocError>
        ensures { IfOk result (λ found. found ≡ item_named part serial.now (stock_of self.now)) }
    {
        let found = self.items.select_under(piece_key(part, serial), |item| {
            has_serial(serial, item) && item.part == part
        })?;
        Ok(newest_left(&found))
    }

    /// The items of the part, in order of number, those that are gone too. It looks at those alone. An error
    /// is one of memory.
    pub fn items_of(&self, part: Id) -> Result<Vec<&Item>, AllocError>
        ensures { IfOk result (λ items. map (λ i. i.now) items.items
            ≡ filter (λ x. x.part == part) (table.values (stock_of self.now).items)) }
    {
        self.items
            .select_under(part_key(part), |item| item.part == part)
    }

    /// The numbers of the items at the build's output, in order. It looks at those alone. An error is one of
    /// memory.
    pub fn output_numbers(&self, build: Id) -> Result<Vec<Id>, AllocError>
        ensures { IfOk result (λ numbers. numbers.items ≡ outputs_of build (stock_of self.now)) }
    {
        let outputs = outputs(&self.items, build)?;
        numbers_of(self.alloc, &outputs)
    }

    /// Whether an item is at the build's output. It looks at such items alone, and takes no memory.
    #[tactic(auto, using(crate::proofs::Filed::output_filed))]
    pub fn has_output(&self, build: Id) -> bool
        ensures { result ≡ has_output build (stock_of self.now) }
    {
        self.items
            .any_under(output_key(build), |item| item.place.is_output_of(build))
    }

    /// The quantities at the build's output, added up. It looks at those items alone, and takes no memory.
    pub fn quantity_out(&self, build: Id) -> u128
        ensures { result ≡ quantity_out build (stock_of self.now) }
    {
        self.items
            .sum_under(output_key(build), |item| amount_out(build, item))
    }
}
