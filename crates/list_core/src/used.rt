//! The items that builds used, found by the build.
ghost use Rattle.std.specs.Prelude.{◌≡◌, ◌==◌, ◌++◌, ◌∷◌, [], IfOk, OnOk, filter, flat_map, map};
ghost use Rattle.std.specs.FinMap as table;
ghost use Rattle.sheet_core.specs.Indexed.{index_key_of};
ghost use Rattle.sheet_core.specs.Sheet.{now_of};
ghost use Rattle.yard_core.specs.YardView.{stock_of};
ghost use Rattle.list_core.specs.Used.{numbers_used, used_in, used_key, used_keys, used_row};

use part_core::{Id, Indexed, IndexedSheet, Row, Seed};
use std::alloc::{AllocError, Global};
use std::hash::Hash;
use yard_core::{Item, Place, Yard, rows_in_order};

/// An item, and the build that used it.
#[derive(Drop)]
pub struct UsedItem {
    pub number: Id,
    pub build: Id,
}

/// What such an item is looked up by, besides its number.
#[derive(Clone, Copy, Debug, PartialEq, Eq, Hash)]
pub struct UsedBy(Id);

/// The look-up of the items that the build used.
fn used_key(build: Id) -> UsedBy
    ensures { index_key_of (⟦<UsedBy as Hash>⟧.hash_input result) ≡ used_key build }
{
    UsedBy(build)
}

impl Row for UsedItem {
    type Key = u64;

    ghost key_of = { λ row. row.number ∷ [] };

    fn key(&self, _alloc: Global) -> Result<u64, AllocError> {
        Ok(self.number)
    }

    fn equals(&self, other: &Self) -> bool {
        if self.number != other.number {
            return false;
        }
        self.build == other.build
    }

    fn copy(&self, _alloc: Global) -> Result<Self, AllocError> {
        Ok(UsedItem {
            number: self.number,
            build: self.build,
        })
    }
}

impl Indexed for UsedItem {
    ghost index_keys = { used_keys };

    fn index_key(&self, seed: &Seed, place: usize) -> Option<u64> {
        match place {
            0 => Some(seed.hash_of(used_key(self.build))),
            _ => None,
        }
    }
}

/// A row for each of these items that a build used. An error is one of memory.
fn used_rows(alloc: Global, items: &[&Item]) -> Result<Vec<UsedItem>, AllocError>
    ensures { IfOk result (λ rows. rows.items
        ≡ flat_map used_row (map (λ i. i.now) items.now)) }
{
    let mut rows = Vec::new(alloc);
    for item in items {
        if let Place::Used(build) = item.place {
            rows.push(UsedItem {
                number: item.number,
                build,
            })?;
        }
    }
    Ok(rows)
}

/// The items that builds used, found by the build. It goes over the items once. An error is one of memory.
pub(crate) fn used(alloc: Global, yard: &Yard) -> Result<IndexedSheet<UsedItem>, AllocError>
    ensures { IfOk result (λ used. now_of used ≡ used_in (stock_of yard.now)) }
{
    let items = rows_in_order(yard.items())?;
    let rows = used_rows(alloc, items.as_slice())?;
    IndexedSheet::filled(alloc, Seed::new(0), rows)
}

/// The rows of the items that the build used, in order of number. It looks at those alone. An error is one of memory.
#[tactic(auto, using(crate::proofs::UsedFiled::used_filed))]
fn rows_used(used: &IndexedSheet<UsedItem>, build: Id) -> Result<Vec<&UsedItem>, AllocError>
    ensures { IfOk result (λ rows. map (λ u. u.now) rows.items
        ≡ filter (λ u. u.build == build) (table.values (now_of used.now))) }
{
    used.select_under(used_key(build), |row| row.build == build)
}

/// The numbers of these rows. An error is one of memory.
fn numbers_of(alloc: Global, rows: &[&UsedItem]) -> Result<Vec<Id>, AllocError>
    ensures { IfOk result (λ numbers. numbers.items
        ≡ map (λ u. u.number) (map (λ u. u.now) rows.now)) }
{
    let mut numbers = Vec::new(alloc);
    for row in rows {
        numbers.push(row.number)?;
    }
    Ok(numbers)
}

/// The numbers of the items that the build used, in order. It looks at those alone. An error is one of memory.
pub(crate) fn used_numbers(
    alloc: Global,
    used: &IndexedSheet<UsedItem>,
    build: Id,
) -> Result<Vec<Id>, AllocError>
    ensures { IfOk result (λ numbers.
        numbers.items ≡ numbers_used build (now_of used.now)) }
{
    let rows = rows_used(used, build)?;
    numbers_of(alloc, rows.as_slice())
}
