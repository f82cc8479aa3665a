//! Rows that are found by what stands in them, besides by their number. A command puts its rows here, of items by a
//! move (`yard_core` `src/yard/moves.rt`); once the request is done, what differs from before goes into the table of a
//! file (`table_store` `src/write.rt`).
//!
//! What holds, each by the clauses of that name:
//!
//! 1. `rows`, `ok`: there are the rows that were put and not removed, and no others, each under its own number (`own`).
//! 2. `before`: beside them the sheet has the rows from before, which no `put` and no `remove` changes: `keep` makes
//!    the rows now those from before, and `back` the other way round. Neither takes memory.
//! 3. `err`: after an error of memory nothing has changed.
//! 4. The index leaves out no row that has an index key: what is looked up by it is what a look at all rows would find.
//!    An index key is a number that no other look-up has (`Indexed.index_key_of`), and the hash is worked out from it
//!    (`Indexed.hash_of`), so no clause rests on the seed.
ghost use Rattle.std.specs.Prelude.{◌≡◌, ◌∷◌, [], ℕ, Bool, List, slice_get, option_copied};
ghost use Rattle.std.specs.Prelude.{IfOk, IfSome, OnOk, OnErr, map, filter, nat_lt, sum_by};
ghost use Rattle.std.specs.List.{list_any};
ghost use Rattle.std.specs.FinMap as table;
ghost use Rattle.sheet_core.specs.Filled.{filled, StandUnderKeys};
ghost use Rattle.sheet_core.specs.Indexed.{IsFiledUnder, hash_of, index_key_of};
ghost use Rattle.sheet_core.specs.Select.{IsMeasure, IsTest};
ghost use Rattle.sheet_core.specs.Sheet.{now_of};

use crate::index::Index;
use crate::row::Row;
use crate::seed::Seed;
use crate::sheet::Sheet;
use std::alloc::{AllocError, Global};
use std::hash::Hash;
use std::marker::Model;

/// A row under a number that is looked up by what stands in it too: each of that is told by a number, its index key,
/// and filed by the hash of it.
pub trait Indexed: Row<Key = u64> {
    /// The index keys of the row.
    ghost index_keys: { Self → List ℕ };

    /// The hash of the row's index key at that place, where there is one.
    fn index_key(&self, seed: &Seed, place: usize) -> Option<u64>
        ensures { result ≡ slice_get (map (hash_of seed.now) (index_keys self.now)) place };
}

/// A table in memory, as `Sheet`, with an index: the numbers of the rows that have an index key are found without a
/// look at the other rows.
///
/// What is filed stands in a tree, by hashes that begin with the seed. A look-up of what n rows are filed under, of N,
/// takes the time of log N steps down the tree and of n looks. `put` and `remove` take log N for each key of the row.
pub struct IndexedSheet<R: Indexed> {
    sheet: Sheet<R>,
    index: Index,
    seed: Seed,
    alloc: Global,
}

// It is written out, so that a caller does not prove again how each part is dropped.
impl<R: Indexed> Drop for IndexedSheet<R> {
    fn drop(self) {
        let IndexedSheet {
            sheet: _,
            index: _,
            seed: _,
            alloc: _,
        } = self;
    }
}

impl<R: Indexed> Model for IndexedSheet<R> {
    ghost use Rattle.sheet_core.specs.Index.{IsIndex};
    ghost use Rattle.sheet_core.specs.Indexed.{hashed};
    ghost use Rattle.sheet_core.specs.Sheet.{Rows, rows_code};

    ghost Value = { Rows R };

    ghost coded = { rows_code R.code };

    ghost view = { λ s. s.sheet };

    ghost invariant = { λ s. IsIndex (hashed s.seed R.index_keys) R.key_of
        s.sheet s.index.filings.keys s.index.touched.items };
}

impl<R: Indexed> IndexedSheet<R> {
    /// A sheet with no rows, which takes no memory.
    pub fn new(alloc: Global, seed: Seed) -> Self
        ensures rows { now_of result ≡ table.empty }
        ensures before { result.before ≡ table.empty }
    {
        IndexedSheet {
            sheet: Sheet::new(alloc, seed),
            index: Index::new(alloc),
            seed,
            alloc,
        }
    }

    /// A sheet with no rows that has room for so many. An error is one of memory.
    fn with_room(alloc: Global, seed: Seed, count: usize) -> Result<Self, AllocError>
        ensures rows { IfOk result (λ sheet. now_of sheet ≡ table.empty) }
        ensures before { IfOk result (λ sheet. sheet.before ≡ table.empty) }
    {
        let sheet = Sheet::with_room(alloc, seed, count)?;
        Ok(IndexedSheet {
            sheet,
            index: Index::new(alloc),
            seed,
            alloc,
        })
    }

    /// A sheet of these rows, put in their order, now and before. An error is one of memory.
    ///
    /// The room is made at once, so that no row is moved again, and what a map makes to spare is given back at the end.
    /// Each row is kept at once, so that no list of changes grows with the rows.
    pub fn filled(alloc: Global, seed: Seed, rows: Vec<R>) -> Result<Self, AllocError>
        ensures rows { IfOk result (λ sheet. now_of sheet ≡ filled R.key_of rows.items) }
        ensures before { IfOk result (λ sheet. sheet.before ≡ filled R.key_of rows.items) }
    {
        let mut sheet = IndexedSheet::with_room(alloc, seed, rows.len())?;
        for row in rows {
            sheet.put(row)?;
            sheet.keep();
        }
        sheet.sheet.give_back();
        Ok(sheet)
    }

    /// The rows, as a sheet: each stands under its own number.
    pub fn rows(&self) -> &Sheet<R>
        ensures value { result.now ≡ self.now }
        ensures own { StandUnderKeys R.key_of (now_of self.now) }
    {
        &self.sheet
    }

    /// What its hashes begin with.
    pub fn seed(&self) -> Seed {
        self.seed
    }

    /// The row of that number, found by its hash. It takes no memory.
    pub fn get(&self, number: u64) -> Option<&R>
        ensures value { option_copied result ≡ table.get (now_of self.now) (number ∷ []) }
        ensures own { IfSome result (λ row. R.key_of row.now ≡ number ∷ []) }
    {
        self.sheet.get(&number)
    }

    /// Whether a row passes the test, which none does that lacks the index key of what is looked up: a look at the rows
    /// that have it. It takes no memory.
    pub fn any_under<L: Hash + Drop, F: Fn(&R) -> bool>(&self, lookup: L, test: F) -> bool
        requires { F.IsAlwaysCallable test }
        ensures { (p : R → Bool) → IsTest F.Fn test p
            → IsFiledUnder R.index_keys (index_key_of (L.hash_input lookup)) p
            → result ≡ list_any p (table.values (now_of self.now)) }
    {
        let key = self.seed.hash_of(lookup);
        self.index.any_row::<R, F>(&self.sheet, key, test)
    }

    /// Whether no more than so many rows are filed under what is looked up: a look at so many of them at most. It takes
    /// no memory. Nothing but a choice between two ways to one answer may rest on it.
    pub fn are_few_under<L: Hash + Drop>(&self, lookup: L, most: usize) -> bool {
        let key = self.seed.hash_of(lookup);
        self.index.are_few(key, most)
    }

    /// The sum of a measure over the rows, to which none adds that lacks the index key of what is looked up: a look at
    /// the rows that have it. It takes no memory, and fits 128 bits whatever the measure gives.
    pub fn sum_under<L: Hash + Drop, F: Fn(&R) -> u64>(&self, lookup: L, measure: F) -> u128
        requires { F.IsAlwaysCallable measure }
        ensures { (f : R → ℕ) → IsMeasure F.Fn measure f
            → IsFiledUnder R.index_keys (index_key_of (L.hash_input lookup)) (λ x. nat_lt 0 (f x))
            → result ≡ sum_by f (table.values (now_of self.now)) }
    {
        let key = self.seed.hash_of(lookup);
        self.index.sum_rows::<R, F>(&self.sheet, key, measure)
    }

    /// The rows that pass the test, in order of number, where none does that lacks the index key of what is looked up: a
    /// look at the rows that have it. An error is one of memory.
    pub fn select_under<L: Hash + Drop, F: Fn(&R) -> bool>(
        &self,
        lookup: L,
        test: F,
    ) -> Result<Vec<&R>, AllocError>
        requires { F.IsAlwaysCallable test }
        ensures { IfOk result (λ rows. (p : R → Bool) → IsTest F.Fn test p
            → IsFiledUnder R.index_keys (index_key_of (L.hash_input lookup)) p
            → map (λ r. r.now) rows.items ≡ filter p (table.values (now_of self.now))) }
    {
        let key = self.seed.hash_of(lookup);
        self.index
            .find_rows::<R, F>(self.alloc, &self.sheet, key, test)
    }

    /// Puts the row under its number, in the place of the one that stands there. An error is one of memory.
    pub fn put(&mut self, row: R) -> Result<(), AllocError>
        ensures ok { OnOk result (now_of self.new
            ≡ table.insert (now_of self.old) (R.key_of row) row) }
        ensures err { OnErr result (self.new ≡ self.old) }
        ensures before { self.new.before ≡ self.old.before }
    {
        let own_number = row.key(self.alloc)?;
        self.index.file::<R>(&self.seed, &row, own_number)?;
        self.index.touch::<R>(&self.seed, &self.sheet, own_number)?;
        self.sheet.put(row)
    }

    /// Removes the row of that number, if there is one. An error is one of memory.
    pub fn remove(&mut self, number: u64) -> Result<(), AllocError>
        ensures ok { OnOk result (now_of self.new
            ≡ table.remove (now_of self.old) (number ∷ [])) }
        ensures err { OnErr result (self.new ≡ self.old) }
        ensures before { self.new.before ≡ self.old.before }
    {
        self.index.touch::<R>(&self.seed, &self.sheet, number)?;
        self.sheet.remove(&number)
    }

    /// Makes the changes final: the rows now become the rows before. It takes no memory.
    pub fn keep(&mut self)
        ensures rows { now_of self.new ≡ now_of self.old }
        ensures before { self.new.before ≡ now_of self.old }
    {
        self.index.keep::<R>(&self.seed, &mut self.sheet);
    }

    /// Takes the changes back: the rows are again those before. It takes no memory.
    pub fn back(&mut self)
        ensures rows { now_of self.new ≡ self.old.before }
        ensures before { self.new.before ≡ self.old.before }
    {
        self.index.back::<R>(&self.seed, &mut self.sheet);
    }
}
