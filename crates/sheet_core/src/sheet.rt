//! A table in memory, whose changes can be taken back.
//!
//! A sheet is a map from each key to a slot, which tells the row now, or none, and the row before the request, or none.
//! So the map holds both tables, and no key stands twice in it. A slot has room for one row: where one was put over
//! another, the new one lies apart until `keep` or `back`. `changed` lists the places of the slots that were changed,
//! each once. A change writes a slot, and the first one of its key lists the place. A removal leaves its slot, so that
//! no slot moves and each listed place stays good until `keep` or `back`.
//!
//! These two go over `changed` from the largest place down: `keep` leaves the row now, `back` the one before, and a
//! slot without that row is taken out, and the last slot of the map moves into its place. No change is noted behind the
//! place where they are, so the slot that moves is none that is still to come. They write, sort in place and take out,
//! which needs no memory, and they touch only the slots that are listed. A slot that was not changed has a row, so that
//! outside of changes there are as many slots as rows.
ghost use Rattle.std.specs.Prelude.{◌≡◌, ◌↔◌, ◌<◌, ℕ, Bool, length, filter, map, option_copied};
ghost use Rattle.std.specs.Prelude.{IsTrue, OnOk, OnErr, IfOk, IsSome, Some, [], sum_by};
ghost use Rattle.std.specs.List.{All, list_any};
ghost use Rattle.std.specs.FinMap as table;
ghost use Rattle.std.specs.Borrow.{sem};
ghost use Rattle.sheet_core.specs.Filled.{filled};
ghost use Rattle.sheet_core.specs.Sheet.{now_of, IsEachOnce, IsDifference};
ghost use Rattle.sheet_core.specs.Select.{IsMeasure, IsTest};

use crate::row::Row;
use crate::seed::Seed;
use crate::slots::{
    Held, add, any_row, back_all, find_rows, keep_all, list_pending, note, place, rewrite, row_of,
    rows_of, sort_found, sum_rows,
};
use indexmap::IndexMap;
use std::alloc::{AllocError, Global};
use std::marker::Model;

/// The rows of a table, each under its key, with what was changed since the request began. A request begins with
/// `keep`: the rows that there are then are the rows before.
///
/// A look-up is by a hash of the key, and takes the same time however many rows there are. So do `put`, `remove` and
/// `get_mut`; `pending`, `keep` and `back` take time for what was changed. `keep` and `back` never fail.
pub struct Sheet<R: Row> {
    // Each key with what it has now and what it had.
    slots: IndexMap<R::Key, Held<R>, Seed>,
    // The places of the slots that were changed, each once.
    changed: Vec<usize>,
    // How many rows there are, and how many there were before.
    len: usize,
    length_before: usize,
    alloc: Global,
}

/// A key whose row has changed since the request began, with its row now, or none.
#[derive(Drop)]
pub struct Pending<'a, R: Row> {
    /// The key, as it was first put.
    pub key: &'a R::Key,
    /// The row that stands under it now.
    pub row: Option<&'a R>,
}

// It is written out, so that a caller does not prove again how each part is dropped.
impl<R: Row> Drop for Sheet<R> {
    fn drop(self) {
        let Sheet {
            slots: _,
            changed: _,
            len: _,
            length_before: _,
            alloc: _,
        } = self;
    }
}

impl<R: Row> Model for Sheet<R> {
    ghost use Rattle.sheet_core.specs.Sheet.{Rows, rows_code};
    ghost use Rattle.sheet_core.specs.Slots.{IsSound, now_row, row_before, slots_of, table_by};

    ghost Value = { Rows R };

    ghost coded = { rows_code R.code };

    ghost view = { λ s. record {
      rows = table_by now_row (slots_of R.Key.digits s.slots.entries);
      before = table_by row_before (slots_of R.Key.digits s.slots.entries);
    } };

    ghost invariant = { λ s.
        IsSound (slots_of R.Key.digits s.slots.entries) s.changed.items s.len s.length_before };
}

impl<R: Row> Sheet<R> {
    ghost use Rattle.sheet_core.specs.Lending.{lends_row};

    /// A sheet with no rows, which takes no memory. It finds its rows by hashes that begin with the seed.
    pub fn new(alloc: Global, seed: Seed) -> Self
        ensures rows { now_of result ≡ table.empty }
        ensures before { result.before ≡ table.empty }
    {
        Sheet {
            slots: IndexMap::with_hasher(alloc, seed),
            changed: Vec::new(alloc),
            len: 0,
            length_before: 0,
            alloc,
        }
    }

    /// A sheet with no rows that has room for so many. An error is one of memory.
    pub(crate) fn with_room(alloc: Global, seed: Seed, count: usize) -> Result<Self, AllocError>
        ensures rows { IfOk result (λ sheet. now_of sheet ≡ table.empty) }
        ensures before { IfOk result (λ sheet. sheet.before ≡ table.empty) }
    {
        let slots = IndexMap::with_capacity_and_hasher(alloc, count, seed)?;
        Ok(Sheet {
            slots,
            changed: Vec::new(alloc),
            len: 0,
            length_before: 0,
            alloc,
        })
    }

    /// A sheet of these rows, put in their order, now and before. An error is one of memory.
    ///
    /// The room is made at once, so that no row is moved again, and what a map makes to spare is given back at the end.
    /// Each row is kept at once, so that no list of changes grows with the rows.
    pub fn filled(alloc: Global, seed: Seed, rows: Vec<R>) -> Result<Self, AllocError>
        ensures rows { IfOk result (λ sheet. now_of sheet ≡ filled R.key_of rows.items) }
        ensures before { IfOk result (λ sheet. sheet.before ≡ filled R.key_of rows.items) }
    {
        let mut sheet = Sheet::with_room(alloc, seed, rows.len())?;
        for row in rows {
            sheet.put(row)?;
            sheet.keep();
        }
        sheet.give_back();
        Ok(sheet)
    }

    /// Gives back the room that no row needs.
    pub(crate) fn give_back(&mut self)
        ensures { self.new ≡ self.old }
    {
        self.slots.shrink_to_fit();
    }

    /// How many rows there are.
    pub fn len(&self) -> usize
        ensures count { result ≡ table.len (now_of self.now) }
    {
        self.len
    }

    /// How many rows there were before the request.
    pub fn length_before(&self) -> usize
        ensures { result ≡ table.len self.now.before }
    {
        self.length_before
    }

    /// Whether there are no rows.
    pub fn is_empty(&self) -> bool
        ensures empty { IsTrue result ↔ (now_of self.now ≡ table.empty) }
    {
        self.len == 0
    }

    /// The row under the key, found by its hash. It takes no memory.
    pub fn get(&self, key: &R::Key) -> Option<&R>
        ensures { option_copied result ≡ table.get (now_of self.now) (R.Key.digits key.now) }
    {
        row_of::<R>(&self.slots, key)
    }

    /// Whether a row passes the test: a scan that ends at the first that does, and takes no memory.
    pub fn any<F: Fn(&R) -> bool>(&self, test: F) -> bool
        requires { F.IsAlwaysCallable test }
        ensures { (p : R → Bool)
            → IsTest F.Fn test p → result ≡ list_any p (table.values (now_of self.now)) }
    {
        any_row::<R, F>(&self.slots, test)
    }

    /// The sum of a measure over the rows: a scan that takes no memory. It fits 128 bits whatever the
    /// measure gives.
    pub fn sum<F: Fn(&R) -> u64>(&self, measure: F) -> u128
        requires { F.IsAlwaysCallable measure }
        ensures { (f : R → ℕ)
            → IsMeasure F.Fn measure f → result ≡ sum_by f (table.values (now_of self.now)) }
    {
        sum_rows::<R, F>(&self.slots, measure)
    }

    /// The rows that pass the test, in order of key: a scan, and a sort of the rows found. An error is one of memory.
    pub fn select<F: Fn(&R) -> bool>(&self, test: F) -> Result<Vec<&R>, AllocError>
        requires { F.IsAlwaysCallable test }
        ensures { IfOk result (λ rows. (p : R → Bool) → IsTest F.Fn test p
            → map (λ r. r.now) rows.items ≡ filter p (table.values (now_of self.now))) }
    {
        let mut found = find_rows::<R, F>(self.alloc, &self.slots, test)?;
        sort_found::<R>(&mut found);
        rows_of::<R>(self.alloc, found.as_slice())
    }

    /// The row under the key, for writing.
    ///
    /// A copy of it is made, for `back`, where it has not changed yet since the request began. The row stays under this
    /// key, whatever is written. An error is one of memory.
    pub fn get_mut(&mut self, key: R::Key) -> Result<&mut R, AllocError>
        requires { IsSome (table.get (now_of self.old) (R.Key.digits key)) }
        ensures* writes_back { sem
            𝓛 (lends_row R.row R.Key.row R.Row R.Key.RowKey.own R.Key.Hash self.entry
            (R.Key.digits key) result) }
        ensures value { IfOk result (λ row.
            table.get (now_of self.old) (R.Key.digits key) ≡ Some row.now) }
    {
        let i = note::<R>(self.alloc, &mut self.slots, &mut self.changed, &key)?;
        match &mut self.slots[i] {
            Held::Added(row) => Ok(row),
            Held::Rewritten { row, .. } => Ok(row),
            Held::Settled(_) | Held::Removed(_) | Held::Gone => unreachable!(),
        }
    }

    /// Puts the row under its key, in the place of the one that stands there. An error is one of memory.
    pub fn put(&mut self, row: R) -> Result<(), AllocError>
        ensures ok { OnOk result (now_of self.new
            ≡ table.insert (now_of self.old) (R.key_of row) row) }
        ensures err { OnErr result (self.new ≡ self.old) }
        ensures before { self.new.before ≡ self.old.before }
    {
        let key = row.key(self.alloc)?;
        match place::<R>(&self.slots, &key) {
            Some(i) => {
                let alloc = self.alloc;
                let had = rewrite::<R>(alloc, &mut self.slots, &mut self.changed, i, Some(row))?;
                if !had {
                    self.len += 1;
                }
            }
            None => {
                add::<R>(&mut self.slots, &mut self.changed, key, row)?;
                self.len += 1;
            }
        }
        Ok(())
    }

    /// Removes the row under the key, if there is one. An error is one of memory.
    pub fn remove(&mut self, key: &R::Key) -> Result<(), AllocError>
        ensures ok { OnOk result (now_of self.new
            ≡ table.remove (now_of self.old) (R.Key.digits key.now)) }
        ensures err { OnErr result (self.new ≡ self.old) }
        ensures before { self.new.before ≡ self.old.before }
    {
        if let Some(i) = place::<R>(&self.slots, key) {
            let had = rewrite::<R>(self.alloc, &mut self.slots, &mut self.changed, i, None)?;
            if had {
                self.len -= 1;
            }
        }
        Ok(())
    }

    /// The keys at which the rows differ from those before, in the order in which they were first changed.
    ///
    /// A row that was changed back, or put and removed again, is not listed. This goes over the changes since the
    /// request began. An error is one of memory.
    pub fn pending(&self) -> Result<Vec<Pending<'_, R>>, AllocError>
        ensures once { IfOk result (λ pending.
            IsEachOnce (map (λ p. R.Key.digits p.key.now) pending.items)) }
        ensures exact { IfOk result (λ pending. IsDifference
            (map (λ p. R.Key.digits p.key.now) pending.items) (now_of self.now) self.now.before) }
        ensures rows { IfOk result (λ pending. All (λ p. option_copied p.row
            ≡ table.get (now_of self.now) (R.Key.digits p.key.now)) pending.items) }
    {
        list_pending::<R>(self.alloc, &self.slots, self.changed.as_slice())
    }

    /// Makes the changes final: the rows now become the rows before. It takes no memory.
    pub fn keep(&mut self)
        ensures rows { now_of self.new ≡ now_of self.old }
        ensures before { self.new.before ≡ now_of self.old }
    {
        keep_all::<R>(&mut self.slots, &mut self.changed);
        self.length_before = self.len;
    }

    /// Takes the changes back: the rows are again those before. It takes no memory.
    pub fn back(&mut self)
        ensures rows { now_of self.new ≡ self.old.before }
        ensures before { self.new.before ≡ self.old.before }
    {
        back_all::<R>(&mut self.slots, &mut self.changed);
        self.len = self.length_before;
    }
}
