//! A table in memory that only grows, whose last rows can be taken back.
//!
//! The rows of a log are numbered 1, 2 and so on, and none is changed. So they stand in a vector, the row of a number
//! at the place below it, and those that were there before the request are its front: a log is that vector and a
//! length. `keep` moves the length up to the end, and `back` cuts the vector off there.
ghost use Rattle.std.specs.Prelude.{◌≡◌, ◌↔◌, ◌+◌, ◌++◌, ◌∷◌, [], IfOk, IfSome, IsSome, IsTrue};
ghost use Rattle.std.specs.Prelude.{None, OnOk, OnErr};
ghost use Rattle.std.specs.List.{All};
ghost use Rattle.std.specs.FinMap as table;
ghost use Rattle.sheet_core.specs.Filled.{filled, filled_onto};
ghost use Rattle.sheet_core.specs.Log.{AreNumbered};
ghost use Rattle.sheet_core.specs.Sheet.{now_of};

use crate::row::Row;
use std::alloc::{AllocError, Global};
use std::marker::Model;

/// The rows of a table that are numbered from 1 without gaps and never changed, with what was put since the request
/// began. A request begins with `keep`: the rows that there are then are the rows before.
///
/// It takes as much memory as a vector of its rows. `put` takes the same time however many rows there are, but where
/// the vector grows; `keep` takes the same time always, and `back` drops what was put. `keep` and `back` never fail.
pub struct Log<R: Row<Key = u64>> {
    rows: Vec<R>,
    // How many rows there were before: they are the first ones.
    length_before: usize,
}

// It is written out, so that a caller does not prove again how each part is dropped.
impl<R: Row<Key = u64>> Drop for Log<R> {
    fn drop(self) {
        let Log {
            rows: _,
            length_before: _,
        } = self;
    }
}

impl<R: Row<Key = u64>> Model for Log<R> {
    ghost use Rattle.std.specs.Prelude.{take};
    ghost use Rattle.sheet_core.specs.Filled.{filled};
    ghost use Rattle.sheet_core.specs.Log.{IsSound};
    ghost use Rattle.sheet_core.specs.Sheet.{Rows, rows_code};

    ghost Value = { Rows R };

    ghost coded = { rows_code R.code };

    ghost view = { λ l. record {
      rows = filled R.key_of l.rows.items;
      before = filled R.key_of (take l.length_before l.rows.items);
    } };

    ghost invariant = { λ l. IsSound R.key_of l.rows.items l.length_before };
}

/// Whether the rows are numbered 1, 2 and so on, in their order. An error is one of memory.
fn are_numbered<R: Row<Key = u64>>(alloc: Global, rows: &[R]) -> Result<bool, AllocError>
    ensures { IfOk result (λ numbered. IsTrue numbered ↔ AreNumbered R.key_of 1 rows.now) }
{
    for i in 0..rows.len() {
        let number = rows[i].key(alloc)?;
        if number != i as u64 + 1 {
            return Ok(false);
        }
    }
    Ok(true)
}

impl<R: Row<Key = u64>> Log<R> {
    /// A log with no rows, which takes no memory.
    pub fn new(alloc: Global) -> Self
        ensures rows { now_of result ≡ table.empty }
        ensures before { result.before ≡ table.empty }
    {
        Log {
            rows: Vec::new(alloc),
            length_before: 0,
        }
    }

    /// A log of these rows, now and before: none where they aren't numbered 1, 2 and so on, in their order. An error
    /// is one of memory.
    pub fn filled(alloc: Global, rows: Vec<R>) -> Result<Option<Self>, AllocError>
        ensures numbered { IfOk result (λ log. IsSome log ↔ AreNumbered R.key_of 1 rows.items) }
        ensures rows { IfOk result (λ log. IfSome log (λ l.
            now_of l ≡ filled R.key_of rows.items)) }
        ensures before { IfOk result (λ log. IfSome log (λ l.
            l.before ≡ filled R.key_of rows.items)) }
    {
        if !are_numbered::<R>(alloc, rows.as_slice())? {
            return Ok(None);
        }
        let length_before = rows.len();
        Ok(Some(Log {
            rows,
            length_before,
        }))
    }

    /// How many rows there are.
    pub fn len(&self) -> usize
        ensures count { result ≡ table.len (now_of self.now) }
    {
        self.rows.len()
    }

    /// How many rows there were before the request.
    pub fn length_before(&self) -> usize
        ensures { result ≡ table.len self.now.before }
    {
        self.length_before
    }

    /// The rows, in order of number.
    pub fn as_slice(&self) -> &[R]
        ensures rows { result.now ≡ table.values (now_of self.now) }
        ensures table { now_of self.now ≡ filled R.key_of result.now }
        ensures numbered { AreNumbered R.key_of 1 result.now }
    {
        self.rows.as_slice()
    }

    /// Puts the row behind the others. An error is one of memory.
    pub fn put(&mut self, row: R) -> Result<(), AllocError>
        requires { R.key_of row ≡ (table.len (now_of self.old) + 1) ∷ [] }
        ensures ok { OnOk result (now_of self.new
            ≡ table.insert (now_of self.old) (R.key_of row) row) }
        ensures len { OnOk result (table.len (now_of self.new)
            ≡ table.len (now_of self.old) + 1) }
        ensures err { OnErr result (self.new ≡ self.old) }
        ensures before { self.new.before ≡ self.old.before }
    {
        self.rows.push(row)?;
        Ok(())
    }

    /// The rows that were put since the request began, in order of number. They stand behind those before, under
    /// other numbers.
    pub fn pending(&self) -> &[R]
        ensures behind { table.values (now_of self.now)
            ≡ table.values self.now.before ++ result.now }
        ensures put { now_of self.now ≡ filled_onto R.key_of self.now.before result.now }
        ensures fresh { All (λ row. table.get self.now.before (R.key_of row) ≡ None) result.now }
    {
        &self.rows.as_slice()[self.length_before..]
    }

    /// Makes the changes final: the rows now become the rows before. It takes no memory.
    pub fn keep(&mut self)
        ensures rows { now_of self.new ≡ now_of self.old }
        ensures before { self.new.before ≡ now_of self.old }
    {
        self.length_before = self.rows.len();
    }

    /// Takes the changes back: the rows are again those before. It takes no memory.
    pub fn back(&mut self)
        ensures rows { now_of self.new ≡ self.old.before }
        ensures before { self.new.before ≡ self.old.before }
    {
        self.rows.truncate(self.length_before);
    }
}
