//! The numbers of the rows that have an index key.
//!
//! A filing is the hash of a key with the number of a row that has it. They stand in order, those of one hash side by
//! side and in order of number. A look-up finds the first of a hash and goes on from there. Below a key is such a hash,
//! and the keys of a row are those of its index keys.
//!
//! Whatever a row has now, and whatever it had before the request, is filed. So a change only files more, and
//! neither `keep` nor `back` has to file anything. What is filed too much then is among `touched`: the filings that a
//! change made, and those of the row that it put out of its place. `sweep` looks at each of these once more, and takes
//! out what no row has any longer, which needs no memory.
ghost use Rattle.std.specs.Prelude.{◌≡◌, ◌<◌, ◌^◌, ◌∷◌, [], ℕ, Bool, Some, filter, map, length, IfOk, OnOk, sum_by};
ghost use Rattle.std.specs.List.{list_any};
ghost use Rattle.std.specs.FinMap as table;
ghost use Rattle.std.specs.Map.Iter.{ShowsInOrder, deref};
ghost use Rattle.sheet_core.specs.Index.{IsExact, IsFiled, IsGrown, IsIndex, Rise, filed_under, numbers_of, rows_at};
ghost use Rattle.sheet_core.specs.Indexed.{hashed, is_index_key};
ghost use Rattle.sheet_core.specs.Select.{IsMeasure, IsTest};
ghost use Rattle.sheet_core.specs.Sheet.{now_of};

use crate::indexed::Indexed;
use crate::seed::Seed;
use crate::sheet::Sheet;
use std::alloc::{AllocError, Global};
use std::collections::BTreeSet;
use std::collections::btree_set::Range;

// An index key with the number of a row that has it.
#[derive(Clone, Copy, PartialEq, Eq, PartialOrd, Ord)]
pub(crate) struct Filing {
    pub(crate) key: u64,
    pub(crate) number: u64,
}

// The filings of a table's rows.
pub(crate) struct Index {
    pub(crate) filings: BTreeSet<Filing>,
    // What is to be looked at again, since its row has changed.
    pub(crate) touched: Vec<Filing>,
}

// It is written out, so that a caller does not prove again how each part is dropped.
impl Drop for Index {
    fn drop(self) {
        let Index {
            filings: _,
            touched: _,
        } = self;
    }
}

// Whether the row has the key.
fn has_key<R: Indexed>(seed: &Seed, row: &R, key: u64) -> bool
    requires { length (hashed seed.now R.index_keys row.now) < 2 ^ 64 }
    ensures { result ≡ is_index_key key (hashed seed.now R.index_keys row.now) }
{
    for place in 0..usize::MAX {
        match row.index_key(seed, place) {
            Some(other) => {
                if other == key {
                    return true;
                }
            }
            None => return false,
        }
    }
    false
}

impl Index {
    // An index of no rows, which takes no memory.
    pub(crate) fn new(alloc: Global) -> Self
        ensures filings { result.filings.keys ≡ [] }
        ensures touched { result.touched.items ≡ [] }
    {
        Index {
            filings: BTreeSet::new(alloc),
            touched: Vec::new(alloc),
        }
    }

    // Files the number under each key of the row. An error is one of memory.
    pub(crate) fn file<R: Indexed>(
        &mut self,
        seed: &Seed,
        row: &R,
        number: u64,
    ) -> Result<(), AllocError>
        ensures grown { IsGrown self.old.filings.keys self.old.touched.items
            self.new.filings.keys self.new.touched.items }
        ensures filed { OnOk result
            (IsFiled (hashed seed.now R.index_keys)
            self.new.filings.keys number (Some row.now)) }
        ensures few { OnOk result (length (hashed seed.now R.index_keys row.now) < 2 ^ 64) }
        ensures fits { number < 2 ^ 64 }
    {
        for place in 0..usize::MAX {
            let Some(key) = row.index_key(seed, place) else {
                return Ok(());
            };
            let filing = Filing { key, number };
            if !self.filings.contains(&filing) {
                self.touched.push(filing)?;
                self.filings.insert(filing)?;
            }
        }
        Err(AllocError)
    }

    // Logs the keys of the row of that number, if there is one, to be looked at again. An error is one of memory.
    pub(crate) fn touch<R: Indexed>(
        &mut self,
        seed: &Seed,
        sheet: &Sheet<R>,
        number: u64,
    ) -> Result<(), AllocError>
        ensures grown { IsGrown self.old.filings.keys self.old.touched.items
            self.new.filings.keys self.new.touched.items }
        ensures logged { OnOk result (IsFiled (hashed seed.now R.index_keys)
            self.new.touched.items number (table.get (now_of sheet.now) (number ∷ []))) }
    {
        let Some(row) = sheet.get(&number) else {
            return Ok(());
        };
        for place in 0..usize::MAX {
            let Some(key) = row.index_key(seed, place) else {
                return Ok(());
            };
            self.touched.push(Filing { key, number })?;
        }
        Err(AllocError)
    }

    // Looks at what was touched once more, after `keep` or `back` of the rows, and takes out what no row has.
    fn sweep<R: Indexed>(&mut self, seed: &Seed, sheet: &Sheet<R>)
        requires settled { now_of sheet.now ≡ sheet.now.before }
        requires index { IsIndex (hashed seed.now R.index_keys) R.key_of
            sheet.now self.old.filings.keys self.old.touched.items }
        ensures index { IsIndex (hashed seed.now R.index_keys) R.key_of
            sheet.now self.new.filings.keys self.new.touched.items }
        ensures exact { IsExact (hashed seed.now R.index_keys)
            self.new.filings.keys (now_of sheet.now) }
    {
        while let Some(filing) = self.touched.pop() {
            let stays = match sheet.get(&filing.number) {
                Some(row) => has_key::<R>(seed, row, filing.key),
                None => false,
            };
            if !stays {
                self.filings.remove(&filing);
            }
        }
    }

    // Keeps the rows. Then exactly the keys of the rows are filed. It takes no memory.
    pub(crate) fn keep<R: Indexed>(&mut self, seed: &Seed, sheet: &mut Sheet<R>)
        requires { IsIndex (hashed seed.now R.index_keys) R.key_of
            sheet.old self.old.filings.keys self.old.touched.items }
        ensures rows { now_of sheet.new ≡ now_of sheet.old }
        ensures before { sheet.new.before ≡ now_of sheet.old }
        ensures index { IsIndex (hashed seed.now R.index_keys) R.key_of
            sheet.new self.new.filings.keys self.new.touched.items }
        ensures exact { IsExact (hashed seed.now R.index_keys)
            self.new.filings.keys (now_of sheet.new) }
    {
        sheet.keep();
        self.sweep::<R>(seed, sheet);
    }

    // Takes the rows back. Then exactly the keys of the rows are filed. It takes no memory.
    pub(crate) fn back<R: Indexed>(&mut self, seed: &Seed, sheet: &mut Sheet<R>)
        requires { IsIndex (hashed seed.now R.index_keys) R.key_of
            sheet.old self.old.filings.keys self.old.touched.items }
        ensures rows { now_of sheet.new ≡ sheet.old.before }
        ensures before { sheet.new.before ≡ sheet.old.before }
        ensures index { IsIndex (hashed seed.now R.index_keys) R.key_of
            sheet.new self.new.filings.keys self.new.touched.items }
        ensures exact { IsExact (hashed seed.now R.index_keys)
            self.new.filings.keys (now_of sheet.new) }
    {
        sheet.back();
        self.sweep::<R>(seed, sheet);
    }

    // What is filed under the key, in order of number.
    fn under(&self, key: u64) -> Range<'_, Filing>
        ensures filed { result ≡ filed_under key self.now.filings.keys }
        ensures rise { Rise (numbers_of (filed_under key self.now.filings.keys)) }
        ensures runs { ShowsInOrder (deref {X = Filing}) }
    {
        let first = Filing { key, number: 0 };
        let last = Filing {
            key,
            number: u64::MAX,
        };
        self.filings.range(first..=last)
    }

    // Whether no more than so many rows are filed under the key: it looks at so many filings at most. No clause says
    // so, since the filings are no part of what a sheet is seen as, and nothing rests on it.
    pub(crate) fn are_few(&self, key: u64, most: usize) -> bool {
        let mut left = most;
        for _filing in self.under(key) {
            if left == 0 {
                return false;
            }
            left -= 1;
        }
        true
    }

    // Whether a row that is filed under the key passes the test.
    pub(crate) fn any_row<R: Indexed, F: Fn(&R) -> bool>(
        &self,
        sheet: &Sheet<R>,
        key: u64,
        test: F,
    ) -> bool
        requires { F.IsAlwaysCallable test }
        ensures rise { Rise (numbers_of (filed_under key self.now.filings.keys)) }
        ensures any { (p : R → Bool) → IsTest F.Fn test p → result
            ≡ list_any p (map (λ e. e.1)
            (rows_at (now_of sheet.now) (numbers_of (filed_under key self.now.filings.keys)))) }
    {
        for filing in self.under(key) {
            if let Some(row) = sheet.get(&filing.number) {
                if test(row) {
                    return true;
                }
            }
        }
        false
    }

    // The sum of a measure over the rows that are filed under the key.
    pub(crate) fn sum_rows<R: Indexed, F: Fn(&R) -> u64>(
        &self,
        sheet: &Sheet<R>,
        key: u64,
        measure: F,
    ) -> u128
        requires { F.IsAlwaysCallable measure }
        ensures rise { Rise (numbers_of (filed_under key self.now.filings.keys)) }
        ensures sum { (f : R → ℕ) → IsMeasure F.Fn measure f → result
            ≡ sum_by f (map (λ e. e.1)
            (rows_at (now_of sheet.now) (numbers_of (filed_under key self.now.filings.keys)))) }
    {
        let mut total = 0;
        for filing in self.under(key) {
            if let Some(row) = sheet.get(&filing.number) {
                total += u128::from(measure(row));
            }
        }
        total
    }

    // The rows that are filed under the key and pass the test, in order of number. An error is one of memory.
    pub(crate) fn find_rows<'a, R: Indexed, F: Fn(&R) -> bool>(
        &self,
        alloc: Global,
        sheet: &'a Sheet<R>,
        key: u64,
        test: F,
    ) -> Result<Vec<&'a R>, AllocError>
        requires { F.IsAlwaysCallable test }
        ensures rise { Rise (numbers_of (filed_under key self.now.filings.keys)) }
        ensures found { IfOk result (λ found. (p : R → Bool) → IsTest F.Fn test p
            → map (λ r. r.now) found.items ≡ filter p (map (λ e. e.1)
            (rows_at (now_of sheet.now) (numbers_of (filed_under key self.now.filings.keys))))) }
    {
        let mut found = Vec::new(alloc);
        for filed in self.under(key) {
            if let Some(row) = sheet.get(&filed.number) {
                if test(row) {
                    found.push(row)?;
                }
            }
        }
        Ok(found)
    }
}
