//! What a row of a table can do.
ghost use Rattle.std.specs.Prelude.{◌≡◌, ℕ, List, ◌↔◌, IsTrue, IfOk};
ghost use Rattle.sheet_core.specs.RowKeys.{number_digits, number_exact, text_digits, text_exact};
ghost use Rattle.sheet_core.specs.Sheet.{key_cmp};

use std::alloc::{AllocError, Global};
use std::cmp::Ordering;
use std::hash::Hash;

/// What the rows of a table are looked up by.
pub trait RowKey: Eq + Hash + Drop {
    /// A key as a list of numbers.
    ghost digits: { Self → List ℕ };

    /// The order of the keys, by their digits. Selected rows stand in it.
    fn compare(&self, other: &Self) -> Ordering
        ensures { result ≡ key_cmp (digits self.now) (digits other.now) };

    /// Keys are equal exactly where their digits are.
    ghost exact: { (a b : Self) → IsTrue (Self.eq a b) ↔ (digits a ≡ digits b) };
}

/// A row number, which is a key of one digit.
impl RowKey for u64 {
    ghost digits = { number_digits };

    ghost exact = { number_exact };

    fn compare(&self, other: &u64) -> Ordering {
        self.cmp(other)
    }
}

/// A text, which is a key of its bytes.
impl RowKey for String {
    ghost digits = { text_digits };

    ghost exact = { text_exact };

    fn compare(&self, other: &String) -> Ordering {
        self.as_bytes().cmp(other.as_bytes())
    }
}

/// A row of a table, under a key. A call that makes a key or a row fails only where memory is out.
pub trait Row: Drop {
    /// What a row is looked up by.
    type Key: RowKey;

    /// The digits of the row's key.
    ghost key_of: { Self → List ℕ };

    /// The row's key, made anew.
    fn key(&self, alloc: Global) -> Result<Self::Key, AllocError>
        ensures { IfOk result (λ key. Self.Key.digits key ≡ key_of self.now) };

    /// An equal row.
    fn copy(&self, alloc: Global) -> Result<Self, AllocError>
        ensures { IfOk result (λ row. row ≡ self.now) };

    /// Whether the rows are equal.
    fn equals(&self, other: &Self) -> bool
        ensures { IsTrue result ↔ (self.now ≡ other.now) };
}
