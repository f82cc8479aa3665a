//! The slots of a sheet: what each key has now, and what it had before it was changed.
ghost use Rattle.std.specs.Prelude.{◌≡◌, ◌↔◌, ◌+◌, ◌^◌, ◌<◌, ◌≤◌, ℕ, List, Bool, IsTrue, length, OnOk};
ghost use Rattle.std.specs.Prelude.{OnErr, IfOk, IfSome, IfNone, IsSome, is_some, Some, None, [], map, true, false};
ghost use Rattle.std.specs.Prelude.{filter, sum_by, slice_get, option_copied, vec_capacity, ◌++◌, ◌∷◌};
ghost use Rattle.std.specs.List.{All, list_any};
ghost use Rattle.std.specs.List.Sorted.{IsPermutation, IsSortedByKey};
ghost use Rattle.std.specs.FinMap as table;
ghost use Rattle.sheet_core.specs.Sheet.{key_cmp, HasKeyAt, IsDifference, IsDistinct, IsEachOnce, given};
ghost use Rattle.sheet_core.specs.Select.{IsMeasure, IsTest};
ghost use Rattle.sheet_core.specs.Slots.{AreSlots, IsUnnoted, NoneFrom, is_changed, noted_at, now_row};
ghost use Rattle.sheet_core.specs.Slots.{row_before, row_found, rows_by, slots_of, table_by};

use crate::row::{Row, RowKey};
use crate::seed::Seed;
use crate::sheet::Pending;
use indexmap::IndexMap;
use std::alloc::{AllocError, Global};
use std::mem;

// What stands under a key: the row that it has now, or none, and the one that it had before the request, or none.
// Only a row that was put over another lies apart, so that a slot takes little more than one row.
#[derive(Drop)]
pub(crate) enum Held<R> {
    // The row has not changed.
    Settled(R),
    // The row was added.
    Added(R),
    // The row was put over another.
    Rewritten { row: Box<R>, before: R },
    // The row was removed.
    Removed(R),
    // A row was added and removed again.
    Gone,
}

// A row that was found, and the key that it stands under.
#[derive(Drop)]
pub(crate) struct KeyedRow<'a, K, R> {
    pub(crate) key: &'a K,
    pub(crate) row: &'a R,
}

impl<R: Drop> Held<R> {
    // The row now.
    pub(crate) fn row(&self) -> Option<&R>
        ensures { option_copied result ≡ now_row self.now }
    {
        match self {
            Held::Settled(row) | Held::Added(row) => Some(row),
            Held::Rewritten { row, .. } => Some(row),
            Held::Removed(_) | Held::Gone => None,
        }
    }

    // Whether there was a row before the request.
    fn had_row(&self) -> bool
        ensures { result ≡ is_some (row_before self.now) }
    {
        match self {
            Held::Settled(_) | Held::Rewritten { .. } | Held::Removed(_) => true,
            Held::Added(_) | Held::Gone => false,
        }
    }

    // Whether it was changed since the request began.
    fn is_changed(&self) -> bool
        ensures { result ≡ is_changed self.now }
    {
        !matches!(self, Held::Settled(_))
    }

    // Puts a row there. An error is one of memory.
    fn put(&mut self, alloc: Global, row: R) -> Result<(), AllocError>
        ensures ok { OnOk result (now_row self.new ≡ Some row) }
        ensures before { row_before self.new ≡ row_before self.old }
        ensures changed { OnOk result (is_changed self.new ≡ true) }
        ensures err { OnErr result (self.new ≡ self.old) }
    {
        let row = Box::new(alloc, row)?;
        *self = match mem::replace(self, Held::Gone) {
            Held::Settled(before) | Held::Removed(before) => Held::Rewritten { row, before },
            Held::Rewritten { row: _old, before } => Held::Rewritten { row, before },
            Held::Added(_old) => Held::Added(Box::into_inner(row)),
            Held::Gone => Held::Added(Box::into_inner(row)),
        };
        Ok(())
    }

    // Leaves no row there.
    fn remove(&mut self)
        ensures now { now_row self.new ≡ None }
        ensures before { row_before self.new ≡ row_before self.old }
        ensures changed { is_changed self.new ≡ true }
    {
        *self = match mem::replace(self, Held::Gone) {
            Held::Settled(before) | Held::Removed(before) => Held::Removed(before),
            Held::Rewritten { row: _old, before } => Held::Removed(before),
            Held::Added(_old) => Held::Gone,
            Held::Gone => Held::Gone,
        };
    }

    // Puts a row there, or leaves none. An error is one of memory.
    fn write(&mut self, alloc: Global, row: Option<R>) -> Result<(), AllocError>
        ensures ok { OnOk result (now_row self.new ≡ row) }
        ensures before { row_before self.new ≡ row_before self.old }
        ensures changed { OnOk result (is_changed self.new ≡ true) }
        ensures err { OnErr result (self.new ≡ self.old) }
    {
        match row {
            Some(row) => self.put(alloc, row),
            None => {
                self.remove();
                Ok(())
            }
        }
    }

    // Makes the change final, where there is a row now.
    fn keep(&mut self)
        requires { IsSome (now_row self.old) }
        ensures now { now_row self.new ≡ now_row self.old }
        ensures settled { is_changed self.new ≡ false }
    {
        *self = match mem::replace(self, Held::Gone) {
            Held::Added(row) => Held::Settled(row),
            Held::Rewritten {
                row,
                before: _before,
            } => Held::Settled(Box::into_inner(row)),
            held => held,
        };
    }

    // Takes the change back, where there was a row before.
    fn back(&mut self)
        requires { IsSome (row_before self.old) }
        ensures now { now_row self.new ≡ row_before self.old }
        ensures settled { is_changed self.new ≡ false }
    {
        *self = match mem::replace(self, Held::Gone) {
            Held::Rewritten { row: _row, before } => Held::Settled(before),
            Held::Removed(before) => Held::Settled(before),
            held => held,
        };
    }
}

// Where the key stands.
pub(crate) fn place<R: Row>(slots: &IndexMap<R::Key, Held<R>, Seed>, key: &R::Key) -> Option<usize>
    ensures in_range { IfSome result (λ i. i < length slots.now.entries) }
    ensures found { IfSome result (λ i.
        HasKeyAt (slots_of R.Key.digits slots.now.entries) i (R.Key.digits key.now)) }
    ensures absent { IfNone result
        (table.find key_cmp (R.Key.digits key.now) (slots_of R.Key.digits slots.now.entries)
        ≡ None) }
{
    slots.get_index_of(key)
}

// The row under the key.
pub(crate) fn row_of<'a, R: Row>(
    slots: &'a IndexMap<R::Key, Held<R>, Seed>,
    key: &R::Key,
) -> Option<&'a R>
    requires { IsDistinct (slots_of R.Key.digits slots.now.entries) }
    ensures { option_copied result
        ≡ table.get (table_by now_row (slots_of R.Key.digits slots.now.entries))
        (R.Key.digits key.now) }
{
    let held = slots.get(key)?;
    held.row()
}

// Puts the value at the end, where there is room.
pub(crate) fn push_within<T: Drop>(items: &mut Vec<T>, value: T)
    requires { length items.old.items < vec_capacity items.old }
    ensures items { items.new.items ≡ items.old.items ++ value ∷ [] }
{
    let _ = items.push(value);
}

// Puts a row at the place, or leaves none there, and notes the change. Answers whether there was a row. An error is one
// of memory.
pub(crate) fn rewrite<R: Row>(
    alloc: Global,
    slots: &mut IndexMap<R::Key, Held<R>, Seed>,
    changed: &mut Vec<usize>,
    i: usize,
    row: Option<R>,
) -> Result<bool, AllocError>
    requires in_range { i < length slots.old.entries }
    requires slots { AreSlots (slots_of R.Key.digits slots.old.entries) changed.old.items }
    ensures slots { AreSlots (slots_of R.Key.digits slots.new.entries) changed.new.items }
    ensures rows { OnOk result ((k : List ℕ)
        → HasKeyAt (slots_of R.Key.digits slots.old.entries) i k
        → table_by now_row (slots_of R.Key.digits slots.new.entries)
        ≡ given k row (table_by now_row (slots_of R.Key.digits slots.old.entries))) }
    ensures before { table_by row_before (slots_of R.Key.digits slots.new.entries)
        ≡ table_by row_before (slots_of R.Key.digits slots.old.entries) }
    ensures found { OnOk result ((k : List ℕ)
        → HasKeyAt (slots_of R.Key.digits slots.old.entries) i k
        → HasKeyAt (slots_of R.Key.digits slots.new.entries) i k) }
    ensures noted { OnOk result (noted_at (slots_of R.Key.digits slots.new.entries) i ≡ 1) }
    ensures few { length slots.old.entries < 2 ^ 63 }
    ensures had { IfOk result (λ had. (k : List ℕ)
        → HasKeyAt (slots_of R.Key.digits slots.old.entries) i k
        → had ≡ table.contains_key
        (table_by now_row (slots_of R.Key.digits slots.old.entries)) k) }
    ensures err { OnErr result (table_by now_row (slots_of R.Key.digits slots.new.entries)
        ≡ table_by now_row (slots_of R.Key.digits slots.old.entries)) }
{
    // `len` is called for its clause that there are fewer than 2^63 slots.
    let _len = slots.len();
    changed.reserve(1)?;
    let held = &mut slots[i];
    let had = held.row().is_some();
    let is_first = !held.is_changed();
    held.write(alloc, row)?;
    if is_first {
        push_within(changed, i);
    }
    Ok(had)
}

// Puts a row under a new key, and notes that there was none. An error is one of memory.
pub(crate) fn add<R: Row>(
    slots: &mut IndexMap<R::Key, Held<R>, Seed>,
    changed: &mut Vec<usize>,
    key: R::Key,
    row: R,
) -> Result<(), AllocError>
    requires absent { table.find key_cmp (R.Key.digits key)
        (slots_of R.Key.digits slots.old.entries)
        ≡ None }
    requires slots { AreSlots (slots_of R.Key.digits slots.old.entries) changed.old.items }
    ensures slots { AreSlots (slots_of R.Key.digits slots.new.entries) changed.new.items }
    ensures rows { OnOk result (table_by now_row (slots_of R.Key.digits slots.new.entries)
        ≡ table.insert
        (table_by now_row (slots_of R.Key.digits slots.old.entries)) (R.Key.digits key) row) }
    ensures before { table_by row_before (slots_of R.Key.digits slots.new.entries)
        ≡ table_by row_before (slots_of R.Key.digits slots.old.entries) }
    ensures few { length slots.old.entries < 2 ^ 63 }
    ensures err { OnErr result (slots.new.entries ≡ slots.old.entries) }
{
    let i = slots.len();
    changed.reserve(1)?;
    slots.insert(key, Held::Added(row))?;
    push_within(changed, i);
    Ok(())
}

// Takes out the slot that stands there, and with it the change that is noted there. No later place has one.
fn take_out<R: Row>(slots: &mut IndexMap<R::Key, Held<R>, Seed>, i: usize)
    requires in_range { i < length slots.old.entries }
    requires last { NoneFrom (i + 1) (slots_of R.Key.digits slots.old.entries) }
    ensures noted { IsUnnoted
        (slots_of R.Key.digits slots.old.entries) (slots_of R.Key.digits slots.new.entries) i }
    ensures taken { (k : List ℕ)
        → (held : Held R) → slice_get (slots_of R.Key.digits slots.old.entries) i ≡ Some (k, held)
        → IsPermutation (slots_of R.Key.digits slots.old.entries)
        ((k, held) ∷ slots_of R.Key.digits slots.new.entries) }
{
    let _ = slots.swap_remove_index(i);
}

// Makes the change that is noted there final. No later place has one.
fn keep_at<R: Row>(slots: &mut IndexMap<R::Key, Held<R>, Seed>, i: usize)
    requires in_range { i < length slots.old.entries }
    requires distinct { IsDistinct (slots_of R.Key.digits slots.old.entries) }
    requires last { NoneFrom (i + 1) (slots_of R.Key.digits slots.old.entries) }
    ensures distinct { IsDistinct (slots_of R.Key.digits slots.new.entries) }
    ensures noted { IsUnnoted
        (slots_of R.Key.digits slots.old.entries) (slots_of R.Key.digits slots.new.entries) i }
    ensures rows { table_by now_row (slots_of R.Key.digits slots.new.entries)
        ≡ table_by now_row (slots_of R.Key.digits slots.old.entries) }
{
    if slots[i].row().is_some() {
        slots[i].keep();
    } else {
        take_out::<R>(slots, i);
    }
}

// Takes back the change that is noted there. No later place has one.
fn back_at<R: Row>(slots: &mut IndexMap<R::Key, Held<R>, Seed>, i: usize)
    requires in_range { i < length slots.old.entries }
    requires distinct { IsDistinct (slots_of R.Key.digits slots.old.entries) }
    requires last { NoneFrom (i + 1) (slots_of R.Key.digits slots.old.entries) }
    ensures distinct { IsDistinct (slots_of R.Key.digits slots.new.entries) }
    ensures noted { IsUnnoted
        (slots_of R.Key.digits slots.old.entries) (slots_of R.Key.digits slots.new.entries) i }
    ensures before { table_by row_before (slots_of R.Key.digits slots.new.entries)
        ≡ table_by row_before (slots_of R.Key.digits slots.old.entries) }
{
    if slots[i].had_row() {
        slots[i].back();
    } else {
        take_out::<R>(slots, i);
    }
}

// Makes the changes final, from the last place on. It takes no memory.
pub(crate) fn keep_all<R: Row>(
    slots: &mut IndexMap<R::Key, Held<R>, Seed>,
    changed: &mut Vec<usize>,
)
    requires slots { AreSlots (slots_of R.Key.digits slots.old.entries) changed.old.items }
    ensures slots { AreSlots (slots_of R.Key.digits slots.new.entries) changed.new.items }
    ensures rows { table_by now_row (slots_of R.Key.digits slots.new.entries)
        ≡ table_by now_row (slots_of R.Key.digits slots.old.entries) }
    ensures before { table_by row_before (slots_of R.Key.digits slots.new.entries)
        ≡ table_by now_row (slots_of R.Key.digits slots.old.entries) }
{
    changed.sort_unstable();
    while let Some(i) = changed.pop() {
        keep_at::<R>(slots, i);
    }
}

// Takes the changes back, from the last place on. It takes no memory.
pub(crate) fn back_all<R: Row>(
    slots: &mut IndexMap<R::Key, Held<R>, Seed>,
    changed: &mut Vec<usize>,
)
    requires slots { AreSlots (slots_of R.Key.digits slots.old.entries) changed.old.items }
    ensures slots { AreSlots (slots_of R.Key.digits slots.new.entries) changed.new.items }
    ensures rows { table_by now_row (slots_of R.Key.digits slots.new.entries)
        ≡ table_by row_before (slots_of R.Key.digits slots.old.entries) }
    ensures before { table_by row_before (slots_of R.Key.digits slots.new.entries)
        ≡ table_by row_before (slots_of R.Key.digits slots.old.entries) }
{
    changed.sort_unstable();
    while let Some(i) = changed.pop() {
        back_at::<R>(slots, i);
    }
}

// Whether the slot has what it had before the request.
pub(crate) fn is_as_before<R: Row>(held: &Held<R>) -> bool
    ensures { IsTrue result ↔ (now_row held.now ≡ row_before held.now) }
{
    match held {
        Held::Settled(_) | Held::Gone => true,
        Held::Rewritten { row, before } => row.equals(before),
        Held::Added(_) | Held::Removed(_) => false,
    }
}

// Whether a row passes the test.
pub(crate) fn any_row<R: Row, F: Fn(&R) -> bool>(
    slots: &IndexMap<R::Key, Held<R>, Seed>,
    test: F,
) -> bool
    requires { F.IsAlwaysCallable test }
    ensures { (p : R → Bool) → IsTest F.Fn test p → result
        ≡ list_any p (map (λ e. e.1) (rows_by now_row (slots_of R.Key.digits slots.now.entries))) }
{
    for i in 0..slots.len() {
        if let Some(row) = slots[i].row() {
            if test(row) {
                return true;
            }
        }
    }
    false
}

// The sum of a measure over the rows.
pub(crate) fn sum_rows<R: Row, F: Fn(&R) -> u64>(
    slots: &IndexMap<R::Key, Held<R>, Seed>,
    measure: F,
) -> u128
    requires { F.IsAlwaysCallable measure }
    ensures { (f : R → ℕ) → IsMeasure F.Fn measure f → result
        ≡ sum_by f (map (λ e. e.1) (rows_by now_row (slots_of R.Key.digits slots.now.entries))) }
{
    let mut total = 0;
    for i in 0..slots.len() {
        if let Some(row) = slots[i].row() {
            total += u128::from(measure(row));
        }
    }
    total
}

// The rows that pass the test.
pub(crate) fn find_rows<'a, R: Row, F: Fn(&R) -> bool>(
    alloc: Global,
    slots: &'a IndexMap<R::Key, Held<R>, Seed>,
    test: F,
) -> Result<Vec<KeyedRow<'a, R::Key, R>>, AllocError>
    requires { F.IsAlwaysCallable test }
    ensures { IfOk result (λ found. (p : R → Bool) → IsTest F.Fn test p
        → map (row_found R.Key.digits) found.items
        ≡ filter (λ e. p e.1) (rows_by now_row (slots_of R.Key.digits slots.now.entries))) }
{
    let mut found = Vec::new(alloc);
    for i in 0..slots.len() {
        let Some((key, held)) = slots.get_index(i) else {
            unreachable!()
        };
        if let Some(row) = held.row() {
            if test(row) {
                found.push(KeyedRow { key, row })?;
            }
        }
    }
    Ok(found)
}

// Sorts by key.
pub(crate) fn sort_found<'a, R: Row>(found: &mut Vec<KeyedRow<'a, R::Key, R>>)
    ensures permutation { IsPermutation found.old.items found.new.items }
    ensures sorted { IsSortedByKey (λ f. R.Key.digits f.key.now) key_cmp found.new.items }
{
    found.sort_unstable_by(|one, other| one.key.compare(other.key));
}

// The rows of these.
pub(crate) fn rows_of<'a, R: Row>(
    alloc: Global,
    found: &[KeyedRow<'a, R::Key, R>],
) -> Result<Vec<&'a R>, AllocError>
    ensures { IfOk result (λ rows. map (λ r. r.now) rows.items ≡ map (λ f. f.row.now) found.now) }
{
    let mut rows = Vec::with_capacity(alloc, found.len())?;
    for one in found {
        rows.push(one.row)?;
    }
    Ok(rows)
}

// The keys at which the rows differ from those before, with their rows. An error is one of memory.
pub(crate) fn list_pending<'a, R: Row>(
    alloc: Global,
    slots: &'a IndexMap<R::Key, Held<R>, Seed>,
    changed: &[usize],
) -> Result<Vec<Pending<'a, R>>, AllocError>
    requires { AreSlots (slots_of R.Key.digits slots.now.entries) changed.now }
    ensures once { IfOk result (λ pending.
        IsEachOnce (map (λ p. R.Key.digits p.key.now) pending.items)) }
    ensures exact { IfOk result (λ pending.
        IsDifference (map (λ p. R.Key.digits p.key.now) pending.items)
        (table_by now_row (slots_of R.Key.digits slots.now.entries))
        (table_by row_before (slots_of R.Key.digits slots.now.entries))) }
    ensures rows { IfOk result (λ pending. All (λ p. option_copied p.row
        ≡ table.get (table_by now_row (slots_of R.Key.digits slots.now.entries))
        (R.Key.digits p.key.now))
        pending.items) }
{
    let mut pending = Vec::new(alloc);
    for i in changed {
        let Some((key, held)) = slots.get_index(*i) else {
            unreachable!()
        };
        if !is_as_before::<R>(held) {
            pending.push(Pending {
                key,
                row: held.row(),
            })?;
        }
    }
    Ok(pending)
}

// Notes what the slot has, for a write that follows, and answers where it stands. An error is one of memory.
pub(crate) fn note<R: Row>(
    alloc: Global,
    slots: &mut IndexMap<R::Key, Held<R>, Seed>,
    changed: &mut Vec<usize>,
    key: &R::Key,
) -> Result<usize, AllocError>
    requires slots { AreSlots (slots_of R.Key.digits slots.old.entries) changed.old.items }
    requires present { IsSome
        (table.get (table_by now_row (slots_of R.Key.digits slots.old.entries))
        (R.Key.digits key.now)) }
    ensures slots { AreSlots (slots_of R.Key.digits slots.new.entries) changed.new.items }
    ensures rows { table_by now_row (slots_of R.Key.digits slots.new.entries)
        ≡ table_by now_row (slots_of R.Key.digits slots.old.entries) }
    ensures before { table_by row_before (slots_of R.Key.digits slots.new.entries)
        ≡ table_by row_before (slots_of R.Key.digits slots.old.entries) }
    ensures in_range { IfOk result (λ i. i < length slots.new.entries) }
    ensures found { IfOk result (λ i.
        HasKeyAt (slots_of R.Key.digits slots.new.entries) i (R.Key.digits key.now)) }
    ensures noted { IfOk result (λ i. noted_at (slots_of R.Key.digits slots.new.entries) i ≡ 1) }
{
    let Some(i) = place::<R>(slots, key) else {
        unreachable!()
    };
    if let Held::Settled(row) = &slots[i] {
        let row = row.copy(alloc)?;
        rewrite::<R>(alloc, slots, changed, i, Some(row))?;
    }
    Ok(i)
}
