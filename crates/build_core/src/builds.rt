//! All builds.
ghost use Rattle.std.specs.Prelude.{◌≡◌, ◌==◌, ◌+◌, ◌<◌, ◌^◌, ◌∷◌, [], filter, IfOk};
ghost use Rattle.std.specs.Prelude.{is_some, map, OnErr, OnOk, option_copied};
ghost use Rattle.bom_core.specs.Lines.{removed_all};
ghost use Rattle.sheet_core.specs.Sheet.{now_of};
ghost use Rattle.std.specs.FinMap as table;
ghost use Rattle.std.specs.List.{list_any};
ghost use Rattle.sheet_core.specs.Filled.{StandUnderKeys};
ghost use Rattle.sheet_core.specs.Rows.{IsThere};
ghost use Rattle.build_core.specs.Builds.{build_in, in_state, is_open, open_parts, put_build, with_done};

use crate::build::{Build, open_key};
use crate::spent::{Spent, amount_on, is_spent_on, spent_build_key, spent_key};
use crate::state::BuildState;
use part_core::{Id, IndexedSheet, Quantity, Row, Seed, Sheet};
use std::alloc::{AllocError, Global};

/// The rows of builds, the open ones found as such, and what was spent on their lines, found by build and by
/// build and line.
pub struct Builds {
    rows: IndexedSheet<Build>,
    spent: IndexedSheet<Spent>,
    alloc: Global,
}

// It is written out, so that a caller does not prove again how each part is dropped.
impl Drop for Builds {
    fn drop(self) {
        let Builds {
            rows: _,
            spent: _,
            alloc: _,
        } = self;
    }
}

/// The parts of the rows.
fn parts_of(alloc: Global, rows: &[&Build]) -> Result<Vec<Id>, AllocError>
    ensures { IfOk result (λ parts. parts.items ≡ map (λ x. x.now.part) rows.now) }
{
    rows.iter().map(|row| row.part).collect(alloc)
}

/// The numbers of the rows.
fn numbers_of(alloc: Global, rows: &[&Spent]) -> Result<Vec<Id>, AllocError>
    ensures { IfOk result (λ numbers. numbers.items ≡ map (λ x. x.now.number) rows.now) }
{
    rows.iter().map(|row| row.number).collect(alloc)
}

/// Takes out the rows of these numbers. An error is one of memory, and may have left some of them.
fn remove_all(rows: &mut IndexedSheet<Spent>, numbers: &[Id]) -> Result<(), AllocError>
    ensures removed { OnOk result (now_of rows.new ≡ removed_all numbers.now (now_of rows.old)) }
    ensures before { rows.new.before ≡ rows.old.before }
{
    for number in numbers {
        rows.remove(*number)?;
    }
    Ok(())
}

impl Builds {
    ghost use Rattle.build_core.specs.BuildsView.{builds_before, builds_from, builds_now};
    ghost use Rattle.build_core.specs.BuildsView.{spent_before, spendings_from, spent_now};
    ghost use Rattle.build_core.specs.RowTests.{is_again};
    ghost use Rattle.build_core.specs.Spent.{is_spent_on, put_spent, spent_on, spent_row, unspent};

    /// No build.
    pub fn new(alloc: Global, seed: Seed) -> Self
        ensures now { builds_now result ≡ table.empty }
        ensures before { builds_before result ≡ table.empty }
        ensures spent { spent_now result ≡ table.empty }
        ensures spent_before { spent_before result ≡ table.empty }
    {
        Builds {
            rows: IndexedSheet::new(alloc, seed),
            spent: IndexedSheet::new(alloc, seed),
            alloc,
        }
    }

    /// The builds of these rows, and what was spent by the others, now and before. An error is one of memory.
    pub fn assemble(
        alloc: Global,
        seed: Seed,
        rows: Vec<Build>,
        spent: Vec<Spent>,
    ) -> Result<Self, AllocError>
        ensures now { IfOk result (λ all. builds_now all ≡ builds_from rows.items) }
        ensures before { IfOk result (λ all. builds_before all ≡ builds_from rows.items) }
        ensures spent { IfOk result (λ all. spent_now all ≡ spendings_from spent.items) }
        ensures spent_before { IfOk result (λ all. spent_before all ≡ spendings_from spent.items) }
    {
        let rows = IndexedSheet::filled(alloc, seed, rows)?;
        let spent = IndexedSheet::filled(alloc, seed, spent)?;
        Ok(Builds { rows, spent, alloc })
    }

    /// The builds, as a sheet.
    pub fn rows(&self) -> &Sheet<Build>
        ensures value { result.now ≡ self.now.rows }
        ensures own { StandUnderKeys (λ x. x.number ∷ []) (builds_now self.now) }
    {
        self.rows.rows()
    }

    /// What was spent, as a sheet.
    pub fn spent(&self) -> &Sheet<Spent>
        ensures value { result.now ≡ self.now.spent }
        ensures own { StandUnderKeys (λ x. x.number ∷ []) (spent_now self.now) }
    {
        self.spent.rows()
    }

    /// How much was spent on a line of a build. It looks at that line's rows alone, and takes no memory.
    pub fn spent_on(&self, build: Id, line: Id) -> u128
        ensures { result ≡ spent_on build line (spent_now self.now) }
    {
        self.spent.sum_under(spent_key(build, line), |row| {
            amount_on(build, line, row)
        })
    }

    /// Whether another row is of the same line of the same build. It looks at that line's rows alone, and takes no memory.
    pub(crate) fn is_again(&self, row: &Spent) -> bool
        ensures { result ≡ list_any (is_again row.now) (table.values (spent_now self.now)) }
    {
        let build = row.build;
        let line = row.line;
        let number = row.number;
        self.spent.any_under(spent_key(build, line), |other| {
            is_spent_on(build, line, other) && other.number != number
        })
    }

    /// The rows of what was spent on a line of a build, of which there is one at most.
    fn spent_at(&self, build: Id, line: Id) -> Result<Vec<&Spent>, AllocError>
        ensures { IfOk result (λ rows. map (λ r. r.now) rows.items
            ≡ filter (is_spent_on build line) (table.values (spent_now self.now))) }
    {
        self.spent.select_under(spent_key(build, line), |row| is_spent_on(build, line, row))
    }

    /// The row of what was spent on a line of a build. An error is one of memory.
    pub(crate) fn spent_row(&self, build: Id, line: Id) -> Result<Option<&Spent>, AllocError>
        ensures { IfOk result (λ row.
            option_copied row ≡ spent_row build line (spent_now self.now)) }
    {
        let rows = self.spent_at(build, line)?;
        Ok(rows.first().copied())
    }

    /// A row of what was spent comes, or another in the place of one. An error is one of memory.
    pub(crate) fn put_spent(&mut self, row: Spent) -> Result<(), AllocError>
        ensures ok { OnOk result (spent_now self.new ≡ put_spent row (spent_now self.old)) }
        ensures rows { builds_now self.new ≡ builds_now self.old }
        ensures err { OnErr result (self.new ≡ self.old) }
        ensures before { builds_before self.new ≡ builds_before self.old }
        ensures spent_before { spent_before self.new ≡ spent_before self.old }
    {
        self.spent.put(row)
    }

    /// What was spent on the build, in order of number.
    fn spent_of(&self, build: Id) -> Result<Vec<&Spent>, AllocError>
        ensures { IfOk result (λ rows. map (λ r. r.now) rows.items
            ≡ filter (λ x. x.build == build) (table.values (spent_now self.now))) }
    {
        self.spent
            .select_under(spent_build_key(build), |row| row.build == build)
    }

    /// The numbers of what was spent on the build. It looks at these rows alone. An error is one of memory.
    fn spent_numbers(&self, build: Id) -> Result<Vec<Id>, AllocError>
        ensures { IfOk result (λ numbers. removed_all numbers.items (spent_now self.now)
            ≡ unspent build (spent_now self.now)) }
    {
        let _ = self.spent();
        let rows = self.spent_of(build)?;
        numbers_of(self.alloc, rows.as_slice())
    }

    /// What was spent on the build goes, and no other row. An error is one of memory, and may have left some of them.
    pub(crate) fn forget_spent(&mut self, build: Id) -> Result<(), AllocError>
        ensures ok { OnOk result (spent_now self.new ≡ unspent build (spent_now self.old)) }
        ensures rows { builds_now self.new ≡ builds_now self.old }
        ensures before { builds_before self.new ≡ builds_before self.old }
        ensures spent_before { spent_before self.new ≡ spent_before self.old }
    {
        let numbers = self.spent_numbers(build)?;
        remove_all(&mut self.spent, numbers.as_slice())
    }

    /// The build of that number.
    pub fn build(&self, number: Id) -> Option<&Build>
        ensures { option_copied result ≡ table.get (builds_now self.now) (number ∷ []) }
    {
        self.rows.get(number)
    }

    /// Whether there is a build of that number.
    pub fn has_build(&self, number: Id) -> bool
        ensures { result ≡ is_some (table.get (builds_now self.now) (number ∷ [])) }
    {
        self.rows.get(number).is_some()
    }

    /// The parts with an open build, in order of the builds' numbers: one of several builds stands there
    /// several times. It looks at open builds alone. An error is one of memory.
    pub fn open_parts(&self) -> Result<Vec<Id>, AllocError>
        ensures { IfOk result (λ parts. parts.items ≡ open_parts (builds_now self.now)) }
    {
        let rows = self.open_rows()?;
        parts_of(self.alloc, rows.as_slice())
    }

    /// The open builds, in order of number.
    fn open_rows(&self) -> Result<Vec<&Build>, AllocError>
        ensures { IfOk result (λ rows. map (λ r. r.now) rows.items
            ≡ filter (λ x. is_open x.state) (table.values (builds_now self.now))) }
    {
        self.rows
            .select_under(open_key(), |row| row.state.is_open())
    }

    /// A new build. An error is one of memory.
    pub(crate) fn add_build(&mut self, row: Build) -> Result<(), AllocError>
        ensures ok { OnOk result (builds_now self.new ≡ put_build row (builds_now self.old)) }
        ensures spent { spent_now self.new ≡ spent_now self.old }
        ensures err { OnErr result (self.new ≡ self.old) }
        ensures before { builds_before self.new ≡ builds_before self.old }
        ensures spent_before { spent_before self.new ≡ spent_before self.old }
    {
        self.rows.put(row)
    }

    /// A copy of a build. An error is one of memory.
    fn copy_of(&self, number: Id) -> Result<Build, AllocError>
        requires there { IsThere (builds_now self.now) number }
        ensures { IfOk result (λ row. row ≡ build_in number (builds_now self.now)) }
    {
        let Some(build) = self.rows.get(number) else {
            unreachable!()
        };
        build.copy(self.alloc)
    }

    /// A build gets another state. An error is one of memory.
    pub(crate) fn set_state(&mut self, number: Id, state: BuildState) -> Result<(), AllocError>
        requires there { IsThere (builds_now self.old) number }
        ensures ok { OnOk result (builds_now self.new ≡ put_build
            (in_state state (build_in number (builds_now self.old))) (builds_now self.old)) }
        ensures spent { spent_now self.new ≡ spent_now self.old }
        ensures err { OnErr result (self.new ≡ self.old) }
        ensures before { builds_before self.new ≡ builds_before self.old }
        ensures spent_before { spent_before self.new ≡ spent_before self.old }
    {
        let mut row = self.copy_of(number)?;
        row.state = state;
        self.rows.put(row)
    }

    /// So many more of a build are done. An error is one of memory.
    pub(crate) fn add_done(&mut self, number: Id, more: Quantity) -> Result<(), AllocError>
        requires there { IsThere (builds_now self.old) number }
        requires fits { (build_in number (builds_now self.old)).done + more < 2 ^ 64 }
        ensures ok { OnOk result (builds_now self.new ≡ put_build
            (with_done more (build_in number (builds_now self.old))) (builds_now self.old)) }
        ensures spent { spent_now self.new ≡ spent_now self.old }
        ensures err { OnErr result (self.new ≡ self.old) }
        ensures before { builds_before self.new ≡ builds_before self.old }
        ensures spent_before { spent_before self.new ≡ spent_before self.old }
    {
        let mut row = self.copy_of(number)?;
        row.done += more;
        self.rows.put(row)
    }

    /// Makes the changes final: the rows now become the rows before.
    pub fn keep(&mut self)
        ensures now { builds_now self.new ≡ builds_now self.old }
        ensures before { builds_before self.new ≡ builds_now self.old }
        ensures spent { spent_now self.new ≡ spent_now self.old }
        ensures spent_before { spent_before self.new ≡ spent_now self.old }
    {
        self.rows.keep();
        self.spent.keep();
    }

    /// Takes the changes back: the rows are again those before.
    pub fn back(&mut self)
        ensures now { builds_now self.new ≡ builds_before self.old }
        ensures before { builds_before self.new ≡ builds_before self.old }
        ensures spent { spent_now self.new ≡ spent_before self.old }
        ensures spent_before { spent_before self.new ≡ spent_before self.old }
    {
        self.rows.back();
        self.spent.back();
    }
}
