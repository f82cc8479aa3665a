//! What allocations are for, and whose they are.
ghost use Rattle.std.specs.Prelude.{◌≡◌, ◌≤◌, ◌↔◌, IsTrue, Some, map, slice_get};
ghost use Rattle.sheet_core.specs.Indexed.{hash_of, index_key_of};
ghost use Rattle.sheet_core.specs.Columns.{Finds};
ghost use Rattle.alloc_core.specs.AllocationColumns.{output_number, output_of, purpose_at, purpose_line};
ghost use Rattle.alloc_core.specs.AllocationColumns.{purpose_of, purpose_output, purpose_owner, purpose_side};
ghost use Rattle.alloc_core.specs.AllocationKeys.{build_key, build_line_key, order_key};
ghost use Rattle.alloc_core.specs.AllocationKeys.{output_key, purpose_keys, sale_line_key};
ghost use Rattle.alloc_core.specs.Allocations.{is_for_build, is_for_build_line, is_for_line};
ghost use Rattle.alloc_core.specs.Allocations.{is_for_order, is_for_output, is_for_sale_line};
ghost use Rattle.word_core.specs.Numbered.{is_same_number};

use part_core::column::number_at;
use part_core::{Column, ColumnFault, Id, Seed};
use std::hash::Hash;
use std::marker::Model;

/// The number of an item that is an output of a build. It is never 0, so a file has 0 where there is none.
#[derive(Drop, Debug, PartialEq, Eq)]
pub struct OutputNumber {
    number: Id,
}

impl Model for OutputNumber {
    ghost use Rattle.std.specs.Prelude.{ℕ, ◌≤◌};

    ghost Value = { ℕ };

    ghost view = { λ o. o.number };

    ghost invariant = { λ o. 1 ≤ o.number };

    ghost inverse = { λ n. record { number = n } };
}

impl OutputNumber {
    /// The output of that number: none where it is 0.
    pub fn new(number: Id) -> Option<Self>
        ensures { result ≡ output_of number }
    {
        if number == 0 {
            None
        } else {
            Some(OutputNumber { number })
        }
    }

    pub fn number(&self) -> Id
        ensures value { result ≡ self.now }
        ensures some { 1 ≤ self.now }
    {
        self.number
    }
}

/// What an allocation is for.
#[derive(Drop, Debug, PartialEq, Eq)]
pub enum Purpose {
    /// For a line of a sales order.
    Sale {
        order: Id,
        line: Id,
    },
    /// For a line of the bill that a build goes by: where that line is tracked, for one of the build's
    /// outputs.
    Build {
        build: Id,
        line: Id,
        output: Option<OutputNumber>,
    },
}

/// Whose allocations they are: those that go when an order ships or is cancelled, when a build is done or
/// cancelled, and when an output is done, cancelled or scrapped.
#[derive(Clone, Copy, Debug, PartialEq, Eq)]
pub enum Owner {
    Order(Id),
    Build(Id),
    /// One output of a build, by its item.
    Output(Id),
}

/// What an allocation is looked up by, besides its number.
#[derive(Clone, Copy, Debug, PartialEq, Eq, Hash)]
pub enum AllocationLookup {
    Item(Id),
    Order(Id),
    SaleLine(Id),
    Build(Id),
    Output(Id),
    /// A line of a build's bill, by the build and the line.
    BuildLine(Id, Id),
}

/// The look-up of the order's allocations.
pub fn order_key(number: Id) -> AllocationLookup
    ensures { index_key_of (⟦<AllocationLookup as Hash>⟧.hash_input result) ≡ order_key number }
{
    AllocationLookup::Order(number)
}

/// The look-up of the allocations for a line of a sale.
pub fn sale_line_key(number: Id) -> AllocationLookup
    ensures { index_key_of (⟦<AllocationLookup as Hash>⟧.hash_input result) ≡ sale_line_key number }
{
    AllocationLookup::SaleLine(number)
}

/// The look-up of the build's allocations, those for its outputs too.
pub fn build_key(number: Id) -> AllocationLookup
    ensures { index_key_of (⟦<AllocationLookup as Hash>⟧.hash_input result) ≡ build_key number }
{
    AllocationLookup::Build(number)
}

/// The look-up of the allocations for a line of the build, whatever the output.
pub fn build_line_key(number: Id, line: Id) -> AllocationLookup
    ensures { index_key_of (⟦<AllocationLookup as Hash>⟧.hash_input result)
        ≡ build_line_key number line }
{
    AllocationLookup::BuildLine(number, line)
}

/// The look-up of the output's allocations.
pub fn output_key(number: Id) -> AllocationLookup
    ensures { index_key_of (⟦<AllocationLookup as Hash>⟧.hash_input result) ≡ output_key number }
{
    AllocationLookup::Output(number)
}

/// The number that a file has for an output: 0 where there is none.
fn output_number(output: &Option<OutputNumber>) -> u64
    ensures value { result ≡ output_number output.now }
    ensures read { output_of result ≡ output.now }
{
    match output {
        None => 0,
        Some(output) => output.number(),
    }
}

/// Whether the output is of that number, or there is none and none is named.
fn is_output(output: &Option<OutputNumber>, number: Option<Id>) -> bool
    ensures { result ≡ is_same_number output.now number }
{
    match output {
        None => number.is_none(),
        Some(output) => number == Some(output.number()),
    }
}

/// An equal output, or none.
fn copy_output(output: &Option<OutputNumber>) -> Option<OutputNumber>
    ensures { result ≡ output.now }
{
    match output {
        None => None,
        Some(output) => OutputNumber::new(output.number()),
    }
}

impl Purpose {
    /// An equal purpose.
    pub fn copy(&self) -> Purpose
        ensures { result ≡ self.now }
    {
        match self {
            Purpose::Sale { order, line } => Purpose::Sale {
                order: *order,
                line: *line,
            },
            Purpose::Build {
                build,
                line,
                output,
            } => Purpose::Build {
                build: *build,
                line: *line,
                output: copy_output(output),
            },
        }
    }

    /// Whether the purposes are the same.
    pub fn equals(&self, other: &Purpose) -> bool
        ensures { IsTrue result ↔ (self.now ≡ other.now) }
    {
        *self == *other
    }

    /// Whether it is for the order.
    pub fn is_for_order(&self, number: Id) -> bool
        ensures { result ≡ is_for_order number self.now }
    {
        match self {
            Purpose::Sale { order, .. } => *order == number,
            Purpose::Build { .. } => false,
        }
    }

    /// Whether it is for the line of a sale.
    pub fn is_for_sale_line(&self, number: Id) -> bool
        ensures { result ≡ is_for_sale_line number self.now }
    {
        match self {
            Purpose::Sale { line, .. } => *line == number,
            Purpose::Build { .. } => false,
        }
    }

    /// Whether it is for the build, or for one of its outputs.
    pub fn is_for_build(&self, number: Id) -> bool
        ensures { result ≡ is_for_build number self.now }
    {
        match self {
            Purpose::Sale { .. } => false,
            Purpose::Build { build, .. } => *build == number,
        }
    }

    /// Whether it is for the line of the build, whatever the output.
    pub fn is_for_build_line(&self, number: Id, bill_line: Id) -> bool
        ensures { result ≡ is_for_build_line number bill_line self.now }
    {
        match self {
            Purpose::Sale { .. } => false,
            Purpose::Build { build, line, .. } => *build == number && *line == bill_line,
        }
    }

    /// Whether it is for the line of the build and for that output, or for none where none is named.
    pub fn is_for_line(&self, number: Id, bill_line: Id, named: Option<Id>) -> bool
        ensures { result ≡ is_for_line number bill_line named self.now }
    {
        match self {
            Purpose::Sale { .. } => false,
            Purpose::Build {
                build,
                line,
                output,
            } => *build == number && *line == bill_line && is_output(output, named),
        }
    }

    /// Whether it is for the output.
    pub fn is_for_output(&self, number: Id) -> bool
        ensures { result ≡ is_for_output number self.now }
    {
        match self {
            Purpose::Sale { .. } => false,
            Purpose::Build { output, .. } => match output {
                None => false,
                Some(output) => output.number() == number,
            },
        }
    }

    /// The index key at that place, behind the one of the item.
    pub(crate) fn index_key(&self, seed: &Seed, place: usize) -> Option<u64>
        ensures { result ≡ slice_get (map (hash_of seed.now) (purpose_keys self.now)) place }
    {
        match self {
            Purpose::Sale { order, line } => match place {
                0 => Some(seed.hash_of(order_key(*order))),
                1 => Some(seed.hash_of(sale_line_key(*line))),
                _ => None,
            },
            Purpose::Build {
                build,
                line,
                output,
            } => match place {
                0 => Some(seed.hash_of(build_key(*build))),
                1 => Some(seed.hash_of(build_line_key(*build, *line))),
                2 => match output {
                    Some(output) => Some(seed.hash_of(output_key(output.number()))),
                    None => None,
                },
                _ => None,
            },
        }
    }

    /// Whether it is for a sale or for a build, as a file has it.
    pub(crate) fn side(&self) -> u64
        ensures { result ≡ purpose_side self.now }
    {
        match self {
            Purpose::Sale { .. } => 0,
            Purpose::Build { .. } => 1,
        }
    }

    /// The number of the order or the build.
    pub(crate) fn owner(&self) -> Id
        ensures { result ≡ purpose_owner self.now }
    {
        match self {
            Purpose::Sale { order, .. } => *order,
            Purpose::Build { build, .. } => *build,
        }
    }

    /// The number of the line.
    pub(crate) fn line(&self) -> Id
        ensures { result ≡ purpose_line self.now }
    {
        match self {
            Purpose::Sale { line, .. } => *line,
            Purpose::Build { line, .. } => *line,
        }
    }

    /// The number of the output, as a file has it: 0 where there is none.
    pub(crate) fn output(&self) -> u64
        ensures value { result ≡ purpose_output self.now }
        ensures read { purpose_of (purpose_side self.now) (purpose_owner self.now)
            (purpose_line self.now) result ≡ Some self.now }
    {
        match self {
            Purpose::Sale { .. } => 0,
            Purpose::Build { output, .. } => output_number(output),
        }
    }

    /// The purpose of these numbers of a file: none where the side is neither, or a sale has an output.
    pub(crate) fn from_numbers(side: u64, owner: Id, line: Id, output: u64) -> Option<Purpose>
        ensures { result ≡ purpose_of side owner line output }
    {
        match side {
            0 => {
                if output == 0 {
                    Some(Purpose::Sale { order: owner, line })
                } else {
                    None
                }
            }
            1 => Some(Purpose::Build {
                build: owner,
                line,
                output: OutputNumber::new(output),
            }),
            _ => None,
        }
    }
}

/// What an allocation's columns say of what it is for.
pub(crate) fn purpose_at(columns: &[Column]) -> Result<Purpose, ColumnFault>
    ensures { Finds result (purpose_at columns.now) }
{
    let side = number_at(columns, 3)?;
    let owner = number_at(columns, 4)?;
    let line = number_at(columns, 5)?;
    let output = number_at(columns, 6)?;
    Purpose::from_numbers(side, owner, line, output).ok_or(ColumnFault::NoRow)
}
