//! Lines of bills.
ghost use Rattle.std.specs.Prelude.{◌≡◌, ◌↔◌, ◌∷◌, [], IsTrue};
ghost use Rattle.sheet_core.specs.Indexed.{index_key_of};
ghost use Rattle.bom_core.specs.BillColumns.{line_columns, line_flags_at, line_flags_number, line_flags_of, line_from};
ghost use Rattle.sheet_core.specs.Columns.{Finds};
ghost use Rattle.bom_core.specs.BillKeys.{line_key, line_keys};

use part_core::column::{has, is_bit, number_at};
use part_core::{Column, ColumnFault, Id, Indexed, Quantity, Row, Seed, Stored};
use std::alloc::{AllocError, Global};
use std::hash::Hash;

/// What a line asks for.
#[derive(Clone, Copy, Debug, Default, PartialEq, Eq)]
pub struct LineFlags {
    /// A build may be done without it.
    pub optional: bool,
    /// It is used up without being counted.
    pub consumable: bool,
    /// It also stands in the bills of the assembly's variants.
    pub inherited: bool,
    /// Variants of the component fit it too.
    pub variants: bool,
}

impl LineFlags {
    /// The flags as a number, as a file has it: the first is 1, the second 2, the third 4, the last 8.
    pub fn number(&self) -> u64
        ensures { result ≡ line_flags_number self.now }
    {
        self.optional as u64
            + 2 * self.consumable as u64
            + 4 * self.inherited as u64
            + 8 * self.variants as u64
    }

    /// The flags of a number, none for one of 16 or more.
    pub fn from_number(number: u64) -> Option<LineFlags>
        ensures { result ≡ line_flags_of number }
    {
        if number >= 16 {
            return None;
        }
        Some(LineFlags {
            optional: is_bit(1, number),
            consumable: is_bit(2, number),
            inherited: is_bit(4, number),
            variants: is_bit(8, number),
        })
    }

    /// Whether the flags are the same.
    pub fn equals(&self, other: &LineFlags) -> bool
        ensures { IsTrue result ↔ (self.now ≡ other.now) }
    {
        if self.optional != other.optional {
            return false;
        }
        if self.consumable != other.consumable {
            return false;
        }
        if self.inherited != other.inherited {
            return false;
        }
        self.variants == other.variants
    }
}

/// A line of an assembly's bill: so many of a component go into one unit of the assembly.
#[derive(Drop, Debug)]
pub struct Line {
    pub number: Id,
    pub assembly: Id,
    pub component: Id,
    /// For one unit of the assembly: 1 to 1,000,000,000.
    pub quantity: Quantity,
    pub flags: LineFlags,
}

/// The role of a part that a line names.
#[derive(Clone, Copy, Debug)]
pub enum Role {
    Assembly,
    Component,
}

/// What a line is looked up by, besides its number.
#[derive(Clone, Copy, Debug, PartialEq, Eq, Hash)]
pub enum LineLookup {
    Assembly(Id),
    Component(Id),
}

/// What is said of a new line.
#[derive(Clone, Copy, Debug)]
pub struct NewLine {
    pub assembly: Id,
    pub component: Id,
    /// For one unit of the assembly.
    pub quantity: Quantity,
    pub flags: LineFlags,
}

impl NewLine {
    ghost use Rattle.bom_core.specs.Lines.{new_line};

    /// The row of the line under that number.
    pub fn row(self, number: Id) -> Line
        ensures { result ≡ new_line number self }
    {
        Line {
            number,
            assembly: self.assembly,
            component: self.component,
            quantity: self.quantity,
            flags: self.flags,
        }
    }
}

impl Line {
    ghost use Rattle.bom_core.specs.Roles.{named, takes_variants};

    /// The part in that role.
    pub fn named(&self, role: Role) -> Id
        ensures { result ≡ named role self.now }
    {
        match role {
            Role::Assembly => self.assembly,
            Role::Component => self.component,
        }
    }

    /// Whether the line means the variants of that part too.
    pub fn takes_variants(&self, role: Role) -> bool
        ensures { result ≡ takes_variants role self.now }
    {
        match role {
            Role::Assembly => self.flags.inherited,
            Role::Component => self.flags.variants,
        }
    }
}

/// The flags in the column.
fn flags_at(columns: &[Column], at: usize) -> Result<LineFlags, ColumnFault>
    ensures { Finds result (line_flags_at at columns.now) }
{
    let number = number_at(columns, at)?;
    LineFlags::from_number(number).ok_or(ColumnFault::NoRow)
}

impl Row for Line {
    type Key = u64;

    ghost key_of = { λ row. row.number ∷ [] };

    fn key(&self, _alloc: Global) -> Result<u64, AllocError> {
        Ok(self.number)
    }

    fn equals(&self, other: &Self) -> bool {
        if self.number != other.number {
            return false;
        }
        if self.assembly != other.assembly {
            return false;
        }
        if self.component != other.component {
            return false;
        }
        if self.quantity != other.quantity {
            return false;
        }
        self.flags.equals(&other.flags)
    }

    fn copy(&self, _alloc: Global) -> Result<Self, AllocError> {
        Ok(Line {
            number: self.number,
            assembly: self.assembly,
            component: self.component,
            quantity: self.quantity,
            flags: self.flags,
        })
    }
}

/// The look-up of the lines that name the part in that role.
pub fn line_key(role: Role, number: Id) -> LineLookup
    ensures { index_key_of (⟦<LineLookup as Hash>⟧.hash_input result) ≡ line_key role number }
{
    match role {
        Role::Assembly => LineLookup::Assembly(number),
        Role::Component => LineLookup::Component(number),
    }
}

impl Indexed for Line {
    ghost index_keys = { line_keys };

    fn index_key(&self, seed: &Seed, place: usize) -> Option<u64> {
        match place {
            0 => Some(seed.hash_of(line_key(Role::Assembly, self.assembly))),
            1 => Some(seed.hash_of(line_key(Role::Component, self.component))),
            _ => None,
        }
    }
}

impl Stored for Line {
    ghost columns_of = { line_columns };

    ghost row_from = { line_from };

    #[tactic(auto, using(crate::proofs::BillColumns::line_read))]
    fn columns(&self, alloc: Global) -> Result<Vec<Column>, AllocError> {
        Ok(vec![in alloc;
            Column::Whole(self.number),
            Column::Whole(self.assembly),
            Column::Whole(self.component),
            Column::Whole(self.quantity),
            Column::Whole(self.flags.number()),
        ]?)
    }

    fn from_columns(_alloc: Global, columns: &[Column]) -> Result<Self, ColumnFault> {
        has(columns, 5)?;
        let number = number_at(columns, 0)?;
        let assembly = number_at(columns, 1)?;
        let component = number_at(columns, 2)?;
        let quantity = number_at(columns, 3)?;
        let flags = flags_at(columns, 4)?;
        Ok(Line {
            number,
            assembly,
            component,
            quantity,
            flags,
        })
    }
}
