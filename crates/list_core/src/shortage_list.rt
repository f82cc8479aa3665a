//! The list of what all open builds together still want.
ghost use Rattle.std.specs.Prelude.{◌≡◌, ◌∷◌, [], filter, flat_map, map, nat_lt, IfOk, OnOk};
ghost use Rattle.std.specs.FinMap as table;
ghost use Rattle.sheet_core.specs.Sheet.{now_of};
ghost use Rattle.desk_core.specs.ShopView.{state_of};
ghost use Rattle.list_core.specs.Gathered.{gathered, gathered_row, is_lacking, want_in, with_row};
ghost use Rattle.report_core.specs.Lines.{fields_of, lines_of};
ghost use Rattle.report_core.specs.Shortage.{wants_of};
ghost use Rattle.list_core.specs.ShortageList.{all_wants, shortage_list, wants_header};

use crate::amounts::{added, free_amount};
use build_core::{Build, Shortage};
use desk_core::Shop;
use part_core::{Id, Part, Row, Sheet};
use report_core::fields::{amount_field, number_field};
use report_core::{Report, shortage};
use std::alloc::{AllocError, Global};
use yard_core::rows_in_order;

/// What is wanted of a part by some lines of bills.
#[derive(Drop)]
struct Want {
    part: Id,
    required: u128,
    allocated: u128,
    missing: u128,
}

impl Row for Want {
    type Key = u64;

    ghost key_of = { λ want. want.part ∷ [] };

    fn key(&self, _alloc: Global) -> Result<u64, AllocError> {
        Ok(self.part)
    }

    fn equals(&self, other: &Self) -> bool {
        if self.part != other.part {
            return false;
        }
        if self.required != other.required {
            return false;
        }
        if self.allocated != other.allocated {
            return false;
        }
        self.missing == other.missing
    }

    fn copy(&self, _alloc: Global) -> Result<Self, AllocError> {
        Ok(Want {
            part: self.part,
            required: self.required,
            allocated: self.allocated,
            missing: self.missing,
        })
    }
}

/// What is wanted of a part so far: nothing where no line wanted it yet.
fn want_in(wants: &Sheet<Want>, part: Id) -> Want
    ensures { result ≡ want_in part (now_of wants.now) }
{
    match wants.get(&part) {
        Some(want) => Want {
            part: want.part,
            required: want.required,
            allocated: want.allocated,
            missing: want.missing,
        },
        None => Want {
            part,
            required: 0,
            allocated: 0,
            missing: 0,
        },
    }
}

/// Adds what a line wants to what is wanted of its component. An error is one of memory.
fn gather(wants: &mut Sheet<Want>, row: &Shortage) -> Result<(), AllocError>
    ensures { OnOk result (now_of wants.new ≡ with_row row.now (now_of wants.old)) }
{
    let want = want_in(wants, row.component);
    let required = added(want.required, row.required)?;
    let allocated = added(want.allocated, row.allocated)?;
    let missing = added(want.missing, row.missing)?;
    wants.put(Want {
        part: row.component,
        required,
        allocated,
        missing,
    })
}

/// Adds what these lines want. An error is one of memory.
fn gather_all(wants: &mut Sheet<Want>, rows: &[Shortage]) -> Result<(), AllocError>
    ensures { OnOk result (now_of wants.new ≡ gathered rows.now (now_of wants.old)) }
{
    for row in rows {
        gather(wants, row)?;
    }
    Ok(())
}

/// What these builds want of each part. An error is one of memory.
fn wants_of(alloc: Global, shop: &Shop, builds: &[&Build]) -> Result<Sheet<Want>, AllocError>
    ensures { IfOk result (λ wants. now_of wants ≡ gathered (flat_map
        (λ b. wants_of b.number (state_of shop.now)) (map (λ b. b.now) builds.now)) table.empty) }
{
    let mut wants = Sheet::new(alloc, shop.catalogue().seed());
    for build in builds {
        let rows = shortage::wants_of(alloc, shop, build.number)?;
        gather_all(&mut wants, rows.as_slice())?;
    }
    Ok(wants)
}

/// What every build wants of each part. An error is one of memory.
fn all_wants(alloc: Global, shop: &Shop) -> Result<Sheet<Want>, AllocError>
    ensures { IfOk result (λ wants.
        now_of wants ≡ gathered (all_wants (state_of shop.now)) table.empty) }
{
    let builds = rows_in_order(shop.builds().rows())?;
    wants_of(alloc, shop, builds.as_slice())
}

/// The fields' names.
fn header(alloc: Global) -> Result<Vec<String>, AllocError>
    ensures { IfOk result (λ line. fields_of line ≡ wants_header) }
{
    let line = vec![in alloc;
        String::from_str(alloc, "part")?,
        String::from_str(alloc, "name")?,
        String::from_str(alloc, "required")?,
        String::from_str(alloc, "allocated")?,
        String::from_str(alloc, "missing")?,
        String::from_str(alloc, "free")?,
        String::from_str(alloc, "buy")?,
    ]?;
    Ok(line)
}

/// A part with what is wanted of it, what is free, and how many have to be had besides.
fn want_row(alloc: Global, shop: &Shop, part: &Part, want: &Want) -> Result<Vec<String>, AllocError>
    ensures { IfOk result (λ line. fields_of line
        ≡ gathered_row (state_of shop.now) want.now part.now) }
{
    let amount = free_amount(shop, part.number)?;
    let number = number_field(alloc, part.number)?;
    let name = String::from_str(alloc, part.name.as_str())?;
    let required = amount_field(alloc, want.required)?;
    let allocated = amount_field(alloc, want.allocated)?;
    let missing = amount_field(alloc, want.missing)?;
    let free = amount_field(alloc, amount)?;
    let buy = amount_field(alloc, want.missing.saturating_sub(amount))?;
    Ok(vec![in alloc; number, name, required, allocated, missing, free, buy]?)
}

/// The header, and the rows of those of the parts of which something is missing.
fn rows_of(
    alloc: Global,
    shop: &Shop,
    wants: &Sheet<Want>,
    parts: &[&Part],
) -> Result<Vec<Vec<String>>, AllocError>
    ensures { IfOk result (λ lines. lines_of lines.items ≡ wants_header
        ∷ map (λ p. gathered_row (state_of shop.now) (want_in p.number (now_of wants.now)) p)
        (filter (is_lacking (now_of wants.now)) (map (λ p. p.now) parts.now))) }
{
    let mut lines = vec![in alloc; header(alloc)?]?;
    for part in parts {
        let want = want_in(wants, part.number);
        if want.missing > 0 {
            lines.push(want_row(alloc, shop, part, &want)?)?;
        }
    }
    Ok(lines)
}

/// Each part of which open builds miss something, in order of number: what is required, allocated and missing of it over
/// all their lines, what is free, and how many have to be had besides. It goes over the builds' lines once and over the
/// parts once. An error is one of memory.
pub fn shortage_list(alloc: Global, shop: &Shop) -> Result<Report, AllocError>
    ensures { IfOk result (λ list. list ≡ shortage_list (state_of shop.now)) }
{
    let wants = all_wants(alloc, shop)?;
    let parts = rows_in_order(shop.catalogue().parts())?;
    let lines = rows_of(alloc, shop, &wants, parts.as_slice())?;
    Ok(Report::new(lines))
}
