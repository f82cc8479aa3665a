//! Where a part is used: the parts that contain it, by a walk of any length.
ghost use Rattle.std.specs.Prelude.{◌≡◌, ◌↔◌, ℕ, true, filter, map, IfOk};
ghost use Rattle.bom_core.specs.Bills.{part_rows};
ghost use Rattle.bom_core.specs.Walks.{HasWalk};
ghost use Rattle.part_core.specs.declared.part.Part.{Part};
ghost use Rattle.desk_core.specs.Machine.{IsSoundState, State};
ghost use Rattle.desk_core.specs.ShopView.{state_of};
ghost use Rattle.report_core.specs.Lines.{Gives, fields_of, lines_of};
ghost use Rattle.report_core.specs.WhereUsed.{part_line, uses, where_used_lines};

use crate::fields::number_field;
use crate::lines::Report;
use bom_core::walks_are_short;
use desk_core::Shop;
use part_core::{CoreFault, Part, Refusal};
use std::alloc::{AllocError, Global};

fn part_line(alloc: Global, part: &Part) -> Result<Vec<String>, AllocError>
    ensures { IfOk result (λ line. fields_of line ≡ part_line part.now) }
{
    let number = number_field(alloc, part.number)?;
    let name = String::from_str(alloc, part.name.as_str())?;
    Ok(vec![in alloc; number, name]?)
}

fn part_lines(alloc: Global, parts: &[&Part]) -> Result<Vec<Vec<String>>, AllocError>
    ensures { IfOk result (λ lines. lines_of lines.items
        ≡ map part_line (map (λ p. p.now) parts.now)) }
{
    let mut lines = Vec::with_capacity(alloc, parts.len())?;
    for part in parts {
        lines.push(part_line(alloc, part)?)?;
    }
    Ok(lines)
}

/// In a sound state the report's test of a part tells exactly whether a walk leads from it to the other.
pub fn uses_tells_walks()
    ensures { (s : State) → IsSoundState s → (number : ℕ) (x : Part) →
        (uses s.parts s.bills number x ≡ true) ↔ HasWalk s.parts s.bills x.number number }
{
    walks_are_short();
}

/// The parts that contain the part of that number, in order of number. An error is one of memory.
pub fn parts_using(shop: &Shop, number: u64) -> Result<Vec<&Part>, AllocError>
    requires { IsSoundState (state_of shop.now) }
    ensures { IfOk result (λ parts. let s = state_of shop.now in map (λ p. p.now) parts.items
        ≡ filter (uses s.parts s.bills number) (part_rows s.parts)) }
{
    uses_tells_walks();
    shop.boms().where_used(shop.catalogue(), number)
}

/// The parts that contain the part of that number, by a walk of any length, in order of number. NoSuch
/// where there is no such part.
pub fn where_used(alloc: Global, shop: &Shop, number: u64) -> Result<Report, CoreFault>
    requires { IsSoundState (state_of shop.now) }
    ensures { Gives (where_used_lines number (state_of shop.now)) result }
{
    if shop.catalogue().part(number).is_none() {
        return Err(CoreFault::Refused(Refusal::NoSuch));
    }
    let parts = parts_using(shop, number)?;
    let lines = part_lines(alloc, parts.as_slice())?;
    Ok(Report::new(lines))
}
