//! The ledger of a part: what came, what went and what is there.
ghost use Rattle.std.specs.Prelude.{◌≡◌, ◌∷◌, [], IfOk, codes, decimal};
ghost use Rattle.desk_core.specs.Machine.{IsSoundState};
ghost use Rattle.desk_core.specs.ShopView.{state_of};
ghost use Rattle.report_core.specs.Ledger.{amount_line, ledger_lines, ledger_of};
ghost use Rattle.report_core.specs.Lines.{Gives, fields_of, lines_of};

use crate::fields::{amount_field, number_field};
use crate::lines::Report;
use desk_core::Shop;
use part_core::{CoreFault, Refusal};
use std::alloc::{AllocError, Global};
use yard_core::Sums;

fn amount_line(alloc: Global, name: &str, amount: u128) -> Result<Vec<String>, AllocError>
    ensures { IfOk result (λ line. fields_of line ≡ amount_line name.now amount) }
{
    let name = String::from_str(alloc, name)?;
    let amount = amount_field(alloc, amount)?;
    Ok(vec![in alloc; name, amount]?)
}

fn head(alloc: Global, number: u64, name: &str) -> Result<Vec<String>, AllocError>
    ensures { IfOk result (λ line. fields_of line
        ≡ codes "ledger" ∷ decimal number ∷ name.now ∷ []) }
{
    let word = String::from_str(alloc, "ledger")?;
    let number = number_field(alloc, number)?;
    let name = String::from_str(alloc, name)?;
    Ok(vec![in alloc; word, number, name]?)
}

fn ledger_lines(
    alloc: Global,
    number: u64,
    name: &str,
    sums: &Sums,
) -> Result<Vec<Vec<String>>, AllocError>
    ensures { IfOk result (λ lines. lines_of lines.items ≡ ledger_of number name.now sums.now) }
{
    let lines = vec![in alloc;
        head(alloc, number, name)?,
        amount_line(alloc, "received", sums.received)?,
        amount_line(alloc, "found", sums.found)?,
        amount_line(alloc, "built", sums.built)?,
        amount_line(alloc, "returned", sums.returned)?,
        amount_line(alloc, "consumed", sums.consumed)?,
        amount_line(alloc, "shipped", sums.shipped)?,
        amount_line(alloc, "written", sums.written)?,
        amount_line(alloc, "present", sums.present)?,
        amount_line(alloc, "sent", sums.sent)?,
        amount_line(alloc, "used", sums.used)?,
    ]?;
    Ok(lines)
}

/// The ledger of the part of that number. NoSuch where there is no such part.
pub fn ledger(alloc: Global, shop: &Shop, number: u64) -> Result<Report, CoreFault>
    requires { IsSoundState (state_of shop.now) }
    ensures { Gives (ledger_lines number (state_of shop.now)) result }
{
    let Some(part) = shop.catalogue().part(number) else {
        return Err(CoreFault::Refused(Refusal::NoSuch));
    };
    let sums = shop.yard().sums(number);
    let lines = ledger_lines(alloc, number, part.name.as_str(), &sums)?;
    Ok(Report::new(lines))
}
