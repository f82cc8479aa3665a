//! Lists of lines in order of number, as one.
ghost use Rattle.std.specs.Prelude.{◌≡◌, IfOk, map};
ghost use Rattle.bom_core.specs.Roles.{merged};

use crate::line::Line;
use std::alloc::{AllocError, Global};

/// The lines and the others, in order of number, and once where they stand in both lists.
pub fn merge<'a>(
    alloc: Global,
    lines: &[&'a Line],
    others: &[&'a Line],
) -> Result<Vec<&'a Line>, AllocError>
    ensures { IfOk result (λ all. map (λ l. l.now) all.items
        ≡ merged (map (λ l. l.now) lines.now) (map (λ l. l.now) others.now)) }
{
    let mut all = Vec::new(alloc);
    let mut at = 0;
    for line in lines {
        while at < others.len() && others[at].number <= line.number {
            if others[at].number < line.number {
                all.push(others[at])?;
            }
            at += 1;
        }
        all.push(*line)?;
    }
    while at < others.len() {
        all.push(others[at])?;
        at += 1;
    }
    Ok(all)
}
