//! A part is retired, once and for good.
ghost use Rattle.std.specs.Prelude.{◌≡◌, ◌∷◌, [], IfSome, IsSome, OnOk, OnErr};
ghost use Rattle.std.specs.FinMap as table;
ghost use Rattle.word_core.specs.Acts.{Acts};
ghost use Rattle.part_core.specs.CatalogueView.{parts_before, parts_of};
ghost use Rattle.part_core.specs.RetirePart.{retire_part, retire_part_checks, retired_part};
ghost use Rattle.sheet_core.specs.Sheet.{now_of};

use crate::catalogue::Catalogue;
use crate::part::Part;
use crate::{CoreFault, Id, IndexedSheet, Refusal, Row};
use std::alloc::{AllocError, Global};

/// Retires the part of that number.
fn set_retired(alloc: Global, parts: &mut IndexedSheet<Part>, number: Id) -> Result<(), AllocError>
    requires { IsSome (table.get (now_of parts.old) (number ∷ [])) }
    ensures ok { OnOk result (IfSome (table.get (now_of parts.old) (number ∷ []))
        (λ part. now_of parts.new
        ≡ table.insert (now_of parts.old) (number ∷ []) (retired_part part))) }
    ensures err { OnErr result (now_of parts.new ≡ now_of parts.old) }
    ensures before { parts.new.before ≡ parts.old.before }
{
    let Some(part) = parts.get(number) else {
        unreachable!()
    };
    let mut part = part.copy(alloc)?;
    part.retired = true;
    parts.put(part)
}

impl Catalogue {
    /// Retires a part. `NoSuch` where there is no such part, `Retired` where it is retired already.
    pub fn retire(&mut self, part: Id) -> Result<(), CoreFault>
        requires { parts_before self.old ≡ parts_of self.old }
        ensures acts { let parts = parts_of self.old in
            Acts (retire_part_checks part parts)
            (retire_part part parts, tt) parts result (parts_of self.new) }
        ensures before { parts_before self.new ≡ parts_before self.old }
    {
        let Some(row) = self.part(part) else {
            return Err(CoreFault::Refused(Refusal::NoSuch));
        };
        if row.retired {
            return Err(CoreFault::Refused(Refusal::Retired));
        }
        set_retired(self.alloc, &mut self.parts, part)?;
        Ok(())
    }
}
