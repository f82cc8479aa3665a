//! A report as text, as it is printed and as HTTP sends it.
ghost use Rattle.std.specs.Prelude.{◌≡◌, IfOk, IfErr};
ghost use Rattle.std.specs.String.{string_bytes};
ghost use Rattle.desk_core.specs.Machine.{IsSoundState};
ghost use Rattle.desk_core.specs.ShopView.{state_of};
ghost use Rattle.desk_core.specs.declared.end.Stop.{Stop};
ghost use Rattle.report_core.specs.Reports.{report_lines};
ghost use Rattle.desk_wire.specs.Printed.{printed};

use crate::told::Told;
use crate::write::refused_text;
use desk_core::{Shop, Stop};
use part_core::CoreFault;
use report_core::{ReportName, report};
use std::alloc::Global;

/// Tells the report of that name as text, as it is printed.
pub fn tell_report_as_text(
    alloc: Global,
    shop: &Shop,
    name: ReportName,
    of: u64,
) -> Result<Told, Stop>
    requires { IsSoundState (state_of shop.now) }
    ensures ok { IfOk result (λ told. printed (report_lines name of (state_of shop.now))
        ≡ (string_bytes told.text, told.fine)) }
    ensures memory { IfErr result (λ stop. stop ≡ Stop.Memory) }
{
    match report(alloc, shop, name, of) {
        Ok(report) => Ok(Told {
            text: report.text(alloc)?,
            fine: true,
        }),
        Err(CoreFault::Refused(refusal)) => Ok(Told {
            text: refused_text(alloc, refusal)?,
            fine: false,
        }),
        Err(CoreFault::Memory) => Err(Stop::Memory),
    }
}
