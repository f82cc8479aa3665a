//! Each report by its name.
ghost use Rattle.desk_core.specs.Machine.{IsSoundState};
ghost use Rattle.desk_core.specs.ShopView.{state_of};
ghost use Rattle.report_core.specs.Reports.{Reports};

use crate::content::content;
use crate::history::history;
use crate::ledger::ledger;
use crate::lines::Report;
use crate::name::ReportName;
use crate::shortage::shortage;
use crate::stock::stock;
use crate::where_used::where_used;
use desk_core::Shop;
use part_core::CoreFault;
use std::alloc::Global;

/// The report of that name on the part of that number, for a history and for a content on the item, and for a
/// shortage on the build. NoSuch where there is no such row.
pub fn report(
    alloc: Global,
    shop: &Shop,
    name: ReportName,
    number: u64,
) -> Result<Report, CoreFault>
    requires { IsSoundState (state_of shop.now) }
    ensures { Reports (state_of shop.now) name number result }
{
    match name {
        ReportName::Ledger => ledger(alloc, shop, number),
        ReportName::Stock => stock(alloc, shop, number),
        ReportName::WhereUsed => where_used(alloc, shop, number),
        ReportName::History => history(alloc, shop, number),
        ReportName::Content => content(alloc, shop, number),
        ReportName::Shortage => shortage(alloc, shop, number),
    }
}
