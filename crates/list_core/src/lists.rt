//! Each list by its name.
ghost use Rattle.desk_core.specs.Machine.{IsSoundState};
ghost use Rattle.desk_core.specs.ShopView.{state_of};
ghost use Rattle.list_core.specs.Listings.{Lists};

use crate::build_list::build_list;
use crate::count_sheet::count_sheet;
use crate::find_list::find_list;
use crate::history_list::history_list;
use crate::item_list::item_list;
use crate::listing::Listing;
use crate::low_list::low_list;
use crate::order_list::order_list;
use crate::part_list::part_list;
use crate::place_list::place_list;
use crate::receipt_sheet::receipt_sheet;
use crate::report_form::named_report;
use crate::shortage_list::shortage_list;
use crate::stock_list::stock_list;
use crate::trace_list::{batch_list, item_trace};
use crate::walk::Direction;
use desk_core::Shop;
use part_core::CoreFault;
use report_core::Report;
use std::alloc::Global;

/// The list that is asked for: a line with the names of its columns, then a line for each row. NoSuch where it is of a
/// row and there is no such row.
pub fn listed(alloc: Global, shop: &Shop, listing: Listing<'_>) -> Result<Report, CoreFault>
    requires { IsSoundState (state_of shop.now) }
    ensures { Lists (state_of shop.now) listing.entry result }
{
    match listing {
        Listing::Stock(low) => Ok(stock_list(alloc, shop, low)?),
        Listing::At(location) => place_list(alloc, shop, location),
        Listing::Part(part) => part_list(alloc, shop, part),
        Listing::Item(item) => item_list(alloc, shop, item),
        Listing::Orders(open) => Ok(order_list(alloc, shop, open)?),
        Listing::Builds(open) => Ok(build_list(alloc, shop, open)?),
        Listing::Find(word) => Ok(find_list(alloc, shop, word)?),
        Listing::Shortages => Ok(shortage_list(alloc, shop)?),
        Listing::TraceBatch(batch) => batch_list(alloc, shop, batch),
        Listing::TraceForward(item) => item_trace(alloc, shop, Direction::Forward, item),
        Listing::TraceBack(item) => item_trace(alloc, shop, Direction::Back, item),
        Listing::CountSheet(location) => count_sheet(alloc, shop, location),
        Listing::ReceiptSheet(order) => receipt_sheet(alloc, shop, order),
        Listing::History(of, days) => history_list(alloc, shop, of, &days),
        Listing::Low(levels) => low_list(alloc, shop, levels),
        Listing::Report(name, number) => named_report(alloc, shop, name, number),
    }
}
