//! Which list is asked for.

use crate::history_list::Days;
use crate::low_list::Level;
use part_core::Id;
use report_core::ReportName;

/// A list of the shop's rows.
#[derive(Clone, Copy, Debug)]
pub enum Listing<'a> {
    /// The parts, with what there is of each; with an amount those alone of which less is free.
    Stock(Option<u64>),
    /// What lies at this location and below it.
    At(Id),
    /// A part: its flags, its sums, its bill, where it is used, and its items.
    Part(Id),
    /// An item: where it is, what lies in it, what made it, and its history.
    Item(Id),
    /// The orders with their lines; where it is true, those alone that are neither complete nor cancelled.
    Orders(bool),
    /// The builds with what they want; where it is true, those alone that are neither complete nor cancelled.
    Builds(bool),
    /// The parts and locations in whose names this word stands, the items whose serial begins with it or whose batch it is,
    /// and the keys in which it stands.
    Find(&'a str),
    /// The parts that open builds lack, over all of them.
    Shortages,
    /// The items of this batch, and where each went.
    TraceBatch(&'a str),
    /// An item, and where it went.
    TraceForward(Id),
    /// An item, and where it came from.
    TraceBack(Id),
    /// What is to be counted at this location and below it, or everywhere.
    CountSheet(Option<Id>),
    /// What is still to come by purchases that are under way, or by this order, with fields for what came.
    ReceiptSheet(Option<Id>),
    /// The history of these days, in words: all of it, or that of the part, the item or the order of this number.
    History(Option<Id>, Days<'a>),
    /// Those of these levels whose part has less free, in their order.
    Low(&'a [Level]),
    /// The report of that name, of the part, the item or the build of this number, in its second form.
    Report(ReportName, Id),
}
