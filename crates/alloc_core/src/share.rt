//! What allocations are added up for.
use part_core::Id;

/// What allocations are added up for.
#[derive(Clone, Copy, Debug, PartialEq, Eq, PartialOrd, Ord, Hash)]
pub(crate) enum Share {
    Item(Id),
    /// A line of a sale.
    SaleLine(Id),
    /// A line of a build, by the build and the line, for that output, or for none.
    BuildLine(Id, Id, Option<Id>),
}
