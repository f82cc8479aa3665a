//! The reports' names.
ghost use Rattle.std.specs.Prelude.{◌≡◌};
ghost use Rattle.report_core.specs.Names.{report_named};

/// Which report is asked for. The number beside it is a part's, for a history and for a content an item's, and for a
/// shortage a build's.
#[derive(Clone, Copy, Debug, PartialEq, Eq)]
pub enum ReportName {
    Ledger,
    Stock,
    WhereUsed,
    History,
    Content,
    Shortage,
}

/// The report of that name.
pub fn report_named(name: &str) -> Option<ReportName>
    ensures { result ≡ report_named name.now }
{
    match name {
        "ledger" => Some(ReportName::Ledger),
        "stock" => Some(ReportName::Stock),
        "where_used" => Some(ReportName::WhereUsed),
        "history" => Some(ReportName::History),
        "content" => Some(ReportName::Content),
        "shortage" => Some(ReportName::Shortage),
        _ => None,
    }
}
