//! The kinds of imports and the reports, by their names.
ghost use Rattle.std.specs.Prelude.{◌≡◌};
ghost use Rattle.word_core.specs.Kinds.{import_kind_name, import_kind_named, report_named};

/// What the rows of a file are.
#[derive(Clone, Copy, Debug, PartialEq, Eq)]
pub enum ImportKind {
    /// Each row is a `receive`.
    Receipts,
    /// Each row is a `count`.
    Counts,
}

impl ImportKind {
    /// The kind's name, as the keys of its rows have it.
    pub fn name(self) -> &'static str
        ensures { result.now ≡ import_kind_name self }
    {
        match self {
            ImportKind::Receipts => "receipts",
            ImportKind::Counts => "counts",
        }
    }
}

/// The kind of that name.
pub fn import_kind_named(name: &str) -> Option<ImportKind>
    ensures { result ≡ import_kind_named name.now }
{
    match name {
        "receipts" => Some(ImportKind::Receipts),
        "counts" => Some(ImportKind::Counts),
        _ => None,
    }
}

/// Which report is asked for. The number beside it is a part's, for a history and for a content an item's, and for a
/// shortage a build's.
#[derive(Clone, Copy, Debug, PartialEq, Eq)]
pub enum ReportName {
    Ledger,
    Stock,
    WhereUsed,
    History,
    Content,
    Shortage,
}

/// The report of that name.
pub fn report_named(name: &str) -> Option<ReportName>
    ensures { result ≡ report_named name.now }
{
    match name {
        "ledger" => Some(ReportName::Ledger),
        "stock" => Some(ReportName::Stock),
        "where_used" => Some(ReportName::WhereUsed),
        "history" => Some(ReportName::History),
        "content" => Some(ReportName::Content),
        "shortage" => Some(ReportName::Shortage),
        _ => None,
    }
}
