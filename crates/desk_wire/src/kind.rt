//! The kinds of imports.
ghost use Rattle.std.specs.Prelude.{◌≡◌};
ghost use Rattle.desk_wire.specs.Kinds.{import_kind_name, import_kind_named};

/// What the rows of a file are.
#[derive(Clone, Copy, Debug, PartialEq, Eq)]
pub enum ImportKind {
    /// Each row is a `receive`.
    Receipts,
    /// Each row is a `count`.
    Counts,
}

impl ImportKind {
    /// The kind's name, as the keys of its rows have it.
    pub fn name(self) -> &'static str
        ensures { result.now ≡ import_kind_name self }
    {
        match self {
            ImportKind::Receipts => "receipts",
            ImportKind::Counts => "counts",
        }
    }
}

/// How a file is read.
#[derive(Clone, Copy, Debug, PartialEq, Eq)]
pub enum FileReading {
    /// Its first record is the header as it is told, and each other a row.
    Strict,
    /// Columns are taken by their names, and records without a quantity are left out.
    Loose,
    /// So, too, and the books have to have what the file says that they had.
    Unchanged,
}

/// The kind of that name.
pub fn import_kind_named(name: &str) -> Option<ImportKind>
    ensures { result ≡ import_kind_named name.now }
{
    match name {
        "receipts" => Some(ImportKind::Receipts),
        "counts" => Some(ImportKind::Counts),
        _ => None,
    }
}
