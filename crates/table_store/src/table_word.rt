//! Tables by their names.
ghost use Rattle.std.specs.Prelude.{◌≡◌};
ghost use Rattle.table_store.specs.Named.{table_named};

use crate::name::TableName;

/// The table of that name.
pub fn table_named(name: &str) -> Option<TableName>
    ensures { result ≡ table_named name.now }
{
    match name {
        "meta" => Some(TableName::Meta),
        "categories" => Some(TableName::Categories),
        "locations" => Some(TableName::Locations),
        "parts" => Some(TableName::Parts),
        "lines" => Some(TableName::Lines),
        "substitutes" => Some(TableName::Substitutes),
        "items" => Some(TableName::Items),
        "history" => Some(TableName::History),
        "orders" => Some(TableName::Orders),
        "order_lines" => Some(TableName::OrderLines),
        "builds" => Some(TableName::Builds),
        "allocations" => Some(TableName::Allocations),
        "kept" => Some(TableName::Kept),
        "spent" => Some(TableName::Spent),
        _ => None,
    }
}
