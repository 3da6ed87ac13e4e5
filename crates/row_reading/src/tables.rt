ghost use Rattle.std.specs.Prelude.{◌≡◌};
ghost use Rattle.std.specs.Option.{option_map};
ghost use Rattle.row_reading.specs.RowReading.{table_seen, row_table_of};

use ctrl_model::{Kind, Relation};

/// A table of the folder.
#[derive(Clone, Copy, PartialEq, Eq)]
pub(crate) enum Table {
    /// The next numbers.
    Next,
    /// The setting.
    Setting,
    /// The records of a kind.
    Records(Kind),
    /// The counts of a relation.
    Counts(Relation),
    /// The intercepts.
    Intercepts,
    /// The serial.
    Serial,
}

/// The table of a number, in either format.
pub(crate) fn row_table_of(number: u8) -> Option<Table>
    ensures { option_map (λ t. table_seen t) result ≡ row_table_of number }
{
    match number {
        1 => Some(Table::Next),
        2 => Some(Table::Setting),
        3 => Some(Table::Records(Kind::Identity)),
        4 => Some(Table::Records(Kind::Service)),
        5 => Some(Table::Records(Kind::Router)),
        6 => Some(Table::Records(Kind::Link)),
        7 => Some(Table::Records(Kind::ServicePolicy)),
        8 => Some(Table::Records(Kind::EdgeRouterPolicy)),
        9 => Some(Table::Records(Kind::ServiceEdgeRouterPolicy)),
        10 => Some(Table::Records(Kind::Terminator)),
        11 => Some(Table::Records(Kind::Circuit)),
        12 => Some(Table::Counts(Relation::Dial)),
        13 => Some(Table::Counts(Relation::Bind)),
        14 => Some(Table::Counts(Relation::IdentityRouter)),
        15 => Some(Table::Counts(Relation::ServiceRouter)),
        16 => Some(Table::Intercepts),
        17 => Some(Table::Serial),
        _ => None,
    }
}
