ghost use Rattle.std.specs.Prelude.{◌≡◌};
ghost use Rattle.row_codec.specs.RowKeys.{kind_number};
ghost use Rattle.state_building.specs.BuiltStates as built;

use ctrl_model::Kind;
use row_codec::Row;

// The number of a kind in rows; that of attributes, which no row has, is 0.
fn kind_number(kind: Kind) -> u8
    ensures { result ≡ kind_number kind }
{
    match kind {
        Kind::Identity => 1,
        Kind::Service => 2,
        Kind::Router => 3,
        Kind::Link => 4,
        Kind::ServicePolicy => 5,
        Kind::EdgeRouterPolicy => 6,
        Kind::ServiceEdgeRouterPolicy => 7,
        Kind::Terminator => 8,
        Kind::Circuit => 9,
        Kind::Attribute => 0,
    }
}

// The next number that a row has of a kind.
fn next_said(row: &Row, kind: Kind) -> Option<u32>
    ensures { result ≡ built.next_said kind row.now }
{
    match row {
        Row::Next { kind: number, next } if *number == kind_number(kind) => Some(*next),
        _ => None,
    }
}

/// The next number that rows have of a kind, 1 where they have none.
pub fn next_in(rows: &[Row], kind: Kind) -> u32
    ensures { result ≡ built.next_in rows.now kind }
{
    'rows: for row in rows {
        if let Some(next) = next_said(row, kind) {
            return next;
        }
    }
    1
}
