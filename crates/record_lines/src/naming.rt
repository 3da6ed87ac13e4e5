ghost use Rattle.std.specs.Prelude.{◌≡◌};
ghost use Rattle.std.specs.Option.{option_map};
ghost use Rattle.state_building.specs.BuiltStates.{state_in};
ghost use Rattle.record_lines.specs.RecordNames.{name_of, router_behind};
ghost use Rattle.record_lines.specs.RowTexts.{behind, ends_among, ends_said, entry_in, name_among, name_said, same_kind as are_same};

use ctrl_model::Kind;
use row_codec::Row;

/// Whether two kinds are one.
pub(crate) fn same_kind(one: Kind, other: Kind) -> bool
    ensures { result ≡ are_same one other }
{
    one == other
}

/// The kind, the number and the name of the record that a row is, if it is one. Terminators and circuits have the empty name.
pub(crate) fn entry_in(row: &Row) -> Option<(Kind, u32, &[u8])>
    ensures { option_map (λ e. (e.0, e.1, e.2.now)) result ≡ entry_in row.now }
{
    match row {
        Row::Identity { no, name, .. } => Some((Kind::Identity, no.0, name.bytes())),
        Row::Service { no, name, .. } => Some((Kind::Service, no.0, name.bytes())),
        Row::Router { no, name, .. } => Some((Kind::Router, no.0, name.bytes())),
        Row::Link { no, name, .. } => Some((Kind::Link, no.0, name.bytes())),
        Row::ServicePolicy { no, name, .. } => Some((Kind::ServicePolicy, no.0, name.bytes())),
        Row::EdgeRouterPolicy { no, name, .. } => {
            Some((Kind::EdgeRouterPolicy, no.0, name.bytes()))
        }
        Row::ServiceEdgeRouterPolicy { no, name, .. } => {
            Some((Kind::ServiceEdgeRouterPolicy, no.0, name.bytes()))
        }
        Row::Terminator { no, .. } => Some((Kind::Terminator, no.0, b"")),
        Row::Circuit { no, .. } => Some((Kind::Circuit, no.0, b"")),
        _ => None,
    }
}

// The name that a row says of the record of a kind and a number.
fn name_said(row: &Row, kind: Kind, no: u32) -> Option<&[u8]>
    ensures { option_map (λ n. n.now) result ≡ name_said kind no row.now }
{
    let (found, number, name) = entry_in(row)?;
    if same_kind(found, kind) && number == no {
        Some(name)
    } else {
        None
    }
}

// The first name that rows say of it.
fn name_among(rows: &[Row], kind: Kind, no: u32) -> &[u8]
    ensures { result.now ≡ name_among rows.now kind no }
{
    'rows: for row in rows {
        if let Some(name) = name_said(row, kind, no) {
            return name;
        }
    }
    b""
}

/// The name of the record of a kind that has a number, in the state that rows give; none where no record has it.
pub fn name_of(rows: &[Row], kind: Kind, no: u32) -> &[u8]
    ensures { result.now ≡ name_of kind (state_in rows.now) no }
{
    name_among(rows, kind, no)
}

// The two routers that a row says of the link of a number.
fn ends_said(row: &Row, link: u32) -> Option<(u32, u32)>
    ensures { result ≡ ends_said link row.now }
{
    match row {
        Row::Link { no, a, b, .. } if no.0 == link => Some((a.0, b.0)),
        _ => None,
    }
}

// The first two that rows say of it.
fn ends_among(rows: &[Row], link: u32) -> Option<(u32, u32)>
    ensures { result ≡ ends_among rows.now link }
{
    'rows: for row in rows {
        if let Some(ends) = ends_said(row, link) {
            return Some(ends);
        }
    }
    None
}

// The router behind a link with two ends, seen from a router.
fn behind(ends: Option<(u32, u32)>, from: u32) -> u32
    ensures { result ≡ behind from ends }
{
    match ends {
        Some((a, b)) if a == from => b,
        Some((a, b)) if b == from => a,
        _ => 0,
    }
}

/// The router at the other end of the link of a number, seen from a router; 0 where the link does not end there.
pub(crate) fn router_behind(rows: &[Row], from: u32, link: u32) -> u32
    ensures { result ≡ router_behind (state_in rows.now) from link }
{
    behind(ends_among(rows, link), from)
}
