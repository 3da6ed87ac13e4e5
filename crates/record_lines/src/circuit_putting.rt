ghost use Rattle.std.specs.Prelude.{◌≡◌, ◌++◌, OnOk, codes};
ghost use Rattle.state_building.specs.BuiltStates.{state_in};
ghost use Rattle.record_lines.specs.RecordLines.{circuit_line, way_on};
ghost use Rattle.record_lines.specs.RecordNames.{router_behind as other_router};
ghost use Rattle.record_lines.specs.RecordNames.{name_of as named};
ghost use Rattle.record_lines.specs.RecordWords.{keyed};
ghost use Rattle.ctrl_model.specs.declared.kinds.Kind.TheVariants as kind;

use crate::naming::{name_of, router_behind};
use crate::word_putting::{put_count, put_keyed, put_number};
use ctrl_model::{Kind, Numbers};
use row_codec::Row;
use std::alloc::AllocError;

/// Puts the name of the record of a number down as a field.
pub(crate) fn put_named(
    text: &mut Vec<u8>,
    rows: &[Row],
    key: &[u8],
    kind: Kind,
    no: u32,
) -> Result<(), AllocError>
    ensures { OnOk result (text.new.items ≡ text.old.items ++ keyed key.now (named kind (state_in rows.now) no)) }
{
    put_keyed(text, key, name_of(rows, kind, no))
}

// Puts the names of a link and of the router behind it.
fn put_hop(text: &mut Vec<u8>, rows: &[Row], link: u32, router: u32) -> Result<(), AllocError>
    ensures { OnOk result (text.new.items ≡ text.old.items ++ (codes "," ++ (named kind.Link (state_in rows.now) link ++ (codes "," ++ named kind.Router (state_in rows.now) router)))) }
{
    text.extend_from_slice(b",")?;
    text.extend_from_slice(name_of(rows, Kind::Link, link))?;
    text.extend_from_slice(b",")?;
    text.extend_from_slice(name_of(rows, Kind::Router, router))
}

// Puts the way over some links from a router on.
fn put_way(text: &mut Vec<u8>, rows: &[Row], from: u32, links: &[u32]) -> Result<(), AllocError>
    ensures { OnOk result (text.new.items ≡ text.old.items ++ way_on (state_in rows.now) from links.now) }
{
    let mut router = from;
    'links: for link in links {
        router = router_behind(rows, router, *link);
        put_hop(text, rows, *link, router)?;
    }
    Ok(())
}

// Puts whose a circuit is.
fn put_user(text: &mut Vec<u8>, rows: &[Row], user: (u32, u32)) -> Result<(), AllocError>
    ensures { OnOk result (text.new.items ≡ text.old.items ++ (keyed (codes "identity") (named kind.Identity (state_in rows.now) user.0) ++ keyed (codes "service") (named kind.Service (state_in rows.now) user.1))) }
{
    put_named(text, rows, b"identity", Kind::Identity, user.0)?;
    put_named(text, rows, b"service", Kind::Service, user.1)
}

// Puts the route of a circuit.
fn put_route(
    text: &mut Vec<u8>,
    rows: &[Row],
    ingress: u32,
    links: &Numbers,
) -> Result<(), AllocError>
    ensures { OnOk result (text.new.items ≡ text.old.items ++ (keyed (codes "route") (named kind.Router (state_in rows.now) ingress) ++ way_on (state_in rows.now) ingress links.now)) }
{
    put_named(text, rows, b"route", Kind::Router, ingress)?;
    put_way(text, rows, ingress, links.as_slice())
}

/// Puts the line of a circuit.
pub(crate) fn put_circuit(
    text: &mut Vec<u8>,
    rows: &[Row],
    no: u32,
    user: (u32, u32),
    terminator: u32,
    ingress: u32,
    links: &Numbers,
) -> Result<(), AllocError>
    ensures { OnOk result (text.new.items ≡ text.old.items ++ circuit_line (state_in rows.now) no (record { identity = user.0; service = user.1; terminator = terminator; ingress = ingress; links = links.now })) }
{
    put_number(text, no)?;
    put_user(text, rows, user)?;
    put_count(text, b"terminator", terminator)?;
    put_route(text, rows, ingress, links)?;
    text.extend_from_slice(b"\n")
}
