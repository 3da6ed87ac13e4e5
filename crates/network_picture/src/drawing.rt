ghost use Rattle.std.specs.Prelude.{◌≡◌, ◌+◌, ◌++◌, OnOk, decimal};
ghost use Rattle.ctrl_model.specs.declared.kinds.Kind.TheVariants as kind;
ghost use Rattle.state_building.specs.BuiltStates.{state_in};
ghost use Rattle.record_lines.specs.RecordNames.{name_of as named};
ghost use Rattle.network_picture.specs.Pictures.{circuit_drawn, class_drawn, edge_from, edge_to, is_marked as is_one_of, link_drawn, link_stroke as stroke_of_link, node, offer_stroke as stroke_of_offer, router_box, router_drawn, service_drawn, terminator_drawn, terminator_stroke as stroke_of_terminator, terminator_word};

use ctrl_model::{Kind, Name, Precedence};
use itoa::Buffer;
use record_lines::name_of;
use row_codec::Row;
use std::alloc::AllocError;

/// Whether a number is one of some.
pub(crate) fn is_marked(marked: &[u32], no: u32) -> bool
    ensures { result ≡ is_one_of marked.now no }
{
    marked.iter().any(|one| *one == no)
}

// Puts a number.
fn put_number(text: &mut Vec<u8>, number: u32) -> Result<(), AllocError>
    ensures { OnOk result (text.new.items ≡ text.old.items ++ decimal number) }
{
    let mut digits = Buffer::new();
    text.extend_from_slice(digits.format(number).as_bytes())
}

// Puts the node of a record.
fn put_node(text: &mut Vec<u8>, letter: &[u8], no: u32) -> Result<(), AllocError>
    ensures { OnOk result (text.new.items ≡ text.old.items ++ node letter.now no) }
{
    text.extend_from_slice(letter)?;
    put_number(text, no)
}

// The class of a router, if it has one.
fn class_of(connected: bool) -> &'static [u8]
    ensures { result.now ≡ class_drawn connected }
{
    if connected { b"" } else { b":::off" }
}

// Puts the box of a router.
fn put_box(text: &mut Vec<u8>, no: u32, name: &Name) -> Result<(), AllocError>
    ensures { OnOk result (text.new.items ≡ text.old.items ++ router_box no name.now) }
{
    text.extend_from_slice(b"  ")?;
    put_node(text, b"r", no)?;
    text.extend_from_slice(b"[\"")?;
    text.extend_from_slice(name.bytes())?;
    text.extend_from_slice(b"\"]")
}

/// Puts the line of a router.
pub(crate) fn put_router(
    text: &mut Vec<u8>,
    no: u32,
    name: &Name,
    connected: bool,
) -> Result<(), AllocError>
    ensures { OnOk result (text.new.items ≡ text.old.items ++ router_drawn no name.now connected) }
{
    put_box(text, no, name)?;
    text.extend_from_slice(class_of(connected))?;
    text.extend_from_slice(b"\n")
}

/// Puts the line of a service.
pub(crate) fn put_service(text: &mut Vec<u8>, no: u32, name: &Name) -> Result<(), AllocError>
    ensures { OnOk result (text.new.items ≡ text.old.items ++ service_drawn no name.now) }
{
    text.extend_from_slice(b"  ")?;
    put_node(text, b"s", no)?;
    text.extend_from_slice(b"([\"")?;
    text.extend_from_slice(name.bytes())?;
    text.extend_from_slice(b"\"])\n")
}

// The stroke of a link.
fn link_stroke(marked: bool, up: bool) -> &'static [u8]
    ensures { result.now ≡ stroke_of_link marked up }
{
    if marked {
        return b" ===";
    }
    if up { b" ---" } else { b" -.-" }
}

// The stroke of a terminator that is not marked.
fn offer_stroke(precedence: Precedence) -> &'static [u8]
    ensures { result.now ≡ stroke_of_offer precedence }
{
    match precedence {
        Precedence::Failed => b" -.->",
        _ => b" -->",
    }
}

// The stroke of a terminator.
fn terminator_stroke(marked: bool, precedence: Precedence) -> &'static [u8]
    ensures { result.now ≡ stroke_of_terminator marked precedence }
{
    if marked {
        return b" ==>";
    }
    offer_stroke(precedence)
}

// Puts what the line of an edge begins with: the router from which it goes, and its stroke.
fn put_from(text: &mut Vec<u8>, router: u32, stroke: &[u8]) -> Result<(), AllocError>
    ensures { OnOk result (text.new.items ≡ text.old.items ++ edge_from router stroke.now) }
{
    text.extend_from_slice(b"  ")?;
    put_node(text, b"r", router)?;
    text.extend_from_slice(stroke)
}

// Puts what it ends with: the cost that is written on it, and the node to which it goes.
fn put_to(text: &mut Vec<u8>, cost: u64, letter: &[u8], no: u32) -> Result<(), AllocError>
    ensures { OnOk result (text.new.items ≡ text.old.items ++ edge_to cost letter.now no) }
{
    let mut digits = Buffer::new();
    text.extend_from_slice(b": ")?;
    text.extend_from_slice(digits.format(cost).as_bytes())?;
    text.extend_from_slice(b"\"| ")?;
    put_node(text, letter, no)?;
    text.extend_from_slice(b"\n")
}

// What a link costs: its static cost and the latencies of both ends.
fn cost_of(costs: (u32, (u32, u32))) -> u64
    ensures { result ≡ costs.0 + costs.1.0 + costs.1.1 }
{
    u64::from(costs.0) + u64::from(costs.1.0) + u64::from(costs.1.1)
}

/// Puts the line of a link.
pub(crate) fn put_link(
    text: &mut Vec<u8>,
    marked: bool,
    name: &Name,
    ends: (u32, u32),
    costs: (u32, (u32, u32)),
    up: bool,
) -> Result<(), AllocError>
    ensures { OnOk result (text.new.items ≡ text.old.items ++ link_drawn marked (record { name = name.now; a = ends.0; b = ends.1; cost = costs.0; latency_a = costs.1.0; latency_b = costs.1.1; up = up })) }
{
    put_from(text, ends.0, link_stroke(marked, up))?;
    text.extend_from_slice(b"|\"")?;
    text.extend_from_slice(name.bytes())?;
    put_to(text, cost_of(costs), b"r", ends.1)
}

// Puts what is written on the edge of a terminator before its cost.
fn put_terminator_word(text: &mut Vec<u8>, no: u32) -> Result<(), AllocError>
    ensures { OnOk result (text.new.items ≡ text.old.items ++ terminator_word no) }
{
    text.extend_from_slice(b"|\"terminator ")?;
    put_number(text, no)
}

// A cost as a number of 64 bits.
fn wide(cost: u32) -> u64
    ensures { result ≡ cost }
{
    u64::from(cost)
}

/// Puts the line of a terminator, whose ends are its router and its service.
pub(crate) fn put_terminator(
    text: &mut Vec<u8>,
    marked: bool,
    no: u32,
    ends: (u32, u32),
    offer: (u32, Precedence),
) -> Result<(), AllocError>
    ensures { OnOk result (text.new.items ≡ text.old.items ++ terminator_drawn marked no ends.0 ends.1 offer.0 offer.1) }
{
    put_from(text, ends.0, terminator_stroke(marked, offer.1))?;
    put_terminator_word(text, no)?;
    put_to(text, wide(offer.0), b"s", ends.1)
}

/// Puts the line of a circuit, whose ends are its identity and the router at which it enters.
pub(crate) fn put_circuit(
    text: &mut Vec<u8>,
    rows: &[Row],
    no: u32,
    ends: (u32, u32),
) -> Result<(), AllocError>
    ensures { OnOk result (text.new.items ≡ text.old.items ++ circuit_drawn (named kind.Identity (state_in rows.now) ends.0) no ends.1) }
{
    text.extend_from_slice(b"  ")?;
    put_node(text, b"c", no)?;
    text.extend_from_slice(b"([\"")?;
    text.extend_from_slice(name_of(rows, Kind::Identity, ends.0))?;
    text.extend_from_slice(b"\"]) ==> ")?;
    put_node(text, b"r", ends.1)?;
    text.extend_from_slice(b"\n")
}
