ghost use Rattle.std.specs.Prelude.{◌≡◌, [], ◌++◌, cond, decimal, IfOk, OnOk};
ghost use Rattle.std.specs.List.{flat_map};
ghost use Rattle.std.specs.Str.{bytes_eq};
ghost use Rattle.ctrl_model.specs.declared.kinds.Kind.TheVariants as kind;
ghost use Rattle.state_building.specs.BuiltStates.{state_in};
ghost use Rattle.network_picture.specs.Pictures.{drawn_kinds as all_kinds, kind_drawn, network_drawn, picture_asked as asked_picture, picture_head, picture_of, way_picture};
ghost use Rattle.network_picture.specs.RowPictures.{drawn_where, row_asked, row_drawn};

use crate::drawing::{is_marked, put_circuit, put_link, put_router, put_service, put_terminator};
use ctrl_model::{Bytes, Kind};
use itoa::Buffer;
use record_lines::{Listed, is_of};
use row_codec::Row;
use std::alloc::{AllocError, Global};

// Puts the line of a row that is a terminator; none of another.
fn put_offer(text: &mut Vec<u8>, terminators: &[u32], row: &Row) -> Result<(), AllocError>
    ensures { OnOk result (text.new.items ≡ text.old.items ++ drawn_where (record { links = []; terminators = terminators.now }) kind.Terminator row.now) }
{
    match row {
        Row::Terminator {
            no,
            service,
            router,
            cost,
            precedence,
            ..
        } => {
            let marked = is_marked(terminators, no.0);
            put_terminator(
                text,
                marked,
                no.0,
                (router.0, service.0),
                (*cost, *precedence),
            )
        }
        _ => Ok(()),
    }
}

// Puts the line of the record that a row is.
fn put_drawn(
    text: &mut Vec<u8>,
    links: &[u32],
    terminators: &[u32],
    row: &Row,
) -> Result<(), AllocError>
    ensures { OnOk result (text.new.items ≡ text.old.items ++ row_drawn (record { links = links.now; terminators = terminators.now }) row.now) }
{
    match row {
        Row::Router {
            no,
            name,
            connected,
            ..
        } => put_router(text, no.0, name, *connected),
        Row::Service { no, name, .. } => put_service(text, no.0, name),
        Row::Link {
            no,
            name,
            a,
            b,
            cost,
            latency_a,
            latency_b,
            up,
        } => {
            let marked = is_marked(links, no.0);
            let costs = (*cost, (*latency_a, *latency_b));
            put_link(text, marked, name, (a.0, b.0), costs, *up)
        }
        Row::Terminator { .. } => put_offer(text, terminators, row),
        _ => Ok(()),
    }
}

// Puts the line of a row that is a record of a kind.
fn put_drawn_of(
    text: &mut Vec<u8>,
    links: &[u32],
    terminators: &[u32],
    kind: Kind,
    row: &Row,
) -> Result<(), AllocError>
    ensures { OnOk result (text.new.items ≡ text.old.items ++ drawn_where (record { links = links.now; terminators = terminators.now }) kind row.now) }
{
    if is_of(row, Listed::Records(kind)) {
        return put_drawn(text, links, terminators, row);
    }
    Ok(())
}

// Puts the lines of the rows that are records of a kind.
fn put_rows(
    text: &mut Vec<u8>,
    links: &[u32],
    terminators: &[u32],
    kind: Kind,
    rows: &[Row],
) -> Result<(), AllocError>
    ensures { OnOk result (text.new.items ≡ text.old.items ++ flat_map (drawn_where (record { links = links.now; terminators = terminators.now }) kind) rows.now) }
{
    'rows: for row in rows {
        put_drawn_of(text, links, terminators, kind, row)?;
    }
    Ok(())
}

// Puts the lines of the records of a kind.
#[tactic(auto, using(crate::proofs::DrawnRows::kind_of_rows))]
fn put_kind(
    text: &mut Vec<u8>,
    links: &[u32],
    terminators: &[u32],
    kind: Kind,
    rows: &[Row],
) -> Result<(), AllocError>
    ensures { OnOk result (text.new.items ≡ text.old.items ++ kind_drawn (record { links = links.now; terminators = terminators.now }) (state_in rows.now) kind) }
{
    put_rows(text, links, terminators, kind, rows)
}

/// The kinds that are drawn, in their order.
static DRAWN_KINDS: [Kind; 4] = [Kind::Router, Kind::Service, Kind::Link, Kind::Terminator];

fn drawn_kinds() -> &'static [Kind]
    ensures { result.now ≡ all_kinds }
{
    &DRAWN_KINDS
}

// Puts the lines of the records of some kinds.
fn put_kinds(
    text: &mut Vec<u8>,
    links: &[u32],
    terminators: &[u32],
    kinds: &[Kind],
    rows: &[Row],
) -> Result<(), AllocError>
    ensures { OnOk result (text.new.items ≡ text.old.items ++ flat_map (kind_drawn (record { links = links.now; terminators = terminators.now }) (state_in rows.now)) kinds.now) }
{
    'kinds: for kind in kinds {
        put_kind(text, links, terminators, *kind, rows)?;
    }
    Ok(())
}

// What a picture begins with.
fn head() -> &'static [u8]
    ensures { result.now ≡ picture_head }
{
    b"flowchart LR\n  classDef off stroke-dasharray:5 5\n"
}

// Puts the picture of a state, in which some links and terminators are marked.
fn put_network(
    text: &mut Vec<u8>,
    links: &[u32],
    terminators: &[u32],
    rows: &[Row],
) -> Result<(), AllocError>
    ensures { OnOk result (text.new.items ≡ text.old.items ++ network_drawn (record { links = links.now; terminators = terminators.now }) (state_in rows.now)) }
{
    text.extend_from_slice(head())?;
    put_kinds(text, links, terminators, drawn_kinds(), rows)
}

// Whether a word is a number in decimal.
fn is_number(word: &[u8], number: u32) -> bool
    ensures { result ≡ bytes_eq (decimal number) word.now }
{
    let mut digits = Buffer::new();
    digits.format(number).as_bytes() == word
}

// Puts the picture that marks the way of a circuit: its links and its terminator.
fn put_circuit_picture(
    text: &mut Vec<u8>,
    rows: &[Row],
    no: u32,
    ends: (u32, u32),
    links: &[u32],
    terminator: u32,
) -> Result<(), AllocError>
    ensures { OnOk result (text.new.items ≡ text.old.items ++ way_picture (state_in rows.now) links.now terminator no ends.0 ends.1) }
{
    put_network(text, links, &[terminator], rows)?;
    put_circuit(text, rows, no, ends)
}

// Puts that picture, if a word is the number of the circuit.
fn put_circuit_asked(
    text: &mut Vec<u8>,
    rows: &[Row],
    word: &[u8],
    no: u32,
    ends: (u32, u32),
    links: &[u32],
    terminator: u32,
) -> Result<(), AllocError>
    ensures { OnOk result (text.new.items ≡ text.old.items
        ++ cond (bytes_eq (decimal no) word.now) (way_picture (state_in rows.now) links.now terminator no ends.0 ends.1) []) }
{
    if !is_number(word, no) {
        return Ok(());
    }
    put_circuit_picture(text, rows, no, ends, links, terminator)
}

// Puts the picture that a row asks for: of a circuit whose number a word is.
fn put_row_asked(text: &mut Vec<u8>, rows: &[Row], word: &[u8], row: &Row) -> Result<(), AllocError>
    ensures { OnOk result (text.new.items ≡ text.old.items ++ row_asked word.now (state_in rows.now) row.now) }
{
    match row {
        Row::Circuit {
            no,
            identity,
            terminator,
            ingress,
            links,
            ..
        } => {
            let ends = (identity.0, ingress.0);
            put_circuit_asked(text, rows, word, no.0, ends, links.as_slice(), terminator.0)
        }
        _ => Ok(()),
    }
}

// Puts the pictures that rows ask for.
fn put_asked(text: &mut Vec<u8>, rows: &[Row], word: &[u8]) -> Result<(), AllocError>
    ensures { OnOk result (text.new.items ≡ text.old.items ++ flat_map (row_asked word.now (state_in rows.now)) rows.now) }
{
    'rows: for row in rows {
        put_row_asked(text, rows, word, row)?;
    }
    Ok(())
}

/// The picture of the state that rows give (docs/FORMATS.md, "Pictures"). An `Err` is want of memory.
pub fn picture(alloc: Global, rows: &[Row]) -> Result<Bytes, AllocError>
    ensures { IfOk result (λ text. text ≡ picture_of (state_in rows.now)) }
{
    let mut text = Vec::new(alloc);
    put_network(&mut text, &[], &[], rows)?;
    Ok(Bytes::of(text))
}

/// That picture with the way of the circuit marked whose number the word is in decimal; nothing where no circuit has it. An `Err` is
/// want of memory.
#[tactic(auto, using(crate::proofs::DrawnRows::asked_of_rows))]
pub fn picture_asked(alloc: Global, rows: &[Row], word: &[u8]) -> Result<Bytes, AllocError>
    ensures { IfOk result (λ text. text ≡ asked_picture word.now (state_in rows.now)) }
{
    let mut text = Vec::new(alloc);
    put_asked(&mut text, rows, word)?;
    Ok(Bytes::of(text))
}
