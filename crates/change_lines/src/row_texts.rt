ghost use Rattle.std.specs.Prelude.{◌≡◌, ◌++◌, OnOk, codes, decimal};
ghost use Rattle.ctrl_model.specs.declared.kinds.Kind.TheVariants as kind;
ghost use Rattle.state_building.specs.BuiltStates.{state_in};
ghost use Rattle.record_lines.specs.RecordNames.{name_of as named};
ghost use Rattle.record_lines.specs.RecordWords.{spaced};
ghost use Rattle.ctrl_model.specs.declared.kinds.Relation.TheVariants.{Dial};
ghost use Rattle.change_lines.specs.ChangeLines.{number_line, pair_line, worded};
ghost use Rattle.change_lines.specs.RowChanges.{numbered_word, rest_line, row_text, row_word};

use ctrl_model::Kind;
use itoa::Buffer;
use record_lines::{name_of, put_row};
use row_codec::Row;
use std::alloc::AllocError;

// The word of the kind of a number.
fn numbered_word(kind: u8) -> &'static [u8]
    ensures { result.now ≡ numbered_word kind }
{
    match kind {
        1 => b"identities",
        2 => b"services",
        3 => b"routers",
        4 => b"links",
        5 => b"service-policies",
        6 => b"edge-router-policies",
        7 => b"service-edge-router-policies",
        8 => b"terminators",
        9 => b"circuits",
        _ => b"",
    }
}

// The word before the line of a row.
fn row_word(row: &Row) -> &'static [u8]
    ensures { result.now ≡ row_word row.now }
{
    match row {
        Row::Next { .. } => b"next",
        Row::Setting { .. } => b"least-router-cost",
        Row::Identity { .. } => b"identities",
        Row::Service { .. } => b"services",
        Row::Router { .. } => b"routers",
        Row::Link { .. } => b"links",
        Row::ServicePolicy { .. } => b"service-policies",
        Row::EdgeRouterPolicy { .. } => b"edge-router-policies",
        Row::ServiceEdgeRouterPolicy { .. } => b"service-edge-router-policies",
        Row::Terminator { .. } => b"terminators",
        Row::Circuit { .. } => b"circuits",
        Row::Dial { .. } => b"dial",
        Row::Bind { .. } => b"bind",
        Row::IdentityRouter { .. } => b"identity-router",
        Row::ServiceRouter { .. } => b"service-router",
        Row::Intercept { .. } => b"intercepts",
        Row::Serial { .. } => b"serial",
    }
}

// Puts a number and the end of the line.
fn put_number(text: &mut Vec<u8>, number: u64) -> Result<(), AllocError>
    ensures { OnOk result (text.new.items ≡ text.old.items ++ number_line number) }
{
    let mut digits = Buffer::new();
    text.extend_from_slice(digits.format(number).as_bytes())?;
    text.extend_from_slice(b"\n")
}

// Puts the word of a kind before its next number.
fn put_next(text: &mut Vec<u8>, kind: u8, next: u32) -> Result<(), AllocError>
    ensures { OnOk result (text.new.items ≡ text.old.items ++ worded (numbered_word kind) (number_line next)) }
{
    text.extend_from_slice(numbered_word(kind))?;
    text.extend_from_slice(b" ")?;
    put_number(text, u64::from(next))
}

// Puts the names of the records of two kinds, and a count.
fn put_pair(
    text: &mut Vec<u8>,
    rows: &[Row],
    left: (Kind, u32),
    right: (Kind, u32),
    count: u32,
) -> Result<(), AllocError>
    ensures { OnOk result (text.new.items ≡ text.old.items ++ ((named left.0 (state_in rows.now) left.1 ++ spaced (named right.0 (state_in rows.now) right.1)) ++ (codes " " ++ number_line count))) }
{
    text.extend_from_slice(name_of(rows, left.0, left.1))?;
    text.extend_from_slice(b" ")?;
    text.extend_from_slice(name_of(rows, right.0, right.1))?;
    text.extend_from_slice(b" ")?;
    put_number(text, u64::from(count))
}

// Puts the names of an identity and a service, and how many policies grant the pair.
fn put_use(
    text: &mut Vec<u8>,
    rows: &[Row],
    identity: u32,
    service: u32,
    count: u32,
) -> Result<(), AllocError>
    ensures { OnOk result (text.new.items ≡ text.old.items ++ pair_line Dial (state_in rows.now) identity service count) }
{
    let left = (Kind::Identity, identity);
    put_pair(text, rows, left, (Kind::Service, service), count)
}

// Puts the names of a record of a kind and a router, and how many policies grant the pair.
fn put_reach(
    text: &mut Vec<u8>,
    rows: &[Row],
    left: (Kind, u32),
    router: u32,
    count: u32,
) -> Result<(), AllocError>
    ensures { OnOk result (text.new.items ≡ text.old.items ++ ((named left.0 (state_in rows.now) left.1 ++ spaced (named kind.Router (state_in rows.now) router)) ++ (codes " " ++ number_line count))) }
{
    put_pair(text, rows, left, (Kind::Router, router), count)
}

// Puts the line of a row that is neither a record nor an intercept; nothing of these.
fn put_rest(text: &mut Vec<u8>, rows: &[Row], row: &Row) -> Result<(), AllocError>
    ensures { OnOk result (text.new.items ≡ text.old.items ++ rest_line (state_in rows.now) row.now) }
{
    match row {
        Row::Next { kind, next } => put_next(text, *kind, *next),
        Row::Setting { cost } => put_number(text, u64::from(*cost)),
        Row::Dial {
            identity,
            service,
            count,
        } => put_use(text, rows, identity.0, service.0, *count),
        Row::Bind {
            identity,
            service,
            count,
        } => put_use(text, rows, identity.0, service.0, *count),
        Row::IdentityRouter {
            identity,
            router,
            count,
        } => put_reach(text, rows, (Kind::Identity, identity.0), router.0, *count),
        Row::ServiceRouter {
            service,
            router,
            count,
        } => put_reach(text, rows, (Kind::Service, service.0), router.0, *count),
        Row::Serial { serial } => put_number(text, *serial),
        _ => Ok(()),
    }
}

/// Puts the line of a row behind its word, in the state that rows give.
pub(crate) fn put_text(text: &mut Vec<u8>, rows: &[Row], row: &Row) -> Result<(), AllocError>
    ensures { OnOk result (text.new.items ≡ text.old.items ++ row_text (state_in rows.now) row.now) }
{
    text.extend_from_slice(row_word(row))?;
    text.extend_from_slice(b" ")?;
    put_row(text, rows, row)?;
    put_rest(text, rows, row)
}
