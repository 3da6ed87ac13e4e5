ghost use Rattle.std.specs.Prelude.{◌≡◌, ◌++◌, cond, decimal, IfOk, OnOk};
ghost use Rattle.std.specs.List.{flat_map};
ghost use Rattle.std.specs.Str.{bytes_eq};
ghost use Rattle.ctrl_model.specs.Tables.{has_names as are_named};
ghost use Rattle.state_building.specs.BuiltStates.{state_in};
ghost use Rattle.record_lines.specs.RecordLines.{lines_asked as lines_shown, lines_of};
ghost use Rattle.record_lines.specs.RowTexts.{is_asked, is_intercept_asked, is_of as is_listed, is_record, is_record_asked, line_where, says_intercept, same_kind as are_same};

use crate::naming::{entry_in, name_of, same_kind};
use crate::record_putting::put_row;
use ctrl_model::{Bytes, Kind};
use itoa::Buffer;
use row_codec::Row;
use std::alloc::{AllocError, Global};

/// What is listed of a state.
#[derive(Clone, Copy, PartialEq, Eq)]
pub enum Listed {
    /// The records of a kind, each under its number.
    Records(Kind),
    /// The intercepts, each under the number of its service.
    Intercepts,
}

// Whether a row is a record of a kind.
fn is_record_of(row: &Row, kind: Kind) -> bool
    ensures { result ≡ is_record (λ found. are_same found kind) row.now }
{
    match entry_in(row) {
        Some((found, _, _)) => same_kind(found, kind),
        None => false,
    }
}

// Whether a row says an intercept.
fn says_intercept(row: &Row) -> bool
    ensures { result ≡ says_intercept row.now }
{
    matches!(row, Row::Intercept { .. })
}

/// Whether a row is of what is listed: a record of the kind, or an intercept.
pub fn is_of(row: &Row, listed: Listed) -> bool
    ensures { result ≡ is_listed listed row.now }
{
    match listed {
        Listed::Records(kind) => is_record_of(row, kind),
        Listed::Intercepts => says_intercept(row),
    }
}

// Puts the line of a row that is of what is listed.
fn put_row_of(text: &mut Vec<u8>, rows: &[Row], listed: Listed, row: &Row) -> Result<(), AllocError>
    ensures { OnOk result (text.new.items ≡ text.old.items ++ line_where (is_listed listed) (state_in rows.now) row.now) }
{
    if is_of(row, listed) {
        return put_row(text, rows, row);
    }
    Ok(())
}

// The lines of the rows that are of what is listed.
fn lines_in(alloc: Global, rows: &[Row], listed: Listed) -> Result<Vec<u8>, AllocError>
    ensures { IfOk result (λ text. text.items ≡ flat_map (line_where (is_listed listed) (state_in rows.now)) rows.now) }
{
    let mut text = Vec::new(alloc);
    'rows: for row in rows {
        put_row_of(&mut text, rows, listed, row)?;
    }
    Ok(text)
}

/// The lines of what is listed, in the order of the numbers, in the state that rows give (docs/FORMATS.md, "Lines of records"). An
/// `Err` is want of memory.
pub fn list(alloc: Global, rows: &[Row], listed: Listed) -> Result<Bytes, AllocError>
    ensures { IfOk result (λ text. text ≡ lines_of listed (state_in rows.now)) }
{
    let text = lines_in(alloc, rows, listed)?;
    Ok(Bytes::of(text))
}

// Whether the records of a kind have names.
fn has_names(kind: Kind) -> bool
    ensures { result ≡ are_named kind }
{
    !matches!(kind, Kind::Terminator | Kind::Circuit | Kind::Attribute)
}

// Whether a word asks for the record of a kind that has a number and a name.
fn asks_for(kind: Kind, no: u32, name: &[u8], word: &[u8]) -> bool
    ensures { result ≡ bytes_eq (cond (are_named kind) name.now (decimal no)) word.now }
{
    if has_names(kind) {
        return name == word;
    }
    let mut digits = Buffer::new();
    digits.format(no).as_bytes() == word
}

// Whether a row is a record that a word asks for.
fn is_record_asked(row: &Row, word: &[u8]) -> bool
    ensures { result ≡ is_record_asked word.now row.now }
{
    match entry_in(row) {
        Some((kind, no, name)) => asks_for(kind, no, name, word),
        None => false,
    }
}

// Whether a row says an intercept that a word asks for.
fn is_intercept_asked(rows: &[Row], row: &Row, word: &[u8]) -> bool
    ensures { result ≡ is_intercept_asked (state_in rows.now) word.now row.now }
{
    match row {
        Row::Intercept { service, .. } => name_of(rows, Kind::Service, service.0) == word,
        _ => false,
    }
}

// Whether a row is of what is listed, and a word asks for it.
fn is_asked(rows: &[Row], listed: Listed, word: &[u8], row: &Row) -> bool
    ensures { result ≡ is_asked listed word.now (state_in rows.now) row.now }
{
    match listed {
        Listed::Records(kind) => is_record_of(row, kind) && is_record_asked(row, word),
        Listed::Intercepts => is_intercept_asked(rows, row, word),
    }
}

// Puts the line of a row that a word asks for.
fn put_row_asked(
    text: &mut Vec<u8>,
    rows: &[Row],
    listed: Listed,
    word: &[u8],
    row: &Row,
) -> Result<(), AllocError>
    ensures { OnOk result (text.new.items ≡ text.old.items ++ line_where (is_asked listed word.now (state_in rows.now)) (state_in rows.now) row.now) }
{
    if is_asked(rows, listed, word, row) {
        return put_row(text, rows, row);
    }
    Ok(())
}

// The lines of the rows that a word asks for.
fn lines_asked(
    alloc: Global,
    rows: &[Row],
    listed: Listed,
    word: &[u8],
) -> Result<Vec<u8>, AllocError>
    ensures { IfOk result (λ text. text.items ≡ flat_map (line_where (is_asked listed word.now (state_in rows.now)) (state_in rows.now)) rows.now) }
{
    let mut text = Vec::new(alloc);
    'rows: for row in rows {
        put_row_asked(&mut text, rows, listed, word, row)?;
    }
    Ok(text)
}

/// The line of the one of what is listed that a word asks for, in the state that rows give: the record of this name or, of
/// terminators and circuits, of this number in decimal; or the intercept of the service of this name. Nothing where there is none
/// (docs/FORMATS.md, "Lines of records"). An `Err` is want of memory.
pub fn show(alloc: Global, rows: &[Row], listed: Listed, word: &[u8]) -> Result<Bytes, AllocError>
    ensures { IfOk result (λ text. text ≡ lines_shown listed word.now (state_in rows.now)) }
{
    let text = lines_asked(alloc, rows, listed, word)?;
    Ok(Bytes::of(text))
}
