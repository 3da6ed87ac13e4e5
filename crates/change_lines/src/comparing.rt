ghost use Rattle.std.specs.Prelude.{◌≡◌, ◌⊎◌, ◌<◌, ◌≤◌, ◌+◌, ◌++◌, ◌∷◌, IfOk, OnOk, List, Some, drop, length, true};
ghost use Rattle.std.specs.List.{list_all};
ghost use Rattle.std.specs.Str.{bytes_eq};
ghost use Rattle.ctrl_model.specs.declared.formats.Format.{Format as Formats};
ghost use Rattle.ctrl_model.specs.declared.formats.Format.TheVariants.{Two};
ghost use Rattle.ctrl_model.specs.State.{State};
ghost use Rattle.row_codec.specs.declared.rows.Row.{Row as Rows};
ghost use Rattle.row_codec.specs.RowForm.{is_row, value_of as value_in};
ghost use Rattle.state_building.specs.BuiltStates.{state_in};
ghost use Rattle.change_lines.specs.ChangeLines.{change_lines, said};
ghost use Rattle.change_lines.specs.RowChanges.{AreRowsOf, between, row_text, row_thing};

use crate::row_keys::key_cmp;
use crate::row_texts::put_text;
use ctrl_model::{Bytes, Format};
use row_codec::Row;
use row_writing::value_of;
use std::alloc::{AllocError, Global};
use std::cmp::Ordering;

// Puts the line of a row behind a sign.
fn put_signed(text: &mut Vec<u8>, sign: &[u8], rows: &[Row], row: &Row) -> Result<(), AllocError>
    ensures { OnOk result (text.new.items ≡ text.old.items ++ (sign.now ++ row_text (state_in rows.now) row.now)) }
{
    text.extend_from_slice(sign)?;
    put_text(text, rows, row)
}

// Whether the folder keeps the same value of two rows.
fn same_value(alloc: Global, one: &Row, other: &Row) -> Result<bool, AllocError>
    requires one { is_row Two one.now ≡ true }
    requires other { is_row Two other.now ≡ true }
    ensures { IfOk result (λ same. same ≡ bytes_eq (value_in Two one.now) (value_in Two other.now)) }
{
    let one = value_of(alloc, Format::Two, one)?;
    let other = value_of(alloc, Format::Two, other)?;
    Ok(one.as_slice() == other.as_slice())
}

// Puts what is said of two rows of one key.
fn put_both(
    text: &mut Vec<u8>,
    alloc: Global,
    left: &[Row],
    right: &[Row],
    one: &Row,
    other: &Row,
) -> Result<(), AllocError>
    requires one { is_row Two one.now ≡ true }
    requires other { is_row Two other.now ≡ true }
    ensures { OnOk result (text.new.items ≡ text.old.items ++ said (Some (row_thing (state_in left.now) one.now)) (Some (row_thing (state_in right.now) other.now))) }
{
    if same_value(alloc, one, other)? {
        return Ok(());
    }
    put_signed(text, b"~ ", left, one)?;
    put_signed(text, b"> ", right, other)
}

// Puts what is said of the first key of two rows that each stand at the front of others, and tells how many rows of either it is of.
fn put_first(
    text: &mut Vec<u8>,
    alloc: Global,
    left: &[Row],
    right: &[Row],
    one: &Row,
    other: &Row,
) -> Result<(usize, usize), AllocError>
    requires one { is_row Two one.now ≡ true }
    requires other { is_row Two other.now ≡ true }
    ensures put { IfOk result (λ taken. (xs ys : List Rows)
        → text.new.items ++ between (state_in left.now) (state_in right.now) (drop taken.0 (one.now ∷ xs)) (drop taken.1 (other.now ∷ ys))
        ≡ text.old.items ++ between (state_in left.now) (state_in right.now) (one.now ∷ xs) (other.now ∷ ys)) }
    ensures taken { IfOk result (λ taken. (1 ≤ taken.0 + taken.1) × (taken.0 ≤ 1) × (taken.1 ≤ 1)) }
{
    match key_cmp(one, other) {
        Ordering::Less => {
            put_signed(text, b"- ", left, one)?;
            Ok((1, 0))
        }
        Ordering::Equal => {
            put_both(text, alloc, left, right, one, other)?;
            Ok((1, 1))
        }
        Ordering::Greater => {
            put_signed(text, b"+ ", right, other)?;
            Ok((0, 1))
        }
    }
}

// Puts what is said of the next key of rows from two places on, and tells the places behind it.
fn put_next(
    text: &mut Vec<u8>,
    alloc: Global,
    left: &[Row],
    right: &[Row],
    at: (usize, usize),
) -> Result<(usize, usize), AllocError>
    requires left { list_all (is_row Two) left.now ≡ true }
    requires right { list_all (is_row Two) right.now ≡ true }
    requires more { (at.0 < length left.now) ⊎ (at.1 < length right.now) }
    requires within { (at.0 ≤ length left.now) × (at.1 ≤ length right.now) }
    ensures put { IfOk result (λ next. text.new.items ++ between (state_in left.now) (state_in right.now) (drop next.0 left.now) (drop next.1 right.now)
        ≡ text.old.items ++ between (state_in left.now) (state_in right.now) (drop at.0 left.now) (drop at.1 right.now)) }
    ensures within { IfOk result (λ next. (next.0 ≤ length left.now) × (next.1 ≤ length right.now)) }
    ensures further { IfOk result (λ next. (at.0 ≤ next.0) × (at.1 ≤ next.1) × (at.0 + at.1 < next.0 + next.1)) }
{
    match (left.get(at.0), right.get(at.1)) {
        (Some(one), Some(other)) => {
            let taken = put_first(text, alloc, left, right, one, other)?;
            Ok((at.0 + taken.0, at.1 + taken.1))
        }
        (Some(one), None) => {
            put_signed(text, b"- ", left, one)?;
            Ok((at.0 + 1, at.1))
        }
        (None, Some(other)) => {
            put_signed(text, b"+ ", right, other)?;
            Ok((at.0, at.1 + 1))
        }
        (None, None) => unreachable!(),
    }
}

// The lines of the changes between rows of two states.
fn lines_between(alloc: Global, left: &[Row], right: &[Row]) -> Result<Vec<u8>, AllocError>
    requires left { list_all (is_row Two) left.now ≡ true }
    requires right { list_all (is_row Two) right.now ≡ true }
    ensures { IfOk result (λ text. text.items ≡ between (state_in left.now) (state_in right.now) left.now right.now) }
{
    let mut text = Vec::new(alloc);
    let mut at = (0, 0);
    'keys: while at.0 < left.len() || at.1 < right.len() {
        at = put_next(&mut text, alloc, left, right, at)?;
    }
    Ok(text)
}

/// The lines of the changes that lead from one state to another, of which all rows are given, as they were read of a format each
/// (docs/FORMATS.md, "Lines of changes"). An `Err` is want of memory.
pub fn changes(alloc: Global, left: &[Row], right: &[Row]) -> Result<Bytes, AllocError>
    requires left { (f : Formats) × (s : State) × AreRowsOf f s left.now }
    requires right { (f : Formats) × (s : State) × AreRowsOf f s right.now }
    ensures { (f g : Formats) (s t : State) → AreRowsOf f s left.now → AreRowsOf g t right.now → IfOk result (λ text. text ≡ change_lines s t) }
{
    let text = lines_between(alloc, left, right)?;
    Ok(Bytes::of(text))
}
