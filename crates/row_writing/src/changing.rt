ghost use Rattle.std.specs.Prelude.{◌≡◌, ◌+◌, nat_le, true, IfOk};
ghost use Rattle.row_codec.specs.RowForm.{is_row, value_of};
ghost use Rattle.row_codec.specs.RowKeys.{key_in, key_bytes, kind_number};
ghost use Rattle.row_codec.specs.RowKeys.RowTable.{Records};
ghost use Rattle.row_codec.specs.RowValues.{long};
ghost use Rattle.row_codec.specs.StateRows.{next_value, serial_value, setting_value};
ghost use Rattle.row_writing.specs.RecordChanges.{change_of, next_change_of, serial_change_of, setting_change_of};

use crate::values::push_value;
use ctrl_model::{Bytes, Format, Kind};
use row_codec::{Change, Row, push_long, push_wide, record_key};
use std::alloc::{AllocError, Global};

// The number of the table of a kind's records.
fn table_number(kind: Kind) -> u8
    requires { nat_le 1 (kind_number kind) ≡ true }
    ensures { result ≡ kind_number kind + 2 }
{
    match kind {
        Kind::Identity => 3,
        Kind::Service => 4,
        Kind::Router => 5,
        Kind::Link => 6,
        Kind::ServicePolicy => 7,
        Kind::EdgeRouterPolicy => 8,
        Kind::ServiceEdgeRouterPolicy => 9,
        Kind::Terminator => 10,
        Kind::Circuit => 11,
        Kind::Attribute => unreachable!(),
    }
}

// The key of a kind's record.
fn key_of(alloc: Global, kind: Kind, number: u32) -> Result<Bytes, AllocError>
    requires { nat_le 1 (kind_number kind) ≡ true }
    ensures { IfOk result (λ key. key ≡ key_bytes (key_in (Records kind) number 0)) }
{
    let key = record_key(alloc, table_number(kind), number)?;
    Ok(Bytes::of(key))
}

/// The value of a row that some state can have in a format.
pub fn value_of(alloc: Global, format: Format, row: &Row) -> Result<Bytes, AllocError>
    requires { is_row format row.now ≡ true }
    ensures { IfOk result (λ value. value ≡ value_of format row.now) }
{
    let mut value = Vec::new(alloc);
    push_value(&mut value, format, row)?;
    Ok(Bytes::of(value))
}

/// The change of the row of a kind's record under a number: its value before, if it was there, and after, if it is there. The kind is
/// one that has records.
pub fn change_of(
    alloc: Global,
    kind: Kind,
    number: u32,
    before: Option<Bytes>,
    after: Option<Bytes>,
) -> Result<Change, AllocError>
    requires { nat_le 1 (kind_number kind) ≡ true }
    ensures { IfOk result (λ change. change ≡ change_of kind number before after) }
{
    let key = key_of(alloc, kind, number)?;
    Ok(Change { key, before, after })
}

/// The least router cost of a state that has no row of it.
const LEAST_WITHOUT_ROW: u32 = 10;

// The value of the serial, which has a row where it is above 0.
fn serial_value(alloc: Global, serial: u64) -> Result<Option<Bytes>, AllocError>
    ensures { IfOk result (λ value. value ≡ serial_value serial) }
{
    if serial == 0 {
        return Ok(None);
    }
    let mut value = Vec::new(alloc);
    push_wide(&mut value, serial)?;
    Ok(Some(Bytes::of(value)))
}

// The value of a number of four bytes.
fn long_value(alloc: Global, number: u32) -> Result<Bytes, AllocError>
    ensures { IfOk result (λ value. value ≡ long number) }
{
    let mut value = Vec::new(alloc);
    push_long(&mut value, number)?;
    Ok(Bytes::of(value))
}

// The value of a next number, which has a row where it is above 1.
fn next_value(alloc: Global, next: u32) -> Result<Option<Bytes>, AllocError>
    ensures { IfOk result (λ value. value ≡ next_value next) }
{
    if next > 1 {
        Ok(Some(long_value(alloc, next)?))
    } else {
        Ok(None)
    }
}

// The value of the least router cost, which has a row where it is not that of the start.
fn setting_value(alloc: Global, cost: u32) -> Result<Option<Bytes>, AllocError>
    ensures { IfOk result (λ value. value ≡ setting_value cost) }
{
    if cost == LEAST_WITHOUT_ROW {
        Ok(None)
    } else {
        Ok(Some(long_value(alloc, cost)?))
    }
}

/// The change of the row of a kind's next number, which goes from one to another. The kind is one that has records.
pub fn next_change(alloc: Global, kind: Kind, before: u32, after: u32) -> Result<Change, AllocError>
    requires { nat_le 1 (kind_number kind) ≡ true }
    ensures { IfOk result (λ change. change ≡ next_change_of kind before after) }
{
    let key = Vec::from_slice(alloc, &[1, table_number(kind) - 2])?;
    let before = next_value(alloc, before)?;
    let after = next_value(alloc, after)?;
    Ok(Change {
        key: Bytes::of(key),
        before,
        after,
    })
}

/// The change of the row of the least router cost, which goes from one to another.
pub fn setting_change(alloc: Global, before: u32, after: u32) -> Result<Change, AllocError>
    ensures { IfOk result (λ change. change ≡ setting_change_of before after) }
{
    let key = Vec::from_slice(alloc, &[2])?;
    let before = setting_value(alloc, before)?;
    let after = setting_value(alloc, after)?;
    Ok(Change {
        key: Bytes::of(key),
        before,
        after,
    })
}

/// The change of the row of the serial, which goes from one to another.
pub fn serial_change(alloc: Global, before: u64, after: u64) -> Result<Change, AllocError>
    ensures { IfOk result (λ change. change ≡ serial_change_of before after) }
{
    let key = Vec::from_slice(alloc, &[17])?;
    let before = serial_value(alloc, before)?;
    let after = serial_value(alloc, after)?;
    Ok(Change {
        key: Bytes::of(key),
        before,
        after,
    })
}
