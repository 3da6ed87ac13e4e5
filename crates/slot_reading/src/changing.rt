ghost use Rattle.std.specs.Prelude.{◌≡◌, ◌↔◌, IsTrue, OnOk};
ghost use Rattle.std.specs.List.{list_all};
ghost use Rattle.row_codec.specs.RowDifference.{Rises, with_entry, IsTrueDifference};
ghost use Rattle.row_codec.specs.Batches.{bytes_cmp, IsBatch, entry_of, entries_of};
ghost use Rattle.slot_reading.specs.BatchRows.{rows_in, rows_after};
ghost use Rattle.slot_reading.specs.Changes.{is_change};

use ctrl_model::Bytes;
use row_codec::Op;
use std::alloc::{AllocError, Global};
use std::collections::BTreeMap;

/// Values under their keys.
pub type Rows = BTreeMap<Vec<u8>, Bytes>;

// Puts a row.
fn put(alloc: Global, rows: &mut Rows, key: &Bytes, value: &Bytes) -> Result<(), AllocError>
    requires { Rises bytes_cmp (rows_in rows.old.entries) }
    ensures row { OnOk result (rows_in rows.new.entries ≡ with_entry bytes_cmp (rows_in rows.old.entries) (key.now, Some value.now)) }
    ensures rises { Rises bytes_cmp (rows_in rows.new.entries) }
{
    let key = Vec::from_slice(alloc, key.as_slice())?;
    let value = Bytes::from_slice(alloc, value.as_slice())?;
    rows.insert(key, value)?;
    Ok(())
}

// Deletes the row at a key.
fn delete(rows: &mut Rows, key: &Bytes)
    requires { Rises bytes_cmp (rows_in rows.old.entries) }
    ensures row { rows_in rows.new.entries ≡ with_entry bytes_cmp (rows_in rows.old.entries) (key.now, None) }
    ensures rises { Rises bytes_cmp (rows_in rows.new.entries) }
{
    rows.remove(key.as_slice());
}

// Makes one change.
fn change(alloc: Global, rows: &mut Rows, op: &Op) -> Result<(), AllocError>
    requires { Rises bytes_cmp (rows_in rows.old.entries) }
    ensures row { OnOk result (rows_in rows.new.entries ≡ with_entry bytes_cmp (rows_in rows.old.entries) (entry_of op.now)) }
    ensures rises { Rises bytes_cmp (rows_in rows.new.entries) }
{
    match op {
        Op::Put { key, value } => put(alloc, rows, key, value),
        Op::Delete { key } => {
            delete(rows, key);
            Ok(())
        }
    }
}

/// Makes changes, one after another. Where there is no memory, some may have been made.
pub fn change_all(alloc: Global, rows: &mut Rows, ops: &[Op]) -> Result<(), AllocError>
    requires { Rises bytes_cmp (rows_in rows.old.entries) }
    ensures rows { OnOk result (rows_in rows.new.entries ≡ rows_after (rows_in rows.old.entries) ops.now) }
    ensures rises { Rises bytes_cmp (rows_in rows.new.entries) }
{
    'ops: for op in ops {
        change(alloc, rows, op)?;
    }
    Ok(())
}

// Whether a put gives its key another value, or adds it.
fn puts_other(rows: &Rows, key: &Bytes, value: &Bytes) -> bool
    ensures { result ≡ is_change (rows_in rows.now.entries) (key.now, Some value.now) }
{
    match rows.get(key.as_slice()) {
        None => true,
        Some(old) => old.as_slice() != value.as_slice(),
    }
}

// Whether there is a row at a key.
fn has_row(rows: &Rows, key: &Bytes) -> bool
    ensures { result ≡ is_change (rows_in rows.now.entries) (key.now, None) }
{
    rows.contains_key(key.as_slice())
}

// Whether an operation changes rows.
fn is_change(rows: &Rows, op: &Op) -> bool
    ensures { result ≡ is_change (rows_in rows.now.entries) (entry_of op.now) }
{
    match op {
        Op::Put { key, value } => puts_other(rows, key, value),
        Op::Delete { key } => has_row(rows, key),
    }
}

// Whether each operation changes rows.
fn all_change(rows: &Rows, ops: &[Op]) -> bool
    ensures { result ≡ list_all (λ op. is_change (rows_in rows.now.entries) (entry_of op)) ops.now }
{
    ops.iter().all(|op| is_change(rows, op))
}

// Whether operations whose keys rise are a true difference of rows.
pub(crate) fn is_true_difference(rows: &Rows, ops: &[Op]) -> bool
    requires rises { Rises bytes_cmp (rows_in rows.now.entries) }
    requires batch { IsBatch ops.now }
    ensures { IsTrue result ↔ IsTrueDifference bytes_cmp (rows_in rows.now.entries) (entries_of ops.now) }
{
    !ops.is_empty() && all_change(rows, ops)
}
