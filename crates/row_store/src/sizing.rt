ghost use Rattle.std.specs.Prelude.{◌≡◌, ◌↔◌, ◌+◌, ◌≤◌, IsTrue, length};
ghost use Rattle.std.specs.List.{AllByRecursion};
ghost use Rattle.row_store.specs.declared.writing.Writing.{Writing};
ghost use Rattle.row_codec.specs.Batches.{IsSpelledOp, op_bytes, batch_bytes};
ghost use Rattle.slot_reading.specs.BatchRows.{ArePuttable, rows_in, puts};
ghost use Rattle.row_store.specs.RewrittenStores.{compacted_size};
ghost use Rattle.row_store.specs.WrittenRows.{each_as};

use crate::writing::{Writing, value_as};
use row_codec::Op;
use slot_reading::Rows;

/// How many bytes a slot has without a record.
const EMPTY: u64 = 9;

/// How many bytes a slot has with one record beside those of its payload.
const WITH_RECORD: u64 = 14;

// How many bytes a put has, spelled.
fn put_size(key: &[u8], value: &[u8]) -> u64
    requires { IsSpelledOp (Op.Put key.now value.now) }
    ensures { result ≡ length (op_bytes (Op.Put key.now value.now)) }
{
    6 + key.len() as u64 + value.len() as u64
}

// How many bytes an operation has, spelled.
fn op_size(op: &Op) -> u64
    requires { IsSpelledOp op.now }
    ensures { result ≡ length (op_bytes op.now) }
{
    match op {
        Op::Put { key, value } => put_size(key.as_slice(), value.as_slice()),
        Op::Delete { key } => 2 + key.len() as u64,
    }
}

// Whether operations, spelled, have at most so many bytes. It takes no memory.
pub(crate) fn fits(ops: &[Op], room: u64) -> bool
    requires { AllByRecursion IsSpelledOp ops.now }
    ensures { IsTrue result ↔ (length (batch_bytes ops.now) ≤ room) }
{
    let mut left = room;
    'ops: for op in ops {
        let size = op_size(op);
        if left < size {
            return false;
        }
        left -= size;
    }
    true
}

// Whether a slot with this closed gate and one batch more keeps its bound.
pub(crate) fn has_room(ops: &[Op], end: u64, most: u64) -> bool
    requires { AllByRecursion IsSpelledOp ops.now }
    ensures { IsTrue result ↔ (end + 6 + length (batch_bytes ops.now) ≤ most) }
{
    let room = most.saturating_sub(end);
    6 <= room && fits(ops, room - 6)
}

// Whether all rows, spelled as puts of what is written, have at most so many bytes. It takes no memory.
fn all_fit(rows: &Rows, writing: Writing, room: u64) -> bool
    requires { ArePuttable (rows_in rows.now.entries) }
    ensures { IsTrue result ↔ (length (batch_bytes (puts (each_as writing (rows_in rows.now.entries)))) ≤ room) }
{
    let mut left = room;
    'rows: for (key, value) in rows {
        let written = value_as(writing, key.as_slice(), value.as_slice());
        let Some(rest) = left.checked_sub(put_size(key.as_slice(), written)) else {
            return false;
        };
        left = rest;
    }
    true
}

// How many bytes the slot of compacted rows has beside their puts.
fn size_beside(rows: &Rows) -> u64
    ensures { (writing : Writing) → compacted_size (each_as writing (rows_in rows.now.entries)) ≡ result + length (batch_bytes (puts (each_as writing (rows_in rows.now.entries)))) }
{
    if rows.is_empty() { EMPTY } else { WITH_RECORD }
}

// Whether the slot in which rows stand compacted, as they are written, keeps its bound. It takes no memory.
pub(crate) fn has_room_for_all(rows: &Rows, writing: Writing, most: u64) -> bool
    requires { ArePuttable (rows_in rows.now.entries) }
    ensures { IsTrue result ↔ (compacted_size (each_as writing (rows_in rows.now.entries)) ≤ most) }
{
    let beside = size_beside(rows);
    beside <= most && all_fit(rows, writing, most - beside)
}
