ghost use Rattle.std.specs.Prelude.{◌≡◌, [], true, false, IfOk};
ghost use Rattle.std.specs.List.{list_all};
ghost use Rattle.std.specs.Option.{unwrap_or};
ghost use Rattle.row_codec.specs.Batches.{bytes_cmp, entry_of};
ghost use Rattle.row_codec.specs.RowDifference.{Rises};
ghost use Rattle.slot_reading.specs.BatchRows.{ByteRows, puts, rows_after, rows_in, serial_of};
ghost use Rattle.slot_reading.specs.Changes.{is_change};
ghost use Rattle.follow_core.specs.BatchBytes.{is_true_difference};
ghost use Rattle.follow_core.specs.Following.{is_whole_of};
ghost use Rattle.follow_core.specs.Steps.{AreOfSerial};

use ctrl_core::{Core, CoreFault};
use ctrl_model::{Bytes, Format};
use row_codec::{Batch, Op};
use row_store::Store;
use slot_reading::{Rows, change_all, puts, serial_in};
use std::alloc::{AllocError, Global};

/// The key of the serial.
const SERIAL_KEY: [u8; 1] = [17];

// Whether an operation puts a row.
fn is_put(op: &Op) -> bool
    ensures { result ≡ is_change [] (entry_of op.now) }
{
    matches!(op, Op::Put { .. })
}

// Whether each operation puts a row.
fn all_put(ops: &[Op]) -> bool
    ensures { result ≡ list_all (λ op. is_change [] (entry_of op)) ops.now }
{
    ops.iter().all(|op| is_put(op))
}

// Whether operations whose keys rise are a true difference of no rows.
fn are_puts(ops: &[Op]) -> bool
    ensures { result ≡ is_true_difference [] ops.now }
{
    !ops.is_empty() && all_put(ops)
}

// The rows after operations where none were.
fn rows_of(alloc: Global, ops: &[Op]) -> Result<Rows, AllocError>
    ensures rows { IfOk result (λ rows. rows_in rows.entries ≡ rows_after [] ops.now) }
    ensures rises { IfOk result (λ rows. Rises bytes_cmp (rows_in rows.entries)) }
{
    let mut rows = Rows::new(alloc);
    change_all(alloc, &mut rows, ops)?;
    Ok(rows)
}

/// The serial of the rows after operations where none were, if they tell one.
pub(crate) fn serial_after(alloc: Global, ops: &[Op]) -> Result<Option<u64>, AllocError>
    ensures { IfOk result (λ serial. serial ≡ serial_of (rows_after [] ops.now)) }
{
    let rows = rows_of(alloc, ops)?;
    Ok(serial_in(rows.get(&SERIAL_KEY[..])))
}

/// Whether operations are a true difference of no rows, and the rows after them have a serial.
pub(crate) fn is_whole_of(alloc: Global, serial: u64, ops: &[Op]) -> Result<bool, AllocError>
    ensures { IfOk result (λ whole. whole ≡ is_whole_of serial ops.now) }
{
    if !are_puts(ops) {
        return Ok(false);
    }
    match serial_after(alloc, ops)? {
        Some(told) => Ok(told == serial),
        None => Ok(false),
    }
}

/// The serial of a store's rows, and 0 where they tell none.
pub(crate) fn own_serial(store: &Store) -> u64
    ensures { result ≡ unwrap_or (serial_of store.now.rows) 0 }
{
    serial_in(store.get(&SERIAL_KEY[..])).unwrap_or(0)
}

// Whether a put gives its key another value than a store has there, or adds it.
fn puts_other(store: &Store, key: &Bytes, value: &Bytes) -> bool
    ensures { result ≡ is_change store.now.rows (key.now, Some value.now) }
{
    match store.get(key.as_slice()) {
        None => true,
        Some(old) => old.as_slice() != value.as_slice(),
    }
}

// Whether an operation changes the rows of a store.
fn is_change(store: &Store, op: &Op) -> bool
    ensures { result ≡ is_change store.now.rows (entry_of op.now) }
{
    match op {
        Op::Put { key, value } => puts_other(store, key, value),
        Op::Delete { key } => store.get(key.as_slice()).is_some(),
    }
}

// Whether each operation changes the rows of a store.
fn all_change(store: &Store, ops: &[Op]) -> bool
    ensures { result ≡ list_all (λ op. is_change store.now.rows (entry_of op)) ops.now }
{
    ops.iter().all(|op| is_change(store, op))
}

/// Whether operations are a true difference of the rows of a store.
pub(crate) fn is_true_difference(store: &Store, ops: &[Op]) -> bool
    ensures { result ≡ is_true_difference store.now.rows ops.now }
{
    !ops.is_empty() && all_change(store, ops)
}

/// The rows of a store after operations, as puts.
pub(crate) fn rows_behind(alloc: Global, store: &Store, ops: &[Op]) -> Result<Batch, AllocError>
    requires { Rises bytes_cmp store.now.rows }
    ensures { IfOk result (λ batch. batch ≡ puts (rows_after store.now.rows ops.now)) }
{
    let before = store.all()?;
    let mut rows = rows_of(alloc, before.as_slice())?;
    drop(before);
    change_all(alloc, &mut rows, ops)?;
    puts(alloc, &rows)
}

/// Whether the rows that a batch puts, all of them, are those of a valid state of a serial.
pub(crate) fn are_of_serial(alloc: Global, serial: u64, rows: &Batch) -> Result<bool, AllocError>
    ensures yes { IfOk result (λ yes. yes ≡ true → (put : ByteRows) → rows.now ≡ puts put → AreOfSerial serial put) }
    ensures no { IfOk result (λ yes. yes ≡ false → (put : ByteRows) → rows.now ≡ puts put → AreOfSerial serial put → ⊥) }
{
    match Core::from_rows(alloc, Format::Two, rows) {
        Ok(core) => {
            let is_of_serial = core.serial() == serial;
            drop(core);
            Ok(is_of_serial)
        }
        Err(CoreFault::NotAState { .. }) => Ok(false),
        Err(CoreFault::NoMemory) => Err(AllocError),
    }
}
