ghost use Rattle.std.specs.Prelude.{◌≡◌, ◌^◌, ◌<◌, ◌≤◌, ◌∷◌, ◌+◌, [], map, length, OnOk, IfOk, IfErr};
ghost use Rattle.ctrl_model.specs.declared.formats.Format.TheVariants as formats;
ghost use Rattle.journal_core.specs.Slots.{slot_bytes};
ghost use Rattle.row_codec.specs.NarrowedRows.{narrowed};
ghost use Rattle.row_codec.specs.RowDifference.{Rises, IsTrueDifference};
ghost use Rattle.row_codec.specs.Batches.{bytes_cmp, batch_bytes, entries_of, IsBatch};
ghost use Rattle.slot_reading.specs.BatchRows.{ArePuttable, rows_after, rows_in, puts};
ghost use Rattle.row_store.specs.RewrittenStores.{compacted, compacted_size, RoomFails};
ghost use Rattle.row_store.specs.WrittenRows.{IsSlotOf, each_as, rows_as};

use crate::bounds::StoreBounds;
use crate::committing::spell;
use crate::faults::StoreFault;
use crate::scanning::puts;
use crate::sizing::{has_room, has_room_for_all};
use crate::writing::Writing;
use batch_codec::write_batch;
use ctrl_model::{Bytes, Format};
use journal_core::{HEADER_LEN, empty_slot, header};
use row_codec::Batch;
use slot_reading::{Rows, change_all};
use std::alloc::{AllocError, Global};

/// The gate of a record.
const OPEN: u8 = 1;

/// The gate behind the last record.
const CLOSED: u8 = 0;

// Whether the mark has room for a byte, where a slot of so many bytes has room.
fn find_mark(mark: u64, bounds: StoreBounds) -> Result<(), StoreFault>
    ensures room { OnOk result (mark < bounds.mark) }
    ensures fault { IfErr result (λ fault. (fault ≡ StoreFault.MarkFull) × (bounds.mark ≤ mark)) }
{
    if mark >= bounds.mark {
        return Err(StoreFault::MarkFull);
    }
    Ok(())
}

// Whether rows, as they are written, have room to be compacted: in their slot, and in the mark. It takes no memory.
fn find_room(
    rows: &Rows,
    writing: Writing,
    mark: u64,
    bounds: StoreBounds,
) -> Result<(), StoreFault>
    requires { ArePuttable (rows_in rows.now.entries) }
    ensures room { OnOk result ((compacted_size (each_as writing (rows_in rows.now.entries)) ≤ bounds.slot) × (mark < bounds.mark)) }
    ensures fault { IfErr result (λ fault. RoomFails (compacted_size (each_as writing (rows_in rows.now.entries))) mark bounds.slot bounds.mark fault) }
{
    if !has_room_for_all(rows, writing, bounds.slot) {
        return Err(StoreFault::Full);
    }
    find_mark(mark, bounds)
}

// Whether a batch has room in a slot of its own, and the mark has room for a byte. It takes no memory.
fn find_room_alone(batch: &Batch, mark: u64, bounds: StoreBounds) -> Result<(), StoreFault>
    requires { IsBatch batch.now }
    ensures room { OnOk result ((14 + length (batch_bytes batch.now) ≤ bounds.slot) × (mark < bounds.mark)) }
    ensures fault { IfErr result (λ fault. RoomFails (14 + length (batch_bytes batch.now)) mark bounds.slot bounds.mark fault) }
{
    if !has_room(batch.as_slice(), HEADER_LEN, bounds.slot) {
        return Err(StoreFault::Full);
    }
    find_mark(mark, bounds)
}

// The spelling of the batch that puts all rows, as they are written.
fn spell_all(alloc: Global, rows: &Rows, writing: Writing) -> Result<Bytes, AllocError>
    requires rises { Rises bytes_cmp (rows_in rows.now.entries) }
    requires puttable { ArePuttable (rows_in rows.now.entries) }
    ensures { IfOk result (λ bytes. bytes ≡ batch_bytes (puts (each_as writing (rows_in rows.now.entries)))) }
{
    let batch = puts(alloc, rows, writing)?;
    write_batch(alloc, &batch)
}

// A slot of a format, of one record.
fn slot_of_one(alloc: Global, format: Format, payload: &[u8]) -> Result<Vec<u8>, AllocError>
    requires { length payload.now < 2 ^ 32 }
    ensures { IfOk result (λ slot. slot.items ≡ slot_bytes format (payload.now ∷ [])) }
{
    let mut slot = Vec::from_slice(alloc, &header(format))?;
    slot.push(OPEN)?;
    slot.extend_from_slice(&(payload.len() as u32).to_le_bytes())?;
    slot.extend_from_slice(payload)?;
    slot.push(CLOSED)?;
    Ok(slot)
}

// The slot of a format in which rows stand compacted, as they are written.
fn compacted_slot(
    alloc: Global,
    format: Format,
    rows: &Rows,
    writing: Writing,
) -> Result<Vec<u8>, AllocError>
    requires rises { Rises bytes_cmp (rows_in rows.now.entries) }
    requires puttable { ArePuttable (rows_in rows.now.entries) }
    requires small { compacted_size (each_as writing (rows_in rows.now.entries)) ≤ 2 ^ 30 }
    ensures { IfOk result (λ slot. slot.items ≡ slot_bytes format (compacted (each_as writing (rows_in rows.now.entries)))) }
{
    if rows.is_empty() {
        return Vec::from_slice(alloc, &empty_slot(format));
    }
    let payload = spell_all(alloc, rows, writing)?;
    slot_of_one(alloc, format, payload.as_slice())
}

// That slot, where it keeps its bound and the mark has room for a byte.
pub(crate) fn written_slot(
    alloc: Global,
    format: Format,
    rows: &Rows,
    writing: Writing,
    mark: u64,
    bounds: StoreBounds,
) -> Result<Vec<u8>, StoreFault>
    requires rises { Rises bytes_cmp (rows_in rows.now.entries) }
    requires puttable { ArePuttable (rows_in rows.now.entries) }
    requires bound { bounds.slot ≤ 2 ^ 30 }
    ensures slot { IfOk result (λ slot. IsSlotOf format (rows_as writing (rows_in rows.now.entries)) slot.items) }
    ensures room { OnOk result ((compacted_size (rows_as writing (rows_in rows.now.entries)) ≤ bounds.slot) × (mark < bounds.mark)) }
    ensures fault { IfErr result (λ fault. RoomFails (compacted_size (rows_as writing (rows_in rows.now.entries))) mark bounds.slot bounds.mark fault) }
{
    find_room(rows, writing, mark, bounds)?;
    let slot = compacted_slot(alloc, format, rows, writing)?;
    Ok(slot)
}

// The slot of the second format in which the rows that a batch puts where none were stand compacted, where it keeps its bound and the mark has
// room for a byte.
pub(crate) fn replaced_slot(
    alloc: Global,
    batch: &Batch,
    mark: u64,
    bounds: StoreBounds,
) -> Result<Vec<u8>, StoreFault>
    requires batch { IsBatch batch.now }
    requires changes { IsTrueDifference bytes_cmp [] (entries_of batch.now) }
    requires bound { bounds.slot ≤ 2 ^ 30 }
    ensures slot { IfOk result (λ slot. IsSlotOf formats.Two (rows_after [] batch.now) slot.items) }
    ensures room { OnOk result ((compacted_size (rows_after [] batch.now) ≤ bounds.slot) × (mark < bounds.mark)) }
    ensures fault { IfErr result (λ fault. RoomFails (compacted_size (rows_after [] batch.now)) mark bounds.slot bounds.mark fault) }
{
    find_room_alone(batch, mark, bounds)?;
    let payload = spell(alloc, batch)?;
    let slot = slot_of_one(alloc, Format::Two, payload.as_slice())?;
    Ok(slot)
}

// The rows that a batch puts where none were.
pub(crate) fn rows_of(alloc: Global, batch: &Batch) -> Result<Rows, AllocError>
    ensures { IfOk result (λ rows. rows_in rows.entries ≡ rows_after [] batch.now) }
{
    let mut rows = Rows::new(alloc);
    change_all(alloc, &mut rows, batch.as_slice())?;
    Ok(rows)
}

// Rows of the first format with narrowed counts.
pub(crate) fn narrowed_rows(alloc: Global, rows: &Rows) -> Result<Rows, AllocError>
    requires { Rises bytes_cmp (rows_in rows.now.entries) }
    ensures { IfOk result (λ narrow. rows_in narrow.entries ≡ map narrowed (rows_in rows.now.entries)) }
{
    let batch = puts(alloc, rows, Writing::Narrowed)?;
    let narrow = rows_of(alloc, &batch)?;
    Ok(narrow)
}
