ghost use Rattle.std.specs.Prelude.{◌≡◌, ◌+◌, ◌^◌, ◌<◌, ◌≤◌, [], length, IsTrue, OnOk, IfOk, IfErr};
ghost use Rattle.ziti_outside.specs.Causes.{HasCause};
ghost use Rattle.ziti_outside.specs.Images.{IsStable};
ghost use Rattle.journal_core.specs.AppendedRecords.{OnlyAppends};
ghost use Rattle.journal_core.specs.Slots.{IsClosed, ShutOrAdded, text_of, added};
ghost use Rattle.row_codec.specs.RowDifference.{Rises};
ghost use Rattle.row_codec.specs.Batches.{bytes_cmp, IsBatch, batch_bytes};
ghost use Rattle.slot_reading.specs.BatchRows.{rows_in, rows_after};
ghost use Rattle.row_store.specs.Faults.{disk_failure, KeepFails, IsKept};

use crate::faults::{StoreFault, in_part};
use batch_codec::write_batch;
use ctrl_model::Bytes;
use journal_core::{Packed, append};
use row_codec::{Batch, Op};
use slot_reading::{Rows, change_all};
use std::alloc::{AllocError, Global};
use ziti_outside::{Desk, Part};

// The spelling of a batch.
pub(crate) fn spell(alloc: Global, batch: &Batch) -> Result<Bytes, AllocError>
    requires { IsBatch batch.now }
    ensures { IfOk result (λ bytes. bytes ≡ batch_bytes batch.now) }
{
    write_batch(alloc, batch)
}

// The spelling of a batch, packed.
pub(crate) fn pack(alloc: Global, batch: &Batch) -> Result<Packed, AllocError>
    requires batch { IsBatch batch.now }
    requires some { batch.now ≡ [] → ⊥ }
    requires at_most { length (batch_bytes batch.now) ≤ 2 ^ 30 }
    ensures { IfOk result (λ packed. packed ≡ batch_bytes batch.now) }
{
    let payload = spell(alloc, batch)?;
    Packed::of(alloc, &payload)
}

// Appends a record for which there is room. Its only fault is that of the disk.
fn append_within<D: Desk>(
    desk: &mut D,
    part: Part,
    end: u64,
    packed: &Packed,
    most: u64,
) -> Result<u64, StoreFault>
    requires room { end + 6 + length packed.now ≤ most }
    requires closed { IsTrue D.tells → IsClosed end ((D.seen desk.old).reads part) }
    requires stable { IsTrue D.tells → IsStable part (D.seen desk.old).reads (D.stopped desk.old).images }
    ensures next { IfOk result (λ next. next ≡ end + 5 + length packed.now) }
    ensures added { OnOk result (IsTrue D.tells → (D.seen desk.new).reads part ≡ added end (text_of packed.now) ((D.seen desk.old).reads part)) }
    ensures stable { OnOk result (IsStable part (D.seen desk.new).reads (D.stopped desk.new).images) }
    ensures fault { IfErr result (λ fault. fault ≡ StoreFault.Disk) }
    ensures cause { HasCause (D.seen desk.old).disk_faults (D.seen desk.new).disk_faults (disk_failure result) }
    ensures alone { OnlyAppends D.tells D.seen D.stopped part (ShutOrAdded end (text_of packed.now)) most desk.old desk.new }
{
    match append(desk, part, end, packed, most) {
        Ok(next) => Ok(next),
        Err(fault) => Err(in_part(part, fault)),
    }
}

// Appends a batch for which there is room, and then changes the rows. Where the disk fails, nothing of the rows changes; where memory
// is wanting, the batch was appended.
pub(crate) fn keep<D: Desk>(
    alloc: Global,
    desk: &mut D,
    part: Part,
    end: u64,
    packed: &Packed,
    most: u64,
    rows: &mut Rows,
    ops: &[Op],
) -> Result<u64, StoreFault>
    requires room { end + 6 + length packed.now ≤ most }
    requires closed { IsTrue D.tells → IsClosed end ((D.seen desk.old).reads part) }
    requires stable { IsTrue D.tells → IsStable part (D.seen desk.old).reads (D.stopped desk.old).images }
    requires rises { Rises bytes_cmp (rows_in rows.old.entries) }
    ensures next { IfOk result (λ next. next ≡ end + 5 + length packed.now) }
    ensures rows { OnOk result (rows_in rows.new.entries ≡ rows_after (rows_in rows.old.entries) ops.now) }
    ensures rises { Rises bytes_cmp (rows_in rows.new.entries) }
    ensures added { IsKept result → IsTrue D.tells → (D.seen desk.new).reads part ≡ added end (text_of packed.now) ((D.seen desk.old).reads part) }
    ensures stable { IsKept result → IsStable part (D.seen desk.new).reads (D.stopped desk.new).images }
    ensures fault { IfErr result (λ fault. KeepFails (rows_in rows.old.entries) (rows_in rows.new.entries) fault) }
    ensures cause { HasCause (D.seen desk.old).disk_faults (D.seen desk.new).disk_faults (disk_failure result) }
    ensures alone { OnlyAppends D.tells D.seen D.stopped part (ShutOrAdded end (text_of packed.now)) most desk.old desk.new }
{
    let place = append_within(desk, part, end, packed, most)?;
    change_all(alloc, rows, ops)?;
    Ok(place)
}
