ghost use Rattle.std.specs.Prelude.{◌≡◌, ◌⊎◌, ℕ, ◌+◌, ◌-◌, ◌^◌, ◌≤◌, min, List, [], IsTrue, OnOk, IfOk, IfErr, IfSome, IsErrOf};
ghost use Rattle.ziti_outside.specs.Told.{IsFront};
ghost use Rattle.ziti_outside.specs.Causes.{HasCause};
ghost use Rattle.ziti_outside.specs.Untouched.{OnlyReads};
ghost use Rattle.journal_core.specs.Faults.{disk_failure};
ghost use Rattle.journal_core.specs.Slots.{header};
ghost use Rattle.row_codec.specs.RowDifference.{Rises};
ghost use Rattle.row_codec.specs.declared.changes.Op.{Op};
ghost use Rattle.row_codec.specs.Batches.{bytes_cmp, IsBatch, Spells};
ghost use Rattle.slot_reading.specs.BatchRows.{ArePuttable, rows_in};
ghost use Rattle.slot_reading.specs.SlotReading.{Makes, MakesAt, Adds, StepsTo, StepFails, IsReadWhole, SlotFails, SpellFails, Behind, BehindFails};

use crate::changing::{Rows, change_all, is_true_difference};
use crate::serials::{may_lead, serial_of};
use batch_codec::read_batch;
use ctrl_model::{Bytes, Format};
use journal_core::{HEADER_LEN, JournalFault, next_record};
use row_codec::{Batch, Op, RowFault};
use std::alloc::{AllocError, Global};
use ziti_outside::{Desk, Part};

/// How many bytes a gate and the length behind it have.
const HEAD: u64 = 5;

// Makes operations whose keys rise where they are a true difference of the rows, and tells whether they are.
fn make(alloc: Global, rows: &mut Rows, ops: &[Op]) -> Result<bool, AllocError>
    requires rises { Rises bytes_cmp (rows_in rows.old.entries) }
    requires batch { IsBatch ops.now }
    ensures made { IfOk result (λ made. Makes (rows_in rows.old.entries) ops.now (rows_in rows.new.entries) made) }
    ensures rises { Rises bytes_cmp (rows_in rows.new.entries) }
{
    if !is_true_difference(rows, ops) {
        return Ok(false);
    }
    change_all(alloc, rows, ops)?;
    Ok(true)
}

// Makes operations whose keys rise where a batch at a place of a slot of a format may lead on from the rows by them, and tells whether it
// may.
fn lead(
    alloc: Global,
    format: Format,
    at: u64,
    rows: &mut Rows,
    ops: &[Op],
) -> Result<bool, AllocError>
    requires rises { Rises bytes_cmp (rows_in rows.old.entries) }
    requires batch { IsBatch ops.now }
    ensures made { IfOk result (λ made. MakesAt format at (rows_in rows.old.entries) ops.now (rows_in rows.new.entries) made) }
    ensures rises { Rises bytes_cmp (rows_in rows.new.entries) }
{
    let before = serial_of(rows);
    if !make(alloc, rows, ops)? {
        return Ok(false);
    }
    Ok(may_lead(format, at, before, rows))
}

// Makes the changes of a payload where a batch at a place of a slot of a format may lead on from the rows by it, and tells whether it may.
fn add(
    alloc: Global,
    format: Format,
    at: u64,
    rows: &mut Rows,
    payload: &Bytes,
) -> Result<bool, AllocError>
    requires { Rises bytes_cmp (rows_in rows.old.entries) }
    ensures added { IfOk result (λ added. Adds format at (rows_in rows.old.entries) payload.now (rows_in rows.new.entries) added) }
    ensures rises { Rises bytes_cmp (rows_in rows.new.entries) }
{
    match read_batch(alloc, payload.as_slice()) {
        Ok(batch) => lead(alloc, format, at, rows, batch.as_slice()),
        Err(RowFault::NoMemory) => Err(AllocError),
        Err(_) => Ok(false),
    }
}

// Takes the record at a place into the rows, and answers the place behind it, or none where a closed gate stands there.
fn step<D: Desk>(
    alloc: Global,
    desk: &mut D,
    format: Format,
    part: Part,
    at: u64,
    rows: &mut Rows,
) -> Result<Option<u64>, JournalFault>
    requires { Rises bytes_cmp (rows_in rows.old.entries) }
    ensures made { IfOk result (λ next. IsTrue D.tells → StepsTo format ((D.seen desk.old).reads part) at (rows_in rows.old.entries) (rows_in rows.new.entries) next) }
    ensures further { IfOk result (λ next. IfSome next (λ place. min (at + 1) (2 ^ 64 - 1) ≤ place)) }
    ensures fault { IfErr result (λ fault. StepFails D.tells format at ((D.seen desk.old).reads part) (rows_in rows.old.entries) fault) }
    ensures rises { Rises bytes_cmp (rows_in rows.new.entries) }
    ensures puttable { OnOk result (ArePuttable (rows_in rows.old.entries) → ArePuttable (rows_in rows.new.entries)) }
    ensures cause { HasCause (D.seen desk.old).disk_faults (D.seen desk.new).disk_faults (disk_failure result) }
    ensures reads { OnlyReads D.seen D.stopped desk.old desk.new }
{
    match next_record(alloc, desk, part, at)? {
        None => Ok(None),
        Some(payload) => {
            if add(alloc, format, at, rows, &payload)? {
                Ok(Some(at.saturating_add(HEAD).saturating_add(payload.len() as u64)))
            } else {
                Err(JournalFault::Damaged { at })
            }
        }
    }
}

/// Reads the records of a slot of a format into rows, of which there are none yet, and answers the place of the closed gate. It changes
/// nothing of the folder.
///
/// `Damaged` names the first place at which the slot breaks off, and comes exactly where it does. `Full` never comes.
pub fn read_slot<D: Desk>(
    alloc: Global,
    desk: &mut D,
    format: Format,
    part: Part,
    rows: &mut Rows,
) -> Result<u64, JournalFault>
    requires none { rows_in rows.old.entries ≡ [] }
    requires header { IsTrue D.tells → IsFront (header format) ((D.seen desk.old).reads part) }
    ensures whole { IfOk result (λ end. IsTrue D.tells → IsReadWhole format ((D.seen desk.old).reads part) end (rows_in rows.new.entries)) }
    ensures fault { IfErr result (λ fault. SlotFails D.tells format ((D.seen desk.old).reads part) fault) }
    ensures rises { Rises bytes_cmp (rows_in rows.new.entries) }
    ensures puttable { OnOk result (ArePuttable (rows_in rows.new.entries)) }
    ensures cause { HasCause (D.seen desk.old).disk_faults (D.seen desk.new).disk_faults (disk_failure result) }
    ensures reads { OnlyReads D.seen D.stopped desk.old desk.new }
{
    let end = desk.len(part)?;
    let mut at = HEADER_LEN;
    'records: while at < end {
        match step(alloc, desk, format, part, at, rows)? {
            None => return Ok(at),
            Some(next) => at = next,
        }
    }
    Err(JournalFault::Damaged { at })
}

// The batch that a payload spells.
fn batch_of(alloc: Global, at: u64, payload: &Bytes) -> Result<Batch, JournalFault>
    ensures read { IfOk result (λ batch. Spells payload.now batch) }
    ensures fault { IfErr result (λ fault. SpellFails at payload.now fault) }
{
    match read_batch(alloc, payload.as_slice()) {
        Ok(batch) => Ok(batch),
        Err(RowFault::NoMemory) => Err(JournalFault::NoMemory),
        Err(_) => Err(JournalFault::Damaged { at }),
    }
}

/// The batch behind the gate at a place, and the place of the next gate, as far as 64 bits go; none where the gate is closed. It changes
/// nothing.
///
/// `Damaged` names the place, and comes exactly where no whole record stands there or one that spells no batch. `Full` never comes.
pub fn batch_behind<D: Desk>(
    alloc: Global,
    desk: &mut D,
    part: Part,
    at: u64,
) -> Result<Option<(Batch, u64)>, JournalFault>
    ensures found { IfOk result (λ found. IsTrue D.tells → Behind ((D.seen desk.old).reads part) at found) }
    ensures batch { IfOk result (λ found. IfSome found (λ x. IsBatch x.0)) }
    ensures further { IfOk result (λ found. IfSome found (λ x. min (at + 1) (2 ^ 64 - 1) ≤ x.1)) }
    ensures fault { IfErr result (λ fault. BehindFails D.tells at ((D.seen desk.old).reads part) fault) }
    ensures cause { HasCause (D.seen desk.old).disk_faults (D.seen desk.new).disk_faults (disk_failure result) }
    ensures reads { OnlyReads D.seen D.stopped desk.old desk.new }
{
    match next_record(alloc, desk, part, at)? {
        None => Ok(None),
        Some(payload) => {
            let batch = batch_of(alloc, at, &payload)?;
            let next = at.saturating_add(HEAD).saturating_add(payload.len() as u64);
            Ok(Some((batch, next)))
        }
    }
}
