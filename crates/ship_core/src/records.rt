ghost use Rattle.std.specs.Prelude.{◌≡◌, ◌<◌, ◌+◌, ◌%◌, ◌^◌, ℕ, List, length, IsTrue, IfOk, IfErr, IsErrOf};
ghost use Rattle.std.specs.Ordering.{is_eq};
ghost use Rattle.ctrl_model.specs.declared.formats.Format.TheVariants.{Two};
ghost use Rattle.slot_reading.specs.BatchRows.{serial_key};
ghost use Rattle.row_store.specs.StoredRows.{IsStoreOf};
ghost use Rattle.ziti_outside.specs.Causes.{HasCause};
ghost use Rattle.ziti_outside.specs.Untouched.{OnlyReads};
ghost use Rattle.channel_frame.specs.declared.frames.Frame.{Frame};
ghost use Rattle.row_codec.specs.Batches.{bytes_cmp, batch_bytes, IsBatch};
ghost use Rattle.row_store.specs.GateBatches.{IsGateOf, IsBatchAt};
ghost use Rattle.ship_core.specs.Faults.{fault_of, disk_failure};
ghost use Rattle.ship_core.specs.Steps.{ShipsFrames, IsOnItsWay, Passes, leg_of, IsUndamaged, serial_by, serial_after, sort_at, shipment_of, frames_if};

use crate::faults::{ShipFault, of_store};
use crate::saying::say_pieces;
use batch_codec::write_batch;
use journal_core::HEADER_LEN;
use row_codec::{Batch, Op};
use row_store::Store;
use ship_frames::{Shipment, Sort};
use slot_reading::serial_in;
use std::alloc::{AllocError, Global};
use ziti_outside::Desk;

/// The key of the serial.
const SERIAL_KEY: [u8; 1] = [17];

/// How far a shipping has come: the place of the next gate, the serial of the rows before it, and how many frames were said, as far as four
/// bytes go.
#[derive(Clone, Copy, PartialEq, Eq)]
pub(crate) struct Way {
    pub at: u64,
    pub serial: u64,
    pub sequence: u32,
}

// Whether a key is that of the serial.
fn is_serial_key(key: &[u8]) -> bool
    ensures { result ≡ is_eq (bytes_cmp key.now serial_key) }
{
    key.cmp(&SERIAL_KEY[..]).is_eq()
}

// What an operation says of the serial, if it has the serial's key: 0 where it tells none.
fn serial_by(op: &Op) -> Option<u64>
    ensures { result ≡ serial_by op.now }
{
    match op {
        Op::Put { key, value } => {
            if !is_serial_key(key.as_slice()) {
                return None;
            }
            Some(serial_in(Some(value)).unwrap_or(0))
        }
        Op::Delete { key } => {
            if !is_serial_key(key.as_slice()) {
                return None;
            }
            Some(0)
        }
    }
}

// The serial after operations on rows of a serial.
fn serial_after(serial: u64, ops: &[Op]) -> u64
    ensures { result ≡ serial_after serial ops.now }
{
    'ops: for op in ops {
        if let Some(told) = serial_by(op) {
            return told;
        }
    }
    serial
}

// The sort of the record behind the gate at a place.
fn sort_at(at: u64) -> Sort
    ensures { result ≡ sort_at at }
{
    if at == HEADER_LEN {
        Sort::Whole
    } else {
        Sort::Next
    }
}

// A batch as it is shipped that was read on the way.
fn shipment_of(alloc: Global, at: u64, serial: u64, batch: &Batch) -> Result<Shipment, AllocError>
    requires { IsBatch batch.now }
    ensures { IfOk result (λ s. s ≡ record { sort = sort_at at; serial = serial; bytes = batch_bytes batch.now }) }
{
    let bytes = write_batch(alloc, batch)?;
    Ok(Shipment {
        sort: sort_at(at),
        serial,
        bytes,
    })
}

// Says a batch that was read on the way where it is shipped from a serial on, and answers how far this comes.
fn say_record<D: Desk>(
    alloc: Global,
    desk: &mut D,
    from: u64,
    way: Way,
    batch: &Batch,
    next: u64,
) -> Result<Way, ShipFault>
    requires { IsBatch batch.now }
    ensures ships { (place : ℕ) → way.sequence ≡ place % 2 ^ 32
        → ShipsFrames D.seen D.stopped desk.old desk.new (fault_of result) (frames_if from place (shipment_of way batch.now)) }
    ensures on { IfOk result (λ w. (w.at ≡ next) × (w.serial ≡ serial_after way.serial batch.now)) }
    ensures sequence { IfOk result (λ w. (place : ℕ) → way.sequence ≡ place % 2 ^ 32
        → w.sequence ≡ (place + length (frames_if from place (shipment_of way batch.now))) % 2 ^ 32) }
    ensures fault { IfErr result IsUndamaged }
{
    let serial = serial_after(way.serial, batch.as_slice());
    if serial < from {
        return Ok(Way {
            at: next,
            serial,
            sequence: way.sequence,
        });
    }
    let shipment = shipment_of(alloc, way.at, serial, batch)?;
    let sequence = say_pieces(alloc, desk, &shipment, way.sequence)?;
    Ok(Way {
        at: next,
        serial,
        sequence,
    })
}

// The batch behind an open gate of the slot of a store, and the place of the next gate.
fn record_at<D: Desk>(desk: &mut D, store: &Store, at: u64) -> Result<(Batch, u64), ShipFault>
    requires gate { IsTrue D.tells → IsGateOf store.now (D.seen desk.old).reads at }
    requires within { at < store.now.end }
    ensures found { IfOk result (λ found. IsTrue D.tells → IsBatchAt ((D.seen desk.old).reads store.now.part) at found.0 found.1) }
    ensures batch { IfOk result (λ found. IsBatch found.0) }
    ensures further { IfOk result (λ found. at < found.1) }
    ensures fault { IfErr result (λ fault. IsTrue D.tells → IsUndamaged fault) }
    ensures unwritten { IsErrOf result ShipFault.Write → ⊥ }
    ensures cause { HasCause (D.seen desk.old).disk_faults (D.seen desk.new).disk_faults (disk_failure (fault_of result)) }
    ensures reads { OnlyReads D.seen D.stopped desk.old desk.new }
{
    let (part, _) = store.end();
    match store.batch_at(desk, at) {
        Ok(Some(found)) => Ok(found),
        Ok(None) => Err(ShipFault::Damaged { part, at }),
        Err(fault) => Err(of_store(fault)),
    }
}

/// Ships the record behind the next gate, where it has the serial from which on is shipped or a later one, and answers how far this comes.
pub(crate) fn pass_record<D: Desk>(
    alloc: Global,
    desk: &mut D,
    store: &Store,
    from: u64,
    way: Way,
) -> Result<Way, ShipFault>
    requires some { IsTrue D.tells → 0 < store.now.mark }
    requires kept { IsTrue D.tells → IsStoreOf (D.seen desk.old).reads store.now }
    requires format { store.now.format ≡ Two }
    requires within { way.at < store.now.end }
    requires told { IsTrue D.tells → (frames : List Frame) × IsOnItsWay (D.seen desk.old).reads from way frames }
    ensures passes { (frames : List Frame) → way.sequence ≡ length frames % 2 ^ 32 → Passes D.tells D.seen D.stopped (leg_of from way frames) desk.old desk.new result }
    ensures further { IfOk result (λ next. way.at < next.at) }
    ensures fault { IfErr result (λ fault. IsTrue D.tells → IsUndamaged fault) }
{
    let (batch, next) = record_at(desk, store, way.at)?;
    say_record(alloc, desk, from, way, &batch, next)
}
