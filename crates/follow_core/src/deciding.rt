ghost use Rattle.std.specs.Prelude.{◌≡◌, ◌<◌, ◌^◌, true, false, ℕ, List, length, IsTrue, IfOk, IfErr};
ghost use Rattle.std.specs.declared.option.Option.{Option};
ghost use Rattle.ziti_outside.specs.Causes.{HasCause};
ghost use Rattle.ziti_outside.specs.Untouched.{OnlyReads};
ghost use Rattle.ctrl_model.specs.declared.formats.Format.TheVariants as formats;
ghost use Rattle.slot_files.specs.FolderImage.{Stands};
ghost use Rattle.row_codec.specs.RowDifference.{Rises};
ghost use Rattle.row_codec.specs.Batches.{IsBatch, bytes_cmp};
ghost use Rattle.row_store.specs.StoredRows.{IsStoreOf};
ghost use Rattle.follow_core.specs.Faults.{disk_failure, IsReadFault};
ghost use Rattle.follow_core.specs.FollowedCopies.{serial_in_store, AreSoughtIn};
ghost use Rattle.follow_core.specs.Following.{beside, is_no_whole, is_whole, kept_of};
ghost use Rattle.follow_core.specs.Steps.{AnswersSo, LeadsOn, comes_early, comes_late, is_begun, is_replaced};

use crate::comparing::beside;
use crate::faults::FollowFault;
use crate::judging::{are_of_serial, is_true_difference, is_whole_of, own_serial, rows_behind};
use crate::seeking::kept_of;
use crate::sought::Sought;
use crate::taken::Taken;
use journal_core::HEADER_LEN;
use row_codec::Batch;
use row_store::Store;
use ship_frames::{Shipment, Sort};
use std::alloc::{AllocError, Global};
use ziti_outside::Desk;

/// Whether a batch is a Whole.
pub(crate) fn is_whole(sort: Sort) -> bool
    ensures { result ≡ is_whole sort }
{
    match sort {
        Sort::Whole => true,
        Sort::Next => false,
    }
}

/// Whether the slot of a store has a record.
pub(crate) fn is_begun(store: &Store) -> bool
    ensures { result ≡ is_begun store.now }
{
    let (_, end) = store.end();
    end != HEADER_LEN
}

/// Whether a batch of a sort takes the place of records.
pub(crate) fn is_replaced(sort: Sort, store: &Store) -> bool
    ensures { result ≡ is_replaced sort store.now }
{
    is_whole(sort) && is_begun(store)
}

// Whether a batch is a Whole that is no true difference of no rows, or gives another serial.
fn is_no_whole(alloc: Global, shipment: &Shipment, ops: &Batch) -> Result<bool, AllocError>
    ensures { IfOk result (λ bad. bad ≡ is_no_whole shipment.now ops.now) }
{
    if !is_whole(shipment.sort) {
        return Ok(false);
    }
    let whole = is_whole_of(alloc, shipment.serial, ops.as_slice())?;
    Ok(!whole)
}

// Whether a batch comes no later than the last one that the store keeps.
fn comes_late(shipment: &Shipment, store: &Store) -> bool
    ensures { result ≡ comes_late shipment.now store.now }
{
    is_begun(store) && shipment.serial <= own_serial(store)
}

// Whether a batch is a Next of rows that the store has not.
fn comes_early(shipment: &Shipment, store: &Store) -> bool
    ensures { result ≡ comes_early shipment.now store.now }
{
    if is_whole(shipment.sort) {
        return false;
    }
    if !is_begun(store) {
        return true;
    }
    let own = own_serial(store);
    own < shipment.serial && shipment.serial - own > 1
}

// Whether a batch leads to no state of its serial.
fn goes_nowhere(
    alloc: Global,
    shipment: &Shipment,
    ops: &Batch,
    store: &Store,
) -> Result<bool, AllocError>
    requires whole { is_no_whole shipment.now ops.now ≡ false }
    requires batch { IsBatch ops.now }
    requires rises { Rises bytes_cmp store.now.rows }
    ensures on { IfOk result (λ nowhere. nowhere ≡ false → LeadsOn shipment.now ops.now store.now) }
    ensures nowhere { IfOk result (λ nowhere. nowhere ≡ true → LeadsOn shipment.now ops.now store.now → ⊥) }
{
    if is_replaced(shipment.sort, store) {
        let of_serial = are_of_serial(alloc, shipment.serial, ops)?;
        return Ok(!of_serial);
    }
    if !is_true_difference(store, ops.as_slice()) {
        return Ok(true);
    }
    let rows = rows_behind(alloc, store, ops.as_slice())?;
    let of_serial = are_of_serial(alloc, shipment.serial, &rows)?;
    Ok(!of_serial)
}

// What a batch is beside the kept one of its sort and serial.
fn beside_kept<D: Desk>(
    alloc: Global,
    desk: &mut D,
    store: &Store,
    sought: &mut Option<Sought>,
    shipment: &Shipment,
) -> Result<Taken, FollowFault>
    requires some { IsTrue D.tells → 0 < store.now.mark }
    requires kept { IsTrue D.tells → IsStoreOf (D.seen desk.old).reads store.now }
    requires format { store.now.format ≡ formats.Two }
    requires late { comes_late shipment.now store.now ≡ true }
    requires short { length shipment.now.bytes < 2 ^ 32 }
    requires sought { IsTrue D.tells → (records : List (List ℕ)) → Stands formats.Two (D.seen desk.old).reads records → AreSoughtIn records (serial_in_store store.now) sought.old }
    ensures beside { IfOk result (λ taken. (kept : Option (List ℕ)) × (taken ≡ beside shipment.now kept)
        × (IsTrue D.tells → (records : List (List ℕ)) → Stands formats.Two (D.seen desk.old).reads records
        → kept ≡ kept_of shipment.now.sort shipment.now.serial (serial_in_store store.now) records)) }
    ensures sought { IsTrue D.tells → (records : List (List ℕ)) → Stands formats.Two (D.seen desk.old).reads records → AreSoughtIn records (serial_in_store store.now) sought.new }
    ensures fault { IfErr result IsReadFault }
    ensures cause { HasCause (D.seen desk.old).disk_faults (D.seen desk.new).disk_faults (disk_failure result) }
    ensures reads { OnlyReads D.seen D.stopped desk.old desk.new }
{
    let kept = kept_of(alloc, desk, store, sought, shipment.sort, shipment.serial)?;
    let taken = beside(alloc, shipment, kept)?;
    Ok(taken)
}

/// Why a batch is not kept, or none where it is to be.
pub(crate) fn answered<D: Desk>(
    alloc: Global,
    desk: &mut D,
    store: &Store,
    sought: &mut Option<Sought>,
    shipment: &Shipment,
    ops: &Batch,
) -> Result<Option<Taken>, FollowFault>
    requires some { IsTrue D.tells → 0 < store.now.mark }
    requires kept { IsTrue D.tells → IsStoreOf (D.seen desk.old).reads store.now }
    requires format { store.now.format ≡ formats.Two }
    requires short { length shipment.now.bytes < 2 ^ 32 }
    requires batch { IsBatch ops.now }
    requires rises { Rises bytes_cmp store.now.rows }
    requires sought { IsTrue D.tells → (records : List (List ℕ)) → Stands formats.Two (D.seen desk.old).reads records → AreSoughtIn records (serial_in_store store.now) sought.old }
    ensures answers { IfOk result (AnswersSo shipment.now ops.now store.now
        (λ kept. IsTrue D.tells → (records : List (List ℕ)) → Stands formats.Two (D.seen desk.old).reads records
        → kept ≡ kept_of shipment.now.sort shipment.now.serial (serial_in_store store.now) records)) }
    ensures sought { IsTrue D.tells → (records : List (List ℕ)) → Stands formats.Two (D.seen desk.old).reads records → AreSoughtIn records (serial_in_store store.now) sought.new }
    ensures fault { IfErr result IsReadFault }
    ensures cause { HasCause (D.seen desk.old).disk_faults (D.seen desk.new).disk_faults (disk_failure result) }
    ensures reads { OnlyReads D.seen D.stopped desk.old desk.new }
{
    let bad = is_no_whole(alloc, shipment, ops)?;
    if bad {
        return Ok(Some(Taken::BadBatch));
    }
    if comes_late(shipment, store) {
        let taken = beside_kept(alloc, desk, store, sought, shipment)?;
        return Ok(Some(taken));
    }
    if comes_early(shipment, store) {
        return Ok(Some(Taken::Ahead));
    }
    let nowhere = goes_nowhere(alloc, shipment, ops, store)?;
    if nowhere {
        return Ok(Some(Taken::BadBatch));
    }
    Ok(None)
}
