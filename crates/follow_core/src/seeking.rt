ghost use Rattle.std.specs.Prelude.{◌≡◌, ◌+◌, ◌<◌, ◌≤◌, ℕ, List, [], ◌∷◌, IsTrue, IfOk, IfErr, IfSome, IsSome};
ghost use Rattle.std.specs.Option.{option_map};
ghost use Rattle.ziti_outside.specs.Causes.{HasCause};
ghost use Rattle.ziti_outside.specs.Untouched.{OnlyReads};
ghost use Rattle.ctrl_model.specs.declared.formats.Format.TheVariants as formats;
ghost use Rattle.slot_files.specs.FolderImage.{Stands};
ghost use Rattle.row_codec.specs.Batches.{batch_bytes, IsBatch};
ghost use Rattle.row_store.specs.StoredRows.{IsStoreOf};
ghost use Rattle.row_store.specs.GateBatches.{IsGateOf, GateHas};
ghost use Rattle.ship_frames.specs.declared.shipments.Sort.TheVariants as sorts;
ghost use Rattle.follow_core.specs.Faults.{disk_failure, IsReadFault};
ghost use Rattle.follow_core.specs.FollowedCopies.{serial_in_store, AreSoughtIn, IsSoughtIn};
ghost use Rattle.follow_core.specs.Following.{kept_of};

use crate::faults::FollowFault;
use crate::judging::serial_after;
use crate::sought::Sought;
use journal_core::HEADER_LEN;
use row_codec::Batch;
use row_store::{Store, StoreFault};
use ship_frames::Sort;
use std::alloc::Global;
use ziti_outside::Desk;

// The batch behind a gate of the slot of a store, and the place of the next gate; none at the closed gate. Of a folder that is not told none comes also
// where no batch stands there.
fn record_at<D: Desk>(
    desk: &mut D,
    store: &Store,
    at: u64,
) -> Result<Option<(Batch, u64)>, FollowFault>
    requires gate { IsTrue D.tells → IsGateOf store.now (D.seen desk.old).reads at }
    ensures found { IfOk result (λ found. IsTrue D.tells → GateHas store.now (D.seen desk.old).reads at found) }
    ensures batch { IfOk result (λ found. IfSome found (λ x. IsBatch x.0)) }
    ensures fault { IfErr result IsReadFault }
    ensures cause { HasCause (D.seen desk.old).disk_faults (D.seen desk.new).disk_faults (disk_failure result) }
    ensures reads { OnlyReads D.seen D.stopped desk.old desk.new }
{
    match store.batch_at(desk, at) {
        Ok(found) => Ok(found),
        Err(StoreFault::Damaged { .. }) => Ok(None),
        Err(StoreFault::Disk) => Err(FollowFault::Disk),
        Err(_) => Err(FollowFault::NoMemory),
    }
}

// Where kept records are sought behind the first one.
fn behind_first<D: Desk>(
    alloc: Global,
    desk: &mut D,
    store: &Store,
) -> Result<Option<Sought>, FollowFault>
    requires some { IsTrue D.tells → 0 < store.now.mark }
    requires kept { IsTrue D.tells → IsStoreOf (D.seen desk.old).reads store.now }
    requires format { store.now.format ≡ formats.Two }
    requires begun { store.now.end ≡ 8 → ⊥ }
    ensures sought { IfOk result (λ found. IsTrue D.tells → (records : List (List ℕ)) → Stands formats.Two (D.seen desk.old).reads records
        → IsSome found × AreSoughtIn records (serial_in_store store.now) found) }
    ensures fault { IfErr result IsReadFault }
    ensures cause { HasCause (D.seen desk.old).disk_faults (D.seen desk.new).disk_faults (disk_failure result) }
    ensures reads { OnlyReads D.seen D.stopped desk.old desk.new }
{
    let Some((batch, next)) = record_at(desk, store, HEADER_LEN)? else {
        return Ok(None);
    };
    let serial = serial_after(alloc, batch.as_slice())?.unwrap_or(0);
    Ok(Some(Sought {
        first: serial,
        second: next,
        at: next,
        serial,
    }))
}

// Passes kept records up to that of a serial, and tells where it is sought.
fn pass_to<D: Desk>(
    desk: &mut D,
    store: &Store,
    sought: Sought,
    serial: u64,
) -> Result<Option<Sought>, FollowFault>
    requires some { IsTrue D.tells → 0 < store.now.mark }
    requires kept { IsTrue D.tells → IsStoreOf (D.seen desk.old).reads store.now }
    requires format { store.now.format ≡ formats.Two }
    requires below { sought.serial < serial }
    requires own { serial ≤ serial_in_store store.now }
    requires sought { IsTrue D.tells → (records : List (List ℕ)) → Stands formats.Two (D.seen desk.old).reads records → IsSoughtIn records (serial_in_store store.now) sought }
    ensures passed { IfOk result (λ found. IfSome found (λ s. s.serial + 1 ≡ serial)) }
    ensures sought { IfOk result (λ found. IsTrue D.tells → (records : List (List ℕ)) → Stands formats.Two (D.seen desk.old).reads records
        → IsSome found × AreSoughtIn records (serial_in_store store.now) found) }
    ensures fault { IfErr result IsReadFault }
    ensures cause { HasCause (D.seen desk.old).disk_faults (D.seen desk.new).disk_faults (disk_failure result) }
    ensures reads { OnlyReads D.seen D.stopped desk.old desk.new }
{
    let mut sought = sought;
    'records: while sought.serial + 1 < serial {
        let Some((batch, next)) = record_at(desk, store, sought.at)? else {
            return Ok(None);
        };
        drop(batch);
        sought = Sought {
            first: sought.first,
            second: sought.second,
            at: next,
            serial: sought.serial + 1,
        };
    }
    Ok(Some(sought))
}

// The first record of a slot, where it has a serial.
fn kept_whole<D: Desk>(
    desk: &mut D,
    store: &Store,
    sought: Sought,
    serial: u64,
) -> Result<Option<Batch>, FollowFault>
    requires some { IsTrue D.tells → 0 < store.now.mark }
    requires kept { IsTrue D.tells → IsStoreOf (D.seen desk.old).reads store.now }
    requires format { store.now.format ≡ formats.Two }
    requires sought { IsTrue D.tells → (records : List (List ℕ)) → Stands formats.Two (D.seen desk.old).reads records → IsSoughtIn records (serial_in_store store.now) sought }
    ensures found { IfOk result (λ found. IsTrue D.tells → (records : List (List ℕ)) → Stands formats.Two (D.seen desk.old).reads records
        → option_map batch_bytes found ≡ kept_of sorts.Whole serial (serial_in_store store.now) records) }
    ensures batch { IfOk result (λ found. IfSome found IsBatch) }
    ensures fault { IfErr result IsReadFault }
    ensures cause { HasCause (D.seen desk.old).disk_faults (D.seen desk.new).disk_faults (disk_failure result) }
    ensures reads { OnlyReads D.seen D.stopped desk.old desk.new }
{
    if serial != sought.first {
        return Ok(None);
    }
    match record_at(desk, store, HEADER_LEN)? {
        None => Ok(None),
        Some((batch, _)) => Ok(Some(batch)),
    }
}

// A later record of a serial, and where the one behind it is sought.
fn kept_next<D: Desk>(
    desk: &mut D,
    store: &Store,
    sought: Sought,
    serial: u64,
) -> Result<Option<(Batch, Sought)>, FollowFault>
    requires some { IsTrue D.tells → 0 < store.now.mark }
    requires kept { IsTrue D.tells → IsStoreOf (D.seen desk.old).reads store.now }
    requires format { store.now.format ≡ formats.Two }
    requires below { sought.serial < serial }
    requires own { serial ≤ serial_in_store store.now }
    requires sought { IsTrue D.tells → (records : List (List ℕ)) → Stands formats.Two (D.seen desk.old).reads records → IsSoughtIn records (serial_in_store store.now) sought }
    ensures found { IfOk result (λ found. IsTrue D.tells → (records : List (List ℕ)) → Stands formats.Two (D.seen desk.old).reads records
        → option_map (λ x. batch_bytes x.0) found ≡ kept_of sorts.Next serial (serial_in_store store.now) records) }
    ensures sought { IfOk result (λ found. IsTrue D.tells → (records : List (List ℕ)) → Stands formats.Two (D.seen desk.old).reads records
        → IfSome found (λ x. IsSoughtIn records (serial_in_store store.now) x.1)) }
    ensures batch { IfOk result (λ found. IfSome found (λ x. IsBatch x.0)) }
    ensures fault { IfErr result IsReadFault }
    ensures cause { HasCause (D.seen desk.old).disk_faults (D.seen desk.new).disk_faults (disk_failure result) }
    ensures reads { OnlyReads D.seen D.stopped desk.old desk.new }
{
    let Some(before) = pass_to(desk, store, sought, serial)? else {
        return Ok(None);
    };
    let Some((batch, next)) = record_at(desk, store, before.at)? else {
        return Ok(None);
    };
    let behind = Sought {
        first: before.first,
        second: before.second,
        at: next,
        serial,
    };
    Ok(Some((batch, behind)))
}

// Where the record of a serial is sought: from the gate that is known on, or from that behind the first record where this one stands before.
fn start_for(sought: Sought, serial: u64) -> Sought
    requires { sought.first < serial }
    ensures below { result.serial < serial }
    ensures sought { (records : List (List ℕ)) (own : ℕ) → IsSoughtIn records own sought → IsSoughtIn records own result }
{
    if sought.serial < serial {
        sought
    } else {
        Sought {
            first: sought.first,
            second: sought.second,
            at: sought.second,
            serial: sought.first,
        }
    }
}

// A later record of a serial, sought from where it is known; then it is known where the one behind it is sought.
fn next_of<D: Desk>(
    desk: &mut D,
    store: &Store,
    sought: &mut Sought,
    serial: u64,
) -> Result<Option<Batch>, FollowFault>
    requires some { IsTrue D.tells → 0 < store.now.mark }
    requires kept { IsTrue D.tells → IsStoreOf (D.seen desk.old).reads store.now }
    requires format { store.now.format ≡ formats.Two }
    requires own { serial ≤ serial_in_store store.now }
    requires sought { IsTrue D.tells → (records : List (List ℕ)) → Stands formats.Two (D.seen desk.old).reads records → IsSoughtIn records (serial_in_store store.now) sought.old }
    ensures found { IfOk result (λ found. IsTrue D.tells → (records : List (List ℕ)) → Stands formats.Two (D.seen desk.old).reads records
        → option_map batch_bytes found ≡ kept_of sorts.Next serial (serial_in_store store.now) records) }
    ensures sought { IsTrue D.tells → (records : List (List ℕ)) → Stands formats.Two (D.seen desk.old).reads records → IsSoughtIn records (serial_in_store store.now) sought.new }
    ensures batch { IfOk result (λ found. IfSome found IsBatch) }
    ensures fault { IfErr result IsReadFault }
    ensures cause { HasCause (D.seen desk.old).disk_faults (D.seen desk.new).disk_faults (disk_failure result) }
    ensures reads { OnlyReads D.seen D.stopped desk.old desk.new }
{
    if serial <= sought.first {
        return Ok(None);
    }
    match kept_next(desk, store, start_for(*sought, serial), serial)? {
        None => Ok(None),
        Some((batch, behind)) => {
            *sought = behind;
            Ok(Some(batch))
        }
    }
}

// The kept record of a sort and a serial, sought from where it is known.
fn sought_of<D: Desk>(
    desk: &mut D,
    store: &Store,
    sought: &mut Sought,
    sort: Sort,
    serial: u64,
) -> Result<Option<Batch>, FollowFault>
    requires some { IsTrue D.tells → 0 < store.now.mark }
    requires kept { IsTrue D.tells → IsStoreOf (D.seen desk.old).reads store.now }
    requires format { store.now.format ≡ formats.Two }
    requires own { serial ≤ serial_in_store store.now }
    requires sought { IsTrue D.tells → (records : List (List ℕ)) → Stands formats.Two (D.seen desk.old).reads records → IsSoughtIn records (serial_in_store store.now) sought.old }
    ensures found { IfOk result (λ found. IsTrue D.tells → (records : List (List ℕ)) → Stands formats.Two (D.seen desk.old).reads records
        → option_map batch_bytes found ≡ kept_of sort serial (serial_in_store store.now) records) }
    ensures sought { IsTrue D.tells → (records : List (List ℕ)) → Stands formats.Two (D.seen desk.old).reads records → IsSoughtIn records (serial_in_store store.now) sought.new }
    ensures batch { IfOk result (λ found. IfSome found IsBatch) }
    ensures fault { IfErr result IsReadFault }
    ensures cause { HasCause (D.seen desk.old).disk_faults (D.seen desk.new).disk_faults (disk_failure result) }
    ensures reads { OnlyReads D.seen D.stopped desk.old desk.new }
{
    match sort {
        Sort::Whole => kept_whole(desk, store, *sought, serial),
        Sort::Next => next_of(desk, store, sought, serial),
    }
}

/// The kept record of a sort and a serial, if there is one, read alone of all. Of a folder that is not told none may come though there is one.
pub(crate) fn kept_of<D: Desk>(
    alloc: Global,
    desk: &mut D,
    store: &Store,
    sought: &mut Option<Sought>,
    sort: Sort,
    serial: u64,
) -> Result<Option<Batch>, FollowFault>
    requires some { IsTrue D.tells → 0 < store.now.mark }
    requires kept { IsTrue D.tells → IsStoreOf (D.seen desk.old).reads store.now }
    requires format { store.now.format ≡ formats.Two }
    requires begun { store.now.end ≡ 8 → ⊥ }
    requires own { serial ≤ serial_in_store store.now }
    requires sought { IsTrue D.tells → (records : List (List ℕ)) → Stands formats.Two (D.seen desk.old).reads records → AreSoughtIn records (serial_in_store store.now) sought.old }
    ensures found { IfOk result (λ found. IsTrue D.tells → (records : List (List ℕ)) → Stands formats.Two (D.seen desk.old).reads records
        → option_map batch_bytes found ≡ kept_of sort serial (serial_in_store store.now) records) }
    ensures sought { IsTrue D.tells → (records : List (List ℕ)) → Stands formats.Two (D.seen desk.old).reads records → AreSoughtIn records (serial_in_store store.now) sought.new }
    ensures batch { IfOk result (λ found. IfSome found IsBatch) }
    ensures fault { IfErr result IsReadFault }
    ensures cause { HasCause (D.seen desk.old).disk_faults (D.seen desk.new).disk_faults (disk_failure result) }
    ensures reads { OnlyReads D.seen D.stopped desk.old desk.new }
{
    let known = match *sought {
        Some(known) => Some(known),
        None => behind_first(alloc, desk, store)?,
    };
    let Some(mut known) = known else {
        return Ok(None);
    };
    let found = sought_of(desk, store, &mut known, sort, serial);
    *sought = Some(known);
    found
}
