ghost use Rattle.std.specs.Prelude.{cond, None, ◌≡◌, ◌≢◌, ◌⊎◌, ◌<◌, ◌^◌, ⊤, true, false, ℕ, List, length, IsTrue, OnOk, IfOk, IfErr, IfSome};
ghost use Rattle.std.specs.declared.option.Option.{Option};
ghost use Rattle.ziti_outside.specs.Causes.{HasCause};
ghost use Rattle.ziti_outside.specs.Moments.{Remembers, Leaves};
ghost use Rattle.ziti_outside.specs.Untouched.{OnlyDisk, OnlyReads};
ghost use Rattle.ctrl_model.specs.declared.formats.Format.TheVariants as formats;
ghost use Rattle.ship_frames.specs.GatheredPieces.{Parts};
ghost use Rattle.journal_core.specs.Room.{HoldsRoom};
ghost use Rattle.slot_files.specs.FolderImage.{Stands};
ghost use Rattle.row_codec.specs.Batches.{Spells};
ghost use Rattle.row_store.specs.OpenedRows.{OpensTo};
ghost use Rattle.row_store.specs.StoredRows.{ReadsAs};
ghost use Rattle.follow_core.specs.declared.taken.Taken.TheVariants as takens;
ghost use Rattle.follow_core.specs.BatchBytes.{batch_in};
ghost use Rattle.follow_core.specs.Faults.{disk_failure, ReceiveFails};
ghost use Rattle.follow_core.specs.FollowedCopies.{AreSoughtIn, HoldsState, serial_in_store};
ghost use Rattle.follow_core.specs.Following.{is_no_whole};
ghost use Rattle.follow_core.specs.Steps.{LeadsOn, comes_early, comes_late};
ghost use Rattle.follow_core.specs.TakenFrames.{IsReceived, OpensToSome, copy_behind_batch};

use crate::deciding::{answered, is_replaced};
use crate::faults::FollowFault;
use crate::keeping::keep;
use crate::sought::Sought;
use crate::taken::Taken;
use batch_codec::read_batch;
use row_codec::{Batch, RowFault};
use row_store::Store;
use ship_frames::Shipment;
use std::alloc::{AllocError, Global};
use ziti_outside::Desk;

// The batch that bytes spell, if they spell one.
fn batch_in(alloc: Global, bytes: &[u8]) -> Result<Option<Batch>, AllocError>
    ensures found { IfOk result (λ batch. batch ≡ batch_in bytes.now) }
    ensures spells { IfOk result (λ batch. IfSome batch (Spells bytes.now)) }
{
    match read_batch(alloc, bytes) {
        Ok(batch) => Ok(Some(batch)),
        Err(RowFault::BadBatch) => Ok(None),
        Err(RowFault::BadRow) => Ok(None),
        Err(RowFault::NoMemory) => Err(AllocError),
    }
}

// Where kept records are sought behind a batch that takes their place, or comes behind them.
fn still_sought(sought: Option<Sought>, replaced: bool) -> Option<Sought>
    ensures { result ≡ cond replaced None sought }
{
    if replaced { None } else { sought }
}

// Keeps a batch that was found to lead on.
fn keep_on<D: Desk>(
    desk: &mut D,
    store: &mut Store,
    sought: &mut Option<Sought>,
    shipment: &Shipment,
    batch: &Batch,
) -> Result<Taken, FollowFault>
    requires opened { store.old.opened ≡ true }
    requires unspent { store.old.spent ≡ false }
    requires holds { HoldsState store.old }
    requires spells { Spells shipment.now.bytes batch.now }
    requires whole { is_no_whole shipment.now batch.now ≡ false }
    requires late { comes_late shipment.now store.old ≡ false }
    requires early { comes_early shipment.now store.old ≡ false }
    requires leads { LeadsOn shipment.now batch.now store.old }
    requires stands { IsTrue D.tells → ReadsAs store.old (D.seen desk.old).reads (D.stopped desk.old).images }
    requires sought { IsTrue D.tells → (records : List (List ℕ)) → Stands formats.Two (D.seen desk.old).reads records → AreSoughtIn records (serial_in_store store.old) sought.old }

    ensures received { IfOk result (λ taken. IsTrue D.tells → (records : List (List ℕ)) (parts : Option Parts) → Stands formats.Two (D.seen desk.old).reads records
        → IsReceived shipment.now records parts store.old store.new (D.seen desk.new).reads taken) }
    ensures still { IfOk result (λ taken. taken ≢ takens.Took → (store.new ≡ store.old) × OnlyReads D.seen D.stopped desk.old desk.new) }
    ensures unspent { OnOk result ((store.new.spent ≡ false) × (store.new.bounds ≡ store.old.bounds)) }
    ensures opened { store.new.spent ≡ false → store.new.opened ≡ true }
    ensures holds { store.new.spent ≡ false → HoldsState store.new }
    ensures fault { IfErr result (ReceiveFails store.old store.new) }
    ensures stands { store.new.spent ≡ false → IsTrue D.tells → ReadsAs store.new (D.seen desk.new).reads (D.stopped desk.new).images }
    ensures sought { store.new.spent ≡ false → IsTrue D.tells → (records : List (List ℕ)) → Stands formats.Two (D.seen desk.new).reads records
        → AreSoughtIn records (serial_in_store store.new) sought.new }
    ensures cause { HasCause (D.seen desk.old).disk_faults (D.seen desk.new).disk_faults (disk_failure result) }
    ensures others { OnlyDisk D.seen desk.old desk.new }
    ensures quiet { Leaves D.seen D.stopped desk.old desk.new (λ image. ⊤) }
    ensures stops { IsTrue D.tells → (records : List (List ℕ)) (parts : Option Parts) → Stands formats.Two (D.seen desk.old).reads records
        → Leaves D.seen D.stopped desk.old desk.new
        (λ image. OpensTo formats.Two image store.old.rows ⊎ OpensTo formats.Two image (copy_behind_batch shipment.now records store.old parts).rows) }
    ensures opens { IsTrue D.tells → Leaves D.seen D.stopped desk.old desk.new OpensToSome }
    ensures remembers { Remembers (D.stopped desk.old) (D.stopped desk.new) }
    ensures room { HoldsRoom D.tells store.old.bounds.slot D.seen D.stopped desk.old desk.new }
{
    *sought = still_sought(*sought, is_replaced(shipment.sort, store));
    keep(store, desk, shipment.sort, batch)
}

/// Takes a batch once it is whole.
pub(crate) fn receive<D: Desk>(
    alloc: Global,
    desk: &mut D,
    store: &mut Store,
    sought: &mut Option<Sought>,
    shipment: &Shipment,
) -> Result<Taken, FollowFault>
    requires opened { store.old.opened ≡ true }
    requires unspent { store.old.spent ≡ false }
    requires holds { HoldsState store.old }
    requires short { length shipment.now.bytes < 2 ^ 32 }
    requires stands { IsTrue D.tells → ReadsAs store.old (D.seen desk.old).reads (D.stopped desk.old).images }
    requires sought { IsTrue D.tells → (records : List (List ℕ)) → Stands formats.Two (D.seen desk.old).reads records → AreSoughtIn records (serial_in_store store.old) sought.old }

    ensures received { IfOk result (λ taken. IsTrue D.tells → (records : List (List ℕ)) (parts : Option Parts) → Stands formats.Two (D.seen desk.old).reads records
        → IsReceived shipment.now records parts store.old store.new (D.seen desk.new).reads taken) }
    ensures still { IfOk result (λ taken. taken ≢ takens.Took → (store.new ≡ store.old) × OnlyReads D.seen D.stopped desk.old desk.new) }
    ensures unspent { OnOk result ((store.new.spent ≡ false) × (store.new.bounds ≡ store.old.bounds)) }
    ensures opened { store.new.spent ≡ false → store.new.opened ≡ true }
    ensures holds { store.new.spent ≡ false → HoldsState store.new }
    ensures fault { IfErr result (ReceiveFails store.old store.new) }
    ensures stands { store.new.spent ≡ false → IsTrue D.tells → ReadsAs store.new (D.seen desk.new).reads (D.stopped desk.new).images }
    ensures sought { store.new.spent ≡ false → IsTrue D.tells → (records : List (List ℕ)) → Stands formats.Two (D.seen desk.new).reads records
        → AreSoughtIn records (serial_in_store store.new) sought.new }
    ensures cause { HasCause (D.seen desk.old).disk_faults (D.seen desk.new).disk_faults (disk_failure result) }
    ensures others { OnlyDisk D.seen desk.old desk.new }
    ensures quiet { Leaves D.seen D.stopped desk.old desk.new (λ image. ⊤) }
    ensures stops { IsTrue D.tells → (records : List (List ℕ)) (parts : Option Parts) → Stands formats.Two (D.seen desk.old).reads records
        → Leaves D.seen D.stopped desk.old desk.new
        (λ image. OpensTo formats.Two image store.old.rows ⊎ OpensTo formats.Two image (copy_behind_batch shipment.now records store.old parts).rows) }
    ensures opens { IsTrue D.tells → Leaves D.seen D.stopped desk.old desk.new OpensToSome }
    ensures remembers { Remembers (D.stopped desk.old) (D.stopped desk.new) }
    ensures room { HoldsRoom D.tells store.old.bounds.slot D.seen D.stopped desk.old desk.new }
{
    let Some(batch) = batch_in(alloc, shipment.bytes.as_slice())? else {
        return Ok(Taken::BadBatch);
    };
    let answer = answered(alloc, desk, store, sought, shipment, &batch)?;
    match answer {
        Some(taken) => Ok(taken),
        None => keep_on(desk, store, sought, shipment, &batch),
    }
}
