ghost use Rattle.std.specs.Prelude.{◌≡◌, ◌⊎◌, ⊤, false, true, ℕ, List, [], IsTrue, IfOk, IfErr};
ghost use Rattle.ziti_outside.specs.Causes.{HasCause};
ghost use Rattle.ziti_outside.specs.Moments.{Remembers, Leaves};
ghost use Rattle.ziti_outside.specs.Untouched.{OnlyDisk};
ghost use Rattle.ctrl_model.specs.declared.formats.Format.TheVariants as formats;
ghost use Rattle.journal_core.specs.Room.{HoldsRoom};
ghost use Rattle.row_codec.specs.RowDifference.{IsTrueDifference};
ghost use Rattle.row_codec.specs.Batches.{bytes_cmp, entries_of, IsBatch};
ghost use Rattle.slot_reading.specs.BatchRows.{MayLead, rows_after};
ghost use Rattle.row_store.specs.AddedBatches.{AddsBatch};
ghost use Rattle.row_store.specs.OpenedRows.{OpensTo};
ghost use Rattle.row_store.specs.RewrittenStores.{IsRewritten};
ghost use Rattle.row_store.specs.StoredRows.{ReadsAs};
ghost use Rattle.follow_core.specs.declared.taken.Taken.TheVariants as takens;
ghost use Rattle.follow_core.specs.Faults.{disk_failure};
ghost use Rattle.slot_files.specs.FolderImage.{Stands};
ghost use Rattle.ship_frames.specs.declared.shipments.Sort.{Sort};
ghost use Rattle.follow_core.specs.Steps.{KeepsNot, KeepsSo, is_replaced, kept_behind, rows_under};

use crate::deciding::is_replaced;
use crate::faults::FollowFault;
use crate::taken::Taken;
use row_codec::Batch;
use row_store::{Store, StoreFault};
use ship_frames::Sort;
use ziti_outside::Desk;

// Adds a batch to the records of a store, where there is room.
fn add<D: Desk>(store: &mut Store, desk: &mut D, batch: &Batch) -> Result<Taken, FollowFault>
    requires opened { store.old.opened ≡ true }
    requires unspent { store.old.spent ≡ false }
    requires batch { IsBatch batch.now }
    requires changes { IsTrueDifference bytes_cmp store.old.rows (entries_of batch.now) }
    requires leads { MayLead store.old.format store.old.end store.old.rows (rows_after store.old.rows batch.now) }
    requires stands { IsTrue D.tells → ReadsAs store.old (D.seen desk.old).reads (D.stopped desk.old).images }

    ensures kept { (sort : Sort) → is_replaced sort store.old ≡ false → IfOk result (KeepsSo sort batch.now store.old store.new desk.old desk.new) }
    ensures added { IfOk result (λ taken. taken ≡ takens.Took → IsTrue D.tells → AddsBatch batch.now (D.seen desk.old).reads (D.seen desk.new).reads) }
    ensures fault { (sort : Sort) → is_replaced sort store.old ≡ false → IfErr result (KeepsNot sort batch.now store.old store.new desk.old desk.new) }
    ensures stands { store.new.spent ≡ false → IsTrue D.tells → ReadsAs store.new (D.seen desk.new).reads (D.stopped desk.new).images }
    ensures cause { HasCause (D.seen desk.old).disk_faults (D.seen desk.new).disk_faults (disk_failure result) }
    ensures others { OnlyDisk D.seen desk.old desk.new }
    ensures quiet { Leaves D.seen D.stopped desk.old desk.new (λ image. ⊤) }
    ensures stops { IsTrue D.tells → Leaves D.seen D.stopped desk.old desk.new
        (λ image. OpensTo store.old.format image store.old.rows ⊎ OpensTo store.old.format image (rows_after store.old.rows batch.now)) }
    ensures remembers { Remembers (D.stopped desk.old) (D.stopped desk.new) }
    ensures room { HoldsRoom D.tells store.old.bounds.slot D.seen D.stopped desk.old desk.new }
{
    match store.commit(desk, batch) {
        Ok(()) => Ok(Taken::Took),
        Err(StoreFault::Full) => Ok(Taken::Full),
        Err(StoreFault::Disk) => Err(FollowFault::Disk),
        Err(StoreFault::NoMemory) => Err(FollowFault::NoMemory),
        Err(_) => Err(FollowFault::Spent),
    }
}

// Gives a store the rows that a batch puts where none were in place of its own, where there is room.
fn put_in_place<D: Desk>(
    store: &mut Store,
    desk: &mut D,
    batch: &Batch,
) -> Result<Taken, FollowFault>
    requires opened { store.old.opened ≡ true }
    requires unspent { store.old.spent ≡ false }
    requires batch { IsBatch batch.now }
    requires changes { IsTrueDifference bytes_cmp [] (entries_of batch.now) }
    requires stands { IsTrue D.tells → ReadsAs store.old (D.seen desk.old).reads (D.stopped desk.old).images }

    ensures kept { (sort : Sort) → is_replaced sort store.old ≡ true → IfOk result (KeepsSo sort batch.now store.old store.new desk.old desk.new) }
    ensures folder { IfOk result (λ taken. taken ≡ takens.Took → IsTrue D.tells
        → IsRewritten formats.Two (rows_after [] batch.now) store.old (D.seen desk.old).reads (D.seen desk.new).reads) }
    ensures fault { (sort : Sort) → is_replaced sort store.old ≡ true → IfErr result (KeepsNot sort batch.now store.old store.new desk.old desk.new) }
    ensures stands { store.new.spent ≡ false → IsTrue D.tells → ReadsAs store.new (D.seen desk.new).reads (D.stopped desk.new).images }
    ensures cause { HasCause (D.seen desk.old).disk_faults (D.seen desk.new).disk_faults (disk_failure result) }
    ensures others { OnlyDisk D.seen desk.old desk.new }
    ensures quiet { Leaves D.seen D.stopped desk.old desk.new (λ image. ⊤) }
    ensures stops { IsTrue D.tells → Leaves D.seen D.stopped desk.old desk.new
        (λ image. OpensTo store.old.format image store.old.rows ⊎ OpensTo formats.Two image (rows_after [] batch.now)) }
    ensures remembers { Remembers (D.stopped desk.old) (D.stopped desk.new) }
    ensures room { HoldsRoom D.tells store.old.bounds.slot D.seen D.stopped desk.old desk.new }
{
    match store.replace(desk, batch) {
        Ok(()) => Ok(Taken::Took),
        Err(StoreFault::Full) => Ok(Taken::Full),
        Err(StoreFault::MarkFull) => Ok(Taken::MarkFull),
        Err(StoreFault::Disk) => Err(FollowFault::Disk),
        Err(StoreFault::NoMemory) => Err(FollowFault::NoMemory),
        Err(_) => Err(FollowFault::Spent),
    }
}

/// Keeps a batch that leads on, where there is room: a Whole in place of records, and any other behind those that there are.
pub(crate) fn keep<D: Desk>(
    store: &mut Store,
    desk: &mut D,
    sort: Sort,
    batch: &Batch,
) -> Result<Taken, FollowFault>
    requires opened { store.old.opened ≡ true }
    requires unspent { store.old.spent ≡ false }
    requires format { store.old.format ≡ formats.Two }
    requires batch { IsBatch batch.now }
    requires changes { IsTrueDifference bytes_cmp (rows_under sort store.old) (entries_of batch.now) }
    requires leads { is_replaced sort store.old ≡ false → MayLead store.old.format store.old.end store.old.rows (rows_after store.old.rows batch.now) }
    requires stands { IsTrue D.tells → ReadsAs store.old (D.seen desk.old).reads (D.stopped desk.old).images }

    ensures kept { IfOk result (KeepsSo sort batch.now store.old store.new desk.old desk.new) }
    ensures folder { IfOk result (λ taken. taken ≡ takens.Took → IsTrue D.tells → (records : List (List ℕ)) → Stands formats.Two (D.seen desk.old).reads records
        → Stands formats.Two (D.seen desk.new).reads (kept_behind sort batch.now store.old records)) }
    ensures fault { IfErr result (KeepsNot sort batch.now store.old store.new desk.old desk.new) }
    ensures stands { store.new.spent ≡ false → IsTrue D.tells → ReadsAs store.new (D.seen desk.new).reads (D.stopped desk.new).images }
    ensures cause { HasCause (D.seen desk.old).disk_faults (D.seen desk.new).disk_faults (disk_failure result) }
    ensures others { OnlyDisk D.seen desk.old desk.new }
    ensures quiet { Leaves D.seen D.stopped desk.old desk.new (λ image. ⊤) }
    ensures stops { IsTrue D.tells → Leaves D.seen D.stopped desk.old desk.new
        (λ image. OpensTo formats.Two image store.old.rows ⊎ OpensTo formats.Two image (rows_after (rows_under sort store.old) batch.now)) }
    ensures remembers { Remembers (D.stopped desk.old) (D.stopped desk.new) }
    ensures room { HoldsRoom D.tells store.old.bounds.slot D.seen D.stopped desk.old desk.new }
{
    if is_replaced(sort, store) {
        put_in_place(store, desk, batch)
    } else {
        add(store, desk, batch)
    }
}
