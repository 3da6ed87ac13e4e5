ghost use Rattle.std.specs.Prelude.{◌≡◌, ◌⊎◌, ⊤, true, false, IsTrue, OnOk, IfOk, IfErr, IsErrOf};
ghost use Rattle.ziti_outside.specs.Causes.{HasCause};
ghost use Rattle.ziti_outside.specs.Images.{Image, Else};
ghost use Rattle.ziti_outside.specs.Moments.{Remembers, Leaves};
ghost use Rattle.ziti_outside.specs.Untouched.{OnlyDisk};
ghost use Rattle.journal_core.specs.Room.{HoldsRoom};
ghost use Rattle.row_codec.specs.RowDifference.{IsTrueDifference};
ghost use Rattle.row_codec.specs.Batches.{bytes_cmp, entries_of, IsBatch};
ghost use Rattle.row_store.specs.AddedBatches.{AddsBatch};
ghost use Rattle.slot_reading.specs.BatchRows.{MayLead, rows_after};
ghost use Rattle.row_store.specs.OpenedRows.{OpensTo};
ghost use Rattle.row_store.specs.StoredRows.{ReadsAs};
ghost use Rattle.row_store.specs.OpenedStates.{OpensToState};
ghost use Rattle.ctrl_keep.specs.KeptBatches.{Follows};
ghost use Rattle.ctrl_keep.specs.KeptController.{machine_with, made_of, Keeps, IsPlanned};
ghost use Rattle.ctrl_keep.specs.Faults.{disk_failure, KeptOrFull, KeepFails, AdvanceFails};

use crate::faults::KeepFault;
use ctrl_core::{Core, Planned};
use ctrl_model::{LAST_SERIAL, Refusal, Reply};
use row_codec::Batch;
use row_store::{Store, StoreFault};
use ziti_outside::Desk;

// Keeps a batch, and tells whether there was room for it.
fn keep<D: Desk>(store: &mut Store, desk: &mut D, batch: &Batch) -> Result<bool, KeepFault>
    requires opened { store.old.opened ≡ true }
    requires unspent { store.old.spent ≡ false }
    requires batch { IsBatch batch.now }
    requires changes { IsTrueDifference bytes_cmp store.old.rows (entries_of batch.now) }
    requires leads { MayLead store.old.format store.old.end store.old.rows (rows_after store.old.rows batch.now) }
    requires stands { IsTrue D.tells → ReadsAs store.old (D.seen desk.old).reads (D.stopped desk.old).images }

    ensures kept { IfOk result (λ kept. KeptOrFull batch.now store.old store.new desk.old desk.new kept) }
    ensures added { IfOk result (λ kept. kept ≡ true → IsTrue D.tells → AddsBatch batch.now (D.seen desk.old).reads (D.seen desk.new).reads) }
    ensures elsewhere { Else store.old.part (D.seen desk.old).reads (D.seen desk.new).reads }
    ensures fault { IfErr result (λ fault. KeepFails batch.now store.old store.new desk.old desk.new fault) }
    ensures stands { store.new.spent ≡ false → IsTrue D.tells → ReadsAs store.new (D.seen desk.new).reads (D.stopped desk.new).images }
    ensures behind { IsErrOf result KeepFault.NoMemory → store.new.spent ≡ true → IsTrue D.tells → (image : Image)
        → (D.stopped desk.new).images image → OpensTo store.old.format image (rows_after store.old.rows batch.now) }
    ensures cause { HasCause (D.seen desk.old).disk_faults (D.seen desk.new).disk_faults (disk_failure result) }
    ensures others { OnlyDisk D.seen desk.old desk.new }
    ensures quiet { Leaves D.seen D.stopped desk.old desk.new (λ image. ⊤) }
    ensures stops { IsTrue D.tells → Leaves D.seen D.stopped desk.old desk.new
        (λ image. OpensTo store.old.format image store.old.rows ⊎ OpensTo store.old.format image (rows_after store.old.rows batch.now)) }
    ensures remembers { Remembers (D.stopped desk.old) (D.stopped desk.new) }
    ensures room { HoldsRoom D.tells store.old.bounds.slot D.seen D.stopped desk.old desk.new }
{
    match store.commit(desk, batch) {
        Ok(()) => Ok(true),
        Err(StoreFault::Full) => Ok(false),
        Err(StoreFault::Disk) => Err(KeepFault::Disk),
        Err(StoreFault::NoMemory) => Err(KeepFault::NoMemory),
        Err(StoreFault::Damaged { part, at }) => Err(KeepFault::Damaged { part, at }),
        Err(StoreFault::MarkFull | StoreFault::Spent) => Err(KeepFault::Spent),
    }
}

// Keeps the batch of a plan, and then carries the plan out. A plan that changes no row is answered at once. One that does is refused at the
// last serial, or where its batch has no room.
pub(crate) fn advance<D: Desk>(
    core: &mut Core,
    store: &mut Store,
    spent: &mut bool,
    desk: &mut D,
    planned: Planned,
) -> Result<Reply, KeepFault>
    requires planned { IsPlanned planned core.old store.old }
    requires unspent { spent.old ≡ false }
    requires stands { IsTrue D.tells → ReadsAs store.old (D.seen desk.old).reads (D.stopped desk.old).images }

    ensures step { IfOk result (λ reply. (reply, machine_with core.new.state store.new) ≡ made_of planned core.old.state store.old) }
    ensures still { OnOk result (machine_with core.new.state store.new ≡ machine_with core.old.state store.old → desk.new ≡ desk.old) }
    ensures follows { OnOk result (IsTrue D.tells → Follows (machine_with core.old.state store.old) (machine_with core.new.state store.new) (D.seen desk.old).reads (D.seen desk.new).reads) }
    ensures unspent { OnOk result ((spent.new ≡ false) × (store.new.bounds ≡ store.old.bounds)) }
    ensures keeps { spent.new ≡ false → Keeps core.new store.new }
    ensures elsewhere { Else store.old.part (D.seen desk.old).reads (D.seen desk.new).reads }
    ensures fault { IfErr result (λ fault. AdvanceFails core.old core.new store.old store.new spent.new desk.old desk.new fault) }
    ensures stands { spent.new ≡ false → IsTrue D.tells → ReadsAs store.new (D.seen desk.new).reads (D.stopped desk.new).images }
    ensures behind { IsErrOf result KeepFault.NoMemory → spent.new ≡ true → IsTrue D.tells → (image : Image)
        → (D.stopped desk.new).images image → OpensToState image (made_of planned core.old.state store.old).1.state }
    ensures cause { HasCause (D.seen desk.old).disk_faults (D.seen desk.new).disk_faults (disk_failure result) }
    ensures others { OnlyDisk D.seen desk.old desk.new }
    ensures quiet { Leaves D.seen D.stopped desk.old desk.new (λ image. ⊤) }
    ensures stops { IsTrue D.tells → Leaves D.seen D.stopped desk.old desk.new
        (λ image. OpensToState image core.old.state ⊎ OpensToState image (made_of planned core.old.state store.old).1.state) }
    ensures remembers { Remembers (D.stopped desk.old) (D.stopped desk.new) }
    ensures room { HoldsRoom D.tells store.old.bounds.slot D.seen D.stopped desk.old desk.new }
{
    if planned.batch.as_slice().is_empty() {
        return Ok(planned.reply);
    }
    if core.serial() == LAST_SERIAL {
        drop(planned);
        return Ok(Reply::Refused(Refusal::JournalFull));
    }
    let kept = keep(store, desk, &planned.batch);
    *spent = store.is_spent();
    match kept {
        Err(fault) => {
            drop(planned);
            Err(fault)
        }
        Ok(false) => {
            drop(planned);
            Ok(Reply::Refused(Refusal::JournalFull))
        }
        Ok(true) => {
            *spent = true;
            let reply = core.apply(planned)?;
            *spent = false;
            Ok(reply)
        }
    }
}
