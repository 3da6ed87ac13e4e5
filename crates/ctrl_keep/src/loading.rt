ghost use Rattle.std.specs.Prelude.{◌≡◌, ◌⊎◌, ⊤, true, false, IsTrue, OnOk, IfOk, IfErr};
ghost use Rattle.ziti_outside.specs.Causes.{HasCause};
ghost use Rattle.ziti_outside.specs.Moments.{Remembers, Leaves};
ghost use Rattle.ziti_outside.specs.Untouched.{OnlyDisk, OnlyReads};
ghost use Rattle.ctrl_model.specs.State.{State, start};
ghost use Rattle.ctrl_model.specs.ValidState.{ValidState};
ghost use Rattle.journal_core.specs.Room.{HoldsRoom};
ghost use Rattle.row_codec.specs.Batches.{batch_between};
ghost use Rattle.row_codec.specs.StateRows.{HasRows};
ghost use Rattle.row_store.specs.OpenedRows.{OpensTo};
ghost use Rattle.row_store.specs.OpenedStates.{byte_rows_of, OpensToState};
ghost use Rattle.row_store.specs.StoredRows.{ReadsAs};
ghost use Rattle.ctrl_core.specs.KeptFormat.{kept_format};
ghost use Rattle.ctrl_keep.specs.Faults.{disk_failure, PeekFails};
ghost use Rattle.ctrl_keep.specs.TurnedStores.{narrow_rows, HasState, IsLeft, IsQuietOrTurns, IsTurned, LookFails, TurnFails};

use crate::faults::{KeepFault, fault_of};
use ctrl_core::{Core, CoreFault, KEPT_FORMAT};
use ctrl_model::Format;
use row_codec::Batch;
use row_store::Store;
use std::alloc::Global;
use ziti_outside::Desk;

// The core of the state whose rows a store has, in its format.
pub(crate) fn core_of(alloc: Global, store: &Store) -> Result<Core, KeepFault>
    ensures live { IfOk result (λ core. core.live ≡ true) }
    ensures state { IfOk result (λ core. HasState store.now core.state) }
    ensures fault { IfErr result (λ fault. LookFails store.now fault) }
{
    let (part, at) = store.end();
    let rows = store.all()?;
    match Core::from_rows(alloc, store.format(), &rows) {
        Ok(core) => Ok(core),
        Err(CoreFault::NotAState { .. }) => Err(KeepFault::Damaged { part, at }),
        Err(CoreFault::NoMemory) => Err(KeepFault::NoMemory),
    }
}

// That core, with the format of the store and the puts of those rows.
fn core_and_rows_of(alloc: Global, store: &Store) -> Result<(Core, Format, Batch), KeepFault>
    ensures live { IfOk result (λ read. read.0.live ≡ true) }
    ensures format { IfOk result (λ read. read.1 ≡ store.now.format) }
    ensures state { IfOk result (λ read. HasState store.now read.0.state) }
    ensures puts { IfOk result (λ read. read.2 ≡ batch_between store.now.format start read.0.state) }
    ensures fault { IfErr result (λ fault. LookFails store.now fault) }
{
    let puts = store.all()?;
    match core_of(alloc, store) {
        Ok(core) => Ok((core, store.format(), puts)),
        Err(fault) => Err(fault),
    }
}

// Migrates a store of the first format, which has the rows of a state, and leaves one of the kept format.
pub(crate) fn turn<D: Desk>(store: &mut Store, desk: &mut D) -> Result<(), KeepFault>
    requires able { (store.old.opened ≡ true) × (store.old.spent ≡ false) }
    requires state { (s : State) × HasState store.old s }
    requires stands { IsTrue D.tells → ReadsAs store.old (D.seen desk.old).reads (D.stopped desk.old).images }
    ensures turned { OnOk result (IsLeft store.old store.new desk.old desk.new ⊎ IsTurned D.tells D.seen store.old store.new desk.old desk.new) }
    ensures stands { OnOk result (IsTrue D.tells → ReadsAs store.new (D.seen desk.new).reads (D.stopped desk.new).images) }
    ensures quiet_or { IsQuietOrTurns store.old result desk.old desk.new }
    ensures fault { IfErr result (λ fault. TurnFails store.old fault) }
    ensures cause { HasCause (D.seen desk.old).disk_faults (D.seen desk.new).disk_faults (disk_failure result) }
    ensures others { OnlyDisk D.seen desk.old desk.new }
    ensures quiet { Leaves D.seen D.stopped desk.old desk.new (λ image. ⊤) }
    ensures stops { IsTrue D.tells → Leaves D.seen D.stopped desk.old desk.new
        (λ image. OpensTo store.old.format image store.old.rows ⊎ OpensTo kept_format image (narrow_rows store.old)) }
    ensures remembers { Remembers (D.stopped desk.old) (D.stopped desk.new) }
    ensures room { HoldsRoom D.tells store.old.bounds.slot D.seen D.stopped desk.old desk.new }
{
    match store.format() {
        Format::Two => Ok(()),
        Format::One => match store.migrate(desk) {
            Ok(()) => Ok(()),
            Err(fault) => Err(fault_of(fault)),
        },
    }
}

/// The core of the state to which a folder opens, in whichever format, by reading alone: the folder is left as it is, and is not created where
/// its mark is empty. An empty mark stands for the state at the start.
///
/// `Damaged` comes exactly where the folder opens to no state, with the first place at which it is damaged. At every moment of the call a stop
/// leaves an image that it might have left before. `Full`, `MarkFull` and `Spent` never come.
pub fn peek<D: Desk>(alloc: Global, desk: &mut D) -> Result<Core, KeepFault>
    ensures opens { IfOk result (λ core. IsTrue D.tells → OpensToState (D.seen desk.old).reads core.state) }
    ensures valid { IfOk result (λ core. ValidState core.state) }
    ensures live { IfOk result (λ core. core.live ≡ true) }
    ensures fault { IfErr result (λ fault. PeekFails D.tells (D.seen desk.old).reads fault) }
    ensures cause { HasCause (D.seen desk.old).disk_faults (D.seen desk.new).disk_faults (disk_failure result) }
    ensures reads { OnlyReads D.seen D.stopped desk.old desk.new }
{
    match Store::peek(alloc, desk, KEPT_FORMAT) {
        Ok(store) => core_of(alloc, &store),
        Err(fault) => Err(fault_of(fault)),
    }
}

/// The core that `peek` gives of a folder, with the format in which the folder keeps the rows of its state, and the puts of these rows. Over
/// an empty mark it is the format in which a folder is created.
pub fn peek_rows<D: Desk>(alloc: Global, desk: &mut D) -> Result<(Core, Format, Batch), KeepFault>
    ensures opens { IfOk result (λ read. IsTrue D.tells → OpensToState (D.seen desk.old).reads read.0.state) }
    ensures format { IfOk result (λ read. IsTrue D.tells → OpensTo read.1 (D.seen desk.old).reads (byte_rows_of read.1 read.0.state)) }
    ensures valid { IfOk result (λ read. ValidState read.0.state) }
    ensures live { IfOk result (λ read. read.0.live ≡ true) }
    ensures has { IfOk result (λ read. HasRows read.1 read.0.state) }
    ensures puts { IfOk result (λ read. read.2 ≡ batch_between read.1 start read.0.state) }
    ensures fault { IfErr result (λ fault. PeekFails D.tells (D.seen desk.old).reads fault) }
    ensures cause { HasCause (D.seen desk.old).disk_faults (D.seen desk.new).disk_faults (disk_failure result) }
    ensures reads { OnlyReads D.seen D.stopped desk.old desk.new }
{
    match Store::peek(alloc, desk, KEPT_FORMAT) {
        Ok(store) => core_and_rows_of(alloc, &store),
        Err(fault) => Err(fault_of(fault)),
    }
}
