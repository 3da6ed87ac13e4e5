ghost use Rattle.std.specs.Prelude.{◌≡◌, ◌⊎◌, ◌≤◌, ◌<◌, ◌^◌, ⊤, true, false, length, max, IsTrue, OnOk, OnErr, IfOk, IfErr, IsErrOf};
ghost use Rattle.ziti_outside.specs.declared.desk.Part.TheVariants.{One, Mark};
ghost use Rattle.ziti_outside.specs.Causes.{HasCause};
ghost use Rattle.ziti_outside.specs.Images.{Image, Else, After};
ghost use Rattle.ziti_outside.specs.Moments.{Remembers, Leaves};
ghost use Rattle.ziti_outside.specs.Untouched.{OnlyDisk, OnlyReads};
ghost use Rattle.journal_core.specs.Room.{empty_size, HoldsRoom};
ghost use Rattle.slot_files.specs.FolderImage.{StandsAsBefore};
ghost use Rattle.slot_files.specs.OpenedSlots.{Opens};
ghost use Rattle.ctrl_model.specs.SpelledCommands.{is_spelled};
ghost use Rattle.ctrl_model.specs.State.{State};
ghost use Rattle.row_store.specs.StoredRows.{ReadsAs};
ghost use Rattle.row_store.specs.OpenedRows.{OpensTo};
ghost use Rattle.row_store.specs.OpenedStates.{OpensToState};
ghost use Rattle.ctrl_keep.specs.KeptMachine.{step, is_compact};
ghost use Rattle.ctrl_model.specs.declared.replies.Reply.TheVariants.{Done};
ghost use Rattle.row_store.specs.RewrittenStores.{IsRewritten};
ghost use Rattle.ctrl_core.specs.KeptFormat.{kept_format};
ghost use Rattle.ctrl_keep.specs.KeptBatches.{Follows};
ghost use Rattle.ctrl_keep.specs.KeptController.{HoldsRows, machine_of};
ghost use Rattle.ctrl_keep.specs.Faults.{disk_failure, OpenFails, SubmitFails};
ghost use Rattle.ctrl_keep.specs.MigratedFolders.{IsMigrated, MayMigrate, Migrates, MigratesBy};
ghost use Rattle.ctrl_keep.specs.TurnedStores.{narrow_rows, HasRoomToTurn, HasState, IsLeft, IsTurned, LoadFails};

use crate::advancing::advance;
use crate::compacting::{compact, is_compact};
use crate::faults::{KeepFault, fault_of};
use crate::loading::{core_of, turn};
use access_rules::permitted;
use ctrl_core::{Core, KEPT_FORMAT};
use ctrl_model::{Command, Refusal, Reply, Who};
use row_store::{Store, StoreBounds};
use std::alloc::Global;
use std::marker::Model;
use ziti_outside::Desk;

/// A controller whose state a folder keeps. Contracts see its state, its store, and whether it is spent.
#[derive(Drop)]
pub struct Kept {
    core: Core,
    store: Store,
    spent: bool,
}

impl Model for Kept {
    ghost use Rattle.std.specs.Prelude.{◌≡◌, false};
    ghost use Rattle.ctrl_keep.specs.KeptController.{Controlled, Keeps};

    ghost Value = { Controlled };

    ghost view = { λ k. record { state = k.core.state; stored = k.store; spent = k.spent } };

    ghost invariant = { λ k. k.spent ≡ false → Keeps k.core k.store };
}

impl Kept {
    /// The controller whose state a folder keeps. The folder is created in the kept format where its mark is empty, and migrated to it where it
    /// is one of the first format, once it was found to open. `bounds` are those of this and of the later changes.
    ///
    /// `Damaged` comes exactly where the folder opens to no state, with the first place at which it is damaged. `Full` comes exactly where it opens
    /// to a state in the first format and the rows of this state in the kept format would pass the bound of a slot, and `MarkFull` exactly where they
    /// would not and the mark has as many bytes as it may have. On any of these, and for want of memory, a folder whose mark is not empty
    /// reads as before. At every moment of the call, and after it, an image that a stop may leave stands for what an image of its start stood
    /// for, or, where the folder is migrated, opens to the state to which it opened. `Spent` never comes.
    pub fn open<D: Desk>(
        alloc: Global,
        desk: &mut D,
        bounds: StoreBounds,
    ) -> Result<Kept, KeepFault>
        requires { bounds.slot ≤ 2 ^ 30 }
        ensures opens { IfOk result (λ kept. IsTrue D.tells → OpensToState (D.seen desk.old).reads kept.state) }
        ensures stands { IfOk result (λ kept. IsTrue D.tells → ReadsAs kept.stored (D.seen desk.new).reads (D.stopped desk.new).images) }
        ensures holds { IfOk result HoldsRows }
        ensures opened { IfOk result (λ kept. (kept.stored.bounds ≡ bounds) × (kept.spent ≡ false)) }

        // What it makes of the folder: it creates it, leaves it, or migrates it.
        ensures created { IfOk result (λ kept. IsTrue D.tells → Opens kept_format (length ((D.seen desk.old).reads Mark)) (D.seen desk.old).reads (D.seen desk.new).reads
            ⊎ (Migrates bounds (D.seen desk.old).reads kept.state × IsMigrated kept.state (D.seen desk.old).reads (D.seen desk.new).reads)) }

        // Whatever comes of the call, a folder whose mark is not empty was read alone, and a stop leaves no image that it did not leave before; unless
        // it is migrated, and then each image is one that a stop might have left before, or opens to the state to which the folder opened.
        ensures kept { IsTrue D.tells → 0 < length ((D.seen desk.old).reads Mark) → OnlyReads D.seen D.stopped desk.old desk.new
            ⊎ ((s : State) × MigratesBy result bounds (D.seen desk.old).reads s
            × Leaves D.seen D.stopped desk.old desk.new (λ image. (D.stopped desk.old).images image ⊎ OpensToState image s)) }

        // Unless it is migrated, the second slot reads as before, and no slot grows past the size of one without a record.
        ensures second { ((D.seen desk.new).reads One ≡ (D.seen desk.old).reads One)
            ⊎ (MayMigrate result × (IsTrue D.tells → (s : State) × Migrates bounds (D.seen desk.old).reads s)) }
        ensures small { HoldsRoom D.tells empty_size D.seen D.stopped desk.old desk.new
            ⊎ (MayMigrate result × (IsTrue D.tells → (s : State) × Migrates bounds (D.seen desk.old).reads s)) }

        ensures fault { IfErr result (λ fault. OpenFails D.tells bounds (D.seen desk.old).reads fault) }
        ensures cause { HasCause (D.seen desk.old).disk_faults (D.seen desk.new).disk_faults (disk_failure result) }
        ensures others { OnlyDisk D.seen desk.old desk.new }
        ensures quiet { Leaves D.seen D.stopped desk.old desk.new (λ image. ⊤) }
        ensures stops { IsTrue D.tells → Leaves D.seen D.stopped desk.old desk.new (λ image. After (StandsAsBefore kept_format) (D.stopped desk.old).images image
            ⊎ ((s : State) × MigratesBy result bounds (D.seen desk.old).reads s × OpensToState image s)) }
        ensures remembers { Remembers (D.stopped desk.old) (D.stopped desk.new) }

        // No slot grows past its bound, or past the size of one without a record where that is greater, neither as the desk reads nor in what a stop
        // leaves.
        ensures room { HoldsRoom D.tells (max empty_size bounds.slot) D.seen D.stopped desk.old desk.new }
    {
        match Store::open(alloc, desk, KEPT_FORMAT, bounds) {
            Ok(store) => Kept::load(alloc, desk, store),
            Err(fault) => Err(fault_of(fault)),
        }
    }

    // The controller of a store's rows, which is migrated where it is of the first format.
    fn load<D: Desk>(alloc: Global, desk: &mut D, store: Store) -> Result<Kept, KeepFault>
        requires able { (store.opened ≡ true) × (store.spent ≡ false) }
        requires stands { IsTrue D.tells → ReadsAs store (D.seen desk.old).reads (D.stopped desk.old).images }
        ensures state { IfOk result (λ kept. HasState store kept.state) }
        ensures unspent { IfOk result (λ kept. kept.spent ≡ false) }
        ensures turned { IfOk result (λ kept. IsLeft store kept.stored desk.old desk.new ⊎ IsTurned D.tells D.seen store kept.stored desk.old desk.new) }
        ensures stands { IfOk result (λ kept. IsTrue D.tells → ReadsAs kept.stored (D.seen desk.new).reads (D.stopped desk.new).images) }
        ensures quiet_or { (desk.new ≡ desk.old) ⊎ ((s : State) × HasState store s × MayMigrate result × HasRoomToTurn store) }
        ensures fault { IfErr result (λ fault. LoadFails store fault) }
        ensures cause { HasCause (D.seen desk.old).disk_faults (D.seen desk.new).disk_faults (disk_failure result) }
        ensures others { OnlyDisk D.seen desk.old desk.new }
        ensures quiet { Leaves D.seen D.stopped desk.old desk.new (λ image. ⊤) }
        ensures stops { IsTrue D.tells → Leaves D.seen D.stopped desk.old desk.new
            (λ image. OpensTo store.format image store.rows ⊎ OpensTo kept_format image (narrow_rows store)) }
        ensures remembers { Remembers (D.stopped desk.old) (D.stopped desk.new) }
        ensures room { HoldsRoom D.tells store.bounds.slot D.seen D.stopped desk.old desk.new }
    {
        match core_of(alloc, &store) {
            Err(fault) => {
                drop(store);
                Err(fault)
            }
            Ok(core) => {
                let mut store = store;
                match turn(&mut store, desk) {
                    Err(fault) => {
                        drop(core);
                        drop(store);
                        Err(fault)
                    }
                    Ok(()) => Ok(Kept {
                        core,
                        store,
                        spent: false,
                    }),
                }
            }
        }
    }

    /// Answers a command that some body spells, whoever sends it, and keeps what it changes in the folder before it answers.
    ///
    /// The reply and what comes after are the machine's: a change without room in the journal is refused as `JournalFull`, and one that
    /// changes no row is answered at once. Any other change is counted in the serial, and at the last serial it is refused so too. A command that leaves the machine as it was leaves the desk, whole; any other adds the one batch
    /// of its changes to what the folder stands for, or compacts it. Whatever comes of the call, a stop at any moment of it leaves a folder that opens to the state
    /// before the command or to the one after it. `Spent` comes exactly where the controller is spent, and then nothing was done. A fault
    /// of the disk spends it, and so does want of memory behind the first call on the disk, where the folder opens to the state after
    /// the command; want of memory before that leaves all as it was. `Damaged` never comes. Compact is done by the folder: its rows are
    /// compacted, or it is refused as `JournalFull` or `MarkFull`, and the state stays. Where it is to be refused, neither a fault of
    /// the disk nor want of memory comes instead.
    pub fn submit<D: Desk>(
        &mut self,
        desk: &mut D,
        who: &Who,
        command: &Command,
    ) -> Result<Reply, KeepFault>
        requires spelled { is_spelled command.now ≡ true }
        requires stands { self.old.spent ≡ false → IsTrue D.tells → ReadsAs self.old.stored (D.seen desk.old).reads (D.stopped desk.old).images }

        ensures step { IfOk result (λ reply. (reply, machine_of self.new) ≡ step self.old.stored.bounds who.now command.now (machine_of self.old)) }
        // Where that leaves the machine, as it does where the command is refused, has no room, shows or changes nothing, it leaves the desk,
        // whole. Any other command adds to the folder exactly the one batch of its changes, or compacts it.
        ensures still { OnOk result (machine_of self.new ≡ machine_of self.old → desk.new ≡ desk.old) }
        ensures follows { OnOk result (IsTrue D.tells → Follows (machine_of self.old) (machine_of self.new) (D.seen desk.old).reads (D.seen desk.new).reads) }

        ensures unspent { OnOk result ((self.old.spent ≡ false) × (self.new.spent ≡ false) × (self.new.stored.bounds ≡ self.old.stored.bounds)) }
        ensures holds { self.new.spent ≡ false → HoldsRows self.new }
        ensures compacted { IfOk result (λ reply. is_compact command.now ≡ true → reply ≡ Done → IsTrue D.tells
            → IsRewritten kept_format self.old.stored.rows self.old.stored (D.seen desk.old).reads (D.seen desk.new).reads) }
        ensures fault { IfErr result (λ fault. SubmitFails self.old self.new desk.old desk.new fault) }
        ensures fits { OnErr result (self.old.spent ≡ false → is_compact command.now ≡ true
            → (step self.old.stored.bounds who.now command.now (machine_of self.old)).0 ≡ Done) }
        ensures stands { self.new.spent ≡ false → IsTrue D.tells → ReadsAs self.new.stored (D.seen desk.new).reads (D.stopped desk.new).images }
        ensures behind { IsErrOf result KeepFault.NoMemory → self.old.spent ≡ false → self.new.spent ≡ true → IsTrue D.tells → (image : Image)
            → (D.stopped desk.new).images image → OpensToState image (step self.old.stored.bounds who.now command.now (machine_of self.old)).1.state }
        ensures cause { HasCause (D.seen desk.old).disk_faults (D.seen desk.new).disk_faults (disk_failure result) }
        ensures others { OnlyDisk D.seen desk.old desk.new }
        ensures quiet { Leaves D.seen D.stopped desk.old desk.new (λ image. ⊤) }
        ensures stops { self.old.spent ≡ false → IsTrue D.tells → Leaves D.seen D.stopped desk.old desk.new
            (λ image. OpensToState image self.old.state ⊎ OpensToState image (step self.old.stored.bounds who.now command.now (machine_of self.old)).1.state) }
        ensures remembers { Remembers (D.stopped desk.old) (D.stopped desk.new) }

        // No slot grows past its bound, neither as the desk reads nor in what a stop leaves. But for a Compact the other slot and the mark
        // read as before, whatever comes of the call.
        ensures room { HoldsRoom D.tells self.old.stored.bounds.slot D.seen D.stopped desk.old desk.new }
        ensures elsewhere { is_compact command.now ≡ false → Else self.old.stored.part (D.seen desk.old).reads (D.seen desk.new).reads }
    {
        if self.spent {
            return Err(KeepFault::Spent);
        }
        if !permitted(who, command) {
            return Ok(Reply::Refused(Refusal::NotPermitted));
        }
        if is_compact(command) {
            return compact(&self.core, &mut self.store, &mut self.spent, desk);
        }
        let planned = self.core.plan(command)?;
        advance(
            &mut self.core,
            &mut self.store,
            &mut self.spent,
            desk,
            planned,
        )
    }

    /// The store of the folder, of a controller that is no more.
    pub fn into_store(self) -> Store
        ensures store { result ≡ self.stored }
        ensures able { self.spent ≡ false → (result.opened ≡ true) × (result.spent ≡ false) }
    {
        let Kept { core, store, .. } = self;
        drop(core);
        store
    }
}
