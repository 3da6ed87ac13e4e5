ghost use Rattle.std.specs.Prelude.{◌≡◌, ◌≢◌, ◌⊎◌, ⊤, true, false, ℕ, List, None, IsTrue, OnOk, IfOk, IfErr};
ghost use Rattle.ziti_outside.specs.Causes.{HasCause};
ghost use Rattle.ziti_outside.specs.Moments.{Remembers, Leaves};
ghost use Rattle.ziti_outside.specs.Untouched.{OnlyDisk, OnlyReads};
ghost use Rattle.ctrl_model.specs.declared.formats.Format.TheVariants as formats;
ghost use Rattle.journal_core.specs.Room.{HoldsRoom};
ghost use Rattle.slot_files.specs.FolderImage.{Stands};
ghost use Rattle.row_store.specs.OpenedRows.{OpensTo};
ghost use Rattle.follow_core.specs.declared.taken.Taken.TheVariants as takens;
ghost use Rattle.follow_core.specs.Faults.{disk_failure, TakeFails};
ghost use Rattle.follow_core.specs.FollowedCopies.{HoldsState, StandsAs, serial_in_store};
ghost use Rattle.follow_core.specs.TakenFrames.{IsTaken, OpensToSome, copy_behind_frame};

use crate::faults::FollowFault;
use crate::judging::own_serial;
use crate::sought::Sought;
use crate::taken::Taken;
use crate::taking::take_frame;
use channel_frame::Frame;
use row_store::Store;
use ship_frames::Gathering;
use std::alloc::Global;
use std::marker::Model;
use ziti_outside::Desk;

/// A copy of a leader's folder, in a folder of its own. Contracts see its store, the batch in parts, and where kept records are sought.
#[derive(Drop)]
pub struct Follower {
    alloc: Global,
    store: Store,
    gathering: Gathering,
    sought: Option<Sought>,
}

impl Model for Follower {
    ghost use Rattle.std.specs.Prelude.{◌≡◌, true, false};
    ghost use Rattle.ship_frames.specs.GatheredPieces.{IsHeldOf};
    ghost use Rattle.follow_core.specs.FollowedCopies.{Followed, HoldsState};

    ghost Value = { Followed };

    ghost view = { λ f. record { stored = f.store; parts = f.gathering; sought = f.sought } };

    ghost invariant = { λ f. (f.store.spent ≡ false → (f.store.opened ≡ true) × HoldsState f.store) × IsHeldOf f.gathering };
}

impl Follower {
    /// A follower over the store of a folder that was opened, in the second format, and has exactly the rows of a valid state. No batch is in
    /// parts yet, and no kept record was sought.
    pub fn new(alloc: Global, store: Store) -> Follower
        requires opened { store.opened ≡ true }
        requires unspent { store.spent ≡ false }
        requires holds { HoldsState store }
        ensures stored { result.stored ≡ store }
        ensures parts { result.parts ≡ None }
        ensures sought { result.sought ≡ None }
    {
        Follower {
            alloc,
            store,
            gathering: Gathering::new(),
            sought: None,
        }
    }

    /// The serial of the copy: that of its rows, and 0 where it has no record or was migrated.
    pub fn own(&self) -> u64
        ensures { result ≡ serial_in_store self.now.stored }
    {
        own_serial(&self.store)
    }

    /// Whether an earlier call spent the follower.
    pub fn is_spent(&self) -> bool
        ensures { result ≡ self.now.stored.spent }
    {
        self.store.is_spent()
    }

    /// Takes a frame that was shipped, and keeps the batch whose last piece it is in the folder before it answers.
    ///
    /// The answer and what comes after are those of following. In all cases but `Took` the rows stay, and the folder is read alone. Whatever comes of the
    /// call, a stop at any moment of it leaves a folder that opens to the rows before the frame or to those after it, of a valid state. `Spent` comes exactly
    /// where the follower is spent, and then nothing was done. A fault of the disk in keeping a batch spends it, and so does want of memory behind the
    /// first change of the folder; any other leaves the rows and the folder as they were, and of a batch whose pieces all came nothing is in parts
    /// then. `Damaged`, `Full` and `MarkFull` never come as faults.
    pub fn take<D: Desk>(&mut self, desk: &mut D, frame: &Frame) -> Result<Taken, FollowFault>
        requires stands { self.old.stored.spent ≡ false → IsTrue D.tells → StandsAs self.old (D.seen desk.old).reads (D.stopped desk.old).images }

        ensures taken { IfOk result (λ taken. IsTrue D.tells → (records : List (List ℕ)) → Stands formats.Two (D.seen desk.old).reads records
            → IsTaken frame.now records self.old self.new (D.seen desk.new).reads taken) }
        ensures still { IfOk result (λ taken. taken ≢ takens.Took → (self.new.stored ≡ self.old.stored) × OnlyReads D.seen D.stopped desk.old desk.new) }
        ensures unspent { OnOk result ((self.old.stored.spent ≡ false) × (self.new.stored.spent ≡ false) × (self.new.stored.bounds ≡ self.old.stored.bounds)) }
        ensures holds { self.new.stored.spent ≡ false → HoldsState self.new.stored }
        ensures fault { IfErr result (λ fault. TakeFails self.old self.new desk.old desk.new fault) }
        ensures stands { self.new.stored.spent ≡ false → IsTrue D.tells → StandsAs self.new (D.seen desk.new).reads (D.stopped desk.new).images }
        ensures cause { HasCause (D.seen desk.old).disk_faults (D.seen desk.new).disk_faults (disk_failure result) }
        ensures others { OnlyDisk D.seen desk.old desk.new }
        ensures quiet { Leaves D.seen D.stopped desk.old desk.new (λ image. ⊤) }
        ensures stops { self.old.stored.spent ≡ false → IsTrue D.tells → (records : List (List ℕ)) → Stands formats.Two (D.seen desk.old).reads records
            → Leaves D.seen D.stopped desk.old desk.new
            (λ image. OpensTo formats.Two image self.old.stored.rows ⊎ OpensTo formats.Two image (copy_behind_frame frame.now records self.old).rows) }
        ensures opens { self.old.stored.spent ≡ false → IsTrue D.tells → Leaves D.seen D.stopped desk.old desk.new OpensToSome }
        ensures remembers { Remembers (D.stopped desk.old) (D.stopped desk.new) }

        // No slot grows past its bound, neither as the desk reads nor in what a stop leaves.
        ensures room { HoldsRoom D.tells self.old.stored.bounds.slot D.seen D.stopped desk.old desk.new }
    {
        if self.store.is_spent() {
            return Err(FollowFault::Spent);
        }
        take_frame(
            self.alloc,
            desk,
            &mut self.store,
            &mut self.gathering,
            &mut self.sought,
            frame,
        )
    }
}
