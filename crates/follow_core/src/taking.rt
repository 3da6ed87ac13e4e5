ghost use Rattle.std.specs.Prelude.{◌≡◌, ◌≢◌, ◌⊎◌, ⊤, true, false, ℕ, List, IsTrue, OnOk, IfOk, IfErr};
ghost use Rattle.ziti_outside.specs.Causes.{HasCause};
ghost use Rattle.ziti_outside.specs.Moments.{Remembers, Leaves};
ghost use Rattle.ziti_outside.specs.Untouched.{OnlyDisk, OnlyReads};
ghost use Rattle.ctrl_model.specs.declared.formats.Format.TheVariants as formats;
ghost use Rattle.ship_frames.specs.GatheredPieces.{IsHeldOf};
ghost use Rattle.journal_core.specs.Room.{HoldsRoom};
ghost use Rattle.slot_files.specs.FolderImage.{Stands};
ghost use Rattle.row_store.specs.OpenedRows.{OpensTo};
ghost use Rattle.row_store.specs.StoredRows.{ReadsAs};
ghost use Rattle.follow_core.specs.declared.taken.Taken.TheVariants as takens;
ghost use Rattle.follow_core.specs.Faults.{disk_failure, ReceiveFails};
ghost use Rattle.follow_core.specs.FollowedCopies.{AreSoughtIn, HoldsState, serial_in_store};
ghost use Rattle.follow_core.specs.TakenFrames.{FollowsSo, OpensToSome, copy_behind_taking};

use crate::faults::FollowFault;
use crate::receiving::receive;
use crate::sought::Sought;
use crate::taken::Taken;
use channel_frame::Frame;
use row_store::Store;
use ship_frames::{Gathered, Gathering, piece_in};
use std::alloc::Global;
use ziti_outside::Desk;

/// Takes a frame that was shipped.
pub(crate) fn take_frame<D: Desk>(
    alloc: Global,
    desk: &mut D,
    store: &mut Store,
    gathering: &mut Gathering,
    sought: &mut Option<Sought>,
    frame: &Frame,
) -> Result<Taken, FollowFault>
    requires opened { store.old.opened ≡ true }
    requires unspent { store.old.spent ≡ false }
    requires holds { HoldsState store.old }
    requires held { IsHeldOf gathering.old }
    requires stands { IsTrue D.tells → ReadsAs store.old (D.seen desk.old).reads (D.stopped desk.old).images }
    requires sought { IsTrue D.tells → (records : List (List ℕ)) → Stands formats.Two (D.seen desk.old).reads records → AreSoughtIn records (serial_in_store store.old) sought.old }

    ensures taken { IfOk result (λ taken. IsTrue D.tells → (records : List (List ℕ)) → Stands formats.Two (D.seen desk.old).reads records
        → FollowsSo frame.now records gathering.old gathering.new store.old store.new (D.seen desk.new).reads taken) }
    ensures still { IfOk result (λ taken. taken ≢ takens.Took → (store.new ≡ store.old) × OnlyReads D.seen D.stopped desk.old desk.new) }
    ensures unspent { OnOk result ((store.new.spent ≡ false) × (store.new.bounds ≡ store.old.bounds)) }
    ensures opened { store.new.spent ≡ false → store.new.opened ≡ true }
    ensures holds { store.new.spent ≡ false → HoldsState store.new }
    ensures held { IsHeldOf gathering.new }
    ensures fault { IfErr result (ReceiveFails store.old store.new) }
    ensures stands { store.new.spent ≡ false → IsTrue D.tells → ReadsAs store.new (D.seen desk.new).reads (D.stopped desk.new).images }
    ensures sought { store.new.spent ≡ false → IsTrue D.tells → (records : List (List ℕ)) → Stands formats.Two (D.seen desk.new).reads records
        → AreSoughtIn records (serial_in_store store.new) sought.new }
    ensures cause { HasCause (D.seen desk.old).disk_faults (D.seen desk.new).disk_faults (disk_failure result) }
    ensures others { OnlyDisk D.seen desk.old desk.new }
    ensures quiet { Leaves D.seen D.stopped desk.old desk.new (λ image. ⊤) }
    ensures stops { IsTrue D.tells → (records : List (List ℕ)) → Stands formats.Two (D.seen desk.old).reads records
        → Leaves D.seen D.stopped desk.old desk.new
        (λ image. OpensTo formats.Two image store.old.rows ⊎ OpensTo formats.Two image (copy_behind_taking frame.now records gathering.old store.old).rows) }
    ensures opens { IsTrue D.tells → Leaves D.seen D.stopped desk.old desk.new OpensToSome }
    ensures remembers { Remembers (D.stopped desk.old) (D.stopped desk.new) }
    ensures room { HoldsRoom D.tells store.old.bounds.slot D.seen D.stopped desk.old desk.new }
{
    let Some(piece) = piece_in(frame) else {
        return Ok(Taken::BadShip);
    };
    match gathering.take(alloc, &piece)? {
        Gathered::Skipped => Ok(Taken::Skipped),
        Gathered::Waits => Ok(Taken::Piece),
        Gathered::Whole(shipment) => receive(alloc, desk, store, sought, &shipment),
    }
}
