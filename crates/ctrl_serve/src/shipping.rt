ghost use Rattle.std.specs.Prelude.{◌⊎◌, None};
ghost use Rattle.ziti_outside.specs.Untouched.{OnlyNotes};
ghost use Rattle.run_notes.specs.NotedLines.{FindsNoMore, RisesOnce};
ghost use Rattle.ctrl_serve.specs.FolderRuns.{TellsUnshipped};
ghost use Rattle.ctrl_serve.specs.Headline.{IsLeftAlone, IsUnopened};
ghost use Rattle.ctrl_serve.specs.Runs.{IsDiskCaused, IsWriteCaused};
ghost use Rattle.ctrl_serve.specs.ShipWords.{Ships};

use run_notes::{Cut, Status, tell_cut, tell_damage};
use ship_core::{ShipFault, ship};
use std::alloc::Global;
use ziti_outside::Desk;

// Notes why the folder was not shipped to its end, and answers that status. It wants no memory.
fn tell_unshipped<D: Desk>(fault: ShipFault, desk: &mut D) -> Status
    ensures told { TellsUnshipped fault result (D.seen desk.old) (D.seen desk.new) }
    ensures counted { RisesOnce (D.seen desk.old).note_faults (D.seen desk.new).note_faults }
    ensures others { OnlyNotes D.seen D.stopped desk.old desk.new }
    ensures stops { FindsNoMore D.stopped desk.old desk.new }
{
    match fault {
        ShipFault::Disk => tell_cut(Cut::Disk, desk),
        ShipFault::Write => tell_cut(Cut::Unsaid, desk),
        ShipFault::Damaged { part, at } => tell_damage(part, at, desk),
        ShipFault::NoMemory => tell_cut(Cut::NoMemory, desk),
    }
}

/// Says the batches of the folder from a serial on as frames, by reading it alone: it is left as it is. Where it opens to no state, that is
/// noted and nothing is said.
pub(crate) fn run_ship<D: Desk>(alloc: Global, from: u64, desk: &mut D) -> Status
    ensures ships { IsUnopened None D.tells D.seen D.stopped desk.old desk.new result
        ⊎ Ships from D.tells (D.seen desk.old) (D.seen desk.new) result }
    ensures alone { IsLeftAlone D.seen D.stopped desk.old desk.new }
    ensures write_cause { IsWriteCaused (D.seen desk.old).say_faults (D.seen desk.new).say_faults result }
    ensures disk_cause { IsDiskCaused (D.seen desk.old).disk_faults (D.seen desk.new).disk_faults result }
    ensures counted { RisesOnce (D.seen desk.old).note_faults (D.seen desk.new).note_faults }
{
    match ship(alloc, desk, from) {
        Ok(()) => Status::Done,
        Err(fault) => tell_unshipped(fault, desk),
    }
}
