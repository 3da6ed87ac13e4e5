ghost use Rattle.std.specs.Prelude.{◌≡◌, ◌⊎◌, ◌≢◌, ◌≤◌, ◌^◌, ⊤, true, false, IsTrue, None, Some};
ghost use Rattle.ziti_outside.specs.Moments.{Elapses, Leaves};
ghost use Rattle.ziti_outside.specs.Untouched.{OnlyNotes};
ghost use Rattle.journal_core.specs.Room.{empty_size, HoldsRoom};
ghost use Rattle.row_store.specs.StoredRows.{ReadsAs};
ghost use Rattle.ctrl_keep.specs.KeptController.{HoldsRows, machine_of};
ghost use Rattle.row_store.specs.OpenedStates.{OpensToState};
ghost use Rattle.run_notes.specs.NotedLines.{FindsNoMore, RisesOnce};
ghost use Rattle.ctrl_serve.specs.FolderRuns.{TellsClosed, TellsCompaction, TellsRoom, full_in};
ghost use Rattle.ctrl_serve.specs.FolderWords.{Compacts, EndsCompaction, Looks};
ghost use Rattle.ctrl_serve.specs.Headline.{folder_bounds, IsLeftAlone, IsUnopened, OnlySaysAndNotes};
ghost use Rattle.ctrl_serve.specs.Loads.{SaysOneLine};
ghost use Rattle.ctrl_serve.specs.LookedLines.{HasNames, line_of as line_asked};
ghost use Rattle.ctrl_serve.specs.Runs.{IsDiskCaused, IsWriteCaused};

use crate::bounds::Bounds;
use crate::controller::cut_of;
use crate::loads::say_line;
use crate::looking::{Look, line_of};
use ctrl_core::Core;
use ctrl_keep::{KeepFault, Kept, peek};
use ctrl_model::{Command, Refusal, Reply, Who};
use row_store::StoreBounds;
use run_notes::{Cut, Full, Status, tell_cut, tell_damage, tell_full};
use std::alloc::Global;
use ziti_outside::Desk;

/// The bounds of the folder, of those of a run.
pub(crate) fn store_bounds(bounds: Bounds) -> StoreBounds
    ensures { result ≡ folder_bounds bounds }
{
    StoreBounds {
        slot: bounds.slot,
        mark: bounds.mark,
    }
}

/// Notes why the folder was not opened, and answers that status. It wants no memory.
pub(crate) fn tell_closed<D: Desk>(fault: KeepFault, desk: &mut D) -> Status
    requires { fault ≢ KeepFault.Spent }
    ensures told { TellsClosed fault result (D.seen desk.old) (D.seen desk.new) }
    ensures counted { RisesOnce (D.seen desk.old).note_faults (D.seen desk.new).note_faults }
    ensures others { OnlyNotes D.seen D.stopped desk.old desk.new }
    ensures stops { FindsNoMore D.stopped desk.old desk.new }
{
    match fault {
        KeepFault::Disk => tell_cut(Cut::Disk, desk),
        KeepFault::Full => tell_full(Full::Journal, desk),
        KeepFault::MarkFull => tell_full(Full::Mark, desk),
        KeepFault::Damaged { part, at } => tell_damage(part, at, desk),
        KeepFault::NoMemory => tell_cut(Cut::NoMemory, desk),
        KeepFault::Spent => unreachable!(),
    }
}

// Says the line that is asked for of a core. The core is dropped before the line is said.
fn say_looked<D: Desk>(alloc: Global, look: &Look, core: Core, desk: &mut D) -> Status
    requires live { core.live ≡ true }
    requires names { HasNames look.now }
    ensures says { SaysOneLine (line_asked look.now core.state) (D.seen desk.old) (D.seen desk.new) result }
    ensures write_cause { IsWriteCaused (D.seen desk.old).say_faults (D.seen desk.new).say_faults result }
    ensures counted { RisesOnce (D.seen desk.old).note_faults (D.seen desk.new).note_faults }
    ensures others { OnlySaysAndNotes D.seen D.stopped desk.old desk.new }
{
    let mut core = core;
    let line = line_of(alloc, look, &mut core);
    drop(core);
    say_line(line, desk)
}

/// Says the line that is asked for of the state to which the folder opens, by reading it alone: it is left as it is. Where it opens to
/// none, that is noted and nothing is said.
pub(crate) fn run_look<D: Desk>(alloc: Global, look: &Look, desk: &mut D) -> Status
    requires { HasNames look.now }
    ensures looks { IsUnopened None D.tells D.seen D.stopped desk.old desk.new result
        ⊎ Looks (line_asked look.now) D.tells (D.seen desk.old) (D.seen desk.new) result }
    ensures alone { IsLeftAlone D.seen D.stopped desk.old desk.new }
    ensures write_cause { IsWriteCaused (D.seen desk.old).say_faults (D.seen desk.new).say_faults result }
    ensures disk_cause { IsDiskCaused (D.seen desk.old).disk_faults (D.seen desk.new).disk_faults result }
    ensures counted { RisesOnce (D.seen desk.old).note_faults (D.seen desk.new).note_faults }
{
    match peek(alloc, desk) {
        Ok(core) => say_looked(alloc, look, core, desk),
        Err(fault) => tell_closed(fault, desk),
    }
}

// Which part of the folder has no room, if that is why a reply refuses.
fn full_of(reply: &Reply) -> Option<Full>
    ensures { result ≡ full_in reply.now }
{
    match reply {
        Reply::Refused(Refusal::JournalFull) => Some(Full::Journal),
        Reply::Refused(Refusal::MarkFull) => Some(Full::Mark),
        _ => None,
    }
}

// Notes which part of the folder has no room, if one has none, and answers how the run ended.
fn tell_room<D: Desk>(full: Option<Full>, desk: &mut D) -> Status
    ensures told { TellsRoom full result (D.seen desk.old) (D.seen desk.new) }
    ensures counted { RisesOnce (D.seen desk.old).note_faults (D.seen desk.new).note_faults }
    ensures others { OnlyNotes D.seen D.stopped desk.old desk.new }
    ensures stops { FindsNoMore D.stopped desk.old desk.new }
{
    match full {
        Some(full) => tell_full(full, desk),
        None => Status::Done,
    }
}

// Notes what came of a compaction, unless it was done, and answers how the run ended.
fn tell_compaction<D: Desk>(compacted: Result<Reply, KeepFault>, desk: &mut D) -> Status
    ensures told { TellsCompaction compacted result (D.seen desk.old) (D.seen desk.new) }
    ensures counted { RisesOnce (D.seen desk.old).note_faults (D.seen desk.new).note_faults }
    ensures others { OnlyNotes D.seen D.stopped desk.old desk.new }
    ensures stops { FindsNoMore D.stopped desk.old desk.new }
{
    match compacted {
        Ok(reply) => tell_room(full_of(&reply), desk),
        Err(fault) => tell_cut(cut_of(fault), desk),
    }
}

// Compacts the folder of a kept controller, and notes what came of it. The controller is dropped before that: a function that owns one
// and drops it at its end gets no verdict.
fn compact_opened<D: Desk>(kept: Kept, desk: &mut D) -> Status
    requires unspent { kept.spent ≡ false }
    requires holds { HoldsRows kept }
    requires stands { IsTrue D.tells → ReadsAs kept.stored (D.seen desk.old).reads (D.stopped desk.old).images }
    ensures ends { EndsCompaction result kept.stored.bounds (machine_of kept) D.tells (D.seen desk.old) (D.seen desk.new) }
    ensures still { result ≡ Status.FolderFull → (D.seen desk.new).reads ≡ (D.seen desk.old).reads }
    ensures failed_says { (D.seen desk.new).say_faults ≡ (D.seen desk.old).say_faults }
    ensures disk_cause { IsDiskCaused (D.seen desk.old).disk_faults (D.seen desk.new).disk_faults result }
    ensures counted { RisesOnce (D.seen desk.old).note_faults (D.seen desk.new).note_faults }
    ensures quiet { Leaves D.seen D.stopped desk.old desk.new (λ image. ⊤) }
    ensures stops { IsTrue D.tells → Leaves D.seen D.stopped desk.old desk.new (λ image. OpensToState image kept.state) }
    ensures room { HoldsRoom D.tells kept.stored.bounds.slot D.seen D.stopped desk.old desk.new }
{
    let mut kept = kept;
    let compacted = kept.submit(desk, &Who::Admin, &Command::Compact);
    drop(kept);
    tell_compaction(compacted, desk)
}

/// Compacts the folder within its bounds, or notes which part of it has no room, also for the migration of one of the first format. Where it
/// opens to no state, that is noted. Nothing is said. No slot grows past the bound, where that has room for a slot without a record.
pub fn run_compact<D: Desk>(alloc: Global, bounds: StoreBounds, desk: &mut D) -> Status
    requires { bounds.slot ≤ 2 ^ 30 }
    ensures compacts { IsUnopened (Some bounds) D.tells D.seen D.stopped desk.old desk.new result
        ⊎ Compacts bounds D.tells (D.seen desk.old) (D.seen desk.new) (D.stopped desk.old) (D.stopped desk.new) result }
    ensures says_nothing { (D.seen desk.new).said ≡ (D.seen desk.old).said }
    ensures failed_says { (D.seen desk.new).say_faults ≡ (D.seen desk.old).say_faults }
    ensures disk_cause { IsDiskCaused (D.seen desk.old).disk_faults (D.seen desk.new).disk_faults result }
    ensures counted { RisesOnce (D.seen desk.old).note_faults (D.seen desk.new).note_faults }
    ensures room { empty_size ≤ bounds.slot → HoldsRoom D.tells bounds.slot D.seen D.stopped desk.old desk.new }
{
    match Kept::open(alloc, desk, bounds) {
        Ok(kept) => compact_opened(kept, desk),
        Err(fault) => tell_closed(fault, desk),
    }
}
