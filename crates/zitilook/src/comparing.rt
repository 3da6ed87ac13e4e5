ghost use Rattle.std.specs.Prelude.{◌≡◌, ◌⊎◌, ◌≢◌, List, ℕ, IfOk, map};
ghost use Rattle.std.specs.String.{string_bytes};
ghost use Rattle.ziti_outside.specs.Untouched.{OnlyNotes};
ghost use Rattle.ctrl_model.specs.declared.formats.Format.{Format as Formats};
ghost use Rattle.ctrl_model.specs.State.{State};
ghost use Rattle.run_notes.specs.NotedLines.{FindsNoMore, NotesLines};
ghost use Rattle.change_lines.specs.RowChanges.{AreRowsOf};
ghost use Rattle.change_lines.specs.ChangeLines.{change_lines};
ghost use Rattle.zitilook.specs.Comparisons.{Compares, ComparesTo, EndsBeside, FindsNoOther, SaysChanges};
ghost use Rattle.zitilook.specs.Headline.{RunsBeside};
ghost use Rattle.zitilook.specs.Notes.{other_damaged_note as note_of_other_damage, other_fault_note as note_of_other_fault};
ghost use Rattle.zitilook.specs.OpenedRows.{MayClose};
ghost use Rattle.zitilook.specs.Steps.{EndsSo, TellsOther};

use crate::notes::{other_damaged_note, other_fault_note};
use crate::opening::rows_opened;
use crate::running::{end_with, run, tell_closed};
use crate::status::Status;
use crate::words::is_diff;
use change_lines::changes;
use ctrl_keep::{KeepFault, peek_rows};
use ctrl_model::Bytes;
use row_codec::Row;
use run_notes::note_lines;
use std::alloc::{AllocError, Global};
use ziti_outside::{Desk, Failed, Part};

// Says the lines of changes where there are some, and answers how the run ended.
fn say_lines<D: Desk>(lines: &[u8], desk: &mut D) -> Status
    ensures says { SaysChanges lines.now (D.seen desk.old) (D.seen desk.new) result }
    ensures ends { EndsSo D.seen D.stopped desk.old desk.new result }
    ensures read { result ≢ Status.DiskFault }
{
    if lines.is_empty() {
        return end_with(Status::Done, desk);
    }
    match desk.say(lines) {
        Ok(()) => end_with(Status::Differs, desk),
        Err(Failed) => end_with(Status::WriteFault, desk),
    }
}

// Says the lines of changes, unless there was no memory to make them.
fn say_changes<D: Desk>(made: Result<Bytes, AllocError>, desk: &mut D) -> Status
    ensures says { (wanted : List ℕ) → IfOk made (λ t. t ≡ wanted) → SaysChanges wanted (D.seen desk.old) (D.seen desk.new) result }
    ensures ends { EndsSo D.seen D.stopped desk.old desk.new result }
    ensures read { result ≢ Status.DiskFault }
{
    match made {
        Ok(lines) => say_lines(lines.as_slice(), desk),
        Err(_) => end_with(Status::NoMemory, desk),
    }
}

// Notes that a call on the other folder failed, and answers that status. It wants no memory.
fn tell_other_fault<D: Desk>(desk: &mut D) -> Status
    ensures status { result ≡ Status.DiskFault }
    ensures noted { NotesLines note_of_other_fault (D.seen desk.old) (D.seen desk.new) }
    ensures others { OnlyNotes D.seen D.stopped desk.old desk.new }
    ensures stops { FindsNoMore D.stopped desk.old desk.new }
{
    note_lines(other_fault_note(), desk);
    Status::DiskFault
}

// Notes that the other folder opens to no state, and answers that status. It wants no memory.
fn tell_other_damage<D: Desk>(part: Part, at: u64, desk: &mut D) -> Status
    ensures status { result ≡ Status.Damaged }
    ensures noted { NotesLines (note_of_other_damage part at) (D.seen desk.old) (D.seen desk.new) }
    ensures others { OnlyNotes D.seen D.stopped desk.old desk.new }
    ensures stops { FindsNoMore D.stopped desk.old desk.new }
{
    let note = other_damaged_note(part, at);
    note_lines(note.as_str().as_bytes(), desk);
    Status::Damaged
}

// Notes why the other folder was not opened, and answers that status. It wants no memory.
fn tell_other_closed<D: Desk>(fault: KeepFault, desk: &mut D) -> Status
    requires { MayClose fault }
    ensures told { TellsOther fault result (D.seen desk.old) (D.seen desk.new) }
    ensures others { OnlyNotes D.seen D.stopped desk.old desk.new }
    ensures stops { FindsNoMore D.stopped desk.old desk.new }
{
    match fault {
        KeepFault::Disk => tell_other_fault(desk),
        KeepFault::Damaged { part, at } => tell_other_damage(part, at, desk),
        KeepFault::NoMemory => end_with(Status::NoMemory, desk),
        KeepFault::Full | KeepFault::MarkFull | KeepFault::Spent => unreachable!(),
    }
}

// Says the lines of the changes that lead from a state to one of which the rows were read, unless there was no memory for these.
fn say_between<D: Desk>(
    alloc: Global,
    left: &[Row],
    read: Result<Vec<Row>, AllocError>,
    desk: &mut D,
) -> Status
    requires left { (f : Formats) × (s : State) × AreRowsOf f s left.now }
    requires right { IfOk read (λ rows. (f : Formats) × (s : State) × AreRowsOf f s rows.items) }
    ensures says { (f g : Formats) (s t : State) → AreRowsOf f s left.now → IfOk read (λ rows. AreRowsOf g t rows.items)
        → SaysChanges (change_lines s t) (D.seen desk.old) (D.seen desk.new) result }
    ensures ends { EndsSo D.seen D.stopped desk.old desk.new result }
    ensures read { result ≢ Status.DiskFault }
{
    match read {
        Ok(right) => say_changes(changes(alloc, left, right.as_slice()), desk),
        Err(AllocError) => end_with(Status::NoMemory, desk),
    }
}

// Says the changes that lead from a state, of which all rows are given, to the one to which the other folder opens.
fn compare_from<D: Desk, E: Desk>(
    alloc: Global,
    left: &[Row],
    desk: &mut D,
    other: &mut E,
) -> Status
    requires { (f : Formats) × (s : State) × AreRowsOf f s left.now }
    ensures says { (f : Formats) (s : State) → AreRowsOf f s left.now
        → FindsNoOther E.tells (E.seen other.old) (D.seen desk.old) (D.seen desk.new) result
        ⊎ ComparesTo s E.tells (E.seen other.old) (D.seen desk.old) (D.seen desk.new) result }
    ensures ends { EndsBeside D.seen D.stopped E.seen E.stopped other.old other.new desk.old desk.new result }
{
    match peek_rows(alloc, other) {
        Ok(read) => {
            let (core, format, puts) = read;
            let right = rows_opened(alloc, core, format, puts);
            say_between(alloc, left, right, desk)
        }
        Err(fault) => tell_other_closed(fault, desk),
    }
}

// Goes on with the rows of the folder's state, unless there was no memory for them.
fn compare_read<D: Desk, E: Desk>(
    alloc: Global,
    read: Result<Vec<Row>, AllocError>,
    desk: &mut D,
    other: &mut E,
) -> Status
    requires { IfOk read (λ rows. (f : Formats) × (s : State) × AreRowsOf f s rows.items) }
    ensures says { (f : Formats) (s : State) → IfOk read (λ rows. AreRowsOf f s rows.items)
        → FindsNoOther E.tells (E.seen other.old) (D.seen desk.old) (D.seen desk.new) result
        ⊎ ComparesTo s E.tells (E.seen other.old) (D.seen desk.old) (D.seen desk.new) result }
    ensures ends { EndsBeside D.seen D.stopped E.seen E.stopped other.old other.new desk.old desk.new result }
{
    match read {
        Ok(left) => compare_from(alloc, left.as_slice(), desk, other),
        Err(AllocError) => end_with(Status::NoMemory, desk),
    }
}

// Says the changes that lead from the state to which the folder opens to the one to which the other folder opens, by reading both alone.
// Where one opens to none, that is noted and nothing is said.
fn run_diff<D: Desk, E: Desk>(alloc: Global, desk: &mut D, other: &mut E) -> Status
    ensures { Compares D.tells D.seen D.stopped E.tells E.seen E.stopped other.old other.new desk.old desk.new result }
{
    match peek_rows(alloc, desk) {
        Ok(read) => {
            let (core, format, puts) = read;
            let left = rows_opened(alloc, core, format, puts);
            compare_read(alloc, left, desk, other)
        }
        Err(fault) => tell_closed(fault, desk),
    }
}

/// Runs the program on the words behind its name, with a desk for another folder beside: says what changes between the two folders where
/// the words ask for that, and else runs on the one folder. No byte of either is changed.
pub fn run_beside<D: Desk, E: Desk>(
    alloc: Global,
    words: &[String],
    desk: &mut D,
    other: &mut E,
) -> Status
    ensures runs { RunsBeside D.tells D.seen D.stopped E.tells E.seen E.stopped (map string_bytes words.now) other.old other.new desk.old desk.new result }
{
    if is_diff(words) {
        return run_diff(alloc, desk, other);
    }
    run(alloc, words, desk)
}
