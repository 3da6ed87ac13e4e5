ghost use Rattle.std.specs.Prelude.{◌≡◌, ◌⊎◌, ◌++◌, ◌||◌, [], ◌≢◌, ◌≤◌, true, false, nat_lt, IfOk, OnErr, codes, decimal};
ghost use Rattle.std.specs.List.{flat_map, list_any, range_with_len};
ghost use Rattle.std.specs.String.{string_bytes};
ghost use Rattle.session_mux.specs.Completion.{begins_bad, end_of, events_held};
ghost use Rattle.session_mux.specs.MuxSteps.{HasMoved};
ghost use Rattle.ziti_outside.specs.Untouched.{OnlyNotes};
ghost use Rattle.run_notes.specs.Endings.{ComesToEnd, IsAllGiven, status_at, status_of_cut};
ghost use Rattle.run_notes.specs.Inputs.{leaves_some, rest_at};
ghost use Rattle.run_notes.specs.NotedLines.{FindsNoMore, LeavesNotes, NotesLines, RisesOnce};
ghost use Rattle.run_notes.specs.Notes.{damaged_note, ending_lines, full_note, rest_lines, session_rest_lines, status_lines, trace_note};
ghost use Rattle.run_notes.specs.NotesSoFar.{NotesMore};

use crate::ends::{Cut, End, Full};
use crate::lines::{
    bad_line, damaged_line, full_line, session_rest_line, status_line, trace_rest_line,
};
use crate::notes::{Notes, note_lines};
use crate::sessions::Sessions;
use crate::status::Status;
use session_mux::Mux;
use std::alloc::{AllocError, Global};
use ziti_outside::{Desk, Part};

/// How many session numbers there are.
const NUMBERS: u16 = 256;

// How many bytes of an unfinished frame are left of a session.
fn rest_of(mux: &Mux, sessions: &Sessions, session: u8) -> u64
    requires moved { HasMoved mux.now }
    requires quiet { events_held 0 mux.now.sessions ≡ [] }
    ensures { result ≡ rest_at (end_of mux.now) sessions.now.closed session }
{
    let held = mux.session_rest(session);
    if held == 0 {
        return sessions.closed(session) as u64;
    }
    held as u64
}

// Whether bytes of an unfinished frame are left of any of the first session numbers.
fn has_session_rest(mux: &Mux, sessions: &Sessions, count: u16) -> bool
    requires few { count ≤ 256 }
    requires moved { HasMoved mux.now }
    requires quiet { events_held 0 mux.now.sessions ≡ [] }
    ensures { result ≡ list_any (λ s. nat_lt 0 (rest_at (end_of mux.now) sessions.now.closed s)) (range_with_len 0 count) }
{
    'numbers: for number in 0..count {
        if rest_of(mux, sessions, number as u8) > 0 {
            return true;
        }
    }
    false
}

// Whether bytes are left, of a session or of the trace.
fn has_rest(mux: &Mux, sessions: &Sessions) -> bool
    requires moved { HasMoved mux.now }
    requires quiet { events_held 0 mux.now.sessions ≡ [] }
    ensures { result ≡ leaves_some (end_of mux.now) sessions.now.closed }
{
    has_session_rest(mux, sessions, NUMBERS) || mux.rest() > 0
}

// The lines of what is left of the first session numbers.
fn session_rests(
    alloc: Global,
    mux: &Mux,
    sessions: &Sessions,
    count: u16,
) -> Result<String, AllocError>
    requires few { count ≤ 256 }
    requires moved { HasMoved mux.now }
    requires quiet { events_held 0 mux.now.sessions ≡ [] }
    ensures { IfOk result (λ lines. string_bytes lines ≡ flat_map (λ s. session_rest_lines s (rest_at (end_of mux.now) sessions.now.closed s)) (range_with_len 0 count)) }
{
    let mut lines = String::new(alloc);
    'numbers: for number in 0..count {
        let session = number as u8;
        let line = session_rest_line(alloc, session, rest_of(mux, sessions, session))?;
        lines.push_str(line.as_str())?;
    }
    Ok(lines)
}

// The lines of all that is left, where the status is told by them, or nothing.
fn rests_of(
    alloc: Global,
    mux: &Mux,
    sessions: &Sessions,
    status: Status,
) -> Result<String, AllocError>
    requires moved { HasMoved mux.now }
    requires quiet { events_held 0 mux.now.sessions ≡ [] }
    ensures lines { IfOk result (λ lines. (status ≡ Status.Truncated → string_bytes lines ≡ rest_lines (end_of mux.now) sessions.now.closed) × (status ≢ Status.Truncated → string_bytes lines ≡ [])) }
    ensures memory { OnErr result (status ≡ Status.Truncated) }
{
    if status != Status::Truncated {
        return Ok(String::new(alloc));
    }
    let mut lines = session_rests(alloc, mux, sessions, NUMBERS)?;
    let line = trace_rest_line(alloc, mux.rest())?;
    lines.push_str(line.as_str())?;
    Ok(lines)
}

// The status of a run whose events were all answered.
fn status_of(bad: bool, rest: bool, end: End) -> Status
    ensures { result ≡ status_at bad rest end }
{
    match end {
        End::Fault => Status::ReadFault,
        _ if bad => Status::BadInput,
        End::More => Status::InputTooLong,
        End::Whole if rest => Status::Truncated,
        End::Whole => Status::Done,
    }
}

// Notes a bad record, and then how the run ended.
fn tell_bad_record<D: Desk>(
    alloc: Global,
    at: u64,
    end: End,
    notes: &mut Notes,
    desk: &mut D,
) -> Result<Status, AllocError>
    ensures status { IfOk result (λ s. s ≡ status_at true false end) }
    ensures noted { IfOk result (λ s. NotesMore notes.old.failed notes.new.failed (trace_note (codes "BadRecord at " ++ decimal at) ++ status_lines [] s) (D.seen desk.old) (D.seen desk.new)) }
    ensures unnoted { OnErr result ((notes.new ≡ notes.old) × LeavesNotes D.seen desk.old desk.new) }
    ensures others { OnlyNotes D.seen D.stopped desk.old desk.new }
    ensures stops { FindsNoMore D.stopped desk.old desk.new }
{
    let status = status_of(true, false, end);
    let line = bad_line(alloc, at)?;
    notes.write(line.as_bytes(), desk);
    notes.write(status_line(status), desk);
    Ok(status)
}

// Notes what is left where that tells how the run ended, and then its status.
fn tell_rests<D: Desk>(
    alloc: Global,
    mux: &Mux,
    sessions: &Sessions,
    end: End,
    notes: &mut Notes,
    desk: &mut D,
) -> Result<Status, AllocError>
    requires given { IsAllGiven mux.now }
    ensures status { IfOk result (λ s. s ≡ status_at sessions.now.faulty (leaves_some (end_of mux.now) sessions.now.closed) end) }
    ensures noted { IfOk result (λ s. NotesMore notes.old.failed notes.new.failed (status_lines (rest_lines (end_of mux.now) sessions.now.closed) s) (D.seen desk.old) (D.seen desk.new)) }
    ensures unnoted { OnErr result ((notes.new ≡ notes.old) × LeavesNotes D.seen desk.old desk.new) }
    ensures memory { OnErr result (status_at sessions.now.faulty (leaves_some (end_of mux.now) sessions.now.closed) end ≡ Status.Truncated) }
    ensures others { OnlyNotes D.seen D.stopped desk.old desk.new }
    ensures stops { FindsNoMore D.stopped desk.old desk.new }
{
    let status = status_of(sessions.faulty(), has_rest(mux, sessions), end);
    let lines = rests_of(alloc, mux, sessions, status)?;
    notes.write(lines.as_bytes(), desk);
    notes.write(status_line(status), desk);
    Ok(status)
}

/// Notes how a run ended whose events were all answered, and answers its status. Memory is wanted only for the lines of a bad record and of
/// what is left.
pub fn tell_ending<D: Desk>(
    alloc: Global,
    mux: &Mux,
    sessions: &Sessions,
    bad: Option<u64>,
    end: End,
    notes: &mut Notes,
    desk: &mut D,
) -> Result<Status, AllocError>
    requires end { ComesToEnd mux.now bad }
    ensures status { IfOk result (λ s. s ≡ status_at (sessions.now.faulty || begins_bad (end_of mux.now)) (leaves_some (end_of mux.now) sessions.now.closed) end) }
    ensures noted { IfOk result (λ s. NotesMore notes.old.failed notes.new.failed (ending_lines (end_of mux.now) sessions.now.closed s) (D.seen desk.old) (D.seen desk.new)) }
    ensures unnoted { OnErr result ((notes.new ≡ notes.old) × LeavesNotes D.seen desk.old desk.new) }
    ensures memory { OnErr result ((begins_bad (end_of mux.now) ≡ true) ⊎ (status_at sessions.now.faulty (leaves_some (end_of mux.now) sessions.now.closed) end ≡ Status.Truncated)) }
    ensures others { OnlyNotes D.seen D.stopped desk.old desk.new }
    ensures stops { FindsNoMore D.stopped desk.old desk.new }
{
    match bad {
        Some(at) => tell_bad_record(alloc, at, end, notes, desk),
        None => tell_rests(alloc, mux, sessions, end, notes, desk),
    }
}

// The status of a run that was cut short.
fn status_by(cut: Cut) -> Status
    ensures { result ≡ status_of_cut cut }
{
    match cut {
        Cut::NoMemory => Status::NoMemory,
        Cut::Disk => Status::DiskFault,
        Cut::Unsaid => Status::WriteFault,
    }
}

/// Notes what cut a run short behind what it noted, and answers its status.
pub fn tell_cut_behind<D: Desk>(cut: Cut, notes: &mut Notes, desk: &mut D) -> Status
    ensures status { result ≡ status_of_cut cut }
    ensures noted { NotesMore notes.old.failed notes.new.failed (status_lines [] result) (D.seen desk.old) (D.seen desk.new) }
    ensures others { OnlyNotes D.seen D.stopped desk.old desk.new }
    ensures stops { FindsNoMore D.stopped desk.old desk.new }
{
    let status = status_by(cut);
    notes.write(status_line(status), desk);
    status
}

/// Notes what cut a run short, and answers its status.
pub fn tell_cut<D: Desk>(cut: Cut, desk: &mut D) -> Status
    ensures status { result ≡ status_of_cut cut }
    ensures told { NotesLines (status_lines [] result) (D.seen desk.old) (D.seen desk.new) }
    ensures counted { RisesOnce (D.seen desk.old).note_faults (D.seen desk.new).note_faults }
    ensures others { OnlyNotes D.seen D.stopped desk.old desk.new }
    ensures stops { FindsNoMore D.stopped desk.old desk.new }
{
    let status = status_by(cut);
    note_lines(status_line(status), desk);
    status
}

/// Notes that the folder opens to no state, and answers that status. It wants no memory.
pub fn tell_damage<D: Desk>(part: Part, at: u64, desk: &mut D) -> Status
    ensures status { result ≡ Status.Damaged }
    ensures told { NotesLines (damaged_note part at) (D.seen desk.old) (D.seen desk.new) }
    ensures counted { RisesOnce (D.seen desk.old).note_faults (D.seen desk.new).note_faults }
    ensures others { OnlyNotes D.seen D.stopped desk.old desk.new }
    ensures stops { FindsNoMore D.stopped desk.old desk.new }
{
    let line = damaged_line(part, at);
    note_lines(line.as_str().as_bytes(), desk);
    Status::Damaged
}

/// Notes what of the folder has no room for a compaction, and answers that status.
pub fn tell_full<D: Desk>(full: Full, desk: &mut D) -> Status
    ensures status { result ≡ Status.FolderFull }
    ensures told { NotesLines (full_note full) (D.seen desk.old) (D.seen desk.new) }
    ensures counted { RisesOnce (D.seen desk.old).note_faults (D.seen desk.new).note_faults }
    ensures others { OnlyNotes D.seen D.stopped desk.old desk.new }
    ensures stops { FindsNoMore D.stopped desk.old desk.new }
{
    note_lines(full_line(full), desk);
    Status::FolderFull
}
