ghost use Rattle.std.specs.Prelude.{◌≡◌, ◌++◌, true, false, [], OnOk, OnErr, codes, decimal};
ghost use Rattle.ziti_outside.specs.Untouched.{OnlyNotes};
ghost use Rattle.run_notes.specs.NotedLines.{FindsNoMore, IsNoteCaused, LeavesNotes, NotesLines, RisesOnce};
ghost use Rattle.run_notes.specs.Notes.{fault_word as word_of_fault, session_note};
ghost use Rattle.run_notes.specs.NotesSoFar.{NotesMore};

use crate::lines::{fault_line, fault_word};
use std::alloc::{AllocError, Global};
use ziti_outside::Desk;

/// What a run notes, line after line: once a note failed it notes nothing more.
#[derive(Drop)]
pub struct Notes {
    failed: bool,
}

/// Notes the lines. Where there are none it makes no call on the desk. Answers whether no note failed.
pub fn note_lines<D: Desk>(lines: &[u8], desk: &mut D) -> bool
    ensures noted { NotesLines lines.now (D.seen desk.old) (D.seen desk.new) }
    ensures none { lines.now ≡ [] → (desk.new ≡ desk.old) × (result ≡ true) }
    ensures cause { IsNoteCaused lines.now (D.seen desk.old) (D.seen desk.new) result }
    ensures counted { RisesOnce (D.seen desk.old).note_faults (D.seen desk.new).note_faults }
    ensures others { OnlyNotes D.seen D.stopped desk.old desk.new }
    ensures stops { FindsNoMore D.stopped desk.old desk.new }
{
    lines.is_empty() || desk.note(lines).is_ok()
}

impl Notes {
    /// Nothing was noted yet.
    pub fn new() -> Notes
        ensures { result.failed ≡ false }
    {
        Notes { failed: false }
    }

    /// Notes the lines, unless a note failed before. Where there are none the desk is left as it is.
    pub fn write<D: Desk>(&mut self, lines: &[u8], desk: &mut D)
        ensures noted { NotesMore self.old.failed self.new.failed lines.now (D.seen desk.old) (D.seen desk.new) }
        ensures none { lines.now ≡ [] → (desk.new ≡ desk.old) × (self.new.failed ≡ self.old.failed) }
        ensures others { OnlyNotes D.seen D.stopped desk.old desk.new }
        ensures stops { FindsNoMore D.stopped desk.old desk.new }
    {
        if !self.failed {
            self.failed = !note_lines(lines, desk);
        }
    }
}

/// Notes the fault of a session at a place, unless a note failed before.
pub fn note_fault<D: Desk>(
    alloc: Global,
    session: u8,
    fault: u8,
    at: u64,
    notes: &mut Notes,
    desk: &mut D,
) -> Result<(), AllocError>
    ensures noted { OnOk result (NotesMore notes.old.failed notes.new.failed (session_note session (word_of_fault fault ++ (codes " at " ++ decimal at))) (D.seen desk.old) (D.seen desk.new)) }
    ensures unnoted { OnErr result ((notes.new ≡ notes.old) × LeavesNotes D.seen desk.old desk.new) }
    ensures others { OnlyNotes D.seen D.stopped desk.old desk.new }
    ensures stops { FindsNoMore D.stopped desk.old desk.new }
{
    let line = fault_line(alloc, session, fault_word(fault), at)?;
    notes.write(line.as_bytes(), desk);
    Ok(())
}
