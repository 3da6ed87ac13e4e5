ghost use Rattle.std.specs.Prelude.{◌≡◌, ◌⊎◌, ◌≢◌, ℕ, List, IfOk, Some, map};
ghost use Rattle.std.specs.String.{string_bytes};
ghost use Rattle.ziti_outside.specs.Untouched.{OnlyNotes};
ghost use Rattle.run_notes.specs.NotedLines.{FindsNoMore, NotesLines};
ghost use Rattle.zitilook.specs.Headline.{Runs};
ghost use Rattle.zitilook.specs.LookedTexts.{HasNames, asked_name as asked, told_by, told_under};
ghost use Rattle.zitilook.specs.Looks.{FindsNone, Looks, Refuses, SaysText, Tells, found};
ghost use Rattle.zitilook.specs.Notes.{absent_note as note_of_absence, damaged_note as note_of_damage, notes_of};
ghost use Rattle.zitilook.specs.OpenedRows.{MayClose};
ghost use Rattle.zitilook.specs.Steps.{EndsSo, TellsClosed};
ghost use Rattle.zitilook.specs.Words.{asked_of};

use crate::examining::run_doctor;
use crate::notes::{absent_note, damaged_note, misnamed_note, status_note, unknown_note};
use crate::pages::page_text;
use crate::status::Status;
use crate::telling::{Look, asked_name, text_of};
use crate::words::{Asked, Place, asked_of, word_at};
use ctrl_keep::{KeepFault, peek_rows};
use ctrl_model::Bytes;
use run_notes::note_lines;
use std::alloc::{AllocError, Global};
use ziti_outside::{Desk, Failed, Part};

/// Notes a status that tells nothing else, and answers it.
pub fn end_with<D: Desk>(status: Status, desk: &mut D) -> Status
    ensures status { result ≡ status }
    ensures noted { NotesLines (notes_of status) (D.seen desk.old) (D.seen desk.new) }
    ensures others { OnlyNotes D.seen D.stopped desk.old desk.new }
    ensures stops { FindsNoMore D.stopped desk.old desk.new }
{
    note_lines(status_note(status), desk);
    status
}

// Says a text, and answers how the run ended.
fn say_text<D: Desk>(text: &[u8], desk: &mut D) -> Status
    ensures says { SaysText text.now (D.seen desk.old) (D.seen desk.new) result }
    ensures made { result ≢ Status.NoMemory }
    ensures ends { EndsSo D.seen D.stopped desk.old desk.new result }
{
    match desk.say(text) {
        Ok(()) => end_with(Status::Done, desk),
        Err(Failed) => end_with(Status::WriteFault, desk),
    }
}

// Says a text, unless there was no memory to make it.
fn say_made<D: Desk>(made: Result<Bytes, AllocError>, desk: &mut D) -> Status
    ensures says { (wanted : List ℕ) → IfOk made (λ t. t ≡ wanted) → SaysText wanted (D.seen desk.old) (D.seen desk.new) result }
    ensures ends { EndsSo D.seen D.stopped desk.old desk.new result }
{
    match made {
        Ok(text) => say_text(text.as_slice(), desk),
        Err(_) => end_with(Status::NoMemory, desk),
    }
}

// Notes that the folder opens to no state, and answers that status. It wants no memory.
fn tell_damage<D: Desk>(part: Part, at: u64, desk: &mut D) -> Status
    ensures status { result ≡ Status.Damaged }
    ensures noted { NotesLines (note_of_damage part at) (D.seen desk.old) (D.seen desk.new) }
    ensures others { OnlyNotes D.seen D.stopped desk.old desk.new }
    ensures stops { FindsNoMore D.stopped desk.old desk.new }
{
    let note = damaged_note(part, at);
    note_lines(note.as_str().as_bytes(), desk);
    Status::Damaged
}

/// Notes why the folder was not opened, and answers that status. It wants no memory.
pub fn tell_closed<D: Desk>(fault: KeepFault, desk: &mut D) -> Status
    requires { MayClose fault }
    ensures told { TellsClosed fault result (D.seen desk.old) (D.seen desk.new) }
    ensures others { OnlyNotes D.seen D.stopped desk.old desk.new }
    ensures stops { FindsNoMore D.stopped desk.old desk.new }
{
    match fault {
        KeepFault::Disk => end_with(Status::DiskFault, desk),
        KeepFault::Damaged { part, at } => tell_damage(part, at, desk),
        KeepFault::NoMemory => end_with(Status::NoMemory, desk),
        KeepFault::Full | KeepFault::MarkFull | KeepFault::Spent => unreachable!(),
    }
}

/// Notes a word that names nothing, or a line of the input at fault, unless there was no memory for the note.
pub fn tell_refused<D: Desk>(note: Result<String, AllocError>, desk: &mut D) -> Status
    ensures told { (wanted : List ℕ) → IfOk note (λ n. string_bytes n ≡ wanted) → Refuses wanted (D.seen desk.old) (D.seen desk.new) result }
    ensures ends { EndsSo D.seen D.stopped desk.old desk.new result }
{
    match note {
        Ok(note) => {
            note_lines(note.as_bytes(), desk);
            Status::Unknown
        }
        Err(AllocError) => end_with(Status::NoMemory, desk),
    }
}

// Says a text, or notes that none has the name where it is empty.
fn say_found<D: Desk>(alloc: Global, name: &str, text: &[u8], desk: &mut D) -> Status
    ensures tells { Tells (found (note_of_absence name.now) text.now) (D.seen desk.old) (D.seen desk.new) result }
    ensures ends { EndsSo D.seen D.stopped desk.old desk.new result }
{
    if text.is_empty() {
        return tell_refused(absent_note(alloc, name), desk);
    }
    say_text(text, desk)
}

// Says a text, unless there was no memory to make it, or notes that none has the name where it is empty.
fn say_found_made<D: Desk>(
    alloc: Global,
    name: &str,
    made: Result<Bytes, AllocError>,
    desk: &mut D,
) -> Status
    ensures tells { (wanted : List ℕ) → IfOk made (λ t. t ≡ wanted) → Tells (found (note_of_absence name.now) wanted) (D.seen desk.old) (D.seen desk.new) result }
    ensures ends { EndsSo D.seen D.stopped desk.old desk.new result }
{
    match made {
        Ok(text) => say_found(alloc, name, text.as_slice(), desk),
        Err(_) => end_with(Status::NoMemory, desk),
    }
}

// Tells a text that was asked for, unless there was no memory to make it.
fn tell_made<D: Desk>(
    alloc: Global,
    look: &Look,
    made: Result<Bytes, AllocError>,
    desk: &mut D,
) -> Status
    ensures tells { (wanted : List ℕ) → IfOk made (λ t. t ≡ wanted) → Tells (told_under (asked look.now) wanted) (D.seen desk.old) (D.seen desk.new) result }
    ensures ends { EndsSo D.seen D.stopped desk.old desk.new result }
{
    match asked_name(look) {
        Some(name) => say_found_made(alloc, name, made, desk),
        None => say_made(made, desk),
    }
}

// Tells what is asked for of the state to which the folder opens, by reading it alone. Where it opens to none, that is noted and
// nothing is said.
fn run_look<D: Desk>(alloc: Global, look: &Look, desk: &mut D) -> Status
    requires { HasNames look.now }
    ensures looks { FindsNone D.tells (D.seen desk.old) (D.seen desk.new) result
        ⊎ Looks (told_by look.now) D.tells (D.seen desk.old) (D.seen desk.new) result }
    ensures ends { EndsSo D.seen D.stopped desk.old desk.new result }
{
    match peek_rows(alloc, desk) {
        Ok(read) => {
            let (core, format, puts) = read;
            let text = text_of(alloc, look, core, format, puts);
            tell_made(alloc, look, text, desk)
        }
        Err(fault) => tell_closed(fault, desk),
    }
}

// Looks, or notes which word names nothing, or says a page: what is asked for with some words.
fn run_asked<D: Desk>(alloc: Global, asked: Asked, words: &[String], desk: &mut D) -> Status
    requires { asked_of (map string_bytes words.now) ≡ Some asked }
    ensures runs { Runs D.tells D.seen D.stopped (map string_bytes words.now) (Some asked) desk.old desk.new result }
{
    let second = word_at(Place::Second, words);
    let third = word_at(Place::Third, words);
    match asked {
        Asked::List(listed) => run_look(alloc, &Look::Lines(listed), desk),
        Asked::Show(listed) => {
            run_look(
                alloc,
                &Look::Line {
                    listed,
                    name: third,
                },
                desk,
            )
        }
        Asked::Why => run_look(
            alloc,
            &Look::Why {
                identity: second,
                service: third,
            },
            desk,
        ),
        Asked::Who => run_look(alloc, &Look::Who { service: second }, desk),
        Asked::Dump => run_look(alloc, &Look::Dump, desk),
        Asked::Picture => run_look(alloc, &Look::Picture, desk),
        Asked::PictureOf => run_look(alloc, &Look::PictureOf { circuit: second }, desk),
        Asked::Doctor => run_doctor(alloc, desk),
        Asked::Unknown => tell_refused(unknown_note(alloc, second), desk),
        Asked::Misnamed(place) => {
            tell_refused(misnamed_note(alloc, word_at(place, words)), desk)
        }
        Asked::Tell(page) => say_text(page_text(page), desk),
    }
}

/// Runs the program on the words behind its name: opens the folder by reading it alone, and says what is asked for of the state to which
/// it opens; or says a page about itself. No byte of the folder is changed.
pub fn run<D: Desk>(alloc: Global, words: &[String], desk: &mut D) -> Status
    ensures runs { Runs D.tells D.seen D.stopped (map string_bytes words.now) (asked_of (map string_bytes words.now)) desk.old desk.new result }
{
    match asked_of(words) {
        Some(asked) => run_asked(alloc, asked, words, desk),
        None => end_with(Status::Usage, desk),
    }
}
