ghost use Rattle.std.specs.Prelude.{◌≡◌, ◌++◌, None, Some, map};
ghost use Rattle.std.specs.Option.{option_map};
ghost use Rattle.std.specs.String.{string_bytes};
ghost use Rattle.ziti_outside.specs.Untouched.{OnlyNotes};
ghost use Rattle.live_lines.specs.Exchanges.{source_of};
ghost use Rattle.live_lines.specs.LiveLines.{reading_of};
ghost use Rattle.live_lines.specs.InTime.{IsInTime};
ghost use Rattle.zitiline.specs.declared.words.Asked.TheVariants.{Turn};
ghost use Rattle.zitiline.specs.declared.words.Form.TheVariants as form;
ghost use Rattle.zitiline.specs.Words.{asked_of};
ghost use Rattle.zitiline.specs.Answers.{fault_of, status_for};
ghost use Rattle.zitiline.specs.Notes.{notes_of, NotesLines};
ghost use Rattle.zitiline.specs.Steps.{note_bytes, answer_notes, SaysAnswer, SaysInput, EndsTold, IsReadCaused, IsWriteCaused, LeavesFolder, taken_status, told_status};
ghost use Rattle.zitiline.specs.Pages.{TellsPage};
ghost use Rattle.zitiline.specs.Headline.{Answers, Runs};

use crate::answers::{Answer, Fault, answer_to, note_of};
use crate::intake::{Cut, take_all};
use crate::notes::{note_lines, status_note};
use crate::pages::page_text;
use crate::status::Status;
use crate::words::{Asked, Form, Page, Whole, asked_of};
use frame_lines::DecodeFault;
use live_lines::{Exchange, Kind, tell_live};
use std::alloc::{AllocError, Global};
use ziti_outside::{Desk, Failed, Source};

// Notes a status that no input decides, and answers it.
fn end_with<D: Desk>(status: Status, desk: &mut D) -> Status
    ensures status { result ≡ status }
    ensures noted { NotesLines (notes_of None status) (D.seen desk.old) (D.seen desk.new) }
    ensures others { OnlyNotes D.seen D.stopped desk.old desk.new }
{
    note_lines(status_note(status), desk);
    status
}

// The status of a taking that was cut short.
fn taken_status(cut: Cut) -> Status
    ensures { result ≡ taken_status cut }
{
    match cut {
        Cut::NoMemory => Status::NoMemory,
        Cut::Fault => Status::ReadFault,
    }
}

// The status of a telling that was cut short.
fn told_status(cut: live_lines::Cut) -> Status
    ensures { result ≡ told_status cut }
{
    match cut {
        live_lines::Cut::NoMemory => Status::NoMemory,
        live_lines::Cut::Unread => Status::ReadFault,
        live_lines::Cut::Unsaid => Status::WriteFault,
    }
}

// The status of an input without a fault.
fn faultless_status(refused: bool) -> Status
    ensures { result ≡ status_for None refused }
{
    if refused {
        Status::Refused
    } else {
        Status::Done
    }
}

// Notes the fault of an input, if there is one, and answers the status that it decides, or else a refusal.
fn end_by<D: Desk>(note: &Option<String>, refused: bool, desk: &mut D) -> Status
    ensures status { result ≡ status_for (option_map string_bytes note.now) refused }
    ensures noted { NotesLines (note_bytes (option_map string_bytes note.now)) (D.seen desk.old) (D.seen desk.new) }
    ensures others { OnlyNotes D.seen D.stopped desk.old desk.new }
{
    match note {
        Some(line) => {
            note_lines(line.as_bytes(), desk);
            Status::BadInput
        }
        None => {
            note_lines(b"", desk);
            faultless_status(refused)
        }
    }
}

fn say_answer<D: Desk>(answer: &Answer, desk: &mut D) -> Status
    ensures says { SaysAnswer result answer.now (D.seen desk.old).said (D.seen desk.new).said }
    ensures noted { NotesLines (answer_notes answer.now result) (D.seen desk.old) (D.seen desk.new) }
    ensures cause { IsWriteCaused (D.seen desk.old).say_faults (D.seen desk.new).say_faults result }
    ensures folder { LeavesFolder D.seen D.stopped desk.old desk.new }
{
    match desk.say(answer.said.as_slice()) {
        Ok(()) => end_by(&answer.note, answer.refused, desk),
        Err(Failed) => end_with(Status::WriteFault, desk),
    }
}

fn answer_input<D: Desk>(alloc: Global, whole: Whole, input: &[u8], desk: &mut D) -> Status
    ensures says { SaysInput result whole input.now (D.seen desk.old).said (D.seen desk.new).said }
    ensures noted { NotesLines (notes_of (fault_of (form.Whole whole) input.now) result) (D.seen desk.old) (D.seen desk.new) }
    ensures cause { IsWriteCaused (D.seen desk.old).say_faults (D.seen desk.new).say_faults result }
    ensures folder { LeavesFolder D.seen D.stopped desk.old desk.new }
{
    match answer_to(alloc, whole, input) {
        Ok(answer) => say_answer(&answer, desk),
        Err(_) => end_with(Status::NoMemory, desk),
    }
}

// Reads the input whole, and says what is to be said of it.
fn run_whole<S: Source, D: Desk>(
    alloc: Global,
    whole: Whole,
    exchange: &mut Exchange<S, D>,
) -> Status
    ensures answers { Answers (form.Whole whole) (S.left (source_of exchange.old)) (S.left (source_of exchange.new)) (D.seen exchange.old.desk) (D.seen exchange.new.desk) result }
    ensures read { IsReadCaused (S.faults (source_of exchange.old)) (S.faults (source_of exchange.new)) result }
    ensures cause { IsWriteCaused (D.seen exchange.old.desk).say_faults (D.seen exchange.new.desk).say_faults result }
    ensures folder { LeavesFolder D.seen D.stopped exchange.old.desk exchange.new.desk }
{
    match take_all(alloc, exchange) {
        Ok(input) => answer_input(alloc, whole, input.as_slice(), &mut exchange.desk),
        Err(cut) => end_with(taken_status(cut), &mut exchange.desk),
    }
}

// Notes the fault of an input that was told as it came, if there is one, and answers the status that it decides.
fn end_told<D: Desk>(alloc: Global, fault: Option<DecodeFault>, desk: &mut D) -> Status
    ensures ends { EndsTold fault (D.seen desk.old) (D.seen desk.new) result }
    ensures others { OnlyNotes D.seen D.stopped desk.old desk.new }
{
    match note_of(alloc, fault.map(Fault::Frame)) {
        Ok(note) => end_by(&note, false, desk),
        Err(AllocError) => end_with(Status::NoMemory, desk),
    }
}

// Says the lines of an input as it comes.
fn run_live<S: Source, D: Desk>(alloc: Global, kind: Kind, exchange: &mut Exchange<S, D>) -> Status
    ensures answers { Answers (form.Live kind) (S.left (source_of exchange.old)) (S.left (source_of exchange.new)) (D.seen exchange.old.desk) (D.seen exchange.new.desk) result }
    ensures in_time { IsInTime (reading_of kind) S.left D.seen exchange.old exchange.new }
    ensures read { IsReadCaused (S.faults (source_of exchange.old)) (S.faults (source_of exchange.new)) result }
    ensures cause { IsWriteCaused (D.seen exchange.old.desk).say_faults (D.seen exchange.new.desk).say_faults result }
    ensures folder { LeavesFolder D.seen D.stopped exchange.old.desk exchange.new.desk }
{
    match tell_live(alloc, kind, exchange) {
        Ok(fault) => end_told(alloc, fault, &mut exchange.desk),
        Err(cut) => end_with(told_status(cut), &mut exchange.desk),
    }
}

fn run_form<S: Source, D: Desk>(alloc: Global, turn: Form, exchange: &mut Exchange<S, D>) -> Status
    ensures { Runs (record { left = S.left; faults = S.faults; tells = D.tells; seen = D.seen; stopped = D.stopped })
        (Some (Turn turn)) exchange.old exchange.new result }
{
    match turn {
        Form::Whole(whole) => run_whole(alloc, whole, exchange),
        Form::Live(kind) => run_live(alloc, kind, exchange),
    }
}

// Says a page about the program.
fn tell_page<D: Desk>(page: Page, desk: &mut D) -> Status
    ensures page { TellsPage page (D.seen desk.old) (D.seen desk.new) result }
    ensures cause { IsWriteCaused (D.seen desk.old).say_faults (D.seen desk.new).say_faults result }
    ensures folder { LeavesFolder D.seen D.stopped desk.old desk.new }
{
    match desk.say(page_text(page)) {
        Ok(()) => end_with(Status::Done, desk),
        Err(_) => end_with(Status::WriteFault, desk),
    }
}

fn run_asked<S: Source, D: Desk>(
    alloc: Global,
    asked: Asked,
    exchange: &mut Exchange<S, D>,
) -> Status
    ensures { Runs (record { left = S.left; faults = S.faults; tells = D.tells; seen = D.seen; stopped = D.stopped })
        (Some asked) exchange.old exchange.new result }
{
    match asked {
        Asked::Turn(turn) => run_form(alloc, turn, exchange),
        Asked::Tell(page) => tell_page(page, &mut exchange.desk),
    }
}

/// Runs the program on the words behind its name: takes the input to its end, says what is to be said of it, and notes its fault; or says a
/// page about itself. The lines of frames and of tagged replies are said as they come, all else once the input was taken.
pub fn run<S: Source, D: Desk>(
    alloc: Global,
    words: &[String],
    exchange: &mut Exchange<S, D>,
) -> Status
    ensures runs { Runs (record { left = S.left; faults = S.faults; tells = D.tells; seen = D.seen; stopped = D.stopped })
        (asked_of (map string_bytes words.now)) exchange.old exchange.new result }
{
    match asked_of(words) {
        Some(asked) => run_asked(alloc, asked, exchange),
        None => end_with(Status::Usage, &mut exchange.desk),
    }
}
