ghost use Rattle.std.specs.Prelude.{◌≡◌, false, true, IsTrue, IfOk, IfErr, OnOk, OnErr};
ghost use Rattle.journal_core.specs.Room.{HoldsRoom};
ghost use Rattle.session_mux.specs.declared.events.Event.TheVariants.{Arrived};
ghost use Rattle.run_notes.specs.Endings.{ComesToEnd};
ghost use Rattle.run_notes.specs.NotedLines.{LeavesNotes};
ghost use Rattle.run_notes.specs.Notes.{event_lines};
ghost use Rattle.run_notes.specs.NotesSoFar.{NotesMore};
ghost use Rattle.serve_loop.specs.AnsweredFrames.{tag};
ghost use Rattle.serve_loop.specs.Answerers.{FailsWithFolder, GoesOn, IsReadyOn, seen_by};
ghost use Rattle.serve_loop.specs.Answering.{progress_at, served_by};
ghost use Rattle.serve_loop.specs.FollowedFolders.{FollowsEvent, FollowsEvents};
ghost use Rattle.serve_loop.specs.KnownReplies.{machine_after};
ghost use Rattle.serve_loop.specs.LeftAlone.{SpeaksAlone};
ghost use Rattle.serve_loop.specs.Turns.{Answers, CutsEvent, CutsTurn, IsCutShort, StopsAlong, StopsEvent, TakesEvent, TakesTurn, Turn, reply_to_frame, unkept, unsaid};
ghost use Rattle.ziti_outside.specs.Causes.{HasCause};
ghost use Rattle.ziti_outside.specs.Moments.{Elapses};

use crate::answering::AnswersFrames;
use channel_frame::Frame;
use ctrl_model::Who;
use run_notes::{Cut, Notes, Sessions, note_fault};
use session_mux::{Event, Form, Mux, MuxFault};
use std::alloc::{AllocError, Global};
use ziti_outside::{Desk, Failed};

/// To which session a reply goes, in an input of which form, and with which sequence number.
#[derive(Clone, Copy)]
pub struct Address {
    pub form: Form,
    pub session: u8,
    pub sequence: u32,
}

// What stands before the frame of a reply.
fn tag_of(alloc: Global, address: Address) -> Result<Vec<u8>, AllocError>
    ensures { IfOk result (λ v. v.items ≡ tag address.form address.session) }
{
    match address.form {
        Form::Plain => Ok(Vec::new(alloc)),
        Form::Trace => Vec::from_slice(alloc, &[4, address.session]),
    }
}

/// Answers one frame of a sender and says the reply. With a folder, a stop at any moment of the turn leaves the machine after the frame, or,
/// where no byte of the reply was taken, that before it.
fn serve_frame<D: Desk, A: AnswersFrames>(
    alloc: Global,
    desk: &mut D,
    answerer: &mut A,
    address: Address,
    who: &Who,
    frame: &Frame,
) -> Result<(), Cut>
    requires able { (A.serving answerer.old).able ≡ true }
    requires ready { IsReadyOn A.needs D.tells D.seen D.stopped desk.old answerer.old }
    ensures ok { OnOk result (TakesTurn (A.answers (A.serving answerer.old).bounds) address who.now frame.now (A.machine D.tells (D.seen desk.old).reads answerer.old) (A.machine D.tells (D.seen desk.new).reads answerer.new) (seen_by A.by_folder D.tells (D.seen desk.old)).said (seen_by A.by_folder D.tells (D.seen desk.new)).said) }
    ensures on { OnOk result (GoesOn (A.serving answerer.old) (A.serving answerer.new)) }
    ensures follows { OnOk result (IsTrue (A.serving answerer.old).folder → IsTrue D.tells
        → (A.answers (A.serving answerer.old).bounds).follows (A.machine D.tells (D.seen desk.old).reads answerer.old) (A.machine D.tells (D.seen desk.new).reads answerer.new) (D.seen desk.old).reads (D.seen desk.new).reads) }
    ensures ready { OnOk result (IsReadyOn A.needs D.tells D.seen D.stopped desk.new answerer.new) }
    ensures cut { IfErr result (λ c. CutsTurn c (A.answers (A.serving answerer.old).bounds) address who.now frame.now (A.machine D.tells (D.seen desk.old).reads answerer.old) (seen_by A.by_folder D.tells (D.seen desk.old)).said (seen_by A.by_folder D.tells (D.seen desk.new)).said) }
    ensures next { IfErr result (λ c. c ≡ Cut.Unsaid → (A.machine D.tells (D.seen desk.new).reads answerer.new) ≡ (A.answers (A.serving answerer.old).bounds).next who.now frame.now (A.machine D.tells (D.seen desk.old).reads answerer.old)) }
    ensures unsaid { IfErr result (λ c. c ≡ Cut.Unsaid → GoesOn (A.serving answerer.old) (A.serving answerer.new) × IsReadyOn A.needs D.tells D.seen D.stopped desk.new answerer.new) }
    ensures say_cause { HasCause (D.seen desk.old).say_faults (D.seen desk.new).say_faults (unsaid result) }
    ensures disk_cause { HasCause (D.seen desk.old).disk_faults (D.seen desk.new).disk_faults (unkept result) }
    ensures notes { LeavesNotes D.seen desk.old desk.new }
    ensures undisked { FailsWithFolder (A.serving answerer.old) result }
    ensures alone { SpeaksAlone D.seen D.stopped desk.old desk.new (A.serving answerer.old) }
    ensures room { HoldsRoom D.tells (A.serving answerer.old).slot D.seen D.stopped desk.old desk.new }
    ensures stops { IsTrue (A.serving answerer.old).folder → IsTrue D.tells → Elapses (D.stopped desk.old) (D.stopped desk.new)
        (Turn (A.answers (A.serving answerer.old).bounds) (A.machine D.tells (D.seen desk.old).reads answerer.old)
        ((A.answers (A.serving answerer.old).bounds).next who.now frame.now (A.machine D.tells (D.seen desk.old).reads answerer.old))
        (reply_to_frame (A.answers (A.serving answerer.old).bounds) address who.now frame.now (A.machine D.tells (D.seen desk.old).reads answerer.old)) (seen_by A.by_folder D.tells (D.seen desk.old)).said) }
{
    let mut bytes = tag_of(alloc, address)?;
    answerer.answer(desk, who, frame, address.sequence, &mut bytes)?;
    match desk.say(bytes.as_slice()) {
        Ok(()) => Ok(()),
        Err(Failed) => Err(Cut::Unsaid),
    }
}

// Answers the frame that arrived of a session, and counts the reply.
fn serve_arrived<D: Desk, A: AnswersFrames>(
    alloc: Global,
    desk: &mut D,
    answerer: &mut A,
    form: Form,
    sessions: &mut Sessions,
    session: u8,
    frame: &Frame,
) -> Result<(), Cut>
    requires able { (A.serving answerer.old).able ≡ true }
    requires ready { IsReadyOn A.needs D.tells D.seen D.stopped desk.old answerer.old }
    ensures ok { OnOk result (TakesEvent form (A.answers (A.serving answerer.old).bounds) (Arrived session frame.now) (served_by sessions.old (A.machine D.tells (D.seen desk.old).reads answerer.old) (seen_by A.by_folder D.tells (D.seen desk.old))) (served_by sessions.new (A.machine D.tells (D.seen desk.new).reads answerer.new) (seen_by A.by_folder D.tells (D.seen desk.new)))) }
    ensures on { OnOk result (GoesOn (A.serving answerer.old) (A.serving answerer.new)) }
    ensures follows { OnOk result (IsTrue (A.serving answerer.old).folder → IsTrue D.tells
        → FollowsEvent (A.answers (A.serving answerer.old).bounds) (Arrived session frame.now) sessions.old (A.machine D.tells (D.seen desk.old).reads answerer.old) (D.seen desk.old).reads (D.seen desk.new).reads) }
    ensures ready { OnOk result (IsReadyOn A.needs D.tells D.seen D.stopped desk.new answerer.new) }
    ensures cut { IfErr result (λ c. CutsEvent c form (A.answers (A.serving answerer.old).bounds) (Arrived session frame.now) sessions.old (A.machine D.tells (D.seen desk.old).reads answerer.old) (seen_by A.by_folder D.tells (D.seen desk.old)).said (seen_by A.by_folder D.tells (D.seen desk.new)).said) }
    ensures next { IfErr result (λ c. c ≡ Cut.Unsaid → (A.machine D.tells (D.seen desk.new).reads answerer.new) ≡ machine_after (A.answers (A.serving answerer.old).bounds) (Arrived session frame.now) sessions.old (A.machine D.tells (D.seen desk.old).reads answerer.old)) }
    ensures unsaid { IfErr result (λ c. c ≡ Cut.Unsaid → GoesOn (A.serving answerer.old) (A.serving answerer.new) × IsReadyOn A.needs D.tells D.seen D.stopped desk.new answerer.new) }
    ensures say_cause { HasCause (D.seen desk.old).say_faults (D.seen desk.new).say_faults (unsaid result) }
    ensures disk_cause { HasCause (D.seen desk.old).disk_faults (D.seen desk.new).disk_faults (unkept result) }
    ensures notes { LeavesNotes D.seen desk.old desk.new }
    ensures undisked { FailsWithFolder (A.serving answerer.old) result }
    ensures alone { SpeaksAlone D.seen D.stopped desk.old desk.new (A.serving answerer.old) }
    ensures room { HoldsRoom D.tells (A.serving answerer.old).slot D.seen D.stopped desk.old desk.new }
    ensures stops { IsTrue (A.serving answerer.old).folder → IsTrue D.tells → Elapses (D.stopped desk.old) (D.stopped desk.new)
        (StopsEvent form (A.answers (A.serving answerer.old).bounds) (Arrived session frame.now) sessions.old (A.machine D.tells (D.seen desk.old).reads answerer.old) (seen_by A.by_folder D.tells (D.seen desk.old)).said) }
{
    let address = Address {
        form,
        session,
        sequence: sessions.replied(session),
    };
    serve_frame(
        alloc,
        desk,
        answerer,
        address,
        sessions.sender(session),
        frame,
    )?;
    sessions.reply(session);
    Ok(())
}

// Answers one event: a frame that arrived gets its reply, and a fault is noted.
fn serve_event<D: Desk, A: AnswersFrames>(
    alloc: Global,
    desk: &mut D,
    answerer: &mut A,
    form: Form,
    sessions: &mut Sessions,
    notes: &mut Notes,
    event: Event,
) -> Result<(), Cut>
    requires able { (A.serving answerer.old).able ≡ true }
    requires ready { IsReadyOn A.needs D.tells D.seen D.stopped desk.old answerer.old }
    ensures ok { OnOk result (TakesEvent form (A.answers (A.serving answerer.old).bounds) event (served_by sessions.old (A.machine D.tells (D.seen desk.old).reads answerer.old) (seen_by A.by_folder D.tells (D.seen desk.old))) (served_by sessions.new (A.machine D.tells (D.seen desk.new).reads answerer.new) (seen_by A.by_folder D.tells (D.seen desk.new)))) }
    ensures on { OnOk result (GoesOn (A.serving answerer.old) (A.serving answerer.new)) }
    ensures follows { OnOk result (IsTrue (A.serving answerer.old).folder → IsTrue D.tells
        → FollowsEvent (A.answers (A.serving answerer.old).bounds) event sessions.old (A.machine D.tells (D.seen desk.old).reads answerer.old) (D.seen desk.old).reads (D.seen desk.new).reads) }
    ensures ready { OnOk result (IsReadyOn A.needs D.tells D.seen D.stopped desk.new answerer.new) }
    ensures cut { IfErr result (λ c. CutsEvent c form (A.answers (A.serving answerer.old).bounds) event sessions.old (A.machine D.tells (D.seen desk.old).reads answerer.old) (seen_by A.by_folder D.tells (D.seen desk.old)).said (seen_by A.by_folder D.tells (D.seen desk.new)).said) }
    ensures next { IfErr result (λ c. c ≡ Cut.Unsaid → (A.machine D.tells (D.seen desk.new).reads answerer.new) ≡ machine_after (A.answers (A.serving answerer.old).bounds) event sessions.old (A.machine D.tells (D.seen desk.old).reads answerer.old)) }
    ensures unsaid { IfErr result (λ c. c ≡ Cut.Unsaid → GoesOn (A.serving answerer.old) (A.serving answerer.new) × IsReadyOn A.needs D.tells D.seen D.stopped desk.new answerer.new) }
    ensures say_cause { HasCause (D.seen desk.old).say_faults (D.seen desk.new).say_faults (unsaid result) }
    ensures disk_cause { HasCause (D.seen desk.old).disk_faults (D.seen desk.new).disk_faults (unkept result) }
    ensures noted { OnOk result (NotesMore notes.old.failed notes.new.failed (event_lines event) (D.seen desk.old) (D.seen desk.new)) }
    ensures unnoted { OnErr result ((notes.new ≡ notes.old) × LeavesNotes D.seen desk.old desk.new) }
    ensures undisked { FailsWithFolder (A.serving answerer.old) result }
    ensures alone { SpeaksAlone D.seen D.stopped desk.old desk.new (A.serving answerer.old) }
    ensures room { HoldsRoom D.tells (A.serving answerer.old).slot D.seen D.stopped desk.old desk.new }
    ensures stops { IsTrue (A.serving answerer.old).folder → IsTrue D.tells → Elapses (D.stopped desk.old) (D.stopped desk.new)
        (StopsEvent form (A.answers (A.serving answerer.old).bounds) event sessions.old (A.machine D.tells (D.seen desk.old).reads answerer.old) (seen_by A.by_folder D.tells (D.seen desk.old)).said) }
{
    match event {
        Event::Opened { session, who } => {
            sessions.open(session, who);
            Ok(())
        }
        Event::Arrived { session, frame } => serve_arrived(
            alloc, desk, answerer, form, sessions, session, &frame,
        ),
        Event::Ended { session, fault, at } => {
            note_fault(alloc, session, fault, at, notes, desk)?;
            sessions.end();
            Ok(())
        }
        Event::Closed { session, rest } => {
            sessions.close(session, rest);
            Ok(())
        }
    }
}

/// Answers the events of an input in order. Answers the place of the bad record that comes behind them, if one does.
pub fn serve_events<D: Desk, A: AnswersFrames>(
    alloc: Global,
    desk: &mut D,
    answerer: &mut A,
    form: Form,
    mux: &mut Mux,
    sessions: &mut Sessions,
    notes: &mut Notes,
) -> Result<Option<u64>, Cut>
    requires able { (A.serving answerer.old).able ≡ true }
    requires ready { IsReadyOn A.needs D.tells D.seen D.stopped desk.old answerer.old }
    ensures ok { OnOk result ((told : Answers form (A.answers (A.serving answerer.old).bounds) (progress_at sessions.old (A.machine D.tells (D.seen desk.old).reads answerer.old) mux.old notes.old.failed (seen_by A.by_folder D.tells (D.seen desk.old)))
        (progress_at sessions.new (A.machine D.tells (D.seen desk.new).reads answerer.new) mux.new notes.new.failed (seen_by A.by_folder D.tells (D.seen desk.new))))
        × (IsTrue (A.serving answerer.old).folder → IsTrue D.tells → FollowsEvents (A.answers (A.serving answerer.old).bounds) told.answered sessions.old (A.machine D.tells (D.seen desk.old).reads answerer.old) (D.seen desk.old).reads (D.seen desk.new).reads)) }
    ensures end { IfOk result (λ bad. ComesToEnd mux.new bad) }
    ensures on { OnOk result (GoesOn (A.serving answerer.old) (A.serving answerer.new)) }
    ensures ready { OnOk result (IsReadyOn A.needs D.tells D.seen D.stopped desk.new answerer.new) }
    ensures cut { IfErr result (λ c. IsCutShort c form (A.answers (A.serving answerer.old).bounds) (progress_at sessions.old (A.machine D.tells (D.seen desk.old).reads answerer.old) mux.old notes.old.failed (seen_by A.by_folder D.tells (D.seen desk.old)))
        (A.machine D.tells (D.seen desk.new).reads answerer.new) (record { failed = notes.new.failed; desk = seen_by A.by_folder D.tells (D.seen desk.new) })) }
    ensures unsaid { IfErr result (λ c. c ≡ Cut.Unsaid → GoesOn (A.serving answerer.old) (A.serving answerer.new) × IsReadyOn A.needs D.tells D.seen D.stopped desk.new answerer.new) }
    ensures say_cause { HasCause (D.seen desk.old).say_faults (D.seen desk.new).say_faults (unsaid result) }
    ensures disk_cause { HasCause (D.seen desk.old).disk_faults (D.seen desk.new).disk_faults (unkept result) }
    ensures undisked { FailsWithFolder (A.serving answerer.old) result }
    ensures alone { SpeaksAlone D.seen D.stopped desk.old desk.new (A.serving answerer.old) }
    ensures room { HoldsRoom D.tells (A.serving answerer.old).slot D.seen D.stopped desk.old desk.new }
    ensures stops { IsTrue (A.serving answerer.old).folder → IsTrue D.tells → Elapses (D.stopped desk.old) (D.stopped desk.new)
        (StopsAlong form (A.answers (A.serving answerer.old).bounds) sessions.old (A.machine D.tells (D.seen desk.old).reads answerer.old) mux.old (seen_by A.by_folder D.tells (D.seen desk.old)).said) }
{
    'events: loop {
        match mux.next() {
            Ok(Some(event)) => {
                serve_event(alloc, desk, answerer, form, sessions, notes, event)?;
            }
            Ok(None) => return Ok(None),
            Err(MuxFault::BadRecord { at }) => return Ok(Some(at)),
            Err(MuxFault::NoMemory) => return Err(Cut::NoMemory),
        }
    }
}
