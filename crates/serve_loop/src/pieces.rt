ghost use Rattle.std.specs.Prelude.{◌≡◌, ◌≤◌, ◌^◌, false, true, IsTrue, IfOk, IfErr, None, OnOk, OnErr, length, take};
ghost use Rattle.journal_core.specs.Room.{HoldsRoom};
ghost use Rattle.session_mux.specs.Completion.{start_of};
ghost use Rattle.run_notes.specs.Endings.{ComesToEnd};
ghost use Rattle.run_notes.specs.Inputs.{events_in};
ghost use Rattle.run_notes.specs.KnownSessions.{known_in};
ghost use Rattle.run_notes.specs.NotedLines.{RisesOnce};
ghost use Rattle.serve_loop.specs.Answerers.{FailsWithFolder, GoesOn, IsReadyOn, seen_by};
ghost use Rattle.serve_loop.specs.Answering.{progress_at};
ghost use Rattle.serve_loop.specs.Failures.{TakesUntilFailure};
ghost use Rattle.serve_loop.specs.FollowedFolders.{FollowsEvents};
ghost use Rattle.serve_loop.specs.LeftAlone.{SpeaksAlone};
ghost use Rattle.serve_loop.specs.Pieces.{decided_by, intake_of, passage_of, AnswersInput, CutsInput, EndsPieces, HasFault, IsReadCaused};
ghost use Rattle.serve_loop.specs.Turns.{unkept, unsaid};
ghost use Rattle.ziti_outside.specs.Causes.{HasCause};

use crate::answering::AnswersFrames;
use crate::serving::serve_events;
use run_notes::{Cut, End, Notes, Sessions, Status, tell_ending};
use session_mux::{Form, Mux};
use std::alloc::{AllocError, Global};
use ziti_outside::{Desk, Failed, Source};

/// How many bytes are taken at a time.
const PIECE: usize = 65_536;

/// How the taking of an input ended, and the place of the bad record that comes behind its events, if one does.
#[derive(Clone, Copy)]
pub struct Stop {
    pub end: End,
    pub bad: Option<u64>,
}

fn zeros(alloc: Global, count: usize) -> Result<Vec<u8>, AllocError>
    ensures { IfOk result (λ v. length v.items ≡ count) }
{
    vec![in alloc; 0u8; count]
}

fn first_bytes(bytes: &[u8], most: u64) -> &[u8]
    ensures { result.now ≡ take most bytes.now }
{
    if (bytes.len() as u64) <= most {
        return bytes;
    }
    let (first, _) = bytes.split_at(most as usize);
    first
}

// The sessions of an input of a form, before any byte of it.
fn mux_of(alloc: Global, form: Form) -> Result<Mux, AllocError>
    ensures { IfOk result (λ m. m ≡ start_of form) }
{
    match form {
        Form::Plain => Mux::plain(alloc),
        Form::Trace => Mux::traced(alloc),
    }
}

// Whether the answered bytes decide the input, so that it is read no further.
fn is_decided(form: Form, bad: Option<u64>, sessions: &Sessions) -> bool
    ensures { result ≡ decided_by form bad sessions.now.faulty }
{
    match form {
        Form::Plain => sessions.faulty(),
        Form::Trace => bad.is_some(),
    }
}

// Takes the input a piece at a time, and answers the events of each before it takes more. It ends where the input is decided, where nothing
// is left, where more than `most` bytes were given, and where the source fails.
fn serve_pieces<S: Source, D: Desk, A: AnswersFrames>(
    alloc: Global,
    most: u64,
    form: Form,
    answerer: &mut A,
    source: &mut S,
    mux: &mut Mux,
    sessions: &mut Sessions,
    notes: &mut Notes,
    desk: &mut D,
) -> Result<Stop, Cut>
    requires most { most ≤ 2 ^ 32 }
    requires start { mux.old ≡ start_of form }
    requires known { sessions.old ≡ known_in form }
    requires able { (A.serving answerer.old).able ≡ true }
    requires ready { IsReadyOn A.needs D.tells D.seen D.stopped desk.old answerer.old }
    ensures ok { IfOk result (λ stop. (ends : EndsPieces (intake_of form most A.answers (A.serving answerer.old) (A.machine D.tells (D.seen desk.old).reads answerer.old) D.tells)
        (passage_of (S.left source.old) (S.left source.new) notes.old.failed (seen_by A.by_folder D.tells (D.seen desk.old)) (D.stopped desk.old) (D.stopped desk.new))
        (progress_at sessions.new (A.machine D.tells (D.seen desk.new).reads answerer.new) mux.new notes.new.failed (seen_by A.by_folder D.tells (D.seen desk.new))) stop.end)
        × (IsTrue (A.serving answerer.old).folder → IsTrue D.tells → FollowsEvents (A.answers (A.serving answerer.old).bounds) ends.answers.answered (known_in form) (A.machine D.tells (D.seen desk.old).reads answerer.old) (D.seen desk.old).reads (D.seen desk.new).reads)) }
    ensures end { IfOk result (λ stop. ComesToEnd mux.new stop.bad) }
    ensures fault { IfOk result (λ stop. HasFault stop.end (S.faults source.old) (S.faults source.new)) }
    ensures faultless { OnErr result (S.faults source.new ≡ S.faults source.old) }
    ensures last { IfOk result (λ stop. stop.end ≡ End.Fault → stop.bad ≡ None) }
    ensures on { OnOk result (GoesOn (A.serving answerer.old) (A.serving answerer.new)) }
    ensures ready { OnOk result (IsReadyOn A.needs D.tells D.seen D.stopped desk.new answerer.new) }
    ensures cut { IfErr result (λ c. CutsInput c (intake_of form most A.answers (A.serving answerer.old) (A.machine D.tells (D.seen desk.old).reads answerer.old) D.tells)
        (passage_of (S.left source.old) (S.left source.new) notes.old.failed (seen_by A.by_folder D.tells (D.seen desk.old)) (D.stopped desk.old) (D.stopped desk.new))
        (A.machine D.tells (D.seen desk.new).reads answerer.new) (record { failed = notes.new.failed; desk = seen_by A.by_folder D.tells (D.seen desk.new) })) }
    ensures unsaid { IfErr result (λ c. c ≡ Cut.Unsaid → GoesOn (A.serving answerer.old) (A.serving answerer.new) × IsReadyOn A.needs D.tells D.seen D.stopped desk.new answerer.new) }
    ensures counted { RisesOnce (S.faults source.old) (S.faults source.new) }
    ensures until_failure { TakesUntilFailure S.left S.faults source.old source.new }
    ensures say_cause { HasCause (D.seen desk.old).say_faults (D.seen desk.new).say_faults (unsaid result) }
    ensures disk_cause { HasCause (D.seen desk.old).disk_faults (D.seen desk.new).disk_faults (unkept result) }
    ensures undisked { FailsWithFolder (A.serving answerer.old) result }
    ensures alone { SpeaksAlone D.seen D.stopped desk.old desk.new (A.serving answerer.old) }
    ensures room { HoldsRoom D.tells (A.serving answerer.old).slot D.seen D.stopped desk.old desk.new }
{
    let mut room = zeros(alloc, PIECE)?;
    let piece = room.as_mut_slice();
    let mut taken: u64 = 0;
    'pieces: while taken <= most {
        match source.take(piece) {
            Err(Failed) => return Ok(Stop {
                end: End::Fault,
                bad: None,
            }),
            Ok(0) => return Ok(Stop {
                end: End::Whole,
                bad: None,
            }),
            Ok(count) => {
                mux.feed(first_bytes(&piece[..count], most - taken))?;
                taken += count as u64;
                let bad = serve_events(alloc, desk, answerer, form, mux, sessions, notes)?;
                if is_decided(form, bad, sessions) {
                    return Ok(Stop {
                        end: End::Whole,
                        bad,
                    });
                }
            }
        }
    }
    Ok(Stop {
        end: End::More,
        bad: None,
    })
}

/// Takes the input at most 65,536 bytes at a time, answers the events of its used bytes as they come, and notes how the run ended unless it was
/// cut short. Of the input one piece is held, and of each live session at most one unfinished frame.
pub fn serve_input<S: Source, D: Desk, A: AnswersFrames>(
    alloc: Global,
    most: u64,
    form: Form,
    answerer: &mut A,
    source: &mut S,
    notes: &mut Notes,
    desk: &mut D,
) -> Result<Status, Cut>
    requires most { most ≤ 2 ^ 32 }
    requires able { (A.serving answerer.old).able ≡ true }
    requires ready { IsReadyOn A.needs D.tells D.seen D.stopped desk.old answerer.old }
    ensures answers { AnswersInput result (intake_of form most A.answers (A.serving answerer.old) (A.machine D.tells (D.seen desk.old).reads answerer.old) D.tells)
        (passage_of (S.left source.old) (S.left source.new) notes.old.failed (seen_by A.by_folder D.tells (D.seen desk.old)) (D.stopped desk.old) (D.stopped desk.new))
        (A.machine D.tells (D.seen desk.new).reads answerer.new) (record { failed = notes.new.failed; desk = seen_by A.by_folder D.tells (D.seen desk.new) })
        (λ used. IsTrue (A.serving answerer.old).folder → IsTrue D.tells → FollowsEvents (A.answers (A.serving answerer.old).bounds) (events_in form used) (known_in form) (A.machine D.tells (D.seen desk.old).reads answerer.old) (D.seen desk.old).reads (D.seen desk.new).reads) }
    ensures read { IfOk result (λ status. IsReadCaused (S.faults source.old) (S.faults source.new) status) }
    ensures faultless { OnErr result (S.faults source.new ≡ S.faults source.old) }
    ensures unsaid { IfErr result (λ c. c ≡ Cut.Unsaid → GoesOn (A.serving answerer.old) (A.serving answerer.new) × IsReadyOn A.needs D.tells D.seen D.stopped desk.new answerer.new) }
    ensures on { OnOk result (GoesOn (A.serving answerer.old) (A.serving answerer.new)) }
    ensures ready { OnOk result (IsReadyOn A.needs D.tells D.seen D.stopped desk.new answerer.new) }
    ensures counted { RisesOnce (S.faults source.old) (S.faults source.new) }
    ensures until_failure { TakesUntilFailure S.left S.faults source.old source.new }
    ensures say_cause { HasCause (D.seen desk.old).say_faults (D.seen desk.new).say_faults (unsaid result) }
    ensures disk_cause { HasCause (D.seen desk.old).disk_faults (D.seen desk.new).disk_faults (unkept result) }
    ensures undisked { FailsWithFolder (A.serving answerer.old) result }
    ensures alone { SpeaksAlone D.seen D.stopped desk.old desk.new (A.serving answerer.old) }
    ensures room { HoldsRoom D.tells (A.serving answerer.old).slot D.seen D.stopped desk.old desk.new }
{
    let mut mux = mux_of(alloc, form)?;
    let mut sessions = Sessions::new(alloc)?;
    let stop = serve_pieces(
        alloc,
        most,
        form,
        answerer,
        source,
        &mut mux,
        &mut sessions,
        notes,
        desk,
    )?;
    Ok(tell_ending(alloc, &mux, &sessions, stop.bad, stop.end, notes, desk)?)
}
