ghost use Rattle.std.specs.Prelude.{◌≡◌, ◌≢◌, ◌≤◌, ◌^◌, false, true};
ghost use Rattle.journal_core.specs.Room.{HoldsRoom};
ghost use Rattle.serve_loop.specs.Answerers.{GoesOn, IsReadyOn, seen_by};
ghost use Rattle.serve_loop.specs.FaultCounts.{CountsFaults};
ghost use Rattle.serve_loop.specs.LeftAlone.{SpeaksAlone};
ghost use Rattle.serve_loop.specs.Pieces.{intake_of, passage_of};
ghost use Rattle.serve_loop.specs.ServedInputs.{RunsOn};

use crate::answering::AnswersFrames;
use crate::pieces::serve_input;
use run_notes::{Notes, Status, tell_cut_behind};
use session_mux::Form;
use std::alloc::Global;
use ziti_outside::{Desk, Source};

/// Takes an input of a form, up to `most` bytes and at most 65,536 at a time, has its whole frames answered in the order in which they are
/// completed, each before more is taken, and says their replies. A fault of plain input and a bad record of a trace end the reading. What went
/// wrong, and how the run ended, is noted. Of the input one piece is held, and of each live session at most one unfinished frame.
///
/// Want of memory may end the run early, with the status `NoMemory`; it is the one answer without a cause in the contract.
pub fn run_on<S: Source, D: Desk, A: AnswersFrames>(
    alloc: Global,
    most: u64,
    form: Form,
    answerer: &mut A,
    source: &mut S,
    desk: &mut D,
) -> Status
    requires most { most ≤ 2 ^ 32 }
    requires able { (A.serving answerer.old).able ≡ true }
    requires ready { IsReadyOn A.needs D.tells D.seen D.stopped desk.old answerer.old }
    ensures runs { RunsOn (intake_of form most A.answers (A.serving answerer.old) (A.machine D.tells (D.seen desk.old).reads answerer.old) D.tells)
        (passage_of (S.left source.old) (S.left source.new) false (seen_by A.by_folder D.tells (D.seen desk.old)) (D.stopped desk.old) (D.stopped desk.new))
        (A.machine D.tells (D.seen desk.new).reads answerer.new)
        (GoesOn (A.serving answerer.old) (A.serving answerer.new) × IsReadyOn A.needs D.tells D.seen D.stopped desk.new answerer.new)
        (seen_by A.by_folder D.tells (D.seen desk.new)) result }
    ensures counts { CountsFaults S.left S.faults D.seen source.old source.new desk.old desk.new result }
    ensures undisked { (A.serving answerer.old).folder ≡ false → result ≢ Status.DiskFault }
    ensures alone { SpeaksAlone D.seen D.stopped desk.old desk.new (A.serving answerer.old) }
    ensures room { HoldsRoom D.tells (A.serving answerer.old).slot D.seen D.stopped desk.old desk.new }
{
    let mut notes = Notes::new();
    match serve_input(alloc, most, form, answerer, source, &mut notes, desk) {
        Ok(status) => status,
        Err(cut) => tell_cut_behind(cut, &mut notes, desk),
    }
}
