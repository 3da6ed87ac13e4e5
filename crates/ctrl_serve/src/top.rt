ghost use Rattle.std.specs.Prelude.{◌≡◌, ◌⊎◌, ◌≢◌, ℕ, ◌≤◌, ◌^◌, List, [], ◌∷◌, codes, None, Some};
ghost use Rattle.journal_core.specs.Room.{HoldsRoom};
ghost use Rattle.ctrl_model.specs.State.{start};
ghost use Rattle.session_mux.specs.declared.sessions.Form.TheVariants.{Plain};
ghost use Rattle.ctrl_serve.specs.FrameAnswer.{no_bounds, alone};
ghost use Rattle.ctrl_serve.specs.CommandLine.{form_of, texts};
ghost use Rattle.ctrl_serve.specs.declared.command_line.Form.TheVariants.{Advise};
ghost use Rattle.ctrl_serve.specs.FolderWords.{Advises};
ghost use Rattle.run_notes.specs.NotedLines.{RisesOnce};
ghost use Rattle.ctrl_serve.specs.Runs.{CountsFaults, IsDiskCaused, IsWriteCaused};
ghost use Rattle.ctrl_serve.specs.Headline.{folder_bounds, program_bounds, taking_of, AreBounds, IsLeftAlone, IsUnopened, OnlySaysAndNotes, Refuses, Replays, Serves, Runs};

use crate::bounds::Bounds;
use crate::command_line::{Form, form_of};
use crate::controller::{AloneController, KeptController};
use crate::folder::{run_compact, run_look, store_bounds, tell_closed};
use crate::following::run_follow;
use crate::loads::run_load;
use crate::looking::Look;
use crate::shipping::run_ship;
use ctrl_core::Core;
use ctrl_keep::Kept;
use run_notes::{Cut, Status, note_lines, status_line, tell_cut};
use serve_loop::run_on;
use std::alloc::Global;
use ziti_outside::{Desk, Source};

// Runs without a folder, from the start.
fn run_dry<S: Source, D: Desk>(alloc: Global, most: u64, source: &mut S, desk: &mut D) -> Status
    requires { most ≤ 2 ^ 32 }
    ensures serves { Serves (taking_of Plain most) no_bounds (alone start) (S.left source.old) (S.left source.new) (D.seen desk.old) (D.seen desk.new) result }
    ensures counts { CountsFaults S.left S.faults D.seen source.old source.new desk.old desk.new result }
    ensures undisked { result ≢ Status.DiskFault }
    ensures others { OnlySaysAndNotes D.seen D.stopped desk.old desk.new }
{
    match Core::empty(alloc) {
        Ok(core) => {
            let mut controller = AloneController { core };
            let form = session_mux::Form::Plain;
            let status = run_on(alloc, most, form, &mut controller, source, desk);
            drop(controller);
            status
        }
        Err(_) => tell_cut(Cut::NoMemory, desk),
    }
}

// Runs on the folder, from the state to which it opens.
fn run_replay<S: Source, D: Desk>(
    alloc: Global,
    bounds: Bounds,
    form: session_mux::Form,
    source: &mut S,
    desk: &mut D,
) -> Status
    requires { AreBounds bounds }
    ensures replays { Refuses (folder_bounds bounds) D.tells D.seen D.stopped source.old source.new desk.old desk.new result
        ⊎ Replays (taking_of form bounds.input) (folder_bounds bounds)
        (record { left = S.left; faults = S.faults; tells = D.tells; seen = D.seen; stopped = D.stopped })
        source.old source.new desk.old desk.new result }
    ensures counts { CountsFaults S.left S.faults D.seen source.old source.new desk.old desk.new result }
    ensures room { HoldsRoom D.tells (folder_bounds bounds).slot D.seen D.stopped desk.old desk.new }
{
    match Kept::open(alloc, desk, store_bounds(bounds)) {
        Ok(kept) => {
            let mut controller = KeptController { kept };
            let status = run_on(alloc, bounds.input, form, &mut controller, source, desk);
            drop(controller);
            status
        }
        Err(fault) => tell_closed(fault, desk),
    }
}

// Says the report on the two names of the words, by the folder.
fn run_advise<D: Desk>(alloc: Global, words: &[String], desk: &mut D) -> Status
    requires { form_of (texts words.now) ≡ Some Advise }
    ensures advises { (i s : List ℕ) → texts words.now ≡ codes "advise" ∷ i ∷ s ∷ []
        → IsUnopened None D.tells D.seen D.stopped desk.old desk.new result
        ⊎ Advises i s D.tells (D.seen desk.old) (D.seen desk.new) result }
    ensures alone { IsLeftAlone D.seen D.stopped desk.old desk.new }
    ensures write_cause { IsWriteCaused (D.seen desk.old).say_faults (D.seen desk.new).say_faults result }
    ensures disk_cause { IsDiskCaused (D.seen desk.old).disk_faults (D.seen desk.new).disk_faults result }
    ensures counted { RisesOnce (D.seen desk.old).note_faults (D.seen desk.new).note_faults }
{
    let [_, identity, service] = words else {
        unreachable!()
    };
    let look = Look::Advice {
        identity: identity.as_bytes(),
        service: service.as_bytes(),
    };
    run_look(alloc, &look, desk)
}

/// Runs the controller on the words after the program's name, within bounds.
///
/// The lines of words are `dry`, `replay`, `replay --sessions`, `audit`, `compact`, `load N`, `advise I S` and `ship N`. Under the first three the input is taken, up
/// to `bounds.input` bytes and at most 65,536 at a time; its whole frames are answered in the order in which they are completed, each before
/// more is taken, and their replies are said. A fault of plain input and a bad record of a trace end the reading. Of the input one piece is
/// held, and of each live session at most one unfinished frame. Under `replay` the folder is opened before, and keeps each change before its
/// reply is said. The others take nothing. Under `audit` the folder is read alone, and the counts line of its state is said; under `advise I S` the
/// report on the identity and the service of these names, and under `ship N` what the folder keeps from the serial N on, as frames. `compact` compacts the folder, or ends with `FolderFull` where its bounds have no room. Under `load N` the generated frames of the number are answered
/// without a folder, and the counts line is said. At the end no slot of the folder reads longer than `bounds.slot` bytes, unless it read longer at
/// the start; then it reads no longer than that, and so it is of what a stop may leave. Want of memory may end the run early, with the status
/// `NoMemory`; it is the one answer without a cause in the contract. docs/PROMISES.md tells what each part of the clause promises.
pub fn run_within<S: Source, D: Desk>(
    alloc: Global,
    words: &Vec<String>,
    bounds: Bounds,
    source: &mut S,
    desk: &mut D,
) -> Status
    requires { AreBounds bounds }
    ensures runs { Runs (record { left = S.left; faults = S.faults; tells = D.tells; seen = D.seen; stopped = D.stopped })
        bounds (texts words.now.items) (form_of (texts words.now.items)) source.old source.new desk.old desk.new result }
{
    match form_of(words.as_slice()) {
        Some(Form::Dry) => run_dry(alloc, bounds.input, source, desk),
        Some(Form::Replay(form)) => run_replay(alloc, bounds, form, source, desk),
        Some(Form::Audit) => run_look(alloc, &Look::Counts, desk),
        Some(Form::Compact) => run_compact(alloc, store_bounds(bounds), desk),
        Some(Form::Load(number)) => run_load(alloc, number, desk),
        Some(Form::Advise) => run_advise(alloc, words.as_slice(), desk),
        Some(Form::Ship(from)) => run_ship(alloc, from, desk),
        Some(Form::Follow) => run_follow(alloc, bounds, source, desk),
        None => {
            note_lines(status_line(Status::Usage), desk);
            Status::Usage
        }
    }
}

/// Runs the controller as the program does: within 2^32 bytes of input.
pub fn run<S: Source, D: Desk>(
    alloc: Global,
    words: &Vec<String>,
    source: &mut S,
    desk: &mut D,
) -> Status
    ensures runs { Runs (record { left = S.left; faults = S.faults; tells = D.tells; seen = D.seen; stopped = D.stopped })
        program_bounds (texts words.now.items) (form_of (texts words.now.items)) source.old source.new desk.old desk.new result }
{
    run_within(alloc, words, Bounds::PROGRAM, source, desk)
}
