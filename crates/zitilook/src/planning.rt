ghost use Rattle.std.specs.Prelude.{◌≡◌, ◌≢◌, ◌⊎◌, List, ℕ, [], map};
ghost use Rattle.std.specs.String.{string_bytes};
ghost use Rattle.ctrl_model.specs.State.{State};
ghost use Rattle.frame_lines.specs.TextReading.{fault_said};
ghost use Rattle.change_lines.specs.PlanTexts.{IsPlan, plan_text};
ghost use Rattle.zitilook.specs.Headline.{RunsOver};
ghost use Rattle.zitilook.specs.Looks.{FindsNone};
ghost use Rattle.zitilook.specs.OpenedRows.{IsOpened};
ghost use Rattle.zitilook.specs.PlanSteps.{IsFaultless, IsPlanned};
ghost use Rattle.zitilook.specs.Plans.{Decides, Plans, PlansOpened, TellsInput, TellsPlan};
ghost use Rattle.zitilook.specs.Steps.{EndsSo};

use crate::comparing::run_beside;
use crate::intake::take_all;
use crate::notes::line_note;
use crate::opening::rows_of;
use crate::running::{end_with, tell_closed, tell_refused};
use crate::status::Status;
use crate::words::is_plan;
use change_lines::{Plan, plan_commands};
use ctrl_core::Core;
use ctrl_keep::peek_rows;
use ctrl_model::Format;
use frame_lines::LineFault;
use row_codec::Batch;
use std::alloc::{AllocError, Global};
use ziti_outside::{Desk, Failed, Source};

// What a plan that tells something says of the commands.
fn status_of(plan: &Plan) -> Status
    ensures decides { (s : State) (input : List ℕ) → IsPlan s input plan.now → (plan_text s input ≡ [] → ⊥) → Decides result s input }
    ensures faultless { IsFaultless result }
{
    if plan.refuses {
        Status::Refused
    } else {
        Status::Differs
    }
}

// Says a plan where it tells something, and answers how the run ended.
fn say_plan<D: Desk>(plan: &Plan, desk: &mut D) -> Status
    ensures says { (s : State) (input : List ℕ) → IsPlan s input plan.now → TellsPlan s input (D.seen desk.old) (D.seen desk.new) result }
    ensures ends { EndsSo D.seen D.stopped desk.old desk.new result }
    ensures read { result ≢ Status.ReadFault }
{
    if plan.text.is_empty() {
        return end_with(Status::Done, desk);
    }
    match desk.say(plan.text.as_slice()) {
        Ok(()) => end_with(status_of(plan), desk),
        Err(Failed) => end_with(Status::WriteFault, desk),
    }
}

// Says a plan, or notes the line at fault, unless there was no memory.
fn tell_planned<D: Desk>(
    alloc: Global,
    planned: Result<Result<Plan, LineFault>, AllocError>,
    desk: &mut D,
) -> Status
    ensures says { (s : State) (input : List ℕ) → IsPlanned planned s input → TellsInput (fault_said input) s input (D.seen desk.old) (D.seen desk.new) result }
    ensures ends { EndsSo D.seen D.stopped desk.old desk.new result }
    ensures read { result ≢ Status.ReadFault }
{
    match planned {
        Ok(Ok(plan)) => say_plan(&plan, desk),
        Ok(Err(fault)) => tell_refused(line_note(alloc, &fault), desk),
        Err(AllocError) => end_with(Status::NoMemory, desk),
    }
}

// The plan of the commands of a text in the state of a folder that was opened, on whose core they are carried out.
fn plan_opened(
    alloc: Global,
    core: &mut Core,
    format: Format,
    puts: &Batch,
    input: &[u8],
) -> Result<Result<Plan, LineFault>, AllocError>
    requires { IsOpened core.old format puts.now }
    ensures { IsPlanned result core.old.state input.now }
{
    let rows = rows_of(alloc, format, puts)?;
    plan_commands(alloc, core, rows.as_slice(), input)
}

// Plans the commands of a text in the state to which the folder opens, by reading it alone. Where it opens to none, that is noted and
// nothing is said.
fn plan_input<D: Desk>(alloc: Global, input: &[u8], desk: &mut D) -> Status
    ensures finds { FindsNone D.tells (D.seen desk.old) (D.seen desk.new) result
        ⊎ PlansOpened D.tells input.now (D.seen desk.old) (D.seen desk.new) result }
    ensures ends { EndsSo D.seen D.stopped desk.old desk.new result }
    ensures read { result ≢ Status.ReadFault }
{
    match peek_rows(alloc, desk) {
        Ok(read) => {
            let (mut core, format, puts) = read;
            let planned = plan_opened(alloc, &mut core, format, &puts, input);
            drop(core);
            tell_planned(alloc, planned, desk)
        }
        Err(fault) => tell_closed(fault, desk),
    }
}

// Reads the input to its end, and plans its commands.
fn run_plan<S: Source, D: Desk>(alloc: Global, source: &mut S, desk: &mut D) -> Status
    ensures { Plans (record { left = S.left; faults = S.faults; tells = D.tells; seen = D.seen; stopped = D.stopped }) source.old source.new desk.old desk.new result }
{
    match take_all(alloc, source) {
        Ok(input) => plan_input(alloc, input.as_slice(), desk),
        Err(cut) => end_with(cut.status(), desk),
    }
}

/// Runs the program on the words behind its name, with an input, and a desk for another folder beside: says what the commands of the input
/// would change where the words ask for that, and else runs on the one folder or the two. No byte of either is changed.
pub fn run_over<S: Source, D: Desk, E: Desk>(
    alloc: Global,
    words: &[String],
    source: &mut S,
    desk: &mut D,
    other: &mut E,
) -> Status
    ensures runs { RunsOver (record { left = S.left; faults = S.faults; tells = D.tells; seen = D.seen; stopped = D.stopped }) E.tells E.seen E.stopped
        (map string_bytes words.now) source.old source.new other.old other.new desk.old desk.new result }
{
    if is_plan(words) {
        return run_plan(alloc, source, desk);
    }
    run_beside(alloc, words, desk, other)
}
